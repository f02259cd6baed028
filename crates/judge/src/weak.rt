// What weak slots name, and the watched cells, which the collector names as they die. Neither keeps a cell.
ghost use Rattle.std.specs.Prelude.{◌≡◌, [], IfOk, None, OnOk, filter, map, replicate};
ghost use Rattle.judge.specs.Weak.{AreUnwatched, Unwatches, Watches, if_present, is_watched, weak_slot};
ghost use Rattle.judge.specs.Weak.{with_weak_slot};

use gz_names::{Name, NameList, NoMemory, Place, WeakNo};
use std::alloc::Global;
use std::collections::{BTreeMap, BTreeSet};

/// What weak slots name, and the cells that are watched.
#[derive(Drop)]
pub struct WeakNames {
    slots: [Option<Name>; 64],
    watched: BTreeSet<Name>,
}

// A name that may be there, if it is present.
fn if_present(places: &BTreeMap<Name, Place>, named: Option<Name>) -> Option<Name>
    ensures { result ≡ if_present places.now named }
{
    let name = named?;
    if places.contains_key(&name) {
        Some(name)
    } else {
        None
    }
}

// Slots lose what is present no longer.
fn lose_absent(slots: &mut [Option<Name>], places: &BTreeMap<Name, Place>)
    ensures { slots.new ≡ map (if_present places.now) slots.old }
{
    for named in slots.iter_mut() {
        *named = if_present(places, *named);
    }
}

impl WeakNames {
    /// Empty slots, and no watched cell.
    pub fn new(alloc: Global) -> Self
        ensures slots { result.slots ≡ replicate 64 None }
        ensures watched { result.watched.keys ≡ [] }
    {
        WeakNames {
            slots: [None; 64],
            watched: BTreeSet::new(alloc),
        }
    }

    /// What a weak slot names.
    pub fn slot(&self, slot: WeakNo) -> Option<Name>
        ensures { result ≡ weak_slot self.now slot }
    {
        self.slots[slot.index() as usize]
    }

    /// A weak slot names a cell, or becomes empty.
    pub fn set_slot(&mut self, slot: WeakNo, named: Option<Name>)
        ensures { self.new ≡ with_weak_slot self.old slot named }
    {
        self.slots[slot.index() as usize] = named;
    }

    pub fn is_watched(&self, name: Name) -> bool
        ensures { result ≡ is_watched self.now name }
    {
        self.watched.contains(&name)
    }

    /// A cell is watched; twice is as once.
    pub fn watch(&mut self, name: Name) -> Result<(), NoMemory>
        ensures { OnOk result (Watches self.old name self.new) }
    {
        self.watched.insert(name)?;
        Ok(())
    }

    /// A cell is watched no longer.
    pub fn unwatch(&mut self, name: Name)
        ensures { Unwatches self.old name self.new }
    {
        self.watched.remove(&name);
    }

    // Those of some names that are watched.
    fn watched_of(&self, alloc: Global, names: &[Name]) -> Result<Vec<Name>, NoMemory>
        ensures { IfOk result (λ watched. watched.items ≡ filter (is_watched self.now) names.now) }
    {
        names
            .iter()
            .copied()
            .filter(|name| self.is_watched(*name))
            .collect(alloc)
    }

    // These names are watched no longer.
    fn unwatch_all(&mut self, names: &[Name])
        ensures slots { self.new.slots ≡ self.old.slots }
        ensures watched { AreUnwatched self.old names.now self.new }
    {
        for name in names {
            self.unwatch(*name);
        }
    }

    /// These names are present no longer. Weak slots lose them; those that are watched are handed out, and are watched
    /// no longer.
    pub fn lose(
        &mut self,
        alloc: Global,
        places: &BTreeMap<Name, Place>,
        names: &[Name],
    ) -> Result<NameList, NoMemory>
        ensures slots { OnOk result (self.new.slots ≡ map (if_present places.now) self.old.slots) }
        ensures told { IfOk result (λ told. told ≡ filter (is_watched self.old) names.now) }
        ensures watched { IfOk result (λ told. AreUnwatched self.old told self.new) }
    {
        let told = self.watched_of(alloc, names)?;
        self.unwatch_all(told.as_slice());
        lose_absent(&mut self.slots, places);
        Ok(NameList::from_vec(told))
    }
}
