// What weak slots name, and what is watched.
ghost use Rattle.std.specs.Prelude.{◌≡◌, ◌<◌, Bool, Contains, IfOk, OnErr, OnOk, Some, false, filter, length, map, not};
ghost use Rattle.std.specs.Prelude.{slice_get};
ghost use Rattle.std.specs.List.{IsDistinct};
ghost use Rattle.std.specs.Option.{option_map};
ghost use Rattle.gz_names.specs.Moves.{GoApart, moved};
ghost use Rattle.weak_refs.specs.WeakNames.{AnswersBy, is_same, is_watched, names_forwarded, unless_dead, with_slot};
ghost use Rattle.weak_refs.specs.WeakNames.{with_watched, without_dead, without_watched};

use gz_names::{Moves, NoMemory, Place};
use indexmap::IndexSet;
use std::alloc::Global;
use std::marker::Model;

/// The weak slots and the watched cells.
#[derive(Drop)]
pub struct WeakRefs {
    slots: [Option<Place>; 64],
    // Whether a slot was ever filled: till then a group's end looks at none.
    is_used: bool,
    watched: IndexSet<Place>,
}

impl Model for WeakRefs {
    ghost use Rattle.std.specs.Prelude.{◌≡◌, false, None, replicate};
    ghost use Rattle.weak_refs.specs.WeakNames.{WeakNamesState};

    ghost Value = { WeakNamesState };

    ghost view = { λ r. record { slots = r.slots; watched = r.watched.keys } };

    ghost invariant = { λ r. r.is_used ≡ false → r.slots ≡ replicate 64 None };
}

impl WeakRefs {
    ghost use Rattle.weak_refs.specs.WeakNames.{WeakNamesState, no_names};

    /// Empty slots, and no watched cell. It takes no memory.
    pub fn new(alloc: Global) -> Self
        ensures { result ≡ no_names }
    {
        WeakRefs {
            slots: [None; 64],
            is_used: false,
            watched: IndexSet::new(alloc),
        }
    }

    /// A weak slot names a cell, or becomes empty.
    pub fn weaken(&mut self, q: u8, place: Option<Place>)
        requires { q < 64 }
        ensures { self.new ≡ with_slot self.old q place }
    {
        self.slots[q as usize] = place;
        self.is_used = true;
    }

    /// What a weak slot names; `None` exactly where it is empty.
    pub fn named(&self, q: u8) -> Option<Place>
        requires { q < 64 }
        ensures held { slice_get self.now.slots q ≡ Some result }
        ensures count { length self.now.slots ≡ 64 }
    {
        self.slots[q as usize]
    }

    /// A cell is watched from now on; twice is as once. Only this takes memory.
    pub fn watch(&mut self, place: Place) -> Result<(), NoMemory>
        ensures ok { OnOk result (self.new ≡ with_watched self.old place) }
        ensures err { OnErr result (self.new ≡ self.old) }
        ensures fresh { OnErr result (is_watched self.old place ≡ false) }
    {
        self.watched.insert(place)?;
        Ok(())
    }

    /// A cell is watched no longer. False exactly where it was not.
    pub fn unwatch(&mut self, place: Place) -> bool
        ensures was { result ≡ is_watched self.old place }
        ensures rest { self.new ≡ without_watched self.old place }
    {
        self.watched.swap_remove(&place)
    }

    /// Whether a cell is watched.
    pub fn is_watched(&self, place: Place) -> bool
        ensures { result ≡ is_watched self.now place }
    {
        self.watched.contains(&place)
    }

    /// How many cells are watched, each of them once.
    pub fn watched_count(&self) -> usize
        ensures count { result ≡ length self.now.watched }
        ensures apart { IsDistinct is_same self.now.watched }
    {
        self.watched.len()
    }

    /// A watched cell, by its index; `None` past the last.
    pub fn watched_at(&self, index: usize) -> Option<Place>
        ensures { result ≡ slice_get self.now.watched index }
    {
        self.watched.get_index(index).copied()
    }

    /// What is named and watched, at the places to which cells have gone.
    pub fn forwarded(&self, alloc: Global, moves: &Moves) -> Result<Self, NoMemory>
        requires { GoApart (Contains self.now.watched) moves.now }
        ensures { IfOk result (λ names. names ≡ names_forwarded moves.now self.now) }
    {
        let slots = forwarded_slots(&self.slots, moves);
        let watched = forwarded_cells(alloc, &self.watched, moves)?;
        Ok(WeakRefs {
            slots,
            is_used: self.is_used,
            watched,
        })
    }

    /// Empties the slots that name a dead cell, and unwatches the cells that are dead. It takes no memory.
    pub fn drop_dead<D: Fn(Place) -> bool + Drop>(&mut self, dead: D)
        requires { D.IsAlwaysCallable dead }
        ensures { (is_dead : Place → Bool) → AnswersBy (D.post dead) is_dead
            → self.new ≡ without_dead is_dead self.old }
    {
        if self.is_used {
            empty_dead(&mut self.slots, &dead);
        }
        unwatch_dead(&mut self.watched, &dead);
    }
}

// What slots name, where the cells have gone.
fn forwarded_slots(slots: &[Option<Place>], moves: &Moves) -> [Option<Place>; 64]
    requires { length slots.now ≡ 64 }
    ensures { result ≡ map (option_map (moved moves.now)) slots.now }
{
    let mut gone = [None; 64];
    for index in 0..64usize {
        gone[index] = forwarded(slots[index], moves);
    }
    gone
}

// A cell that is named, where it has gone.
fn forwarded(named: Option<Place>, moves: &Moves) -> Option<Place>
    ensures { result ≡ option_map (moved moves.now) named }
{
    Some(moves.moved_to(named?))
}

// A set of cells, where they have gone.
fn forwarded_cells(
    alloc: Global,
    cells: &IndexSet<Place>,
    moves: &Moves,
) -> Result<IndexSet<Place>, NoMemory>
    requires { GoApart (Contains cells.now.keys) moves.now }
    ensures { IfOk result (λ gone. gone.keys ≡ map (moved moves.now) cells.now.keys) }
{
    let mut gone = IndexSet::with_capacity(alloc, cells.len())?;
    for place in cells.as_slice() {
        gone.insert(moves.moved_to(*place))?;
    }
    Ok(gone)
}

// Takes dead cells out of a set.
fn unwatch_dead<D: Fn(Place) -> bool>(watched: &mut IndexSet<Place>, dead: &D)
    requires { D.IsAlwaysCallable dead.now }
    ensures { (is_dead : Place → Bool) → AnswersBy (D.post dead.now) is_dead
        → watched.new.keys ≡ filter (λ place. not (is_dead place)) watched.old.keys }
{
    watched.retain(|place| !dead(*place));
}

// Empties the slots that name a dead cell.
fn empty_dead<D: Fn(Place) -> bool>(slots: &mut [Option<Place>], dead: &D)
    requires { D.IsAlwaysCallable dead.now }
    ensures { (is_dead : Place → Bool) → AnswersBy (D.post dead.now) is_dead
        → slots.new ≡ map (unless_dead is_dead) slots.old }
{
    for named in slots.iter_mut() {
        *named = keep_alive(*named, dead);
    }
}

// What a slot names, if that is not dead.
fn keep_alive<D: Fn(Place) -> bool>(named: Option<Place>, dead: &D) -> Option<Place>
    requires { D.IsAlwaysCallable dead.now }
    ensures { (is_dead : Place → Bool) → AnswersBy (D.post dead.now) is_dead
        → result ≡ unless_dead is_dead named }
{
    let place = named?;
    if dead(place) { None } else { Some(place) }
}

#[cfg(test)]
mod tests {
    use super::*;
    use std::test::Fail;

    #[test]
    fn names_and_loses(rt: HostRuntime) -> Result<(), Fail> {
        let mut weak = WeakRefs::new(rt.alloc());
        let cell = Place::new(7, 5).ok_or("place")?;
        let other = Place::new(8, 63).ok_or("place")?;
        weak.weaken(63, Some(cell));
        weak.weaken(0, Some(other));
        weak.watch(cell)?;
        weak.watch(cell)?;
        weak.watch(other)?;
        assert_eq!(rt; weak.watched_count(), 2);
        assert!(rt; weak.unwatch(other));
        assert!(rt; !weak.unwatch(other));
        weak.drop_dead(|place: Place| place.arena() == 7);
        assert_eq!(rt; (weak.named(63), weak.named(0)), (None, Some(other)));
        assert!(rt; !weak.is_watched(cell));
        assert_eq!(rt; weak.watched_at(0), None);
        Ok(())
    }
}
