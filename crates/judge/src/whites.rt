// The white cells of groups that have ended, until they are swept.
ghost use Rattle.std.specs.Prelude.{◌≡◌, ◌<◌, ◌≤◌, ℕ, [], IfOk, OnOk, Some, length};
ghost use Rattle.judge.specs.WhiteLists.{AreShort};

use gz_names::{Name, NameList, NoMemory, Place};
use std::alloc::Global;
use std::collections::BTreeMap;

/// White cells that are not yet swept, by the arena in which they lay.
#[derive(Drop)]
pub struct Whites {
    alloc: Global,
    names: BTreeMap<u32, NameList>,
    ghost short: { AreShort names },
}

impl Whites {
    ghost use Rattle.gz_names.specs.declared.numbers.Place.{Place as APlace};
    ghost use Rattle.colour_defs.specs.Ends.{IsAscending};
    ghost use Rattle.judge.specs.Places.{AreSpread};
    ghost use Rattle.judge.specs.Whites.{Adds, AreByArena, Clears, whites_in};

    pub fn new(alloc: Global) -> Self
        ensures { (arena : ℕ) → whites_in result arena ≡ [] }
    {
        Whites {
            alloc,
            names: BTreeMap::new(alloc),
        }
    }

    /// These names, each in the arena in which it lies.
    pub fn of_names(
        alloc: Global,
        places: &BTreeMap<Name, Place>,
        names: &[Name],
    ) -> Result<Self, NoMemory>
        requires spread { AreSpread places.now }
        requires ascending { IsAscending names.now }
        ensures { IfOk result (AreByArena places.now names.now) }
    {
        let mut whites = Whites::new(alloc);
        for name in names {
            whites.add(places.get(name).copied(), *name)?;
        }
        Ok(whites)
    }

    // A name more, if it has a place.
    fn add(&mut self, place: Option<Place>, name: Name) -> Result<(), NoMemory>
        requires { (p : APlace) → place ≡ Some p → length (whites_in self.old p.0) < 64 }
        ensures { OnOk result (Adds self.old place name self.new) }
    {
        let Some(place) = place else {
            return Ok(());
        };
        let arena = place.arena();
        let mut names = self.take(arena);
        names.push(name)?;
        self.names.insert(arena, names)?;
        Ok(())
    }

    /// Those of an arena.
    pub fn of(&self, arena: u32) -> &[Name]
        ensures names { result.now ≡ whites_in self.now arena }
        ensures few { length result.now ≤ 64 }
    {
        match self.names.get(&arena) {
            None => &[],
            Some(names) => names.as_slice(),
        }
    }

    /// Those of an arena, which has none from here on.
    pub fn take(&mut self, arena: u32) -> NameList
        ensures taken { result ≡ whites_in self.old arena }
        ensures clears { Clears self.old arena self.new }
    {
        match self.names.remove(&arena) {
            None => NameList::new(self.alloc),
            Some(names) => names,
        }
    }
}
