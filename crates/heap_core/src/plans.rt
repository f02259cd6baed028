// What a command will do to the heap, told before it is done.
ghost use Rattle.std.specs.Prelude.{◌≡◌, None};
ghost use Rattle.heap_core.specs.Plans.{handed_by, made_by};

use gz_names::{CompNo, GrayNo, Kind, Place, Reg, ZoneNo};

/// The change that a command makes, by places.
#[derive(Clone, Copy)]
pub enum Change {
    /// The next zone is made.
    Zone,
    /// The next compartment is made, in a zone.
    Comp(ZoneNo),
    /// An object or a map is made in a compartment of this zone, and a register holds it.
    Cell(Reg, ZoneNo, CompNo, Kind),
    /// The wrapper of a target is made in a compartment of this zone, and a register holds it.
    Wrapper(Reg, ZoneNo, CompNo, Place),
    /// A register holds this, or becomes empty. The flag tells whether the reply names it.
    Register(Reg, Option<Place>, bool),
    /// A gray slot holds this, or becomes empty.
    Slot(GrayNo, Option<Place>),
    /// A field of a cell holds this, or becomes null.
    Field(Place, u8, Option<Place>),
    /// The entry of a map's key has a value: map, key, value.
    Put(Place, Place, Place),
    /// The entry of a map's key is removed, if there is one: map, key.
    Del(Place, Place),
}

/// What a command that is not refused will do. It stays true while no more changes than colours and
/// which cells are delayed, so barriers may run between `Heap::resolve`, which makes it, and
/// `Heap::commit`.
#[derive(Clone, Copy)]
pub struct Plan {
    /// The value that the command overwrites or removes.
    pub overwritten: Option<Place>,
    /// The object or map that a `wrap` is about.
    pub wrapped: Option<Place>,
    /// What it changes.
    pub change: Change,
}

impl Plan {
    /// The present cell that the command hands to its register.
    pub fn handed(&self) -> Option<Place>
        ensures { result ≡ handed_by self.now.change }
    {
        match self.change {
            Change::Register(_, held, _) => held,
            _ => None,
        }
    }

    /// The zone in which the command makes a cell.
    pub fn makes_in(&self) -> Option<ZoneNo>
        ensures { result ≡ made_by self.now.change }
    {
        match self.change {
            Change::Cell(_, zone, _, _) => Some(zone),
            Change::Wrapper(_, zone, _, _) => Some(zone),
            _ => None,
        }
    }

    // A change that overwrites nothing and is about no cell to wrap.
    pub(crate) fn of(change: Change) -> Self
        ensures { result ≡ record { overwritten = None; wrapped = None; change = change } }
    {
        Plan {
            overwritten: None,
            wrapped: None,
            change,
        }
    }
}
