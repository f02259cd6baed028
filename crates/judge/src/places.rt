// Where the present cells lie, by their names and by their places. No two of them lie in one place.
ghost use Rattle.std.specs.Prelude.{◌≡◌, ◌<◌, None, OnOk, Some, length};
ghost use Rattle.std.specs.BTreeMap.{Updates, get};
ghost use Rattle.gz_names.specs.declared.numbers.Place.{Place as APlace};
ghost use Rattle.plain_graph.specs.Indexed.{order_of};
ghost use Rattle.judge.specs.Arenas.{AreSameArenas};
ghost use Rattle.judge.specs.Places.{AreLaid, IsEmpty};

use crate::arenas::Arenas;
use gz_names::{Name, NoMemory, Place};
use std::alloc::AllocError;
use std::collections::BTreeMap;

/// A cell that has no place gets one, in which none lies.
pub fn lay(
    places: &mut BTreeMap<Name, Place>,
    arenas: &mut Arenas,
    name: Name,
    place: Place,
) -> Result<(), NoMemory>
    requires absent { get order_of places.old name ≡ None }
    requires made { place.0 < length arenas.old.arenas.items }
    requires below { place.1 < 64 }
    requires empty { IsEmpty arenas.old.lying place }
    ensures arenas { AreSameArenas arenas.old arenas.new }
    ensures updates { OnOk result (Updates order_of places.old places.new name (Some place)) }
    ensures laid { AreLaid places.old arenas.old.lying → AreLaid places.new arenas.new.lying }
{
    arenas.occupy(place, name)?;
    if places.insert(name, place).is_err() {
        arenas.vacate(place);
        return Err(AllocError);
    }
    Ok(())
}

/// A cell lies nowhere from here on.
pub fn lift(places: &mut BTreeMap<Name, Place>, arenas: &mut Arenas, name: Name)
    ensures arenas { AreSameArenas arenas.old arenas.new }
    ensures updates { Updates order_of places.old places.new name None }
    ensures laid { AreLaid places.old arenas.old.lying → AreLaid places.new arenas.new.lying }
{
    if let Some(place) = places.remove(&name) {
        arenas.vacate(place);
    }
}

/// A cell goes from its place to another one, in which none lies.
pub fn shift(
    places: &mut BTreeMap<Name, Place>,
    arenas: &mut Arenas,
    name: Name,
    was: Place,
    place: Place,
) -> Result<(), NoMemory>
    requires at { get order_of places.old name ≡ Some was }
    requires made { place.0 < length arenas.old.arenas.items }
    requires below { place.1 < 64 }
    requires empty { IsEmpty arenas.old.lying place }
    ensures arenas { AreSameArenas arenas.old arenas.new }
    ensures updates { OnOk result (Updates order_of places.old places.new name (Some place)) }
    ensures elsewhere { OnOk result ((q : APlace) → (place ≡ q → ⊥) → IsEmpty arenas.old.lying q
        → IsEmpty arenas.new.lying q) }
    ensures laid { AreLaid places.old arenas.old.lying → AreLaid places.new arenas.new.lying }
{
    arenas.occupy(place, name)?;
    places.insert(name, place)?;
    arenas.vacate(was);
    Ok(())
}
