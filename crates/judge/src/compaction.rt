// Which cells a compaction moves, and where.
ghost use Rattle.std.specs.Prelude.{◌≡◌, ◌++◌, IfOk, OnOk, count_by, slice_get};
ghost use Rattle.std.specs.BTreeMap as tree;
ghost use Rattle.std.specs.BTreeMap.{IsOrdered};
ghost use Rattle.gz_names.specs.Zones.{zones_in};
ghost use Rattle.colour_defs.specs.Compaction.{FillArenas};
ghost use Rattle.colour_defs.specs.Graph.{is_in_zones};
ghost use Rattle.plain_graph.specs.Indexed.{order_of};
ghost use Rattle.judge.specs.Compaction.{AreLying, Lays, free_in, free_slots};
ghost use Rattle.judge.specs.Places.{AreSpread, place_order};

use crate::tally::{Tally, count_cells};
use gz_names::{Name, NoMemory, Place, SLOT_COUNT, ZoneSet};
use plain_graph::Graph;
use std::alloc::Global;
use std::collections::BTreeMap;

/// What a compaction did.
#[derive(Clone, Copy)]
pub struct Compacted {
    /// How many cells moved.
    pub moved: u64,
    /// How many arenas were given up.
    pub given_up: u32,
}

/// How many arenas the present cells of these zones fill.
pub fn filled(
    graph: &Graph,
    zones: ZoneSet,
    places: &BTreeMap<Name, Place>,
) -> Result<u64, NoMemory>
    ensures filled { IfOk result
        (FillArenas (count_by (λ x. is_in_zones graph.now (zones_in zones) x) (tree.keys places.now))) }
    ensures ordered { OnOk result (IsOrdered order_of places.now) }
{
    let mut tally = Tally::new();
    count_cells(&mut tally, graph, zones, places)?;
    Ok(tally.cells.div_ceil(u64::from(SLOT_COUNT)))
}

/// The cells that lie in these arenas, by their places.
pub fn lying_in(
    alloc: Global,
    arenas: &[u32],
    places: &BTreeMap<Name, Place>,
) -> Result<BTreeMap<Place, Name>, NoMemory>
    requires { AreSpread places.now }
    ensures lying { IfOk result (AreLying arenas.now places.now) }
    ensures ordered { IfOk result (IsOrdered place_order) }
{
    let mut lying = BTreeMap::new(alloc);
    for (name, place) in places {
        lay(&mut lying, arenas, *name, *place)?;
    }
    Ok(lying)
}

// A cell more, if it lies in one of these arenas.
fn lay(
    lying: &mut BTreeMap<Place, Name>,
    arenas: &[u32],
    name: Name,
    place: Place,
) -> Result<(), NoMemory>
    ensures { OnOk result (Lays arenas.now name place lying.old lying.new) }
{
    if !arenas.contains(&place.arena()) {
        return Ok(());
    }
    lying.insert(place, name)?;
    Ok(())
}

/// The slots of these arenas that are not taken, ascending.
pub fn free_places(
    alloc: Global,
    arenas: &[u32],
    taken: &BTreeMap<Place, Name>,
) -> Result<Vec<Place>, NoMemory>
    ensures { IfOk result (λ free. free.items ≡ free_in taken.now arenas.now) }
{
    let mut free = Vec::new(alloc);
    for arena in arenas {
        push_free(&mut free, *arena, taken)?;
    }
    Ok(free)
}

// Those of one arena.
fn push_free(
    free: &mut Vec<Place>,
    arena: u32,
    taken: &BTreeMap<Place, Name>,
) -> Result<(), NoMemory>
    ensures { OnOk result (free.new.items ≡ free.old.items ++ free_slots taken.now arena 0 64) }
{
    for slot in 0..SLOT_COUNT {
        let Some(place) = Place::new(arena, slot) else {
            continue;
        };
        if taken.contains_key(&place) {
            continue;
        }
        free.push(place)?;
    }
    Ok(())
}

/// The place with this index, if there is one.
pub fn place_at(places: &[Place], index: usize) -> Option<Place>
    ensures { result ≡ slice_get places.now index }
{
    places.get(index).copied()
}
