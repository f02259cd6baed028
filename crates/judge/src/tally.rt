// What is counted for the bound on the units of a collection.
ghost use Rattle.std.specs.Prelude.{◌≡◌, ◌+◌, ◌<◌, ◌==◌, ◌||◌, ◌∷◌, [], IfOk, OnOk, count_by, if◌then◌else◌, length};
ghost use Rattle.std.specs.BTreeMap as tree;
ghost use Rattle.std.specs.BTreeMap.{IsOrdered};
ghost use Rattle.std.specs.Int.{bit_at};
ghost use Rattle.gz_names.specs.Zones.{zones_in};
ghost use Rattle.colour_defs.specs.Units.{has_delegate_in_zones, holds_delegate_in_zones, is_held_in_zones, unit_limit};
ghost use Rattle.colour_defs.specs.Units.{Tally as ATally, with_woken, with_wrappers};
ghost use Rattle.colour_defs.specs.World.{is_wrapper};
ghost use Rattle.plain_graph.specs.Indexed.{order_of};
ghost use Rattle.judge.specs.Bounds.{IsFirstTally, is_counted, marking_tally, tally_of, with_arenas, with_cells};

use crate::former::is_in;
use colour_defs::Entry;
use gz_names::{Name, NoMemory, Place, ZoneSet};
use plain_graph::Graph;
use std::alloc::AllocError;
use std::collections::BTreeMap;

/// What is counted for the bound on units.
#[derive(Clone, Copy)]
pub struct Tally {
    pub arenas: u64,
    pub cells: u64,
    pub entries: u64,
    pub outside: u64,
    pub wrappers: u64,
    pub zones: u64,
    pub sweeps: u64,
    pub spent: u64,
}

impl Tally {
    pub fn new() -> Self
        ensures { tally_of result ≡ with_arenas 0 }
    {
        Tally {
            arenas: 0,
            cells: 0,
            entries: 0,
            outside: 0,
            wrappers: 0,
            zones: 0,
            sweeps: 0,
            spent: 0,
        }
    }

    /// The most units that a collection may have taken once its marking has begun.
    pub fn limit(&self) -> u128
        ensures { result ≡ unit_limit (tally_of self.now) }
    {
        u128::from(self.arenas)
            + 2 * u128::from(self.cells)
            + 6 * u128::from(self.entries)
            + 64
            + u128::from(self.outside)
            + 2 * u128::from(self.wrappers)
            + 4 * u128::from(self.zones)
            + u128::from(self.sweeps)
    }
}

/// A count, and one more if something is counted.
pub fn with_one(count: u64, is_counted: bool) -> Result<u64, NoMemory>
    ensures { IfOk result (λ more. more ≡ count + (if is_counted then 1 else 0)) }
{
    if !is_counted {
        return Ok(count);
    }
    match count.checked_add(1) {
        None => Err(AllocError),
        Some(more) => Ok(more),
    }
}

fn is_wrapper(name: Name) -> bool
    ensures { result ≡ is_wrapper name }
{
    matches!(name, Name::Wrap(_, _))
}

// Whether a name that may be there is of one of these zones.
fn is_held_in(graph: &Graph, zones: ZoneSet, held: Option<Name>) -> bool
    ensures { result ≡ is_held_in_zones graph.now (zones_in zones) held }
{
    match held {
        None => false,
        Some(name) => is_in(graph, zones, name),
    }
}

// Whether a name is a wrapper whose target is of one of these zones.
fn leads_into(graph: &Graph, zones: ZoneSet, name: Name) -> bool
    ensures { result ≡ has_delegate_in_zones graph.now (zones_in zones) name }
{
    match name {
        Name::Cell(_) => false,
        Name::Wrap(_, target) => is_in(graph, zones, Name::Cell(target)),
    }
}

fn holds_one_into(graph: &Graph, zones: ZoneSet, held: Option<Name>) -> bool
    ensures { result ≡ holds_delegate_in_zones graph.now (zones_in zones) held }
{
    match held {
        None => false,
        Some(name) => leads_into(graph, zones, name),
    }
}

/// Whether an entry of what may be a map and a key counts for a collection of these zones.
pub fn counts_entry(graph: &Graph, zones: ZoneSet, map: Option<Name>, key: Option<Name>) -> bool
    ensures { result ≡ (is_held_in_zones graph.now (zones_in zones) map
        || holds_delegate_in_zones graph.now (zones_in zones) key) }
{
    is_held_in(graph, zones, map) || holds_one_into(graph, zones, key)
}

/// Whether a name that may be there is a wrapper of one of these zones.
pub fn is_wrapper_in(graph: &Graph, zones: ZoneSet, woken: Option<Name>) -> bool
    ensures { (t : ATally) → with_woken graph.now (zones_in zones) woken t ≡ with_wrappers t result }
{
    match woken {
        None => false,
        Some(name) => is_wrapper(name) && is_in(graph, zones, name),
    }
}

// Counts a present cell.
fn count_cell(tally: &mut Tally, graph: &Graph, zones: ZoneSet, name: Name) -> Result<(), NoMemory>
    ensures { OnOk result (tally_of tally.new
        ≡ with_cells graph.now (zones_in zones) (name ∷ []) (tally_of tally.old)) }
{
    let is_inside = is_in(graph, zones, name);
    let is_wrapper = is_wrapper(name);
    tally.cells = with_one(tally.cells, is_inside)?;
    tally.outside = with_one(tally.outside, is_wrapper && !is_inside)?;
    tally.wrappers = with_one(tally.wrappers, is_wrapper && is_inside)?;
    Ok(())
}

/// Counts the present cells.
pub fn count_cells(
    tally: &mut Tally,
    graph: &Graph,
    zones: ZoneSet,
    places: &BTreeMap<Name, Place>,
) -> Result<(), NoMemory>
    ensures counted { OnOk result (tally_of tally.new
        ≡ with_cells graph.now (zones_in zones) (tree.keys places.now) (tally_of tally.old)) }
    ensures ordered { OnOk result (IsOrdered order_of places.now) }
{
    for (name, _) in places {
        count_cell(tally, graph, zones, *name)?;
    }
    Ok(())
}

// Whether an entry counts, whose map and key may be present.
fn is_counted(graph: &Graph, zones: ZoneSet, places: &BTreeMap<Name, Place>, entry: Entry) -> bool
    ensures { result ≡ is_counted graph.now places.now (zones_in zones) entry }
{
    counts_entry(graph, zones, Some(entry.map), Some(entry.key))
        && places.contains_key(&entry.map)
        && places.contains_key(&entry.key)
}

// How many entries count.
fn entry_count(
    graph: &Graph,
    zones: ZoneSet,
    places: &BTreeMap<Name, Place>,
) -> Result<u64, NoMemory>
    ensures { IfOk result (λ count. count
        ≡ count_by (λ e. is_counted graph.now places.now (zones_in zones) e) graph.now.entries) }
{
    let mut count = 0;
    for entry in graph.entries() {
        count = with_one(count, is_counted(graph, zones, places, *entry))?;
    }
    Ok(count)
}

// How many zones there are in a set.
fn zone_count(zones: ZoneSet) -> u64
    ensures { result ≡ length (zones_in zones) }
{
    let mut count = 0;
    for index in 0..64u8 {
        count += u64::from(has_zone(zones, index));
    }
    count
}

fn has_zone(zones: ZoneSet, index: u8) -> bool
    requires { index < 64 }
    ensures { result ≡ (bit_at zones.bits index == 1) }
{
    (zones.bits >> index) & 1 == 1
}

/// What is counted as marking begins, beside the arenas and the units since `gc`.
pub fn marking_tally(
    before: &Tally,
    graph: &Graph,
    zones: ZoneSet,
    places: &BTreeMap<Name, Place>,
) -> Result<Tally, NoMemory>
    ensures is { IfOk result (λ tally. tally_of tally
        ≡ marking_tally graph.now (zones_in zones) places.now (tally_of before.now)) }
    ensures first { IfOk result (λ tally. IsFirstTally graph.now zones places.now (tally_of before.now)
        (tally_of tally)) }
{
    let mut tally = Tally {
        arenas: before.arenas,
        entries: entry_count(graph, zones, places)?,
        zones: zone_count(zones),
        spent: before.spent,
        ..Tally::new()
    };
    count_cells(&mut tally, graph, zones, places)?;
    Ok(tally)
}
