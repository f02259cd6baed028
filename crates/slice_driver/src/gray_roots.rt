// Buffering the gray roots of a collection.
ghost use Rattle.std.specs.Prelude.{◌≡◌, ◌<◌, ◌≤◌, ◌+◌, Some, Contains, OnErr, OnOk, length, slice_get, sum_by};
ghost use Rattle.wrappers.specs.WrapperMaps.{list_of};
ghost use Rattle.heap_core.specs.Shape.{IsPresent};
ghost use Rattle.zone_edges.specs.Looks.{IsWrapperIn};
ghost use Rattle.slice_driver.specs.GrayRoots.{Buffers, Gathers, IsFor, IsGrayAmong, IsGrayOf, IsGrayWrapper};
ghost use Rattle.slice_driver.specs.GrayRoots.{IsInSlot, MayGather};
ghost use Rattle.slice_driver.specs.ListedWrappers.{is_outside, listed_below};

use crate::root_marking::source_at;
use cell_bits::Colour;
use gz_names::{GRAY_SLOT_COUNT, GrayNo, NoMemory, Place, ZoneNo, ZoneSet};
use heap_core::{Heap, Steps};
use std::alloc::Global;
use std::sync::ledger::Ledger;

/// Buffers the gray roots of these zones: the cells that gray slots hold, and the gray wrappers of
/// other zones that lead into them. All memory is taken before anything is put in.
pub(crate) fn buffer_gray_roots<L: Ledger>(
    heap: &mut Heap,
    alloc: Global,
    zones: ZoneSet,
    steps: &mut Steps<L>,
) -> Result<(), NoMemory>
    requires counted { heap.old.ledger ≡ Some L.name }
    requires held { (x : _) → Contains heap.old.shape.slots (Some x)
        → IsPresent heap.old.shape x }
    requires gather { MayGather heap.old }
    requires empty { sum_by length heap.old.buffers ≡ 0 }
    ensures ok { OnOk result (Buffers heap.old zones heap.new) }
    ensures err { OnErr result (heap.new ≡ heap.old) }
{
    let mut slots = Vec::with_capacity(alloc, usize::from(GRAY_SLOT_COUNT))?;
    gather_slots(heap, zones, &mut slots)?;
    let mut wrappers = Vec::new(alloc);
    gather_wrappers(heap, zones, steps, &mut wrappers)?;
    heap.buffer_gray(&slots, &wrappers)
}

// Gathers the cells of these zones that gray slots hold, each with its zone.
fn gather_slots(
    heap: &Heap,
    zones: ZoneSet,
    found: &mut Vec<(ZoneNo, Place)>,
) -> Result<(), NoMemory>
    requires held { (x : _) → Contains heap.now.shape.slots (Some x) → IsPresent heap.now.shape x }
    ensures gathered { OnOk result (Gathers (IsInSlot heap.now.shape zones) found.old.items
        found.new.items) }
    ensures few { OnOk result (length found.new.items ≤ length found.old.items + 64) }
{
    for index in 0..GRAY_SLOT_COUNT {
        gather_slot(heap, zones, index, found)?;
    }
    Ok(())
}

// Gathers the gray wrappers of other zones whose targets lie in these zones, each with its
// target's zone. It looks at the wrappers of those zones alone of which one may lead into these.
fn gather_wrappers<L: Ledger>(
    heap: &Heap,
    zones: ZoneSet,
    steps: &mut Steps<L>,
    found: &mut Vec<(ZoneNo, Place)>,
) -> Result<(), NoMemory>
    requires counted { heap.now.ledger ≡ Some L.name }
    requires gather { MayGather heap.now }
    ensures gathered { OnOk result (Gathers
        (IsGrayAmong heap.now zones (length heap.now.shape.states)) found.old.items
        found.new.items) }
    ensures few { OnOk result (length found.new.items ≤ length found.old.items
        + listed_below heap.now.shape (is_outside zones) (length heap.now.shape.states)) }
    ensures zones { length heap.now.shape.states ≤ 64 }
{
    for index in 0..heap.zones() {
        if let Some(zone) = source_at(heap, zones, index) {
            gather_of(heap, zone, zones, steps, found)?;
        }
    }
    Ok(())
}

// Gathers the gray wrappers of one zone whose targets lie in these zones, each with its target's zone.
fn gather_of<L: Ledger>(
    heap: &Heap,
    zone: ZoneNo,
    zones: ZoneSet,
    steps: &mut Steps<L>,
    found: &mut Vec<(ZoneNo, Place)>,
) -> Result<(), NoMemory>
    requires counted { heap.now.ledger ≡ Some L.name }
    requires gather { MayGather heap.now }
    ensures gathered { OnOk result (Gathers (IsGrayOf heap.now zones zone) found.old.items
        found.new.items) }
    ensures few { OnOk result (length found.new.items
        ≤ length found.old.items + length (list_of heap.now.shape.wrappers zone)) }
{
    let mut cursor = 0;
    while let Some(wrapper) = heap.next_of(zone, &mut cursor) {
        gather_wrapper(heap, zones, wrapper, steps, found)?;
    }
    Ok(())
}

// Adds the cell that a gray slot holds, if it lies in one of these zones.
fn gather_slot(
    heap: &Heap,
    zones: ZoneSet,
    index: u8,
    found: &mut Vec<(ZoneNo, Place)>,
) -> Result<(), NoMemory>
    requires index { index < 64 }
    requires held { (x : _) → Contains heap.now.shape.slots (Some x)
        → IsPresent heap.now.shape x }
    ensures gathered { OnOk result (Gathers
        (λ z x. (slice_get heap.now.shape.slots index ≡ Some (Some x))
        × IsFor heap.now.shape zones x x z x) found.old.items found.new.items) }
    ensures few { OnOk result (length found.new.items ≤ length found.old.items + 1) }
    ensures count { length heap.now.shape.slots ≡ 64 }
{
    match slot_at(heap, index) {
        Some(place) => gather(heap, zones, place, place, found),
        None => Ok(()),
    }
}

// What a gray slot holds.
fn slot_at(heap: &Heap, index: u8) -> Option<Place>
    requires { index < 64 }
    ensures held { slice_get heap.now.shape.slots index ≡ Some result }
    ensures count { length heap.now.shape.slots ≡ 64 }
{
    match GrayNo::new(index) {
        Some(slot) => heap.slot(slot),
        None => None,
    }
}

// Adds a wrapper, if it is gray and its target lies in one of these zones.
fn gather_wrapper<L: Ledger>(
    heap: &Heap,
    zones: ZoneSet,
    wrapper: Place,
    steps: &mut Steps<L>,
    found: &mut Vec<(ZoneNo, Place)>,
) -> Result<(), NoMemory>
    requires counted { heap.now.ledger ≡ Some L.name }
    requires wrapper { (z : _) × IsWrapperIn heap.now.shape z wrapper }
    requires sized { length heap.now.colours ≡ length heap.now.shape.arenas }
    ensures gathered { OnOk result (Gathers (IsGrayWrapper heap.now zones wrapper)
        found.old.items found.new.items) }
    ensures few { OnOk result (length found.new.items ≤ length found.old.items + 1) }
{
    if heap.colour(wrapper) != Colour::Gray {
        return Ok(());
    }
    match heap.reached_by(wrapper, 0, steps) {
        Some(target) => gather(heap, zones, target, wrapper, found),
        None => Ok(()),
    }
}

// Adds a place with the zone of a cell, if that is one of these zones.
fn gather(
    heap: &Heap,
    zones: ZoneSet,
    cell: Place,
    place: Place,
    found: &mut Vec<(ZoneNo, Place)>,
) -> Result<(), NoMemory>
    requires { IsPresent heap.now.shape cell }
    ensures gathered { OnOk result (Gathers (IsFor heap.now.shape zones cell place)
        found.old.items found.new.items) }
    ensures few { OnOk result (length found.new.items ≤ length found.old.items + 1) }
{
    let zone = heap.zone_at(cell);
    if zones.contains(zone) {
        found.push((zone, place))?;
    }
    Ok(())
}
