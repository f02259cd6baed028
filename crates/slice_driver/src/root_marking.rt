// Marking the black roots of a collection.
ghost use Rattle.std.specs.Prelude.{◌≡◌, ◌<◌, None, Some, Contains, IfNone, IfSome, IsTrue, length, slice_get};
ghost use Rattle.gz_names.specs.Zones.{HasZone};
ghost use Rattle.heap_core.specs.Shape.{IsPresent, field_at};
ghost use Rattle.heap_core.specs.Heap.{reg_of, without_delayed};
ghost use Rattle.zone_edges.specs.Looks.{AreWrappers, IsWrapperIn};
ghost use Rattle.barriers.specs.Pending.{pending};
ghost use Rattle.barriers.specs.Colours.{IsBlack};
ghost use Rattle.slice_driver.specs.RootMarking.{Blackens, IsNoSource, IsReady, IsTargetAmong, IsTargetOf};
ghost use Rattle.slice_driver.specs.RootMarking.{LeadsElsewhere, Marks};

use barriers::queue;
use cell_bits::Colour;
use gz_names::{Place, Reg, ZoneNo, ZoneSet};
use heap_core::{Heap, Steps};
use mark_stack::{Pile, Stack};
use std::sync::ledger::Ledger;

/// Marks the cells of these zones that registers and pinned roots hold.
pub(crate) fn mark_registers(heap: &mut Heap, stack: &mut Stack, zones: ZoneSet)
    requires ready { IsReady (without_delayed heap.old) (pending heap.old stack.old) }
    requires held { (x : _) → Contains heap.old.shape.regs (Some x) → IsPresent heap.old.shape x }
    ensures { Marks (λ x. Contains heap.old.shape.regs (Some x)) zones
        (without_delayed heap.old) (pending heap.old stack.old)
        (without_delayed heap.new) (pending heap.new stack.new) }
{
    for index in 0..16u8 {
        if let Some(place) = held_in(heap, index) {
            mark_root(heap, stack, zones, place);
        }
    }
    for root in 0..heap.pinned_end() {
        if let Some(place) = heap.pinned(root) {
            mark_root(heap, stack, zones, place);
        }
    }
}

/// Marks the targets in these zones of the black wrappers of other zones. It looks at the wrappers of
/// those zones alone of which one may lead into these.
pub(crate) fn mark_targets<L: Ledger>(
    heap: &mut Heap,
    stack: &mut Stack,
    zones: ZoneSet,
    steps: &mut Steps<L>,
)
    requires counted { heap.old.ledger ≡ Some L.name }
    requires ready { IsReady (without_delayed heap.old) (pending heap.old stack.old) }
    requires wrappers { AreWrappers heap.old.shape }
    ensures { Marks
        (IsTargetAmong (without_delayed heap.old) zones (length heap.old.shape.states)) zones
        (without_delayed heap.old) (pending heap.old stack.old)
        (without_delayed heap.new) (pending heap.new stack.new) }
{
    for index in 0..heap.zones() {
        if let Some(zone) = source_at(heap, zones, index) {
            mark_targets_of(heap, stack, zone, zones, steps);
        }
    }
}

/// The zone of a number, if it is none of these zones and a wrapper of it may lead into them.
pub(crate) fn source_at(heap: &Heap, zones: ZoneSet, index: u8) -> Option<ZoneNo>
    requires index { index < 64 }
    requires wrappers { AreWrappers heap.now.shape }
    ensures some { IfSome result (λ zone. (zone ≡ index) × (HasZone zones.bits index → ⊥)) }
    ensures none { IfNone result (IsNoSource heap.now.shape zones index) }
{
    match outsider_at(zones, index) {
        Some(zone) => (!leads_elsewhere(heap, zone, zones)).then_some(zone),
        None => None,
    }
}

// Whether no wrapper of a zone leads into these zones, as far as the zones of its targets tell.
fn leads_elsewhere(heap: &Heap, zone: ZoneNo, zones: ZoneSet) -> bool
    requires { AreWrappers heap.now.shape }
    ensures { IsTrue result → LeadsElsewhere heap.now.shape zones zone }
{
    heap.target_zones(zone)
        .intersection(zones)
        .first()
        .is_none()
}

// The zone of a number, if it is none of these zones.
fn outsider_at(zones: ZoneSet, index: u8) -> Option<ZoneNo>
    requires { index < 64 }
    ensures some { IfSome result (λ zone. (zone ≡ index) × (HasZone zones.bits index → ⊥)) }
    ensures none { IfNone result (HasZone zones.bits index) }
{
    match ZoneNo::new(index) {
        Some(zone) => (!zones.contains(zone)).then_some(zone),
        None => None,
    }
}

// What a register holds.
fn held_in(heap: &Heap, index: u8) -> Option<Place>
    requires { index < 16 }
    ensures { result ≡ reg_of heap.now index }
{
    match Reg::new(index) {
        Some(reg) => heap.reg(reg),
        None => None,
    }
}

// Marks the targets in these zones of the black wrappers of another zone.
fn mark_targets_of<L: Ledger>(
    heap: &mut Heap,
    stack: &mut Stack,
    zone: ZoneNo,
    zones: ZoneSet,
    steps: &mut Steps<L>,
)
    requires counted { heap.old.ledger ≡ Some L.name }
    requires ready { IsReady (without_delayed heap.old) (pending heap.old stack.old) }
    requires wrappers { AreWrappers heap.old.shape }
    requires other { HasZone zones.bits zone → ⊥ }
    ensures { Marks (IsTargetOf (without_delayed heap.old) zone) zones
        (without_delayed heap.old) (pending heap.old stack.old)
        (without_delayed heap.new) (pending heap.new stack.new) }
{
    let mut cursor = 0;
    while let Some(wrapper) = heap.next_of(zone, &mut cursor) {
        mark_target(heap, stack, zones, wrapper, steps);
    }
}

// Marks the target of a wrapper, if the wrapper is black and its target lies in one of these zones.
fn mark_target<L: Ledger>(
    heap: &mut Heap,
    stack: &mut Stack,
    zones: ZoneSet,
    wrapper: Place,
    steps: &mut Steps<L>,
)
    requires counted { heap.old.ledger ≡ Some L.name }
    requires ready { IsReady (without_delayed heap.old) (pending heap.old stack.old) }
    requires wrapper { (z : _) × IsWrapperIn heap.old.shape z wrapper }
    ensures { Marks
        (λ x. IsBlack heap.old wrapper × (field_at heap.old.shape wrapper 0 ≡ Some x)) zones
        (without_delayed heap.old) (pending heap.old stack.old)
        (without_delayed heap.new) (pending heap.new stack.new) }
{
    if heap.colour(wrapper) == Colour::Black
        && let Some(target) = heap.reached_by(wrapper, 0, steps)
    {
        mark_root(heap, stack, zones, target);
    }
}

// Marks a cell black and pending, if it lies in one of these zones and is not black yet.
fn mark_root(heap: &mut Heap, stack: &mut Stack, zones: ZoneSet, place: Place)
    requires ready { IsReady (without_delayed heap.old) (pending heap.old stack.old) }
    requires present { IsPresent heap.old.shape place }
    ensures { Marks (λ x. x ≡ place) zones
        (without_delayed heap.old) (pending heap.old stack.old)
        (without_delayed heap.new) (pending heap.new stack.new) }
{
    if heap.lies_in(place, zones) {
        mark_black(heap, stack, place);
    }
}

// Marks a cell black and pending, if it is not black yet.
fn mark_black(heap: &mut Heap, stack: &mut Stack, place: Place)
    requires made { place.0 < length heap.old.shape.arenas }
    requires ready { IsReady (without_delayed heap.old) (pending heap.old stack.old) }
    ensures { Blackens (without_delayed heap.old) (pending heap.old stack.old) place
        (without_delayed heap.new) (pending heap.new stack.new) }
{
    if heap.mark_black(place) {
        queue(heap, stack, Pile::Black, place);
    }
}
