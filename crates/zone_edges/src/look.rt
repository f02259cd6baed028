// The look at one wrapper: which one is next, and the edge that it leads along.
ghost use Rattle.std.specs.Prelude.{◌≡◌, ◌↔◌, ℕ, ◌+◌, ◌<◌, length, None, Some, slice_index, slice_set, IfSome};
ghost use Rattle.std.specs.Prelude.{IfNone, IsTrue};
ghost use Rattle.gz_names.specs.Zones.{HasZone};
ghost use Rattle.gz_names.specs.declared.numbers.Place.{Place as APlace};
ghost use Rattle.heap_core.specs.Shape.{IsDelegate};
ghost use Rattle.zone_edges.specs.Looks.{AreDelegated, AreWrappers, IsKey, IsWrapperIn, LeadsFrom, TakesNext};
ghost use Rattle.zone_edges.specs.Looks.{wrapper_at};

use cell_bits::Colour;
use gz_names::{Place, ZoneNo, ZoneSet};
use heap_core::{Heap, Steps};
use std::sync::ledger::Ledger;

/// The next wrapper of one of these zones by their cursors, and its zone; the zone's cursor is
/// raised. `None` where all cursors are at the end. As long as the current zone is one of them and
/// has wrappers left, it looks at no other.
pub fn next_wrapper(
    heap: &Heap,
    zones: ZoneSet,
    current: Option<ZoneNo>,
    cursors: &mut [u64; 64],
) -> Option<(ZoneNo, Place)>
    requires { AreWrappers heap.now.shape }
    ensures some { IfSome result (λ found. TakesNext heap.now.shape zones.bits cursors.old found.0
        found.1 cursors.new) }
    ensures none { IfNone result ((z : ℕ) → HasZone zones.bits z
        → wrapper_at heap.now.shape z (slice_index cursors.old z) ≡ None) }
    ensures same { IfNone result (cursors.new ≡ cursors.old) }
{
    match next_in_current(heap, zones, current, cursors) {
        Some(found) => Some(found),
        None => next_in_any(heap, zones, cursors),
    }
}

// The next wrapper of the current zone, if that is one of these.
fn next_in_current(
    heap: &Heap,
    zones: ZoneSet,
    current: Option<ZoneNo>,
    cursors: &mut [u64; 64],
) -> Option<(ZoneNo, Place)>
    requires { AreWrappers heap.now.shape }
    ensures some { IfSome result (λ found. TakesNext heap.now.shape zones.bits cursors.old found.0
        found.1 cursors.new) }
    ensures same { IfNone result (cursors.new ≡ cursors.old) }
{
    let zone = current?;
    if !zones.contains(zone) {
        return None;
    }
    let wrapper = next_in(heap, zone, cursors)?;
    Some((zone, wrapper))
}

// The next wrapper of the lowest of these zones that has one left.
fn next_in_any(heap: &Heap, zones: ZoneSet, cursors: &mut [u64; 64]) -> Option<(ZoneNo, Place)>
    requires { AreWrappers heap.now.shape }
    ensures some { IfSome result (λ found. TakesNext heap.now.shape zones.bits cursors.old found.0
        found.1 cursors.new) }
    ensures none { IfNone result ((z : ℕ) → HasZone zones.bits z
        → wrapper_at heap.now.shape z (slice_index cursors.old z) ≡ None) }
    ensures same { IfNone result (cursors.new ≡ cursors.old) }
{
    let mut rest = zones;
    'zones: while let Some(zone) = rest.first() {
        if let Some(wrapper) = next_in(heap, zone, cursors) {
            return Some((zone, wrapper));
        }
        rest.remove(zone);
    }
    None
}

// The next wrapper of a zone by its cursor, which is raised; `None` where that is at the end.
fn next_in(heap: &Heap, zone: ZoneNo, cursors: &mut [u64; 64]) -> Option<Place>
    requires { AreWrappers heap.now.shape }
    ensures next { IfSome result (λ wrapper. wrapper_at heap.now.shape zone
        (slice_index cursors.old zone) ≡ Some wrapper) }
    ensures wrapper { IfSome result (IsWrapperIn heap.now.shape zone) }
    ensures raised { IfSome result (λ _. cursors.new
        ≡ slice_set cursors.old zone (slice_index cursors.old zone + 1)) }
    ensures none { IfNone result (wrapper_at heap.now.shape zone (slice_index cursors.old zone)
        ≡ None) }
    ensures same { IfNone result (cursors.new ≡ cursors.old) }
{
    let cursor = &mut cursors[usize::from(zone.index())];
    heap.next_of(zone, cursor)
}

/// The zone to which an edge is to be noted for a wrapper of a zone: its target's, where that is
/// another one of these zones and the target is not black.
pub fn edge_from<L: Ledger>(
    heap: &Heap,
    zones: ZoneSet,
    zone: ZoneNo,
    wrapper: Place,
    steps: &mut Steps<L>,
) -> Option<ZoneNo>
    requires counted { heap.now.ledger ≡ Some L.name }
    requires inside { HasZone zones.bits zone }
    requires wrapper { IsWrapperIn heap.now.shape zone wrapper }
    requires sized { length heap.now.colours ≡ length heap.now.shape.arenas }
    ensures some { IfSome result (λ to. LeadsFrom heap.now zones wrapper zone to) }
    ensures none { IfNone result ((a b : ℕ) → LeadsFrom heap.now zones wrapper a b → ⊥) }
    ensures steps { steps.new ≡ steps.old + 1 }
{
    let Some(target) = heap.reached_by(wrapper, 0, steps) else {
        return None;
    };
    let to = heap.zone_at(target);
    if to == zone || !zones.contains(to) || heap.colour(target) == Colour::Black {
        return None;
    }
    Some(to)
}

/// Whether a wrapper is the key of some entry of a weak map. It looks at none where no key is a wrapper.
pub fn is_key(heap: &Heap, wrapper: Place) -> bool
    requires delegated { AreDelegated heap.now.shape }
    requires wrapper { (d : APlace) × IsDelegate heap.now.shape wrapper d }
    ensures { IsTrue result ↔ IsKey heap.now.shape wrapper }
{
    heap.has_delegates() && heap.entries_of_key(wrapper, 0).is_some()
}
