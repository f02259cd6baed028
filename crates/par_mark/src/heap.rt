// The heap as marking reads it.
ghost use Rattle.std.specs.Prelude.{◌≡◌, ◌<◌, ◌≤◌, ℕ, Bool, List, All, Option, None, IfOk, length};
ghost use Rattle.mark_words.specs.Sums.{times, weigh};
ghost use Rattle.heap_core.specs.Shape.{field_at, is_marking};
ghost use Rattle.mark_ahead.specs.Edges.{degree};
ghost use Rattle.par_mark.specs.Heaps.{AreMarking, HasCell, KnowsMarking};

use crate::graph::Graph;
use gz_names::{NoMemory, Place, ZoneSet};
use heap_core::Heap;
use std::alloc::Global;

/// A heap, and for each of its arenas whether its zone is marking. A caller asks that at each try, and these answers
/// stay in its cache, where the arenas' own records would not.
#[derive(Drop)]
pub(crate) struct MarkedHeap<'h> {
    heap: &'h Heap,
    marking: Vec<bool>,
    ghost known: { KnowsMarking heap.now (length heap.now.shape.arenas) marking.items },
}

impl<'h> MarkedHeap<'h> {
    pub(crate) fn new(alloc: Global, heap: &'h Heap) -> Result<MarkedHeap<'h>, NoMemory>
        ensures { IfOk result (λ marked. marked.heap.now ≡ heap.now) }
    {
        let marking = marking_arenas(alloc, heap)?;
        Ok(MarkedHeap { heap, marking })
    }
}

// For each arena whether its zone is marking.
fn marking_arenas(alloc: Global, heap: &Heap) -> Result<Vec<bool>, NoMemory>
    ensures { IfOk result (λ marking. KnowsMarking heap.now (length heap.now.shape.arenas) marking.items) }
{
    let zones = heap.marking();
    let mut marking = Vec::with_capacity(alloc, heap.arenas() as usize)?;
    for arena in 0..heap.arenas() {
        marking.push_reserved(is_marking_arena(heap, zones, arena));
    }
    Ok(marking)
}

// Whether the zone of an arena is one of these, which are those that are marking.
fn is_marking_arena(heap: &Heap, zones: ZoneSet, arena: u32) -> bool
    requires made { arena < length heap.now.shape.arenas }
    requires zones { AreMarking heap.now zones.bits }
    ensures { (slot : ℕ) → is_marking heap.now.shape (arena, slot) ≡ result }
{
    match heap.owner(arena) {
        Some(zone) => zones.contains(zone),
        None => false,
    }
}

impl<'h> Graph for MarkedHeap<'h> {
    ghost has = { λ h p. HasCell h.heap.now p };

    ghost edge = { λ h p i. field_at h.heap.now.shape p i };

    ghost marking = { λ h p. is_marking h.heap.now.shape p };

    ghost uncounted = { λ h. h.heap.now.ledger ≡ None };

    fn edge_at(&self, place: Place, i: u8) -> Option<Place> {
        self.heap.edge_at(place, i)
    }

    fn edge_count(&self, place: Place) -> u8 {
        self.heap.edge_count(place)
    }

    fn is_marking(&self, place: Place) -> bool {
        self.marking[place.arena() as usize]
    }

    fn most_edges(&self) -> usize {
        512 * self.heap.arenas() as usize
    }
}
