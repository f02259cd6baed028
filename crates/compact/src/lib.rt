// Compaction: the cells of a zone move together, and the arenas that this empties are given up.
//
// [gczone] Compaction
//
// A zone that shrank has few cells in many arenas. Compaction moves the cells of its last arenas into the free
// slots of its first ones (js/src/gc/Compacting.cpp; which cells move and where is our choice):
//
//     before   arena 0  a . b .    arena 3  . c . .    arena 7  d . . e      5 cells need 2 arenas of 4
//     after    arena 0  a d b e    arena 3  . c . .                          d and e moved, arena 7 is given up
//
// The lowest arenas are kept, and each cell goes to the lowest free slot there, so that where the cells are then
// does not depend on anything but where they were. No placement of them uses fewer arenas.
//
// It runs in one piece while no collection runs. Then no arena is out, nothing is pending, buffered or listed, and
// no weak entry is to be looked at, so that only the graph, its roots and what names cells weakly hold places. All
// memory is taken first, that of the list of moves with it: a zone that was refused some is as it was. Then the
// cells go with their colours, what holds a place holds the place to which its cell went, and last the arenas are
// given up.
#![tactic(auto)]

ghost use Rattle.std.specs.Prelude.{◌≡◌, IfOk, OnErr};
ghost use Rattle.heap_core.specs.Moving.{MayRelocate};
ghost use Rattle.compact.specs.Packing.{IsCompacted};

mod arenas;
mod holes;
mod packing;

use gz_names::{NoMemory, ZoneNo};
use heap_core::Heap;
use packing::Packing;
use std::alloc::Global;

/// What a compaction did.
#[derive(Clone, Copy, Debug, PartialEq, Eq)]
pub struct Compacted {
    /// How many cells moved.
    pub moved: u64,
    /// How many arenas were given up.
    pub given_up: u32,
}

/// Compacts a zone. All memory is taken before anything changes.
pub fn compact(alloc: Global, heap: &mut Heap, zone: ZoneNo) -> Result<Compacted, NoMemory>
    requires { MayRelocate heap.old }
    ensures ok { IfOk result (λ done. IsCompacted heap.old zone done heap.new) }
    ensures err { OnErr result (heap.new ≡ heap.old) }
{
    let packing = Packing::of(alloc, heap, zone)?;
    let given_up = heap.relocate(alloc, zone, &packing.moves, packing.first_given_up)?;
    Ok(Compacted {
        moved: packing.moves.len() as u64,
        given_up,
    })
}
