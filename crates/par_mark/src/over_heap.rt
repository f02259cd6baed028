// Marking a heap.
ghost use Rattle.std.specs.Prelude.{◌≡◌, ◌<◌, [], ℕ, length, All, IfOk, None};
ghost use Rattle.heap_core.specs.Shape.{AreWhole, HasEdge, IsPresent, zone_of};
ghost use Rattle.mark_ahead.specs.Markers.{HasFoundIn};

use crate::heap::MarkedHeap;
use crate::over_words::mark_black;
use gz_io::Gate;
use gz_names::{NoMemory, Place};
use heap_core::Heap;
use mark_ahead::Marked;
use std::alloc::Global;
use std::sync::Wait;
use std::thread::Threads;

/// Marks black, by two callers, the cells of marking zones that edges of a heap reach from these cells,
/// through cells of marking zones that are not black. It takes the black word of each arena, and answers
/// the black word of each arena as marking leaves it, with the targets outside the marking zones and, if
/// the heap has weak entries, the cells that turned black; else that list is empty. The heap does not
/// change.
pub fn mark_heap<R: Threads + Wait + Sync, G: Gate + Sync>(
    rt: &R,
    alloc: Global,
    heap: &Heap,
    from: &[Place],
    words: Vec<u64>,
    gate: &G,
) -> Result<(Vec<u64>, Marked), NoMemory>
    requires uncounted { heap.now.ledger ≡ None }
    requires present { All (IsPresent heap.now.shape) from.now }
    requires made { (x : ℕ × ℕ) → IsPresent heap.now.shape x → zone_of heap.now.shape x < length heap.now.shape.states }
    requires targets { (x y : ℕ × ℕ) → HasEdge heap.now.shape x y → IsPresent heap.now.shape y }
    requires whole { AreWhole heap.now.shape.arenas }
    requires words { length words.items ≡ length heap.now.shape.arenas }
    ensures found { IfOk result (λ r. HasFoundIn heap.now words.items from.now r.0.items r.1) }
    ensures unlisted { length heap.now.shape.weak.entries ≡ 0 → IfOk result (λ r. r.1.won.items ≡ []) }
{
    let marked = MarkedHeap::new(alloc, heap)?;
    mark_black(rt, alloc, &marked, from, words, gate, heap.entries() > 0)
}
