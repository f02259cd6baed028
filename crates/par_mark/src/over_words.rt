// Marking over black words.
ghost use Rattle.std.specs.Prelude.{◌≡◌, ◌<◌, [], ℕ, true, false, length, All, IfOk, if◌then◌else◌};
ghost use Rattle.mark_ahead.specs.Edges.{Leads};
ghost use Rattle.mark_ahead.specs.Blackening.{HasFound};
ghost use Rattle.par_mark.specs.Marking.{Sought};

use crate::callers::mark;
use crate::graph::Graph;
use crate::queue::Queue;
use crate::turned::turned_cells;
use gz_io::Gate;
use gz_names::{NoMemory, Place};
use mark_ahead::Marked;
use mark_words::{Marks, PlaceList};
use std::alloc::Global;
use std::marker::Brand;
use std::sync::Wait;
use std::thread::Threads;

// Marks with a place list that is what may be tried.
fn mark_listed<R: Threads + Wait + Sync, H: Graph + Sync, L: PlaceList + Sync, G: Gate + Sync>(
    rt: &R,
    alloc: Global,
    heap: &H,
    from: &[Place],
    words: Vec<u64>,
    gate: &G,
    lists_won: bool,
) -> Result<(Vec<u64>, Marked), NoMemory>
    requires uncounted { H.uncounted heap.now }
    requires present { All (H.has heap.now) from.now }
    requires targets { (p q : ℕ × ℕ) → H.has heap.now p → Leads (H.edge heap.now) p q → H.has heap.now q }
    requires words { (p : ℕ × ℕ) → H.has heap.now p → p.0 < length words.items }
    requires listed { (q : ℕ × ℕ) → L.places q → Sought (H.edge heap.now) (H.marking heap.now) words.items from.now q }
    requires lists { (q : ℕ × ℕ) → Sought (H.edge heap.now) (H.marking heap.now) words.items from.now q → L.places q }
    ensures found { IfOk result (λ r. HasFound (H.edge heap.now) (H.marking heap.now) words.items from.now
        (lists_won ≡ true) r.0.items r.1.won.items r.1.outside.items) }
    ensures unlisted { lists_won ≡ false → IfOk result (λ r. r.1.won.items ≡ []) }
{
    let before = words_before(alloc, &words, lists_won)?;
    let (marks, mut seat) = Marks::<L>::new(alloc, words)?;
    let mut queue = Queue::<L>::new(alloc)?;
    let outside = mark(rt, alloc, heap, from, &marks, &mut seat, &mut queue, gate)?;
    let words = marks.close(seat);
    let won = turned_cells(alloc, &before, &words)?;
    Ok((words, Marked { won, outside }))
}

// A copy of the black words, if the cells that turn black are to be listed; else no words.
fn words_before(alloc: Global, words: &[u64], lists_won: bool) -> Result<Vec<u64>, NoMemory>
    ensures { IfOk result (λ before. before.items ≡ (if lists_won then words.now else [])) }
{
    if lists_won {
        words.to_vec(alloc)
    } else {
        Ok(Vec::new(alloc))
    }
}

/// Marks black, by two callers, the cells of marking zones that edges reach from these cells, through
/// cells of marking zones that are not black. It takes the black word of each arena, and answers the
/// black word of each arena as marking leaves it, with the targets outside the marking zones and, if
/// `lists_won`, the cells that turned black, in ascending order; else that list is empty.
/// After `NoMemory` the heap is as it was.
pub fn mark_black<R: Threads + Wait + Sync, H: Graph + Sync, G: Gate + Sync>(
    rt: &R,
    alloc: Global,
    heap: &H,
    from: &[Place],
    words: Vec<u64>,
    gate: &G,
    lists_won: bool,
) -> Result<(Vec<u64>, Marked), NoMemory>
    requires uncounted { H.uncounted heap.now }
    requires present { All (H.has heap.now) from.now }
    requires targets { (p q : ℕ × ℕ) → H.has heap.now p → Leads (H.edge heap.now) p q → H.has heap.now q }
    requires words { (p : ℕ × ℕ) → H.has heap.now p → p.0 < length words.items }
    ensures found { IfOk result (λ r. HasFound (H.edge heap.now) (H.marking heap.now) words.items from.now
        (lists_won ≡ true) r.0.items r.1.won.items r.1.outside.items) }
    ensures unlisted { lists_won ≡ false → IfOk result (λ r. r.1.won.items ≡ []) }
{
    mark_listed::<R, H, Brand, G>(rt, alloc, heap, from, words, gate, lists_won)
}
