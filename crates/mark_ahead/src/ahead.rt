// Black marking of all that is pending, at once.
ghost use Rattle.std.specs.Prelude.{◌≡◌, ◌≢◌, ◌↔◌, ◌<◌, ◌≤◌, ◌+◌, ◌*◌, [], ℕ, Some, Ok, false, true, length};
ghost use Rattle.std.specs.Prelude.{All, Contains, IfOk, OnErr};
ghost use Rattle.gz_names.specs.declared.numbers.Place.{Place as APlace};
ghost use Rattle.heap_core.specs.Shape.{AreWhole, HasEdge, IsPresent, zone_of};
ghost use Rattle.heap_core.specs.Heap.{joined};
ghost use Rattle.barriers.specs.Pending.{pending};
ghost use Rattle.barriers.specs.Colours.{IsBlack, grays_outside};
ghost use Rattle.barriers.specs.Following.{FollowsWhile, IsFollowing};
ghost use Rattle.barriers.specs.Invariant.{MarkingInvariant};
ghost use Rattle.barriers.specs.Spreading.{Covers};
ghost use Rattle.mark_ahead.specs.Ahead.{FollowsAll, StartsAll, StartsPending};
ghost use Rattle.mark_ahead.specs.Markers.{HasFoundIn, MarksBlack};

use crate::black_words::{black_cells, black_words, take_words};
use crate::blackening::Marked;
use barriers::{drain, has_pending, next_pending, turn};
use cell_bits::Flight;
use gz_names::{NoMemory, Place};
use heap_core::{Heap, Steps};
use mark_stack::{Pile, Stack};
use std::alloc::Global;
use std::sync::ledger::Ledger;
use weak_maps::MarkColour;

/// Follows all cells that are pending in black at once, and by the function `mark`, through marking zones, all that
/// edges reach from them: those cells turn black, and their weak entries are to be looked at from then on. What edges
/// reach outside the marking zones is exposed. False exactly where nothing is pending in black, and then nothing is
/// done. `NoMemory` comes before any step.
///
/// `mark` takes the cells to begin from and the black word of each arena, and answers the words as marking leaves them
/// with what it found. In a heap without weak entries it need not list the cells that turned black.
pub fn mark_ahead<
    M: Fn(Global, &Heap, &[Place], Vec<u64>) -> Result<(Vec<u64>, Marked), NoMemory>,
    F: Flight,
    L: Ledger,
>(
    alloc: Global,
    mark: &M,
    heap: &mut Heap,
    stack: &mut Stack,
    flight: &mut F,
    steps: &mut Steps<L>,
) -> Result<bool, NoMemory>
    requires marks { MarksBlack (M.pre mark.now) (M.post mark.now) }
    requires counted { heap.old.ledger ≡ Some L.name }
    requires covers { Covers heap.old.shape (F.bits flight.old) }
    requires whole { AreWhole heap.old.shape.arenas }
    requires invariant { MarkingInvariant (joined heap.old (F.bits flight.old)) (pending heap.old stack.old) }
    ensures does { result ≡ Ok true → FollowsAll (joined heap.old (F.bits flight.old)) (pending heap.old stack.old)
        (joined heap.new (F.bits flight.new)) (pending heap.new stack.new) }
    ensures empty { (result ≡ Ok false) ↔ ((pending heap.old stack.old).black ≡ []) }
    ensures same { result ≡ Ok false → (heap.new ≡ heap.old) × (stack.new ≡ stack.old) × (flight.new ≡ flight.old)
        × (steps.new ≡ steps.old) }
    ensures err { OnErr result ((heap.new ≡ heap.old) × (stack.new ≡ stack.old) × (flight.new ≡ flight.old)
        × (steps.new ≡ steps.old)) }
    ensures steps { steps.new + 8 * grays_outside (joined heap.new (F.bits flight.new))
        ≤ steps.old + 8 * grays_outside (joined heap.old (F.bits flight.old)) }
    ensures covers { Covers heap.new.shape (F.bits flight.new) }
    ensures origin { F.origin flight.new ≡ F.origin flight.old }
{
    if !has_pending(heap, stack, Pile::Black) {
        return Ok(false);
    }
    let from = black_cells(alloc, heap)?;
    let words = black_words(alloc, heap)?;
    let (last, marked) = mark_uncounted(alloc, mark, heap, &from, words)?;
    turn_all(heap, stack, flight, &marked.outside);
    take_words(heap, &last);
    start_all(heap, &marked.won);
    start_pending(heap, stack);
    drain(heap, stack, flight, steps);
    Ok(true)
}

// Marks black what edges reach from these cells, while edges that are read are not counted.
fn mark_uncounted<M: Fn(Global, &Heap, &[Place], Vec<u64>) -> Result<(Vec<u64>, Marked), NoMemory>>(
    alloc: Global,
    mark: &M,
    heap: &mut Heap,
    from: &[Place],
    words: Vec<u64>,
) -> Result<(Vec<u64>, Marked), NoMemory>
    requires marks { MarksBlack (M.pre mark.now) (M.post mark.now) }
    requires present { All (IsPresent heap.old.shape) from.now }
    requires made { (x : ℕ × ℕ) → IsPresent heap.old.shape x
        → zone_of heap.old.shape x < length heap.old.shape.states }
    requires targets { (x y : ℕ × ℕ) → HasEdge heap.old.shape x y → IsPresent heap.old.shape y }
    requires whole { AreWhole heap.old.shape.arenas }
    requires words { length words.items ≡ length heap.old.shape.arenas }
    ensures same { heap.new ≡ heap.old }
    ensures found { IfOk result (λ r. HasFoundIn heap.old words.items from.now r.0.items r.1) }
{
    let counted_in = heap.uncount_edges();
    let found = mark(alloc, heap, from, words);
    heap.recount_edges(counted_in);
    found
}

// Turns these cells black.
fn turn_all<F: Flight>(heap: &mut Heap, stack: &mut Stack, flight: &mut F, places: &[Place])
    requires covers { Covers heap.old.shape (F.bits flight.old) }
    requires holds { IsFollowing heap.old (F.bits flight.old) stack.old }
    requires present { All (IsPresent heap.old.shape) places.now }
    ensures follows { FollowsWhile F.bits F.origin (Contains places.now) heap.old flight.old stack.old heap.new
        flight.new stack.new }
    ensures black { (x : APlace) → Contains places.now x → IsBlack (joined heap.new (F.bits flight.new)) x }
{
    for place in places {
        turn(heap, stack, flight, *place);
    }
}

// The weak entries of these cells are to be looked at in black.
fn start_all(heap: &mut Heap, cells: &[Place])
    ensures rest { heap.new ≡ record heap.old { looks = heap.new.looks } }
    ensures starts { StartsAll heap.old cells.now heap.old.looks heap.new.looks }
{
    for cell in cells {
        heap.start(MarkColour::Black, *cell);
    }
}

// Takes all cells that are pending in black off the pile: their weak entries are to be looked at in black.
fn start_pending(heap: &mut Heap, stack: &mut Stack)
    ensures { StartsPending heap.old stack.old heap.new stack.new }
{
    while let Some(cell) = next_pending(heap, stack, Pile::Black) {
        heap.start(MarkColour::Black, cell);
    }
}
