// Cells that are pending.
ghost use Rattle.std.specs.Prelude.{◌≡◌, ◌≢◌, ◌<◌, [], Contains, IfNone, IfSome, MatchBool, length};
ghost use Rattle.mark_stack.specs.Stack.{IsPushed, pile_of};
ghost use Rattle.barriers.specs.Pending.{pending};

use gz_names::Place;
use heap_core::Heap;
use mark_stack::{Pile, Stack};

/// A cell that is not pending on a pile becomes so: it goes on the pile, or is delayed where that is
/// full. The memory of a cell on the pile is fetched while others are followed.
#[inline(always)]
pub fn queue(heap: &mut Heap, stack: &mut Stack, pile: Pile, place: Place)
    requires made { place.0 < length heap.old.shape.arenas }
    requires fresh { Contains (pile_of (pending heap.old stack.old) pile) place → ⊥ }
    ensures more { IsPushed (pending heap.old stack.old) pile place (pending heap.new stack.new) }
    ensures rest { heap.new ≡ record heap.old { delayed = heap.new.delayed } }
{
    if stack.push(pile, place) {
        heap.fetch(place);
    } else {
        heap.delay(pile, place);
    }
}

/// Whether a cell is pending on a pile.
#[inline(always)]
pub fn has_pending(heap: &Heap, stack: &Stack, pile: Pile) -> bool
    ensures { MatchBool result (pile_of (pending heap.now stack.now) pile ≢ [])
        (pile_of (pending heap.now stack.now) pile ≡ []) }
{
    !stack.is_empty(pile) || heap.has_delayed(pile)
}

/// Takes one of the cells that are pending on a pile: off the pile, or else one that is delayed for it.
/// `None` exactly where none is.
#[inline(always)]
pub fn next_pending(heap: &mut Heap, stack: &mut Stack, pile: Pile) -> Option<Place>
    ensures some { IfSome result
        (λ place. IsPushed (pending heap.new stack.new) pile place (pending heap.old stack.old)) }
    ensures none { IfNone result ((pile_of (pending heap.old stack.old) pile ≡ [])
        × (heap.new ≡ heap.old) × (stack.new ≡ stack.old)) }
    ensures rest { heap.new ≡ record heap.old { delayed = heap.new.delayed } }
{
    if let Some(place) = stack.pop(pile) {
        return Some(place);
    }
    heap.next_delayed(pile)
}
