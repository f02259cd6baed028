// A unit of black marking.
ghost use Rattle.std.specs.Prelude.{◌≡◌, ◌↔◌, ◌≤◌, ◌+◌, ◌*◌, [], Some, false, true};
ghost use Rattle.heap_core.specs.Heap.{joined};
ghost use Rattle.barriers.specs.Pending.{pending};
ghost use Rattle.barriers.specs.Colours.{grays_outside};
ghost use Rattle.barriers.specs.Invariant.{MarkingInvariant};
ghost use Rattle.barriers.specs.Spreading.{Covers};
ghost use Rattle.marker.specs.Units.{FollowsBlack};

use barriers::{drain, next_pending, scan_marking};
use cell_bits::Flight;
use heap_core::{Heap, Steps};
use mark_stack::{Pile, Stack};
use std::sync::ledger::Ledger;
use weak_maps::MarkColour;

/// Follows one cell of the black pile, whose weak entries are to be looked at from then on. False where
/// there is none.
#[inline(always)]
pub fn black_unit<F: Flight, L: Ledger>(
    heap: &mut Heap,
    stack: &mut Stack,
    flight: &mut F,
    steps: &mut Steps<L>,
) -> bool
    requires counted { heap.old.ledger ≡ Some L.name }
    requires covers { Covers heap.old.shape (F.bits flight.old) }
    requires invariant { MarkingInvariant (joined heap.old (F.bits flight.old)) (pending heap.old stack.old) }
    ensures does { result ≡ true → FollowsBlack (joined heap.old (F.bits flight.old)) (pending heap.old stack.old)
        (joined heap.new (F.bits flight.new)) (pending heap.new stack.new) }
    ensures empty { (result ≡ false) ↔ ((pending heap.old stack.old).black ≡ []) }
    ensures same { result ≡ false → (heap.new ≡ heap.old) × (stack.new ≡ stack.old)
        × (joined heap.old (F.bits flight.new) ≡ joined heap.old (F.bits flight.old))
        × (steps.new ≡ steps.old) }
    ensures steps { steps.new + 8 * grays_outside (joined heap.new (F.bits flight.new))
        ≤ steps.old + 8 * grays_outside (joined heap.old (F.bits flight.old)) + 8 }
    ensures covers { Covers heap.new.shape (F.bits flight.new) }
    ensures origin { F.origin flight.new ≡ F.origin flight.old }
{
    let Some(place) = next_pending(heap, stack, Pile::Black) else {
        return false;
    };
    heap.start(MarkColour::Black, place);
    scan_marking(heap, stack, flight, place, steps);
    drain(heap, stack, flight, steps);
    true
}
