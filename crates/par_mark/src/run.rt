// The run of a caller, and main's run when both callers have ended.
ghost use Rattle.std.specs.Prelude.{◌≡◌, ◌+◌, ◌<◌, ◌≤◌, ℕ, List, [], ◌∷◌, ◌++◌, length, vec_len, vec_capacity, All};
ghost use Rattle.crossbeam_queue.specs.Passes.{view, IsPassOf};
ghost use Rattle.mark_words.specs.Seats.{first_of, view_of, IsSeatOf};
ghost use Rattle.mark_words.specs.Sums.{whole};
ghost use Rattle.par_mark.specs.Accounts.{Accounts};
ghost use Rattle.par_mark.specs.Donations.{Total};
ghost use Rattle.par_mark.specs.Lists.{AreAsLarge, outside_of, tries_of};
ghost use Rattle.par_mark.specs.Callers.{IsOpen, IsReady, HasRun};
ghost use Rattle.par_mark.specs.States.{state_of};
ghost use Rattle.par_mark.specs.Tries.{HasGrown, HasTurned, Serves, TakenWasPut};
ghost use Rattle.par_mark.specs.Turns.{MayTurn};

use crate::caller::Caller;
use crate::donations::{QueuePass, Ring};
use crate::graph::Graph;
use crate::idle::Idle;
use crate::lists::{BATCH, Lists};
use crate::turns::{donate, turn};
use gz_io::{FreeGate, Gate};
use mark_words::{Marks, PlaceList, Seat};
use std::sync::Wait;

// How often a caller looks for something to try before it ends.
const LOOKS: u32 = 1024;

/// One caller's turns: until it finds nothing to try, or has made as many tries as its list of places outside has room
/// for. It is idle then.
pub(crate) fn run<R: Wait, H: Graph, L: PlaceList, G: Gate>(
    rt: &R,
    heap: &H,
    marks: &Marks<L>,
    ring: &Ring<L>,
    gate: &G,
    idle: &Idle,
    mut caller: Caller,
) -> Caller
    requires serves { Serves (H.has heap.now) (H.edge heap.now) (H.marking heap.now) (first_of marks.now) L.places }
    requires seat { IsSeatOf marks.now caller.seat }
    requires pass { IsPassOf ring.now caller.pass }
    requires ready { IsReady (H.edge heap.now) (H.marking heap.now) L.places caller }
    ensures seat { IsSeatOf marks.now result.seat }
    ensures pass { IsPassOf ring.now result.pass }
    ensures ran { HasRun (H.edge heap.now) (H.marking heap.now) L.places caller result }
{
    let mut left = caller.lists.outside.capacity();
    while left > 0 {
        let made = find_and_try(
            rt,
            heap,
            marks,
            ring,
            gate,
            idle,
            &mut caller.seat,
            &mut caller.pass,
            &mut caller.lists,
            left.min(BATCH),
        );
        if made == 0 {
            return caller;
        }
        left -= made;
        donate(rt, ring, &mut caller.pass, &mut caller.lists.tries);
    }
    idle.enter(0);
    caller
}

// A caller's turn. If it finds nothing to try it is idle, and looks again, a number of times, for as long as the other
// caller is not idle, since that one may give some tries away. If it finds none it stays idle.
fn find_and_try<R: Wait, H: Graph, L: PlaceList, G: Gate>(
    rt: &R,
    heap: &H,
    marks: &Marks<L>,
    ring: &Ring<L>,
    gate: &G,
    idle: &Idle,
    seat: &mut Seat,
    pass: &mut QueuePass,
    lists: &mut Lists,
    most: usize,
) -> usize
    requires serves { Serves (H.has heap.now) (H.edge heap.now) (H.marking heap.now) (first_of marks.now) L.places }
    requires seat { IsSeatOf marks.now seat.old × (0 < (view_of seat.old).parts) }
    requires pass { IsPassOf ring.now pass.old × (0 < (view pass.old).parts) }
    requires ready { MayTurn (H.edge heap.now) (H.marking heap.now) L.places most lists.old (view_of seat.old)
        (view pass.old) }
    ensures seat { IsSeatOf marks.now seat.new }
    ensures pass { IsPassOf ring.now pass.new }
    ensures room { AreAsLarge lists.old lists.new }
    ensures most { result ≤ most }
    ensures turned { HasTurned (H.edge heap.now) (H.marking heap.now) L.places result
        (state_of lists.old (view_of seat.old) (view pass.old))
        (state_of lists.new (view_of seat.new) (view pass.new)) }
{
    for look in 0..LOOKS {
        let made = turn(rt, heap, marks, ring, gate, seat, pass, lists, most);
        if made != 0 {
            idle.leave(look);
            return made;
        }
        idle.enter(look);
        if idle.are_all() {
            break;
        }
        idle.wait(rt, look);
    }
    0
}

/// Main's turns, when no caller runs any more: until there is nothing to try, in the list and in the
/// queue.
pub(crate) fn drain<R: Wait, H: Graph, L: PlaceList>(
    rt: &R,
    heap: &H,
    marks: &Marks<L>,
    ring: &Ring<L>,
    seat: &mut Seat,
    pass: &mut QueuePass,
    lists: &mut Lists,
)
    requires serves { Serves (H.has heap.now) (H.edge heap.now) (H.marking heap.now) (first_of marks.now) L.places }
    requires seat { IsSeatOf marks.now seat.old × (0 < (view_of seat.old).parts) }
    requires pass { IsPassOf ring.now pass.old × ((view pass.old).parts ≡ whole) }
    requires accounts { IsOpen (H.edge heap.now) (H.marking heap.now) L.places lists.old (view_of seat.old)
        (view pass.old) }
    ensures seat { IsSeatOf marks.now seat.new × ((view_of seat.new).parts ≡ (view_of seat.old).parts) }
    ensures pass { IsPassOf ring.now pass.new × ((view pass.new).parts ≡ whole) }
    ensures accounts { (firsts : List (ℕ × ℕ)) → Accounts (H.edge heap.now) (H.marking heap.now) L.places firsts [] []
        (tries_of lists.old) (outside_of lists.old) (view_of seat.old) (view pass.old)
        → Accounts (H.edge heap.now) (H.marking heap.now) L.places firsts [] [] [] (outside_of lists.new)
        (view_of seat.new) (view pass.new) }
    ensures grown { HasGrown (outside_of lists.old) (view_of seat.old) (view pass.old) (outside_of lists.new)
        (view_of seat.new) (view pass.new) }
    ensures empty { Total (view pass.new) [] }
{
    while turn(rt, heap, marks, ring, &FreeGate, seat, pass, lists, 1) != 0 {}
}
