// A caller's turn: it takes tries, makes them, and scans the cells that it won. And what it gives away.
ghost use Rattle.std.specs.Prelude.{◌≡◌, ◌+◌, ◌<◌, ◌≤◌, ℕ, List, [], ◌∷◌, ◌++◌, length, vec_capacity, IfSome, IfNone};
ghost use Rattle.std.specs.Prelude.{All};
ghost use Rattle.std.specs.VecDeque.{deque_capacity};
ghost use Rattle.crossbeam_queue.specs.Passes.{view, IsPassOf};
ghost use Rattle.mark_words.specs.Seats.{first_of, view_of, IsSeatOf};
ghost use Rattle.par_mark.specs.declared.donations.QueueView.{QueueView as AQueueView};
ghost use Rattle.par_mark.specs.Donations.{Total};
ghost use Rattle.par_mark.specs.Lists.{AreAsLarge, outside_of, tries_of, won_of};
ghost use Rattle.par_mark.specs.States.{state_of};
ghost use Rattle.par_mark.specs.Tries.{HasTriedSome, HasTurned, IsDonated, IsDone, IsTaken, IsTried, Serves};
ghost use Rattle.par_mark.specs.Turns.{MayTurn};

use crate::donations::{Donates, QueuePass, Ring, Takes};
use crate::graph::Graph;
use crate::lists::Lists;
use crate::scans::scan_all;
use crate::slots::{gather_slots, push_slots};
use gz_io::{Gate, Point};
use gz_names::Place;
use mark_words::{Marks, PlaceList, Seat};
use std::collections::VecDeque;
use std::sync::Wait;

// A caller with more tries than this gives one away.
const OWN_TRIES: usize = 16;

/// The next try: the newest of the list, or, if that is empty, one from the queue. `None` comes only if
/// the queue was empty too.
pub(crate) fn take<L: PlaceList, R: Wait>(
    rt: &R,
    ring: &Ring<L>,
    pass: &mut QueuePass,
    tries: &mut VecDeque<Place>,
) -> Option<Place>
    requires pass { IsPassOf ring.now pass.old }
    requires parts { 0 < (view pass.old).parts }
    ensures pass { IsPassOf ring.now pass.new }
    ensures room { deque_capacity tries.new ≡ deque_capacity tries.old }
    ensures some { IfSome result (λ place. IsTaken L.places place tries.old.items (view pass.old) tries.new.items
        (view pass.new)) }
    ensures none { IfNone result ((tries.old.items ≡ []) × (tries.new.items ≡ []) × (view pass.new ≡ view pass.old)
        × Total (view pass.old) []) }
{
    if let Some(place) = tries.pop_back() {
        return Some(place);
    }
    ring.pop_as::<Takes<L>, R>(rt, pass)
}

/// Gives the oldest try away if there are many, since an old one has much to reach. One that the full
/// queue refuses stays.
pub(crate) fn donate<L: PlaceList, R: Wait>(
    rt: &R,
    ring: &Ring<L>,
    pass: &mut QueuePass,
    tries: &mut VecDeque<Place>,
)
    requires pass { IsPassOf ring.now pass.old }
    requires parts { 0 < (view pass.old).parts }
    requires listed { All L.places tries.old.items }
    ensures pass { IsPassOf ring.now pass.new }
    ensures room { deque_capacity tries.new ≡ deque_capacity tries.old }
    ensures donated { IsDonated tries.old.items (view pass.old) tries.new.items (view pass.new) }
{
    if tries.len() <= OWN_TRIES {
        return;
    }
    let Some(oldest) = tries.front() else {
        return;
    };
    match ring.push_as::<Donates, R>(rt, pass, *oldest) {
        Ok(()) => {
            tries.pop_front();
        }
        Err(_) => {}
    }
}

/// A turn: takes up to this number of tries, makes them, and then scans the cells that were won, so that none is left
/// to scan. Returns how many tries were made: none only if there was nothing to try.
pub(crate) fn turn<R: Wait, H: Graph, L: PlaceList, G: Gate>(
    rt: &R,
    heap: &H,
    marks: &Marks<L>,
    ring: &Ring<L>,
    gate: &G,
    seat: &mut Seat,
    pass: &mut QueuePass,
    lists: &mut Lists,
    most: usize,
) -> usize
    requires serves { Serves (H.has heap.now) (H.edge heap.now) (H.marking heap.now) (first_of marks.now) L.places }
    requires seat { IsSeatOf marks.now seat.old × (0 < (view_of seat.old).parts) }
    requires pass { IsPassOf ring.now pass.old × (0 < (view pass.old).parts) }
    requires ready { MayTurn (H.edge heap.now) (H.marking heap.now) L.places most lists.old (view_of seat.old)
        (view pass.old) }
    ensures seat { IsSeatOf marks.now seat.new }
    ensures pass { IsPassOf ring.now pass.new }
    ensures room { AreAsLarge lists.old lists.new }
    ensures most { result ≤ most }
    ensures turned { HasTurned (H.edge heap.now) (H.marking heap.now) L.places result
        (state_of lists.old (view_of seat.old) (view pass.old))
        (state_of lists.new (view_of seat.new) (view pass.new)) }
    ensures none { result ≡ 0 → IsDone (state_of lists.old (view_of seat.old) (view pass.old))
        (state_of lists.new (view_of seat.new) (view pass.new)) }
{
    let made = try_places(rt, heap, marks, ring, gate, seat, pass, lists, most);
    if made == 0 {
        return 0;
    }
    scan_all(heap, marks, seat, &lists.won, &mut lists.tries);
    lists.won.clear();
    made
}

// Takes up to this number of tries and makes them: the newest of the list, or one from the queue if the list is empty.
fn try_places<R: Wait, H: Graph, L: PlaceList, G: Gate>(
    rt: &R,
    heap: &H,
    marks: &Marks<L>,
    ring: &Ring<L>,
    gate: &G,
    seat: &mut Seat,
    pass: &mut QueuePass,
    lists: &mut Lists,
    most: usize,
) -> usize
    requires serves { Serves (H.has heap.now) (H.edge heap.now) (H.marking heap.now) (first_of marks.now) L.places }
    requires seat { IsSeatOf marks.now seat.old × (0 < (view_of seat.old).parts) }
    requires pass { IsPassOf ring.now pass.old × (0 < (view pass.old).parts) }
    requires ready { MayTurn (H.edge heap.now) (H.marking heap.now) L.places most lists.old (view_of seat.old)
        (view pass.old) }
    ensures seat { IsSeatOf marks.now seat.new }
    ensures pass { IsPassOf ring.now pass.new }
    ensures room { AreAsLarge lists.old lists.new }
    ensures most { result ≤ most }
    ensures tried { (won : List (ℕ × ℕ)) × HasTriedSome (H.edge heap.now) (H.marking heap.now) L.places result won
        (state_of lists.old (view_of seat.old) (view pass.old))
        (state_of lists.new (view_of seat.new) (view pass.new)) }
    ensures none { result ≡ 0 → IsDone (state_of lists.old (view_of seat.old) (view pass.old))
        (state_of lists.new (view_of seat.new) (view pass.new)) }
{
    let Some(first) = take(rt, ring, pass, &mut lists.tries) else {
        return 0;
    };
    let mut made = try_place(heap, marks, gate, seat, lists, first, most);
    while made < most {
        let Some(place) = lists.tries.pop_back() else {
            break;
        };
        made += try_place(heap, marks, gate, seat, lists, place, most - made);
    }
    made
}

// Makes a try. A cell outside the marking zones goes to `outside`. Else tries of the same arena that come next in the
// list are made in the same step, up to this number with it. Returns how many were made.
#[inline(always)]
fn try_place<H: Graph, L: PlaceList, G: Gate>(
    heap: &H,
    marks: &Marks<L>,
    gate: &G,
    seat: &mut Seat,
    lists: &mut Lists,
    place: Place,
    most: usize,
) -> usize
    requires serves { Serves (H.has heap.now) (H.edge heap.now) (H.marking heap.now) (first_of marks.now) L.places }
    requires seat { IsSeatOf marks.now seat.old × (0 < (view_of seat.old).parts) }
    requires place { L.places place }
    requires listed { All L.places (tries_of lists.old) }
    requires some { 0 < most }
    requires won_room { length (won_of lists.old) + most ≤ vec_capacity lists.old.won }
    requires outside_room { length (outside_of lists.old) + most ≤ vec_capacity lists.old.outside }
    ensures seat { IsSeatOf marks.now seat.new }
    ensures room { AreAsLarge lists.old lists.new }
    ensures made { (0 < result) × (result ≤ most) }
    ensures tried { (d : AQueueView) → IsTried (H.marking heap.now) result place
        (state_of lists.old (view_of seat.old) d) (state_of lists.new (view_of seat.new) d) }
{
    if !heap.is_marking(place) {
        lists.outside.push_reserved(place);
        return 1;
    }
    let arena = place.arena();
    let before = lists.tries.len();
    let slots = gather_slots(&mut lists.tries, place, most);
    gate.at(Point::Tried, arena);
    let won = marks.try_slots(seat, arena, slots);
    push_slots(&mut lists.won, arena, won);
    before - lists.tries.len() + 1
}
