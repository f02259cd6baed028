// Marking by two callers.
ghost use Rattle.std.specs.Prelude.{◌≡◌, ◌+◌, ◌<◌, ◌≤◌, ℕ, List, [], ◌∷◌, ◌++◌, length, All, Contains, IfOk, OnOk};
ghost use Rattle.std.specs.Prelude.{OnErr};
ghost use Rattle.crossbeam_queue.specs.Passes.{view, IsPassOf};
ghost use Rattle.mark_words.specs.Seats.{first_of, view_of, IsSeatOf};
ghost use Rattle.mark_words.specs.Sums.{weigh, whole};
ghost use Rattle.mark_words.specs.Views.{first_view};
ghost use Rattle.mark_ahead.specs.Edges.{Leads};
ghost use Rattle.par_mark.specs.Edges.{all_targets};
ghost use Rattle.par_mark.specs.Marking.{HasMarked, Sought};
ghost use Rattle.par_mark.specs.Accounts.{HasRoom};
ghost use Rattle.par_mark.specs.Lists.{AreNew, tries_of};
ghost use Rattle.par_mark.specs.Callers.{HasRun, HasSettled, IsReady};
ghost use Rattle.par_mark.specs.Queues.{IsUnused, pass_view};
ghost use Rattle.par_mark.specs.Shares.{AreShared};
ghost use Rattle.par_mark.specs.Tries.{Serves};

use crate::caller::Caller;
use crate::donations::{Ring, Splits};
use crate::first_tries::first_tries;
use crate::gather::{append_lists, join_one, new_lists, settle};
use crate::graph::Graph;
use crate::idle::Idle;
use crate::lists::{BATCH, Lists};
use crate::queue::Queue;
use crate::run::{drain, run};
use gz_io::Gate;
use gz_names::{NoMemory, Place};
use mark_words::{Marks, PlaceList, Seat};
use std::alloc::{AllocError, Global};
use std::sync::Wait;
use std::thread::{Threads, join};

// Runs both callers, each in a thread of its own if one can be made. Where the first caller has nothing to try, the
// second one does all, and no thread starts.
fn run_both<R: Threads + Wait + Sync, H: Graph + Sync, L: PlaceList + Sync, G: Gate + Sync>(
    rt: &R,
    heap: &H,
    marks: &Marks<L>,
    ring: &Ring<L>,
    gate: &G,
    one: Caller,
    two: Caller,
) -> (Caller, Caller)
    requires serves { Serves (H.has heap.now) (H.edge heap.now) (H.marking heap.now) (first_of marks.now) L.places }
    requires seats { IsSeatOf marks.now one.seat × IsSeatOf marks.now two.seat }
    requires passes { IsPassOf ring.now one.pass × IsPassOf ring.now two.pass }
    requires one { IsReady (H.edge heap.now) (H.marking heap.now) L.places one }
    requires two { IsReady (H.edge heap.now) (H.marking heap.now) L.places two }
    ensures seats { IsSeatOf marks.now result.0.seat × IsSeatOf marks.now result.1.seat }
    ensures passes { IsPassOf ring.now result.0.pass × IsPassOf ring.now result.1.pass }
    ensures one { HasRun (H.edge heap.now) (H.marking heap.now) L.places one result.0 }
    ensures two { HasRun (H.edge heap.now) (H.marking heap.now) L.places two result.1 }
{
    let idle = &Idle::new();
    if one.lists.tries.is_empty() {
        idle.enter(0);
        return (one, run(rt, heap, marks, ring, gate, idle, two));
    }
    join(
        rt,
        move ||
            requires { IsSeatOf marks.now one.seat × IsPassOf ring.now one.pass
                × Serves (H.has heap.now) (H.edge heap.now) (H.marking heap.now) (first_of marks.now) L.places
                × IsReady (H.edge heap.now) (H.marking heap.now) L.places one }
            ensures { IsSeatOf marks.entry.now result.seat × IsPassOf ring.entry.now result.pass
                × HasRun (H.edge heap.entry.now) (H.marking heap.entry.now) L.places one result }
        { run(rt, heap, marks, ring, gate, idle, one) },
        move ||
            requires { IsSeatOf marks.now two.seat × IsPassOf ring.now two.pass
                × Serves (H.has heap.now) (H.edge heap.now) (H.marking heap.now) (first_of marks.now) L.places
                × IsReady (H.edge heap.now) (H.marking heap.now) L.places two }
            ensures { IsSeatOf marks.entry.now result.seat × IsPassOf ring.entry.now result.pass
                × HasRun (H.edge heap.entry.now) (H.marking heap.entry.now) L.places two result }
        {
            idle.let_start(rt);
            run(rt, heap, marks, ring, gate, idle, two)
        },
    )
}

// How many of this number of tries the first caller begins with: half of them, or, where all would be made in one turn,
// all but one.
fn first_share(tries: usize) -> usize
    ensures { result ≤ tries }
{
    if tries > BATCH {
        tries / 2
    } else {
        tries.saturating_sub(1)
    }
}

/// Marks black, by two callers, the cells of marking zones that edges reach from the cells of `from`,
/// through cells of marking zones that are not black. Returns the targets that lie outside the marking
/// zones, each as often as it is a target. `HasMarked` tells what is left: which cells
/// are black, that each cell of `from` and each cell won was scanned once, and what lies outside.
/// `AreShared` tells it for each caller and for main, which tries what the callers left: what it began
/// with, won and found outside, that it scanned each cell that it won, once, and no other, and that what
/// was given to the queue was taken from it. Who tried and won a cell, and who gave and took one, is what
/// the logs of main's seat and main's pass say.
/// The place list of the marks is exactly what may be tried. `NoMemory` comes before any step, and then
/// the marks and the queue are as they were. The gate is called before each step by which one of the callers
/// makes tries.
pub fn mark<R: Threads + Wait + Sync, H: Graph + Sync, L: PlaceList + Sync, G: Gate + Sync>(
    rt: &R,
    alloc: Global,
    heap: &H,
    from: &[Place],
    marks: &Marks<L>,
    seat: &mut Seat,
    queue: &mut Queue<L>,
    gate: &G,
) -> Result<Vec<Place>, NoMemory>
    requires uncounted { H.uncounted heap.now }
    requires present { All (H.has heap.now) from.now }
    requires targets { (p q : ℕ × ℕ) → H.has heap.now p → Leads (H.edge heap.now) p q → H.has heap.now q }
    requires words { (p : ℕ × ℕ) → H.has heap.now p → p.0 < length (first_of marks.now) }
    requires listed { (q : ℕ × ℕ) → L.places q → Sought (H.edge heap.now) (H.marking heap.now) (first_of marks.now)
        from.now q }
    requires lists { (q : ℕ × ℕ) → Sought (H.edge heap.now) (H.marking heap.now) (first_of marks.now) from.now q
        → L.places q }
    requires seat { IsSeatOf marks.now seat.old × (view_of seat.old ≡ first_view (first_of marks.now)) }
    requires queue { IsUnused queue.old }
    ensures seat { IsSeatOf marks.now seat.new × ((view_of seat.new).parts ≡ whole) }
    ensures marked { IfOk result (λ outside. HasMarked (H.edge heap.now) (H.marking heap.now) (first_of marks.now)
        from.now outside.items (view_of seat.new)) }
    ensures shares { IfOk result (λ outside. AreShared (H.edge heap.now) (all_targets (H.edge heap.now) from.now)
        outside.items (view_of seat.new) (pass_view queue.new)) }
    ensures unchanged { OnErr result ((view_of seat.new ≡ view_of seat.old) × IsUnused queue.new) }
{
    let tries = first_tries(alloc, heap, from)?;
    let room = tries
        .len()
        .checked_add(heap.most_edges())
        .ok_or(AllocError)?;
    let spare = room.checked_add(1).ok_or(AllocError)?;
    let (front, back) = tries.as_slice().split_at(first_share(tries.len()));
    let front = new_lists(alloc, front, room, spare)?;
    let back = new_lists(alloc, back, room, spare)?;
    Ok(mark_from(rt, heap, marks, seat, queue, gate, front, back))
}

// Marks from these tries: the callers run, and then main tries what they left. Returns what lies outside.
fn mark_from<R: Threads + Wait + Sync, H: Graph + Sync, L: PlaceList + Sync, G: Gate + Sync>(
    rt: &R,
    heap: &H,
    marks: &Marks<L>,
    seat: &mut Seat,
    queue: &mut Queue<L>,
    gate: &G,
    front: Lists,
    back: Lists,
) -> Vec<Place>
    requires serves { Serves (H.has heap.now) (H.edge heap.now) (H.marking heap.now) (first_of marks.now) L.places }
    requires seat { IsSeatOf marks.now seat.old × (view_of seat.old ≡ first_view (first_of marks.now)) }
    requires queue { IsUnused queue.old }
    requires front_listed { All L.places (tries_of front) }
    requires back_listed { All L.places (tries_of back) }
    requires room { (most : ℕ) × AreNew (tries_of front) most (most + 1) front
        × AreNew (tries_of back) most (most + 1) back
        × HasRoom (H.edge heap.now) (H.marking heap.now) L.places
        (weigh (λ _. 1) (tries_of front) + weigh (λ _. 1) (tries_of back)) most }
    ensures seat { IsSeatOf marks.now seat.new × ((view_of seat.new).parts ≡ whole) }
    ensures accounts { HasSettled (H.edge heap.now) (H.marking heap.now) L.places (tries_of front ++ tries_of back)
        result.items (view_of seat.new) }
    ensures shares { AreShared (H.edge heap.now) (tries_of front ++ tries_of back) result.items (view_of seat.new)
        (pass_view queue.new) }
{
    let one = Caller {
        seat: marks.split(seat),
        pass: queue.ring.another::<Splits>(&mut queue.pass),
        lists: front,
    };
    let two = Caller {
        seat: marks.split(seat),
        pass: queue.ring.another::<Splits>(&mut queue.pass),
        lists: back,
    };
    let ring = &queue.ring;
    let (one, two) = run_both(rt, heap, marks, ring, gate, one, two);
    let Caller {
        seat: one_seat,
        pass: one_pass,
        mut lists,
    } = one;
    let Caller {
        seat: two_seat,
        pass: two_pass,
        lists: others,
    } = two;
    join_one(marks, ring, seat, &mut queue.pass, one_seat, one_pass);
    join_one(marks, ring, seat, &mut queue.pass, two_seat, two_pass);
    settle(marks, ring, seat, &mut queue.pass);
    append_lists(&mut lists, others);
    drain(rt, heap, marks, ring, seat, &mut queue.pass, &mut lists);
    settle(marks, ring, seat, &mut queue.pass);
    lists.outside
}
