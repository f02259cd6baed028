// Lists for the callers, and what main does with seats and lists when both have ended.
ghost use Rattle.std.specs.Prelude.{◌≡◌, ◌+◌, ◌<◌, ◌≤◌, ℕ, List, [], ◌∷◌, ◌++◌, length, vec_len, vec_capacity, All};
ghost use Rattle.std.specs.Prelude.{IfOk};
ghost use Rattle.crossbeam_queue.specs.Passes.{view, IsPassOf};
ghost use Rattle.mark_words.specs.Seats.{first_of, view_of, IsSeatOf};
ghost use Rattle.mark_words.specs.Steps.{KnowsAll};
ghost use Rattle.mark_words.specs.Sums.{whole};
ghost use Rattle.mark_words.specs.Views.{joined};
ghost use Rattle.par_mark.specs.Donations.{joined_view};
ghost use Rattle.par_mark.specs.Lists.{AreNew, HaveRoomFor, outside_of, tries_of, tries_room};
ghost use Rattle.par_mark.specs.Tries.{TakenWasPut};

use crate::donations::{Donates, Joins, QueuePass, Ring};
use crate::lists::{BATCH, Lists};
use crossbeam_utils::CachePadded;
use gz_names::{NoMemory, Place};
use mark_words::{Marks, PlaceList, Seat};
use std::alloc::Global;
use std::collections::VecDeque;

/// Lists for a caller that begins with these tries: room for that number of tries, for the cells that a turn wins,
/// and spare places for what it finds outside.
pub(crate) fn new_lists(
    alloc: Global,
    tries: &[Place],
    room: usize,
    spare: usize,
) -> Result<Lists, NoMemory>
    requires { length tries.now ≤ room }
    ensures { IfOk result (λ lists. AreNew tries.now room spare lists) }
{
    let mut own = Vec::with_capacity(alloc, room)?;
    own.extend_from_slice(tries)?;
    let won = Vec::with_capacity(alloc, BATCH)?;
    let outside = Vec::with_capacity(alloc, spare)?;
    Ok(Lists {
        tries: CachePadded::new(VecDeque::from_vec(own)),
        won,
        outside,
    })
}

/// Puts the second caller's tries and what it found outside behind the first one's, which have room for them.
pub(crate) fn append_lists(lists: &mut Lists, others: Lists)
    requires { HaveRoomFor lists.old others }
    ensures tries { tries_of lists.new ≡ tries_of lists.old ++ tries_of others }
    ensures won { lists.new.won ≡ lists.old.won }
    ensures outside { outside_of lists.new ≡ outside_of lists.old ++ outside_of others }
    ensures room { (tries_room lists.old ≤ tries_room lists.new)
        × (vec_capacity lists.old.outside ≤ vec_capacity lists.new.outside) }
{
    let Lists {
        tries,
        won: _,
        mut outside,
    } = others;
    let mut tries = tries.into_inner();
    let Ok(()) = lists.tries.append(&mut tries) else {
        unreachable!()
    };
    let Ok(()) = lists.outside.append(&mut outside) else {
        unreachable!()
    };
}

/// Joins a caller's seat and pass into main's.
pub(crate) fn join_one<L: PlaceList>(
    marks: &Marks<L>,
    ring: &Ring<L>,
    seat: &mut Seat,
    pass: &mut QueuePass,
    other_seat: Seat,
    other_pass: QueuePass,
)
    requires seats { IsSeatOf marks.now seat.old × IsSeatOf marks.now other_seat }
    requires passes { IsPassOf ring.now pass.old × IsPassOf ring.now other_pass }
    ensures seat { IsSeatOf marks.now seat.new × (view_of seat.new ≡ joined (view_of seat.old) (view_of other_seat)) }
    ensures pass { IsPassOf ring.now pass.new × (view pass.new ≡ joined_view (view pass.old) (view other_pass)) }
{
    marks.join(seat, other_seat);
    ring.absorb::<Joins>(pass, other_pass);
}

/// With all parts in main's seat and pass, main knows what was won, and that no more was taken from the
/// queue than was put into it.
pub(crate) fn settle<L: PlaceList>(
    marks: &Marks<L>,
    ring: &Ring<L>,
    seat: &mut Seat,
    pass: &mut QueuePass,
)
    requires seat { IsSeatOf marks.now seat.old × ((view_of seat.old).parts ≡ whole) }
    requires pass { IsPassOf ring.now pass.old × ((view pass.old).parts ≡ whole) }
    ensures seat { IsSeatOf marks.now seat.new × (view_of seat.new ≡ view_of seat.old) }
    ensures pass { IsPassOf ring.now pass.new × (view pass.new ≡ view pass.old) }
    ensures knows { KnowsAll (view_of seat.new) }
    ensures taken { TakenWasPut (view pass.new) }
{
    marks.settle(seat);
    ring.learn_as::<Donates>(pass);
}
