// The queue by which callers give tries away, and its rule.
use crossbeam_queue::protocol::{Join, Lesson, Outcome, Protocol, Split};
use crossbeam_queue::{Pass, RuledArrayQueue};
use gz_names::Place;
use mark_words::PlaceList;
use std::collections::LinkedList;
use std::marker::PhantomData;

/// What a caller gave to the queue and took from it by itself, without the callers that were joined into it.
/// No value of it is made.
pub struct Moves {
    pub given: LinkedList<(u32, u8)>,
    pub taken: LinkedList<(u32, u8)>,
}

/// What a caller and those that were joined into it have put into the queue and taken from it, for the proofs
/// alone. No value of it is made.
pub struct QueueView {
    /// Its parts of the right to know everything.
    pub parts: u64,
    pub put: LinkedList<(u32, u8)>,
    pub taken: LinkedList<(u32, u8)>,
    /// What it did by itself, and behind it what each caller that was joined into it did.
    pub moves: LinkedList<Moves>,
}

/// The queue's rule: what was put into it is what was taken and what stands in it.
pub struct DonationRule<L> {
    list: PhantomData<L>,
}

impl<L: PlaceList> Protocol<Place, QueueView> for DonationRule<L> {
    ghost use Rattle.par_mark.specs.Donations.{unused_view, Balanced};

    ghost holds = { Balanced L.places };

    ghost first = { unused_view };
}

/// One part comes off, for one more caller.
pub(crate) struct Splits;

impl Split<QueueView> for Splits {
    ghost use Rattle.par_mark.specs.Donations.{with_less, new_view};

    ghost left = { with_less };

    ghost right = { λ _. new_view };
}

/// A caller takes over what another one has put and taken.
pub(crate) struct Joins;

impl Join<QueueView> for Joins {
    ghost use Rattle.par_mark.specs.Donations.{joined_view, spent_view};

    ghost both = { joined_view };

    ghost spent = { spent_view };
}

/// A caller gives a try away.
pub(crate) struct Donates;

impl Outcome<Place, QueueView> for Donates {
    ghost use Rattle.par_mark.specs.Donations.{HasPut};

    ghost then = { HasPut };
}

impl Lesson<Place, QueueView> for Donates {
    ghost use Rattle.par_mark.specs.Donations.{Total};

    ghost fact = { Total };
}

/// A caller takes a try.
pub(crate) struct Takes<L> {
    list: PhantomData<L>,
}

impl<L: PlaceList> Outcome<Place, QueueView> for Takes<L> {
    ghost use Rattle.par_mark.specs.Donations.{HasTaken};

    ghost then = { HasTaken L.places };
}

impl<L: PlaceList> Lesson<Place, QueueView> for Takes<L> {
    ghost use Rattle.par_mark.specs.Donations.{Total};

    ghost fact = { Total };
}

pub(crate) type Ring<L> = RuledArrayQueue<Place, QueueView, DonationRule<L>>;

pub(crate) type QueuePass = Pass<Place, QueueView>;
