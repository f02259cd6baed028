// Marks and their seats.
ghost use Rattle.std.specs.Prelude.{◌≡◌, ℕ, ◌+◌, ◌<◌, ◌≤◌, [], ◌∷◌, true, false, length, slice_index, IfOk, All};
ghost use Rattle.std.specs.Int.{bit_at};
ghost use Rattle.mark_words.specs.Sums.{times, whole};
ghost use Rattle.mark_words.specs.Rule.{bit_of};

use crate::place_list::{PlaceList, SlotMask};
use crate::steps::{Joins, Looks, Ruled, Settles, Splits, Tries};
use crate::view::MarkView;
use atomic_table::{Seat as TableSeat, Table};
use gz_names::{NoMemory, Place};
use std::alloc::Global;
use std::marker::Brand;

/// The black word of each arena, as atomic words that several threads may step on.
#[derive(Drop)]
pub struct Marks<L: PlaceList> {
    table: Table<(), MarkView, Vec<u64>, Ruled<L>, Global>,
    // The first value of each word; `close` puts the last value in its place.
    words: Vec<u64>,
    ghost sized: { table.shared.table_id.words ≡ length words.items + 1 },
    ghost keyed: { table.shared.key ≡ words },
    ghost slotless: { table.shared.table_id.slots ≡ 0 },
}

/// What a thread steps with. If a seat is dropped, its parts are lost, and its marks can't be closed.
#[derive(Drop)]
pub struct Seat {
    seat: TableSeat<(), MarkView>,
    ghost slotless: { seat.me.1 ≡ [] },
}

impl<L: PlaceList> Marks<L> {
    ghost use Rattle.mark_words.specs.Places.{places_of};
    ghost use Rattle.mark_words.specs.Views.{first_view, with_less, split_off, joined};
    ghost use Rattle.mark_words.specs.Steps.{HasTried, KnowsAll};
    ghost use Rattle.mark_words.specs.Seats.{first_of, view_of, IsSeatOf};

    /// Marks over these black words, one an arena, and their first seat, which holds all parts and has
    /// won nothing. `NoMemory` if there is no room for a copy of the words; no other call takes memory.
    pub fn new(alloc: Global, words: Vec<u64>) -> Result<(Marks<L>, Seat), NoMemory>
        ensures words { IfOk result (λ made. first_of made.0 ≡ words.items) }
        ensures seat { IfOk result (λ made. IsSeatOf made.0 made.1 × (view_of made.1 ≡ first_view words.items)) }
    {
        let mut padded = Vec::with_capacity(alloc, words.len() + 1)?;
        padded.extend_from_slice(&words)?;
        padded.push(0)?;
        let (table, seat) = Table::of_words(alloc, &padded, &words)?;
        Ok((Marks { table, words }, Seat { seat }))
    }

    /// Splits off a seat for one more thread. It holds one part, which this one gives up, and has won
    /// nothing.
    pub fn split(&self, seat: &mut Seat) -> Seat
        requires seat { IsSeatOf self.now seat.old }
        requires parts { 1 < (view_of seat.old).parts }
        ensures old { IsSeatOf self.now seat.new × (view_of seat.new ≡ with_less (view_of seat.old)) }
        ensures new { IsSeatOf self.now result × (view_of result ≡ split_off (view_of seat.old)) }
    {
        let seat = self.table.shared.split_seat::<Splits>(&mut seat.seat);
        Seat { seat }
    }

    /// Joins another seat into this one, which takes over its parts and all that it won and knows.
    pub fn join(&self, seat: &mut Seat, other: Seat)
        requires { IsSeatOf self.now seat.old × IsSeatOf self.now other }
        ensures { IsSeatOf self.now seat.new × (view_of seat.new ≡ joined (view_of seat.old) (view_of other)) }
    {
        let Seat { seat: other } = other;
        self.table.shared.join_seat::<Joins>(&mut seat.seat, other);
    }

    /// Makes the cells of these slots of an arena black in one atomic step. Returns those of the slots that
    /// the word lacked as the step saw it: the seat has won these cells, which were white at first and which
    /// no seat had won before. Either way the seat knows all of the cells to be black afterwards.
    pub fn try_slots(&self, seat: &mut Seat, arena: u32, slots: u64) -> u64
        requires seat { IsSeatOf self.now seat.old }
        requires parts { 0 < (view_of seat.old).parts }
        requires arena { arena < length (first_of self.now) }
        requires listed { All L.places (places_of arena slots) }
        ensures seat { IsSeatOf self.now seat.new }
        ensures within { (slot : ℕ) → bit_at result slot ≤ bit_at slots slot }
        ensures tried { HasTried (view_of seat.old) (places_of arena slots) (places_of arena result)
            (view_of seat.new) }
    {
        if self.are_black::<Brand>(seat, arena, slots) {
            return 0;
        }
        let found = self
            .table
            .shared
            .fetch_or::<Tries>(&mut seat.seat, arena as usize, slots);
        slots & !found
    }

    /// Whether the cell of this place is black, by one look. If it is, the seat has tried it, and did not win it.
    #[inline(always)]
    pub fn is_black(&self, seat: &mut Seat, place: Place) -> bool
        requires seat { IsSeatOf self.now seat.old }
        requires parts { 0 < (view_of seat.old).parts }
        requires arena { place.0 < length (first_of self.now) }
        requires listed { L.places place }
        ensures seat { IsSeatOf self.now seat.new }
        ensures tried { result ≡ true → HasTried (view_of seat.old) (place ∷ []) [] (view_of seat.new) }
        ensures same { result ≡ false → view_of seat.new ≡ view_of seat.old }
    {
        self.are_black::<Brand>(seat, place.arena(), 1 << place.slot())
    }

    // Whether these slots of an arena are all black. If they are, they were tried by this look, which is cheaper than a
    // step that writes and leaves the word with other threads.
    fn are_black<K: SlotMask>(&self, seat: &mut Seat, arena: u32, slots: u64) -> bool
        requires slots { slots ≡ K.slots }
        requires seat { IsSeatOf self.now seat.old }
        requires parts { 0 < (view_of seat.old).parts }
        requires arena { arena < length (first_of self.now) }
        requires listed { All L.places (places_of arena slots) }
        ensures seat { IsSeatOf self.now seat.new }
        ensures tried { result ≡ true → HasTried (view_of seat.old) (places_of arena slots) [] (view_of seat.new) }
        ensures same { result ≡ false → view_of seat.new ≡ view_of seat.old }
    {
        let found = self
            .table
            .shared
            .load::<Looks<K>>(&mut seat.seat, arena as usize);
        let lacked = slots & !found;
        lacked == 0
    }

    /// A seat that holds all parts learns of each cell that it tried that it was black at first, or that
    /// the seat won it, and won it once.
    pub fn settle(&self, seat: &mut Seat)
        requires seat { IsSeatOf self.now seat.old }
        requires parts { (view_of seat.old).parts ≡ whole }
        ensures same { IsSeatOf self.now seat.new × (view_of seat.new ≡ view_of seat.old) }
        ensures knows { KnowsAll (view_of seat.new) }
    {
        let pad = self.words.len();
        self.table.shared.load::<Settles>(&mut seat.seat, pad);
    }

    /// Ends marking: answers the last value of each word, which is its first one with the bits of the
    /// cells that the seat has won. It takes no memory.
    pub fn close(self, seat: Seat) -> Vec<u64>
        requires seat { IsSeatOf self seat }
        requires parts { (view_of seat).parts ≡ whole }
        ensures sized { length result.items ≡ length (first_of self) }
        ensures bits { (p : ℕ × ℕ) → p.0 < length (first_of self)
            → bit_of result.items p ≡ bit_of (first_of self) p + times p (view_of seat).won }
    {
        let Seat { seat } = seat;
        let Marks { table, mut words } = self;
        let closed = table.close_with(seat);
        for index in 0..words.len() {
            words[index] = closed.word(index);
        }
        closed.free();
        words
    }
}
