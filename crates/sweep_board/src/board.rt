// The board, its seats and its claims.
ghost use Rattle.std.specs.Prelude.{◌≡◌, ◌≢◌, ℕ, ◌+◌, ◌*◌, ◌^◌, ◌<◌, ◌==◌, true, false, [], ◌∷◌, length, bit_or};
ghost use Rattle.std.specs.Prelude.{position, IfOk, IsNone, IsSome, IfNone, IfSome};
ghost use Rattle.sweep_board.specs.declared.view.Role.TheVariants.{Main, Helper};
ghost use Rattle.cell_bits.specs.Jobs.{ArenasAscend};

use crate::steps::{
    Claims, JoinsHelper, LoadsBlack, LoadsGob, Looks, PassesGate, ReadsBlack, ReadsFreed, Ruled,
    SplitsHelper, StoresDone, StoresFreed, Takes, Wakes,
};
use crate::view::View;
use atomic_table::{Seat, Table, TableRule};
use cell_bits::{Bits, Colour, Job, Taken, find_job};
use gz_io::{Gate, Point};
use gz_names::NoMemory;
use std::alloc::Global;

// The states of an arena.
const READY: u64 = 0;

const CLAIMED: u64 = 1;

const DONE: u64 = 2;

// Where an arena's other words stand behind its state, and how many it has.
const BLACK: usize = 1;

const GOB: usize = 2;

const FREED: usize = 3;

const WORDS: usize = 4;

/// The arenas that were handed to sweeping, as atomic words. It can't be let go, so only `close` ends it,
/// once all arenas were taken in and all helpers' seats are joined.
pub struct Board {
    table: Table<(), View, Vec<Job>, Ruled, Global>,
    jobs: Vec<Job>,
    ghost sized: { table.shared.table_id.words ≡ 4 * length jobs.items + 1 },
    ghost slotless: { table.shared.table_id.slots ≡ 0 },
    ghost keyed: { table.shared.key ≡ jobs },
    ghost short: { length jobs.items < 2 ^ 32 },
    ghost ascending: { ArenasAscend jobs.items },
}

/// Main's seat: it wakes cells in flight, and takes arenas in. Nothing but it closes its board.
#[derive(Drop)]
pub struct MainSeat {
    seat: Seat<(), View>,
    ghost mains: { seat.me.0.role ≡ Main },
    ghost slotless: { seat.me.1 ≡ [] },
}

/// A helper's seat: it claims arenas and sweeps them. One that is dropped never counts as joined,
/// so its board cannot be closed any more.
#[derive(Drop)]
pub struct HelperSeat {
    seat: Seat<(), View>,
    ghost helpers: { seat.me.0.role ≡ Helper },
    ghost slotless: { seat.me.1 ≡ [] },
}

/// The right and the duty to sweep an arena: it can't be let go, so only `Board::sweep` ends it.
pub struct Claim {
    index: u32,
}

impl Board {
    ghost use Rattle.atomic_table.specs.Table.{opening};
    ghost use Rattle.cell_bits.specs.Colours.{colour_of};
    ghost use Rattle.gz_io.specs.declared.gate.Point.TheVariants as point;
    ghost use Rattle.sweep_board.specs.declared.view.Stage.TheVariants.{Claimed};
    ghost use Rattle.cell_bits.specs.Jobs.{job_at};
    ghost use Rattle.sweep_board.specs.Rule.{BoardRule, white, done};
    ghost use Rattle.sweep_board.specs.Views.{at_stage, with_passed, with_gate, with_finished, main_view, helper_view};
    ghost use Rattle.sweep_board.specs.Views.{with_helper, joined_view, with_done, with_look, with_wake, with_taken};
    ghost use Rattle.sweep_board.specs.Views.{bits_now, is_taken, IsDone, IsNoted, IsSwept};
    ghost use Rattle.sweep_board.specs.InWords.{OpensReady};
    ghost use Rattle.sweep_board.specs.Seats.{claim_index, key_of, jobs_of, board_len, helper_view_of, main_view_of};
    ghost use Rattle.sweep_board.specs.Seats.{IsHelperOf, IsMainOf, HoldsNoClaim, HoldsClaim};

    /// A board over these jobs, and main's seat. Each arena is ready to be claimed: while main's is
    /// the only seat, the rule of the board's table allows nothing else. No other call of a board
    /// takes memory.
    pub fn new(alloc: Global, jobs: &[Job]) -> Result<(Board, MainSeat), NoMemory>
        requires short { length jobs.now < 2 ^ 32 }
        requires ascending { ArenasAscend jobs.now }
        ensures jobs { IfOk result (λ made. jobs_of made.0 ≡ jobs.now) }
        ensures main { IfOk result (λ made. IsMainOf made.0 made.1 × (main_view_of made.1 ≡ main_view jobs.now)) }
        ensures ready { IfOk result (λ made. OpensReady jobs.now
            (⟦<Ruled as TableRule<(), View, Vec<Job>>>⟧.holds (key_of made.0))) }
    {
        let words = Board::opening_words(alloc, jobs)?;
        let jobs = Vec::from_slice(alloc, jobs)?;
        let (table, seat) = Table::of_words(alloc, &words, &jobs)?;
        Ok((Board { table, jobs }, MainSeat { seat }))
    }

    // The words at the start: with these, and main's view alone, the board rule holds. One more
    // stands behind the arenas' words: splitting and joining seats is a step on some word, also
    // where there is no arena.
    fn opening_words(alloc: Global, jobs: &[Job]) -> Result<Vec<u64>, NoMemory>
        requires { length jobs.now < 2 ^ 32 }
        ensures { IfOk result (λ words. BoardRule jobs.now (opening words.items [] (main_view jobs.now))) }
    {
        let mut words = Vec::with_capacity(alloc, WORDS * jobs.len() + 1)?;
        for job in jobs {
            words.extend_from_slice(&[READY, job.bits.black, job.bits.gob, 0])?;
        }
        words.push(0)?;
        Ok(words)
    }

    /// The number of arenas.
    pub fn len(&self) -> u32
        ensures { result ≡ board_len self.now }
    {
        self.jobs.len() as u32
    }

    /// The number by which the heap knows the arena with this index.
    pub fn arena(&self, index: u32) -> u32
        requires { index < board_len self.now }
        ensures { result ≡ (job_at (jobs_of self.now) index).arena }
    {
        self.jobs[index as usize].arena
    }

    /// The index of the arena with this number.
    pub fn find(&self, arena: u32) -> Option<u32>
        ensures place { result ≡ position (λ job. job.arena == arena) (jobs_of self.now) }
        ensures bound { IfSome result (λ index. index < board_len self.now) }
    {
        match find_job(&self.jobs, arena) {
            Some(index) => Some(index as u32),
            None => None,
        }
    }

    /// Splits a seat for one more helper off main's.
    pub fn split(&self, main: &mut MainSeat) -> HelperSeat
        requires { IsMainOf self.now main.old }
        ensures main { IsMainOf self.now main.new × (main_view_of main.new ≡ with_helper (main_view_of main.old)) }
        ensures helper { IsHelperOf self.now result × (helper_view_of result ≡ helper_view (jobs_of self.now)) }
    {
        let seat = self.table.shared.split_seat::<SplitsHelper>(&mut main.seat);
        HelperSeat { seat }
    }

    /// Joins a helper's seat into main's, which takes over what the helper noted and made done.
    pub fn join(&self, main: &mut MainSeat, seat: HelperSeat)
        requires main { IsMainOf self.now main.old }
        requires seat { IsHelperOf self.now seat }
        requires free { HoldsNoClaim seat }
        ensures { IsMainOf self.now main.new
            × (main_view_of main.new ≡ joined_view (main_view_of main.old) (helper_view_of seat)) }
    {
        let HelperSeat { seat } = seat;
        self.table
            .shared
            .join_seat::<JoinsHelper>(&mut main.seat, seat);
    }

    /// Claims an arena, in one step. None comes only where its state word wasn't READY then, and
    /// the seat notes the arena.
    pub fn claim(&self, seat: &mut HelperSeat, index: u32) -> Option<Claim>
        requires board { IsHelperOf self.now seat.old }
        requires free { HoldsNoClaim seat.old }
        requires index { index < board_len self.now }
        ensures board { IsHelperOf self.now seat.new }
        ensures won { IfSome result (λ claim. (claim_index claim ≡ index)
            × (helper_view_of seat.new ≡ at_stage (helper_view_of seat.old) (Claimed index))) }
        ensures lost { IfNone result (helper_view_of seat.new ≡ with_passed (helper_view_of seat.old) index) }
        ensures noted { IsNoted (helper_view_of seat.old) index → IsNone result }
    {
        let state = WORDS * (index as usize);
        let found = self
            .table
            .shared
            .compare_exchange::<Claims>(&mut seat.seat, state, READY, CLAIMED);
        if found == READY {
            Some(Claim { index })
        } else {
            None
        }
    }

    /// Stands at a gate with an arena that the seat claimed, so before `sweep` loads its words, which
    /// takes the claim. The seat's view notes it.
    pub fn pass_gate<G: Gate>(&self, seat: &mut HelperSeat, claim: &Claim, gate: &G)
        requires board { IsHelperOf self.now seat.old }
        requires own { HoldsClaim seat.old claim.now }
        requires index { claim_index claim.now < board_len self.now }
        ensures board { IsHelperOf self.now seat.new }
        ensures passed { G.passed gate.now point.Claimed (job_at (jobs_of self.now) (claim_index claim.now)).arena }
        ensures visit { helper_view_of seat.new ≡ with_gate (helper_view_of seat.old) (claim_index claim.now) G.name }
    {
        gate.at(Point::Claimed, self.arena(claim.index));
        let state = WORDS * (claim.index as usize);
        self.table
            .shared
            .load::<PassesGate<G>>(&mut seat.seat, state);
    }

    /// Sweeps the claimed arena and makes it done. Answers its freed word, the slots of the cells
    /// that were white at hand-out. Main wakes only slots whose gob bit is set, so it is the same
    /// whether a wake comes before the load of black or after it.
    pub fn sweep(&self, seat: &mut HelperSeat, claim: Claim) -> u64
        requires board { IsHelperOf self.now seat.old }
        requires own { HoldsClaim seat.old claim }
        requires index { claim_index claim < board_len self.now }
        ensures board { IsHelperOf self.now seat.new }
        ensures freed { result ≡ white (job_at (jobs_of self.now) (claim_index claim)) }
        ensures finished { helper_view_of seat.new ≡ with_finished (helper_view_of seat.old) (claim_index claim) }
    {
        let Claim { index } = claim;
        let state = WORDS * (index as usize);
        let shared = &self.table.shared;
        let black = shared.load::<LoadsBlack>(&mut seat.seat, state + BLACK);
        let gob = shared.load::<LoadsGob>(&mut seat.seat, state + GOB);
        let freed = Bits { black, gob }.white_mask(self.jobs[index as usize].alloc_word);
        shared.store::<StoresFreed>(&mut seat.seat, state + FREED, freed);
        shared.store::<StoresDone>(&mut seat.seat, state, DONE);
        freed
    }

    /// Turns the slots of the mask black, slots whose gob bit is set. Main may do so while a helper
    /// sweeps the arena, and until it takes the arena in.
    pub fn wake(&self, main: &mut MainSeat, index: u32, mask: u64)
        requires board { IsMainOf self.now main.old }
        requires index { index < board_len self.now }
        requires within { bit_or mask (job_at (jobs_of self.now) index).bits.gob
            ≡ (job_at (jobs_of self.now) index).bits.gob }
        requires out { is_taken (main_view_of main.old) index ≡ false }
        ensures board { IsMainOf self.now main.new }
        ensures woken { main_view_of main.new ≡ with_wake (main_view_of main.old) index mask }
    {
        let black = WORDS * (index as usize) + BLACK;
        self.table
            .shared
            .fetch_or::<Wakes>(&mut main.seat, black, mask);
    }

    /// The colour of a slot now, with all that main woke.
    pub fn colour(&self, main: &mut MainSeat, index: u32, slot: u8) -> Colour
        requires board { IsMainOf self.now main.old }
        requires index { index < board_len self.now }
        requires slot { slot < 64 }
        ensures same { IsMainOf self.now main.new × (main_view_of main.new ≡ main_view_of main.old) }
        ensures colour { result ≡ colour_of (bits_now (main_view_of main.old) index) slot }
    {
        let word = WORDS * (index as usize) + BLACK;
        let black = self.table.shared.load::<ReadsBlack>(&mut main.seat, word);
        let gob = self.jobs[index as usize].bits.gob;
        Bits { black, gob }.colour(slot)
    }

    /// Takes an arena in, once and for all. None comes only where its state word wasn't DONE at
    /// this step: never for an arena that main knows to be done, nor, where all helpers' seats are
    /// joined, for one that was noted. Where they are joined, an arena that can be taken was swept
    /// by one of them.
    pub fn try_take(&self, main: &mut MainSeat, index: u32) -> Option<Taken>
        requires board { IsMainOf self.now main.old }
        requires index { index < board_len self.now }
        requires out { is_taken (main_view_of main.old) index ≡ false }
        ensures board { IsMainOf self.now main.new }
        ensures none { IfNone result ((state : ℕ) × (state ≢ done)
            × (main_view_of main.new ≡ with_look (main_view_of main.old) index state)) }
        ensures known { IsDone (main_view_of main.old) index → IsSome result }
        ensures alone { IsNoted (main_view_of main.old) index → (main_view_of main.old).helpers ≡ 0 → IsSome result }
        ensures swept { IsSome result → (main_view_of main.old).helpers ≡ 0 → IsSwept (main_view_of main.old) index }
        ensures freed { IfSome result (λ taken. taken.freed ≡ white (job_at (jobs_of self.now) index)) }
        ensures bits { IfSome result (λ taken. taken.bits ≡ bits_now (main_view_of main.old) index) }
        ensures taken { IfSome result (λ taken. main_view_of main.new
            ≡ with_taken (with_done (main_view_of main.old) index) index) }
    {
        let state = WORDS * (index as usize);
        let shared = &self.table.shared;
        if shared.load::<Looks>(&mut main.seat, state) != DONE {
            return None;
        }
        let freed = shared.load::<ReadsFreed>(&mut main.seat, state + FREED);
        let black = shared.load::<Takes>(&mut main.seat, state + BLACK);
        let gob = self.jobs[index as usize].bits.gob;
        let bits = Bits { black, gob };
        Some(Taken { freed, bits })
    }

    /// Ends a board of which everything was taken in and joined.
    pub fn close(self, main: MainSeat)
        requires main { IsMainOf self main }
        requires joined { (main_view_of main).helpers ≡ 0 }
        requires taken { (index : ℕ) → index < board_len self → is_taken (main_view_of main) index ≡ true }
    {
        let MainSeat { seat } = main;
        let Board { table, jobs: _ } = self;
        table.close_with(seat).free();
    }
}
