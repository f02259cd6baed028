// The walk of a helper, and main's work beside the helpers.
ghost use Rattle.std.specs.Prelude.{◌≡◌, ℕ, ◌<◌, [], All, length, slice_index_or};
ghost use Rattle.gz_io.specs.declared.gate.Point.TheVariants as point;
ghost use Rattle.cell_bits.specs.Jobs.{job_at};
ghost use Rattle.sweep_board.specs.Seats.{board_len, jobs_of, helper_view_of};
ghost use Rattle.sweep_board.specs.declared.board.HelperSeat.{HelperSeat as ASeat};
ghost use Rattle.sweep_board.specs.Views.{IsNoted};
ghost use Rattle.helper_sweep.specs.Walks.{IsIdle, HasWalked, VisitsArena, WalksInOrder};

use crate::works::Works;
use gz_io::Gate;
use std::sync::Wait;
use std::thread::{Threads, for_each_mut, join_mut};
use sweep_board::{Board, HelperSeat};
use sweeping::Sweeping;

// Claims the arena, stands at the gate and sweeps it, or notes that it is not ready.
fn visit<G: Gate>(board: &Board, seat: &mut HelperSeat, gate: &G, index: u32)
    requires idle { IsIdle board.now seat.old }
    requires index { index < board_len board.now }
    ensures idle { IsIdle board.now seat.new }
    ensures visit { VisitsArena G.name (λ i. G.passed gate.now point.Claimed (job_at (jobs_of board.now) i).arena) index
        (helper_view_of seat.old).visits (helper_view_of seat.new).visits }
    ensures here { IsNoted (helper_view_of seat.new) index }
    ensures kept { (i : ℕ) → IsNoted (helper_view_of seat.old) i → IsNoted (helper_view_of seat.new) i }
{
    if let Some(claim) = board.claim(seat, index) {
        board.pass_gate(seat, &claim, gate);
        board.sweep(seat, claim);
    }
}

/// Walks over all arenas once, in ascending order, and sweeps those that it can claim. With each of
/// them it stands at the gate after its claim and before any load.
pub fn help<G: Gate>(board: &Board, seat: &mut HelperSeat, gate: &G)
    requires { IsIdle board.now seat.old }
    ensures noted { HasWalked board.now seat.new }
    ensures order { WalksInOrder board.now G.name (G.passed gate.now point.Claimed) seat.old seat.new }
{
    for index in 0..board.len() {
        visit(board, seat, gate, index);
    }
}

// One helper for each seat, all at once.
fn all_help<R: Threads + Sync, G: Gate + Sync>(
    rt: &R,
    board: &Board,
    seats: &mut [HelperSeat],
    gate: &G,
)
    requires some { 0 < length seats.old }
    requires idle { All (IsIdle board.now) seats.old }
    ensures noted { All (HasWalked board.now) seats.new }
    ensures order { (k : ℕ) (d : ASeat) → k < length seats.old → WalksInOrder board.now G.name
        (G.passed gate.now point.Claimed) (slice_index_or seats.old k d) (slice_index_or seats.new k d) }
{
    let helpers = seats.len();
    for_each_mut(rt, seats, helpers, &|_, seat| help(board, seat, gate));
}

/// Does main's work here, over this flight, beside one helper for each seat in threads of their own, and
/// waits for the helpers as it ends. With no seat it starts no thread.
pub fn with_helpers<R: Threads + Wait + Sync, G: Gate + Sync, W: Works + Send, F: Sweeping + Send>(
    rt: &R,
    board: &Board,
    seats: &mut [HelperSeat],
    gate: &G,
    work: &mut W,
    flight: &mut F,
)
    requires seats { All (IsIdle board.now) seats.old }
    requires ready { W.ready work.old (F.left (F.origin flight.old)) (F.bits flight.old) }
    ensures seats { All (HasWalked board.now) seats.new }
    ensures order { (k : ℕ) (d : ASeat) → k < length seats.old → WalksInOrder board.now G.name
        (G.passed gate.now point.Claimed) (slice_index_or seats.old k d) (slice_index_or seats.new k d) }
    ensures ran { W.ran work.old (F.left (F.origin flight.old)) (F.bits flight.old) work.new }
    ensures home { F.home (F.origin flight.new) ≡ F.home (F.origin flight.old) }
    ensures taken { F.left (F.origin flight.new) ≡ [] }
{
    if seats.is_empty() {
        work.run(flight);
        return;
    }
    join_mut(
        rt,
        &mut ||
            requires some { 0 < length seats.now }
            requires idle { All (IsIdle board.now) seats.now }
        { all_help(rt, board, seats, gate) },
        &mut ||
            requires { W.ready work.now (F.left (F.origin flight.now)) (F.bits flight.now) }
        { work.run(flight) },
    );
}
