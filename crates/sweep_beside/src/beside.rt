// Main's work beside helpers, on a board that is made for it.
ghost use Rattle.std.specs.Prelude.{◌≡◌, ℕ, ◌<◌, true, All, OnErr, OnOk};
ghost use Rattle.std.specs.Int.{div_ceil};
ghost use Rattle.sweep_board.specs.Seats.{board_len, jobs_of, main_view_of, IsMainOf};
ghost use Rattle.sweep_board.specs.Views.{is_taken};
ghost use Rattle.sweeping.specs.ArenasOut.{Ascend, flown_by, outs_of};
ghost use Rattle.helper_sweep.specs.Walks.{IsIdle};
ghost use Rattle.sweep_beside.specs.Boards.{IsFresh};

use crate::on_board::OnBoard;
use arena_table::Jobs;
use gz_io::Gate;
use gz_names::NoMemory;
use helper_sweep::{Works, join_seats, split_seats, with_helpers};
use std::alloc::{AllocError, Global};
use std::sync::Wait;
use std::thread::Threads;
use sweep_board::{Board, HelperSeat, InFlight, MainSeat};
use sweeping::{MainSweeper, Sweeper, Sweeping};

// Has the work done over a board beside its helpers. Main's seat comes back, and its own helper's seat.
fn work_on<'b, R: Threads + Wait + Sync, G: Gate + Sync, W: Works + Send>(
    rt: &'b R,
    board: &'b Board,
    main: MainSeat,
    own_seat: HelperSeat,
    seats: &mut [HelperSeat],
    gate: &G,
    work: &mut W,
) -> (MainSeat, HelperSeat)
    requires main { IsMainOf board.now main }
    requires fresh { IsFresh (main_view_of main) }
    requires own { IsIdle board.now own_seat }
    requires seats { All (IsIdle board.now) seats.old }
    requires ready { W.ready work.old (outs_of (jobs_of board.now)) (flown_by (jobs_of board.now)) }
    ensures ran { W.ran work.old (outs_of (jobs_of board.now)) (flown_by (jobs_of board.now)) work.new }
    ensures main { IsMainOf board.now result.0 }
    ensures helpers { (main_view_of result.0).helpers ≡ (main_view_of main).helpers }
    ensures taken { (i : ℕ) → i < board_len board.now → is_taken (main_view_of result.0) i ≡ true }
    ensures own { IsIdle board.now result.1 }
    ensures seats { All (IsIdle board.now) seats.new }
{
    let mut on_board = OnBoard {
        rt,
        flight: InFlight { board, main },
        own_seat,
        next: 0,
    };
    with_helpers(rt, board, seats, gate, work, &mut on_board);
    let OnBoard {
        rt: _,
        flight,
        own_seat,
        next: _,
    } = on_board;
    let InFlight { board: _, main } = flight;
    (main, own_seat)
}

// How many helpers are of use for these arenas.
fn most_helpers(arenas: usize, arenas_a_helper: usize) -> usize
    requires { 0 < arenas_a_helper }
    ensures { result ≡ div_ceil arenas arenas_a_helper }
{
    arenas.div_ceil(arenas_a_helper)
}

// Sweeps the arenas of these jobs and takes them in: memory for their board is wanted, which is the answer.
#[cold]
fn sweep_alone(alloc: Global, jobs: Jobs) -> NoMemory
    requires { Ascend (outs_of jobs) }
{
    let mut sweeper = MainSweeper::new(alloc);
    sweeper.take_over(Some(jobs));
    while !sweeper.is_empty() {
        sweeper.take_lowest();
    }
    AllocError
}

// Has the work done over the arenas of these jobs, which main sweeps by itself.
fn sweep_by_main<W: Works>(alloc: Global, jobs: Jobs, work: &mut W)
    requires ascending { Ascend (outs_of jobs) }
    requires ready { W.ready work.old (outs_of jobs) (flown_by jobs) }
    ensures { W.ran work.old (outs_of jobs) (flown_by jobs) work.new }
{
    let mut sweeper = MainSweeper::new(alloc);
    sweeper.take_over(Some(jobs));
    work.run(&mut sweeper);
}

/// Has the work done over the arenas of these jobs, beside this many helpers that sweep them, and no more than one for
/// each `arenas_a_helper` arenas begun. All helpers' seats are joined and the board is closed as it returns, since
/// nothing else ends a board. Where there are no helpers, main sweeps each arena as it takes it in, and no board is
/// made. Where memory for the seats or their board is wanted, nothing is done of the work: main sweeps the arenas, and
/// takes them in.
pub fn sweep_beside<R: Threads + Wait + Sync, G: Gate + Sync, W: Works + Send>(
    rt: &R,
    alloc: Global,
    jobs: Jobs,
    helpers: usize,
    arenas_a_helper: usize,
    gate: &G,
    work: &mut W,
) -> Result<(), NoMemory>
    requires ascending { Ascend (outs_of jobs) }
    requires some { 0 < arenas_a_helper }
    requires ready { W.ready work.old (outs_of jobs) (flown_by jobs) }
    ensures ran { OnOk result (W.ran work.old (outs_of jobs) (flown_by jobs) work.new) }
    ensures kept { OnErr result (work.new ≡ work.old) }
{
    if helpers == 0 {
        sweep_by_main(alloc, jobs, work);
        return Ok(());
    }
    let arenas = jobs.as_slice().len();
    if arenas > u32::MAX as usize {
        return Err(sweep_alone(alloc, jobs));
    }
    let count = most_helpers(arenas, arenas_a_helper).min(helpers);
    let Ok(mut seats) = Vec::with_capacity(alloc, count) else {
        return Err(sweep_alone(alloc, jobs));
    };
    let Ok((board, mut main)) = Board::new(alloc, jobs.as_slice()) else {
        return Err(sweep_alone(alloc, jobs));
    };
    let own_seat = board.split(&mut main);
    split_seats(&board, &mut main, &mut seats, count);
    let (mut main, own_seat) = work_on(
        rt,
        &board,
        main,
        own_seat,
        seats.as_mut_slice(),
        gate,
        work,
    );
    board.join(&mut main, own_seat);
    join_seats(&board, &mut main, seats);
    board.close(main);
    Ok(())
}
