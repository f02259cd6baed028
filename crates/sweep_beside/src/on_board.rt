// Arenas that lie on a board, where helpers sweep them.
ghost use Rattle.std.specs.Prelude.{◌≤◌, drop};
ghost use Rattle.sweep_board.specs.Flights.{flight_bits};
ghost use Rattle.sweep_board.specs.Seats.{board_len, jobs_of, main_view_of};
ghost use Rattle.sweep_board.specs.Views.{HasTakenBelow};
ghost use Rattle.sweeping.specs.ArenasOut.{outs_of};
ghost use Rattle.helper_sweep.specs.Walks.{IsIdle};

use cell_bits::{Colour, Flight, Taken};
use helper_sweep::wait_take_from;
use std::collections::LinkedList;
use std::sync::Wait;
use std::thread::Threads;
use sweep_board::{Board, HelperSeat, InFlight};
use sweeping::Sweeping;

/// What arenas on a board come from. No value of it is made.
pub struct BoardOrigin {
    pub board: Board,
    /// The helper seats not yet joined.
    pub helpers: u64,
    /// The arenas that are out, each with the slots to free.
    pub left: LinkedList<(u32, u64)>,
}

/// The arenas of a board that main has not taken in, with main's seat and a helper's seat of main's own.
#[derive(Drop)]
pub struct OnBoard<'b, R: Threads + Wait> {
    pub rt: &'b R,
    pub flight: InFlight<'b>,
    pub own_seat: HelperSeat,
    /// The index of the first arena that is out.
    pub next: u32,
    ghost own: { IsIdle flight.board.now own_seat },
    ghost below: { HasTakenBelow (main_view_of flight.main) next },
    ghost within: { next ≤ board_len flight.board.now },
}

impl<'b, R: Threads + Wait> Flight for OnBoard<'b, R> {
    type Origin = BoardOrigin;

    ghost origin = { λ f. record {
      board = f.flight.board.now;
      helpers = (main_view_of f.flight.main).helpers;
      left = drop f.next (outs_of (jobs_of f.flight.board.now));
    } };

    ghost bits = { λ f. flight_bits (main_view_of f.flight.main) };

    fn colour(&mut self, arena: u32, slot: u8) -> Colour {
        self.flight.colour(arena, slot)
    }

    fn wake(&mut self, arena: u32, mask: u64) {
        self.flight.wake(arena, mask)
    }
}

impl<'b, R: Threads + Wait> Sweeping for OnBoard<'b, R> {
    type Home = (Board, u64);

    ghost home = { λ origin. (origin.board, origin.helpers) };

    ghost left = { λ origin. origin.left };

    fn is_empty(&self) -> bool {
        self.next == self.flight.board.len()
    }

    fn take_lowest(&mut self) -> Taken {
        let taken = wait_take_from(self.rt, &mut self.flight, &mut self.own_seat, self.next);
        self.next += 1;
        taken
    }
}
