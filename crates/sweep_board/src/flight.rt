// The arenas in flight, as barriers and marking see them.
ghost use Rattle.sweep_board.specs.Seats.{main_view_of, IsMainOf};

use crate::board::{Board, MainSeat};
use cell_bits::{Colour, Flight};
use std::collections::LinkedList;

/// What the arenas in flight come from. No value of it is made.
pub struct FlightOrigin {
    pub board: Board,
    /// The helper seats not yet joined.
    pub helpers: u64,
    /// The arenas that main took in.
    pub taken: LinkedList<usize>,
}

/// The board's arenas that main has not taken in, with main's seat.
#[derive(Drop)]
pub struct InFlight<'a> {
    pub board: &'a Board,
    pub main: MainSeat,
    ghost mains: { IsMainOf board.now main },
}

impl<'a> Flight for InFlight<'a> {
    ghost use Rattle.sweep_board.specs.Flights.{flight_bits};

    type Origin = FlightOrigin;

    ghost origin = { λ f. record {
      board = f.board.now;
      helpers = (main_view_of f.main).helpers;
      taken = (main_view_of f.main).taken;
    } };

    ghost bits = { λ f. flight_bits (main_view_of f.main) };

    fn colour(&mut self, arena: u32, slot: u8) -> Colour {
        match self.board.find(arena) {
            Some(index) => self.board.colour(&mut self.main, index, slot),
            None => unreachable!(),
        }
    }

    fn wake(&mut self, arena: u32, mask: u64) {
        match self.board.find(arena) {
            Some(index) => self.board.wake(&mut self.main, index, mask),
            None => unreachable!(),
        }
    }
}
