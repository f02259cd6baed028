// The mark bits of an arena's cells.
//
// [gczone] Mark bits
//
// A cell has two mark bits, as in js/src/gc/Cell.h: BlackBit and GrayOrBlackBit. It is black where
// BlackBit is set, gray where GrayOrBlackBit alone is set, white where neither is. An arena has 64
// cells, so its bits are two words, `black` and `gob`:
//
//     black  gob   colour
//       0     0    white    not reached; freed where its arena is swept
//       0     1    gray     reached from a gray root alone
//       1     0    black    marked black at once
//       1     1    black    was gray, and was turned black: a *wake*
//
// Marking only ever sets bits. Turning gray to black sets BlackBit and leaves the other bit, so
// black or gob never loses a slot and the white slots of an arena only become fewer. That is why an
// arena can be swept by a helper thread while main still turns gray cells of it black: a wake sets
// a bit in `black` that is set in `gob` already, so `!(black | gob)` is the same before and after.
//
//     alloc 1 1 1 1       white_mask = alloc & !(black | gob)
//     black 1 0 0 0 ->    1 1 0 0 after a wake of the second slot
//     gob   0 1 0 0       0 1 0 0
//     mask  0 0 1 1       0 0 1 1
//
// While an arena is handed to sweeping its bits are not the heap's but in flight: on the shared
// board, where helpers read them. `Flight` is how barriers and marking read and wake them there;
// `NoFlight` is the flight in which no arena is out.
#![tactic(auto)]

mod bits;
mod flight;
mod jobs;

pub use bits::{Bits, Colour};
pub use flight::{Flight, NoFlight};
pub use jobs::{Job, Taken, find_job};
