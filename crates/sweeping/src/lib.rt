// Arenas that are handed to sweeping, and who sweeps them.
//
// [gczone] Who sweeps
//
// As a group ends its arenas are handed to sweeping, and the collector takes them in again one by
// one, the lowest first. What the collector does in between is the same whoever sweeps them: barriers
// and marking read and wake their bits (`Flight` of cell_bits), and now and then the lowest one is
// taken in. `Sweeping` says so much, and everything that advances a collection is written over it.
//
//     handed out   [ 3 | 5 | 8 ]      three jobs, ascending
//     take_lowest      [ 5 | 8 ]      the white slots of arena 3 as it was handed out, and its bits
//     wake             [ 5 | 8 ]      a gray cell of arena 8 turns black; its white slots stay
//
// `left` lists the arenas that are out, each with the slots to free, and is part of what a flight
// comes from (`origin`), which barriers and marking leave as it is. So it needs no clause of theirs.
//
// A unit that ends a group hands jobs out. Who sweeps by itself takes them over (`Sweeper`), as
// `MainSweeper` does, in which main keeps the jobs and sweeps each as it takes it in: one operation on
// words. Where helpers sweep, the caller enters a board with the jobs instead, and goes on over
// another flight until none is out; so handing out is no part of `Sweeping`.
#![tactic(auto)]

mod arenas_out;
mod main_sweeper;

pub use arenas_out::{Sweeper, Sweeping};
pub use main_sweeper::MainSweeper;
