// Black marking of all that is pending, at once.
//
// [gczone] Marking ahead
//
// A unit of marking follows one cell (marker). `mark_ahead` follows at once all cells that are pending in black: a
// function, in one thread or in several (`MarksBlack`), turns black what edges reach, through marking zones, from the
// black cells there, and tells what it found:
//
//     found                             what is left to do
//     cells that turned black           their edges lead to black cells: they go on no pile, but
//                                       their weak entries are to be looked at; in a heap without
//                                       weak entries these cells need not be listed
//     targets outside marking zones     they are exposed, as where a barrier finds one
//     cells that were on the pile       the same as those that turned black: they leave the pile
//
// If the entries of a cell that turned black were forgotten, the value under a black map and a black key
// would stay white, and be swept. If a target outside was, a black cell would lead to a gray one.
#![tactic(auto)]

mod ahead;
mod black_words;
mod blackening;

pub use ahead::mark_ahead;
pub use blackening::Marked;
