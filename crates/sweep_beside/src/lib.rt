// Main's work over arenas that are out, beside the helpers that sweep them.
//
// [gczone] Sweeping beside main
//
// What the answer to a line does to arenas that are handed to sweeping is the same whoever sweeps them, so it is
// written once, over any `Sweeping`. There are two:
//
//     MainSweeper    main keeps the jobs, and sweeps each as it takes it in (crate sweeping)
//     OnBoard        the arenas lie on a board; helpers sweep them, and main takes in what is done
//
// `OnBoard` is the flight of the board with main's seat, and a helper's seat of main's own. Its arenas ascend, and main
// has taken in exactly those below an index, so the lowest that is out is the next one:
//
//     arena     3      5      8      9
//     state     DONE   DONE   READY  CLAIMED
//     main      taken  next                       takes it: it is done
//               taken  taken  next                sweeps it with its own helper's seat, and takes it
//               taken  taken  taken  next         waits for the helper that claimed it, and takes it
//
// `sweep_beside` is given the jobs that a unit handed out and a piece of work (`Works`) that goes on over any flight
// until no arena is out. It makes a board, splits off a seat for each helper, has the work done beside the helpers,
// joins all seats and closes the board, which nothing else ends. The work says how it leaves itself, over any flight
// with these arenas and bits, and that is all that the caller is promised: who swept can't be told from what was
// written. Where there are no helpers, no board is made: the work goes on over a `MainSweeper` with the jobs. Where
// memory for the seats or for the board is wanted, none of the work is done: main sweeps the arenas over a
// `MainSweeper`, and the call says that memory was wanted.
#![tactic(auto)]

mod beside;
mod on_board;

pub use beside::sweep_beside;
pub use helper_sweep::Works;
pub use on_board::{BoardOrigin, OnBoard};
