// Black marking by two threads.
//
// [gczone] Parallel black marking
//
// Marking begins from black cells that were not scanned yet. Main reads their edges, and each target is
// a *try*: a place that is to be tried. The list of tries is cut in two, and two callers work on the
// halves in parallel, each with a list of its own. A caller works in *turns*. In a turn it makes up to 64
// tries, the newest of its list first, and then scans the cells that they won:
//
//      own list, or, if it is empty, the queue
//                      |
//                      v
//                    a try ----------------------------+--------------------+
//                      |                               |                    |
//                      | its zone is marking,          | its zone is        | its zone isn't
//                      | its bit was clear             | marking, its bit   | marking
//                      v                               v was set            v
//            the caller has *won* the cell,        nothing more         the cell goes to
//            and scans it when the tries of                             `outside`, for main
//            the turn are made: its targets
//            become tries in the caller's list
//                      |
//                      | more than 16 tries: the oldest goes to the queue, where the other caller finds it
//                      v
//                    queue, of 256 places
//
// The order makes it fast. A try is a locked step of the processor, which waits for all loads before it; so
// if each cell were scanned as it is won, the caller would wait for one cell after the other. The cells of a
// turn are read one behind the other, and their waits overlap. Tries of one arena that follow each other in
// the list are made in one step, as those of the children of a cell often are. A scan looks at each target
// first: one that is black in a marking zone is tried by that look, and does not come into the list.
//
// What comes from the queue is tried at once, so no try is given away twice. A caller that has nothing to try
// waits for the other one to give some away, for a while or until that one has nothing either. What is left
// when both callers have ended, main tries.
//
// Nothing is forgotten and nothing is scanned twice, in every order of the callers' steps. The proof is
// a conservation law. Count tries, each as often as it comes up. For each caller, at all times,
//
//     tries that it began with + targets of the cells that it won + tries that it took
//         = tries in its list + targets of the cells that it has not scanned yet
//           + tries that it gave away + tries that it made + what it found outside
//
// (`Accounts`), and for the queue (`Balanced`)
//
//     what both gave away = what both took + what stands in the queue
//
// These are equations for each place, and so for every way to give places weights and add them up: the
// contracts have them in that form. When main is alone and finds nothing to try, lists and queue are
// empty, and the sum over all seats is
//
//     tries made + outside = targets of the cells that marking began from + targets of all cells won
//
// So each of these cells was scanned, once, and each of its targets was tried or is in `outside`. `mark`
// tells this sum (`scanned` of `HasMarked`), and the first equation for each caller and for main by itself
// (`AreShared`): what each of them tried, won, gave and took stands in the log of its own seat and pass, which
// stay apart as main joins them. A caller that scanned what another one won, or scanned a cell twice, would
// hold targets that its own wins do not account for.
//
// What was tried is black; hence black cells lead to black cells or to those outside, and by induction
// along edges all that is reached is black (proofs/Reaching.antt). That induction is the only place
// where the proof speaks of what is reached; all that the threads do is sums.
//
// What the law rules out: if a try that the full queue refuses were dropped, or if main left the queue
// undrained, a reached cell could stay white, and be swept. If two callers could both win a cell, its
// targets would be counted twice.
//
// `Graph` is what marking reads of a heap, so that the proof, and a test, can do without one. `mark`
// works on marks and a queue, `mark_black` takes black words and answers them, and `mark_heap` does so
// for the heap. The callers' lists are reserved before the first step, with room for as many tries as there
// can be edges, 512 an arena; memory that is reserved and not used takes addresses alone. At the end
// `mark_black` lists the cells that turned black, if it is to; if there is no memory for that, nothing has
// changed. `mark_heap` has them listed if the heap has weak entries. Each caller's list of tries stands in a
// `CachePadded`, so that one caller's pushes don't slow down the other's.
#![tactic(auto)]

mod caller;
mod callers;
mod closed;
mod donations;
mod first_tries;
mod found;
mod gather;
mod graph;
mod heap;
#[cfg(test)]
mod heap_tests;
mod idle;
mod lists;
mod over_heap;
mod over_words;
mod queue;
mod run;
mod scans;
mod slots;
#[cfg(test)]
mod tests;
mod turned;
mod turns;

pub use callers::mark;
pub use closed::closes_up_law;
pub use donations::{DonationRule, Moves, QueueView};
pub use graph::Graph;
pub use over_heap::mark_heap;
pub use over_words::mark_black;
pub use queue::Queue;
