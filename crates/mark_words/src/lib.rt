// Black words that several threads mark at once.
//
// [gczone] Black words for parallel marking
//
// While threads mark in parallel, the black word of each arena stands in a table of atomic words. To
// *try* some cells of an arena is one `fetch_or` of their bits: these cells are black from then on, and
// the thread whose step saw the word without the bit of a cell has *won* that cell, and will scan it. So
// each cell has one winner:
//
//     word      0 1 0 0
//     A tries the first two slots: fetch_or saw 0 1 0 0     A has won the first cell      1 1 0 0
//     B tries the first slot:      fetch_or saw 1 1 0 0     B has won nothing             1 1 0 0
//
// A try looks first, by a load. If the word has all of these bits, the cells were black, and the seat has tried
// them and won nothing: the word need not be written, and stays in the caches of both threads.
//
// If a try were a load and then a store, both threads could load 0 1 0 0, and both would store. The
// cell would be scanned twice. Worse, if they tried different slots of the arena, the later store would
// clear the bit that the earlier one set: a reached cell would be white at the end, and be swept.
//
// Each thread steps with a *seat*. A seat's view lists the cells that its tries won (`won`) and the
// cells that it tried at all, which are black (`known`). `join` puts the lists of one seat behind those of
// another; what each seat did by itself stays apart (`logs`), so that a caller can say who won a cell.
// Between any two steps, in whatever order the threads make theirs, this holds (`MarkRule` in
// specs/Rule.antt; `mark_rule_in_words` says it in sentences):
//
//     each black word is its first value with the bits of all cells won, and each bit was won once
//     each cell won is in the place list of the marks' type: what marking may make black at all
//     each cell that a seat knows to be black is black
//
// The place list stands for no value: who calls marking picks it in a proof (`PlaceList`), so nobody
// has to compute what may be reached before marking begins.
//
// A seat holds *parts* of the right to know everything. The first seat holds them all; a seat that is
// split off gets one, and `join` brings parts back. A seat that holds all parts knows that every cell
// won was won by it or by a seat joined into it: it can `settle` what it knows, and close the marks. So
// nobody can take the words while some thread may still step on them.
#![tactic(auto)]

mod in_words;
mod marks;
mod place_list;
mod steps;
mod threads;
mod view;

pub use in_words::mark_rule_in_words;
pub use marks::{Marks, Seat};
pub use place_list::PlaceList;
pub use view::{MarkLog, MarkView};
