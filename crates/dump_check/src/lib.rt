// Whether a dump of a heap's colours is sound.
//
// [gczone] Dumps of colours
//
// A dump lists the present cells with their colours, then their edges, then the weak entries:
//
//     cell 0 b         an object or a map, black
//     cell 1 g         one that is gray
//     cell 3:1 g       the wrapper of cell 1 in compartment 3
//     edge 1 0         a field of cell 1 holds cell 0
//     weak 1 3:1 0     map 1 has the key 3:1 with the value 0
//     end
//
// It is sound where all that is named has its line, and nothing black leads to gray: not a wrapper
// to its target, not an object by a field, not a weak entry by its map and key to the value, and not
// by its map and a key's target to the key. Gray cells are those that the cycle collector may find
// dead. So a black cell that leads to a gray one is the fault that lets it take what is in use; what
// Firefox asks of its own heap is the same (js::CheckGrayMarkingState of js/src/gc/Verifier.cpp).
//
// `Checker` is given a dump line by line, and says at the first line that is at fault, or that is no
// line of a dump, which it is and why. Nothing of a line is kept but its cell, in 8 bytes: edges and
// entries come after all cells, so each is judged as it comes.
//
//     lines      a line's text is parsed; the grammar is one table, `dump_text` of gz_names
//     cells      the cells so far with their colours, in ascending order, found by their number where none is left
//                out, or else by halving
//     checker    the parts in their order, the counts, the verdict
#![tactic(auto)]

mod cells;
mod checker;
mod lines;
mod numbers;

pub use checker::{Checker, Verdict};
