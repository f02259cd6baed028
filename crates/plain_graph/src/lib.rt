// The graph that never frees as a plain program: its step, and its closure.
//
// [gczone] The plain graph
//
// colour_defs says what a command does to the graph (specs/Step) and what is reached in it (specs/Closure). Here both
// are functions that run, and are proved to be those definitions: `step` does what `step_of` says, and `closure`
// returns exactly what is in `Closure`, each name once.
//
// So whoever doubts a definition can run it. spec_replay answers a trace by them, and tools/check-step compares other
// collectors with what it answers. Both are short. A step looks up wrappers and entries by name; the closure visits
// each of its names once, and each entry that may wait for the name: an entry is listed under its map and its key.
//
// The collector has no use for them, and no crate of it stands on this one.
#![tactic(auto)]

mod commands;
mod graph;
mod reach;
mod waiting;

pub use commands::{step, take_in_register};
pub use graph::Graph;
pub use reach::{Walk, closure};
