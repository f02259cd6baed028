// The commands of a trace, one after another.
//
// [gczone] The commands of a trace
//
// The reading loop of the program asks for one command after another. They come from lines that are read
// (`TraceSource`), or from a generator that makes no text (`StormSource` of storm_source). In both cases they are the
// commands that the lines of a text stand for, and the contract of `next` says so:
//
//     set r0 0 -          Command(Set(r0, 0, None))
//     set r0 0 nothing    BadLine
//     the end             End
//
// A source tells the bytes that are still to come: those that it holds, and those behind them (`Input` in specs/).
#![tactic(auto)]

mod source;
mod trace;

pub use source::{CommandSource, NextCommand};
pub use trace::TraceSource;
