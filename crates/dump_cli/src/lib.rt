// [gczone] A dump of colours is read, and its verdict written
//
// `check` reads the lines of a dump from any source, hands them to a `Checker`, and writes one line
// to any sink, `ok CELLS EDGES ENTRIES` or `fault LINE KIND`. It reads no line behind the one that
// decides. Nothing is written of a line that is none of a dump.
#![tactic(auto)]

mod reading;
mod verdicts;

pub use reading::{CheckEnd, check};
