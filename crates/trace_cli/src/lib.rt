// [gczone] from bytes to bytes
//
// `replay` does what the words of the command line ask for, to its end, from any source into any sink. The program
// `gczone` calls it with the standard streams. A trace is read line by line, and each line is answered before the next
// one is asked for; `storm` does the same with a generated trace and writes a summary; `check` reads a dump of colours.
//
//     reading    what the words ask for; a replay from its first line to its exit
//     replaying  a replay as main's work beside helpers
//     helpers    how many helpers sweep beside main
//     lines      the reading loop: lines are started and gone on with, until something stands in the way
//     answer     the reply to a line that comes at once
//     begin      the lines that begin a collection or go on with one
//     turns      the units that a line asks for, each report written as it comes
//     resets     a collection is given up, each report written as it comes
//     pending    what is left to do of a line
//     dump       the dump of the heap, when no zone is marking
//     dumps      under `check`, a dump of colours is read instead, and its verdict written (`dump_cli`)
//     storm      a generated trace, and its summary
//
// The collector of `slice_driver` stands for a world of the definitions, with the bits that are in flight (`Represents`
// in its specs/). Each command takes a collector that stands for a world to one that stands for the world after it,
// with the reply that the definitions give; so what a replay has written is, at any moment, lawful output for the lines
// that it has read, and at most a part of the next answer.
//
//     gc 0 1         begin                            gc ok
//     slice 2        unit  unit                       groups 0 | 1   slice 2
//     set r0 0 -     command, with its barriers       ok
//     finish         unit  unit  unit  ..  unit       ended ..   swept ..   done   slice K
//
// As a group ends its arenas are handed out, and helpers sweep them on a board while main goes on with units and lines.
// The board is entered and left between two calls of the reading loop `go`, which stops where arenas were handed out,
// where the last one came in, and where the replay is over. That may be in the middle of a line, so what is left of a
// line is data (`Pending`), and all that `go` does is written over any arenas that are out (`Sweeping`):
//
//     line       finish                                                   set r0 0 -   ..
//     units      unit unit unit | unit unit swept | unit unit | ..
//     over       no arena       | the board       | no arena  | a board
//     go         Sweep            BoardEmpty        Sweep
//
// All units are done by `Collector::advance`, a step at a time: many units that report nothing, or one that does. A
// slice is as many units as it is allowed, however steps cut them.
//
// Why slices keep the bound on units: between two lines, what was counted of a collection and what is still to come of
// it (`units_to_come` of slice_driver) are within its bound in sum. A command raises what is to come by no more than
// the bound. A unit takes one from it, or takes an arena in, by which the bound rises by one. Amid a line its units are
// not counted in the world yet, so what was to come as the line began is kept with them (`Amid`).
//
// Why each report is lawful by itself: a failed write, or want of memory, ends the replay between two reports, or
// within one. What was written then is the start of a lawful answer, since each unit is lawful in the world that the
// units before it lead to. Only a command that is not refused takes memory. Whatever the exit, the arenas that
// lie on a board are taken from it, helpers' seats are joined and the board is closed, and nothing is written of it.
#![tactic(auto)]

mod answer;
mod begin;
mod dump;
mod dumps;
mod exit;
mod helpers;
mod lines;
mod machine;
mod pending;
mod reading;
mod replaying;
mod resets;
mod storm;
mod turns;

pub use exit::Exit;
pub use reading::{Thresholds, replay};
