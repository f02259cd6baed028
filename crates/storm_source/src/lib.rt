// The generated trace, as a source of commands.
//
// [gczone] The storm
//
// A storm is a trace that a seed and a number of lines determine (specs/Trace). Its head makes zones, compartments and
// four objects. Then come the lines that are drawn, and at the end a collection of all zones.
//
//     head     zone  ..  comp 0  ..  new r0 0 4  ..                  16 lines
//     drawn    set r14 1 r11     find r11 r2 r11     gc 0 2     ..   as many as are asked for
//     tail     finish   collect 0 1 2 3   colours
//
// A draw is one step of a linear congruence, and chooses a number below some bound from the upper bits of its state.
// The first draw of a line chooses a row of a table, which has the line's first word and what each further word is
// drawn from:
//
//     0 to 2    new     a register, a number below 8, a number below 5
//     12        hold    a gray slot, a register
//     15        gc, or slice
//
// A storm is defined as text, and no text is made of it: each line is in the language (`storm_law`), and what is drawn
// is the command that it stands for (`StormSource`). No memory is taken, and no call fails. Many of the commands are
// refused, as one that reads an empty register.
#![tactic(auto)]

mod commands;
mod generator;
mod laws;
mod source;

pub use laws::storm_law;
pub use source::StormSource;
