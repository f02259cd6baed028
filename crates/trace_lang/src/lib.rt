// The lines of a trace, and the texts of the answers.
//
// [gczone] The trace language
//
// A line is one or more words with one space between them: a first word that names the command, and
// what the command is about. The grammar is one table, `SpellsRest` in specs/Grammar.antt, with a
// row for each first word:
//
//     set s f t      `set r14 1 r11`, `set r1 0 -`
//     slice n        `slice 64`
//     collect z ..   `collect 0 5 63`
//
// A number has no leading zero, and zones ascend, so no two lines stand for the same command and
// no line stands for two. `parse` finds the command of a line exactly where there is one: what it
// answers is in the table, and whatever the table has it answers. A parser that is only sound would
// pass as well with a body that refuses every line.
//
// Each word begins with its space and ends at the next space or at the end of the line. So a text
// is cut in one way only, and all exactness rests on that: in ` 12 3` a parser that stopped where
// it liked could find the zone 1 and go on with `2 3`.
//
// A line of the grammar has at most 189 bytes (`collect` with all 64 zones), all below 128. So a
// line that the reader refuses, since it is too long or is no ASCII, is outside the grammar.
//
// Answers are composed before they are written, and go out in one piece, but for a list longer than
// a piece. Fixed answers are written as they stand. Nothing here takes memory.
#![tactic(auto)]

mod arguments;
mod fronts;
mod lines;
mod numbers;
mod piece;
mod rows;
mod tail;
mod words;
mod write;
mod zone_bits;

pub use lines::{BadLine, parse};
pub use write::{write_name, write_reply, write_report};
