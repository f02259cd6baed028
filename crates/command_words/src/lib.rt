// The words of the command line.
//
// [gczone] The command line
//
//     gczone run [--helpers N]                  answers a trace; N helpers sweep beside main
//     gczone storm SEED LINES [--helpers N]     answers a generated trace, and writes four numbers
//     gczone check                              checks a dump of colours
//
// N is 0 to 4, and 2 where it is left out; SEED is below 2^31, LINES is 1 to 1,000,000. The words are read by `clap`.
// The command that it reads is `gczone` in specs/Program, a plain value, so contracts say by definitions of clap's
// alone which words are refused (`fault_of`) and what the others say (`subcommand_of`): words are a usage error exactly
// where clap refuses them, unless it runs out of memory, and the numbers taken are those of the words. Clap takes more
// spellings than those above, as `--helpers=3`, an option before SEED, or `007`. The words above, each number in
// decimal digits without a sign or a leading zero, are the plain ones (specs/Plain).
#![tactic(auto)]

mod laws;
mod line;
mod program;

pub use laws::plain_words_law;
pub use line::{CommandLine, WordsFault, read_words};
