// The judge of any collector's output, by the definitions.
//
// [gczone] The judge
//
// A collector that was built elsewhere may take its units, form its groups and sweep in an order of its own, and be
// right. So its output is not compared with another one. Each line is asked whether a lawful output may go on so.
//
// What is kept is the world of the definitions (colour_defs, specs/World): the graph that never frees, the places of
// the present cells, what is black, what weak slots name, which cells are watched, and of a collection the graph as its
// marking began and the two closures. In a world next to nothing is open. A command has one reply. Of the reports one
// is due: `started`, `groups`, then for each group `ended`, `told` where watched cells died, and its `swept` lines, and
// `done`; and the text of each but `groups` is settled. So the text that is due is composed by the writers of
// trace_lang, and compared. What is open is the partition into groups, which is judged by the edges between zones, and
// how many units a slice has, within the bound. What a compaction moves and gives up is settled too, by where the cells
// lie and whose the arenas are.
//
//     bytes -> lines -> judging -> answers -> checks -> world -> collection, preparation -> former (plain_graph)
//                                     |          |
//                                     +-- kinds -+   what is wrong with a line, in words; no verdict rests on them
//
// Both closures of a collection are kept and grow with the names that are woken, so that each name is visited once in a
// collection, not once for each end of a group.
#![tactic(auto)]

mod answers;
mod arenas;
mod checks;
mod collection;
mod compaction;
mod dumps;
mod edges;
mod former;
mod group_lines;
mod judging;
mod kinds;
mod lines;
mod parse;
mod places;
mod preparation;
mod running;
mod tally;
mod text;
mod weak;
mod whites;
mod world;

pub use judging::{JudgeEnd, judge};
