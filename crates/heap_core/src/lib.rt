// The heap of all zones: its cells, what names them, and each command on the graph.
//
// [gczone] The heap by places
//
// The heap puts its parts together: cells in arenas, zones and compartments, wrapper maps, registers,
// pinned roots and gray slots, entries of weak maps. It does each of the sixteen commands on the graph, without
// barriers; of colours it knows only that a new cell is black, unless its zone is being prepared. It speaks
// of places, not of names, and contracts see it as plain data:
//
//     shape      the arenas with their cells; the states of zones, the homes of compartments, the
//                wrapper maps, the entries, what registers and gray slots hold; pinned root n is
//                register 16 + n, which no command names
//     colours    the two words of mark bits of each arena
//     buffers    what waits for the gray marking of each zone
//     looks      in which colour marking has still to look at each weak entry
//     delayed    the cells for which a pile of the mark stack had no room
//     weak_names what each weak slot names, and which cells are watched
//     ledger     the name of the ledger in which the edges that are read are counted, if they are
//
// An edge is read by `reached_by`, which asks for the count in that ledger, so that a body which is handed a
// count can read none without it. Only a heap whose edges are not counted lets `edge_at` read.
//
// Barriers change `colours` and `delayed` alone, and no unit of marking changes `shape`, so what is said of
// it stays said through all of them.
//
// The definitions know no places. Their graph (colour_defs) keeps everything that was ever made under
// its name, and never frees, so no reply on the graph tells when a collection ran. Here cells go, and
// their places are given again. What lies between is presence: a cell is *present* unless it was white as its
// arena was handed to sweeping.
//
//     an arena that is out    slot     0        1       2
//     its bits at hand-out    black    1        0       0
//                             gob      0        1       0
//                                      present  present stands there until the arena is taken in,
//                                                       and is not present
//
// So the white cells of a group are gone all at once, as its arenas are handed out, however long
// helpers take to sweep them. The story that shows why: w is a wrapper of t in compartment c, it is
// white, and its arena is out. The program wraps t in c again. Were w handed out because it still
// stands there, the arena would be taken in a moment later, and the register would name a place
// without a cell, then one with another cell. So `drop_dead` takes out what names a cell that is not
// present, before any command runs, and `wrap` makes a new wrapper in an arena that is not out. It
// has the name that w had, as in the graph that never frees, where w is still there.
//
// `Shows h g` ties the two: g is the graph of the present cells under their names. `IsSound h` says
// that h shows some graph, and each command keeps that. By what goes wrong without its points:
//
//     .._held      fields, registers, slots and entries name present cells alone: else a place that
//                  is given again would show another cell under the old one's name
//     apart        a name is at one place: else a write to a cell could be missed by a read of it
//     mapped       the wrapper maps name the wrappers: else a target would get a second wrapper
//     at_home      a cell lies in its compartment's zone: else a collection of that zone would leave
//                  it out, and one of another zone would sweep it
//
// The heap notes for each zone the zones in which the targets of its wrappers lie (`target_zones`), so
// that the beginning of a collection looks at no wrapper of a zone that leads elsewhere. It is an
// invariant of the heap that none is missing: a zone that were left out could have a gray wrapper into
// a collected one, whose target would be swept.
//
// A command answers and does on each such graph what the definitions say (`DoesStep`); that the
// graph of what is present answers as the whole one does is a law of colour_defs (`agrees_law`).
// `resolve` looks a command up once: it is refused, or a plan tells what it overwrites, hands out or
// makes and what a `wrap` is about, and names its change, which is one of nine kinds (`Change`). A
// plan stays true while no more changes than colours and which cells are delayed, so barriers come
// between it and `commit`, which makes the change and cannot be refused. Some changes may want memory.
// They take it before they change anything, and a heap that was refused some is as it was.
#![tactic(auto)]

mod commit;
mod edges;
mod entries;
mod fields;
mod heap;
mod making;
mod plans;
mod resolve;
mod steps;
mod weak_names;
mod wrapping;

pub use heap::{CountedIn, Heap};
pub use plans::{Change, Plan};
pub use steps::Steps;
