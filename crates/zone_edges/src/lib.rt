// Edges between the zones of a collection, and the groups of zones that they make.
//
// [gczone] Zone edges
//
// The zones of a collection do not all finish marking at once. They finish group by group, and a
// zone that has finished is swept: its white cells are gone. So the order matters
// (js/src/gc/GC.cpp, 'Sweep groups'). Take two zones, and a wrapper w of zone a whose target t lies
// in zone b:
//
//           zone a                      zone b
//     +------------------+        +------------------+
//     | gray slot --> w ----------------> t          |
//     +------------------+        +------------------+
//
// Nothing black leads to w or t. Gray marking reaches w through the gray slot, t through w alone.
//
//     a first, or both at once    w becomes gray. As b's turn comes, w is taken up again, and t
//                                 becomes gray too: both cells live, as they should.
//     b first                     nothing has reached t yet. It is white, it is freed, and then a's
//                                 gray marking finds w, a live wrapper of a cell that is gone.
//
// Hence the rule: where a wrapper of a has a target in b that is not black, the edge from a to b is
// noted, and a must not finish after b. (A black target is safe in either order.) Where edges lead
// from a to b and back, neither may finish after the other, so both finish at once. The groups are
// therefore the strongly connected components of the edges, in an order in which no edge leads from
// a later group to an earlier one. Edges are noted first; then each zone has one grouping step;
// then the components are there.
//
// The edges are found by looking at the wrappers of the zones, one at a time, and commands may run
// between two looks. Each zone has a cursor into the list of its wrappers, which is in the order of
// adding: those before the cursor were looked at, and new ones come in behind it. One zone is looked
// at until its cursor is at the end, and then the lowest that has wrappers left. A wrapper that is
// made after the first grouping step is looked at too, but it has a black target, since that came
// from a register (`left_black_law`); so no edge is noted any more.
//
// The search is Tarjan's, against the direction of the edges, so that what must not finish later is
// found earlier and the groups come out in their order. Of each zone the edges are taken once, as
// a word: the set of zones from which an edge leads to it. The zones that were seen and are in no
// group yet stand on levels, like calls of a recursive search:
//
//     levels      {p}  <--  {q, r}  <--  {s}        an arrow: edges lead from there to here
//     entering    where edges into a level come from
//
//     each zone of a level leads to each zone of its own level and of all levels to its left.
//
// One step looks at the last level, and at where the edges that enter it come from:
//
//     a zone not seen yet      it begins a level of its own, to the right
//     a zone further left      that one leads to the last level, and is led to by it: they are of
//                              one component, so the last level falls to its neighbour
//     else                     all that enters the last level is in it, or in groups found earlier:
//                              it is the next group
//
// Tarjan keeps for each zone a number, the low link: the lowest level that leads into its own. Here
// the set `entering` says the same, and a union of two words takes the place of a minimum. Nothing
// here takes memory: 64 zones make arrays of 64 words. A grouping step ends: each step of the
// search sees a zone for the first time, or leaves one level less.
#![tactic(auto)]

mod edges;
mod keeping;
mod look;
mod search;

pub use edges::Edges;
pub use keeping::left_black_law;
