// The definitions of the collector, and laws of all its lawful runs.
//
// [gczone] Definitions
//
// What is kept
// ------------
// A graph that never frees takes commands (specs/Graph, specs/Step). What is reached in it from
// some starts is a closure: the least set that has the starts, with each name the ends of its
// edges, with a map and a key the value of their entry, and with a map and the target of a wrapper
// that is a key the wrapper (specs/Closure).
//
// A world (specs/World) is that graph with what a collector makes of it: the places of the present
// cells, the zone of each arena, the arenas that are out for sweeping, the white cells that wait
// there, the black names, what weak slots name and whose death is watched, and the collection that
// is prepared or runs. Once its marking has begun the collection keeps the graph as it was then and
// two sets of starts. Its black closure is what it finds black, its live closure what it finds black
// or gray; both grow with each name that is woken while it runs.
//
//     no collection --gc--> preparing --started--> marking --groups--> in groups --last ended--> sweeping --+
//          ^  ^                  |                    |                  |  |  ^                    |       |
//          |  |                  |                    |                  |  +--+ another ended      |       |
//          |  +---- reset -------+--------------------+------------------+--------------------------+       |
//          +------------------------------------------ done ------------------------------------------------+
//
// As a group ends (specs/Ends) exactly the black closure is black, the rest of the live closure
// gray, and the remainder white: white names stop being present, and lie in their arenas until
// these are taken in. Which reports are lawful, one unit after another, and so which answers to a
// list of commands, is specs/Lawful. That a collection takes a bounded number of units is
// specs/Units. Weak slots and watches are specs/WeakRefs, dumps specs/Dumps, compaction
// specs/Compaction; none of the three has a part in marking.
//
// Why a snapshot
// --------------
// Cell 0 is scanned. Then the script reads cell 2 out of a field of cell 1, which is not scanned,
// puts it into cell 0, clears the field of cell 1 and drops the register. Cell 2 now hangs on a
// scanned cell alone, and a collector that looks at the graph of today frees it under the script's
// hand. In the snapshot cell 1 still holds cell 2, so it is in the black closure, whatever the
// script does since; hence the barrier before a write. The closure law says for every lawful run
// that black leads to black and live to live, in the graph as it is at that moment.
//
// Why an order of groups
// ----------------------
// Zone a ends after zone b, and a gray wrapper of a leads to a cell of b that is reached by nothing
// else. As b ends nobody has marked that cell gray: it is freed, and the wrapper leads nowhere. The
// invariant of all lawful runs (IsValid in specs/Laws) rules this out: a present wrapper of a later
// group leads into an earlier one only to what is black.
//
// How the laws are proved
// -----------------------
// The commands are told apart once (proofs/Effects): each does one of a few kinds of change, and each
// name that it writes comes from a register, from what a register leads to, or was woken. What such
// a change keeps is in proofs/Follows; from there on no law looks at a command.
#![tactic(auto)]

mod fields;
mod graph;
mod laws;

pub use fields::Fields;
pub use graph::{Entry, Object};
pub use laws::{
    agrees_law, answer_law, begin_law, closure_law, edges_law, end_law, garbage_law, presence_law,
    reached_law, refusal_law, register_law, shown_law, unit_law, valid_law,
};
