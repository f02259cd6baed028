// The collector: a heap, a mark stack, lists, edges and groups, and the world that they stand for.
//
// [gczone] What a collector stands for
//
// The definitions speak of names and worlds, the crates below of places, bits and piles. `Represents`
// ties the two. A collector stands for a world where
//
//     placed     each present cell lies where the world has its name, with its zone; what was white as
//                its arena went out is a name that the world has not swept yet (`LiesIn`)
//     swept      exactly the arenas that are handed out are in flight, and no name is to be swept twice
//     coloured   the marking invariants of barriers hold, and nothing waits but for marking zones
//     phase      while no zone is marking and none is being prepared, what is black is what the world has
//                black (`AreBlack`); while zones are being prepared, what is black in all others is what
//                the world has black there; while a zone is marking, what is still to become black is the
//                black closure of the collection, and what is still to become gray or black is the live one
//                (`AreTied`); and states of zones, groups, noted edges and looks are those of the
//                collection (`Runs`)
//
// Each part has its laws of keeping, so that a proof about a step names the parts that the step changes.
// Bits of arenas that are handed to sweeping are in flight, and come from elsewhere.
//
// `command` does a command, also between two units of a collection: it makes room, exposes what is
// overwritten, what a `wrap` is about and what is handed out, and lets the heap do the command. Each
// barrier but that of a woken cell is on a cell that black marking would reach anyway, so it leaves
// the world as it is; a woken cell joins the starts of both closures. A wrapper that is made is born
// black. Were its target not exposed first, a black cell that no pile names would lead to a white one.
// In a zone that is being prepared no barrier marks, and no cell is born black.
//
// `gray_names` lists what is gray where no zone is marking and none is being prepared, `next_gray` returns one name
// after the other, and `dump` lists the present cells with their colours, their edges and the weak entries. `begin`
// begins a collection: its zones are being prepared from then on.
//
// `pin` has a pinned root hold what a register holds, `load` has a register hold what a pinned root holds, and `unpin`
// empties one. In every definition a pinned root is a register behind the sixteenth: a black root as marking begins,
// and black from then on. No barrier is needed, since what a register holds is black, or of a zone that is being
// prepared, whose marking begins with what registers and pinned roots hold. Were a pinned root left out then, its cell
// would be freed while the one who pinned it holds its number. The language does not name pinned roots, so a replay has
// none.
//
// A collection goes on unit by unit, and each unit does the first of these steps that has work. They stand in
// `advance` and `advance_one`, and those that report nothing in `quiet_units`, which does any number of them:
// each leaves the world as it is, so one definition tells of all, and no report is built for them.
//
//     1 clears_up_to       while the collection is being prepared, the mark bits of an arena are cleared
//       start_marking      or else marking begins: gray roots are buffered, black roots marked
//     2 marks_black        a cell that is pending in black, or a weak entry for black
//     3 looks, group_step  before the groups are formed, a look at a wrapper, or a grouping step
//     4 begins_zone        gray marking of a zone of the current group begins
//     5 marks_gray_up_to   gray marking of the group, or a weak entry for gray
//     6 take_due           the lowest arena that is out is taken in
//     7 end_group_into     the current group ends
//
// `mark_two` follows at once all cells that are pending in black, and all that edges reach from them through marking
// zones, in place of as many units of step 2. The function that marks the heap meanwhile, by one thread or by two, is
// handed to it (`MarksBlack` of mark_ahead).
//
// So a group is grouped once black marking rests, and ends once all of its marking rests and no arena
// of the group before is out. Each unit lowers one number (`units_left`), which is below 2^64
// (`units_law`), so a collection comes to its end. `give_up` ends one at any time at which no arena is out:
// what its zones hold turns black, and what that reaches.
#![tactic(auto)]

mod advance;
mod begin;
mod bounds;
mod collector;
mod colours;
mod commands;
mod compacting;
mod counted;
mod dump;
mod ends;
mod gray_roots;
mod grouping_steps;
mod laws;
mod listings;
mod mark_two;
mod marking_steps;
mod name_keys;
mod next_gray;
mod pinned;
mod preparing;
mod present;
mod quiet_units;
mod reset;
mod root_marking;
mod session;
mod zone_states;

pub use advance::Step;
pub use begin::BeginFault;
pub use collector::{Collector, Phase, Uncleared};
pub use compact::Compacted;
pub use compacting::CompactFault;
pub use laws::zones_made_law;
pub use pinned::NotPinned;
pub use session::{Session, SessionFault, SessionReply, SessionReport, SessionStep, refusal_words};
