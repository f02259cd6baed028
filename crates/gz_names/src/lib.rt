// Names, zones, commands and replies: the plain words of the collector, shared by all crates.
//
// [gczone] Names
//
// An object or a weak map is named by a number, in order of making over the whole heap. A wrapper
// is named by its compartment and its target's number, so a wrapper that died and was made again
// has its old name. Names never change; places (an arena and a slot) are given and given again, and
// cells may move to other places.
#![tactic(auto)]

mod commands;
mod dumps;
mod limits;
mod lists;
mod moves;
mod names;
mod numbers;
mod replies;
mod zone_sets;

pub use commands::{Cmd, GraphCmd, Kind, WeakCmd};
pub use dumps::{DumpColour, DumpFault, DumpLine};
pub use limits::{
    COMP_LIMIT, FIELD_LIMIT, GRAY_SLOT_COUNT, REGISTER_COUNT, SLOT_COUNT, WEAK_SLOT_COUNT,
    ZONE_LIMIT,
};
pub use lists::{DumpLines, Groups, NameList, Names64};
pub use moves::{Move, Moves};
pub use names::{Name, name_order};
pub use numbers::{CompNo, GrayNo, Place, Reg, WeakNo, ZoneNo};
pub use replies::{CmdFault, NoMemory, Refusal, Reply, Report};
pub use zone_sets::ZoneSet;
