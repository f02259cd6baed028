// Replies and reports.
use crate::lists::{DumpLines, Groups, NameList, Names64};
use crate::names::Name;
use crate::numbers::{CompNo, ZoneNo};
use crate::zone_sets::ZoneSet;
use std::alloc::AllocError;

/// Want of memory: std's error for it, under the name that signatures use.
pub type NoMemory = AllocError;

/// Why a command is refused. A refused command leaves everything as it was.
#[derive(Clone, Copy, Debug, PartialEq, Eq)]
pub enum Refusal {
    /// The most zones, or compartments, are there.
    Full,
    /// A named zone is not made.
    NoZone,
    /// The named compartment is not made.
    NoComp,
    /// A register that the command reads is empty.
    Empty,
    /// A cell is of another kind than the command wants.
    Kind,
    /// The object has no such field.
    NoField,
    /// Two cells are of different compartments.
    Cross,
    /// A collection runs.
    Running,
    /// No collection runs.
    Idle,
    /// Some zone is marking, or a collection is being prepared.
    Marking,
}

/// The last line of a command's answer.
#[derive(Drop)]
pub enum Reply {
    /// A zone was made.
    Zone(ZoneNo),
    /// A compartment was made.
    Comp(CompNo),
    /// An object or a map was made.
    Made(u64),
    /// What a register holds now.
    Named(Name),
    /// A register is empty now.
    Null,
    /// The command is done.
    Accepted,
    /// There was no such entry, or the cell was not watched.
    Absent,
    /// A collection began.
    GcBegun,
    /// This many units were done.
    Sliced(u64),
    /// A collection is over.
    Collected,
    /// The collection that ran is given up, or was over.
    ResetDone,
    /// The gray names, ascending.
    Gray(NameList),
    /// The lines of a dump.
    Dump(DumpLines),
    /// This many cells were moved, and this many arenas given up.
    Compacted(u64, u32),
    Refused(Refusal),
}

/// What a unit of collection reports.
#[derive(Drop)]
pub enum Report {
    /// The zones are prepared, and marking begins.
    Started,
    /// The groups were formed.
    Groups(Groups),
    /// A group ended: its zones, its present gray names, and the watched names that died with it,
    /// both ascending. Where none was watched, the third list is empty and is not printed.
    Ended(ZoneSet, NameList, NameList),
    /// An arena was taken in: its number, and the names of the cells freed from it, ascending.
    Swept(u32, Names64),
    /// The collection is over.
    Done,
    /// The collection was given up while these zones were being prepared or were marking.
    Stopped(ZoneSet),
}

/// Why a command on the graph was not done.
#[derive(Clone, Copy, Debug, PartialEq, Eq)]
pub enum CmdFault {
    Refused(Refusal),
    /// Memory was wanted, and everything is as it was.
    NoMemory,
}
