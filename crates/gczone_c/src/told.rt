// What C gets: the structs of gczone.h.
ghost use Rattle.std.specs.Prelude.{◌≡◌};
ghost use Rattle.gczone_c.specs.Calls.{answer_told, command_told, done_told, name_told, no_name};
ghost use Rattle.gczone_c.specs.Calls.{compacted_told, report_kind, root_told, step_told};
ghost use Rattle.gczone_c.specs.Reports.{group_told, line_answer, line_told, name_answer, report_status, report_told};
ghost use Rattle.gczone_c.specs.Statuses.{command_status, compact_status, found_status, pin_status, reply_status};
ghost use Rattle.gczone_c.specs.Statuses.{step_status};

use crate::statuses;
use gz_names::{CompNo, DumpColour, DumpLine, Name, NoMemory, ZoneSet};
use slice_driver::{
    CompactFault, Compacted, SessionFault, SessionReply, SessionReport, SessionStep,
};

pub const NOTHING: u32 = 0;

pub const CELL: u32 = 1;

pub const WRAPPER: u32 = 2;

pub const ZONE: u32 = 3;

pub const COMPARTMENT: u32 = 4;

pub const NO_REPORT: u32 = 0;

pub const GROUPS: u32 = 1;

pub const ENDED: u32 = 2;

pub const SWEPT: u32 = 3;

pub const STARTED: u32 = 4;

pub const STOPPED: u32 = 5;

pub const LINE_END: u32 = 0;

pub const LINE_CELL: u32 = 1;

pub const LINE_EDGE: u32 = 2;

pub const LINE_ENTRY: u32 = 3;

/// What a command answers, or a name of a list: `gcz_name_t`.
#[repr(C)]
#[derive(Drop)]
pub struct Answer {
    pub number: u64,
    pub kind: u32,
    pub compartment: u32,
}

/// What a step did: `gcz_step_t`.
#[repr(C)]
#[derive(Drop)]
pub struct StepDone {
    pub units: u64,
    pub report: u32,
    pub finished: bool,
}

/// What a report is about: `gcz_report_t`.
#[repr(C)]
#[derive(Drop)]
pub struct ReportTold {
    pub zones: u64,
    pub count: usize,
    pub kind: u32,
    pub arena: u32,
}

/// A line of a dump: `gcz_line_t`.
#[repr(C)]
#[derive(Drop)]
pub struct LineTold {
    pub owner: u64,
    pub name: Answer,
    pub value: Answer,
    pub kind: u32,
    pub black: bool,
}

/// How much a session holds: `gcz_counts_t`.
#[repr(C)]
#[derive(Drop)]
pub struct Counts {
    pub cells: u64,
    pub objects: u64,
    pub entries: u64,
    pub bytes: u64,
    pub arenas: u32,
}

/// What a compaction did: `gcz_compacted_t`.
#[repr(C)]
#[derive(Drop)]
pub struct CompactedTold {
    pub moved: u64,
    pub given_up: u32,
}

/// No name.
pub fn nothing() -> Answer
    ensures { result ≡ no_name }
{
    Answer {
        number: 0,
        kind: NOTHING,
        compartment: 0,
    }
}

/// A name, as C sees it.
pub fn named(name: Name) -> Answer
    ensures { result ≡ name_told name }
{
    match name {
        Name::Cell(number) => Answer {
            number,
            kind: CELL,
            compartment: 0,
        },
        Name::Wrap(CompNo(comp), number) => Answer {
            number,
            kind: WRAPPER,
            compartment: u32::from(comp),
        },
    }
}

/// Writes what a command answers, and returns the status.
pub fn tell_reply(reply: &SessionReply, answer: &mut Answer) -> u32
    ensures status { result ≡ reply_status reply.now }
    ensures told { answer.new ≡ answer_told reply.now answer.old }
{
    match reply {
        SessionReply::Zone(zone) => {
            *answer = Answer {
                number: u64::from(zone.index()),
                kind: ZONE,
                compartment: 0,
            };
            statuses::DONE
        }
        SessionReply::Comp(CompNo(comp)) => {
            *answer = Answer {
                number: u64::from(*comp),
                kind: COMPARTMENT,
                compartment: 0,
            };
            statuses::DONE
        }
        SessionReply::Made(number) => {
            *answer = Answer {
                number: *number,
                kind: CELL,
                compartment: 0,
            };
            statuses::DONE
        }
        SessionReply::Named(name) => {
            *answer = named(*name);
            statuses::DONE
        }
        SessionReply::Null | SessionReply::Accepted => {
            *answer = nothing();
            statuses::DONE
        }
        SessionReply::Absent => statuses::NONE,
    }
}

/// Writes what came of a command, and returns the status.
pub fn tell_outcome(outcome: &Result<SessionReply, SessionFault>, answer: &mut Answer) -> u32
    ensures status { result ≡ command_status outcome.now }
    ensures told { answer.new ≡ command_told outcome.now answer.old }
{
    match outcome {
        Ok(reply) => tell_reply(reply, answer),
        Err(fault) => statuses::of_fault(fault),
    }
}

/// Writes the number of a root that was pinned, and returns the status.
pub fn tell_root(pinned: &Result<usize, SessionFault>, root: &mut u64) -> u32
    ensures status { result ≡ pin_status pinned.now }
    ensures told { root.new ≡ root_told pinned.now root.old }
{
    match pinned {
        Ok(number) => {
            *root = *number as u64;
            statuses::DONE
        }
        Err(fault) => statuses::of_fault(fault),
    }
}

/// A step, as C sees it.
pub fn done(step: &SessionStep) -> StepDone
    ensures { result ≡ done_told step.now }
{
    StepDone {
        units: step.units,
        report: kind_of(step.report),
        finished: step.finished,
    }
}

/// Writes what came of a step.
pub fn tell_step(step: &Result<SessionStep, NoMemory>, told: &mut StepDone) -> u32
    ensures status { result ≡ step_status step.now }
    ensures told { told.new ≡ step_told step.now told.old }
{
    let Ok(step) = step else {
        return statuses::NO_MEMORY;
    };
    *told = done(step);
    statuses::DONE
}

/// The kind of a report.
pub fn kind_of(report: Option<SessionReport>) -> u32
    ensures { result ≡ report_kind report }
{
    match report {
        Some(SessionReport::Started) => STARTED,
        Some(SessionReport::Groups) => GROUPS,
        Some(SessionReport::Ended(_)) => ENDED,
        Some(SessionReport::Swept(_)) => SWEPT,
        Some(SessionReport::Stopped(_)) => STOPPED,
        None => NO_REPORT,
    }
}

/// Writes what a report is about: its kind, its zones or its arena, and how many groups or names it lists.
pub fn tell_report(
    report: Option<SessionReport>,
    names: &[Name],
    groups: &[ZoneSet],
    told: &mut ReportTold,
) -> u32
    ensures status { result ≡ report_status report }
    ensures told { told.new ≡ report_told report names.now groups.now told.old }
{
    match report {
        Some(SessionReport::Started) => {
            *told = ReportTold {
                zones: 0,
                count: 0,
                kind: STARTED,
                arena: 0,
            };
            statuses::DONE
        }
        Some(SessionReport::Groups) => {
            *told = ReportTold {
                zones: 0,
                count: groups.len(),
                kind: GROUPS,
                arena: 0,
            };
            statuses::DONE
        }
        Some(SessionReport::Ended(zones)) => {
            *told = ReportTold {
                zones: zones.bits,
                count: names.len(),
                kind: ENDED,
                arena: 0,
            };
            statuses::DONE
        }
        Some(SessionReport::Swept(arena)) => {
            *told = ReportTold {
                zones: 0,
                count: names.len(),
                kind: SWEPT,
                arena,
            };
            statuses::DONE
        }
        Some(SessionReport::Stopped(zones)) => {
            *told = ReportTold {
                zones: zones.bits,
                count: 0,
                kind: STOPPED,
                arena: 0,
            };
            statuses::DONE
        }
        None => statuses::NONE,
    }
}

/// Writes the zones of a group, if there is one.
pub fn tell_group(group: Option<ZoneSet>, zones: &mut u64) -> u32
    ensures status { result ≡ found_status group }
    ensures told { zones.new ≡ group_told group zones.old }
{
    match group {
        Some(group) => {
            *zones = group.bits;
            statuses::DONE
        }
        None => statuses::NONE,
    }
}

/// Writes a name, if there is one.
pub fn tell_name(name: Option<Name>, answer: &mut Answer) -> u32
    ensures status { result ≡ found_status name }
    ensures told { answer.new ≡ name_answer name answer.old }
{
    match name {
        Some(name) => {
            *answer = named(name);
            statuses::DONE
        }
        None => statuses::NONE,
    }
}

/// A line of a dump, as C sees it.
pub fn as_line(line: DumpLine) -> LineTold
    ensures { result ≡ line_told line }
{
    match line {
        DumpLine::Cell(name, colour) => LineTold {
            owner: 0,
            name: named(name),
            value: nothing(),
            kind: LINE_CELL,
            black: colour == DumpColour::Black,
        },
        DumpLine::Edge(owner, name) => LineTold {
            owner,
            name: named(name),
            value: nothing(),
            kind: LINE_EDGE,
            black: false,
        },
        DumpLine::Weak(owner, key, value) => LineTold {
            owner,
            name: named(key),
            value: named(value),
            kind: LINE_ENTRY,
            black: false,
        },
        DumpLine::End => LineTold {
            owner: 0,
            name: nothing(),
            value: nothing(),
            kind: LINE_END,
            black: false,
        },
    }
}

/// Writes a line of a dump, if there is one.
pub fn tell_line(found: Option<DumpLine>, told: &mut LineTold) -> u32
    ensures status { result ≡ found_status found }
    ensures told { told.new ≡ line_answer found told.old }
{
    match found {
        Some(found) => {
            *told = as_line(found);
            statuses::DONE
        }
        None => statuses::NONE,
    }
}

/// Writes what a compaction did, and returns the status.
pub fn tell_compaction(done: &Result<Compacted, CompactFault>, told: &mut CompactedTold) -> u32
    ensures status { result ≡ compact_status done.now }
    ensures told { told.new ≡ compacted_told done.now told.old }
{
    if let Ok(compacted) = done {
        *told = CompactedTold {
            moved: compacted.moved,
            given_up: compacted.given_up,
        };
    }
    statuses::of_compaction(done)
}
