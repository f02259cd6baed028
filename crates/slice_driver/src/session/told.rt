// What a session tells: what a command answers, what a step did, and what it reports.
ghost use Rattle.std.specs.Prelude.{◌≡◌, None};
ghost use Rattle.colour_defs.specs.Step.{refusal_in};
ghost use Rattle.collection_laws.specs.Numbers.{IsGraphReply};
ghost use Rattle.slice_driver.specs.Sessions.{as_reply, groups_of, kind_of};
ghost use Rattle.slice_driver.specs.Sessions.{names_of, no_step, session_result, session_step, told_of};

use crate::advance::Step;
use gz_names::{CompNo, Name, NoMemory, Reply, Report, ZoneNo, ZoneSet};

/// What a command answers that is done.
#[derive(Clone, Copy, Debug, PartialEq, Eq)]
pub enum SessionReply {
    /// A zone was made.
    Zone(ZoneNo),
    /// A compartment was made.
    Comp(CompNo),
    /// An object or a map was made, with this number.
    Made(u64),
    /// What a register holds now.
    Named(Name),
    /// A register is empty now.
    Null,
    /// The command is done.
    Accepted,
    /// There was no such entry.
    Absent,
}

/// What a step reports. The session lists what belongs to it, until the next report.
#[derive(Clone, Copy, Debug, PartialEq, Eq)]
pub enum SessionReport {
    /// The zones are prepared, and marking begins with the heap as it is.
    Started,
    /// The groups were formed. `Session::groups` lists them.
    Groups,
    /// The group of these zones ended. `Session::names` lists its gray cells, and `Session::told` the watched
    /// cells that died with it.
    Ended(ZoneSet),
    /// The arena with this number was taken in. `Session::names` lists what was freed from it.
    Swept(u32),
    /// The collection was given up, of which these zones were being prepared or marked.
    Stopped(ZoneSet),
}

/// What a step of a collection did.
#[derive(Clone, Copy, Debug, PartialEq, Eq)]
pub struct SessionStep {
    /// How many units were done.
    pub units: u64,
    /// What they report, if they do.
    pub report: Option<SessionReport>,
    /// Whether the collection is over with them.
    pub finished: bool,
}

impl SessionStep {
    // No unit was done.
    pub(super) fn none() -> Self
        ensures { result ≡ no_step }
    {
        SessionStep {
            units: 0,
            report: None,
            finished: false,
        }
    }
}

// A reply to a command on the graph that was done.
pub(super) fn reply_of(reply: &Reply) -> SessionReply
    requires graph { IsGraphReply reply.now }
    requires answered { refusal_in reply.now ≡ None }
    ensures { as_reply result ≡ reply.now }
{
    match reply {
        Reply::Zone(zone) => SessionReply::Zone(*zone),
        Reply::Comp(comp) => SessionReply::Comp(*comp),
        Reply::Made(number) => SessionReply::Made(*number),
        Reply::Named(name) => SessionReply::Named(*name),
        Reply::Null => SessionReply::Null,
        Reply::Accepted => SessionReply::Accepted,
        Reply::Absent => SessionReply::Absent,
        Reply::GcBegun
        | Reply::Sliced(_)
        | Reply::Collected
        | Reply::ResetDone
        | Reply::Gray(_)
        | Reply::Dump(_)
        | Reply::Compacted(_, _)
        | Reply::Refused(_) => unreachable!(),
    }
}

// What a report is about, if a session can give it.
pub(super) fn report_of(report: &Option<Report>) -> Option<SessionReport>
    ensures { result ≡ kind_of report.now }
{
    match report {
        Some(Report::Groups(_)) => Some(SessionReport::Groups),
        Some(Report::Ended(zones, _, _)) => Some(SessionReport::Ended(*zones)),
        Some(Report::Swept(arena, _)) => Some(SessionReport::Swept(*arena)),
        Some(Report::Started) => Some(SessionReport::Started),
        Some(Report::Stopped(zones)) => Some(SessionReport::Stopped(*zones)),
        Some(Report::Done) | None => None,
    }
}

// A step, where this is the last report.
pub(super) fn step_of(step: &Step, report: &Option<Report>) -> SessionStep
    ensures { result ≡ session_step step.now report.now }
{
    let said = if step.reported {
        report_of(report)
    } else {
        None
    };
    SessionStep {
        units: step.units,
        report: said,
        finished: step.finished,
    }
}

// What came of a step, where this is the last report.
pub(super) fn steps_of(
    done: Result<Step, NoMemory>,
    report: &Option<Report>,
) -> Result<SessionStep, NoMemory>
    ensures { result ≡ session_result done report.now }
{
    match done {
        Ok(step) => Ok(step_of(&step, report)),
        Err(error) => Err(error),
    }
}

// The names that a report lists.
pub(super) fn names(report: &Option<Report>) -> &[Name]
    ensures { result.now ≡ names_of report.now }
{
    match report {
        Some(Report::Ended(_, grays, _)) => grays.as_slice(),
        Some(Report::Swept(_, names)) => names.as_slice(),
        Some(Report::Groups(_) | Report::Started | Report::Done | Report::Stopped(_)) | None => &[],
    }
}

// The watched cells that died with a group, as a report tells them.
pub(super) fn told_names(report: &Option<Report>) -> &[Name]
    ensures { result.now ≡ told_of report.now }
{
    match report {
        Some(Report::Ended(_, _, told)) => told.as_slice(),
        _ => &[],
    }
}

// The groups that a report lists.
pub(super) fn groups(report: &Option<Report>) -> &[ZoneSet]
    ensures { result.now ≡ groups_of report.now }
{
    match report {
        Some(Report::Groups(groups)) => groups.as_slice(),
        _ => &[],
    }
}
