// A session whose step ran out of memory.
ghost use Rattle.std.specs.Prelude.{All};
ghost use Rattle.colour_defs.specs.Step.{HasFewFields};

use gz_names::{CompNo, GraphCmd, GrayNo, Name, Reg, ZoneNo, ZoneSet};
use slice_driver::{Session, SessionReport, SessionStep};
use std::alloc::Global;
use std::test::Fail;
use sweeping::MainSweeper;

pub(super) fn reg(index: u8) -> Reg {
    Reg::new(index % 16).unwrap()
}

pub(super) fn zone(index: u8) -> ZoneNo {
    ZoneNo::new(index % 64).unwrap()
}

pub(super) fn slot(index: u8) -> GrayNo {
    GrayNo::new(index % 64).unwrap()
}

// A zone with its compartment, in which register 0 holds an object that names another one, which gray slot 3 holds.
fn pair_commands() -> [GraphCmd; 7]
    ensures { All HasFewFields result }
{
    [
        GraphCmd::Zone,
        GraphCmd::Comp(zone(0)),
        GraphCmd::New(reg(0), CompNo(0), 1),
        GraphCmd::New(reg(1), CompNo(0), 0),
        GraphCmd::Set(reg(0), 0, Some(reg(1))),
        GraphCmd::Hold(slot(3), reg(1)),
        GraphCmd::Drop(reg(1)),
    ]
}

// Register 5 holds a wrapper of an object of a second zone, and the map of register 6 has an entry of the object that
// register 0 holds.
fn wrapper_and_entry_commands() -> [GraphCmd; 9]
    ensures { All HasFewFields result }
{
    [
        GraphCmd::Zone,
        GraphCmd::Comp(zone(1)),
        GraphCmd::New(reg(4), CompNo(1), 0),
        GraphCmd::Wrap(reg(5), reg(4), CompNo(0)),
        GraphCmd::Drop(reg(4)),
        GraphCmd::Map(reg(6), CompNo(0)),
        GraphCmd::New(reg(7), CompNo(0), 0),
        GraphCmd::Put(reg(6), reg(0), reg(7)),
        GraphCmd::Drop(reg(7)),
    ]
}

// Does commands one after another. None where one is not done.
fn run(session: &mut Session<MainSweeper>, commands: &[GraphCmd]) -> Option<()>
    requires { All HasFewFields commands.now }
{
    for command in commands {
        session.command(*command).ok()?;
    }
    Some(())
}

// Begins a collection of the first two zones.
fn begin_in_both(session: &mut Session<MainSweeper>) -> Option<()> {
    let both = ZoneSet::only(zone(0)).union(ZoneSet::only(zone(1)));
    session.begin(both).ok()
}

// Begins a collection of two zones, with a gray object and one that nothing leads to, which is the key of an entry.
fn begin_with_garbage(session: &mut Session<MainSweeper>) -> Option<()> {
    run(session, &pair_commands())?;
    run(session, &wrapper_and_entry_commands())?;
    session.command(GraphCmd::Drop(reg(0))).ok()?;
    begin_in_both(session)
}

// Does a step of a collection, again if it runs out of memory.
fn step_or_again(session: &mut Session<MainSweeper>) -> Option<SessionStep> {
    if let Ok(step) = session.advance(1000) {
        return Some(step);
    }
    session.advance(1000).ok()
}

// Keeps names, again if it runs out of memory.
fn keep_or_again(list: &mut Vec<Name>, names: &[Name]) -> Option<()> {
    if list.extend_from_slice(names).is_ok() {
        return Some(());
    }
    list.extend_from_slice(names).ok()
}

// The names that a collection reports as gray, and those that it frees.
#[derive(Drop)]
struct Reported {
    grays: Vec<Name>,
    freed: Vec<Name>,
}

// Keeps the names that a step reported.
fn keep_names(
    session: &Session<MainSweeper>,
    step: SessionStep,
    reported: &mut Reported,
) -> Option<()> {
    match step.report {
        Some(SessionReport::Ended(_)) => keep_or_again(&mut reported.grays, session.names()),
        Some(SessionReport::Swept(_)) => keep_or_again(&mut reported.freed, session.names()),
        Some(SessionReport::Started | SessionReport::Groups | SessionReport::Stopped(_)) | None =>
            Some(()),
    }
}

// Collects step by step, and keeps what is reported.
fn collect_names(session: &mut Session<MainSweeper>, reported: &mut Reported) -> Option<()> {
    for _ in 0..100u8 {
        if !session.running() {
            return Some(());
        }
        let step = step_or_again(session)?;
        keep_names(session, step, reported)?;
    }
    None
}

// Begins a collection with a gray object and garbage, and keeps what it reports.
fn collect_garbage(session: &mut Session<MainSweeper>, reported: &mut Reported) -> Option<()> {
    begin_with_garbage(session)?;
    collect_names(session, reported)
}

// Collects with a new session.
fn collect_anew(alloc: Global, reported: &mut Reported) -> Option<()> {
    let mut session = Session::new(alloc).ok()?;
    collect_garbage(&mut session, reported)
}

// Nothing runs out of memory here. Run with a growth that is refused, whichever it is, this passes as well: what begins
// the collection is done anew, and a step that ran out of memory gives its report when it is taken again.
#[test]
fn a_step_that_ran_out_of_memory_is_taken_again(rt: HostRuntime) -> Result<(), Fail> {
    let mut reported = Reported {
        grays: Vec::new(rt.alloc()),
        freed: Vec::new(rt.alloc()),
    };
    let mut done = collect_anew(rt.alloc(), &mut reported);
    if done.is_none() {
        done = collect_anew(rt.alloc(), &mut reported);
    }
    assert_eq!(rt; done, Some(()));
    let (grays, freed) = ([Name::Cell(1)], [Name::Cell(0), Name::Cell(4)]);
    assert_eq!(rt; reported.grays.as_slice(), grays.as_slice());
    assert_eq!(rt; reported.freed.as_slice(), freed.as_slice());
    Ok(())
}
