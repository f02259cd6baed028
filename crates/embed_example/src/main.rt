// A program of its own over the collector: two zones, a gray cycle through both, and its collection.
//
// The objects of two zones name each other through wrappers, and a gray slot holds one of them. The
// first collection finds both gray and frees nothing; the slot is released, and the second frees both
// objects and both wrappers. docs/EMBEDDING.md goes through the lines.
#![tactic(auto)]

use gz_names::{CompNo, GrayNo, Reg, ZoneNo, ZoneSet};
use slice_driver::{Session, SessionFault, SessionReport};
use std::process::ExitCode;
use sweeping::MainSweeper;

// Prints what a step reported, if it did.
fn print_report(
    rt: &HostRuntime,
    session: &Session<MainSweeper>,
    report: Option<SessionReport>,
) -> Option<()> {
    match report {
        Some(SessionReport::Started) => println!(rt; "marking begins").ok(),
        Some(SessionReport::Groups) => println!(rt; "groups: {}", session.groups().len()).ok(),
        Some(SessionReport::Ended(_)) => {
            println!(rt; "a group ends: {} gray", session.names().len()).ok()
        }
        Some(SessionReport::Swept(arena)) => {
            println!(rt; "arena {arena}: {} freed", session.names().len()).ok()
        }
        Some(SessionReport::Stopped(_)) => println!(rt; "given up").ok(),
        None => Some(()),
    }
}

// Collects these zones step by step, and prints what is reported.
fn collect(rt: &HostRuntime, session: &mut Session<MainSweeper>, zones: ZoneSet) -> Option<()> {
    session.begin(zones).ok()?;
    while session.running() {
        let step = session.advance(1000).ok()?;
        print_report(rt, session, step.report)?;
    }
    println!(rt; "collected").ok()
}

// How many cells are gray.
fn count_grays(session: &mut Session<MainSweeper>) -> Option<usize> {
    Some(session.gray_names().ok()??.as_slice().len())
}

// How many lines a dump of the heap has.
fn count_lines(session: &mut Session<MainSweeper>) -> Option<usize> {
    Some(session.dump().ok()??.len())
}

// Prints how many cells are gray, and how many lines a dump of the heap has.
fn print_colours(rt: &HostRuntime, session: &mut Session<MainSweeper>) -> Option<()> {
    let grays = count_grays(session)?;
    let lines = count_lines(session)?;
    println!(rt; "gray: {grays}, lines of a dump: {lines}").ok()
}

// Makes a zone with one compartment.
fn make_zone(session: &mut Session<MainSweeper>) -> Result<(ZoneNo, CompNo), SessionFault> {
    let zone = session.new_zone()?;
    let compartment = session.new_compartment(zone)?;
    Ok((zone, compartment))
}

// Makes an object in each of two compartments, each with a wrapper of the other.
fn link(
    session: &mut Session<MainSweeper>,
    (a, left): (Reg, CompNo),
    (b, right): (Reg, CompNo),
    wrapper: Reg,
) -> Result<(), SessionFault> {
    session.new_object(a, left, 1)?;
    session.new_object(b, right, 1)?;
    session.wrap(wrapper, b, left)?;
    session.set(a, 0, Some(wrapper))?;
    session.wrap(wrapper, a, right)?;
    session.set(b, 0, Some(wrapper))
}

// A gray slot holds what the first register holds, and the registers become empty.
fn hold_gray(
    session: &mut Session<MainSweeper>,
    root: GrayNo,
    (a, b, wrapper): (Reg, Reg, Reg),
) -> Result<(), SessionFault> {
    session.hold(root, a)?;
    session.drop_register(a)?;
    session.drop_register(b)?;
    session.drop_register(wrapper)
}

// Links two objects of two zones, which a gray slot holds. Returns the zones.
fn build(session: &mut Session<MainSweeper>, root: GrayNo) -> Option<ZoneSet> {
    let (a, b, wrapper) = (Reg::new(0)?, Reg::new(1)?, Reg::new(2)?);
    let (first, left) = make_zone(session).ok()?;
    let (second, right) = make_zone(session).ok()?;
    link(session, (a, left), (b, right), wrapper).ok()?;
    hold_gray(session, root, (a, b, wrapper)).ok()?;
    Some(ZoneSet::only(first).union(ZoneSet::only(second)))
}

// Links two objects, and collects their zones with a root and without.
fn run(rt: &HostRuntime, session: &mut Session<MainSweeper>) -> Option<()> {
    let root = GrayNo::new(0)?;
    let both = build(session, root)?;
    collect(rt, session, both)?;
    print_colours(rt, session)?;
    session.release(root).ok()?;
    collect(rt, session, both)?;
    print_colours(rt, session)
}

fn main(rt: HostRuntime) -> ExitCode {
    let Ok(mut session) = Session::new(rt.alloc()) else {
        return ExitCode::from(1);
    };
    let done = run(&rt, &mut session);
    drop(session);
    match done {
        Some(()) => ExitCode::from(0),
        None => ExitCode::from(1),
    }
}
