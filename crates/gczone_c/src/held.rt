// What a handle leads to: a session, and the lists that were last asked for.
ghost use Rattle.std.specs.Prelude.{◌≡◌, ◌≤◌, ◌↔◌, [], IfOk, IsSome, IsTrue, None, slice_get};
ghost use Rattle.colour_defs.specs.Step.{HasFewFields};
ghost use Rattle.colour_defs.specs.World.{first_world};
ghost use Rattle.slice_driver.specs.Accounts.{Accounts};
ghost use Rattle.slice_driver.specs.Bounds.{units_bound};
ghost use Rattle.slice_driver.specs.Left.{units_left};
ghost use Rattle.slice_driver.specs.Pins.{LoadsIn, UnpinsIn};
ghost use Rattle.slice_driver.specs.Represents.{Represents};
ghost use Rattle.slice_driver.specs.Sessions.{groups_of, kind_of, names_of, told_of};
ghost use Rattle.sweeping.specs.ArenasOut.{flown_by};
ghost use Rattle.gczone_c.specs.Calls.{AdvanceDone, BeginDone, CommandDone, GraysListed, LinesListed, NextGrayTold};
ghost use Rattle.gczone_c.specs.Calls.{PinDone, ResetDone, RootDone, WeakCommandDone, ZoneCompacted};
ghost use Rattle.gczone_c.specs.Reports.{counts_told, report_status, report_told};

use crate::told::{Answer, CompactedTold, Counts, ReportTold, StepDone};
use crate::{statuses, told};
use gz_names::{DumpLine, GraphCmd, Name, NameList, NoMemory, Reg, WeakCmd, ZoneNo, ZoneSet};
use slice_driver::Session;
use std::alloc::Global;
use sweeping::MainSweeper;

/// A session, and the gray names and the lines of a dump that were last asked for.
#[derive(Drop)]
pub struct Held {
    session: Session<MainSweeper>,
    grays: NameList,
    lines: Vec<DumpLine>,
}

impl Held {
    /// A session over an empty heap.
    pub fn new(alloc: Global) -> Result<Held, NoMemory>
        ensures first { IfOk result (λ h. Represents h.session.collector
            (flown_by h.session.sweeper) first_world) }
        ensures idle { IfOk result (λ h. h.session.collector.run ≡ None) }
        ensures report { IfOk result (λ h. h.session.report ≡ None) }
        ensures accounts { IfOk result (λ h. Accounts h.session.collector
            (flown_by h.session.sweeper) 0 []) }
    {
        Ok(Held {
            session: Session::new(alloc)?,
            grays: NameList::new(alloc),
            lines: Vec::new(alloc),
        })
    }

    /// Does a command, and writes what it answers.
    pub fn command(&mut self, cmd: GraphCmd, answer: &mut Answer) -> u32
        requires fields { HasFewFields cmd }
        ensures done { CommandDone cmd answer.old answer.new result self.old self.new }
    {
        let outcome = self.session.command(cmd);
        told::tell_outcome(&outcome, answer)
    }

    /// Does a command on weak slots and watched cells, and writes what it answers.
    pub fn weak_command(&mut self, cmd: WeakCmd, answer: &mut Answer) -> u32
        ensures done { WeakCommandDone cmd answer.old answer.new result self.old self.new }
    {
        let outcome = self.session.weak_command(cmd);
        told::tell_outcome(&outcome, answer)
    }

    /// Pins what a register holds, and writes the number of the root.
    pub fn pin(&mut self, register: Reg, root: &mut u64) -> u32
        ensures done { PinDone register root.old root.new result self.old self.new }
    {
        let pinned = self.session.pin(register);
        told::tell_root(&pinned, root)
    }

    /// Has a register hold what a pinned root holds.
    pub fn load(&mut self, register: Reg, root: usize) -> u32
        ensures done { RootDone (LoadsIn register root) root result self.old self.new }
    {
        let loaded = self.session.load(register, root);
        statuses::of_root(&loaded)
    }

    /// Has a pinned root hold nothing any more.
    pub fn unpin(&mut self, root: usize) -> u32
        ensures done { RootDone (UnpinsIn root) root result self.old self.new }
    {
        let unpinned = self.session.unpin(root);
        statuses::of_root(&unpinned)
    }

    /// Compacts a zone, and writes what that did.
    pub fn compact(&mut self, zone: ZoneNo, told: &mut CompactedTold) -> u32
        ensures done { ZoneCompacted zone told.old told.new result self.old self.new }
    {
        let done = self.session.compact(zone);
        told::tell_compaction(&done, told)
    }

    /// Begins a collection of these zones.
    pub fn begin(&mut self, zones: ZoneSet) -> u32
        ensures done { BeginDone zones.bits result self.old self.new }
    {
        let begun = self.session.begin(zones);
        statuses::of_begin(&begun)
    }

    /// Does a step, and writes what was done.
    pub fn advance(&mut self, limit: u64, done: &mut StepDone) -> u32
        ensures done { AdvanceDone limit done.old done.new result self.old self.new }
    {
        let step = self.session.advance(limit);
        told::tell_step(&step, done)
    }

    /// Does a step of giving the collection up, and writes what was done.
    pub fn reset(&mut self, done: &mut StepDone) -> u32
        ensures done { ResetDone done.new result self.old self.new }
    {
        let step = self.session.reset();
        *done = told::done(&step);
        statuses::DONE
    }

    /// Whether a collection runs.
    pub fn running(&self) -> bool
        ensures { IsTrue result ↔ IsSome self.now.session.collector.run }
    {
        self.session.running()
    }

    /// A bound on the units that the collection that runs may still take, or 0.
    pub fn units_left(&self) -> u64
        ensures bound { units_left self.now.session.collector (flown_by self.now.session.sweeper) ≤ result }
        ensures value { result ≡ units_bound self.now.session.collector }
        ensures none { (result ≡ 0) ↔ (self.now.session.collector.run ≡ None) }
    {
        self.session.units_left()
    }

    /// How much the session holds.
    pub fn counts(&self) -> Counts
        ensures { result ≡ counts_told self.now }
    {
        Counts {
            cells: self.session.cells(),
            objects: self.session.objects(),
            entries: self.session.entries(),
            bytes: self.session.bytes(),
            arenas: self.session.arenas(),
        }
    }

    /// Writes what the last report is about.
    pub fn tell_report(&self, told: &mut ReportTold) -> u32
        ensures status { result ≡ report_status (kind_of self.now.session.report) }
        ensures told { told.new ≡ report_told (kind_of self.now.session.report)
            (names_of self.now.session.report) (groups_of self.now.session.report) told.old }
    {
        let session = &self.session;
        told::tell_report(session.report(), session.names(), session.groups(), told)
    }

    /// A name that the last report lists.
    pub fn reported_name(&self, index: usize) -> Option<Name>
        ensures { result ≡ slice_get (names_of self.now.session.report) index }
    {
        self.session.names().get(index).copied()
    }

    /// A watched cell that died with the group whose end is the last report.
    pub fn lost_name(&self, index: usize) -> Option<Name>
        ensures { result ≡ slice_get (told_of self.now.session.report) index }
    {
        self.session.told().get(index).copied()
    }

    /// A group that the last report lists.
    pub fn reported_group(&self, index: usize) -> Option<ZoneSet>
        ensures { result ≡ slice_get (groups_of self.now.session.report) index }
    {
        self.session.groups().get(index).copied()
    }

    /// Lists the gray names, and writes how many there are.
    pub fn list_grays(&mut self, count: &mut usize) -> u32
        ensures listed { GraysListed count.old count.new result self.old self.new }
    {
        match self.session.gray_names() {
            Ok(Some(names)) => {
                *count = names.as_slice().len();
                self.grays = names;
                statuses::DONE
            }
            Ok(None) => statuses::MARKING,
            Err(_) => statuses::NO_MEMORY,
        }
    }

    /// A gray name of the list that was made last.
    pub fn gray(&self, index: usize) -> Option<Name>
        ensures { result ≡ slice_get self.now.grays index }
    {
        self.grays.as_slice().get(index).copied()
    }

    /// Writes the first gray name behind this one, or the first of all.
    pub fn next_gray(&mut self, after: Option<Name>, name: &mut Answer) -> u32
        ensures told { NextGrayTold after name.old name.new result self.old self.new }
    {
        match self.session.next_gray(after) {
            Some(next) => told::tell_name(next, name),
            None => statuses::MARKING,
        }
    }

    /// Lists the lines of a dump, and writes how many there are.
    pub fn list_lines(&mut self, count: &mut usize) -> u32
        ensures listed { LinesListed count.old count.new result self.old self.new }
    {
        match self.session.dump() {
            Ok(Some(lines)) => {
                *count = lines.len();
                self.lines = lines;
                statuses::DONE
            }
            Ok(None) => statuses::MARKING,
            Err(_) => statuses::NO_MEMORY,
        }
    }

    /// A line of the dump that was made last.
    pub fn line(&self, index: usize) -> Option<DumpLine>
        ensures { result ≡ slice_get self.now.lines.items index }
    {
        self.lines.get(index).copied()
    }
}
