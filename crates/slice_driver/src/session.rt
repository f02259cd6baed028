// A session: a collector with who sweeps its arenas, for those who embed it.
ghost use Rattle.std.specs.Prelude.{◌≡◌, ◌↔◌, ◌⊎◌, ◌≤◌, ◌<◌, Err, None, IfOk, IfSome, IsSome, IsTrue, OnErr, OnOk};
ghost use Rattle.std.specs.Prelude.{Some, false, [], ℕ};
ghost use Rattle.gz_names.specs.Zones.{HasZone};
ghost use Rattle.colour_defs.specs.Step.{HasFewFields, refusal_in};
ghost use Rattle.colour_defs.specs.World.{World, first_world};
ghost use Rattle.heap_core.specs.Effects.{HasRoom};
ghost use Rattle.collection_laws.specs.Numbers.{IsGraphReply};
ghost use Rattle.heap_core.specs.Heap.{HeapState, joined};
ghost use Rattle.slice_driver.specs.Accounts.{Accounts, FreesOn, freed_by, freed_by_report};
ghost use Rattle.slice_driver.specs.Begins.{AreMade};
ghost use Rattle.slice_driver.specs.Compacting.{CompactCalled};
ghost use Rattle.slice_driver.specs.Represents.{Represents};
ghost use Rattle.slice_driver.specs.Sessions.{AreDumpLines, AreGrayNames, IsNextGray, IsNowhereSettled};
ghost use Rattle.slice_driver.specs.SessionCommands.{SessionDoes};
ghost use Rattle.slice_driver.specs.Sessions.{SessionResets, SessionSteps, as_reply, counted_in, groups_of, kind_of};
ghost use Rattle.slice_driver.specs.Sessions.{names_of, outcome_of, replied, told_of};
ghost use Rattle.slice_driver.specs.Units.{BeginsIn, BeginsWithin};
ghost use Rattle.slice_driver.specs.Working.{IsStill, MayWantMemory};
ghost use Rattle.sweeping.specs.ArenasOut.{flown_by};

mod calls;
mod counts;
mod faults;
mod pinned;
mod told;
mod weak_names;

use crate::begin::BeginFault;
use crate::collector::Collector;
use crate::compacting::CompactFault;
use crate::counted::{advance, command, dump, reset};
use compact::Compacted;
pub use faults::refusal_words;
use gz_names::{
    CmdFault, DumpLine, GraphCmd, Name, NameList, NoMemory, Refusal, Reply, Report, ZoneNo, ZoneSet,
};
use std::alloc::Global;
use std::marker::{Brand, Model};
use std::sync::ledger::Blank;
use sweeping::{MainSweeper, Sweeper};
pub use told::{SessionReply, SessionReport, SessionStep};

/// Why a session did not do a command.
#[derive(Clone, Copy, Debug, PartialEq, Eq)]
pub enum SessionFault {
    /// The command is refused, and everything is as it was.
    Refused(Refusal),
    /// The command may make a cell, and 4,294,967,295 were made. Everything is as it was.
    Full,
    /// An allocation failed, and the graph is as it was.
    NoMemory,
}

/// A collector with who sweeps its arenas. It stands for a valid world at any time, so its calls ask
/// for nothing but their own arguments.
#[derive(Drop)]
pub struct Session<S: Sweeper> {
    alloc: Global,
    collector: Collector,
    sweeper: S,
    // The last report.
    report: Option<Report>,
}

impl<S: Sweeper> Model for Session<S> {
    ghost use Rattle.slice_driver.specs.Advances.{AreOut};
    ghost use Rattle.slice_driver.specs.Sessions.{SessionState};
    ghost use Rattle.slice_driver.specs.Units.{IsSound};

    ghost Value = { SessionState S };

    ghost view = { λ s. record {
      collector = s.collector;
      sweeper = s.sweeper;
      report = s.report;
    } };

    ghost invariant = { λ s. IsSound s.collector (S.bits s.sweeper)
        × AreOut s.collector.heap.shape (S.left (S.origin s.sweeper)) };
}

impl Session<MainSweeper> {
    /// A session over an empty heap, in which main sweeps. It stands for the first world.
    pub fn new(alloc: Global) -> Result<Self, NoMemory>
        ensures first { IfOk result (λ s. Represents s.collector (flown_by s.sweeper) first_world) }
        ensures idle { IfOk result (λ s. s.collector.run ≡ None) }
        ensures report { IfOk result (λ s. s.report ≡ None) }
        ensures accounts { IfOk result (λ s. Accounts s.collector (flown_by s.sweeper) 0 []) }
    {
        Ok(Session {
            alloc,
            collector: Collector::new(alloc)?,
            sweeper: MainSweeper::new(alloc),
            report: None,
        })
    }
}

impl<S: Sweeper> Session<S> {
    /// Does a command on the graph, also between two steps of a collection. A command that is refused
    /// changes nothing. Only a command that is not refused returns `NoMemory`, and only one that makes
    /// something: then the graph is as it was.
    ///
    /// An object or a map gets the next number, from 0 on. A command that is no value of the program's has
    /// a call of its own, from `new_zone` to `find`, which returns what that command can answer.
    pub fn command(&mut self, cmd: GraphCmd) -> Result<SessionReply, SessionFault>
        requires fields { HasFewFields cmd }
        ensures done { SessionDoes S.bits cmd (replied as_reply result) self.old self.new }
    {
        if !has_room(self.collector.made(), &cmd) {
            return Err(SessionFault::Full);
        }
        let outcome = command::<S, Brand>(
            &mut self.collector,
            &mut self.sweeper,
            cmd,
            Blank::new(1),
        );
        result_of(outcome)
    }

    /// Begins a collection of these zones. `NoZone` is returned also when there are none.
    pub fn begin(&mut self, zones: ZoneSet) -> Result<(), BeginFault>
        ensures begun { OnOk result (BeginsIn self.old.collector zones.bits self.new.collector) }
        ensures within { OnOk result (BeginsWithin self.old.collector zones.bits
            self.new.collector) }
        ensures started { OnOk result (IsSome self.new.collector.run) }
        ensures running { (result ≡ Err BeginFault.Running) ↔ IsSome self.old.collector.run }
        ensures no_zone { (result ≡ Err BeginFault.NoZone) ↔ ((self.old.collector.run ≡ None)
            × (((z : ℕ) → HasZone zones.bits z → ⊥)
            ⊎ (AreMade self.old.collector.heap.shape zones → ⊥))) }
        ensures refused { OnErr result (self.new.collector ≡ self.old.collector) }
        ensures sweeper { self.new.sweeper ≡ self.old.sweeper }
        ensures report { self.new.report ≡ self.old.report }
        ensures accounts { FreesOn self.old.collector (S.bits self.old.sweeper) []
            self.new.collector (S.bits self.new.sweeper) }
    {
        if self.collector.running() {
            return Err(BeginFault::Running);
        }
        let Some(_first) = zones.first() else {
            return Err(BeginFault::NoZone);
        };
        self.collector.begin(zones)
    }

    /// Does a step of the collection that runs, at most `limit` units: those that report nothing, as
    /// many as come one after another, or one that reports something, as the step says. Nothing is done
    /// when none runs. It returns `NoMemory` only where marking is to begin or a group is to end; then
    /// nothing was done, and the step may be tried again.
    ///
    /// Each object and map is listed once as freed, in the report of its arena.
    pub fn advance(&mut self, limit: u64) -> Result<SessionStep, NoMemory>
        ensures done { IfOk result (λ step. SessionSteps limit self.old.collector
            (S.bits self.old.sweeper) self.old.report step self.new.collector
            (S.bits self.new.sweeper) (S.left (S.origin self.new.sweeper)) self.new.report) }
        ensures accounts { FreesOn self.old.collector (S.bits self.old.sweeper)
            (freed_by result self.new.report) self.new.collector (S.bits self.new.sweeper) }
        ensures err { OnErr result (IsStill (counted_in self.old.collector self.new.collector.heap.ledger)
            (S.bits self.old.sweeper) self.new.collector (S.bits self.new.sweeper)) }
        ensures err_where { OnErr result (MayWantMemory
            (counted_in self.old.collector self.new.collector.heap.ledger) (S.bits self.old.sweeper)) }
        ensures err_report { OnErr result (self.new.report ≡ self.old.report) }
    {
        if limit == 0 {
            return Ok(SessionStep::none());
        }
        if !self.collector.running() {
            return Ok(SessionStep::none());
        }
        let done = advance::<S, Brand>(
            self.alloc,
            &mut self.collector,
            limit,
            &mut self.sweeper,
            &mut self.report,
            Blank::new(1),
        );
        told::steps_of(done, &self.report)
    }

    /// Does a step of giving up the collection that runs: takes in the lowest arena that is out, or gives
    /// the collection up where none is out. The step reports `Swept`, or `Stopped`. Nothing is done when no
    /// collection runs, so it may be called until `finished`. It takes no memory.
    ///
    /// Each object and map is listed once as freed, in the report of its arena.
    pub fn reset(&mut self) -> SessionStep
        ensures done { SessionResets self.old.collector (S.bits self.old.sweeper) self.old.report result
            self.new.collector (S.bits self.new.sweeper) (S.left (S.origin self.new.sweeper))
            self.new.report }
        ensures accounts { FreesOn self.old.collector (S.bits self.old.sweeper)
            (freed_by_report result.report self.new.report) self.new.collector
            (S.bits self.new.sweeper) }
    {
        if !self.collector.running() {
            return SessionStep::none();
        }
        let step = reset::<S, Brand>(
            &mut self.collector,
            &mut self.sweeper,
            &mut self.report,
            Blank::new(1),
        );
        told::step_of(&step, &self.report)
    }

    /// Moves the cells of a zone together, and gives up the arenas that this empties. It is refused while a
    /// collection runs, and then where the zone is not made. All memory is taken before anything changes; after a
    /// fault everything is as it was.
    pub fn compact(&mut self, zone: ZoneNo) -> Result<Compacted, CompactFault>
        ensures { CompactCalled S.bits self.old zone result self.new }
    {
        self.collector.compact(self.alloc, zone)
    }

    /// What the last report is about, until the next one.
    pub fn report(&self) -> Option<SessionReport>
        ensures { result ≡ kind_of self.now.report }
    {
        told::report_of(&self.report)
    }

    /// The names that the last report lists: the gray cells of a group that ended, or what was freed from
    /// an arena, ascending.
    pub fn names(&self) -> &[Name]
        ensures { result.now ≡ names_of self.now.report }
    {
        told::names(&self.report)
    }

    /// The names of the watched cells that died with the group whose end is the last report, ascending. None of
    /// them is watched any more, and none was freed yet.
    pub fn told(&self) -> &[Name]
        ensures { result.now ≡ told_of self.now.report }
    {
        told::told_names(&self.report)
    }

    /// The groups that the last report lists, in the order in which they end.
    pub fn groups(&self) -> &[ZoneSet]
        ensures { result.now ≡ groups_of self.now.report }
    {
        told::groups(&self.report)
    }

    /// The names of the gray cells, ascending; `None` exactly when a zone is being prepared or marking.
    pub fn gray_names(&mut self) -> Result<Option<NameList>, NoMemory>
        ensures names { IfOk result (λ names. IfSome names
            (AreGrayNames self.old.collector (S.bits self.old.sweeper))) }
        ensures marking { IfOk result (λ names. names ≡ None
            → IsNowhereSettled self.old.collector (S.bits self.old.sweeper)) }
        ensures collector { self.new.collector ≡ self.old.collector }
        ensures worlds { (w : World) → Represents self.old.collector (S.bits self.old.sweeper) w
            → Represents self.new.collector (S.bits self.new.sweeper) w }
        ensures colours { joined self.new.collector.heap (S.bits self.new.sweeper)
            ≡ joined self.old.collector.heap (S.bits self.old.sweeper) }
        ensures report { self.new.report ≡ self.old.report }
    {
        if !self.collector.settled() {
            return Ok(None);
        }
        Ok(Some(self.collector.gray_names(self.alloc, &mut self.sweeper)?))
    }

    /// The first gray name behind this one, or the first of all; `Some(None)` if there is none, and `None`
    /// exactly when a zone is being prepared or marking. It takes no memory, and walks over the whole heap:
    /// for a few names. `gray_names` lists all by one walk.
    pub fn next_gray(&mut self, after: Option<Name>) -> Option<Option<Name>>
        ensures next { IfSome result
            (IsNextGray self.old.collector (S.bits self.old.sweeper) after) }
        ensures marking { result ≡ None
            → IsNowhereSettled self.old.collector (S.bits self.old.sweeper) }
        ensures collector { self.new.collector ≡ self.old.collector }
        ensures worlds { (w : World) → Represents self.old.collector (S.bits self.old.sweeper) w
            → Represents self.new.collector (S.bits self.new.sweeper) w }
        ensures colours { joined self.new.collector.heap (S.bits self.new.sweeper)
            ≡ joined self.old.collector.heap (S.bits self.old.sweeper) }
        ensures report { self.new.report ≡ self.old.report }
    {
        if !self.collector.settled() {
            return None;
        }
        Some(self.collector.next_gray(&mut self.sweeper, after))
    }

    /// The dump of the heap: its present cells with their colours, by name; its edges, by object and
    /// field; its weak entries, by map and key; and the end. `None` exactly when a zone is being prepared or
    /// marking.
    pub fn dump(&mut self) -> Result<Option<Vec<DumpLine>>, NoMemory>
        ensures lines { IfOk result (λ lines. IfSome lines
            (λ lines. AreDumpLines self.old.collector (S.bits self.old.sweeper) lines.items)) }
        ensures marking { IfOk result (λ lines. lines ≡ None
            → IsNowhereSettled self.old.collector (S.bits self.old.sweeper)) }
        ensures collector { self.new.collector
            ≡ counted_in self.old.collector self.new.collector.heap.ledger }
        ensures worlds { (w : World) → Represents self.old.collector (S.bits self.old.sweeper) w
            → Represents self.new.collector (S.bits self.new.sweeper) w }
        ensures colours { joined self.new.collector.heap (S.bits self.new.sweeper)
            ≡ joined self.new.collector.heap (S.bits self.old.sweeper) }
        ensures report { self.new.report ≡ self.old.report }
    {
        if !self.collector.settled() {
            return Ok(None);
        }
        let lines = dump::<S, Brand>(
            self.alloc,
            &mut self.collector,
            &mut self.sweeper,
            Blank::new(1),
        )?;
        Ok(Some(lines))
    }

    /// Whether a collection runs.
    pub fn running(&self) -> bool
        ensures { IsTrue result ↔ IsSome self.now.collector.run }
    {
        self.collector.running()
    }
}

// What came of a command, told as a session tells it.
fn result_of(outcome: Result<Reply, CmdFault>) -> Result<SessionReply, SessionFault>
    requires graph { IfOk outcome IsGraphReply }
    requires answered { IfOk outcome (λ reply. refusal_in reply ≡ None) }
    ensures { outcome_of (replied as_reply result) ≡ Some outcome }
{
    Ok(told::reply_of(&outcome?))
}

// Returns whether a command has room for what it may make, when this number of cells was made.
fn has_room(made: u64, cmd: &GraphCmd) -> bool
    ensures room { IsTrue result → (h : HeapState) → h.made ≡ made → HasRoom h cmd.now }
    ensures full { result ≡ false → 4294967295 ≤ made }
{
    match cmd {
        GraphCmd::New(_, _, _) | GraphCmd::Map(_, _) | GraphCmd::Wrap(_, _, _) => made < 4294967295,
        GraphCmd::Zone
        | GraphCmd::Comp(_)
        | GraphCmd::Get(_, _, _)
        | GraphCmd::Set(_, _, _)
        | GraphCmd::Unwrap(_, _)
        | GraphCmd::Copy(_, _)
        | GraphCmd::Drop(_)
        | GraphCmd::Hold(_, _)
        | GraphCmd::Release(_)
        | GraphCmd::Expose(_, _)
        | GraphCmd::Put(_, _, _)
        | GraphCmd::Del(_, _)
        | GraphCmd::Find(_, _, _) => true,
    }
}
