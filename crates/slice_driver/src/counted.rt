// Calls of a collector that count the edges that they read in a ledger of their own.
//
// A count is tied to its ledger by a type, so a session that kept one would have to carry that type to
// everybody who holds a session.
ghost use Rattle.std.specs.Prelude.{◌≡◌, ◌<◌, None, Some, IfOk, OnErr};
ghost use Rattle.colour_defs.specs.Dumps.{IsDump};
ghost use Rattle.colour_defs.specs.Step.{HasFewFields};
ghost use Rattle.colour_defs.specs.World.{World, IsSettled};
ghost use Rattle.heap_core.specs.Effects.{HasRoom};
ghost use Rattle.heap_core.specs.Heap.{joined};
ghost use Rattle.slice_driver.specs.Advances.{Advances, AreOut, MayAdvance};
ghost use Rattle.slice_driver.specs.Calls.{CommandDone};
ghost use Rattle.slice_driver.specs.Represents.{Represents};
ghost use Rattle.slice_driver.specs.Resets.{ResetsOn};
ghost use Rattle.slice_driver.specs.Sessions.{counted_in};
ghost use Rattle.slice_driver.specs.Units.{IsSound};
ghost use Rattle.slice_driver.specs.WeakCommands.{WeakCommandDone};
ghost use Rattle.slice_driver.specs.Working.{IsStill, MayWantMemory};

use crate::advance::Step;
use crate::collector::Collector;
use gz_names::{CmdFault, DumpLine, GraphCmd, NoMemory, Reply, Report, WeakCmd};
use std::alloc::Global;
use std::sync::ledger::{Blank, Ledger};
use sweeping::Sweeper;

/// Does a command; see `Collector::command`.
pub(crate) fn command<S: Sweeper, L: Ledger>(
    collector: &mut Collector,
    sweeper: &mut S,
    cmd: GraphCmd,
    blank: Blank,
) -> Result<Reply, CmdFault>
    requires name { blank.name ≡ L.name }
    requires parts { blank.parts ≡ L.parts }
    requires some { 0 < blank.parts }
    requires sound { IsSound collector.old (S.bits sweeper.old) }
    requires out { AreOut collector.old.heap.shape (S.left (S.origin sweeper.old)) }
    requires few { HasRoom collector.old.heap cmd }
    requires fields { HasFewFields cmd }
    ensures done { CommandDone S.bits S.origin (counted_in collector.old (Some L.name)) sweeper.old cmd result
        collector.new sweeper.new }
    ensures out { AreOut collector.new.heap.shape (S.left (S.origin sweeper.new)) }
{
    let mut steps = collector.count_edges::<L>(blank);
    collector.command(sweeper, cmd, &mut steps)
}

/// Does a command on weak slots and watched cells; see `Collector::weak_command`.
pub(crate) fn weak_command<S: Sweeper, L: Ledger>(
    collector: &mut Collector,
    sweeper: &mut S,
    cmd: WeakCmd,
    blank: Blank,
) -> Result<Reply, CmdFault>
    requires name { blank.name ≡ L.name }
    requires parts { blank.parts ≡ L.parts }
    requires some { 0 < blank.parts }
    requires sound { IsSound collector.old (S.bits sweeper.old) }
    requires out { AreOut collector.old.heap.shape (S.left (S.origin sweeper.old)) }
    ensures done { WeakCommandDone S.bits S.origin (counted_in collector.old (Some L.name)) sweeper.old cmd result
        collector.new sweeper.new }
    ensures out { AreOut collector.new.heap.shape (S.left (S.origin sweeper.new)) }
{
    let mut steps = collector.count_edges::<L>(blank);
    collector.weak_command(sweeper, cmd, &mut steps)
}

/// Does a step of the collection that runs; see `Collector::advance_over`.
pub(crate) fn advance<S: Sweeper, L: Ledger>(
    alloc: Global,
    collector: &mut Collector,
    limit: u64,
    sweeper: &mut S,
    report: &mut Option<Report>,
    blank: Blank,
) -> Result<Step, NoMemory>
    requires name { blank.name ≡ L.name }
    requires parts { blank.parts ≡ L.parts }
    requires count { 0 < blank.parts }
    requires ready { MayAdvance collector.old (S.bits sweeper.old)
        (S.left (S.origin sweeper.old)) }
    requires some { 0 < limit }
    ensures done { IfOk result (λ step. Advances limit (counted_in collector.old (Some L.name))
        (S.bits sweeper.old) report.old step collector.new (S.bits sweeper.new)
        (S.left (S.origin sweeper.new)) report.new) }
    ensures ledger { collector.new.heap.ledger ≡ Some L.name }
    ensures handed { IfOk result (λ step. step.handed ≡ None) }
    ensures err_where { OnErr result (MayWantMemory (counted_in collector.old (Some L.name))
        (S.bits sweeper.old)) }
    ensures err { OnErr result (IsStill (counted_in collector.old (Some L.name)) (S.bits sweeper.old)
        collector.new (S.bits sweeper.new)) }
    ensures err_report { OnErr result (report.new ≡ report.old) }
    ensures sound { IsSound collector.new (S.bits sweeper.new) }
    ensures out { AreOut collector.new.heap.shape (S.left (S.origin sweeper.new)) }
{
    let mut steps = collector.count_edges::<L>(blank);
    collector.advance_over(alloc, limit, sweeper, report, &mut steps)
}

/// Does a step of giving a collection up; see `Collector::reset_step`.
pub(crate) fn reset<S: Sweeper, L: Ledger>(
    collector: &mut Collector,
    sweeper: &mut S,
    report: &mut Option<Report>,
    blank: Blank,
) -> Step
    requires name { blank.name ≡ L.name }
    requires parts { blank.parts ≡ L.parts }
    requires count { 0 < blank.parts }
    requires ready { MayAdvance collector.old (S.bits sweeper.old)
        (S.left (S.origin sweeper.old)) }
    ensures done { ResetsOn (counted_in collector.old (Some L.name)) (S.bits sweeper.old) result collector.new
        (S.bits sweeper.new) (S.left (S.origin sweeper.new)) report.new }
{
    let mut steps = collector.count_edges::<L>(blank);
    collector.reset_step(sweeper, report, &mut steps)
}

/// The dump of the heap; see `Collector::dump`.
pub(crate) fn dump<S: Sweeper, L: Ledger>(
    alloc: Global,
    collector: &mut Collector,
    sweeper: &mut S,
    blank: Blank,
) -> Result<Vec<DumpLine>, NoMemory>
    requires name { blank.name ≡ L.name }
    requires parts { blank.parts ≡ L.parts }
    requires count { 0 < blank.parts }
    requires sound { IsSound collector.old (S.bits sweeper.old) }
    ensures lines { IfOk result (λ lines. (w : World) → Represents collector.old (S.bits sweeper.old) w
        → IsSettled w → IsDump w lines.items) }
    ensures counted { collector.new ≡ counted_in collector.old (Some L.name) }
    ensures same { (w : World) → Represents collector.old (S.bits sweeper.old) w
        → Represents collector.new (S.bits sweeper.new) w }
    ensures heap { joined collector.new.heap (S.bits sweeper.new)
        ≡ joined collector.new.heap (S.bits sweeper.old) }
    ensures origin { S.origin sweeper.new ≡ S.origin sweeper.old }
{
    let mut steps = collector.count_edges::<L>(blank);
    collector.dump(alloc, sweeper, &mut steps)
}
