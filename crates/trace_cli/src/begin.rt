// Lines that begin a collection, or go on with one.
ghost use Rattle.std.specs.Prelude.{◌≡◌, None};
ghost use Rattle.gz_names.specs.Zones.{HasZone};
ghost use Rattle.std.specs.Prelude.{ℕ};
ghost use Rattle.gz_names.specs.declared.commands.Cmd.TheVariants as ACmd;
ghost use Rattle.trace_cli.specs.Answering.{AnswersCommand, CountsFaults, StartsCommand};
ghost use Rattle.trace_cli.specs.Standing.{MakesNone, StandsWith};

use crate::answer::{AnswerFault, write_last};
use crate::pending::Pending;
use gz_io::Sink;
use gz_names::{Refusal, Reply, ZoneSet};
use slice_driver::{BeginFault, Collector};
use sweeping::Sweeping;

/// Begins a collection of these zones, and writes the reply.
#[inline(never)]
pub fn gc<F: Sweeping, K: Sink>(
    collector: &mut Collector,
    _flight: &F,
    zones: ZoneSet,
    sink: &mut K,
) -> Result<(), AnswerFault>
    requires flight { StandsWith collector.old (F.left (F.origin _flight.now)) (F.bits _flight.now) }
    requires some { (z : ℕ) × HasZone zones.bits z }
    ensures answer { AnswersCommand (ACmd.Gc zones) collector.old (F.bits _flight.now) collector.new
        (F.bits _flight.now) (K.written sink.old) (K.written sink.new) result }
    ensures flight { StandsWith collector.new (F.left (F.origin _flight.now)) (F.bits _flight.now) }
    ensures size { MakesNone collector.old collector.new }
    ensures faults { CountsFaults (K.faults sink.old) (K.faults sink.new) result }
{
    match collector.begin(zones) {
        Ok(()) => write_last(sink, &Reply::GcBegun),
        Err(BeginFault::Running) => write_last(sink, &Reply::Refused(Refusal::Running)),
        Err(BeginFault::NoZone) => write_last(sink, &Reply::Refused(Refusal::NoZone)),
    }
}

/// Begins a collection of these zones, whose units are still to be done, or writes why not.
#[inline(never)]
pub fn begin_collect<F: Sweeping, K: Sink>(
    collector: &mut Collector,
    _flight: &F,
    zones: ZoneSet,
    pending: &mut Option<Pending>,
    sink: &mut K,
) -> Result<(), AnswerFault>
    requires flight { StandsWith collector.old (F.left (F.origin _flight.now)) (F.bits _flight.now) }
    requires some { (z : ℕ) × HasZone zones.bits z }
    requires none { pending.old ≡ None }
    ensures answer { StartsCommand (ACmd.Collect zones) pending.new collector.old (F.bits _flight.now) collector.new
        (F.bits _flight.now) (K.written sink.old) (K.written sink.new) result }
    ensures flight { StandsWith collector.new (F.left (F.origin _flight.now)) (F.bits _flight.now) }
    ensures size { MakesNone collector.old collector.new }
    ensures faults { CountsFaults (K.faults sink.old) (K.faults sink.new) result }
{
    match collector.begin(zones) {
        Ok(()) => {
            *pending = Some(Pending::Collect);
            Ok(())
        }
        Err(BeginFault::Running) => write_last(sink, &Reply::Refused(Refusal::Running)),
        Err(BeginFault::NoZone) => write_last(sink, &Reply::Refused(Refusal::NoZone)),
    }
}

/// Begins to answer `slice`, or writes that no collection runs.
pub fn begin_slice<F: Sweeping, K: Sink>(
    collector: &Collector,
    _flight: &F,
    budget: u32,
    pending: &mut Option<Pending>,
    sink: &mut K,
) -> Result<(), AnswerFault>
    requires flight { StandsWith collector.now (F.left (F.origin _flight.now)) (F.bits _flight.now) }
    requires none { pending.old ≡ None }
    ensures answer { StartsCommand (ACmd.Slice budget) pending.new collector.now (F.bits _flight.now) collector.now
        (F.bits _flight.now) (K.written sink.old) (K.written sink.new) result }
    ensures faults { CountsFaults (K.faults sink.old) (K.faults sink.new) result }
{
    if !collector.running() {
        return write_last(sink, &Reply::Refused(Refusal::Idle));
    }
    *pending = Some(Pending::Slice {
        left: u64::from(budget),
        done: 0,
    });
    Ok(())
}

/// Begins to answer `finish`, or writes that no collection runs.
pub fn begin_finish<F: Sweeping, K: Sink>(
    collector: &Collector,
    _flight: &F,
    pending: &mut Option<Pending>,
    sink: &mut K,
) -> Result<(), AnswerFault>
    requires flight { StandsWith collector.now (F.left (F.origin _flight.now)) (F.bits _flight.now) }
    requires none { pending.old ≡ None }
    ensures answer { StartsCommand ACmd.Finish pending.new collector.now (F.bits _flight.now) collector.now
        (F.bits _flight.now) (K.written sink.old) (K.written sink.new) result }
    ensures faults { CountsFaults (K.faults sink.old) (K.faults sink.new) result }
{
    if !collector.running() {
        return write_last(sink, &Reply::Refused(Refusal::Idle));
    }
    *pending = Some(Pending::Finish { done: 0 });
    Ok(())
}

/// Begins to answer `reset`, or writes that no collection runs.
pub fn begin_reset<F: Sweeping, K: Sink>(
    collector: &Collector,
    _flight: &F,
    pending: &mut Option<Pending>,
    sink: &mut K,
) -> Result<(), AnswerFault>
    requires flight { StandsWith collector.now (F.left (F.origin _flight.now)) (F.bits _flight.now) }
    requires none { pending.old ≡ None }
    ensures answer { StartsCommand ACmd.Reset pending.new collector.now (F.bits _flight.now) collector.now
        (F.bits _flight.now) (K.written sink.old) (K.written sink.new) result }
    ensures faults { CountsFaults (K.faults sink.old) (K.faults sink.new) result }
{
    if !collector.running() {
        return write_last(sink, &Reply::Refused(Refusal::Idle));
    }
    *pending = Some(Pending::Reset);
    Ok(())
}
