// Giving a collection up, each report written as it comes.
ghost use Rattle.std.specs.Prelude.{◌≡◌, ◌≢◌, ◌<◌, ℕ, Err, IfOk, None, Ok, OnErr, OnOk, Some};
ghost use Rattle.heap_core.specs.Shape.{out_of};
ghost use Rattle.slice_driver.specs.Left.{units_left};
ghost use Rattle.slice_driver.specs.Units.{IsLowestOut};
ghost use Rattle.trace_cli.specs.Answering.{CountsFaults};
ghost use Rattle.trace_cli.specs.Pauses.{IsLeftBy, bits_in, outs_in};
ghost use Rattle.trace_cli.specs.Standing.{MakesNone, StandsWith};
ghost use Rattle.trace_cli.specs.Worlds.{EachWorld};
ghost use Rattle.trace_cli.specs.Writing.{BreaksInReset, GoesOnReset};

use crate::answer::AnswerFault;
use crate::machine::Pause;
use crate::turns::write_reports;
use gz_io::Sink;
use gz_names::Report;
use heap_core::Steps;
use slice_driver::Collector;
use std::sync::ledger::Ledger;
use sweeping::Sweeping;

// Takes in the lowest arena that is out, and writes what is reported of it. `report` is a place for a report.
fn take_in<F: Sweeping, K: Sink>(
    collector: &mut Collector,
    flight: &mut F,
    arena: u32,
    report: &mut Option<Report>,
    sink: &mut K,
) -> Result<(), AnswerFault>
    requires flight { StandsWith collector.old (F.left (F.origin flight.old)) (F.bits flight.old) }
    requires lowest { IsLowestOut collector.old.heap.shape arena }
    ensures ok { OnOk result (GoesOnReset collector.old (F.bits flight.old) collector.new (F.bits flight.new)
        (K.written sink.old) (K.written sink.new)) }
    ensures flight { StandsWith collector.new (F.left (F.origin flight.new)) (F.bits flight.new) }
    ensures less { units_left collector.new (F.bits flight.new) < units_left collector.old (F.bits flight.old) }
    ensures home { F.home (F.origin flight.new) ≡ F.home (F.origin flight.old) }
    ensures size { MakesNone collector.old collector.new }
    ensures fault { OnErr result (result ≡ Err AnswerFault.Write) }
    ensures write { OnErr result (EachWorld collector.old (F.bits flight.old)
        (λ w. BreaksInReset w (K.written sink.old) (K.written sink.new))) }
    ensures faults { CountsFaults (K.faults sink.old) (K.faults sink.new) result }
{
    let finished = collector.take_due(flight, arena, report);
    match write_reports(sink, report, finished) {
        Ok(()) => Ok(()),
        Err(_) => Err(AnswerFault::Write),
    }
}

// Gives up the collection that runs, if one does, and writes which zones it stopped in. No arena is out.
fn stop<F: Sweeping, K: Sink, L: Ledger>(
    collector: &mut Collector,
    flight: &mut F,
    sink: &mut K,
    steps: &mut Steps<L>,
) -> Result<(), AnswerFault>
    requires counted { collector.old.heap.ledger ≡ Some L.name }
    requires flight { StandsWith collector.old (F.left (F.origin flight.old)) (F.bits flight.old) }
    requires none_out { (a : ℕ) → out_of collector.old.heap.shape a ≡ None }
    ensures ok { OnOk result (GoesOnReset collector.old (F.bits flight.old) collector.new (F.bits flight.new)
        (K.written sink.old) (K.written sink.new)) }
    ensures over { collector.new.run ≡ None }
    ensures flight { StandsWith collector.new (F.left (F.origin flight.new)) (F.bits flight.new) }
    ensures origin { F.origin flight.new ≡ F.origin flight.old }
    ensures size { MakesNone collector.old collector.new }
    ensures fault { OnErr result (result ≡ Err AnswerFault.Write) }
    ensures write { OnErr result (EachWorld collector.old (F.bits flight.old)
        (λ w. BreaksInReset w (K.written sink.old) (K.written sink.new))) }
    ensures faults { CountsFaults (K.faults sink.old) (K.faults sink.new) result }
{
    if !collector.running() {
        return Ok(());
    }
    let zones = collector.give_up(flight, steps);
    let stopped = Some(Report::Stopped(zones));
    match write_reports(sink, &stopped, false) {
        Ok(()) => Ok(()),
        Err(_) => Err(AnswerFault::Write),
    }
}

/// Goes on with a `reset`: takes in the arenas that are out, and then gives the collection up, if it is not over
/// with them. Each report is written. It pauses where the last arena was taken in.
#[inline(never)]
pub fn answer_reset<F: Sweeping, K: Sink, L: Ledger>(
    collector: &mut Collector,
    flight: &mut F,
    sink: &mut K,
    steps: &mut Steps<L>,
) -> Result<Pause, AnswerFault>
    requires counted { collector.old.heap.ledger ≡ Some L.name }
    requires flight { StandsWith collector.old (F.left (F.origin flight.old)) (F.bits flight.old) }
    ensures ok { IfOk result (λ pause. GoesOnReset collector.old (F.bits flight.old) collector.new
        (bits_in pause (F.bits flight.new)) (K.written sink.old) (K.written sink.new)) }
    ensures over { result ≡ Ok Pause.None → collector.new.run ≡ None }
    ensures flight { IfOk result (λ pause. StandsWith collector.new
        (outs_in pause (F.left (F.origin flight.new))) (bits_in pause (F.bits flight.new))) }
    ensures by { IfOk result (λ pause. IsLeftBy pause (F.left (F.origin flight.new)) (F.bits flight.new)) }
    ensures home { F.home (F.origin flight.new) ≡ F.home (F.origin flight.old) }
    ensures size { MakesNone collector.old collector.new }
    ensures memory { result ≢ Err AnswerFault.Memory }
    ensures write { result ≡ Err AnswerFault.Write → EachWorld collector.old (F.bits flight.old)
        (λ w. BreaksInReset w (K.written sink.old) (K.written sink.new)) }
    ensures faults { CountsFaults (K.faults sink.old) (K.faults sink.new) result }
{
    let mut report = None;
    while let Some(arena) = collector.next_out() {
        if take_in(collector, flight, arena, &mut report, sink).is_err() {
            return Err(AnswerFault::Write);
        }
        if flight.is_empty() {
            return Ok(Pause::BoardEmpty);
        }
    }
    match stop(collector, flight, sink, steps) {
        Ok(()) => Ok(Pause::None),
        Err(_) => Err(AnswerFault::Write),
    }
}
