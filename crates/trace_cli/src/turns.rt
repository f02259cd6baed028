// Units of a collection, each report written as it comes.
ghost use Rattle.std.specs.Prelude.{◌≡◌, ◌<◌, ◌+◌, ◌^◌, ℕ, [], Err, IfOk, IsSome, None, Ok, OnErr, OnOk, Some};
ghost use Rattle.std.specs.Io.KnownBytes.{Appends};
ghost use Rattle.gz_io.specs.Causes.{HasCause, AppendsFront};
ghost use Rattle.sweeping.specs.ArenasOut.{AscendHanded, flying_after, outs_after};
ghost use Rattle.slice_driver.specs.Advances.{told};
ghost use Rattle.slice_driver.specs.Left.{units_left};
ghost use Rattle.slice_driver.specs.Units.{reports_of};
ghost use Rattle.trace_cli.specs.Answering.{CountsFaults};
ghost use Rattle.trace_cli.specs.Headline.{report_lines};
ghost use Rattle.trace_cli.specs.Pending.{Allows, done_of, limit_of};
ghost use Rattle.trace_cli.specs.Standing.{MakesNone, StandsWith};
ghost use Rattle.trace_cli.specs.Worlds.{EachWorld};
ghost use Rattle.trace_cli.specs.Pauses.{IsLeftBy, bits_in, outs_in};
ghost use Rattle.trace_cli.specs.Writing.{BreaksInUnits, Goes, StopsInUnits};

use crate::answer::AnswerFault;
use crate::machine::Pause;
use crate::pending::Pending;
use arena_table::Jobs;
use gz_io::{Sink, WriteFault};
use gz_names::Report;
use heap_core::Steps;
use slice_driver::{Collector, Step};
use std::alloc::Global;
use std::sync::ledger::Ledger;
use sweeping::Sweeping;
use trace_lang::write_report;

// Why the loop pauses after a step, by whether an arena was out before it, and whether the marking of a `collect` began
// with it.
fn pause_after<F: Sweeping>(some_out: bool, began: bool, flight: &F, handed: Option<Jobs>) -> Pause
    ensures bits { bits_in result (F.bits flight.now) ≡ flying_after handed (F.bits flight.now) }
    ensures out { outs_in result (F.left (F.origin flight.now)) ≡ outs_after handed (F.left (F.origin flight.now)) }
    ensures by { AscendHanded handed → IsLeftBy result (F.left (F.origin flight.now)) (F.bits flight.now) }
{
    if let Some(jobs) = handed {
        return Pause::Sweep(jobs);
    }
    if !flight.is_empty() {
        return Pause::None;
    }
    if some_out {
        return Pause::BoardEmpty;
    }
    if began {
        return Pause::MarkingBegan;
    }
    Pause::None
}

// Writes what a unit reports; the last one is followed by `done`.
pub fn write_reports<K: Sink>(
    sink: &mut K,
    report: &Option<Report>,
    finished: bool,
) -> Result<(), WriteFault>
    ensures ok { OnOk result (Appends (K.written sink.old) (K.written sink.new)
        (report_lines (reports_of report.now finished))) }
    ensures err { OnErr result (AppendsFront (K.written sink.old) (K.written sink.new)
        (report_lines (reports_of report.now finished))) }
    ensures cause { HasCause (K.faults sink.old) (K.faults sink.new) result }
{
    let Some(report) = report else {
        return Ok(());
    };
    write_report(sink, report)?;
    if finished {
        write_report(sink, &Report::Done)?;
    }
    Ok(())
}

// Writes what a step tells.
fn write_step<K: Sink>(sink: &mut K, report: &Option<Report>, step: &Step) -> Result<(), WriteFault>
    ensures ok { OnOk result (Appends (K.written sink.old) (K.written sink.new)
        (report_lines (told step.now report.now))) }
    ensures err { OnErr result (AppendsFront (K.written sink.old) (K.written sink.new)
        (report_lines (told step.now report.now))) }
    ensures cause { HasCause (K.faults sink.old) (K.faults sink.new) result }
{
    if !step.reported {
        return Ok(());
    }
    write_reports(sink, report, step.finished)
}

// Whether a step reports that marking began.
fn tells_start(step: &Step, report: &Option<Report>) -> bool {
    step.reported && matches!(report, Some(Report::Started))
}

// Does a step of the collection that runs, as many units as are left at most, and writes what they
// report. `report` is a place for a report, lent for as long as steps go on.
fn answer_step<F: Sweeping, K: Sink, L: Ledger>(
    alloc: Global,
    collector: &mut Collector,
    pending: &mut Pending,
    flight: &mut F,
    report: &mut Option<Report>,
    sink: &mut K,
    steps: &mut Steps<L>,
) -> Result<Pause, AnswerFault>
    requires counted { collector.old.heap.ledger ≡ Some L.name }
    requires flight { StandsWith collector.old (F.left (F.origin flight.old)) (F.bits flight.old) }
    requires running { IsSome collector.old.run }
    requires some { 0 < limit_of pending.old }
    requires few { done_of pending.old + units_left collector.old (F.bits flight.old) < 2 ^ 64 }
    ensures ok { IfOk result (λ pause. Goes collector.old (F.bits flight.old) pending.old collector.new
        (bits_in pause (F.bits flight.new)) pending.new (K.written sink.old) (K.written sink.new)) }
    ensures some { IfOk result (λ pause. units_left collector.new (bits_in pause (F.bits flight.new))
        < units_left collector.old (F.bits flight.old)) }
    ensures flight { IfOk result (λ pause. StandsWith collector.new
        (outs_in pause (F.left (F.origin flight.new))) (bits_in pause (F.bits flight.new))) }
    ensures by { IfOk result (λ pause. IsLeftBy pause (F.left (F.origin flight.new)) (F.bits flight.new)) }
    ensures home { F.home (F.origin flight.new) ≡ F.home (F.origin flight.old) }
    ensures size { MakesNone collector.old collector.new }
    ensures memory { result ≡ Err AnswerFault.Memory → Appends (K.written sink.old) (K.written sink.new) [] }
    ensures write { result ≡ Err AnswerFault.Write → EachWorld collector.old (F.bits flight.old)
        (λ w. (n : ℕ) × Allows pending.old n × BreaksInUnits w n (K.written sink.old) (K.written sink.new)) }
    ensures faults { CountsFaults (K.faults sink.old) (K.faults sink.new) result }
{
    let some_out = !flight.is_empty();
    let Ok(step) = collector.advance(alloc, pending.limit(), flight, report, steps) else {
        return Err(AnswerFault::Memory);
    };
    pending.count(step.units);
    let began = *pending == Pending::Collect && tells_start(&step, report);
    match write_step(sink, report, &step) {
        Ok(()) => Ok(pause_after(some_out, began, flight, step.handed)),
        Err(_) => Err(AnswerFault::Write),
    }
}

/// Does units of the line that is being answered, and writes their reports, until it has all that it
/// asks for (`Pause::None`), the last arena is taken in, or arenas are to be swept.
pub fn answer_units<F: Sweeping, K: Sink, L: Ledger>(
    alloc: Global,
    collector: &mut Collector,
    pending: &mut Pending,
    flight: &mut F,
    sink: &mut K,
    steps: &mut Steps<L>,
) -> Result<Pause, AnswerFault>
    requires counted { collector.old.heap.ledger ≡ Some L.name }
    requires flight { StandsWith collector.old (F.left (F.origin flight.old)) (F.bits flight.old) }
    requires few { done_of pending.old + units_left collector.old (F.bits flight.old) < 2 ^ 64 }
    ensures ok { IfOk result (λ pause. Goes collector.old (F.bits flight.old) pending.old collector.new
        (bits_in pause (F.bits flight.new)) pending.new (K.written sink.old) (K.written sink.new)) }
    ensures over { result ≡ Ok Pause.None → 0 < limit_of pending.new → collector.new.run ≡ None }
    ensures flight { IfOk result (λ pause. StandsWith collector.new
        (outs_in pause (F.left (F.origin flight.new))) (bits_in pause (F.bits flight.new))) }
    ensures by { IfOk result (λ pause. IsLeftBy pause (F.left (F.origin flight.new)) (F.bits flight.new)) }
    ensures home { F.home (F.origin flight.new) ≡ F.home (F.origin flight.old) }
    ensures size { MakesNone collector.old collector.new }
    ensures memory { result ≡ Err AnswerFault.Memory → EachWorld collector.old (F.bits flight.old)
        (λ w. (n : ℕ) × Allows pending.old n × StopsInUnits w n (K.written sink.old) (K.written sink.new)) }
    ensures write { result ≡ Err AnswerFault.Write → EachWorld collector.old (F.bits flight.old)
        (λ w. (n : ℕ) × Allows pending.old n × BreaksInUnits w n (K.written sink.old) (K.written sink.new)) }
    ensures faults { CountsFaults (K.faults sink.old) (K.faults sink.new) result }
{
    let mut report = None;
    while pending.limit() > 0 && collector.running() {
        match answer_step(alloc, collector, pending, flight, &mut report, sink, steps) {
            Ok(Pause::None) => {}
            Ok(pause) => return Ok(pause),
            Err(fault) => return Err(fault),
        }
    }
    Ok(Pause::None)
}
