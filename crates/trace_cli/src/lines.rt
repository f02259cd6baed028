// The reading loop: it replies to one line after the other, until something stands in the way.
ghost use Rattle.std.specs.Prelude.{◌≡◌, ◌≢◌, ◌<◌, ◌+◌, ◌^◌, ◌⊎◌, [], Err, Contains, IfNone, IfOk, IfSome, None, Ok};
ghost use Rattle.std.specs.Prelude.{OnErr, OnOk, Some};
ghost use Rattle.std.specs.Io.KnownBytes.{Appends};
ghost use Rattle.gz_io.specs.Causes.{Rose};
ghost use Rattle.slice_driver.specs.Left.{units_left};
ghost use Rattle.slice_driver.specs.Units.{none_flown};
ghost use Rattle.trace_cli.specs.Answering.{CountsFaults};
ghost use Rattle.trace_cli.specs.Pauses.{IsLeftBy, PausesSo, bits_in, outs_in};
ghost use Rattle.trace_cli.specs.Pending.{done_of, limit_of};
ghost use Rattle.trace_cli.specs.Standing.{BreaksLine, EndsLine, Entry, HandsOn, HasEnded, IsStanding, MakesNone};
ghost use Rattle.trace_cli.specs.Standing.{Standing, StandsWith, turns_left};
ghost use Rattle.trace_cli.specs.Worlds.{EachWorld};
ghost use Rattle.trace_cli.specs.Writing.{BreaksFurther, GoesFurther, StopsFurther};

use crate::answer::{AnswerFault, start_command, write_last};
use crate::exit::Exit;
use crate::machine::{Machine, Pause};
use crate::pending::Pending;
use crate::resets::answer_reset;
use crate::turns::answer_units;
use command_source::{CommandSource, NextCommand};
use gz_io::Sink;
use heap_core::Steps;
use slice_driver::Collector;
use std::alloc::Global;
use std::sync::ledger::Ledger;
use sweeping::Sweeping;

/// Hands on what is held back, and ends so.
pub fn end_so<K: Sink>(sink: &mut K, exit: Exit) -> Exit
    ensures kept { Appends (K.written sink.old) (K.written sink.new) [] }
    ensures cause { HandsOn exit result (K.faults sink.old) (K.faults sink.new) (K.behind sink.new) }
{
    match sink.flush() {
        Ok(()) => exit,
        Err(_) => Exit::WriteFault,
    }
}

// Hands on what is held back where the next line has to be asked for.
fn flush_before<S: CommandSource, K: Sink>(source: &S, sink: &mut K) -> Result<(), AnswerFault>
    ensures kept { Appends (K.written sink.old) (K.written sink.new) [] }
    ensures handed_on { OnOk result ((Contains (S.input source.now).held 10 → ⊥) → K.behind sink.new ≡ 0) }
    ensures faults { CountsFaults (K.faults sink.old) (K.faults sink.new) result }
    ensures fault { OnErr result (result ≡ Err AnswerFault.Write) }
{
    if !source.holds_line() && sink.flush().is_err() {
        return Err(AnswerFault::Write);
    }
    Ok(())
}

// The exit at a line outside the language, after this number of lines.
fn refusal(answered: u64) -> Exit
    requires { answered < 4294967296 }
    ensures { ((answered ≡ 4294967295) × (result ≡ Exit.TooManyLines))
        ⊎ ((answered < 4294967295) × (result ≡ Exit.BadLine (answered + 1))) }
{
    if answered == 4294967295 {
        return Exit::TooManyLines;
    }
    Exit::BadLine(answered + 1)
}

// Takes the next line, and answers it, or leaves the units that it asks for.
fn start_line<F: Sweeping, S: CommandSource, K: Sink, L: Ledger>(
    alloc: Global,
    machine: &mut Machine,
    flight: &mut F,
    source: &mut S,
    sink: &mut K,
    steps: &mut Steps<L>,
) -> Option<Exit>
    requires counted { machine.old.collector.heap.ledger ≡ Some L.name }
    requires between { machine.old.pending ≡ None }
    requires standing { IsStanding machine.old (S.input source.old) (K.written sink.old)
        (K.faults sink.old) (F.left (F.origin flight.old)) (F.bits flight.old) }
    ensures none { IfNone result ((e : Entry)
        → Standing e machine.old (S.input source.old) (K.written sink.old) (K.faults sink.old)
        (F.left (F.origin flight.old)) (F.bits flight.old)
        → Standing e machine.new (S.input source.new) (K.written sink.new) (K.faults sink.new)
        (F.left (F.origin flight.new)) (F.bits flight.new)) }
    ensures fewer { IfNone result (turns_left machine.new < turns_left machine.old) }
    ensures some { IfSome result (λ x. (e : Entry)
        → Standing e machine.old (S.input source.old) (K.written sink.old) (K.faults sink.old)
        (F.left (F.origin flight.old)) (F.bits flight.old)
        → HasEnded e x machine.new (S.input source.new) (K.written sink.new)
        (K.faults sink.new) (K.behind sink.new)) }
    ensures origin { F.origin flight.new ≡ F.origin flight.old }
    ensures ledger { machine.new.collector.heap.ledger ≡ machine.old.collector.heap.ledger }
    ensures lender { S.lender source.new ≡ S.lender source.old }
{
    if flush_before(source, sink).is_err() {
        return Some(Exit::WriteFault);
    }
    let command = match source.next() {
        NextCommand::Command(command) => command,
        NextCommand::BadLine => return Some(end_so(sink, refusal(machine.answered))),
        NextCommand::End => return Some(end_so(sink, Exit::Done)),
        NextCommand::ReadFault => return Some(end_so(sink, Exit::ReadFault)),
    };
    if machine.answered == 4294967295 {
        return Some(end_so(sink, Exit::TooManyLines));
    }
    match start_command(
        alloc,
        &mut machine.collector,
        flight,
        &command,
        &mut machine.pending,
        sink,
        steps,
    ) {
        Ok(()) => {}
        Err(AnswerFault::Memory) => return Some(end_so(sink, Exit::NoMemory)),
        Err(AnswerFault::Write) => return Some(Exit::WriteFault),
    }
    if machine.pending.is_some() {
        machine.collector.units_law();
        return None;
    }
    machine.answered += 1;
    None
}

// Writes the last line of an answer.
fn end_line<K: Sink>(machine: &mut Machine, left: Pending, sink: &mut K) -> Result<(), AnswerFault>
    requires { machine.old.answered < 4294967295 }
    ensures ok { OnOk result (EndsLine machine.old left machine.new (K.written sink.old) (K.written sink.new)
        × (K.faults sink.new ≡ K.faults sink.old)) }
    ensures err { OnErr result (BreaksLine left (K.written sink.old) (K.written sink.new)
        × Rose (K.faults sink.old) (K.faults sink.new)) }
    ensures kept { machine.new.collector ≡ machine.old.collector }
{
    write_last(sink, &left.reply())?;
    machine.pending = None;
    machine.answered += 1;
    Ok(())
}

// Does what is left of a line but for its last line, until that is done or something stands in the way.
fn answer_pending<F: Sweeping, K: Sink, L: Ledger>(
    alloc: Global,
    collector: &mut Collector,
    left: &mut Pending,
    flight: &mut F,
    sink: &mut K,
    steps: &mut Steps<L>,
) -> Result<Pause, AnswerFault>
    requires counted { collector.old.heap.ledger ≡ Some L.name }
    requires flight { StandsWith collector.old (F.left (F.origin flight.old)) (F.bits flight.old) }
    requires few { left.old ≢ Pending.Reset
        → done_of left.old + units_left collector.old (F.bits flight.old) < 2 ^ 64 }
    ensures ok { IfOk result (λ pause. GoesFurther collector.old (F.bits flight.old) left.old collector.new
        (bits_in pause (F.bits flight.new)) left.new (K.written sink.old) (K.written sink.new)) }
    ensures over { result ≡ Ok Pause.None → 0 < limit_of left.new → collector.new.run ≡ None }
    ensures flight { IfOk result (λ pause. StandsWith collector.new
        (outs_in pause (F.left (F.origin flight.new))) (bits_in pause (F.bits flight.new))) }
    ensures by { IfOk result (λ pause. IsLeftBy pause (F.left (F.origin flight.new)) (F.bits flight.new)) }
    ensures home { F.home (F.origin flight.new) ≡ F.home (F.origin flight.old) }
    ensures size { MakesNone collector.old collector.new }
    ensures memory { result ≡ Err AnswerFault.Memory → EachWorld collector.old (F.bits flight.old)
        (λ w. StopsFurther w left.old (K.written sink.old) (K.written sink.new)) }
    ensures write { result ≡ Err AnswerFault.Write → EachWorld collector.old (F.bits flight.old)
        (λ w. BreaksFurther w left.old (K.written sink.old) (K.written sink.new)) }
    ensures faults { CountsFaults (K.faults sink.old) (K.faults sink.new) result }
{
    match *left {
        Pending::Reset => answer_reset(collector, flight, sink, steps),
        _ => answer_units(alloc, collector, left, flight, sink, steps),
    }
}

// Goes on with the line that is being answered.
#[inline(never)]
fn go_on<F: Sweeping, S: CommandSource, K: Sink, L: Ledger>(
    alloc: Global,
    machine: &mut Machine,
    pending: Pending,
    flight: &mut F,
    _source: &S,
    sink: &mut K,
    steps: &mut Steps<L>,
) -> Pause
    requires counted { machine.old.collector.heap.ledger ≡ Some L.name }
    requires amid { machine.old.pending ≡ Some pending }
    requires standing { IsStanding machine.old (S.input _source.now) (K.written sink.old)
        (K.faults sink.old) (F.left (F.origin flight.old)) (F.bits flight.old) }
    ensures pauses { (e : Entry)
        → Standing e machine.old (S.input _source.now) (K.written sink.old) (K.faults sink.old)
        (F.left (F.origin flight.old)) (F.bits flight.old)
        → PausesSo result e machine.new (S.input _source.now) (K.written sink.new) (K.faults sink.new)
        (K.behind sink.new) (F.left (F.origin flight.new)) (F.bits flight.new) }
    ensures fewer { result ≡ Pause.None → turns_left machine.new < turns_left machine.old }
    ensures ledger { machine.new.collector.heap.ledger ≡ machine.old.collector.heap.ledger }
    ensures home { F.home (F.origin flight.new) ≡ F.home (F.origin flight.old) }
{
    let mut left = pending;
    match answer_pending(
        alloc,
        &mut machine.collector,
        &mut left,
        flight,
        sink,
        steps,
    ) {
        Ok(Pause::None) => {
            if end_line(machine, left, sink).is_err() {
                return Pause::Over(Exit::WriteFault);
            }
            Pause::None
        }
        Ok(pause) => {
            machine.pending = Some(left);
            pause
        }
        Err(AnswerFault::Write) => Pause::Over(Exit::WriteFault),
        Err(AnswerFault::Memory) => Pause::Over(end_so(sink, Exit::NoMemory)),
    }
}

/// Answers lines until the last arena is taken in, arenas are to be swept, or the replay is over.
pub fn go<F: Sweeping, S: CommandSource, K: Sink, L: Ledger>(
    alloc: Global,
    machine: &mut Machine,
    flight: &mut F,
    source: &mut S,
    sink: &mut K,
    steps: &mut Steps<L>,
) -> Pause
    requires counted { machine.old.collector.heap.ledger ≡ Some L.name }
    requires standing { IsStanding machine.old (S.input source.old) (K.written sink.old)
        (K.faults sink.old) (F.left (F.origin flight.old)) (F.bits flight.old) }
    ensures pauses { (e : Entry)
        → Standing e machine.old (S.input source.old) (K.written sink.old) (K.faults sink.old)
        (F.left (F.origin flight.old)) (F.bits flight.old)
        → PausesSo result e machine.new (S.input source.new) (K.written sink.new)
        (K.faults sink.new) (K.behind sink.new) [] none_flown }
    ensures home { F.home (F.origin flight.new) ≡ F.home (F.origin flight.old) }
    ensures ledger { machine.new.collector.heap.ledger ≡ machine.old.collector.heap.ledger }
    ensures lender { S.lender source.new ≡ S.lender source.old }
{
    loop {
        if let Some(left) = machine.pending {
            match go_on(alloc, machine, left, flight, source, sink, steps) {
                Pause::None => {}
                pause => return pause,
            }
        } else if let Some(exit) = start_line(alloc, machine, flight, source, sink, steps) {
            return Pause::Over(exit);
        }
    }
}
