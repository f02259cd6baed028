// The reply to a command.
ghost use Rattle.std.specs.Prelude.{◌≡◌, ◌≢◌, None, OnOk, OnErr, false, Some};
ghost use Rattle.std.specs.Io.KnownBytes.{Appends};
ghost use Rattle.gz_io.specs.Causes.{AppendsFront};
ghost use Rattle.gz_names.specs.declared.commands.Cmd.TheVariants as ACmd;
ghost use Rattle.trace_lang.specs.Texts.{reply_text, line_of};
ghost use Rattle.colour_defs.specs.Step.{HasFewFields};
ghost use Rattle.heap_core.specs.Effects.{takes_memory};
ghost use Rattle.trace_cli.specs.Served.{FitsLanguage, IsNoWatch};
ghost use Rattle.trace_cli.specs.Answering.{AnswersCommand, CountsFaults, StartsCommand};
ghost use Rattle.trace_cli.specs.Standing.{HasRoomForOne, MakesAtMostOne, MakesNone, StandsWith};

use crate::begin::{begin_collect, begin_finish, begin_reset, begin_slice, gc};
use crate::dump::answer_dump;
use crate::pending::Pending;
use gz_io::Sink;
use gz_names::{Cmd, CmdFault, GraphCmd, Refusal, Reply, WeakCmd, ZoneNo};
use heap_core::Steps;
use slice_driver::{Collector, CompactFault};
use std::alloc::Global;
use std::sync::ledger::Ledger;
use sweeping::Sweeping;
use trace_lang::write_reply;

/// Why a line was not answered whole.
#[derive(Clone, Copy, Debug, PartialEq, Eq)]
pub enum AnswerFault {
    /// Memory was wanted: the reports of whole units were written, and nothing else.
    Memory,
    /// A prefix of the reply was written.
    Write,
}

/// Writes the reply that ends an answer.
#[inline(always)]
pub fn write_last<K: Sink>(sink: &mut K, reply: &Reply) -> Result<(), AnswerFault>
    ensures ok { OnOk result (Appends (K.written sink.old) (K.written sink.new) (line_of (reply_text reply.now))) }
    ensures err { OnErr result (AppendsFront (K.written sink.old) (K.written sink.new)
        (line_of (reply_text reply.now))) }
    ensures fault { OnErr result (result ≡ Err AnswerFault.Write) }
    ensures faults { CountsFaults (K.faults sink.old) (K.faults sink.new) result }
{
    match write_reply(sink, reply) {
        Ok(()) => Ok(()),
        Err(_) => Err(AnswerFault::Write),
    }
}

// Does a command on the graph, and writes the reply.
fn answer_command<F: Sweeping, K: Sink, L: Ledger>(
    collector: &mut Collector,
    flight: &mut F,
    command: &GraphCmd,
    sink: &mut K,
    steps: &mut Steps<L>,
) -> Result<(), AnswerFault>
    requires counted { collector.old.heap.ledger ≡ Some L.name }
    requires flight { StandsWith collector.old (F.left (F.origin flight.old)) (F.bits flight.old) }
    requires room { HasRoomForOne collector.old }
    requires fields { HasFewFields command.now }
    ensures answer { AnswersCommand (ACmd.Graph command.now) collector.old (F.bits flight.old) collector.new
        (F.bits flight.new) (K.written sink.old) (K.written sink.new) result }
    ensures flight { StandsWith collector.new (F.left (F.origin flight.new)) (F.bits flight.new) }
    ensures origin { F.origin flight.new ≡ F.origin flight.old }
    ensures size { MakesAtMostOne collector.old collector.new }
    ensures sure { takes_memory command.now ≡ false → result ≢ Err AnswerFault.Memory }
    ensures faults { CountsFaults (K.faults sink.old) (K.faults sink.new) result }
{
    match collector.command(flight, *command, steps) {
        Ok(reply) => write_last(sink, &reply),
        Err(CmdFault::Refused(why)) => write_last(sink, &Reply::Refused(why)),
        Err(CmdFault::NoMemory) => Err(AnswerFault::Memory),
    }
}

// Does a command on weak slots and watched cells, and writes the reply.
#[inline(never)]
fn answer_weak<F: Sweeping, K: Sink, L: Ledger>(
    collector: &mut Collector,
    flight: &mut F,
    command: WeakCmd,
    sink: &mut K,
    steps: &mut Steps<L>,
) -> Result<(), AnswerFault>
    requires counted { collector.old.heap.ledger ≡ Some L.name }
    requires flight { StandsWith collector.old (F.left (F.origin flight.old)) (F.bits flight.old) }
    ensures answer { AnswersCommand (ACmd.Weak command) collector.old (F.bits flight.old) collector.new
        (F.bits flight.new) (K.written sink.old) (K.written sink.new) result }
    ensures flight { StandsWith collector.new (F.left (F.origin flight.new)) (F.bits flight.new) }
    ensures origin { F.origin flight.new ≡ F.origin flight.old }
    ensures size { MakesNone collector.old collector.new }
    ensures sure { IsNoWatch command → result ≢ Err AnswerFault.Memory }
    ensures faults { CountsFaults (K.faults sink.old) (K.faults sink.new) result }
{
    match collector.weak_command(flight, command, steps) {
        Ok(reply) => write_last(sink, &reply),
        Err(CmdFault::Refused(why)) => write_last(sink, &Reply::Refused(why)),
        Err(CmdFault::NoMemory) => Err(AnswerFault::Memory),
    }
}

// Compacts a zone, and writes the reply.
#[inline(never)]
fn answer_compact<F: Sweeping, K: Sink>(
    alloc: Global,
    collector: &mut Collector,
    _flight: &F,
    zone: ZoneNo,
    sink: &mut K,
) -> Result<(), AnswerFault>
    requires { StandsWith collector.old (F.left (F.origin _flight.now)) (F.bits _flight.now) }
    ensures answer { AnswersCommand (ACmd.Compact zone) collector.old (F.bits _flight.now) collector.new
        (F.bits _flight.now) (K.written sink.old) (K.written sink.new) result }
    ensures flight { StandsWith collector.new (F.left (F.origin _flight.now)) (F.bits _flight.now) }
    ensures size { MakesNone collector.old collector.new }
    ensures faults { CountsFaults (K.faults sink.old) (K.faults sink.new) result }
{
    match collector.compact(alloc, zone) {
        Ok(done) => write_last(sink, &Reply::Compacted(done.moved, done.given_up)),
        Err(CompactFault::Running) => write_last(sink, &Reply::Refused(Refusal::Running)),
        Err(CompactFault::NoZone) => write_last(sink, &Reply::Refused(Refusal::NoZone)),
        Err(CompactFault::NoMemory) => Err(AnswerFault::Memory),
    }
}

// Writes the gray names, where no zone is marking.
#[inline(never)]
fn answer_colours<F: Sweeping, K: Sink>(
    alloc: Global,
    collector: &Collector,
    flight: &mut F,
    sink: &mut K,
) -> Result<(), AnswerFault>
    requires { StandsWith collector.now (F.left (F.origin flight.old)) (F.bits flight.old) }
    ensures answer { AnswersCommand ACmd.Colours collector.now (F.bits flight.old) collector.now
        (F.bits flight.new) (K.written sink.old) (K.written sink.new) result }
    ensures flight { StandsWith collector.now (F.left (F.origin flight.new)) (F.bits flight.new) }
    ensures origin { F.origin flight.new ≡ F.origin flight.old }
    ensures faults { CountsFaults (K.faults sink.old) (K.faults sink.new) result }
{
    if !collector.settled() {
        return write_last(sink, &Reply::Refused(Refusal::Marking));
    }
    let Ok(names) = collector.gray_names(alloc, flight) else {
        return Err(AnswerFault::Memory);
    };
    write_last(sink, &Reply::Gray(names))
}

/// Does a command, and writes the answer, or leaves the units that it asks for.
#[inline(always)]
pub fn start_command<F: Sweeping, K: Sink, L: Ledger>(
    alloc: Global,
    collector: &mut Collector,
    flight: &mut F,
    cmd: &Cmd,
    pending: &mut Option<Pending>,
    sink: &mut K,
    steps: &mut Steps<L>,
) -> Result<(), AnswerFault>
    requires counted { collector.old.heap.ledger ≡ Some L.name }
    requires flight { StandsWith collector.old (F.left (F.origin flight.old)) (F.bits flight.old) }
    requires room { HasRoomForOne collector.old }
    requires fits { FitsLanguage cmd.now }
    requires none { pending.old ≡ None }
    ensures answer { StartsCommand cmd.now pending.new collector.old (F.bits flight.old) collector.new
        (F.bits flight.new) (K.written sink.old) (K.written sink.new) result }
    ensures flight { StandsWith collector.new (F.left (F.origin flight.new)) (F.bits flight.new) }
    ensures origin { F.origin flight.new ≡ F.origin flight.old }
    ensures size { MakesAtMostOne collector.old collector.new }
    ensures faults { CountsFaults (K.faults sink.old) (K.faults sink.new) result }
{
    match cmd {
        Cmd::Graph(command) => answer_command(collector, flight, command, sink, steps),
        Cmd::Collect(zones) => begin_collect(collector, flight, *zones, pending, sink),
        Cmd::Colours => answer_colours(alloc, collector, flight, sink),
        Cmd::Dump => answer_dump(alloc, collector, flight, sink, steps),
        Cmd::Gc(zones) => gc(collector, flight, *zones, sink),
        Cmd::Slice(budget) => begin_slice(collector, flight, *budget, pending, sink),
        Cmd::Finish => begin_finish(collector, flight, pending, sink),
        Cmd::Reset => begin_reset(collector, flight, pending, sink),
        Cmd::Weak(command) => answer_weak(collector, flight, *command, sink, steps),
        Cmd::Compact(zone) => answer_compact(alloc, collector, flight, *zone, sink),
    }
}
