// The dump of the heap is written. A check of it finds no fault.
ghost use Rattle.std.specs.Prelude.{◌≡◌, ℕ, ◌≤◌, List, length, Some};
ghost use Rattle.std.specs.List.{AllByRecursion};
ghost use Rattle.gz_names.specs.declared.commands.Cmd.TheVariants as ACmd;
ghost use Rattle.gz_names.specs.declared.dumps.DumpLine.{DumpLine as ALine};
ghost use Rattle.gz_names.specs.declared.replies.Reply.TheVariants as AReply;
ghost use Rattle.gz_names.specs.DumpTexts.{FitsLine};
ghost use Rattle.gz_names.specs.Dumps.{cells_of, edge_count, weak_count};
ghost use Rattle.colour_defs.specs.Dumps.{IsDump};
ghost use Rattle.colour_defs.specs.Laws.{IsValid};
ghost use Rattle.colour_defs.specs.World.{World, IsSettled};
ghost use Rattle.dump_check.specs.declared.checker.Verdict.TheVariants as AVerdict;
ghost use Rattle.dump_cli.specs.Verdicts.{IsVerdictOn};
ghost use Rattle.trace_lang.specs.Texts.{line_of, reply_text};
ghost use Rattle.trace_cli.specs.Answering.{AnswersCommand, CountsFaults};
ghost use Rattle.trace_cli.specs.Headline.{LeadsTo};
ghost use Rattle.trace_cli.specs.Standing.{StandsWith};

use crate::answer::{AnswerFault, write_last};
use colour_defs::valid_law;
use gz_io::Sink;
use gz_names::{DumpLines, Refusal, Reply};
use heap_core::Steps;
use slice_driver::Collector;
use spec_laws::dump_law;
use std::alloc::Global;
use std::sync::ledger::Ledger;
use sweeping::Sweeping;

/// Writes the dump of the heap, where no zone is marking.
#[inline(never)]
pub fn answer_dump<F: Sweeping, K: Sink, L: Ledger>(
    alloc: Global,
    collector: &Collector,
    flight: &mut F,
    sink: &mut K,
    steps: &mut Steps<L>,
) -> Result<(), AnswerFault>
    requires counted { collector.now.heap.ledger ≡ Some L.name }
    requires flight { StandsWith collector.now (F.left (F.origin flight.old)) (F.bits flight.old) }
    ensures answer { AnswersCommand ACmd.Dump collector.now (F.bits flight.old) collector.now (F.bits flight.new)
        (K.written sink.old) (K.written sink.new) result }
    ensures flight { StandsWith collector.now (F.left (F.origin flight.new)) (F.bits flight.new) }
    ensures origin { F.origin flight.new ≡ F.origin flight.old }
    ensures faults { CountsFaults (K.faults sink.old) (K.faults sink.new) result }
{
    if !collector.settled() {
        return write_last(sink, &Reply::Refused(Refusal::Marking));
    }
    let Ok(lines) = collector.dump(alloc, flight, steps) else {
        return Err(AnswerFault::Memory);
    };
    write_last(sink, &Reply::Dump(DumpLines::from_vec(lines)))
}

/// The text of the dump of a valid world in which no zone is marking is judged sound, with its numbers of cells, edges
/// and weak entries, where its names are in the range of the lines of a dump.
pub fn dump_text_law()
    ensures { (w : World) (lines : List ALine) → IsValid w → IsSettled w → IsDump w lines
        → AllByRecursion FitsLine lines → IsVerdictOn (line_of (reply_text (AReply.Dump lines)))
        (AVerdict.Sound (length (cells_of lines)) (edge_count lines) (weak_count lines)) }
{
    dump_law();
}

/// The text of the dump of a world to which a trace leads, and in which no zone is marking, is judged sound, with its
/// numbers of cells, edges and weak entries.
pub fn dump_of_trace_law()
    ensures { (lines : List (List ℕ)) (output : List ℕ) (w : World) (dump : List ALine) → LeadsTo lines output w
        → length lines ≤ 4294967295 → IsSettled w → IsDump w dump
        → IsVerdictOn (line_of (reply_text (AReply.Dump dump)))
        (AVerdict.Sound (length (cells_of dump)) (edge_count dump) (weak_count dump)) }
{
    valid_law();
    dump_text_law();
}
