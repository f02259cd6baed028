// The reply to a line.
ghost use Rattle.std.specs.Prelude.{◌≡◌, ◌≤◌, ◌++◌, ℕ, List, [], Err, OnOk, OnErr, codes};
ghost use Rattle.std.specs.Io.KnownBytes.{Appends};
ghost use Rattle.gz_io.specs.Causes.{HasCause, Rose};
ghost use Rattle.gz_names.specs.declared.commands.Cmd.{Cmd as TheCmd};
ghost use Rattle.colour_defs.specs.Step.{HasFewFields, step_of};
ghost use Rattle.trace_lang.specs.Grammar.{Spells};
ghost use Rattle.trace_lang.specs.Texts.{line_of, names_text, reply_text};
ghost use Rattle.spec_replay.specs.Answers.{AnswersLine, WritesReached};

use crate::reached::{black_names, live_names};
use gz_io::{Sink, WriteFault, write_all};
use gz_names::{Cmd, GraphCmd, Name};
use plain_graph::{Graph, step};
use std::alloc::Global;
use trace_lang::{parse, write_name, write_reply};

/// Why a line was not answered whole.
#[derive(Clone, Copy, Debug, PartialEq, Eq)]
pub enum LineFault {
    /// The line is no line of the language.
    Bad,
    /// An allocation failed; nothing was written.
    Memory,
    /// The sink failed.
    Write,
}

// Writes names, each behind a space; `-` for none.
fn write_names<K: Sink>(sink: &mut K, names: &[Name]) -> Result<(), WriteFault>
    ensures ok { OnOk result (Appends (K.written sink.old) (K.written sink.new) (names_text names.now)) }
    ensures cause { HasCause (K.faults sink.old) (K.faults sink.new) result }
{
    if names.is_empty() {
        return write_all(sink, b" -");
    }
    for name in names {
        write_all(sink, b" ")?;
        write_name(sink, *name)?;
    }
    Ok(())
}

// Writes a line: a word, and names.
fn write_line<K: Sink>(sink: &mut K, word: &[u8], names: &[Name]) -> Result<(), WriteFault>
    ensures ok { OnOk result (Appends (K.written sink.old) (K.written sink.new)
        (line_of (word.now ++ names_text names.now))) }
    ensures cause { HasCause (K.faults sink.old) (K.faults sink.new) result }
{
    write_all(sink, word)?;
    write_names(sink, names)?;
    write_all(sink, b"\n")
}

// Writes both lines of what is reached.
fn write_reached<K: Sink>(sink: &mut K, black: &[Name], live: &[Name]) -> Result<(), WriteFault>
    ensures ok { OnOk result (Appends (K.written sink.old) (K.written sink.new)
        (line_of (codes "black" ++ names_text black.now) ++ line_of (codes "live" ++ names_text live.now))) }
    ensures cause { HasCause (K.faults sink.old) (K.faults sink.new) result }
{
    write_line(sink, b"black", black)?;
    write_line(sink, b"live", live)
}

// Does a command on the graph, and writes the reply.
fn answer_command<K: Sink>(
    alloc: Global,
    graph: &mut Graph,
    command: &GraphCmd,
    sink: &mut K,
) -> Result<(), LineFault>
    requires { HasFewFields command.now }
    ensures ok { OnOk result ((graph.new ≡ (step_of graph.old command.now).0)
        × Appends (K.written sink.old) (K.written sink.new) (line_of (reply_text (step_of graph.old command.now).1))) }
    ensures bad { result ≡ Err LineFault.Bad → ⊥ }
    ensures memory { result ≡ Err LineFault.Memory → Appends (K.written sink.old) (K.written sink.new) [] }
    ensures later { K.faults sink.old ≤ K.faults sink.new }
    ensures same { OnOk result (K.faults sink.new ≡ K.faults sink.old) }
    ensures cause { result ≡ Err LineFault.Write → Rose (K.faults sink.old) (K.faults sink.new) }
{
    let Ok(reply) = step(alloc, graph, command) else {
        return Err(LineFault::Memory);
    };
    match write_reply(sink, &reply) {
        Ok(()) => Ok(()),
        Err(_) => Err(LineFault::Write),
    }
}

// Writes what is reached.
fn answer_colours<K: Sink>(alloc: Global, graph: &Graph, sink: &mut K) -> Result<(), LineFault>
    ensures ok { OnOk result ((text : List ℕ) × WritesReached graph.now text
        × Appends (K.written sink.old) (K.written sink.new) text) }
    ensures bad { result ≡ Err LineFault.Bad → ⊥ }
    ensures memory { result ≡ Err LineFault.Memory → Appends (K.written sink.old) (K.written sink.new) [] }
    ensures later { K.faults sink.old ≤ K.faults sink.new }
    ensures same { OnOk result (K.faults sink.new ≡ K.faults sink.old) }
    ensures cause { result ≡ Err LineFault.Write → Rose (K.faults sink.old) (K.faults sink.new) }
{
    let Ok(black) = black_names(alloc, graph) else {
        return Err(LineFault::Memory);
    };
    let Ok(live) = live_names(alloc, graph) else {
        return Err(LineFault::Memory);
    };
    match write_reached(sink, black.as_slice(), live.as_slice()) {
        Ok(()) => Ok(()),
        Err(_) => Err(LineFault::Write),
    }
}

/// Does what a line says, and writes its answer. A collection changes nothing in a graph that never
/// frees, and its lines have no answer here.
pub fn answer_line<K: Sink>(
    alloc: Global,
    graph: &mut Graph,
    line: &[u8],
    sink: &mut K,
) -> Result<(), LineFault>
    ensures ok { OnOk result ((answer : List ℕ) × AnswersLine graph.old line.now answer graph.new
        × Appends (K.written sink.old) (K.written sink.new) answer) }
    ensures bad { result ≡ Err LineFault.Bad → ((c : TheCmd) → Spells line.now c → ⊥)
        × Appends (K.written sink.old) (K.written sink.new) [] }
    ensures memory { result ≡ Err LineFault.Memory → Appends (K.written sink.old) (K.written sink.new) [] }
    ensures later { K.faults sink.old ≤ K.faults sink.new }
    ensures same { OnOk result (K.faults sink.new ≡ K.faults sink.old) }
    ensures cause { result ≡ Err LineFault.Write → Rose (K.faults sink.old) (K.faults sink.new) }
{
    match parse(line) {
        Err(_) => Err(LineFault::Bad),
        Ok(Cmd::Graph(command)) => answer_command(alloc, graph, &command, sink),
        Ok(Cmd::Colours) => answer_colours(alloc, graph, sink),
        Ok(Cmd::Gc(_)) => Ok(()),
        Ok(Cmd::Slice(_)) => Ok(()),
        Ok(Cmd::Finish) => Ok(()),
        Ok(Cmd::Collect(_)) => Ok(()),
        Ok(Cmd::Weak(_)) => Ok(()),
        Ok(Cmd::Reset) => Ok(()),
        Ok(Cmd::Dump) => Ok(()),
        Ok(Cmd::Compact(_)) => Ok(()),
    }
}
