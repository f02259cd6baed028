// The reading loop.
ghost use Rattle.std.specs.Prelude.{◌≡◌, ◌↔◌, ◌⊎◌, ℕ, [], List, Some, IfOk, IfSome, IfNone, IsTrue};
ghost use Rattle.std.specs.Io.KnownBytes.{Appends};
ghost use Rattle.gz_io.specs.Causes.{AppendsFront, Rose};
ghost use Rattle.colour_defs.specs.Graph.{empty_graph};
ghost use Rattle.judge.specs.Sound.{IsSound};
ghost use Rattle.judge.specs.Stages.{IsFirst, shown};
ghost use Rattle.judge.specs.Replies.{IsUnmarked, Steps, due_as, marked, nothing};
ghost use Rattle.judge.specs.Endings.{EndsBy, HasVerdict, MayEndLawful, wrong_text};
ghost use Rattle.judge.specs.Transcripts.{IsLawfulInput};
ghost use Rattle.judge.specs.Verdicts.{IsFirstWrong, IsSaid, IsVerdictOn};
ghost use Rattle.trace_lang.specs.Grammar.{Spells};

use crate::answers::{Awaited, begin_answer, judge_line};
use crate::lines::{Lines, NextLine};
use crate::world::World;
use gz_io::{Sink, Source, write_all};
use gz_names::{Cmd, NoMemory};
use itoa::Buffer;
use plain_graph::Graph;
use std::alloc::Global;
use std::fmt::{self, Display, Formatter, Write};
use std::mem;
use trace_lang::parse;

/// How a judge ends (statuses are those of gczone).
#[derive(Clone, Copy, Debug, PartialEq, Eq)]
pub enum JudgeEnd {
    /// The transcript is lawful, and this was written.
    Lawful,
    /// No lawful transcript has this line, counted from 1, behind those before it; this was written.
    Unlawful(u64),
    /// The transcript ends within an answer that is lawful so far.
    Cut,
    /// This line, counted from 1, is marked as one of a trace, and is no line of the language.
    BadLine(u64),
    ReadFault,
    WriteFault,
    NoMemory,
    /// 2^64 - 1 lines were read, or pieces of one line.
    TooManyLines,
}

impl JudgeEnd {
    /// Whether a verdict was written.
    pub fn is_verdict(self) -> bool
        ensures { IsTrue result ↔ HasVerdict self }
    {
        matches!(self, JudgeEnd::Lawful | JudgeEnd::Unlawful(_))
    }

    /// The status with which the program ends.
    pub fn status(self) -> u8 {
        match self {
            JudgeEnd::Lawful => 0,
            JudgeEnd::BadLine(_) => 3,
            JudgeEnd::ReadFault => 4,
            JudgeEnd::WriteFault => 5,
            JudgeEnd::NoMemory => 6,
            JudgeEnd::TooManyLines => 7,
            JudgeEnd::Unlawful(_) => 8,
            JudgeEnd::Cut => 9,
        }
    }
}

/// The text on standard error; a verdict has none.
impl Display for JudgeEnd {
    fn fmt<W: Write>(&self, f: &mut Formatter<W>) -> fmt::Result {
        match self {
            JudgeEnd::Lawful | JudgeEnd::Unlawful(_) => Ok(()),
            JudgeEnd::Cut => f.write_str("gcjudge: the transcript ends within an answer"),
            JudgeEnd::BadLine(line) => write!(f, "gcjudge: line {line}: bad line"),
            JudgeEnd::ReadFault => f.write_str("gcjudge: read failed"),
            JudgeEnd::WriteFault => f.write_str("gcjudge: write failed"),
            JudgeEnd::NoMemory => f.write_str("gcjudge: out of memory"),
            JudgeEnd::TooManyLines => f.write_str("gcjudge: too many lines"),
        }
    }
}

// What is known after some lines of a transcript.
#[derive(Drop)]
struct Known {
    graph: Graph,
    world: World,
    awaited: Awaited,
}

/// What a line is.
#[derive(Drop)]
pub enum Said {
    /// It is lawful so far.
    Fine,
    /// It is marked, and is no line of the language.
    Bad,
    /// It is unlawful; why.
    Wrong(Vec<u8>),
}

// The text of a line of a trace, behind its mark.
fn unmarked(line: &[u8]) -> Option<&[u8]>
    ensures some { IfSome result (λ text. line.now ≡ marked text.now) }
    ensures none { IfNone result (IsUnmarked line.now) }
{
    match line {
        [b'>', b' ', text @ ..] => Some(text),
        _ => None,
    }
}

impl Known {
    fn new(alloc: Global) -> Self
        ensures graph { result.graph ≡ empty_graph }
        ensures shows { IsFirst (shown result.world) }
        ensures due { due_as result.awaited ≡ nothing }
    {
        Known {
            graph: Graph::new(alloc),
            world: World::new(alloc),
            awaited: Awaited::Nothing,
        }
    }

    // Judges the next line of a transcript.
    fn next(&mut self, line: &[u8]) -> Result<Said, NoMemory>
        requires { IsSound self.old.graph (shown self.old.world) }
        ensures said { IfOk result (IsSaid self.old.graph (shown self.old.world) (due_as self.old.awaited) line.now) }
        ensures fine { result ≡ Ok Said.Fine → Steps self.old.graph (shown self.old.world)
            (due_as self.old.awaited) line.now self.new.graph (shown self.new.world) (due_as self.new.awaited) }
    {
        match unmarked(line) {
            Some(text) => self.trace_line(text),
            None => self.answer_line(line),
        }
    }

    // Judges a line of the trace, given without its mark.
    fn trace_line(&mut self, text: &[u8]) -> Result<Said, NoMemory>
        ensures said { IfOk result (IsSaid self.old.graph (shown self.old.world) (due_as self.old.awaited)
            (marked text.now)) }
        ensures fine { result ≡ Ok Said.Fine → Steps self.old.graph (shown self.old.world)
            (due_as self.old.awaited) (marked text.now) self.new.graph (shown self.new.world)
            (due_as self.new.awaited) }
    {
        match parse(text) {
            Err(_) => Ok(Said::Bad),
            Ok(command) => self.command(text, &command),
        }
    }

    // Judges the command that a line stands for, and does what it does before its first line.
    fn command(&mut self, text: &[u8], command: &Cmd) -> Result<Said, NoMemory>
        requires spelled { Spells text.now command.now }
        requires only { (other : _) → Spells text.now other → other ≡ command.now }
        ensures said { IfOk result (IsSaid self.old.graph (shown self.old.world) (due_as self.old.awaited)
            (marked text.now)) }
        ensures fine { result ≡ Ok Said.Fine → Steps self.old.graph (shown self.old.world)
            (due_as self.old.awaited) (marked text.now) self.new.graph (shown self.new.world)
            (due_as self.new.awaited) }
    {
        if self.awaited.is_whole() {
            let awaited = begin_answer(&mut self.graph, &mut self.world, command)?;
            self.awaited = awaited;
            return Ok(Said::Fine);
        }
        let kind = self.awaited.unfinished(&self.world)?;
        Ok(Said::Wrong(kind))
    }

    // Judges a line of an answer.
    fn answer_line(&mut self, line: &[u8]) -> Result<Said, NoMemory>
        requires unmarked { IsUnmarked line.now }
        requires sound { IsSound self.old.graph (shown self.old.world) }
        ensures said { IfOk result (IsSaid self.old.graph (shown self.old.world) (due_as self.old.awaited) line.now) }
        ensures fine { result ≡ Ok Said.Fine → Steps self.old.graph (shown self.old.world)
            (due_as self.old.awaited) line.now self.new.graph (shown self.new.world) (due_as self.new.awaited) }
    {
        let awaited = mem::replace(&mut self.awaited, Awaited::Nothing);
        match judge_line(&self.graph, &mut self.world, awaited, line)? {
            Ok(awaited) => {
                self.awaited = awaited;
                Ok(Said::Fine)
            }
            Err(kind) => Ok(Said::Wrong(kind)),
        }
    }
}

/// What a whole transcript is, or where it goes wrong and why.
#[derive(Drop)]
pub enum Verdict {
    Lawful,
    Wrong(u64, Vec<u8>),
    Cut,
    Bad(u64),
    ReadFault,
    TooManyLines,
}

// Judges all lines, of which nothing is known yet.
fn judge_lines<S: Source>(
    alloc: Global,
    source: &mut S,
    known: &mut Known,
) -> Result<Verdict, NoMemory>
    requires graph { known.old.graph ≡ empty_graph }
    requires shows { IsFirst (shown known.old.world) }
    requires due { due_as known.old.awaited ≡ nothing }
    ensures verdict { (input : List ℕ) → S.left source.old ≡ Some input → IfOk result (IsVerdictOn input) }
    ensures read { IfOk result (λ verdict. verdict ≡ Verdict.ReadFault
        → Rose (S.faults source.old) (S.faults source.new)) }
{
    let mut lines = Lines::new();
    let mut line = Vec::new(alloc);
    for read in 0..u64::MAX {
        match lines.next(source, &mut line)? {
            NextLine::ReadFault => return Ok(Verdict::ReadFault),
            NextLine::TooLong => return Ok(Verdict::TooManyLines),
            NextLine::End => {
                if known.awaited.is_whole() {
                    return Ok(Verdict::Lawful);
                }
                return Ok(Verdict::Cut);
            }
            NextLine::Line => {}
        }
        match known.next(line.as_slice())? {
            Said::Fine => {}
            Said::Bad => return Ok(Verdict::Bad(read + 1)),
            Said::Wrong(kind) => return Ok(Verdict::Wrong(read + 1, kind)),
        }
    }
    Ok(Verdict::TooManyLines)
}

fn decide<S: Source>(alloc: Global, source: &mut S) -> Result<Verdict, NoMemory>
    ensures verdict { (input : List ℕ) → S.left source.old ≡ Some input → IfOk result (IsVerdictOn input) }
    ensures read { IfOk result (λ verdict. verdict ≡ Verdict.ReadFault
        → Rose (S.faults source.old) (S.faults source.new)) }
{
    let mut known = Known::new(alloc);
    judge_lines(alloc, source, &mut known)
}

// The line of a verdict that is not lawful.
fn wrong_text(alloc: Global, line: u64, kind: &[u8]) -> Result<Vec<u8>, NoMemory>
    ensures { IfOk result (λ text. text.items ≡ wrong_text line kind.now) }
{
    let mut digits = Buffer::new();
    let mut text = Vec::new(alloc);
    text.extend_from_slice(b"at line ")?;
    text.extend_from_slice(digits.format(line).as_bytes())?;
    text.extend_from_slice(b": ")?;
    text.extend_from_slice(kind)?;
    text.extend_from_slice(b"\n")?;
    Ok(text)
}

// Writes a verdict.
fn write<K: Sink>(sink: &mut K, text: &[u8], end: JudgeEnd) -> JudgeEnd
    ensures { ((result ≡ end) × Appends (K.written sink.old) (K.written sink.new) text.now)
        ⊎ ((result ≡ JudgeEnd.WriteFault) × AppendsFront (K.written sink.old) (K.written sink.new) text.now
        × Rose (K.faults sink.old) (K.faults sink.new)) }
{
    match write_all(sink, text) {
        Ok(()) => end,
        Err(_) => JudgeEnd::WriteFault,
    }
}

// Writes the verdict on a line that is wrong.
fn tell_wrong<K: Sink>(alloc: Global, sink: &mut K, line: u64, kind: &[u8]) -> JudgeEnd
    ensures verdict { (input : List ℕ) → IsFirstWrong input line
        → EndsBy input (K.written sink.old) (K.written sink.new) result }
    ensures read { result ≡ JudgeEnd.ReadFault → ⊥ }
    ensures write { result ≡ JudgeEnd.WriteFault → Rose (K.faults sink.old) (K.faults sink.new) }
{
    match wrong_text(alloc, line, kind) {
        Err(_) => JudgeEnd::NoMemory,
        Ok(text) => write(sink, text.as_slice(), JudgeEnd::Unlawful(line)),
    }
}

// Writes a verdict, if it is one.
fn tell<K: Sink>(alloc: Global, sink: &mut K, verdict: &Verdict) -> JudgeEnd
    ensures verdict { (input : List ℕ) → IsVerdictOn input verdict.now
        → EndsBy input (K.written sink.old) (K.written sink.new) result }
    ensures read { result ≡ JudgeEnd.ReadFault → verdict.now ≡ Verdict.ReadFault }
    ensures write { result ≡ JudgeEnd.WriteFault → Rose (K.faults sink.old) (K.faults sink.new) }
{
    match verdict {
        Verdict::Lawful => write(sink, b"lawful\n", JudgeEnd::Lawful),
        Verdict::Wrong(line, kind) => tell_wrong(alloc, sink, *line, kind.as_slice()),
        Verdict::Cut => JudgeEnd::Cut,
        Verdict::Bad(line) => JudgeEnd::BadLine(*line),
        Verdict::ReadFault => JudgeEnd::ReadFault,
        Verdict::TooManyLines => JudgeEnd::TooManyLines,
    }
}

/// Judges a transcript, and writes its verdict as one line.
pub fn judge<S: Source, K: Sink>(alloc: Global, source: &mut S, sink: &mut K) -> JudgeEnd
    ensures verdict { (input : List ℕ) → S.left source.old ≡ Some input
        → EndsBy input (K.written sink.old) (K.written sink.new) result }
    ensures complete { (input : List ℕ) → S.left source.old ≡ Some input → IsLawfulInput input
        → MayEndLawful result }
    ensures read { result ≡ JudgeEnd.ReadFault → Rose (S.faults source.old) (S.faults source.new) }
    ensures write { result ≡ JudgeEnd.WriteFault → Rose (K.faults sink.old) (K.faults sink.new) }
{
    match decide(alloc, source) {
        Err(_) => JudgeEnd::NoMemory,
        Ok(verdict) => tell(alloc, sink, &verdict),
    }
}
