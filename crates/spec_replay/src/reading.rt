// The reading loop.
ghost use Rattle.std.specs.Prelude.{◌≡◌, ◌↔◌, ◌⊎◌, ◌<◌, ◌-◌, ◌^◌, ℕ, IsTrue, List, Some};
ghost use Rattle.gz_io.specs.Causes.{Rose};
ghost use Rattle.spec_replay.specs.Answers.{EndsBy, IsTrace};

use crate::answer::{LineFault, answer_line};
use gz_io::{LineReader, Next, Sink, Source};
use plain_graph::Graph;
use std::alloc::Global;
use std::fmt::{self, Display, Formatter, Write};

/// How a replay ends (statuses are those of gczone).
#[derive(Clone, Copy, Debug, PartialEq, Eq)]
pub enum ReplayEnd {
    /// The input was read to its end, and every line has its reply.
    Done,
    /// This line, counted from 1, is no line of the language.
    BadLine(u64),
    ReadFault,
    WriteFault,
    NoMemory,
    /// 2^64 - 1 lines have their replies.
    TooManyLines,
}

impl ReplayEnd {
    pub fn is_done(self) -> bool
        ensures { IsTrue result ↔ (self ≡ ReplayEnd.Done) }
    {
        matches!(self, ReplayEnd::Done)
    }

    /// The status with which the program ends.
    pub fn status(self) -> u8 {
        match self {
            ReplayEnd::Done => 0,
            ReplayEnd::BadLine(_) => 3,
            ReplayEnd::ReadFault => 4,
            ReplayEnd::WriteFault => 5,
            ReplayEnd::NoMemory => 6,
            ReplayEnd::TooManyLines => 7,
        }
    }
}

/// The text on standard error; `Done` has none.
impl Display for ReplayEnd {
    fn fmt<W: Write>(&self, f: &mut Formatter<W>) -> fmt::Result {
        match self {
            ReplayEnd::Done => Ok(()),
            ReplayEnd::BadLine(line) => write!(f, "spec_replay: line {line}: bad line"),
            ReplayEnd::ReadFault => f.write_str("spec_replay: read failed"),
            ReplayEnd::WriteFault => f.write_str("spec_replay: write failed"),
            ReplayEnd::NoMemory => f.write_str("spec_replay: out of memory"),
            ReplayEnd::TooManyLines => f.write_str("spec_replay: too many lines"),
        }
    }
}

/// Answers each line of a trace by the specification, on a new graph. It comes to the end of a trace of fewer than
/// 2^64 - 1 lines, all of the language, unless memory runs out or a count of faults rises.
pub fn replay<S: Source, K: Sink>(alloc: Global, source: &mut S, sink: &mut K) -> ReplayEnd
    ensures answers { (input : List ℕ) → S.left source.old ≡ Some input
        → EndsBy input (S.left source.new) (K.written sink.old) (K.written sink.new) result }
    ensures complete { (input : List ℕ) (lines : ℕ) → S.left source.old ≡ Some input → IsTrace lines input
        → lines < 2 ^ 64 - 1
        → (Rose (S.faults source.old) (S.faults source.new) → ⊥)
        → (Rose (K.faults sink.old) (K.faults sink.new) → ⊥)
        → (result ≡ ReplayEnd.Done) ⊎ (result ≡ ReplayEnd.NoMemory) }
    ensures read { result ≡ ReplayEnd.ReadFault → Rose (S.faults source.old) (S.faults source.new) }
    ensures write { result ≡ ReplayEnd.WriteFault → Rose (K.faults sink.old) (K.faults sink.new) }
{
    let mut reader = LineReader::new();
    let mut graph = Graph::new(alloc);
    for answered in 0..u64::MAX {
        match reader.next(source) {
            Next::ReadFault => return ReplayEnd::ReadFault,
            Next::End => return ReplayEnd::Done,
            Next::TooLong | Next::NotAscii => return ReplayEnd::BadLine(answered + 1),
            Next::Line(_) => {}
        }
        match answer_line(alloc, &mut graph, reader.line(), sink) {
            Ok(()) => {}
            Err(LineFault::Bad) => return ReplayEnd::BadLine(answered + 1),
            Err(LineFault::Memory) => return ReplayEnd::NoMemory,
            Err(LineFault::Write) => return ReplayEnd::WriteFault,
        }
    }
    ReplayEnd::TooManyLines
}
