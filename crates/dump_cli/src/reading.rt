// The reading loop.
ghost use Rattle.std.specs.Prelude.{◌≡◌, ◌<◌, ◌↔◌, ◌⊎◌, List, ℕ, Some, Err, IfOk, IsTrue, OnOk};
ghost use Rattle.gz_io.specs.Causes.{Rose};
ghost use Rattle.dump_cli.specs.Verdicts.{EndsBy, HasTooMany, IsJudged, IsUndecided, IsUnjudged, IsVerdictOn};
ghost use Rattle.dump_cli.specs.Verdicts.{IsWellFormed, refusal_after};

use crate::verdicts::verdict_text;
use dump_check::{Checker, Verdict};
use gz_io::{LineReader, Next, Sink, Source, write_all};
use std::alloc::Global;
use std::fmt::{self, Display, Formatter, Write};

/// How a check ends (our choice).
#[derive(Clone, Copy, Debug, PartialEq, Eq)]
pub enum CheckEnd {
    /// The dump is sound, and its line was written.
    Sound,
    /// The dump has a fault, and the fault's line was written.
    Unsound,
    /// This line, counted from 1, is none of a dump; nothing was written.
    BadLine(u64),
    ReadFault,
    WriteFault,
    NoMemory,
    /// 4,294,967,295 lines gave no verdict, and there are more.
    TooManyLines,
}

impl CheckEnd {
    /// Whether a verdict's line was written.
    pub fn is_verdict(self) -> bool
        ensures { IsTrue result ↔ ((self ≡ CheckEnd.Sound) ⊎ (self ≡ CheckEnd.Unsound)) }
    {
        matches!(self, CheckEnd::Sound | CheckEnd::Unsound)
    }

    /// The status with which a program ends.
    pub fn status(self) -> u8 {
        match self {
            CheckEnd::Sound => 0,
            CheckEnd::BadLine(_) => 3,
            CheckEnd::ReadFault => 4,
            CheckEnd::WriteFault => 5,
            CheckEnd::NoMemory => 6,
            CheckEnd::TooManyLines => 7,
            CheckEnd::Unsound => 8,
        }
    }
}

/// The text on standard error; a verdict has none.
impl Display for CheckEnd {
    fn fmt<W: Write>(&self, f: &mut Formatter<W>) -> fmt::Result {
        match self {
            CheckEnd::Sound | CheckEnd::Unsound => Ok(()),
            CheckEnd::BadLine(line) => write!(f, "gczone: line {line}: bad line"),
            CheckEnd::ReadFault => f.write_str("gczone: read failed"),
            CheckEnd::WriteFault => f.write_str("gczone: write failed"),
            CheckEnd::NoMemory => f.write_str("gczone: out of memory"),
            CheckEnd::TooManyLines => f.write_str("gczone: too many lines"),
        }
    }
}

/// Why there is no verdict.
#[derive(Clone, Copy, Debug, PartialEq, Eq)]
pub enum NoVerdict {
    Read,
    Memory,
    TooManyLines,
}

// The verdict on a line that cannot be one of a dump, after this number of lines.
fn refusal(read: u64) -> Result<Verdict, NoVerdict>
    requires { read < 4294967296 }
    ensures { result ≡ refusal_after read }
{
    if read == 4294967295 {
        return Err(NoVerdict::TooManyLines);
    }
    Ok(Verdict::Bad(read + 1))
}

// The verdict on the dump that a source gives.
fn judge<S: Source>(alloc: Global, source: &mut S) -> Result<Verdict, NoVerdict>
    ensures verdict { (input : List ℕ) → S.left source.old ≡ Some input → IfOk result (IsVerdictOn input) }
    ensures many { result ≡ Err NoVerdict.TooManyLines → (input : List ℕ) → S.left source.old ≡ Some input
        → HasTooMany input }
    ensures judged { (input : List ℕ) → S.left source.old ≡ Some input → IsWellFormed input → IsJudged result }
    ensures unjudged { (input : List ℕ) → S.left source.old ≡ Some input → HasTooMany input → IsUnjudged result }
    ensures read { result ≡ Err NoVerdict.Read → Rose (S.faults source.old) (S.faults source.new) }
    ensures undecided { result ≡ Err NoVerdict.Read → (input : List ℕ) → S.left source.old ≡ Some input
        → IsUndecided input (S.left source.new) }
    ensures quiet { OnOk result (S.faults source.new ≡ S.faults source.old) }
{
    let mut reader = LineReader::new();
    let mut checker = Checker::new(alloc);
    for read in 0..4294967296u64 {
        match reader.next(source) {
            Next::ReadFault => return Err(NoVerdict::Read),
            Next::End => return Ok(checker.end()),
            Next::TooLong | Next::NotAscii => return refusal(read),
            Next::Line(_) => {}
        }
        if read == 4294967295 {
            return Err(NoVerdict::TooManyLines);
        }
        match checker.line(reader.line()) {
            Ok(None) => {}
            Ok(Some(verdict)) => return Ok(verdict),
            Err(_) => return Err(NoVerdict::Memory),
        }
    }
    Err(NoVerdict::TooManyLines)
}

/// Reads a dump, and writes its verdict as one line. Behind the line that decides nothing is read: a read can only fail
/// where none of the lines taken decides.
pub fn check<S: Source, K: Sink>(alloc: Global, source: &mut S, sink: &mut K) -> CheckEnd
    ensures verdict { (input : List ℕ) → S.left source.old ≡ Some input
        → EndsBy input (K.written sink.old) (K.written sink.new) result }
    ensures well_formed { (input : List ℕ) → S.left source.old ≡ Some input → IsWellFormed input
        → (Rose (S.faults source.old) (S.faults source.new) → ⊥)
        → (Rose (K.faults sink.old) (K.faults sink.new) → ⊥)
        → (result ≡ CheckEnd.Sound) ⊎ ((result ≡ CheckEnd.Unsound) ⊎ (result ≡ CheckEnd.NoMemory)) }
    ensures too_many { (input : List ℕ) → S.left source.old ≡ Some input → HasTooMany input
        → (result ≡ CheckEnd.TooManyLines) ⊎ ((result ≡ CheckEnd.ReadFault) ⊎ (result ≡ CheckEnd.NoMemory)) }
    ensures quiet { (result ≡ CheckEnd.Sound) ⊎ (result ≡ CheckEnd.Unsound)
        → (S.faults source.new ≡ S.faults source.old) × (K.faults sink.new ≡ K.faults sink.old) }
    ensures read { result ≡ CheckEnd.ReadFault → Rose (S.faults source.old) (S.faults source.new) }
    ensures undecided { result ≡ CheckEnd.ReadFault → (input : List ℕ) → S.left source.old ≡ Some input
        → IsUndecided input (S.left source.new) }
    ensures write { result ≡ CheckEnd.WriteFault → Rose (K.faults sink.old) (K.faults sink.new) }
{
    let verdict = match judge(alloc, source) {
        Ok(verdict) => verdict,
        Err(NoVerdict::Read) => return CheckEnd::ReadFault,
        Err(NoVerdict::Memory) => return CheckEnd::NoMemory,
        Err(NoVerdict::TooManyLines) => return CheckEnd::TooManyLines,
    };
    let end = match verdict {
        Verdict::Bad(line) => return CheckEnd::BadLine(line),
        Verdict::Sound(..) => CheckEnd::Sound,
        Verdict::Fault(..) => CheckEnd::Unsound,
    };
    let Ok(text) = verdict_text(alloc, verdict) else {
        return CheckEnd::NoMemory;
    };
    match write_all(sink, &text) {
        Ok(()) => end,
        Err(_) => CheckEnd::WriteFault,
    }
}
