// A dump of colours is checked, and its verdict handed on.
ghost use Rattle.std.specs.Prelude.{◌≡◌, ◌≢◌, ◌⊎◌};
ghost use Rattle.gz_io.specs.Causes.{Rose};
ghost use Rattle.trace_cli.specs.Headline.{Checks, Concluded};

use crate::exit::Exit;
use crate::lines::end_so;
use dump_cli::{CheckEnd, check};
use gz_io::{Sink, Source};
use std::alloc::Global;

/// Reads a dump, and writes its verdict as one line.
pub fn check_dump<S: Source, K: Sink>(alloc: Global, source: &mut S, sink: &mut K) -> Exit
    ensures verdict { Checks (S.left source.old) (K.written sink.old) (K.written sink.new) result }
    ensures concludes { Concluded (S.left source.old) (S.faults source.old) (S.faults source.new) (K.faults sink.old)
        (K.faults sink.new) result }
    ensures quiet { (result ≡ Exit.Done) ⊎ (result ≡ Exit.Unsound) → (S.faults source.new ≡ S.faults source.old)
        × (K.faults sink.new ≡ K.faults sink.old) }
    ensures handed_on { (result ≡ Exit.Done) ⊎ (result ≡ Exit.Unsound) → K.behind sink.new ≡ 0 }
    ensures read { result ≡ Exit.ReadFault → Rose (S.faults source.old) (S.faults source.new) }
    ensures write { result ≡ Exit.WriteFault → Rose (K.faults sink.old) (K.faults sink.new) }
    ensures runs { result ≢ Exit.Usage }
{
    match check(alloc, source, sink) {
        CheckEnd::Sound => end_so(sink, Exit::Done),
        CheckEnd::Unsound => end_so(sink, Exit::Unsound),
        CheckEnd::BadLine(line) => Exit::BadLine(line),
        CheckEnd::ReadFault => Exit::ReadFault,
        CheckEnd::WriteFault => Exit::WriteFault,
        CheckEnd::NoMemory => Exit::NoMemory,
        CheckEnd::TooManyLines => Exit::TooManyLines,
    }
}
