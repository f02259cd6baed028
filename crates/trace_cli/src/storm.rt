// The replay of a generated trace, and its summary.
ghost use Rattle.std.specs.Prelude.{◌≡◌, ◌≢◌, ◌<◌, None, IfErr, IfOk, Ok, length};
ghost use Rattle.gz_io.specs.Causes.{Rose};
ghost use Rattle.trace_cli.specs.Standing.{IsNew};
ghost use Rattle.trace_cli.specs.Storms.{IsLeftByStorm, IsSummary, StopsStorm, Storms, summary_text};

use crate::exit::Exit;
use crate::lines::end_so;
use crate::machine::Machine;
use crate::reading::{Resources, answer_all};
use cell_bits::NoFlight;
use gz_io::{Failed, Gate, Sink, write_all};
use gz_names::NoMemory;
use itoa::Buffer;
use slice_driver::Collector;
use std::alloc::Global;
use std::sync::Wait;
use std::sync::ledger::{Blank, Ledger};
use std::thread::Threads;
use storm_source::StormSource;

// A sink that drops what is written.
#[derive(Drop)]
pub struct NullSink;

impl Sink for NullSink {
    ghost written = { λ _. None };

    ghost faults = { λ _. 0 };

    ghost behind = { λ _. 0 };

    fn put(&mut self, piece: &[u8]) -> Result<usize, Failed>
        ensures { result ≡ Ok (length piece.now) }
    {
        Ok(piece.len())
    }

    fn flush(&mut self) -> Result<(), Failed> {
        Ok(())
    }
}

// What a storm leaves.
#[derive(Clone, Copy, Debug, PartialEq, Eq)]
pub struct Summary {
    pub seed: u32,
    pub lines: u32,
    /// How many objects and maps were made.
    pub cells: u64,
    /// How many cells are present.
    pub kept: u64,
    /// How many of these are gray.
    pub gray: u64,
}

// The four lines.
fn summary_text(alloc: Global, summary: &Summary) -> Result<Vec<u8>, NoMemory>
    ensures { IfOk result (λ text. text.items ≡ summary_text summary.now) }
{
    let mut digits = Buffer::new();
    let mut text = Vec::new(alloc);
    text.extend_from_slice(b"storm ")?;
    text.extend_from_slice(digits.format(summary.seed).as_bytes())?;
    text.extend_from_slice(b" ")?;
    text.extend_from_slice(digits.format(summary.lines).as_bytes())?;
    text.extend_from_slice(b"\ncells ")?;
    text.extend_from_slice(digits.format(summary.cells).as_bytes())?;
    text.extend_from_slice(b"\nkept ")?;
    text.extend_from_slice(digits.format(summary.kept).as_bytes())?;
    text.extend_from_slice(b"\ngray ")?;
    text.extend_from_slice(digits.format(summary.gray).as_bytes())?;
    text.extend_from_slice(b"\n")?;
    Ok(text)
}

// What a collector tells after a storm.
fn summary_of(alloc: Global, seed: u32, lines: u32, collector: &Collector) -> Result<Summary, Exit>
    requires { IsLeftByStorm seed lines collector.now }
    ensures ok { IfOk result (IsSummary seed lines) }
    ensures err { IfErr result (StopsStorm lines) }
{
    let Ok(gray) = collector.gray_names(alloc, &mut NoFlight) else {
        return Err(Exit::NoMemory);
    };
    Ok(Summary {
        seed,
        lines,
        cells: collector.objects(),
        kept: collector.present(),
        gray: gray.as_slice().len() as u64,
    })
}

// Replies to each line of a storm, drops the answers, and tells what is left: its last collection is over then, and no
// arena is out.
fn run_storm<L: Ledger + Send, R: Threads + Wait + Sync, G: Gate + Sync>(
    resources: &Resources<'_, R, G>,
    machine: &mut Machine,
    seed: u32,
    lines: u32,
    blank: Blank,
) -> Result<Summary, Exit>
    requires ledger { (blank.name ≡ L.name) × (blank.parts ≡ L.parts) × (0 < blank.parts) }
    requires new { IsNew machine.old }
    ensures ok { IfOk result (IsSummary seed lines) }
    ensures err { IfErr result (StopsStorm lines) }
{
    let mut source = StormSource::new(seed, lines);
    let mut sink = NullSink;
    match answer_all::<L, R, StormSource, NullSink, G>(
        resources,
        machine,
        &mut source,
        &mut sink,
        blank,
    ) {
        Exit::Done => summary_of(resources.alloc, seed, lines, &machine.collector),
        exit => Err(exit),
    }
}

// The summary of a storm that a new collector answers.
fn sum_up<L: Ledger + Send, R: Threads + Wait + Sync, G: Gate + Sync>(
    resources: &Resources<'_, R, G>,
    seed: u32,
    lines: u32,
    blank: Blank,
) -> Result<Summary, Exit>
    requires ledger { (blank.name ≡ L.name) × (blank.parts ≡ L.parts) × (0 < blank.parts) }
    ensures ok { IfOk result (IsSummary seed lines) }
    ensures err { IfErr result (StopsStorm lines) }
{
    let Ok(mut machine) = Machine::new(resources.alloc) else {
        return Err(Exit::NoMemory);
    };
    let summary = run_storm::<L, R, G>(resources, &mut machine, seed, lines, blank);
    drop(machine);
    summary
}

/// Replays the trace of a storm, drops the answers, and writes its summary.
pub fn answer_storm<L: Ledger + Send, R: Threads + Wait + Sync, K: Sink, G: Gate + Sync>(
    resources: &Resources<'_, R, G>,
    seed: u32,
    lines: u32,
    sink: &mut K,
    blank: Blank,
) -> Exit
    requires ledger { (blank.name ≡ L.name) × (blank.parts ≡ L.parts) × (0 < blank.parts) }
    ensures storm { Storms seed lines (K.written sink.old) (K.written sink.new) result }
    ensures quiet { result ≡ Exit.Done → K.faults sink.new ≡ K.faults sink.old }
    ensures handed_on { result ≢ Exit.WriteFault → K.behind sink.new ≡ 0 }
    ensures write { result ≡ Exit.WriteFault → Rose (K.faults sink.old) (K.faults sink.new) }
{
    let summary = match sum_up::<L, R, G>(resources, seed, lines, blank) {
        Ok(summary) => summary,
        Err(exit) => return end_so(sink, exit),
    };
    let Ok(text) = summary_text(resources.alloc, &summary) else {
        return end_so(sink, Exit::NoMemory);
    };
    match write_all(sink, text.as_slice()) {
        Ok(()) => end_so(sink, Exit::Done),
        Err(_) => Exit::WriteFault,
    }
}
