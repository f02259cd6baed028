mod again;
mod calls;
mod devices;
mod gates;
mod texts;

use gz_io::{Buffered, FreeGate, MemSink, MemSource, Sink};
use std::alloc::Global;
use std::process::Abort;
use std::sync::Wait;
use std::test::Fail;
use std::thread::Threads;
use trace_cli::{Exit, Thresholds, replay};

// The lines of a trace, each with the lines that answer it.
type Row = &'static [(&'static str, &'static str)];

// A gray key of a black map, and its value. No line of it begins with another line of the language.
const GRAY_KEY: Row = &[
    ("zone\n", "zone 0\n"),
    ("comp 0\n", "comp 0\n"),
    ("map r0 0\n", "cell 0\n"),
    ("new r1 0 0\n", "cell 1\n"),
    ("new r2 0 0\n", "cell 2\n"),
    ("put r0 r1 r2\n", "ok\n"),
    ("hold g0 r1\n", "ok\n"),
    ("drop r1\n", "ok\n"),
    ("drop r2\n", "ok\n"),
    (
        "collect 0\n",
        "started\ngroups 0\nended 0 gray 1 2\nswept 0 -\ndone\ncollected\n",
    ),
    ("expose r1 g0\n", "1\n"),
    ("colours\n", "gray -\n"),
    ("find r3 r0 r1\n", "2\n"),
];

// A gray object leads to another zone, and is exposed while its own arena is out.
const GRAY_OBJECT: Row = &[
    ("zone\n", "zone 0\n"),
    ("zone\n", "zone 1\n"),
    ("comp 0\n", "comp 0\n"),
    ("comp 1\n", "comp 1\n"),
    ("new r0 0 1\n", "cell 0\n"),
    ("new r1 1 0\n", "cell 1\n"),
    ("wrap r2 r1 0\n", "0:1\n"),
    ("set r0 0 r2\n", "ok\n"),
    ("hold g0 r0\n", "ok\n"),
    ("drop r0\n", "ok\n"),
    ("drop r1\n", "ok\n"),
    ("drop r2\n", "ok\n"),
    ("gc 0 1\n", "gc ok\n"),
    ("slice 1\n", "slice 1\n"),
    ("slice 1\n", "slice 1\n"),
    ("slice 1\n", "started\nslice 1\n"),
    ("slice 1\n", "slice 1\n"),
    ("slice 1\n", "slice 1\n"),
    ("slice 1\n", "groups 0 | 1\nslice 1\n"),
    ("slice 1\n", "slice 1\n"),
    ("slice 1\n", "slice 1\n"),
    ("slice 1\n", "slice 1\n"),
    ("slice 1\n", "slice 1\n"),
    ("slice 1\n", "ended 0 gray 0 0:1\nslice 1\n"),
    ("expose r0 g0\n", "0\n"),
    (
        "finish\n",
        "swept 0 -\nended 1 gray -\nswept 1 -\ndone\nslice 6\n",
    ),
    ("colours\n", "gray -\n"),
];

// A gray ring over two zones, the arenas of which are out at once.
const GRAY_RING: Row = &[
    ("zone\n", "zone 0\n"),
    ("zone\n", "zone 1\n"),
    ("comp 0\n", "comp 0\n"),
    ("comp 1\n", "comp 1\n"),
    ("new r0 0 1\n", "cell 0\n"),
    ("new r1 1 1\n", "cell 1\n"),
    ("wrap r2 r1 0\n", "0:1\n"),
    ("set r0 0 r2\n", "ok\n"),
    ("wrap r3 r0 1\n", "1:0\n"),
    ("set r1 0 r3\n", "ok\n"),
    ("hold g0 r0\n", "ok\n"),
    ("drop r0\n", "ok\n"),
    ("drop r1\n", "ok\n"),
    ("drop r2\n", "ok\n"),
    ("drop r3\n", "ok\n"),
    ("gc 0 1\n", "gc ok\n"),
    (
        "finish\n",
        "started\ngroups 0 1\nended 0 1 gray 0 1 0:1 1:0\nswept 0 -\nswept 1 -\ndone\nslice 17\n",
    ),
    ("zone\n", "zone 2\n"),
];

const ROWS: [Row; 2] = [GRAY_KEY, GRAY_OBJECT];

// How many helpers sweep: none, or two beside main. Each table is a test for either, as a test has a minute.
const ALONE: &str = "0";

const BESIDE: &str = "2";

// Each arena that is out may have a helper of its own, so that as many start as the words ask for, and two markers
// share any two cells.
const THRESHOLDS: Thresholds = Thresholds {
    arenas_a_helper: 1,
    cells_for_two: 1,
};

// The lines of a row, one after the other.
fn trace_of(alloc: Global, row: Row) -> Result<Vec<u8>, Fail> {
    let mut bytes = Vec::new(alloc);
    for pair in row {
        bytes.extend_from_slice(pair.0.as_bytes())?;
    }
    Ok(bytes)
}

// The answers of a row, one after the other.
fn answers_of(alloc: Global, row: Row) -> Result<Vec<u8>, Fail> {
    let mut bytes = Vec::new(alloc);
    for pair in row {
        bytes.extend_from_slice(pair.1.as_bytes())?;
    }
    Ok(bytes)
}

// How a replay ended, and how many of the answers' bytes were written; None if other bytes were.
fn outcome(exit: Exit, written: &[u8], answers: &[u8]) -> Option<(Exit, usize)> {
    if !answers.starts_with(written) {
        return None;
    }
    Some((exit, written.len()))
}

// Does what the words ask for, with this source and sink.
fn replay_in_memory<R: Threads + Wait + Sync, K: Sink + Send>(
    rt: &R,
    alloc: Global,
    words: &[&str],
    source: &mut MemSource<'_>,
    sink: &mut K,
) -> Exit {
    replay(rt, alloc, words, THRESHOLDS, source, sink, &FreeGate)
}

// Replays a trace in pieces of one byte, where these calls of the source and of the sink fail.
fn run<R: Threads + Wait + Sync>(
    rt: &R,
    alloc: Global,
    helpers: &str,
    (trace, answers): (&[u8], &[u8]),
    (reads, writes): (&[u64], &[u64]),
) -> Option<(Exit, usize)> {
    let mut source = MemSource::new(trace, 1, reads);
    let mut sink = MemSink::new(Vec::new(alloc), 1, writes);
    let words = ["gczone", "run", "--helpers", helpers];
    let exit = replay_in_memory(rt, alloc, &words, &mut source, &mut sink);
    outcome(exit, sink.bytes(), answers)
}

// Replays a trace as `run` does, through a sink that holds bytes back until more input is asked for.
fn run_held_back<R: Threads + Wait + Sync>(
    rt: &R,
    alloc: Global,
    helpers: &str,
    (trace, answers): (&[u8], &[u8]),
    (reads, writes): (&[u64], &[u64]),
) -> Option<(Exit, usize)> {
    let mut source = MemSource::new(trace, 1, reads);
    let mut sink = Buffered::new(MemSink::new(Vec::new(alloc), 1, writes));
    let words = ["gczone", "run", "--helpers", helpers];
    let exit = replay_in_memory(rt, alloc, &words, &mut source, &mut sink);
    outcome(exit, sink.inner().bytes(), answers)
}

// Fails these calls of the source and of the sink, through both kinds of sink.
fn check_end<R: Abort + Threads + Wait + Sync>(
    rt: &R,
    alloc: Global,
    helpers: &str,
    texts: (&[u8], &[u8]),
    calls: (&[u64], &[u64]),
    wanted: Option<(Exit, usize)>,
) {
    let (reads, writes) = calls;
    assert_eq!(rt;
        run(rt, alloc, helpers, texts, calls),
        wanted,
        "reads {reads:?}, writes {writes:?}"
    );
    assert_eq!(rt;
        run_held_back(rt, alloc, helpers, texts, calls),
        wanted,
        "held back, reads {reads:?}, writes {writes:?}"
    );
}

// How many bytes the replies to the lines have that end within this number of bytes.
fn answered(row: Row, taken: usize) -> usize {
    let mut left = taken;
    let mut bytes = 0usize;
    for pair in row {
        if left < pair.0.len() {
            return bytes;
        }
        left -= pair.0.len();
        bytes = bytes.saturating_add(pair.1.len());
    }
    bytes
}

// How a replay of this number of bytes of a row ends, no line of which begins with another line of the
// language, and how many bytes answer them. The last line may be without its line feed.
fn end_of_prefix(row: Row, taken: usize) -> (Exit, usize) {
    let mut left = taken;
    let mut lines = 0u64;
    let mut bytes = 0usize;
    for pair in row {
        if left == 0 {
            return (Exit::Done, bytes);
        }
        lines = lines.saturating_add(1);
        if left.saturating_add(1) < pair.0.len() {
            return (Exit::BadLine(lines), bytes);
        }
        left = left.saturating_sub(pair.0.len());
        bytes = bytes.saturating_add(pair.1.len());
    }
    (Exit::Done, bytes)
}

// How a replay ends where the source fails if it is asked again once it told its end. It is asked again after a last
// line without its line feed.
fn end_if_asked_again(row: Row, taken: usize, cut: bool) -> (Exit, usize) {
    match end_of_prefix(row, taken) {
        (Exit::Done, bytes) if cut => (Exit::ReadFault, bytes),
        end => end,
    }
}

// Fails each call of the source in turn, up to the first that is not made.
fn check_reads<R: Abort + Threads + Wait + Sync>(
    rt: &R,
    alloc: Global,
    helpers: &str,
    row: Row,
) -> Result<(), Fail> {
    let (trace, answers) = (trace_of(alloc, row)?, answers_of(alloc, row)?);
    let texts = (trace.as_slice(), answers.as_slice());
    for taken in 0..=trace.len() {
        let wanted = Some((Exit::ReadFault, answered(row, taken)));
        let calls: (&[u64], &[u64]) = (&[taken as u64], &[]);
        check_end(rt, alloc, helpers, texts, calls, wanted);
    }
    let past = (trace.len() as u64).saturating_add(1);
    let wanted = Some((Exit::Done, answers.len()));
    assert_eq!(rt; run(rt, alloc, helpers, texts, (&[past], &[])), wanted);
    Ok(())
}

// Fails each call of the sink in turn, up to the first that is not made.
fn check_writes<R: Abort + Threads + Wait + Sync>(
    rt: &R,
    alloc: Global,
    helpers: &str,
    row: Row,
) -> Result<(), Fail> {
    let (trace, answers) = (trace_of(alloc, row)?, answers_of(alloc, row)?);
    let texts = (trace.as_slice(), answers.as_slice());
    for written in 0..answers.len() {
        let wanted = Some((Exit::WriteFault, written));
        let calls: (&[u64], &[u64]) = (&[], &[written as u64]);
        check_end(rt, alloc, helpers, texts, calls, wanted);
    }
    let past = answers.len() as u64;
    let wanted = Some((Exit::Done, answers.len()));
    assert_eq!(rt; run(rt, alloc, helpers, texts, (&[], &[past])), wanted);
    Ok(())
}

#[test]
fn every_read_fails_in_turn(rt: HostRuntime) -> Result<(), Fail> {
    for row in ROWS {
        check_reads(&rt, rt.alloc(), ALONE, row)?;
    }
    Ok(())
}

#[test]
fn every_read_fails_in_turn_beside_helpers(rt: HostRuntime) -> Result<(), Fail> {
    for row in ROWS {
        check_reads(&rt, rt.alloc(), BESIDE, row)?;
    }
    Ok(())
}

#[test]
fn every_write_fails_in_turn(rt: HostRuntime) -> Result<(), Fail> {
    for row in ROWS {
        check_writes(&rt, rt.alloc(), ALONE, row)?;
    }
    Ok(())
}

#[test]
fn every_write_fails_in_turn_beside_helpers(rt: HostRuntime) -> Result<(), Fail> {
    for row in ROWS {
        check_writes(&rt, rt.alloc(), BESIDE, row)?;
    }
    Ok(())
}

#[test]
fn every_write_fails_while_two_arenas_are_out(rt: HostRuntime) -> Result<(), Fail> {
    check_writes(&rt, rt.alloc(), ALONE, GRAY_RING)
}

#[test]
fn every_write_fails_while_two_helpers_sweep(rt: HostRuntime) -> Result<(), Fail> {
    check_writes(&rt, rt.alloc(), BESIDE, GRAY_RING)
}

#[test]
fn every_prefix_ends_as_its_last_line_says(rt: HostRuntime) -> Result<(), Fail> {
    let trace = trace_of(rt.alloc(), GRAY_KEY)?;
    let answers = answers_of(rt.alloc(), GRAY_KEY)?;
    for taken in 0..=trace.len() {
        let texts = (&trace[..taken], answers.as_slice());
        let wanted = Some(end_of_prefix(GRAY_KEY, taken));
        assert_eq!(rt;
            run(&rt, rt.alloc(), ALONE, texts, (&[], &[])),
            wanted,
            "{taken} bytes"
        );
        let cut = texts.0.last().is_some_and(|byte| *byte != b'\n');
        let wanted = Some(end_if_asked_again(GRAY_KEY, taken, cut));
        let past = (taken as u64).saturating_add(1);
        assert_eq!(rt;
            run(&rt, rt.alloc(), ALONE, texts, (&[past], &[])),
            wanted,
            "{taken} bytes, and a failure"
        );
    }
    Ok(())
}

// A dump, and the verdict on it.
const DUMP: &[u8] = b"cell 0 b\nend\n";

const VERDICT: &[u8] = b"ok 1 0 0\n";

// Checks the dump in pieces of one byte, where these calls of the source and of the sink fail.
fn check_dump<R: Threads + Wait + Sync>(
    rt: &R,
    alloc: Global,
    (reads, writes): (&[u64], &[u64]),
) -> Option<(Exit, usize)> {
    let mut source = MemSource::new(DUMP, 1, reads);
    let mut sink = MemSink::new(Vec::new(alloc), 1, writes);
    let words = ["gczone", "check"];
    let exit = replay_in_memory(rt, alloc, &words, &mut source, &mut sink);
    outcome(exit, sink.bytes(), VERDICT)
}

#[test]
fn a_check_fails_with_its_devices(rt: HostRuntime) -> Result<(), Fail> {
    for taken in 0..=DUMP.len() as u64 {
        let found = check_dump(&rt, rt.alloc(), (&[taken], &[]));
        assert_eq!(rt; found, Some((Exit::ReadFault, 0)), "{taken} bytes");
    }
    for written in 0..VERDICT.len() {
        let found = check_dump(&rt, rt.alloc(), (&[], &[written as u64]));
        assert_eq!(rt; found, Some((Exit::WriteFault, written)));
    }
    assert_eq!(rt;
        check_dump(&rt, rt.alloc(), (&[], &[])),
        Some((Exit::Done, VERDICT.len()))
    );
    Ok(())
}
