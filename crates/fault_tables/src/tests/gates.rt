// Helpers and markers that a gate holds up: they sweep what is printed, and mark, as many as the words ask for, and
// what is written does not depend on them.
ghost use Rattle.std.specs.Prelude.{None};

use crate::tests::THRESHOLDS;
use gz_io::{Failed, Gate, MemSink, MemSource, Point, Sink};
use std::alloc::Global;
use std::process::Abort;
use std::sync::Wait;
use std::sync::atomic::AtomicU64;
use std::sync::atomic::Ordering::SeqCst;
use std::test::Fail;
use std::thread::{Threads, yield_now};
use trace_cli::{Exit, replay};

// The words that ask for a replay beside some helpers.
const BESIDE: [[&str; 4]; 4] = [
    ["gczone", "run", "--helpers", "0"],
    ["gczone", "run", "--helpers", "1"],
    ["gczone", "run", "--helpers", "2"],
    ["gczone", "run", "--helpers", "4"],
];

// A gray cell's arena is out while it is exposed: it is turned black there, and stays.
const WAKE: &[u8] = b"zone\ncomp 0\nnew r0 0 0\nhold g0 r0\ndrop r0\ngc 0\n\
    slice 1\nslice 1\nslice 1\nslice 1\nslice 1\nslice 1\nslice 1\nexpose r0 g0\nnew r1 0 0\ndrop r1\ncolours\n\
    finish\ncolours\ncollect 0\n";

const WAKE_ANSWERS: &[u8] = b"zone 0\ncomp 0\ncell 0\nok\nok\ngc ok\n\
    slice 1\nstarted\nslice 1\n\
    groups 0\nslice 1\nslice 1\nslice 1\nslice 1\nended 0 gray 0\nslice 1\n0\ncell 1\nok\ngray -\n\
    swept 0 -\ndone\nslice 1\ngray -\n\
    started\ngroups 0\nended 0 gray -\nswept 0 -\nswept 1 1\ndone\ncollected\n";

// The line of `WAKE_ANSWERS`, counted from 1, that answers `expose`.
const EXPOSED: u64 = 17;

// A ring over four zones that nothing holds. The slice ends with the group of all four, whose arenas are out then.
const RING: &[u8] = b"zone\nzone\nzone\nzone\ncomp 0\ncomp 1\ncomp 2\ncomp 3\n\
    new r0 0 1\nnew r1 1 1\nnew r2 2 1\nnew r3 3 1\n\
    wrap r4 r1 0\nset r0 0 r4\nwrap r4 r2 1\nset r1 0 r4\nwrap r4 r3 2\nset r2 0 r4\nwrap r4 r0 3\nset r3 0 r4\n\
    drop r0\ndrop r1\ndrop r2\ndrop r3\ndrop r4\n\
    gc 0 1 2 3\nslice 18\ncolours\nfinish\n";

const RING_ANSWERS: &[u8] = b"zone 0\nzone 1\nzone 2\nzone 3\ncomp 0\ncomp 1\ncomp 2\ncomp 3\n\
    cell 0\ncell 1\ncell 2\ncell 3\n0:1\nok\n1:2\nok\n2:3\nok\n3:0\nok\nok\nok\nok\nok\nok\ngc ok\n\
    started\ngroups 0 1 2 3\nended 0 1 2 3 gray -\nslice 18\ngray -\n\
    swept 0 0 0:1\nswept 1 1 1:2\nswept 2 2 2:3\nswept 3 3 3:0\ndone\nslice 4\n";

// The line of `RING_ANSWERS`, counted from 1, that answers `colours`.
const LISTED: u64 = 31;

// Two objects that registers hold, with one child each, and a third object that nothing holds.
const TWO_PARENTS: &[u8] =
    b"zone\ncomp 0\nnew r0 0 1\nnew r1 0 1\nnew r2 0 0\nset r0 0 r2\nnew r2 0 0\nset r1 0 r2\n\
    new r2 0 0\ndrop r2\ncollect 0\n";

const TWO_PARENTS_ANSWERS: &[u8] =
    b"zone 0\ncomp 0\ncell 0\ncell 1\ncell 2\nok\ncell 3\nok\ncell 4\nok\n\
    started\ngroups 0\nended 0 gray -\nswept 0 4\ndone\ncollected\n";

// A gate that yields often.
struct SlowGate;

impl Gate for SlowGate {
    fn at(&self, _point: Point, _arena: u32) {
        for _ in 0..1_000 {
            yield_now();
        }
    }
}

// Replays a trace beside helpers that yield often.
fn check_slow<R: Abort + Threads + Wait + Sync>(
    rt: &R,
    alloc: Global,
    words: &[&str],
    (trace, answers): (&[u8], &[u8]),
) {
    let mut source = MemSource::new(trace, 64, &[]);
    let mut sink = MemSink::new(Vec::new(alloc), 64, &[]);
    let ended = replay(
        rt,
        alloc,
        words,
        THRESHOLDS,
        &mut source,
        &mut sink,
        &SlowGate,
    );
    assert_eq!(rt; ended, Exit::Done);
    assert_eq!(rt; sink.bytes(), answers);
}

#[test]
fn helpers_may_be_slow(rt: HostRuntime) -> Result<(), Fail> {
    for words in &BESIDE {
        check_slow(&rt, rt.alloc(), words, (WAKE, WAKE_ANSWERS));
        check_slow(&rt, rt.alloc(), words, (RING, RING_ANSWERS));
    }
    Ok(())
}

// Where main and the helper that claimed the arena meet.
#[derive(Drop)]
struct Meeting {
    arrived: AtomicU64,
    answered: AtomicU64,
    returned: AtomicU64,
    gave_up: AtomicU64,
}

impl Meeting {
    fn new() -> Self {
        Meeting {
            arrived: AtomicU64::new(0),
            answered: AtomicU64::new(0),
            returned: AtomicU64::new(0),
            gave_up: AtomicU64::new(0),
        }
    }

    fn wait_for(&self, word: &AtomicU64) {
        for _ in 0..1_000_000 {
            if word.load(SeqCst) == 1 {
                return;
            }
            yield_now();
        }
        self.gave_up.store(1, SeqCst);
    }
}

impl Gate for Meeting {
    fn at(&self, _point: Point, _arena: u32) {
        if self.arrived.swap(1, SeqCst) == 1 {
            return;
        }
        self.wait_for(&self.answered);
        for _ in 0..100_000 {
            yield_now();
        }
        self.returned.store(1, SeqCst);
    }
}

// A sink that meets the helper at the answer to `expose`, and notes at the first `swept` whether the
// helper had returned by then.
#[derive(Drop)]
struct Watch<'m> {
    meeting: &'m Meeting,
    lines: u64,
    // How many bytes of the line were written, and whether it begins with an s.
    len: u64,
    is_s: bool,
    swept: Option<u64>,
}

impl<'m> Watch<'m> {
    fn look(&mut self, byte: u8) {
        if byte == b'\n' {
            self.lines = self.lines.saturating_add(1);
            self.len = 0;
            if self.lines == EXPOSED {
                self.meeting.wait_for(&self.meeting.arrived);
                self.meeting.answered.store(1, SeqCst);
            }
            return;
        }
        if self.len == 0 {
            self.is_s = byte == b's';
        }
        if self.len == 1 && self.is_s && byte == b'w' && self.swept.is_none() {
            self.swept = Some(self.meeting.returned.load(SeqCst));
        }
        self.len = self.len.saturating_add(1);
    }
}

impl<'m> Sink for Watch<'m> {
    ghost written = { λ _. None };

    ghost faults = { λ _. 0 };

    ghost behind = { λ _. 0 };

    fn put(&mut self, piece: &[u8]) -> Result<usize, Failed> {
        for byte in piece {
            self.look(*byte);
        }
        Ok(piece.len())
    }

    fn flush(&mut self) -> Result<(), Failed> {
        Ok(())
    }
}

// Replays beside helpers, the first of which meets main between its claim and its loads: main answers `expose`
// meanwhile, and prints what the helper has swept.
fn check_meeting<R: Abort + Threads + Wait + Sync>(rt: &R, alloc: Global, words: &[&str]) {
    let meeting = Meeting::new();
    let mut source = MemSource::new(WAKE, 64, &[]);
    let mut watch = Watch {
        meeting: &meeting,
        lines: 0,
        len: 0,
        is_s: false,
        swept: None,
    };
    let ended = replay(
        rt,
        alloc,
        words,
        THRESHOLDS,
        &mut source,
        &mut watch,
        &meeting,
    );
    assert_eq!(rt; ended, Exit::Done);
    assert_eq!(rt; watch.swept, Some(1));
    assert_eq!(rt; meeting.gave_up.load(SeqCst), 0);
}

#[test]
fn a_helper_sweeps_what_is_printed(rt: HostRuntime) -> Result<(), Fail> {
    for words in &BESIDE[1..] {
        check_meeting(&rt, rt.alloc(), words);
    }
    Ok(())
}

// A gate at which each caller waits until this number of them were there, or gives up.
#[derive(Drop)]
struct AllMeet {
    wanted: u64,
    arrived: AtomicU64,
    gave_up: AtomicU64,
}

impl AllMeet {
    fn new(wanted: u64) -> Self {
        AllMeet {
            wanted,
            arrived: AtomicU64::new(0),
            gave_up: AtomicU64::new(0),
        }
    }

    fn wait_for_all(&self) {
        for _ in 0..1_000_000 {
            if self.arrived.load(SeqCst) >= self.wanted {
                return;
            }
            yield_now();
        }
        self.gave_up.store(1, SeqCst);
    }
}

impl Gate for AllMeet {
    fn at(&self, _point: Point, _arena: u32) {
        self.arrived.fetch_add(1, SeqCst);
        self.wait_for_all();
    }
}

// A sink that waits at the answer to `colours`, behind the end of the group, until four helpers are at the gate.
#[derive(Drop)]
struct WaitForFour<'m> {
    meeting: &'m AllMeet,
    lines: u64,
}

impl<'m> WaitForFour<'m> {
    fn end_line(&mut self) {
        self.lines = self.lines.saturating_add(1);
        if self.lines == LISTED {
            self.meeting.wait_for_all();
        }
    }
}

impl<'m> Sink for WaitForFour<'m> {
    ghost written = { λ _. None };

    ghost faults = { λ _. 0 };

    ghost behind = { λ _. 0 };

    fn put(&mut self, piece: &[u8]) -> Result<usize, Failed> {
        for byte in piece {
            if *byte == b'\n' {
                self.end_line();
            }
        }
        Ok(piece.len())
    }

    fn flush(&mut self) -> Result<(), Failed> {
        Ok(())
    }
}

// No helper leaves the gate before four are there, and main takes no arena in before that: so four helpers sweep at
// once, an arena each.
#[test]
fn four_helpers_sweep_at_once(rt: HostRuntime) -> Result<(), Fail> {
    let meeting = AllMeet::new(4);
    let mut source = MemSource::new(RING, 64, &[]);
    let mut sink = WaitForFour {
        meeting: &meeting,
        lines: 0,
    };
    let ended = replay(
        &rt,
        rt.alloc(),
        &BESIDE[3],
        THRESHOLDS,
        &mut source,
        &mut sink,
        &meeting,
    );
    assert_eq!(rt; ended, Exit::Done);
    assert_eq!(rt; meeting.gave_up.load(SeqCst), 0);
    assert_eq!(rt; meeting.arrived.load(SeqCst), 4);
    Ok(())
}

// Each child is a try of one marker, and no marker tries it before the other one is at the gate.
#[test]
fn two_markers_mark_at_once(rt: HostRuntime) -> Result<(), Fail> {
    let words = ["gczone", "run", "--helpers", "0", "--markers", "2"];
    let meeting = AllMeet::new(2);
    let mut source = MemSource::new(TWO_PARENTS, 64, &[]);
    let mut sink = MemSink::new(Vec::new(rt.alloc()), 64, &[]);
    let ended = replay(
        &rt,
        rt.alloc(),
        &words,
        THRESHOLDS,
        &mut source,
        &mut sink,
        &meeting,
    );
    assert_eq!(rt; ended, Exit::Done);
    assert_eq!(rt; sink.bytes(), TWO_PARENTS_ANSWERS);
    assert_eq!(rt; meeting.gave_up.load(SeqCst), 0);
    assert_eq!(rt; meeting.arrived.load(SeqCst), 2);
    Ok(())
}
