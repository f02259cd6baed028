// Sources and sinks in memory. Two of them fail at chosen calls, so that a test can have every
// fault at every place; two never fail, and take no memory.
ghost use Rattle.std.specs.Prelude.{◌≡◌, ◌<◌, ◌≤◌, ◌+◌, ◌-◌, ◌^◌, ◌↔◌, ◌++◌, ℕ, [], Some, None, Contains, IfOk, IsOk};
ghost use Rattle.std.specs.Prelude.{IsErr, IsTrue, length, min, drop};
ghost use Rattle.std.specs.Io.{ReadsAtMost, WritesAtMost};
ghost use Rattle.std.specs.Io.KnownBytes.{ReadConsumes, WriteAppends, Keeps};
ghost use Rattle.gz_io.specs.Causes.{HasCause};
ghost use Rattle.gz_io.specs.Memory.{after_call};

use crate::outside::{Failed, Sink, Source};
use std::marker::Model;

/// The calls of a device in memory, of which chosen ones fail.
#[derive(Drop)]
struct Calls<'a> {
    failing: &'a [u64],
    made: u64,
    failed: u64,
}

impl<'a> Model for Calls<'a> {
    ghost use Rattle.gz_io.specs.Memory.{Script};

    ghost Value = { Script };

    ghost view = { λ c. record { failing = c.failing.now; calls = c.made; faults = c.failed } };
}

impl<'a> Calls<'a> {
    fn new(failing: &'a [u64]) -> Self
        ensures { result ≡ record { failing = failing.now; calls = 0; faults = 0 } }
    {
        Calls {
            failing,
            made: 0,
            failed: 0,
        }
    }

    fn fails_next(&self) -> bool
        ensures { IsTrue result ↔ Contains self.now.failing self.now.calls }
    {
        self.failing.contains(&self.made)
    }

    // Counts a call and hands on its answer.
    fn counted(&mut self, answer: Result<usize, Failed>) -> Result<usize, Failed>
        ensures answer { result ≡ answer }
        ensures script { self.new ≡ after_call self.old result }
        ensures cause { HasCause self.old.faults self.new.faults result }
    {
        self.made = self.made.saturating_add(1);
        if answer.is_err() {
            self.failed = self.failed.saturating_add(1);
        }
        answer
    }
}

/// A source of bytes in memory, of which chosen calls fail.
#[derive(Drop)]
pub struct MemSource<'a> {
    rest: &'a [u8],
    greatest: usize,
    calls: Calls<'a>,
}

impl<'a> Model for MemSource<'a> {
    ghost use Rattle.std.specs.Prelude.{◌<◌};
    ghost use Rattle.gz_io.specs.Memory.{Supply};

    ghost Value = { Supply };

    ghost view = { λ s. record { rest = s.rest.now; greatest = s.greatest; script = s.calls } };

    ghost invariant = { λ s. 0 < s.greatest };
}

impl<'a> MemSource<'a> {
    /// Gives at most `greatest` bytes at a time, and fails at the calls named, counted from 0.
    pub fn new(bytes: &'a [u8], greatest: usize, failing: &'a [u64]) -> Self
        requires { 0 < greatest }
        ensures bytes { result.rest ≡ bytes.now }
        ensures greatest { result.greatest ≡ greatest }
        ensures script { result.script ≡ record { failing = failing.now; calls = 0; faults = 0 } }
    {
        MemSource {
            rest: bytes,
            greatest,
            calls: Calls::new(failing),
        }
    }

    /// How often it was called.
    pub fn calls(&self) -> u64
        ensures { result ≡ self.now.script.calls }
    {
        self.calls.made
    }
}

impl Source for MemSource<'_> {
    ghost left = { λ s. Some s.rest };

    ghost faults = { λ s. s.script.faults };

    fn take(&mut self, buf: &mut [u8]) -> Result<usize, Failed>
        ensures bound { ReadsAtMost result buf.new }
        ensures bytes { ReadConsumes (Some self.old.rest) (Some self.new.rest) result buf.new }
        ensures cause { HasCause self.old.script.faults self.new.script.faults result }
        ensures fails { IsErr result ↔ Contains self.old.script.failing self.old.script.calls }
        ensures piece { IfOk result
            (λ n. n ≡ min (min (length buf.old) self.old.greatest) (length self.old.rest)) }
        ensures greatest { self.new.greatest ≡ self.old.greatest }
        ensures script { self.new.script ≡ after_call self.old.script result }
    {
        if self.calls.fails_next() {
            return self.calls.counted(Err(Failed));
        }
        let count = buf.len().min(self.greatest).min(self.rest.len());
        buf[..count].copy_from_slice(&self.rest[..count]);
        self.rest = &self.rest[count..];
        self.calls.counted(Ok(count))
    }
}

/// A source of bytes in memory that never fails.
#[derive(Drop)]
pub struct SureSource<'a> {
    rest: &'a [u8],
    greatest: usize,
}

impl<'a> Model for SureSource<'a> {
    ghost use Rattle.std.specs.Prelude.{◌<◌};
    ghost use Rattle.gz_io.specs.Memory.{SureSupply};

    ghost Value = { SureSupply };

    ghost view = { λ s. record { rest = s.rest.now; greatest = s.greatest } };

    ghost invariant = { λ s. 0 < s.greatest };
}

impl<'a> SureSource<'a> {
    /// Gives at most `greatest` bytes at a time.
    pub fn new(bytes: &'a [u8], greatest: usize) -> Self
        requires { 0 < greatest }
        ensures { result ≡ record { rest = bytes.now; greatest = greatest } }
    {
        SureSource {
            rest: bytes,
            greatest,
        }
    }
}

impl Source for SureSource<'_> {
    ghost left = { λ s. Some s.rest };

    ghost faults = { λ _. 0 };

    fn take(&mut self, buf: &mut [u8]) -> Result<usize, Failed>
        ensures bound { ReadsAtMost result buf.new }
        ensures bytes { ReadConsumes (Some self.old.rest) (Some self.new.rest) result buf.new }
        ensures cause { HasCause 0 0 result }
        ensures piece { result ≡ Ok
            (min (min (length buf.old) self.old.greatest) (length self.old.rest)) }
        ensures greatest { self.new.greatest ≡ self.old.greatest }
    {
        let count = buf.len().min(self.greatest).min(self.rest.len());
        buf[..count].copy_from_slice(&self.rest[..count]);
        self.rest = &self.rest[count..];
        Ok(count)
    }
}

/// A sink of bytes in memory, of which chosen calls of `put` fail. Want of memory is a failure too.
#[derive(Drop)]
pub struct MemSink<'a> {
    bytes: Vec<u8>,
    greatest: usize,
    calls: Calls<'a>,
}

impl<'a> Model for MemSink<'a> {
    ghost use Rattle.std.specs.Prelude.{◌<◌};
    ghost use Rattle.gz_io.specs.Memory.{Store};

    ghost Value = { Store };

    ghost view = { λ s. record { bytes = s.bytes.items; greatest = s.greatest; script = s.calls } };

    ghost invariant = { λ s. 0 < s.greatest };
}

impl<'a> MemSink<'a> {
    /// Takes at most `greatest` bytes at a time behind those given, and fails at the calls named,
    /// counted from 0.
    pub fn new(bytes: Vec<u8>, greatest: usize, failing: &'a [u64]) -> Self
        requires { 0 < greatest }
        ensures bytes { result.bytes ≡ bytes.items }
        ensures greatest { result.greatest ≡ greatest }
        ensures script { result.script ≡ record { failing = failing.now; calls = 0; faults = 0 } }
    {
        MemSink {
            bytes,
            greatest,
            calls: Calls::new(failing),
        }
    }

    /// The bytes that it holds.
    pub fn bytes(&self) -> &[u8]
        ensures { result.now ≡ self.now.bytes }
    {
        self.bytes.as_slice()
    }

    /// How often `put` was called.
    pub fn calls(&self) -> u64
        ensures { result ≡ self.now.script.calls }
    {
        self.calls.made
    }
}

impl Sink for MemSink<'_> {
    ghost written = { λ s. Some s.bytes };

    ghost faults = { λ s. s.script.faults };

    ghost behind = { λ _. 0 };

    fn put(&mut self, piece: &[u8]) -> Result<usize, Failed>
        ensures bound { WritesAtMost result piece.now }
        ensures some { IfOk result (λ n. 0 < length piece.now → 0 < n) }
        ensures bytes { WriteAppends (Some self.old.bytes) (Some self.new.bytes) result piece.now }
        ensures cause { HasCause self.old.script.faults self.new.script.faults result }
        ensures fails { Contains self.old.script.failing self.old.script.calls → IsErr result }
        ensures piece { IfOk result (λ n. n ≡ min (length piece.now) self.old.greatest) }
        ensures greatest { self.new.greatest ≡ self.old.greatest }
        ensures script { self.new.script ≡ after_call self.old.script result }
    {
        if self.calls.fails_next() {
            return self.calls.counted(Err(Failed));
        }
        let count = piece.len().min(self.greatest);
        if self.bytes.extend_from_slice(&piece[..count]).is_err() {
            return self.calls.counted(Err(Failed));
        }
        self.calls.counted(Ok(count))
    }

    fn flush(&mut self) -> Result<(), Failed> {
        Ok(())
    }
}

/// A sink that never fails. It takes no memory, so it keeps no byte and counts them alone.
#[derive(Drop)]
pub struct SureSink {
    count: u64,
    greatest: usize,
}

impl Model for SureSink {
    ghost use Rattle.std.specs.Prelude.{◌<◌};
    ghost use Rattle.gz_io.specs.Memory.{Tally};

    ghost Value = { Tally };

    ghost view = { λ s. record { count = s.count; greatest = s.greatest } };

    ghost invariant = { λ s. 0 < s.greatest };
}

impl SureSink {
    /// Takes at most `greatest` bytes at a time.
    pub fn new(greatest: usize) -> Self
        requires { 0 < greatest }
        ensures { result ≡ record { count = 0; greatest = greatest } }
    {
        SureSink { count: 0, greatest }
    }

    /// How many bytes it took; it stands still at the end of its type.
    pub fn count(&self) -> u64
        ensures { result ≡ self.now.count }
    {
        self.count
    }
}

impl Sink for SureSink {
    ghost written = { λ _. None };

    ghost faults = { λ _. 0 };

    ghost behind = { λ _. 0 };

    fn put(&mut self, piece: &[u8]) -> Result<usize, Failed>
        ensures bound { WritesAtMost result piece.now }
        ensures some { IfOk result (λ n. 0 < length piece.now → 0 < n) }
        ensures bytes { WriteAppends None None result piece.now }
        ensures cause { HasCause 0 0 result }
        ensures piece { result ≡ Ok (min (length piece.now) self.old.greatest) }
        ensures greatest { self.new.greatest ≡ self.old.greatest }
        ensures count { self.new.count ≡ min
            (self.old.count + min (length piece.now) self.old.greatest) (2 ^ 64 - 1) }
    {
        let count = piece.len().min(self.greatest);
        self.count = self.count.saturating_add(count as u64);
        Ok(count)
    }

    fn flush(&mut self) -> Result<(), Failed> {
        Ok(())
    }
}
