// A sink behind a buffer.
//
// The bytes held are those between two cursors; what stands before them was handed on.
//
//     0          sent          len         8192
//     |  handed on  |   held    |    free    |
//
// A write to the sink may fail in the middle. Then what was not sent stays held.
ghost use Rattle.std.specs.Prelude.{◌≡◌, ◌<◌, ◌≤◌, ◌-◌, ◌+◌, ℕ, [], true, false, OnOk, length, take, drop, ◌++◌, OnErr};
ghost use Rattle.std.specs.Prelude.{IfOk};
ghost use Rattle.std.specs.Io.{WritesAtMost};
ghost use Rattle.std.specs.Io.KnownBytes.{Appends, WriteAppends, Keeps, append_known};
ghost use Rattle.gz_io.specs.Causes.{HasCause, Rose};

use crate::outside::{Failed, Sink};
use std::marker::Model;

/// A sink behind a buffer of 8,192 bytes, which is handed on as it is full and at a flush. It takes
/// no memory. What is still held as it is let go is lost, so flush it before.
#[derive(Drop)]
pub struct Buffered<K: Sink + Drop> {
    inner: K,
    buf: [u8; 8192],
    sent: usize,
    len: usize,
}

impl<K: Sink + Drop> Model for Buffered<K> {
    ghost use Rattle.std.specs.Prelude.{◌≡◌, ◌≤◌, ◌-◌, length, take, drop};
    ghost use Rattle.gz_io.specs.Buffering.{Buffering};

    ghost Value = { Buffering K };

    ghost view = { λ b. record { inner = b.inner; held = take (b.len - b.sent) (drop b.sent b.buf) } };

    ghost invariant = { λ b. (b.sent ≤ b.len) × (b.len ≤ 8192) × (b.len ≤ b.sent → b.len ≡ 0)
        × (length b.buf ≡ 8192) };
}

impl<K: Sink + Drop> Buffered<K> {
    /// The sink behind an empty buffer.
    pub fn new(inner: K) -> Self
        ensures inner { result.inner ≡ inner }
        ensures held { result.held ≡ [] }
    {
        Buffered {
            inner,
            buf: [0; 8192],
            sent: 0,
            len: 0,
        }
    }

    /// The sink itself, which lacks the bytes that are held.
    pub fn inner(&self) -> &K
        ensures { result.now ≡ self.now.inner }
    {
        &self.inner
    }

    // Holds the piece where there is room for all of it, and tells whether there is.
    #[inline(always)]
    fn hold_whole(&mut self, piece: &[u8]) -> bool
        ensures whole { result ≡ true → self.new.held ≡ self.old.held ++ piece.now }
        ensures none { result ≡ false → self.new ≡ self.old }
        ensures inner { self.new.inner ≡ self.old.inner }
    {
        if piece.len() > 8192 - self.len {
            return false;
        }
        let end = self.len + piece.len();
        self.buf[self.len..end].copy_from_slice(piece);
        self.len += piece.len();
        true
    }

    // Holds a prefix of the piece, as much as there is room for, and returns its length.
    fn hold(&mut self, piece: &[u8]) -> usize
        ensures most { result ≤ length piece.now }
        ensures some { self.old.held ≡ [] → 0 < length piece.now → 0 < result }
        ensures held { self.new.held ≡ self.old.held ++ take result piece.now }
        ensures inner { self.new.inner ≡ self.old.inner }
    {
        let count = piece.len().min(8192 - self.len);
        let end = self.len + count;
        self.buf[self.len..end].copy_from_slice(&piece[..count]);
        self.len = end;
        count
    }

    // Hands on all that is held.
    fn pass_on(&mut self) -> Result<(), Failed>
        ensures bytes { Keeps (append_known (K.written self.old.inner) self.old.held)
            (append_known (K.written self.new.inner) self.new.held) }
        ensures ok { OnOk result (self.new.held ≡ []) }
        ensures cause { HasCause (K.faults self.old.inner) (K.faults self.new.inner) result }
    {
        let (sent, len) = (self.sent, self.len);
        self.sent = send(&mut self.inner, &self.buf, sent, len);
        if self.sent < len {
            return Err(Failed);
        }
        self.sent = 0;
        self.len = 0;
        Ok(())
    }

    // Holds a prefix of a piece for which there is not room, where need be after it hands on all.
    #[cold]
    fn put_front(&mut self, piece: &[u8]) -> Result<usize, Failed>
        ensures bound { WritesAtMost result piece.now }
        ensures some { IfOk result (λ n. 0 < length piece.now → 0 < n) }
        ensures bytes { WriteAppends (append_known (K.written self.old.inner) self.old.held)
            (append_known (K.written self.new.inner) self.new.held) result piece.now }
        ensures cause { HasCause (K.faults self.old.inner) (K.faults self.new.inner) result }
    {
        let count = self.hold(piece);
        if count > 0 || piece.is_empty() {
            return Ok(count);
        }
        self.pass_on()?;
        Ok(self.hold(piece))
    }
}

// Writes a part of a buffer, and tells how far it came.
fn send<K: Sink>(inner: &mut K, buf: &[u8; 8192], from: usize, end: usize) -> usize
    requires order { from ≤ end }
    requires fits { end ≤ 8192 }
    ensures from { from ≤ result }
    ensures most { result ≤ end }
    ensures bytes { Appends (K.written inner.old) (K.written inner.new)
        (take (result - from) (drop from buf.now)) }
    ensures later { K.faults inner.old ≤ K.faults inner.new }
    ensures same { result ≡ end → K.faults inner.new ≡ K.faults inner.old }
    ensures cause { result < end → Rose (K.faults inner.old) (K.faults inner.new) }
{
    let mut sent = from;
    while sent < end {
        match inner.put(&buf[sent..end]) {
            Ok(count) => sent += count,
            Err(_) => return sent,
        }
    }
    sent
}

impl<K: Sink + Drop> Sink for Buffered<K> {
    ghost written = { λ b. append_known (K.written b.inner) b.held };

    ghost faults = { λ b. K.faults b.inner };

    ghost behind = { λ b. length b.held + K.behind b.inner };

    #[inline(always)]
    fn put(&mut self, piece: &[u8]) -> Result<usize, Failed> {
        if self.hold_whole(piece) {
            return Ok(piece.len());
        }
        self.put_front(piece)
    }

    fn flush(&mut self) -> Result<(), Failed> {
        self.pass_on()?;
        self.inner.flush()
    }
}
