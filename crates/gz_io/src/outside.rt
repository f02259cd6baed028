// Where bytes come from, and where they go.
ghost use Rattle.std.specs.Prelude.{◌≡◌, ◌<◌, ℕ, List, length, Option, OnOk, OnErr, IfOk};
ghost use Rattle.std.specs.Io.{ReadsAtMost, WritesAtMost};
ghost use Rattle.std.specs.Io.KnownBytes.{ReadConsumes, WriteAppends, Appends, Keeps};
ghost use Rattle.gz_io.specs.Causes.{HasCause, AppendsFront};

/// A device failed.
#[derive(Clone, Copy, Debug, PartialEq, Eq)]
pub struct Failed;

/// A piece was not written whole.
#[derive(Clone, Copy, Debug, PartialEq, Eq)]
pub struct WriteFault;

/// Where bytes come from.
pub trait Source {
    // the bytes still to come, where it tells them
    ghost left: { Self → Option (List ℕ) };
    // how often it failed; this never falls
    ghost faults: { Self → ℕ };

    /// Puts the next bytes at the start of the buffer and returns how many. None into a buffer
    /// with room is the end of the input. A failed call gives no byte and loses none.
    fn take(&mut self, buf: &mut [u8]) -> Result<usize, Failed>
        ensures bound { ReadsAtMost result buf.new }
        ensures bytes { ReadConsumes (left self.old) (left self.new) result buf.new }
        ensures cause { HasCause (faults self.old) (faults self.new) result };
}

/// Where bytes go.
pub trait Sink {
    // the bytes written so far, where it tells them
    ghost written: { Self → Option (List ℕ) };
    // how often it failed; this never falls
    ghost faults: { Self → ℕ };
    // how many of the bytes written are held back
    ghost behind: { Self → ℕ };

    /// Writes a prefix of the piece and returns its length, which is 0 for an empty piece alone.
    fn put(&mut self, piece: &[u8]) -> Result<usize, Failed>
        ensures bound { WritesAtMost result piece.now }
        ensures some { IfOk result (λ n. 0 < length piece.now → 0 < n) }
        ensures bytes { WriteAppends (written self.old) (written self.new) result piece.now }
        ensures cause { HasCause (faults self.old) (faults self.new) result };

    /// Hands on what is held back. After a failure the rest is still held back.
    fn flush(&mut self) -> Result<(), Failed>
        ensures bytes { Keeps (written self.old) (written self.new) }
        ensures handed_on { OnOk result (behind self.new ≡ 0) }
        ensures cause { HasCause (faults self.old) (faults self.new) result };
}

// Writes what is left of a piece, or fails after a prefix of it.
#[cold]
fn write_rest<K: Sink>(sink: &mut K, piece: &[u8]) -> Result<(), WriteFault>
    ensures ok { OnOk result (Appends (K.written sink.old) (K.written sink.new) piece.now) }
    ensures err { OnErr result (AppendsFront (K.written sink.old) (K.written sink.new) piece.now) }
    ensures cause { HasCause (K.faults sink.old) (K.faults sink.new) result }
{
    let mut done: usize = 0;
    while done < piece.len() {
        match sink.put(&piece[done..]) {
            Ok(count) => done += count,
            Err(_) => return Err(WriteFault),
        }
    }
    Ok(())
}

/// Writes the whole piece, or fails after a prefix of it.
#[inline(always)]
pub fn write_all<K: Sink>(sink: &mut K, piece: &[u8]) -> Result<(), WriteFault>
    ensures ok { OnOk result (Appends (K.written sink.old) (K.written sink.new) piece.now) }
    ensures err { OnErr result (AppendsFront (K.written sink.old) (K.written sink.new) piece.now) }
    ensures cause { HasCause (K.faults sink.old) (K.faults sink.new) result }
{
    match sink.put(piece) {
        Ok(count) if count == piece.len() => Ok(()),
        Ok(count) => write_rest(sink, &piece[count..]),
        Err(_) => Err(WriteFault),
    }
}
