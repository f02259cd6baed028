// Lines out of bytes that come in pieces of any size.
//
// The buffer is cut by two cursors, and a third pair marks the line that was given last:
//
//     0        from    from + len     rest          end       4096
//     |  given  |  line  |   given     |    held     |   free   |
//
// Held bytes were taken from the source and stand in no line that was given. What they show of the
// next line is found once, as they change, and kept beside them. As they show a whole line, or that
// there is none, nothing is taken. Where they show neither they are fewer than 256, so that after they
// are moved to the front there is room. A line that is too long or is no ASCII stays held, so that each
// later call answers it again; no state for 'stopped' is kept.
use crate::find::{Found, find_line};
use crate::outside::{Failed, Source};
use std::marker::Model;

/// What a call for the next line answers.
#[derive(Clone, Copy, Debug, PartialEq, Eq)]
pub enum Next {
    /// A line of this length; `line` gives it.
    Line(usize),
    /// The input is over.
    End,
    /// The line has a 256th byte before its line feed. Nothing more is taken.
    TooLong,
    /// A byte of 128 or more stands in the line. Nothing more is taken.
    NotAscii,
    /// The source failed. All bytes taken are kept, and the next call goes on.
    ReadFault,
}

/// Reads lines of at most 255 bytes through a buffer of 4,096. It takes no memory.
#[derive(Drop)]
pub struct LineReader {
    buf: [u8; 4096],
    from: usize,
    len: usize,
    rest: usize,
    end: usize,
    // what the held bytes show
    found: Found,
}

impl Model for LineReader {
    ghost use Rattle.std.specs.Prelude.{◌≤◌, ◌+◌, ◌-◌, take, drop};
    ghost use Rattle.gz_io.specs.Kept.{Kept};
    ghost use Rattle.gz_io.specs.Finding.{Finds};

    ghost Value = { Kept };

    ghost view = { λ r. record {
      held = take (r.end - r.rest) (drop r.rest r.buf);
      line = take r.len (drop r.from r.buf);
    } };

    ghost invariant = { λ r. (r.rest ≤ r.end) × (r.end ≤ 4096) × (r.from + r.len ≤ 4096)
        × Finds (take (r.end - r.rest) (drop r.rest r.buf)) r.found };
}

impl LineReader {
    ghost use Rattle.std.specs.Prelude.{◌≡◌, ◌≢◌, ◌<◌, ◌≤◌, ◌+◌, ◌↔◌, ℕ, List, [], ◌++◌, length, take, drop, OnErr};
    ghost use Rattle.std.specs.Prelude.{IfOk, IsOk, IsTrue, Contains, Ok};
    ghost use Rattle.std.specs.Io.KnownBytes.{Consumes, Keeps, IsAtEnd, prepend_known};
    ghost use Rattle.gz_io.specs.Causes.{HasCause, Rose};
    ghost use Rattle.gz_io.specs.Lines.{Gives, GivesKnown, IsOnlyAnswer, IsTooLong, IsNotAscii, IsPlain};
    ghost use Rattle.gz_io.specs.Finding.{Finds, GivesFound};

    /// A reader that has taken nothing.
    pub fn new() -> Self
        ensures held { result.held ≡ [] }
        ensures line { result.line ≡ [] }
    {
        LineReader {
            buf: [0; 4096],
            from: 0,
            len: 0,
            rest: 0,
            end: 0,
            found: Found::More,
        }
    }

    /// The line that was given last, without its line feed; it is lost as more bytes are taken.
    pub fn line(&self) -> &[u8]
        ensures { result.now ≡ self.now.line }
    {
        &self.buf[self.from..self.from + self.len]
    }

    /// Whether a line feed is held, so that the next call takes nothing.
    #[inline(always)]
    pub fn has_line(&self) -> bool
        ensures { IsTrue result ↔ Contains self.now.held 10 }
    {
        match self.found {
            Found::Line(_) => true,
            Found::More => false,
            Found::TooLong | Found::NotAscii => self.holds_feed(),
        }
    }

    // A line feed may stand behind a bad line too.
    #[cold]
    fn holds_feed(&self) -> bool
        ensures { IsTrue result ↔ Contains self.now.held 10 }
    {
        self.buf[self.rest..self.end].contains(&b'\n')
    }

    fn found(&self) -> Found
        ensures { Finds self.now.held result }
    {
        self.found
    }

    // Gives the first bytes held as a line, and drops the line feed behind them.
    fn give(&mut self, len: usize)
        requires { len < length self.old.held }
        ensures line { self.new.line ≡ take len self.old.held }
        ensures held { self.new.held ≡ drop (len + 1) self.old.held }
    {
        self.from = self.rest;
        self.len = len;
        self.rest += len + 1;
        self.found = find_line(&self.buf[self.rest..self.end]);
    }

    // Gives what is held as the last line, if there is any.
    fn give_last(&mut self) -> Next
        requires short { length self.old.held ≤ 255 }
        requires plain { IsPlain self.old.held }
        ensures gives { Gives self.old.held self.new.held result self.new.line }
        ensures held { self.new.held ≡ [] }
        ensures known { (result ≢ Next.TooLong) × (result ≢ Next.NotAscii)
            × (result ≢ Next.ReadFault) }
    {
        if self.rest == self.end {
            return Next::End;
        }
        self.from = self.rest;
        self.len = self.end - self.rest;
        self.rest = self.end;
        self.found = Found::More;
        Next::Line(self.len)
    }

    // Moves what is held to the front, and takes more behind it.
    #[cold]
    fn fill<S: Source>(&mut self, source: &mut S) -> Result<usize, Failed>
        requires { length self.old.held < 4096 }
        ensures ok { IfOk result (λ n. (bs : List ℕ) × (length bs ≡ n)
            × (self.new.held ≡ self.old.held ++ bs)
            × Consumes (S.left source.old) (S.left source.new) bs
            × (n ≡ 0 → IsAtEnd (S.left source.new))) }
        ensures err { OnErr result
            ((self.new.held ≡ self.old.held) × Keeps (S.left source.old) (S.left source.new)) }
        ensures cause { HasCause (S.faults source.old) (S.faults source.new) result }
    {
        let (rest, end) = (self.rest, self.end);
        self.buf.copy_within(rest..end, 0);
        self.end = end - rest;
        self.rest = 0;
        self.from = 0;
        self.len = 0;
        let count = source.take(&mut self.buf[self.end..])?;
        self.end += count;
        self.found = find_line(&self.buf[..self.end]);
        Ok(count)
    }

    // Takes bytes until those held show what comes, or there are no more.
    fn fetch<S: Source>(&mut self, source: &mut S) -> Result<Found, Failed>
        ensures known { Keeps (prepend_known self.old.held (S.left source.old))
            (prepend_known self.new.held (S.left source.new)) }
        ensures found { IfOk result (Finds self.new.held) }
        ensures end { result ≡ Ok Found.More → IsAtEnd (S.left source.new) }
        ensures err { OnErr result (Finds self.new.held Found.More) }
        ensures shown { (Finds self.old.held Found.More → ⊥) → IsOk result
            × (source.new ≡ source.old) × (self.new ≡ self.old) }
        ensures cause { HasCause (S.faults source.old) (S.faults source.new) result }
    {
        loop {
            match self.found() {
                Found::More => {}
                found => return Ok(found),
            }
            match self.fill(source) {
                Ok(0) => return Ok(Found::More),
                Ok(_) => {}
                Err(fault) => return Err(fault),
            }
        }
    }

    // Answers what was found; where nothing was, the bytes held are all that come.
    #[inline(always)]
    fn give_found(&mut self, found: Found) -> Next
        requires { Finds self.old.held found }
        ensures { GivesFound found self.old self.new result }
    {
        match found {
            Found::Line(len) => {
                self.give(len);
                Next::Line(len)
            }
            Found::TooLong => Next::TooLong,
            Found::NotAscii => Next::NotAscii,
            Found::More => self.give_last(),
        }
    }

    /// Gives the next line, and takes from the source only where it holds no whole line.
    ///
    /// The bytes to come are those held and those that are left in the source. After `TooLong` and
    /// `NotAscii` every later call answers the same; after `ReadFault` and `End` it may be called
    /// again.
    #[inline(always)]
    pub fn next<S: Source>(&mut self, source: &mut S) -> Next
        ensures bytes { GivesKnown (prepend_known self.old.held (S.left source.old))
            (prepend_known self.new.held (S.left source.new)) result self.new.line }
        ensures exact { IsOnlyAnswer (prepend_known self.old.held (S.left source.old)) result }
        ensures takes_late { Contains self.old.held 10 → source.new ≡ source.old }

        ensures too_long { result ≡ Next.TooLong → IsTooLong self.new.held }
        ensures not_ascii { result ≡ Next.NotAscii → IsNotAscii self.new.held }
        ensures stays_too_long { IsTooLong self.old.held → (result ≡ Next.TooLong)
            × (source.new ≡ source.old) × (self.new ≡ self.old) }
        ensures stays_not_ascii { IsNotAscii self.old.held → (result ≡ Next.NotAscii)
            × (source.new ≡ source.old) × (self.new ≡ self.old) }

        // no line feed is held at a fault, so every whole line of the bytes taken was given
        ensures none_held { result ≡ Next.ReadFault → IsPlain self.new.held }
        ensures fault { result ≡ Next.ReadFault → Rose (S.faults source.old) (S.faults source.new) }
        ensures later { S.faults source.old ≤ S.faults source.new }
        ensures same { result ≢ Next.ReadFault → S.faults source.new ≡ S.faults source.old }
    {
        let found = self.found();
        if let Found::Line(_) = found {
            return self.give_found(found);
        }
        match self.fetch(source) {
            Ok(found) => self.give_found(found),
            Err(_) => Next::ReadFault,
        }
    }
}
