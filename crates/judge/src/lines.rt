// Lines of any length. A list of names may be as long as the heap is large.
ghost use Rattle.std.specs.Prelude.{◌≡◌, ◌+◌, ◌<◌, ◌≤◌, ◌∷◌, ◌++◌, [], IfNone, IfOk, IfSome, OnErr, drop, length};
ghost use Rattle.std.specs.Prelude.{take};
ghost use Rattle.std.specs.Io.KnownBytes.{Consumes, IsAtEnd, Keeps, prepend_known};
ghost use Rattle.gz_io.specs.Causes.{HasCause, Rose};
ghost use Rattle.judge.specs.Lines.{GivesKnownLine, Lacks, TakesHeld};

use gz_io::{Failed, Source};
use gz_names::NoMemory;
use std::marker::Model;

/// The first place of a byte.
pub fn place_of(bytes: &[u8], wanted: u8) -> Option<usize>
    ensures some { IfSome result (λ n. (n < length bytes.now) × Lacks wanted (take n bytes.now)
        × (bytes.now ≡ take n bytes.now ++ wanted ∷ drop (n + 1) bytes.now)) }
    ensures none { IfNone result (Lacks wanted bytes.now) }
{
    for (i, byte) in bytes.iter().enumerate() {
        if *byte == wanted {
            return Some(i);
        }
    }
    None
}

/// What a call for the next line answers.
#[derive(Clone, Copy, Debug, PartialEq, Eq)]
pub enum NextLine {
    /// The line was read.
    Line,
    End,
    ReadFault,
    /// 2^64 - 1 pieces gave no whole line.
    TooLong,
}

/// Reads lines, and keeps the bytes that were taken with one.
#[derive(Drop)]
pub struct Lines {
    piece: [u8; 4096],
    from: usize,
    end: usize,
}

impl Model for Lines {
    ghost use Rattle.std.specs.Prelude.{ℕ, List, ◌≤◌, ◌-◌, take, drop};

    ghost Value = { List ℕ };

    ghost view = { λ l. take (l.end - l.from) (drop l.from l.piece) };

    ghost invariant = { λ l. (l.from ≤ l.end) × (l.end ≤ 4096) };
}

impl Lines {
    pub fn new() -> Self
        ensures { result ≡ [] }
    {
        Lines {
            piece: [0; 4096],
            from: 0,
            end: 0,
        }
    }

    // Takes a piece in place of the one that was given.
    fn fill<S: Source>(&mut self, source: &mut S) -> Result<usize, Failed>
        requires { self.old ≡ [] }
        ensures ok { IfOk result (λ n. (length self.new ≡ n)
            × Consumes (S.left source.old) (S.left source.new) self.new
            × (n ≡ 0 → IsAtEnd (S.left source.new))) }
        ensures err { OnErr result (Keeps (S.left source.old) (S.left source.new)) }
        ensures cause { HasCause (S.faults source.old) (S.faults source.new) result }
    {
        let count = source.take(&mut self.piece)?;
        self.from = 0;
        self.end = count;
        Ok(count)
    }

    // Adds what is held of a line to it, and says whether the line is whole.
    fn add_held(&mut self, line: &mut Vec<u8>) -> Result<bool, NoMemory>
        ensures { IfOk result (λ whole. TakesHeld whole self.old self.new line.old.items line.new.items) }
    {
        let held = &self.piece[self.from..self.end];
        match place_of(held, b'\n') {
            Some(length) => {
                line.extend_from_slice(&held[..length])?;
                self.from += length + 1;
                Ok(true)
            }
            None => {
                line.extend_from_slice(held)?;
                self.from = self.end;
                Ok(false)
            }
        }
    }

    /// Reads the next line, without its line feed.
    pub fn next<S: Source>(
        &mut self,
        source: &mut S,
        line: &mut Vec<u8>,
    ) -> Result<NextLine, NoMemory>
        ensures bytes { IfOk result (λ next. GivesKnownLine (prepend_known self.old (S.left source.old))
            (prepend_known self.new (S.left source.new)) next line.new.items) }
        ensures fault { IfOk result (λ next. next ≡ NextLine.ReadFault
            → Rose (S.faults source.old) (S.faults source.new)) }
        ensures later { S.faults source.old ≤ S.faults source.new }
        ensures same { IfOk result (λ next. (next ≡ NextLine.ReadFault → ⊥)
            → S.faults source.new ≡ S.faults source.old) }
    {
        line.clear();
        'pieces: for _ in 0..u64::MAX {
            if self.add_held(line)? {
                return Ok(NextLine::Line);
            }
            match self.fill(source) {
                Err(_) => return Ok(NextLine::ReadFault),
                Ok(0) if line.is_empty() => return Ok(NextLine::End),
                Ok(0) => return Ok(NextLine::Line),
                Ok(_) => {}
            }
        }
        Ok(NextLine::TooLong)
    }
}
