// A piece of a line that may be long.
ghost use Rattle.std.specs.Prelude.{◌≡◌, ◌≤◌, ◌<◌, ◌+◌, ◌++◌, ◌∷◌, ℕ, [], length};
ghost use Rattle.std.specs.Fmt.{decimal};
ghost use Rattle.gz_names.specs.Zones.{zones_in};
ghost use Rattle.trace_lang.specs.Words.{number_word, number_words};
ghost use Rattle.gz_names.specs.DumpTexts.{dump_text};
ghost use Rattle.trace_lang.specs.Texts.{name_text, bar_text, break_text};

use crate::zone_bits::next_zone;
use gz_names::{DumpColour, DumpLine, Name, ZoneSet};
use itoa::write_digits;
use std::marker::Model;

/// A piece of an output line, of at most 512 bytes, composed before it is written.
#[derive(Drop)]
pub struct Piece {
    buf: [u8; 512],
    len: usize,
}

impl Model for Piece {
    ghost use Rattle.std.specs.Prelude.{◌≡◌, ◌≤◌, ℕ, List, length, take};

    ghost Value = { List ℕ };

    ghost view = { λ p. take p.len p.buf };

    ghost invariant = { λ p. (p.len ≤ 512) × (length p.buf ≡ 512) };
}

// How many digits a number below 100,000 has.
#[inline(always)]
fn short_count(n: u64) -> usize
    requires { n < 100000 }
    ensures { result ≡ length (decimal n) }
{
    if n < 10 {
        1
    } else if n < 100 {
        2
    } else if n < 1000 {
        3
    } else if n < 10000 {
        4
    } else {
        5
    }
}

// How many digits a number has. Most numbers are small.
#[inline(always)]
fn digit_count(n: u64) -> usize
    ensures count { result ≡ length (decimal n) }
    ensures most { result ≤ 20 }
{
    let mut left = n;
    let mut count = 0usize;
    while left >= 100000 {
        left /= 10;
        count += 1;
    }
    count + short_count(left)
}

impl Piece {
    pub fn new() -> Self
        ensures { result ≡ [] }
    {
        Piece {
            buf: [0; 512],
            len: 0,
        }
    }

    pub fn text(&self) -> &[u8]
        ensures { result.now ≡ self.now }
    {
        &self.buf[..self.len]
    }

    pub fn len(&self) -> usize
        ensures { result ≡ length self.now }
    {
        self.len
    }

    pub fn clear(&mut self)
        ensures { self.new ≡ [] }
    {
        self.len = 0;
    }

    pub fn push(&mut self, bytes: &[u8])
        requires { length self.old + length bytes.now ≤ 512 }
        ensures { self.new ≡ self.old ++ bytes.now }
    {
        let end = self.len + bytes.len();
        self.buf[self.len..end].copy_from_slice(bytes);
        self.len = end;
    }

    // Adds a byte.
    fn push_byte(&mut self, byte: u8)
        requires { length self.old < 512 }
        ensures { self.new ≡ self.old ++ byte ∷ [] }
    {
        self.buf[self.len] = byte;
        self.len += 1;
    }

    // Adds a number: its digits are written where they stand.
    fn push_digits(&mut self, n: u64)
        requires { length self.old ≤ 492 }
        ensures text { self.new ≡ self.old ++ decimal n }
        ensures size { length self.new ≤ length self.old + 20 }
    {
        let end = self.len + digit_count(n);
        write_digits(n, &mut self.buf, end);
        self.len = end;
    }

    /// Adds a number behind a space.
    pub fn push_number(&mut self, n: u64)
        requires { length self.old ≤ 490 }
        ensures text { self.new ≡ self.old ++ number_word n }
        ensures size { length self.new ≤ length self.old + 21 }
    {
        self.push_byte(b' ');
        self.push_digits(n);
    }

    /// Adds a name behind a space.
    pub fn push_name(&mut self, name: Name)
        requires { length self.old ≤ 464 }
        ensures text { self.new ≡ self.old ++ 32 ∷ name_text name }
        ensures size { length self.new ≤ length self.old + 42 }
    {
        match name {
            Name::Cell(n) => self.push_number(n),
            Name::Wrap(comp, target) => {
                self.push_number(u64::from(comp.0));
                self.push_byte(b':');
                self.push_digits(target);
            }
        }
    }

    /// Adds the zones of a set, each behind a space.
    pub fn push_zones(&mut self, zones: ZoneSet)
        requires { length self.old ≤ 260 }
        ensures text { self.new ≡ self.old ++ number_words (zones_in zones) }
        ensures size { length self.new ≤ length self.old + 192 }
    {
        let mut from = 0u64;
        while let Some(zone) = next_zone(zones.bits, from) {
            self.push_number(zone);
            from = zone + 1;
        }
    }

    /// Adds the bar before a group of zones that is not the first.
    pub fn push_bar(&mut self, n: usize)
        requires { length self.old ≤ 500 }
        ensures text { self.new ≡ self.old ++ bar_text n }
        ensures size { length self.new ≤ length self.old + 2 }
    {
        if n != 0 {
            self.push(b" |");
        }
    }

    /// Adds the line feed before a line of a dump that is not the first.
    pub fn push_break(&mut self, n: usize)
        requires { length self.old ≤ 500 }
        ensures text { self.new ≡ self.old ++ break_text n }
        ensures size { length self.new ≤ length self.old + 1 }
    {
        if n != 0 {
            self.push(b"\n");
        }
    }

    /// Adds a line of a dump, without a line feed.
    pub fn push_dump(&mut self, line: DumpLine)
        requires { length self.old ≤ 257 }
        ensures text { self.new ≡ self.old ++ dump_text line }
        ensures size { length self.new ≤ length self.old + 120 }
    {
        match line {
            DumpLine::Cell(name, colour) => {
                self.push(b"cell");
                self.push_name(name);
                self.push(match colour {
                    DumpColour::Black => b" b",
                    DumpColour::Gray => b" g",
                });
            }
            DumpLine::Edge(object, name) => {
                self.push(b"edge");
                self.push_number(object);
                self.push_name(name);
            }
            DumpLine::Weak(map, key, value) => {
                self.push(b"weak");
                self.push_number(map);
                self.push_name(key);
                self.push_name(value);
            }
            DumpLine::End => self.push(b"end"),
        }
    }
}
