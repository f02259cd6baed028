// The end of a line, composed from its last byte to its first, so that numbers are written where
// they stand.
ghost use Rattle.std.specs.Prelude.{◌≡◌, ◌≤◌, ◌<◌, ◌+◌, ◌++◌, ◌∷◌, ℕ, [], length, drop};
ghost use Rattle.std.specs.Fmt.{decimal};
ghost use Rattle.trace_lang.specs.Texts.{name_text};

use gz_names::Name;
use itoa::write_digits;
use std::marker::Model;

/// The end of a line, of at most 48 bytes.
#[derive(Drop)]
pub struct Tail {
    buf: [u8; 48],
    start: usize,
}

impl Model for Tail {
    ghost use Rattle.std.specs.Prelude.{◌≡◌, ◌≤◌, ℕ, List, length, drop};

    ghost Value = { List ℕ };

    ghost view = { λ t. drop t.start t.buf };

    ghost invariant = { λ t. (t.start ≤ 48) × (length t.buf ≡ 48) };
}

impl Tail {
    #[inline(always)]
    pub fn new() -> Self
        ensures { result ≡ [] }
    {
        Tail {
            buf: [0; 48],
            start: 48,
        }
    }

    pub fn text(&self) -> &[u8]
        ensures { result.now ≡ self.now }
    {
        &self.buf[self.start..]
    }

    /// Puts a byte in front.
    #[inline(always)]
    pub fn byte(&mut self, byte: u8)
        requires { length self.old < 48 }
        ensures { self.new ≡ byte ∷ self.old }
    {
        self.start -= 1;
        self.buf[self.start] = byte;
    }

    /// Puts bytes in front.
    #[inline(always)]
    pub fn bytes(&mut self, bytes: &[u8])
        requires { length bytes.now + length self.old ≤ 48 }
        ensures { self.new ≡ bytes.now ++ self.old }
    {
        let end = self.start;
        self.start -= bytes.len();
        self.buf[self.start..end].copy_from_slice(bytes);
    }

    /// Puts a number in decimal in front.
    pub fn number(&mut self, n: u64)
        requires { length self.old ≤ 28 }
        ensures text { self.new ≡ decimal n ++ self.old }
        ensures size { length self.new ≤ 20 + length self.old }
    {
        self.start = write_digits(n, &mut self.buf, self.start);
    }

    /// Puts a name in front.
    #[inline(always)]
    pub fn name(&mut self, name: Name)
        requires { length self.old ≤ 1 }
        ensures text { self.new ≡ name_text name ++ self.old }
        ensures size { length self.new ≤ 41 + length self.old }
    {
        match name {
            Name::Cell(n) => self.number(n),
            Name::Wrap(comp, target) => {
                self.number(target);
                self.byte(b':');
                self.number(u64::from(comp.0));
            }
        }
    }
}
