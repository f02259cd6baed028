// Two words of bits.
ghost use Rattle.std.specs.Prelude.{◌≡◌, ◌≢◌, ◌↔◌, ◌==◌, ℕ, ◌<◌, IsTrue, bit_and, bit_or, if◌then◌else◌};
ghost use Rattle.std.specs.Int.{bit_at, bit_not, w64};
ghost use Rattle.cell_bits.specs.Colours.{colour_of, white_mask_of, Marks};

/// A cell's colour, by strength: a weak map's entry colours its value with the lesser of the map's
/// and the key's colour (js/src/gc/Marking.cpp orders MarkColor so).
#[derive(Clone, Copy, Debug, PartialEq, Eq, PartialOrd, Ord)]
pub enum Colour {
    White,
    Gray,
    Black,
}

/// The mark bits of an arena's cells, a bit a slot (js/src/gc/Cell.h).
#[derive(Clone, Copy, Debug, PartialEq, Eq)]
pub struct Bits {
    /// BlackBit.
    pub black: u64,
    /// GrayOrBlackBit.
    pub gob: u64,
}

impl Bits {
    /// All cells white.
    pub fn new() -> Self
        ensures { (s : ℕ) → colour_of result s ≡ Colour.White }
    {
        Bits { black: 0, gob: 0 }
    }

    pub fn colour(&self, slot: u8) -> Colour
        requires { slot < 64 }
        ensures { result ≡ colour_of self.now slot }
    {
        if (self.black >> slot) & 1 == 1 {
            Colour::Black
        } else if (self.gob >> slot) & 1 == 1 {
            Colour::Gray
        } else {
            Colour::White
        }
    }

    /// Makes a cell black. True where that set a bit.
    pub fn mark_black(&mut self, slot: u8) -> bool
        requires { slot < 64 }
        ensures set { IsTrue result ↔ (colour_of self.old slot ≢ Colour.Black) }
        ensures black { (s : ℕ) → bit_at self.new.black s ≡ (if s == slot then 1 else bit_at self.old.black s) }
        ensures gob { self.new.gob ≡ self.old.gob }
        ensures marks { Marks self.old slot Colour.Black self.new }
    {
        if has_bit(self.black, slot) {
            return false;
        }
        self.black = with_bit(self.black, slot);
        true
    }

    /// Makes a white cell gray. True where that set a bit; a gray or black cell stays as it is.
    pub fn mark_gray(&mut self, slot: u8) -> bool
        requires { slot < 64 }
        ensures set { IsTrue result ↔ (colour_of self.old slot ≡ Colour.White) }
        ensures black { self.new.black ≡ self.old.black }
        ensures gob { IsTrue result → (s : ℕ) → bit_at self.new.gob s
            ≡ (if s == slot then 1 else bit_at self.old.gob s) }
        ensures marks { IsTrue result → Marks self.old slot Colour.Gray self.new }
        ensures same { colour_of self.old slot ≢ Colour.White → self.new ≡ self.old }
    {
        if has_bit(self.black, slot) || has_bit(self.gob, slot) {
            return false;
        }
        self.gob = with_bit(self.gob, slot);
        true
    }

    /// Turns a gray cell black; its other bit stays.
    pub fn unmark_gray(&mut self, slot: u8)
        requires slot { slot < 64 }
        requires gray { colour_of self.old slot ≡ Colour.Gray }
        ensures black { (s : ℕ) → bit_at self.new.black s ≡ (if s == slot then 1 else bit_at self.old.black s) }
        ensures gob { self.new.gob ≡ self.old.gob }
        ensures marks { Marks self.old slot Colour.Black self.new }
    {
        self.black = with_bit(self.black, slot);
    }

    /// The allocated slots whose cells are white: those that sweeping frees.
    pub fn white_mask(&self, alloc_word: u64) -> u64
        ensures word { result ≡ white_mask_of self.now alloc_word }
        ensures slots { (s : ℕ) → s < 64
            → (bit_at result s ≡ 1) ↔ ((bit_at alloc_word s ≡ 1) × (colour_of self.now s ≡ Colour.White)) }
    {
        white_slots(alloc_word, self.black, self.gob)
    }
}

// The slots of one word that are in neither of the others.
fn white_slots(alloc_word: u64, black: u64, gob: u64) -> u64
    ensures word { result ≡ bit_and alloc_word (bit_not w64 (bit_or black gob)) }
    ensures slots { (s : ℕ) → s < 64
        → (bit_at result s ≡ 1) ↔ ((bit_at alloc_word s ≡ 1) × (bit_at black s ≡ 0) × (bit_at gob s ≡ 0)) }
{
    alloc_word & !(black | gob)
}

// Whether a word has the bit of a slot.
fn has_bit(word: u64, slot: u8) -> bool
    requires { slot < 64 }
    ensures { IsTrue result ↔ (bit_at word slot ≡ 1) }
{
    (word >> slot) & 1 == 1
}

// A word with the bit of a slot set.
fn with_bit(word: u64, slot: u8) -> u64
    requires { slot < 64 }
    ensures { (s : ℕ) → bit_at result s ≡ (if s == slot then 1 else bit_at word s) }
{
    word | 1 << slot
}
