// Arenas as they are kept.
ghost use Rattle.std.specs.Prelude.{◌≡◌, ◌≤◌, ◌<◌, ◌+◌, ◌++◌, ◌∷◌, ◌^◌, [], ℕ, Bool, true, false, IsSome, IsSomeAnd};
ghost use Rattle.std.specs.Prelude.{IsTrue, Some, None, length, map, replicate, slice_get, slice_set, OnOk, OnErr};
ghost use Rattle.std.specs.Prelude.{◌==◌, All, if◌then◌else◌, vec_len, vec_capacity};
ghost use Rattle.std.specs.Int.{bit_at};
ghost use Rattle.std.specs.Option.{ForSome, option_map};
ghost use Rattle.arena_table.specs.Cells.{state_of};
ghost use Rattle.arena_table.specs.Slots.{at_bits};

use crate::cells::{ARENA_LIMIT, Cell, NO_CELL, position};
use cell_bits::Bits;
use gz_names::{Moves, Names64, Place, ZoneNo};
use std::alloc::{AllocError, Global};
use std::marker::Model;

// How many arenas memory is taken for at first. Their cells take 160 kilobytes, which the C library maps: a page of
// them takes no memory before it is written, and as there are more arenas, pages are moved and no cell is copied.
const FIRST_ARENAS: usize = 64;

/// An arena without its cells.
#[derive(Drop)]
pub(crate) struct Head {
    /// The slots at which cells stand.
    pub alloc_word: u64,
    pub bits: Bits,
    pub zone: ZoneNo,
    pub is_out: bool,
    /// Whether the arena was given up: no zone owns it, and no cell stands in it.
    pub is_given_up: bool,
}

/// All arenas by number: what marking and sweeping look at most is kept apart from the cells, which
/// are 64 an arena, one arena after the other.
#[derive(Drop)]
pub(crate) struct Store {
    heads: Vec<Head>,
    cells: Vec<Cell>,
}

impl Model for Store {
    ghost use Rattle.std.specs.Prelude.{◌-◌, ◌/◌, min, vec_len, vec_capacity};
    ghost use Rattle.arena_table.specs.Stored.{StoreState, AreStored, arenas_of};

    ghost Value = { StoreState };

    ghost view = { λ s. record {
      arenas = arenas_of s.heads.items s.cells.items;
      room = min (vec_capacity s.heads) (vec_capacity s.cells / 64) - vec_len s.heads;
    } };

    ghost invariant = { λ s. AreStored s.heads.items s.cells.items };
}

impl Store {
    ghost use Rattle.arena_table.specs.Cells.{state_of};
    ghost use Rattle.arena_table.specs.Slots.{Arena, IsWithin, alloc_word_of, names_of, empty_arena, change_at};
    ghost use Rattle.arena_table.specs.Slots.{cell_at, with_cell, with_field, with_bits, handed_out, taken_in};
    ghost use Rattle.arena_table.specs.Slots.{given_up};
    ghost use Rattle.arena_table.specs.Moving.{GoInside, forwarded_at};
    ghost use Rattle.arena_table.specs.Stored.{StoreState, IsHeadOf};

    /// No arenas. It takes no memory.
    pub fn new(alloc: Global) -> Self
        ensures { result.arenas ≡ [] }
    {
        Store {
            heads: Vec::new(alloc),
            cells: Vec::new(alloc),
        }
    }

    /// How many arenas there are.
    pub fn len(&self) -> usize
        ensures value { result ≡ length self.now.arenas }
        ensures few { result ≤ ARENA_LIMIT }
    {
        self.heads.len()
    }

    /// Takes memory for one arena more.
    pub fn reserve(&mut self) -> Result<(), AllocError>
        ensures room { OnOk result (0 < self.new.room) }
        ensures kept { self.old.room ≤ self.new.room }
        ensures same { self.new.arenas ≡ self.old.arenas }
    {
        let more = if self.heads.is_empty() {
            FIRST_ARENAS
        } else {
            1
        };
        self.heads.reserve(more)?;
        self.cells.reserve(64 * more)?;
        Ok(())
    }

    /// Makes an arena for which there is room.
    #[cold]
    #[inline(never)]
    pub fn push(&mut self, zone: ZoneNo)
        requires room { 0 < self.old.room }
        requires few { length self.old.arenas < ARENA_LIMIT }
        ensures { self.new.arenas ≡ self.old.arenas ++ empty_arena zone ∷ [] }
    {
        self.heads.push_reserved(Head {
            alloc_word: 0,
            bits: Bits { black: 0, gob: 0 },
            zone,
            is_out: false,
            is_given_up: false,
        });
        push_alike(&mut self.cells, NO_CELL);
    }

    /// The cell at a place.
    pub fn cell(&self, place: Place) -> &Cell
        requires { IsSome (cell_at self.now.arenas place) }
        ensures { cell_at self.now.arenas place ≡ Some (state_of result.now) }
    {
        &self.cells[position(place) as usize]
    }

    /// An arena without its cells.
    pub fn head(&self, arena: usize) -> &Head
        requires { arena < length self.now.arenas }
        ensures head { IsSomeAnd (slice_get self.now.arenas arena) (λ a. IsHeadOf a result.now) }
        ensures few { arena < ARENA_LIMIT }
    {
        &self.heads[arena]
    }

    /// A cell is put into a slot.
    pub fn put(&mut self, place: Place, cell: Cell)
        requires { place.0 < length self.old.arenas }
        ensures { self.new.arenas
            ≡ change_at (with_cell place.1 (state_of cell)) self.old.arenas place.0 }
    {
        self.heads[place.arena() as usize].alloc_word |= 1 << place.slot();
        self.cells[position(place) as usize] = cell;
    }

    /// A field of a cell takes a value.
    pub fn set_field(&mut self, place: Place, f: u8, value: Option<Place>)
        requires field { IsSomeAnd (cell_at self.old.arenas place) (λ cell. f < length cell.fields) }
        requires value { ForSome value (λ p. p.0 < length self.old.arenas) }
        ensures arenas { self.new.arenas
            ≡ change_at (with_field place.1 f value) self.old.arenas place.0 }
        ensures room { self.new.room ≡ self.old.room }
    {
        self.cells[position(place) as usize].set_field(f, value);
    }

    /// Has the memory of a slot fetched, without waiting for it.
    #[inline(always)]
    pub fn fetch(&mut self, place: Place)
        requires { place.0 < length self.old.arenas }
        ensures { self.new ≡ self.old }
    {
        self.cells[position(place) as usize].fetched = true;
    }

    /// An arena takes mark bits.
    pub fn set_bits(&mut self, arena: usize, bits: Bits)
        requires { arena < length self.old.arenas }
        ensures arenas { self.new.arenas ≡ change_at (with_bits bits) self.old.arenas arena }
        ensures room { self.new.room ≡ self.old.room }
    {
        self.heads[arena].bits = bits;
    }

    /// An arena is handed to sweeping.
    pub fn set_out(&mut self, arena: usize)
        requires { arena < length self.old.arenas }
        ensures arenas { self.new.arenas ≡ change_at handed_out self.old.arenas arena }
        ensures room { self.new.room ≡ self.old.room }
    {
        self.heads[arena].is_out = true;
    }

    /// An arena comes back from sweeping, without the freed cells.
    pub fn take_in(&mut self, arena: usize, freed: u64, bits: Bits)
        requires { arena < length self.old.arenas }
        ensures { self.new.arenas ≡ change_at (taken_in freed bits) self.old.arenas arena }
    {
        let head = &mut self.heads[arena];
        head.alloc_word &= !freed;
        head.bits = bits;
        head.is_out = false;
    }

    /// Each arena has 64 slots. It does nothing.
    pub fn whole_law(&self)
        ensures { All (λ (a : Arena). length a.slots ≡ 64) self.now.arenas }
    {
        let _ = &self.heads;
    }

    /// The fields of a cell lead to where their cells have gone.
    pub fn forward(&mut self, place: Place, moves: &Moves)
        requires cell { IsSome (cell_at self.old.arenas place) }
        requires goals { GoInside self.old.arenas moves.now }
        ensures arenas { self.new.arenas
            ≡ change_at (forwarded_at moves.now place.1) self.old.arenas place.0 }
        ensures room { self.new.room ≡ self.old.room }
    {
        self.cells[position(place) as usize].forward(moves);
    }

    /// An arena is given up, in which no cell stands.
    pub fn give_up(&mut self, arena: usize)
        requires { arena < length self.old.arenas }
        ensures arenas { self.new.arenas
            ≡ change_at given_up self.old.arenas arena }
        ensures room { self.new.room ≡ self.old.room }
        ensures few { arena < ARENA_LIMIT }
    {
        self.heads[arena].is_given_up = true;
    }

    /// Puts the names of the cells at the slots of a word, in slot order, in the place of those of a list.
    pub fn names_at(&self, arena: usize, word: u64, names: &mut Names64)
        requires made { arena < length self.now.arenas }
        requires cells { IsSomeAnd (slice_get self.now.arenas arena)
            (λ a. IsWithin word (alloc_word_of a.slots)) }
        ensures { IsSomeAnd (slice_get self.now.arenas arena)
            (λ a. names.new ≡ names_of (at_bits word a.slots)) }
    {
        let cells = self.cells.as_slice();
        let first = 64 * arena;
        names_of_cells(&cells[first..first + 64], word, names)
    }
}

// The bits of an arena, where those of a slot are these.
pub(crate) fn marked(bits: Bits, slot: u8, black: u64, gob: u64) -> Bits
    requires slot { slot < 64 }
    requires black { black < 2 }
    requires gob { gob < 2 }
    ensures black { (s : ℕ) → bit_at result.black s ≡ (if s == slot then black else bit_at bits.black s) }
    ensures gob { (s : ℕ) → bit_at result.gob s ≡ (if s == slot then gob else bit_at bits.gob s) }
{
    Bits {
        black: with_bit(bits.black, slot, black),
        gob: with_bit(bits.gob, slot, gob),
    }
}

// A word where the bit of a slot is this.
fn with_bit(word: u64, slot: u8, bit: u64) -> u64
    requires slot { slot < 64 }
    requires bit { bit < 2 }
    ensures { (s : ℕ) → bit_at result s ≡ (if s == slot then bit else bit_at word s) }
{
    (word & !(1 << slot)) | (bit << slot)
}

// Pushes the cells of an arena, all alike, for which there is room.
fn push_alike(cells: &mut Vec<Cell>, cell: Cell)
    requires { vec_len cells.old + 64 ≤ vec_capacity cells.old }
    ensures { cells.new.items ≡ cells.old.items ++ replicate 64 cell }
{
    for _slot in 0..64u8 {
        cells.push_reserved(cell);
    }
}

// Puts the names of the cells at the slots of a word in the place of those of a list.
fn names_of_cells(cells: &[Cell], word: u64, names: &mut Names64)
    requires { length cells.now ≡ 64 }
    ensures { names.new ≡ map (λ c. (state_of c).name) (at_bits word cells.now) }
{
    names.clear();
    let mut left = word;
    while left != 0 {
        names.push(cells[left.trailing_zeros() as usize].name());
        left &= left - 1;
    }
}
