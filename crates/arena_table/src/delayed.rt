// Cells for which a full pile of the mark stack had no room.
ghost use Rattle.std.specs.Prelude.{◌≡◌, ◌≢◌, ◌≤◌, ◌<◌, ◌+◌, ◌*◌, ◌==◌, ◌∷◌, ℕ, [], Contains, length, max, OnOk};
ghost use Rattle.std.specs.Prelude.{IfSome, IfNone, MatchBool, if◌then◌else◌};
ghost use Rattle.std.specs.List.Sorted.{IsPermutation};
ghost use Rattle.mark_stack.specs.Stack.{IsPushed, no_places, pile_of};
ghost use Rattle.arena_table.specs.Sets.{arena_bit};
ghost use Rattle.arena_table.specs.Delayed.{AreCovered, ArePadded, IsAsRoomy, delayed_of};

use crate::arena_sets::ArenaSet;
use gz_names::Place;
use mark_stack::Pile;
use std::alloc::{AllocError, Global};
use std::marker::Model;

/// A set of cells, which finds one at once: a mask an arena, whose bits are those of its slots, and the
/// set of the arenas whose mask is not 0.
#[derive(Drop)]
pub(crate) struct CellSet {
    masks: Vec<u64>,
    arenas: ArenaSet,
    count: u64,
}

impl Model for CellSet {
    ghost use Rattle.std.specs.Prelude.{length};
    ghost use Rattle.arena_table.specs.Delayed.{CellSetState, AreCells, places_from};

    ghost Value = { CellSetState };

    ghost view = { λ s. record {
      places = places_from 0 s.masks.items;
      room = length s.masks.items;
    } };

    ghost invariant = { λ s. AreCells s.masks.items s.arenas s.count };
}

impl CellSet {
    ghost use Rattle.arena_table.specs.Delayed.{CellSetState};

    /// The set without cells. It takes no memory.
    pub fn new(alloc: Global) -> Self
        ensures { result ≡ record { places = []; room = 0 } }
    {
        CellSet {
            masks: Vec::new(alloc),
            arenas: ArenaSet::new(alloc),
            count: 0,
        }
    }

    /// Takes memory for the cells of the arenas below a number.
    pub fn cover(&mut self, count: usize) -> Result<(), AllocError>
        requires { count ≤ 67108863 }
        ensures room { OnOk result (count ≤ self.new.room) }
        ensures kept { self.old.room ≤ self.new.room }
        ensures same { self.new.places ≡ self.old.places }
    {
        self.arenas.cover(count)?;
        cover_masks(&mut self.masks, count)
    }

    /// Adds a cell of an arena for which there is memory.
    pub fn insert(&mut self, place: Place)
        requires room { place.0 < self.old.room }
        requires fresh { Contains self.old.places place → ⊥ }
        ensures more { IsPermutation (place ∷ self.old.places) self.new.places }
        ensures room { self.new.room ≡ self.old.room }
    {
        let arena = place.arena() as usize;
        self.masks[arena] |= 1 << place.slot();
        self.arenas.insert(arena);
        self.count += 1;
    }

    /// Takes the cell at the lowest place out; `None` exactly where there is none.
    #[inline(always)]
    pub fn take(&mut self) -> Option<Place>
        ensures some { IfSome result (λ place. self.old.places ≡ place ∷ self.new.places) }
        ensures none { IfNone result ((self.old.places ≡ []) × (self.new.places ≡ [])) }
        ensures room { self.new.room ≡ self.old.room }
    {
        if self.count == 0 {
            return None;
        }
        self.take_lowest()
    }

    /// Whether the set has no cells.
    #[inline(always)]
    fn is_empty(&self) -> bool
        ensures { MatchBool result (self.now.places ≡ []) (self.now.places ≢ []) }
    {
        self.count == 0
    }

    // Takes the cell at the lowest place out; `None` exactly where there is none.
    #[cold]
    #[inline(never)]
    fn take_lowest(&mut self) -> Option<Place>
        ensures some { IfSome result (λ place. self.old.places ≡ place ∷ self.new.places) }
        ensures none { IfNone result ((self.old.places ≡ []) × (self.new.places ≡ [])) }
        ensures room { self.new.room ≡ self.old.room }
    {
        let arena = self.arenas.lowest()?;
        let mask = self.masks[arena];
        let rest = mask & (mask - 1);
        self.masks[arena] = rest;
        keep_if_some(&mut self.arenas, arena, rest);
        self.count -= 1;
        Place::new(arena as u32, mask.trailing_zeros() as u8)
    }
}

/// The cells that are delayed, by pile.
#[derive(Drop)]
pub(crate) struct Delayed {
    black: CellSet,
    gray: CellSet,
    wake: CellSet,
}

impl Model for Delayed {
    ghost use Rattle.arena_table.specs.Delayed.{DelayedSets};

    ghost Value = { DelayedSets };

    ghost view = { λ s. record { black = s.black; gray = s.gray; wake = s.wake } };
}

impl Delayed {
    ghost use Rattle.mark_stack.specs.Stack.{Piles};
    ghost use Rattle.arena_table.specs.Delayed.{DelayedSets};

    /// No cells. It takes no memory.
    pub fn new(alloc: Global) -> Self
        ensures none { delayed_of result ≡ no_places }
        ensures covered { AreCovered result 0 }
    {
        Delayed {
            black: CellSet::new(alloc),
            gray: CellSet::new(alloc),
            wake: CellSet::new(alloc),
        }
    }

    /// Takes memory for the cells of the arenas below a number.
    pub fn cover(&mut self, count: usize) -> Result<(), AllocError>
        requires { count ≤ 67108863 }
        ensures covered { OnOk result (AreCovered self.new count) }
        ensures kept { IsAsRoomy self.old self.new }
        ensures same { delayed_of self.new ≡ delayed_of self.old }
    {
        self.black.cover(count)?;
        self.gray.cover(count)?;
        self.wake.cover(count)
    }

    /// A cell of an arena for which there is memory is delayed for a pile.
    pub fn insert(&mut self, pile: Pile, place: Place)
        requires room { AreCovered self.old (place.0 + 1) }
        requires fresh { Contains (pile_of (delayed_of self.old) pile) place → ⊥ }
        ensures more { IsPushed (delayed_of self.old) pile place (delayed_of self.new) }
        ensures kept { IsAsRoomy self.old self.new }
    {
        match pile {
            Pile::Black => self.black.insert(place),
            Pile::Gray => self.gray.insert(place),
            Pile::Wake => self.wake.insert(place),
        }
    }

    /// Whether no cell is delayed for a pile.
    #[inline(always)]
    pub fn is_empty(&self, pile: Pile) -> bool
        ensures { MatchBool result (pile_of (delayed_of self.now) pile ≡ [])
            (pile_of (delayed_of self.now) pile ≢ []) }
    {
        match pile {
            Pile::Black => self.black.is_empty(),
            Pile::Gray => self.gray.is_empty(),
            Pile::Wake => self.wake.is_empty(),
        }
    }

    /// Takes a cell that is delayed for a pile; `None` exactly where none is.
    #[inline(always)]
    pub fn take(&mut self, pile: Pile) -> Option<Place>
        ensures some { IfSome result
            (λ place. IsPushed (delayed_of self.new) pile place (delayed_of self.old)) }
        ensures none { IfNone result ((pile_of (delayed_of self.old) pile ≡ [])
            × (delayed_of self.new ≡ delayed_of self.old)) }
        ensures kept { IsAsRoomy self.old self.new }
    {
        match pile {
            Pile::Black => self.black.take(),
            Pile::Gray => self.gray.take(),
            Pile::Wake => self.wake.take(),
        }
    }
}

// An arena leaves a set if its mask is 0.
fn keep_if_some(arenas: &mut ArenaSet, arena: usize, mask: u64)
    requires { arena < 64 * length arenas.old }
    ensures room { length arenas.new ≡ length arenas.old }
    ensures emptied { mask ≡ 0 → (other : ℕ) → arena_bit arenas.new other
        ≡ (if other == arena then 0 else arena_bit arenas.old other) }
    ensures left { mask ≢ 0 → arenas.new ≡ arenas.old }
{
    if mask == 0 {
        arenas.remove(arena);
    }
}

// Puts masks that are 0 at the end, until there is one for each arena below a number.
fn cover_masks(masks: &mut Vec<u64>, count: usize) -> Result<(), AllocError>
    ensures room { OnOk result (count ≤ length masks.new.items) }
    ensures most { length masks.new.items ≤ max (length masks.old.items) count }
    ensures padded { ArePadded masks.old.items masks.new.items }
{
    while masks.len() < count {
        masks.push(0)?;
    }
    Ok(())
}
