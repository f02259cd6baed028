// Three piles of places.
ghost use Rattle.std.specs.Prelude.{◌≡◌, ◌≢◌, ◌≤◌, ◌<◌, ◌∷◌, [], length, IfOk, IfSome, IfNone, MatchBool};
ghost use Rattle.std.specs.List.Sorted.{IsPermutation};
ghost use Rattle.mark_stack.specs.Stack.{HasRoom};

use gz_names::{NoMemory, Place};
use std::alloc::{AllocError, Global};
use std::marker::Model;

/// How many places a pile holds at most.
pub const PILE_LIMIT: usize = 4096;

/// The piles of a mark stack.
#[derive(Clone, Copy, Debug, PartialEq, Eq)]
pub enum Pile {
    /// Cells that were marked black.
    Black,
    /// Cells from which gray marking goes on.
    Gray,
    /// Cells that the running call turned black outside marking zones; empty between calls.
    Wake,
}

/// The places of the cells that are still to be followed, by pile.
#[derive(Drop)]
pub struct Stack {
    black: Vec<Place>,
    gray: Vec<Place>,
    wake: Vec<Place>,
    // The index at which a place was last taken off the black or the gray pile.
    taken: usize,
}

impl Model for Stack {
    ghost use Rattle.mark_stack.specs.Stack.{Piles, HasRoom};

    ghost Value = { Piles };

    ghost view = { λ s. record { black = s.black.items; gray = s.gray.items; wake = s.wake.items } };

    ghost invariant = { λ s. HasRoom s.black × HasRoom s.gray × HasRoom s.wake };
}

impl Stack {
    ghost use Rattle.mark_stack.specs.Stack.{Piles, IsPushed, no_places, pile_of};

    /// Empty piles, with all the memory that they ever take.
    pub fn new(alloc: Global) -> Result<Self, NoMemory>
        ensures { IfOk result (λ stack. stack ≡ no_places) }
    {
        Ok(Stack {
            black: new_pile(alloc)?,
            gray: new_pile(alloc)?,
            wake: new_pile(alloc)?,
            taken: 0,
        })
    }

    /// Puts a place on a pile. False exactly where the pile is full, which is then as it was.
    #[inline(always)]
    pub fn push(&mut self, pile: Pile, place: Place) -> bool
        ensures { MatchBool result
            ((length (pile_of self.old pile) < PILE_LIMIT) × IsPushed self.old pile place self.new)
            ((length (pile_of self.old pile) ≡ PILE_LIMIT) × (self.new ≡ self.old)) }
    {
        match pile {
            Pile::Black => push_onto(&mut self.black, place),
            Pile::Gray => push_onto(&mut self.gray, place),
            Pile::Wake => push_onto(&mut self.wake, place),
        }
    }

    /// Takes all places off all piles.
    pub fn clear(&mut self)
        ensures { self.new ≡ no_places }
    {
        self.black.clear();
        self.gray.clear();
        self.wake.clear();
    }

    /// How many places are on a pile.
    pub fn len(&self, pile: Pile) -> usize
        ensures { result ≡ length (pile_of self.now pile) }
    {
        match pile {
            Pile::Black => self.black.len(),
            Pile::Gray => self.gray.len(),
            Pile::Wake => self.wake.len(),
        }
    }

    /// Whether a pile is empty.
    #[inline(always)]
    pub fn is_empty(&self, pile: Pile) -> bool
        ensures { MatchBool result (pile_of self.now pile ≡ []) (pile_of self.now pile ≢ []) }
    {
        match pile {
            Pile::Black => self.black.is_empty(),
            Pile::Gray => self.gray.is_empty(),
            Pile::Wake => self.wake.is_empty(),
        }
    }

    /// Takes one of the places off a pile; `None` exactly where the pile is empty.
    #[inline(always)]
    pub fn pop(&mut self, pile: Pile) -> Option<Place>
        ensures some { IfSome result (λ place. IsPushed self.new pile place self.old) }
        ensures none { IfNone result ((pile_of self.old pile ≡ []) × (self.new ≡ self.old)) }
    {
        match pile {
            Pile::Black => take_in_turn(&mut self.black, &mut self.taken),
            Pile::Gray => take_in_turn(&mut self.gray, &mut self.taken),
            Pile::Wake => self.wake.pop(),
        }
    }
}

// An empty pile with its memory.
fn new_pile(alloc: Global) -> Result<Vec<Place>, AllocError>
    ensures empty { IfOk result (λ pile. pile.items ≡ []) }
    ensures room { IfOk result HasRoom }
{
    let mut pile = Vec::new(alloc);
    pile.reserve(PILE_LIMIT)?;
    Ok(pile)
}

// Puts a place on top of a pile. False where the pile is full.
#[inline(always)]
fn push_onto(pile: &mut Vec<Place>, place: Place) -> bool
    requires { HasRoom pile.old }
    ensures pushed { MatchBool result
        ((length pile.old.items < PILE_LIMIT) × IsPermutation (place ∷ pile.old.items) pile.new.items)
        ((length pile.old.items ≡ PILE_LIMIT) × (pile.new.items ≡ pile.old.items)) }
    ensures room { HasRoom pile.new }
{
    if pile.len() == PILE_LIMIT {
        return false;
    }
    pile.push_reserved(place);
    true
}

// Takes one of the places below the last off a pile, in turn; the last one where there is no other.
#[inline(always)]
fn take_in_turn(pile: &mut Vec<Place>, taken: &mut usize) -> Option<Place>
    requires { HasRoom pile.old }
    ensures some { IfSome result (λ place. IsPermutation (place ∷ pile.new.items) pile.old.items) }
    ensures none { IfNone result ((pile.old.items ≡ []) × (pile.new.items ≡ pile.old.items)) }
    ensures room { HasRoom pile.new }
{
    let last = pile.len().checked_sub(1)?;
    *taken = next_in_turn(*taken, last);
    Some(pile.swap_remove(*taken))
}

// The index to take from after another one: that below it, as long as this is one of the eight from the
// highest down, and else the highest.
#[inline(always)]
fn next_in_turn(taken: usize, last: usize) -> usize
    ensures { result ≤ last }
{
    let highest = highest_to_take(last);
    if taken != 0 && taken <= highest && highest - taken < 7 {
        taken - 1
    } else {
        highest
    }
}

// The highest index to take from. The memory of a cell is asked for as its place comes onto a pile; where
// there are enough places, eight lie above the one that is taken, so that its memory has come by then.
#[inline(always)]
fn highest_to_take(last: usize) -> usize
    ensures { result ≤ last }
{
    last.saturating_sub(if last < 16 { 1 } else { 8 })
}
