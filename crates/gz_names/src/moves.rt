// Cells that go to other places.
ghost use Rattle.std.specs.Prelude.{◌≡◌, ◌≢◌, ◌<◌, ◌^◌, ◌++◌, ◌∷◌, [], All, IsSomeAnd, MatchBool, MatchOption, OnErr};
ghost use Rattle.std.specs.Prelude.{OnOk, if◌then◌else◌, length, slice_get, true};
ghost use Rattle.gz_names.specs.Moves.{AreInOrder, Ascend, IsLeft, LeaveBefore, StandsAt, leaves, moved, number_of};
ghost use Rattle.gz_names.specs.Moves.{with_left};

use crate::numbers::Place;
use crate::replies::NoMemory;
use std::alloc::Global;
use std::marker::Model;

/// A cell goes from one place to another.
#[derive(Clone, Copy, Debug, PartialEq, Eq)]
pub struct Move {
    pub from: Place,
    pub to: Place,
}

// The cells that leave an arena: their slots, and the number of the first one's move.
#[derive(Clone, Copy)]
struct Leaving {
    arena: u32,
    slots: u64,
    first: usize,
}

/// Moves of cells, in the order of the places that they leave. To tell where the cell of a place goes takes one step
/// where its arena comes before or behind all that are left, or where those lie side by side, and else as many more as
/// their number has binary digits.
#[derive(Drop)]
pub struct Moves {
    moves: Vec<Move>,
    arenas: Vec<Leaving>,
}

impl Model for Moves {
    ghost use Rattle.std.specs.Prelude.{List};
    ghost use Rattle.gz_names.specs.Moves.{AreKept};
    ghost use Rattle.gz_names.specs.declared.moves.Move.{Move as AMove};

    ghost Value = { List AMove };

    ghost view = { λ m. m.moves.items };

    ghost invariant = { λ m. AreKept m.moves.items m.arenas.items };
}

impl Moves {
    /// No moves. It takes no memory.
    pub fn new(alloc: Global) -> Self
        ensures { result ≡ [] }
    {
        Moves {
            moves: Vec::new(alloc),
            arenas: Vec::new(alloc),
        }
    }

    /// Adds a move from a place behind those that the other moves leave.
    pub fn push(&mut self, step: Move) -> Result<(), NoMemory>
        requires { LeaveBefore self.old step.from }
        ensures ok { OnOk result (self.new ≡ self.old ++ step ∷ []) }
        ensures err { OnErr result (self.new ≡ self.old) }
    {
        self.moves.reserve(1)?;
        leave(&mut self.arenas, step.from, self.moves.len())?;
        self.moves.push_reserved(step);
        Ok(())
    }

    /// The moves, in order.
    pub fn as_slice(&self) -> &[Move]
        ensures moves { result.now ≡ self.now }
        ensures order { AreInOrder self.now }
    {
        self.moves.as_slice()
    }

    /// Whether there are none.
    pub fn is_empty(&self) -> bool
        ensures { MatchBool result (self.now ≡ []) (self.now ≢ []) }
    {
        self.moves.is_empty()
    }

    /// How many there are.
    pub fn len(&self) -> usize
        ensures { result ≡ length self.now }
    {
        self.moves.len()
    }

    /// Where the cell of a place goes: where a move takes it, or nowhere else.
    pub fn moved_to(&self, place: Place) -> Place
        ensures moved { result ≡ moved self.now place }
        ensures order { AreInOrder self.now }
    {
        match self.number_of(place) {
            Some(number) => self.moves[number].to,
            None => place,
        }
    }

    // The number of the move that leaves a place, if one does.
    fn number_of(&self, place: Place) -> Option<usize>
        ensures number { MatchOption result (IsLeft self.now place → ⊥)
            (λ number. IsSomeAnd (slice_get self.now number) (λ step. step.from ≡ place)) }
        ensures order { AreInOrder self.now }
    {
        let at = find_arena(self.arenas.as_slice(), place.arena())?;
        self.arenas[at].number_of(place.slot())
    }
}

impl Leaving {
    // The number of the move that leaves a slot, if one does.
    fn number_of(&self, slot: u8) -> Option<usize>
        requires slot { slot < 64 }
        requires fits { leaves self.now slot ≡ true → number_of self.now slot < 2 ^ 64 }
        ensures { result ≡ (if leaves self.now slot then Some (number_of self.now slot) else None) }
    {
        let bit = 1u64 << slot;
        if self.slots & bit == 0 {
            return None;
        }
        let before = self.slots & (bit - 1);
        Some(self.first + before.count_ones() as usize)
    }
}

// The index of an arena among those that are left: none before the first or behind the last. Those of one zone often
// lie side by side: then it is how far the arena is from the first.
fn find_arena(arenas: &[Leaving], arena: u32) -> Option<usize>
    requires { Ascend arenas.now }
    ensures { MatchOption result (All (λ leaving. leaving.arena ≢ arena) arenas.now) (StandsAt arenas.now arena) }
{
    let first = arenas.first()?;
    let last = arenas.last()?;
    if arena < first.arena || last.arena < arena {
        return None;
    }
    let near = (arena - first.arena) as usize;
    match arenas.get(near) {
        Some(leaving) if leaving.arena == arena => Some(near),
        _ => search_arena(arenas, arena),
    }
}

// The index of an arena among those that are left, wherever they lie.
fn search_arena(arenas: &[Leaving], arena: u32) -> Option<usize>
    requires { Ascend arenas.now }
    ensures { MatchOption result (All (λ leaving. leaving.arena ≢ arena) arenas.now) (StandsAt arenas.now arena) }
{
    match arenas.binary_search_by_key(&arena, |leaving| leaving.arena) {
        Ok(at) => Some(at),
        Err(_) => None,
    }
}

// Adds a place that the move of this number leaves to the arenas that are left: no place behind it is left.
fn leave(arenas: &mut Vec<Leaving>, place: Place, number: usize) -> Result<(), NoMemory>
    ensures ok { OnOk result (arenas.new.items ≡ with_left arenas.old.items place number) }
    ensures err { OnErr result (arenas.new.items ≡ arenas.old.items) }
    ensures slot { place.1 < 64 }
{
    let slots = 1u64 << place.slot();
    match arenas.last() {
        Some(last) if last.arena == place.arena() => {
            let end = arenas.len() - 1;
            arenas[end].slots |= slots;
        }
        _ => arenas.push(Leaving {
            arena: place.arena(),
            slots,
            first: number,
        })?,
    }
    Ok(())
}
