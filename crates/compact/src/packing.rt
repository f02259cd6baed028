// Which cells move, and where.
ghost use Rattle.std.specs.Prelude.{◌≡◌, ◌<◌, ◌≤◌, ◌+◌, ℕ, suc, [], IfOk, IsSomeAnd, None, OnOk, length, slice_get};
ghost use Rattle.heap_core.specs.Moving.{AreMoves};
ghost use Rattle.heap_core.specs.Shape.{AreWhole, out_of};
ghost use Rattle.compact.specs.Packed.{AreCounted, HasRoom, IsMover, IsPacked};
ghost use Rattle.compact.specs.Packing.{GoLowest, Packs, free_below};

use crate::arenas::{arena_after, count_cells, next_arena};
use crate::holes::Holes;
use gz_names::{Move, Moves, NoMemory, Place, SLOT_COUNT, ZoneNo};
use heap_core::Heap;
use std::alloc::Global;

// The moves that pack a zone, and the first of its arenas that is given up then.
#[derive(Drop)]
pub(crate) struct Packing {
    pub moves: Moves,
    pub first_given_up: u32,
    // The free slots to which no cell goes.
    holes: Holes,
}

impl Packing {
    // The packing of a zone: its lowest arenas are kept, as many as its cells fill. The cells of the others go, in
    // the order of their places, to the lowest free slots of these. No arena is out.
    pub fn of(alloc: Global, heap: &Heap, zone: ZoneNo) -> Result<Self, NoMemory>
        requires kept { (a : ℕ) → out_of heap.now.shape a ≡ None }
        requires whole { AreWhole heap.now.shape.arenas }
        ensures { IfOk result (λ packing. Packs heap.now.shape zone packing.first_given_up packing.moves) }
    {
        let kept = count_cells(heap, zone).div_ceil(u64::from(SLOT_COUNT));
        let mut packing = Packing {
            moves: Moves::new(alloc),
            first_given_up: arena_after(heap, zone, kept),
            holes: Holes::of(zone),
        };
        packing.move_cells(heap, zone)?;
        packing.moves.as_slice();
        Ok(packing)
    }

    // The cells of the arenas that are given up move. There are as many free slots below.
    fn move_cells(&mut self, heap: &Heap, zone: ZoneNo) -> Result<(), NoMemory>
        requires kept { (a : ℕ) → out_of heap.now.shape a ≡ None }
        requires room { HasRoom heap.now.shape.arenas zone self.old.first_given_up }
        requires packed { IsPacked heap.now.shape zone (self.old.first_given_up, 0) self.old }
        requires none { self.old.moves ≡ [] }
        ensures moves { OnOk result
            (AreMoves heap.now.shape zone self.new.first_given_up self.new.moves) }
        ensures lowest { OnOk result
            (GoLowest heap.now.shape zone self.new.first_given_up [] self.new.moves) }
        ensures first { self.new.first_given_up ≡ self.old.first_given_up }
    {
        let mut from = self.first_given_up;
        while let Some(arena) = next_arena(heap, zone, from) {
            self.move_cells_of(heap, zone, arena)?;
            from = arena + 1;
        }
        Ok(())
    }

    // The cells of an arena move, in the order of their slots.
    fn move_cells_of(&mut self, heap: &Heap, zone: ZoneNo, arena: u32) -> Result<(), NoMemory>
        requires kept { (a : ℕ) → out_of heap.now.shape a ≡ None }
        requires room { HasRoom heap.now.shape.arenas zone self.old.first_given_up }
        requires mine { IsSomeAnd (slice_get heap.now.shape.arenas arena) (λ a. a.zone ≡ zone) }
        requires from { self.old.first_given_up ≤ arena }
        requires packed { IsPacked heap.now.shape zone (arena, 0) self.old }
        requires counted { AreCounted heap.now.shape zone arena self.old }
        ensures packed { OnOk result (IsPacked heap.now.shape zone (arena + 1, 0) self.new) }
        ensures counted { OnOk result (AreCounted heap.now.shape zone (arena + 1) self.new) }
        ensures first { self.new.first_given_up ≡ self.old.first_given_up }
    {
        let word = heap.alloc_word(arena);
        let mut left = word;
        while left != 0 {
            let Some(cell) = Place::new(arena, left.trailing_zeros() as u8) else {
                unreachable!();
            };
            self.move_cell(heap, zone, cell)?;
            left &= left - 1;
        }
        Ok(())
    }

    // A cell moves to the lowest free slot to which none goes.
    fn move_cell(&mut self, heap: &Heap, zone: ZoneNo, cell: Place) -> Result<(), NoMemory>
        requires kept { (a : ℕ) → out_of heap.now.shape a ≡ None }
        requires room { length self.old.moves
            < free_below zone self.old.first_given_up 0 heap.now.shape.arenas }
        requires mover { IsMover heap.now.shape zone self.old.first_given_up cell }
        requires packed { IsPacked heap.now.shape zone cell self.old }
        ensures packed { OnOk result (IsPacked heap.now.shape zone (cell.0, suc cell.1) self.new) }
        ensures count { OnOk result (length self.new.moves ≡ length self.old.moves + 1) }
        ensures first { self.new.first_given_up ≡ self.old.first_given_up }
    {
        let Some(to) = self.holes.next(heap) else {
            unreachable!();
        };
        self.moves.push(Move { from: cell, to })
    }
}
