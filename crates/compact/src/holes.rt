// The free slots of a zone.
ghost use Rattle.std.specs.Prelude.{◌≡◌, ◌≢◌, ℕ, IfNone, IfSome, None};
ghost use Rattle.heap_core.specs.Shape.{out_of};
ghost use Rattle.compact.specs.Holes.{ComesOn, Finds, FindsNone, IsAt, IsBegun};

use crate::arenas::next_arena;
use gz_names::{Place, ZoneNo};
use heap_core::Heap;

// A walk over the free slots of a zone's arenas, ascending.
#[derive(Drop)]
pub(crate) struct Holes {
    zone: ZoneNo,
    // The number after that of the arena to which the walk has come.
    from: u32,
    // The free slots of that arena that are still ahead.
    left: u64,
}

impl Holes {
    // A walk over all of them.
    pub fn of(zone: ZoneNo) -> Self
        ensures zone { result.zone ≡ zone }
        ensures begun { IsBegun result }
    {
        Holes {
            zone,
            from: 0,
            left: 0,
        }
    }

    // The next free slot. No arena is out.
    pub fn next(&mut self, heap: &Heap) -> Option<Place>
        requires kept { (a : ℕ) → out_of heap.now.shape a ≡ None }
        requires at { IsAt heap.now.shape self.old }
        ensures some { IfSome result (λ place. Finds heap.now.shape self.old place self.new) }
        ensures none { IfNone result (FindsNone heap.now.shape self.old) }
    {
        self.come_to_free(heap)?;
        let slot = self.left.trailing_zeros() as u8;
        self.left &= self.left - 1;
        Place::new(self.from - 1, slot)
    }

    // The walk comes to the next arena with a free slot, unless it is in one. None if there is no such arena.
    fn come_to_free(&mut self, heap: &Heap) -> Option<()>
        requires kept { (a : ℕ) → out_of heap.now.shape a ≡ None }
        requires at { IsAt heap.now.shape self.old }
        ensures some { IfSome result (λ _. ComesOn heap.now.shape self.old self.new) }
        ensures free { IfSome result (λ _. self.new.left ≢ 0) }
        ensures none { IfNone result (FindsNone heap.now.shape self.old) }
    {
        while self.left == 0 {
            let arena = next_arena(heap, self.zone, self.from)?;
            self.left = !heap.alloc_word(arena);
            self.from = arena + 1;
        }
        Some(())
    }
}
