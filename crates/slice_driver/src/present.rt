// How many cells are present, also while arenas are handed to sweeping.
ghost use Rattle.std.specs.Prelude.{◌≡◌, ◌≤◌, ◌<◌, ◌+◌, ℕ, None, Option, Some, length, slice_get};
ghost use Rattle.arena_table.specs.Slots.{held_in};
ghost use Rattle.cell_bits.specs.declared.bits.Bits.{Bits};
ghost use Rattle.heap_core.specs.Shape.{ArenaShape, AreWhole, out_of};
ghost use Rattle.heap_core.specs.Sweeping.{held_in_all};
ghost use Rattle.slice_driver.specs.Present.{present_in_all, present_in_arena};
ghost use Rattle.slice_driver.specs.Units.{IsSound};

use crate::collector::Collector;
use heap_core::Heap;

impl Collector {
    /// How many objects and maps were made since the collector began.
    pub fn objects(&self) -> u64
        ensures { result ≡ self.now.heap.shape.objects }
    {
        self.heap.objects()
    }

    /// How many cells are present: of an arena that is handed to sweeping those that were not white
    /// then. It walks over arenas only where one is out.
    pub fn present(&self) -> u64
        requires { (flown : ℕ → Option Bits) × IsSound self.now flown }
        ensures { result ≡ present_in_all self.now.heap.shape.arenas }
    {
        let Some(first) = self.next_out() else {
            return self.heap.count();
        };
        self.heap.count() - lost_from(&self.heap, first)
    }
}

// How many cells lie in arenas and are not present, where no arena below the first is handed to
// sweeping.
fn lost_from(heap: &Heap, first: u32) -> u64
    requires whole { AreWhole heap.now.shape.arenas }
    requires below { (a : ℕ) → a < first → out_of heap.now.shape a ≡ None }
    requires first { first < length heap.now.shape.arenas }
    ensures { held_in_all heap.now.shape.arenas
        ≡ result + present_in_all heap.now.shape.arenas }
{
    let mut lost = 0u64;
    for arena in first..heap.arenas() {
        lost += lost_in(heap, arena);
    }
    lost
}

// How many cells of an arena are not present.
fn lost_in(heap: &Heap, arena: u32) -> u64
    requires whole { AreWhole heap.now.shape.arenas }
    requires made { arena < length heap.now.shape.arenas }
    ensures lost { (a : ArenaShape) → slice_get heap.now.shape.arenas arena ≡ Some a
        → held_in a.slots ≡ result + present_in_arena a }
    ensures few { result ≤ 64 }
{
    if !heap.is_out(arena) {
        return 0;
    }
    let alloc_word = heap.alloc_word(arena);
    let white = heap.bits_at_hand_out(arena).white_mask(alloc_word);
    u64::from(white.count_ones())
}
