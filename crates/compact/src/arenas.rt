// The arenas of a zone, one after the other.
ghost use Rattle.std.specs.Prelude.{◌≡◌, IfNone, IfSome};
ghost use Rattle.compact.specs.Arenas.{IsNextArena, NoArenaFrom};
ghost use Rattle.compact.specs.Packing.{IsArenaAfter, held_of_zone};

use gz_names::{ZoneNo, ZoneSet};
use heap_core::Heap;

// The lowest arena of a zone from a number on.
pub(crate) fn next_arena(heap: &Heap, zone: ZoneNo, from: u32) -> Option<u32>
    ensures some { IfSome result (IsNextArena heap.now.shape.arenas zone from) }
    ensures none { IfNone result (NoArenaFrom heap.now.shape.arenas zone from) }
{
    // So each arena's number has one that follows it.
    heap.arenas();
    heap.next_in(ZoneSet::only(zone), from)
}

// How many cells stand in the arenas of a zone.
pub(crate) fn count_cells(heap: &Heap, zone: ZoneNo) -> u64
    ensures { result ≡ held_of_zone zone heap.now.shape.arenas }
{
    let mut count = 0;
    let mut from = 0;
    while let Some(arena) = next_arena(heap, zone, from) {
        count += u64::from(heap.alloc_word(arena).count_ones());
        from = arena + 1;
    }
    count
}

// The number of the arena of a zone that comes after this many of its arenas; past its last, the number after all
// arenas.
pub(crate) fn arena_after(heap: &Heap, zone: ZoneNo, count: u64) -> u32
    ensures { IsArenaAfter heap.now.shape.arenas zone count result }
{
    let mut left = count;
    let mut from = 0;
    while let Some(arena) = next_arena(heap, zone, from) {
        if left == 0 {
            return arena;
        }
        left -= 1;
        from = arena + 1;
    }
    heap.arenas()
}
