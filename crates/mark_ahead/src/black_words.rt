// Black cells of the heap, and the black words of its arenas.
ghost use Rattle.std.specs.Prelude.{◌≡◌, ◌⊎◌, ◌↔◌, ◌<◌, None, true, length, map, Contains, IfOk, OnOk};
ghost use Rattle.gz_names.specs.declared.numbers.Place.{Place as APlace};
ghost use Rattle.cell_bits.specs.declared.bits.Bits.{Bits as ABits};
ghost use Rattle.heap_core.specs.Shape.{is_marking, out_of};
ghost use Rattle.mark_ahead.specs.Ahead.{IsMarkedBlack, IsSlotOf, TakesWords};

use cell_bits::Bits;
use gz_names::{NoMemory, Place};
use heap_core::Heap;
use std::alloc::Global;

/// The black cells of the marking zones, by the heap's own bits.
pub(crate) fn black_cells(alloc: Global, heap: &Heap) -> Result<Vec<Place>, NoMemory>
    requires { length heap.now.colours ≡ length heap.now.shape.arenas }
    ensures { IfOk result (λ cells. (x : APlace)
        → Contains cells.items x ↔ ((x.1 < 64) × IsMarkedBlack heap.now x)) }
{
    let zones = heap.marking();
    let mut cells = Vec::new(alloc);
    heap.arenas();
    let mut from = 0;
    while let Some(arena) = heap.next_in(zones, from) {
        push_slots(&mut cells, arena, heap.bits(arena).black)?;
        from = arena + 1;
    }
    Ok(cells)
}

// Pushes the places of the slots of an arena whose bits are set in a word.
fn push_slots(places: &mut Vec<Place>, arena: u32, word: u64) -> Result<(), NoMemory>
    ensures { OnOk result ((x : APlace)
        → Contains places.new.items x ↔ (Contains places.old.items x ⊎ IsSlotOf arena word x)) }
{
    let mut left = word;
    while left != 0 {
        let Some(place) = Place::new(arena, left.trailing_zeros() as u8) else {
            unreachable!()
        };
        places.push(place)?;
        left &= left - 1;
    }
    Ok(())
}

/// The black word of each arena, by the heap's own bits.
pub(crate) fn black_words(alloc: Global, heap: &Heap) -> Result<Vec<u64>, NoMemory>
    requires { length heap.now.colours ≡ length heap.now.shape.arenas }
    ensures { IfOk result (λ words. words.items ≡ map (λ (bits : ABits). bits.black) heap.now.colours) }
{
    let mut words = Vec::with_capacity(alloc, heap.arenas() as usize)?;
    for arena in 0..heap.arenas() {
        words.push(heap.bits(arena).black)?;
    }
    Ok(words)
}

/// The arenas of the marking zones take these black words.
pub(crate) fn take_words(heap: &mut Heap, words: &[u64])
    requires sized { length heap.old.colours ≡ length heap.old.shape.arenas }
    requires words { length words.now ≡ length heap.old.shape.arenas }
    requires kept { (x : APlace) → is_marking heap.old.shape x ≡ true → out_of heap.old.shape x.0 ≡ None }
    ensures { TakesWords words.now heap.old heap.new }
{
    let zones = heap.marking();
    heap.arenas();
    let mut from = 0;
    while let Some(arena) = heap.next_in(zones, from) {
        let gob = heap.bits(arena).gob;
        heap.set_bits(
            arena,
            Bits {
                black: words[arena as usize],
                gob,
            },
        );
        from = arena + 1;
    }
}
