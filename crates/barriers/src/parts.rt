// Entries by the part of them that a cell is.
ghost use Rattle.std.specs.Prelude.{◌≡◌, ◌<◌, IfSome, slice_get};
ghost use Rattle.weak_maps.specs.WeakMaps.{IsSound as AreEntries};
ghost use Rattle.barriers.specs.Parts.{listed_of};

use gz_names::Place;
use heap_core::Heap;
use weak_maps::WeakEntry;

// The part of a weak entry that a cell is.
#[derive(Clone, Copy)]
pub(crate) enum Part {
    Map,
    Key,
    // What the key leads to, which is a wrapper.
    Delegate,
}

// An entry of which a cell is this part, by its index in the list of these; `None` past the last.
#[inline(always)]
pub(crate) fn entry_of(heap: &Heap, part: Part, place: Place, index: u64) -> Option<WeakEntry>
    ensures entry { result ≡ slice_get (listed_of heap.now.shape.weak part place) index }
    ensures more { IfSome result (λ _. index < 18446744073709551615) }
    ensures sound { AreEntries heap.now.shape.weak }
{
    match part {
        Part::Map => heap.entries_of_map(place, index),
        Part::Key => heap.entries_of_key(place, index),
        Part::Delegate => heap.entries_of_delegate(place, index),
    }
}
