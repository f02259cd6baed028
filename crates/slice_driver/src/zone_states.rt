// Zones go on to their next states.
ghost use Rattle.std.specs.Prelude.{◌<◌, ℕ, length};
ghost use Rattle.gz_names.specs.Zones.{HasZone};
ghost use Rattle.slice_driver.specs.Advancing.{Advances};

use gz_names::ZoneSet;
use heap_core::Heap;

// Takes each of these zones on to its next state.
pub(crate) fn advance_all(heap: &mut Heap, zones: ZoneSet)
    requires made { (z : ℕ) → HasZone zones.bits z → z < length heap.old.shape.states }
    ensures { Advances heap.old zones.bits heap.new }
{
    let mut left = zones;
    'zones: while let Some(zone) = left.first() {
        heap.advance(zone);
        left.remove(zone);
    }
}
