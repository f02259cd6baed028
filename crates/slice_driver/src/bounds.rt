// What bounds the work of a collection.
ghost use Rattle.std.specs.Prelude.{◌≡◌, ◌<◌, ◌≤◌, ◌+◌, ◌^◌, ◌↔◌, ℕ, None, Option, length, sum_by};
ghost use Rattle.cell_bits.specs.declared.bits.Bits.{Bits};
ghost use Rattle.weak_maps.specs.WeakMaps.{AreParallel, IsSound as AreEntries};
ghost use Rattle.heap_core.specs.Heap.{weak_of};
ghost use Rattle.slice_driver.specs.Bounds.{grouping_bound, marking_bound, preparing_bound, units_bound};
ghost use Rattle.slice_driver.specs.GrayRoots.{HasFewWrappers};
ghost use Rattle.slice_driver.specs.Left.{units_left};
ghost use Rattle.slice_driver.specs.Units.{IsSound};

use crate::collector::{Collector, Phase, Uncleared};
use heap_core::Heap;

impl Collector {
    /// How many units the collection that runs may still take at most, if no command comes between: a bound by how much
    /// the heap holds and what is buffered, and not by what marking has found. It is 0 exactly where none runs.
    pub fn units_left(&self) -> u64
        ensures bound { (flown : ℕ → Option Bits) → IsSound self.now flown
            → units_left self.now flown ≤ result }
        ensures value { result ≡ units_bound self.now }
        ensures none { (result ≡ 0) ↔ (self.now.run ≡ None) }
    {
        self.wrappers_law();
        self.entries_law();
        self.sizes_law();
        match self.phase {
            Phase::Idle => 0,
            Phase::Preparing { uncleared, .. } => preparing_units(&self.heap, uncleared),
            Phase::Grouping { .. } => marking_units(&self.heap) + grouping_units(&self.heap),
            Phase::Grouped { .. } => marking_units(&self.heap),
        }
    }

    /// Fewer units are left of a collection than a `u64` counts. It does nothing.
    pub fn units_law(&self)
        ensures { (flown : ℕ → Option Bits) → IsSound self.now flown
            → units_left self.now flown < 2 ^ 64 }
    {
        self.sizes_law();
        self.entries_law();
        self.wrappers_law();
    }

    // No zone has more wrappers than there can be slots of cells. It does nothing.
    pub(crate) fn few_wrappers_law(&self)
        requires { (flown : ℕ → Option Bits) × IsSound self.now flown }
        ensures { HasFewWrappers self.now.heap.shape }
    {
        self.sizes_law();
        self.wrappers_law();
    }

    // No key of a map has two weak entries, and each entry has its looks. It does nothing.
    pub(crate) fn entries_law(&self)
        ensures sound { AreEntries self.now.heap.shape.weak }
        ensures parallel { AreParallel (weak_of self.now.heap) }
    {
        self.heap.entry(0);
    }

    // How many arenas, buffered places, zones and weak entries there are at most. It does nothing.
    pub(crate) fn sizes_law(&self)
        ensures arenas { length self.now.heap.shape.arenas < 2 ^ 32 }
        ensures buffered { sum_by length self.now.heap.buffers < 2 ^ 63 }
        ensures zones { length self.now.heap.shape.states ≤ 64 }
        ensures entries { length self.now.heap.shape.weak.entries < 2 ^ 32 }
        ensures parallel { AreParallel (weak_of self.now.heap) }
    {
        self.heap.arenas();
        self.heap.waiting();
        self.heap.zones();
        self.heap.entries();
    }
}

// While a collection is being prepared: what is still to be cleared, and all that may come after it.
fn preparing_units(heap: &Heap, uncleared: Uncleared) -> u64
    ensures { result ≡ preparing_bound heap.now uncleared }
{
    let uncleared = u64::from(uncleared.end.saturating_sub(uncleared.from));
    let arenas = u64::from(heap.arenas());
    uncleared + 449 * arenas + 6 * heap.entries() + 4 * u64::from(heap.zones()) + 65
}

// From the beginning of marking on.
fn marking_units(heap: &Heap) -> u64
    ensures value { result ≡ marking_bound heap.now }
    ensures few { result < 2 ^ 63 + 2 ^ 62 }
{
    heap.waiting();
    let arenas = u64::from(heap.arenas());
    let buffered = heap.waiting_count() as u64;
    257 * arenas + 10 * heap.entries() + buffered + 2 * u64::from(heap.zones()) + 1
}

// Till the groups are formed.
fn grouping_units(heap: &Heap) -> u64
    ensures value { result ≡ grouping_bound heap.now }
    ensures few { result < 2 ^ 62 }
{
    64 * u64::from(heap.arenas()) + 64
}
