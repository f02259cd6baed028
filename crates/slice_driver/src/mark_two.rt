// Black marking of all that is pending, at once.
ghost use Rattle.std.specs.Prelude.{◌≡◌, [], true, IfOk, IsSome, Ok, OnErr, Some};
ghost use Rattle.mark_ahead.specs.Ahead.{FollowsAll};
ghost use Rattle.mark_ahead.specs.Markers.{MarksBlack};
ghost use Rattle.slice_driver.specs.Collector.{heap_with};
ghost use Rattle.slice_driver.specs.EdgesRead.{ReadsFew};
ghost use Rattle.slice_driver.specs.Units.{IsSound};
ghost use Rattle.slice_driver.specs.Working.{DidOrStill};

use crate::collector::{Collector, Phase};
use cell_bits::Flight;
use gz_names::{NoMemory, Place};
use heap_core::{Heap, Steps};
use mark_ahead::{Marked, mark_ahead};
use std::alloc::Global;
use std::sync::ledger::Ledger;

impl Collector {
    /// Follows all cells that are pending in black at once, and by the function `mark`, through marking zones, all that
    /// edges reach from them, in place of as many units. It is one unit that reports nothing, and it leaves each world
    /// as it is. False exactly where nothing is pending in black, as while the collection is being prepared; then, and
    /// where memory runs out, nothing changed.
    ///
    /// `mark` takes the cells to begin from and the black word of each arena, and answers the words as marking leaves
    /// them with what it found, as `mark_heap` of par_mark does by two threads.
    #[inline(never)]
    pub fn mark_two<
        M: Fn(Global, &Heap, &[Place], Vec<u64>) -> Result<(Vec<u64>, Marked), NoMemory>,
        F: Flight,
        L: Ledger,
    >(
        &mut self,
        alloc: Global,
        mark: &M,
        flight: &mut F,
        steps: &mut Steps<L>,
    ) -> Result<bool, NoMemory>
        requires marks { MarksBlack (M.pre mark.now) (M.post mark.now) }
        requires counted { self.old.heap.ledger ≡ Some L.name }
        requires sound { IsSound self.old (F.bits flight.old) }
        requires running { IsSome self.old.run }
        ensures done { IfOk result (λ did. DidOrStill did (self.old.stack.black ≡ []) self.old (F.bits flight.old)
            self.new (F.bits flight.new)) }
        ensures marked { result ≡ Ok true → FollowsAll (heap_with self.old (F.bits flight.old)) self.old.stack
            (heap_with self.new (F.bits flight.new)) self.new.stack }
        ensures steps { ReadsFew 0 steps.old (heap_with self.old (F.bits flight.old)) steps.new
            (heap_with self.new (F.bits flight.new)) }
        ensures err { OnErr result ((self.new ≡ self.old) × (flight.new ≡ flight.old) × (steps.new ≡ steps.old)) }
        ensures origin { F.origin flight.new ≡ F.origin flight.old }
    {
        if let Phase::Preparing { .. } = self.phase {
            return Ok(false);
        }
        mark_ahead(alloc, mark, &mut self.heap, &mut self.stack, flight, steps)
    }
}
