// Units that report nothing, many in one call.
ghost use Rattle.std.specs.Prelude.{◌≡◌, ◌≤◌, ◌<◌, IsSome, MatchBool, Some};
ghost use Rattle.slice_driver.specs.Collector.{heap_with};
ghost use Rattle.slice_driver.specs.EdgesRead.{ReadsFew};
ghost use Rattle.slice_driver.specs.Quiet.{IsFormed, IsStarted};
ghost use Rattle.slice_driver.specs.Units.{IsSound, IsSoundMarking};
ghost use Rattle.slice_driver.specs.Working.{DoesQuietUnits, DoesQuietly, IsGrouping, IsQuietDone, IsResting};

use crate::collector::{Collector, Phase};
use cell_bits::Flight;
use heap_core::Steps;
use std::sync::ledger::Ledger;

impl Collector {
    /// Does units of the collection that runs while they report nothing and hand no arena to
    /// sweeping, at most `limit`, and returns how many it did. While the collection is being prepared, each
    /// clears the mark bits of an arena. Later each does the first of these that has work: black marking,
    /// a look at a wrapper, the beginning of a zone, gray marking. Fewer than `limit` are done exactly when
    /// none of these has work left. What is left for `advance` then is the beginning of marking, a grouping
    /// step, an arena that is due, or the end of a group.
    ///
    /// Such a unit leaves each world as it is. It takes no memory, and builds no report. It reads at most
    /// nine edges, and eight for each gray cell outside marking zones that turns black.
    pub fn quiet_units<F: Flight, L: Ledger>(
        &mut self,
        limit: u64,
        flight: &mut F,
        steps: &mut Steps<L>,
    ) -> u64
        requires counted { self.old.heap.ledger ≡ Some L.name }
        requires sound { IsSound self.old (F.bits flight.old) }
        requires running { IsSome self.old.run }
        ensures does { DoesQuietly limit self.old (F.bits flight.old) result self.new
            (F.bits flight.new) }
        ensures steps { ReadsFew result steps.old (heap_with self.old (F.bits flight.old)) steps.new
            (heap_with self.new (F.bits flight.new)) }
        ensures origin { F.origin flight.new ≡ F.origin flight.old }
    {
        if let Phase::Preparing { zones, uncleared } = self.phase {
            return self.clears_up_to(zones, uncleared, limit);
        }
        // Where no zone is marking, as while the last arenas come in, there is none.
        if self.settled() {
            return 0;
        }
        let mut count = 0;
        while count < limit {
            let more = self.some_quiet_units(limit - count, flight, steps);
            if more == 0 {
                return count;
            }
            count += more;
        }
        limit
    }

    // Does units that report nothing, at most `limit`, which is not 0. Returns how many: 0 where there is
    // none to do. Looks and gray marking go on by themselves, since they make no work for what goes before them.
    #[inline(always)]
    fn some_quiet_units<F: Flight, L: Ledger>(
        &mut self,
        limit: u64,
        flight: &mut F,
        steps: &mut Steps<L>,
    ) -> u64
        requires counted { self.old.heap.ledger ≡ Some L.name }
        requires sound { IsSoundMarking self.old (F.bits flight.old) }
        requires running { IsSome self.old.run }
        requires some { 0 < limit }
        ensures most { result ≤ limit }
        ensures done { DoesQuietUnits result self.old (F.bits flight.old) self.new
            (F.bits flight.new) }
        ensures steps { ReadsFew result steps.old (heap_with self.old (F.bits flight.old)) steps.new
            (heap_with self.new (F.bits flight.new)) }
        ensures rests { result ≡ 0 → IsQuietDone self.new (F.bits flight.new) }
        ensures resting { IsResting self.old (F.bits flight.old) → result ≡ 0 }
        ensures origin { F.origin flight.new ≡ F.origin flight.old }
    {
        if self.marks_black(flight, steps) {
            return 1;
        }
        if self.is_grouping() {
            return self.looks_up_to(limit, steps);
        }
        if self.begins_zone() {
            return 1;
        }
        self.marks_gray_up_to(limit, flight, steps)
    }

    // Returns whether the groups of the collection that runs are still to be formed.
    fn is_grouping(&self) -> bool
        requires started { IsStarted self.now }
        ensures { MatchBool result (IsGrouping self.now) (IsFormed self.now) }
    {
        matches!(&self.phase, Phase::Grouping { .. })
    }
}
