// The units that prepare a collection, and the one that begins its marking.
ghost use Rattle.std.specs.Prelude.{◌≡◌, ◌≤◌, ◌<◌, None, false, IfNone, IfOk, IfSome, OnErr, OnOk, Some, ℕ, Option};
ghost use Rattle.gz_names.specs.declared.replies.Report.TheVariants as AReport;
ghost use Rattle.cell_bits.specs.declared.bits.Bits.{Bits as ABits};
ghost use Rattle.barriers.specs.Colours.{grays_outside};
ghost use Rattle.slice_driver.specs.Collector.{heap_with};
ghost use Rattle.slice_driver.specs.Preparing.{IsAllCleared, IsNextUncleared, StartsMarking};
ghost use Rattle.slice_driver.specs.Units.{IsSound};
ghost use Rattle.slice_driver.specs.Working.{DoesQuietUnits, IsAtStart};

use crate::collector::{Collector, Phase, Uncleared};
use crate::gray_roots::buffer_gray_roots;
use crate::root_marking::{mark_registers, mark_targets};
use crate::zone_states::advance_all;
use cell_bits::Bits;
use gz_names::{NoMemory, Report, ZoneSet};
use heap_core::{Heap, Steps};
use std::alloc::Global;
use std::sync::ledger::Ledger;

impl Collector {
    // Clears the mark bits of arenas that are still to be cleared, at most `limit` of them, the lowest first, and
    // returns how many. Fewer are cleared only where none is left.
    pub(crate) fn clears_up_to(&mut self, zones: ZoneSet, uncleared: Uncleared, limit: u64) -> u64
        requires sound { (flown : ℕ → Option ABits) × IsSound self.old flown }
        requires preparing { self.old.run ≡ Some (record {
          zones = zones;
          formed = false;
          clearing = Some uncleared;
        }) }
        ensures most { result ≤ limit }
        ensures done { (flown : ℕ → Option ABits) → IsSound self.old flown
            → DoesQuietUnits result self.old flown self.new flown }
        ensures rests { result < limit → IsAtStart self.new }
        ensures starting { IsAtStart self.old → result ≡ 0 }
        ensures grays { (flown : ℕ → Option ABits) → grays_outside (heap_with self.new flown)
            ≤ grays_outside (heap_with self.old flown) }
    {
        self.sizes_law();
        let mut left = uncleared;
        for count in 0..limit {
            let Some(arena) = next_uncleared(&self.heap, zones, left) else {
                return count;
            };
            self.heap.set_bits(arena, Bits { black: 0, gob: 0 });
            left.from = arena + 1;
            self.phase = Phase::Preparing {
                zones,
                uncleared: left,
            };
        }
        limit
    }

    // Marking of the zones that were prepared begins (js/src/gc/GC.cpp, `beginMarkPhase`). Their gray roots are
    // buffered: the cells that gray slots hold, and the gray wrappers of other zones that lead into them. Their
    // black roots are marked and become pending: the cells that registers hold, and the targets of black wrappers
    // of other zones. All memory is taken first, and where it is wanted nothing was done.
    #[cold]
    pub(crate) fn start_marking<L: Ledger>(
        &mut self,
        alloc: Global,
        zones: ZoneSet,
        report: &mut Option<Report>,
        steps: &mut Steps<L>,
    ) -> Result<(), NoMemory>
        requires counted { self.old.heap.ledger ≡ Some L.name }
        requires sound { (flown : ℕ → Option ABits) × IsSound self.old flown }
        requires start { (start : IsAtStart self.old) × (start.run.zones ≡ zones) }
        ensures done { OnOk result ((flown : ℕ → Option ABits) → IsSound self.old flown
            → StartsMarking self.old flown zones self.new) }
        ensures told { OnOk result (report.new ≡ Some AReport.Started) }
        ensures err { OnErr result (self.new ≡ self.old) }
        ensures err_report { OnErr result (report.new ≡ report.old) }
    {
        self.few_wrappers_law();
        self.wrappers_law();
        self.entries_law();
        buffer_gray_roots(&mut self.heap, alloc, zones, steps)?;
        mark_registers(&mut self.heap, &mut self.stack, zones);
        mark_targets(&mut self.heap, &mut self.stack, zones, steps);
        advance_all(&mut self.heap, zones);
        self.edges.start(zones);
        self.phase = Phase::Grouping {
            zones,
            ungrouped: zones,
        };
        *report = Some(Report::Started);
        Ok(())
    }
}

// The lowest arena of these zones whose mark bits are still to be cleared.
fn next_uncleared(heap: &Heap, zones: ZoneSet, uncleared: Uncleared) -> Option<u32>
    ensures some { IfSome result (IsNextUncleared heap.now zones uncleared) }
    ensures none { IfNone result (IsAllCleared heap.now zones uncleared) }
{
    let arena = heap.next_in(zones, uncleared.from)?;
    (arena < uncleared.end).then_some(arena)
}
