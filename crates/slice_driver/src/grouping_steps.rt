// The steps of a collection that form the groups.
ghost use Rattle.std.specs.Prelude.{◌≡◌, ◌<◌, ◌≤◌, ◌+◌, ℕ, None, Option, Some, false, if◌then◌else◌};
ghost use Rattle.cell_bits.specs.declared.bits.Bits.{Bits as ABits};
ghost use Rattle.zone_edges.specs.Looks.{AreAllLookedAt};
ghost use Rattle.slice_driver.specs.Collector.{WaitsToGroup};
ghost use Rattle.slice_driver.specs.Units.{IsSoundMarking};
ghost use Rattle.slice_driver.specs.Working.{DoesQuietUnits, IsBlackDone, IsGrouping, LooksOrAll, TellsGrouping};

use crate::collector::{Collector, Phase};
use gz_names::{Groups, Report, ZoneSet};
use heap_core::Steps;
use std::sync::ledger::Ledger;

impl Collector {
    // Looks at a wrapper. False where each was looked at.
    fn looks<L: Ledger>(&mut self, steps: &mut Steps<L>) -> bool
        requires counted { self.old.heap.ledger ≡ Some L.name }
        requires sound { (flown : ℕ → Option ABits) × IsSoundMarking self.old flown }
        requires grouping { IsGrouping self.old }
        ensures looks { LooksOrAll result self.old self.new }
        ensures edges { self.new ≡ record self.old { edges = self.new.edges } }
        ensures steps { steps.new ≤ steps.old + (if result then 1 else 0) }
    {
        self.edges.edge_unit(&self.heap, steps)
    }

    // Looks at wrappers, at most `limit` of them, and returns at how many. Fewer are looked at only where each was. A
    // look makes no work for black marking.
    pub(crate) fn looks_up_to<L: Ledger>(&mut self, limit: u64, steps: &mut Steps<L>) -> u64
        requires counted { self.old.heap.ledger ≡ Some L.name }
        requires sound { (flown : ℕ → Option ABits) × IsSoundMarking self.old flown × IsBlackDone self.old flown }
        requires grouping { IsGrouping self.old }
        ensures most { result ≤ limit }
        ensures done { (flown : ℕ → Option ABits) → IsSoundMarking self.old flown → IsBlackDone self.old flown
            → DoesQuietUnits result self.old flown self.new flown }
        ensures looked { result < limit → AreAllLookedAt self.new.heap.shape self.new.edges }
        ensures edges { self.new ≡ record self.old { edges = self.new.edges } }
        ensures steps { steps.new ≤ steps.old + result }
    {
        for count in 0..limit {
            if !self.looks(steps) {
                return count;
            }
        }
        limit
    }

    // One grouping step; the last one forms the groups, and puts them into a place. Returns whether it did.
    pub(crate) fn group_step(
        &mut self,
        zones: ZoneSet,
        ungrouped: ZoneSet,
        report: &mut Option<Report>,
    ) -> bool
        requires sound { (flown : ℕ → Option ABits) × IsSoundMarking self.old flown }
        requires grouping { self.old.run ≡ Some (record {
          zones = zones;
          formed = false;
          clearing = None;
        }) }
        requires left { WaitsToGroup self.old.edges zones ungrouped }
        requires looked { AreAllLookedAt self.old.heap.shape self.old.edges }
        ensures { TellsGrouping self.old report.old result self.new report.new }
    {
        let Some(zone) = ungrouped.first() else {
            return false;
        };
        self.edges.group_step(zone);
        let left = ungrouped.without(ZoneSet::only(zone));
        if !left.is_empty() {
            self.phase = Phase::Grouping {
                zones,
                ungrouped: left,
            };
            return false;
        }
        self.phase = Phase::Grouped { zones };
        let groups = self.edges.components();
        self.order.set(copy_of(&groups));
        *report = Some(Report::Groups(groups));
        true
    }
}

// Copies a list of groups.
fn copy_of(groups: &Groups) -> Groups
    ensures { result ≡ groups.now }
{
    let sets = groups.as_slice();
    let mut copy = Groups::new();
    'copy: for index in 0..groups.len() {
        copy.push(sets[index]);
    }
    copy
}
