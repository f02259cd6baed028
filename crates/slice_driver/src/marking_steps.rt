// The steps of a collection that mark.
ghost use Rattle.std.specs.Prelude.{◌≡◌, ◌≤◌, ◌<◌, ℕ, [], Option, IsSome, Some, length};
ghost use Rattle.cell_bits.specs.declared.bits.Bits.{Bits as ABits};
ghost use Rattle.barriers.specs.Colours.{grays_outside};
ghost use Rattle.barriers.specs.Invariant.{ShapeInvariant};
ghost use Rattle.marker.specs.GrayBits.{AreGraying};
ghost use Rattle.marker.specs.Units.{IsGrayIdle};
ghost use Rattle.slice_driver.specs.Collector.{heap_with};
ghost use Rattle.slice_driver.specs.EdgesRead.{ReadsFew, TriesFew};
ghost use Rattle.slice_driver.specs.Quiet.{IsFormed, QueuesBlackMaps, QueuesIfBlack};
ghost use Rattle.slice_driver.specs.Units.{IsSoundMarking};
ghost use Rattle.weak_maps.specs.WeakMaps.{NoneLeft};
ghost use Rattle.weak_maps.specs.declared.colours.MarkColour.TheVariants as mark;
ghost use Rattle.slice_driver.specs.Working.{BeginsOrBegun, DidOrStill, DoesQuietUnits, HasBegun, IsBlackDone};
ghost use Rattle.slice_driver.specs.Working.{IsGrayDone, IsGroupDone, TriesGroup};
ghost use Rattle.slice_driver.specs.Worlds.{AreRowsAtHome};

use crate::collector::Collector;
use cell_bits::{Colour, Flight};
use gz_names::{Place, ZoneNo, ZoneSet};
use heap_core::{Heap, Steps};
use marker::{black_unit, gray_unit, weak_unit};
use std::sync::ledger::Ledger;
use weak_maps::MarkColour;
use zones::State;

impl Collector {
    // Black marking: follows a cell that is pending in black, or else looks at a weak entry that is to be
    // looked at in black. False where it has nothing left to do.
    #[inline(always)]
    pub(crate) fn marks_black<F: Flight, L: Ledger>(
        &mut self,
        flight: &mut F,
        steps: &mut Steps<L>,
    ) -> bool
        requires counted { self.old.heap.ledger ≡ Some L.name }
        requires sound { IsSoundMarking self.old (F.bits flight.old) }
        requires running { IsSome self.old.run }
        ensures done { DidOrStill result (IsBlackDone self.old (F.bits flight.old)) self.old
            (F.bits flight.old) self.new (F.bits flight.new) }
        ensures steps { TriesFew result steps.old (heap_with self.old (F.bits flight.old)) steps.new
            (heap_with self.new (F.bits flight.new)) }
        ensures origin { F.origin flight.new ≡ F.origin flight.old }
    {
        if black_unit(&mut self.heap, &mut self.stack, flight, steps) {
            return true;
        }
        weak_unit(
            MarkColour::Black,
            &mut self.heap,
            &mut self.stack,
            flight,
            steps,
        )
    }

    // Gray marking of a group: does a piece of it, or else looks at a weak entry that is to be looked at in
    // gray. False where it has nothing left to do.
    #[inline(always)]
    fn marks_group<F: Flight, L: Ledger>(
        &mut self,
        group: ZoneSet,
        flight: &mut F,
        steps: &mut Steps<L>,
    ) -> bool
        requires counted { self.old.heap.ledger ≡ Some L.name }
        requires sound { IsSoundMarking self.old (F.bits flight.old) }
        requires running { IsSome self.old.run }
        requires begun { AreGraying self.old.heap.shape group.bits }
        ensures tries { TriesGroup result (IsGrayDone self.old (F.bits flight.old) group) self.old
            (F.bits flight.old) self.new (F.bits flight.new) }
        ensures steps { TriesFew result steps.old (heap_with self.old (F.bits flight.old)) steps.new
            (heap_with self.new (F.bits flight.new)) }
        ensures origin { F.origin flight.new ≡ F.origin flight.old }
    {
        if gray_unit(
            group,
            &mut self.heap,
            &mut self.stack,
            &mut self.lists,
            flight,
            steps,
        ) {
            return true;
        }
        weak_unit(
            MarkColour::Gray,
            &mut self.heap,
            &mut self.stack,
            flight,
            steps,
        )
    }

    // Takes a zone of the current group on to gray marking. False where all have begun.
    pub(crate) fn begins_zone(&mut self) -> bool
        requires sound { (flown : ℕ → Option ABits) × IsSoundMarking self.old flown }
        requires formed { IsFormed self.old }
        ensures begins { BeginsOrBegun result self.old self.new }
        ensures grays { (flown : ℕ → Option ABits) → grays_outside (heap_with self.new flown)
            ≡ grays_outside (heap_with self.old flown) }
    {
        self.entries_law();
        let Some(group) = self.order.current() else {
            return false;
        };
        let waiting = self.heap.in_state(State::MarkBlackOnly);
        let Some(zone) = group.intersection(waiting).first() else {
            return false;
        };
        queue_black_maps(&mut self.heap, zone);
        self.heap.advance(zone);
        true
    }

    // Does pieces of the gray marking of the current group, whose zones have begun, at most `limit`, and
    // returns how many. Fewer are done only where it has nothing left to do, or no group is left.
    pub(crate) fn marks_gray_up_to<F: Flight, L: Ledger>(
        &mut self,
        limit: u64,
        flight: &mut F,
        steps: &mut Steps<L>,
    ) -> u64
        requires counted { self.old.heap.ledger ≡ Some L.name }
        requires sound { IsSoundMarking self.old (F.bits flight.old) }
        requires running { IsSome self.old.run }
        requires begun { HasBegun self.old }
        ensures most { result ≤ limit }
        ensures done { DoesQuietUnits result self.old (F.bits flight.old) self.new
            (F.bits flight.new) }
        ensures steps { ReadsFew result steps.old (heap_with self.old (F.bits flight.old)) steps.new
            (heap_with self.new (F.bits flight.new)) }
        ensures rests { result < limit → IsGroupDone self.new (F.bits flight.new) }
        ensures ended { IsGroupDone self.old (F.bits flight.old) → result ≡ 0 }
        ensures origin { F.origin flight.new ≡ F.origin flight.old }
    {
        let Some(group) = self.order.current() else {
            return 0;
        };
        for count in 0..limit {
            if !self.marks_group(group, flight, steps) {
                return count;
            }
        }
        limit
    }
}

// The entries of each black map of a zone whose keys are wrappers are to be looked at in gray: the delegate of
// such a key may be gray and of a zone outside the collection, where nothing scans it.
fn queue_black_maps(heap: &mut Heap, zone: ZoneNo)
    requires sized { length heap.old.colours ≡ length heap.old.shape.arenas }
    requires shape { ShapeInvariant heap.old.shape }
    requires homes { AreRowsAtHome heap.old.shape }
    ensures rest { heap.new ≡ record heap.old { looks = heap.new.looks } }
    ensures queued { QueuesBlackMaps heap.old zone heap.new }
{
    let mut index = 0;
    while let Some(map) = heap.map_delegated_in(zone, index) {
        queue_if_black(heap, map);
        index += 1;
    }
}

// The entries of a map are to be looked at in gray for it, if it is black.
fn queue_if_black(heap: &mut Heap, map: Place)
    requires { map.0 < length heap.old.colours }
    ensures { QueuesIfBlack heap.old map heap.new }
{
    if heap.colour(map) == Colour::Black {
        heap.start_map(MarkColour::Gray, map);
    }
}
