// Giving a collection up.
ghost use Rattle.std.specs.Prelude.{◌≡◌, ◌<◌, IsSome, List, [], None, Option, Some, length, slice_get, ℕ};
ghost use Rattle.gz_names.specs.declared.numbers.Place.{Place as APlace};
ghost use Rattle.heap_core.specs.Heap.{joined};
ghost use Rattle.heap_core.specs.Shape.{out_of};
ghost use Rattle.barriers.specs.Colours.{IsBlack};
ghost use Rattle.barriers.specs.Following.{FollowDone};
ghost use Rattle.barriers.specs.Reached.{Reached};
ghost use Rattle.slice_driver.specs.Advances.{MayAdvance};
ghost use Rattle.slice_driver.specs.Resets.{BlackensAll, GivesUp, MayFollowAll, ResetsOn, cells_of, places_in};
ghost use Rattle.slice_driver.specs.Units.{IsSound};

use crate::advance::Step;
use crate::collector::{Collector, Phase};
use barriers::{drain, follow};
use cell_bits::Flight;
use gz_names::{Place, Report, ZoneSet};
use heap_core::{Heap, Steps};
use mark_stack::Stack;
use std::sync::ledger::Ledger;
use sweeping::Sweeping;

impl Collector {
    /// Gives up the collection that runs, and returns the zones that were still being prepared or were marking.
    /// What these hold turns black, and what it reaches; nothing waits for marking any more, and the collection's
    /// zones are in none. It is called where no arena is out. It takes no memory, and costs what the stopped zones
    /// hold and what turns black outside them (js/src/gc/GC.cpp, `resetIncrementalGC`; that all turns black is our
    /// choice).
    pub fn give_up<F: Flight, L: Ledger>(&mut self, flight: &mut F, steps: &mut Steps<L>) -> ZoneSet
        requires counted { self.old.heap.ledger ≡ Some L.name }
        requires sound { IsSound self.old (F.bits flight.old) }
        requires running { IsSome self.old.run }
        requires none_out { (a : ℕ) → out_of self.old.heap.shape a ≡ None }
        ensures done { GivesUp self.old (F.bits flight.old) result self.new (F.bits flight.new) }
        ensures origin { F.origin flight.new ≡ F.origin flight.old }
    {
        self.groups_law();
        let stopped = self.heap.marking().union(self.heap.preparing());
        self.stack.clear();
        self.lists.clear();
        self.order.clear();
        self.heap.forget_waiting();
        self.heap.stop(self.phase.zones());
        self.phase = Phase::Idle;
        blacken_all(&mut self.heap, stopped);
        follow_all(&mut self.heap, &mut self.stack, flight, stopped, steps);
        drain(&mut self.heap, &mut self.stack, flight, steps);
        stopped
    }

    // Does a step of a reset: takes in the lowest arena that is out, or gives the collection up where none is.
    pub(crate) fn reset_step<F: Sweeping, L: Ledger>(
        &mut self,
        flight: &mut F,
        report: &mut Option<Report>,
        steps: &mut Steps<L>,
    ) -> Step
        requires counted { self.old.heap.ledger ≡ Some L.name }
        requires ready { MayAdvance self.old (F.bits flight.old) (F.left (F.origin flight.old)) }
        ensures done { ResetsOn self.old (F.bits flight.old) result self.new (F.bits flight.new)
            (F.left (F.origin flight.new)) report.new }
        ensures home { F.home (F.origin flight.new) ≡ F.home (F.origin flight.old) }
    {
        if let Some(arena) = self.next_out() {
            return Step::swept(self.take_due(flight, arena, report));
        }
        *report = Some(Report::Stopped(self.give_up(flight, steps)));
        Step::swept(true)
    }
}

// Turns the cells of these zones black, of which no arena is out.
fn blacken_all(heap: &mut Heap, zones: ZoneSet)
    requires sized { length heap.old.colours ≡ length heap.old.shape.arenas }
    requires none_out { (a : ℕ) → out_of heap.old.shape a ≡ None }
    ensures { BlackensAll heap.old zones heap.new }
{
    heap.arenas();
    let mut from = 0;
    while let Some(arena) = heap.next_in(zones, from) {
        heap.blacken_arena(arena);
        from = arena + 1;
    }
}

// Follows the cells of these zones, which are black.
fn follow_all<F: Flight, L: Ledger>(
    heap: &mut Heap,
    stack: &mut Stack,
    flight: &mut F,
    zones: ZoneSet,
    steps: &mut Steps<L>,
)
    requires { MayFollowAll L.name (places_in zones.bits 0 heap.old.shape.arenas) [] heap.old (F.bits flight.old)
        stack.old }
    ensures { FollowDone F.bits F.origin
        (Reached heap.old.shape (IsBlack (joined heap.old (F.bits flight.old)))) []
        heap.old flight.old stack.old heap.new flight.new stack.new }
{
    heap.arenas();
    let mut from = 0;
    while let Some(arena) = heap.next_in(zones, from) {
        follow_arena(heap, stack, flight, arena, steps);
        from = arena + 1;
    }
}

// Follows the cells of an arena, which are black, before some others.
fn follow_arena<F: Flight, L: Ledger>(
    heap: &mut Heap,
    stack: &mut Stack,
    flight: &mut F,
    arena: u32,
    steps: &mut Steps<L>,
)
    requires made { arena < length heap.old.shape.arenas }
    requires follow { (rest : List APlace)
        × MayFollowAll L.name (cells_of arena (slice_get heap.old.shape.arenas arena)) rest heap.old
        (F.bits flight.old) stack.old }
    ensures follows { (rest : List APlace)
        → MayFollowAll L.name (cells_of arena (slice_get heap.old.shape.arenas arena)) rest heap.old
        (F.bits flight.old) stack.old
        → FollowDone F.bits F.origin
        (Reached heap.old.shape (IsBlack (joined heap.old (F.bits flight.old)))) rest
        heap.old flight.old stack.old heap.new flight.new stack.new }
{
    let mut left = heap.alloc_word(arena);
    while left != 0 {
        if let Some(place) = Place::new(arena, left.trailing_zeros() as u8) {
            follow(heap, stack, flight, place, steps);
        }
        left &= left - 1;
    }
}
