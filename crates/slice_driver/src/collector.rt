// The collector's parts, and what may be asked of it at any time.
ghost use Rattle.std.specs.Prelude.{◌≡◌, ◌↔◌, ◌<◌, ◌≤◌, ℕ, None, Option, Some, false, IsSome, IsTrue, IfOk, IfSome};
ghost use Rattle.std.specs.Prelude.{length};
ghost use Rattle.cell_bits.specs.declared.bits.Bits.{Bits as ABits};
ghost use Rattle.colour_defs.specs.Lawful.{IsRunning};
ghost use Rattle.colour_defs.specs.World.{World, IsSettled, first_world};
ghost use Rattle.heap_core.specs.Shape.{is_marking_state, is_prepared, state_in};
ghost use Rattle.slice_driver.specs.Units.{none_flown};
ghost use Rattle.slice_driver.specs.Represents.{Represents};

use gray_lists::Lists;
use gz_names::{NoMemory, ZoneSet};
use heap_core::{Heap, Steps};
use mark_stack::{Pile, Stack};
use std::alloc::Global;
use std::marker::Model;
use std::sync::ledger::{Blank, Ledger};
use sweep_groups::GroupOrder;
use zone_edges::Edges;

/// How far a collection is.
#[derive(Clone, Copy, Debug, PartialEq, Eq)]
pub enum Phase {
    /// None runs.
    Idle,
    /// Its zones are being prepared: mark bits are still to be cleared.
    Preparing {
        zones: ZoneSet,
        uncleared: Uncleared,
    },
    /// Its zones are marked, and the groups are still to be formed: some zones had no grouping step yet.
    Grouping {
        zones: ZoneSet,
        ungrouped: ZoneSet,
    },
    /// The groups of its zones are formed.
    Grouped {
        zones: ZoneSet,
    },
}

impl Phase {
    ghost use Rattle.slice_driver.specs.Collector.{run_of};

    /// The zones of the collection, if one runs.
    pub fn zones(self) -> ZoneSet
        ensures { IfSome (run_of self) (λ run. result ≡ run.zones) }
    {
        match self {
            Phase::Idle => ZoneSet::new(),
            Phase::Preparing { zones, .. }
            | Phase::Grouping { zones, .. }
            | Phase::Grouped { zones } => zones,
        }
    }
}

/// The arenas whose mark bits are still to be cleared: those of a collection's zones from a number on, and
/// below the end.
#[derive(Clone, Copy, Debug, PartialEq, Eq)]
pub struct Uncleared {
    pub from: u32,
    pub end: u32,
}

/// A heap, and the collection that runs over it.
#[derive(Drop)]
pub struct Collector {
    pub(crate) heap: Heap,
    pub(crate) stack: Stack,
    pub(crate) lists: Lists,
    pub(crate) edges: Edges,
    pub(crate) order: GroupOrder,
    pub(crate) phase: Phase,
}

impl Model for Collector {
    ghost use Rattle.heap_core.specs.Heap.{without_delayed};
    ghost use Rattle.barriers.specs.Pending.{pending};
    ghost use Rattle.slice_driver.specs.Collector.{CollectorState, IsKept, run_of};

    ghost Value = { CollectorState };

    ghost view = { λ c. record {
      heap = without_delayed c.heap;
      stack = pending c.heap c.stack;
      lists = c.lists;
      edges = c.edges;
      groups = c.order;
      run = run_of c.phase;
    } };

    ghost invariant = { λ c. IsKept c.heap.shape c.edges c.order c.phase };
}

impl Collector {
    ghost use Rattle.slice_driver.specs.Collector.{CollectorState};

    /// A collector of an empty heap. It stands for the first world.
    pub fn new(alloc: Global) -> Result<Self, NoMemory>
        ensures first { IfOk result (λ c. Represents c none_flown first_world) }
        ensures idle { IfOk result (λ c. c.run ≡ None) }
        ensures made { IfOk result (λ c. c.heap.made ≡ 0) }
        ensures entries { IfOk result (λ c. length c.heap.shape.weak.entries ≡ 0) }
    {
        let collector = Collector {
            heap: Heap::new(alloc)?,
            stack: Stack::new(alloc)?,
            lists: Lists::new(alloc),
            edges: Edges::new(),
            order: GroupOrder::new(),
            phase: Phase::Idle,
        };
        collector.entries_law();
        Ok(collector)
    }

    /// Whether a collection runs, in each world that the collector stands for.
    pub fn running(&self) -> bool
        ensures run { IsTrue result ↔ IsSome self.now.run }
        ensures worlds { (flown : ℕ → Option ABits) (w : World) → Represents self.now flown w
            → IsTrue result ↔ IsRunning w }
    {
        !matches!(&self.phase, Phase::Idle)
    }

    /// Whether no zone is marking and none is being prepared, in each world that the collector stands for.
    pub fn settled(&self) -> bool
        ensures states { IsTrue result
            ↔ ((z : ℕ) → (is_marking_state (state_in self.now.heap.shape z) ≡ false)
            × (is_prepared self.now.heap.shape z ≡ false)) }
        ensures worlds { (flown : ℕ → Option ABits) (w : World) → Represents self.now flown w
            → IsTrue result ↔ IsSettled w }
    {
        self.heap.marking().is_empty() && self.heap.preparing().is_empty()
    }

    /// How many cells are pending in black and not delayed, which is how many are pending at least.
    pub fn pending_black(&self) -> usize
        ensures { result ≤ length self.now.stack.black }
    {
        self.stack.len(Pile::Black)
    }

    /// From now on the edges that are read are counted, from 0 on, in a new ledger and in no other.
    pub fn count_edges<L: Ledger>(&mut self, blank: Blank) -> Steps<L>
        requires name { blank.name ≡ L.name }
        requires parts { blank.parts ≡ L.parts }
        requires some { 0 < blank.parts }
        ensures none { result ≡ 0 }
        ensures ledger { self.new ≡ record self.old {
          heap = record self.old.heap { ledger = Some L.name };
        } }
        ensures worlds { (flown : ℕ → Option ABits) (w : World)
            → Represents self.old flown w ↔ Represents self.new flown w }
    {
        self.heap.count_edges::<L>(blank)
    }

    /// How many cells were ever made.
    pub fn made(&self) -> u64
        ensures { result ≡ self.now.heap.made }
    {
        self.heap.made()
    }

    /// How many weak entries there are.
    pub fn entries(&self) -> u64
        ensures { result ≡ length self.now.heap.shape.weak.entries }
    {
        self.heap.entries()
    }
}
