// Compaction of a zone, while no collection runs.
ghost use Rattle.std.specs.Prelude.{ℕ, Option};
ghost use Rattle.cell_bits.specs.declared.bits.Bits.{Bits as ABits};
ghost use Rattle.slice_driver.specs.Compacting.{CompactDone};
ghost use Rattle.slice_driver.specs.Units.{IsSound};

use crate::collector::Collector;
use compact::{Compacted, compact};
use gz_names::ZoneNo;
use std::alloc::Global;

/// Why a zone was not compacted.
#[derive(Clone, Copy, Debug, PartialEq, Eq)]
pub enum CompactFault {
    /// A collection runs.
    Running,
    /// The zone is not made.
    NoZone,
    /// Memory was wanted.
    NoMemory,
}

impl Collector {
    /// Moves the cells of a zone together, and gives up the arenas that this empties. It is refused while a
    /// collection runs, also while one is being prepared, and then where the zone is not made. All memory is taken
    /// before anything changes; after a fault the collector is as it was.
    pub fn compact(&mut self, alloc: Global, zone: ZoneNo) -> Result<Compacted, CompactFault>
        requires { (flown : ℕ → Option ABits) × IsSound self.old flown }
        ensures { CompactDone self.old zone result self.new }
    {
        self.entries_law();
        if self.running() {
            return Err(CompactFault::Running);
        }
        if zone.index() >= self.heap.zones() {
            return Err(CompactFault::NoZone);
        }
        match compact(alloc, &mut self.heap, zone) {
            Ok(done) => Ok(done),
            Err(_) => Err(CompactFault::NoMemory),
        }
    }
}
