// How a collection begins.
ghost use Rattle.std.specs.Prelude.{◌≡◌, ◌↔◌, ℕ, IsTrue, Option};
ghost use Rattle.gz_names.specs.Zones.{HasZone};
ghost use Rattle.cell_bits.specs.declared.bits.Bits.{Bits as ABits};
ghost use Rattle.zones.specs.declared.states.State.TheVariants as state;
ghost use Rattle.heap_core.specs.Shape.{state_in};
ghost use Rattle.slice_driver.specs.Begins.{AreMade};
ghost use Rattle.slice_driver.specs.Calls.{BeginDone};
ghost use Rattle.slice_driver.specs.Units.{IsSound};

use crate::collector::{Collector, Phase, Uncleared};
use crate::zone_states::advance_all;
use gz_names::ZoneSet;
use heap_core::Heap;
use zones::State;

/// Why a collection was not begun.
#[derive(Clone, Copy, Debug, PartialEq, Eq)]
pub enum BeginFault {
    /// One runs.
    Running,
    /// One of the zones is not made.
    NoZone,
}

impl Collector {
    /// Begins a collection of these zones (js/src/gc/GC.cpp, `beginPreparePhase`): from now on they are being
    /// prepared. It costs the same whatever the heap holds, reads no edge, and takes no memory. It is refused
    /// where a collection runs, whatever is in flight, and then where one of the zones is not made; after a fault
    /// the collector is as it was.
    pub fn begin(&mut self, zones: ZoneSet) -> Result<(), BeginFault>
        requires sound { (flown : ℕ → Option ABits) × IsSound self.old flown }
        requires some { (z : ℕ) × HasZone zones.bits z }
        ensures { BeginDone self.old zones result self.new }
    {
        if self.running() {
            return Err(BeginFault::Running);
        }
        if !are_made(&self.heap, zones) {
            return Err(BeginFault::NoZone);
        }
        advance_all(&mut self.heap, zones);
        self.phase = Phase::Preparing {
            zones,
            uncleared: Uncleared {
                from: 0,
                end: self.heap.arenas(),
            },
        };
        Ok(())
    }
}

// Whether each of these zones is made, where all zones that are made are in no collection.
fn are_made(heap: &Heap, zones: ZoneSet) -> bool
    requires { (z : ℕ) → state_in heap.now.shape z ≡ state.NoGC }
    ensures { IsTrue result ↔ AreMade heap.now.shape zones }
{
    zones.without(heap.in_state(State::NoGC)).first().is_none()
}
