// A replay, as main's work beside helpers.
ghost use Rattle.std.specs.Prelude.{◌≡◌, [], Some, IsSome};
ghost use Rattle.mark_ahead.specs.Markers.{MarksBlack};
ghost use Rattle.slice_driver.specs.Units.{none_flown};
ghost use Rattle.trace_cli.specs.Pauses.{PausesSo};
ghost use Rattle.trace_cli.specs.Quiet.{GoesQuietly};
ghost use Rattle.trace_cli.specs.Standing.{Entry, IsStanding, Standing, StandsWith};

use crate::lines::go;
use crate::machine::{Machine, Pause};
use crate::pending::Pending;
use cell_bits::NoFlight;
use command_source::CommandSource;
use gz_io::Sink;
use gz_names::{NoMemory, Place};
use heap_core::{Heap, Steps};
use mark_ahead::Marked;
use slice_driver::Collector;
use std::alloc::Global;
use std::sync::ledger::Ledger;
use sweep_beside::Works;
use sweeping::Sweeping;

// How many units are done between two looks at how many cells are pending.
const UNITS: u64 = 64;

// Does units that report nothing until at least this number of cells is pending in black. False where no such unit is
// left before.
fn mark_until<L: Ledger>(collector: &mut Collector, least: usize, steps: &mut Steps<L>) -> bool
    requires counted { collector.old.heap.ledger ≡ Some L.name }
    requires stands { StandsWith collector.old [] none_flown }
    requires running { IsSome collector.old.run }
    ensures { GoesQuietly collector.old collector.new }
{
    while collector.pending_black() < least {
        if collector.quiet_units(UNITS, &mut NoFlight, steps) < UNITS {
            return false;
        }
    }
    true
}

/// A replay between two stretches of it, with all that it is lent.
#[derive(Drop)]
pub struct Replaying<'m, 's, 'k, 't, 'p, S: CommandSource, K: Sink, L: Ledger> {
    pub alloc: Global,
    pub machine: &'m mut Machine,
    pub source: &'s mut S,
    pub sink: &'k mut K,
    pub steps: &'t mut Steps<L>,
    /// Why the last stretch ended.
    pub pause: &'p mut Pause,
}

impl<'m, 's, 'k, 't, 'p, S: CommandSource, K: Sink, L: Ledger> Replaying<
    'm,
    's,
    'k,
    't,
    'p,
    S,
    K,
    L,
> {
    /// As the marking of a `collect` begins: units follow what is black cell by cell, until this number of cells is
    /// pending, and then the function `mark` follows it at once. Where memory runs out, units go on.
    pub fn mark_by<
        M: Fn(Global, &Heap, &[Place], Vec<u64>) -> Result<(Vec<u64>, Marked), NoMemory>,
    >(&mut self, least: usize, mark: &M)
        requires marks { MarksBlack (M.pre mark.now) (M.post mark.now) }
        requires counted { self.old.machine.now.collector.heap.ledger ≡ Some L.name }
        requires standing { IsStanding self.old.machine.now (S.input self.old.source.now)
            (K.written self.old.sink.now) (K.faults self.old.sink.now) [] none_flown }
        ensures machine { self.new.machine.ghost_name ≡ self.old.machine.ghost_name }
        ensures rest { self.new ≡ record self.old { machine = self.new.machine; steps = self.new.steps } }
        ensures steps { self.new.steps.ghost_name ≡ self.old.steps.ghost_name }
        ensures ledger { self.new.machine.now.collector.heap.ledger
            ≡ self.old.machine.now.collector.heap.ledger }
        ensures stands { (e : Entry)
            → Standing e self.old.machine.now (S.input self.old.source.now) (K.written self.old.sink.now)
            (K.faults self.old.sink.now) [] none_flown
            → Standing e self.new.machine.now (S.input self.new.source.now) (K.written self.new.sink.now)
            (K.faults self.new.sink.now) [] none_flown }
    {
        let Some(pending) = self.machine.pending else {
            return;
        };
        let Pending::Collect = pending else {
            return;
        };
        let collector = &mut self.machine.collector;
        if !collector.running() {
            return;
        }
        if !mark_until(collector, least, self.steps) {
            return;
        }
        let _ = collector.mark_two(self.alloc, mark, &mut NoFlight, self.steps);
    }
}

// Takes in the arenas that are still out.
fn drain<F: Sweeping>(flight: &mut F)
    ensures home { F.home (F.origin flight.new) ≡ F.home (F.origin flight.old) }
    ensures none_left { F.left (F.origin flight.new) ≡ [] }
{
    while !flight.is_empty() {
        flight.take_lowest();
    }
}

impl<'m, 's, 'k, 't, 'p, S: CommandSource, K: Sink, L: Ledger> Works
    for Replaying<'m, 's, 'k, 't, 'p, S, K, L> {
    ghost ready = { λ r outs flown. (r.machine.now.collector.heap.ledger ≡ Some L.name)
        × IsStanding r.machine.now (S.input r.source.now) (K.written r.sink.now) (K.faults r.sink.now) outs flown };

    ghost ran = { λ r outs flown t. (t.machine.ghost_name ≡ r.machine.ghost_name)
        × (t.source.ghost_name ≡ r.source.ghost_name) × (t.sink.ghost_name ≡ r.sink.ghost_name)
        × (t.steps.ghost_name ≡ r.steps.ghost_name) × (t.pause.ghost_name ≡ r.pause.ghost_name)
        × (t.machine.now.collector.heap.ledger ≡ r.machine.now.collector.heap.ledger)
        × (S.lender t.source.now ≡ S.lender r.source.now)
        × ((e : Entry) → Standing e r.machine.now (S.input r.source.now)
        (K.written r.sink.now) (K.faults r.sink.now) outs flown
        → PausesSo t.pause.now e t.machine.now (S.input t.source.now) (K.written t.sink.now) (K.faults t.sink.now)
        (K.behind t.sink.now) [] none_flown) };

    fn run<F: Sweeping>(&mut self, flight: &mut F) {
        *self.pause = go(
            self.alloc,
            self.machine,
            flight,
            self.source,
            self.sink,
            self.steps,
        );
        drain(flight);
    }
}
