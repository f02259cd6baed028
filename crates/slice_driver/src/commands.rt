// Commands on the graph, and on weak slots and watched cells, with their barriers.
ghost use Rattle.std.specs.Prelude.{◌≡◌, ◌⊎◌, IsSome, OnErr, OnOk, length, Some};
ghost use Rattle.std.specs.Option.{ForSome};
ghost use Rattle.colour_defs.specs.Step.{HasFewFields};
ghost use Rattle.wrappers.specs.WrapperMaps.{AreApart};
ghost use Rattle.heap_core.specs.Shape.{IsPresent};
ghost use Rattle.heap_core.specs.Effects.{HasRoom};
ghost use Rattle.barriers.specs.Spreading.{Covers};
ghost use Rattle.slice_driver.specs.Calls.{CommandDone};
ghost use Rattle.slice_driver.specs.Rooms.{IsRoomy, Widens, arenas_after};
ghost use Rattle.slice_driver.specs.Steps.{GoesThrough, IsMarkable, IsPrepared};
ghost use Rattle.slice_driver.specs.Units.{IsSound};
ghost use Rattle.slice_driver.specs.WeakCommands.{Derefs, WeakCommandDone};

use crate::collector::Collector;
use barriers::expose;
use cell_bits::Flight;
use gz_names::{CmdFault, GraphCmd, NoMemory, Place, Reg, Reply, WeakCmd, WeakNo, ZoneNo};
use heap_core::Steps;
use std::sync::ledger::Ledger;

impl Collector {
    /// Does a command on the graph, also between two units of a collection. What it overwrites or
    /// removes is exposed first, and so are what a `wrap` is about and what the command hands to a
    /// register (js/src/gc/Barrier.h, pre-write and read barrier).
    ///
    /// A command that is refused returns `Refused`, with the reason, and changes nothing, neither
    /// the collector nor a colour in flight. Only a command that is not refused returns `NoMemory`,
    /// and only one that makes something: then the graph is as it was. There may be more room on
    /// the lists, and a `wrap` may have exposed its target; nothing else changed.
    #[inline(always)]
    pub fn command<F: Flight, L: Ledger>(
        &mut self,
        flight: &mut F,
        cmd: GraphCmd,
        steps: &mut Steps<L>,
    ) -> Result<Reply, CmdFault>
        requires counted { self.old.heap.ledger ≡ Some L.name }
        requires sound { IsSound self.old (F.bits flight.old) }
        requires few { HasRoom self.old.heap cmd }
        requires fields { HasFewFields cmd }
        ensures { CommandDone F.bits F.origin self.old flight.old cmd result self.new flight.new }
    {
        self.wrappers_law();
        self.entries_law();
        let plan = match self.heap.resolve(&cmd) {
            Ok(plan) => plan,
            Err(why) => return Err(CmdFault::Refused(why)),
        };
        if self.make_room(plan.makes_in()).is_err() {
            return Err(CmdFault::NoMemory);
        }
        self.expose(flight, plan.overwritten, steps);
        self.expose(flight, plan.wrapped, steps);
        self.expose(flight, plan.handed(), steps);
        match self.heap.commit(&plan) {
            Ok(reply) => Ok(reply),
            Err(_) => Err(CmdFault::NoMemory),
        }
    }

    /// Does a command on weak slots and watched cells, also between two units of a collection. What a weak
    /// slot names is exposed before a register holds it (js/src/builtin/WeakRefObject.cpp, the read barrier of
    /// `deref`).
    ///
    /// `Watch` and `Unwatch` are refused where their register is empty. Only `Watch` returns `NoMemory`, and only
    /// for a cell that is not watched. In both cases nothing changed.
    #[inline(never)]
    pub fn weak_command<F: Flight, L: Ledger>(
        &mut self,
        flight: &mut F,
        cmd: WeakCmd,
        steps: &mut Steps<L>,
    ) -> Result<Reply, CmdFault>
        requires counted { self.old.heap.ledger ≡ Some L.name }
        requires sound { IsSound self.old (F.bits flight.old) }
        ensures { WeakCommandDone F.bits F.origin self.old flight.old cmd result self.new
            flight.new }
    {
        match cmd {
            WeakCmd::Weaken(q, r) => self.heap.do_weaken(q, r),
            WeakCmd::Deref(r, q) => Ok(self.deref(flight, r, q, steps)),
            WeakCmd::Watch(r) => self.heap.do_watch(r),
            WeakCmd::Unwatch(r) => self.heap.do_unwatch(r),
        }
    }

    // A register holds what a weak slot names, exposed.
    fn deref<F: Flight, L: Ledger>(
        &mut self,
        flight: &mut F,
        r: Reg,
        q: WeakNo,
        steps: &mut Steps<L>,
    ) -> Reply
        requires counted { self.old.heap.ledger ≡ Some L.name }
        requires sound { IsSound self.old (F.bits flight.old) }
        ensures derefs { Derefs self.old (F.bits flight.old) r q result self.new
            (F.bits flight.new) }
        ensures origin { F.origin flight.new ≡ F.origin flight.old }
    {
        let plan = self.heap.plan_deref(r, q);
        let held = plan.handed();
        self.expose(flight, held, steps);
        match self.heap.commit(&plan) {
            Ok(reply) => reply,
            Err(_) => unreachable!(),
        }
    }

    // Makes room on the lists for the cells of a new arena, where a cell is made in a zone and comes
    // into one.
    #[inline(always)]
    fn make_room(&mut self, made_in: Option<ZoneNo>) -> Result<(), NoMemory>
        requires roomy { IsRoomy self.old (length self.old.heap.colours) }
        ensures roomy { OnOk result (IsRoomy self.new (arenas_after self.old.heap made_in)) }
        ensures widens { Widens self.old self.new }
        ensures makes { OnErr result (IsSome made_in) }
    {
        let Some(zone) = made_in else {
            return Ok(());
        };
        if !self.heap.is_full(zone) {
            return Ok(());
        }
        self.lists.reserve(64)
    }

    // Exposes a cell, if there is one to expose.
    #[inline(always)]
    fn expose<F: Flight, L: Ledger>(
        &mut self,
        flight: &mut F,
        place: Option<Place>,
        steps: &mut Steps<L>,
    )
        requires counted { self.old.heap.ledger ≡ Some L.name }
        requires covers { Covers self.old.heap.shape (F.bits flight.old) }
        requires present { ForSome place (IsPresent self.old.heap.shape) }
        requires phase { IsMarkable self.old (F.bits flight.old) ⊎ IsPrepared self.old }
        ensures through { GoesThrough place self.old (F.bits flight.old) self.new
            (F.bits flight.new) }
        ensures origin { F.origin flight.new ≡ F.origin flight.old }
    {
        if let Some(place) = place {
            expose(&mut self.heap, &mut self.stack, flight, place, steps);
        }
    }

    // No wrapper stands twice in the maps. It does nothing.
    pub(crate) fn wrappers_law(&self)
        ensures { AreApart self.now.heap.shape.wrappers.lists }
    {
        self.heap.wrappers_law();
    }
}
