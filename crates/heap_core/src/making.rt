// Making zones, compartments, objects and maps.
ghost use Rattle.std.specs.Prelude.{◌≡◌, ◌≢◌, ◌<◌, ◌≤◌, ◌↔◌, IfOk, IsTrue, OnErr, Some, false, length, slice_get};
ghost use Rattle.gz_names.specs.declared.replies.Reply.TheVariants as reply;
ghost use Rattle.arena_table.specs.Cells.{field_count};
ghost use Rattle.heap_core.specs.Answers.{IsSound};
ghost use Rattle.heap_core.specs.Changes.{with_comp, with_zone};
ghost use Rattle.heap_core.specs.Effects.{MakesHeld};
ghost use Rattle.heap_core.specs.Shows.{is_wrapper};

use crate::heap::Heap;
use gz_names::{COMP_LIMIT, CompNo, Kind, Name, NoMemory, Reg, Reply, ZONE_LIMIT, ZoneNo};
use std::alloc::AllocError;
use zones::{CompFault, ZoneFault};

impl Heap {
    // Makes the next zone.
    pub(crate) fn next_zone(&mut self) -> Result<Reply, NoMemory>
        requires { length self.old.shape.states ≢ ZONE_LIMIT }
        ensures change { IfOk result (λ answer. (self.new ≡ with_zone self.old)
            × (answer ≡ reply.Zone (length self.old.shape.states))) }
        ensures err { OnErr result (self.new ≡ self.old) }
    {
        match self.add_zone() {
            Ok(zone) => Ok(Reply::Zone(zone)),
            Err(ZoneFault::NoMemory) => Err(AllocError),
            Err(ZoneFault::Full) => unreachable!(),
        }
    }

    // Makes the next compartment, in a zone.
    pub(crate) fn next_comp(&mut self, zone: ZoneNo) -> Result<Reply, NoMemory>
        requires zone { zone < length self.old.shape.states }
        requires few { length self.old.shape.comps ≢ COMP_LIMIT }
        ensures change { IfOk result (λ answer. (self.new ≡ with_comp self.old zone)
            × (answer ≡ reply.Comp (record { 0 = length self.old.shape.comps }))) }
        ensures err { OnErr result (self.new ≡ self.old) }
    {
        match self.add_comp(zone) {
            Ok(comp) => Ok(Reply::Comp(comp)),
            Err(CompFault::NoMemory) => Err(AllocError),
            Err(CompFault::NoZone) => unreachable!(),
            Err(CompFault::Full) => unreachable!(),
        }
    }

    // Makes an object or a map in a compartment of a zone, with the next number; a register holds it.
    #[inline(always)]
    pub(crate) fn hold_cell(
        &mut self,
        r: Reg,
        zone: ZoneNo,
        c: CompNo,
        kind: Kind,
    ) -> Result<Reply, NoMemory>
        requires sound { IsSound self.old }
        requires home { slice_get self.old.shape.comps c.0 ≡ Some zone }
        requires fields { field_count kind ≤ 8 }
        requires plain { is_wrapper kind ≡ false }
        requires few { self.old.made < 4294967295 }
        ensures change { IfOk result (λ answer. MakesHeld self.old r kind c self.new
            × (answer ≡ reply.Made self.old.shape.objects)) }
        ensures err { OnErr result (self.new ≡ self.old) }
    {
        let number = self.objects();
        let place = self.make_cell(zone, kind, c, Name::Cell(number))?;
        self.next_number();
        self.set_reg(r, Some(place));
        Ok(Reply::Made(number))
    }

    // Whether a compartment was made.
    pub(crate) fn has_comp(&self, c: CompNo) -> bool
        ensures { IsTrue result ↔ (c.0 < length self.now.shape.comps) }
    {
        (c.0 as u16) < self.comps()
    }
}
