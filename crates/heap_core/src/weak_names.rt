// Commands on weak slots and watched cells, without barriers.
ghost use Rattle.std.specs.Prelude.{◌≡◌, None, Ok, true};
ghost use Rattle.gz_names.specs.declared.replies.Reply.TheVariants as reply;
ghost use Rattle.heap_core.specs.declared.plans.Change.TheVariants as change;
ghost use Rattle.heap_core.specs.Heap.{reg_of};
ghost use Rattle.heap_core.specs.WeakNames.{Unwatches, Watches, weak_slot_of, with_weak_slot};

use crate::heap::Heap;
use crate::plans::{Change, Plan};
use gz_names::{CmdFault, Refusal, Reg, Reply, WeakNo};

impl Heap {
    /// A weak slot names what a register holds, or becomes empty.
    pub fn do_weaken(&mut self, q: WeakNo, r: Reg) -> Result<Reply, CmdFault>
        ensures answer { result ≡ Ok reply.Accepted }
        ensures weakens { self.new ≡ with_weak_slot self.old q (reg_of self.old r) }
    {
        self.set_weak_slot(q, self.reg(r));
        Ok(Reply::Accepted)
    }

    /// What a `deref` will do: a register holds what a weak slot names, or becomes empty. It is never
    /// refused. A barrier comes between it and `commit`.
    pub fn plan_deref(&self, r: Reg, q: WeakNo) -> Plan
        ensures { result ≡ record {
          overwritten = None;
          wrapped = None;
          change = change.Register r (weak_slot_of self.now q) true;
        } }
    {
        Plan::of(Change::Register(r, self.weak_slot(q), true))
    }

    /// What a register holds is watched from now on; twice is as once. Only this takes memory.
    pub fn do_watch(&mut self, r: Reg) -> Result<Reply, CmdFault>
        ensures { Watches self.old (reg_of self.old r) result self.new }
    {
        let Some(place) = self.reg(r) else {
            return Err(CmdFault::Refused(Refusal::Empty));
        };
        match self.watch_cell(place) {
            Ok(()) => Ok(Reply::Accepted),
            Err(_) => Err(CmdFault::NoMemory),
        }
    }

    /// What a register holds is watched no longer. `Absent` exactly where it was not.
    pub fn do_unwatch(&mut self, r: Reg) -> Result<Reply, CmdFault>
        ensures { Unwatches self.old (reg_of self.old r) result self.new }
    {
        let Some(place) = self.reg(r) else {
            return Err(CmdFault::Refused(Refusal::Empty));
        };
        if self.unwatch_cell(place) {
            Ok(Reply::Accepted)
        } else {
            Ok(Reply::Absent)
        }
    }
}
