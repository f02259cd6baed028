// The change that a plan names is made.
ghost use Rattle.std.specs.Prelude.{◌≡◌, IfOk, OnErr};
ghost use Rattle.std.specs.Option.{ForSome};
ghost use Rattle.colour_defs.specs.Step.{named_or_null};
ghost use Rattle.heap_core.specs.Shape.{IsPresent, held_name};
ghost use Rattle.heap_core.specs.Answers.{IsSound};
ghost use Rattle.heap_core.specs.Plans.{ChangesBy, IsAble, MayWant};

use crate::heap::Heap;
use crate::plans::{Change, Plan};
use gz_names::{NoMemory, Place, Reply};

impl Heap {
    /// Makes the change of a plan that `resolve` gave, also after barriers: it cannot be refused.
    /// Only a change that makes something, or adds an entry, may return `NoMemory`; then nothing
    /// changed.
    #[inline(always)]
    pub fn commit(&mut self, plan: &Plan) -> Result<Reply, NoMemory>
        requires sound { IsSound self.old }
        requires able { IsAble self.old.shape self.old.made plan.now.change }
        ensures change { IfOk result
            (λ answer. ChangesBy self.old plan.now.change answer self.new) }
        ensures err { OnErr result (self.new ≡ self.old) }
        ensures wanted { OnErr result (MayWant self.old.shape plan.now.change) }
    {
        match plan.change {
            Change::Zone => self.next_zone(),
            Change::Comp(zone) => self.next_comp(zone),
            Change::Cell(r, zone, c, kind) => self.hold_cell(r, zone, c, kind),
            Change::Wrapper(r, zone, c, target) => self.hold_wrapper(r, zone, c, target),
            Change::Register(r, held, is_named) => {
                let reply = if is_named {
                    self.reply_of(&held)
                } else {
                    Reply::Accepted
                };
                self.set_reg(r, held);
                Ok(reply)
            }
            Change::Slot(g, held) => {
                self.set_slot(g, held);
                Ok(Reply::Accepted)
            }
            Change::Field(place, f, value) => {
                self.set_field(place, f, value);
                Ok(Reply::Accepted)
            }
            Change::Put(map, key, value) => match self.put_entry(map, key, value) {
                Ok(()) => Ok(Reply::Accepted),
                Err(fault) => Err(fault),
            },
            Change::Del(map, key) => match self.del_entry(map, key) {
                Some(_) => Ok(Reply::Accepted),
                None => Ok(Reply::Absent),
            },
        }
    }

    // The reply that names what is held.
    pub(crate) fn reply_of(&self, held: &Option<Place>) -> Reply
        requires { ForSome held.now (IsPresent self.now.shape) }
        ensures { result ≡ named_or_null (held_name self.now.shape held.now) }
    {
        match held {
            Some(place) => Reply::Named(self.name(*place)),
            None => Reply::Null,
        }
    }
}
