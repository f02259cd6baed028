// Seeing cells of other compartments through wrappers.
ghost use Rattle.std.specs.Prelude.{◌≡◌, ◌<◌, IfErr, IfOk, None, OnErr, Some, slice_get};
ghost use Rattle.gz_names.specs.declared.commands.GraphCmd.TheVariants as cmd;
ghost use Rattle.gz_names.specs.declared.names.Name.TheVariants.{Wrap};
ghost use Rattle.gz_names.specs.declared.replies.Reply.TheVariants as reply;
ghost use Rattle.wrappers.specs.WrapperMaps.{place_of};
ghost use Rattle.heap_core.specs.Shape.{IsPresent};
ghost use Rattle.heap_core.specs.Answers.{IsSound};
ghost use Rattle.heap_core.specs.Lookups.{IsRefused, IsWrappable, number_at, seen_from, target_at};
ghost use Rattle.heap_core.specs.Effects.{HoldsWrapper};

use crate::heap::Heap;
use gz_names::{CompNo, Kind, Name, NoMemory, Place, Refusal, Reg, Reply, ZoneNo};

impl Heap {
    // The object or map that a `wrap` is about, or why it is refused.
    #[inline(always)]
    pub(crate) fn wrappable(&self, s: Reg, c: CompNo) -> Result<Place, Refusal>
        requires sound { IsSound self.now }
        ensures ok { IfOk result (IsWrappable self.now s c) }
        ensures present { IfOk result (IsPresent self.now.shape) }
        ensures err { IfErr result (λ why. (r : _) → IsRefused self.now (cmd.Wrap r s c) why) }
    {
        let Some(place) = self.reg(s) else {
            return Err(Refusal::Empty);
        };
        if !self.has_comp(c) {
            return Err(Refusal::NoComp);
        }
        Ok(self.target(place))
    }

    // What a compartment sees of a target: the target itself, or its wrapper, if it is there.
    #[inline(always)]
    pub(crate) fn seen_from(&self, c: CompNo, target: Place) -> Option<Place>
        requires { IsPresent self.now.shape target }
        ensures { result ≡ seen_from self.now.shape c target }
    {
        if self.comp(target) == c {
            Some(target)
        } else {
            self.find_wrapper(c, self.number(target))
        }
    }

    // What a present cell stands for: a wrapper's target, or the cell itself.
    pub(crate) fn target(&self, place: Place) -> Place
        requires { IsPresent self.now.shape place }
        ensures { result ≡ target_at self.now.shape place }
    {
        match self.kind(place) {
            Kind::Wrapper => self.field(place, 0).unwrap_or(place),
            Kind::Object(_) => place,
            Kind::Map => place,
        }
    }

    // The number in the name of a present cell.
    fn number(&self, place: Place) -> u64
        requires { IsPresent self.now.shape place }
        ensures value { result ≡ number_at self.now.shape place }
        ensures few { result < 4294967296 }
    {
        match self.name(place) {
            Name::Cell(number) => number,
            Name::Wrap(_, number) => number,
        }
    }

    // Makes the wrapper of a target in a compartment of a zone; a register holds it.
    #[inline(always)]
    pub(crate) fn hold_wrapper(
        &mut self,
        r: Reg,
        zone: ZoneNo,
        c: CompNo,
        target: Place,
    ) -> Result<Reply, NoMemory>
        requires sound { IsSound self.old }
        requires home { slice_get self.old.shape.comps c.0 ≡ Some zone }
        requires present { IsPresent self.old.shape target }
        requires absent { place_of self.old.shape.wrappers c.0 (number_at self.old.shape target)
            ≡ None }
        requires few { self.old.made < 4294967295 }
        ensures change { IfOk result (λ answer. HoldsWrapper self.old r c target self.new
            × (answer ≡ reply.Named (Wrap c (number_at self.old.shape target)))) }
        ensures err { OnErr result (self.new ≡ self.old) }
    {
        let number = self.number(target);
        let place = self.make_wrapper(zone, c, number, target)?;
        self.set_reg(r, Some(place));
        Ok(Reply::Named(Name::Wrap(c, number)))
    }
}
