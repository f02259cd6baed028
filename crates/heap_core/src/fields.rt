// What commands on fields look up.
ghost use Rattle.std.specs.Prelude.{◌≡◌, IfErr, IfOk, Some};
ghost use Rattle.std.specs.Option.{ForSome, option_map};
ghost use Rattle.gz_names.specs.declared.commands.GraphCmd.TheVariants as cmd;
ghost use Rattle.heap_core.specs.Shape.{IsPresent, cell_of};
ghost use Rattle.heap_core.specs.Answers.{IsSound};
ghost use Rattle.heap_core.specs.Lookups.{Hands, IsRefused, IsWritable, field_refusal, fits_in, held_field, is_filled};
ghost use Rattle.heap_core.specs.Lookups.{value_to_set};

use crate::heap::Heap;
use gz_names::{CompNo, Kind, Place, Refusal, Reg};

impl Heap {
    // What a `get` hands to its register, or why it is refused.
    #[inline(always)]
    pub(crate) fn got(&self, s: Reg, f: u8) -> Result<Option<Place>, Refusal>
        requires sound { IsSound self.now }
        ensures step { Hands self.now (λ r. cmd.Get r s f) result }
        ensures value { IfOk result (λ v. v ≡ held_field self.now s f) }
        ensures present { IfOk result (λ v. ForSome v (IsPresent self.now.shape)) }
    {
        let Some(place) = self.reg(s) else {
            return Err(Refusal::Empty);
        };
        match self.field_refusal(place, f) {
            None => Ok(self.field(place, f)),
            Some(why) => Err(why),
        }
    }

    // What an `unwrap` hands to its register, or why it is refused.
    #[inline(always)]
    pub(crate) fn unwrapped(&self, s: Reg) -> Result<Option<Place>, Refusal>
        requires sound { IsSound self.now }
        ensures step { Hands self.now (λ r. cmd.Unwrap r s) result }
        ensures value { IfOk result (λ v. v ≡ held_field self.now s 0) }
        ensures present { IfOk result (λ v. ForSome v (IsPresent self.now.shape)) }
    {
        let Some(place) = self.reg(s) else {
            return Err(Refusal::Empty);
        };
        match self.kind(place) {
            Kind::Wrapper => Ok(self.field(place, 0)),
            Kind::Object(_) => Err(Refusal::Kind),
            Kind::Map => Err(Refusal::Kind),
        }
    }

    // The object that a `set` writes, or why it is refused.
    #[inline(always)]
    pub(crate) fn written(&self, s: Reg, f: u8, t: &Option<Reg>) -> Result<Place, Refusal>
        requires sound { IsSound self.now }
        ensures ok { IfOk result (IsWritable self.now s f t.now) }
        ensures err { IfErr result (IsRefused self.now (cmd.Set s f t.now)) }
    {
        let Some(place) = self.reg(s) else {
            return Err(Refusal::Empty);
        };
        if !self.is_filled(t) {
            return Err(Refusal::Empty);
        }
        if let Some(why) = self.field_refusal(place, f) {
            return Err(why);
        }
        if !self.fits(self.comp(place), &self.value_to_set(t)) {
            return Err(Refusal::Cross);
        }
        Ok(place)
    }

    // What a `set` writes: null, or what a register holds.
    pub(crate) fn value_to_set(&self, t: &Option<Reg>) -> Option<Place>
        ensures { result ≡ value_to_set self.now t.now }
    {
        match t {
            Some(t) => self.reg(*t),
            None => None,
        }
    }

    // Whether the register that a `set` is to write holds something, if it names one.
    fn is_filled(&self, t: &Option<Reg>) -> bool
        ensures { result ≡ is_filled self.now t.now }
    {
        match t {
            Some(t) => self.reg(*t).is_some(),
            None => true,
        }
    }

    // Whether what is held is nothing, or a cell of a compartment.
    pub(crate) fn fits(&self, comp: CompNo, held: &Option<Place>) -> bool
        requires { ForSome held.now (IsPresent self.now.shape) }
        ensures { result ≡ fits_in self.now.shape comp held.now }
    {
        match held {
            Some(place) => self.comp(*place) == comp,
            None => true,
        }
    }

    // Why a field of a present cell is neither read nor written, if so.
    fn field_refusal(&self, place: Place, f: u8) -> Option<Refusal>
        requires { IsPresent self.now.shape place }
        ensures { option_map (λ cell. field_refusal cell.kind f) (cell_of self.now.shape place)
            ≡ Some result }
    {
        match self.kind(place) {
            Kind::Object(count) if f < count => None,
            Kind::Object(_) => Some(Refusal::NoField),
            Kind::Map => Some(Refusal::Kind),
            Kind::Wrapper => Some(Refusal::Kind),
        }
    }
}
