// What commands on the entries of weak maps look up.
ghost use Rattle.std.specs.Prelude.{◌≡◌, IfErr, IfOk};
ghost use Rattle.std.specs.Option.{ForSome};
ghost use Rattle.gz_names.specs.declared.commands.GraphCmd.TheVariants as cmd;
ghost use Rattle.heap_core.specs.Shape.{IsPresent};
ghost use Rattle.heap_core.specs.Answers.{IsSound};
ghost use Rattle.heap_core.specs.Lookups.{Hands, IsEntry, IsNoEntry, entry_refusal, held_value};

use crate::heap::Heap;
use gz_names::{Kind, Place, Refusal, Reg};
use weak_maps::WeakEntry;

impl Heap {
    // What a `find` hands to its register, or why it is refused.
    pub(crate) fn found(&self, m: Reg, k: Reg) -> Result<Option<Place>, Refusal>
        requires sound { IsSound self.now }
        ensures step { Hands self.now (λ r. cmd.Find r m k) result }
        ensures value { IfOk result (λ v. v ≡ held_value self.now m k) }
        ensures present { IfOk result (λ v. ForSome v (IsPresent self.now.shape)) }
    {
        match self.entry_named(m, k, k) {
            Ok(entry) => Ok(self.find_entry(entry.map, entry.key)),
            Err(why) => Err(why),
        }
    }

    // The map, the key and the value that a command on an entry names, or why it is refused.
    pub(crate) fn entry_named(&self, m: Reg, k: Reg, v: Reg) -> Result<WeakEntry, Refusal>
        requires sound { IsSound self.now }
        ensures ok { IfOk result (λ e. IsEntry self.now m k v e.map e.key e.value) }
        ensures err { IfErr result (IsNoEntry self.now m k v) }
    {
        let Some(map) = self.reg(m) else {
            return Err(Refusal::Empty);
        };
        let Some(key) = self.reg(k) else {
            return Err(Refusal::Empty);
        };
        let Some(value) = self.reg(v) else {
            return Err(Refusal::Empty);
        };
        match self.entry_refusal(map, key, value) {
            None => Ok(WeakEntry { map, key, value }),
            Some(why) => Err(why),
        }
    }

    // Why an entry with this map, key and value is refused, if it is.
    fn entry_refusal(&self, map: Place, key: Place, value: Place) -> Option<Refusal>
        requires map { IsPresent self.now.shape map }
        requires key { IsPresent self.now.shape key }
        requires value { IsPresent self.now.shape value }
        ensures { result ≡ entry_refusal self.now.shape map key value }
    {
        match self.kind(map) {
            Kind::Map => {
                let comp = self.comp(map);
                if self.comp(key) != comp || self.comp(value) != comp {
                    return Some(Refusal::Cross);
                }
                None
            }
            Kind::Object(_) => Some(Refusal::Kind),
            Kind::Wrapper => Some(Refusal::Kind),
        }
    }
}
