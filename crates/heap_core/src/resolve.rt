// Commands are resolved: what they will do, or why they are refused.
ghost use Rattle.std.specs.Prelude.{IfErr, IfOk};
ghost use Rattle.gz_names.specs.declared.commands.GraphCmd.TheVariants as cmd;
ghost use Rattle.heap_core.specs.Answers.{IsSound};
ghost use Rattle.heap_core.specs.Lookups.{IsRefused};
ghost use Rattle.heap_core.specs.Plans.{IsPlanOf};

use crate::heap::Heap;
use crate::plans::{Change, Plan};
use gz_names::{COMP_LIMIT, CompNo, GraphCmd, Kind, Place, Refusal, Reg, ZONE_LIMIT, ZoneNo};

impl Heap {
    /// What a command on the graph will do, or why it is refused: each exactly where it is so, and
    /// with the first reason in the order of our choice. It changes nothing, and takes no memory.
    #[inline(always)]
    pub fn resolve(&self, cmd: &GraphCmd) -> Result<Plan, Refusal>
        requires sound { IsSound self.now }
        ensures plan { IfOk result (IsPlanOf self.now cmd.now) }
        ensures refused { IfErr result (IsRefused self.now cmd.now) }
    {
        match cmd {
            GraphCmd::Zone => self.resolve_zone(),
            GraphCmd::Comp(z) => self.resolve_comp(*z),
            GraphCmd::New(r, c, n) => self.resolve_new(*r, *c, *n),
            GraphCmd::Map(r, c) => self.resolve_map(*r, *c),
            GraphCmd::Get(r, s, f) => self.resolve_get(*r, *s, *f),
            GraphCmd::Set(s, f, t) => self.resolve_set(*s, *f, t),
            GraphCmd::Wrap(r, s, c) => self.resolve_wrap(*r, *s, *c),
            GraphCmd::Unwrap(r, s) => self.resolve_unwrap(*r, *s),
            GraphCmd::Copy(r, s) => Ok(Plan::of(Change::Register(*r, self.reg(*s), false))),
            GraphCmd::Drop(r) => Ok(Plan::of(Change::Register(*r, None, false))),
            GraphCmd::Hold(g, r) => Ok(Plan::of(Change::Slot(*g, self.reg(*r)))),
            GraphCmd::Release(g) => Ok(Plan::of(Change::Slot(*g, None))),
            GraphCmd::Expose(r, g) => Ok(Plan::of(Change::Register(*r, self.slot(*g), true))),
            GraphCmd::Put(m, k, v) => self.resolve_put(*m, *k, *v),
            GraphCmd::Del(m, k) => self.resolve_del(*m, *k),
            GraphCmd::Find(r, m, k) => self.resolve_find(*r, *m, *k),
        }
    }

    #[inline(always)]
    fn resolve_zone(&self) -> Result<Plan, Refusal>
        requires sound { IsSound self.now }
        ensures plan { IfOk result (IsPlanOf self.now cmd.Zone) }
        ensures refused { IfErr result (IsRefused self.now cmd.Zone) }
    {
        if self.zones() == ZONE_LIMIT {
            return Err(Refusal::Full);
        }
        Ok(Plan::of(Change::Zone))
    }

    #[inline(always)]
    fn resolve_comp(&self, z: ZoneNo) -> Result<Plan, Refusal>
        requires sound { IsSound self.now }
        ensures plan { IfOk result (IsPlanOf self.now (cmd.Comp z)) }
        ensures refused { IfErr result (IsRefused self.now (cmd.Comp z)) }
    {
        if z.index() >= self.zones() {
            return Err(Refusal::NoZone);
        }
        if self.comps() == COMP_LIMIT {
            return Err(Refusal::Full);
        }
        Ok(Plan::of(Change::Comp(z)))
    }

    #[inline(always)]
    fn resolve_new(&self, r: Reg, c: CompNo, n: u8) -> Result<Plan, Refusal>
        requires sound { IsSound self.now }
        ensures plan { IfOk result (IsPlanOf self.now (cmd.New r c n)) }
        ensures refused { IfErr result (IsRefused self.now (cmd.New r c n)) }
    {
        if !self.has_comp(c) {
            return Err(Refusal::NoComp);
        }
        Ok(Plan::of(Change::Cell(r, self.zone_of(c), c, Kind::Object(n))))
    }

    #[inline(always)]
    fn resolve_map(&self, r: Reg, c: CompNo) -> Result<Plan, Refusal>
        requires sound { IsSound self.now }
        ensures plan { IfOk result (IsPlanOf self.now (cmd.Map r c)) }
        ensures refused { IfErr result (IsRefused self.now (cmd.Map r c)) }
    {
        if !self.has_comp(c) {
            return Err(Refusal::NoComp);
        }
        Ok(Plan::of(Change::Cell(r, self.zone_of(c), c, Kind::Map)))
    }

    #[inline(always)]
    fn resolve_get(&self, r: Reg, s: Reg, f: u8) -> Result<Plan, Refusal>
        requires sound { IsSound self.now }
        ensures plan { IfOk result (IsPlanOf self.now (cmd.Get r s f)) }
        ensures refused { IfErr result (IsRefused self.now (cmd.Get r s f)) }
    {
        match self.got(s, f) {
            Ok(held) => Ok(Plan::of(Change::Register(r, held, true))),
            Err(why) => Err(why),
        }
    }

    #[inline(always)]
    fn resolve_unwrap(&self, r: Reg, s: Reg) -> Result<Plan, Refusal>
        requires sound { IsSound self.now }
        ensures plan { IfOk result (IsPlanOf self.now (cmd.Unwrap r s)) }
        ensures refused { IfErr result (IsRefused self.now (cmd.Unwrap r s)) }
    {
        match self.unwrapped(s) {
            Ok(held) => Ok(Plan::of(Change::Register(r, held, true))),
            Err(why) => Err(why),
        }
    }

    #[inline(always)]
    fn resolve_find(&self, r: Reg, m: Reg, k: Reg) -> Result<Plan, Refusal>
        requires sound { IsSound self.now }
        ensures plan { IfOk result (IsPlanOf self.now (cmd.Find r m k)) }
        ensures refused { IfErr result (IsRefused self.now (cmd.Find r m k)) }
    {
        match self.found(m, k) {
            Ok(held) => Ok(Plan::of(Change::Register(r, held, true))),
            Err(why) => Err(why),
        }
    }

    #[inline(always)]
    fn resolve_set(&self, s: Reg, f: u8, t: &Option<Reg>) -> Result<Plan, Refusal>
        requires sound { IsSound self.now }
        ensures plan { IfOk result (IsPlanOf self.now (cmd.Set s f t.now)) }
        ensures refused { IfErr result (IsRefused self.now (cmd.Set s f t.now)) }
    {
        match self.written(s, f, t) {
            Ok(place) => Ok(Plan {
                overwritten: self.field(place, f),
                wrapped: None,
                change: Change::Field(place, f, self.value_to_set(t)),
            }),
            Err(why) => Err(why),
        }
    }

    #[inline(always)]
    fn resolve_wrap(&self, r: Reg, s: Reg, c: CompNo) -> Result<Plan, Refusal>
        requires sound { IsSound self.now }
        ensures plan { IfOk result (IsPlanOf self.now (cmd.Wrap r s c)) }
        ensures refused { IfErr result (IsRefused self.now (cmd.Wrap r s c)) }
    {
        match self.wrappable(s, c) {
            Ok(target) => Ok(Plan {
                overwritten: None,
                wrapped: Some(target),
                change: match self.seen_from(c, target) {
                    Some(place) => Change::Register(r, Some(place), true),
                    None => Change::Wrapper(r, self.zone_of(c), c, target),
                },
            }),
            Err(why) => Err(why),
        }
    }

    #[inline(always)]
    fn resolve_put(&self, m: Reg, k: Reg, v: Reg) -> Result<Plan, Refusal>
        requires sound { IsSound self.now }
        ensures plan { IfOk result (IsPlanOf self.now (cmd.Put m k v)) }
        ensures refused { IfErr result (IsRefused self.now (cmd.Put m k v)) }
    {
        match self.entry_named(m, k, v) {
            Ok(entry) => Ok(Plan {
                overwritten: self.find_entry(entry.map, entry.key),
                wrapped: None,
                change: Change::Put(entry.map, entry.key, entry.value),
            }),
            Err(why) => Err(why),
        }
    }

    #[inline(always)]
    fn resolve_del(&self, m: Reg, k: Reg) -> Result<Plan, Refusal>
        requires sound { IsSound self.now }
        ensures plan { IfOk result (IsPlanOf self.now (cmd.Del m k)) }
        ensures refused { IfErr result (IsRefused self.now (cmd.Del m k)) }
    {
        match self.entry_named(m, k, k) {
            Ok(entry) => Ok(Plan {
                overwritten: self.find_entry(entry.map, entry.key),
                wrapped: None,
                change: Change::Del(entry.map, entry.key),
            }),
            Err(why) => Err(why),
        }
    }
}
