// What each command does to the graph, and what it answers: the definitions of specs/Step.antt as
// code.
ghost use Rattle.std.specs.Prelude.{◌≡◌, ◌<◌, ◌↔◌, IfOk, IsTrue, OnErr, OnOk, length};
ghost use Rattle.gz_names.specs.declared.commands.GraphCmd.TheVariants as cmd;
ghost use Rattle.colour_defs.specs.Graph.{object_of, register_cell, slot_cell};
ghost use Rattle.colour_defs.specs.Step.{IsAccepted, entry_refusal, fits_comp, is_in_comp, make_object};
ghost use Rattle.colour_defs.specs.Step.{map_comp, named_or_null, set_in, step_of, take_in_register, take_wrapper};
ghost use Rattle.colour_defs.specs.Step.{value_to_set};

use crate::graph::{Graph, target_of};
use colour_defs::{Fields, Object};
use gz_names::{COMP_LIMIT, CompNo, GraphCmd, GrayNo, Name, NoMemory, Refusal, Reg, Reply, ZoneNo};
use std::alloc::Global;

fn named_or_null(cell: &Option<Name>) -> Reply
    ensures { result ≡ named_or_null cell.now }
{
    match cell {
        None => Reply::Null,
        Some(name) => Reply::Named(*name),
    }
}

/// A register takes a cell or becomes empty, and the reply names it.
pub fn take_in_register(graph: &mut Graph, register: Reg, cell: Option<Name>) -> Reply
    ensures graph { graph.new ≡ (take_in_register graph.old register cell).0 }
    ensures reply { result ≡ (take_in_register graph.old register cell).1 }
{
    let reply = named_or_null(&cell);
    graph.set_register(register, cell);
    reply
}

fn make_zone(graph: &mut Graph) -> Reply
    ensures graph { graph.new ≡ (step_of graph.old cmd.Zone).0 }
    ensures reply { result ≡ (step_of graph.old cmd.Zone).1 }
{
    let Some(zone) = ZoneNo::new(graph.zones()) else {
        return Reply::Refused(Refusal::Full);
    };
    graph.add_zone();
    Reply::Zone(zone)
}

fn make_comp(graph: &mut Graph, zone: ZoneNo) -> Result<Reply, NoMemory>
    ensures graph { OnOk result (graph.new ≡ (step_of graph.old (cmd.Comp zone)).0) }
    ensures reply { IfOk result (λ r. r ≡ (step_of graph.old (cmd.Comp zone)).1) }
    ensures accepted { OnErr result (IsAccepted graph.old (cmd.Comp zone)) }
    ensures err { OnErr result (graph.new ≡ graph.old) }
{
    if zone.index() >= graph.zones() {
        return Ok(Reply::Refused(Refusal::NoZone));
    }
    let count = graph.comps();
    if count >= COMP_LIMIT as usize {
        return Ok(Reply::Refused(Refusal::Full));
    }
    graph.add_comp(zone)?;
    Ok(Reply::Comp(CompNo(count as u8)))
}

// Whether a compartment was made.
fn has_comp(graph: &Graph, comp: CompNo) -> bool
    ensures { IsTrue result ↔ (comp.0 < length graph.now.comps) }
{
    (comp.0 as usize) < graph.comps()
}

// The object or map gets the next number, and a register holds it.
fn add_object(graph: &mut Graph, register: Reg, object: Object) -> Result<Reply, NoMemory>
    requires { object.comp.0 < length graph.old.comps }
    ensures graph { OnOk result (graph.new ≡ (make_object graph.old register object).0) }
    ensures reply { IfOk result (λ r. r ≡ (make_object graph.old register object).1) }
    ensures err { OnErr result (graph.new ≡ graph.old) }
{
    let number = graph.made() as u64;
    graph.add_object(object)?;
    graph.set_register(register, Some(Name::Cell(number)));
    Ok(Reply::Made(number))
}

fn make_object(
    alloc: Global,
    graph: &mut Graph,
    register: Reg,
    comp: CompNo,
    count: u8,
) -> Result<Reply, NoMemory>
    ensures graph { OnOk result (graph.new ≡ (step_of graph.old (cmd.New register comp count)).0) }
    ensures reply { IfOk result (λ r. r ≡ (step_of graph.old (cmd.New register comp count)).1) }
    ensures accepted { OnErr result (IsAccepted graph.old (cmd.New register comp count)) }
    ensures err { OnErr result (graph.new ≡ graph.old) }
{
    if !has_comp(graph, comp) {
        return Ok(Reply::Refused(Refusal::NoComp));
    }
    let fields = Fields::new(alloc, count)?;
    let object = Object {
        comp,
        is_map: false,
        fields,
    };
    add_object(graph, register, object)
}

fn make_map(
    alloc: Global,
    graph: &mut Graph,
    register: Reg,
    comp: CompNo,
) -> Result<Reply, NoMemory>
    ensures graph { OnOk result (graph.new ≡ (step_of graph.old (cmd.Map register comp)).0) }
    ensures reply { IfOk result (λ r. r ≡ (step_of graph.old (cmd.Map register comp)).1) }
    ensures accepted { OnErr result (IsAccepted graph.old (cmd.Map register comp)) }
    ensures err { OnErr result (graph.new ≡ graph.old) }
{
    if !has_comp(graph, comp) {
        return Ok(Reply::Refused(Refusal::NoComp));
    }
    let map = Object {
        comp,
        is_map: true,
        fields: Fields::empty(alloc),
    };
    add_object(graph, register, map)
}

fn get(graph: &mut Graph, register: Reg, source: Reg, field: u8) -> Reply
    ensures graph { graph.new ≡ (step_of graph.old (cmd.Get register source field)).0 }
    ensures reply { result ≡ (step_of graph.old (cmd.Get register source field)).1 }
{
    let number = match graph.register(source) {
        None => return Reply::Refused(Refusal::Empty),
        Some(Name::Wrap(_, _)) => return Reply::Refused(Refusal::Kind),
        Some(Name::Cell(number)) => number,
    };
    let found = match graph.object(number) {
        Some(object) if !object.is_map => object.fields.get(field as usize),
        _ => return Reply::Refused(Refusal::Kind),
    };
    match found {
        None => Reply::Refused(Refusal::NoField),
        Some(cell) => take_in_register(graph, register, cell),
    }
}

fn is_in_comp(graph: &Graph, comp: CompNo, name: Name) -> bool
    ensures { result ≡ is_in_comp graph.now comp name }
{
    match graph.comp_of(name) {
        None => false,
        Some(own) => own == comp,
    }
}

fn fits_comp(graph: &Graph, comp: CompNo, cell: &Option<Name>) -> bool
    ensures { result ≡ fits_comp graph.now comp cell.now }
{
    match cell {
        None => true,
        Some(name) => is_in_comp(graph, comp, *name),
    }
}

fn set_in(graph: &mut Graph, number: u64, field: u8, value: Option<Name>) -> Reply
    ensures graph { let object = object_of graph.old number in
        graph.new ≡ (set_in graph.old number object field value).0 }
    ensures reply { let object = object_of graph.old number in
        result ≡ (set_in graph.old number object field value).1 }
{
    let comp = match graph.object(number) {
        Some(object) if !object.is_map => {
            if field as usize >= object.fields.len() {
                return Reply::Refused(Refusal::NoField);
            }
            object.comp
        }
        _ => return Reply::Refused(Refusal::Kind),
    };
    if !fits_comp(graph, comp, &value) {
        return Reply::Refused(Refusal::Cross);
    }
    graph.set_field(number, field, value);
    Reply::Accepted
}

// What a `set` is to write: null, or what a register holds, if it holds something.
fn value_to_set(graph: &Graph, register: &Option<Reg>) -> Option<Option<Name>>
    ensures { result ≡ value_to_set graph.now register.now }
{
    match register {
        None => Some(None),
        Some(register) => match graph.register(*register) {
            None => None,
            Some(name) => Some(Some(name)),
        },
    }
}

fn set(graph: &mut Graph, holder: Reg, field: u8, value: &Option<Reg>) -> Reply
    ensures graph { graph.new ≡ (step_of graph.old (cmd.Set holder field value.now)).0 }
    ensures reply { result ≡ (step_of graph.old (cmd.Set holder field value.now)).1 }
{
    match (graph.register(holder), value_to_set(graph, value)) {
        (None, _) | (Some(_), None) => Reply::Refused(Refusal::Empty),
        (Some(Name::Wrap(_, _)), Some(_)) => Reply::Refused(Refusal::Kind),
        (Some(Name::Cell(number)), Some(value)) => set_in(graph, number, field, value),
    }
}

// A register takes the wrapper of a target, which is made if it was never there.
fn take_wrapper(
    graph: &mut Graph,
    register: Reg,
    comp: CompNo,
    target: u64,
) -> Result<Reply, NoMemory>
    ensures graph { OnOk result (graph.new ≡ (take_wrapper graph.old register comp target).0) }
    ensures reply { IfOk result (λ r. r ≡ (take_wrapper graph.old register comp target).1) }
    ensures err { OnErr result (graph.new ≡ graph.old) }
{
    if !graph.has_wrapper(comp, target) {
        graph.add_wrapper(comp, target)?;
    }
    graph.set_register(register, Some(Name::Wrap(comp, target)));
    Ok(Reply::Named(Name::Wrap(comp, target)))
}

fn wrap(graph: &mut Graph, register: Reg, source: Reg, comp: CompNo) -> Result<Reply, NoMemory>
    ensures graph { OnOk result
        (graph.new ≡ (step_of graph.old (cmd.Wrap register source comp)).0) }
    ensures reply { IfOk result (λ r. r ≡ (step_of graph.old (cmd.Wrap register source comp)).1) }
    ensures accepted { OnErr result (IsAccepted graph.old (cmd.Wrap register source comp)) }
    ensures err { OnErr result (graph.new ≡ graph.old) }
{
    let target = match graph.register(source) {
        None => return Ok(Reply::Refused(Refusal::Empty)),
        Some(name) => target_of(name),
    };
    if !has_comp(graph, comp) {
        return Ok(Reply::Refused(Refusal::NoComp));
    }
    if is_in_comp(graph, comp, Name::Cell(target)) {
        graph.set_register(register, Some(Name::Cell(target)));
        return Ok(Reply::Named(Name::Cell(target)));
    }
    take_wrapper(graph, register, comp, target)
}

fn unwrap(graph: &mut Graph, register: Reg, source: Reg) -> Reply
    ensures graph { graph.new ≡ (step_of graph.old (cmd.Unwrap register source)).0 }
    ensures reply { result ≡ (step_of graph.old (cmd.Unwrap register source)).1 }
{
    match graph.register(source) {
        None => Reply::Refused(Refusal::Empty),
        Some(Name::Cell(_)) => Reply::Refused(Refusal::Kind),
        Some(Name::Wrap(_, target)) => {
            graph.set_register(register, Some(Name::Cell(target)));
            Reply::Named(Name::Cell(target))
        }
    }
}

fn copy(graph: &mut Graph, register: Reg, source: Reg) -> Reply
    ensures graph { graph.new ≡ (step_of graph.old (cmd.Copy register source)).0 }
    ensures reply { result ≡ (step_of graph.old (cmd.Copy register source)).1 }
{
    let cell = graph.register(source);
    graph.set_register(register, cell);
    Reply::Accepted
}

fn hold(graph: &mut Graph, slot: GrayNo, register: Reg) -> Reply
    ensures graph { graph.new ≡ (step_of graph.old (cmd.Hold slot register)).0 }
    ensures reply { result ≡ (step_of graph.old (cmd.Hold slot register)).1 }
{
    let cell = graph.register(register);
    graph.set_slot(slot, cell);
    Reply::Accepted
}

fn expose(graph: &mut Graph, register: Reg, slot: GrayNo) -> Reply
    ensures graph { graph.new ≡ (step_of graph.old (cmd.Expose register slot)).0 }
    ensures reply { result ≡ (step_of graph.old (cmd.Expose register slot)).1 }
{
    let cell = graph.slot(slot);
    take_in_register(graph, register, cell)
}

// The compartment of a map; None for what is no map.
fn map_comp(graph: &Graph, name: Name) -> Option<CompNo>
    ensures { result ≡ map_comp graph.now name }
{
    match name {
        Name::Wrap(_, _) => None,
        Name::Cell(number) => match graph.object(number) {
            Some(object) if object.is_map => Some(object.comp),
            _ => None,
        },
    }
}

// Why an entry of a map with this key and value is refused, if it is.
fn entry_refusal(graph: &Graph, map: Name, key: Name, value: Name) -> Option<Refusal>
    ensures { result ≡ entry_refusal graph.now map key value }
{
    match map_comp(graph, map) {
        None => Some(Refusal::Kind),
        Some(comp) if is_in_comp(graph, comp, key) && is_in_comp(graph, comp, value) => None,
        Some(_) => Some(Refusal::Cross),
    }
}

fn put(graph: &mut Graph, map: Reg, key: Reg, value: Reg) -> Result<Reply, NoMemory>
    ensures graph { OnOk result (graph.new ≡ (step_of graph.old (cmd.Put map key value)).0) }
    ensures reply { IfOk result (λ r. r ≡ (step_of graph.old (cmd.Put map key value)).1) }
    ensures accepted { OnErr result (IsAccepted graph.old (cmd.Put map key value)) }
    ensures err { OnErr result (graph.new ≡ graph.old) }
{
    let (Some(map), Some(key), Some(value)) = (
        graph.register(map),
        graph.register(key),
        graph.register(value),
    ) else {
        return Ok(Reply::Refused(Refusal::Empty));
    };
    if let Some(why) = entry_refusal(graph, map, key, value) {
        return Ok(Reply::Refused(why));
    }
    graph.put_entry(map, key, value)?;
    Ok(Reply::Accepted)
}

fn del(graph: &mut Graph, map: Reg, key: Reg) -> Reply
    ensures graph { graph.new ≡ (step_of graph.old (cmd.Del map key)).0 }
    ensures reply { result ≡ (step_of graph.old (cmd.Del map key)).1 }
{
    let (Some(map), Some(key)) = (graph.register(map), graph.register(key)) else {
        return Reply::Refused(Refusal::Empty);
    };
    if let Some(why) = entry_refusal(graph, map, key, key) {
        return Reply::Refused(why);
    }
    match graph.value_of(map, key) {
        None => Reply::Absent,
        Some(_) => {
            graph.del_entry(map, key);
            Reply::Accepted
        }
    }
}

fn find(graph: &mut Graph, register: Reg, map: Reg, key: Reg) -> Reply
    ensures graph { graph.new ≡ (step_of graph.old (cmd.Find register map key)).0 }
    ensures reply { result ≡ (step_of graph.old (cmd.Find register map key)).1 }
{
    let (Some(map), Some(key)) = (graph.register(map), graph.register(key)) else {
        return Reply::Refused(Refusal::Empty);
    };
    match entry_refusal(graph, map, key, key) {
        Some(why) => Reply::Refused(why),
        None => {
            let value = graph.value_of(map, key);
            take_in_register(graph, register, value)
        }
    }
}

/// Does a command on the graph, and answers it. Refusals come before want of memory, which is the
/// one error and leaves the graph as it was.
pub fn step(alloc: Global, graph: &mut Graph, cmd: &GraphCmd) -> Result<Reply, NoMemory>
    ensures graph { OnOk result (graph.new ≡ (step_of graph.old cmd.now).0) }
    ensures reply { IfOk result (λ r. r ≡ (step_of graph.old cmd.now).1) }
    ensures accepted { OnErr result (IsAccepted graph.old cmd.now) }
    ensures err { OnErr result (graph.new ≡ graph.old) }
{
    match cmd {
        GraphCmd::Zone => Ok(make_zone(graph)),
        GraphCmd::Comp(zone) => make_comp(graph, *zone),
        GraphCmd::New(register, comp, count) => {
            make_object(alloc, graph, *register, *comp, *count)
        }
        GraphCmd::Map(register, comp) => make_map(alloc, graph, *register, *comp),
        GraphCmd::Get(register, source, field) => Ok(get(graph, *register, *source, *field)),
        GraphCmd::Set(holder, field, value) => Ok(set(graph, *holder, *field, value)),
        GraphCmd::Wrap(register, source, comp) => wrap(graph, *register, *source, *comp),
        GraphCmd::Unwrap(register, source) => Ok(unwrap(graph, *register, *source)),
        GraphCmd::Copy(register, source) => Ok(copy(graph, *register, *source)),
        GraphCmd::Drop(register) => {
            graph.set_register(*register, None);
            Ok(Reply::Accepted)
        }
        GraphCmd::Hold(slot, register) => Ok(hold(graph, *slot, *register)),
        GraphCmd::Release(slot) => {
            graph.set_slot(*slot, None);
            Ok(Reply::Accepted)
        }
        GraphCmd::Expose(register, slot) => Ok(expose(graph, *register, *slot)),
        GraphCmd::Put(map, key, value) => put(graph, *map, *key, *value),
        GraphCmd::Del(map, key) => Ok(del(graph, *map, *key)),
        GraphCmd::Find(register, map, key) => Ok(find(graph, *register, *map, *key)),
    }
}
