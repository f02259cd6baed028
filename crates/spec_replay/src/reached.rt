// What is reached in the graph as it is now.
ghost use Rattle.std.specs.Prelude.{◌≡◌, ◌↔◌, ◌⊎◌, ◌<◌, Contains, IfOk, OnOk, Some};
ghost use Rattle.gz_names.specs.declared.names.Name.{Name as AName};
ghost use Rattle.colour_defs.specs.Graph.{register_cell, slot_cell};
ghost use Rattle.colour_defs.specs.Closure.{Closure};
ghost use Rattle.colour_defs.specs.Ends.{Lists};
ghost use Rattle.spec_replay.specs.Reached.{IsBlackNow, IsInRegister, IsInSlotsBelow, IsLiveNow};

use gz_names::{GrayNo, Name, NoMemory, Reg};
use plain_graph::{Graph, closure};
use std::alloc::Global;

// Adds a name, if there is one.
fn push_some(names: &mut Vec<Name>, name: Option<Name>) -> Result<(), NoMemory>
    ensures { OnOk result ((x : AName) → Contains names.new.items x
        ↔ (Contains names.old.items x ⊎ (name ≡ Some x))) }
{
    if let Some(name) = name {
        names.push(name)?;
    }
    Ok(())
}

// What the register of this number holds.
fn in_register(graph: &Graph, index: u8) -> Option<Name>
    requires { index < 16 }
    ensures { result ≡ register_cell graph.now index }
{
    match Reg::new(index) {
        Some(register) => graph.register(register),
        None => None,
    }
}

// What the gray slot of this number holds.
fn in_slot(graph: &Graph, index: u8) -> Option<Name>
    requires { index < 64 }
    ensures { result ≡ slot_cell graph.now index }
{
    match GrayNo::new(index) {
        Some(slot) => graph.slot(slot),
        None => None,
    }
}

// Adds what the registers hold.
fn push_registers(graph: &Graph, starts: &mut Vec<Name>) -> Result<(), NoMemory>
    ensures { OnOk result ((x : AName) → Contains starts.new.items x
        ↔ (Contains starts.old.items x ⊎ IsInRegister graph.now x)) }
{
    for index in 0..16u8 {
        push_some(starts, in_register(graph, index))?;
    }
    Ok(())
}

// Adds what the gray slots hold.
fn push_slots(graph: &Graph, starts: &mut Vec<Name>) -> Result<(), NoMemory>
    ensures { OnOk result ((x : AName) → Contains starts.new.items x
        ↔ (Contains starts.old.items x ⊎ IsInSlotsBelow 64 graph.now x)) }
{
    for index in 0..64u8 {
        push_some(starts, in_slot(graph, index))?;
    }
    Ok(())
}

// The names that are reached from these, ascending.
fn names_from(alloc: Global, graph: &Graph, starts: &[Name]) -> Result<Vec<Name>, NoMemory>
    ensures { IfOk result (λ names. Lists (Closure graph.now (Contains starts.now)) names.items) }
{
    let mut names = closure(alloc, graph, starts)?;
    names.sort_unstable();
    Ok(names)
}

/// The names that the registers reach, ascending.
pub fn black_names(alloc: Global, graph: &Graph) -> Result<Vec<Name>, NoMemory>
    ensures { IfOk result (λ names. Lists (IsBlackNow graph.now) names.items) }
{
    let mut starts = Vec::new(alloc);
    push_registers(graph, &mut starts)?;
    names_from(alloc, graph, starts.as_slice())
}

/// The names that the registers and the gray slots reach, ascending.
pub fn live_names(alloc: Global, graph: &Graph) -> Result<Vec<Name>, NoMemory>
    ensures { IfOk result (λ names. Lists (IsLiveNow graph.now) names.items) }
{
    let mut starts = Vec::new(alloc);
    push_registers(graph, &mut starts)?;
    push_slots(graph, &mut starts)?;
    names_from(alloc, graph, starts.as_slice())
}
