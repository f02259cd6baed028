// The dump of a heap: its present cells with their colours, their edges, and its weak entries.
ghost use Rattle.std.specs.Prelude.{◌≡◌, ◌∷◌, ◌++◌, [], Contains, IfOk, OnOk, List, Option, map};
ghost use Rattle.std.specs.List.{flat_map};
ghost use Rattle.gz_names.specs.declared.names.Name.{Name as AName};
ghost use Rattle.colour_defs.specs.Graph.{GraphState, object_of};
ghost use Rattle.colour_defs.specs.World.{World as AWorld};
ghost use Rattle.colour_defs.specs.Ends.{Lists};
ghost use Rattle.colour_defs.specs.Dumps.{cell_line, colour_in, edge_lines, field_lines, object_lines, weak_line};
ghost use Rattle.std.specs.BTreeMap.{IsOrdered};
ghost use Rattle.plain_graph.specs.Indexed.{pair_cmp};
ghost use Rattle.judge.specs.Cells.{HasCell};
ghost use Rattle.judge.specs.Dumps.{AddsEntry, HasEntries, ListsDump, Rests, weak_of, weaks_of};
ghost use Rattle.judge.specs.Stages.{shown};

use crate::former::fields_of;
use crate::world::World;
use gz_names::{DumpColour, DumpLine, Name, NoMemory};
use plain_graph::Graph;
use std::collections::BTreeMap;

/// The lines of the dump of a heap at rest.
pub fn dump_lines(graph: &Graph, world: &World) -> Result<Vec<DumpLine>, NoMemory>
    ensures { IfOk result (λ lines. ListsDump graph.now (shown world.now) lines.items) }
{
    let names = present_names(world)?;
    let found = present_entries(graph, world)?;
    let mut lines = Vec::new(world.alloc);
    push_cells(world, &mut lines, names.as_slice())?;
    push_edges(graph, &mut lines, names.as_slice())?;
    push_entries(&mut lines, &found)?;
    lines.push(DumpLine::End)?;
    Ok(lines)
}

// The present names, ascending.
fn present_names(world: &World) -> Result<Vec<Name>, NoMemory>
    ensures { IfOk result (λ names. Lists (HasCell world.now.places) names.items) }
{
    let mut names = Vec::new(world.alloc);
    for (name, _) in &world.places {
        names.push(*name)?;
    }
    Ok(names)
}

fn colour(world: &World, name: Name) -> DumpColour
    requires { HasCell world.now.places name }
    ensures { (g : GraphState) (w : AWorld) → Rests g (shown world.now) w → result ≡ colour_in w name }
{
    if world.black.contains(name) {
        DumpColour::Black
    } else {
        DumpColour::Gray
    }
}

// Adds the lines of present cells.
fn push_cells(world: &World, lines: &mut Vec<DumpLine>, names: &[Name]) -> Result<(), NoMemory>
    requires { (x : AName) → Contains names.now x → HasCell world.now.places x }
    ensures { OnOk result ((g : GraphState) (w : AWorld) → Rests g (shown world.now) w
        → lines.new.items ≡ lines.old.items ++ map (cell_line w) names.now) }
{
    for name in names {
        push_cell(world, lines, *name)?;
    }
    Ok(())
}

fn push_cell(world: &World, lines: &mut Vec<DumpLine>, name: Name) -> Result<(), NoMemory>
    requires { HasCell world.now.places name }
    ensures { OnOk result ((g : GraphState) (w : AWorld) → Rests g (shown world.now) w
        → lines.new.items ≡ lines.old.items ++ cell_line w name ∷ []) }
{
    lines.push(DumpLine::Cell(name, colour(world, name)))?;
    Ok(())
}

// Adds the edges of some names.
fn push_edges(graph: &Graph, lines: &mut Vec<DumpLine>, names: &[Name]) -> Result<(), NoMemory>
    ensures { OnOk result (lines.new.items ≡ lines.old.items ++ flat_map (edge_lines graph.now) names.now) }
{
    for name in names {
        push_edges_of(graph, lines, *name)?;
    }
    Ok(())
}

// Adds the edges of a name: a wrapper's is its name.
fn push_edges_of(graph: &Graph, lines: &mut Vec<DumpLine>, name: Name) -> Result<(), NoMemory>
    ensures { OnOk result (lines.new.items ≡ lines.old.items ++ edge_lines graph.now name) }
{
    match name {
        Name::Cell(number) => push_fields(lines, number, fields_of(graph, number)),
        Name::Wrap(_, _) => Ok(()),
    }
}

fn push_fields(
    lines: &mut Vec<DumpLine>,
    number: u64,
    fields: &[Option<Name>],
) -> Result<(), NoMemory>
    ensures { OnOk result (lines.new.items ≡ lines.old.items ++ field_lines number fields.now) }
{
    for held in fields {
        push_field(lines, number, *held)?;
    }
    Ok(())
}

fn push_field(lines: &mut Vec<DumpLine>, number: u64, held: Option<Name>) -> Result<(), NoMemory>
    ensures { OnOk result (lines.new.items ≡ lines.old.items ++ field_lines number (held ∷ [])) }
{
    match held {
        None => Ok(()),
        Some(name) => {
            lines.push(DumpLine::Edge(number, name))?;
            Ok(())
        }
    }
}

// The entries whose maps and keys are present, with their values.
fn present_entries(graph: &Graph, world: &World) -> Result<BTreeMap<(Name, Name), Name>, NoMemory>
    ensures { IfOk result (HasEntries graph.now world.now.places) }
{
    let mut found = BTreeMap::new(world.alloc);
    for entry in graph.entries() {
        add_entry(graph, world, &mut found, (entry.map, entry.key))?;
    }
    Ok(found)
}

// Adds the entry of a map and a key, if there is one and both are present.
fn add_entry(
    graph: &Graph,
    world: &World,
    found: &mut BTreeMap<(Name, Name), Name>,
    names: (Name, Name),
) -> Result<(), NoMemory>
    ensures { OnOk result (AddsEntry graph.now world.now.places names found.old found.new) }
{
    let Some(value) = graph.value_of(names.0, names.1) else {
        return Ok(());
    };
    if !world.is_present(names.0) {
        return Ok(());
    }
    if !world.is_present(names.1) {
        return Ok(());
    }
    found.insert(names, value)?;
    Ok(())
}

// Adds the lines of entries.
fn push_entries(
    lines: &mut Vec<DumpLine>,
    found: &BTreeMap<(Name, Name), Name>,
) -> Result<(), NoMemory>
    ensures lines { OnOk result (lines.new.items ≡ lines.old.items ++ map weak_line (weaks_of found.now.entries)) }
    ensures ordered { OnOk result (IsOrdered pair_cmp found.now) }
{
    for (names, value) in found {
        push_entry(lines, *names, *value)?;
    }
    Ok(())
}

fn push_entry(lines: &mut Vec<DumpLine>, names: (Name, Name), value: Name) -> Result<(), NoMemory>
    ensures { OnOk result (lines.new.items ≡ lines.old.items ++ map weak_line (weak_of (names, value))) }
{
    match names.0 {
        Name::Cell(map) => {
            lines.push(DumpLine::Weak(map, names.1, value))?;
            Ok(())
        }
        Name::Wrap(_, _) => Ok(()),
    }
}
