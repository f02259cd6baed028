// The graph as it stood when a collection began, and what is asked of a graph.
//
// Nothing is copied as a collection begins. This graph is made by the changes that made the other; while a collection
// marks, it takes none, and these are kept and done on it afterwards.
ghost use Rattle.std.specs.Prelude.{◌≡◌, ◌↔◌, ◌++◌, ◌∷◌, [], IsTrue, OnOk, false};
ghost use Rattle.gz_names.specs.Zones.{zones_in};
ghost use Rattle.colour_defs.specs.Graph.{IsInZones, empty_graph, object_of};
ghost use Rattle.judge.specs.Former.{IsFormer, Keeps, Releases, Takes, changed, graph_by, held_in, kept_of};

use gz_names::{GraphCmd, Name, NoMemory, Reg, ZoneSet};
use plain_graph::{Graph, step, take_in_register};
use std::alloc::Global;

/// A change of a graph.
#[derive(Clone, Copy)]
pub enum Change {
    Command(GraphCmd),
    /// A register takes what a weak slot names.
    Take(Reg, Option<Name>),
}

// A change that was not taken.
#[derive(Clone, Copy)]
struct Kept {
    change: Change,
}

/// The graph as it stood when a collection began; where none marks, as it is.
#[derive(Drop)]
pub struct Former {
    alloc: Global,
    graph: Graph,
    /// Changes that it has not taken.
    kept: Vec<Kept>,
    is_kept: bool,
}

impl Former {
    pub fn new(alloc: Global) -> Self
        ensures former { IsFormer result empty_graph }
        ensures kept { result.is_kept ≡ false }
    {
        Former {
            alloc,
            graph: Graph::new(alloc),
            kept: Vec::new(alloc),
            is_kept: false,
        }
    }

    pub fn graph(&self) -> &Graph
        ensures { result.now ≡ self.now.graph }
    {
        &self.graph
    }

    /// Takes a change, or keeps it.
    pub fn change(&mut self, change: &Change) -> Result<(), NoMemory>
        ensures { OnOk result (Takes change.now self.old self.new) }
    {
        if self.is_kept {
            return keep_change(&mut self.kept, change);
        }
        do_one(self.alloc, &mut self.graph, change)
    }

    /// From here on it stays as it is.
    pub fn keep(&mut self)
        ensures { Keeps self.old self.new }
    {
        self.is_kept = true;
    }

    /// It takes the changes that were kept, and each one from here on.
    pub fn let_go(&mut self) -> Result<(), NoMemory>
        ensures { OnOk result (Releases self.old self.new) }
    {
        do_all(self.alloc, &mut self.graph, self.kept.as_slice())?;
        self.kept.clear();
        self.is_kept = false;
        Ok(())
    }
}

fn add<T: Drop>(list: &mut Vec<T>, item: T) -> Result<(), NoMemory>
    ensures { OnOk result (list.new.items ≡ list.old.items ++ item ∷ []) }
{
    list.push(item)?;
    Ok(())
}

fn keep_change(kept: &mut Vec<Kept>, change: &Change) -> Result<(), NoMemory>
    ensures { OnOk result (kept.new.items ≡ kept.old.items ++ kept_of change.now ∷ []) }
{
    add(kept, Kept { change: *change })
}

fn do_one(alloc: Global, graph: &mut Graph, change: &Change) -> Result<(), NoMemory>
    ensures { OnOk result (graph.new ≡ changed graph.old change.now) }
{
    match change {
        Change::Command(command) => {
            step(alloc, graph, command)?;
        }
        Change::Take(register, cell) => {
            take_in_register(graph, *register, *cell);
        }
    }
    Ok(())
}

fn do_all(alloc: Global, graph: &mut Graph, changes: &[Kept]) -> Result<(), NoMemory>
    ensures { OnOk result (graph.new ≡ graph_by graph.old changes.now) }
{
    for kept in changes {
        do_one(alloc, graph, &kept.change)?;
    }
    Ok(())
}

/// Whether a cell is of one of these zones.
pub fn is_in(graph: &Graph, zones: ZoneSet, name: Name) -> bool
    ensures { IsTrue result ↔ IsInZones graph.now (zones_in zones) name }
{
    match graph.zone_of(name) {
        None => false,
        Some(zone) => zones.contains(zone),
    }
}

/// What an object holds, field by field.
pub fn fields_of(graph: &Graph, number: u64) -> &[Option<Name>]
    ensures { result.now ≡ held_in (object_of graph.now number) }
{
    match graph.object(number) {
        None => &[],
        Some(object) => object.fields.as_slice(),
    }
}
