// A collection between `gc` and `started`: its zones are being prepared, and nothing is marked yet.
ghost use Rattle.std.specs.Prelude.{◌≡◌, ◌↔◌, Contains, IfOk, IsTrue, OnOk, Some, slice_get};
ghost use Rattle.gz_names.specs.Zones.{zones_in};
ghost use Rattle.gz_names.specs.declared.names.Name.{Name as AName};
ghost use Rattle.gz_names.specs.declared.names.Name.TheVariants.{Cell};
ghost use Rattle.colour_defs.specs.Closure.{HasEdge};
ghost use Rattle.colour_defs.specs.Step.{target_of};
ghost use Rattle.plain_graph.specs.Reach.{IsAt};
ghost use Rattle.judge.specs.Cells.{HasCell};
ghost use Rattle.judge.specs.LeftOut.{Adds, GrowsLeft, HasDelegateLeft, HasLeft, Keeps, Visits};
ghost use Rattle.judge.specs.Starts.{IsBlackElsewhere, IsListOf, LeavesOut};
ghost use Rattle.judge.specs.Walks.{IsLeftBlack};

use crate::former::{fields_of, is_in};
use gz_names::{Name, NoMemory, Place, ZoneSet};
use plain_graph::{Graph, Walk};
use std::alloc::{AllocError, Global};
use std::collections::{BTreeMap, BTreeSet};

/// A collection that is being prepared.
#[derive(Drop)]
pub struct Preparation {
    pub zones: ZoneSet,
    /// What is black of the zones that it leaves out. Nothing is followed through a cell of its own zones.
    pub black: BTreeSet<Name>,
    /// Those that turned black last: some were visited, and the others are to be.
    found: Vec<Name>,
}

/// The object or map that a name stands for: the target of a wrapper, or the name itself.
pub fn target_of(name: Name) -> Name
    ensures { result ≡ Cell (target_of name) }
{
    match name {
        Name::Cell(number) => Name::Cell(number),
        Name::Wrap(_, target) => Name::Cell(target),
    }
}

// Whether a name is black, and of none of these zones.
fn is_black_outside(graph: &Graph, zones: ZoneSet, black: &Walk, name: Name) -> bool
    ensures { IsTrue result ↔ IsBlackElsewhere graph.now (zones_in zones) black.now.names name }
{
    if is_in(graph, zones, name) {
        return false;
    }
    black.contains(name)
}

// The present cells that are black, and of none of these zones.
fn blacks_outside(
    alloc: Global,
    graph: &Graph,
    zones: ZoneSet,
    places: &BTreeMap<Name, Place>,
    black: &Walk,
) -> Result<Vec<Name>, NoMemory>
    ensures { IfOk result (λ names. IsListOf names.items (λ x. HasCell places.now x
        × IsBlackElsewhere graph.now (zones_in zones) black.now.names x)) }
{
    let mut names = Vec::new(alloc);
    for (name, _) in places {
        if !is_black_outside(graph, zones, black, *name) {
            continue;
        }
        names.push(*name)?;
    }
    Ok(names)
}

fn set_of(alloc: Global, names: &[Name]) -> Result<BTreeSet<Name>, NoMemory>
    ensures { IfOk result (λ set. (x : AName) → IsLeftBlack (Some set) x ↔ Contains names.now x) }
{
    let mut set = BTreeSet::new(alloc);
    for name in names {
        set.insert(*name)?;
    }
    Ok(set)
}

impl Preparation {
    /// The preparation of these zones begins: what is black in them counts no longer.
    pub fn new(
        alloc: Global,
        graph: &Graph,
        zones: ZoneSet,
        places: &BTreeMap<Name, Place>,
        black: &Walk,
    ) -> Result<Self, NoMemory>
        ensures zones { IfOk result (λ it. it.zones ≡ zones) }
        ensures left_out { IfOk result (λ it. LeavesOut graph.now (zones_in zones) places.now black.now.names
            (Some it.black)) }
    {
        let names = blacks_outside(alloc, graph, zones, places, black)?;
        Ok(Preparation {
            zones,
            black: set_of(alloc, names.as_slice())?,
            found: Vec::new(alloc),
        })
    }

    pub fn is_black(&self, name: Name) -> bool
        ensures { IsTrue result ↔ IsLeftBlack (Some self.now.black) name }
    {
        self.black.contains(&name)
    }

    /// A name turns black, if it is left out, and what is reached from there.
    pub fn blacken(&mut self, graph: &Graph, name: Name) -> Result<(), NoMemory>
        ensures zones { OnOk result (self.new.zones ≡ self.old.zones) }
        ensures black { OnOk result (GrowsLeft graph.now self.old.zones (λ s. name ≡ s) (Some self.old.black)
            (Some self.new.black)) }
    {
        self.found.clear();
        self.add(graph, name)?;
        for place in 0..usize::MAX {
            let Some(name) = self.found_at(place) else {
                return Ok(());
            };
            self.visit(graph, name)?;
        }
        Err(AllocError)
    }

    // One of those that turned black last.
    fn found_at(&self, place: usize) -> Option<Name>
        ensures { result ≡ slice_get self.now.found.items place }
    {
        self.found.get(place).copied()
    }

    // A name is to be visited, unless it was, or is of a zone of the collection.
    fn add(&mut self, graph: &Graph, name: Name) -> Result<(), NoMemory>
        ensures { OnOk result (Adds graph.now self.old self.new (λ x. name ≡ x)) }
    {
        if is_in(graph, self.zones, name) {
            return Ok(());
        }
        if self.is_black(name) {
            return Ok(());
        }
        self.black.insert(name)?;
        self.found.push(name)?;
        Ok(())
    }

    fn visit(&mut self, graph: &Graph, name: Name) -> Result<(), NoMemory>
        requires { HasLeft self.old name }
        ensures { OnOk result (Visits graph.now name self.old self.new) }
    {
        self.add_ends(graph, name)?;
        self.add_all_kept(graph, graph.waiting_for(name))
    }

    // Adds what a name leads to.
    fn add_ends(&mut self, graph: &Graph, name: Name) -> Result<(), NoMemory>
        ensures { OnOk result (Adds graph.now self.old self.new (HasEdge graph.now name)) }
    {
        match name {
            Name::Cell(number) => self.add_held(graph, fields_of(graph, number)),
            Name::Wrap(comp, target) => {
                if !graph.has_wrapper(comp, target) {
                    return Ok(());
                }
                self.add(graph, Name::Cell(target))
            }
        }
    }

    fn add_held(&mut self, graph: &Graph, fields: &[Option<Name>]) -> Result<(), NoMemory>
        ensures { OnOk result (Adds graph.now self.old self.new (λ x. Contains fields.now (Some x))) }
    {
        for held in fields {
            if let Some(name) = held {
                self.add(graph, *name)?;
            }
        }
        Ok(())
    }

    // Adds what entries keep.
    fn add_all_kept(&mut self, graph: &Graph, pairs: &[(Name, Name)]) -> Result<(), NoMemory>
        ensures { OnOk result (Keeps graph.now (λ m k. Contains pairs.now (m, k)) self.old self.new) }
    {
        for pair in pairs {
            self.add_kept(graph, pair.0, pair.1)?;
        }
        Ok(())
    }

    // Adds what an entry keeps: its value beside its map and its key, and its key beside its map and the key's target.
    fn add_kept(&mut self, graph: &Graph, map: Name, key: Name) -> Result<(), NoMemory>
        ensures { OnOk result (Keeps graph.now (IsAt map key) self.old self.new) }
    {
        let Some(value) = graph.value_of(map, key) else {
            return Ok(());
        };
        if !self.is_black(map) {
            return Ok(());
        }
        if self.is_black(key) {
            return self.add(graph, value);
        }
        if self.has_delegate(key) {
            return self.add(graph, key);
        }
        Ok(())
    }

    // Whether the target of a name is black, if it is a wrapper.
    fn has_delegate(&self, name: Name) -> bool
        ensures { IsTrue result ↔ HasDelegateLeft self.now name }
    {
        match name {
            Name::Cell(_) => false,
            Name::Wrap(_, target) => self.is_black(Name::Cell(target)),
        }
    }
}
