// The closure, by a walk. One list has the names that are known to be reached, in the order in which they were found:
//
//     visited | to be visited
//
// Beside the visited ones all is found. So where none is left to visit, the names are closed.
ghost use Rattle.std.specs.Prelude.{◌≡◌, ◌≢◌, ◌↔◌, ◌+◌, ◌<◌, ◌^◌, [], List, AllPairs, Contains, IfOk, IsTrue, OnOk};
ghost use Rattle.std.specs.Prelude.{Some, is_some, slice_get, if◌then◌else◌};
ghost use Rattle.gz_names.specs.declared.names.Name.{Name as AName};
ghost use Rattle.colour_defs.specs.Closure.{Closure, HasEdge};
ghost use Rattle.plain_graph.specs.Reach.{Adds, Follows, HasDelegateIn, IsAt, IsDone, Keeps, Visits};

use crate::graph::Graph;
use crate::waiting::Pair;
use gz_names::{Name, NoMemory};
use std::alloc::Global;
use std::collections::BTreeSet;
use std::marker::Model;

/// A walk over what is reached from some names. More of them may be added after it.
#[derive(Drop)]
pub struct Walk {
    found: BTreeSet<Name>,
    names: Vec<Name>,
    /// For each name the one that led to it; a start has none.
    from: Vec<Option<Name>>,
    next: usize,
}

impl Model for Walk {
    ghost use Rattle.plain_graph.specs.Reach.{IsWalk, WalkState};

    ghost Value = { WalkState };

    ghost view = { λ w. record { names = w.names.items; next = w.next } };

    ghost invariant = { λ w. IsWalk w.found w.names.items w.next };
}

impl Walk {
    /// A walk that has found nothing. It takes no memory.
    pub fn new(alloc: Global) -> Self
        ensures { result ≡ record { names = []; next = 0 } }
    {
        Walk {
            found: BTreeSet::new(alloc),
            names: Vec::new(alloc),
            from: Vec::new(alloc),
            next: 0,
        }
    }

    /// Whether a name was found.
    pub fn contains(&self, name: Name) -> bool
        ensures { IsTrue result ↔ Contains self.now.names name }
    {
        self.found.contains(&name)
    }

    /// The names that were found, each once.
    pub fn into_names(self) -> Vec<Name>
        ensures names { result.items ≡ self.names }
        ensures distinct { AllPairs (λ x y. x ≢ y) result.items }
    {
        self.names
    }

    /// A way to a name that was found, backwards: the name first, a start last.
    pub fn way_to(&self, alloc: Global, name: Name) -> Result<Vec<Name>, NoMemory> {
        let mut way = Vec::new(alloc);
        let mut wanted = Some(name);
        for (found, from) in self.names.iter().rev().zip(self.from.iter().rev()) {
            if Some(*found) == wanted {
                way.push(*found)?;
                wanted = *from;
            }
        }
        Ok(way)
    }

    /// Adds a name to which another one led, or a start, unless it was found.
    pub fn add(&mut self, name: Name, from: Option<Name>) -> Result<(), NoMemory>
        ensures next { self.new.next ≡ self.old.next }
        ensures added { OnOk result (Adds self.old.names self.new.names (λ x. name ≡ x)) }
    {
        if self.contains(name) {
            return Ok(());
        }
        self.from.push(from)?;
        self.names.reserve(1)?;
        self.found.insert(name)?;
        self.names.push(name)?;
        Ok(())
    }

    // The next name to be visited.
    fn take_next(&mut self) -> Option<Name>
        ensures next { self.new.next ≡ self.old.next + (if is_some result then 1 else 0) }
        ensures names { self.new.names ≡ self.old.names }
        ensures few { self.new.next < 2 ^ 64 }
        ensures at { result ≡ slice_get self.old.names self.old.next }
    {
        let name = self.names.get(self.next).copied();
        if name.is_some() {
            self.next += 1;
        }
        name
    }

    // Adds what fields hold.
    fn add_held(&mut self, fields: &[Option<Name>], from: Name) -> Result<(), NoMemory>
        ensures next { self.new.next ≡ self.old.next }
        ensures added { OnOk result (Adds self.old.names self.new.names (λ x. Contains fields.now (Some x))) }
    {
        for held in fields {
            if let Some(name) = held {
                self.add(*name, Some(from))?;
            }
        }
        Ok(())
    }

    // Adds what a name leads to.
    fn add_ends(&mut self, graph: &Graph, name: Name) -> Result<(), NoMemory>
        ensures next { self.new.next ≡ self.old.next }
        ensures added { OnOk result (Adds self.old.names self.new.names (HasEdge graph.now name)) }
    {
        match name {
            Name::Cell(number) => match graph.object(number) {
                None => Ok(()),
                Some(object) => self.add_held(object.fields.as_slice(), name),
            },
            Name::Wrap(comp, target) => {
                if graph.has_wrapper(comp, target) {
                    self.add(Name::Cell(target), Some(name))?;
                }
                Ok(())
            }
        }
    }

    // Whether the target of a name was found, if it is a wrapper.
    fn has_delegate(&self, name: Name) -> bool
        ensures { IsTrue result ↔ HasDelegateIn self.now.names name }
    {
        match name {
            Name::Cell(_) => false,
            Name::Wrap(_, target) => self.contains(Name::Cell(target)),
        }
    }

    // Adds what an entry keeps: its value beside its map and its key, and its key beside its map and the key's target.
    fn add_kept(&mut self, graph: &Graph, pair: Pair, from: Name) -> Result<(), NoMemory>
        ensures next { self.new.next ≡ self.old.next }
        ensures kept { OnOk result (Keeps graph.now (IsAt pair.0 pair.1) self.old.names self.new.names) }
    {
        let (map, key) = pair;
        let Some(value) = graph.value_of(map, key) else {
            return Ok(());
        };
        if !self.contains(map) {
            return Ok(());
        }
        if self.contains(key) {
            return self.add(value, Some(from));
        }
        if self.has_delegate(key) {
            return self.add(key, Some(from));
        }
        Ok(())
    }

    // Adds what entries keep.
    fn add_all_kept(&mut self, graph: &Graph, pairs: &[Pair], from: Name) -> Result<(), NoMemory>
        ensures next { self.new.next ≡ self.old.next }
        ensures kept { OnOk result (Keeps graph.now (λ m k. Contains pairs.now (m, k))
            self.old.names self.new.names) }
    {
        for pair in pairs {
            self.add_kept(graph, *pair, from)?;
        }
        Ok(())
    }

    // Visits a name that was found.
    fn visit(&mut self, graph: &Graph, name: Name) -> Result<(), NoMemory>
        requires { Contains self.old.names name }
        ensures next { self.new.next ≡ self.old.next }
        ensures visited { OnOk result (Visits graph.now name self.old.names self.new.names) }
    {
        self.add_ends(graph, name)?;
        self.add_all_kept(graph, graph.waiting_for(name), name)
    }

    /// Visits all that is to be visited, and what is found on the way.
    pub fn finish(&mut self, graph: &Graph) -> Result<(), NoMemory>
        ensures { OnOk result ((starts : List AName) → Follows graph.now starts self.old
            → IsDone graph.now starts self.new) }
    {
        while let Some(name) = self.take_next() {
            self.visit(graph, name)?;
        }
        Ok(())
    }
}

/// What is reached in the graph from the starts, each name once. Want of memory is the one error.
pub fn closure(alloc: Global, graph: &Graph, starts: &[Name]) -> Result<Vec<Name>, NoMemory>
    ensures closure { IfOk result (λ names. (x : AName)
        → Contains names.items x ↔ Closure graph.now (Contains starts.now) x) }
    ensures distinct { IfOk result (λ names. AllPairs (λ x y. x ≢ y) names.items) }
{
    let mut walk = Walk::new(alloc);
    for start in starts {
        walk.add(*start, None)?;
    }
    walk.finish(graph)?;
    Ok(walk.into_names())
}
