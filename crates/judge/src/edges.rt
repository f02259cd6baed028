// The edges between the zones of a collection, by which its groups are ordered.
ghost use Rattle.std.specs.Prelude.{◌≡◌, ◌↔◌, ◌⊎◌, ℕ, IfNone, IfSome, IsTrue, slice_index_or};
ghost use Rattle.gz_names.specs.Zones.{HasZone, zones_in};
ghost use Rattle.colour_defs.specs.Groups.{LeadsWithin};
ghost use Rattle.judge.specs.Edges.{AreEdges, AreForward, AreStrong, IsEntryOf, IsKeyOf, IsNoted, IsStrong, Notes};
ghost use Rattle.judge.specs.Edges.{no_zones, sources_of};

use crate::collection::Collection;
use gz_names::{Name, Place, ZoneNo, ZoneSet};
use plain_graph::Graph;
use std::collections::BTreeMap;

/// Edges between zones: for each zone, those to which one leads.
#[derive(Clone, Copy)]
pub struct ZoneEdges {
    to: [ZoneSet; 64],
}

impl ZoneEdges {
    fn new() -> Self
        ensures { (a b : ℕ) → IsNoted result a b → ⊥ }
    {
        ZoneEdges {
            to: [ZoneSet { bits: 0 }; 64],
        }
    }

    // Notes an edge.
    fn note(&mut self, from: ZoneNo, to: ZoneNo)
        ensures { (a b : ℕ) → IsNoted self.new a b ↔ (IsNoted self.old a b ⊎ ((a ≡ from) × (b ≡ to))) }
    {
        let at = usize::from(from.index());
        self.to[at] = self.to[at].union(ZoneSet::only(to));
    }

    // The zones to which an edge leads from one.
    fn targets_of(&self, zone: ZoneNo) -> ZoneSet
        ensures { result ≡ slice_index_or self.now.to zone no_zones }
    {
        self.to[usize::from(zone.index())]
    }
}

// Whether this map and key have an entry, the map is present, and the key is this one.
fn is_entry_of(graph: &Graph, places: &BTreeMap<Name, Place>, pair: (Name, Name), key: Name) -> bool
    ensures { IsTrue result ↔ IsEntryOf graph.now places.now pair key }
{
    if pair.1 != key {
        return false;
    }
    if graph.value_of(pair.0, pair.1).is_none() {
        return false;
    }
    places.contains_key(&pair.0)
}

// Whether a name is the key of an entry whose map is present.
fn is_key(graph: &Graph, places: &BTreeMap<Name, Place>, name: Name) -> bool
    ensures { IsTrue result ↔ IsKeyOf graph.now places.now name }
{
    for pair in graph.waiting_for(name) {
        if is_entry_of(graph, places, *pair, name) {
            return true;
        }
    }
    false
}

// Notes the edges that a present name makes. A wrapper leads to its target's zone. Where it is a key, its target keeps
// it, so that an edge leads back as well.
fn note_edges_of(
    edges: &mut ZoneEdges,
    graph: &Graph,
    entries: &Graph,
    places: &BTreeMap<Name, Place>,
    collection: &Collection,
    name: Name,
)
    ensures { Notes (sources_of graph.now entries.now places.now collection.now) name edges.old edges.new }
{
    let Some((from, to)) = collection.edge_of(graph, name) else {
        return;
    };
    edges.note(from, to);
    if is_key(entries, places, name) {
        edges.note(to, from);
    }
}

/// The edges between the zones of a collection, by what it has found black so far, and by the entries of a graph.
pub fn zone_edges(
    graph: &Graph,
    entries: &Graph,
    places: &BTreeMap<Name, Place>,
    collection: &Collection,
) -> ZoneEdges
    ensures { AreEdges (sources_of graph.now entries.now places.now collection.now) result }
{
    let mut edges = ZoneEdges::new();
    for (name, _) in places {
        note_edges_of(&mut edges, graph, entries, places, collection, *name);
    }
    edges
}

/// A present wrapper that makes this edge, and whether it leads along it; else it leads back, and is a key.
pub fn wrapper_between(
    graph: &Graph,
    places: &BTreeMap<Name, Place>,
    collection: &Collection,
    edge: (ZoneNo, ZoneNo),
) -> Option<(Name, bool)> {
    for (name, _) in places {
        let Some((from, to)) = collection.edge_of(graph, *name) else {
            continue;
        };
        if (from, to) == edge {
            return Some((*name, true));
        }
        if (to, from) == edge && is_key(graph, places, *name) {
            return Some((*name, false));
        }
    }
    None
}

// The zones of a group to which edges lead from one of them, within the group.
fn reached_in(edges: &ZoneEdges, group: ZoneSet, start: ZoneNo) -> ZoneSet
    requires { HasZone group.bits start }
    ensures { (z : ℕ) → HasZone result.bits z ↔ LeadsWithin (IsNoted edges.now) (zones_in group) start z }
{
    let mut reached = ZoneSet::only(start);
    let mut rest = group;
    'zones: while let Some(zone) = rest.intersection(reached).first() {
        reached = reached.union(edges.targets_of(zone).intersection(group));
        rest.remove(zone);
    }
    reached
}

// A zone of a group from which edges do not lead to each other zone of it, within the group.
fn zone_apart(edges: &ZoneEdges, group: ZoneSet) -> Option<ZoneNo>
    ensures some { IfSome result (λ _. IsStrong (IsNoted edges.now) group → ⊥) }
    ensures none { IfNone result (IsStrong (IsNoted edges.now) group) }
{
    let mut rest = group;
    'zones: while let Some(zone) = rest.first() {
        if group
            .without(reached_in(edges, group, zone))
            .first()
            .is_some()
        {
            return Some(zone);
        }
        rest.remove(zone);
    }
    None
}

/// The first group in which edges do not lead from each zone to each other, and a zone from which they do not.
pub fn first_apart(edges: &ZoneEdges, groups: &[ZoneSet]) -> Option<(ZoneSet, ZoneNo)>
    ensures some { IfSome result (λ _. AreStrong (IsNoted edges.now) groups.now → ⊥) }
    ensures none { IfNone result (AreStrong (IsNoted edges.now) groups.now) }
{
    for group in groups {
        if let Some(zone) = zone_apart(edges, *group) {
            return Some((*group, zone));
        }
    }
    None
}

// An edge from one of these zones into one of others.
fn edge_into(edges: &ZoneEdges, from: ZoneSet, to: ZoneSet) -> Option<(ZoneNo, ZoneNo)>
    ensures some { IfSome result (λ e. HasZone from.bits e.0 × HasZone to.bits e.1 × IsNoted edges.now e.0 e.1) }
    ensures none { IfNone result ((a b : ℕ) → HasZone from.bits a → HasZone to.bits b → IsNoted edges.now a b → ⊥) }
{
    let mut rest = from;
    'zones: while let Some(zone) = rest.first() {
        if let Some(target) = edges.targets_of(zone).intersection(to).first() {
            return Some((zone, target));
        }
        rest.remove(zone);
    }
    None
}

/// An edge from a group to an earlier one.
pub fn first_backward(edges: &ZoneEdges, groups: &[ZoneSet]) -> Option<(ZoneNo, ZoneNo)>
    ensures some { IfSome result (λ _. AreForward (IsNoted edges.now) groups.now → ⊥) }
    ensures none { IfNone result (AreForward (IsNoted edges.now) groups.now) }
{
    let mut earlier = ZoneSet::new();
    for group in groups {
        if let Some(edge) = edge_into(edges, *group, earlier) {
            return Some(edge);
        }
        earlier = earlier.union(*group);
    }
    None
}
