// The edges that are noted between zones, and the steps that group the zones.
ghost use Rattle.std.specs.Prelude.{◌≡◌, ℕ, ◌+◌, ◌⊎◌, ◌↔◌, None, Some, if◌then◌else◌, length};
ghost use Rattle.gz_names.specs.Zones.{HasZone};
ghost use Rattle.gz_names.specs.declared.numbers.Place.{Place as APlace};
ghost use Rattle.heap_core.specs.Shape.{IsDelegate, out_of};
ghost use Rattle.zone_edges.specs.Groups.{Edge, AreComponents};
ghost use Rattle.zone_edges.specs.Walk.{IsSearch};
ghost use Rattle.zone_edges.specs.Looks.{AreDelegated, AreLeftBlack, AreWrappers, IsKey, Looks, cursor_of};

use crate::look::{edge_from, is_key, next_wrapper};
use crate::search::Search;
use gz_names::{Groups, Place, ZoneNo, ZoneSet};
use heap_core::{Heap, Steps};
use std::marker::Model;
use std::sync::ledger::Ledger;

/// The zones of a collection, the edges noted between them, which had their grouping step, and how
/// many wrappers of each were looked at.
#[derive(Drop)]
pub struct Edges {
    search: Search,
    stepped: ZoneSet,
    cursors: [u64; 64],
    // The zone whose wrapper was looked at last.
    current: Option<ZoneNo>,
}

impl Model for Edges {
    ghost use Rattle.zone_edges.specs.Noted.{Noted, IsBetween};

    ghost Value = { Noted };

    ghost view = { λ e. record {
      zones = e.search.zones;
      sources = e.search.sources;
      stepped = e.stepped;
      cursors = e.cursors;
    } };

    ghost invariant = { λ e. IsBetween e.search e.stepped e.cursors };
}

impl Edges {
    /// No zones and no edges.
    pub fn new() -> Self
        ensures zones { result.zones.bits ≡ 0 }
        ensures edges { (a b : ℕ) → Edge result.sources a b → ⊥ }
        ensures stepped { result.stepped.bits ≡ 0 }
        ensures cursors { (z : ℕ) → cursor_of result z ≡ 0 }
    {
        Edges {
            search: Search::new(ZoneSet { bits: 0 }),
            stepped: ZoneSet { bits: 0 },
            cursors: [0; 64],
            current: None,
        }
    }

    /// Begins with these zones. All noted edges, looks and steps are forgotten.
    pub fn start(&mut self, zones: ZoneSet)
        ensures zones { self.new.zones ≡ zones }
        ensures edges { (a b : ℕ) → Edge self.new.sources a b → ⊥ }
        ensures stepped { self.new.stepped.bits ≡ 0 }
        ensures cursors { (z : ℕ) → cursor_of self.new z ≡ 0 }
    {
        self.search.restart(zones);
        self.stepped = ZoneSet { bits: 0 };
        self.cursors = [0; 64];
        self.current = None;
    }

    /// Looks at the next wrapper of a zone. Where it leads to another one of the zones, to a cell
    /// that is not black, an edge is noted from its zone to its target's; and if it is the key of an
    /// entry of a weak map, one from its target's zone to its own, since the key lives as long as the
    /// target does. False exactly where each wrapper was looked at. No arena is out, so all mark bits are the heap's.
    /// A look reads one
    /// edge, and takes no memory.
    pub fn edge_unit<L: Ledger>(&mut self, heap: &Heap, steps: &mut Steps<L>) -> bool
        requires counted { heap.now.ledger ≡ Some L.name }
        requires kept { (a : ℕ) → out_of heap.now.shape a ≡ None }
        requires sized { length heap.now.colours ≡ length heap.now.shape.arenas }
        requires wrappers { AreWrappers heap.now.shape }
        requires delegated { AreDelegated heap.now.shape }
        requires early { (self.old.stepped.bits ≡ 0) ⊎ AreLeftBlack heap.now self.old }
        ensures looked { Looks heap.now self.old result self.new }
        ensures zones { self.new.zones ≡ self.old.zones }
        ensures stepped { self.new.stepped ≡ self.old.stepped }
        ensures steps { steps.new ≡ steps.old + (if result then 1 else 0) }
    {
        let zones = self.search.zones;
        let Some((zone, wrapper)) = next_wrapper(heap, zones, self.current, &mut self.cursors)
        else {
            return false;
        };
        self.current = Some(zone);
        if let Some(to) = edge_from(heap, zones, zone, wrapper, steps) {
            note_wrapper(&mut self.search, heap, wrapper, zone, to);
        }
        true
    }

    /// Notes an edge between two zones, before the first step: `a` must not finish after `b`.
    pub fn note(&mut self, a: ZoneNo, b: ZoneNo)
        requires from { HasZone self.old.zones.bits a }
        requires to { HasZone self.old.zones.bits b }
        requires early { self.old.stepped.bits ≡ 0 }
        ensures edges { (x y : ℕ) → Edge self.new.sources x y
            ↔ (Edge self.old.sources x y ⊎ ((x ≡ a) × (y ≡ b))) }
        ensures zones { self.new.zones ≡ self.old.zones }
        ensures stepped { self.new.stepped ≡ self.old.stepped }
        ensures cursors { self.new.cursors ≡ self.old.cursors }
    {
        self.search.note(a, b);
    }

    /// One grouping step: finds the groups of all zones from which edges lead to this one.
    pub fn group_step(&mut self, zone: ZoneNo)
        requires inside { HasZone self.old.zones.bits zone }
        requires once { ¬ HasZone self.old.stepped.bits zone }
        ensures stepped { (z : ℕ) → HasZone self.new.stepped.bits z
            ↔ (HasZone self.old.stepped.bits z ⊎ (z ≡ zone)) }
        ensures zones { self.new.zones ≡ self.old.zones }
        ensures edges { self.new.sources ≡ self.old.sources }
        ensures cursors { self.new.cursors ≡ self.old.cursors }
    {
        self.search.visit(zone);
        self.stepped = self.stepped.union(ZoneSet::only(zone));
    }

    /// The strongly connected components of the edges, once each zone had its step, in an order in
    /// which they may finish.
    pub fn components(&self) -> Groups
        requires { (z : ℕ) → HasZone self.now.zones.bits z → HasZone self.now.stepped.bits z }
        ensures { AreComponents self.now.sources self.now.zones result }
    {
        self.search.found()
    }
}

// Notes the edge along which a wrapper leads, and if the wrapper is a key its reverse as well.
fn note_wrapper(search: &mut Search, heap: &Heap, wrapper: Place, from: ZoneNo, to: ZoneNo)
    requires delegated { AreDelegated heap.now.shape }
    requires wrapper { (d : APlace) × IsDelegate heap.now.shape wrapper d }
    requires search { IsSearch search.old }
    requires idle { search.old.depth ≡ 0 }
    requires unseen { (z : ℕ) → HasZone search.old.seen.bits z → ⊥ }
    requires from { HasZone search.old.zones.bits from }
    requires to { HasZone search.old.zones.bits to }
    ensures search { IsSearch search.new }
    ensures idle { search.new.depth ≡ 0 }
    ensures unseen { (z : ℕ) → HasZone search.new.seen.bits z → ⊥ }
    ensures zones { search.new.zones ≡ search.old.zones }
    ensures edges { (a b : ℕ) → Edge search.new.sources a b ↔ (Edge search.old.sources a b
        ⊎ (((a ≡ from) × (b ≡ to)) ⊎ (IsKey heap.now.shape wrapper × (a ≡ to) × (b ≡ from)))) }
{
    search.note(from, to);
    if is_key(heap, wrapper) {
        search.note(to, from);
    }
}
