// The incoming gray wrappers, by the compartment of their targets.
ghost use Rattle.std.specs.Prelude.{◌≡◌, ◌≢◌, ◌≤◌, ◌<◌, ◌↔◌, ◌⊎◌, ◌+◌, ◌∷◌, ℕ, [], length, replicate, Contains, IfSome};
ghost use Rattle.std.specs.Prelude.{IfNone, OnOk, OnErr};
ghost use Rattle.gray_lists.specs.CompSets.{HasComp, IsEnd};

use crate::comp_sets::CompSet;
use crate::nodes::{Node, put_node, take_node};
use gz_names::{CompNo, NoMemory, Place};
use std::alloc::{AllocError, Global};
use std::marker::Model;

/// For each compartment the gray wrappers that lead into it and wait for its group.
#[derive(Drop)]
pub struct Lists {
    nodes: Vec<Node>,
    // Where the first wrapper of each compartment stands.
    heads: [Option<u32>; 256],
    // Where the first free node stands.
    free: Option<u32>,
    // The compartments whose lists are not empty.
    waiting: CompSet,
    // How many wrappers the lists can hold together.
    room: usize,
}

impl Model for Lists {
    ghost use Rattle.std.specs.Prelude.{vec_capacity};
    ghost use Rattle.gray_lists.specs.Incoming.{Incoming};
    ghost use Rattle.gray_lists.specs.Nodes.{lists_of, IsSound};
    ghost use Rattle.gray_lists.specs.CompSets.{AreHeaded, IsEnd};

    ghost Value = { Incoming };

    ghost view = { λ l. record {
      lists = lists_of l.nodes.items l.heads;
      room = l.room;
    } };

    ghost invariant = { λ l. IsSound l.nodes.items (vec_capacity l.nodes) l.heads l.free l.room
        × AreHeaded l.heads l.waiting.words × IsEnd l.waiting.words l.waiting.end };
}

impl Lists {
    ghost use Rattle.gray_lists.specs.Incoming.{Incoming, AreApart, list_of, noted, waiting_count};

    /// Empty lists with no room. It takes no memory.
    pub fn new(alloc: Global) -> Self
        ensures { result ≡ record { lists = replicate 256 []; room = 0 } }
    {
        Lists {
            nodes: Vec::new(alloc),
            heads: [None; 256],
            free: None,
            waiting: CompSet::new(),
            room: 0,
        }
    }

    /// Makes room for this number of wrappers more, before they are made. Room for more than 4,294,967,295
    /// is refused as want of memory; there are never more cells than that (our choice).
    pub fn reserve(&mut self, wrappers: u64) -> Result<(), NoMemory>
        ensures ok { OnOk result
            (self.new ≡ record self.old { room = self.old.room + wrappers }) }
        ensures err { OnErr result (self.new ≡ self.old) }
    {
        if wrappers > u32::MAX as u64 - self.room as u64 {
            return Err(AllocError);
        }
        let room = self.room + wrappers as usize;
        self.nodes.reserve(room - self.nodes.len())?;
        self.room = room;
        Ok(())
    }

    /// Notes that a gray wrapper waits for the compartment of its target. It is on no list yet, and
    /// there is room for it. It takes no memory.
    pub fn note(&mut self, comp: CompNo, wrapper: Place)
        requires room { waiting_count self.old < self.old.room }
        requires apart { (c : ℕ) → Contains (list_of self.old c) wrapper → ⊥ }
        ensures noted { self.new ≡ noted self.old comp.0 wrapper }
        ensures count { waiting_count self.new ≡ waiting_count self.old + 1 }
        ensures apart { AreApart self.new.lists }
    {
        let next = self.heads[comp.0 as usize];
        let at = put_node(&mut self.nodes, &mut self.free, Node { wrapper, next });
        self.heads[comp.0 as usize] = Some(at);
        begin_waiting(&mut self.waiting, comp, next);
    }

    /// Takes the wrapper that was noted last off the list of a compartment; `None` where the list is
    /// empty.
    pub fn next_incoming(&mut self, comp: CompNo) -> Option<Place>
        ensures some { IfSome result (λ wrapper. self.old ≡ noted self.new comp.0 wrapper) }
        ensures once { IfSome result
            (λ wrapper. (c : ℕ) → Contains (list_of self.new c) wrapper → ⊥) }
        ensures count { IfSome result
            (λ _. waiting_count self.old ≡ waiting_count self.new + 1) }
        ensures none { IfNone result ((list_of self.old comp.0 ≡ []) × (self.new ≡ self.old)) }
        ensures apart { AreApart self.new.lists }
    {
        let at = self.heads[comp.0 as usize]?;
        let node = take_node(&mut self.nodes, &mut self.free, at);
        self.heads[comp.0 as usize] = node.next;
        leave_empty(&mut self.waiting, comp, node.next);
        Some(node.wrapper)
    }

    /// Takes all wrappers off the lists, whose room stays. It takes no memory.
    pub fn clear(&mut self)
        ensures { self.new ≡ record self.old { lists = replicate 256 [] } }
    {
        self.nodes.clear();
        self.heads = [None; 256];
        self.free = None;
        self.waiting = CompSet::new();
    }

    /// The lowest compartment from a number on for which a wrapper waits. It looks at no list.
    pub fn next_waiting(&self, from: u16) -> Option<CompNo>
        ensures some { IfSome result (λ c. (from ≤ c.0) × (list_of self.now c.0 ≢ [])) }
        ensures between { IfSome result
            (λ c. (n : ℕ) → from ≤ n → n < c.0 → list_of self.now n ≡ []) }
        ensures none { IfNone result ((n : ℕ) → from ≤ n → list_of self.now n ≡ []) }
    {
        self.waiting.first_from(from)
    }
}

// A compartment goes into the set, if its list had no first node.
fn begin_waiting(waiting: &mut CompSet, comp: CompNo, first: Option<u32>)
    requires { IsEnd waiting.old.words waiting.old.end }
    ensures some { IfSome first (λ _. waiting.new.words ≡ waiting.old.words) }
    ensures none { IfNone first ((c : ℕ) → HasComp waiting.new.words c
        ↔ (HasComp waiting.old.words c ⊎ (c ≡ comp.0))) }
    ensures end { IsEnd waiting.new.words waiting.new.end }
{
    if first.is_none() {
        waiting.insert(comp);
    }
}

// A compartment goes out of the set, if its list has no first node any more.
fn leave_empty(waiting: &mut CompSet, comp: CompNo, first: Option<u32>)
    requires { IsEnd waiting.old.words waiting.old.end }
    ensures some { IfSome first (λ _. waiting.new.words ≡ waiting.old.words) }
    ensures none { IfNone first ((c : ℕ) → HasComp waiting.new.words c
        ↔ (HasComp waiting.old.words c × (c ≢ comp.0))) }
    ensures end { IsEnd waiting.new.words waiting.new.end }
{
    if first.is_none() {
        waiting.remove(comp);
    }
}
