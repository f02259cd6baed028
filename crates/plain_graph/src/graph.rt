// The graph that never frees.
ghost use Rattle.std.specs.Prelude.{◌≡◌, ◌+◌, ◌++◌, ◌∷◌, [], ◌<◌, Bool, IsSome, List, OnOk, OnErr, Some, length};
ghost use Rattle.std.specs.Prelude.{Contains, position, slice_get, slice_set, vec_capacity, vec_len, ◌≤◌};
ghost use Rattle.std.specs.Option.{option_copied, option_flatten};
ghost use Rattle.colour_defs.specs.Step.{is_entry_of, put_entry, del_entry, target_of, with_field_in};

use crate::waiting::{Pair, Pairs, add_pair, pairs_at};
use colour_defs::{Entry, Object};
use gz_names::{CompNo, GrayNo, Name, NoMemory, Reg, ZONE_LIMIT, ZoneNo};
use std::alloc::Global;
use std::collections::{BTreeMap, BTreeSet};
use std::marker::Model;

/// A graph from which no cell is ever removed. Objects and maps stand by number; one that is absent
/// is None, which a graph made by commands never has.
#[derive(Drop)]
pub struct Graph {
    alloc: Global,
    zones: u8,
    comps: Vec<ZoneNo>,
    objects: Vec<Option<Object>>,
    wrappers: Vec<(CompNo, u64)>,
    /// The wrappers again, by the number of the compartment and by the target.
    known: BTreeSet<(u8, u64)>,
    entries: Vec<Entry>,
    /// The value of each entry, by its map and its key.
    values: BTreeMap<Pair, Name>,
    /// The map and the key of each entry, and of some that were removed, by the number of either.
    waiting: BTreeMap<u64, Pairs>,
    registers: [Option<Name>; 16],
    slots: [Option<Name>; 64],
}

impl Model for Graph {
    ghost use Rattle.colour_defs.specs.Graph.{GraphState};

    ghost Value = { GraphState };

    ghost view = { λ g. record {
      zones = g.zones;
      comps = g.comps.items;
      objects = g.objects.items;
      wrappers = g.wrappers.items;
      entries = g.entries.items;
      registers = g.registers;
      slots = g.slots;
    } };

    ghost use Rattle.plain_graph.specs.Indexed.{IsIndexed};

    ghost invariant = { λ g. IsIndexed g.wrappers.items g.known g.entries.items g.values g.waiting };
}

impl Graph {
    ghost use Rattle.colour_defs.specs.Graph.{empty_graph, object_of, register_cell, slot_cell, has_wrapper, value_of};
    ghost use Rattle.colour_defs.specs.Graph.{comp_of, zone_of};
    ghost use Rattle.colour_defs.specs.Step.{with_register, with_slot};
    ghost use Rattle.gz_names.specs.declared.names.Name.{Name as AName};
    ghost use Rattle.plain_graph.specs.Reach.{Waits};

    /// A graph with nothing in it. It takes no memory.
    pub fn new(alloc: Global) -> Self
        ensures { result ≡ empty_graph }
    {
        Graph {
            alloc,
            zones: 0,
            comps: Vec::new(alloc),
            objects: Vec::new(alloc),
            wrappers: Vec::new(alloc),
            known: BTreeSet::new(alloc),
            entries: Vec::new(alloc),
            values: BTreeMap::new(alloc),
            waiting: BTreeMap::new(alloc),
            registers: [None; 16],
            slots: [None; 64],
        }
    }

    /// How many zones were made.
    pub fn zones(&self) -> u8
        ensures { result ≡ self.now.zones }
    {
        self.zones
    }

    /// How many compartments were made.
    pub fn comps(&self) -> usize
        ensures { result ≡ length self.now.comps }
    {
        self.comps.len()
    }

    /// What a register holds.
    pub fn register(&self, register: Reg) -> Option<Name>
        ensures { result ≡ register_cell self.now register }
    {
        self.registers[register.index() as usize]
    }

    /// What a gray slot holds.
    pub fn slot(&self, slot: GrayNo) -> Option<Name>
        ensures { result ≡ slot_cell self.now slot }
    {
        self.slots[slot.index() as usize]
    }

    /// The object or map with a number, if it is there.
    pub fn object(&self, number: u64) -> Option<&Object>
        ensures { option_copied result ≡ object_of self.now number }
    {
        match self.objects.get(number as usize) {
            Some(Some(object)) => Some(object),
            _ => None,
        }
    }

    /// The compartment of a cell, if the cell is there.
    pub fn comp_of(&self, name: Name) -> Option<CompNo>
        ensures { result ≡ comp_of self.now name }
    {
        match name {
            Name::Wrap(comp, _) => Some(comp),
            Name::Cell(number) => match self.objects.get(number as usize) {
                Some(Some(object)) => Some(object.comp),
                _ => None,
            },
        }
    }

    /// The zone of a cell, if the cell is there.
    pub fn zone_of(&self, name: Name) -> Option<ZoneNo>
        ensures { result ≡ zone_of self.now name }
    {
        let comp = self.comp_of(name)?;
        self.comps.get(comp.0 as usize).copied()
    }

    /// Whether the wrapper of a target in a compartment was ever made.
    pub fn has_wrapper(&self, comp: CompNo, target: u64) -> bool
        ensures { result ≡ has_wrapper self.now comp target }
    {
        self.known.contains(&(comp.0, target))
    }

    /// The value of a map's key, where there is an entry.
    pub fn value_of(&self, map: Name, key: Name) -> Option<Name>
        ensures { result ≡ value_of self.now map key }
    {
        self.values.get(&(map, key)).copied()
    }

    /// The maps and keys of all entries for which a name may matter: it is the map, the key, or the target of a
    /// wrapper that is the key.
    pub fn waiting_for(&self, name: Name) -> &[Pair]
        ensures { (m k v : AName) → value_of self.now m k ≡ Some v → Waits name m k
            → Contains result.now (m, k) }
    {
        pairs_at(&self.waiting, target_of(name))
    }

    /// The entries of the weak maps.
    pub fn entries(&self) -> &[Entry]
        ensures { result.now ≡ self.now.entries }
    {
        self.entries.as_slice()
    }

    /// How many objects and maps were made.
    pub(crate) fn made(&self) -> usize
        ensures { result ≡ length self.now.objects }
    {
        self.objects.len()
    }

    /// Makes the next zone.
    pub(crate) fn add_zone(&mut self)
        requires { self.old.zones < ZONE_LIMIT }
        ensures { self.new ≡ record self.old { zones = self.old.zones + 1 } }
    {
        self.zones += 1;
    }

    /// Makes the next compartment, in a zone.
    pub(crate) fn add_comp(&mut self, zone: ZoneNo) -> Result<(), NoMemory>
        ensures ok { OnOk result
            (self.new ≡ record self.old { comps = self.old.comps ++ zone ∷ [] }) }
        ensures err { OnErr result (self.new ≡ self.old) }
    {
        self.comps.push(zone)?;
        Ok(())
    }

    /// Makes the object or map with the next number.
    pub(crate) fn add_object(&mut self, object: Object) -> Result<(), NoMemory>
        ensures ok { OnOk result
            (self.new ≡ record self.old { objects = self.old.objects ++ Some object ∷ [] }) }
        ensures err { OnErr result (self.new ≡ self.old) }
    {
        self.objects.push(Some(object))?;
        Ok(())
    }

    /// Makes the wrapper of a target in a compartment.
    pub(crate) fn add_wrapper(&mut self, comp: CompNo, target: u64) -> Result<(), NoMemory>
        ensures ok { let more = self.old.wrappers ++ (comp, target) ∷ [] in
            OnOk result (self.new ≡ record self.old { wrappers = more }) }
        ensures err { OnErr result (self.new ≡ self.old) }
    {
        self.wrappers.reserve(1)?;
        self.known.insert((comp.0, target))?;
        self.wrappers.push((comp, target))?;
        Ok(())
    }

    /// A field of an object takes a cell, or becomes null, if there is such a field.
    pub(crate) fn set_field(&mut self, number: u64, field: u8, value: Option<Name>)
        ensures { let written = with_field_in (object_of self.old number) field value in
            self.new ≡ record self.old { objects = slice_set self.old.objects number written } }
    {
        set_field_at(
            self.objects.as_mut_slice(),
            number as usize,
            field as usize,
            value,
        );
    }

    /// The entry of a map's key gets a value, or is added.
    pub(crate) fn put_entry(&mut self, map: Name, key: Name, value: Name) -> Result<(), NoMemory>
        ensures ok { let entries = put_entry self.old.entries map key value in
            OnOk result (self.new ≡ record self.old { entries = entries }) }
        ensures err { OnErr result (self.new ≡ self.old) }
    {
        add_pair(self.alloc, &mut self.waiting, target_of(map), (map, key))?;
        add_pair(self.alloc, &mut self.waiting, target_of(key), (map, key))?;
        self.entries.reserve(1)?;
        self.values.insert((map, key), value)?;
        put_in(&mut self.entries, map, key, value)?;
        Ok(())
    }

    /// Removes the entry of a map's key.
    pub(crate) fn del_entry(&mut self, map: Name, key: Name)
        ensures { self.new ≡ record self.old { entries = del_entry self.old.entries map key } }
    {
        self.values.remove(&(map, key));
        del_in(&mut self.entries, map, key);
    }

    /// A register takes a cell, or becomes empty.
    pub(crate) fn set_register(&mut self, register: Reg, cell: Option<Name>)
        ensures { self.new ≡ with_register self.old register cell }
    {
        self.registers[register.index() as usize] = cell;
    }

    /// A gray slot takes a cell, or becomes empty.
    pub(crate) fn set_slot(&mut self, slot: GrayNo, cell: Option<Name>)
        ensures { self.new ≡ with_slot self.old slot cell }
    {
        self.slots[slot.index() as usize] = cell;
    }
}

/// Whether an entry is that of a map's key.
fn is_entry_of(entry: Entry, map: Name, key: Name) -> bool
    ensures { result ≡ is_entry_of map key entry }
{
    entry.map == map && entry.key == key
}

/// The place of a map's key's entry.
fn find_entry(entries: &[Entry], map: Name, key: Name) -> Option<usize>
    ensures { result ≡ position (λ e. is_entry_of map key e) entries.now }
{
    entries
        .iter()
        .position(|entry| is_entry_of(*entry, map, key))
}

/// The entry of a map's key gets a value, or is added.
fn put_in(entries: &mut Vec<Entry>, map: Name, key: Name, value: Name) -> Result<(), NoMemory>
    ensures ok { OnOk result (entries.new.items ≡ put_entry entries.old.items map key value) }
    ensures full { OnErr result (vec_capacity entries.old ≤ vec_len entries.old) }
{
    match find_entry(entries.as_slice(), map, key) {
        Some(index) => entries[index].value = value,
        None => entries.push(Entry { map, key, value })?,
    }
    Ok(())
}

/// Removes the entry of a map's key.
fn del_in(entries: &mut Vec<Entry>, map: Name, key: Name)
    ensures { entries.new.items ≡ del_entry entries.old.items map key }
{
    entries.retain(|entry| !is_entry_of(*entry, map, key));
}

/// Writes a field of the object at a place, if it is there and has the field.
fn set_field_at(objects: &mut [Option<Object>], place: usize, field: usize, value: Option<Name>)
    ensures { let object = option_flatten (slice_get objects.old place) in
        let written = with_field_in object field value in
        objects.new ≡ slice_set objects.old place written }
{
    if place < objects.len() {
        set_field_in(&mut objects[place], field, value);
    }
}

/// Writes a field of an object, if the object is there and has the field.
fn set_field_in(object: &mut Option<Object>, field: usize, value: Option<Name>)
    ensures { object.new ≡ with_field_in object.old field value }
{
    if let Some(object) = object
        && field < object.fields.len()
    {
        object.fields.set(field, value);
    }
}

/// The number of the object or map that a name stands for.
pub(crate) fn target_of(name: Name) -> u64
    ensures { result ≡ target_of name }
{
    match name {
        Name::Cell(number) => number,
        Name::Wrap(_, target) => target,
    }
}
