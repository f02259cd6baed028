// The entries, with the lists of each map and of each key.
ghost use Rattle.std.specs.Prelude.{◌≡◌, ◌≢◌, ◌<◌, ◌≤◌, ◌+◌, ◌++◌, ◌∷◌, ◌&&◌, ◌||◌, Bool, true, false, Some, None, []};
ghost use Rattle.std.specs.Prelude.{Contains, length, map, slice_get};
ghost use Rattle.std.specs.Prelude.{swap_remove, is_some, IfSome, IfNone, IfOk, IsOk, OnOk, OnErr, if◌then◌else◌};
ghost use Rattle.std.specs.Cmp.Rules.{hashing};
ghost use Rattle.std.specs.Hash as fed;
ghost use Rattle.std.proofs.Common.{rules};
ghost use Rattle.indexmap.specs.IndexMap.{IsUnique, insert_entry, spare};
ghost use Rattle.gz_names.specs.Moves.{GoApart};
ghost use Rattle.weak_maps.specs.Places.{place_index};
ghost use Rattle.weak_maps.specs.Moving.{AreNamed, entry_forwarded};
ghost use Rattle.weak_maps.specs.Tables.{entries_of, is_key};

use crate::colours::MarkColour;
use crate::sides::Side;
use gz_names::{Moves, NoMemory, Place};
use indexmap::IndexMap;
use std::alloc::{AllocError, Global};
use std::hash::{Hash, Hasher};
use std::marker::Model;
use std::mem;

/// An entry of a weak map: a key of it, and the key's value.
#[derive(Clone, Copy, Debug, PartialEq, Eq)]
pub struct WeakEntry {
    /// The weak map.
    pub map: Place,
    pub key: Place,
    pub value: Place,
}

/// What an entry is found by.
#[derive(Clone, Copy, Debug, PartialEq, Eq)]
pub struct EntryKey {
    /// The weak map.
    pub map: Place,
    /// A key of it.
    pub key: Place,
}

// Each place is hashed as one number, since every look-up of an entry takes a hash.
impl Hash for EntryKey {
    ghost hash_input = { λ k. fed.u64 (place_index k.map) ++ fed.u64 (place_index k.key) };

    ghost respects_eq = { Prim.search (hashing, rules) };

    fn hash<H: Hasher>(&self, state: &mut H) {
        state.write_u64(index_of(self.map));
        state.write_u64(index_of(self.key));
    }
}

// The arena and the slot of a place as one number.
#[inline(always)]
fn index_of(place: Place) -> u64
    ensures { result ≡ place_index place }
{
    u64::from(place.arena()) * 64 + u64::from(place.slot())
}

/// The entries of all weak maps, at most 4,294,967,295.
#[derive(Drop)]
pub(crate) struct Entries {
    // An entry's number is its index here.
    table: IndexMap<EntryKey, Place>,
    by_map: Side,
    by_key: Side,
}

impl Model for Entries {
    ghost use Rattle.weak_maps.specs.Entries.{EntriesState, AreTied, state_of};
    ghost use Rattle.weak_maps.specs.Tables.{entries_of};

    ghost Value = { EntriesState };

    ghost view = { λ w. state_of (entries_of w.table) w.by_map w.by_key };

    ghost invariant = { λ w. AreTied (entries_of w.table) w.by_map w.by_key };
}

impl Entries {
    ghost use Rattle.weak_maps.specs.Moving.{entries_forwarded};
    ghost use Rattle.weak_maps.specs.Places.{is_same};
    ghost use Rattle.weak_maps.specs.Entries.{EntriesState, HaveLooks, AreEntries, CarriesEntries, PutsEntry};
    ghost use Rattle.weak_maps.specs.Entries.{LooksAtEntry, NoEntryLeft, Starts, listed_of, put_at, value_at};
    ghost use Rattle.weak_maps.specs.declared.entries.WeakEntry.{WeakEntry};

    /// No entries.
    pub fn new(alloc: Global) -> Self
        ensures empty { result.table ≡ record { entries = []; by_map = []; by_key = [] } }
        ensures none { result.looks ≡ record { by_map = []; by_key = [] } }
        ensures sound { AreEntries result.table }
    {
        Entries {
            table: IndexMap::new(alloc),
            by_map: Side::new(alloc),
            by_key: Side::new(alloc),
        }
    }

    /// How many entries there are.
    pub fn count(&self) -> u64
        ensures count { result ≡ length self.now.table.entries }
        ensures parallel { HaveLooks self.now }
        ensures few { result ≤ 4294967295 }
        ensures sound { AreEntries self.now.table }
    {
        self.table.len() as u64
    }

    /// The value of a key in a map.
    pub fn find(&self, map: Place, key: Place) -> Option<Place>
        ensures value { result ≡ value_at self.now.table.entries map key }
        ensures sound { AreEntries self.now.table }
    {
        self.table.get(&EntryKey { map, key }).copied()
    }

    /// An entry, by its number; none past the last.
    pub fn entry(&self, index: u64) -> Option<WeakEntry>
        ensures entry { result ≡ slice_get self.now.table.entries index }
        ensures more { IfSome result (λ _. index < 18446744073709551615) }
        ensures parallel { HaveLooks self.now }
        ensures sound { AreEntries self.now.table }
    {
        if index >= self.count() {
            return None;
        }
        let (key, value) = self.table.get_index(index as usize)?;
        Some(WeakEntry {
            map: key.map,
            key: key.key,
            value: *value,
        })
    }

    /// An entry of a map, by its index in the map's list; none past the last.
    pub fn entries_of_map(&self, map: Place, index: u64) -> Option<WeakEntry>
        ensures entry { result
            ≡ slice_get (listed_of (λ e. e.map) self.now.table.entries map self.now.table.by_map) index }
        ensures more { IfSome result (λ _. index < 18446744073709551615) }
        ensures sound { AreEntries self.now.table }
    {
        let entry = self.by_map.get(map, index)?;
        self.entry(u64::from(entry))
    }

    /// An entry of a key, by its index in the key's list; none past the last.
    pub fn entries_of_key(&self, key: Place, index: u64) -> Option<WeakEntry>
        ensures entry { result
            ≡ slice_get (listed_of (λ e. e.key) self.now.table.entries key self.now.table.by_key) index }
        ensures more { IfSome result (λ _. index < 18446744073709551615) }
        ensures sound { AreEntries self.now.table }
    {
        let entry = self.by_key.get(key, index)?;
        self.entry(u64::from(entry))
    }

    /// Whether maps or keys may lie in an arena. If not, it takes a few steps.
    #[inline(always)]
    pub fn may_own(&self, arena: u32) -> bool
        ensures none { result ≡ false → (entry : WeakEntry) → Contains self.now.table.entries entry
            → (entry.map.0 ≢ arena) × (entry.key.0 ≢ arena) }
        ensures sound { AreEntries self.now.table }
    {
        self.by_map.may_list(arena) || self.by_key.may_list(arena)
    }

    /// The number of an entry of which a place is the map or the key; none if there is no such entry.
    pub fn last_of(&self, place: Place) -> Option<u32>
        ensures some { IfSome result (λ index. (entry : WeakEntry)
            × (slice_get self.now.table.entries index ≡ Some entry)
            × ((is_same place entry.map || is_same place entry.key) ≡ true)) }
        ensures none { IfNone result ((entry : WeakEntry) → Contains self.now.table.entries entry
            → (is_same place entry.map || is_same place entry.key) ≡ false) }
        ensures sound { AreEntries self.now.table }
    {
        match self.by_map.last(place) {
            Some(entry) => Some(entry),
            None => self.by_key.last(place),
        }
    }

    /// Gives a value to a key that has one in the map, and returns the old one; none if there is no such entry.
    pub fn replace(&mut self, entry: &WeakEntry) -> Option<Place>
        ensures old { result ≡ value_at self.old.table.entries entry.now.map entry.now.key }
        ensures none { IfNone result (self.new ≡ self.old) }
        ensures entries { IfSome result (λ _.
            self.new.table.entries ≡ put_at self.old.table.entries entry.now.map entry.now.key entry.now.value) }
        ensures found { IfSome result (λ _. (m k : Place) → value_at self.new.table.entries m k
            ≡ (if is_same entry.now.map m && is_same entry.now.key k then Some entry.now.value
            else value_at self.old.table.entries m k)) }
        ensures count { length self.new.table.entries ≡ length self.old.table.entries }
        ensures looks { self.new.looks ≡ self.old.looks }
        ensures parallel { HaveLooks self.new }
        ensures sound { AreEntries self.new.table }
    {
        let old = self.table.get_mut(&EntryKey {
            map: entry.map,
            key: entry.key,
        })?;
        Some(mem::replace(old, entry.value))
    }

    /// Adds an entry, which is not there. Where no memory is left, or there are 4,294,967,295 entries, nothing has
    /// changed. It is not to be looked at.
    pub fn add(&mut self, entry: &WeakEntry) -> Result<(), NoMemory>
        requires absent { value_at self.old.table.entries entry.now.map entry.now.key ≡ None }
        ensures entries { OnOk result (self.new.table.entries ≡ self.old.table.entries ++ entry.now ∷ []) }
        ensures found { OnOk result ((m k : Place) → value_at self.new.table.entries m k
            ≡ (if is_same entry.now.map m && is_same entry.now.key k then Some entry.now.value
            else value_at self.old.table.entries m k)) }
        ensures left { OnOk result (PutsEntry self.old.looks self.new.looks) }
        ensures parallel { HaveLooks self.new }
        ensures sound { AreEntries self.new.table }
        ensures err { OnErr result (self.new ≡ self.old) }
    {
        if self.table.len() >= u32::MAX as usize {
            return Err(AllocError);
        }
        self.table.reserve(1)?;
        self.by_map.add(entry.map)?;
        match self.by_key.add(entry.key) {
            Ok(()) => {
                let key = EntryKey {
                    map: entry.map,
                    key: entry.key,
                };
                enter(&mut self.table, key, entry.value)?;
                Ok(())
            }
            Err(refused) => {
                self.by_map.undo_add();
                Err(refused)
            }
        }
    }

    /// The entries name their cells where these have gone. Each keeps its number and its places in the lists, and is
    /// still to be looked at as it was. All memory is taken before anything changes: the table is made anew.
    pub fn forward(&mut self, alloc: Global, moves: &Moves) -> Result<(), NoMemory>
        requires { GoApart (AreNamed self.old.table.entries) moves.now }
        ensures ok { OnOk result (self.new ≡ entries_forwarded moves.now self.old) }
        ensures err { OnErr result (self.new ≡ self.old) }
        ensures parallel { HaveLooks self.new }
        ensures sound { AreEntries self.new.table }
    {
        let table = forwarded_table(alloc, &self.table, moves)?;
        let by_map = self.by_map.exchanged(moves)?;
        let by_key = self.by_key.exchanged(moves)?;
        self.table = table;
        self.by_map.set_heads(by_map);
        self.by_key.set_heads(by_key);
        Ok(())
    }

    /// Takes an entry out, and returns the value that was there. The last entry has its number then. The others are
    /// still to be looked at as they were.
    pub fn del(&mut self, map: Place, key: Place) -> Option<Place>
        ensures old { result ≡ value_at self.old.table.entries map key }
        ensures found { (m k : Place) → value_at self.new.table.entries m k
            ≡ (if is_same map m && is_same key k then None else value_at self.old.table.entries m k) }
        ensures count { length self.new.table.entries + (if is_some result then 1 else 0)
            ≡ length self.old.table.entries }
        ensures carries { CarriesEntries self.old self.new }
        ensures parallel { HaveLooks self.new }
        ensures sound { AreEntries self.new.table }
    {
        let (entry, _, value) = self.table.get_full(&EntryKey { map, key })?;
        let value = *value;
        self.take_at(entry as u64);
        Some(value)
    }

    /// Takes an entry out; the last has its number then.
    pub fn take_at(&mut self, index: u64)
        ensures taken { IfSome (slice_get self.old.table.entries index) (λ entry.
            self.new.table.entries ≡ swap_remove self.old.table.entries index entry) }
        ensures found { IfSome (slice_get self.old.table.entries index) (λ entry. (m k : Place)
            → value_at self.new.table.entries m k ≡ (if is_same entry.map m && is_same entry.key k then None
            else value_at self.old.table.entries m k)) }
        ensures carries { CarriesEntries self.old self.new }
        ensures parallel { HaveLooks self.new }
        ensures sound { AreEntries self.new.table }
    {
        if index < self.count() {
            self.table.swap_remove_index(index as usize);
            self.by_map.take(index as u32);
            self.by_key.take(index as u32);
        }
    }

    /// The entries of which this is the map are still to be looked at for it in a colour, or in black where some of
    /// them are so already.
    pub fn start_map(&mut self, colour: MarkColour, map: Place)
        ensures table { self.new.table ≡ self.old.table }
        ensures map { Starts (λ (e : WeakEntry). e.map) colour map self.old.table.entries self.old.looks.by_map
            self.new.looks.by_map }
        ensures keys { self.new.looks.by_key ≡ self.old.looks.by_key }
        ensures parallel { HaveLooks self.new }
        ensures sound { AreEntries self.new.table }
    {
        self.by_map.start(colour, map);
    }

    /// The entries of which this is the key are still to be looked at for it in a colour, or in black where some of
    /// them are so already.
    pub fn start_key(&mut self, colour: MarkColour, key: Place)
        ensures table { self.new.table ≡ self.old.table }
        ensures key { Starts (λ (e : WeakEntry). e.key) colour key self.old.table.entries self.old.looks.by_key
            self.new.looks.by_key }
        ensures maps { self.new.looks.by_map ≡ self.old.looks.by_map }
        ensures parallel { HaveLooks self.new }
        ensures sound { AreEntries self.new.table }
    {
        self.by_key.start(colour, key);
    }

    /// Takes the next entry that is still to be looked at in a colour, first of those that are so for their maps, then
    /// for their keys; none where nothing is left in that colour.
    pub fn next_left(&mut self, colour: MarkColour) -> Option<WeakEntry>
        ensures table { self.new.table ≡ self.old.table }
        ensures some { IfSome result (λ entry.
            LooksAtEntry colour entry self.old.table.entries self.old.looks self.new.looks) }
        ensures none { IfNone result ((self.new.looks ≡ self.old.looks) × NoEntryLeft colour self.old.looks) }
        ensures parallel { HaveLooks self.new }
        ensures sound { AreEntries self.new.table }
    {
        match self.by_map.next(colour) {
            Some(entry) => self.entry(u64::from(entry)),
            None => {
                let entry = self.by_key.next(colour)?;
                self.entry(u64::from(entry))
            }
        }
    }
}

// Gives a value to a key of a table. All that adds to the table comes by here, so that its `insert` stays in line.
fn enter(table: &mut IndexMap<EntryKey, Place>, key: EntryKey, value: Place) -> Result<(), NoMemory>
    ensures ok { OnOk result (table.new.entries ≡ insert_entry is_key table.old.entries key value) }
    ensures err { OnErr result (table.new.entries ≡ table.old.entries) }
    ensures succeeds { 0 < spare table.old → IsOk result }
    ensures room { spare table.old ≤ spare table.new + 1 }
    ensures unique { IsUnique is_key table.new }
{
    table.insert(key, value)?;
    Ok(())
}

// A table anew, whose entries name their cells where these have gone.
fn forwarded_table(
    alloc: Global,
    table: &IndexMap<EntryKey, Place>,
    moves: &Moves,
) -> Result<IndexMap<EntryKey, Place>, NoMemory>
    requires { GoApart (AreNamed (entries_of table.now)) moves.now }
    ensures { IfOk result (λ gone. entries_of gone ≡ map (entry_forwarded moves.now) (entries_of table.now)) }
{
    let mut gone = IndexMap::with_capacity(alloc, table.len())?;
    for (key, value) in table.iter() {
        let moved = EntryKey {
            map: moves.moved_to(key.map),
            key: moves.moved_to(key.key),
        };
        enter(&mut gone, moved, moves.moved_to(*value))?;
    }
    Ok(gone)
}
