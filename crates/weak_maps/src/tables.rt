// The entries of all weak maps, with the delegates of their keys.
ghost use Rattle.std.specs.Prelude.{◌≡◌, ◌<◌, ◌≤◌, ◌+◌, ◌==◌, ◌&&◌, ℕ, true, false, Some, None, [], Contains, length};
ghost use Rattle.std.specs.Prelude.{slice_get, is_none, is_some};
ghost use Rattle.std.specs.Prelude.{IfNone, IfOk, IfSome, IsTrue, ◌↔◌, ◌≢◌, ◌++◌, ◌∷◌, OnOk, OnErr, if◌then◌else◌};
ghost use Rattle.std.specs.Prelude.{swap_remove};
ghost use Rattle.std.specs.Int.{bit_at};
ghost use Rattle.std.specs.Option.{option_map};

use crate::colours::MarkColour;
use crate::delegates::{Delegate, Delegates};
use crate::entries::{Entries, EntryKey, WeakEntry};
use gz_names::{Moves, NoMemory, Place, ZoneNo};
use std::alloc::Global;
use std::marker::Model;

/// The entries of all weak maps, and which of them marking has still to look at. There are at most
/// 4,294,967,295 entries (our choice; js/src/gc/WeakMap.h has a hash table in each map).
#[derive(Drop)]
pub struct WeakMaps {
    entries: Entries,
    delegates: Delegates,
}

impl Model for WeakMaps {
    ghost use Rattle.weak_maps.specs.WeakMaps.{WeakMapsState, IsKept, state_with};

    ghost Value = { WeakMapsState };

    ghost view = { λ w. state_with w.entries w.delegates };

    ghost invariant = { λ w. IsKept w.entries w.delegates };
}

impl WeakMaps {
    ghost use Rattle.gz_names.specs.Moves.{GoApart};
    ghost use Rattle.weak_maps.specs.Moving.{IsNamed, maps_forwarded};
    ghost use Rattle.weak_maps.specs.Places.{is_same};
    ghost use Rattle.weak_maps.specs.Entries.{Starts, put_at};
    ghost use Rattle.weak_maps.specs.Delegates.{DelegateRow};
    ghost use Rattle.weak_maps.specs.WeakMaps.{WeakMapsState, AreParallel, Carries, HasLooked, IsSound};
    ghost use Rattle.weak_maps.specs.WeakMaps.{IsLeftFewer, IsWithoutOwned, KeepsRows, is_owned_by, is_slot_of};
    ghost use Rattle.weak_maps.specs.WeakMaps.{NoneLeft};
    ghost use Rattle.weak_maps.specs.WeakMaps.{PutsLeft};
    ghost use Rattle.weak_maps.specs.declared.colours.MarkColour.{MarkColour};
    ghost use Rattle.weak_maps.specs.WeakMaps.{delegate_of, listed_of_delegate, listed_of_key};
    ghost use Rattle.weak_maps.specs.WeakMaps.{listed_of_map, maps_delegated_in, rows_with, target_of, value_of};
    ghost use Rattle.weak_maps.specs.declared.entries.WeakEntry.{WeakEntry};

    /// No entries.
    pub fn new(alloc: Global) -> Self
        ensures empty { result.table ≡ record {
          entries = [];
          by_map = [];
          by_key = [];
          delegates = record { rows = []; by_target = []; by_zone = [] };
        } }
        ensures none { result.looks ≡ record { by_map = []; by_key = []; by_delegate = [] } }
        ensures sound { IsSound result.table }
    {
        WeakMaps {
            entries: Entries::new(alloc),
            delegates: Delegates::new(alloc),
        }
    }

    /// How many entries there are.
    pub fn count(&self) -> u64
        ensures count { result ≡ length self.now.table.entries }
        ensures parallel { AreParallel self.now }
        ensures few { result ≤ 4294967295 }
        ensures sound { IsSound self.now.table }
    {
        self.entries.count()
    }

    /// Whether the key of some entry is a wrapper.
    #[inline(always)]
    pub fn has_delegates(&self) -> bool
        ensures { IsTrue result ↔ (self.now.table.delegates.rows ≢ []) }
    {
        !self.delegates.is_empty()
    }

    /// The value of a key in a map.
    pub fn find(&self, map: Place, key: Place) -> Option<Place>
        ensures value { result ≡ value_of self.now.table map key }
        ensures sound { IsSound self.now.table }
    {
        self.entries.find(map, key)
    }

    /// What the key of an entry leads to, if it is a wrapper; none if there is no such entry.
    #[inline(always)]
    pub fn delegate_of(&self, map: Place, key: Place) -> Option<Place>
        ensures delegate { result ≡ delegate_of self.now.table map key }
        ensures sound { IsSound self.now.table }
    {
        self.delegates.target(map, key)
    }

    /// An entry, by its number; none past the last.
    pub fn entry(&self, index: u64) -> Option<WeakEntry>
        ensures entry { result ≡ slice_get self.now.table.entries index }
        ensures more { IfSome result (λ _. index < 18446744073709551615) }
        ensures parallel { AreParallel self.now }
        ensures sound { IsSound self.now.table }
    {
        self.entries.entry(index)
    }

    /// An entry of a map, by its index in the map's list; none past the last.
    pub fn entries_of_map(&self, map: Place, index: u64) -> Option<WeakEntry>
        ensures entry { result ≡ slice_get (listed_of_map self.now.table map) index }
        ensures more { IfSome result (λ _. index < 18446744073709551615) }
        ensures sound { IsSound self.now.table }
    {
        self.entries.entries_of_map(map, index)
    }

    /// An entry of a key, by its index in the key's list; none past the last.
    pub fn entries_of_key(&self, key: Place, index: u64) -> Option<WeakEntry>
        ensures entry { result ≡ slice_get (listed_of_key self.now.table key) index }
        ensures more { IfSome result (λ _. index < 18446744073709551615) }
        ensures sound { IsSound self.now.table }
    {
        self.entries.entries_of_key(key, index)
    }

    /// An entry whose key is a wrapper of this cell, by its index in the cell's list; none past the last.
    pub fn entries_of_delegate(&self, target: Place, index: u64) -> Option<WeakEntry>
        ensures entry { result ≡ slice_get (listed_of_delegate self.now.table target) index }
        ensures more { IfSome result (λ _. index < 18446744073709551615) }
        ensures sound { IsSound self.now.table }
    {
        let key = self.delegates.key_of_target(target, index)?;
        self.entry_of(key)
    }

    // The entry of a key.
    fn entry_of(&self, at: EntryKey) -> Option<WeakEntry>
        ensures { result ≡ option_map (λ v. record { map = at.map; key = at.key; value = v })
            (value_of self.now.table at.map at.key) }
    {
        let value = self.find(at.map, at.key)?;
        Some(WeakEntry {
            map: at.map,
            key: at.key,
            value,
        })
    }

    /// The map of an entry of a zone whose key is a wrapper, by the entry's index among these; none past the last.
    pub fn map_delegated_in(&self, zone: ZoneNo, index: u64) -> Option<Place>
        ensures map { result ≡ slice_get (maps_delegated_in self.now.table zone) index }
        ensures more { IfSome result (λ _. index < 18446744073709551615) }
        ensures sound { IsSound self.now.table }
    {
        let key = self.delegates.key_in_zone(zone, index)?;
        Some(key.map)
    }

    /// Gives a value to a key of a map, and returns the one it had. A key that is a wrapper comes with its delegate,
    /// which stays as long as the entry does. Only a new entry takes memory, and where none is left, or there are
    /// 4,294,967,295 entries, nothing has changed. A new entry is not to be looked at.
    pub fn put(
        &mut self,
        entry: WeakEntry,
        delegate: Option<Delegate>,
    ) -> Result<Option<Place>, NoMemory>
        ensures old { IfOk result (λ old. old ≡ value_of self.old.table entry.map entry.key) }
        ensures entries { OnOk result
            (self.new.table.entries ≡ put_at self.old.table.entries entry.map entry.key entry.value) }
        ensures found { OnOk result ((m k : Place) → value_of self.new.table m k
            ≡ (if is_same entry.map m && is_same entry.key k then Some entry.value
            else value_of self.old.table m k)) }
        ensures rows { OnOk result (self.new.table.delegates.rows
            ≡ (if is_some (value_of self.old.table entry.map entry.key) then self.old.table.delegates.rows
            else rows_with self.old.table.delegates.rows (record { map = entry.map; key = entry.key }) delegate)) }
        ensures delegates { OnOk result ((m k : Place) → delegate_of self.new.table m k
            ≡ (if is_none (value_of self.old.table entry.map entry.key) && (is_same entry.map m && is_same entry.key k)
            then target_of delegate else delegate_of self.old.table m k)) }
        ensures count { OnOk result (length self.new.table.entries
            ≡ length self.old.table.entries
            + (if is_some (value_of self.old.table entry.map entry.key) then 0 else 1)) }
        ensures left { OnOk result (PutsLeft (value_of self.old.table entry.map entry.key) delegate self.old.looks
            self.new.looks) }
        ensures parallel { AreParallel self.new }
        ensures sound { IsSound self.new.table }
        ensures err { OnErr result (self.new ≡ self.old) }
        ensures wanted { OnErr result (value_of self.old.table entry.map entry.key ≡ None) }
    {
        if let Some(old) = self.entries.replace(&entry) {
            return Ok(Some(old));
        }
        self.add(&entry, delegate)?;
        Ok(None)
    }

    // Adds an entry, which is not there.
    fn add(&mut self, entry: &WeakEntry, delegate: Option<Delegate>) -> Result<(), NoMemory>
        requires absent { value_of self.old.table entry.now.map entry.now.key ≡ None }
        ensures entries { OnOk result (self.new.table.entries ≡ self.old.table.entries ++ entry.now ∷ []) }
        ensures found { OnOk result ((m k : Place) → value_of self.new.table m k
            ≡ (if is_same entry.now.map m && is_same entry.now.key k then Some entry.now.value
            else value_of self.old.table m k)) }
        ensures rows { OnOk result (self.new.table.delegates.rows
            ≡ rows_with self.old.table.delegates.rows (record { map = entry.now.map; key = entry.now.key }) delegate) }
        ensures left { OnOk result (PutsLeft None delegate self.old.looks self.new.looks) }
        ensures parallel { AreParallel self.new }
        ensures sound { IsSound self.new.table }
        ensures err { OnErr result (self.new ≡ self.old) }
    {
        match delegate {
            None => self.entries.add(entry),
            Some(delegate) => self.add_delegated(entry, delegate),
        }
    }

    // Adds an entry, which is not there, and whose key is a wrapper.
    #[cold]
    #[inline(never)]
    fn add_delegated(&mut self, entry: &WeakEntry, delegate: Delegate) -> Result<(), NoMemory>
        requires absent { value_of self.old.table entry.now.map entry.now.key ≡ None }
        ensures entries { OnOk result (self.new.table.entries ≡ self.old.table.entries ++ entry.now ∷ []) }
        ensures found { OnOk result ((m k : Place) → value_of self.new.table m k
            ≡ (if is_same entry.now.map m && is_same entry.now.key k then Some entry.now.value
            else value_of self.old.table m k)) }
        ensures rows { OnOk result (self.new.table.delegates.rows
            ≡ rows_with self.old.table.delegates.rows (record { map = entry.now.map; key = entry.now.key })
            (Some delegate)) }
        ensures left { OnOk result (PutsLeft None (Some delegate) self.old.looks self.new.looks) }
        ensures parallel { AreParallel self.new }
        ensures sound { IsSound self.new.table }
        ensures err { OnErr result (self.new ≡ self.old) }
    {
        let key = EntryKey {
            map: entry.map,
            key: entry.key,
        };
        self.delegates.add(key, delegate)?;
        match self.entries.add(entry) {
            Ok(()) => Ok(()),
            Err(refused) => {
                self.delegates.undo_add();
                Err(refused)
            }
        }
    }

    /// Takes an entry out, and returns the value that was there. The last entry has its number then.
    /// The others are still to be looked at as they were.
    pub fn del(&mut self, map: Place, key: Place) -> Option<Place>
        ensures old { result ≡ value_of self.old.table map key }
        ensures found { (m k : Place) → value_of self.new.table m k
            ≡ (if is_same map m && is_same key k then None else value_of self.old.table m k) }
        ensures rows { KeepsRows self.old.table self.new.table }
        ensures count { length self.new.table.entries + (if is_some result then 1 else 0)
            ≡ length self.old.table.entries }
        ensures carries { Carries self.old self.new }
        ensures parallel { AreParallel self.new }
        ensures sound { IsSound self.new.table }
    {
        self.delegates.take(EntryKey { map, key });
        self.entries.del(map, key)
    }

    /// The entries name their cells where these have gone, delegates among them. Each keeps its number and its places
    /// in the lists, and is still to be looked at as it was. All memory is taken before anything changes.
    pub fn forward(&mut self, alloc: Global, moves: &Moves) -> Result<(), NoMemory>
        requires { GoApart (IsNamed self.old.table) moves.now }
        ensures ok { OnOk result (self.new ≡ maps_forwarded moves.now self.old) }
        ensures err { OnErr result (self.new ≡ self.old) }
        ensures parallel { AreParallel self.new }
        ensures sound { IsSound self.new.table }
    {
        let rows = self.delegates.forwarded(alloc, moves)?;
        self.entries.forward(alloc, moves)?;
        self.delegates.set_rows(rows);
        Ok(())
    }

    /// Takes out the entries whose map or key lies in an arena at one of these slots. The others may change their
    /// numbers, and are still to be looked at as they were. It looks at no other entry.
    pub fn drop_entries_in(&mut self, arena: u32, slots: u64)
        ensures dropped { IsWithoutOwned (is_slot_of arena slots) self.old.table self.new.table }
        ensures fewer { length self.new.table.entries ≤ length self.old.table.entries }
        ensures rows { KeepsRows self.old.table self.new.table }
        ensures carries { Carries self.old self.new }
        ensures parallel { AreParallel self.new }
        ensures sound { IsSound self.new.table }
    {
        if !self.may_own(arena) {
            return;
        }
        // From the last slot on: entries are mostly put in the order of their cells, and if the last of the table goes,
        // no other takes its number.
        for slot in (0..64u8).rev() {
            if let Some(place) = place_among(arena, slots, slot) {
                self.drop_entries_of(place);
            }
        }
    }

    // Whether maps or keys of entries may lie in an arena.
    #[inline(always)]
    fn may_own(&self, arena: u32) -> bool
        ensures none { result ≡ false → (entry : WeakEntry) → Contains self.now.table.entries entry
            → (entry.map.0 ≢ arena) × (entry.key.0 ≢ arena) }
        ensures parallel { AreParallel self.now }
        ensures sound { IsSound self.now.table }
    {
        self.entries.may_own(arena)
    }

    // Takes out the entries of which a place is the map or the key.
    fn drop_entries_of(&mut self, place: Place)
        ensures dropped { IsWithoutOwned (is_same place) self.old.table self.new.table }
        ensures fewer { length self.new.table.entries ≤ length self.old.table.entries }
        ensures rows { KeepsRows self.old.table self.new.table }
        ensures carries { Carries self.old self.new }
        ensures parallel { AreParallel self.new }
        ensures sound { IsSound self.new.table }
    {
        while let Some(index) = self.last_of(place) {
            self.take_at(index);
        }
    }

    // The number of an entry of which a place is the map or the key; none if there is no such entry.
    #[inline(always)]
    fn last_of(&self, place: Place) -> Option<u64>
        ensures some { IfSome result (λ index. (entry : WeakEntry)
            × (slice_get self.now.table.entries index ≡ Some entry) × (is_owned_by (is_same place) entry ≡ true)) }
        ensures none { IfNone result ((entry : WeakEntry) → Contains self.now.table.entries entry
            → is_owned_by (is_same place) entry ≡ false) }
        ensures parallel { AreParallel self.now }
        ensures sound { IsSound self.now.table }
    {
        let index = self.entries.last_of(place)?;
        Some(u64::from(index))
    }

    // Takes out the entry with this number; the last has its number then.
    fn take_at(&mut self, index: u64)
        ensures taken { IfSome (slice_get self.old.table.entries index) (λ entry.
            self.new.table.entries ≡ swap_remove self.old.table.entries index entry) }
        ensures rows { KeepsRows self.old.table self.new.table }
        ensures carries { Carries self.old self.new }
        ensures parallel { AreParallel self.new }
        ensures sound { IsSound self.new.table }
    {
        if let Some(entry) = self.entry(index) {
            let key = EntryKey {
                map: entry.map,
                key: entry.key,
            };
            self.delegates.take(key);
            self.entries.take_at(index);
        }
    }

    /// Marking has followed a cell in a colour: the entries of which it is the map or the key, or whose key is a
    /// wrapper of it, are still to be looked at for it, in that colour, or in black where some of them are so already.
    /// It takes no memory.
    #[inline(always)]
    pub fn start(&mut self, colour: MarkColour, place: Place)
        ensures table { self.new.table ≡ self.old.table }
        ensures map { Starts (λ (entry : WeakEntry). entry.map) colour place self.old.table.entries
            self.old.looks.by_map self.new.looks.by_map }
        ensures key { Starts (λ (entry : WeakEntry). entry.key) colour place self.old.table.entries
            self.old.looks.by_key self.new.looks.by_key }
        ensures delegate { Starts (λ (row : DelegateRow). row.target) colour place self.old.table.delegates.rows
            self.old.looks.by_delegate self.new.looks.by_delegate }
        ensures parallel { AreParallel self.new }
        ensures sound { IsSound self.new.table }
    {
        if self.count() == 0 {
            return;
        }
        self.entries.start_map(colour, place);
        self.entries.start_key(colour, place);
        self.delegates.start(colour, place);
    }

    /// The entries of a map are still to be looked at for it in a colour, or in black where some of them are so
    /// already. It takes no memory.
    pub fn start_map(&mut self, colour: MarkColour, map: Place)
        ensures table { self.new.table ≡ self.old.table }
        ensures looks { self.new.looks ≡ record self.old.looks { by_map = self.new.looks.by_map } }
        ensures map { Starts (λ (entry : WeakEntry). entry.map) colour map self.old.table.entries
            self.old.looks.by_map self.new.looks.by_map }
        ensures parallel { AreParallel self.new }
        ensures sound { IsSound self.new.table }
    {
        self.entries.start_map(colour, map);
    }

    /// Takes the next entry that is still to be looked at in a colour, first of those that are so for their maps, then
    /// for their keys, then for what their keys lead to; none where nothing is left in that colour. It takes no memory.
    /// Lists that deletions have emptied are passed over, each once.
    pub fn next_left(&mut self, colour: MarkColour) -> Option<WeakEntry>
        ensures table { self.new.table ≡ self.old.table }
        ensures some { IfSome result (λ entry.
            HasLooked colour entry self.old.table self.old.looks self.new.looks) }
        ensures none { IfNone result ((self.new.looks ≡ self.old.looks) × NoneLeft colour self.old.looks) }
        ensures parallel { AreParallel self.new }
        ensures sound { IsSound self.new.table }
    {
        if let Some(entry) = self.entries.next_left(colour) {
            return Some(entry);
        }
        let key = self.delegates.next_left(colour)?;
        self.entry_of(key)
    }

    /// No entry is to be looked at any more, in either colour. It takes one step for each that was.
    pub fn forget(&mut self)
        ensures table { self.new.table ≡ self.old.table }
        ensures none { (colour : MarkColour) → NoneLeft colour self.new.looks }
        ensures parallel { AreParallel self.new }
        ensures sound { IsSound self.new.table }
    {
        self.forget_in(MarkColour::Black);
        self.forget_in(MarkColour::Gray);
    }

    // No entry is to be looked at any more in a colour.
    fn forget_in(&mut self, colour: MarkColour)
        ensures table { self.new.table ≡ self.old.table }
        ensures none { NoneLeft colour self.new.looks }
        ensures fewer { IsLeftFewer self.old.looks self.new.looks }
        ensures parallel { AreParallel self.new }
        ensures sound { IsSound self.new.table }
    {
        while self.next_left(colour).is_some() {}
    }
}

// The place of a slot, if it is one of these.
fn place_among(arena: u32, slots: u64, slot: u8) -> Option<Place>
    requires { slot < 64 }
    ensures { result ≡ (if bit_at slots slot == 1 then Some (arena, slot) else None) }
{
    if (slots >> slot) & 1 == 1 {
        Place::new(arena, slot)
    } else {
        None
    }
}
