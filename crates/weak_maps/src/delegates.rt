// The entries whose key is a wrapper, by what the wrapper leads to and by zone.
ghost use Rattle.std.specs.Prelude.{◌≡◌, ◌↔◌, ◌<◌, ◌≤◌, ◌&&◌, None, Some, [], IfNone, IfSome, IsTrue, OnErr, OnOk};
ghost use Rattle.std.specs.Prelude.{◌+◌, IfOk, IsOk, List, map, slice_get};
ghost use Rattle.std.specs.Option.{option_map};
ghost use Rattle.indexmap.specs.IndexMap.{IsUnique, insert_entry, spare};
ghost use Rattle.gz_names.specs.Moves.{GoApart};
ghost use Rattle.weak_maps.specs.Delegates.{place_of_zone, rows_of};
ghost use Rattle.weak_maps.specs.Moving.{AreNamedByRows, row_forwarded};
ghost use Rattle.weak_maps.specs.Tables.{is_key};

use crate::colours::MarkColour;
use crate::entries::EntryKey;
use crate::heads::Heads;
use crate::sides::Side;
use gz_names::{Moves, NoMemory, Place, ZoneNo};
use indexmap::IndexMap;
use std::alloc::{AllocError, Global};
use std::marker::Model;

/// What a key that is a wrapper leads to, and the zone in which the key and its map lie.
#[derive(Clone, Copy, Debug, PartialEq, Eq)]
pub struct Delegate {
    pub target: Place,
    pub zone: ZoneNo,
}

/// A row for each entry whose key is a wrapper. An entry with another key has none.
#[derive(Drop)]
pub(crate) struct Delegates {
    // A row's number is its index here.
    rows: IndexMap<EntryKey, Delegate>,
    by_target: Side,
    // The first slot of the arena with a zone's number stands for the zone.
    by_zone: Side,
}

/// The rows and the numbers of the targets' lists anew, with the cells where they have gone.
#[derive(Drop)]
pub(crate) struct ForwardedRows {
    rows: IndexMap<EntryKey, Delegate>,
    by_target: Heads,
}

impl Model for Delegates {
    ghost use Rattle.weak_maps.specs.Delegates.{DelegatesState, AreRows, rows_of};

    ghost Value = { DelegatesState };

    ghost view = { λ d. record { rows = rows_of d.rows; by_target = d.by_target; by_zone = d.by_zone } };

    ghost invariant = { λ d. AreRows (rows_of d.rows) d.by_target d.by_zone };
}

impl Delegates {
    ghost use Rattle.gz_names.specs.declared.moves.Move.{Move as AMove};
    ghost use Rattle.weak_maps.specs.Moving.{delegates_forwarded};
    ghost use Rattle.weak_maps.specs.ForwardedRows.{AreForwardedRows};
    ghost use Rattle.weak_maps.specs.Entries.{Starts};
    ghost use Rattle.weak_maps.specs.Delegates.{AddsRow, AreSameRows, AreSoundRows, CarriesRows, DelegateRow};
    ghost use Rattle.weak_maps.specs.Delegates.{DelegatesState, HasNewRow, LooksAtRow, NoRowLeft, TakesRow};
    ghost use Rattle.weak_maps.specs.Delegates.{delegate_at, key_of_row};
    ghost use Rattle.weak_maps.specs.Delegates.{row_of, rows_of_target, rows_of_zone, rows_shown};

    /// No rows.
    pub fn new(alloc: Global) -> Self
        ensures empty { rows_shown result ≡ record { rows = []; by_target = []; by_zone = [] } }
        ensures none { result.by_target.left ≡ [] }
        ensures sound { AreSoundRows result }
    {
        Delegates {
            rows: IndexMap::new(alloc),
            by_target: Side::new(alloc),
            by_zone: Side::new(alloc),
        }
    }

    /// Whether no key is a wrapper.
    pub fn is_empty(&self) -> bool
        ensures empty { IsTrue result ↔ (self.now.rows ≡ []) }
        ensures sound { AreSoundRows self.now }
    {
        self.rows.is_empty()
    }

    /// What a key of a map leads to, if it is a wrapper.
    #[inline(always)]
    pub fn target(&self, map: Place, key: Place) -> Option<Place>
        ensures target { result ≡ delegate_at self.now.rows map key }
        ensures sound { AreSoundRows self.now }
    {
        if self.rows.is_empty() {
            return None;
        }
        self.find_target(map, key)
    }

    // What a key of a map leads to, if it has a row.
    #[cold]
    #[inline(never)]
    fn find_target(&self, map: Place, key: Place) -> Option<Place>
        ensures { result ≡ delegate_at self.now.rows map key }
    {
        let delegate = self.rows.get(&EntryKey { map, key })?;
        Some(delegate.target)
    }

    /// The map and the key of a row, by its number; none past the last.
    fn key_at(&self, row: u32) -> Option<EntryKey>
        ensures { result ≡ option_map key_of_row (slice_get self.now.rows row) }
    {
        let (key, _) = self.rows.get_index(row as usize)?;
        Some(*key)
    }

    /// The map and the key of a row of a target, by its index in the target's list; none past the last.
    pub fn key_of_target(&self, target: Place, index: u64) -> Option<EntryKey>
        ensures key { result ≡ option_map key_of_row (slice_get (rows_of_target (rows_shown self.now) target) index) }
        ensures more { IfSome result (λ _. index < 18446744073709551615) }
        ensures sound { AreSoundRows self.now }
    {
        if self.rows.is_empty() {
            return None;
        }
        let row = self.by_target.get(target, index)?;
        self.key_at(row)
    }

    /// The map and the key of a row of a zone, by its index in the zone's list; none past the last.
    pub fn key_in_zone(&self, zone: ZoneNo, index: u64) -> Option<EntryKey>
        ensures key { result ≡ option_map key_of_row (slice_get (rows_of_zone (rows_shown self.now) zone) index) }
        ensures more { IfSome result (λ _. index < 18446744073709551615) }
        ensures sound { AreSoundRows self.now }
    {
        if self.rows.is_empty() {
            return None;
        }
        let row = self.by_zone.get(place_of(zone), index)?;
        self.key_at(row)
    }

    /// Adds the row of a key, which has none. Where no memory is left, or there are 4,294,967,295 rows, the rows are
    /// as they were. It is not to be looked at.
    pub fn add(&mut self, key: EntryKey, delegate: Delegate) -> Result<(), NoMemory>
        requires absent { delegate_at self.old.rows key.map key.key ≡ None }
        ensures added { OnOk result (AddsRow self.old (row_of key delegate) self.new) }
        ensures err { OnErr result (AreSameRows self.old self.new) }
        ensures sound { AreSoundRows self.new }
    {
        if self.rows.len() >= u32::MAX as usize {
            return Err(AllocError);
        }
        self.rows.reserve(1)?;
        self.by_target.add(delegate.target)?;
        match self.by_zone.add(place_of(delegate.zone)) {
            Ok(()) => {
                enter(&mut self.rows, key, delegate)?;
                Ok(())
            }
            Err(refused) => {
                self.by_target.undo_add();
                Err(refused)
            }
        }
    }

    /// The row that was added last goes again.
    pub fn undo_add(&mut self)
        requires { HasNewRow self.old }
        ensures undone { (before : DelegatesState) (row : DelegateRow) → AddsRow before row self.old
            → AreSameRows before self.new }
        ensures sound { AreSoundRows self.new }
    {
        self.rows.pop();
        self.by_target.undo_add();
        self.by_zone.undo_add();
    }

    /// The rows anew, with the cells where they have gone. It takes the memory that `set_rows` needs.
    pub fn forwarded(&self, alloc: Global, moves: &Moves) -> Result<ForwardedRows, NoMemory>
        requires { GoApart (AreNamedByRows self.now.rows) moves.now }
        ensures forwarded { IfOk result (AreForwardedRows self.now moves.now) }
        ensures sound { AreSoundRows self.now }
    {
        let rows = forwarded_rows(alloc, &self.rows, moves)?;
        let by_target = self.by_target.exchanged(moves)?;
        Ok(ForwardedRows { rows, by_target })
    }

    /// The rows name their cells where these have gone after some moves. Each keeps its number and its places in the
    /// lists, and is still to be looked at as it was.
    pub fn set_rows(&mut self, gone: ForwardedRows)
        requires { (moves : List AMove) × AreForwardedRows self.old moves gone
            × GoApart (AreNamedByRows self.old.rows) moves }
        ensures forwarded { (moves : List AMove) → AreForwardedRows self.old moves gone
            → (rows_shown self.new ≡ delegates_forwarded moves (rows_shown self.old))
            × (self.new.by_target.left ≡ self.old.by_target.left) }
        ensures sound { AreSoundRows self.new }
    {
        self.rows = gone.rows;
        self.by_target.set_heads(gone.by_target);
    }

    /// Takes out the row of a key, if it has one. The last row has its number then.
    pub fn take(&mut self, key: EntryKey)
        ensures taken { TakesRow key self.old.rows self.new.rows }
        ensures carries { CarriesRows self.old self.new }
        ensures sound { AreSoundRows self.new }
    {
        if self.rows.is_empty() {
            return;
        }
        if let Some(row) = self.rows.get_index_of(&key) {
            self.rows.swap_remove_index(row);
            self.by_target.take(row as u32);
            self.by_zone.take(row as u32);
        }
    }

    /// The rows of a target are still to be looked at in a colour, or in black where some of them are so already.
    pub fn start(&mut self, colour: MarkColour, target: Place)
        ensures rows { rows_shown self.new ≡ rows_shown self.old }
        ensures target { Starts (λ (row : DelegateRow). row.target) colour target self.old.rows
            self.old.by_target.left self.new.by_target.left }
        ensures sound { AreSoundRows self.new }
    {
        if self.rows.is_empty() {
            return;
        }
        self.by_target.start(colour, target);
    }

    /// Takes the next row that is still to be looked at in a colour; none where nothing is left in that colour.
    pub fn next_left(&mut self, colour: MarkColour) -> Option<EntryKey>
        ensures rows { rows_shown self.new ≡ rows_shown self.old }
        ensures some { IfSome result (λ key.
            LooksAtRow colour key self.old.rows self.old.by_target.left self.new.by_target.left) }
        ensures none { IfNone result
            ((self.new.by_target.left ≡ self.old.by_target.left) × NoRowLeft colour self.old.by_target.left) }
        ensures sound { AreSoundRows self.new }
    {
        let row = self.by_target.next(colour)?;
        self.key_at(row)
    }
}

// The place that stands for a zone.
fn place_of(zone: ZoneNo) -> Place
    ensures { result ≡ place_of_zone zone }
{
    Place::first_of(u32::from(zone.index()))
}

// Gives a key its delegate. All that adds to the rows comes by here.
fn enter(
    rows: &mut IndexMap<EntryKey, Delegate>,
    key: EntryKey,
    delegate: Delegate,
) -> Result<(), NoMemory>
    ensures ok { OnOk result (rows.new.entries ≡ insert_entry is_key rows.old.entries key delegate) }
    ensures err { OnErr result (rows.new.entries ≡ rows.old.entries) }
    ensures succeeds { 0 < spare rows.old → IsOk result }
    ensures room { spare rows.old ≤ spare rows.new + 1 }
    ensures unique { IsUnique is_key rows.new }
{
    rows.insert(key, delegate)?;
    Ok(())
}

// Rows anew, which name their cells where these have gone.
fn forwarded_rows(
    alloc: Global,
    rows: &IndexMap<EntryKey, Delegate>,
    moves: &Moves,
) -> Result<IndexMap<EntryKey, Delegate>, NoMemory>
    requires { GoApart (AreNamedByRows (rows_of rows.now)) moves.now }
    ensures { IfOk result (λ gone. rows_of gone ≡ map (row_forwarded moves.now) (rows_of rows.now)) }
{
    let mut gone = IndexMap::with_capacity(alloc, rows.len())?;
    for (key, delegate) in rows.iter() {
        let moved = EntryKey {
            map: moves.moved_to(key.map),
            key: moves.moved_to(key.key),
        };
        let target = moves.moved_to(delegate.target);
        let zone = delegate.zone;
        enter(&mut gone, moved, Delegate { target, zone })?;
    }
    Ok(gone)
}
