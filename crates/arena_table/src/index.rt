// Which arenas a zone has, and which of them take cells.
ghost use Rattle.std.specs.Prelude.{◌≡◌, ◌≤◌, ◌<◌, ◌+◌, ◌*◌, ◌==◌, ◌&&◌, ◌↔◌, ◌≢◌, ◌⊎◌, ◌^◌, [], ℕ, length, replicate};
ghost use Rattle.std.specs.Prelude.{slice_index, OnOk, IfOk, IfSome, IfNone, if◌then◌else◌};
ghost use Rattle.std.specs.Int.{bit_at};
ghost use Rattle.gz_names.specs.Zones.{HasZone};
ghost use Rattle.arena_table.specs.Sets.{arena_bit, IsBefore};
ghost use Rattle.arena_table.specs.Indexed.{HasBit, words_at};

use crate::arena_sets::ArenaSet;
use gz_names::{ZoneNo, ZoneSet};
use std::alloc::{AllocError, Global};
use std::marker::Model;

/// For each zone the set of its arenas, and the set of those that take cells.
#[derive(Drop)]
pub(crate) struct Index {
    owned: Vec<ArenaSet>,
    open: Vec<ArenaSet>,
}

impl Model for Index {
    ghost use Rattle.std.specs.Prelude.{◌≡◌, length};
    ghost use Rattle.arena_table.specs.Indexed.{IndexState};

    ghost Value = { IndexState };

    ghost view = { λ i. record { owned = i.owned.items; open_ = i.open.items } };

    ghost invariant = { λ i. (length i.owned.items ≡ 64) × (length i.open.items ≡ 64) };
}

impl Index {
    ghost use Rattle.arena_table.specs.Indexed.{IndexState};

    /// Empty sets for 64 zones.
    pub fn new(alloc: Global) -> Result<Self, AllocError>
        ensures { IfOk result
            (λ index. index ≡ record { owned = replicate 64 []; open_ = replicate 64 [] }) }
    {
        let owned = new_sets(alloc)?;
        let open = new_sets(alloc)?;
        Ok(Index { owned, open })
    }

    /// The lowest arena that takes cells of a zone.
    pub fn lowest_open(&self, zone: ZoneNo) -> Option<usize>
        ensures some { IfSome result (λ a. arena_bit (words_at self.now.open_ zone) a ≡ 1) }
        ensures lowest { IfSome result (λ a. (b : ℕ) → b < a
            → arena_bit (words_at self.now.open_ zone) b ≡ 0) }
        ensures none { IfNone result ((b : ℕ) → arena_bit (words_at self.now.open_ zone) b ≡ 0) }
        ensures below { zone < 64 }
    {
        self.open[zone.index() as usize].lowest()
    }

    /// Takes memory for a zone's arenas below a number.
    pub fn cover(&mut self, zone: ZoneNo, count: usize) -> Result<(), AllocError>
        requires { count ≤ 2 ^ 32 }
        ensures owned_room { OnOk result (count ≤ 64 * length (words_at self.new.owned zone)) }
        ensures open_room { OnOk result (count ≤ 64 * length (words_at self.new.open_ zone)) }
        ensures kept { (z : ℕ) → length (words_at self.old.owned z)
            ≤ length (words_at self.new.owned z) }
        ensures open_kept { (z : ℕ) → length (words_at self.old.open_ z)
            ≤ length (words_at self.new.open_ z) }
        ensures owned { (z a : ℕ) → arena_bit (words_at self.new.owned z) a
            ≡ arena_bit (words_at self.old.owned z) a }
        ensures open_ { (z a : ℕ) → arena_bit (words_at self.new.open_ z) a
            ≡ arena_bit (words_at self.old.open_ z) a }
    {
        cover_set(&mut self.owned, zone, count)?;
        cover_set(&mut self.open, zone, count)
    }

    /// A zone has an arena more.
    pub fn add(&mut self, zone: ZoneNo, arena: usize)
        requires { arena < 64 * length (words_at self.old.owned zone) }
        ensures bits { (a : ℕ) → arena_bit (words_at self.new.owned zone) a
            ≡ (if a == arena then 1 else arena_bit (words_at self.old.owned zone) a) }
        ensures others { (z : ℕ) → z ≢ zone
            → words_at self.new.owned z ≡ words_at self.old.owned z }
        ensures open_ { self.new.open_ ≡ self.old.open_ }
        ensures below { zone < 64 }
    {
        self.owned[zone.index() as usize].insert(arena);
    }

    /// A zone has an arena less, which takes no cells either.
    pub fn remove(&mut self, zone: ZoneNo, arena: usize)
        requires owned { arena < 64 * length (words_at self.old.owned zone) }
        requires open_ { arena < 64 * length (words_at self.old.open_ zone) }
        ensures below { zone < 64 }
        ensures bits { (a : ℕ) → arena_bit (words_at self.new.owned zone) a
            ≡ (if a == arena then 0 else arena_bit (words_at self.old.owned zone) a) }
        ensures open_bits { (a : ℕ) → arena_bit (words_at self.new.open_ zone) a
            ≡ (if a == arena then 0 else arena_bit (words_at self.old.open_ zone) a) }
        ensures room { length (words_at self.new.open_ zone)
            ≡ length (words_at self.old.open_ zone) }
        ensures others { (z : ℕ) → z ≢ zone
            → (words_at self.new.owned z ≡ words_at self.old.owned z)
            × (words_at self.new.open_ z ≡ words_at self.old.open_ z) }
    {
        self.owned[zone.index() as usize].remove(arena);
        self.open[zone.index() as usize].remove(arena);
    }

    /// An arena takes cells of its zone.
    pub fn open(&mut self, zone: ZoneNo, arena: usize)
        requires { arena < 64 * length (words_at self.old.open_ zone) }
        ensures bits { (a : ℕ) → arena_bit (words_at self.new.open_ zone) a
            ≡ (if a == arena then 1 else arena_bit (words_at self.old.open_ zone) a) }
        ensures room { length (words_at self.new.open_ zone)
            ≡ length (words_at self.old.open_ zone) }
        ensures others { (z : ℕ) → z ≢ zone
            → words_at self.new.open_ z ≡ words_at self.old.open_ z }
        ensures owned { self.new.owned ≡ self.old.owned }
    {
        self.open[zone.index() as usize].insert(arena);
    }

    /// An arena takes no cells.
    pub fn close(&mut self, zone: ZoneNo, arena: usize)
        requires { arena < 64 * length (words_at self.old.open_ zone) }
        ensures bits { (a : ℕ) → arena_bit (words_at self.new.open_ zone) a
            ≡ (if a == arena then 0 else arena_bit (words_at self.old.open_ zone) a) }
        ensures room { length (words_at self.new.open_ zone)
            ≡ length (words_at self.old.open_ zone) }
        ensures others { (z : ℕ) → z ≢ zone
            → words_at self.new.open_ z ≡ words_at self.old.open_ z }
        ensures owned { self.new.owned ≡ self.old.owned }
    {
        self.open[zone.index() as usize].remove(arena);
    }

    /// No arena of these zones takes cells.
    pub fn close_all(&mut self, zones: ZoneSet)
        ensures bits { (z a : ℕ) → HasZone zones.bits z
            → arena_bit (words_at self.new.open_ z) a ≡ 0 }
        ensures room { (z : ℕ) → length (words_at self.new.open_ z)
            ≡ length (words_at self.old.open_ z) }
        ensures others { (z : ℕ) → ¬ HasZone zones.bits z
            → words_at self.new.open_ z ≡ words_at self.old.open_ z }
        ensures owned { self.new.owned ≡ self.old.owned }
        ensures fits { zones.bits < 2 ^ 64 }
    {
        clear_sets(&mut self.open, zones.bits);
    }

    /// The bits of 64 arenas: those of the arenas of a set of zones.
    pub fn word(&self, zones: ZoneSet, at: usize) -> u64
        ensures bits { (k : ℕ) → k < 64 → (bit_at result k ≡ 1)
            ↔ ((z : ℕ) × HasZone zones.bits z × HasBit (words_at self.now.owned z) at k) }
        ensures fits { zones.bits < 2 ^ 64 }
    {
        united(&self.owned, zones.bits, at)
    }

    /// The number of the lowest word from this one on that is not 0 for the arenas of a set of zones.
    pub fn next_word(&self, zones: ZoneSet, from: usize) -> Option<usize>
        requires { from ≤ 2 ^ 26 }
        ensures on { IfSome result (λ at. (from ≤ at) × (at < 2 ^ 26)) }
        ensures some { IfSome result (λ at. (z : ℕ) × HasZone zones.bits z
            × (slice_index (words_at self.now.owned z) at ≢ 0)) }
        ensures lowest { (z word : ℕ) → HasZone zones.bits z → from ≤ word → IsBefore result word
            → slice_index (words_at self.now.owned z) word ≡ 0 }
        ensures fits { zones.bits < 2 ^ 64 }
    {
        next_of_all(&self.owned, zones.bits, from)
    }
}

// Takes memory for a zone's arenas below a number, in one of its sets.
fn cover_set(sets: &mut [ArenaSet], zone: ZoneNo, count: usize) -> Result<(), AllocError>
    requires zones { length sets.old ≡ 64 }
    requires count { count ≤ 2 ^ 32 }
    ensures room { OnOk result (count ≤ 64 * length (words_at sets.new zone)) }
    ensures kept { (z : ℕ) → length (words_at sets.old z) ≤ length (words_at sets.new z) }
    ensures same { (z a : ℕ) → arena_bit (words_at sets.new z) a
        ≡ arena_bit (words_at sets.old z) a }
{
    sets[zone.index() as usize].cover(count)
}

// Empties the sets of the zones of a word.
fn clear_sets(sets: &mut [ArenaSet], zones: u64)
    requires { length sets.old ≡ 64 }
    ensures sets { length sets.new ≡ 64 }
    ensures bits { (z a : ℕ) → HasZone zones z → arena_bit (words_at sets.new z) a ≡ 0 }
    ensures room { (z : ℕ) → length (words_at sets.new z) ≡ length (words_at sets.old z) }
    ensures others { (z : ℕ) → ¬ HasZone zones z → words_at sets.new z ≡ words_at sets.old z }
{
    let mut left = zones;
    while left != 0 {
        sets[left.trailing_zeros() as usize].clear();
        left &= left - 1;
    }
}

// The bits of 64 arenas in any of the sets of a word's zones.
fn united(sets: &[ArenaSet], zones: u64, at: usize) -> u64
    requires { length sets.now ≡ 64 }
    ensures { (k : ℕ) → k < 64 → (bit_at result k ≡ 1)
        ↔ ((z : ℕ) × HasZone zones z × HasBit (words_at sets.now z) at k) }
{
    let mut left = zones;
    let mut word = 0;
    while left != 0 {
        word |= sets[left.trailing_zeros() as usize].word(at);
        left &= left - 1;
    }
    word
}

// The number of the lowest word from this one on that is not 0 in one of the sets of a word's zones.
fn next_of_all(sets: &[ArenaSet], zones: u64, from: usize) -> Option<usize>
    requires sets { length sets.now ≡ 64 }
    requires from { from ≤ 2 ^ 26 }
    ensures on { IfSome result (λ at. (from ≤ at) × (at < 2 ^ 26)) }
    ensures some { IfSome result (λ at. (z : ℕ) × HasZone zones z
        × (slice_index (words_at sets.now z) at ≢ 0)) }
    ensures lowest { (z word : ℕ) → HasZone zones z → from ≤ word → IsBefore result word
        → slice_index (words_at sets.now z) word ≡ 0 }
{
    let mut left = zones;
    let mut lowest = None;
    while left != 0 {
        let next = sets[left.trailing_zeros() as usize].next_word(from);
        lowest = lower(lowest, next);
        left &= left - 1;
    }
    lowest
}

// The lower of two numbers, of which each may be missing.
fn lower(a: Option<usize>, b: Option<usize>) -> Option<usize>
    ensures one { (result ≡ a) ⊎ (result ≡ b) }
    ensures lowest { (n : ℕ) → IsBefore result n → IsBefore a n × IsBefore b n }
{
    match (a, b) {
        (Some(x), Some(y)) => Some(x.min(y)),
        (Some(x), None) => Some(x),
        (None, _) => b,
    }
}

// Empty sets, one a zone.
fn new_sets(alloc: Global) -> Result<Vec<ArenaSet>, AllocError>
    ensures { IfOk result (λ sets. sets.items ≡ replicate 64 []) }
{
    let mut sets = Vec::new(alloc);
    for _i in 0..64u8 {
        sets.push(ArenaSet::new(alloc))?;
    }
    Ok(sets)
}
