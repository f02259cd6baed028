// Sets of arenas.
ghost use Rattle.std.specs.Prelude.{◌≡◌, ◌≤◌, ◌<◌, ◌+◌, ◌*◌, ◌==◌, ◌↔◌, ◌≢◌, ◌^◌, ◌/◌, [], ℕ, length, slice_index};
ghost use Rattle.std.specs.Prelude.{OnOk, IfSome, IfNone, if◌then◌else◌};
ghost use Rattle.std.specs.Int.{bit_at};
ghost use Rattle.arena_table.specs.Sets.{arena_bit, IsBefore, IsSummed};

use std::alloc::{AllocError, Global};
use std::marker::Model;

/// A set of arenas, which finds its lowest at once: a bit an arena, and over each 64 words of these
/// a word whose bits say which of them are not 0.
#[derive(Drop)]
pub(crate) struct ArenaSet {
    words: Vec<u64>,
    groups: Vec<u64>,
}

impl Model for ArenaSet {
    ghost use Rattle.std.specs.Prelude.{List, ℕ};
    ghost use Rattle.arena_table.specs.Sets.{IsSummed};

    ghost Value = { List ℕ };

    ghost view = { λ s. s.words.items };

    ghost invariant = { λ s. IsSummed s.words.items s.groups.items };
}

impl ArenaSet {
    /// The set without arenas. It takes no memory.
    pub fn new(alloc: Global) -> Self
        ensures { result ≡ [] }
    {
        ArenaSet {
            words: Vec::new(alloc),
            groups: Vec::new(alloc),
        }
    }

    /// Takes memory for the arenas below a number.
    pub fn cover(&mut self, count: usize) -> Result<(), AllocError>
        requires { count ≤ 2 ^ 32 }
        ensures room { OnOk result (count ≤ 64 * length self.new) }
        ensures kept { length self.old ≤ length self.new }
        ensures same { (arena : ℕ) → arena_bit self.new arena ≡ arena_bit self.old arena }
    {
        cover_words(&mut self.words, &mut self.groups, count)
    }

    /// Adds an arena for which there is room.
    pub fn insert(&mut self, arena: usize)
        requires { arena < 64 * length self.old }
        ensures room { length self.new ≡ length self.old }
        ensures bits { (other : ℕ) → arena_bit self.new other
            ≡ (if other == arena then 1 else arena_bit self.old other) }
    {
        insert_into(&mut self.words, &mut self.groups, arena);
    }

    /// Takes an arena out.
    pub fn remove(&mut self, arena: usize)
        requires { arena < 64 * length self.old }
        ensures room { length self.new ≡ length self.old }
        ensures bits { (other : ℕ) → arena_bit self.new other
            ≡ (if other == arena then 0 else arena_bit self.old other) }
    {
        remove_from(&mut self.words, &mut self.groups, arena);
    }

    /// Takes all arenas out.
    pub fn clear(&mut self)
        ensures room { length self.new ≡ length self.old }
        ensures bits { (arena : ℕ) → arena_bit self.new arena ≡ 0 }
    {
        clear_words(&mut self.words, &mut self.groups);
    }

    /// The lowest arena.
    pub fn lowest(&self) -> Option<usize>
        ensures some { IfSome result (λ arena. arena_bit self.now arena ≡ 1) }
        ensures lowest { IfSome result
            (λ arena. (other : ℕ) → other < arena → arena_bit self.now other ≡ 0) }
        ensures none { IfNone result ((other : ℕ) → arena_bit self.now other ≡ 0) }
        ensures few { IfSome result (λ arena. arena < 2 ^ 32) }
    {
        lowest_of(&self.words, &self.groups)
    }

    /// The number of the lowest word from this one on that is not 0.
    pub fn next_word(&self, from: usize) -> Option<usize>
        requires { from ≤ 2 ^ 26 }
        ensures on { IfSome result (λ at. (from ≤ at) × (at < 2 ^ 26)) }
        ensures some { IfSome result (λ at. slice_index self.now at ≢ 0) }
        ensures lowest { (word : ℕ) → from ≤ word → IsBefore result word
            → slice_index self.now word ≡ 0 }
    {
        next_word_of(&self.words, &self.groups, from)
    }

    /// The bits of 64 arenas.
    pub fn word(&self, index: usize) -> u64
        ensures { result ≡ slice_index self.now index }
    {
        match self.words.get(index) {
            Some(word) => *word,
            None => 0,
        }
    }
}

// Appends words that are 0, until there is a bit for each arena below a number.
fn cover_words(words: &mut Vec<u64>, groups: &mut Vec<u64>, count: usize) -> Result<(), AllocError>
    requires count { count ≤ 2 ^ 32 }
    requires summed { IsSummed words.old.items groups.old.items }
    ensures summed { IsSummed words.new.items groups.new.items }
    ensures room { OnOk result (count ≤ 64 * length words.new.items) }
    ensures kept { length words.old.items ≤ length words.new.items }
    ensures same { (arena : ℕ)
        → arena_bit words.new.items arena ≡ arena_bit words.old.items arena }
{
    while words.len() * 64 < count {
        cover_groups(words, groups)?;
        words.push(0)?;
    }
    Ok(())
}

// Appends a word over the words that are 0, where there is none for one word more.
fn cover_groups(words: &[u64], groups: &mut Vec<u64>) -> Result<(), AllocError>
    requires { IsSummed words.now groups.old.items }
    ensures summed { IsSummed words.now groups.new.items }
    ensures room { OnOk result (length words.now < 64 * length groups.new.items) }
{
    if groups.len() * 64 <= words.len() {
        groups.push(0)?;
    }
    Ok(())
}

// Sets the bit of an arena.
fn insert_into(words: &mut [u64], groups: &mut [u64], arena: usize)
    requires room { arena < 64 * length words.old }
    requires summed { IsSummed words.old groups.old }
    ensures summed { IsSummed words.new groups.new }
    ensures bits { (other : ℕ) → arena_bit words.new other
        ≡ (if other == arena then 1 else arena_bit words.old other) }
{
    set_bit(words, arena);
    set_bit(groups, arena / 64);
}

// Clears the bit of an arena.
fn remove_from(words: &mut [u64], groups: &mut [u64], arena: usize)
    requires room { arena < 64 * length words.old }
    requires summed { IsSummed words.old groups.old }
    ensures summed { IsSummed words.new groups.new }
    ensures bits { (other : ℕ) → arena_bit words.new other
        ≡ (if other == arena then 0 else arena_bit words.old other) }
{
    clear_bit(words, arena);
    if words[arena / 64] == 0 {
        clear_bit(groups, arena / 64);
    }
}

// Clears all bits.
fn clear_words(words: &mut [u64], groups: &mut [u64])
    requires { IsSummed words.old groups.old }
    ensures summed { IsSummed words.new groups.new }
    ensures bits { (arena : ℕ) → arena_bit words.new arena ≡ 0 }
{
    clear_all(words);
    clear_all(groups);
}

// Makes all words 0.
fn clear_all(words: &mut [u64])
    ensures { (k : ℕ) → slice_index words.new k ≡ 0 }
{
    for word in words.iter_mut() {
        *word = 0;
    }
}

// The lowest arena whose bit is set.
fn lowest_of(words: &[u64], groups: &[u64]) -> Option<usize>
    requires { IsSummed words.now groups.now }
    ensures some { IfSome result (λ arena. arena_bit words.now arena ≡ 1) }
    ensures lowest { IfSome result
        (λ arena. (other : ℕ) → other < arena → arena_bit words.now other ≡ 0) }
    ensures none { IfNone result ((other : ℕ) → arena_bit words.now other ≡ 0) }
    ensures few { IfSome result (λ arena. arena < 2 ^ 32) }
{
    let at = lowest_bit(groups, 0)?;
    let word = words[at];
    Some(64 * at + word.trailing_zeros() as usize)
}

// The number of the lowest word from this one on that is not 0.
fn next_word_of(words: &[u64], groups: &[u64], from: usize) -> Option<usize>
    requires summed { IsSummed words.now groups.now }
    requires from { from ≤ 2 ^ 26 }
    ensures on { IfSome result (λ at. (from ≤ at) × (at < 2 ^ 26)) }
    ensures some { IfSome result (λ at. slice_index words.now at ≢ 0) }
    ensures lowest { (word : ℕ) → from ≤ word → IsBefore result word
        → slice_index words.now word ≡ 0 }
{
    next_bit(groups, from)
}

// Sets a bit of a list of words.
fn set_bit(words: &mut [u64], index: usize)
    requires { index < 64 * length words.old }
    ensures bits { (other : ℕ) → arena_bit words.new other
        ≡ (if other == index then 1 else arena_bit words.old other) }
    ensures others { (word : ℕ) → word ≢ index / 64
        → slice_index words.new word ≡ slice_index words.old word }
{
    words[index / 64] |= 1 << (index % 64);
}

// Clears a bit of a list of words.
fn clear_bit(words: &mut [u64], index: usize)
    requires { index < 64 * length words.old }
    ensures bits { (other : ℕ) → arena_bit words.new other
        ≡ (if other == index then 0 else arena_bit words.old other) }
    ensures others { (word : ℕ) → word ≢ index / 64
        → slice_index words.new word ≡ slice_index words.old word }
    ensures zero { slice_index words.old (index / 64) ≡ 0 → slice_index words.new (index / 64) ≡ 0 }
{
    words[index / 64] &= !(1 << (index % 64));
}

// The lowest bit of a list of words from an index on.
fn next_bit(words: &[u64], from: usize) -> Option<usize>
    requires few { length words.now < 2 ^ 32 }
    requires from { from < 2 ^ 32 }
    ensures on { IfSome result (λ index. from ≤ index) }
    ensures some { IfSome result (λ index. arena_bit words.now index ≡ 1) }
    ensures lowest { (other : ℕ) → from ≤ other → IsBefore result other
        → arena_bit words.now other ≡ 0 }
{
    match bit_in_word(words, from) {
        Some(index) => Some(index),
        None => lowest_bit(words, from / 64 + 1),
    }
}

// The lowest bit from an index on in the word of that index.
fn bit_in_word(words: &[u64], from: usize) -> Option<usize>
    requires { from < 2 ^ 32 }
    ensures on { IfSome result (λ index. from ≤ index) }
    ensures some { IfSome result (λ index. arena_bit words.now index ≡ 1) }
    ensures lowest { (other : ℕ) → from ≤ other → other / 64 ≡ from / 64 → IsBefore result other
        → arena_bit words.now other ≡ 0 }
    ensures here { IfSome result (λ index. index / 64 ≡ from / 64) }
{
    let word = words.get(from / 64)?;
    let rest = *word >> (from % 64);
    if rest == 0 {
        return None;
    }
    Some(from + rest.trailing_zeros() as usize)
}

// The lowest bit of a list of words from a word on.
fn lowest_bit(words: &[u64], first: usize) -> Option<usize>
    requires { length words.now < 2 ^ 32 }
    ensures on { IfSome result (λ index. 64 * first ≤ index) }
    ensures some { IfSome result (λ index. arena_bit words.now index ≡ 1) }
    ensures lowest { (other : ℕ) → 64 * first ≤ other → IsBefore result other
        → arena_bit words.now other ≡ 0 }
{
    for at in first..words.len() {
        let word = words[at];
        if word != 0 {
            return Some(64 * at + word.trailing_zeros() as usize);
        }
    }
    None
}
