// The entries of one place, and which of them are still to be looked at.
ghost use Rattle.std.specs.Prelude.{◌≡◌, ◌<◌, ◌≤◌, ◌-◌, ◌++◌, ◌∷◌, [], None, Some, IfSome, IfNone, OnOk, OnErr, length};
ghost use Rattle.std.specs.Prelude.{slice_get, slice_set, swap_remove};

use crate::colours::MarkColour;
use crate::numbers::Numbers;
use gz_names::NoMemory;
use std::alloc::{AllocError, Global};
use std::marker::Model;

/// The entries of a place, by number. Those in front are still to be looked at, the last of them
/// first.
#[derive(Drop)]
pub(crate) struct Listing {
    entries: Numbers,
    left: u32,
    colour: MarkColour,
}

impl Model for Listing {
    ghost use Rattle.std.specs.Prelude.{◌≤◌, length};
    ghost use Rattle.weak_maps.specs.Listings.{ListingState};

    ghost Value = { ListingState };

    ghost view = { λ l. record { entries = l.entries; left = l.left; colour = l.colour } };

    ghost invariant = { λ l. (l.left ≤ length l.entries)
        × (length l.entries ≤ 4294967295) };
}

impl Listing {
    ghost use Rattle.weak_maps.specs.Listings.{ListingState, IsLeft, started};

    /// No entries.
    pub fn new() -> Self
        ensures { result ≡ record { entries = []; left = 0; colour = MarkColour.Black } }
    {
        Listing {
            entries: Numbers::new(),
            left: 0,
            colour: MarkColour::Black,
        }
    }

    /// How many entries there are.
    pub fn len(&self) -> u32
        ensures { result ≡ length self.now.entries }
    {
        self.entries.len() as u32
    }

    /// How many of them are still to be looked at.
    pub fn left(&self) -> u32
        ensures left { result ≡ self.now.left }
        ensures within { result ≤ length self.now.entries }
    {
        self.left
    }

    /// The colour in which they are looked at.
    pub fn colour(&self) -> MarkColour
        ensures { result ≡ self.now.colour }
    {
        self.colour
    }

    /// The entry at an index.
    pub fn get(&self, at: u64) -> Option<u32>
        ensures entry { result ≡ slice_get self.now.entries at }
        ensures few { IfSome result (λ _. at < 4294967295) }
    {
        if at >= self.entries.len() as u64 {
            return None;
        }
        self.entries.get(at as usize)
    }

    /// The last entry.
    pub fn last(&self) -> Option<u32>
        ensures { result ≡ slice_get self.now.entries (length self.now.entries - 1) }
    {
        match self.entries.len() {
            0 => None,
            more => self.entries.get(more - 1),
        }
    }

    /// The entry at an index need not be looked at any more: the last of those that are still to be
    /// looked at takes its place, and it that one's.
    pub fn leave(&mut self, at: u32) -> Option<u32>
        ensures some { IfSome result (λ moved. (at < self.old.left)
            × (slice_get self.old.entries (self.old.left - 1) ≡ Some moved)
            × (self.new ≡ record self.old {
              entries = slice_set self.old.entries at moved;
              left = self.old.left - 1;
            })) }
        ensures none { IfNone result ((self.old.left ≤ at) × (self.new ≡ self.old)) }
    {
        if at >= self.left {
            return None;
        }
        let moved = self.entries.get(self.left as usize - 1)?;
        self.entries.set(at as usize, moved);
        self.left -= 1;
        Some(moved)
    }

    /// Takes out the entry at an index, behind those that are still to be looked at: the last one
    /// takes its place. Answers what stands there now.
    pub fn remove(&mut self, at: u32) -> Option<u32>
        requires inside { at < length self.old.entries }
        requires behind { self.old.left ≤ at }
        ensures entries { self.new ≡ record self.old {
          entries = swap_remove self.old.entries at 0;
        } }
        ensures moved { result ≡ slice_get self.new.entries at }
    {
        self.entries.swap_remove(at as usize);
        self.entries.get(at as usize)
    }

    /// An entry has another number.
    pub fn put(&mut self, at: u32, entry: u32)
        requires { at < length self.old.entries }
        ensures { self.new ≡ record self.old { entries = slice_set self.old.entries at entry } }
    {
        self.entries.set(at as usize, entry);
    }

    /// An entry comes last. It is not to be looked at. More than 4,294,967,295 are refused as want of
    /// memory; there are never more than that (our choice).
    #[inline(always)]
    pub fn push(&mut self, alloc: Global, entry: u32) -> Result<(), NoMemory>
        ensures ok { OnOk result
            (self.new ≡ record self.old { entries = self.old.entries ++ entry ∷ [] }) }
        ensures err { OnErr result (self.new ≡ self.old) }
    {
        if self.entries.len() >= u32::MAX as usize {
            return Err(AllocError);
        }
        self.entries.push(alloc, entry)?;
        Ok(())
    }

    /// All entries are to be looked at: in this colour, or in black where some are so already.
    pub fn start(&mut self, colour: MarkColour)
        ensures { self.new ≡ record self.old {
          left = length self.old.entries;
          colour = started self.old colour;
        } }
    {
        if self.left == 0 || self.colour == MarkColour::Gray {
            self.colour = colour;
        }
        self.left = self.entries.len() as u32;
    }

    /// The next entry that is to be looked at in this colour.
    pub fn next(&mut self, colour: MarkColour) -> Option<u32>
        ensures some { IfSome result (λ entry. IsLeft self.old colour
            × (slice_get self.old.entries (self.old.left - 1) ≡ Some entry)
            × (self.new ≡ record self.old { left = self.old.left - 1 })) }
        ensures none { IfNone result ((IsLeft self.old colour → ⊥) × (self.new ≡ self.old)) }
    {
        if self.left == 0 || self.colour != colour {
            return None;
        }
        self.left -= 1;
        self.entries.get(self.left as usize)
    }
}
