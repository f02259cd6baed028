// The entries by their maps, or by their keys.
ghost use Rattle.std.specs.Prelude.{◌≡◌, ◌≢◌, ◌<◌, ◌-◌, [], ℕ, List, false, None, Some, Contains, IfOk, IfSome, IfNone};
ghost use Rattle.std.specs.Prelude.{OnOk, OnErr, length, slice_get, slice_set, swap_remove};
ghost use Rattle.weak_maps.specs.Heads.{no_heads};
ghost use Rattle.weak_maps.specs.Sides.{IsAdded, IsSide, IsUndone, Starts, WasAdded, listed, number_of};

use crate::colours::MarkColour;
use crate::heads::Heads;
use crate::listings::Listing;
use crate::queues::Queue;
use crate::seats::{Seat, add_entry, add_first, next_left, take_entry, undo_add};
use gz_names::{Moves, NoMemory, Place};
use std::alloc::{AllocError, Global};
use std::marker::Model;

/// The entries of each place, and which of them are still to be looked at.
#[derive(Drop)]
pub(crate) struct Side {
    // The number of each place's list.
    heads: Heads,
    lists: Vec<Listing>,
    // Where each entry stands.
    seats: Vec<Seat>,
    // The lists with entries that are to be looked at in black, and in gray.
    black: Queue,
    gray: Queue,
}

impl Model for Side {
    ghost use Rattle.weak_maps.specs.Sides.{SideState, IsSound, state_of};

    ghost Value = { SideState };

    ghost view = { λ s. state_of s.heads s.lists.items s.seats.items };

    ghost invariant = { λ s. IsSound s.heads s.lists.items s.seats.items s.black s.gray };
}

impl Side {
    ghost use Rattle.gz_names.specs.declared.moves.Move.{Move as AMove};
    ghost use Rattle.weak_maps.specs.Heads.{head_of};
    ghost use Rattle.weak_maps.specs.Moving.{exchanged};
    ghost use Rattle.weak_maps.specs.Sides.{SideState};

    /// No entries.
    pub fn new(alloc: Global) -> Self
        ensures none { result ≡ record { heads = no_heads; lists = []; owners = []; left = [] } }
        ensures side { IsSide result }
    {
        Side {
            heads: Heads::new(alloc),
            lists: Vec::new(alloc),
            seats: Vec::new(alloc),
            black: Queue::new(alloc),
            gray: Queue::new(alloc),
        }
    }

    /// The number of the entry at an index of a place's list.
    pub fn get(&self, place: Place, index: u64) -> Option<u32>
        ensures entry { result ≡ slice_get (listed self.now place) index }
        ensures few { IfSome result (λ _. index < 4294967295) }
        ensures side { IsSide self.now }
    {
        let list = self.heads.get(place)?;
        self.lists[list as usize].get(index)
    }

    /// The number of the last entry of a place's list.
    pub fn last(&self, place: Place) -> Option<u32>
        ensures entry { result ≡ slice_get (listed self.now place) (length (listed self.now place) - 1) }
        ensures side { IsSide self.now }
    {
        let list = self.heads.get(place)?;
        self.lists[list as usize].last()
    }

    /// Whether places of an arena may have entries.
    #[inline(always)]
    pub fn may_list(&self, arena: u32) -> bool
        ensures { result ≡ false → (place : Place) → place.0 ≡ arena → number_of self.now place ≡ None }
    {
        self.heads.has_page(arena)
    }

    /// An entry of a place comes, with the next number. It is not to be looked at.
    pub fn add(&mut self, place: Place) -> Result<(), NoMemory>
        ensures added { OnOk result (IsAdded self.old place self.new) }
        ensures side { OnOk result (IsSide self.new) }
        ensures err { OnErr result (self.new ≡ self.old) }
    {
        match self.heads.get(place) {
            Some(list) => add_entry(&mut self.lists, &mut self.seats, list),
            None => self.add_list(place),
        }
    }

    // An entry of a place without a list comes, and its list with it.
    fn add_list(&mut self, place: Place) -> Result<(), NoMemory>
        requires new { number_of self.old place ≡ None }
        ensures added { OnOk result (IsAdded self.old place self.new) }
        ensures side { OnOk result (IsSide self.new) }
        ensures err { OnErr result (self.new ≡ self.old) }
    {
        if self.lists.len() >= u32::MAX as usize || self.seats.len() >= u32::MAX as usize {
            return Err(AllocError);
        }
        self.lists.reserve(1)?;
        self.seats.reserve(1)?;
        self.black.grow()?;
        self.gray.grow()?;
        let alloc = *self.seats.allocator();
        let mut listing = Listing::new();
        listing.push(alloc, self.seats.len() as u32)?;
        self.heads.insert(place, self.lists.len() as u32)?;
        add_first(&mut self.lists, &mut self.seats, listing);
        Ok(())
    }

    /// The numbers of the places' lists, anew, where the places of each move have exchanged their lists.
    pub fn exchanged(&self, moves: &Moves) -> Result<Heads, NoMemory>
        ensures numbers { IfOk result (λ heads. (q : Place)
            → head_of heads q ≡ number_of self.now (exchanged moves.now q)) }
        ensures side { IsSide self.now }
    {
        self.heads.exchanged(moves)
    }

    /// Places have these lists from now on, after some moves by which the places have exchanged them.
    pub fn set_heads(&mut self, heads: Heads)
        requires { (moves : List AMove) × ((q : Place)
            → head_of heads q ≡ number_of self.old (exchanged moves q)) }
        ensures heads { self.new ≡ record self.old { heads = heads } }
        ensures side { IsSide self.new }
    {
        self.heads = heads;
    }

    /// An entry goes, and the last one has its number then.
    pub fn take(&mut self, entry: u32)
        requires { entry < length self.old.owners }
        ensures heads { self.new.heads ≡ self.old.heads }
        ensures owners { self.new.owners ≡ swap_remove self.old.owners entry 0 }
        ensures left { self.new.left ≡ swap_remove self.old.left entry None }
        ensures side { IsSide self.new }
    {
        take_entry(&mut self.lists, &mut self.seats, entry);
    }

    /// The entry that was added last goes again. An empty list may stay, which nobody sees.
    pub fn undo_add(&mut self)
        requires { WasAdded self.old }
        ensures undone { (before : SideState) (place : Place) → IsAdded before place self.old
            → IsUndone before self.old self.new }
        ensures side { IsSide self.new }
    {
        undo_add(&mut self.lists, &mut self.seats);
    }

    /// All entries of a place are to be looked at in this colour, or in black where some are so
    /// already.
    pub fn start(&mut self, colour: MarkColour, place: Place)
        ensures rest { self.new ≡ record self.old { left = self.new.left } }
        ensures left { Starts colour (number_of self.old place) self.old.owners self.old.left
            self.new.left }
        ensures side { IsSide self.new }
    {
        let Some(list) = self.heads.get(place) else {
            return;
        };
        let listing = &mut self.lists[list as usize];
        listing.start(colour);
        match listing.colour() {
            MarkColour::Black => self.black.add(list),
            MarkColour::Gray => self.gray.add(list),
        }
    }

    /// The next entry that is to be looked at in this colour. It is not any more.
    #[inline(always)]
    pub fn next(&mut self, colour: MarkColour) -> Option<u32>
        ensures some { IfSome result (λ entry.
            (slice_get self.old.left entry ≡ Some (Some colour))
            × (self.new ≡ record self.old { left = slice_set self.old.left entry None })) }
        ensures none { IfNone result ((self.new ≡ self.old)
            × ((x : ℕ) → slice_get self.old.left x ≢ Some (Some colour))) }
        ensures side { IsSide self.new }
    {
        match colour {
            MarkColour::Black => next_left(&mut self.lists, &mut self.black, colour),
            MarkColour::Gray => next_left(&mut self.lists, &mut self.gray, colour),
        }
    }
}
