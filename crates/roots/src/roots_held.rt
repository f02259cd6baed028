// What the roots hold.
ghost use Rattle.std.specs.Prelude.{◌≡◌, ◌≢◌, ◌+◌, ◌++◌, ◌<◌, ◌≤◌, ◌^◌, ◌↔◌, ℕ, None, Some, [], length, map, replicate};
ghost use Rattle.std.specs.Prelude.{slice_get, slice_set, IfOk, IfSome, IfNone, OnOk, OnErr};
ghost use Rattle.std.specs.Option.{option_map};
ghost use Rattle.gz_names.specs.Moves.{moved};
ghost use Rattle.gz_names.specs.Zones.{HasZone};
ghost use Rattle.roots.specs.Buffers.{places_in};
ghost use Rattle.roots.specs.Pinned.{Pins, pinned_in};

use crate::buffers::{clear_waiting, count_waiting, new_buffers, put_both, take_item};
use gz_names::{GrayNo, Moves, NoMemory, Place, Reg, ZoneNo, ZoneSet};
use slab::Slab;
use std::alloc::Global;
use std::marker::Model;

/// The registers, the pinned roots, the gray slots, and for each zone what waits for its gray marking.
#[derive(Drop)]
pub struct Roots {
    regs: [Option<Place>; 16],
    // The pinned roots: cells that are held by numbers of their own.
    pinned: Slab<Place>,
    slots: [Option<Place>; 64],
    // The places that wait for each zone.
    buffers: Vec<Vec<Place>>,
    // The zones for which something waits.
    waiting: ZoneSet,
}

impl Model for Roots {
    ghost use Rattle.std.specs.Prelude.{◌≡◌, ◌<◌, ◌^◌, ◌++◌, length, sum_by};
    ghost use Rattle.roots.specs.Buffers.{lists_of, IsWaiting};
    ghost use Rattle.roots.specs.RootsHeld.{RootsState};

    ghost Value = { RootsState };

    ghost view = { λ r. record {
      regs = r.regs ++ r.pinned.slots;
      slots = r.slots;
      buffers = lists_of r.buffers.items;
    } };

    ghost invariant = { λ r. (length r.buffers.items ≡ 64)
        × IsWaiting (lists_of r.buffers.items) r.waiting.bits
        × (sum_by length (lists_of r.buffers.items) < 2 ^ 63) × (length r.regs ≡ 16) };
}

impl Roots {
    ghost use Rattle.roots.specs.RootsHeld.{RootsState, buffer_of, buffered, buffered_all, waiting_count};

    /// Empty registers and slots, and nothing that waits.
    pub fn new(alloc: Global) -> Result<Self, NoMemory>
        ensures { IfOk result
            (λ roots. roots ≡ record {
              regs = replicate 16 None;
              slots = replicate 64 None;
              buffers = replicate 64 [];
            }) }
    {
        let buffers = new_buffers(alloc)?;
        Ok(Roots {
            regs: [None; 16],
            pinned: Slab::new(alloc),
            slots: [None; 64],
            buffers,
            waiting: ZoneSet { bits: 0 },
        })
    }

    /// What a register holds.
    pub fn reg(&self, r: Reg) -> Option<Place>
        ensures held { slice_get self.now.regs r ≡ Some result }
        ensures count { 16 ≤ length self.now.regs }
    {
        self.regs[r.index() as usize]
    }

    /// A register takes a cell, or becomes empty.
    pub fn set_reg(&mut self, r: Reg, v: Option<Place>)
        ensures { self.new ≡ record self.old { regs = slice_set self.old.regs r v } }
    {
        self.regs[r.index() as usize] = v;
    }

    /// A pinned root holds a cell from now on: one that held none. Returns its number. After `NoMemory` nothing
    /// changed.
    pub fn pin(&mut self, place: Place) -> Result<usize, NoMemory>
        ensures pins { IfOk result (λ root. Pins self.old place root self.new) }
        ensures err { OnErr result (self.new ≡ self.old) }
    {
        Ok(self.pinned.insert(place)?)
    }

    /// What a pinned root holds.
    pub fn pinned(&self, root: usize) -> Option<Place>
        ensures { result ≡ pinned_in self.now root }
    {
        self.pinned.get(root).copied()
    }

    /// A pinned root holds nothing any more, and its number may be given again. Returns what it held.
    pub fn unpin(&mut self, root: usize) -> Option<Place>
        ensures held { result ≡ pinned_in self.old root }
        ensures rest { self.new ≡ record self.old { regs = slice_set self.old.regs (16 + root) None } }
    {
        self.pinned.try_remove(root)
    }

    /// A number from which on no pinned root holds a cell.
    pub fn pinned_end(&self) -> usize
        ensures { (root : ℕ) → result ≤ root → pinned_in self.now root ≡ None }
    {
        self.pinned.capacity()
    }

    /// What a gray slot holds.
    pub fn slot(&self, g: GrayNo) -> Option<Place>
        ensures held { slice_get self.now.slots g ≡ Some result }
        ensures count { length self.now.slots ≡ 64 }
    {
        self.slots[g.index() as usize]
    }

    /// A gray slot takes a cell, or becomes empty.
    pub fn set_slot(&mut self, g: GrayNo, v: Option<Place>)
        ensures { self.new ≡ record self.old { slots = slice_set self.old.slots g v } }
    {
        self.slots[g.index() as usize] = v;
    }

    /// Registers, pinned roots and gray slots hold their cells where these have gone. What waits is as it was.
    pub fn forward(&mut self, moves: &Moves)
        ensures { self.new ≡ record self.old {
          regs = map (option_map (moved moves.now)) self.old.regs;
          slots = map (option_map (moved moves.now)) self.old.slots;
        } }
    {
        forward_all(&mut self.regs, moves);
        forward_pinned(&mut self.pinned, moves);
        forward_all(&mut self.slots, moves);
    }

    /// Puts the cells of gray slots and the gray wrappers into the buffers of the zones that they
    /// are given with. All memory is taken before anything is put in.
    pub fn buffer_gray(
        &mut self,
        slots: &[(ZoneNo, Place)],
        wrappers: &[(ZoneNo, Place)],
    ) -> Result<(), NoMemory>
        requires few { waiting_count self.old + (length slots.now + length wrappers.now)
            < 2 ^ 63 }
        ensures ok { OnOk result
            (self.new ≡ buffered_all (buffered_all self.old slots.now) wrappers.now) }
        ensures zones { OnOk result ((z : ℕ) → z < 64 → buffer_of self.new z
            ≡ buffer_of self.old z ++ (places_in z slots.now ++ places_in z wrappers.now)) }
        ensures count { OnOk result (waiting_count self.new
            ≡ waiting_count self.old + (length slots.now + length wrappers.now)) }
        ensures sized { length self.new.buffers ≡ 64 }
        ensures err { OnErr result (self.new ≡ self.old) }
    {
        put_both(&mut self.buffers, &mut self.waiting, slots, wrappers)
    }

    /// Takes a place out of a zone's buffer.
    pub fn next_buffered(&mut self, zone: ZoneNo) -> Option<Place>
        ensures some { IfSome result (λ place. self.old ≡ buffered self.new zone place) }
        ensures count { IfSome result (λ _. waiting_count self.old ≡ waiting_count self.new + 1) }
        ensures none { IfNone result ((buffer_of self.old zone ≡ []) × (self.new ≡ self.old)) }
    {
        take_item(&mut self.buffers, &mut self.waiting, zone)
    }

    /// Empties all buffers. It looks only at those that hold something, and takes no memory.
    pub fn clear(&mut self)
        ensures { self.new ≡ record self.old { buffers = replicate 64 [] } }
    {
        clear_waiting(&mut self.buffers, &mut self.waiting);
    }

    /// How many places wait, for all zones together.
    pub fn waiting_count(&self) -> usize
        ensures { result ≡ waiting_count self.now }
    {
        count_waiting(&self.buffers)
    }

    /// The zones whose buffers hold something.
    pub fn waiting(&self) -> ZoneSet
        ensures waiting { (z : ℕ) → HasZone result.bits z ↔ (buffer_of self.now z ≢ []) }
        ensures idle { (z : ℕ) → (HasZone result.bits z → ⊥) → buffer_of self.now z ≡ [] }
        ensures few { waiting_count self.now < 2 ^ 63 }
    {
        self.waiting
    }
}

// What holds cells holds them where they have gone.
fn forward_all(held: &mut [Option<Place>], moves: &Moves)
    ensures { held.new ≡ map (option_map (moved moves.now)) held.old }
{
    for place in held.iter_mut() {
        *place = forwarded(*place, moves);
    }
}

// What is pinned is pinned where it has gone.
fn forward_pinned(pinned: &mut Slab<Place>, moves: &Moves)
    ensures { pinned.new.slots ≡ map (option_map (moved moves.now)) pinned.old.slots }
{
    for root in 0..pinned.capacity() {
        if let Some(place) = pinned.get_mut(root) {
            *place = moves.moved_to(*place);
        }
    }
}

// A cell that is held, where it has gone.
fn forwarded(held: Option<Place>, moves: &Moves) -> Option<Place>
    ensures { result ≡ option_map (moved moves.now) held }
{
    Some(moves.moved_to(held?))
}
