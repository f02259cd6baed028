// Arenas: whose they are, which cells lie in their slots, and which are out for sweeping.
ghost use Rattle.std.specs.Prelude.{◌≡◌, ◌↔◌, ℕ, [], ◌∷◌, ◌++◌, ◌+◌, ◌^◌, ◌<◌, ◌≤◌, List, IfNone, IfOk, IfSome, IsTrue};
ghost use Rattle.std.specs.Prelude.{Contains, OnErr, OnOk, Some, None, drop, false, get_or, length, reverse, slice_get};
ghost use Rattle.std.specs.BTreeMap.{IsUnchanged, Updates};
ghost use Rattle.gz_names.specs.Zones.{zones_in};
ghost use Rattle.colour_defs.specs.Compaction.{given_up_from};
ghost use Rattle.colour_defs.specs.Ends.{arenas_from};
ghost use Rattle.colour_defs.specs.Graph.{is_among};
ghost use Rattle.colour_defs.specs.World.{IsPlaceFor, World};
ghost use Rattle.judge.specs.Places.{IsEmpty, place_order};
ghost use Rattle.judge.specs.Slots.{AreKept, owners_of, takens_of};
ghost use Rattle.judge.specs.declared.arenas.Arena.{Arena as AnArena};

use gz_names::{Name, NoMemory, Place, SLOT_COUNT, ZoneNo, ZoneSet};
use std::alloc::{AllocError, Global};
use std::collections::BTreeMap;

#[derive(Clone, Copy)]
struct Arena {
    /// None once it was given up.
    owner: Option<ZoneNo>,
    /// Each slot below this one is taken.
    taken: u8,
    is_out: bool,
}

/// The arenas of all zones, and the cells by their places. New cells lie in the lowest free slot of their zone.
#[derive(Drop)]
pub struct Arenas {
    arenas: Vec<Arena>,
    lying: BTreeMap<Place, Name>,
    /// For each zone, an arena below which the zone has none with a free slot, but for those that are out.
    lowest: [u32; 64],
    /// Those that are out, the lowest one last.
    out: Vec<u32>,
    ghost kept: { AreKept arenas.items out.items lowest lying },
}

impl Arena {
    // Whether a new cell of a zone may lie in it.
    fn is_open(&self, zone: ZoneNo) -> bool
        ensures { IsTrue result ↔ (self.now.owner ≡ Some zone) × (self.now.is_out ≡ false) }
    {
        self.owner == Some(zone) && !self.is_out
    }

    // Whether it is of one of these zones.
    fn is_of(&self, zones: ZoneSet) -> bool
        ensures { result ≡ is_among (zones_in zones) self.now.owner }
    {
        match self.owner {
            None => false,
            Some(zone) => zones.contains(zone),
        }
    }
}

fn is_listed(numbers: &[u32], number: u32) -> bool
    ensures { IsTrue result ↔ Contains numbers.now number }
{
    numbers.contains(&number)
}

impl Arenas {
    ghost use Rattle.judge.specs.Bounds.{arena_count};
    ghost use Rattle.judge.specs.Arenas.{AreSameArenas, AreSameSlots, HasSlots, flags_in, owners_in};
    ghost use Rattle.judge.specs.Slots.{IsFull, IsOpen};

    pub fn new(alloc: Global) -> Self
        ensures out { result.out.items ≡ [] }
        ensures owners { owners_in result ≡ [] }
        ensures none { (p : Place) → IsEmpty result.lying p }
    {
        Arenas {
            arenas: Vec::new(alloc),
            lying: BTreeMap::new(alloc),
            lowest: [0; 64],
            out: Vec::new(alloc),
        }
    }

    // The lowest slot of an arena from one on in which no cell lies; 64 if there is none.
    fn first_empty(&self, arena: u32, from: u8) -> u8
        ensures most { result ≤ 64 }
        ensures taken { (s : ℕ) → from ≤ s → s < result → IsEmpty self.now.lying (arena, s) → ⊥ }
        ensures empty { result < 64 → IsEmpty self.now.lying (arena, result) }
    {
        for slot in from..SLOT_COUNT {
            let Some(place) = Place::new(arena, slot) else {
                continue;
            };
            if !self.lying.contains_key(&place) {
                return slot;
            }
        }
        SLOT_COUNT
    }

    // The lowest free slot of an arena, if a new cell of a zone may lie in it.
    fn free_in(&mut self, arena: u32, zone: ZoneNo) -> Option<Place>
        requires { arena < length self.old.arenas.items }
        ensures same { AreSameSlots self.old self.new }
        ensures lowest { self.new.lowest ≡ self.old.lowest }
        ensures none { IfNone result (IsFull (owners_in self.old) (flags_in self.old) self.old.lying zone arena) }
        ensures some { IfSome result (λ p. (p.0 ≡ arena) × (p.1 < 64)
            × IsOpen (owners_in self.old) (flags_in self.old) zone arena × IsEmpty self.old.lying p
            × ((s : ℕ) → s < p.1 → IsEmpty self.old.lying (arena, s) → ⊥)) }
    {
        let found = self.arenas[arena as usize];
        if !found.is_open(zone) {
            return None;
        }
        let slot = self.first_empty(arena, found.taken);
        self.arenas[arena as usize].taken = slot;
        Place::new(arena, slot)
    }

    /// The place of a new cell.
    pub fn place_for(&mut self, zone: ZoneNo) -> Result<Place, NoMemory>
        ensures out { self.new.out.items ≡ self.old.out.items }
        ensures lying { self.new.lying ≡ self.old.lying }
        ensures made { IfOk result (λ p. p.0 < length self.new.arenas.items) }
        ensures below { IfOk result (λ p. p.1 < 64) }
        ensures empty { IfOk result (IsEmpty self.new.lying) }
        ensures place { IfOk result (λ p. (w : World) → HasSlots self.old w
            → IsPlaceFor w zone p (owners_in self.new)) }
    {
        let index = zone.index() as usize;
        for arena in self.lowest[index]..self.arenas.len() as u32 {
            if let Some(place) = self.free_in(arena, zone) {
                self.lowest[index] = arena;
                return Ok(place);
            }
        }
        let arena = self.make(zone)?;
        Ok(Place::first_of(arena))
    }

    // A new arena of a zone of which each one is full.
    fn make(&mut self, zone: ZoneNo) -> Result<u32, NoMemory>
        requires { (n : ℕ) → n < length self.old.arenas.items
            → IsFull (owners_in self.old) (flags_in self.old) self.old.lying zone n }
        ensures out { self.new.out.items ≡ self.old.out.items }
        ensures lying { self.new.lying ≡ self.old.lying }
        ensures number { IfOk result (λ n. n ≡ length self.old.arenas.items) }
        ensures owners { OnOk result (owners_in self.new ≡ owners_in self.old ++ Some zone ∷ []) }
    {
        let arena = self.arenas.len();
        if arena >= u32::MAX as usize {
            return Err(AllocError);
        }
        self.arenas.push(Arena {
            owner: Some(zone),
            taken: 0,
            is_out: false,
        })?;
        self.lowest[zone.index() as usize] = arena as u32;
        Ok(arena as u32)
    }

    /// A cell lies in a place from here on, in which none lay.
    pub fn occupy(&mut self, place: Place, name: Name) -> Result<(), NoMemory>
        requires made { place.0 < length self.old.arenas.items }
        requires below { place.1 < 64 }
        ensures same { AreSameArenas self.old self.new }
        ensures updates { OnOk result (Updates place_order self.old.lying self.new.lying place (Some name)) }
        ensures unchanged { OnErr result (IsUnchanged self.old.lying self.new.lying) }
    {
        self.lying.insert(place, name)?;
        Ok(())
    }

    /// No cell lies in a place from here on.
    pub fn vacate(&mut self, place: Place)
        ensures same { AreSameArenas self.old self.new }
        ensures updates { Updates place_order self.old.lying self.new.lying place None }
    {
        self.look_from(place);
        self.lying.remove(&place);
    }

    // A place may be empty: it is looked at for the next new cell of its zone.
    fn look_from(&mut self, place: Place)
        ensures same { AreSameSlots self.old self.new }
        ensures taken { (k : ℕ) → slice_get (takens_of self.new.arenas.items) place.0 ≡ Some k → k ≤ place.1 }
        ensures lowest { (z : ℕ) → slice_get (owners_in self.new) place.0 ≡ Some (Some z)
            → get_or self.new.lowest z 0 ≤ place.0 }
    {
        let Some(arena) = self.arenas.get_mut(place.arena() as usize) else {
            return;
        };
        arena.taken = arena.taken.min(place.slot());
        if let Some(zone) = arena.owner {
            let index = zone.index() as usize;
            self.lowest[index] = self.lowest[index].min(place.arena());
        }
    }

    /// The numbers of the arenas that these zones own.
    pub fn numbers(&self, alloc: Global, zones: ZoneSet) -> Result<Vec<u32>, NoMemory>
        ensures numbers { IfOk result (λ numbers. numbers.items
            ≡ arenas_from 0 (owners_in self.now) (zones_in zones)) }
        ensures few { IfOk result (λ numbers. length numbers.items < 2 ^ 32) }
    {
        let mut numbers = Vec::new(alloc);
        for number in 0..self.arenas.len() {
            if !self.arenas[number].is_of(zones) {
                continue;
            }
            numbers.push(number as u32)?;
        }
        Ok(numbers)
    }

    /// These arenas are of no zone from here on.
    pub fn give_up(&mut self, numbers: &[u32])
        ensures owners { owners_in self.new ≡ given_up_from 0 (owners_in self.old) numbers.now }
        ensures out { self.new.out.items ≡ self.old.out.items }
        ensures lying { self.new.lying ≡ self.old.lying }
    {
        for number in numbers {
            self.give_one_up(*number);
        }
    }

    fn give_one_up(&mut self, number: u32)
        ensures owners { owners_in self.new ≡ given_up_from 0 (owners_in self.old) (number ∷ []) }
        ensures out { self.new.out.items ≡ self.old.out.items }
        ensures lying { self.new.lying ≡ self.old.lying }
    {
        if let Some(arena) = self.arenas.get_mut(number as usize) {
            arena.owner = None;
        }
    }

    /// How many arenas these zones own.
    pub fn count(&self, zones: ZoneSet) -> u64
        ensures { result ≡ arena_count (zones_in zones) (owners_in self.now) }
    {
        let mut count = 0;
        for arena in &self.arenas {
            count += u64::from(arena.is_of(zones));
        }
        count
    }

    /// The arenas of these zones go out.
    pub fn hand_out(&mut self, zones: ZoneSet) -> Result<(), NoMemory>
        ensures out { OnOk result (reverse self.new.out.items
            ≡ arenas_from 0 (owners_in self.old) (zones_in zones) ++ reverse self.old.out.items) }
        ensures owners { OnOk result (owners_in self.new ≡ owners_in self.old) }
        ensures lying { self.new.lying ≡ self.old.lying }
    {
        let count = self.arenas.len();
        for back in 0..count {
            self.hand_one_out(zones, count - 1 - back)?;
        }
        Ok(())
    }

    // An arena goes out, if it is of one of these zones, below those that are out.
    fn hand_one_out(&mut self, zones: ZoneSet, number: usize) -> Result<(), NoMemory>
        requires { number < length self.old.arenas.items }
        ensures out { OnOk result ((rest : List ℕ) → reverse self.old.out.items
            ≡ arenas_from (number + 1) (drop (number + 1) (owners_in self.old)) (zones_in zones) ++ rest
            → reverse self.new.out.items
            ≡ arenas_from number (drop number (owners_in self.old)) (zones_in zones) ++ rest) }
        ensures owners { OnOk result (owners_in self.new ≡ owners_in self.old) }
        ensures lying { self.new.lying ≡ self.old.lying }
    {
        if !self.arenas[number].is_of(zones) {
            return Ok(());
        }
        self.out.push(number as u32)?;
        self.arenas[number].is_out = true;
        Ok(())
    }

    /// The lowest arena that is out.
    pub fn first_out(&self) -> Option<u32>
        ensures some { IfSome result (λ a. (rest : List ℕ) × (reverse self.now.out.items ≡ a ∷ rest)) }
        ensures none { IfNone result (reverse self.now.out.items ≡ []) }
    {
        self.out.last().copied()
    }

    pub fn is_out(&self, arena: u64) -> bool {
        match self.arenas.get(arena as usize) {
            None => false,
            Some(arena) => arena.is_out,
        }
    }

    /// Whether an arena is of one of these zones.
    pub fn is_of(&self, zones: ZoneSet, arena: u64) -> bool {
        match self.arenas.get(arena as usize) {
            None => false,
            Some(arena) => arena.is_of(zones),
        }
    }

    /// The lowest arena that is out is taken in.
    pub fn take_in(&mut self)
        ensures out { reverse self.new.out.items ≡ drop 1 (reverse self.old.out.items) }
        ensures owners { owners_in self.new ≡ owners_in self.old }
        ensures lying { self.new.lying ≡ self.old.lying }
    {
        let Some(number) = self.first_out() else {
            return;
        };
        self.look_from(Place::first_of(number));
        self.out.pop();
        if is_listed(self.out.as_slice(), number) {
            return;
        }
        self.arenas[number as usize].is_out = false;
    }
}
