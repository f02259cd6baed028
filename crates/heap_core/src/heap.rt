// The heap of all zones, and what the crates above use of its parts.
ghost use Rattle.std.specs.Prelude.{◌≡◌, ◌≢◌, ◌<◌, ◌≤◌, ◌+◌, ◌^◌, ◌++◌, ◌∷◌, ◌↔◌, ◌==◌, ◌&&◌, [], ℕ, Bool, true, false};
ghost use Rattle.std.specs.Prelude.{None, Some, length, replicate, slice_get, slice_set, slice_index_or, is_some};
ghost use Rattle.std.specs.Prelude.{sum_by, if◌then◌else◌, IfOk, IfSome, IfNone, IsSome, IsSomeAnd, IsTrue, MatchBool};
ghost use Rattle.std.specs.Prelude.{OnOk, OnErr, Contains, Err, All};
ghost use Rattle.cell_bits.specs.declared.bits.Colour.TheVariants as colour;
ghost use Rattle.gz_names.specs.declared.numbers.Place.{Place as APlace};
ghost use Rattle.std.specs.Int.{bit_at};
ghost use Rattle.std.specs.List.{IsDistinct};
ghost use Rattle.std.specs.Option.{ForSome, option_map};
ghost use Rattle.gz_names.specs.Order.{number_of};
ghost use Rattle.gz_names.specs.Zones.{HasZone};
ghost use Rattle.zones.specs.States.{next_state, IsMarking};
ghost use Rattle.zones.specs.declared.states.State.{State as AState};
ghost use Rattle.arena_table.specs.Cells.{field_count, name_of};
ghost use Rattle.arena_table.specs.Table.{new_cell};
ghost use Rattle.heap_core.specs.Shape.{Shape, IsPresent, is_owned, is_white, cell_of, field_at, out_of, stored_at};
ghost use Rattle.heap_core.specs.Shape.{delegate_of_key, is_prepared, owner_of, zone_of};
ghost use Rattle.heap_core.specs.Edges.{edge_count};
ghost use Rattle.heap_core.specs.Heap.{HeapState, colour_of, reg_of, slot_of, weak_of, with_reg, with_slot};
ghost use Rattle.heap_core.specs.Changes.{IsWith, IsWithout, Makes, MakesWrapper, Writes, next_place, with_comp};
ghost use Rattle.heap_core.specs.Changes.{with_number, with_zone, wrapper_cell};
ghost use Rattle.heap_core.specs.Births.{ColoursAtBirth};
ghost use Rattle.heap_core.specs.MarkBits.{TakesBlack, TakesGray};
ghost use Rattle.heap_core.specs.TargetZones.{IsListedWrapper, owner_in};
ghost use Rattle.heap_core.specs.WeakNames.{is_watched, weak_slot_of, with_watched, with_weak_slot, without_watched};
ghost use Rattle.wrappers.specs.TargetZones.{IsNoted};
ghost use Rattle.heap_core.specs.Sweeping.{AreAbsent, AreKept, AreWithout, HaveWhiteOwners, IsWhiteAt, IsWhiteIn};
ghost use Rattle.heap_core.specs.Sweeping.{held_in_all, is_absent, is_absent_in, is_lost_in, jobs_of};
ghost use Rattle.heap_core.specs.Sweeping.{with_handed, with_taken};
ghost use Rattle.arena_table.specs.Slots.{IsWithin, alloc_word_of, at_bits, cell_at, names_of};
ghost use Rattle.wrappers.specs.WrapperMaps.{AreApart, list_of, place_of, without_dead};
ghost use Rattle.weak_maps.specs.Delegates.{DelegateRow};
ghost use Rattle.weak_maps.specs.Entries.{Starts};
ghost use Rattle.weak_maps.specs.WeakMaps.{AreParallel, Carries, HasLooked, IsSound as AreEntries, IsWithoutDead};
ghost use Rattle.weak_maps.specs.WeakMaps.{KeepsRows, NoneLeft, delegate_of, listed_of_delegate, listed_of_key};
ghost use Rattle.weak_maps.specs.WeakMaps.{listed_of_map, maps_delegated_in, value_of};
ghost use Rattle.weak_refs.specs.WeakNames.{is_same, without_dead as without_dead_names};
ghost use Rattle.weak_maps.specs.declared.colours.MarkColour.{MarkColour};
ghost use Rattle.weak_maps.specs.declared.entries.WeakEntry.{WeakEntry as AnEntry};
ghost use Rattle.mark_stack.specs.Stack.{IsPushed, no_places, pile_of};
ghost use Rattle.mark_stack.specs.declared.stack.Pile.{Pile as APile};
ghost use Rattle.roots.specs.Buffers.{buffer_at, places_in, put_all, put_at};
ghost use Rattle.gz_names.specs.declared.names.Name.TheVariants.{Cell as ACell, Wrap as AWrap};
ghost use Rattle.gz_names.specs.declared.commands.Kind.TheVariants as kind;

mod moving;
mod pinned;

use crate::steps::Steps;
use arena_table::{Arenas, Jobs};
use cell_bits::{Bits, Colour, Job};
use gz_names::{
    COMP_LIMIT, CompNo, GrayNo, Kind, Name, Names64, NoMemory, Place, Reg, WeakNo, ZONE_LIMIT,
    ZoneNo, ZoneSet,
};
use mark_stack::Pile;
use roots::Roots;
use std::alloc::{AllocError, Global};
use std::marker::Model;
use std::mem;
use std::snapshot::Snapshot;
use std::sync::ledger::{Blank, Ledger};
use weak_maps::{Delegate, MarkColour, WeakEntry, WeakMaps};
use weak_refs::WeakRefs;
use wrappers::{TargetZones, Wrappers};
use zones::{CompFault, State, ZoneFault, Zones};

/// The cells of all zones, and what holds them.
#[derive(Drop)]
pub struct Heap {
    arenas: Arenas,
    zones: Zones,
    wrappers: Wrappers,
    // For each zone the zones in which targets of its wrappers ever lay.
    target_zones: TargetZones,
    roots: Roots,
    weak: WeakMaps,
    weak_refs: WeakRefs,
    // How many objects and maps were made: the number of the next.
    objects: u64,
    // The ledger in which the edges that are read are counted, if they are.
    counted_in: Option<Snapshot<Blank>>,
}

/// Where a heap counted the edges that are read, while it does not: in a ledger, or nowhere.
#[derive(Drop)]
pub struct CountedIn {
    blank: Option<Snapshot<Blank>>,
}

impl Model for CountedIn {
    ghost use Rattle.std.specs.Prelude.{ℕ, Option};
    ghost use Rattle.std.specs.Option.{option_map};

    ghost Value = { Option ℕ };

    ghost view = { λ c. option_map (λ s. s.value.name) c.blank };
}

impl Model for Heap {
    ghost use Rattle.std.specs.Option.{option_map};
    ghost use Rattle.heap_core.specs.Shape.{arena_shapes};
    ghost use Rattle.heap_core.specs.Heap.{HeapState, bits_of};

    ghost Value = { HeapState };

    ghost view = { λ h. record {
      shape = record {
        arenas = arena_shapes h.arenas.arenas;
        states = h.zones.states;
        comps = h.zones.comps;
        wrappers = h.wrappers;
        weak = h.weak.table;
        regs = h.roots.regs;
        slots = h.roots.slots;
        objects = h.objects;
      };
      colours = bits_of h.arenas.arenas;
      buffers = h.roots.buffers;
      made = h.arenas.made;
      looks = h.weak.looks;
      delayed = h.arenas.delayed;
      weak_names = h.weak_refs;
      ledger = option_map (λ s. s.value.name) h.counted_in;
    } };

    ghost use Rattle.heap_core.specs.TargetZones.{AreTargetsNoted};

    ghost invariant = { λ h. AreTargetsNoted h.arenas.arenas h.target_zones };
}

impl Heap {
    ghost use Rattle.heap_core.specs.Heap.{HeapState, IsEmpty};
    ghost use Rattle.heap_core.specs.Answers.{IsSound};

    /// A heap with nothing in it.
    pub fn new(alloc: Global) -> Result<Self, NoMemory>
        ensures empty { IfOk result IsEmpty }
        ensures sound { IfOk result IsSound }
    {
        Ok(Heap {
            arenas: Arenas::new(alloc)?,
            zones: Zones::new(alloc),
            wrappers: Wrappers::new(alloc)?,
            target_zones: TargetZones::new(),
            roots: Roots::new(alloc)?,
            weak: WeakMaps::new(alloc),
            weak_refs: WeakRefs::new(alloc),
            objects: 0,
            counted_in: None,
        })
    }

    /// From now on the edges that are read are counted, from 0 on, in a new ledger and in no other.
    pub fn count_edges<L: Ledger>(&mut self, blank: Blank) -> Steps<L>
        requires name { blank.name ≡ L.name }
        requires parts { blank.parts ≡ L.parts }
        requires some { 0 < blank.parts }
        ensures none { result ≡ 0 }
        ensures ledger { self.new ≡ record self.old { ledger = Some L.name } }
    {
        self.counted_in = Some(Snapshot::of(&blank));
        Steps::new(blank)
    }

    /// From now on the edges that are read are not counted, and `edge_at` reads them. Returns where they were counted.
    pub fn uncount_edges(&mut self) -> CountedIn
        ensures heap { self.new ≡ record self.old { ledger = None } }
        ensures ledger { result ≡ self.old.ledger }
    {
        CountedIn {
            blank: mem::replace(&mut self.counted_in, None),
        }
    }

    /// From now on the edges that are read are counted where they were as `uncount_edges` was called.
    pub fn recount_edges(&mut self, counted_in: CountedIn)
        ensures { self.new ≡ record self.old { ledger = counted_in } }
    {
        self.counted_in = counted_in.blank;
    }

    /// The kind of a present cell.
    pub fn kind(&self, place: Place) -> Kind
        requires { IsPresent self.now.shape place }
        ensures { option_map (λ c. c.kind) (cell_of self.now.shape place) ≡ Some result }
    {
        self.arenas.kind(place)
    }

    /// The compartment of a present cell.
    pub fn comp(&self, place: Place) -> CompNo
        requires { IsPresent self.now.shape place }
        ensures { option_map (λ c. c.comp) (cell_of self.now.shape place) ≡ Some result }
    {
        self.arenas.comp(place)
    }

    /// The name of a present cell.
    pub fn name(&self, place: Place) -> Name
        requires { IsPresent self.now.shape place }
        ensures value { option_map (λ c. c.name) (cell_of self.now.shape place) ≡ Some result }
        ensures few { number_of result < 4294967296 }
    {
        self.arenas.name(place)
    }

    /// The i-th edge of a present cell: what its field of this number holds; `None` exactly where
    /// that is null or there is no such field. It counts itself, in the one ledger in which the heap's
    /// edges are counted.
    pub fn reached_by<L: Ledger>(&self, place: Place, i: u8, steps: &mut Steps<L>) -> Option<Place>
        requires present { IsPresent self.now.shape place }
        requires counted { self.now.ledger ≡ Some L.name }
        ensures edge { result ≡ field_at self.now.shape place i }
        ensures steps { steps.new ≡ steps.old + 1 }
    {
        steps.tick();
        self.arenas.field(place, i)
    }

    /// How many edges a present cell has, null or not: as many as it has fields. At a number from
    /// there on `reached_by` answers `None`.
    pub fn edge_count(&self, place: Place) -> u8
        requires { IsPresent self.now.shape place }
        ensures count { result ≡ edge_count self.now.shape place }
        ensures most { result ≤ 8 }
        ensures past { (f : ℕ) → result ≤ f → field_at self.now.shape place f ≡ None }
    {
        self.arenas.field_count(place)
    }

    /// Whether no present cell is at a place.
    pub fn is_absent(&self, place: Place) -> bool
        ensures { result ≡ is_absent self.now.shape place }
    {
        is_dead(&self.arenas, place)
    }

    /// What a register holds.
    pub fn reg(&self, r: Reg) -> Option<Place>
        ensures value { result ≡ reg_of self.now r }
        ensures held { slice_get self.now.shape.regs r ≡ Some result }
        ensures count { 16 ≤ length self.now.shape.regs }
    {
        self.roots.reg(r)
    }

    /// What a gray slot holds.
    pub fn slot(&self, g: GrayNo) -> Option<Place>
        ensures value { result ≡ slot_of self.now g }
        ensures held { slice_get self.now.shape.slots g ≡ Some result }
        ensures count { length self.now.shape.slots ≡ 64 }
    {
        self.roots.slot(g)
    }

    /// What a weak slot names.
    pub fn weak_slot(&self, q: WeakNo) -> Option<Place>
        ensures value { result ≡ weak_slot_of self.now q }
        ensures held { slice_get self.now.weak_names.slots q ≡ Some result }
        ensures count { length self.now.weak_names.slots ≡ 64 }
    {
        self.weak_refs.named(q.index())
    }

    /// How many cells are watched, each of them once.
    pub fn watched_count(&self) -> usize
        ensures count { result ≡ length self.now.weak_names.watched }
        ensures apart { IsDistinct is_same self.now.weak_names.watched }
    {
        self.weak_refs.watched_count()
    }

    /// A watched cell, by its index; `None` past the last.
    pub fn watched_at(&self, index: usize) -> Option<Place>
        ensures { result ≡ slice_get self.now.weak_names.watched index }
    {
        self.weak_refs.watched_at(index)
    }

    /// How many cells were ever made.
    pub fn made(&self) -> u64
        ensures { result ≡ self.now.made }
    {
        self.arenas.made()
    }

    /// How many arenas were made, those that were given up among them.
    pub fn arenas(&self) -> u32
        ensures { result ≡ length self.now.shape.arenas }
    {
        self.arenas.arenas()
    }

    /// The zone that owns an arena: none if it was not made, or was given up.
    pub fn owner(&self, arena: u32) -> Option<ZoneNo>
        ensures { result ≡ owner_of self.now.shape arena }
    {
        self.arenas.owner(arena)
    }

    /// The zone of a present cell.
    pub fn zone_at(&self, place: Place) -> ZoneNo
        requires { IsPresent self.now.shape place }
        ensures { result ≡ zone_of self.now.shape place }
    {
        self.arenas.zone_at(place)
    }

    /// Whether a present cell lies in one of these zones.
    pub fn lies_in(&self, place: Place, zones: ZoneSet) -> bool
        requires { IsPresent self.now.shape place }
        ensures { IsTrue result ↔ HasZone zones.bits (zone_of self.now.shape place) }
    {
        zones.contains(self.zone_at(place))
    }

    /// Whether an arena is handed to sweeping.
    pub fn is_out(&self, arena: u32) -> bool
        ensures { result ≡ is_some (out_of self.now.shape arena) }
    {
        self.arenas.is_out(arena)
    }

    /// Whether the arena of a place, which was made, is handed to sweeping.
    pub fn is_place_out(&self, place: Place) -> bool
        requires { place.0 < length self.now.colours }
        ensures { result ≡ is_some (out_of self.now.shape place.0) }
    {
        self.arenas.is_place_out(place)
    }

    /// The lowest arena that is handed to sweeping. It walks over no arenas.
    pub fn first_out(&self) -> Option<u32>
        ensures out { IfSome result (λ arena. IsSome (out_of self.now.shape arena)) }
        ensures lowest { IfSome result
            (λ arena. (other : ℕ) → other < arena → out_of self.now.shape other ≡ None) }
        ensures none { IfNone result ((arena : ℕ) → out_of self.now.shape arena ≡ None) }
    {
        self.arenas.first_out()
    }

    /// The lowest arena of these zones from a number on. It walks over no arenas of other zones.
    pub fn next_in(&self, zones: ZoneSet, from: u32) -> Option<u32>
        ensures owned { IfSome result (λ arena. (from ≤ arena)
            × (is_owned self.now.shape zones.bits arena ≡ true)) }
        ensures lowest { IfSome result (λ arena. (other : ℕ) → from ≤ other → other < arena
            → is_owned self.now.shape zones.bits other ≡ false) }
        ensures none { IfNone result ((other : ℕ) → from ≤ other
            → is_owned self.now.shape zones.bits other ≡ false) }
    {
        self.arenas.next_in(zones, from)
    }

    /// The mark bits of an arena.
    pub fn bits(&self, arena: u32) -> Bits
        requires { arena < length self.now.colours }
        ensures { slice_get self.now.colours arena ≡ Some result }
    {
        self.arenas.bits(arena)
    }

    /// The mark bits that an arena had as it was handed to sweeping.
    pub fn bits_at_hand_out(&self, arena: u32) -> Bits
        requires { IsSome (out_of self.now.shape arena) }
        ensures { out_of self.now.shape arena ≡ Some result }
    {
        self.arenas.bits(arena)
    }

    /// An arena that is not handed to sweeping takes mark bits.
    pub fn set_bits(&mut self, arena: u32, bits: Bits)
        requires made { arena < length self.old.shape.arenas }
        requires kept { out_of self.old.shape arena ≡ None }
        ensures { self.new ≡ record self.old {
          colours = slice_set self.old.colours arena bits;
        } }
    {
        self.arenas.set_bits(arena, bits);
    }

    /// The colour of a place by the heap's own mark bits.
    pub fn colour(&self, place: Place) -> Colour
        requires { place.0 < length self.now.colours }
        ensures { result ≡ colour_of self.now place }
    {
        self.bits(place.arena()).colour(place.slot())
    }

    /// Turns a cell black whose arena is not handed to sweeping. True exactly where that set a bit.
    pub fn mark_black(&mut self, place: Place) -> bool
        requires made { place.0 < length self.old.colours }
        requires kept { out_of self.old.shape place.0 ≡ None }
        ensures { MatchBool result (TakesBlack self.old place self.new)
            ((colour_of self.old place ≡ Colour.Black) × (self.new ≡ self.old)) }
    {
        let mut bits = self.arenas.bits(place.arena());
        let is_new = bits.mark_black(place.slot());
        if is_new {
            self.arenas.set_bits(place.arena(), bits);
        }
        is_new
    }

    /// Turns a white cell gray whose arena is not handed to sweeping. True exactly where that set a
    /// bit; a gray or black cell stays as it is.
    pub fn mark_gray(&mut self, place: Place) -> bool
        requires made { place.0 < length self.old.colours }
        requires kept { out_of self.old.shape place.0 ≡ None }
        ensures { MatchBool result (TakesGray self.old place self.new)
            ((colour_of self.old place ≢ Colour.White) × (self.new ≡ self.old)) }
    {
        let mut bits = self.arenas.bits(place.arena());
        let is_new = bits.mark_gray(place.slot());
        if is_new {
            self.arenas.set_bits(place.arena(), bits);
        }
        is_new
    }

    /// A cell for which a pile of the mark stack has no room is delayed for it: `next_delayed` gives
    /// it back.
    #[cold]
    #[inline(never)]
    pub fn delay(&mut self, pile: Pile, place: Place)
        requires made { place.0 < length self.old.shape.arenas }
        requires fresh { Contains (pile_of self.old.delayed pile) place → ⊥ }
        ensures more { IsPushed self.old.delayed pile place self.new.delayed }
        ensures rest { self.new ≡ record self.old { delayed = self.new.delayed } }
    {
        self.arenas.delay(pile, place);
    }

    /// Has the memory of a cell fetched that is soon read. It waits for nothing and changes nothing.
    #[inline(always)]
    pub fn fetch(&mut self, place: Place)
        requires { place.0 < length self.old.shape.arenas }
        ensures { self.new ≡ self.old }
    {
        self.arenas.fetch(place);
    }

    /// Whether a cell is delayed for a pile.
    #[inline(always)]
    pub fn has_delayed(&self, pile: Pile) -> bool
        ensures { MatchBool result (pile_of self.now.delayed pile ≢ [])
            (pile_of self.now.delayed pile ≡ []) }
    {
        self.arenas.has_delayed(pile)
    }

    /// Takes a cell that is delayed for a pile; `None` exactly where none is. It costs what it finds.
    #[inline(always)]
    pub fn next_delayed(&mut self, pile: Pile) -> Option<Place>
        ensures some { IfSome result
            (λ place. IsPushed self.new.delayed pile place self.old.delayed) }
        ensures none { IfNone result
            ((pile_of self.old.delayed pile ≡ []) × (self.new ≡ self.old)) }
        ensures rest { self.new ≡ record self.old { delayed = self.new.delayed } }
    {
        self.arenas.next_delayed(pile)
    }

    /// Whether the next cell of a zone comes into a new arena.
    pub fn is_full(&self, zone: ZoneNo) -> bool
        ensures { result
            ≡ ((next_place self.now.shape zone).0 == length self.now.shape.arenas) }
    {
        self.arenas.is_full(zone)
    }

    /// How many zones are made.
    pub fn zones(&self) -> u8
        ensures value { result ≡ length self.now.shape.states }
        ensures most { result ≤ ZONE_LIMIT }
    {
        self.zones.zones()
    }

    /// How many compartments are made.
    pub fn comps(&self) -> u16
        ensures value { result ≡ length self.now.shape.comps }
        ensures homes { All (λ zone. zone < length self.now.shape.states) self.now.shape.comps }
        ensures most { result ≤ COMP_LIMIT }
    {
        self.zones.comps()
    }

    /// The zone of a compartment.
    pub fn zone_of(&self, comp: CompNo) -> ZoneNo
        requires { comp.0 < length self.now.shape.comps }
        ensures value { slice_get self.now.shape.comps comp.0 ≡ Some result }
        ensures made { result < length self.now.shape.states }
    {
        self.zones.zone_of(comp)
    }

    /// The state of a zone.
    pub fn state(&self, zone: ZoneNo) -> State
        requires { zone < length self.now.shape.states }
        ensures { slice_get self.now.shape.states zone ≡ Some result }
    {
        self.zones.state(zone)
    }

    /// The zones that are in a state.
    pub fn in_state(&self, state: State) -> ZoneSet
        ensures { (z : ℕ) → HasZone result.bits z
            ↔ (slice_get self.now.shape.states z ≡ Some state) }
    {
        self.zones.in_state(state)
    }

    /// The zones that are marking.
    pub fn marking(&self) -> ZoneSet
        ensures { (z : ℕ) → HasZone result.bits z
            ↔ IsSomeAnd (slice_get self.now.shape.states z) IsMarking }
    {
        self.zones.marking()
    }

    /// The zones that are being prepared.
    #[inline(always)]
    pub fn preparing(&self) -> ZoneSet
        ensures { (z : ℕ) → HasZone result.bits z
            ↔ (slice_get self.now.shape.states z ≡ Some AState.Prepare) }
    {
        self.zones.preparing()
    }

    /// Whether a zone is being prepared.
    #[inline(always)]
    pub fn is_prepared(&self, zone: ZoneNo) -> bool
        ensures { result ≡ is_prepared self.now.shape zone }
    {
        self.preparing().contains(zone)
    }

    /// Whether some zone is being prepared.
    #[inline(always)]
    pub fn is_preparing(&self) -> bool
        ensures { MatchBool result ((z : ℕ) × (is_prepared self.now.shape z ≡ true))
            ((z : ℕ) → is_prepared self.now.shape z ≡ false) }
    {
        let zones = self.preparing();
        zones.first().is_some()
    }

    /// Takes these zones, which are made, out of the collection, whatever their states are.
    pub fn stop(&mut self, zones: ZoneSet)
        requires { (z : ℕ) → HasZone zones.bits z → z < length self.old.shape.states }
        ensures rest { self.new ≡ record self.old {
          shape = record self.old.shape { states = self.new.shape.states };
        } }
        ensures stopped { (z : ℕ) → HasZone zones.bits z
            → slice_get self.new.shape.states z ≡ Some AState.NoGC }
        ensures others { (z : ℕ) → (HasZone zones.bits z → ⊥)
            → slice_get self.new.shape.states z ≡ slice_get self.old.shape.states z }
        ensures count { length self.new.shape.states ≡ length self.old.shape.states }
    {
        self.zones.stop(zones);
    }

    /// Nothing waits for marking any more: no place is buffered, no weak entry is to be looked at, and no cell is
    /// delayed. It takes no memory, and one step for each that waited.
    pub fn forget_waiting(&mut self)
        ensures rest { self.new ≡ record self.old {
          buffers = replicate 64 [];
          looks = self.new.looks;
          delayed = no_places;
        } }
        ensures none { (colour : MarkColour) → NoneLeft colour self.new.looks }
        ensures parallel { AreParallel (weak_of self.new) }
    {
        self.roots.clear();
        self.weak.forget();
        self.forget_delayed(Pile::Black);
        self.forget_delayed(Pile::Gray);
        self.forget_delayed(Pile::Wake);
    }

    // No cell is delayed for a pile any more.
    fn forget_delayed(&mut self, pile: Pile)
        ensures rest { self.new ≡ record self.old { delayed = self.new.delayed } }
        ensures none { pile_of self.new.delayed pile ≡ [] }
        ensures others { (other : APile) → other ≢ pile
            → pile_of self.new.delayed other ≡ pile_of self.old.delayed other }
    {
        while self.next_delayed(pile).is_some() {}
    }

    /// Takes a zone on to the state that follows its own.
    pub fn advance(&mut self, zone: ZoneNo)
        requires { zone < length self.old.shape.states }
        ensures { IsSomeAnd (slice_get self.old.shape.states zone)
            (λ s. self.new ≡ record self.old {
              shape = record self.old.shape {
                states = slice_set self.old.shape.states zone (next_state s);
              };
            }) }
    {
        self.zones.advance(zone);
    }

    /// The place of the wrapper of a target in a compartment, if there is one.
    pub fn find_wrapper(&self, comp: CompNo, target: u64) -> Option<Place>
        ensures { result ≡ place_of self.now.shape.wrappers comp.0 target }
    {
        self.wrappers.find(comp, target)
    }

    /// The next wrapper of a zone, by a cursor that begins at 0; see `Wrappers::next_of`.
    pub fn next_of(&self, zone: ZoneNo, cursor: &mut u64) -> Option<Place>
        ensures place { result ≡ option_map (λ entry. entry.1)
            (slice_get (list_of self.now.shape.wrappers zone) cursor.old) }
        ensures cursor { cursor.new ≡ (if is_some result then cursor.old + 1 else cursor.old) }
        ensures apart { AreApart self.now.shape.wrappers.lists }
    {
        self.wrappers.next_of(zone, cursor)
    }

    /// No wrapper stands twice in the wrapper maps. It does nothing.
    pub fn wrappers_law(&self)
        ensures { AreApart self.now.shape.wrappers.lists }
    {
        self.wrappers.apart_law();
    }

    /// The zones in which the targets of a zone's wrappers lie, and perhaps others: those in which the
    /// target of a wrapper of the zone ever lay, and none when it has no wrapper (our choice). It looks
    /// at no wrapper.
    pub fn target_zones(&self, zone: ZoneNo) -> ZoneSet
        ensures targets { (p target : APlace) → IsListedWrapper self.now.shape zone p target
            → HasZone result.bits (zone_of self.now.shape target) }
        ensures apart { AreApart self.now.shape.wrappers.lists }
    {
        if self.wrappers.has_none(zone) {
            ZoneSet::new()
        } else {
            self.target_zones.of(zone)
        }
    }

    /// Puts the cells of gray slots and the gray wrappers into the buffers of the zones that they
    /// are given with. All memory is taken before anything is put in.
    pub fn buffer_gray(
        &mut self,
        slots: &[(ZoneNo, Place)],
        wrappers: &[(ZoneNo, Place)],
    ) -> Result<(), NoMemory>
        requires few { sum_by length self.old.buffers + (length slots.now + length wrappers.now)
            < 2 ^ 63 }
        ensures ok { OnOk result (self.new ≡ record self.old {
          buffers = put_all (put_all self.old.buffers slots.now) wrappers.now;
        }) }
        ensures zones { OnOk result ((z : ℕ) → z < 64 → buffer_at self.new.buffers z
            ≡ buffer_at self.old.buffers z ++ (places_in z slots.now ++ places_in z wrappers.now)) }
        ensures sized { length self.new.buffers ≡ 64 }
        ensures err { OnErr result (self.new ≡ self.old) }
    {
        self.roots.buffer_gray(slots, wrappers)
    }

    /// Takes a place out of a zone's buffer.
    pub fn next_buffered(&mut self, zone: ZoneNo) -> Option<Place>
        ensures some { IfSome result (λ place. self.old
            ≡ record self.new { buffers = put_at self.new.buffers zone place }) }
        ensures count { IfSome result (λ _. sum_by length self.old.buffers
            ≡ sum_by length self.new.buffers + 1) }
        ensures none { IfNone result ((buffer_at self.old.buffers zone ≡ [])
            × (self.new ≡ self.old)) }
    {
        self.roots.next_buffered(zone)
    }

    /// How many places wait for gray marking, for all zones together.
    pub fn waiting_count(&self) -> usize
        ensures { result ≡ sum_by length self.now.buffers }
    {
        self.roots.waiting_count()
    }

    /// The zones whose buffers hold something.
    pub fn waiting(&self) -> ZoneSet
        ensures waiting { (z : ℕ) → HasZone result.bits z ↔ (buffer_at self.now.buffers z ≢ []) }
        ensures idle { (z : ℕ) → (HasZone result.bits z → ⊥)
            → buffer_at self.now.buffers z ≡ [] }
        ensures few { sum_by length self.now.buffers < 2 ^ 63 }
    {
        self.roots.waiting()
    }

    /// The slots of an arena at which cells stand.
    pub fn alloc_word(&self, arena: u32) -> u64
        requires { arena < length self.now.shape.arenas }
        ensures { option_map (λ a. alloc_word_of a.slots)
            (slice_get self.now.shape.arenas arena) ≡ Some result }
    {
        self.arenas.alloc_word(arena)
    }

    /// All cells of an arena that is not handed to sweeping turn black.
    pub fn blacken_arena(&mut self, arena: u32)
        requires made { arena < length self.old.shape.arenas }
        requires kept { out_of self.old.shape arena ≡ None }
        ensures { IsSomeAnd (slice_get self.old.shape.arenas arena) (λ a.
            IsSomeAnd (slice_get self.old.colours arena) (λ bits.
            self.new ≡ record self.old {
              colours = slice_set self.old.colours arena (record { black = alloc_word_of a.slots; gob = bits.gob });
            })) }
    {
        let black = self.arenas.alloc_word(arena);
        let gob = self.arenas.bits(arena).gob;
        self.arenas.set_bits(arena, Bits { black, gob });
    }

    /// Hands all arenas of these zones to sweeping: their white cells are not present any more.
    pub fn hand_out(&mut self, alloc: Global, zones: ZoneSet) -> Result<Jobs, NoMemory>
        requires { AreKept zones.bits self.old.shape }
        ensures jobs { IfOk result
            (λ jobs. jobs ≡ jobs_of zones.bits 0 self.old.shape.arenas self.old.colours) }
        ensures ok { OnOk result (self.new ≡ with_handed self.old zones.bits) }
        ensures stored { (p : APlace) → stored_at self.new.shape p ≡ stored_at self.old.shape p }
        ensures err { OnErr result (self.new ≡ self.old) }
    {
        self.arenas.hand_out(alloc, zones)
    }

    /// Takes an arena back from sweeping, without its freed cells, whose names, in slot order, are put
    /// in the place of those of a list. It takes no memory.
    pub fn take_in(&mut self, arena: u32, freed: u64, bits: Bits, names: &mut Names64)
        requires out { is_some (out_of self.old.shape arena) ≡ true }
        requires within { IsSomeAnd (slice_get self.old.shape.arenas arena)
            (λ a. IsWithin freed (alloc_word_of a.slots)) }
        ensures names { IsSomeAnd (slice_get self.old.shape.arenas arena)
            (λ a. names.new ≡ names_of (at_bits freed a.slots)) }
        ensures state { self.new ≡ with_taken self.old arena freed bits }
        ensures stored { (p : APlace) → stored_at self.new.shape p
            ≡ (if (p.0 == arena) && (bit_at freed p.1 == 1) then None
            else stored_at self.old.shape p) }
    {
        self.arenas.take_in(arena, freed, bits, names)
    }

    /// How many weak entries there are.
    pub fn entries(&self) -> u64
        ensures count { result ≡ length self.now.shape.weak.entries }
        ensures few { result ≤ 4294967295 }
        ensures parallel { AreParallel (weak_of self.now) }
    {
        self.weak.count()
    }

    /// Drops the wrappers of these zones, and the weak entries, that name a cell which is not
    /// present any more; weak slots that name one become empty, and it is watched no longer. The other
    /// entries are to be looked at as they were. It walks the wrapper maps of these zones and the watched
    /// cells, and looks at the entries alone whose map or key is white in these jobs: where the value of
    /// an entry is dead, so is its map or its key. It takes no memory.
    pub fn drop_dead(&mut self, zones: ZoneSet, jobs: &[Job])
        requires absent { AreAbsent jobs.now self.old.shape }
        requires owners { HaveWhiteOwners jobs.now self.old.shape }
        ensures rest { self.new ≡ record self.old {
          shape = record self.old.shape {
            wrappers = self.new.shape.wrappers;
            weak = self.new.shape.weak;
          };
          looks = self.new.looks;
          weak_names = without_dead_names (is_absent self.old.shape) self.old.weak_names;
        } }
        ensures wrappers { (z : ℕ) → list_of self.new.shape.wrappers z
            ≡ without_dead (bit_at zones.bits z) (is_absent self.old.shape)
            (list_of self.old.shape.wrappers z) }
        ensures entries { IsWithoutDead (is_absent self.old.shape) self.old.shape.weak
            self.new.shape.weak }
        ensures fewer { length self.new.shape.weak.entries
            ≤ length self.old.shape.weak.entries }
        ensures rows { KeepsRows self.old.shape.weak self.new.shape.weak }
        ensures carries { Carries (weak_of self.old) (weak_of self.new) }
        ensures parallel { AreParallel (weak_of self.new) }
        ensures sound { AreEntries self.new.shape.weak }
        ensures apart { AreApart self.old.shape.wrappers.lists }
    {
        let arenas = &self.arenas;
        self.wrappers
            .drop_dead(zones, |place: Place| is_dead(arenas, place));
        drop_entries(&mut self.weak, jobs);
        self.weak_refs
            .drop_dead(|place: Place| is_dead(arenas, place));
    }

    /// How many cells there are, those included that are not swept yet.
    pub fn count(&self) -> u64
        ensures { result ≡ held_in_all self.now.shape.arenas }
    {
        self.arenas.count()
    }

    // Makes the next zone.
    pub(crate) fn add_zone(&mut self) -> Result<ZoneNo, ZoneFault>
        ensures number { IfOk result (λ z. z ≡ length self.old.shape.states) }
        ensures made { IfOk result (λ _. self.new ≡ with_zone self.old) }
        ensures full { (result ≡ Err ZoneFault.Full)
            ↔ (length self.old.shape.states ≡ ZONE_LIMIT) }
        ensures most { length self.old.shape.states ≤ ZONE_LIMIT }
        ensures err { OnErr result (self.new ≡ self.old) }
    {
        self.zones.add_zone()
    }

    // Makes the next compartment, in a zone.
    pub(crate) fn add_comp(&mut self, zone: ZoneNo) -> Result<CompNo, CompFault>
        ensures number { IfOk result (λ c. c.0 ≡ length self.old.shape.comps) }
        ensures made { IfOk result (λ _. self.new ≡ with_comp self.old zone) }
        ensures no_zone { (result ≡ Err CompFault.NoZone)
            ↔ (length self.old.shape.states ≤ zone) }
        ensures full { (result ≡ Err CompFault.Full)
            ↔ ((zone < length self.old.shape.states)
            × (length self.old.shape.comps ≡ COMP_LIMIT)) }
        ensures most { length self.old.shape.comps ≤ COMP_LIMIT }
        ensures err { OnErr result (self.new ≡ self.old) }
    {
        self.zones.add_comp(zone)
    }

    // A register takes a cell, or becomes empty.
    pub(crate) fn set_reg(&mut self, r: Reg, v: Option<Place>)
        ensures { self.new ≡ with_reg self.old r v }
    {
        self.roots.set_reg(r, v);
    }

    // A gray slot takes a cell, or becomes empty.
    pub(crate) fn set_slot(&mut self, g: GrayNo, v: Option<Place>)
        ensures { self.new ≡ with_slot self.old g v }
    {
        self.roots.set_slot(g, v);
    }

    // A weak slot names a cell, or becomes empty.
    pub(crate) fn set_weak_slot(&mut self, q: WeakNo, v: Option<Place>)
        ensures { self.new ≡ with_weak_slot self.old q v }
    {
        self.weak_refs.weaken(q.index(), v);
    }

    // A cell is watched from now on.
    pub(crate) fn watch_cell(&mut self, place: Place) -> Result<(), NoMemory>
        ensures ok { OnOk result (self.new ≡ with_watched self.old place) }
        ensures err { OnErr result (self.new ≡ self.old) }
        ensures fresh { OnErr result (is_watched self.old place ≡ false) }
    {
        self.weak_refs.watch(place)
    }

    // A cell is watched no longer. False exactly where it was not.
    pub(crate) fn unwatch_cell(&mut self, place: Place) -> bool
        ensures was { result ≡ is_watched self.old place }
        ensures rest { self.new ≡ without_watched self.old place }
    {
        self.weak_refs.unwatch(place)
    }

    // What a field of a present cell holds.
    pub(crate) fn field(&self, place: Place, f: u8) -> Option<Place>
        requires { IsPresent self.now.shape place }
        ensures { result ≡ field_at self.now.shape place f }
    {
        self.arenas.field(place, f)
    }

    // A field of a present cell takes a present cell, or becomes null.
    pub(crate) fn set_field(&mut self, place: Place, f: u8, v: Option<Place>)
        requires field { IsSomeAnd (cell_of self.old.shape place) (λ c. f < length c.fields) }
        requires value { ForSome v (IsPresent self.old.shape) }
        requires other { option_map (λ c. c.kind) (cell_of self.old.shape place)
            ≡ Some kind.Wrapper → ⊥ }
        ensures { Writes self.old place f v self.new }
    {
        self.arenas.set_field(place, f, v);
    }

    // The number of the next object or map; it is used up.
    pub(crate) fn next_number(&mut self) -> u64
        requires { self.old.shape.objects ≤ 4294967295 }
        ensures number { result ≡ self.old.shape.objects }
        ensures used { self.new ≡ with_number self.old }
    {
        let number = self.objects;
        self.objects += 1;
        number
    }

    /// How many objects and maps were made.
    pub fn objects(&self) -> u64
        ensures { result ≡ self.now.shape.objects }
    {
        self.objects
    }

    // Makes a cell of a zone, its fields null, at the next place. It is black, unless the zone is being prepared.
    #[inline(always)]
    pub(crate) fn make_cell(
        &mut self,
        zone: ZoneNo,
        kind: Kind,
        comp: CompNo,
        name: Name,
    ) -> Result<Place, NoMemory>
        requires few { self.old.made < 4294967295 }
        requires fields { field_count kind ≤ 8 }
        requires name { name ≡ name_of kind comp (number_of name) }
        requires number { number_of name < 4294967296 }
        ensures ok { IfOk result
            (λ p. Makes self.old zone p (new_cell kind comp name) self.new) }
        ensures err { OnErr result (self.new ≡ self.old) }
    {
        let is_prepared = self.is_prepared(zone);
        let place = self.arenas.reserve_place(zone)?;
        self.arenas.put_cell(place, kind, comp, name);
        colour_at_birth(&mut self.arenas, place, is_prepared);
        Ok(place)
    }

    // Makes the wrapper of a target in a compartment of a zone, and adds it to the wrapper map.
    #[inline(always)]
    pub(crate) fn make_wrapper(
        &mut self,
        zone: ZoneNo,
        comp: CompNo,
        number: u64,
        target: Place,
    ) -> Result<Place, NoMemory>
        requires few { self.old.made < 4294967295 }
        requires number { number < 4294967296 }
        requires absent { place_of self.old.shape.wrappers comp.0 number ≡ None }
        requires one_zone { (z : ℕ) (entry : _)
            → Contains (list_of self.old.shape.wrappers z) entry
            → entry.0.comp ≡ comp.0
            → z ≡ zone }
        requires target { IsPresent self.old.shape target }
        ensures ok { IfOk result
            (λ p. MakesWrapper self.old zone comp number target p self.new) }
        ensures err { OnErr result (self.new ≡ self.old) }
    {
        let is_prepared = self.is_prepared(zone);
        let place = self.arenas.reserve_place(zone)?;
        self.wrappers.add(zone, comp, number, place)?;
        note_target(&self.arenas, &mut self.target_zones, zone, target);
        self.arenas
            .put_cell(place, Kind::Wrapper, comp, Name::Wrap(comp, number));
        self.arenas.set_field(place, 0, Some(target));
        colour_at_birth(&mut self.arenas, place, is_prepared);
        Ok(place)
    }

    /// A weak entry, by its number; `None` past the last.
    pub fn entry(&self, index: u64) -> Option<WeakEntry>
        ensures entry { result ≡ slice_get self.now.shape.weak.entries index }
        ensures more { IfSome result (λ _. index < 18446744073709551615) }
        ensures parallel { AreParallel (weak_of self.now) }
        ensures sound { AreEntries self.now.shape.weak }
    {
        self.weak.entry(index)
    }

    /// An entry of one map, by its index in the map's list; `None` past the last.
    pub fn entries_of_map(&self, map: Place, index: u64) -> Option<WeakEntry>
        ensures entry { result ≡ slice_get (listed_of_map self.now.shape.weak map) index }
        ensures more { IfSome result (λ _. index < 18446744073709551615) }
        ensures sound { AreEntries self.now.shape.weak }
    {
        self.weak.entries_of_map(map, index)
    }

    /// An entry of one key, by its index in the key's list; `None` past the last.
    pub fn entries_of_key(&self, key: Place, index: u64) -> Option<WeakEntry>
        ensures entry { result ≡ slice_get (listed_of_key self.now.shape.weak key) index }
        ensures more { IfSome result (λ _. index < 18446744073709551615) }
        ensures sound { AreEntries self.now.shape.weak }
    {
        self.weak.entries_of_key(key, index)
    }

    /// An entry whose key is a wrapper of this cell, by its index in the cell's list; `None` past the last.
    pub fn entries_of_delegate(&self, target: Place, index: u64) -> Option<WeakEntry>
        ensures entry { result ≡ slice_get (listed_of_delegate self.now.shape.weak target) index }
        ensures more { IfSome result (λ _. index < 18446744073709551615) }
        ensures sound { AreEntries self.now.shape.weak }
    {
        self.weak.entries_of_delegate(target, index)
    }

    /// The map of an entry of a zone whose key is a wrapper, by the entry's index among these; `None` past the last.
    pub fn map_delegated_in(&self, zone: ZoneNo, index: u64) -> Option<Place>
        ensures map { result ≡ slice_get (maps_delegated_in self.now.shape.weak zone) index }
        ensures more { IfSome result (λ _. index < 18446744073709551615) }
        ensures sound { AreEntries self.now.shape.weak }
    {
        self.weak.map_delegated_in(zone, index)
    }

    /// The delegate of an entry: what its key leads to, if it is a wrapper; `None` if there is no such entry.
    #[inline(always)]
    pub fn delegate_of(&self, map: Place, key: Place) -> Option<Place>
        ensures delegate { result ≡ delegate_of self.now.shape.weak map key }
        ensures sound { AreEntries self.now.shape.weak }
    {
        self.weak.delegate_of(map, key)
    }

    /// Whether the key of some entry is a wrapper.
    #[inline(always)]
    pub fn has_delegates(&self) -> bool
        ensures { IsTrue result ↔ (self.now.shape.weak.delegates.rows ≢ []) }
    {
        self.weak.has_delegates()
    }

    // What a present key leads to, if it is a wrapper, and the key's zone.
    #[inline(always)]
    fn delegate_of_key(&self, key: Place) -> Option<Delegate>
        requires { IsPresent self.now.shape key }
        ensures { result ≡ delegate_of_key self.now.shape key }
    {
        match self.kind(key) {
            Kind::Wrapper => {
                let target = self.field(key, 0)?;
                Some(Delegate {
                    target,
                    zone: self.zone_at(key),
                })
            }
            Kind::Object(_) | Kind::Map => None,
        }
    }

    // The value of a key in a map.
    pub(crate) fn find_entry(&self, map: Place, key: Place) -> Option<Place>
        ensures { result ≡ value_of self.now.shape.weak map key }
    {
        self.weak.find(map, key)
    }

    /// Marking has followed a cell in a colour: the weak entries of which it is the map or the key, or whose
    /// key is a wrapper of it, are still to be looked at for it, in that colour, or in black where some of them
    /// are so already. It takes no memory.
    #[inline(always)]
    pub fn start(&mut self, colour: MarkColour, place: Place)
        ensures rest { self.new ≡ record self.old { looks = self.new.looks } }
        ensures map { Starts (λ (entry : AnEntry). entry.map) colour place self.old.shape.weak.entries
            self.old.looks.by_map self.new.looks.by_map }
        ensures key { Starts (λ (entry : AnEntry). entry.key) colour place self.old.shape.weak.entries
            self.old.looks.by_key self.new.looks.by_key }
        ensures delegate { Starts (λ (row : DelegateRow). row.target) colour place
            self.old.shape.weak.delegates.rows self.old.looks.by_delegate self.new.looks.by_delegate }
        ensures parallel { AreParallel (weak_of self.new) }
        ensures sound { AreEntries self.new.shape.weak }
    {
        self.weak.start(colour, place);
    }

    /// The weak entries of a map are still to be looked at for it in a colour, or in black where some of them
    /// are so already. It takes no memory.
    pub fn start_map(&mut self, colour: MarkColour, map: Place)
        ensures rest { self.new ≡ record self.old {
          looks = record self.old.looks { by_map = self.new.looks.by_map };
        } }
        ensures map { Starts (λ (entry : AnEntry). entry.map) colour map self.old.shape.weak.entries
            self.old.looks.by_map self.new.looks.by_map }
        ensures parallel { AreParallel (weak_of self.new) }
        ensures sound { AreEntries self.new.shape.weak }
    {
        self.weak.start_map(colour, map);
    }

    /// Takes the next weak entry that is still to be looked at in a colour, for its map, for its key or for its
    /// delegate; `None` exactly where nothing is left in that colour. It takes no memory.
    pub fn next_left(&mut self, colour: MarkColour) -> Option<WeakEntry>
        ensures rest { self.new ≡ record self.old { looks = self.new.looks } }
        ensures some { IfSome result (λ entry. HasLooked colour entry
            self.old.shape.weak self.old.looks self.new.looks) }
        ensures none { IfNone result ((self.new ≡ self.old) × NoneLeft colour self.old.looks) }
        ensures parallel { AreParallel (weak_of self.new) }
        ensures sound { AreEntries self.new.shape.weak }
    {
        self.weak.next_left(colour)
    }

    // Gives a value to a present key of a map.
    #[inline(always)]
    pub(crate) fn put_entry(&mut self, map: Place, key: Place, value: Place) -> Result<(), NoMemory>
        requires { IsPresent self.old.shape key }
        ensures put { OnOk result (IsWith self.old map key value self.new) }
        ensures err { OnErr result (self.new ≡ self.old) }
        ensures wanted { OnErr result (value_of self.old.shape.weak map key ≡ None) }
    {
        let delegate = self.delegate_of_key(key);
        self.weak.put(WeakEntry { map, key, value }, delegate)?;
        Ok(())
    }

    // Takes the entry of a key out of a map, and answers the value that was there.
    pub(crate) fn del_entry(&mut self, map: Place, key: Place) -> Option<Place>
        ensures old { result ≡ value_of self.old.shape.weak map key }
        ensures del { IsWithout self.old map key self.new }
    {
        self.weak.del(map, key)
    }
}

// Notes the zone in which the target of a wrapper lies for the wrapper's zone.
fn note_target(arenas: &Arenas, target_zones: &mut TargetZones, zone: ZoneNo, target: Place)
    requires { IsSome (cell_at arenas.now.arenas target) }
    ensures noted { (to : ℕ) × (owner_in arenas.now.arenas target.0 ≡ Some to)
        × IsNoted target_zones.new zone to }
    ensures kept { (a b : ℕ) → IsNoted target_zones.old a b → IsNoted target_zones.new a b }
{
    target_zones.note(zone, arenas.zone_at(target));
}

// A new cell of an arena that is not out is black, unless its zone is being prepared: then its bits stay clear.
fn colour_at_birth(arenas: &mut Arenas, place: Place, is_prepared: bool)
    requires kept { IsSomeAnd (slice_get arenas.old.arenas place.0) (λ a. a.is_out ≡ false) }
    ensures { ColoursAtBirth is_prepared arenas.old place arenas.new }
{
    if is_prepared {
        return;
    }
    let mut bits = arenas.bits(place.arena());
    bits.mark_black(place.slot());
    arenas.set_bits(place.arena(), bits);
}

// Drops the weak entries whose map or key is white in these jobs.
fn drop_entries(weak: &mut WeakMaps, jobs: &[Job])
    ensures dropped { AreWithout (IsWhiteIn jobs.now) weak.old.table weak.new.table }
    ensures was { AreEntries weak.old.table }
    ensures fewer { length weak.new.table.entries ≤ length weak.old.table.entries }
    ensures rows { KeepsRows weak.old.table weak.new.table }
    ensures carries { Carries weak.old weak.new }
    ensures parallel { AreParallel weak.new }
    ensures sound { AreEntries weak.new.table }
{
    if weak.count() == 0 {
        return;
    }
    // From the last arena on: entries are mostly put in the order of their cells, and if the last of the table goes, no
    // other takes its number.
    for index in (0..jobs.len()).rev() {
        drop_white(weak, jobs[index]);
    }
}

// Drops the weak entries whose map or key is white in a job.
fn drop_white(weak: &mut WeakMaps, job: Job)
    ensures dropped { AreWithout (IsWhiteAt job) weak.old.table weak.new.table }
    ensures fewer { length weak.new.table.entries ≤ length weak.old.table.entries }
    ensures rows { KeepsRows weak.old.table weak.new.table }
    ensures carries { Carries weak.old weak.new }
    ensures parallel { AreParallel weak.new }
    ensures sound { AreEntries weak.new.table }
{
    weak.drop_entries_in(job.arena, job.bits.white_mask(job.alloc_word));
}

// Whether no present cell is at a place.
fn is_dead(arenas: &Arenas, place: Place) -> bool
    ensures { result ≡ is_absent_in arenas.now.arenas place }
{
    if holds_cell(arenas, place) {
        is_lost(arenas, place)
    } else {
        true
    }
}

// Whether a cell lies at a place, present or not.
fn holds_cell(arenas: &Arenas, place: Place) -> bool
    ensures cell { result ≡ is_some (cell_at arenas.now.arenas place) }
    ensures made { result ≡ true → place.0 < length arenas.now.arenas }
{
    place.arena() < arenas.arenas() && (arenas.alloc_word(place.arena()) >> place.slot()) & 1 == 1
}

// Whether a slot was white as its arena was handed to sweeping.
fn is_lost(arenas: &Arenas, place: Place) -> bool
    requires { place.0 < length arenas.now.arenas }
    ensures { result ≡ is_lost_in (slice_get arenas.now.arenas place.0) place.1 }
{
    let arena = place.arena();
    let is_out = arenas.is_out(arena);
    let is_white = white_slot(arenas.bits(arena), place.slot());
    is_out & is_white
}

// Whether a slot is white.
fn white_slot(bits: Bits, slot: u8) -> bool
    requires { slot < 64 }
    ensures { result ≡ is_white bits slot }
{
    bits.colour(slot) == Colour::White
}
