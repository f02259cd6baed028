// The arenas of all zones.
ghost use Rattle.std.specs.Prelude.{◌≡◌, ◌≢◌, ◌≤◌, ◌<◌, ◌+◌, ◌*◌, ◌==◌, ◌&&◌, ◌∷◌, [], ℕ, Bool, true, false, IsSome};
ghost use Rattle.std.specs.Prelude.{IsSomeAnd, Some, None, Contains, length, replicate, slice_get, slice_set, IfOk};
ghost use Rattle.std.specs.Prelude.{◌^◌, ◌↔◌, All, IsTrue, OnOk, OnErr};
ghost use Rattle.std.specs.Prelude.{IfSome, IfNone, MatchBool, is_some, if◌then◌else◌};
ghost use Rattle.std.specs.Int.{bit_at};
ghost use Rattle.std.specs.Option.{ForSome, option_map};
ghost use Rattle.gz_names.specs.Order.{number_of};
ghost use Rattle.gz_names.specs.declared.numbers.Place.{Place};
ghost use Rattle.arena_table.specs.Cells.{field_count, field_of, name_of, state_of, with_value};
ghost use Rattle.arena_table.specs.Slots.{Arena, IsWithin, alloc_word_of, at_bits, bit_of, cell_at, change_at};
ghost use Rattle.arena_table.specs.Slots.{handed_out, held_by, is_out_at, names_of, taken_in, with_bits, with_cell};
ghost use Rattle.arena_table.specs.Slots.{no_zone, with_field};
ghost use Rattle.arena_table.specs.Sets.{arena_bit};
ghost use Rattle.arena_table.specs.Indexed.{IsIndexed, IsOwnedBy, is_among, is_open, is_owned, words_at};
ghost use Rattle.arena_table.specs.Placement.{place_for};
ghost use Rattle.arena_table.specs.Moving.{AreEmptyFrom, GoInside, MayMove, MovesCells, all_forwarded, count_from};
ghost use Rattle.arena_table.specs.Moving.{forwarded, forwarded_at, given_up_from, in_zone, owner_of};
ghost use Rattle.arena_table.specs.Delayed.{AreCovered, IsAsRoomy, delayed_of};
ghost use Rattle.mark_stack.specs.Stack.{IsPushed, no_places, pile_of};
ghost use Rattle.arena_table.specs.Table.{AreIn, AreOut, HasRoom, IsEmptyIfGivenUp, grown_to, new_cell, in_these};
ghost use Rattle.arena_table.specs.Table.{jobs_from, no_bits};
ghost use Rattle.arena_table.specs.Table.{put_at, is_place};

use crate::arena_sets::ArenaSet;
use crate::cells::{ARENA_LIMIT, Cell};
use crate::delayed::Delayed;
use crate::index::Index;
use crate::store::{Store, marked};
use crate::walk::Walk;
use cell_bits::{Bits, Job};
use gz_names::{CompNo, Kind, Move, Moves, Name, Names64, NoMemory, Place, ZoneNo, ZoneSet};
use mark_stack::Pile;
use std::alloc::{AllocError, Global};
use std::marker::Model;

// The most jobs for which memory is taken before they are listed.
const JOBS_AHEAD: usize = 256;

/// A place that is kept for a cell of a zone.
#[derive(Clone, Copy, Debug, PartialEq, Eq)]
pub struct Reserved {
    pub zone: ZoneNo,
    pub place: Place,
}

/// What is handed to sweeping.
#[derive(Drop)]
pub struct Jobs {
    jobs: Vec<Job>,
}

impl Model for Jobs {
    ghost use Rattle.std.specs.Prelude.{List};
    ghost use Rattle.cell_bits.specs.declared.jobs.Job.{Job as AJob};

    ghost Value = { List AJob };

    ghost view = { λ j. j.jobs.items };
}

impl Jobs {
    pub fn as_slice(&self) -> &[Job]
        ensures { result.now ≡ self.now }
    {
        self.jobs.as_slice()
    }

    /// The jobs as a vector. It takes no memory.
    pub fn into_vec(self) -> Vec<Job>
        ensures { result.items ≡ self }
    {
        self.jobs
    }
}

/// The arenas of all zones, and their cells.
#[derive(Drop)]
pub struct Arenas {
    store: Store,
    index: Index,
    // Those that are handed to sweeping.
    out: ArenaSet,
    delayed: Delayed,
    made: u64,
    held: u64,
    reserved: Option<Reserved>,
}

impl Model for Arenas {
    ghost use Rattle.arena_table.specs.Delayed.{delayed_of};
    ghost use Rattle.arena_table.specs.Table.{ArenasState, AreArenas};

    ghost Value = { ArenasState };

    ghost view = { λ a. record {
      arenas = a.store.arenas;
      made = a.made;
      reserved = a.reserved;
      delayed = delayed_of a.delayed;
    } };

    ghost invariant = { λ a. AreArenas a.store a.index a.out a.delayed a.made a.held a.reserved };
}

impl Arenas {
    ghost use Rattle.arena_table.specs.Table.{ArenasState};

    /// No arenas.
    pub fn new(alloc: Global) -> Result<Self, NoMemory>
        ensures { IfOk result
            (λ arenas. arenas
            ≡ record { arenas = []; made = 0; reserved = None; delayed = no_places }) }
    {
        let index = Index::new(alloc)?;
        Ok(Arenas {
            store: Store::new(alloc),
            index,
            out: ArenaSet::new(alloc),
            delayed: Delayed::new(alloc),
            made: 0,
            held: 0,
            reserved: None,
        })
    }

    /// The place of the next cell of a zone: in its lowest arena that is not handed to sweeping and
    /// has a free slot, at its lowest free slot; else at slot 0 of a new arena. It takes the memory
    /// for it, so that `put_cell` takes none.
    pub fn reserve_place(&mut self, zone: ZoneNo) -> Result<Place, NoMemory>
        requires { self.old.made < 4294967295 }
        ensures place { IfOk result (λ place. place ≡ place_for self.old.arenas zone) }
        ensures free { IfOk result (λ place. cell_at self.old.arenas place ≡ None) }
        ensures kept { IfOk result (λ place. self.new ≡ record self.old {
          reserved = Some (record { zone = zone; place = place });
        }) }
        ensures err { OnErr result (self.new ≡ self.old) }
    {
        let place = match find_place(&self.store, &self.index, zone) {
            Some(place) => place,
            None => make_room(
                &mut self.store,
                &mut self.index,
                &mut self.out,
                &mut self.delayed,
                zone,
            )?,
        };
        self.reserved = Some(Reserved { zone, place });
        Ok(place)
    }

    /// Whether all arenas of a zone that are not handed to sweeping are full, so that its next cell
    /// comes into a new arena.
    pub fn is_full(&self, zone: ZoneNo) -> bool
        ensures { result ≡ ((place_for self.now.arenas zone).0 == length self.now.arenas) }
    {
        match find_place(&self.store, &self.index, zone) {
            Some(_) => false,
            None => true,
        }
    }

    /// Puts a cell, its fields null, at the place that is kept. Its name tells no more than its kind, its
    /// compartment and a number.
    pub fn put_cell(&mut self, place: Place, kind: Kind, comp: CompNo, name: Name)
        requires reserved { option_map (λ r. r.place) self.old.reserved ≡ Some place }
        requires fields { field_count kind ≤ 8 }
        requires name { name ≡ name_of kind comp (number_of name) }
        requires number { number_of name < 4294967296 }
        ensures put { IfSome self.old.reserved (λ r. self.new ≡ record self.old {
          arenas = put_at self.old.arenas r.zone place (new_cell kind comp name);
          made = self.old.made + 1;
          reserved = None;
        }) }
        ensures cells { (p : Place) → cell_at self.new.arenas p ≡ (if is_place p place
            then Some (new_cell kind comp name) else cell_at self.old.arenas p) }
    {
        if let Some(reserved) = self.reserved {
            let cell = Cell::new(kind, comp, name);
            put_in_zone(&mut self.store, &mut self.index, reserved.zone, place, cell);
            self.made += 1;
            self.held += 1;
            self.reserved = None;
        }
    }

    pub fn kind(&self, place: Place) -> Kind
        requires { IsSome (cell_at self.now.arenas place) }
        ensures { option_map (λ c. c.kind) (cell_at self.now.arenas place) ≡ Some result }
    {
        self.store.cell(place).kind
    }

    pub fn comp(&self, place: Place) -> CompNo
        requires { IsSome (cell_at self.now.arenas place) }
        ensures { option_map (λ c. c.comp) (cell_at self.now.arenas place) ≡ Some result }
    {
        self.store.cell(place).comp
    }

    pub fn name(&self, place: Place) -> Name
        requires { IsSome (cell_at self.now.arenas place) }
        ensures value { option_map (λ c. c.name) (cell_at self.now.arenas place) ≡ Some result }
        ensures few { number_of result < 4294967296 }
    {
        self.store.cell(place).name()
    }

    /// What a field of a cell holds; `None` also past its fields.
    pub fn field(&self, place: Place, f: u8) -> Option<Place>
        requires { IsSome (cell_at self.now.arenas place) }
        ensures { option_map (λ c. field_of c f) (cell_at self.now.arenas place) ≡ Some result }
    {
        self.store.cell(place).field(f)
    }

    /// How many fields a cell has.
    pub fn field_count(&self, place: Place) -> u8
        requires { IsSome (cell_at self.now.arenas place) }
        ensures count { option_map (λ c. length c.fields) (cell_at self.now.arenas place)
            ≡ Some result }
        ensures most { result ≤ 8 }
    {
        self.store.cell(place).field_count()
    }

    /// A field of a cell takes a value.
    pub fn set_field(&mut self, place: Place, f: u8, v: Option<Place>)
        requires field { IsSomeAnd (cell_at self.old.arenas place) (λ c. f < length c.fields) }
        requires value { ForSome v (λ p. p.0 < length self.old.arenas) }
        ensures state { self.new ≡ record self.old {
          arenas = change_at (with_field place.1 f v) self.old.arenas place.0;
        } }
        ensures cells { (p : Place) → cell_at self.new.arenas p ≡ (if is_place p place
            then option_map (with_value f v) (cell_at self.old.arenas p)
            else cell_at self.old.arenas p) }
    {
        self.store.set_field(place, f, v);
    }

    /// Has the memory of a cell fetched that is soon read. It waits for nothing and changes nothing: the
    /// processor keeps the write back until the memory is there, and goes on.
    #[inline(always)]
    pub fn fetch(&mut self, place: Place)
        requires { place.0 < length self.old.arenas }
        ensures { self.new ≡ self.old }
    {
        self.store.fetch(place);
    }

    /// The mark bits of an arena.
    pub fn bits(&self, arena: u32) -> Bits
        requires { arena < length self.now.arenas }
        ensures { option_map (λ a. a.bits) (slice_get self.now.arenas arena) ≡ Some result }
    {
        self.store.head(arena as usize).bits
    }

    /// An arena that is not handed to sweeping takes mark bits.
    pub fn set_bits(&mut self, arena: u32, bits: Bits)
        requires { IsSomeAnd (slice_get self.old.arenas arena) (λ a. a.is_out ≡ false) }
        ensures { self.new ≡ record self.old {
          arenas = change_at (with_bits bits) self.old.arenas arena;
        } }
    {
        self.store.set_bits(arena as usize, bits);
    }

    /// Hands all arenas of these zones to sweeping: their bits are in flight from now on, and they
    /// take no cells. It walks the arenas of these zones alone.
    pub fn hand_out(&mut self, alloc: Global, zones: ZoneSet) -> Result<Jobs, NoMemory>
        requires { AreIn zones.bits self.old.arenas }
        ensures jobs { IfOk result (λ jobs. jobs ≡ jobs_from zones.bits 0 self.old.arenas) }
        ensures ok { OnOk result (self.new ≡ record self.old {
          arenas = in_these handed_out zones.bits self.old.arenas;
          reserved = None;
        }) }
        ensures cells { (p : Place)
            → cell_at self.new.arenas p ≡ cell_at self.old.arenas p }
        ensures err { OnErr result (self.new ≡ self.old) }
    {
        let jobs = jobs_in_zones(alloc, &self.store, &self.index, zones)?;
        send_out(&mut self.store, &self.index, &mut self.out, zones);
        self.index.close_all(zones);
        self.reserved = None;
        Ok(Jobs { jobs })
    }

    /// Whether an arena is handed to sweeping.
    pub fn is_out(&self, arena: u32) -> bool
        ensures { result ≡ is_out_at self.now.arenas arena }
    {
        let arena = arena as usize;
        if arena < self.store.len() {
            self.store.head(arena).is_out
        } else {
            false
        }
    }

    /// Whether the arena of a place, which was made, is handed to sweeping.
    pub fn is_place_out(&self, place: Place) -> bool
        requires { place.0 < length self.now.arenas }
        ensures { result ≡ is_out_at self.now.arenas place.0 }
    {
        self.store.head(place.arena() as usize).is_out
    }

    /// The lowest arena that is handed to sweeping. It walks over no arenas.
    pub fn first_out(&self) -> Option<u32>
        ensures out { IfSome result (λ arena. is_out_at self.now.arenas arena ≡ true) }
        ensures lowest { IfSome result
            (λ arena. (other : ℕ) → other < arena → is_out_at self.now.arenas other ≡ false) }
        ensures none { IfNone result ((other : ℕ) → is_out_at self.now.arenas other ≡ false) }
    {
        let arena = self.out.lowest()?;
        Some(arena as u32)
    }

    /// The lowest arena of these zones from a number on. It walks over no arenas of other zones.
    pub fn next_in(&self, zones: ZoneSet, from: u32) -> Option<u32>
        ensures among { IfSome result (λ arena. (from ≤ arena)
            × (is_among zones.bits (slice_get self.now.arenas arena) ≡ true)) }
        ensures lowest { IfSome result (λ arena. (other : ℕ) → from ≤ other → other < arena
            → is_among zones.bits (slice_get self.now.arenas other) ≡ false) }
        ensures none { IfNone result ((other : ℕ) → from ≤ other
            → is_among zones.bits (slice_get self.now.arenas other) ≡ false) }
    {
        next_among(&self.store, &self.index, zones, from)
    }

    /// Takes an arena back from sweeping: its bits are the heap's again, the freed cells are gone,
    /// and it takes cells if a slot is free. The names of the freed cells, in slot order, are put in
    /// the place of those of a list. It takes no memory.
    pub fn take_in(&mut self, arena: u32, freed: u64, bits: Bits, names: &mut Names64)
        requires out { IsSomeAnd (slice_get self.old.arenas arena) (λ a. a.is_out ≡ true) }
        requires within { IsSomeAnd (slice_get self.old.arenas arena)
            (λ a. IsWithin freed (alloc_word_of a.slots)) }
        ensures names { IsSomeAnd (slice_get self.old.arenas arena)
            (λ a. names.new ≡ names_of (at_bits freed a.slots)) }
        ensures state { self.new ≡ record self.old {
          arenas = change_at (taken_in freed bits) self.old.arenas arena;
          reserved = None;
        } }
        ensures cells { (p : Place) → cell_at self.new.arenas p
            ≡ (if (p.0 == arena) && (bit_at freed p.1 == 1) then None
            else cell_at self.old.arenas p) }
    {
        let arena = arena as usize;
        self.store.names_at(arena, freed, names);
        come_in(&mut self.store, &mut self.index, arena, freed, bits);
        self.out.remove(arena);
        self.held -= names.len() as u64;
        self.reserved = None;
    }

    /// Cells go to free slots of arenas of their zone, with their mark bits. What leads to them leads to where
    /// they were until it is forwarded.
    pub fn move_cells(&mut self, moves: &Moves)
        requires { MayMove self.old.arenas moves.now }
        ensures moves { MovesCells self.old.arenas moves.now self.new.arenas }
        ensures rest { self.new ≡ record self.old { arenas = self.new.arenas; reserved = None } }
    {
        move_all(&mut self.store, &mut self.index, moves);
        self.reserved = None;
    }

    /// The fields of the cells of a zone lead to where their cells have gone.
    pub fn forward_in(&mut self, zone: ZoneNo, moves: &Moves)
        requires { GoInside self.old.arenas moves.now }
        ensures state { self.new ≡ record self.old {
          arenas = in_zone (all_forwarded moves.now) zone self.old.arenas;
        } }
        ensures cells { (p : Place) → cell_at self.new.arenas p
            ≡ (if is_owned zone (slice_get self.old.arenas p.0)
            then option_map (forwarded moves.now) (cell_at self.old.arenas p)
            else cell_at self.old.arenas p) }
    {
        forward_zones(&mut self.store, &self.index, ZoneSet::only(zone), moves);
    }

    /// The fields of a cell lead to where their cells have gone.
    pub fn forward(&mut self, place: Place, moves: &Moves)
        requires cell { IsSome (cell_at self.old.arenas place) }
        requires goals { GoInside self.old.arenas moves.now }
        ensures state { self.new ≡ record self.old {
          arenas = change_at (forwarded_at moves.now place.1) self.old.arenas place.0;
        } }
        ensures cells { (p : Place) → cell_at self.new.arenas p ≡ (if is_place p place
            then option_map (forwarded moves.now) (cell_at self.old.arenas p)
            else cell_at self.old.arenas p) }
    {
        self.store.forward(place, moves);
    }

    /// The arenas of a zone from a number on, in which no cell stands, are given up: no zone owns them from now
    /// on, and their numbers are not used again. Returns how many these are.
    pub fn give_up(&mut self, zone: ZoneNo, first: u32) -> u32
        requires { AreEmptyFrom self.old.arenas zone first }
        ensures count { result ≡ count_from zone first 0 self.old.arenas }
        ensures state { self.new ≡ record self.old {
          arenas = given_up_from zone first 0 self.old.arenas;
          reserved = None;
        } }
        ensures cells { (p : Place) → cell_at self.new.arenas p ≡ cell_at self.old.arenas p }
    {
        self.reserved = None;
        give_up_all(&mut self.store, &mut self.index, zone, first)
    }

    /// A cell for which a pile of the mark stack has no room is delayed for it.
    pub fn delay(&mut self, pile: Pile, place: Place)
        requires made { place.0 < length self.old.arenas }
        requires fresh { Contains (pile_of self.old.delayed pile) place → ⊥ }
        ensures more { IsPushed self.old.delayed pile place self.new.delayed }
        ensures rest { self.new ≡ record self.old { delayed = self.new.delayed } }
    {
        self.delayed.insert(pile, place);
    }

    /// Whether a cell is delayed for a pile.
    #[inline(always)]
    pub fn has_delayed(&self, pile: Pile) -> bool
        ensures { MatchBool result (pile_of self.now.delayed pile ≢ [])
            (pile_of self.now.delayed pile ≡ []) }
    {
        !self.delayed.is_empty(pile)
    }

    /// Takes a cell that is delayed for a pile; `None` exactly where none is. It costs what it finds.
    #[inline(always)]
    pub fn next_delayed(&mut self, pile: Pile) -> Option<Place>
        ensures some { IfSome result
            (λ place. IsPushed self.new.delayed pile place self.old.delayed) }
        ensures none { IfNone result
            ((pile_of self.old.delayed pile ≡ []) × (self.new ≡ self.old)) }
        ensures rest { self.new ≡ record self.old { delayed = self.new.delayed } }
    {
        self.delayed.take(pile)
    }

    /// How many cells were ever put.
    pub fn made(&self) -> u64
        ensures value { result ≡ self.now.made }
        ensures few { result ≤ 4294967295 }
    {
        self.made
    }

    /// How many cells there are.
    pub fn count(&self) -> u64
        ensures value { result ≡ held_by self.now.arenas }
        ensures few { result ≤ self.now.made }
    {
        self.held
    }

    /// How many arenas were made, those that were given up among them.
    pub fn arenas(&self) -> u32
        ensures { result ≡ length self.now.arenas }
    {
        self.store.len() as u32
    }

    /// The zone that owns an arena: none if it was not made, or was given up.
    pub fn owner(&self, arena: u32) -> Option<ZoneNo>
        ensures { result ≡ owner_of (slice_get self.now.arenas arena) }
    {
        let arena = arena as usize;
        if arena >= self.store.len() {
            return None;
        }
        let head = self.store.head(arena);
        // What stands for no zone is no zone's number.
        let _ = head.zone.index();
        if head.is_given_up {
            None
        } else {
            Some(head.zone)
        }
    }

    /// The zone of a cell.
    pub fn zone_at(&self, place: Place) -> ZoneNo
        requires { IsSome (cell_at self.now.arenas place) }
        ensures { option_map (λ a. a.zone) (slice_get self.now.arenas place.0) ≡ Some result }
    {
        self.store.head(place.arena() as usize).zone
    }

    /// The slots of an arena at which cells stand.
    pub fn alloc_word(&self, arena: u32) -> u64
        requires { arena < length self.now.arenas }
        ensures word { option_map (λ a. alloc_word_of a.slots) (slice_get self.now.arenas arena)
            ≡ Some result }
        ensures bits { (slot : ℕ) → bit_at result slot
            ≡ bit_of (is_some (cell_at self.now.arenas (arena, slot))) }
    {
        self.store.head(arena as usize).alloc_word
    }
}

// The place for a cell of a zone in the lowest arena that takes such cells.
fn find_place(store: &Store, index: &Index, zone: ZoneNo) -> Option<Place>
    requires { IsIndexed store.now.arenas index.now }
    ensures some { IfSome result (λ place. place ≡ place_for store.now.arenas zone) }
    ensures takes { IfSome result
        (λ place. is_open zone (slice_get store.now.arenas place.0) ≡ true) }
    ensures none { IfNone result (place_for store.now.arenas zone
        ≡ (length store.now.arenas, 0)) }
{
    let arena = index.lowest_open(zone)?;
    let slot = store.head(arena).alloc_word.trailing_ones();
    Place::new(arena as u32, slot as u8)
}

// Takes memory for a new arena of a zone, and answers the place of its first cell.
#[cold]
#[inline(never)]
fn make_room(
    store: &mut Store,
    index: &mut Index,
    out: &mut ArenaSet,
    delayed: &mut Delayed,
    zone: ZoneNo,
) -> Result<Place, NoMemory>
    requires { IsIndexed store.old.arenas index.old }
    ensures place { IfOk result (λ place. place ≡ (length store.old.arenas, 0)) }
    ensures room { OnOk result (HasRoom store.new index.new zone) }
    ensures arenas { store.new.arenas ≡ store.old.arenas }
    ensures indexed { IsIndexed store.new.arenas index.new }
    ensures kept { (z : ℕ) → HasRoom store.old index.old z → HasRoom store.new index.new z }
    ensures covered { OnOk result (AreCovered delayed.new (length store.old.arenas + 1)) }
    ensures covered_kept { IsAsRoomy delayed.old delayed.new }
    ensures delayed_same { delayed_of delayed.new ≡ delayed_of delayed.old }
    ensures out_room { OnOk result (length store.old.arenas < 64 * length out.new) }
    ensures out_kept { length out.old ≤ length out.new }
    ensures out_same { (a : ℕ) → arena_bit out.new a ≡ arena_bit out.old a }
{
    let arena = store.len();
    if arena >= ARENA_LIMIT as usize {
        return Err(AllocError);
    }
    store.reserve()?;
    index.cover(zone, arena + 1)?;
    out.cover(arena + 1)?;
    delayed.cover(arena + 1)?;
    Place::new(arena as u32, 0).ok_or(AllocError)
}

// A cell is put at a place of a zone, which is in an arena that takes cells or in a new one.
fn put_in_zone(store: &mut Store, index: &mut Index, zone: ZoneNo, place: Place, cell: Cell)
    requires indexed { IsIndexed store.old.arenas index.old }
    requires place { place ≡ place_for store.old.arenas zone }
    requires room { place.0 ≡ length store.old.arenas → HasRoom store.old index.old zone }
    ensures arenas { store.new.arenas ≡ put_at store.old.arenas zone place (state_of cell) }
    ensures indexed { IsIndexed store.new.arenas index.new }
{
    grow_to(store, index, zone, place.arena() as usize);
    put_in_arena(store, index, zone, place, cell);
}

// An arena of a zone is made, if the number is that of the next.
fn grow_to(store: &mut Store, index: &mut Index, zone: ZoneNo, arena: usize)
    requires indexed { IsIndexed store.old.arenas index.old }
    requires room { arena ≡ length store.old.arenas → HasRoom store.old index.old zone }
    ensures arenas { store.new.arenas ≡ grown_to store.old.arenas zone arena }
    ensures indexed { IsIndexed store.new.arenas index.new }
{
    if arena == store.len() {
        store.push(zone);
        index.add(zone, arena);
        index.open(zone, arena);
    }
}

// A cell is put into an arena of its zone that takes cells.
fn put_in_arena(store: &mut Store, index: &mut Index, zone: ZoneNo, place: Place, cell: Cell)
    requires indexed { IsIndexed store.old.arenas index.old }
    requires takes { is_open zone (slice_get store.old.arenas place.0) ≡ true }
    ensures arenas { store.new.arenas
        ≡ change_at (with_cell place.1 (state_of cell)) store.old.arenas place.0 }
    ensures indexed { IsIndexed store.new.arenas index.new }
{
    let arena = place.arena() as usize;
    store.put(place, cell);
    if store.head(arena).alloc_word == u64::MAX {
        index.close(zone, arena);
    }
}

// Whether an arena that was made and not given up is one of these zones.
#[inline(always)]
fn is_in_zones(store: &Store, zones: ZoneSet, arena: usize) -> bool
    ensures { result ≡ true → is_among zones.bits (slice_get store.now.arenas arena) ≡ true }
{
    if arena >= store.len() {
        return false;
    }
    let head = store.head(arena);
    if head.is_given_up {
        return false;
    }
    zones.contains(head.zone)
}

// The lowest arena of these zones from a number on.
#[inline(always)]
fn next_among(store: &Store, index: &Index, zones: ZoneSet, from: u32) -> Option<u32>
    requires { IsOwnedBy store.now.arenas index.now.owned }
    ensures among { IfSome result (λ arena. (from ≤ arena)
        × (is_among zones.bits (slice_get store.now.arenas arena) ≡ true)) }
    ensures lowest { IfSome result (λ arena. (other : ℕ) → from ≤ other → other < arena
        → is_among zones.bits (slice_get store.now.arenas other) ≡ false) }
    ensures none { IfNone result ((other : ℕ) → from ≤ other
        → is_among zones.bits (slice_get store.now.arenas other) ≡ false) }
    ensures fits { zones.bits < 2 ^ 64 }
{
    // Mostly it is that arena itself, which its head tells without a look at the sets.
    if is_in_zones(store, zones, from as usize) {
        return Some(from);
    }
    let walk = Walk::starting_at(index, zones, from as usize);
    let arena = walk.first(index)?;
    prove!(arena < store.len());
    Some(arena as u32)
}

// What of these zones is handed to sweeping.
fn jobs_in_zones(
    alloc: Global,
    store: &Store,
    index: &Index,
    zones: ZoneSet,
) -> Result<Vec<Job>, AllocError>
    requires { IsOwnedBy store.now.arenas index.now.owned }
    ensures { IfOk result (λ jobs. jobs.items ≡ jobs_from zones.bits 0 store.now.arenas) }
{
    let mut jobs = Vec::with_capacity(alloc, store.len().min(JOBS_AHEAD))?;
    let mut walk = Walk::over(zones);
    while let Some(arena) = walk.next(index) {
        let head = store.head(arena);
        jobs.push(Job {
            arena: arena as u32,
            alloc_word: head.alloc_word,
            bits: head.bits,
        })?;
    }
    Ok(jobs)
}

// The arenas of these zones are handed to sweeping.
fn send_out(store: &mut Store, index: &Index, out: &mut ArenaSet, zones: ZoneSet)
    requires owned { IsOwnedBy store.old.arenas index.now.owned }
    requires out { AreOut store.old.arenas out.old }
    ensures arenas { store.new.arenas ≡ in_these handed_out zones.bits store.old.arenas }
    ensures out { AreOut store.new.arenas out.new }
{
    let mut walk = Walk::over(zones);
    while let Some(arena) = walk.next(index) {
        store.set_out(arena);
        out.insert(arena);
    }
}

// The arenas of a zone from a number on, in which no cell stands, are given up. Returns how many these are.
fn give_up_all(store: &mut Store, index: &mut Index, zone: ZoneNo, first: u32) -> u32
    requires indexed { IsIndexed store.old.arenas index.old }
    ensures count { result ≡ count_from zone first 0 store.old.arenas }
    ensures arenas { store.new.arenas ≡ given_up_from zone first 0 store.old.arenas }
    ensures indexed { IsIndexed store.new.arenas index.new }
{
    let zones = ZoneSet::only(zone);
    let mut count = 0;
    let mut from = first;
    while let Some(arena) = next_among(store, index, zones, from) {
        index.remove(zone, arena as usize);
        store.give_up(arena as usize);
        count += 1;
        from = arena + 1;
    }
    count
}

// Cells go to free slots of arenas of their zone, with their mark bits.
fn move_all(store: &mut Store, index: &mut Index, moves: &Moves)
    requires indexed { IsIndexed store.old.arenas index.old }
    requires moves { MayMove store.old.arenas moves.now }
    requires empty { All IsEmptyIfGivenUp store.old.arenas }
    ensures moves { MovesCells store.old.arenas moves.now store.new.arenas }
    ensures indexed { IsIndexed store.new.arenas index.new }
    ensures empty { All IsEmptyIfGivenUp store.new.arenas }
    ensures held { held_by store.new.arenas ≡ held_by store.old.arenas }
{
    for step in moves.as_slice() {
        move_between(store, index, *step);
    }
}

// A cell goes to a free slot of an arena of its zone, with its mark bits.
fn move_between(store: &mut Store, index: &mut Index, step: Move)
    requires indexed { IsIndexed store.old.arenas index.old }
    requires moves { MayMove store.old.arenas (step ∷ []) }
    requires empty { All IsEmptyIfGivenUp store.old.arenas }
    ensures moves { MovesCells store.old.arenas (step ∷ []) store.new.arenas }
    ensures indexed { IsIndexed store.new.arenas index.new }
    ensures empty { All IsEmptyIfGivenUp store.new.arenas }
    ensures held { held_by store.new.arenas ≡ held_by store.old.arenas }
{
    store.whole_law();
    let Move { from, to } = step;
    let left = from.arena() as usize;
    let goal = to.arena() as usize;
    let zone = store.head(left).zone;
    let cell = *store.cell(from);
    let was = store.head(left).bits;
    let slot = from.slot();
    let seat = to.slot();
    let before = marked(was, slot, 0, 0);
    free_slot(store, index, from, before);
    put_in_arena(store, index, zone, to, cell);
    let black = (was.black >> slot) & 1;
    let gob = (was.gob >> slot) & 1;
    let now = store.head(goal).bits;
    let after = marked(now, seat, black, gob);
    store.set_bits(goal, after);
}

// A slot becomes free, as its cell goes elsewhere. Its arena has these bits then.
fn free_slot(store: &mut Store, index: &mut Index, place: Place, bits: Bits)
    requires indexed { IsIndexed store.old.arenas index.old }
    requires cell { IsSome (cell_at store.old.arenas place) }
    requires owned { IsSomeAnd (slice_get store.old.arenas place.0) (λ a. a.zone ≢ no_zone) }
    requires kept { is_out_at store.old.arenas place.0 ≡ false }
    ensures arenas { store.new.arenas
        ≡ change_at (taken_in (2 ^ place.1) bits) store.old.arenas place.0 }
    ensures indexed { IsIndexed store.new.arenas index.new }
    ensures slot { place.1 < 64 }
{
    let arena = place.arena() as usize;
    store.take_in(arena, 1 << place.slot(), bits);
    index.open(store.head(arena).zone, arena);
}

// The fields of the cells of some zones lead to where their cells have gone.
fn forward_zones(store: &mut Store, index: &Index, zones: ZoneSet, moves: &Moves)
    requires owned { IsOwnedBy store.old.arenas index.now.owned }
    requires goals { GoInside store.old.arenas moves.now }
    ensures arenas { store.new.arenas
        ≡ in_these (all_forwarded moves.now) zones.bits store.old.arenas }
    ensures room { store.new.room ≡ store.old.room }
    ensures fits { zones.bits < 2 ^ 64 }
{
    let mut walk = Walk::over(zones);
    while let Some(arena) = walk.next(index) {
        forward_all(store, arena, moves);
    }
}

// The fields of an arena's cells lead to where their cells have gone.
fn forward_all(store: &mut Store, arena: usize, moves: &Moves)
    requires made { arena < length store.old.arenas }
    requires goals { GoInside store.old.arenas moves.now }
    ensures arenas { store.new.arenas ≡ change_at (all_forwarded moves.now) store.old.arenas arena }
    ensures room { store.new.room ≡ store.old.room }
{
    let cells = store.head(arena).alloc_word;
    for slot in 0..64u8 {
        if has_bit(cells, slot) {
            forward_slot(store, arena, slot, moves);
        }
    }
}

// The fields of the cell at a slot lead to where their cells have gone.
fn forward_slot(store: &mut Store, arena: usize, slot: u8, moves: &Moves)
    requires cell { IsSome (cell_at store.old.arenas (arena, slot)) }
    requires slot { slot < 64 }
    requires few { arena < ARENA_LIMIT }
    requires goals { GoInside store.old.arenas moves.now }
    ensures arenas { store.new.arenas ≡ change_at (forwarded_at moves.now slot) store.old.arenas arena }
    ensures room { store.new.room ≡ store.old.room }
{
    if let Some(place) = Place::new(arena as u32, slot) {
        store.forward(place, moves);
    }
}

// Whether a word has the bit of a slot.
fn has_bit(word: u64, slot: u8) -> bool
    requires { slot < 64 }
    ensures { IsTrue result ↔ (bit_at word slot ≡ 1) }
{
    (word >> slot) & 1 == 1
}

// An arena comes back from sweeping, without the freed cells.
fn come_in(store: &mut Store, index: &mut Index, arena: usize, freed: u64, bits: Bits)
    requires indexed { IsIndexed store.old.arenas index.old }
    requires out { IsSomeAnd (slice_get store.old.arenas arena) (λ a. a.is_out ≡ true) }
    requires owned { IsSomeAnd (slice_get store.old.arenas arena) (λ a. a.zone ≢ no_zone) }
    ensures arenas { store.new.arenas ≡ change_at (taken_in freed bits) store.old.arenas arena }
    ensures indexed { IsIndexed store.new.arenas index.new }
{
    store.take_in(arena, freed, bits);
    let head = store.head(arena);
    if head.alloc_word != u64::MAX {
        index.open(head.zone, arena);
    }
}
