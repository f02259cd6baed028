// The wrappers of each zone.
ghost use Rattle.std.specs.Prelude.{◌<◌, ◌≡◌, ◌↔◌, IsTrue, ◌+◌, ◌++◌, ◌∷◌, ◌==◌, ◌&&◌, ℕ, Bool, List, None, Some, []};
ghost use Rattle.std.specs.Prelude.{length, map, replicate, slice_get, slice_set, slice_index_or, not, filter};
ghost use Rattle.std.specs.Prelude.{Contains, IfOk, IfSome, IfNone, OnOk, OnErr, is_some, if◌then◌else◌};
ghost use Rattle.std.specs.Int.{bit_at};
ghost use Rattle.std.specs.Map.{lookup};
ghost use Rattle.std.specs.Option.{option_map};
ghost use Rattle.gz_names.specs.declared.numbers.Place.{Place};
ghost use Rattle.wrappers.specs.WrapperMaps.{is_key, list_at, lists_of, add_at, all_forwarded, DropsDead, KeptBy};

use gz_names::{CompNo, Moves, NoMemory, Place, ZoneNo, ZoneSet};
use indexmap::IndexMap;
use std::alloc::Global;
use std::marker::Model;

/// What a wrapper is found by.
#[derive(Clone, Copy, Debug, PartialEq, Eq, Hash)]
pub struct WrapperKey {
    /// The number of the wrapper's compartment.
    pub comp: u8,
    /// The number of its target.
    pub target: u64,
}

/// The wrappers of all compartments, by zone.
#[derive(Drop)]
pub struct Wrappers {
    // The wrappers of each zone, in the order in which they were added.
    maps: Vec<IndexMap<WrapperKey, Place>>,
    // The zone of each compartment to which a wrapper was added.
    homes: [Option<ZoneNo>; 256],
}

impl Model for Wrappers {
    ghost use Rattle.wrappers.specs.WrapperMaps.{WrappersState, AreSound, lists_of};

    ghost Value = { WrappersState };

    ghost view = { λ w. record { lists = lists_of w.maps.items } };

    ghost invariant = { λ w. AreSound (lists_of w.maps.items) w.homes };
}

impl Wrappers {
    ghost use Rattle.wrappers.specs.WrapperMaps.{WrappersState, AreApart, AnswersBy, list_of, place_of, without_dead};

    /// No wrappers.
    pub fn new(alloc: Global) -> Result<Self, NoMemory>
        ensures { IfOk result (λ wrappers. wrappers ≡ record { lists = replicate 64 [] }) }
    {
        let maps = new_maps(alloc)?;
        Ok(Wrappers {
            maps,
            homes: [None; 256],
        })
    }

    /// The place of the wrapper of a target in a compartment.
    pub fn find(&self, comp: CompNo, target: u64) -> Option<Place>
        ensures value { result ≡ place_of self.now comp.0 target }
        ensures some { IfSome result (λ place. (z : ℕ)
            × Contains (list_of self.now z) (record { comp = comp.0; target = target }, place)) }
        ensures none { IfNone result ((z : ℕ) (place : Place)
            → Contains (list_of self.now z) (record { comp = comp.0; target = target }, place)
            → ⊥) }
        ensures apart { AreApart self.now.lists }
    {
        match self.homes[comp.0 as usize] {
            Some(zone) => find_in_zone(&self.maps, zone, comp, target),
            None => None,
        }
    }

    /// Adds a wrapper, which is not there. All wrappers of a compartment are added with its zone.
    pub fn add(
        &mut self,
        zone: ZoneNo,
        comp: CompNo,
        target: u64,
        place: Place,
    ) -> Result<(), NoMemory>
        requires absent { place_of self.old comp.0 target ≡ None }
        requires one_zone { (z : ℕ) (entry : _) → Contains (list_of self.old z) entry
            → entry.0.comp ≡ comp.0
            → z ≡ zone }
        ensures added { OnOk result (self.new ≡ record {
          lists =
              add_at self.old.lists zone (record { comp = comp.0; target = target }) place;
        }) }
        ensures found { OnOk result ((c t : ℕ) → place_of self.new c t
            ≡ (if (c == comp.0) && (t == target) then Some place else place_of self.old c t)) }
        ensures err { OnErr result (self.new ≡ self.old) }
    {
        add_in_zone(&mut self.maps, zone, comp, target, place)?;
        self.homes[comp.0 as usize] = Some(zone);
        Ok(())
    }

    /// Drops the wrappers of these zones whose cells are dead. It walks the maps of these zones
    /// alone.
    pub fn drop_dead<D: Fn(Place) -> bool + Drop>(&mut self, zones: ZoneSet, dead: D)
        requires { D.IsAlwaysCallable dead }
        ensures dropped { (is_dead : Place → Bool) → AnswersBy (D.post dead) is_dead
            → (z : ℕ)
            → list_of self.new z
            ≡ without_dead (bit_at zones.bits z) is_dead (list_of self.old z) }

        // If the test may answer this or that, each wrapper goes or stays by the answer for it.
        ensures kept { (z : ℕ) → DropsDead (bit_at zones.bits z) (D.post dead)
            (list_of self.old z) (list_of self.new z) }
        ensures apart { AreApart self.old.lists }
    {
        drop_in_zones(&mut self.maps, zones, &dead);
    }

    /// The wrappers of a zone are found where they have gone. They keep their order.
    pub fn forward(&mut self, zone: ZoneNo, moves: &Moves)
        ensures lists { self.new ≡ record {
          lists = slice_set self.old.lists zone (all_forwarded moves.now (list_of self.old zone));
        } }
        ensures apart { AreApart self.new.lists }
    {
        forward_in_zone(&mut self.maps, zone, moves);
    }

    /// The next wrapper of a zone. From cursor 0 it visits each one once, in the order in which they
    /// were added; the cursor counts those visited. After `None` it goes on with a wrapper that is
    /// added later. A cursor is of no use once a wrapper of the zone was dropped.
    pub fn next_of(&self, zone: ZoneNo, cursor: &mut u64) -> Option<Place>
        ensures place { result ≡ option_map (λ entry. entry.1)
            (slice_get (list_of self.now zone) cursor.old) }
        ensures cursor { cursor.new ≡ (if is_some result then cursor.old + 1 else cursor.old) }
        ensures apart { AreApart self.now.lists }
    {
        next_in_zone(&self.maps, zone, cursor)
    }

    /// No wrapper stands twice in the maps. It does nothing.
    pub fn apart_law(&self)
        ensures { AreApart self.now.lists }
    {
        let _ = &self.maps;
    }

    /// Whether a zone has no wrappers.
    pub fn has_none(&self, zone: ZoneNo) -> bool
        ensures value { IsTrue result ↔ (list_of self.now zone ≡ []) }
        ensures apart { AreApart self.now.lists }
    {
        has_none_in_zone(&self.maps, zone)
    }
}

// Empty maps, one a zone.
fn new_maps(alloc: Global) -> Result<Vec<IndexMap<WrapperKey, Place>>, NoMemory>
    ensures { IfOk result (λ maps. lists_of maps.items ≡ replicate 64 []) }
{
    let mut maps = Vec::new(alloc);
    for _i in 0..64u8 {
        maps.push(IndexMap::new(alloc))?;
    }
    Ok(maps)
}

// What the wrapper of a target in a compartment is found by.
fn key_of(comp: CompNo, target: u64) -> WrapperKey
    ensures { result ≡ record { comp = comp.0; target = target } }
{
    WrapperKey {
        comp: comp.0,
        target,
    }
}

// The place of a wrapper of a zone.
fn find_in_zone(
    maps: &[IndexMap<WrapperKey, Place>],
    zone: ZoneNo,
    comp: CompNo,
    target: u64,
) -> Option<Place>
    requires { length maps.now ≡ 64 }
    ensures { result ≡ lookup (is_key comp.0 target) (list_at (lists_of maps.now) zone) }
{
    let key = key_of(comp, target);
    maps[zone.index() as usize].get(&key).copied()
}

// Adds a wrapper, which is not there, to the map of a zone.
fn add_in_zone(
    maps: &mut [IndexMap<WrapperKey, Place>],
    zone: ZoneNo,
    comp: CompNo,
    target: u64,
    place: Place,
) -> Result<(), NoMemory>
    requires zones { length maps.old ≡ 64 }
    requires absent { lookup (is_key comp.0 target) (list_at (lists_of maps.old) zone) ≡ None }
    ensures ok { OnOk result (lists_of maps.new ≡ add_at (lists_of maps.old) zone
        (record { comp = comp.0; target = target }) place) }
    ensures err { OnErr result (lists_of maps.new ≡ lists_of maps.old) }
    ensures below { zone < 64 }
{
    let key = key_of(comp, target);
    maps[zone.index() as usize].insert(key, place)?;
    Ok(())
}

// The wrapper of a zone at a cursor.
fn next_in_zone(
    maps: &[IndexMap<WrapperKey, Place>],
    zone: ZoneNo,
    cursor: &mut u64,
) -> Option<Place>
    requires { length maps.now ≡ 64 }
    ensures place { result ≡ option_map (λ entry. entry.1)
        (slice_get (list_at (lists_of maps.now) zone) cursor.old) }
    ensures cursor { cursor.new ≡ (if is_some result then cursor.old + 1 else cursor.old) }
{
    let map = &maps[zone.index() as usize];
    let at = *cursor as usize;
    if at >= map.len() {
        return None;
    }
    *cursor += 1;
    Some(map[at])
}

// Whether a zone has no wrappers.
fn has_none_in_zone(maps: &[IndexMap<WrapperKey, Place>], zone: ZoneNo) -> bool
    requires { length maps.now ≡ 64 }
    ensures { IsTrue result ↔ (list_at (lists_of maps.now) zone ≡ []) }
{
    let map = &maps[zone.index() as usize];
    map.is_empty()
}

// The wrappers of a zone are found where they have gone.
fn forward_in_zone(maps: &mut [IndexMap<WrapperKey, Place>], zone: ZoneNo, moves: &Moves)
    requires zones { length maps.old ≡ 64 }
    ensures { lists_of maps.new ≡ slice_set (lists_of maps.old) zone
        (all_forwarded moves.now (list_at (lists_of maps.old) zone)) }
{
    maps[zone.index() as usize].retain(|_key, place| {
        *place = moves.moved_to(*place);
        true
    });
}

// Drops the entries of dead cells from the maps of these zones.
fn drop_in_zones<D: Fn(Place) -> bool>(
    maps: &mut [IndexMap<WrapperKey, Place>],
    zones: ZoneSet,
    dead: &D,
)
    requires zones { length maps.old ≡ 64 }
    requires callable { D.IsAlwaysCallable dead.now }
    ensures { (z : ℕ) → DropsDead (bit_at zones.bits z) (D.post dead.now)
        (list_at (lists_of maps.old) z) (list_at (lists_of maps.new) z) }
{
    let mut left = zones;
    while let Some(zone) = left.first() {
        drop_entries(&mut maps[zone.index() as usize], dead);
        left.remove(zone);
    }
}

// Drops the entries of dead cells; the others keep their order.
fn drop_entries<D: Fn(Place) -> bool>(map: &mut IndexMap<WrapperKey, Place>, dead: &D)
    requires { D.IsAlwaysCallable dead.now }
    ensures { KeptBy (D.post dead.now) map.old.entries map.new.entries }
{
    map.retain(|_key, place| !dead(*place));
}
