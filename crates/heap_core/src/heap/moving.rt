// Cells go to other places, and all that names them goes along.
ghost use Rattle.std.specs.Prelude.{◌≡◌, ◌≢◌, ◌<◌, ◌≤◌, IfNone, IfOk, IfSome, OnErr, OnOk, length};
ghost use Rattle.gz_names.specs.Moves.{AreInOrder};
ghost use Rattle.weak_maps.specs.WeakMaps.{IsSound as AreEntries};
ghost use Rattle.wrappers.specs.WrapperMaps.{AreApart};
ghost use Rattle.wrappers.specs.TargetZones.{IsNoted};
ghost use Rattle.heap_core.specs.Moving.{AreMoves, Forwards, IsListedIn, LeadsInto, MayForward, MayRelocate};
ghost use Rattle.heap_core.specs.Moving.{AreCarried, Carries, Relocates, count_from, zones_now};

use super::Heap;
use arena_table::Arenas;
use gz_names::{Moves, NoMemory, ZONE_LIMIT, ZoneNo};
use std::alloc::Global;
use wrappers::{TargetZones, Wrappers};

impl Heap {
    /// Cells of a zone go to free slots of its lower arenas, with their colours, and all that names them names
    /// their new places; then its arenas from a number on, which they have all left, are given up. All memory is
    /// taken before anything changes. Returns how many arenas were given up.
    ///
    /// Cells of other zones hold places of this one only as targets of wrappers. So besides the zone's own cells
    /// it looks at the wrappers of the zones that are noted to lead here, at the weak entries, and at the roots.
    pub fn relocate(
        &mut self,
        alloc: Global,
        zone: ZoneNo,
        moves: &Moves,
        first_given_up: u32,
    ) -> Result<u32, NoMemory>
        requires heap { MayRelocate self.old }
        requires moves { AreMoves self.old.shape zone first_given_up moves.now }
        ensures count { IfOk result (λ count. count
            ≡ count_from zone first_given_up 0 self.old.shape.arenas) }
        ensures relocates { OnOk result
            (Relocates self.old zone first_given_up moves.now self.new) }
        ensures err { OnErr result (self.new ≡ self.old) }
    {
        self.carry(alloc, zone, moves)?;
        self.carry_law(moves);
        // The arenas go last: till then each wrapper's target lies in one that has the zone noted for it.
        Ok(self.arenas.give_up(zone, first_given_up))
    }

    // The cells of a zone go to free slots of its arenas, and all that names them goes along. All memory is taken
    // before anything changes.
    fn carry(&mut self, alloc: Global, zone: ZoneNo, moves: &Moves) -> Result<(), NoMemory>
        requires heap { MayRelocate self.old }
        requires moves { AreCarried self.old.shape zone moves.now }
        ensures carries { OnOk result
            (Carries (zones_now self.old) self.old zone moves.now self.new) }
        ensures err { OnErr result (self.new ≡ self.old) }
    {
        if moves.is_empty() {
            return Ok(());
        }
        self.carry_law(moves);
        let weak_refs = self.weak_refs.forwarded(alloc, moves)?;
        self.weak.forward(alloc, moves)?;
        self.weak_refs = weak_refs;
        self.arenas.move_cells(moves);
        self.arenas.forward_in(zone, moves);
        self.wrappers.forward(zone, moves);
        forward_targets(
            &mut self.arenas,
            &self.wrappers,
            &self.target_zones,
            zone,
            moves,
        );
        self.roots.forward(moves);
        Ok(())
    }

    // What always holds of the entries, the zones, the wrappers, and of moves. It does nothing.
    fn carry_law(&self, moves: &Moves)
        ensures entries { AreEntries self.now.shape.weak }
        ensures zones { length self.now.shape.states ≤ 64 }
        ensures wrappers { AreApart self.now.shape.wrappers.lists }
        ensures order { AreInOrder moves.now }
    {
        self.entry(0);
        self.zones();
        self.wrappers_law();
        moves.as_slice();
    }
}

// The wrappers of the other zones for which a zone is noted lead to where their targets have gone.
fn forward_targets(
    arenas: &mut Arenas,
    wrappers: &Wrappers,
    noted: &TargetZones,
    zone: ZoneNo,
    moves: &Moves,
)
    requires { MayForward arenas.old.arenas wrappers.now moves.now }
    ensures { Forwards (LeadsInto wrappers.now noted.now zone) moves.now arenas.old arenas.new }
{
    for index in 0..ZONE_LIMIT {
        if let Some(other) = source_at(noted, zone, index) {
            forward_wrappers(arenas, wrappers, other, moves);
        }
    }
}

// The zone with this number, if it is another one for which a zone is noted.
fn source_at(noted: &TargetZones, zone: ZoneNo, index: u8) -> Option<ZoneNo>
    ensures some { IfSome result (λ other. other ≡ index) }
    ensures none { IfNone result (index < 64 → index ≢ zone → IsNoted noted.now index zone → ⊥) }
{
    let other = ZoneNo::new(index)?;
    if other != zone && noted.of(other).contains(zone) {
        Some(other)
    } else {
        None
    }
}

// The wrappers of a zone lead to where their targets have gone.
fn forward_wrappers(arenas: &mut Arenas, wrappers: &Wrappers, zone: ZoneNo, moves: &Moves)
    requires { MayForward arenas.old.arenas wrappers.now moves.now }
    ensures { Forwards (IsListedIn wrappers.now zone) moves.now arenas.old arenas.new }
{
    let mut cursor = 0;
    while let Some(wrapper) = wrappers.next_of(zone, &mut cursor) {
        arenas.forward(wrapper, moves);
    }
}
