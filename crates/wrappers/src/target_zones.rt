// The zones in which the targets of the wrappers of each zone lie.
ghost use Rattle.std.specs.Prelude.{◌≡◌, ◌⊎◌, ◌↔◌, ℕ};
ghost use Rattle.gz_names.specs.Zones.{HasZone};
ghost use Rattle.wrappers.specs.TargetZones.{IsNoted};

use gz_names::{ZoneNo, ZoneSet};
use std::marker::Model;

/// For each zone a set of zones, to which zones are added: those in which the targets of its wrappers lie.
#[derive(Drop)]
pub struct TargetZones {
    sets: [ZoneSet; 64],
}

impl Model for TargetZones {
    ghost use Rattle.std.specs.Prelude.{◌≡◌, List, length};
    ghost use Rattle.gz_names.specs.declared.zone_sets.ZoneSet.{ZoneSet as AZoneSet};

    ghost Value = { List AZoneSet };

    ghost view = { λ t. t.sets };

    ghost invariant = { λ t. length t.sets ≡ 64 };
}

impl TargetZones {
    /// No zone is noted.
    pub fn new() -> Self
        ensures { (a b : ℕ) → IsNoted result a b → ⊥ }
    {
        TargetZones {
            sets: [ZoneSet::new(); 64],
        }
    }

    /// Notes that the target of a wrapper of a zone lies in another zone.
    pub fn note(&mut self, from: ZoneNo, to: ZoneNo)
        ensures { (a b : ℕ) → IsNoted self.new a b
            ↔ (IsNoted self.old a b ⊎ ((a ≡ from) × (b ≡ to))) }
    {
        self.sets[from.index() as usize].insert(to);
    }

    /// The zones that are noted for a zone.
    pub fn of(&self, from: ZoneNo) -> ZoneSet
        ensures { (b : ℕ) → HasZone result.bits b ↔ IsNoted self.now from b }
    {
        self.sets[from.index() as usize]
    }
}
