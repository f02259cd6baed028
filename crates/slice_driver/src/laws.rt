// Laws that tie the collector to worlds. Each is the contract of a function that does nothing.
ghost use Rattle.std.specs.Prelude.{◌↔◌, ◌<◌, ℕ, Option, Contains};
ghost use Rattle.gz_names.specs.Zones.{zones_in};
ghost use Rattle.gz_names.specs.declared.zone_sets.ZoneSet.{ZoneSet};
ghost use Rattle.cell_bits.specs.declared.bits.Bits.{Bits};
ghost use Rattle.colour_defs.specs.World.{World};
ghost use Rattle.slice_driver.specs.Begins.{AreMade};
ghost use Rattle.slice_driver.specs.Collector.{CollectorState};
ghost use Rattle.slice_driver.specs.Represents.{Represents};

/// Zones are made in the collector exactly where they are in a world that it stands for.
pub fn zones_made_law()
    ensures { (c : CollectorState) (flown : ℕ → Option Bits) (w : World) (zones : ZoneSet)
        → Represents c flown w
        → AreMade c.heap.shape zones
        ↔ ((z : ℕ) → Contains (zones_in zones) z → z < w.graph.zones) }
{}
