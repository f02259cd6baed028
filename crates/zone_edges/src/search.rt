// The search for components: Tarjan's method, with the low link of a level kept as a set.
ghost use Rattle.std.specs.Prelude.{◌≡◌, ℕ, ◌+◌, ◌-◌, ◌*◌, ◌<◌, ◌≤◌, ◌⊎◌, ◌↔◌, take};
ghost use Rattle.gz_names.specs.Zones.{HasZone};
ghost use Rattle.zone_edges.specs.Sets.{IsAt, size};
ghost use Rattle.zone_edges.specs.Groups.{Edge, Leads};
ghost use Rattle.zone_edges.specs.Walk.{IsSearch, Follows, left};

use gz_names::{Groups, ZoneNo, ZoneSet};

/// Noted edges, the groups found so far, and the levels of zones that are seen and in no group yet.
#[derive(Drop)]
pub struct Search {
    /// The zones that are to be grouped.
    pub zones: ZoneSet,
    /// For each zone those from which an edge leads to it.
    pub sources: [ZoneSet; 64],
    /// The zones of all groups found.
    pub done: ZoneSet,
    pub groups: [ZoneSet; 64],
    pub count: usize,
    /// The zones of all groups and levels.
    pub seen: ZoneSet,
    /// The zones of each level.
    pub levels: [ZoneSet; 64],
    /// The zones from which an edge leads into each level. Their lowest level is its low link.
    pub entering: [ZoneSet; 64],
    pub depth: usize,
}

impl Search {
    /// No edges and no groups.
    pub fn new(zones: ZoneSet) -> Self
        ensures search { IsSearch result }
        ensures idle { result.depth ≡ 0 }
        ensures zones { result.zones ≡ zones }
        ensures edges { (x y : ℕ) → Edge result.sources x y → ⊥ }
        ensures unseen { (z : ℕ) → HasZone result.seen.bits z → ⊥ }
    {
        Search {
            zones,
            sources: [ZoneSet { bits: 0 }; 64],
            done: ZoneSet { bits: 0 },
            groups: [ZoneSet { bits: 0 }; 64],
            count: 0,
            seen: ZoneSet { bits: 0 },
            levels: [ZoneSet { bits: 0 }; 64],
            entering: [ZoneSet { bits: 0 }; 64],
            depth: 0,
        }
    }

    /// Begins again with these zones. All edges and groups are forgotten.
    pub fn restart(&mut self, zones: ZoneSet)
        requires search { IsSearch self.old }
        ensures search { IsSearch self.new }
        ensures idle { self.new.depth ≡ 0 }
        ensures zones { self.new.zones ≡ zones }
        ensures edges { (x y : ℕ) → Edge self.new.sources x y → ⊥ }
        ensures unseen { (z : ℕ) → HasZone self.new.seen.bits z → ⊥ }
    {
        self.zones = zones;
        self.sources = [ZoneSet { bits: 0 }; 64];
        self.done = ZoneSet { bits: 0 };
        self.count = 0;
        self.seen = ZoneSet { bits: 0 };
        self.depth = 0;
    }

    /// Notes an edge.
    pub fn note(&mut self, a: ZoneNo, b: ZoneNo)
        requires search { IsSearch self.old }
        requires idle { self.old.depth ≡ 0 }
        requires unseen { (z : ℕ) → HasZone self.old.seen.bits z → ⊥ }
        requires from { HasZone self.old.zones.bits a }
        ensures search { IsSearch self.new }
        ensures idle { self.new.depth ≡ 0 }
        ensures unseen { (z : ℕ) → HasZone self.new.seen.bits z → ⊥ }
        ensures zones { self.new.zones ≡ self.old.zones }
        ensures edges { (x y : ℕ) → Edge self.new.sources x y
            ↔ (Edge self.old.sources x y ⊎ ((x ≡ a) × (y ≡ b))) }
    {
        let into = usize::from(b.index());
        self.sources[into] = self.sources[into].union(ZoneSet::only(a));
    }

    // Begins a level with a zone that was not seen.
    fn open(&mut self, zone: ZoneNo)
        requires search { IsSearch self.old }
        requires inside { HasZone self.old.zones.bits zone }
        requires fresh { HasZone self.old.seen.bits zone → ⊥ }
        requires leads { (i x : ℕ) → i < self.old.depth → IsAt self.old.levels i x
            → Leads self.old.sources zone x }
        ensures search { IsSearch self.new }
        ensures follows { Follows self.old self.new }
        ensures seen { HasZone self.new.seen.bits zone }
        ensures fewer { left self.new < left self.old }
    {
        let level = ZoneSet::only(zone);
        self.levels[self.depth] = level;
        self.entering[self.depth] = self.sources[usize::from(zone.index())];
        self.seen = self.seen.union(level);
        self.depth += 1;
    }

    // Makes the last level a group.
    fn close(&mut self)
        requires search { IsSearch self.old }
        requires busy { 0 < self.old.depth }
        requires closed { (z : ℕ) → IsAt self.old.entering (self.old.depth - 1) z
            → HasZone self.old.done.bits z ⊎ IsAt self.old.levels (self.old.depth - 1) z }
        ensures search { IsSearch self.new }
        ensures follows { Follows self.old self.new }
        ensures fewer { left self.new < left self.old }
    {
        let last = self.depth - 1;
        let group = self.levels[last];
        self.groups[self.count] = group;
        self.count += 1;
        self.done = self.done.union(group);
        self.depth = last;
    }

    // Joins the last level with the one before it.
    fn merge(&mut self)
        requires search { IsSearch self.old }
        requires two { 1 < self.old.depth }
        requires back { (z : ℕ) × IsAt self.old.entering (self.old.depth - 1) z
            × ((i : ℕ) × (i + 1 < self.old.depth) × IsAt self.old.levels i z) }
        ensures search { IsSearch self.new }
        ensures follows { Follows self.old self.new }
        ensures fewer { left self.new < left self.old }
    {
        let last = self.depth - 1;
        self.levels[last - 1] = self.levels[last - 1].union(self.levels[last]);
        self.entering[last - 1] = self.entering[last - 1].union(self.entering[last]);
        self.depth = last;
    }

    // One step: goes on to a zone that was not seen, or ends the last level.
    fn step(&mut self)
        requires search { IsSearch self.old }
        requires busy { 0 < self.old.depth }
        ensures search { IsSearch self.new }
        ensures follows { Follows self.old self.new }
        ensures fewer { left self.new < left self.old }
    {
        let last = self.depth - 1;
        let entering = self.entering[last];
        if let Some(zone) = entering.without(self.seen).first() {
            self.open(zone);
        } else {
            let open = entering.without(self.done);
            match open.without(self.levels[last]).first() {
                None => self.close(),
                Some(_) => self.merge(),
            }
        }
    }

    /// Finds the groups of all zones that lead to a zone.
    pub fn visit(&mut self, zone: ZoneNo)
        requires search { IsSearch self.old }
        requires idle { self.old.depth ≡ 0 }
        requires inside { HasZone self.old.zones.bits zone }
        ensures search { IsSearch self.new }
        ensures idle { self.new.depth ≡ 0 }
        ensures follows { Follows self.old self.new }
        ensures seen { HasZone self.new.seen.bits zone }
    {
        if self.seen.contains(zone) {
            return;
        }
        self.open(zone);
        'walk: while self.depth > 0 {
            self.step();
        }
    }

    /// The groups found so far, in the order in which they were found.
    pub fn found(&self) -> Groups
        requires { IsSearch self.now }
        ensures { result ≡ take self.now.count self.now.groups }
    {
        let mut groups = Groups::new();
        'copy: for index in 0..self.count {
            groups.push(self.groups[index]);
        }
        groups
    }
}
