// The groups of a collection's zones, in the order in which they finish.
//
// [gczone] Sweep groups
//
// The zones of a collection finish marking group by group, as crate zone_edges orders them (here
// they are given, and this crate asks nothing of them). A cursor splits the list:
//
//     groups        g0   g1   g2  |  g3   g4   g5
//                                 ended
//
//     left of it    have finished: their zones are swept, or being swept
//     g3            the current group: its zones mark gray, no other zone does
//     behind it     wait: black marking still goes through their zones, and gray marking stops at
//                   their edge
//
// A group finishes once. Were the cursor to stay, its zones would be swept a second time; were it
// to skip a group, that one's zones would keep their white cells as if they lived, and their gray
// ones would never be found.
#![tactic(auto)]

ghost use Rattle.std.specs.Prelude.{◌≡◌, ◌<◌, [], length, drop, slice_get};

use gz_names::{Groups, ZoneSet};
use std::marker::Model;

/// The groups that have not finished yet. It takes no memory.
#[derive(Drop)]
pub struct GroupOrder {
    groups: Groups,
    ended: usize,
}

impl Model for GroupOrder {
    ghost use Rattle.std.specs.Prelude.{◌≤◌, List, length, drop};
    ghost use Rattle.gz_names.specs.declared.zone_sets.ZoneSet.{ZoneSet as AZoneSet};

    ghost Value = { List AZoneSet };

    ghost view = { λ g. drop g.ended g.groups };

    ghost invariant = { λ g. g.ended ≤ length g.groups };
}

impl GroupOrder {
    /// No groups.
    pub fn new() -> Self
        ensures { result ≡ [] }
    {
        GroupOrder {
            groups: Groups::new(),
            ended: 0,
        }
    }

    /// Takes the groups of a collection, none of which has finished.
    pub fn set(&mut self, groups: Groups)
        ensures { self.new ≡ groups }
    {
        self.groups = groups;
        self.ended = 0;
    }

    /// No group is left.
    pub fn clear(&mut self)
        ensures { self.new ≡ [] }
    {
        self.set(Groups::new());
    }

    /// The first group that has not finished.
    pub fn current(&self) -> Option<ZoneSet>
        ensures { result ≡ slice_get self.now 0 }
    {
        self.groups.get(self.ended)
    }

    /// The current group has finished, and the one behind it is current.
    pub fn advance(&mut self)
        requires { 0 < length self.old }
        ensures { self.new ≡ drop 1 self.old }
    {
        prove!(self.ended < self.groups.len());
        self.ended += 1;
    }
}
