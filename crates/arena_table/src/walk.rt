// A walk over the arenas of a set of zones.
ghost use Rattle.std.specs.Prelude.{◌≡◌, ◌≤◌, ◌<◌, ◌*◌, ◌∷◌, ◌^◌, [], ℕ, List, drop, IfSome, IfNone};
ghost use Rattle.arena_table.specs.Indexed.{IsOwnedBy, numbers_from};
ghost use Rattle.arena_table.specs.Walks.{walk_rest};

use crate::index::Index;
use gz_names::ZoneSet;

/// A walk over the arenas of a set of zones by number: 64 arenas at a time are read as a word, of
/// which those not yet visited are left.
#[derive(Drop)]
pub(crate) struct Walk {
    zones: ZoneSet,
    left: u64,
    base: usize,
    at: usize,
}

impl Walk {
    /// A walk over all arenas of these zones.
    pub fn over(zones: ZoneSet) -> Self
        ensures rest { (arenas : _) → walk_rest arenas result ≡ numbers_from zones.bits 0 arenas }
        ensures below { (result.base ≤ 2 ^ 32) × (result.at ≤ 2 ^ 26) }
    {
        Walk {
            zones,
            left: 0,
            base: 0,
            at: 0,
        }
    }

    /// A walk over the arenas of these zones from a number on.
    pub fn starting_at(index: &Index, zones: ZoneSet, from: usize) -> Self
        requires { from < 2 ^ 32 }
        ensures rest { (arenas : _) → IsOwnedBy arenas index.now.owned
            → walk_rest arenas result ≡ numbers_from zones.bits from (drop from arenas) }
        ensures below { (result.base ≤ 2 ^ 32) × (result.at ≤ 2 ^ 26) }
    {
        Walk {
            zones,
            left: index.word(zones, from / 64) >> (from % 64),
            base: from,
            at: from / 64 + 1,
        }
    }

    /// The next arena.
    #[inline(always)]
    pub fn next(&mut self, index: &Index) -> Option<usize>
        requires below { (self.old.base ≤ 2 ^ 32) × (self.old.at ≤ 2 ^ 26) }
        ensures some { IfSome result (λ arena. (arenas : _) → IsOwnedBy arenas index.now.owned
            → walk_rest arenas self.old ≡ arena ∷ walk_rest arenas self.new) }
        ensures none { IfNone result ((arenas : _) → IsOwnedBy arenas index.now.owned
            → walk_rest arenas self.old ≡ []) }
        ensures below { (self.new.base ≤ 2 ^ 32) × (self.new.at ≤ 2 ^ 26) }
    {
        while self.left == 0 {
            let at = index.next_word(self.zones, self.at)?;
            self.base = 64 * at;
            self.left = index.word(self.zones, at);
            self.at = at + 1;
        }
        let slot = self.left.trailing_zeros() as usize;
        self.left &= self.left - 1;
        Some(self.base + slot)
    }

    /// The next arena, where the walk goes no further.
    #[inline(always)]
    pub fn first(self, index: &Index) -> Option<usize>
        requires below { (self.base ≤ 2 ^ 32) × (self.at ≤ 2 ^ 26) }
        ensures some { IfSome result (λ arena. (arenas : _) → IsOwnedBy arenas index.now.owned
            → (rest : List ℕ) × (walk_rest arenas self ≡ arena ∷ rest)) }
        ensures none { IfNone result ((arenas : _) → IsOwnedBy arenas index.now.owned
            → walk_rest arenas self ≡ []) }
    {
        if self.left == 0 {
            return first_of_words(index, self.zones, self.at);
        }
        Some(self.base + self.left.trailing_zeros() as usize)
    }
}

// The lowest arena of these zones from a word on.
#[inline(never)]
fn first_of_words(index: &Index, zones: ZoneSet, at: usize) -> Option<usize>
    requires { at ≤ 2 ^ 26 }
    ensures some { IfSome result (λ arena. (arenas : _) → IsOwnedBy arenas index.now.owned
        → (rest : List ℕ) × (numbers_from zones.bits (64 * at) (drop (64 * at) arenas) ≡ arena ∷ rest)) }
    ensures none { IfNone result ((arenas : _) → IsOwnedBy arenas index.now.owned
        → numbers_from zones.bits (64 * at) (drop (64 * at) arenas) ≡ []) }
{
    let mut walk = Walk {
        zones,
        left: 0,
        base: 0,
        at,
    };
    walk.next(index)
}
