// Single zones of the word of a set.
ghost use Rattle.std.specs.Prelude.{◌≡◌, ◌<◌, ◌≤◌, ◌⊎◌, ◌↔◌, ℕ, IfNone, IfSome};
ghost use Rattle.gz_names.specs.Zones.{HasZone};

/// The lowest zone of a word from a number on.
#[inline(always)]
pub fn next_zone(bits: u64, from: u64) -> Option<u64>
    ensures some { IfSome result (λ z. (from ≤ z) × HasZone bits z) }
    ensures lowest { IfSome result (λ z. (y : ℕ) → from ≤ y → y < z → HasZone bits y → ⊥) }
    ensures none { IfNone result ((y : ℕ) → from ≤ y → HasZone bits y → ⊥) }
{
    if from >= 64 {
        return None;
    }
    let rest = bits >> from;
    if rest == 0 {
        return None;
    }
    Some(from + u64::from(rest.trailing_zeros()))
}

/// The zones of a word and one more.
pub fn with_zone(bits: u64, zone: u64) -> u64
    requires { zone < 64 }
    ensures { (z : ℕ) → HasZone result z ↔ (HasZone bits z ⊎ (z ≡ zone)) }
{
    bits | 1 << zone
}
