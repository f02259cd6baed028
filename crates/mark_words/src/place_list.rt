// What may be marked, for the proofs alone.
ghost use Rattle.std.specs.Prelude.{ℕ};

use std::marker::Brand;

/// The places, arena and slot, that marks may make black. Contracts alone see them. Who calls a
/// function that is generic over a place list gives it `Brand`, and picks the places in the proof of
/// that call.
pub trait PlaceList {
    ghost places: { ℕ × ℕ → Type 0 };
}

/// The slots of an arena that a seat looks at. Contracts alone see them, as they see the places of a list.
pub trait SlotMask {
    ghost slots: { ℕ };
}

impl SlotMask for Brand {
    ghost slots = { 0 };
}

impl PlaceList for Brand {
    ghost places = { λ _. ⊥ };
}
