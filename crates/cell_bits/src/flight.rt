// Arenas whose bits lie elsewhere while they are swept.
ghost use Rattle.std.specs.Prelude.{◌≡◌, ◌==◌, ℕ, ◌<◌, Option, None, IsSome, IfSome, IsSomeAnd, bit_or};
ghost use Rattle.cell_bits.specs.declared.bits.Bits.{Bits as ABits};
ghost use Rattle.cell_bits.specs.Colours.{colour_of, woken_bits, unit};

use crate::bits::Colour;

/// Answers for the arenas that are handed to sweeping (our choice; in js/src/gc the bits stay in
/// the arena's chunk, where the background sweeper reads them).
pub trait Flight {
    /// What the flight's arenas come from; the same after each call.
    type Origin;

    ghost origin: { Self → Self.Origin };
    /// The bits of each arena that is out, as a finite map.
    ghost bits: { Self → ℕ → Option ABits };

    /// The colour of a slot of an arena that is out.
    fn colour(&mut self, arena: u32, slot: u8) -> Colour
        requires out { IsSome (bits self.old arena) }
        requires slot { slot < 64 }
        ensures origin { origin self.new ≡ origin self.old }
        ensures same { (a : ℕ) → bits self.new a ≡ bits self.old a }
        ensures colour { IfSome (bits self.old arena) (λ b. result ≡ colour_of b slot) };

    /// Turns the slots of the mask, gray or black ones, black.
    fn wake(&mut self, arena: u32, mask: u64)
        requires { IsSomeAnd (bits self.old arena) (λ b. bit_or mask b.gob ≡ b.gob) }
        ensures origin { origin self.new ≡ origin self.old }
        ensures woken { (a : ℕ) → bits self.new a ≡ woken_bits (a == arena) mask (bits self.old a) };
}

/// The flight in which no arena is out.
#[derive(Clone, Copy, Debug, PartialEq, Eq)]
pub struct NoFlight;

impl Flight for NoFlight {
    type Origin = ();

    ghost origin = { λ _. unit };

    ghost bits = { λ _ _. None };

    fn colour(&mut self, _arena: u32, _slot: u8) -> Colour
        ensures { result ≡ Colour.White }
    {
        Colour::White
    }

    fn wake(&mut self, _arena: u32, _mask: u64)
        ensures { self.new ≡ self.old }
    {}
}
