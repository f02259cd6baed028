// What main does beside helpers.
ghost use Rattle.std.specs.Prelude.{◌≡◌, ℕ, [], List, Option};
ghost use Rattle.cell_bits.specs.declared.bits.Bits.{Bits as ABits};

use sweeping::Sweeping;

/// What main does while arenas are out, until none is. Its result stands in its fields.
pub trait Works {
    /// What the work asks of the arenas that are out, each with the slots to free, and of their bits.
    ghost ready: { Self → List (ℕ × ℕ) → (ℕ → Option ABits) → Type 0 };
    /// How it stands before, with these arenas and bits, and after.
    ghost ran: { Self → List (ℕ × ℕ) → (ℕ → Option ABits) → Self → Type 0 };

    /// Does the work, and takes all arenas in.
    fn run<F: Sweeping>(&mut self, flight: &mut F)
        requires { ready self.old (F.left (F.origin flight.old)) (F.bits flight.old) }
        ensures ran { ran self.old (F.left (F.origin flight.old)) (F.bits flight.old) self.new }
        ensures home { F.home (F.origin flight.new) ≡ F.home (F.origin flight.old) }
        ensures taken { F.left (F.origin flight.new) ≡ [] };
}
