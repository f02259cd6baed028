// Arenas that are out, and how the lowest is taken in.
ghost use Rattle.std.specs.Prelude.{◌≡◌, ◌≢◌, ◌↔◌, [], List, IsTrue, None, ℕ};
ghost use Rattle.sweeping.specs.ArenasOut.{AscendHanded, TakesLowest, flying_after, outs_after};

use arena_table::Jobs;
use cell_bits::{Flight, Taken};

/// Arenas that are out, which are taken in one by one, the lowest first (our choice; in js/src/gc the
/// background sweeper goes through the arenas of a zone by kind).
pub trait Sweeping: Flight {
    /// What stays the same while arenas are taken in.
    type Home;

    ghost home: { Self.Origin → Self.Home };
    /// The arenas that are out, ascending, each with the slots to free.
    ghost left: { Self.Origin → List (ℕ × ℕ) };

    /// Returns whether none is out.
    fn is_empty(&self) -> bool
        ensures none_left { IsTrue result ↔ (left (Self.origin self.now) ≡ []) }
        ensures none_held { IsTrue result → (a : ℕ) → Self.bits self.now a ≡ None };

    /// Takes the lowest arena in, once it is swept.
    fn take_lowest(&mut self) -> Taken
        requires { left (Self.origin self.old) ≢ [] }
        ensures home { home (Self.origin self.new) ≡ home (Self.origin self.old) }
        ensures taken { TakesLowest (left (Self.origin self.old)) (left (Self.origin self.new))
            (Self.bits self.old) (Self.bits self.new) result };
}

/// Who sweeps by itself what is handed out.
pub trait Sweeper: Sweeping {
    /// Takes the arenas of these jobs over, in place of what is left, if there are jobs.
    fn take_over(&mut self, jobs: Option<Jobs>)
        requires { AscendHanded jobs }
        ensures home { Self.home (Self.origin self.new) ≡ Self.home (Self.origin self.old) }
        ensures left { Self.left (Self.origin self.new)
            ≡ outs_after jobs (Self.left (Self.origin self.old)) }
        ensures bits { Self.bits self.new ≡ flying_after jobs (Self.bits self.old) };
}
