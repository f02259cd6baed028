// What marking reads of a heap.
ghost use Rattle.std.specs.Prelude.{◌≡◌, ◌<◌, ◌≤◌, ℕ, Bool, List, All, Option, None};
ghost use Rattle.mark_words.specs.Sums.{times, weigh};
ghost use Rattle.mark_ahead.specs.Edges.{degree};

use gz_names::Place;

/// A heap, as far as marking reads it.
pub trait Graph {
    /// There is a cell at this place.
    ghost has: { Self → ℕ × ℕ → Type 0 };

    /// What a field of a cell holds.
    ghost edge: { Self → ℕ × ℕ → ℕ → Option (ℕ × ℕ) };

    /// Whether the zone of a cell is marking.
    ghost marking: { Self → ℕ × ℕ → Bool };

    /// Nobody counts the edges that are read, so several threads may read them at once.
    ghost uncounted: { Self → Type 0 };

    /// What a field of a cell holds; `None` if that is null or there is no such field. A cell has at most
    /// eight fields.
    fn edge_at(&self, place: Place, i: u8) -> Option<Place>
        requires { has self.now place }
        ensures { result ≡ edge self.now place i };

    /// How many fields a cell has, at most eight: from this number on they hold nothing.
    fn edge_count(&self, place: Place) -> u8
        requires { has self.now place }
        ensures most { result ≤ 8 }
        ensures past { (i : ℕ) → result ≤ i → i < 8 → edge self.now place i ≡ None };

    /// Whether the zone of a cell is marking. The cells of an arena lie in one zone.
    fn is_marking(&self, place: Place) -> bool
        requires { has self.now place }
        ensures { (slot : ℕ) → marking self.now (place.0, slot) ≡ result };

    /// A bound on edges: no set of cells has more edges than this together.
    fn most_edges(&self) -> usize
        requires { uncounted self.now }
        ensures { (ps : List (ℕ × ℕ)) → ((p : ℕ × ℕ) → times p ps ≤ 1) → All (has self.now) ps
            → weigh (degree (edge self.now)) ps ≤ result };
}
