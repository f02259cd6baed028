// Targets on their way into a list of tries.
ghost use Rattle.std.specs.Prelude.{◌≡◌, ◌+◌, ◌<◌, ◌≤◌, ◌∷◌, ◌++◌, [], true, false, length};
ghost use Rattle.std.specs.VecDeque.{deque_len, deque_capacity};

use gz_names::Place;
use std::collections::VecDeque;
use std::marker::Model;

// How many targets one cell has, at most.
const A_CELL: usize = 8;

/// At most 64 targets, in the order in which they were found. It takes no memory.
#[derive(Drop)]
pub(crate) struct Found {
    places: [Place; 64],
    count: usize,
}

impl Model for Found {
    ghost use Rattle.std.specs.Prelude.{◌≡◌, ◌≤◌, ℕ, List, length, take};

    ghost Value = { List (ℕ × ℕ) };

    ghost view = { λ f. take f.count f.places };

    ghost invariant = { λ f. (f.count ≤ 64) × (length f.places ≡ 64) };
}

impl Found {
    pub(crate) fn new() -> Self
        ensures { result ≡ [] }
    {
        Found {
            places: [Place::first_of(0); 64],
            count: 0,
        }
    }

    /// Adds a target if it is to be tried. This takes no branch, since a processor foretells badly whether a target is
    /// black.
    #[inline(always)]
    pub(crate) fn push_if(&mut self, place: Place, is_try: bool)
        requires { length self.old < 64 }
        ensures yes { is_try ≡ true → self.new ≡ self.old ++ place ∷ [] }
        ensures no { is_try ≡ false → self.new ≡ self.old }
    {
        self.places[self.count] = place;
        self.count += usize::from(is_try);
    }

    /// Makes room for the targets of a cell: if there is none, all that was found goes to the tries.
    #[inline(always)]
    pub(crate) fn make_room(&mut self, tries: &mut VecDeque<Place>)
        requires room { deque_len tries.old + length self.old ≤ deque_capacity tries.old }
        ensures all { tries.new.items ++ self.new ≡ tries.old.items ++ self.old }
        ensures few { length self.new + 8 ≤ 64 }
        ensures room { deque_capacity tries.new ≡ deque_capacity tries.old }
    {
        if self.count > self.places.len() - A_CELL {
            self.move_to(tries);
        }
    }

    /// Takes all out, and adds them to the tries.
    pub(crate) fn move_to(&mut self, tries: &mut VecDeque<Place>)
        requires room { deque_len tries.old + length self.old ≤ deque_capacity tries.old }
        ensures all { tries.new.items ≡ tries.old.items ++ self.old }
        ensures none { self.new ≡ [] }
        ensures room { deque_capacity tries.new ≡ deque_capacity tries.old }
    {
        for place in &self.places[..self.count] {
            tries.push_back_reserved(*place);
        }
        self.count = 0;
    }
}
