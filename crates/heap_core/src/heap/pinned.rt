// Pinned roots: registers behind the sixteenth, as many as there is memory for.
ghost use Rattle.std.specs.Prelude.{◌≡◌, ◌+◌, ◌≤◌, ℕ, IfNone, IfOk, IfSome, None, OnErr};
ghost use Rattle.heap_core.specs.Heap.{with_reg};
ghost use Rattle.heap_core.specs.Pinned.{Pins, pinned_of};

use super::Heap;
use gz_names::{NoMemory, Place, Reg};

impl Heap {
    /// A pinned root that holds nothing holds a cell from now on. Returns its number. After `NoMemory` nothing changed.
    pub fn pin(&mut self, place: Place) -> Result<usize, NoMemory>
        ensures pins { IfOk result (λ root. Pins self.old place root self.new) }
        ensures err { OnErr result (self.new ≡ self.old) }
    {
        self.roots.pin(place)
    }

    /// What a pinned root holds.
    pub fn pinned(&self, root: usize) -> Option<Place>
        ensures { result ≡ pinned_of self.now root }
    {
        self.roots.pinned(root)
    }

    /// A register holds what a pinned root holds. `None` exactly where that holds nothing; then nothing changed.
    pub fn load(&mut self, r: Reg, root: usize) -> Option<Place>
        ensures held { result ≡ pinned_of self.old root }
        ensures loads { IfSome result (λ _. self.new ≡ with_reg self.old r (pinned_of self.old root)) }
        ensures none { IfNone result (self.new ≡ self.old) }
    {
        let held = self.pinned(root)?;
        self.set_reg(r, Some(held));
        Some(held)
    }

    /// A pinned root holds nothing any more, and its number may be given again. Returns what it held.
    pub fn unpin(&mut self, root: usize) -> Option<Place>
        ensures held { result ≡ pinned_of self.old root }
        ensures rest { self.new ≡ with_reg self.old (16 + root) None }
    {
        self.roots.unpin(root)
    }

    /// A number from which on no pinned root holds a cell.
    pub fn pinned_end(&self) -> usize
        ensures { (root : ℕ) → result ≤ root → pinned_of self.now root ≡ None }
    {
        self.roots.pinned_end()
    }
}
