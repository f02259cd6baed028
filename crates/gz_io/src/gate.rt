// A place where a test may hold up a helper or a marker.
ghost use Rattle.std.specs.Prelude.{ℕ, ⊤};

/// A place in the work of a helper or a marker.
#[derive(Clone, Copy, Debug, PartialEq, Eq)]
pub enum Point {
    /// An arena was claimed, and none of its words was loaded yet.
    Claimed,
    /// A marker is about to try a cell of an arena.
    Tried,
}

/// Is called by helpers and markers at each `Point`. It answers nothing and promises nothing, so a
/// test may wait in it and choose a schedule (our choice; Firefox has zeal modes that yield at such
/// points). Its two words are there for what helpers promise. Code that is generic over gates knows nothing of
/// either: it has `passed` by a call of `at` alone, and can't take another gate's `name` for this one's.
pub trait Gate {
    ghost use Rattle.gz_io.specs.declared.gate.Point.{Point};

    /// What a seat's view notes where a helper has passed a gate of this kind.
    ghost name: { ℕ } = { 0 };

    /// A helper stood at this point with this arena.
    ghost passed: { Self → Point → ℕ → Type 0 } = { λ _ _ _. ⊤ };

    /// A helper stands at this point with this arena, named by its number.
    fn at(&self, point: Point, arena: u32)
        ensures { passed self.now point arena };
}

/// The gate that does nothing.
#[derive(Clone, Copy, Debug, PartialEq, Eq)]
pub struct FreeGate;

impl Gate for FreeGate {
    fn at(&self, _point: Point, _arena: u32) {}
}
