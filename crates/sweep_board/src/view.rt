// What a seat knows, for the proofs alone.
use cell_bits::Job;
use std::collections::LinkedList;

/// Whose a seat is.
pub enum Role {
    Main,
    Helper,
    /// Nobody's: its knowledge went to main's seat as the two were joined.
    Spent,
}

/// How far a helper is with the arena that it claimed, and what it has loaded.
pub enum Stage {
    /// It holds no claim.
    Free,
    Claimed(usize),
    LoadedBlack(usize, u64),
    LoadedBoth(usize, u64, u64),
    StoredFreed(usize),
}

/// What a helper's seat came to at an arena.
pub enum Visit {
    /// A claim that another seat had won.
    Passed(usize),
    /// A gate, named by a number, after the claim and before any load.
    AtGate(usize, u64),
    /// The end of its sweep.
    Swept(usize),
}

/// A seat's view: what its steps have told it. It changes only as the seat makes a step, and no
/// value of it is made.
pub struct View {
    /// The board's jobs, which never change.
    pub jobs: LinkedList<Job>,
    pub role: Role,
    pub stage: Stage,
    /// Arenas that were seen claimed or done.
    pub passed: LinkedList<usize>,
    /// Arenas that the seat made done, or saw done.
    pub finished: LinkedList<usize>,
    /// Arenas that the seat made done by its own sweep, the newest first. Main's seat takes over
    /// those of each seat that it joins.
    pub swept: LinkedList<usize>,
    /// What a helper's seat came to, in order, the newest first.
    pub visits: LinkedList<Visit>,
    /// What main woke, the newest first: arenas and masks.
    pub woken: LinkedList<(usize, u64)>,
    /// What main saw of arenas that were not done: arenas and state words.
    pub looked: LinkedList<(usize, u64)>,
    /// Arenas that main took in.
    pub taken: LinkedList<usize>,
    /// The helper seats that main split off and has not joined.
    pub helpers: u64,
}
