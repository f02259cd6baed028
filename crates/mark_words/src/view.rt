// What a seat knows, for the proofs alone.
use std::collections::LinkedList;

/// What a seat did by itself, without the seats that were joined into it. No value of it is made.
pub struct MarkLog {
    /// The places, arena and slot, of the cells that it won, in order.
    pub won: LinkedList<(u32, u8)>,
    /// The places that it tried, in order.
    pub tried: LinkedList<(u32, u8)>,
}

/// A seat's view: what its steps, and those of the seats that were joined into it, have told it. No value of
/// it is made.
pub struct MarkView {
    /// The first value of each word.
    pub first: LinkedList<u64>,
    /// Its parts of the right to know everything.
    pub parts: u64,
    /// The places, arena and slot, of the cells that it won, in order.
    pub won: LinkedList<(u32, u8)>,
    /// The places that it tried, in order: those cells are black.
    pub known: LinkedList<(u32, u8)>,
    /// What it did by itself, and behind it what each seat that was joined into it did.
    pub logs: LinkedList<MarkLog>,
}
