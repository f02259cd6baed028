// The lists of a caller.
use crossbeam_utils::CachePadded;
use gz_names::Place;
use std::collections::VecDeque;

/// How many tries a caller makes in a turn, at most.
pub(crate) const BATCH: usize = 64;

/// What a caller has to try, what it won and has not scanned yet, and what it found outside the marking zones.
#[derive(Drop)]
pub(crate) struct Lists {
    /// What it has to try, the newest at the back.
    pub(crate) tries: CachePadded<VecDeque<Place>>,
    pub(crate) won: Vec<Place>,
    pub(crate) outside: Vec<Place>,
}
