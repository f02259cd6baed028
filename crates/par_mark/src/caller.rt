// What a caller needs.
use crate::donations::QueuePass;
use crate::lists::Lists;
use mark_words::Seat;

/// What one of the two callers marks with.
#[derive(Drop)]
pub(crate) struct Caller {
    pub(crate) seat: Seat,
    pub(crate) pass: QueuePass,
    pub(crate) lists: Lists,
}
