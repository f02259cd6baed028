// The queue between the two callers.
ghost use Rattle.std.specs.Prelude.{◌≡◌, [], IfOk};
ghost use Rattle.crossbeam_queue.specs.Passes.{view, IsPassOf};

use crate::donations::{QueuePass, Ring};
use gz_names::NoMemory;
use mark_words::PlaceList;
use std::alloc::Global;

// How many tries the queue holds.
const QUEUE_ROOM: usize = 256;

/// Tries that one caller gives away and another takes.
#[derive(Drop)]
pub struct Queue<L: PlaceList> {
    pub(crate) ring: Ring<L>,
    pub(crate) pass: QueuePass,
    ghost own: { IsPassOf ring pass },
}

impl<L: PlaceList> Queue<L> {
    ghost use Rattle.par_mark.specs.Queues.{IsUnused};

    /// An empty queue.
    pub fn new(alloc: Global) -> Result<Queue<L>, NoMemory>
        ensures { IfOk result IsUnused }
    {
        let (ring, pass) = Ring::<L>::ruled(alloc, QUEUE_ROOM)?;
        Ok(Queue { ring, pass })
    }
}
