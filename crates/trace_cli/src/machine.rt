// Where the reading loop stands.
ghost use Rattle.std.specs.Prelude.{IfOk};
ghost use Rattle.trace_cli.specs.Standing.{IsNew};

use crate::exit::Exit;
use crate::pending::Pending;
use arena_table::Jobs;
use gz_names::NoMemory;
use slice_driver::Collector;
use std::alloc::Global;

/// The reading loop between two steps of it.
#[derive(Drop)]
pub struct Machine {
    pub collector: Collector,
    /// How many lines have their whole reply.
    pub answered: u64,
    /// What is left of the line that was read last.
    pub pending: Option<Pending>,
}

impl Machine {
    /// The loop before its first line, over a new collector.
    pub fn new(alloc: Global) -> Result<Self, NoMemory>
        ensures { IfOk result IsNew }
    {
        let collector = Collector::new(alloc)?;
        Ok(Machine {
            collector,
            answered: 0,
            pending: None,
        })
    }
}

/// Why the loop pauses.
#[derive(Drop)]
pub enum Pause {
    /// It does not: it goes on.
    None,
    /// The last arena was taken in.
    BoardEmpty,
    /// The marking of a `collect` began.
    MarkingBegan,
    /// Arenas are to be swept.
    Sweep(Jobs),
    /// The replay is over.
    Over(Exit),
}
