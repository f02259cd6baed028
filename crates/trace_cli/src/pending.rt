// What is left to do of a line.
ghost use Rattle.std.specs.Prelude.{◌≡◌, ◌<◌, ◌≤◌, ◌+◌, ◌^◌};
ghost use Rattle.trace_cli.specs.Pending.{after, done_of, limit_of, reply_of};

use gz_names::Reply;

/// What is left to do of a line that goes on with a collection: its units, or giving it up, and its last line.
#[derive(Clone, Copy, Debug, PartialEq, Eq)]
pub enum Pending {
    /// `collect`: units until the collection is over.
    Collect,
    /// `slice`: at most `left` units more, after `done` of them.
    Slice { left: u64, done: u64 },
    /// `finish`: units until the collection is over, after `done` of them.
    Finish { done: u64 },
    /// `reset`: the arenas that are out are taken in, and the collection is given up.
    Reset,
}

impl Pending {
    /// How many units it still asks for at most.
    pub fn limit(&self) -> u64
        ensures { result ≡ limit_of self.now }
    {
        match self {
            Pending::Slice { left, done: _ } => *left,
            Pending::Collect | Pending::Finish { done: _ } | Pending::Reset => u64::MAX,
        }
    }

    /// Counts units that were done.
    pub fn count(&mut self, units: u64)
        requires most { units ≤ limit_of self.old }
        requires small { done_of self.old + units < 2 ^ 64 }
        ensures { self.new ≡ after units self.old }
    {
        match self {
            Pending::Collect | Pending::Reset => {}
            Pending::Slice { left, done } => {
                *left -= units;
                *done += units;
            }
            Pending::Finish { done } => *done += units,
        }
    }

    /// The last line's reply.
    pub fn reply(&self) -> Reply
        ensures { result ≡ reply_of self.now }
    {
        match self {
            Pending::Collect => Reply::Collected,
            Pending::Reset => Reply::ResetDone,
            Pending::Slice { left: _, done } | Pending::Finish { done } => Reply::Sliced(*done),
        }
    }
}
