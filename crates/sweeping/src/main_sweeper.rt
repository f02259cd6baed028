// The arenas that are out, while main sweeps them by itself.
ghost use Rattle.std.specs.Prelude.{◌≡◌, []};
ghost use Rattle.cell_bits.specs.Colours.{unit};
ghost use Rattle.sweeping.specs.ArenasOut.{flown_by, outs_of};

use crate::arenas_out::{Sweeper, Sweeping};
use arena_table::Jobs;
use cell_bits::{Colour, Flight, Job, Taken, find_job};
use std::alloc::Global;
use std::collections::LinkedList;
use std::marker::Model;

/// The arenas that are handed to sweeping and are not taken in, ascending. Main sweeps each as it
/// takes it in.
#[derive(Drop)]
pub struct MainSweeper {
    jobs: Vec<Job>,
    // The first job that is left.
    next: usize,
}

impl Model for MainSweeper {
    ghost use Rattle.std.specs.Prelude.{List, drop, length, ◌≤◌};
    ghost use Rattle.cell_bits.specs.declared.jobs.Job.{Job as AJob};
    ghost use Rattle.sweeping.specs.ArenasOut.{Ascend, outs_of};

    ghost Value = { List AJob };

    ghost view = { λ s. drop s.next s.jobs.items };

    ghost invariant = { λ s. (s.next ≤ length s.jobs.items) × Ascend (outs_of (drop s.next s.jobs.items)) };
}

impl MainSweeper {
    /// No arena.
    pub fn new(alloc: Global) -> Self
        ensures { result ≡ [] }
    {
        MainSweeper {
            jobs: Vec::new(alloc),
            next: 0,
        }
    }

    // The jobs that are left.
    fn left(&self) -> &[Job]
        ensures { result.now ≡ self.now }
    {
        &self.jobs[self.next..]
    }
}

impl Flight for MainSweeper {
    type Origin = LinkedList<(u32, u64)>;

    ghost origin = { outs_of };

    ghost bits = { flown_by };

    fn colour(&mut self, arena: u32, slot: u8) -> Colour {
        match find_job(self.left(), arena) {
            Some(i) => self.jobs[self.next + i].bits.colour(slot),
            None => unreachable!(),
        }
    }

    fn wake(&mut self, arena: u32, mask: u64) {
        match find_job(self.left(), arena) {
            Some(i) => self.jobs[self.next + i].bits.black |= mask,
            None => unreachable!(),
        }
    }
}

impl Sweeping for MainSweeper {
    type Home = ();

    ghost home = { λ _. unit };

    ghost left = { λ outs. outs };

    fn is_empty(&self) -> bool {
        self.next == self.jobs.len()
    }

    fn take_lowest(&mut self) -> Taken {
        let job = self.jobs[self.next];
        self.next += 1;
        Taken {
            freed: job.bits.white_mask(job.alloc_word),
            bits: job.bits,
        }
    }
}

impl Sweeper for MainSweeper {
    fn take_over(&mut self, jobs: Option<Jobs>) {
        if let Some(jobs) = jobs {
            self.jobs = jobs.into_vec();
            self.next = 0;
        }
    }
}
