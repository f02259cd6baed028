// What is handed to sweeping, and what comes back.
ghost use Rattle.std.specs.Prelude.{◌≡◌, ◌==◌, position};
ghost use Rattle.cell_bits.specs.Jobs.{ArenasAscend};

use crate::bits::Bits;

/// An arena handed to sweeping: its number, the slots at which cells stand, and its bits then.
#[derive(Clone, Copy, Debug, PartialEq, Eq)]
pub struct Job {
    pub arena: u32,
    pub alloc_word: u64,
    pub bits: Bits,
}

/// An arena as it comes back from sweeping: the slots of its white cells at hand-out, and its bits
/// with every wake since.
#[derive(Clone, Copy, Debug, PartialEq, Eq)]
pub struct Taken {
    pub freed: u64,
    pub bits: Bits,
}

/// Where the job of an arena stands in jobs whose arenas ascend. It takes as many steps as the number of jobs has
/// binary digits.
pub fn find_job(jobs: &[Job], arena: u32) -> Option<usize>
    requires { ArenasAscend jobs.now }
    ensures { result ≡ position (λ job. job.arena == arena) jobs.now }
{
    match jobs.binary_search_by_key(&arena, |job| job.arena) {
        Ok(index) => Some(index),
        Err(_) => None,
    }
}
