// Callers that have nothing to try.
use std::hint::spin_loop;
use std::sync::Wait;
use std::sync::atomic::{AtomicU64, Ordering};
use std::time::Duration;

// How many callers there are.
const CALLERS: u64 = 2;

// From this look on a caller that waits sleeps before the next one, for about as many microseconds.
const SPINS: u32 = 100;

const NAP: u64 = 20;

/// How many callers have nothing to try. No more depends on it than how long a caller waits for tries.
#[derive(Drop)]
pub(crate) struct Idle {
    callers: AtomicU64,
}

impl Idle {
    /// None.
    pub(crate) fn new() -> Idle {
        Idle {
            callers: AtomicU64::new(0),
        }
    }

    /// A caller has nothing to try, as this look tells, the first one or a later one. If the other caller sleeps, it
    /// goes on.
    pub(crate) fn enter(&self, look: u32) {
        if look == 0 {
            self.callers.fetch_add(1, Ordering::SeqCst);
            self.callers.wake_all();
        }
    }

    /// A caller has found something to try by this look.
    pub(crate) fn leave(&self, look: u32) {
        if look > 0 {
            self.callers.fetch_sub(1, Ordering::SeqCst);
        }
    }

    /// Whether neither caller has anything to try.
    pub(crate) fn are_all(&self) -> bool {
        self.callers.load(Ordering::SeqCst) >= CALLERS
    }

    /// Waits before a caller that is idle looks again. After the first looks it sleeps, for as long as the other one
    /// works and for some microseconds at most.
    pub(crate) fn wait<R: Wait>(&self, rt: &R, look: u32) {
        if look < SPINS {
            spin_loop();
        } else {
            self.callers.park_timeout(rt, 1, Duration::from_micros(NAP));
        }
    }

    /// Sleeps for some microseconds, while neither caller is idle. A thread that was made just now may have to wait for
    /// the processor of the one that made it, for up to some milliseconds if that one goes on at once.
    pub(crate) fn let_start<R: Wait>(&self, rt: &R) {
        self.callers.park_timeout(rt, 0, Duration::from_micros(1));
    }
}
