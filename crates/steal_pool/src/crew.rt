// The workers of a pool, as far as they know of one another.

use crate::hints::Hints;
use std::sync::Wait;
use std::sync::atomic::{AtomicU64, Ordering};
use std::time::Duration;

/// The first pause of a worker that finds nothing to do, in nanoseconds. Each further one is twice as
/// long.
pub(crate) const FIRST_PAUSE: u64 = 50_000;

/// The longest pause, in nanoseconds.
const LONGEST_PAUSE: u64 = 6_400_000;

/// How many workers are awake, and whether one has ended. None of it is a promise: that a worker rests,
/// or for how long, changes nothing that is said of the run.
#[derive(Drop)]
pub(crate) struct Crew {
    awake: AtomicU64,
    /// 1 once a worker has ended, else 0.
    over: AtomicU64,
}

impl Crew {
    /// No worker has begun.
    pub(crate) fn new() -> Crew {
        Crew {
            awake: AtomicU64::new(0),
            over: AtomicU64::new(0),
        }
    }

    /// A worker is awake.
    pub(crate) fn rise(&self) {
        self.awake.fetch_add(1, Ordering::SeqCst);
    }

    /// Whether no other worker than the one that asks is awake.
    pub(crate) fn is_alone(&self) -> bool {
        self.awake.load(Ordering::SeqCst) < 2
    }

    /// Rests until a worker has ended, or one may be joined, and tells the next pause. The last one that
    /// is awake doesn't rest.
    pub(crate) fn rest<R: Wait>(&self, rt: &R, hints: &Hints, pause: u64) -> u64 {
        if self.awake.fetch_sub(1, Ordering::SeqCst) == 1 {
            self.rise();
            return pause;
        }
        let next = self.doze(rt, hints, pause);
        self.rise();
        next
    }

    // Pauses again and again, each time for twice as long.
    fn doze<R: Wait>(&self, rt: &R, hints: &Hints, first: u64) -> u64 {
        let mut pause = first;
        for _ in rt.forever() {
            self.over.park_timeout(rt, 0, Duration::from_nanos(pause));
            pause = pause.saturating_mul(2).min(LONGEST_PAUSE);
            if self.over.load(Ordering::SeqCst) != 0 || hints.may_join() {
                return pause;
            }
        }
        unreachable!()
    }

    /// A worker ends. The others look up, since they may end too.
    pub(crate) fn leave(&self) {
        self.awake.fetch_sub(1, Ordering::SeqCst);
        self.over.store(1, Ordering::SeqCst);
        self.over.wake_all();
    }
}
