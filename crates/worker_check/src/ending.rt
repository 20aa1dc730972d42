// How a toy run ends that workers work on. Workers that hang fail their test within seconds.

ghost use Rattle.std.specs.Prelude.{◌≡◌, All};

use crate::toy::{Toy, ToyPass, passes};
use outside_world::Gate;
use std::process::Abort;
use std::sync::atomic::{AtomicU64, Ordering};
use std::sync::{Mutex, Wait};
use std::thread;
use std::thread::Threads;
use std::time::Duration;
use steal_pool::work;
use work_board::Board;

/// How often one looks whether the workers are done, every ten milliseconds.
const LOOKS: u32 = 2000;

// Waits until the work is done.
fn watch<R: Abort + Wait>(rt: &R, done: &AtomicU64) {
    for _ in 0..LOOKS {
        done.park_timeout(rt, 0, Duration::from_millis(10));
        if done.load(Ordering::SeqCst) != 0 {
            return;
        }
    }
    panic!(rt; "the workers hang")
}

/// Works on the boards, within seconds.
pub(crate) fn work_in_time<R, B, G>(rt: &R, boards: &mut [B], gate: &G)
where
    R: Abort + AllocGlobal + Threads + Wait + Sync,
    B: Board + Send,
    G: Gate + Sync,
    requires { All (λ b. B.out b ≡ 0) boards.old }
{
    let done = AtomicU64::new(0);
    thread::join(
        rt,
        || watch(rt, &done),
        ||
            requires { All (λ b. B.out b ≡ 0) boards.now }
        {
            work(rt, rt.alloc(), boards, gate);
            done.store(1, Ordering::SeqCst);
            done.wake_all();
        },
    );
}

/// What is seen of a run at its end: whether each board has ended, and how many entries were made and
/// stops were asked.
#[derive(Clone, Copy)]
pub(crate) struct End {
    pub(crate) ended: bool,
    pub(crate) entries: u64,
    pub(crate) stops: u64,
}

impl End {
    /// Whether it is the end of a run of so many entries that nobody stopped.
    pub(crate) fn is_whole(&self, entries: u64) -> bool {
        self.ended && self.entries == entries && self.stops == 0
    }
}

// Whether each board has ended after that.
fn all_end<R, G>(rt: &R, boards: &mut [ToyPass<'_>], gate: &G) -> bool
where
    R: Abort + AllocGlobal + Threads + Wait + Sync,
    G: Gate + Sync,
    requires { All (λ b. b.out ≡ 0) boards.old }
{
    work_in_time(rt, boards, gate);
    boards.iter().all(|board| board.ended)
}

/// How the run ends by so many workers.
pub(crate) fn end_by<R, G>(rt: &R, toy: &Mutex<Toy>, workers: u32, rich: bool, gate: &G) -> End
where
    R: Abort + AllocGlobal + Threads + Wait + Sync,
    G: Gate + Sync,
{
    let mut boards = passes(rt.alloc(), toy, workers, rich).expect(rt, "memory");
    let ended = all_end(rt, &mut boards, gate);
    let toy = toy.lock(rt);
    End {
        ended,
        entries: toy.entries,
        stops: toy.stops,
    }
}
