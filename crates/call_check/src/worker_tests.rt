// Workers that wait for one another at gates, that rest, and that are woken.

use crate::calling::{SURE, gives, gives_by};
use crate::programs::{SIX_PRINT, TWO_PRINT};
use orca_names::{ActorName, NoMemory};
use outside_world::{Gate, HoldGate};
use std::process::Abort;
use std::sync::Wait;
use std::sync::atomic::{AtomicBool, AtomicU64, Ordering};
use std::test::Fail;
use std::thread;
use std::thread::Threads;
use std::time::Duration;

/// How often each run is made that has to end alike each time.
const RUNS: u32 = 200;

/// Whether two workers stand before segments of two actors at once.
fn meet<R: AllocGlobal + Threads + Wait + Sync>(rt: &R) -> Result<bool, NoMemory> {
    let gate = HoldGate::new(ActorName(1), ActorName(2), 1_000_000);
    let report = "1\n1\n--\nend quiet\nactors made 3 left 0\nobjects made 0 left 0\n";
    let input = TWO_PRINT.as_bytes();
    let well = gives_by(rt, &[], input, (SURE, SURE), &gate, 0, report.as_bytes())?;
    Ok(well && gate.met())
}

#[test]
fn two_workers_stand_before_their_segments_at_once(rt: HostRuntime) -> Result<(), Fail> {
    for run in 0..RUNS {
        assert!(rt; meet(&rt)?, "in run {run}");
    }
    Ok(())
}

/// How many milliseconds a gate waits at the most for what the other workers do.
const PATIENCE: u32 = 10_000;

/// For how many milliseconds a gate goes on holding a worker when the others have nothing left to do:
/// longer than they pause between two looks, so that all of them rest.
const HELD: u64 = 20;

/// A gate that holds the first segment of an actor until so many segments of others were entered, and
/// then until those who entered them rest.
#[derive(Drop)]
struct LateGate {
    late: ActorName,
    others: u64,
    came: AtomicBool,
    entered: AtomicU64,
}

impl LateGate {
    fn new(late: ActorName, others: u64) -> LateGate {
        LateGate {
            late,
            others,
            came: AtomicBool::new(false),
            entered: AtomicU64::new(0),
        }
    }

    /// Whether all segments of others were entered.
    fn is_last(&self) -> bool {
        self.entered.load(Ordering::SeqCst) == self.others
    }

    /// Whether the worker came, and was the last one.
    fn held(&self) -> bool {
        self.came.load(Ordering::SeqCst) && self.is_last()
    }

    fn hold<R: Wait>(&self, rt: &R) {
        let clock = AtomicU64::new(0);
        for _ in 0..PATIENCE {
            if self.is_last() {
                clock.park_timeout(rt, 0, Duration::from_millis(HELD));
                return;
            }
            clock.park_timeout(rt, 0, Duration::from_millis(1));
        }
    }
}

impl Gate for LateGate {
    fn enter<R: Wait>(&self, rt: &R, who: ActorName, _at: u64) {
        if who != self.late {
            self.entered.fetch_add(1, Ordering::SeqCst);
        } else if !self.came.swap(true, Ordering::SeqCst) {
            self.hold(rt);
        }
    }
}

/// Whether a run ends with all done, one of whose workers is late at the first segment of actor 1.
fn ends_late<R: AllocGlobal + Threads + Wait + Sync>(
    rt: &R,
    workers: &str,
) -> Result<bool, NoMemory> {
    let gate = LateGate::new(ActorName(1), 23);
    let report = "1\n1\n1\n1\n1\n1\n--\nend quiet\nactors made 7 left 0\nobjects made 0 left 0\n";
    let words = ["run", "--workers", workers];
    let input = SIX_PRINT.as_bytes();
    let well = gives_by(rt, &words, input, (SURE, SURE), &gate, 0, report.as_bytes())?;
    Ok(well && gate.held())
}

#[test]
fn a_run_ends_where_others_rest_before_a_late_worker(rt: HostRuntime) -> Result<(), Fail> {
    for workers in ["2", "3", "4", "8", "16"] {
        assert!(rt; ends_late(&rt, workers)?, "by {workers}");
    }
    Ok(())
}

/// How many seconds the runs of a ring may take.
const LIMIT: u32 = 40;

/// Runs that may not come to their end, and those who wait for it.
#[derive(Drop)]
struct Runs {
    /// 1 once they ended, else 0.
    over: AtomicU64,
}

impl Runs {
    /// Whether all runs of a ring by sixteen workers end quiet, and write the same.
    fn make<R: AllocGlobal + Threads + Wait + Sync>(&self, rt: &R) -> Result<bool, NoMemory> {
        let well = rings_end(rt);
        self.over.store(1, Ordering::SeqCst);
        self.over.wake_all();
        well
    }

    /// Waits for their end, as long as they may take: else a worker that nobody wakes would hold the test
    /// for ever.
    fn watch<R: Abort + Wait>(&self, rt: &R) {
        for _ in 0..LIMIT {
            self.over.park_timeout(rt, 0, Duration::from_secs(1));
            if self.over.load(Ordering::SeqCst) != 0 {
                return;
            }
        }
        panic!(rt; "the runs do not end")
    }
}

/// Whether so many runs of a ring by sixteen workers end quiet, and write the same.
fn rings_end<R: AllocGlobal + Threads + Wait + Sync>(rt: &R) -> Result<bool, NoMemory> {
    let report = "100\n--\nend quiet\nactors made 101 left 0\nobjects made 1 left 0\n";
    for _ in 0..RUNS {
        if !gives(rt, &["load", "100", "--workers", "16"], "", 0, report)? {
            return Ok(false);
        }
    }
    Ok(true)
}

#[test]
fn a_worker_that_sleeps_is_woken(rt: HostRuntime) -> Result<(), Fail> {
    let runs = Runs {
        over: AtomicU64::new(0),
    };
    let (_, well) = thread::join(&rt, || runs.watch(&rt), || runs.make(&rt));
    assert!(rt; well?);
    Ok(())
}
