// The names of actors that workers keep for one another, and what one sees of the others.

use crossbeam_deque::{Steal, Stealer, Worker};
use crossbeam_utils::CachePadded;
use orca_names::ActorName;
use std::alloc::Global;
use std::hint;
use std::sync::OnceLock;
use std::sync::atomic::{AtomicU64, Ordering};

/// The most names that a deque keeps.
const DEQUE_ROOM: usize = 64;

/// For how many pauses of a spinning loop an evaluation has to go on before others join: two microseconds
/// on some processors, a fifth of one on others. Of shorter ones several workers would do less than one,
/// since they would wait for one another at their boards.
const A_WHILE: u32 = 32;

/// What the others see of a worker.
#[derive(Drop)]
pub(crate) struct Place {
    /// By what they steal from it.
    stealer: OnceLock<Stealer<ActorName>>,
    /// How many evaluations it began and ended, counted together: odd while it is at one.
    steps: CachePadded<AtomicU64>,
}

impl Place {
    /// The place of a worker that has not begun.
    pub(crate) fn new() -> Place {
        Place {
            stealer: OnceLock::new(),
            steps: CachePadded::new(AtomicU64::new(0)),
        }
    }

    // Whether the worker is at one evaluation for a while.
    fn is_long_at_one(&self) -> bool {
        let steps = self.steps.load(Ordering::SeqCst);
        if steps % 2 == 0 {
            return false;
        }
        for _ in 0..A_WHILE {
            hint::spin_loop();
        }
        self.steps.load(Ordering::SeqCst) == steps
    }
}

/// The names that one worker may try: those on its own deque, and those on the others'. A name is only
/// a hint: it may be lost, and its actor may have no event any more.
#[derive(Drop)]
pub(crate) struct Hints<'p> {
    deque: Option<Worker<ActorName>>,
    places: &'p [Place],
    number: usize,
}

impl<'p> Hints<'p> {
    /// The hints of the worker with this number. Where there is no memory for a deque it has none.
    pub(crate) fn open(alloc: Global, places: &'p [Place], number: usize) -> Hints<'p> {
        Hints {
            deque: open_deque(alloc, places, number),
            places,
            number,
        }
    }

    /// The oldest name of its own.
    pub(crate) fn next(&mut self) -> Option<ActorName> {
        self.deque.as_mut()?.pop()
    }

    /// A name of another worker.
    pub(crate) fn steal(&self) -> Option<ActorName> {
        steal(self.places, self.number)
    }

    /// Keeps a name. One that finds no room is forgotten.
    pub(crate) fn keep(&mut self, name: ActorName) {
        if let Some(deque) = &mut self.deque {
            let _ = deque.push(name);
        }
    }

    /// Lets the others see that the worker begins an evaluation, or ends it.
    pub(crate) fn step(&self) {
        if let Some(place) = self.places.get(self.number) {
            place.steps.fetch_add(1, Ordering::SeqCst);
        }
    }

    /// Whether it pays to join the others: one of them is at an evaluation for a while, or none is seen.
    pub(crate) fn may_join(&self) -> bool {
        self.places.is_empty() || self.places.iter().any(|place| place.is_long_at_one())
    }
}

// A deque from which others steal by its place.
fn open_deque(alloc: Global, places: &[Place], number: usize) -> Option<Worker<ActorName>> {
    let place = places.get(number)?;
    let deque = Worker::new_fifo(alloc, DEQUE_ROOM).ok()?;
    let stealer = deque.stealer().ok()?;
    let _ = place.stealer.try_set(stealer);
    Some(deque)
}

// A name of another worker. Each begins with the worker behind it, so that not all try the same one.
fn steal(places: &[Place], number: usize) -> Option<ActorName> {
    let (before, behind) = places.split_at(number.min(places.len()));
    behind.iter().chain(before.iter()).find_map(steal_from)
}

fn steal_from(place: &Place) -> Option<ActorName> {
    match place.stealer.get()?.steal() {
        Steal::Success(name) => Some(name),
        _ => None,
    }
}
