// A gate at which two actors meet.

ghost use Rattle.std.specs.Prelude.{◌≡◌, ◌&&◌};
ghost use Rattle.outside_world.specs.Meeting.{stays};

use crate::gate::Gate;
use orca_names::ActorName;
use std::marker::Model;
use std::sync::Wait;
use std::sync::atomic::{AtomicBool, Ordering};
use std::thread;

/// What is known of one of the two: whether a segment of it was entered, and whether it then gave up
/// waiting for the other.
#[derive(Clone, Copy)]
struct Standing {
    entered: bool,
    gave_up: bool,
}

impl Standing {
    // Whether it came, and did not go on alone.
    fn stays(self) -> bool
        ensures { result ≡ stays self.entered self.gave_up }
    {
        self.entered && !self.gave_up
    }
}

// Whether both came, and neither went on alone.
fn have_met(one: Standing, other: Standing) -> bool
    ensures { result ≡ (stays one.entered one.gave_up && stays other.entered other.gave_up) }
{
    one.stays() && other.stays()
}

/// One of the two.
#[derive(Drop)]
struct Guest {
    name: ActorName,
    entered: AtomicBool,
    gave_up: AtomicBool,
}

impl Guest {
    fn new(name: ActorName) -> Guest
        ensures { result.name ≡ name }
    {
        Guest {
            name,
            entered: AtomicBool::new(false),
            gave_up: AtomicBool::new(false),
        }
    }

    fn standing(&self) -> Standing {
        Standing {
            entered: self.entered.load(Ordering::SeqCst),
            gave_up: self.gave_up.load(Ordering::SeqCst),
        }
    }

    // Enters; the first time it waits for the other.
    fn enter(&self, other: &Guest, tries: u64) {
        if self.entered.swap(true, Ordering::SeqCst) {
            return;
        }
        for _ in 0..tries {
            if other.entered.load(Ordering::SeqCst) {
                return;
            }
            thread::yield_now();
        }
        self.gave_up.store(true, Ordering::SeqCst);
    }
}

/// A gate for tests, which shows that two workers stand before a segment at the same time: it holds
/// the first segment of each of two actors until one of the other was entered. Who has looked `tries`
/// times in vain gives up and goes on.
#[derive(Drop)]
pub struct HoldGate {
    one: Guest,
    other: Guest,
    tries: u64,
}

impl Model for HoldGate {
    ghost use Rattle.outside_world.specs.Meeting.{Meeting};

    ghost Value = { Meeting };

    ghost view = { λ g. record { one = g.one.name; other = g.other.name; tries = g.tries } };
}

impl HoldGate {
    /// A gate for these two actors, neither of which was entered yet.
    pub fn new(one: ActorName, other: ActorName, tries: u64) -> HoldGate
        ensures { result ≡ record { one = one; other = other; tries = tries } }
    {
        HoldGate {
            one: Guest::new(one),
            other: Guest::new(other),
            tries,
        }
    }

    /// Whether a segment of each was entered and neither gave up. No clause says so: it reads flags that
    /// threads share, and a contract knows nothing of what such a flag has.
    pub fn met(&self) -> bool {
        have_met(self.one.standing(), self.other.standing())
    }
}

impl Gate for HoldGate {
    fn enter<R: Wait>(&self, _rt: &R, who: ActorName, _at: u64) {
        if who == self.one.name {
            self.one.enter(&self.other, self.tries);
        } else if who == self.other.name {
            self.other.enter(&self.one, self.tries);
        }
    }
}
