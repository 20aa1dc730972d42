// Names of actors and objects, and what a program computes with.

ghost use Rattle.std.specs.Prelude.{◌≡◌, nat_eq};
ghost use Rattle.std.proofs.Common.{rules};
ghost use Rattle.std.specs.Cmp.{partial_order_from_own_ties};
ghost use Rattle.std.specs.Cmp.Rules.{comparing};
ghost use Rattle.std.specs.Ordering.{as_partial_cmp};
ghost use Rattle.orca_names.specs.Names.{owner_of, thing_cmp, thing_of};

use std::cmp::Ordering;
use std::marker::Model;

/// An actor, named by the number of actors that were made before it. A name is never used again.
#[derive(Clone, Copy, Debug, PartialEq, Eq, PartialOrd, Ord, Hash)]
pub struct ActorName(pub u32);

impl Model for ActorName {
    ghost use Rattle.std.specs.Prelude.{ℕ};

    ghost Value = { ℕ };

    ghost view = { λ a. a.0 };

    ghost inverse = { λ n. record { 0 = n } };
}

/// The number of an object among those of its owner, seen as that number. It is kept in two halves,
/// so that a name takes twelve bytes and a value sixteen; the low half first, so that the processor
/// reads both at once.
#[derive(Clone, Copy, Debug, Hash)]
pub struct Serial {
    low: u32,
    high: u32,
}

impl Model for Serial {
    ghost use Rattle.std.specs.Prelude.{ℕ, ◌+◌, ◌*◌, ◌/◌, ◌%◌, ◌^◌, ◌<◌};
    ghost use Rattle.orca_names.specs.Halves.{high_half, low_half};

    ghost Value = { ℕ };

    ghost view = { λ s. s.high * 2 ^ 32 + s.low };

    ghost invariant = { λ s. s.low < 2 ^ 32 };

    ghost inverse = { λ n. record { high = n / 2 ^ 32; low = n % 2 ^ 32 } };

    ghost inverse_ok = { λ s kept i. record { high = high_half s.high s.low kept i; low = low_half s.high s.low kept i } };
}

impl Serial {
    /// The serial of this number.
    pub const fn of(number: u64) -> Serial
        ensures { result ≡ number }
    {
        Serial {
            high: (number >> 32) as u32,
            low: (number & 0xffff_ffff) as u32,
        }
    }

    /// The number.
    pub fn get(&self) -> u64
        ensures { result ≡ self.now }
    {
        (u64::from(self.high) << 32) | u64::from(self.low)
    }
}

impl PartialEq for Serial {
    ghost eq = { nat_eq };

    ghost laws = { Prim.search (comparing, rules) };

    fn eq(&self, other: &Serial) -> bool {
        self.get() == other.get()
    }
}

impl Eq for Serial {
    ghost laws = { Prim.search rules };
}

/// An object, named by its owner, which is the actor that made it, and by the number of objects
/// that this owner made before it. A name is never used again.
#[derive(Clone, Copy, Debug, PartialEq, Eq, Hash)]
pub struct ObjName {
    pub owner: ActorName,
    pub serial: Serial,
}

/// What is counted and collected: an actor or an object.
#[derive(Clone, Copy, Debug, PartialEq, Eq, Hash)]
pub enum Thing {
    Actor(ActorName),
    Obj(ObjName),
}

impl Thing {
    /// The actor on whose heap the thing stands; an actor is its own owner.
    pub fn owner(&self) -> ActorName
        ensures { result ≡ owner_of self.now }
    {
        match self {
            Thing::Actor(a) => *a,
            Thing::Obj(n) => n.owner,
        }
    }
}

/// By owner; the actor itself comes before its objects, these by serial.
impl Ord for Thing {
    ghost cmp = { thing_cmp };

    ghost total = { Prim.search (comparing, rules) };

    ghost matches_partial_cmp = { Prim.search (comparing, rules) };

    ghost matches_eq = { Prim.search (comparing, rules) };

    fn cmp(&self, other: &Thing) -> Ordering {
        let mine = self.owner().0;
        let others = other.owner().0;
        if mine < others {
            return Ordering::Less;
        }
        if others < mine {
            return Ordering::Greater;
        }
        match self {
            Thing::Actor(_) => match other {
                Thing::Actor(_) => Ordering::Equal,
                Thing::Obj(_) => Ordering::Less,
            },
            Thing::Obj(n) => match other {
                Thing::Actor(_) => Ordering::Greater,
                Thing::Obj(m) => n.serial.get().cmp(&m.serial.get()),
            },
        }
    }
}

impl PartialOrd for Thing {
    ghost partial_cmp = { as_partial_cmp thing_cmp };

    ghost laws = { partial_order_from_own_ties (Prim.search (comparing, rules)) (Prim.search (comparing, rules)) };

    fn partial_cmp(&self, other: &Thing) -> Option<Ordering> {
        Some(self.cmp(other))
    }
}

/// What a register, a field, an argument or a place of a row holds.
#[derive(Clone, Copy, Debug, PartialEq, Eq, Hash)]
pub enum Value {
    Null,
    /// A whole number of 64 bits.
    Num(u64),
    Actor(ActorName),
    Obj(ObjName),
}

impl Value {
    /// The actor or object that the value is, `None` where it is neither.
    pub fn thing(&self) -> Option<Thing>
        ensures { result ≡ thing_of self.now }
    {
        match self {
            Value::Null => None,
            Value::Num(_) => None,
            Value::Actor(a) => Some(Thing::Actor(*a)),
            Value::Obj(n) => Some(Thing::Obj(*n)),
        }
    }
}
