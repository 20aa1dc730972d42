// What an owner counts.

ghost use Rattle.std.specs.Prelude.{◌≡◌, ◌+◌, ◌-◌, ◌<◌, ◌≤◌};
ghost use Rattle.ref_weights.specs.Limit.{count_limit};

use std::marker::Model;

/// How often a thing is held by others and loaded by letters, as far as its owner was told.
#[derive(Clone, Copy, Debug, PartialEq, Eq)]
pub struct OwnCount {
    count: u64,
}

impl Model for OwnCount {
    ghost use Rattle.std.specs.Prelude.{ℕ, ◌<◌};
    ghost use Rattle.ref_weights.specs.Limit.{count_limit};

    ghost Value = { ℕ };

    ghost view = { λ c. c.count };

    ghost invariant = { λ c. c.count < count_limit };

    ghost inverse = { λ n. record { count = n } };
}

impl OwnCount {
    /// Nobody holds the thing yet.
    pub const fn new() -> OwnCount
        ensures { result ≡ 0 }
    {
        OwnCount { count: 0 }
    }

    /// The count.
    pub fn get(&self) -> u64
        ensures count { result ≡ self.now }
        ensures bound { result < count_limit }
    {
        self.count
    }

    /// A letter that loads the thing is sent, or an increment is taken.
    pub fn raise(&mut self, n: u64)
        requires { self.old + n < count_limit }
        ensures { self.new ≡ self.old + n }
    {
        self.count += n;
    }

    /// A letter that loads the thing is taken, or a decrement is.
    pub fn lower(&mut self, n: u64)
        requires { n ≤ self.old }
        ensures { self.new ≡ self.old - n }
    {
        self.count -= n;
    }
}
