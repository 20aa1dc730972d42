// What an actor holds of another's thing.

ghost use Rattle.std.specs.Prelude.{◌≡◌, ◌+◌, ◌-◌, ◌<◌};
ghost use Rattle.ref_weights.specs.Limit.{count_limit};

use std::marker::Model;

/// The count that an actor holds on a thing of another.
#[derive(Clone, Copy, Debug, PartialEq, Eq)]
pub struct Held {
    count: u64,
}

impl Model for Held {
    ghost use Rattle.std.specs.Prelude.{ℕ, ◌<◌};
    ghost use Rattle.ref_weights.specs.Limit.{count_limit};

    ghost Value = { ℕ };

    ghost view = { λ h. h.count };

    ghost invariant = { λ h. h.count < count_limit };

    ghost inverse = { λ n. record { count = n } };
}

impl Held {
    /// So much is held.
    pub fn new(n: u64) -> Held
        requires { n < count_limit }
        ensures { result ≡ n }
    {
        Held { count: n }
    }

    /// The count.
    pub fn get(&self) -> u64
        ensures count { result ≡ self.now }
        ensures bound { result < count_limit }
    {
        self.count
    }

    /// A letter that loads the thing is sent.
    pub fn spend(&mut self)
        requires { 0 < self.old }
        ensures { self.new ≡ self.old - 1 }
    {
        self.count -= 1;
    }

    /// Letters that load the thing are taken.
    pub fn gain(&mut self, n: u64)
        requires { self.old + n < count_limit }
        ensures { self.new ≡ self.old + n }
    {
        self.count += n;
    }

    /// More is made, of which an increment tells the owner.
    pub fn mint(&mut self, n: u64)
        requires { self.old + n < count_limit }
        ensures { self.new ≡ self.old + n }
    {
        self.count += n;
    }

    /// All that was held, which a decrement takes back to the owner.
    pub fn give_back(self) -> u64
        ensures count { result ≡ self }
        ensures bound { result < count_limit }
    {
        self.count
    }
}
