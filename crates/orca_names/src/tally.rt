// The sums of the balance of counts.

use crate::names::Thing;
use plain_list::Listed;

/// A thing's count and the four sums that balance it: `count + inc - dec = held + letters`
/// (Orca, OOPSLA 2017).
#[derive(Clone, Copy, Debug, PartialEq, Eq)]
pub struct Sums {
    pub thing: Thing,
    /// The owner's count.
    pub count: u64,
    /// The amounts of the increments under way to the owner.
    pub inc: u64,
    /// The amounts of the decrements under way to the owner.
    pub dec: u64,
    /// The foreign counts of all other actors.
    pub held: u64,
    /// The application letters under way that reach the thing.
    pub letters: u64,
}

/// The sums of each thing that is left, in the order of things.
#[derive(Debug, Drop)]
pub struct Tally {
    pub sums: Listed<Sums>,
}
