// Whose event is the first where some actors are set aside.

ghost use Rattle.std.specs.Prelude.{◌≡◌, ◌&&◌, not, MatchOption};
ghost use Rattle.event_rule.specs.Runs.{IsQuiet};
ghost use Rattle.actor_table.specs.Rounds.{IsNextThat, has_event};
ghost use Rattle.actor_table.specs.Slots.{slot_at};
ghost use Rattle.orca_core.specs.Firsts.{HasFirst, is_free, next_of_kind};

use crate::machine::Orca;
use actor_table::{ActorTable, Round};
use orca_names::ActorName;

/// Tells of each actor whether it is set aside.
pub trait SetAside {
    ghost use Rattle.std.specs.Prelude.{◌≡◌, ℕ, Bool};

    /// Which actors are set aside.
    ghost is_aside: { Self → ℕ → Bool };

    /// Whether the actor is set aside.
    fn is_aside(&self, a: ActorName) -> bool
        ensures { result ≡ is_aside self.now a };
}

// The first actor that is not set aside and has an event in the round once it has none in the round
// before. It looks at no actor but those that have one and are set aside.
fn first_in<S: SetAside>(table: &ActorTable, round: Round, aside: &S) -> Option<ActorName>
    ensures { IsNextThat
        (λ a. has_event round (slot_at table.now.slots a) && not (S.is_aside aside.now a)) 0 result }
{
    let mut from = ActorName(0);
    while let Some(a) = table.next_in(round, from) {
        if !aside.is_aside(a) {
            return Some(a);
        }
        from = ActorName(a.0 + 1);
    }
    None
}

impl<'a> Orca<'a> {
    /// The actor that has the first enabled event, in the one-worker order, of the actors that are not
    /// set aside; `None` exactly where these have none. It looks at no actor but those that have events
    /// and are set aside.
    pub fn first_free<S: SetAside>(&self, aside: &S) -> Option<ActorName>
        ensures { let kind = next_of_kind (is_free (S.is_aside aside.now)) self.now.out in
            MatchOption result (IsQuiet kind self.now.state) (HasFirst kind self.now.state) }
    {
        if let Some(a) = first_in(&self.core.parts.table, Round::Acting, aside) {
            return Some(a);
        }
        first_in(&self.core.parts.table, Round::Settling, aside)
    }
}
