// The first enabled event.

ghost use Rattle.std.specs.Prelude.{◌≡◌, All, IfNone, IfSome};
ghost use Rattle.plain_machine.specs.First.{ComesFirst, IsIdle, event_of};
ghost use Rattle.plain_machine.specs.Ready.{IsIndex, can_act as acts};

use event_rule::Event;
use orca_names::ActorName;
use plain_rules::PlainActor;
use ready_set::ReadySet;

/// Whether the actor can do something: it has a frame or a letter.
pub(crate) fn can_act(actor: &PlainActor) -> bool
    ensures { result ≡ acts actor.now }
{
    actor.frame.is_some() || !actor.letters.is_empty()
}

/// What an actor can do: it goes where it has a frame, and else takes where it has a letter.
fn event_of(a: ActorName, actor: &PlainActor) -> Option<Event>
    ensures { result ≡ event_of a actor.now }
{
    if actor.frame.is_some() {
        Some(Event::Go(a))
    } else if actor.letters.is_empty() {
        None
    } else {
        Some(Event::Take(a))
    }
}

/// What the first actor that can do something does.
pub(crate) fn first_event(actors: &[PlainActor], ready: &ReadySet) -> Option<Event>
    requires { IsIndex ready.now actors.now }
    ensures none { IfNone result (All IsIdle actors.now) }
    ensures some { IfSome result (ComesFirst actors.now) }
{
    match ready.first() {
        Some(a) => event_of(ActorName(a), &actors[a as usize]),
        None => None,
    }
}
