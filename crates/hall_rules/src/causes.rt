// Why a claim or an entry is refused, one cause each.

ghost use Rattle.std.specs.Prelude.{◌≡◌, false, length, IfErr, IfOk, None, OnOk, Some};
ghost use Rattle.event_rule.specs.Events.{actor_of};
ghost use Rattle.machine_rules.specs.Next.{next};
ghost use Rattle.orca_parts.specs.Away.{is_out, is_out_for};
ghost use Rattle.hall_rules.specs.Causes.{absent_cause, actor_cause, busy_cause, early_cause, event_at, held_cause, spent_cause, unready_cause};

use event_rule::Event;
use orca_core::Orca;
use orca_names::ActorName;
use run_book::Book;
use work_board::Refuse;

/// The actor that acts in an event, if one does.
pub fn actor_of(e: &Event) -> Option<ActorName>
    ensures { result ≡ actor_of e.now }
{
    match e {
        Event::Take(a) | Event::Go(a) => Some(*a),
        Event::Collect(a) | Event::Leave(a) | Event::Block(a) => Some(*a),
        Event::Hear | Event::Scan | Event::Reap(_) => None,
    }
}

// The actor was not made, or is gone.
fn absent(orca: &Orca<'_>, a: ActorName) -> Option<Refuse>
    ensures { result ≡ absent_cause orca.now.state a }
{
    let made = orca.made();
    if u64::from(a.0) >= made {
        return Some(Refuse::Unknown { made });
    }
    if orca.lives(a) {
        None
    } else {
        Some(Refuse::Gone)
    }
}

// The pass that has a claim on the actor, if one has.
fn busy(holder: Option<u32>) -> Option<Refuse>
    ensures { result ≡ busy_cause holder }
{
    match holder {
        Some(holder) => Some(Refuse::Busy { holder }),
        None => None,
    }
}

// The event, whose actor's cell is not away, is not enabled.
fn unready(orca: &Orca<'_>, e: Event) -> Option<Refuse>
    requires { is_out_for orca.now.out e ≡ false }
    ensures { result ≡ unready_cause (next orca.now.state e) }
{
    if orca.enabled(e) {
        None
    } else {
        Some(Refuse::NotReady)
    }
}

// The book is as long as the budget.
fn spent(length: u64, budget: u64) -> Option<Refuse>
    ensures { result ≡ spent_cause length budget }
{
    if length == budget {
        Some(Refuse::Budget { length })
    } else {
        None
    }
}

// The first event of the actor, whose cell is not away, that is enabled.
fn event_at(orca: &Orca<'_>, a: ActorName) -> Option<Event>
    requires { is_out orca.now.out a ≡ false }
    ensures { result ≡ event_at orca.now.state a }
{
    orca.next_of(a)
}

// The event's actor, if it has one, is not there, or this pass has a claim on it.
fn actor_refuses(orca: &Orca<'_>, holder: Option<u32>, e: &Event) -> Option<Refuse>
    ensures { result ≡ actor_cause orca.now.state holder e.now }
{
    let a = actor_of(e)?;
    match absent(orca, a) {
        Some(refuse) => Some(refuse),
        None => busy(holder),
    }
}

/// Why the event is not tried, where this pass, another than the one that asks, has a claim on its actor.
pub fn early_refusal(
    orca: &Orca<'_>,
    book: &Book,
    budget: u64,
    holder: Option<u32>,
    e: &Event,
) -> Option<Refuse>
    requires { actor_cause orca.now.state holder e.now ≡ None → is_out_for orca.now.out e.now ≡ false }
    ensures { result ≡ early_cause orca.now.state (length book.now.entries) budget holder e.now }
{
    if let Some(refuse) = actor_refuses(orca, holder, e) {
        return Some(refuse);
    }
    match unready(orca, *e) {
        Some(refuse) => Some(refuse),
        None => spent(book.len(), budget),
    }
}

/// The first enabled event of an actor on which a claim is granted, where this pass has one on it.
pub fn claimable(orca: &Orca<'_>, holder: Option<u32>, a: ActorName) -> Result<Event, Refuse>
    requires { busy_cause holder ≡ None → is_out orca.now.out a ≡ false }
    ensures ok { OnOk result (held_cause orca.now.state holder a ≡ None) }
    ensures event { IfOk result (λ e. event_at orca.now.state a ≡ Some e) }
    ensures refused { IfErr result (λ refuse. held_cause orca.now.state holder a ≡ Some refuse) }
{
    if let Some(refuse) = absent(orca, a) {
        return Err(refuse);
    }
    if let Some(refuse) = busy(holder) {
        return Err(refuse);
    }
    match event_at(orca, a) {
        Some(event) => Ok(event),
        None => Err(Refuse::NotReady),
    }
}
