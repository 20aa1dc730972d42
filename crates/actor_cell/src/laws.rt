// The events of the machine that collects, by what one actor does in them.

ghost use Rattle.actor_cell.specs.Laws.{BlocksByParts, CollectsByParts, GoesByParts, LeavesByParts, TakesByParts};

/// Where an actor takes a letter, goes on, collects, leaves or blocks, the machine goes to the state
/// in which the actor's cell is that of its part, and what this gives out is pushed in order. Going
/// on and collecting are so by either tracing.
pub fn events_are_of_parts()
    ensures take { TakesByParts }
    ensures go { GoesByParts }
    ensures collect { CollectsByParts }
    ensures leave { LeavesByParts }
    ensures block { BlocksByParts }
{}
