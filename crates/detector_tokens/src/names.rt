// Actors in rising order.

ghost use Rattle.std.specs.Prelude.{◌≡◌, IfSome, IfNone, false, Some, slice_get};
ghost use Rattle.letter_kinds.specs.Detector.{has};
ghost use Rattle.std.specs.List.Sorted.{IsStrictlySortedBy};
ghost use Rattle.std.specs.Ordering.{nat_cmp};

use orca_names::ActorName;

// Where the actor stands if these are numbered without a gap.
fn likely_place(names: &[ActorName], actor: ActorName) -> usize {
    match names.first() {
        Some(first) => actor.0.wrapping_sub(first.0) as usize,
        None => 0,
    }
}

// Where the actor stands, if that is seen at once.
fn guess(names: &[ActorName], actor: ActorName) -> Option<usize>
    ensures { IfSome result (λ i. slice_get names.now i ≡ Some actor) }
{
    let near = likely_place(names, actor);
    if near >= names.len() {
        return None;
    }
    if names[near] == actor {
        return Some(near);
    }
    None
}

/// Where the actor stands among these.
pub fn place_of(names: &[ActorName], actor: ActorName) -> Option<usize>
    requires { IsStrictlySortedBy nat_cmp names.now }
    ensures some { IfSome result (λ i. slice_get names.now i ≡ Some actor) }
    ensures none { IfNone result (has names.now actor ≡ false) }
{
    if let Some(place) = guess(names, actor) {
        return Some(place);
    }
    names.binary_search(&actor).ok()
}
