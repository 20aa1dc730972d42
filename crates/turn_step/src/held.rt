// Whether an actor has to mint for what its turn gets.

ghost use Rattle.std.specs.Prelude.{◌≡◌, true, ◌∷◌, []};
ghost use Rattle.turn_step.specs.Held.{first_needed, is_needed};

use orca_names::{HeldTest, Thing, Value};

/// The test that finds everything held.
pub(crate) struct AllHeld;

impl HeldTest for AllHeld {
    ghost held = { λ _ _. true };

    fn holds(&self, _: Thing) -> bool {
        true
    }
}

/// Whether the thing is not held, or has an owner who is not.
fn is_needed<H: HeldTest>(held: &H, thing: &Thing) -> bool
    ensures { result ≡ is_needed (H.held held.now) thing.now }
{
    !held.holds(*thing) || !held.holds(Thing::Actor(thing.owner()))
}

/// The thing that a value names, where it is needed.
pub(crate) fn needed<H: HeldTest>(held: &H, value: &Value) -> Option<Thing>
    ensures { result ≡ first_needed (H.held held.now) (value.now ∷ []) }
{
    match value.thing() {
        Some(thing) => {
            if is_needed(held, &thing) {
                Some(thing)
            } else {
                None
            }
        }
        None => None,
    }
}
