// What stands for an actor.

ghost use Rattle.std.specs.Prelude.{◌≡◌};

use orca_names::ActorName;

/// The number of an actor.
pub(crate) fn number_of(actor: ActorName) -> u32
    ensures { result ≡ actor }
{
    actor.0
}
