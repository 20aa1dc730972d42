// What an actor holds.

ghost use Rattle.std.specs.Prelude.{◌≡◌, Bool};
ghost use Rattle.orca_names.specs.declared.names.Thing.{Thing as thing};

use crate::names::Thing;

/// What one actor is, owns or holds.
pub trait HeldTest {
    /// Whether the actor is the thing, owns it or holds it.
    ghost held: { Self → thing → Bool };

    /// True exactly where the actor is the thing, owns it or holds it.
    fn holds(&self, thing: Thing) -> bool
        ensures { result ≡ held self.now thing };
}
