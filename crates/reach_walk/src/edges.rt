// What things lead to.

ghost use Rattle.std.specs.Prelude.{◌≡◌, ◌≢◌, ◌++◌, List, [], Contains, OnOk};
ghost use Rattle.orca_names.specs.declared.names.Thing.{Thing as thing};
ghost use Rattle.orca_names.specs.declared.names.Value as names;

use orca_names::{NoMemory, Thing, Value};

/// Finitely many things that lead on.
pub trait Edges {
    /// The values that a thing leads to, in their order.
    ghost edges: { Self → thing → List names.Value };

    /// All things that lead on: there are finitely many, so that a walk ends.
    ghost all: { Self → List thing };

    /// What a look at edges leaves as it was, with all edges.
    ghost Kept: { Type 0 };

    ghost kept: { Self → Kept };

    /// Appends the values that a thing leads to.
    ///
    /// # Errors
    /// `NoMemory` where memory was refused; what `found` holds then is left open.
    fn push_edges(&mut self, thing: Thing, found: &mut Vec<Value>) -> Result<(), NoMemory>
        ensures ok { OnOk result (found.new.items ≡ found.old.items ++ edges self.old thing) }
        ensures kept { kept self.new ≡ kept self.old };

    /// What leads on is among all.
    ghost within: { (s : Self) (t : thing) → edges s t ≢ [] → Contains (all s) t };

    /// The edges stay with what is kept.
    ghost same_edges: { (s t : Self) → kept t ≡ kept s → edges t ≡ edges s };
}
