// Names that instructions lead to.

ghost use Rattle.std.specs.Prelude.{◌≡◌, ◌==◌};
ghost use Rattle.std.specs.Cmp.Rules.{comparing};
ghost use Rattle.std.proofs.Common.{rules};

use crate::names::Name;
use std::alloc::AllocError;
use std::marker::Model;

/// A name that an instruction leads to, seen by contracts as the name. Beside it stands the place
/// where the check found it, which is a guess: who uses it looks whether the name stands there.
#[derive(Debug, Drop)]
pub struct Target {
    name: Name,
    place: u32,
}

impl Model for Target {
    ghost use Rattle.std.specs.Prelude.{ℕ};

    ghost Value = { ℕ };

    ghost view = { λ t. t.name };
}

impl Target {
    /// A name whose place nobody looked for yet.
    pub fn of(name: Name) -> Target
        ensures { result ≡ name }
    {
        Target {
            name,
            place: u32::MAX,
        }
    }

    /// The name.
    pub fn name(&self) -> Name
        ensures { result ≡ self.now }
    {
        self.name
    }

    /// The place where it may stand.
    pub fn place(&self) -> u32 {
        self.place
    }

    /// Keeps the place where it was found.
    pub fn set_place(&mut self, place: u32)
        ensures { self.new ≡ self.old }
    {
        self.place = place;
    }
}

impl Clone for Target {
    ghost is_clone = { λ target copy. copy ≡ target };

    fn clone(&self) -> Result<Target, AllocError> {
        Ok(Target {
            name: self.name,
            place: self.place,
        })
    }
}

impl PartialEq for Target {
    ghost eq = { ◌==◌ };

    ghost laws = { Prim.search (comparing, rules) };

    fn eq(&self, other: &Target) -> bool {
        self.name == other.name
    }
}

impl Eq for Target {
    ghost laws = { Prim.search (comparing, rules) };
}
