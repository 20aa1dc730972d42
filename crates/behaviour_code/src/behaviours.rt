// The behaviours of a kind.

ghost use Rattle.std.specs.Prelude.{◌≡◌, ◌<◌, length, true};
ghost use Rattle.std.specs.Cmp.Rules.{comparing};
ghost use Rattle.std.proofs.Common.{rules};

use crate::code::Behaviour;
use crate::names::Name;
use plain_list::Listed;
use std::alloc::AllocError;
use std::marker::Model;

const PLACES: usize = 64;

// Where a behaviour may stand, by the lowest 6 bits of its name: a guess, of which contracts see
// nothing.
#[derive(Debug, Drop)]
struct Guesses {
    places: [u8; PLACES],
}

impl Model for Guesses {
    ghost use Rattle.std.specs.Prelude.{⊤};

    ghost Value = { ⊤ };

    ghost view = { λ _. tt };
}

fn slot(name: Name) -> usize
    ensures { result < PLACES }
{
    name.0 as usize % PLACES
}

impl Guesses {
    fn of(behaviours: &[Behaviour]) -> Guesses {
        let mut places = [u8::MAX; PLACES];
        let mut place = 0u8;
        for behaviour in behaviours {
            places[slot(behaviour.name)] = place;
            place = place.saturating_add(1);
        }
        Guesses { places }
    }

    fn at(&self, name: Name) -> usize {
        let places = &self.places;
        usize::from(places[slot(name)])
    }
}

impl Clone for Guesses {
    ghost is_clone = { λ guesses copy. copy ≡ guesses };

    fn clone(&self) -> Result<Guesses, AllocError> {
        Ok(Guesses {
            places: self.places,
        })
    }
}

impl PartialEq for Guesses {
    ghost eq = { λ _ _. true };

    ghost laws = { Prim.search (comparing, rules) };

    fn eq(&self, _other: &Guesses) -> bool {
        true
    }
}

impl Eq for Guesses {
    ghost laws = { Prim.search (comparing, rules) };
}

/// The behaviours of a kind, seen by contracts as their list. Beside them stands where the behaviour
/// of a name may be.
#[derive(Clone, Debug, PartialEq, Eq, Drop)]
pub struct Behaviours {
    list: Listed<Behaviour>,
    guesses: Guesses,
}

impl Model for Behaviours {
    ghost use Rattle.std.specs.Prelude.{List};
    ghost use Rattle.behaviour_code.specs.declared.code.Behaviour as code;

    ghost Value = { List code.Behaviour };

    ghost view = { λ b. b.list };

    ghost inverse = { λ list. record { list = list; guesses = tt } };
}

impl Behaviours {
    /// The behaviours, in their order.
    pub fn as_slice(&self) -> &[Behaviour]
        ensures { result.now ≡ self.now }
    {
        let list = &self.list;
        list.as_slice()
    }

    /// The number of behaviours.
    pub fn len(&self) -> usize
        ensures { result ≡ length self.now }
    {
        self.list.len()
    }

    /// The behaviours themselves, in their order. It takes no memory.
    pub fn into_vec(self) -> Vec<Behaviour>
        ensures { result.items ≡ self }
    {
        self.list.into_vec()
    }

    /// The place where the behaviour of this name may stand, which is a guess: who uses it looks
    /// whether it stands there.
    pub fn guess(&self, name: Name) -> usize {
        self.guesses.at(name)
    }
}

/// The behaviours of a list, which they keep. They take no memory.
impl From<Listed<Behaviour>> for Behaviours {
    ghost from_gives = { λ list behaviours. behaviours ≡ list };

    fn from(list: Listed<Behaviour>) -> Behaviours {
        let guesses = Guesses::of(list.as_slice());
        Behaviours { list, guesses }
    }
}

/// The behaviours of a `Vec`, which they keep. They take no memory.
impl From<Vec<Behaviour>> for Behaviours {
    ghost from_gives = { λ items behaviours. behaviours ≡ items.items };

    fn from(items: Vec<Behaviour>) -> Behaviours {
        Behaviours::from(Listed::from(items))
    }
}
