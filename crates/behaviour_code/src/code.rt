// Programs.

ghost use Rattle.std.specs.Prelude.{◌≡◌, ◌<◌, length, slice_get, Some};
ghost use Rattle.behaviour_code.specs.Find.{body_of, behaviours_of, field_count, is_start, start_name};

use crate::behaviours::Behaviours;
use crate::instr::Instr;
use crate::names::{Name, Names};
use plain_list::Listed;

/// A behaviour: what an actor does with a letter of this name.
#[derive(Clone, Debug, PartialEq, Eq, Drop)]
pub struct Behaviour {
    pub name: Name,
    pub parameters: u8,
    pub body: Listed<Instr>,
}

/// A kind of actor.
#[derive(Clone, Debug, PartialEq, Eq, Drop)]
pub struct Kind {
    pub name: Name,
    pub fields: u8,
    pub behaviours: Behaviours,
}

/// A program: its kinds, of which the first makes the first actor, and the texts of its names.
#[derive(Debug, Drop)]
pub struct Program {
    pub kinds: Listed<Kind>,
    pub names: Names,
}

fn is_start(names: &Names, behaviour: &Behaviour) -> bool
    ensures { result ≡ is_start names.now behaviour.now }
{
    behaviour.parameters == 0 && names.text_or_empty(behaviour.name) == "start"
}

impl Program {
    /// The number of fields of a kind, 0 where there is no such kind.
    pub fn field_count(&self, kind: u32) -> u8
        ensures { result ≡ field_count self.now kind }
    {
        match self.kinds.get(kind as usize) {
            Some(found) => found.fields,
            None => 0,
        }
    }

    /// The behaviours of a kind, none where there is no such kind.
    pub fn behaviours(&self, kind: u32) -> &[Behaviour]
        ensures { result.now ≡ behaviours_of self.now kind }
    {
        match self.kinds.get(kind as usize) {
            Some(found) => found.behaviours.as_slice(),
            None => &[],
        }
    }

    /// The instructions of a behaviour, none where there is no such behaviour.
    pub fn body(&self, kind: u32, behaviour: u8) -> &[Instr]
        ensures { result.now ≡ body_of self.now kind behaviour }
    {
        match self.behaviours(kind).get(behaviour as usize) {
            Some(found) => found.body.as_slice(),
            None => &[],
        }
    }

    /// The name of the first kind's behaviour `start` without parameters, if it has one. A run
    /// begins with its letter.
    pub fn start_name(&self) -> Option<Name>
        ensures { result ≡ start_name self.now }
    {
        self.behaviours(0)
            .iter()
            .find(|behaviour| is_start(&self.names, behaviour))
            .map(|behaviour| behaviour.name)
    }

    /// The text of a name.
    pub fn name_text(&self, name: Name) -> &str
        requires { name < length self.now.names }
        ensures { slice_get self.now.names name ≡ Some result.now }
    {
        self.names.text_or_empty(name)
    }
}
