// Names, by their places among the names of a program.

ghost use Rattle.std.specs.Prelude.{◌≡◌, ◌<◌, ◌^◌, [], length, slice_index_or, IfOk, OnErr};
ghost use Rattle.behaviour_code.specs.Names.{intern};

use indexmap::IndexSet;
use std::alloc::{AllocError, Global};
use std::marker::Model;

/// A name, as its place among the names of its program, counted from 0.
#[derive(Clone, Copy, Debug, PartialEq, Eq, PartialOrd, Ord, Hash)]
pub struct Name(pub u32);

impl Model for Name {
    ghost use Rattle.std.specs.Prelude.{ℕ};

    ghost Value = { ℕ };

    ghost view = { λ n. n.0 };

    ghost inverse = { λ n. record { 0 = n } };
}

/// The texts of a program's names, each once, in the order in which they came.
#[derive(Debug, Drop)]
pub struct Names {
    texts: IndexSet<String>,
}

impl Model for Names {
    ghost use Rattle.std.specs.Prelude.{List, ℕ, map, string_bytes};

    ghost Value = { List (List ℕ) };

    ghost view = { λ n. map string_bytes n.texts.keys };
}

impl Names {
    /// No names. It takes no memory.
    pub fn new(alloc: Global) -> Names
        ensures { result ≡ [] }
    {
        Names {
            texts: IndexSet::new(alloc),
        }
    }

    /// How many names there are.
    pub fn len(&self) -> usize
        ensures { result ≡ length self.now }
    {
        self.texts.len()
    }

    /// The name of a text: the place where it came first, which is the next one for a new text.
    ///
    /// # Errors
    /// Where memory is refused, nothing changes.
    pub fn intern(&mut self, text: &str) -> Result<Name, AllocError>
        requires { length self.old < 2 ^ 32 }
        ensures ok { IfOk result (λ name. intern self.old text.now ≡ (name, self.new)) }
        ensures err { OnErr result (self.new ≡ self.old) }
    {
        if let Some(place) = self.texts.get_index_of(text) {
            return Ok(Name(place as u32));
        }
        let owned = String::from_str(*self.texts.allocator(), text)?;
        let (place, _) = self.texts.insert_full(owned)?;
        Ok(Name(place as u32))
    }

    /// The text of a name, empty where it has none.
    pub fn text_or_empty(&self, name: Name) -> &str
        ensures { result.now ≡ slice_index_or self.now name [] }
    {
        match self.texts.get_index(name.0 as usize) {
            Some(text) => text.as_str(),
            None => "",
        }
    }
}
