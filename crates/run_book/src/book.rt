// The list of events that a run has made.

ghost use Rattle.std.specs.Prelude.{true, All, ◌≡◌, ◌≤◌, ◌+◌, ◌++◌, ◌∷◌, ◌<◌, [], length, slice_get, IfOk, IsOk, OnOk, OnErr, Some};
ghost use Rattle.orca_names.specs.declared.limits.TheConstants.{BOOK_LIMIT};
ghost use Rattle.run_book.specs.Books.{IsWeight, book_text};
ghost use Rattle.run_book.specs.Reading.{IsBookText, MayFollow};

use crate::header::trace_text;
use event_rule::Event;
use orca_names::{NoMemory, Trace};
use std::alloc::Global;
use std::fmt;
use std::marker::Model;

/// The events of a run in their order, with the run's weight and tracing, seen by contracts as these
/// and the number of further entries for which the book has taken its memory.
#[derive(Debug, Drop)]
pub struct Book {
    entries: Vec<Event>,
    weight: u32,
    trace: Trace,
}

impl Model for Book {
    ghost use Rattle.std.specs.Prelude.{◌-◌, true, All, vec_len, vec_capacity};
    ghost use Rattle.run_book.specs.Books.{BookValue, IsWeight};
    ghost use Rattle.run_book.specs.Reading.{MayFollow};

    ghost Value = { BookValue };

    ghost view = { λ b. record {
      entries = b.entries.items;
      spare = vec_capacity b.entries - vec_len b.entries;
      weight = b.weight;
      trace = b.trace;
    } };

    ghost invariant = { λ b. IsWeight b.weight × All (MayFollow true) b.entries.items };
}

impl Book {
    /// An empty book of a run with this weight and tracing. It takes no memory.
    pub fn new(alloc: Global, weight: u32, trace: Trace) -> Book
        requires { (2 ≤ weight) × (weight ≤ 65536) }
        ensures { result
            ≡ record { entries = []; spare = 0; weight = weight; trace = trace } }
    {
        Book {
            entries: Vec::new(alloc),
            weight,
            trace,
        }
    }

    /// The weight of the run, from 2 to 65,536.
    pub fn weight(&self) -> u32
        ensures weight { result ≡ self.now.weight }
        ensures range { IsWeight result }
    {
        self.weight
    }

    /// How the run traces what letters carry.
    pub fn trace(&self) -> Trace
        ensures { result ≡ self.now.trace }
    {
        self.trace
    }

    /// Takes memory for at least `n` further entries, if there is less.
    ///
    /// # Errors
    /// `NoMemory` where memory was refused; the book is then as before.
    pub fn reserve(&mut self, n: u64) -> Result<(), NoMemory>
        ensures entries { self.new.entries ≡ self.old.entries }
        ensures run { (self.new.weight ≡ self.old.weight) × (self.new.trace ≡ self.old.trace) }
        ensures kept { self.old.spare ≤ self.new.spare }
        ensures ok { OnOk result (n ≤ self.new.spare) }
        ensures enough { n ≤ self.old.spare → IsOk result }
        ensures err { OnErr result (self.new ≡ self.old) }
    {
        self.entries.reserve(n as usize)?;
        Ok(())
    }

    /// One entry more, at the end. It takes no memory.
    pub fn push(&mut self, e: Event)
        requires { 1 ≤ self.old.spare }
        ensures entries { self.new.entries ≡ self.old.entries ++ e ∷ [] }
        ensures run { (self.new.weight ≡ self.old.weight) × (self.new.trace ≡ self.old.trace) }
        ensures spare { self.new.spare + 1 ≡ self.old.spare }
    {
        self.entries.push_reserved(e);
    }

    /// The number of entries.
    pub fn len(&self) -> u64
        ensures { result ≡ length self.now.entries }
    {
        self.entries.len() as u64
    }

    /// The entry at a place, counted from 0.
    pub fn at(&self, i: u64) -> Event
        requires { i < length self.now.entries }
        ensures { slice_get self.now.entries i ≡ Some result }
    {
        self.entries[i as usize]
    }

    /// The book as it is written: `book 2` with the weight, and ` roots` where only roots are traced,
    /// then a line for each entry.
    ///
    /// # Errors
    /// `NoMemory` where memory was refused.
    pub fn text(&self, alloc: Global) -> Result<Vec<u8>, NoMemory>
        ensures text { IfOk result (λ text. text.items ≡ book_text self.now) }
        ensures form { length self.now.entries ≤ BOOK_LIMIT → IsBookText (book_text self.now) self.now }
    {
        let _weight = self.weight;
        Ok(self.to_string(alloc)?.into_bytes())
    }
}

/// The book as it is written: its first line, then a line for each entry.
impl fmt::Display for Book {
    ghost output = { λ b. Some (book_text b) };

    fn fmt<W: fmt::Write>(&self, f: &mut fmt::Formatter<W>) -> fmt::Result {
        let traced = trace_text(self.trace);
        writeln!(f, "book 2 {}{traced}", self.weight)?;
        for entry in self.entries.as_slice() {
            writeln!(f, "{entry}")?;
        }
        Ok(())
    }
}
