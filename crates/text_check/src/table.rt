// What tests are told, beside what they want: texts, and tables of texts.

use crate::book_tests::fault_of_book;
use crate::rule_tests::broken_in;
use crate::text_tests::fault_of_text;
use std::alloc::Global;
use std::str;
use std::test::Fail;

/// Fails where this does not hold.
pub fn holds(condition: bool, what: &str) -> Result<(), Fail> {
    if condition {
        Ok(())
    } else {
        Err(Fail::new(format_args!("not so: {what}")))
    }
}

/// Fails where another text is told than the one that is wanted.
pub fn same_text(told: &str, want: &str) -> Result<(), Fail> {
    if told == want {
        Ok(())
    } else {
        Err(Fail::new(format_args!("told: {told}\nwanted: {want}")))
    }
}

/// Fails where other bytes are told than those of the text that is wanted.
pub fn same_bytes(told: &[u8], want: &str) -> Result<(), Fail> {
    match str::from_utf8(told) {
        Ok(told) => same_text(told, want),
        Err(_) => Err(Fail::new(format_args!("told: bytes of no text\nwanted: {want}"))),
    }
}

/// What the rows of a table ask of a text.
#[derive(Clone, Copy)]
pub enum Asked {
    /// The line and the kind of its fault as a book.
    Book,
    /// The line and the kind of its first fault as a program, zeros where there is none.
    Program,
    /// Where a rule fails first in its program.
    Rules,
}

impl Asked {
    fn told_of(self, alloc: Global, text: &str) -> Result<String, Fail> {
        match self {
            Asked::Book => fault_of_book(alloc, text),
            Asked::Program => fault_of_text(alloc, text.as_bytes()),
            Asked::Rules => broken_in(alloc, text),
        }
    }
}

/// A table of texts, all between a head and a tail. A row is `wanted|asked`, and rows have a `;` between them.
pub struct Table {
    pub asked: Asked,
    pub head: &'static str,
    pub rows: &'static str,
    pub tail: &'static str,
}

impl Table {
    fn row_holds(&self, alloc: Global, row: &str) -> Result<(), Fail> {
        let (want, piece) = row.split_once('|').ok_or("a row without its bar")?;
        let text = format!(in alloc; "{}{piece}{}", self.head, self.tail)?;
        let told = self.asked.told_of(alloc, text.as_str())?;
        if told.as_str() == want {
            Ok(())
        } else {
            Err(Fail::new(format_args!("{piece}\ntold: {told}\nwanted: {want}")))
        }
    }

    /// Fails where a row is not told as it is wanted.
    pub fn holds(&self, alloc: Global) -> Result<(), Fail> {
        for row in self.rows.split(';') {
            self.row_holds(alloc, row)?;
        }
        Ok(())
    }
}

/// The line and the kind of a fault.
pub fn fault_text(alloc: Global, line: u32, kind: u8) -> Result<String, Fail> {
    Ok(format!(in alloc; "{line} {kind}")?)
}
