// Reading a book's text.

ghost use Rattle.std.specs.Prelude.{◌≡◌, ◌≤◌, ◌<◌, ℕ, [], IfOk, IfErr, OnOk, MatchResult, length};
ghost use Rattle.orca_names.specs.declared.limits.TheConstants.{BOOK_LIMIT};
ghost use Rattle.run_book.specs.Books.{BookValue};
ghost use Rattle.run_book.specs.Progress.{IsLowestFault, IsNext, IsReadTo};
ghost use Rattle.run_book.specs.Reading.{AreAlike, HasFault, IsBookText, TellsFirst, TellsNone};
ghost use Rattle.run_book.specs.declared.errors.BookErr.TheVariants.{NoMemory as no_memory};

use crate::book::Book;
use crate::entry::entry_of;
use crate::errors::BookErr;
use crate::header::{Header, header_of};
use event_rule::Event;
use orca_names::BOOK_LIMIT;
use std::alloc::Global;
use text_lines::line_end;

/// The entry of a line behind so many others, or the lowest kind of its faults.
fn next_entry(leaves: bool, line: &[u8], before: u64, ended: bool) -> Result<Event, u8>
    ensures { MatchResult result (λ e. IsNext leaves line.now before ended e)
        (λ kind. IsLowestFault leaves line.now before ended kind) }
{
    let Some(entry) = entry_of(leaves, line) else {
        return Err(2);
    };
    if before >= BOOK_LIMIT {
        Err(3)
    } else if !ended {
        Err(4)
    } else {
        Ok(entry)
    }
}

/// Reads the lines behind the first line, which says `header` and ends before `start`.
fn read_entries(alloc: Global, text: &[u8], header: &Header, start: usize) -> Result<Book, BookErr>
    requires { IsReadTo text.now header.now [] start }
    ensures text { IfOk result (IsBookText text.now) }
    ensures fault { IfErr result (TellsFirst text.now) }
{
    let mut book = Book::new(alloc, header.weight, header.trace);
    let mut from = start;
    while from < text.len() {
        let to = from + line_end(&text[from..]);
        match next_entry(header.leaves, &text[from..to], book.len(), to < text.len()) {
            Ok(entry) => {
                book.reserve(1)?;
                book.push(entry);
            }
            Err(kind) => {
                return Err(BookErr::Fault {
                    line: book.len() as u32 + 2,
                    kind,
                });
            }
        }
        from = to + 1;
    }
    Ok(book)
}

/// The book that a text says, of either form: `book 1`, or `book 2` with a weight and maybe `roots`.
///
/// # Errors
/// The first fault, exactly where there is one, unless memory is refused.
pub fn read_text(alloc: Global, text: &[u8]) -> Result<Book, BookErr>
    // The text is one of this book, and of no other.
    ensures text { IfOk result (IsBookText text.now) }
    ensures only { (b : BookValue) → IsBookText text.now b → IfOk result (λ found. AreAlike found b) }

    // It is refused exactly where it is of no book, for its first fault.
    ensures none { IfErr result (TellsNone text.now) }
    ensures sound { OnOk result ((number kind : ℕ) → ¬ HasFault text.now number kind) }
    ensures fault { IfErr result (TellsFirst text.now) }
{
    let end = line_end(text);
    let Some(header) = header_of(&text[..end]) else {
        return Err(BookErr::Fault { line: 1, kind: 1 });
    };
    if end == text.len() {
        return Err(BookErr::Fault { line: 1, kind: 4 });
    }
    read_entries(alloc, text, &header, end + 1)
}

/// The book that is read of a book's text: the same, of whatever entries, weight and tracing.
///
/// # Errors
/// `NoMemory` where memory was refused, and only there.
pub fn read_again(alloc: Global, book: &Book) -> Result<Book, BookErr>
    requires { length book.now.entries ≤ BOOK_LIMIT }
    ensures ok { IfOk result (λ found. AreAlike found book.now) }
    ensures err { IfErr result (λ e. e ≡ no_memory) }
{
    match book.text(alloc) {
        Ok(text) => read_text(alloc, &text),
        Err(_) => Err(BookErr::NoMemory),
    }
}
