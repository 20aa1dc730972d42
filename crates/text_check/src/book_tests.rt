// A book that is filled and written, and texts that are read.

use crate::table::{Asked, Table, fault_text, holds, same_bytes, same_text};
use event_rule::Event;
use orca_names::{ActorName, Serial, Trace};
use run_book::{Book, BookErr, read_again, read_text, split_at_book};
use std::alloc::Global;
use std::test::Fail;

// The line and the kind of the fault.
const FAULTS: Table = Table {
    asked: Asked::Book,
    head: "",
    rows: "\
1 1|;\
1 1|\n;\
1 1|book 2 1\n;\
1 1|book 2 65537;\
1 1|book 2 0256\n;\
1 1|book 2 256 root\n;\
1 1|book 2 256  roots\n;\
1 1|book 1 roots\n;\
1 1|book 1\r\n;\
1 4|book 1;\
2 2|book 1\nleave 0\n;\
2 2|book 1\ntake 01\n;\
2 2|book 1\n\ntake 0\n;\
2 2|book 2 256\ntake 4294967296\n;\
3 2|book 2 256\nhear\nreap 18446744073709551616\n;\
3 2|book 2 256\nhear\nscan ;\
3 2|book 2 256\nhear\ntake  1\n;\
3 4|book 2 256\nhear\nscan",
    tail: "",
};

// A program and the book behind it.
const SPLITS: &str = "\
|;\
end\n|;\
|book 1\ntake 0\n;\
a book 1\n book 1|;\
end\n|book 1\nbook 2 2\n;\
end\n\n|book ;\
end\nbook|;\
booking\nend\nbooking\n|";

fn fill(book: &mut Book, entries: &[Event]) -> Result<(), Fail> {
    book.reserve(3)?;
    for entry in entries {
        book.reserve(1)?;
        book.push(*entry);
    }
    Ok(())
}

/// Fails where the book has another text.
fn is_written(alloc: Global, book: &Book, text: &str) -> Result<(), Fail> {
    same_bytes(book.text(alloc)?.as_slice(), text)
}

/// Fails where the new book isn't filled and written.
fn is_filled_and_written(alloc: Global, book: &mut Book) -> Result<(), Fail> {
    is_written(alloc, book, "book 2 256\n")?;
    let last = Event::Reap(Serial::of(u64::MAX));
    fill(book, &[Event::Take(ActorName(0)), Event::Hear, last])?;
    let is_filled = book.len() == 3 && book.weight() == 256 && book.at(2) == last;
    holds(
        is_filled && book.trace() == Trace::Deep,
        "the book is filled",
    )?;
    let text = "book 2 256\ntake 0\nhear\nreap 18446744073709551615\n";
    is_written(alloc, book, text)
}

#[test]
fn books_are_filled_and_written(rt: HostRuntime) -> Result<(), Fail> {
    let mut book = Book::new(rt.alloc(), 256, Trace::Deep);
    is_filled_and_written(rt.alloc(), &mut book)
}

#[test]
fn a_book_tells_its_tracing(rt: HostRuntime) -> Result<(), Fail> {
    let roots = Book::new(rt.alloc(), 2, Trace::Roots);
    let text = format!(in rt.alloc(); "{roots}")?;
    same_text(text.as_str(), "book 2 2 roots\n")
}

/// Fails where a text isn't written as it was read, and again when it is read from its book.
fn is_written_as_read(alloc: Global, text: &str) -> Result<(), Fail> {
    let book = read_text(alloc, text.as_bytes())?;
    is_written(alloc, &book, text)?;
    let again = read_again(alloc, &book)?;
    is_written(alloc, &again, text)
}

/// Texts that are written as they were read.
#[test]
fn texts_are_read_and_written(rt: HostRuntime) -> Result<(), Fail> {
    let alloc = rt.alloc();
    is_written_as_read(alloc, "book 2 2\n")?;
    is_written_as_read(alloc, "book 2 65536 roots\ntake 0\n")?;
    let text =
        "book 2 256\ntake 0\ngo 4294967295\ncollect 1\nleave 10\nblock 2\nhear\nscan\nreap 18446744073709551615\n";
    is_written_as_read(alloc, text)
}

fn has_ten_entries(book: &Book) -> Result<(), Fail> {
    holds(
        book.weight() == 256 && book.trace() == Trace::Deep,
        "the first line",
    )?;
    holds(
        book.len() == 10 && book.at(9) == Event::Reap(Serial::of(1)),
        "the entries",
    )
}

#[test]
fn the_former_form_is_read(rt: HostRuntime) -> Result<(), Fail> {
    let text = "book 1\ntake 0\ngo 0\ngo 0\ncollect 0\nblock 0\nhear\nscan\ntake 0\nhear\nreap 1\n";
    let book = read_text(rt.alloc(), text.as_bytes())?;
    has_ten_entries(&book)
}

/// The line and the kind of the fault of a text.
pub fn fault_of_book(alloc: Global, text: &str) -> Result<String, Fail> {
    match read_text(alloc, text.as_bytes()) {
        Err(BookErr::Fault { line, kind }) => fault_text(alloc, line, kind),
        Err(BookErr::NoMemory) => Err(Fail::from("no memory")),
        Ok(_) => Err(Fail::from("a book")),
    }
}

#[test]
fn faults_are_told(rt: HostRuntime) -> Result<(), Fail> {
    FAULTS.holds(rt.alloc())
}

/// Fails where a text isn't split behind its program.
fn is_split_so(text: &str, program: &str, book: &str) -> Result<(), Fail> {
    let (before, behind) = split_at_book(text.as_bytes());
    same_bytes(before, program)?;
    same_bytes(behind, book)
}

fn is_split_at_its_bar(alloc: Global, row: &str) -> Result<(), Fail> {
    let (program, book) = row.split_once('|').ok_or("a row without its bar")?;
    let text = format!(in alloc; "{program}{book}")?;
    is_split_so(text.as_str(), program, book)
}

#[test]
fn books_begin_at_their_first_line(rt: HostRuntime) -> Result<(), Fail> {
    for row in SPLITS.split(';') {
        is_split_at_its_bar(rt.alloc(), row)?;
    }
    Ok(())
}
