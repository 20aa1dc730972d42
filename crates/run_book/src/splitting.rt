// Where a book begins in a text that has a program before it.

ghost use Rattle.std.specs.Prelude.{◌≤◌, drop, length, take};
ghost use Rattle.run_book.specs.Splits.{IsSplit, SplitsInOneWay};

use text_lines::line_end;

/// The place of the first line that begins with `book `, or the end where there is none.
fn book_place(text: &[u8]) -> usize
    ensures within { result ≤ length text.now }
    ensures split { IsSplit text.now (take result text.now) (drop result text.now) }
{
    let mut from = 0;
    while from < text.len() {
        let rest = &text[from..];
        if rest.starts_with(b"book ") {
            return from;
        }
        from += line_end(rest) + 1;
    }
    text.len()
}

/// A text is taken apart where a book begins: before the first line that begins with `book `. Where
/// there is no such line, the first part is the whole and the second is empty.
pub fn split_at_book(text: &[u8]) -> (&[u8], &[u8])
    ensures { IsSplit text.now result.0.now result.1.now }
{
    text.split_at(book_place(text))
}

/// A text is taken apart so in one way only.
pub fn a_text_splits_in_one_way()
    ensures { SplitsInOneWay }
{}
