// The first line of a book's text.

ghost use Rattle.std.specs.Prelude.{◌≡◌, ◌≢◌, ◌++◌, ℕ, List, codes, MatchOption};
ghost use Rattle.std.specs.Fmt.{decimal};
ghost use Rattle.run_book.specs.Books.{IsWeight, trace_text};
ghost use Rattle.run_book.specs.Reading.{Says, SaysNew};
ghost use Rattle.run_book.specs.declared.header.Header.{Header as header_type};

use crate::entry::number_of;
use orca_names::Trace;

/// The least weight of a run.
const LEAST_WEIGHT: u64 = 2;

/// The greatest weight of a run.
const GREATEST_WEIGHT: u64 = 65_536;

/// What the first line of a book's text says.
#[derive(Clone, Copy, Debug, PartialEq, Eq)]
pub(crate) struct Header {
    pub(crate) weight: u32,
    pub(crate) trace: Trace,
    /// Whether the entry `leave` may follow.
    pub(crate) leaves: bool,
}

/// The word for a tracing.
pub(crate) fn trace_text(trace: Trace) -> &'static str
    ensures { result.now ≡ trace_text trace }
{
    match trace {
        Trace::Deep => "",
        Trace::Roots => " roots",
    }
}

/// The weight that a numeral tells.
fn weight_of(word: &[u8]) -> Option<u32>
    ensures { MatchOption result ((w : ℕ) → IsWeight w → word.now ≢ decimal w)
        (λ w. IsWeight w × (word.now ≡ decimal w)) }
{
    match number_of(word) {
        Some(number) => {
            if LEAST_WEIGHT <= number && number <= GREATEST_WEIGHT {
                Some(number as u32)
            } else {
                None
            }
        }
        None => None,
    }
}

/// What stands behind `book 2 ` is taken apart: the numeral, and how is traced.
fn numeral_and_trace(rest: &[u8]) -> (&[u8], Trace)
    ensures whole { rest.now ≡ result.0.now ++ trace_text result.1 }
    ensures roots { (front : List ℕ) → rest.now ≡ front ++ codes " roots" → result.0.now ≡ front }
{
    match rest.strip_suffix(b" roots") {
        Some(word) => (word, Trace::Roots),
        None => (rest, Trace::Deep),
    }
}

/// What a first line of the present form says.
fn new_header_of(line: &[u8]) -> Option<Header>
    ensures { MatchOption result ((h : header_type) → ¬ SaysNew line.now h) (λ h. SaysNew line.now h) }
{
    let Some(rest) = line.strip_prefix(b"book 2 ") else {
        return None;
    };
    let (word, trace) = numeral_and_trace(rest);
    match weight_of(word) {
        Some(weight) => Some(Header {
            weight,
            trace,
            leaves: true,
        }),
        None => None,
    }
}

/// What a first line says.
pub(crate) fn header_of(line: &[u8]) -> Option<Header>
    ensures { MatchOption result ((h : header_type) → ¬ Says line.now h) (λ h. Says line.now h) }
{
    if line == b"book 1".as_slice() {
        return Some(Header {
            weight: 256,
            trace: Trace::Deep,
            leaves: false,
        });
    }
    new_header_of(line)
}
