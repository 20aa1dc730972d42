// Reading a whole text.

ghost use Rattle.std.specs.Prelude.{◌≡◌, ◌<◌, ◌≤◌, ◌^◌, OnOk, IfOk, IfErr, None, Ok, map, option_map, length, All};
ghost use Rattle.std.specs.Option.{option_or};
ghost use Rattle.text_lines.specs.Lines.{lines_of, line_at, with_fault};
ghost use Rattle.behaviour_code.specs.WellFormed.{IsWellFormed};
ghost use Rattle.behaviour_code.specs.declared.code.Program.{Program};
ghost use Rattle.behaviour_text.specs.Faults.{words_fault, first_fault, IsFault, Tells};
ghost use Rattle.behaviour_text.specs.Kinds.{kind_of};
ghost use Rattle.behaviour_text.specs.Reading.{start, place_of, read_from, read_text, read_end, fault_of, LineTaken};
ghost use Rattle.behaviour_text.specs.Text.{IsText};
ghost use Rattle.behaviour_text.specs.Words.{words_of};

use crate::errors::{FaultKind, TextErr};
use crate::place::Stage;
use crate::reader::Reader;
use crate::words::put_words;
use behaviour_code::Program;
use std::alloc::Global;
use text_lines::{LineKind, LineSpan, lines};

fn kind_of(fault: LineKind) -> FaultKind
    ensures { result ≡ kind_of fault }
{
    match fault {
        LineKind::NotAscii => FaultKind::NotAscii,
        LineKind::LongLine => FaultKind::LongLine,
    }
}

/// Takes the line of a number. Its words, and the numbers of its operands, are put into lists that
/// each line uses again.
fn take_line<'a>(
    reader: &mut Reader,
    alloc: Global,
    number: u32,
    words: &mut Vec<&'a [u8]>,
    numbers: &mut Vec<u64>,
    line: &'a [u8],
    fault: Option<LineKind>,
) -> Result<(), TextErr>
    requires { length reader.old.names < 2 ^ 32 }
    ensures ok { OnOk result (LineTaken reader.old reader.new line.now fault) }
    ensures fault { IfErr result
        (Tells (option_map (λ kind. (number, kind))
        (option_or (option_map kind_of fault)
        (words_fault (place_of reader.old) (words_of line.now))))) }
{
    if let Some(kind) = fault {
        return Err(TextErr::Fault {
            line: number,
            kind: kind_of(kind),
        });
    }
    put_words(words, line)?;
    match reader.take_words(alloc, numbers, words)? {
        Some(kind) => Err(TextErr::Fault { line: number, kind }),
        None => Ok(()),
    }
}

/// Whether the text may end here: within a behaviour an `end` is missing.
fn read_end(reader: &Reader, line: u32) -> Result<(), TextErr>
    ensures ok { OnOk result (read_end line reader.now reader.now.stage ≡ Ok reader.now) }
    ensures fault { IfErr result (Tells (fault_of (read_end line reader.now reader.now.stage))) }
{
    match reader.stage {
        Stage::InBehaviour => Err(TextErr::Fault {
            line,
            kind: FaultKind::MissingEnd,
        }),
        _ => Ok(()),
    }
}

/// Reads the lines at these spans.
fn read_lines(
    reader: &mut Reader,
    alloc: Global,
    bytes: &[u8],
    spans: &[LineSpan],
) -> Result<(), TextErr>
    requires begun { reader.old ≡ start }
    requires lines { map (line_at bytes.now) spans.now ≡ map with_fault (lines_of bytes.now) }
    requires within { All (λ s. (s.from ≤ s.to) × (s.to ≤ length bytes.now)) spans.now }
    requires few { length spans.now < 2 ^ 32 }
    ensures ok { OnOk result (read_from 0 start (lines_of bytes.now) ≡ Ok reader.new) }
    ensures fault { IfErr result (Tells (fault_of (read_from 0 start (lines_of bytes.now)))) }
{
    let mut words = Vec::new(alloc);
    let mut numbers = Vec::new(alloc);
    let mut line = 0;
    for span in spans {
        line += 1;
        let text = &bytes[span.from..span.to];
        let taken = take_line(
            reader,
            alloc,
            line,
            &mut words,
            &mut numbers,
            text,
            span.fault,
        );
        if let Err(e) = taken {
            return Err(e);
        }
    }
    read_end(reader, line)
}

/// The program that a text gives, or its first fault.
#[tactic(auto, unfolding(crate::specs::Reading::read_text))]
fn read(alloc: Global, bytes: &[u8]) -> Result<Program, TextErr>
    requires { length bytes.now < 2 ^ 32 }
    ensures ok { IfOk result (λ p. read_text bytes.now ≡ Ok p) }
    ensures fault { IfErr result (Tells (fault_of (read_text bytes.now))) }
{
    let spans = lines(alloc, bytes)?;
    let mut reader = Reader::new(alloc);
    read_lines(&mut reader, alloc, bytes, &spans)?;
    reader.close_kind(alloc)?;
    Ok(Program {
        kinds: reader.kinds,
        names: reader.names,
    })
}

/// The program that a text says. Names stand in the order in which they come first.
///
/// # Errors
/// The first fault, exactly where there is one, unless memory is refused.
pub fn parse(alloc: Global, bytes: &[u8]) -> Result<Program, TextErr>
    requires { length bytes.now < 2 ^ 32 }

    // The text says this program, which keeps the limits; of such programs it says no other.
    ensures text { IfOk result (IsText bytes.now) }
    ensures good { IfOk result IsWellFormed }
    ensures only { (p : Program) → IsText bytes.now p → IsWellFormed p
        → IfOk result (λ found. found ≡ p) }

    // It is refused exactly where it says no such program, for its first fault.
    ensures none { IfErr result (λ e. IsFault e → (p : Program) → IsText bytes.now p
        → ¬ IsWellFormed p) }
    ensures sound { OnOk result (first_fault bytes.now ≡ None) }
    ensures fault { IfErr result (Tells (first_fault bytes.now)) }
{
    read(alloc, bytes)
}
