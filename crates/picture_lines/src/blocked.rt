// The lines of the detector of blocked actors, and of the notes to it.

ghost use Rattle.std.specs.Prelude.{◌≡◌, ◌++◌, ◌∷◌, [], codes, length, map, OnOk, string_bytes};
ghost use Rattle.std.specs.Fmt.{decimal};
ghost use Rattle.std.specs.List.Sorted.{IsStrictlySortedBy};
ghost use Rattle.std.specs.Ordering.{nat_cmp};
ghost use Rattle.behaviour_text.specs.Text.{line_of, rest_of_line};
ghost use Rattle.detector_tokens.specs.Marks.{picked};
ghost use Rattle.letter_kinds.specs.declared.note.Note.TheVariants.{Block};
ghost use Rattle.picture_rules.specs.Words.{bit_word, text_of_lines};
ghost use Rattle.picture_rules.specs.Blocked.{detector_line, member_line, note_line, open_lines, report_line, told_words};

use crate::words::{end_with_held, push_bit};
use letter_kinds::{Note, Report};
use orca_names::ActorName;
use std::alloc::AllocError;

/// The line of the detector: is there news, and how many tokens were ever opened.
///
/// # Errors
/// `AllocError` where memory was refused.
pub fn push_detector(out: &mut String, news: bool, opened: u64) -> Result<(), AllocError>
    ensures { OnOk result (string_bytes out.new
        ≡ string_bytes out.old ++ line_of (detector_line news opened)) }
{
    out.push_str("detector")?;
    push_bit(out, news)?;
    write!(out, " {opened}\n")
}

/// The words of an actor, its count, and what it holds on others, which end a line.
fn end_with_told(
    out: &mut String,
    actor: ActorName,
    count: u64,
    held: &[(ActorName, u64)],
) -> Result<(), AllocError>
    ensures { OnOk result (string_bytes out.new
        ≡ string_bytes out.old ++ rest_of_line (told_words actor count held.now)) }
{
    write!(out, " {} {count}", actor.0)?;
    end_with_held(out, held)
}

/// The line of a report that is kept.
///
/// # Errors
/// `AllocError` where memory was refused.
pub fn push_report(out: &mut String, report: &Report) -> Result<(), AllocError>
    ensures { let r = report.now in OnOk result (string_bytes out.new
        ≡ string_bytes out.old ++ line_of (report_line r.actor r.count r.held)) }
{
    out.push_str("report")?;
    end_with_told(out, report.actor, report.count, report.held.as_slice())
}

/// The line of a note of a blocked actor.
fn push_block(
    out: &mut String,
    actor: ActorName,
    count: u64,
    held: &[(ActorName, u64)],
) -> Result<(), AllocError>
    ensures { OnOk result (string_bytes out.new
        ≡ string_bytes out.old ++ line_of (note_line (Block actor count held.now))) }
{
    out.push_str("note block")?;
    end_with_told(out, actor, count, held)
}

/// The line of a note that was posted.
///
/// # Errors
/// `AllocError` where memory was refused.
pub fn push_note(out: &mut String, note: &Note) -> Result<(), AllocError>
    ensures { OnOk result (string_bytes out.new
        ≡ string_bytes out.old ++ line_of (note_line note.now)) }
{
    match note {
        Note::Block { actor, count, held } => push_block(out, *actor, *count, held.as_slice()),
        Note::Unblock { actor } => write!(out, "note unblock {}\n", actor.0),
        Note::Ack { token, actor } => write!(out, "note ack {token} {}\n", actor.0),
    }
}

/// The line of a member of a token.
fn push_member(out: &mut String, actor: ActorName, acked: bool) -> Result<(), AllocError>
    ensures { OnOk result (string_bytes out.new
        ≡ string_bytes out.old ++ line_of (codes "member" ∷ decimal actor ∷ bit_word acked ∷ [])) }
{
    write!(out, "member {}", actor.0)?;
    push_bit(out, acked)?;
    out.push('\n')
}

/// The lines of the members of a token.
fn push_members(out: &mut String, members: &[ActorName], acked: &[bool]) -> Result<(), AllocError>
    requires rising { IsStrictlySortedBy nat_cmp members.now }
    requires beside { length acked.now ≡ length members.now }
    ensures { OnOk result (string_bytes out.new ≡ string_bytes out.old
        ++ text_of_lines (map (member_line (picked members.now acked.now)) members.now)) }
{
    for (i, actor) in members.iter().enumerate() {
        push_member(out, *actor, acked[i])?;
    }
    Ok(())
}

/// The lines of an open token; beside each of its members, which rise, stands whether it acknowledged.
///
/// # Errors
/// `AllocError` where memory was refused.
pub fn push_token(
    out: &mut String,
    number: u64,
    members: &[ActorName],
    acked: &[bool],
) -> Result<(), AllocError>
    requires rising { IsStrictlySortedBy nat_cmp members.now }
    requires beside { length acked.now ≡ length members.now }
    ensures { OnOk result (string_bytes out.new ≡ string_bytes out.old ++ text_of_lines (open_lines
        (record { number = number; members = members.now; acked = picked members.now acked.now }))) }
{
    write!(out, "token {number}\n")?;
    push_members(out, members, acked)
}
