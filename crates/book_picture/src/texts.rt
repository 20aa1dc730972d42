// The texts of the lines of parts of a state, each empty where the part is not there.

ghost use Rattle.std.specs.Prelude.{◌≡◌, ◌++◌, [], Option, IfOk, IfSome, OnOk, map, string_bytes};
ghost use Rattle.std.specs.Option.{option_map, option_copied};
ghost use Rattle.letter_kinds.specs.Telling.{TellsNothing, ToldByOne};
ghost use Rattle.actor_cell.specs.Cells.{as_cell};
ghost use Rattle.actor_cell.specs.Tells.{Tells};
ghost use Rattle.machine_rules.specs.Actors.{Seat, cell_of};
ghost use Rattle.orca_core.specs.Machine.{NoneIsAway};
ghost use Rattle.picture_rules.specs.Words.{text_of_lines};
ghost use Rattle.picture_rules.specs.Seats.{seat_lines};
ghost use Rattle.picture_rules.specs.Blocked.{detector_lines, report_lines, token_lines};
ghost use Rattle.book_picture.specs.Texts.{AreTexts, numbered_lines, report_texts, seat_texts};

use crate::touched::Touched;
use actor_cell::Cell;
use behaviour_code::Names;
use cycle_detect::{Detector, Token};
use letter_kinds::Report;
use mail_rows::MailRow;
use orca_core::Orca;
use orca_names::{ActorName, NoMemory};
use picture_lines::{push_detector, push_report, push_seat, push_token};
use std::alloc::{AllocError, Global};

/// The texts of the parts that an event touches.
#[derive(Drop)]
pub(crate) struct Texts {
    /// Of each touched actor the lines of its seat.
    pub(crate) seats: Vec<String>,
    pub(crate) detector: String,
    /// Of each touched actor the line of the report that is kept of it.
    pub(crate) reports: Vec<String>,
    pub(crate) token: String,
}

/// The lines of an actor, none where it is not there.
pub(crate) fn push_actor(
    out: &mut String,
    names: &Names,
    actor: ActorName,
    cell: Option<&Cell>,
    mail: Option<&MailRow>,
) -> Result<(), AllocError>
    requires cell { IfSome cell (λ c. TellsNothing (Tells c.now)) }
    requires mail { IfSome mail (λ m. TellsNothing (ToldByOne m.now.brought)) }
    ensures { (o : Option Seat) → option_map (λ c. as_cell c.now) cell.entry ≡ cell_of o
        → option_map (λ m. m.now.letters) mail.entry ≡ option_map (λ p. p.mail) o
        → OnOk result (string_bytes out.new ≡ string_bytes out.old
        ++ text_of_lines (seat_lines names.now actor o)) }
{
    let Some(cell) = cell else {
        return Ok(());
    };
    let Some(mail) = mail else {
        return Ok(());
    };
    push_seat(out, names, actor, cell, mail)
}

/// The lines of these actors, a text for each.
fn seat_texts(
    alloc: Global,
    orca: &Orca<'_>,
    names: &Names,
    actors: &[ActorName],
) -> Result<Vec<String>, NoMemory>
    requires home { NoneIsAway orca.now }
    requires none { orca.now.blocks ≡ [] }
    ensures { IfOk result (λ v. map string_bytes v.items
        ≡ seat_texts names.now orca.now.state actors.now) }
{
    let mut texts = Vec::new(alloc);
    for actor in actors {
        let mut text = String::new(alloc);
        push_actor(
            &mut text,
            names,
            *actor,
            orca.cell(*actor),
            orca.mail(*actor),
        )?;
        texts.push(text)?;
    }
    Ok(texts)
}

/// The line of a report, none where none is kept.
fn report_text(alloc: Global, report: Option<&Report>) -> Result<String, AllocError>
    ensures { IfOk result (λ text. string_bytes text
        ≡ text_of_lines (report_lines (option_copied report.entry))) }
{
    let mut text = String::new(alloc);
    if let Some(report) = report {
        push_report(&mut text, report)?;
    }
    Ok(text)
}

/// The lines of the reports of these actors, a text for each.
fn report_texts(
    alloc: Global,
    detector: &Detector,
    actors: &[ActorName],
) -> Result<Vec<String>, NoMemory>
    ensures { IfOk result (λ v. map string_bytes v.items
        ≡ report_texts detector.now.state actors.now) }
{
    let mut texts = Vec::new(alloc);
    for actor in actors {
        texts.push(report_text(alloc, detector.report(*actor))?)?;
    }
    Ok(texts)
}

/// The line of the detector.
fn detector_text(alloc: Global, detector: &Detector) -> Result<String, AllocError>
    ensures { IfOk result (λ text. string_bytes text
        ≡ text_of_lines (detector_lines detector.now.state)) }
{
    let mut text = String::new(alloc);
    push_detector(&mut text, detector.news(), detector.opened())?;
    Ok(text)
}

/// The lines of a token, none where it is not open.
fn token_text(alloc: Global, token: Option<&Token>) -> Result<String, AllocError>
    ensures { IfOk result (λ text. string_bytes text
        ≡ text_of_lines (token_lines (option_copied token.entry))) }
{
    let mut text = String::new(alloc);
    if let Some(token) = token {
        push_token(&mut text, token.number(), token.members(), token.marks())?;
    }
    Ok(text)
}

/// The lines of the token of this number, none where there is no number.
fn numbered_text(
    alloc: Global,
    detector: &Detector,
    number: Option<u64>,
) -> Result<String, AllocError>
    ensures { IfOk result (λ text. string_bytes text
        ≡ text_of_lines (numbered_lines detector.now.state number)) }
{
    match number {
        Some(number) => token_text(alloc, detector.token(number)),
        None => Ok(String::new(alloc)),
    }
}

/// The texts of the touched parts, as the machine is now.
///
/// # Errors
/// `NoMemory` where memory was refused.
pub(crate) fn texts_of(
    alloc: Global,
    orca: &Orca<'_>,
    names: &Names,
    touched: &Touched,
) -> Result<Texts, NoMemory>
    requires home { NoneIsAway orca.now }
    requires none { orca.now.blocks ≡ [] }
    ensures { let touch = touched.now in
        IfOk result (AreTexts names.now orca.now.state touch.actors.items touch.token) }
{
    let detector = orca.detector();
    let actors = touched.actors.as_slice();
    Ok(Texts {
        seats: seat_texts(alloc, orca, names, actors)?,
        detector: detector_text(alloc, detector)?,
        reports: report_texts(alloc, detector, actors)?,
        token: numbered_text(alloc, detector, touched.token)?,
    })
}
