// What changes of the touched parts, by their texts before and after.

ghost use Rattle.std.specs.Prelude.{◌≡◌, ◌++◌, ◌∷◌, ℕ, [], List, OnOk, codes, flat_map, length, map, string_bytes};
ghost use Rattle.std.specs.Fmt.{decimal};
ghost use Rattle.std.specs.Option.{option_map_or};
ghost use Rattle.machine_rules.specs.State.{State};
ghost use Rattle.picture_rules.specs.Parts.{part_change};
ghost use Rattle.picture_rules.specs.Words.{Line, text_of_lines};
ghost use Rattle.book_picture.specs.Texts.{AreTexts, HaveTexts, touched_changes};

use crate::texts::Texts;
use crate::touched::Touched;
use orca_names::ActorName;
use picture_lines::{
    push_detector_change, push_report_change, push_seat_change, push_token_change,
};
use std::alloc::AllocError;

/// What changes of these actors, of the texts of their lines before and after.
fn push_seat_changes(
    out: &mut String,
    actors: &[ActorName],
    before: &[String],
    after: &[String],
) -> Result<(), AllocError>
    requires before { length before.now ≡ length actors.now }
    requires after { length after.now ≡ length actors.now }
    ensures { (b a : ℕ → List Line) → map string_bytes before.now ≡ map (λ x. text_of_lines (b x)) actors.now
        → map string_bytes after.now ≡ map (λ x. text_of_lines (a x)) actors.now
        → OnOk result (string_bytes out.new ≡ string_bytes out.old ++ text_of_lines
        (flat_map (λ x. part_change (codes "gone" ∷ decimal x ∷ []) (b x) (a x)) actors.now)) }
{
    for (i, actor) in actors.iter().enumerate() {
        push_seat_change(out, *actor, &before[i], &after[i])?;
    }
    Ok(())
}

/// What changes of the reports of these actors, of the texts of their lines before and after.
fn push_report_changes(
    out: &mut String,
    actors: &[ActorName],
    before: &[String],
    after: &[String],
) -> Result<(), AllocError>
    requires before { length before.now ≡ length actors.now }
    requires after { length after.now ≡ length actors.now }
    ensures { (b a : ℕ → List Line) → map string_bytes before.now ≡ map (λ x. text_of_lines (b x)) actors.now
        → map string_bytes after.now ≡ map (λ x. text_of_lines (a x)) actors.now
        → OnOk result (string_bytes out.new ≡ string_bytes out.old ++ text_of_lines
        (flat_map (λ x. part_change (codes "withdrawn" ∷ decimal x ∷ []) (b x) (a x)) actors.now)) }
{
    for (i, actor) in actors.iter().enumerate() {
        push_report_change(out, *actor, &before[i], &after[i])?;
    }
    Ok(())
}

/// What changes of the token of this number, of the texts of its lines before and after; nothing where
/// there is no number.
fn push_numbered_change(
    out: &mut String,
    number: Option<u64>,
    before: &str,
    after: &str,
) -> Result<(), AllocError>
    ensures { (b a : ℕ → List Line) → before.now ≡ text_of_lines (option_map_or b number [])
        → after.now ≡ text_of_lines (option_map_or a number [])
        → OnOk result (string_bytes out.new ≡ string_bytes out.old ++ text_of_lines
        (option_map_or (λ n. part_change (codes "closed" ∷ decimal n ∷ []) (b n) (a n)) number [])) }
{
    match number {
        Some(number) => push_token_change(out, number, before, after),
        None => Ok(()),
    }
}

/// What changes of the touched parts, of their texts before and after.
///
/// # Errors
/// `AllocError` where memory was refused.
pub(crate) fn push_changes(
    out: &mut String,
    touched: &Touched,
    before: &Texts,
    after: &Texts,
) -> Result<(), AllocError>
    requires before { HaveTexts before.now touched.now.actors.items }
    requires after { HaveTexts after.now touched.now.actors.items }
    ensures { let actors = touched.now.actors.items in let token = touched.now.token in
        (s t : State) → AreTexts t.program.names s actors token before.now
        → AreTexts t.program.names t actors token after.now
        → OnOk result (string_bytes out.new
        ≡ string_bytes out.old ++ text_of_lines (touched_changes actors token s t)) }
{
    let actors = touched.actors.as_slice();
    push_seat_changes(out, actors, &before.seats, &after.seats)?;
    push_detector_change(out, &before.detector, &after.detector)?;
    push_report_changes(out, actors, &before.reports, &after.reports)?;
    push_numbered_change(out, touched.token, &before.token, &after.token)
}
