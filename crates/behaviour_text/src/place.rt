// Where a line stands among the lines before it, and what may be wrong there.

ghost use Rattle.std.specs.Prelude.{◌≡◌, ℕ, List};
ghost use Rattle.behaviour_text.specs.Faults.{kind_fault, on_fault, inside_fault, body_fault, place_fault};
ghost use Rattle.behaviour_text.specs.Items.{operand_numbers};
ghost use Rattle.behaviour_text.specs.Table.{word_operands};

use crate::errors::FaultKind;
use crate::items::number_at;
use crate::table::LineWord;
use orca_names::{BEHAVIOURS_LIMIT, BODY_LIMIT, FIELDS_LIMIT, KINDS_LIMIT, VALUES_LIMIT};

/// What stands begun.
#[derive(Clone, Copy, Debug, PartialEq, Eq)]
pub(crate) enum Stage {
    Start,
    InKind,
    InBehaviour,
}

/// The place of a line.
#[derive(Clone, Copy, Debug, PartialEq, Eq)]
pub(crate) struct Place {
    pub(crate) stage: Stage,
    /// The kinds that are begun.
    pub(crate) kinds: usize,
    /// The behaviours of the last kind that are ended.
    pub(crate) behaviours: usize,
    /// The instructions so far of the behaviour that is begun.
    pub(crate) instructions: usize,
}

fn kind_fault(stage: Stage, kinds: usize, fields: u64) -> Option<FaultKind>
    ensures { result ≡ kind_fault stage kinds fields }
{
    match stage {
        Stage::InBehaviour => Some(FaultKind::MissingEnd),
        _ => if kinds >= KINDS_LIMIT || fields > FIELDS_LIMIT as u64 {
            Some(FaultKind::TooMany)
        } else {
            None
        },
    }
}

fn on_fault(stage: Stage, behaviours: usize, parameters: u64) -> Option<FaultKind>
    ensures { result ≡ on_fault stage behaviours parameters }
{
    match stage {
        Stage::Start => Some(FaultKind::OutsideBehaviour),
        Stage::InBehaviour => Some(FaultKind::MissingEnd),
        Stage::InKind => if behaviours >= BEHAVIOURS_LIMIT || parameters > VALUES_LIMIT as u64 {
            Some(FaultKind::TooMany)
        } else {
            None
        },
    }
}

fn inside_fault(stage: Stage, fault: Option<FaultKind>) -> Option<FaultKind>
    ensures { result ≡ inside_fault stage fault }
{
    match stage {
        Stage::InBehaviour => fault,
        _ => Some(FaultKind::OutsideBehaviour),
    }
}

fn body_fault(instructions: usize) -> Option<FaultKind>
    ensures { result ≡ body_fault instructions }
{
    if instructions >= BODY_LIMIT {
        Some(FaultKind::TooMany)
    } else {
        None
    }
}

/// The lowest fault of the place of a line, whose operands say these numbers.
pub(crate) fn place_fault(place: Place, word: LineWord, numbers: &[u64]) -> Option<FaultKind>
    ensures { (words : List (List ℕ)) → numbers.now ≡ operand_numbers (word_operands word) words
        → result ≡ place_fault place word words }
{
    match word {
        LineWord::Kind => kind_fault(place.stage, place.kinds, number_at(numbers, 1)),
        LineWord::On => on_fault(place.stage, place.behaviours, number_at(numbers, 1)),
        LineWord::End => inside_fault(place.stage, None),
        LineWord::Instr(_) => inside_fault(place.stage, body_fault(place.instructions)),
    }
}
