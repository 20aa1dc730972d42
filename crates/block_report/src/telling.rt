// What an actor tells the detector of a letter.

ghost use Rattle.std.specs.Prelude.{◌≡◌, ℕ, if◌then◌else◌, None, Some};
ghost use Rattle.block_report.specs.Telling.{note_told};
ghost use Rattle.letter_kinds.specs.Letters.{as_letter};
ghost use Rattle.machine_rules.specs.Take.{note_of};

use letter_kinds::Letter;

/// What an actor tells of a letter that it takes.
#[derive(Clone, Copy, Debug, PartialEq, Eq)]
pub enum Tells {
    /// Its report isn't out.
    Nothing,
    /// It is blocked no more.
    Unblocked,
    /// It is blocked still, as it was when it reported: it acknowledges the token.
    Acknowledged { token: u64 },
}

/// What the detector is to hear where an actor takes the letter: that it is unblocked, or that it is still
/// blocked, if its report is out.
#[inline(always)]
pub fn tells_on(reported: bool, letter: &Letter) -> Tells
    ensures { (actor : ℕ) → note_told actor result
        ≡ (if reported then Some (note_of actor (as_letter letter.now)) else None) }
{
    if !reported {
        return Tells::Nothing;
    }
    match letter {
        Letter::Confirm { token } => Tells::Acknowledged { token: *token },
        _ => Tells::Unblocked,
    }
}
