// The parts of a state that an event touches.

ghost use Rattle.std.specs.Prelude.{◌≡◌, ℕ, IfOk};
ghost use Rattle.std.specs.List.Sorted.{IsStrictlySortedBy};
ghost use Rattle.std.specs.Ordering.{nat_cmp};
ghost use Rattle.letter_kinds.specs.Detector.{has};
ghost use Rattle.book_picture.specs.Entries.{IsStateOfParts};
ghost use Rattle.book_picture.specs.Texts.{AreTouched};

use orca_core::{Orca, Ready};
use orca_names::{ActorName, NoMemory};
use std::alloc::Global;

/// What an event may change besides the detector.
#[derive(Drop)]
pub(crate) struct Touched {
    /// The actors of which it may change the seat or the report, rising.
    pub(crate) actors: Vec<ActorName>,
    /// The token that it may change.
    pub(crate) token: Option<u64>,
}

/// These names in rising order, each once.
fn rising(names: Vec<ActorName>) -> Vec<ActorName>
    ensures rising { IsStrictlySortedBy nat_cmp result.items }
    ensures same { (a : ℕ) → has result.items a ≡ has names.items a }
{
    let mut names = names;
    names.sort_unstable();
    names.dedup();
    names
}

/// What an event that was prepared may change.
///
/// # Errors
/// `NoMemory` where memory was refused.
pub(crate) fn touched_by(alloc: Global, orca: &Orca<'_>, ready: &Ready) -> Result<Touched, NoMemory>
    ensures touched { IfOk result (λ t. AreTouched ready.now.event orca.now.kept t.actors.items t.token) }
    ensures state { IsStateOfParts orca.now }
{
    let actors = rising(orca.touched(alloc, ready)?);
    let token = orca.touched_token(ready);
    Ok(Touched { actors, token })
}
