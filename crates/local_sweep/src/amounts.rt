// What goes back, in groups of its owners.

ghost use Rattle.std.specs.Prelude.{◌≡◌, ◌≢◌, ℕ, ◌-◌, ◌<◌, ◌++◌, ◌∷◌, [], List, length, slice_index_or, IsTrue, OnOk};
ghost use Rattle.std.specs.Bool.{OnFalse};
ghost use Rattle.letter_kinds.specs.Counting.{Amount, by_owner};

use letter_kinds::Amounts;
use orca_names::{ActorName, NoMemory, Thing};
use std::alloc::Global;

// Whether the last group is this owner's.
fn ends_with(back: &[(ActorName, Amounts)], owner: ActorName) -> bool
    ensures some { IsTrue result → 0 < length back.now }
    ensures own { IsTrue result → (d : ℕ × List Amount)
        → (slice_index_or back.now (length back.now - 1) d).0 ≡ owner }
    ensures other { OnFalse result (0 < length back.now → (d : ℕ × List Amount)
        → (slice_index_or back.now (length back.now - 1) d).0 ≢ owner) }
{
    if back.len() == 0 {
        return false;
    }
    let group = &back[back.len() - 1];
    group.0 == owner
}

/// One amount more, which comes behind the others in the order of things.
///
/// # Errors
/// `NoMemory` where memory was refused; what is to go back is then left open.
#[inline(always)]
pub fn push_amount(
    alloc: Global,
    back: &mut Vec<(ActorName, Amounts)>,
    thing: &Thing,
    count: u64,
) -> Result<(), NoMemory>
    ensures { (given : List Amount) → back.old.items ≡ by_owner given
        → OnOk result (back.new.items ≡ by_owner (given ++ (thing.now, count) ∷ [])) }
{
    let owner = thing.owner();
    if ends_with(back.as_slice(), owner) {
        let last = back.len() - 1;
        back[last].1.push((*thing, count))?;
        return Ok(());
    }
    let mut things = Amounts::new(alloc);
    things.push((*thing, count))?;
    back.push((owner, things))?;
    Ok(())
}
