// The two indexes: who acts, and who settles once nothing else is to be done.

ghost use Rattle.std.specs.Prelude.{◌≡◌, ◌<◌, ◌≤◌, Bool, length, set, slice_index_or, false, true, OnOk};
ghost use Rattle.orca_names.specs.declared.limits.TheConstants.{ACTORS_LIMIT};
ghost use Rattle.actor_table.specs.declared.slot.Slot.{Slot as a_slot};
ghost use Rattle.actor_table.specs.Changes.{is_go};
ghost use Rattle.actor_table.specs.Index.{IsIndex};
ghost use Rattle.actor_table.specs.Slots.{can_act, can_settle, gone, AreIndexed};

use crate::change::Changes;
use crate::slot::{Slot, can_act, can_settle, goes_on};
use orca_names::NoMemory;
use ready_set::ReadySet;

/// Makes sure that the index has a place for one actor more.
fn reserve_bit(slots: &[Slot], ready: &mut ReadySet) -> Result<(), NoMemory>
    requires few { length slots.now < ACTORS_LIMIT }
    requires room { length slots.now ≤ length ready.old }
    ensures index { (has : a_slot → Bool) → IsIndex has gone ready.old slots.now
        → IsIndex has gone ready.new slots.now }
    ensures ok { OnOk result (length slots.now < length ready.new) }
    ensures kept { length ready.old ≤ length ready.new }
{
    if slots.len() == ready.len() {
        ready.grow()?;
    }
    Ok(())
}

/// Makes sure that both indexes have a place for one actor more.
pub(crate) fn reserve_bits(
    slots: &[Slot],
    acting: &mut ReadySet,
    settling: &mut ReadySet,
) -> Result<(), NoMemory>
    requires few { length slots.now < ACTORS_LIMIT }
    requires indexed { AreIndexed slots.now acting.old settling.old }
    ensures indexed { AreIndexed slots.now acting.new settling.new }
    ensures ok { OnOk result ((length slots.now < length acting.new)
        × (length slots.now < length settling.new)) }
{
    reserve_bit(slots, acting)?;
    reserve_bit(slots, settling)
}

/// Writes in both what they tell of the actor with this number, which has this place.
#[inline(always)]
pub(crate) fn put_bits(slot: &Slot, acting: &mut ReadySet, settling: &mut ReadySet, a: u32)
    requires { (a < length acting.old) × (a < length settling.old) }
    ensures acting { acting.new ≡ set acting.old a (can_act slot.now) }
    ensures settling { settling.new ≡ set settling.old a (can_settle slot.now) }
{
    acting.put(a, can_act(slot));
    settling.put(a, can_settle(slot));
}

/// Writes the same after a change: while a turn goes on, both tell the same as before.
#[inline(always)]
pub(crate) fn put_bits_after<C: Changes>(
    slot: &Slot,
    acting: &mut ReadySet,
    settling: &mut ReadySet,
    a: u32,
    change: &C,
)
    requires within { (a < length acting.old) × (a < length settling.old) }
    requires going { is_go (C.as_change change.now) ≡ true
        → (slice_index_or acting.old a false ≡ true) × (slice_index_or settling.old a false ≡ true) }
    ensures acting { acting.new ≡ set acting.old a (can_act slot.now) }
    ensures settling { settling.new ≡ set settling.old a (can_settle slot.now) }
{
    if change.is_go() && goes_on(slot) {
        return;
    }
    put_bits(slot, acting, settling, a);
}
