// Increments, decrements and mints: amounts by which counts rise and fall.

ghost use Rattle.std.specs.Prelude.{◌≡◌, ◌+◌, ◌-◌, ◌<◌, ◌≤◌, ℕ, [], ◌∷◌};
ghost use Rattle.std.specs.FinMap as m;
ghost use Rattle.orca_names.specs.Names.{owner_of};
ghost use Rattle.letter_kinds.specs.Counting.{lower_all, mint_all, raise_all};
ghost use Rattle.letter_kinds.specs.Holdings.{own_in, row_count};
ghost use Rattle.ref_weights.specs.Limit.{count_limit};
ghost use Rattle.object_heap.specs.Heap.{Heap, counted};
ghost use Rattle.foreign_table.specs.Table.{Table, count_unheld};
ghost use Rattle.known_rows.specs.Holdings.{holdings_of};
ghost use Rattle.trace_send.specs.Blocks.{blocks_minted};
ghost use Rattle.trace_send.specs.Can.{CanLower, CanMint, CanRaise};

use foreign_table::ForeignTable;
use letter_kinds::Amounts;
use object_heap::ObjectHeap;
use orca_names::{ActorName, ObjName, Thing};
use ref_weights::OwnCount;

// The count of an object rises, if it is there.
fn raise_object(heap: &mut ObjectHeap, n: &ObjName, by: u64)
    requires mine { n.now.owner ≡ heap.old.owner }
    requires fits { row_count (m.get heap.old.rows n.now.serial) + by < count_limit }
    ensures { heap.new ≡ counted (λ count. count + by) n.now heap.old }
{
    if heap.has(*n) {
        heap.raise(*n, by);
    }
}

// The count of an object falls, if it is there.
fn lower_object(heap: &mut ObjectHeap, n: &ObjName, by: u64)
    requires mine { n.now.owner ≡ heap.old.owner }
    requires enough { by ≤ row_count (m.get heap.old.rows n.now.serial) }
    ensures { heap.new ≡ counted (λ count. count - by) n.now heap.old }
{
    if heap.has(*n) {
        heap.lower(*n, by);
    }
}

// The count of a thing of its own rises.
fn raise_one(amount: &(Thing, u64), me: ActorName, own: &mut OwnCount, heap: &mut ObjectHeap)
    requires mine { heap.old.owner ≡ me }
    requires fits { (foreign : Table) → owner_of amount.now.0 ≡ me
        → own_in (holdings_of own.old heap.old foreign) amount.now.0 + amount.now.1 < count_limit }
    ensures counts { (foreign : Table) → holdings_of own.new heap.new foreign
        ≡ raise_all me (amount.now ∷ []) (holdings_of own.old heap.old foreign) }
    ensures owner { heap.new.owner ≡ heap.old.owner }
    ensures blocks { heap.new.blocks ≡ heap.old.blocks }
{
    let thing = &amount.0;
    if thing.owner() != me {
        return;
    }
    match thing {
        Thing::Actor(_) => own.raise(amount.1),
        Thing::Obj(n) => raise_object(heap, n, amount.1),
    }
}

// The count of a thing of its own falls.
fn lower_one(amount: &(Thing, u64), me: ActorName, own: &mut OwnCount, heap: &mut ObjectHeap)
    requires mine { heap.old.owner ≡ me }
    requires enough { (foreign : Table) → owner_of amount.now.0 ≡ me
        → amount.now.1 ≤ own_in (holdings_of own.old heap.old foreign) amount.now.0 }
    ensures counts { (foreign : Table) → holdings_of own.new heap.new foreign
        ≡ lower_all me (amount.now ∷ []) (holdings_of own.old heap.old foreign) }
    ensures owner { heap.new.owner ≡ heap.old.owner }
    ensures blocks { heap.new.blocks ≡ heap.old.blocks }
{
    let thing = &amount.0;
    if thing.owner() != me {
        return;
    }
    match thing {
        Thing::Actor(_) => own.lower(amount.1),
        Thing::Obj(n) => lower_object(heap, n, amount.1),
    }
}

/// The counts of an actor after an increment of these things: of those that are its own.
pub fn raise_counts(things: &Amounts, me: ActorName, own: &mut OwnCount, heap: &mut ObjectHeap)
    requires mine { heap.old.owner ≡ me }
    requires can { (foreign : Table) → CanRaise me things.now (holdings_of own.old heap.old foreign) }
    ensures counts { (foreign : Table) → holdings_of own.new heap.new foreign
        ≡ raise_all me things.now (holdings_of own.old heap.old foreign) }
    ensures owner { heap.new.owner ≡ heap.old.owner }
    ensures blocks { heap.new.blocks ≡ heap.old.blocks }
{
    for amount in things.as_slice() {
        raise_one(amount, me, own, heap);
    }
}

/// The counts of an actor after a decrement of these things: of those that are its own.
pub fn lower_counts(things: &Amounts, me: ActorName, own: &mut OwnCount, heap: &mut ObjectHeap)
    requires mine { heap.old.owner ≡ me }
    requires can { (foreign : Table) → CanLower me things.now (holdings_of own.old heap.old foreign) }
    ensures counts { (foreign : Table) → holdings_of own.new heap.new foreign
        ≡ lower_all me things.now (holdings_of own.old heap.old foreign) }
    ensures owner { heap.new.owner ≡ heap.old.owner }
    ensures blocks { heap.new.blocks ≡ heap.old.blocks }
{
    for amount in things.as_slice() {
        lower_one(amount, me, own, heap);
    }
}

/// The counts that an actor holds after it minted these things. It takes no memory.
pub fn mint_counts(things: &Amounts, foreign: &mut ForeignTable)
    requires can { (count : ℕ) (heap : Heap) → CanMint things.now (holdings_of count heap foreign.old) }
    requires room { count_unheld things.now foreign.old.entries ≤ foreign.old.spare }
    ensures counts { (count : ℕ) (heap : Heap) → holdings_of count heap foreign.new
        ≡ mint_all things.now (holdings_of count heap foreign.old) }
    ensures blocks { foreign.new.blocks ≡ blocks_minted things.now foreign.old.blocks }
{
    for amount in things.as_slice() {
        foreign.mint(amount.0, amount.1);
    }
}
