// Who takes a letter counts what it loads.

ghost use Rattle.std.specs.Prelude.{◌≡◌, ◌+◌, ◌≤◌, IsSome, length};
ghost use Rattle.letter_kinds.specs.Load.{as_load, as_loaded};
ghost use Rattle.row_store.specs.Memory.{remembered};
ghost use Rattle.row_store.specs.Told.{lies_as, row_here, told_block, told_row};
ghost use Rattle.letter_kinds.specs.Counting.{receive, receive_one};
ghost use Rattle.known_rows.specs.Holdings.{holdings_of};
ghost use Rattle.foreign_table.specs.Table.{row_length};
ghost use Rattle.trace_send.specs.Blocks.{block_received, blocks_received};
ghost use Rattle.trace_send.specs.Can.{CanReceive, CanReceiveOne};
ghost use Rattle.trace_send.specs.Room.{values_of};

use foreign_table::ForeignTable;
use letter_kinds::Load;
use object_heap::ObjectHeap;
use orca_names::{ActorName, Thing};
use ref_weights::OwnCount;
use row_store::{Remembered, Told};

// One less on a thing of its own, which the letter held so far; one more on another's.
fn receive_thing(
    loaded: &(Thing, Told),
    from: &Remembered,
    me: ActorName,
    own: &mut OwnCount,
    heap: &mut ObjectHeap,
    foreign: &mut ForeignTable,
)
    requires mine { heap.old.owner ≡ me }
    requires told { IsSome (told_block loaded.now.1)
        → IsSome (told_row (remembered from.now) loaded.now.0 loaded.now.1) }
    requires can { CanReceiveOne me (as_loaded (lies_as (remembered from.now) loaded.now))
        (holdings_of own.old heap.old foreign.old) }
    requires room { 1 ≤ foreign.old.spare }
    requires values { row_length (row_here loaded.now.1) ≤ foreign.old.spare_values }
    ensures counts { holdings_of own.new heap.new foreign.new
        ≡ receive_one me (as_loaded (lies_as (remembered from.now) loaded.now))
        (holdings_of own.old heap.old foreign.old) }
    ensures heap { (heap.new.owner ≡ heap.old.owner) × (heap.new.spare ≡ heap.old.spare) }
    ensures blocks { (heap.new.blocks ≡ heap.old.blocks) × (foreign.new.blocks
        ≡ block_received me (lies_as (remembered from.now) loaded.now) foreign.old.blocks) }
    ensures room { foreign.old.spare ≤ foreign.new.spare + 1 }
    ensures values { let its = row_length (row_here loaded.now.1) in
        foreign.old.spare_values ≤ foreign.new.spare_values + its }
{
    let thing = &loaded.0;
    if thing.owner() != me {
        foreign.gain(*thing, &loaded.1, from, 1);
        return;
    }
    match thing {
        Thing::Actor(_) => own.lower(1),
        Thing::Obj(n) => heap.lower(*n, 1),
    }
}

/// The counts of an actor after it took a letter with this load: each own thing one less, each
/// other's one more. Another's row lies in the block that the load tells of it, if it tells one.
/// It takes no memory.
pub fn receive_trace(
    load: &Load,
    me: ActorName,
    own: &mut OwnCount,
    heap: &mut ObjectHeap,
    foreign: &mut ForeignTable,
)
    requires mine { heap.old.owner ≡ me }
    requires can { CanReceive me (as_load load.now) (holdings_of own.old heap.old foreign.old) }
    requires room { length load.now ≤ foreign.old.spare }
    requires values { values_of load.now ≤ foreign.old.spare_values }
    ensures counts { holdings_of own.new heap.new foreign.new
        ≡ receive me (as_load load.now) (holdings_of own.old heap.old foreign.old) }
    ensures heap { (heap.new.owner ≡ heap.old.owner) × (heap.new.spare ≡ heap.old.spare) }
    ensures blocks { (heap.new.blocks ≡ heap.old.blocks)
        × (foreign.new.blocks ≡ blocks_received me load.now foreign.old.blocks) }
    ensures room { foreign.old.spare ≤ foreign.new.spare + length load.now }
    ensures values { let its = values_of load.now in
        foreign.old.spare_values ≤ foreign.new.spare_values + its }
{
    let (items, memory) = load.parts();
    for loaded in items {
        receive_thing(loaded, memory, me, own, heap, foreign);
    }
}
