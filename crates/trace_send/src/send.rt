// Who sends a letter counts what it loads, the other way round.

ghost use Rattle.std.specs.Prelude.{◌≡◌, None, Option};
ghost use Rattle.letter_kinds.specs.Load.{as_load};
ghost use Rattle.letter_kinds.specs.Holdings.{Row as any_row};
ghost use Rattle.letter_kinds.specs.Counting.{send, send_one};
ghost use Rattle.known_rows.specs.Holdings.{holdings_of};
ghost use Rattle.trace_send.specs.Can.{CanSend, CanSendOne};

use foreign_table::ForeignTable;
use letter_kinds::Load;
use object_heap::ObjectHeap;
use orca_names::{ActorName, Thing};
use ref_weights::OwnCount;

// One more on a thing of its own, one less on another's.
fn send_thing(
    thing: &Thing,
    me: ActorName,
    own: &mut OwnCount,
    heap: &mut ObjectHeap,
    foreign: &mut ForeignTable,
)
    requires mine { heap.old.owner ≡ me }
    requires can { CanSendOne me (thing.now, None) (holdings_of own.old heap.old foreign.old) }
    ensures counts { (row : Option any_row) → holdings_of own.new heap.new foreign.new
        ≡ send_one me (thing.now, row) (holdings_of own.old heap.old foreign.old) }
    ensures heap { (heap.new.owner ≡ heap.old.owner) × (heap.new.spare ≡ heap.old.spare) }
    ensures blocks { (heap.new.blocks ≡ heap.old.blocks)
        × (foreign.new.blocks ≡ foreign.old.blocks) }
    ensures room { foreign.new.spare ≡ foreign.old.spare }
{
    if thing.owner() != me {
        foreign.spend(*thing);
        return;
    }
    match thing {
        Thing::Actor(_) => own.raise(1),
        Thing::Obj(n) => heap.raise(*n, 1),
    }
}

/// The counts of an actor after it sent a letter with this load: each own thing one more, each
/// other's one less. It takes no memory.
pub fn send_trace(
    load: &Load,
    me: ActorName,
    own: &mut OwnCount,
    heap: &mut ObjectHeap,
    foreign: &mut ForeignTable,
)
    requires mine { heap.old.owner ≡ me }
    requires can { CanSend me (as_load load.now) (holdings_of own.old heap.old foreign.old) }
    ensures counts { holdings_of own.new heap.new foreign.new
        ≡ send me (as_load load.now) (holdings_of own.old heap.old foreign.old) }
    ensures heap { (heap.new.owner ≡ heap.old.owner) × (heap.new.spare ≡ heap.old.spare) }
    ensures blocks { (heap.new.blocks ≡ heap.old.blocks)
        × (foreign.new.blocks ≡ foreign.old.blocks) }
    ensures room { foreign.new.spare ≡ foreign.old.spare }
{
    let (items, _) = load.parts();
    for loaded in items {
        send_thing(&loaded.0, me, own, heap, foreign);
    }
}
