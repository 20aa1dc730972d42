// Blocks of objects that go are given back.

ghost use Rattle.std.specs.Prelude.{◌≡◌, ◌==◌, ◌<◌, ℕ, Some, length, slice_get};
ghost use Rattle.object_heap.specs.Free.{SerialsRise};
ghost use Rattle.object_heap.specs.Heap.{Has};
ghost use Rattle.orca_names.specs.declared.names.ObjName.{ObjName as object_name};
ghost use Rattle.row_blocks.specs.Blocks.{OwnAreThere, OwnLie, is_one_of, without};

use block_table::BlockTable;
use object_heap::ObjectHeap;
use orca_names::ObjName;
use row_store::Lent;

/// The blocks of all objects of this heap are free: their actor goes. It takes no memory.
pub fn give_back_all(blocks: &mut BlockTable, heap: &ObjectHeap)
    requires lie { 0 < length blocks.old → OwnLie heap.now blocks.old }
    requires left { OwnAreThere heap.now blocks.old }
    ensures { blocks.new ≡ without (λ n. n.owner == heap.now.owner) blocks.old }
{
    if blocks.len() == 0 {
        return;
    }
    for entry in heap.objects() {
        let Some(block) = entry.1.block() else {
            unreachable!()
        };
        blocks.give_back(block);
    }
}

/// The blocks of these objects of the heap, whose serials rise, are free. It takes no memory.
pub fn give_back_freed(blocks: &mut BlockTable, heap: &ObjectHeap, gone: &[ObjName])
    requires lie { 0 < length blocks.old → OwnLie heap.now blocks.old }
    requires rising { SerialsRise gone.now }
    requires there { (i : ℕ) (n : object_name) → slice_get gone.now i ≡ Some n → Has heap.now n }
    ensures { blocks.new ≡ without (is_one_of gone.now) blocks.old }
{
    if blocks.len() == 0 {
        return;
    }
    for n in gone {
        match heap.row(*n) {
            Lent::Nothing => unreachable!(),
            Lent::Here(_) => unreachable!(),
            Lent::In(block) => blocks.give_back(block),
        }
    }
}
