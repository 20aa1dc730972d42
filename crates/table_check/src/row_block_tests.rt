// Rows of objects go into the lowest free blocks and are read there, and a block that is given back is
// taken again.

ghost use Rattle.std.specs.Prelude.{◌≡◌, ◌*◌, ◌≤◌, ◌<◌, length, vec_capacity};
ghost use Rattle.block_table.specs.Blocks.{count_free, free_blocks};
ghost use Rattle.row_store.specs.Vectors.{known_in};
ghost use Rattle.row_store.specs.Words.{HasRow};
ghost use Rattle.table_check.specs.Fresh.{IsFresh};

use block_table::BlockTable;
use object_heap::ObjectHeap;
use orca_names::{ActorName, NoMemory, ObjName, Row, Serial, Value};
use row_blocks::{give_back_freed, place_rows};
use row_store::read;
use std::alloc::Global;

fn named(serial: u64) -> ObjName
    ensures { result ≡ record { owner = 4; serial = serial } }
{
    ObjName {
        owner: ActorName(4),
        serial: Serial::of(serial),
    }
}

fn row_with(number: u64) -> Row {
    Row::of(&[Value::Num(number)])
}

/// Whether the row that lies in the block is of this number alone.
fn has_number(words: &mut Vec<u64>, block: u32, number: u64) -> bool
    requires { HasRow block (known_in 0 words.old.items) }
    ensures { known_in 0 words.new.items ≡ known_in 0 words.old.items }
{
    read(words, block) == row_with(number)
}

/// Whether the rows of two objects, once they are in blocks, are read there.
fn places_two(blocks: &mut BlockTable, placed: &mut Vec<u32>, words: &mut Vec<u64>) -> bool
    requires words { length blocks.old * 17 ≤ length words.old.items }
    requires free { 2 ≤ count_free blocks.old }
    requires room { 2 ≤ vec_capacity placed.old }
{
    let made = [row_with(7), row_with(8)];
    place_rows(blocks, placed, ActorName(4), 0, &made, words);
    has_number(words, placed[0], 7) && has_number(words, placed[1], 8)
}

/// Whether two rows go into the two last of three blocks, of which the first is taken.
fn rows_are_placed(alloc: Global) -> Result<bool, NoMemory> {
    let mut blocks = BlockTable::with_blocks(alloc, 3)?;
    let mut placed = Vec::with_capacity(alloc, 2)?;
    let mut words = vec![in alloc; 0; 51]?;
    let first = blocks.take(named(9));
    let holds = places_two(&mut blocks, &mut placed, &mut words);
    Ok(
        holds
            && first == 0
            && placed.as_slice() == [1, 2].as_slice()
            && blocks.object(1) == Some(named(0))
            && blocks.object(2) == Some(named(1)),
    )
}

#[test]
fn rows_go_into_the_lowest_free_blocks(rt: HostRuntime) {
    let holds = match rows_are_placed(rt.alloc()) {
        Ok(holds) => holds,
        Err(_) => false,
    };
    assert!(rt; holds);
}

/// Whether the block of an object that is freed is taken by the next one.
fn is_taken_again(blocks: &mut BlockTable, heap: &mut ObjectHeap) -> bool
    requires blocks { blocks.old ≡ free_blocks 2 }
    requires heap { IsFresh 4 heap.old }
    requires room { 0 < heap.old.spare }
{
    let block = blocks.take(named(0));
    heap.make_in(block, &row_with(7));
    give_back_freed(blocks, heap, &[named(0)]);
    blocks.count_free() == 2 && blocks.take(named(1)) == block
}

fn blocks_are_given_back(alloc: Global) -> Result<bool, NoMemory> {
    let mut blocks = BlockTable::with_blocks(alloc, 2)?;
    let mut heap = ObjectHeap::new(alloc, ActorName(4));
    heap.reserve(1)?;
    Ok(is_taken_again(&mut blocks, &mut heap))
}

#[test]
fn blocks_of_freed_objects_are_taken_again(rt: HostRuntime) {
    let holds = match blocks_are_given_back(rt.alloc()) {
        Ok(holds) => holds,
        Err(_) => false,
    };
    assert!(rt; holds);
}
