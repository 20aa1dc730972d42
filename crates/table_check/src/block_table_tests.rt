// Objects take the lowest free blocks, also one that was given back.

use block_table::BlockTable;
use orca_names::{ActorName, ObjName, Serial};

// Who takes a block, and which one, before and after block 1 is given back.
const BEFORE: &[(u64, u32)] = &[(10, 0), (11, 1), (12, 2)];

const AFTER: &[(u64, u32)] = &[(13, 1), (14, 3)];

fn named(serial: u64) -> ObjName {
    ObjName {
        owner: ActorName(7),
        serial: Serial::of(serial),
    }
}

/// Whether the object takes this block, and has it then.
fn takes(table: &mut BlockTable, serial: u64, block: u32) -> bool {
    let free = table.count_free();
    free > 0
        && table.object(block) == None
        && table.take(named(serial)) == block
        && table.object(block) == Some(named(serial))
        && table.count_free() == free - 1
}

fn all_take(table: &mut BlockTable, taken: &[(u64, u32)]) -> bool {
    for (serial, block) in taken {
        if !takes(table, *serial, *block) {
            return false;
        }
    }
    true
}

/// Whether the block has an object, which is given back, and so many are free then.
fn gives_back(table: &mut BlockTable, block: u32, free: usize) -> bool {
    let Some(_) = table.object(block) else {
        return false;
    };
    table.give_back(block);
    table.object(block) == None && table.count_free() == free
}

/// Whether the lowest of four blocks are taken.
fn lowest_are_taken(table: &mut BlockTable) -> bool {
    let empty = table.len() == 4 && table.count_free() == 4;
    let taken = all_take(table, BEFORE) && gives_back(table, 1, 2) && all_take(table, AFTER);
    empty && taken && table.count_free() == 0 && table.object(4) == None
}

#[test]
fn the_lowest_free_block_is_taken(rt: HostRuntime) {
    let holds = match BlockTable::with_blocks(rt.alloc(), 4) {
        Ok(mut table) => lowest_are_taken(&mut table),
        Err(_) => false,
    };
    assert!(rt; holds);
}
