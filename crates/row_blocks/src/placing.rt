// Rows that a turn made go into blocks.

ghost use Rattle.std.specs.Prelude.{◌≡◌, ◌+◌, ◌^◌, ◌<◌, ◌≤◌, ◌∷◌, [], length, vec_capacity};
ghost use Rattle.block_table.specs.Blocks.{count_free, fill, names_from};
ghost use Rattle.row_blocks.specs.Blocks.{LiePlaced, LiesIn, MayPutFree, StillLie};

use block_table::BlockTable;
use orca_names::{ActorName, ObjName, Row, Serial};
use row_store::{RowWords, put};

// The row of this object goes into the lowest free block, which the object has from now on.
fn place_row<W: RowWords>(blocks: &mut BlockTable, n: ObjName, row: &Row, words: &mut W) -> u32
    requires room { 0 < count_free blocks.old }
    requires put { MayPutFree blocks.old (W.places words.old) }
    ensures blocks { blocks.new ≡ fill (n ∷ []) blocks.old }
    ensures placed { LiesIn n row.now result blocks.new (W.known words.new) }
    ensures others { StillLie blocks.old (W.known words.old) blocks.new (W.known words.new) }
    ensures put { MayPutFree blocks.new (W.places words.new) }
    ensures places { W.places words.new ≡ W.places words.old }
    ensures beside { W.beside words.new ≡ W.beside words.old }
{
    let block = blocks.take(n);
    put(words, block, row);
    block
}

/// The rows that a turn made go into the lowest free blocks, in their order; `placed` tells then
/// which. The first of their objects has this serial. It takes no memory.
pub fn place_rows<W: RowWords>(
    blocks: &mut BlockTable,
    placed: &mut Vec<u32>,
    owner: ActorName,
    first: u64,
    made: &[Row],
    words: &mut W,
)
    requires room { length made.now ≤ vec_capacity placed.old }
    requires serials { first + length made.now < 2 ^ 64 }
    requires enough { 0 < length blocks.old → length made.now ≤ count_free blocks.old }
    requires put { MayPutFree blocks.old (W.places words.old) }
    ensures blocks { blocks.new ≡ fill (names_from owner first (length made.now)) blocks.old }
    ensures len { 0 < length blocks.old → length placed.new.items ≡ length made.now }
    ensures none { length blocks.old ≡ 0 → placed.new.items ≡ [] }
    ensures room { vec_capacity placed.new ≡ vec_capacity placed.old }
    ensures placed { LiePlaced owner first made.now placed.new.items blocks.new (W.known words.new) }
    ensures others { StillLie blocks.old (W.known words.old) blocks.new (W.known words.new) }
    ensures put { MayPutFree blocks.new (W.places words.new) }
    ensures places { W.places words.new ≡ W.places words.old }
    ensures beside { W.beside words.new ≡ W.beside words.old }
{
    placed.clear();
    if blocks.len() == 0 {
        return;
    }
    let mut serial = first;
    for row in made {
        let name = ObjName {
            owner,
            serial: Serial::of(serial),
        };
        placed.push_reserved(place_row(blocks, name, row, words));
        serial += 1;
    }
}
