// The table.

ghost use Rattle.std.specs.Prelude.{◌≡◌, ◌<◌, ◌≤◌, ◌∷◌, [], IfOk, None, Some, length, slice_index_or, slice_set};
ghost use Rattle.block_table.specs.Blocks.{count_free, fill, free_blocks};
ghost use Rattle.block_table.specs.Told.{AreTold, HasObject, IsLowestFree};

use orca_names::{NoMemory, ObjName};
use ready_set::ReadySet;
use std::alloc::Global;
use std::marker::Model;

/// The most blocks that a table may have.
pub const BLOCKS_LIMIT: usize = 65_536;

/// For each block the object whose row lies in it, if it is not free.
#[derive(Debug, Drop)]
pub struct BlockTable {
    objects: Vec<Option<ObjName>>,
    /// Which blocks are free, and how many.
    free: ReadySet,
    count: usize,
}

impl Model for BlockTable {
    ghost use Rattle.block_table.specs.Blocks.{Blocks};
    ghost use Rattle.block_table.specs.Told.{AreTold};

    ghost Value = { Blocks };

    ghost view = { λ t. t.objects.items };

    ghost invariant = { λ t. AreTold t.objects.items t.free t.count };
}

/// A set of so many numbers, from 0 on.
///
/// # Errors
/// `NoMemory` where memory was refused.
fn numbers_below(alloc: Global, count: u32) -> Result<ReadySet, NoMemory>
    requires { count ≤ BLOCKS_LIMIT }
    ensures { IfOk result (λ set. AreTold (free_blocks count) set count) }
{
    let mut set = ReadySet::new(alloc);
    for number in 0..count {
        if set.len() == number as usize {
            set.grow()?;
        }
        set.put(number, true);
    }
    Ok(set)
}

impl BlockTable {
    /// No blocks. It takes no memory.
    pub fn new(alloc: Global) -> BlockTable
        ensures { result ≡ [] }
    {
        BlockTable {
            objects: Vec::new(alloc),
            free: ReadySet::new(alloc),
            count: 0,
        }
    }

    /// So many blocks, all of them free.
    ///
    /// # Errors
    /// `NoMemory` where memory was refused.
    pub fn with_blocks(alloc: Global, count: u32) -> Result<BlockTable, NoMemory>
        requires { count ≤ BLOCKS_LIMIT }
        ensures { IfOk result (λ table. table ≡ free_blocks count) }
    {
        let objects = vec![in alloc; None; count as usize]?;
        let free = numbers_below(alloc, count)?;
        Ok(BlockTable {
            objects,
            free,
            count: count as usize,
        })
    }

    /// How many blocks there are.
    #[inline(always)]
    pub fn len(&self) -> usize
        ensures { result ≡ length self.now }
    {
        self.objects.len()
    }

    /// How many blocks are free.
    #[inline(always)]
    pub fn count_free(&self) -> usize
        ensures { result ≡ count_free self.now }
    {
        self.count
    }

    /// The object whose row lies in the block; `None` where it is free or there is no such block.
    pub fn object(&self, block: u32) -> Option<ObjName>
        ensures { result ≡ slice_index_or self.now block None }
    {
        *self.objects.get(block as usize)?
    }

    /// Gives the lowest free block to the object, and answers which. It takes no memory.
    pub fn take(&mut self, n: ObjName) -> u32
        requires { 0 < count_free self.old }
        ensures lowest { IsLowestFree self.old result }
        ensures set { self.new ≡ slice_set self.old result (Some n) }
        ensures blocks { self.new ≡ fill (n ∷ []) self.old }
    {
        let Some(block) = self.free.first() else {
            unreachable!()
        };
        self.objects[block as usize] = Some(n);
        self.free.put(block, false);
        self.count -= 1;
        block
    }

    /// The block of an object that is gone is free again. It takes no memory.
    pub fn give_back(&mut self, block: u32)
        requires { HasObject self.old block }
        ensures { self.new ≡ slice_set self.old block None }
    {
        self.objects[block as usize] = None;
        self.free.put(block, true);
        self.count += 1;
    }
}
