// What a letter loads.

ghost use Rattle.std.specs.Prelude.{◌≡◌, ◌⊎◌, [], IsSome, length, map};
ghost use Rattle.std.specs.Option.{option_copied};
ghost use Rattle.orca_names.specs.declared.names.ObjName.{ObjName as object_name};
ghost use Rattle.orca_names.specs.declared.names.Thing.TheVariants.{Obj};
ghost use Rattle.row_store.specs.Memory.{remembered};
ghost use Rattle.letter_kinds.specs.Load.{AreKnown, HasGiven, HaveGiven, given_to, lies_from};
ghost use Rattle.row_store.specs.Told.{lie_as, lies_as};

use orca_names::{ActorName, ObjName, Row, Thing};
use plain_list::Listed;
use row_store::{Remembered, Told};
use std::alloc::Global;
use std::marker::Model;

/// Things, in the order of things, each once; an object may come with its row (Orca, OOPSLA 2017).
/// Contracts see the rows, wherever they lie, and the blocks of those that lie in blocks.
#[derive(Debug, Drop)]
pub struct Load {
    items: Vec<(Thing, Told)>,
    memory: Remembered,
}

impl Model for Load {
    ghost use Rattle.std.specs.Prelude.{List};
    ghost use Rattle.letter_kinds.specs.Load.{AreKnown, coded_load};
    ghost use Rattle.orca_names.specs.declared.names.Thing.{Thing as thing};
    ghost use Rattle.row_store.specs.Memory.{remembered};
    ghost use Rattle.row_store.specs.Told.{Lying, lie_as};

    ghost Value = { List (thing × Lying) };

    ghost coded = { coded_load };

    ghost view = { λ load. lie_as (remembered load.memory) load.items.items };

    ghost invariant = { λ load. AreKnown (lie_as (remembered load.memory) load.items.items) };
}

// What an object of this owner gets of these, given from a serial on.
fn given_to<'a, A>(owner: ActorName, first: u64, given: &'a [A], n: &ObjName) -> Option<&'a A>
    ensures { option_copied result ≡ given_to owner first given.now (Obj n.now) }
{
    let serial = n.serial.get();
    if n.owner != owner || serial < first {
        return None;
    }
    given.get((serial - first) as usize)
}

// The row of an object that gets a block lies in this now, and is remembered.
fn lie(
    item: &mut (Thing, Told),
    memory: &mut Remembered,
    owner: ActorName,
    first: u64,
    rows: &[Row],
    blocks: &[u32],
)
    requires lengths { length blocks.now ≡ length rows.now }
    requires row { HasGiven owner first rows.now (lies_as (remembered memory.old) item.old) }
    ensures item { lies_as (remembered memory.new) item.new
        ≡ lies_from owner first blocks.now (lies_as (remembered memory.old) item.old) }
    ensures memory { (k : object_name) → let given = given_to owner first rows.now (Obj k) in
        (remembered memory.new k ≡ remembered memory.old k)
        ⊎ (IsSome given × (remembered memory.new k ≡ given)) }
{
    let thing = item.0;
    let Thing::Obj(n) = &thing else {
        return;
    };
    let Some(row) = given_to(owner, first, rows, n) else {
        return;
    };
    let Some(block) = given_to(owner, first, blocks, n) else {
        return;
    };
    memory.know(*n, row);
    item.1 = Told::In(*block);
}

// So it is with each of these.
fn lie_all(
    items: &mut Vec<(Thing, Told)>,
    memory: &mut Remembered,
    owner: ActorName,
    first: u64,
    rows: &[Row],
    blocks: &[u32],
)
    requires lengths { length blocks.now ≡ length rows.now }
    requires rows { HaveGiven owner first rows.now (lie_as (remembered memory.old) items.old.items) }
    ensures { lie_as (remembered memory.new) items.new.items
        ≡ map (lies_from owner first blocks.now) (lie_as (remembered memory.old) items.old.items) }
{
    for i in 0..items.len() {
        lie(&mut items[i], memory, owner, first, rows, blocks);
    }
}

impl Load {
    /// Nothing. It takes no memory.
    pub fn new(alloc: Global) -> Load
        ensures { result ≡ [] }
    {
        Load {
            items: Vec::new(alloc),
            memory: Remembered::new(),
        }
    }

    /// These things with what is told of their rows; each row in a block is remembered.
    #[inline(always)]
    pub fn with(items: Listed<(Thing, Told)>, memory: Remembered) -> Load
        requires { AreKnown (lie_as (remembered memory) items) }
        ensures { result ≡ lie_as (remembered memory) items }
    {
        Load {
            items: items.into_vec(),
            memory,
        }
    }

    /// The rows of the loaded objects of this owner, from this serial on, which are these, lie in these
    /// blocks now, each in its own. It takes no memory.
    pub fn lie_in(&mut self, owner: ActorName, first: u64, rows: &[Row], blocks: &[u32])
        requires lengths { length blocks.now ≡ length rows.now }
        requires rows { HaveGiven owner first rows.now self.old }
        ensures { self.new ≡ map (lies_from owner first blocks.now) self.old }
    {
        lie_all(
            &mut self.items,
            &mut self.memory,
            owner,
            first,
            rows,
            blocks,
        );
    }

    /// How many things there are.
    pub fn len(&self) -> usize
        ensures { result ≡ length self.now }
    {
        self.items.len()
    }

    /// The things with what is told of their rows, and the rows that lie in blocks.
    #[inline(always)]
    pub fn parts(&self) -> (&[(Thing, Told)], &Remembered)
        ensures load { lie_as (remembered result.1.now) result.0.now ≡ self.now }
        ensures known { AreKnown self.now }
    {
        (self.items.as_slice(), &self.memory)
    }
}
