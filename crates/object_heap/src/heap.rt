// The heap.

ghost use Rattle.std.specs.Prelude.{◌≡◌, ◌↔◌, ◌+◌, ◌-◌, ◌^◌, ◌<◌, ◌≤◌, None, Some, [], ◌∷◌, ◌++◌, ℕ, Option, slice_get, vec_capacity, vec_len, IfOk, IfSome, IsOk, IsSome, IsTrue, OnOk};
ghost use Rattle.std.specs.FinMap as m;
ghost use Rattle.letter_kinds.specs.Holdings.{Row as any_row, row_count};
ghost use Rattle.object_heap.specs.Entry.{FollowOn, first_of};
ghost use Rattle.object_heap.specs.Free.{SerialsRise, freed};
ghost use Rattle.object_heap.specs.Heap.{AllHere, Has, IsSame, block_at, counted, own_block, own_objects, own_row, with_new, without};
ghost use Rattle.ref_weights.specs.Limit.{count_limit};
ghost use Rattle.row_store.specs.Lent.{IsLent};
ghost use Rattle.row_store.specs.Memory.{remembered};
ghost use Rattle.row_store.specs.Standing.{AreRemembered};
ghost use Rattle.row_store.specs.Told.{told_of};

use crate::free::keep_others;
use crate::search::{Key, first_serial, follow_on, place_of, place_there};
use orca_names::{ActorName, NoMemory, ObjName, Row, Serial, Thing};
use ref_weights::OwnCount;
use row_store::{Lent, Remembered, Told};
use std::alloc::Global;
use std::marker::Model;

/// The objects of an actor, each with its row and its count, the serial of the next one, and the
/// room for new ones.
#[derive(Drop)]
pub struct ObjectHeap {
    owner: ActorName,
    next: u64,
    // Serials with counts, and the objects with their rows as a load has them: all in the order of
    // serials.
    keys: Vec<Key>,
    objects: Vec<(Thing, Told)>,
    // The rows that lie in blocks.
    memory: Remembered,
}

impl Model for ObjectHeap {
    ghost use Rattle.std.specs.Prelude.{◌-◌, min, vec_len, vec_capacity};
    ghost use Rattle.object_heap.specs.Entry.{joined};
    ghost use Rattle.object_heap.specs.Heap.{Heap, AreStored, blocks_in, coded_heap, rows_in};
    ghost use Rattle.row_store.specs.Memory.{remembered};

    ghost Value = { Heap };

    ghost coded = { coded_heap };

    ghost view = { λ s. record {
      owner = s.owner;
      next = s.next;
      spare = min (vec_capacity s.keys - vec_len s.keys)
          (vec_capacity s.objects - vec_len s.objects);
      rows = rows_in (joined (remembered s.memory) s.keys.items s.objects.items);
      blocks = blocks_in (joined (remembered s.memory) s.keys.items s.objects.items);
    } };

    ghost invariant = { λ s. AreStored s.owner s.next (remembered s.memory) s.keys.items s.objects.items };
}

fn same_keys(keys: &[Key], others: &[Key]) -> bool
    ensures { IsTrue result ↔ (keys.now ≡ others.now) }
{
    keys == others
}

fn same_objects(objects: &[(Thing, Told)], others: &[(Thing, Told)]) -> bool
    ensures { IsTrue result ↔ (objects.now ≡ others.now) }
{
    objects == others
}

// What is told of a row, lent: a row is told.
#[inline(always)]
fn lend(told: &Told) -> Lent<'_>
    requires { (its : any_row) × (block : Option ℕ) × (told.now ≡ told_of its block) }
    ensures { (its : any_row) (block : Option ℕ) → told.now ≡ told_of its block
        → IsLent (Some its) block result }
{
    match told {
        Told::Nothing => unreachable!(),
        Told::Here(row) => Lent::Here(row.as_slice()),
        Told::In(block) => Lent::In(*block),
    }
}

// The name of the owner's object with this serial.
#[inline(always)]
fn name_of(owner: ActorName, serial: u64) -> ObjName
    ensures { result ≡ record { owner = owner; serial = serial } }
{
    ObjName {
        owner,
        serial: Serial::of(serial),
    }
}

// The key of a new object, with count 0.
#[inline(always)]
fn push_key(keys: &mut Vec<Key>, serial: u64)
    requires { vec_len keys.old < vec_capacity keys.old }
    ensures items { keys.new.items
        ≡ keys.old.items ++ record { serial = serial; count = 0 } ∷ [] }
    ensures len { vec_len keys.new ≡ vec_len keys.old + 1 }
    ensures capacity { vec_capacity keys.new ≡ vec_capacity keys.old }
{
    keys.push_reserved(Key {
        serial,
        count: OwnCount::new(),
    });
}

impl ObjectHeap {
    /// No object yet. It takes no memory.
    pub fn new(alloc: Global, owner: ActorName) -> ObjectHeap
        ensures { result
            ≡ record { owner = owner; next = 0; spare = 0; rows = m.empty; blocks = m.empty } }
    {
        ObjectHeap {
            owner,
            next: 0,
            keys: Vec::new(alloc),
            objects: Vec::new(alloc),
            memory: Remembered::new(),
        }
    }

    /// The actor whose objects these are.
    pub fn owner(&self) -> ActorName
        ensures { result ≡ self.now.owner }
    {
        self.owner
    }

    /// How many objects it ever made, which is the next serial.
    pub fn made(&self) -> u64
        ensures { result ≡ self.now.next }
    {
        self.next
    }

    /// Raises the room for new objects to at least this, if there is less.
    ///
    /// # Errors
    /// `NoMemory` where memory was refused; all but the room is then as before.
    pub fn reserve(&mut self, n: usize) -> Result<(), NoMemory>
        ensures room { OnOk result (n ≤ self.new.spare) }
        ensures more { self.old.spare ≤ self.new.spare }
        ensures same { self.new ≡ record self.old { spare = self.new.spare } }
        ensures enough { n ≤ self.old.spare → IsOk result }
    {
        if n == 0 {
            return Ok(());
        }
        self.keys.reserve(n)?;
        self.objects.reserve(n)?;
        Ok(())
    }

    /// A new object with this row at hand, and count 0. It takes no memory.
    pub fn make(&mut self, row: Row) -> ObjName
        requires room { 0 < self.old.spare }
        requires fits { self.old.next + 1 < 2 ^ 64 }
        ensures name { result ≡ record { owner = self.old.owner; serial = self.old.next } }
        ensures made { self.new ≡ with_new (row ∷ []) (None ∷ []) self.old }
    {
        let owner = self.owner;
        let serial = self.next;
        push_key(&mut self.keys, serial);
        let name = name_of(owner, serial);
        self.objects
            .push_reserved((Thing::Obj(name), Told::Here(row)));
        self.next += 1;
        name_of(owner, serial)
    }

    /// A new object whose row lies in this block, and count 0. It takes no memory.
    pub fn make_in(&mut self, block: u32, row: &Row) -> ObjName
        requires room { 0 < self.old.spare }
        requires fits { self.old.next + 1 < 2 ^ 64 }
        ensures name { result ≡ record { owner = self.old.owner; serial = self.old.next } }
        ensures made { self.new ≡ with_new (row.now ∷ []) (Some block ∷ []) self.old }
    {
        let owner = self.owner;
        let serial = self.next;
        push_key(&mut self.keys, serial);
        let name = name_of(owner, serial);
        self.objects
            .push_reserved((Thing::Obj(name), Told::In(block)));
        self.memory.know(name_of(owner, serial), row);
        self.next += 1;
        name_of(owner, serial)
    }

    /// The row of an object; nothing exactly where the object is not there.
    pub fn row(&self, n: ObjName) -> Lent<'_>
        ensures { IsLent (own_row self.now n) (own_block self.now n) result }
    {
        if n.owner != self.owner {
            return Lent::Nothing;
        }
        match place_of(self.keys.as_slice(), n.serial) {
            Ok(i) => lend(&self.objects[i].1),
            Err(_) => Lent::Nothing,
        }
    }

    /// The rows that lie in blocks.
    #[inline(always)]
    pub fn memory(&self) -> &Remembered
        ensures { AreRemembered (own_row self.now) (own_block self.now) (remembered result.now) }
    {
        &self.memory
    }

    /// The place of an object in the order of serials; `None` exactly where it is not there.
    pub fn place(&self, n: ObjName) -> Option<usize>
        ensures key { IfSome result (λ i. slice_get (m.keys self.now.rows) i ≡ Some n.serial) }
        ensures there { IsSome result ↔ Has self.now n }
    {
        if n.owner != self.owner {
            return None;
        }
        match place_of(self.keys.as_slice(), n.serial) {
            Ok(i) => Some(i),
            Err(_) => None,
        }
    }

    /// Whether an object is there.
    pub fn has(&self, n: ObjName) -> bool
        ensures { IsTrue result ↔ Has self.now n }
    {
        self.place(n).is_some()
    }

    /// The count of an object that is there.
    pub fn count(&self, n: ObjName) -> u64
        requires { Has self.now n }
        ensures count { result ≡ row_count (m.get self.now.rows n.serial) }
        ensures bound { result < count_limit }
    {
        let i = place_there(self.next, self.keys.as_slice(), n.serial);
        self.keys[i].count.get()
    }

    /// The count of an object rises.
    #[inline(always)]
    pub fn raise(&mut self, n: ObjName, by: u64)
        requires there { Has self.old n }
        requires fits { row_count (m.get self.old.rows n.serial) + by < count_limit }
        ensures { self.new ≡ counted (λ count. count + by) n self.old }
    {
        let i = place_there(self.next, self.keys.as_slice(), n.serial);
        self.keys[i].count.raise(by);
    }

    /// The count of an object falls.
    #[inline(always)]
    pub fn lower(&mut self, n: ObjName, by: u64)
        requires there { Has self.old n }
        requires enough { by ≤ row_count (m.get self.old.rows n.serial) }
        ensures { self.new ≡ counted (λ count. count - by) n self.old }
    {
        let i = place_there(self.next, self.keys.as_slice(), n.serial);
        self.keys[i].count.lower(by);
    }

    /// Frees one object.
    pub fn remove(&mut self, n: ObjName)
        requires there { Has self.old n }
        ensures { self.new ≡ without n self.old }
    {
        let i = place_there(self.next, self.keys.as_slice(), n.serial);
        self.keys.remove(i);
        self.objects.remove(i);
    }

    /// Frees these objects, whose serials rise, in one pass.
    pub fn free(&mut self, gone: &[ObjName])
        requires { SerialsRise gone.now }
        ensures { self.new ≡ freed gone.now self.old }
    {
        keep_others(&mut self.keys, &mut self.objects, gone);
    }

    /// How many objects there are.
    pub fn len(&self) -> usize
        ensures count { result ≡ m.len self.now.rows }
        ensures bound { result < 2 ^ 63 }
    {
        self.keys.len()
    }

    /// The objects with their rows, as a load has them, in the order of serials.
    #[inline(always)]
    pub fn objects(&self) -> &[(Thing, Told)]
        ensures { result.now ≡ own_objects self.now }
    {
        self.objects.as_slice()
    }

    /// The serial of the first object; 0 where there is none.
    pub fn first_serial(&self) -> u64
        ensures { result ≡ first_of (m.keys self.now.rows) }
    {
        first_serial(self.keys.as_slice())
    }

    /// Whether each serial from the first object's to the last one's is an object's.
    pub fn is_whole(&self) -> bool
        ensures { IsTrue result ↔ FollowOn (m.keys self.now.rows) }
    {
        follow_on(self.keys.as_slice())
    }

    /// An object by its place in the order of serials: its name, its row and its count.
    pub fn at(&self, i: usize) -> (ObjName, Lent<'_>, u64)
        requires { i < m.len self.now.rows }
        ensures owner { result.0.owner ≡ self.now.owner }
        ensures entry { (its : any_row)
            × (slice_get (m.entries self.now.rows) i ≡ Some (result.0.serial, (its, result.2)))
            × IsLent (Some its) (block_at self.now.blocks result.0.serial) result.1 }
        ensures bound { result.2 < count_limit }
    {
        let key = &self.keys[i];
        let name = ObjName {
            owner: self.owner,
            serial: Serial::of(key.serial),
        };
        (name, lend(&self.objects[i].1), key.count.get())
    }

    /// The same objects, of the same owner.
    ///
    /// # Errors
    /// `NoMemory` where memory was refused.
    pub fn copy(&self, alloc: Global) -> Result<ObjectHeap, NoMemory>
        ensures { IfOk result (λ copied. copied ≡ record self.now { spare = copied.spare }) }
    {
        let keys = self.keys.as_slice().to_vec(alloc)?;
        let objects = self.objects.as_slice().to_vec(alloc)?;
        Ok(ObjectHeap {
            owner: self.owner,
            next: self.next,
            keys,
            objects,
            memory: self.memory.again(),
        })
    }

    /// Whether owner, next serial and objects are those of another heap. No row lies in a block.
    pub fn same(&self, other: &ObjectHeap) -> bool
        requires { AllHere self.now }
        ensures same { IsTrue result ↔ IsSame self.now other.now }
        ensures alike { AllHere other.now → self.now.rows ≡ other.now.rows
            → self.now.blocks ≡ other.now.blocks }
    {
        if self.owner != other.owner {
            return false;
        }
        if self.next != other.next {
            return false;
        }
        if !same_keys(self.keys.as_slice(), other.keys.as_slice()) {
            return false;
        }
        same_objects(self.objects.as_slice(), other.objects.as_slice())
    }
}
