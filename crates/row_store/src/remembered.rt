// The rows that proofs remember beside a list.

ghost use Rattle.std.specs.Prelude.{◌≡◌, ◌==◌, if◌then◌else◌, None, Some};
ghost use Rattle.orca_names.specs.declared.names.ObjName.{ObjName as object_name};
ghost use Rattle.row_store.specs.Memory.{is_object, remembered};

use crate::memory::Memory;
use orca_names::{ActorName, ObjName, Row};
use std::fmt;
use std::snapshot::Snapshot;

/// The rows of objects that lie in blocks, for proofs alone: a list that tells blocks keeps one beside
/// it, so that contracts say of a row in a block what they say of one at hand. It has no bytes.
#[derive(Drop)]
pub struct Remembered {
    memory: Snapshot<Memory>,
}

impl Remembered {
    #[inline(always)]
    fn of(memory: &Memory) -> Remembered
        ensures { result.memory.value ≡ memory.now }
    {
        Remembered {
            memory: Snapshot::of(memory),
        }
    }

    /// No row.
    #[inline(always)]
    pub fn new() -> Remembered
        ensures { (k : object_name) → remembered result k ≡ None }
    {
        Remembered::of(&Memory::Nothing)
    }

    /// The same rows.
    #[inline(always)]
    pub fn again(&self) -> Remembered
        ensures { remembered result ≡ remembered self.now }
    {
        Remembered::of(&Memory::Same {
            other: Snapshot::of(&self.memory),
        })
    }

    /// The row of one object more.
    #[inline(always)]
    pub fn know(&mut self, n: ObjName, row: &Row)
        ensures { (k : object_name) → remembered self.new k
            ≡ (if is_object n k then Some row.now else remembered self.old k) }
    {
        *self = Remembered::of(&Memory::Known {
            before: Snapshot::of(&self.memory),
            name: n,
            row: Snapshot::of(row),
        });
    }

    /// The row of one object more, which is remembered elsewhere.
    #[inline(always)]
    pub fn know_from(&mut self, n: ObjName, other: &Remembered)
        ensures { (k : object_name) → remembered self.new k
            ≡ (if is_object n k then remembered other.now k else remembered self.old k) }
    {
        *self = Remembered::of(&Memory::Taken {
            before: Snapshot::of(&self.memory),
            name: n,
            other: Snapshot::of(&other.memory),
        });
    }

    /// The rows of one actor's own objects, and those of all others'.
    #[inline(always)]
    pub fn parted(owner: ActorName, own: &Remembered, others: &Remembered) -> Remembered
        ensures { (k : object_name) → remembered result k
            ≡ (if k.owner == owner then remembered own.now k else remembered others.now k) }
    {
        Remembered::of(&Memory::Parted {
            owner,
            own: Snapshot::of(&own.memory),
            others: Snapshot::of(&others.memory),
        })
    }
}

impl fmt::Debug for Remembered {
    fn fmt<W: fmt::Write>(&self, f: &mut fmt::Formatter<W>) -> fmt::Result {
        write!(f, "Remembered")
    }
}
