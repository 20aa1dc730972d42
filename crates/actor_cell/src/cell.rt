// The cell of an actor.

ghost use Rattle.std.specs.Prelude.{◌≡◌, ◌+◌, ◌<◌, [], IsSome, None};
ghost use Rattle.std.specs.FinMap as m;
ghost use Rattle.orca_names.specs.declared.names.Thing.TheVariants.{Actor as actor_thing};
ghost use Rattle.foreign_table.specs.Table.{count_on};
ghost use Rattle.machine_rules.specs.Cell.{clean_cell, first_cell};
ghost use Rattle.ref_weights.specs.Limit.{count_limit};

use behaviour_check::Checked;
use foreign_table::ForeignTable;
use object_heap::ObjectHeap;
use orca_names::{ActorName, Args, Fields, Thing, Value};
use ref_weights::OwnCount;
use row_store::{Remembered, Told};
use row_table::RowTable;
use std::alloc::Global;
use turn_rules::{BoxedFrame, SpareFrame};

/// What an actor keeps: its kind and fields, where it stands in a behaviour, and what it counts.
#[derive(Drop)]
pub struct Cell {
    pub kind: u32,
    /// It did something since it collected.
    pub dirty: bool,
    /// It told the detector that it is blocked.
    pub reported: bool,
    pub fields: Fields,
    pub frame: BoxedFrame,
    /// Memory for the frame that the next letter starts.
    pub room: SpareFrame,
    /// Its own objects. The heap tells whose cell this is.
    pub heap: ObjectHeap,
    /// The things of others that it holds.
    pub foreign: ForeignTable,
    /// The rows of others' objects that letters brought uncounted.
    pub known: RowTable,
    /// How often the actor itself is held by others and loaded by letters, as far as it was told.
    pub count: OwnCount,
}

impl Cell {
    ghost use Rattle.actor_cell.specs.Cells.{IsCellOf, as_cell, settled};
    ghost use Rattle.letter_kinds.specs.Telling.{TellsNothing, TellsOnly};
    ghost use Rattle.actor_cell.specs.Tells.{AllIn, Tells};

    /// The cell of the first actor, which nobody holds. It takes no memory.
    #[inline(always)]
    pub fn first(alloc: Global, code: &Checked) -> Cell
        ensures cell { IsCellOf 0 (first_cell code.now) result }
        ensures told { TellsNothing (Tells result) }
        ensures lie { AllIn result.heap }
    {
        Cell::fresh(alloc, code, ActorName(0), 0, 0)
    }

    /// The cell of an actor of a kind that was just made, clean, and counted so often. It takes no
    /// memory.
    #[inline(always)]
    pub fn fresh(alloc: Global, code: &Checked, me: ActorName, kind: u32, count: u64) -> Cell
        requires { count < count_limit }
        ensures cell { IsCellOf me (clean_cell code.now kind count) result }
        ensures told { TellsNothing (Tells result) }
        ensures lie { AllIn result.heap }
    {
        let mut own = OwnCount::new();
        own.raise(count);
        Cell {
            kind,
            dirty: false,
            reported: false,
            fields: Fields {
                values: Args::nulls(code.program().field_count(kind) as usize),
                pinned: false,
            },
            frame: BoxedFrame::new(),
            room: SpareFrame::new(alloc),
            heap: ObjectHeap::new(alloc, me),
            foreign: ForeignTable::new(alloc),
            known: RowTable::new(alloc),
            count: own,
        }
    }

    /// The actor that the last turn made gets its name: it stands in the register, and is held with
    /// the weight. It takes no memory.
    #[inline(always)]
    pub fn settle_new(&mut self, register: u8, name: ActorName, weight: u32)
        requires running { IsSome self.old.frame }
        requires room { m.get self.old.foreign.entries (actor_thing name) ≡ None
            → 0 < self.old.foreign.spare }
        requires fits { count_on self.old.foreign (actor_thing name) + weight < count_limit }
        ensures cell { as_cell self.new ≡ settled weight register name (as_cell self.old) }
        ensures owner { self.new.heap.owner ≡ self.old.heap.owner }
        ensures told { TellsOnly (Tells self.old) [] (Tells self.new) }
        ensures lie { AllIn self.old.heap → AllIn self.new.heap }
    {
        self.frame.put(register, Value::Actor(name));
        self.foreign.gain(
            Thing::Actor(name),
            &Told::Nothing,
            &Remembered::new(),
            u64::from(weight),
        );
    }
}
