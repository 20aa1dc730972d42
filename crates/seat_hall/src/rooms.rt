// Rooms for the cells that are out of a hall.

ghost use Rattle.std.specs.Prelude.{◌≡◌, ◌==◌, ◌+◌, ◌<◌, ◌≤◌, OnOk};
ghost use Rattle.orca_names.specs.declared.limits.TheConstants.{ACTORS_LIMIT};

use actor_cell::Cell;
use behaviour_check::Checked;
use orca_names::{ActorName, NoMemory};
use std::alloc::Global;
use std::marker::Model;
use std::mem;

/// A room with a cell in it: with a claim goes where the cell lies, and not the cell itself. Contracts
/// see the cell.
#[derive(Drop)]
pub struct CellRoom {
    cell: Box<Cell>,
}

impl Model for CellRoom {
    ghost use Rattle.std.specs.Coded.{codes};
    ghost use Rattle.actor_cell.specs.declared.cell.Cell.{Cell};
    ghost use Rattle.actor_table.specs.Codes.{coded_blocks, coded_entries, coded_known, coded_own, coded_own_blocks};

    ghost Value = { Cell };

    ghost coded = { Prim.hlevel (
      codes,
      coded_own,
      coded_own_blocks,
      coded_entries,
      coded_known,
      coded_blocks,
    ) };

    ghost view = { λ r. r.cell.value };
}

impl CellRoom {
    /// The actor whose cell it is.
    pub(crate) fn owner(&self) -> ActorName
        ensures { result ≡ self.now.heap.owner }
    {
        self.cell.heap.owner()
    }

    /// The cell.
    pub(crate) fn inside(&self) -> &Cell
        ensures { result.now ≡ self.now }
    {
        &self.cell
    }
}

/// The rooms of a hall, seen by contracts as how many are free, and how many are out with a cell.
#[derive(Drop)]
pub(crate) struct Rooms {
    /// The cells in these mean nothing.
    free: Vec<CellRoom>,
    out: u64,
}

impl Model for Rooms {
    ghost use Rattle.std.specs.Prelude.{◌+◌, ◌≤◌, vec_capacity, vec_len};
    ghost use Rattle.seat_hall.specs.Rooms.{RoomsView};

    ghost Value = { RoomsView };

    ghost view = { λ r. record { free = vec_len r.free; out = r.out } };

    ghost invariant = { λ r. vec_len r.free + r.out ≤ vec_capacity r.free };
}

impl Rooms {
    /// None yet.
    pub(crate) fn new(alloc: Global) -> Rooms
        ensures free { result.free ≡ 0 }
        ensures out { result.out ≡ 0 }
    {
        Rooms {
            free: Vec::new(alloc),
            out: 0,
        }
    }

    /// No room is out.
    pub(crate) fn all_are_free(&self) -> bool
        ensures { result ≡ (self.now.out == 0) }
    {
        self.out == 0
    }

    /// Makes a room more, if there are no more than actors.
    ///
    /// # Errors
    /// `NoMemory` where memory was refused.
    pub(crate) fn provide(
        &mut self,
        alloc: Global,
        code: &Checked,
        actors: u64,
    ) -> Result<(), NoMemory>
        requires few { self.old.out ≤ actors }
        requires limit { actors ≤ ACTORS_LIMIT }
        requires enough { actors ≤ self.old.free + self.old.out }
        ensures free { self.old.free ≤ self.new.free }
        ensures out { self.new.out ≡ self.old.out }
        ensures ok { OnOk result (actors < self.new.free + self.new.out) }
    {
        if actors - self.out < self.free.len() as u64 {
            return Ok(());
        }
        self.free.reserve(self.out as usize + 1)?;
        let cell = Box::new(alloc, Cell::first(alloc, code))?;
        self.free.push_reserved(CellRoom { cell });
        Ok(())
    }

    /// Moves a cell into a free room, which is out then. It takes no memory.
    #[inline(always)]
    pub(crate) fn fill(&mut self, cell: Cell) -> CellRoom
        requires { 0 < self.old.free }
        ensures cell { result ≡ cell }
        ensures free { self.new.free + 1 ≡ self.old.free }
        ensures out { self.new.out ≡ self.old.out + 1 }
    {
        let Some(mut room) = self.free.pop() else {
            unreachable!()
        };
        *room.cell = cell;
        self.out += 1;
        room
    }

    /// Moves the cell out of a room, which is free then. It takes no memory.
    #[inline(always)]
    pub(crate) fn empty(&mut self, alloc: Global, code: &Checked, mut room: CellRoom) -> Cell
        requires { 0 < self.old.out }
        ensures cell { result ≡ room }
        ensures free { self.new.free ≡ self.old.free + 1 }
        ensures out { self.new.out + 1 ≡ self.old.out }
    {
        let cell = mem::replace(&mut *room.cell, Cell::first(alloc, code));
        self.free.push_reserved(room);
        self.out -= 1;
        cell
    }
}
