// Take: an actor without a frame takes a letter.

ghost use Rattle.std.specs.Prelude.{◌≡◌, if◌then◌else◌, [], None, OnOk, Some, false, true};
ghost use Rattle.letter_kinds.specs.Letters.{as_letter};
ghost use Rattle.machine_rules.specs.Take.{cell_after, note_of};
ghost use Rattle.actor_cell.specs.Cells.{IsCellOf, IsSame, as_cell};
ghost use Rattle.actor_cell.specs.Takes.{CanTake, HasRoomFor};
ghost use Rattle.letter_kinds.specs.Telling.{TellsOnly, all_brought, brought_in};
ghost use Rattle.actor_cell.specs.Tells.{AllIn, Tells as CellTells};

use crate::cell::Cell;
use crate::learning::learn_all;
use crate::room::{reserve_load, reserve_rows};
use behaviour_check::Checked;
use block_report::{Tells, tells_on};
use letter_kinds::{Letter, Note};
use orca_names::NoMemory;
use trace_send::{lower_counts, raise_counts, receive_trace};
use turn_rules::SpareFrame;
use turn_step::start_boxed;

impl Cell {
    // It has something to do, and did not report that it is blocked.
    fn wake(&mut self)
        ensures cell { IsCellOf self.old.heap.owner
            (record (as_cell self.old) { dirty = true; reported = false }) self.new }
        ensures told { TellsOnly (CellTells self.old) [] (CellTells self.new) }
        ensures lie { AllIn self.old.heap → AllIn self.new.heap }
    {
        self.dirty = true;
        self.reported = false;
    }

    /// What the detector is to hear where the actor takes the letter: that it is unblocked, or that
    /// it is still blocked, if it reported that it is.
    #[inline(always)]
    pub fn note_on(&self, letter: &Letter) -> Option<Note>
        ensures { let note = note_of self.now.heap.owner (as_letter letter.now) in
            result ≡ (if self.now.reported then Some note else None) }
    {
        let actor = self.heap.owner();
        match tells_on(self.reported, letter) {
            Tells::Nothing => None,
            Tells::Unblocked => Some(Note::Unblock { actor }),
            Tells::Acknowledged { token } => Some(Note::Ack { token, actor }),
        }
    }

    /// Takes the memory for what the letter brings. That for a frame it has from the spare, where this
    /// has some.
    ///
    /// # Errors
    /// `NoMemory` where memory was refused.
    pub fn reserve_take(&mut self, letter: &Letter, spare: &mut SpareFrame) -> Result<(), NoMemory>
        ensures same { IsSame self.new self.old }
        ensures room { OnOk result (HasRoomFor (as_letter letter.now) (brought_in letter.now) self.new) }
        ensures told { TellsOnly (CellTells self.old) [] (CellTells self.new) }
        ensures lie { AllIn self.old.heap → AllIn self.new.heap }
    {
        match letter {
            Letter::App {
                behaviour: _,
                args: _,
                load,
                rows,
            } => {
                self.room.reserve_from(spare)?;
                reserve_load(&mut self.foreign, load)?;
                reserve_rows(&mut self.known, rows)
            }
            _ => Ok(()),
        }
    }

    /// The idle actor takes the letter. It takes no memory.
    #[inline(always)]
    pub fn apply_take(&mut self, code: &Checked, letter: &Letter)
        requires idle { self.old.frame ≡ None }
        requires can { CanTake self.old.heap.owner (as_letter letter.now) (as_cell self.old).holdings }
        requires room { HasRoomFor (as_letter letter.now) (brought_in letter.now) self.old }
        ensures cell { let me = self.old.heap.owner in
            IsCellOf me (cell_after code.now me (as_letter letter.now) (as_cell self.old)) self.new }
        ensures told { let brought = all_brought (brought_in letter.now) in
            TellsOnly (CellTells self.old) brought (CellTells self.new) }
        ensures lie { AllIn self.old.heap → AllIn self.new.heap }
    {
        let me = self.heap.owner();
        match letter {
            Letter::App {
                behaviour,
                args,
                load,
                rows,
            } => {
                receive_trace(load, me, &mut self.count, &mut self.heap, &mut self.foreign);
                learn_all(&mut self.known, me, rows);
                start_boxed(
                    code,
                    self.kind,
                    *behaviour,
                    args.as_args(),
                    &mut self.frame,
                    &mut self.room,
                );
                self.wake();
            }
            Letter::Inc { things } => {
                raise_counts(things, me, &mut self.count, &mut self.heap);
                self.wake();
            }
            Letter::Dec { things } => {
                lower_counts(things, me, &mut self.count, &mut self.heap);
                self.wake();
            }
            // It asks, and changes nothing.
            Letter::Confirm { token: _ } => {}
        }
    }
}
