// What becomes of one actor by its part of an event.

ghost use Rattle.std.specs.Prelude.{◌≡◌, ◌≤◌, List, [], option_map, OnOk, ⊤};
ghost use Rattle.orca_names.specs.declared.names.Thing.{Thing as thing};
ghost use Rattle.row_store.specs.Told.{Lying};
ghost use Rattle.letter_kinds.specs.Letters.{as_letter};
ghost use Rattle.letter_kinds.specs.Telling.{TellsOnly, made_in};
ghost use Rattle.machine_rules.specs.Actors.{seat};
ghost use Rattle.actor_cell.specs.Cells.{as_cell};
ghost use Rattle.actor_cell.specs.Moves.{act_in};
ghost use Rattle.actor_cell.specs.Tells.{AllIn, PutsAll, Tells};
ghost use Rattle.actor_cell.specs.declared.cell.Cell.{Cell as a_cell};
ghost use Rattle.actor_table.specs.Bringing.{AreBrought};
ghost use Rattle.actor_table.specs.Changes.{AllowsChange, Change, HasRoomIn, is_go, letter_taken, seat_after};
ghost use Rattle.actor_table.specs.Telling.{TellsWith};

use actor_cell::{Cell, Doing, Sweep, Turned};
use behaviour_check::Checked;
use letter_kinds::Letter;
use mail_rows::MailRow;
use orca_names::{ActorName, NoMemory, Trace};
use turn_rules::SpareFrame;
use turn_step::Turn;

/// What becomes of an actor whose cell is at home, in an event that was prepared. Each is a type, so that
/// the calls of the table are compiled for each event by itself.
pub trait Changes {
    /// What it is to the rules.
    ghost as_change: { Self → Change };

    /// The rows that it puts into blocks, of objects that the actor with this cell makes.
    ghost makes_in: { Self → a_cell → List (thing × Lying) };

    /// That each row that it makes is put into a block.
    ghost puts_all: { Self → Type 0 };

    /// Whether it is a step of a turn.
    fn is_go(&self) -> bool
        ensures { result ≡ is_go (as_change self.now) };

    /// Takes the memory for it, in the cell of an actor with these letters: that for a frame from the
    /// spare, where this has some.
    ///
    /// # Errors
    /// `NoMemory` where memory was refused.
    fn reserve(
        &self,
        cell: &mut Cell,
        mail: &MailRow,
        spare: &mut SpareFrame,
    ) -> Result<(), NoMemory>
        ensures cell { as_cell cell.new ≡ as_cell cell.old }
        ensures owner { cell.new.heap.owner ≡ cell.old.heap.owner }
        ensures told { TellsOnly (Tells cell.old) [] (Tells cell.new) }
        ensures lie { AllIn cell.old.heap → AllIn cell.new.heap }
        ensures ok { OnOk result (HasRoomIn (as_change self.now) mail.now cell.new) };

    /// It is done to the cell and the letters of the actor, and gives the letter that it takes. It
    /// takes no memory. That of a frame that ends serves again as the spare.
    fn apply(
        &self,
        code: &Checked,
        cell: &mut Cell,
        mail: &mut MailRow,
        spare: &mut SpareFrame,
    ) -> Option<Letter>
        requires { AllowsChange cell.old.heap.owner (as_change self.now) mail.old cell.old }
        ensures seat { let me = cell.old.heap.owner in seat (as_cell cell.new) mail.new.letters
            ≡ seat_after code.now me (as_change self.now) (seat (as_cell cell.old) mail.old.letters) }
        ensures owner { cell.new.heap.owner ≡ cell.old.heap.owner }
        ensures told { TellsOnly (TellsWith cell.old mail.old.brought) (makes_in self.now cell.old)
            (TellsWith cell.new mail.new.brought) }
        ensures lie { puts_all self.now → AllIn cell.old.heap → AllIn cell.new.heap }
        ensures brings { AreBrought mail.old.letters mail.old.brought
            → AreBrought mail.new.letters mail.new.brought }
        ensures room { mail.old.spare ≤ mail.new.spare }
        ensures taken { option_map as_letter result ≡ letter_taken (as_change self.now) mail.old.letters };
}

/// An idle actor takes the first of its letters.
#[derive(Clone, Copy)]
pub struct Take;

impl Changes for Take {
    ghost use Rattle.actor_table.specs.Changes.{Take as take};

    ghost as_change = { λ s. take };

    ghost makes_in = { λ s c. [] };

    ghost puts_all = { λ s. ⊤ };

    #[inline(always)]
    fn is_go(&self) -> bool {
        false
    }

    #[inline(always)]
    fn reserve(
        &self,
        cell: &mut Cell,
        mail: &MailRow,
        spare: &mut SpareFrame,
    ) -> Result<(), NoMemory> {
        match mail.front() {
            Some(letter) => cell.reserve_take(letter, spare),
            None => Ok(()),
        }
    }

    #[inline(always)]
    fn apply(
        &self,
        code: &Checked,
        cell: &mut Cell,
        mail: &mut MailRow,
        _spare: &mut SpareFrame,
    ) -> Option<Letter> {
        let Some(letter) = mail.front() else {
            unreachable!();
        };
        cell.apply_take(code, letter);
        mail.take()
    }
}

/// What was found of an actor's turn is done. The rows that it made lie in these blocks then, those for
/// which there is none at hand. An actor that it makes has this name, and is held with the weight.
#[derive(Clone, Copy)]
pub struct Go<'a> {
    pub turn: &'a Turn,
    pub found: &'a Turned,
    pub blocks: &'a [u32],
    pub name: ActorName,
    pub weight: u32,
}

impl Changes for Go<'_> {
    ghost use Rattle.actor_table.specs.Changes.{Go as go};

    ghost as_change = { λ s. go s.turn.now s.found.now s.name s.weight };

    ghost makes_in = { λ s c. made_in c.heap.owner c.heap.next s.turn.now.made s.blocks.now };

    ghost puts_all = { λ s. PutsAll s.turn.now.made (act_in s.found.now) s.blocks.now };

    #[inline(always)]
    fn is_go(&self) -> bool {
        true
    }

    #[inline(always)]
    fn reserve(
        &self,
        cell: &mut Cell,
        _mail: &MailRow,
        _spare: &mut SpareFrame,
    ) -> Result<(), NoMemory> {
        cell.reserve_go(self.turn, self.found)
    }

    #[inline(always)]
    fn apply(
        &self,
        _code: &Checked,
        cell: &mut Cell,
        _mail: &mut MailRow,
        spare: &mut SpareFrame,
    ) -> Option<Letter> {
        cell.apply_go(self.turn, self.found, self.blocks, spare);
        if let Doing::New { kind: _, register } = self.found.doing {
            cell.settle_new(register, self.name, self.weight);
        }
        None
    }
}

/// What was found of an actor's collection with this tracing is done.
#[derive(Clone, Copy)]
pub struct Collect<'a> {
    pub found: &'a Sweep,
    pub trace: Trace,
}

impl Changes for Collect<'_> {
    ghost use Rattle.actor_table.specs.Changes.{Collect as collect};

    ghost as_change = { λ s. collect s.found.now s.trace };

    ghost makes_in = { λ s c. [] };

    ghost puts_all = { λ s. ⊤ };

    #[inline(always)]
    fn is_go(&self) -> bool {
        false
    }

    #[inline(always)]
    fn reserve(
        &self,
        _cell: &mut Cell,
        _mail: &MailRow,
        _spare: &mut SpareFrame,
    ) -> Result<(), NoMemory> {
        Ok(())
    }

    #[inline(always)]
    fn apply(
        &self,
        _code: &Checked,
        cell: &mut Cell,
        _mail: &mut MailRow,
        _spare: &mut SpareFrame,
    ) -> Option<Letter> {
        cell.apply_collect(self.found);
        None
    }
}

/// An actor has reported that it is blocked.
#[derive(Clone, Copy)]
pub struct Block;

impl Changes for Block {
    ghost use Rattle.actor_table.specs.Changes.{Block as block};

    ghost as_change = { λ s. block };

    ghost makes_in = { λ s c. [] };

    ghost puts_all = { λ s. ⊤ };

    #[inline(always)]
    fn is_go(&self) -> bool {
        false
    }

    #[inline(always)]
    fn reserve(
        &self,
        _cell: &mut Cell,
        _mail: &MailRow,
        _spare: &mut SpareFrame,
    ) -> Result<(), NoMemory> {
        Ok(())
    }

    #[inline(always)]
    fn apply(
        &self,
        _code: &Checked,
        cell: &mut Cell,
        _mail: &mut MailRow,
        _spare: &mut SpareFrame,
    ) -> Option<Letter> {
        cell.apply_block();
        None
    }
}
