// The events of one actor, each as one call that gives out what is to be pushed. They serve tests
// alone: the machine finds, reserves and applies.

ghost use Rattle.std.specs.Prelude.{◌≡◌, ◌+◌, ◌<◌, ◌^◌, [], ◌∷◌, IfErr, IfOk, IsSome, None, OnErr, OnOk, Some, true, vec_capacity};
ghost use Rattle.letter_kinds.specs.Counting.{by_owner, given_back};
ghost use Rattle.letter_kinds.specs.Letters.{as_letter};
ghost use Rattle.machine_rules.specs.Collect.{is_marked};
ghost use Rattle.machine_rules.specs.Take.{cell_after, note_of, notes_after};
ghost use Rattle.orca_names.specs.declared.options.Options.{Options as choices};
ghost use Rattle.row_store.specs.Words.{SameWords};
ghost use Rattle.actor_cell.specs.Cells.{as_cell};
ghost use Rattle.actor_cell.specs.Goes.{CanGo, gone_of, out_of};
ghost use Rattle.actor_cell.specs.Moves.{act_in};
ghost use Rattle.actor_cell.specs.Outs.{IsRoomFor, as_out, left_behind, noting, report_of, returning};
ghost use Rattle.actor_cell.specs.Sweeps.{KnowsOthersOnly, swept};
ghost use Rattle.actor_cell.specs.Takes.{CanTake};
ghost use Rattle.letter_kinds.specs.Telling.{HoldsTold, TellsOnly, all_brought, brought_in};
ghost use Rattle.actor_cell.specs.Tells.{Tells};

use crate::cell::Cell;
use crate::letters::{decs_of, letter_room};
use crate::turning::{Doing, Turned};
use behaviour_check::Checked;
use letter_kinds::{Letter, Note};
use orca_names::{ActorName, NoMemory, Options, Trace, Value};
use plain_list::Listed;
use row_store::RowWords;
use std::alloc::{AllocError, Global};
use turn_rules::SpareFrame;
use turn_step::Turn;

/// What an event of an actor gives out, to be pushed in order.
#[derive(Debug, Drop)]
pub struct Out {
    /// The letters, each with the actor to which it goes.
    pub letters: Listed<(ActorName, Letter)>,
    /// The notes to the detector.
    pub notes: Listed<Note>,
    /// The value that is printed.
    pub print: Option<Value>,
    /// The kind of the actor that is made, and the register that it becomes.
    pub made: Option<(u32, u8)>,
}

// Room for one note, where one will come.
fn note_room(alloc: Global, comes: bool) -> Result<Vec<Note>, AllocError>
    ensures none { IfOk result (λ notes. notes.items ≡ []) }
    ensures room { IfOk result (λ notes. comes ≡ true → 0 < vec_capacity notes) }
{
    let mut notes = Vec::new(alloc);
    if comes {
        notes.reserve(1)?;
    }
    Ok(notes)
}

impl Turned {
    // What it gives out. It takes no memory but the room that is handed in, and that of its letter.
    fn give_out(&mut self, alloc: Global, mut room: Vec<(ActorName, Letter)>) -> Out
        requires room { IsRoomFor 1 room }
        requires letter { IsSome self.old.room }
        ensures { as_out result ≡ out_of (act_in self.old) }
    {
        let mut print = None;
        let mut made = None;
        let doing = self.doing;
        match doing {
            Doing::Post { to, behaviour } => {
                let letter = self.take_letter(alloc, behaviour);
                room.push_reserved((to, letter));
            }
            Doing::Mint { owner } => {
                let things = self.take_things(alloc);
                room.push_reserved((owner, Letter::Inc { things }));
            }
            Doing::New { kind, register } => made = Some((kind, register)),
            Doing::Print { value } => print = Some(value),
            Doing::End | Doing::Rest => {}
        }
        Out {
            letters: Listed::from(room),
            notes: Listed::new(alloc),
            print,
            made,
        }
    }
}

impl Cell {
    /// The idle actor takes a letter.
    ///
    /// # Errors
    /// The letter, where memory was refused; the cell is then as it was.
    pub fn take(&mut self, alloc: Global, code: &Checked, letter: Letter) -> Result<Out, Letter>
        requires idle { self.old.frame ≡ None }
        requires can { CanTake self.old.heap.owner (as_letter letter) (as_cell self.old).holdings }
        ensures out { let note = note_of self.old.heap.owner (as_letter letter) in
            IfOk result (λ out. as_out out ≡ noting (notes_after self.old.reported note [])) }
        ensures cell { OnOk result (as_cell self.new
            ≡ cell_after code.now self.old.heap.owner (as_letter letter) (as_cell self.old)) }
        ensures back { IfErr result (λ back. back ≡ letter) }
        ensures same { OnErr result (as_cell self.new ≡ as_cell self.old) }
        ensures owner { self.new.heap.owner ≡ self.old.heap.owner }
        ensures told { TellsOnly (Tells self.old) (all_brought (brought_in letter)) (Tells self.new) }
    {
        let Ok(mut notes) = note_room(alloc, self.reported) else {
            return Err(letter);
        };
        let mut spare = SpareFrame::new(alloc);
        if self.reserve_take(&letter, &mut spare).is_err() {
            return Err(letter);
        }
        if let Some(note) = self.note_on(&letter) {
            notes.push_reserved(note);
        }
        self.apply_take(code, &letter);
        Ok(Out {
            letters: Listed::new(alloc),
            notes: Listed::from(notes),
            print: None,
            made: None,
        })
    }

    /// It goes on in its frame, up to and with its next act.
    ///
    /// # Errors
    /// `NoMemory` where memory was refused; the cell is then as it was.
    pub fn go<W: RowWords>(
        &mut self,
        alloc: Global,
        code: &Checked,
        weight: u32,
        trace: Trace,
        words: &mut W,
    ) -> Result<Out, NoMemory>
        requires can { let options : choices = record { weight = weight; trace = trace } in
            CanGo options code.now self.old.heap.owner (as_cell self.old) }
        requires serials { self.old.heap.next + 1024 < 2 ^ 64 }
        requires stand { HoldsTold (W.known words.old) (Tells self.old) }
        ensures gone { let options : choices = record { weight = weight; trace = trace } in
            let me = self.old.heap.owner in
            IfOk result (λ out. gone_of options code.now me (as_cell self.old)
            ≡ Some (record { cell = as_cell self.new; out = as_out out })) }
        ensures room { IfOk result (λ out. IsSome out.made → 0 < self.new.foreign.spare) }
        ensures same { OnErr result (as_cell self.new ≡ as_cell self.old) }
        ensures owner { self.new.heap.owner ≡ self.old.heap.owner }
        ensures told { TellsOnly (Tells self.old) [] (Tells self.new) }
        ensures words { SameWords W.known W.places W.beside words.old words.new }
    {
        let options = Options { weight, trace };
        let mut turn = Turn::new(alloc);
        let mut found = Turned::new(alloc);
        self.find_go(alloc, code, options, &mut turn, &mut found, words)?;
        let room = letter_room(alloc, 1)?;
        found.reserve_letter(alloc)?;
        self.reserve_go(&turn, &found)?;
        self.apply_go(&turn, &found, &[], &mut SpareFrame::new(alloc));
        Ok(found.give_out(alloc, room))
    }

    /// The idle actor frees what is not marked, gives back what it holds no more, and forgets the
    /// rows that letters brought and that are in use no more.
    ///
    /// # Errors
    /// `NoMemory` where memory was refused; the cell is then as it was.
    pub fn collect<W: RowWords>(
        &mut self,
        alloc: Global,
        trace: Trace,
        words: &mut W,
    ) -> Result<Out, NoMemory>
        requires others { KnowsOthersOnly self.old }
        requires stand { HoldsTold (W.known words.old) (Tells self.old) }
        ensures cell { let me = self.old.heap.owner in
            OnOk result (as_cell self.new ≡ swept trace me (as_cell self.old)) }
        ensures out { let marked = is_marked trace self.old.heap.owner (as_cell self.old) in
            IfOk result (λ out. as_out out
            ≡ returning (by_owner (given_back marked (as_cell self.old).holdings))) }
        ensures same { OnErr result (as_cell self.new ≡ as_cell self.old) }
        ensures owner { self.new.heap.owner ≡ self.old.heap.owner }
        ensures told { TellsOnly (Tells self.old) [] (Tells self.new) }
        ensures words { SameWords W.known W.places W.beside words.old words.new }
    {
        let found = self.find_collect(alloc, trace, words)?;
        let room = letter_room(alloc, found.plan.back.len())?;
        self.apply_collect(&found);
        Ok(Out {
            letters: decs_of(room, found.plan.back.into_vec()),
            notes: Listed::new(alloc),
            print: None,
            made: None,
        })
    }

    /// What it gives back where it goes alone: to each owner what it held.
    ///
    /// # Errors
    /// `NoMemory` where memory was refused.
    pub fn leave(&self, alloc: Global) -> Result<Out, NoMemory>
        ensures { let its = left_behind self.now.heap.owner (as_cell self.now) in
            IfOk result (λ out. as_out out ≡ returning its) }
    {
        let gone = [self.heap.owner()];
        let back = self.give_back(alloc, &gone)?;
        let room = letter_room(alloc, back.len())?;
        Ok(Out {
            letters: decs_of(room, back),
            notes: Listed::new(alloc),
            print: None,
            made: None,
        })
    }

    /// It reports its counts to the detector.
    ///
    /// # Errors
    /// `NoMemory` where memory was refused; the cell is then as it was.
    pub fn block(&mut self, alloc: Global) -> Result<Out, NoMemory>
        ensures out { IfOk result (λ out. as_out out
            ≡ noting (report_of self.old.heap.owner (as_cell self.old) ∷ [])) }
        ensures cell { let before = as_cell self.old in
            OnOk result (as_cell self.new ≡ record before { reported = true }) }
        ensures same { OnErr result (as_cell self.new ≡ as_cell self.old) }
        ensures owner { self.new.heap.owner ≡ self.old.heap.owner }
        ensures told { TellsOnly (Tells self.old) [] (Tells self.new) }
    {
        let mut notes = Listed::new(alloc);
        notes.push(self.report(alloc)?)?;
        self.apply_block();
        Ok(Out {
            letters: Listed::new(alloc),
            notes,
            print: None,
            made: None,
        })
    }
}
