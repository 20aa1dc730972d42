// What an actor would do next of itself.

ghost use Rattle.std.specs.Prelude.{◌+◌, ◌^◌, ◌<◌, [], IfOk, IsSome, OnOk};
ghost use Rattle.orca_names.specs.declared.options.Options.{Options as choices};
ghost use Rattle.letter_kinds.specs.Telling.{HoldsTold, TellsOnly, Told};
ghost use Rattle.row_store.specs.Words.{SameWords};
ghost use Rattle.actor_cell.specs.Founds.{IsFound};
ghost use Rattle.actor_cell.specs.Sweeps.{KnowsOthersOnly};
ghost use Rattle.actor_cell.specs.Tells.{Tells, told_found};

use crate::cell::Cell;
use crate::sweeping::Sweep;
use crate::turning::Turned;
use behaviour_check::Checked;
use orca_names::{NoMemory, Options, Trace};
use row_store::RowWords;
use std::alloc::Global;
use turn_step::Turn;

/// What an actor would do next of itself, evaluated and not yet done.
#[derive(Drop)]
pub enum Found {
    /// It goes on: what its turn leaves, and what it does where this stops.
    Goes { turn: Turn, turned: Turned },
    /// It collects: what this frees, gives back and forgets.
    Collects { sweep: Sweep },
    /// It has no frame, and did nothing since it collected.
    Nothing,
}

impl Cell {
    /// Evaluates its turn where it has a frame, and else its collection where it is dirty.
    ///
    /// # Errors
    /// `NoMemory` where memory was refused.
    pub fn found<W: RowWords>(
        &self,
        alloc: Global,
        code: &Checked,
        weight: u32,
        trace: Trace,
        words: &mut W,
    ) -> Result<Found, NoMemory>
        requires serials { self.now.heap.next + 1024 < 2 ^ 64 }
        requires others { KnowsOthersOnly self.now }
        requires stand { HoldsTold (W.known words.old) (Tells self.now) }
        ensures found { let options : choices = record { weight = weight; trace = trace } in
            IfOk result (IsFound options code.now self.now) }
        ensures told { IfOk result (λ found. TellsOnly (Tells self.now) [] (Told (told_found found))) }
        ensures words { SameWords W.known W.places W.beside words.old words.new }
    {
        let options = Options { weight, trace };
        let mut found = Found::Nothing;
        self.find_in(alloc, code, options, &mut found, words)?;
        Ok(found)
    }

    /// As `found`, into a place. Where a turn was found there before, its room serves again.
    ///
    /// # Errors
    /// `NoMemory` where memory was refused; what the place holds then is left open.
    pub fn find_in<W: RowWords>(
        &self,
        alloc: Global,
        code: &Checked,
        options: Options,
        found: &mut Found,
        words: &mut W,
    ) -> Result<(), NoMemory>
        requires serials { self.now.heap.next + 1024 < 2 ^ 64 }
        requires others { KnowsOthersOnly self.now }
        requires stand { HoldsTold (W.known words.old) (Tells self.now) }
        ensures found { OnOk result (IsFound options code.now self.now found.new) }
        ensures told { OnOk result (TellsOnly (Tells self.now) [] (Told (told_found found.new))) }
        ensures words { SameWords W.known W.places W.beside words.old words.new }
    {
        if self.frame.is_some() {
            return self.find_turn(alloc, code, options, found, words);
        }
        *found = if self.dirty {
            let sweep = self.find_collect(alloc, options.trace, words)?;
            Found::Collects { sweep }
        } else {
            Found::Nothing
        };
        Ok(())
    }

    // Evaluates its turn into the place.
    fn find_turn<W: RowWords>(
        &self,
        alloc: Global,
        code: &Checked,
        options: Options,
        found: &mut Found,
        words: &mut W,
    ) -> Result<(), NoMemory>
        requires running { IsSome self.now.frame }
        requires serials { self.now.heap.next + 1024 < 2 ^ 64 }
        requires stand { HoldsTold (W.known words.old) (Tells self.now) }
        ensures found { OnOk result (IsFound options code.now self.now found.new) }
        ensures told { OnOk result (TellsOnly (Tells self.now) [] (Told (told_found found.new))) }
        ensures words { SameWords W.known W.places W.beside words.old words.new }
    {
        if let Found::Goes { turn, turned } = found {
            return self.find_go(alloc, code, options, turn, turned, words);
        }
        let mut turn = Turn::new(alloc);
        let mut turned = Turned::new(alloc);
        self.find_go(alloc, code, options, &mut turn, &mut turned, words)?;
        *found = Found::Goes { turn, turned };
        Ok(())
    }
}
