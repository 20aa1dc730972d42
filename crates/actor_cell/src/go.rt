// Go: a frame runs up to its next act.

ghost use Rattle.std.specs.Prelude.{◌≡◌, ◌+◌, ◌<◌, ◌≤◌, ◌^◌, [], false, IfOk, IfSome, IsSome, IsTrue, OnOk, length, map};
ghost use Rattle.orca_names.specs.Names.{owner_of};
ghost use Rattle.orca_names.specs.declared.trace.Trace.TheVariants.{Deep as deep, Roots as roots};
ghost use Rattle.machine_rules.specs.Go.{needed, to_need, turn_of_cell};
ghost use Rattle.row_store.specs.Words.{SameWords};
ghost use Rattle.turn_step.specs.Turns.{HaltsAt, act_of};
ghost use Rattle.actor_cell.specs.Awaiting.{Awaits};
ghost use Rattle.actor_cell.specs.Cells.{as_cell};
ghost use Rattle.actor_cell.specs.Finding.{Finds, FindsLetter, FindsTurn};
ghost use Rattle.actor_cell.specs.Goes.{things_from, FitsRegister};
ghost use Rattle.actor_cell.specs.Moves.{act_in, Mint as mint};
ghost use Rattle.letter_kinds.specs.Holdings.{with_made};
ghost use Rattle.letter_kinds.specs.Load.{as_load};
ghost use Rattle.letter_kinds.specs.Telling.{HoldsTold, TellsOnly, Told};
ghost use Rattle.actor_cell.specs.Tells.{Tells, told_out};

use crate::cell::Cell;
use crate::turning::{Awaited, Doing, Turned};
use behaviour_check::Checked;
use behaviour_code::Name;
use foreign_table::{ForeignTable, Holding};
use known_rows::KnownRows;
use letter_kinds::{Amounts, Load};
use orca_names::{ActorName, Args, NoMemory, Options, Row, Thing, Trace};
use plain_list::Listed;
use reach_walk::{ThingList, WithWords};
use root_trace::missing;
use row_store::RowWords;
use std::alloc::Global;
use trace_send::{lacking, lacks_any};
use turn_rules::Frame;
use turn_step::{Deed, Halt, Setting, Turn, rests_at, segment_at, segment_held_at};

// Each of these things with the weight.
fn amounts_of(alloc: Global, things: &[Thing], weight: u32) -> Result<Amounts, NoMemory>
    ensures { IfOk result (λ amounts. amounts ≡ map (λ x. (x, weight)) things.now) }
{
    let mut amounts = Listed::new(alloc);
    for thing in things {
        amounts.push((*thing, u64::from(weight)))?;
    }
    Ok(amounts)
}

// The things of a load, without their rows.
fn things_of(alloc: Global, load: &Load) -> Result<Listed<Thing>, NoMemory>
    ensures { IfOk result (λ things. things ≡ map (λ e. e.0) (as_load load.now)) }
{
    let mut things = Listed::new(alloc);
    let (items, _) = load.parts();
    for loaded in items {
        things.push(loaded.0)?;
    }
    Ok(things)
}

// A letter of a turn, with that over which is found what it loads.
#[derive(Clone, Copy)]
struct Sending<'a> {
    cell: &'a Cell,
    options: Options,
    // The rows that the turn made.
    made: &'a [Row],
    to: ActorName,
    behaviour: Name,
}

impl Sending<'_> {
    // The letter that the actor awaits, by deep tracing: otherwise what it mints may be what its turn needs.
    #[inline(always)]
    fn awaited(&self, actor: ActorName) -> Option<Awaited>
        ensures { IfSome result (λ letter. (self.now.options.trace ≡ deep)
            × (letter ≡ record { actor = actor; to = self.now.to; behaviour = self.now.behaviour })) }
    {
        match self.options.trace {
            Trace::Deep => Some(Awaited {
                actor,
                to: self.to,
                behaviour: self.behaviour,
            }),
            Trace::Roots => None,
        }
    }

    // Finds its load and rows, by the things found that it loads, or what is minted first: it is awaited
    // then.
    #[inline(always)]
    fn find_found<W: RowWords>(
        &self,
        alloc: Global,
        found: &mut Turned,
        words: &mut W,
    ) -> Result<(), NoMemory>
        requires seen { let h = with_made self.now.made.now (as_cell self.now.cell.now).holdings in
            let me = self.now.cell.now.heap.owner in
            found.old.seen ≡ things_from self.now.options.trace me h found.old.args }
        requires stand { HoldsTold (W.known words.old) (Tells self.now.cell.now) }
        ensures letter { OnOk result (FindsLetter self.now found.old found.new) }
        ensures told { OnOk result (TellsOnly (Tells self.now.cell.now) [] (Told (told_out found.new))) }
        ensures words { SameWords W.known W.places W.beside words.old words.new }
    {
        let cell = self.cell;
        let trace = self.options.trace;
        let weight = self.options.weight;
        let me = cell.heap.owner();
        match lacking(alloc, found.seen.as_slice(), me, &cell.foreign, weight)? {
            Some(minted) => {
                found.things = minted.1;
                found.doing = Doing::Mint { owner: minted.0 };
                found.awaited = self.awaited(me);
                Ok(())
            }
            None => {
                found.doing = Doing::Post {
                    to: self.to,
                    behaviour: self.behaviour,
                };
                found.load = cell.load(alloc, trace, self.made, found.seen.as_slice(), words)?;
                found.rows = cell.carried(alloc, trace, self.made, &found.args, words)?;
                Ok(())
            }
        }
    }

    // Finds this by a list of the things that it loads.
    #[inline(always)]
    fn find_few<W: RowWords>(
        &self,
        alloc: Global,
        found: &mut Turned,
        words: &mut W,
    ) -> Result<(), NoMemory>
        requires stand { HoldsTold (W.known words.old) (Tells self.now.cell.now) }
        ensures letter { OnOk result (FindsLetter self.now found.old found.new) }
        ensures told { OnOk result (TellsOnly (Tells self.now.cell.now) [] (Told (told_out found.new))) }
        ensures words { SameWords W.known W.places W.beside words.old words.new }
    {
        let cell = self.cell;
        let trace = self.options.trace;
        cell.find_things(alloc, trace, self.made, &found.args, &mut found.seen, words)?;
        self.find_found(alloc, found, words)
    }

    // Finds this by places, where it is traced deeply; `false` where they do not serve.
    fn find_many<W: RowWords>(
        &self,
        alloc: Global,
        found: &mut Turned,
        words: &mut W,
    ) -> Result<bool, NoMemory>
        requires traced { self.now.options.trace ≡ deep }
        requires stand { HoldsTold (W.known words.old) (Tells self.now.cell.now) }
        ensures done { IfOk result (λ done. IsTrue done → FindsLetter self.now found.old found.new) }
        ensures left { IfOk result (λ done. done ≡ false → found.new ≡ found.old) }
        ensures told { IfOk result (λ done. IsTrue done
            → TellsOnly (Tells self.now.cell.now) [] (Told (told_out found.new))) }
        ensures words { SameWords W.known W.places W.beside words.old words.new }
    {
        let cell = self.cell;
        let Some(load) = cell.load_of_many(alloc, self.made, &found.args, words)? else {
            return Ok(false);
        };
        let me = cell.heap.owner();
        if !lacks_any(&load, me, &cell.foreign) {
            found.load = load;
            found.rows = Load::new(alloc);
            found.doing = Doing::Post {
                to: self.to,
                behaviour: self.behaviour,
            };
            return Ok(true);
        }
        let loaded = things_of(alloc, &load)?;
        let weight = self.options.weight;
        let minted = lacking(alloc, loaded.as_slice(), me, &cell.foreign, weight)?;
        let Some(lacked) = minted else {
            return Ok(false);
        };
        found.things = lacked.1;
        found.doing = Doing::Mint { owner: lacked.0 };
        Ok(true)
    }

    // Finds its load and rows, with the arguments found, or what is minted first.
    fn find<W: RowWords>(
        &self,
        alloc: Global,
        found: &mut Turned,
        words: &mut W,
    ) -> Result<(), NoMemory>
        requires stand { HoldsTold (W.known words.old) (Tells self.now.cell.now) }
        ensures letter { OnOk result (FindsLetter self.now found.old found.new) }
        ensures told { OnOk result (TellsOnly (Tells self.now.cell.now) [] (Told (told_out found.new))) }
        ensures words { SameWords W.known W.places W.beside words.old words.new }
    {
        let cell = self.cell;
        if cell.reaches_many(self.options.trace, self.made, &found.args) {
            let done = self.find_many(alloc, found, words)?;
            if done {
                return Ok(());
            }
        }
        self.find_few(alloc, found, words)
    }
}

impl Cell {
    // What it does by a deed of its turn.
    fn move_of<W: RowWords>(
        &self,
        alloc: Global,
        options: Options,
        turn: &Turn,
        deed: &Deed<'_>,
        found: &mut Turned,
        words: &mut W,
    ) -> Result<(), NoMemory>
        requires fits { FitsRegister (act_of deed.now turn.now) }
        requires stand { HoldsTold (W.known words.old) (Tells self.now) }
        ensures finds { let does = act_of deed.now turn.now in
            OnOk result (Finds options self.now turn.now.made does found.old found.new) }
        ensures told { OnOk result (TellsOnly (Tells self.now) [] (Told (told_out found.new))) }
        ensures words { SameWords W.known W.places W.beside words.old words.new }
    {
        match *deed {
            Deed::Post {
                to,
                behaviour,
                values,
            } => {
                found.args = Args::new();
                turn.gather_into(values.as_slice(), &mut found.args);
                let sending = Sending {
                    cell: self,
                    options,
                    made: turn.made(),
                    to,
                    behaviour,
                };
                sending.find(alloc, found, words)
            }
            Deed::New { kind, into } => {
                let register = into as u8;
                found.doing = Doing::New { kind, register };
                Ok(())
            }
            Deed::Print { register } => {
                let value = turn.value(register);
                found.doing = Doing::Print { value };
                Ok(())
            }
            Deed::End => {
                found.doing = Doing::End;
                Ok(())
            }
        }
    }

    // What it mints before its turn can get this thing.
    fn needing(
        &self,
        alloc: Global,
        weight: u32,
        thing: &Thing,
        found: &mut Turned,
    ) -> Result<(), NoMemory>
        ensures act { let h = (as_cell self.now).holdings in
            let things = to_need weight self.now.heap.owner h thing.now in
            OnOk result (act_in found.new ≡ mint (owner_of thing.now) things) }
        ensures awaited { found.new.awaited ≡ found.old.awaited }
    {
        let lacked = missing(alloc, *thing, self.heap.owner(), &self.foreign)?;
        found.things = amounts_of(alloc, lacked.as_slice(), weight)?;
        let owner = thing.owner();
        found.doing = Doing::Mint { owner };
        Ok(())
    }

    // Runs its frame up to where its turn halts, by deep tracing: it finds the rows of others' objects with
    // what it holds.
    #[inline(always)]
    fn run_deep<'p, W: RowWords>(
        &self,
        code: &'p Checked,
        frame: &Frame,
        turn: &mut Turn,
        words: &mut W,
    ) -> Result<Halt<'p>, NoMemory>
        requires serials { self.now.heap.next + 1024 < 2 ^ 64 }
        requires stand { HoldsTold (W.known words.old) (Tells self.now) }
        ensures halt { let c = as_cell self.now in
            let first = needed deep code.now self.now.heap.owner c frame.now in
            let stop = turn_of_cell deep code.now self.now.heap.owner c frame.now in
            IfOk result (λ halt. HaltsAt first stop halt turn.new) }
        ensures few { OnOk result (length turn.new.made ≤ 1024) }
        ensures words { SameWords W.known W.places W.beside words.old words.new }
    {
        let me = self.heap.owner();
        let base = self.heap.made();
        let setting = Setting { code, me, base };
        let rows = KnownRows {
            heap: &self.heap,
            foreign: &self.foreign,
        };
        let mut rows = WithWords::of(&rows, words);
        match segment_at(&setting, frame, &self.fields, &mut rows, turn) {
            Ok(stop) => Ok(Halt::Stops(stop)),
            Err(e) => Err(e),
        }
    }

    // Runs its frame by root-only tracing: letters brought the rows of others' objects.
    #[inline(never)]
    fn run_roots<'p, W: RowWords>(
        &self,
        alloc: Global,
        code: &'p Checked,
        frame: &Frame,
        turn: &mut Turn,
        words: &mut W,
    ) -> Result<Halt<'p>, NoMemory>
        requires serials { self.now.heap.next + 1024 < 2 ^ 64 }
        requires stand { HoldsTold (W.known words.old) (Tells self.now) }
        ensures halt { let c = as_cell self.now in
            let first = needed roots code.now self.now.heap.owner c frame.now in
            let stop = turn_of_cell roots code.now self.now.heap.owner c frame.now in
            IfOk result (λ halt. HaltsAt first stop halt turn.new) }
        ensures few { OnOk result (length turn.new.made ≤ 1024) }
        ensures words { SameWords W.known W.places W.beside words.old words.new }
    {
        let me = self.heap.owner();
        let base = self.heap.made();
        let setting = Setting { code, me, base };
        let nothing = ForeignTable::new(alloc);
        let foreign = self.known.held_or(&nothing);
        let rows = KnownRows {
            heap: &self.heap,
            foreign,
        };
        let mut rows = WithWords::of(&rows, words);
        let held = Holding {
            me,
            foreign: &self.foreign,
        };
        segment_held_at(&setting, frame, &self.fields, &mut rows, &held, turn)
    }

    // Runs its frame up to where its turn halts.
    #[inline(always)]
    fn run_turn<'p, W: RowWords>(
        &self,
        alloc: Global,
        code: &'p Checked,
        trace: Trace,
        frame: &Frame,
        turn: &mut Turn,
        words: &mut W,
    ) -> Result<Halt<'p>, NoMemory>
        requires serials { self.now.heap.next + 1024 < 2 ^ 64 }
        requires stand { HoldsTold (W.known words.old) (Tells self.now) }
        ensures halt { let c = as_cell self.now in
            let first = needed trace code.now self.now.heap.owner c frame.now in
            let stop = turn_of_cell trace code.now self.now.heap.owner c frame.now in
            IfOk result (λ halt. HaltsAt first stop halt turn.new) }
        ensures few { OnOk result (length turn.new.made ≤ 1024) }
        ensures words { SameWords W.known W.places W.beside words.old words.new }
    {
        match trace {
            Trace::Deep => self.run_deep(code, frame, turn, words),
            Trace::Roots => self.run_roots(alloc, code, frame, turn, words),
        }
    }

    /// Evaluates its turn: what this leaves stands in `turn` then, and what was found of it in `found`.
    /// Whether a letter is awaited then is left open.
    ///
    /// # Errors
    /// `NoMemory` where memory was refused; what `turn` and `found` hold then is left open.
    pub fn find_go<W: RowWords>(
        &self,
        alloc: Global,
        code: &Checked,
        options: Options,
        turn: &mut Turn,
        found: &mut Turned,
        words: &mut W,
    ) -> Result<(), NoMemory>
        requires running { IsSome self.now.frame }
        requires serials { self.now.heap.next + 1024 < 2 ^ 64 }
        requires stand { HoldsTold (W.known words.old) (Tells self.now) }
        ensures found { OnOk result (FindsTurn options code.now self.now turn.new found.new) }
        ensures few { OnOk result (length turn.new.made ≤ 1024) }
        ensures told { OnOk result (TellsOnly (Tells self.now) [] (Told (told_out found.new))) }
        ensures words { SameWords W.known W.places W.beside words.old words.new }
    {
        found.forget_letter();
        let Some(frame) = self.frame.get() else {
            unreachable!();
        };
        // A checked program makes actors into registers that there are.
        let _program = code.program();
        if let Some(place) = rests_at(code, frame) {
            turn.clear_made();
            found.place = place;
            found.doing = Doing::Rest;
            return Ok(());
        }
        match self.run_turn(alloc, code, options.trace, frame, turn, words) {
            Ok(halt) => match halt {
                Halt::Stops(stop) => {
                    self.move_of(alloc, options, turn, &stop.deed, found, words)?;
                    found.place = stop.place;
                    Ok(())
                }
                Halt::Needs(thing) => {
                    turn.begin(&frame.registers, &self.fields);
                    self.needing(alloc, options.weight, &thing, found)?;
                    found.place = frame.place;
                    Ok(())
                }
            },
            Err(e) => Err(e),
        }
    }

    /// Finds what it does where its turn stopped at a letter that it awaits: the turn isn't run again.
    ///
    /// # Errors
    /// `NoMemory` where memory was refused; what `found` holds then is left open.
    pub fn find_again<W: RowWords>(
        &self,
        alloc: Global,
        code: &Checked,
        options: Options,
        turn: &Turn,
        letter: Awaited,
        found: &mut Turned,
        words: &mut W,
    ) -> Result<(), NoMemory>
        requires awaits { let me = self.now.heap.owner in
            Awaits options.trace code.now me (as_cell self.now) turn.now found.old letter }
        requires stand { HoldsTold (W.known words.old) (Tells self.now) }
        ensures found { OnOk result (FindsTurn options code.now self.now turn.now found.new) }
        ensures told { OnOk result (TellsOnly (Tells self.now) [] (Told (told_out found.new))) }
        ensures words { SameWords W.known W.places W.beside words.old words.new }
    {
        let _code = code;
        found.forget_letter();
        let sending = Sending {
            cell: self,
            options,
            made: turn.made(),
            to: letter.to,
            behaviour: letter.behaviour,
        };
        sending.find_found(alloc, found, words)
    }
}
