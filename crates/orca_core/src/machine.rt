// The machine.

ghost use Rattle.std.specs.Prelude.{◌≡◌, ◌+◌, ◌<◌, ◌≤◌, false, [], ◌∷◌, length, unwrap_or, IfErr, IfOk, IfSome, IsSome, OnErr, OnOk};
ghost use Rattle.orca_names.specs.declared.limits.TheConstants.{BOOK_LIMIT};
ghost use Rattle.block_table.specs.declared.table.TheConstants.{BLOCKS_LIMIT};
ghost use Rattle.orca_names.specs.declared.trace.Trace.TheVariants.{Deep as deep};
ghost use Rattle.row_store.specs.Words.{SameWords, Words as words_known};
ghost use Rattle.row_blocks.specs.Blocks.{MayPutFree};
ghost use Rattle.block_table.specs.Blocks.{free_blocks};
ghost use Rattle.row_laws.specs.Blocks.{blocks_after};
ghost use Rattle.event_rule.specs.Runs.{Goes};
ghost use Rattle.machine_rules.specs.Actors.{seat};
ghost use Rattle.machine_rules.specs.Cell.{first_cell};
ghost use Rattle.machine_rules.specs.Next.{next};
ghost use Rattle.machine_rules.specs.State.{first_state, start_letters};
ghost use Rattle.letter_kinds.specs.Telling.{TellsNothing, ToldByOne};
ghost use Rattle.actor_table.specs.Slots.{actors_of, away_of};
ghost use Rattle.actor_table.specs.Bringing.{AreBrought};
ghost use Rattle.actor_table.specs.Telling.{TableLies, TableTells};
ghost use Rattle.orca_parts.specs.Away.{KeepsAway, is_out_for};
ghost use Rattle.orca_parts.specs.Parts.{options_of};
ghost use Rattle.orca_core.specs.Machine.{Fits, HasRoomFor, IsFaultOf, IsSame, NoneIsAway, ReapsNoneAway, Stand, StandsReady};
ghost use Rattle.orca_parts.specs.Woken.{IsLowestWoken};

use actor_cell::{Cell, Sweep, Turned};
use actor_table::ActorTable;
use behaviour_check::Checked;
use block_table::BlockTable;
use cycle_detect::Detector;
use event_rule::Event;
use letter_kinds::{Letter, Load, SentArgs};
use mail_rows::MailRow;
use orca_names::{ActorName, NoMemory, Options, Trace, Value};
use orca_parts::{Core, Parts, Ready, StepFault, apply, prepare};
use row_store::RowWords;
use std::alloc::Global;
use std::collections::VecDeque;
use std::marker::Model;
use turn_step::Turn;

/// The machine that collects, seen by contracts as its state and the number of events so far. Its
/// state is reached by a run of the program.
#[derive(Drop)]
pub struct Orca<'a> {
    pub(crate) core: Core<'a>,
    steps: u64,
}

impl<'a> Model for Orca<'a> {
    ghost use Rattle.std.specs.Coded.{codes};
    ghost use Rattle.actor_table.specs.Codes.{coded_blocks, coded_entries, coded_known, coded_own, coded_own_blocks};
    ghost use Rattle.orca_core.specs.Machine as machine;
    ghost use Rattle.orca_parts.specs.Core.{core_state};
    ghost use Rattle.actor_table.specs.Slots.{away_of};

    ghost Value = { machine.Machine };

    ghost coded = { Prim.hlevel (
      codes,
      coded_own,
      coded_own_blocks,
      coded_entries,
      coded_known,
      coded_blocks,
    ) };

    ghost view = { λ m. record {
      state = core_state m.core;
      steps = m.steps;
      out = away_of m.core.parts.table.slots;
      blocks = m.core.parts.blocks;
      kept = m.core.parts;
    } };

    ghost invariant = { λ m. machine.IsKept m.core m.steps };
}

// The letters of the first actor: `start`, where the program has it.
fn first_mail(alloc: Global, code: &Checked) -> Result<MailRow, NoMemory>
    ensures letters { IfOk result (λ mail. mail.letters ≡ start_letters code.now) }
    ensures untold { IfOk result (λ mail. TellsNothing (ToldByOne mail.brought)) }
    ensures brings { IfOk result (λ mail. AreBrought mail.letters mail.brought) }
{
    let mut mail = MailRow::new(alloc);
    if let Some(behaviour) = code.program().start_name() {
        mail.reserve(1)?;
        let args = SentArgs::new(alloc)?;
        mail.push(Letter::App {
            behaviour,
            args,
            load: Load::new(alloc),
            rows: Load::new(alloc),
        });
    }
    Ok(mail)
}

// One actor of the first kind.
fn first_table(alloc: Global, code: &Checked) -> Result<ActorTable, NoMemory>
    ensures actors { IfOk result (λ table. actors_of table.slots
        ≡ seat (first_cell code.now) (start_letters code.now) ∷ []) }
    ensures home { IfOk result (λ table. away_of table.slots ≡ false ∷ []) }
    ensures untold { IfOk result (λ table. TellsNothing (TableTells table.slots)) }
    ensures lie { IfOk result (λ table. TableLies table.slots) }
{
    let mail = first_mail(alloc, code)?;
    let mut table = ActorTable::new(alloc);
    table.reserve_actor()?;
    table.push_actor(Cell::first(alloc, code), mail);
    Ok(table)
}

// So many blocks, all of them free; none where rows lie at hand.
fn first_blocks(alloc: Global, rows: Option<u32>) -> Result<BlockTable, NoMemory>
    requires { IfSome rows (λ n. (0 < n) × (n ≤ BLOCKS_LIMIT)) }
    ensures { IfOk result (λ blocks. blocks ≡ free_blocks (unwrap_or rows 0)) }
{
    match rows {
        Some(count) => BlockTable::with_blocks(alloc, count),
        None => Ok(BlockTable::new(alloc)),
    }
}

impl<'a> Orca<'a> {
    /// The machine before its first event: one actor of the first kind, with the letter `start`. An
    /// increment is by `weight`, at most 65,536. With `rows` each row lies in one of so many blocks of words,
    /// 1 to 65,536, all of them free; the words are handed to the calls that read or put rows. Without it
    /// rows lie at hand, and no words are read.
    ///
    /// # Errors
    /// `NoMemory` where memory was refused.
    pub fn start(
        alloc: Global,
        code: &'a Checked,
        weight: u32,
        rows: Option<u32>,
        trace: Trace,
    ) -> Result<Orca<'a>, NoMemory>
        requires heavy { 0 < weight }
        requires light { weight ≤ 65536 }
        requires blocks { IfSome rows (λ n. (0 < n) × (n ≤ BLOCKS_LIMIT)) }
        requires deep { IsSome rows → trace ≡ deep }
        ensures state { IfOk result (λ m. m.state ≡ first_state code.now (options_of weight trace)) }
        ensures steps { IfOk result (λ m. m.steps ≡ 0) }
        ensures home { IfOk result NoneIsAway }
        ensures blocks { IfOk result (λ m. m.blocks ≡ free_blocks (unwrap_or rows 0)) }
        ensures stand { IfOk result (λ m. (known : words_known) → Stand known m) }
    {
        // The program was checked.
        let _program = code.program();
        let table = first_table(alloc, code)?;
        let blocks = first_blocks(alloc, rows)?;
        let parts = Parts {
            table,
            detector: Detector::new(alloc),
            notes: VecDeque::new(alloc),
            prints: Vec::new(alloc),
            objects: 0,
            blocks,
            turn: Turn::new(alloc),
            turned: Turned::new(alloc),
            placed: Vec::new(alloc),
            sweep: Sweep::new(alloc),
            letters: Vec::new(alloc),
            report: None,
            token: None,
            members: Vec::new(alloc),
        };
        let core = Core {
            code,
            options: Options { weight, trace },
            parts,
            stands: false,
        };
        Ok(Orca { core, steps: 0 })
    }

    /// Evaluates an event and takes all its memory. Nothing changes but room, so the event can then be
    /// done by `apply_ready`, which can't fail.
    ///
    /// # Errors
    /// `NotEnabled` exactly where the event is not enabled, or is one of an actor whose cell is away;
    /// `ActorsFull` exactly where the event is a go whose act would make an actor and 65,536 are made;
    /// `NoRows` exactly where it is not, there are blocks, and its turn, which does not mint, makes more rows
    /// than are free; `NoMemory` where memory was refused.
    #[inline(always)]
    pub fn prepare<W: RowWords>(
        &mut self,
        alloc: Global,
        e: Event,
        words: &mut W,
    ) -> Result<Ready, StepFault>
        requires early { self.old.steps < BOOK_LIMIT }
        requires home { ReapsNoneAway e self.old }
        requires stand { Stand (W.known words.old) self.old }
        ensures same { IsSame self.old self.new }
        ensures event { IfOk result (λ ready. ready.event ≡ e) }
        ensures ok { IfOk result (λ ready. Fits ready self.new) }
        ensures home { OnOk result (is_out_for self.old.out e ≡ false) }
        ensures fault { IfErr result (IsFaultOf self.old e) }
        ensures stand { Stand (W.known words.new) self.new }
        ensures found { IfOk result (λ ready. StandsReady (W.known words.new) ready self.new) }
        ensures words { SameWords W.known W.places W.beside words.old words.new }
    {
        prepare(alloc, &mut self.core, &e, false, words)?;
        Ok(Ready { event: e })
    }

    // What moves out leaves empty lists behind, which keep it for their later memory.
    #[inline(always)]
    fn allocator(&self) -> Global {
        *self.core.parts.prints.allocator()
    }

    /// Does the event that was prepared: the machine's next step is exactly that of its rules. The rows
    /// that a go makes are put into the lowest free blocks, where there are blocks. It takes no memory, and
    /// tells the lowest actor that gets a letter or is made by the event, `None` where none is.
    #[inline(always)]
    pub fn apply_ready<W: RowWords>(&mut self, ready: Ready, words: &mut W) -> Option<ActorName>
        requires early { self.old.steps < BOOK_LIMIT }
        requires fits { Fits ready self.old }
        requires stand { Stand (W.known words.old) self.old }
        requires found { StandsReady (W.known words.old) ready self.old }
        requires put { MayPutFree self.old.blocks (W.places words.old) }
        ensures state { next self.old.state ready.event ≡ Goes self.new.state }
        ensures steps { self.new.steps ≡ self.old.steps + 1 }
        ensures out { KeepsAway self.old.out self.new.out }
        ensures woken { IsLowestWoken self.old.state.actors self.new.state.actors result }
        ensures blocks { self.new.blocks
            ≡ blocks_after self.old.state ready.event self.new.state self.old.blocks }
        ensures room { HasRoomFor self.old.state ready.event self.new.state self.old.blocks }
        ensures stand { Stand (W.known words.new) self.new }
        ensures places { W.places words.new ≡ W.places words.old }
        ensures beside { W.beside words.new ≡ W.beside words.old }
    {
        let alloc = self.allocator();
        // Each cell is its actor's, before and after; so is each letter what its actor names.
        self.core.parts.table.tells_its_own();
        let woken = apply(alloc, &mut self.core, ready.event, words);
        self.core.parts.table.tells_its_own();
        self.steps += 1;
        woken
    }

    /// Does an event: the machine's next step is exactly that of its rules (Orca, OOPSLA 2017; MAC,
    /// OOPSLA 2013). It tells the lowest actor that gets a letter or is made by the event, `None` where
    /// none is.
    ///
    /// # Errors
    /// As `prepare`. Nothing changes then but room.
    #[inline(always)]
    pub fn step<W: RowWords>(
        &mut self,
        alloc: Global,
        e: Event,
        words: &mut W,
    ) -> Result<Option<ActorName>, StepFault>
        requires early { self.old.steps < BOOK_LIMIT }
        requires home { ReapsNoneAway e self.old }
        requires stand { Stand (W.known words.old) self.old }
        requires put { MayPutFree self.old.blocks (W.places words.old) }
        ensures ok { OnOk result (next self.old.state e ≡ Goes self.new.state) }
        ensures home { OnOk result (is_out_for self.old.out e ≡ false) }
        ensures steps { OnOk result (self.new.steps ≡ self.old.steps + 1) }
        ensures out { KeepsAway self.old.out self.new.out }
        ensures fault { IfErr result (IsFaultOf self.old e) }
        ensures same { OnErr result (IsSame self.old self.new) }
        ensures woken { IfOk result (IsLowestWoken self.old.state.actors self.new.state.actors) }
        ensures blocks { OnOk result (self.new.blocks
            ≡ blocks_after self.old.state e self.new.state self.old.blocks) }
        ensures room { OnOk result (HasRoomFor self.old.state e self.new.state self.old.blocks) }
        ensures stand { Stand (W.known words.new) self.new }
        ensures places { W.places words.new ≡ W.places words.old }
        ensures beside { W.beside words.new ≡ W.beside words.old }
    {
        let ready = self.prepare(alloc, e, words)?;
        Ok(self.apply_ready(ready, words))
    }

    /// What was printed, in its order.
    pub fn prints(&self) -> &[Value]
        ensures { result.now ≡ self.now.state.prints }
    {
        self.core.parts.prints.as_slice()
    }

    /// How many actors were made.
    pub fn made(&self) -> u64
        ensures { result ≡ length self.now.state.actors }
    {
        self.core.parts.table.len() as u64
    }

    /// How many objects were made.
    pub fn objects_made(&self) -> u64
        ensures { result ≡ self.now.state.objects }
    {
        self.core.parts.objects
    }

    /// How many events were done.
    pub fn steps(&self) -> u64
        ensures { result ≡ self.now.steps }
    {
        self.steps
    }
}
