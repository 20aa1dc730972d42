// Events of which what the actor would do was found elsewhere.

ghost use Rattle.std.specs.Prelude.{◌≡◌, ◌+◌, ◌<◌, false, length, IfErr, IfOk, OnErr, OnOk};
ghost use Rattle.orca_names.specs.declared.limits.TheConstants.{BOOK_LIMIT};
ghost use Rattle.event_rule.specs.Runs.{Goes};
ghost use Rattle.machine_rules.specs.Next.{next};
ghost use Rattle.letter_kinds.specs.Telling.{HoldsTold, Told};
ghost use Rattle.actor_cell.specs.Tells.{told_found};
ghost use Rattle.row_store.specs.Words.{SameWords};
ghost use Rattle.row_blocks.specs.Blocks.{MayPutFree};
ghost use Rattle.row_laws.specs.Blocks.{blocks_after};
ghost use Rattle.orca_parts.specs.Away.{KeepsAway, is_out_for};
ghost use Rattle.orca_core.specs.Machine.{Fits, HasRoomFor, IsFaultOf, IsFoundIn, IsSame, ReapsNoneAway, Stand, StandsReady};
ghost use Rattle.orca_parts.specs.Woken.{IsLowestWoken};

use crate::machine::Orca;
use actor_cell::Found;
use event_rule::Event;
use orca_names::ActorName;
use orca_parts::{Ready, StepFault, prepare, stand};
use row_store::RowWords;
use std::alloc::Global;

impl<'a> Orca<'a> {
    /// As `prepare`, but what the event's actor would do was found elsewhere, and is evaluated no more.
    ///
    /// # Errors
    /// As `prepare`.
    pub fn prepare_found<W: RowWords>(
        &mut self,
        alloc: Global,
        e: Event,
        found: Found,
        words: &mut W,
    ) -> Result<Ready, StepFault>
        requires early { self.old.steps < BOOK_LIMIT }
        requires home { ReapsNoneAway e self.old }
        requires found { IsFoundIn e found self.old }
        requires stand { Stand (W.known words.old) self.old }
        requires holds { 0 < length self.old.blocks
            → HoldsTold (W.known words.old) (Told (told_found found)) }
        ensures same { IsSame self.old self.new }
        ensures event { IfOk result (λ ready. ready.event ≡ e) }
        ensures ok { IfOk result (λ ready. Fits ready self.new) }
        ensures home { OnOk result (is_out_for self.old.out e ≡ false) }
        ensures fault { IfErr result (IsFaultOf self.old e) }
        ensures stand { Stand (W.known words.new) self.new }
        ensures found { IfOk result (λ ready. StandsReady (W.known words.new) ready self.new) }
        ensures words { SameWords W.known W.places W.beside words.old words.new }
    {
        let mut found = found;
        self.prepare_from(alloc, e, &mut found, words)
    }

    /// As `prepare_found`, out of a place, where the next event's may be found: it is swapped with what the
    /// machine found last, whose room serves again there.
    ///
    /// # Errors
    /// As `prepare`.
    pub fn prepare_from<W: RowWords>(
        &mut self,
        alloc: Global,
        e: Event,
        found: &mut Found,
        words: &mut W,
    ) -> Result<Ready, StepFault>
        requires early { self.old.steps < BOOK_LIMIT }
        requires home { ReapsNoneAway e self.old }
        requires found { IsFoundIn e found.old self.old }
        requires stand { Stand (W.known words.old) self.old }
        requires holds { 0 < length self.old.blocks
            → HoldsTold (W.known words.old) (Told (told_found found.old)) }
        ensures same { IsSame self.old self.new }
        ensures event { IfOk result (λ ready. ready.event ≡ e) }
        ensures ok { IfOk result (λ ready. Fits ready self.new) }
        ensures home { OnOk result (is_out_for self.old.out e ≡ false) }
        ensures fault { IfErr result (IsFaultOf self.old e) }
        ensures stand { Stand (W.known words.new) self.new }
        ensures found { IfOk result (λ ready. StandsReady (W.known words.new) ready self.new) }
        ensures words { SameWords W.known W.places W.beside words.old words.new }
    {
        stand(&mut self.core, found);
        prepare(alloc, &mut self.core, &e, true, words)?;
        Ok(Ready { event: e })
    }

    /// As `step`, but what the event's actor would do was found elsewhere, and is evaluated no more.
    ///
    /// # Errors
    /// As `prepare`. Nothing changes then but room.
    pub fn install<W: RowWords>(
        &mut self,
        alloc: Global,
        e: Event,
        found: Found,
        words: &mut W,
    ) -> Result<Option<ActorName>, StepFault>
        requires early { self.old.steps < BOOK_LIMIT }
        requires home { ReapsNoneAway e self.old }
        requires found { IsFoundIn e found self.old }
        requires stand { Stand (W.known words.old) self.old }
        requires holds { 0 < length self.old.blocks
            → HoldsTold (W.known words.old) (Told (told_found found)) }
        requires put { MayPutFree self.old.blocks (W.places words.old) }
        ensures ok { OnOk result (next self.old.state e ≡ Goes self.new.state) }
        ensures home { OnOk result (is_out_for self.old.out e ≡ false) }
        ensures steps { OnOk result (self.new.steps ≡ self.old.steps + 1) }
        ensures out { KeepsAway self.old.out self.new.out }
        ensures fault { IfErr result (IsFaultOf self.old e) }
        ensures same { OnErr result (IsSame self.old self.new) }
        ensures woken { IfOk result (IsLowestWoken self.old.state.actors self.new.state.actors) }
        ensures blocks { OnOk result (self.new.blocks
            ≡ blocks_after self.old.state e self.new.state self.old.blocks) }
        ensures room { OnOk result (HasRoomFor self.old.state e self.new.state self.old.blocks) }
        ensures stand { Stand (W.known words.new) self.new }
        ensures places { W.places words.new ≡ W.places words.old }
        ensures beside { W.beside words.new ≡ W.beside words.old }
    {
        let ready = self.prepare_found(alloc, e, found, words)?;
        Ok(self.apply_ready(ready, words))
    }
}
