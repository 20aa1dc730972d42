// What the machine tells of itself.

ghost use Rattle.std.specs.Prelude.{◌≡◌, ◌↔◌, true, is_some, option_map, IfOk, IfSome, MatchOption};
ghost use Rattle.std.specs.Option.{option_copied};
ghost use Rattle.letter_kinds.specs.Detector.{token_numbered, reports_of};
ghost use Rattle.event_rule.specs.Runs.{IsEnabled, IsFirst, IsQuiet};
ghost use Rattle.machine_rules.specs.Actors.{seat_at};
ghost use Rattle.machine_rules.specs.Next.{next};
ghost use Rattle.actor_table.specs.Slots.{home_of, slot_at};
ghost use Rattle.actor_cell.specs.Cells.{as_cell};
ghost use Rattle.letter_kinds.specs.Telling.{ToldByOne};
ghost use Rattle.orca_parts.specs.Blocks.{AreKept};
ghost use Rattle.actor_cell.specs.Tells.{Tells};
ghost use Rattle.orca_parts.specs.Away.{next_without};
ghost use Rattle.orca_parts.specs.Parts.{state_of};
ghost use Rattle.orca_parts.specs.Touched.{touched_of, touched_token};
ghost use Rattle.orca_core.specs.Firsts.{next_of_kind};
ghost use Rattle.event_rule.specs.Events.{is_of, is_of_detector};
ghost use Rattle.orca_core.specs.Machine.{NoneIsAway, cell_here, mail_here};

use crate::machine::Orca;
use actor_cell::Cell;
use cycle_detect::Detector;
use event_rule::Event;
use letter_kinds::Note;
use mail_rows::MailRow;
use orca_names::{ActorName, KeptReport, NoMemory, Serial};
use orca_parts::{Ready, touched, touched_token};
use std::alloc::Global;
use std::collections::VecDeque;

impl<'a> Orca<'a> {
    /// Whether an event is enabled; of an actor whose cell is away none is.
    pub fn enabled(&self, e: Event) -> bool
        ensures { result ≡ true ↔ IsEnabled (next_without self.now.out) self.now.state e }
    {
        match e {
            Event::Take(a) => self.core.parts.table.may(a, &e),
            Event::Go(a) => self.core.parts.table.may(a, &e),
            Event::Collect(a) => self.core.parts.table.may(a, &e),
            Event::Leave(a) => self.core.parts.table.may(a, &e),
            Event::Block(a) => self.core.parts.table.may(a, &e),
            Event::Hear => !self.core.parts.notes.is_empty(),
            Event::Scan => self.core.parts.detector.news(),
            Event::Reap(token) => self.core.parts.detector.acked(token.get()),
        }
    }

    /// The first enabled event of an actor, in the one-worker order.
    pub fn next_of(&self, a: ActorName) -> Option<Event>
        ensures { let kind = next_of_kind (is_of a) self.now.out in
            MatchOption result (IsQuiet kind self.now.state) (IsFirst kind self.now.state) }
    {
        self.core.parts.table.next_of(a)
    }

    /// The first enabled event of the detector, in the one-worker order: it hears, scans, or reaps the
    /// lowest token whose members all acknowledged.
    pub fn first_of_detector(&self) -> Option<Event>
        ensures { let kind = next_of_kind is_of_detector self.now.out in
            MatchOption result (IsQuiet kind self.now.state) (IsFirst kind self.now.state) }
    {
        if !self.core.parts.notes.is_empty() {
            return Some(Event::Hear);
        }
        if self.core.parts.detector.news() {
            return Some(Event::Scan);
        }
        match self.core.parts.detector.ready() {
            Some(token) => Some(Event::Reap(Serial::of(token))),
            None => None,
        }
    }

    /// The first enabled event, in the one-worker order. It looks at no actor but the one that has it.
    #[inline(always)]
    pub fn first_enabled(&self) -> Option<Event>
        ensures here { let kind = next_without self.now.out in
            MatchOption result (IsQuiet kind self.now.state) (IsFirst kind self.now.state) }
        ensures whole { NoneIsAway self.now
            → MatchOption result (IsQuiet next self.now.state) (IsFirst next self.now.state) }
    {
        if let Some(a) = self.core.parts.table.first_acting() {
            return self.next_of(a);
        }
        if let Some(a) = self.core.parts.table.first_settling() {
            return self.next_of(a);
        }
        self.first_of_detector()
    }

    /// Whether no event is enabled.
    pub fn quiet(&self) -> bool
        requires { NoneIsAway self.now }
        ensures { result ≡ true ↔ IsQuiet next self.now.state }
    {
        self.first_enabled().is_none()
    }

    /// Whether an actor is present; one whose cell is away is.
    pub fn lives(&self, a: ActorName) -> bool
        ensures { result ≡ is_some (seat_at self.now.state.actors a) }
    {
        self.core.parts.table.lives(a)
    }

    /// The cell of an actor; `None` exactly where the actor is not present, or its cell is away.
    pub fn cell(&self, a: ActorName) -> Option<&Cell>
        ensures cell { option_map (λ c. as_cell c.now) result ≡ cell_here self.now a }
        ensures owner { IfSome result (λ c. c.now.heap.owner ≡ a) }
        ensures blocks { IfSome result (λ c. AreKept self.now.blocks (Tells c.now)) }
        ensures kept { option_copied result ≡ home_of (slot_at self.now.kept.table.slots a) }
    {
        self.core.parts.table.cell(a)
    }

    /// The letters that wait for an actor; `None` exactly where the actor is not present.
    pub fn mail(&self, a: ActorName) -> Option<&MailRow>
        ensures letters { option_map (λ m. m.now.letters) result ≡ mail_here self.now a }
        ensures blocks { IfSome result (λ m. AreKept self.now.blocks (ToldByOne m.now.brought)) }
    {
        self.core.parts.table.mail(a)
    }

    /// The detector of blocked actors.
    pub fn detector(&self) -> &Detector
        ensures state { result.now.state ≡ self.now.state.detector }
        ensures kept { result.now ≡ self.now.kept.detector }
    {
        &self.core.parts.detector
    }

    /// The notes that the detector has still to hear, in the order in which it will.
    pub fn notes(&self) -> &VecDeque<Note>
        ensures state { result.now.items ≡ self.now.state.notes }
        ensures kept { result.now ≡ self.now.kept.notes }
    {
        &self.core.parts.notes
    }

    /// The actors whose seat or kept report the event, which was prepared, may change; some perhaps
    /// twice.
    ///
    /// # Errors
    /// `NoMemory` where memory was refused.
    pub fn touched(&self, alloc: Global, ready: &Ready) -> Result<Vec<ActorName>, NoMemory>
        ensures names { IfOk result (λ names. names.items ≡ touched_of ready.now.event self.now.kept) }
        ensures state { let s = self.now.state in s ≡ state_of s.program s.options self.now.kept }
    {
        touched(alloc, &self.core.parts, &ready.event)
    }

    /// The number of the token that the event, which was prepared, may open, change or close.
    pub fn touched_token(&self, ready: &Ready) -> Option<u64>
        ensures { result ≡ touched_token ready.now.event self.now.kept }
    {
        touched_token(&self.core.parts, &ready.event)
    }

    /// The kept reports of the members of an open token, in the order of the members; `None` exactly
    /// where it is not open.
    ///
    /// # Errors
    /// `NoMemory` where memory was refused.
    pub fn token_reports(
        &self,
        alloc: Global,
        token: u64,
    ) -> Result<Option<Vec<KeptReport>>, NoMemory>
        ensures { let known = self.now.state.detector in
            IfOk result (λ found. option_map (λ v. v.items) found
            ≡ option_map (λ t. reports_of known.kept t.members) (token_numbered token known)) }
    {
        self.core.parts.detector.token_reports(alloc, token)
    }
}
