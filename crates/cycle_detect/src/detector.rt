// What the detector makes of notes, and its tokens.

ghost use Rattle.std.specs.Prelude.{◌≡◌, ◌+◌, ◌<◌, ◌≤◌, false, suc, IfErr, IfNone, IfOk, IfSome, IsSome, is_some, OnErr, OnOk};
ghost use Rattle.std.specs.Option.{option_copied, option_map};
ghost use Rattle.letter_kinds.specs.Detector.{close_token, closed_set, fresh_detector, hear_note, in_token, open_token, token_numbered, without_news, reports_of};
ghost use Rattle.letter_kinds.specs.Reports.{kept_report};
ghost use Rattle.cycle_detect.specs.Falling.{step_bound};
ghost use Rattle.cycle_detect.specs.Notes.{IsBlock};
ghost use Rattle.detector_tokens.specs.Open.{acked_by_all, acked_numbered, CanOpen, first_acked, IsLowestAcked, IsTokenOf, new_token, token_of};
ghost use Rattle.std.specs.List.Sorted.{IsStrictlySortedBy};
ghost use Rattle.std.specs.Ordering.{nat_cmp};
ghost use Rattle.cycle_detect.specs.Room.{CanHear, with_state};
ghost use Rattle.detector_tokens.specs.Room.{Fits, KeepsRoom};

use crate::reports::Reports;
use crate::scan;
use detector_tokens::{Token, Tokens};
use letter_kinds::{Note, Report};
use orca_names::{ActorName, KeptReport, NoMemory};
use std::alloc::Global;
use std::marker::{Brand, Model};
use std::sync::ledger::{Blank, Ledger};
use step_count::Steps;

/// The most tokens that may be opened.
pub const TOKENS_LIMIT: u64 = 100_000_000;

/// What is known of blocked actors, and the tokens that are open (MAC, OOPSLA 2013), seen by
/// contracts as that state, the further tokens for which there is memory, and the number below which
/// the reports of actors fit.
#[derive(Debug, Drop)]
pub struct Detector {
    reports: Reports,
    tokens: Tokens,
    opened: u64,
    news: bool,
}

impl Model for Detector {
    ghost use Rattle.std.specs.Prelude.{◌≤◌};
    ghost use Rattle.std.specs.List.{AllByRecursion};
    ghost use Rattle.cycle_detect.specs.Room.{DetectorValue};

    ghost Value = { DetectorValue };

    ghost view = { λ d. record {
      state = record { kept = d.reports.list; tokens = d.tokens.list; opened = d.opened; news = d.news };
      room = d.tokens.room;
      reports = d.reports.actors;
    } };

    ghost invariant = { λ d. AllByRecursion (λ t. t.number ≤ d.opened) d.tokens.list };
}

/// The largest closed set, by steps that are counted from a new ledger on.
fn closed_uncounted<L: Ledger>(
    alloc: Global,
    detector: &Detector,
    blank: Blank,
) -> Result<Vec<ActorName>, NoMemory>
    requires name { blank.name ≡ L.name }
    requires parts { blank.parts ≡ L.parts }
    requires some { 0 < blank.parts }
    ensures found { IfOk result (λ v. v.items ≡ closed_set detector.now.state) }
    ensures can_open { IfOk result (λ v. CanOpen v.items detector.now.state) }
{
    let mut steps = Steps::<L>::none(blank);
    detector.largest_closed_within(alloc, &mut steps)
}

impl Detector {
    /// A detector that heard nothing yet. It takes no memory.
    pub fn new(alloc: Global) -> Detector
        ensures { result.state ≡ fresh_detector }
    {
        Detector {
            reports: Reports::new(alloc),
            tokens: Tokens::new(alloc),
            opened: 0,
            news: false,
        }
    }

    /// Whether there is news since the last scan.
    pub fn news(&self) -> bool
        ensures { result ≡ self.now.state.news }
    {
        self.news
    }

    /// How many tokens were ever opened.
    pub fn opened(&self) -> u64
        ensures { result ≡ self.now.state.opened }
    {
        self.opened
    }

    /// The report that is kept of an actor.
    pub fn report(&self, actor: ActorName) -> Option<&Report>
        ensures { option_copied result ≡ kept_report self.now.state.kept actor }
    {
        self.reports.get(actor)
    }

    /// The open token of this number.
    pub fn token(&self, number: u64) -> Option<&Token>
        ensures { option_copied result ≡ token_numbered number self.now.state }
    {
        self.tokens.get(number)
    }

    /// The open token of which the actor is a member; `None` exactly where it is a member of none.
    pub fn token_of(&self, actor: ActorName) -> Option<&Token>
        ensures value { option_copied result ≡ token_of actor self.now.state.tokens }
        ensures one { IfSome result (λ t. IsTokenOf self.now.state.tokens actor t.now) }
        ensures none { IfNone result (in_token self.now.state.tokens actor ≡ false) }
    {
        self.tokens.of_member(actor)
    }

    /// There is no news any more.
    pub fn clear_news(&mut self)
        ensures { self.new ≡ with_state (without_news self.old.state) self.old }
    {
        self.news = false;
    }

    /// Takes the memory to hear this note. Nothing changes but room, and a block note alone wants any.
    ///
    /// # Errors
    /// `NoMemory` where memory was refused, and for a block note of an actor not below
    /// `ready_set::PLACES_LIMIT`; nothing has changed then.
    pub fn prepare_hear(&mut self, note: &Note) -> Result<(), NoMemory>
        ensures state { self.new.state ≡ self.old.state }
        ensures room { self.new.room ≡ self.old.room }
        ensures reports { self.old.reports ≤ self.new.reports }
        ensures ok { OnOk result (CanHear note.now self.new) }
        ensures err { OnErr result (self.new ≡ self.old) }
        ensures block { OnErr result (IsBlock note.now) }
    {
        match note {
            Note::Block { actor, .. } => self.reports.reserve(*actor),
            Note::Unblock { .. } | Note::Ack { .. } => Ok(()),
        }
    }

    /// Hears a note for which there is memory. It takes none, and no room is lost.
    pub fn hear_prepared(&mut self, note: Note)
        requires fits { CanHear note self.old }
        ensures state { self.new.state ≡ hear_note note self.old.state }
        ensures room { KeepsRoom self.old.room self.new.room }
        ensures reports { self.new.reports ≡ self.old.reports }
    {
        match note {
            Note::Block { actor, count, held } => {
                self.reports.keep(Report { actor, count, held });
                self.news = true;
            }
            Note::Unblock { actor } => {
                self.reports.drop_of(actor);
                self.tokens.cancel(actor);
                self.news = true;
            }
            Note::Ack { token, actor } => self.tokens.note_ack(token, actor),
        }
    }

    /// Hears a note: it takes the memory, and then hears it.
    ///
    /// # Errors
    /// A block note comes back where `prepare_hear` answers `NoMemory`; the detector stays as it was.
    /// Other notes take no memory.
    pub fn hear(&mut self, note: Note) -> Result<(), Note>
        ensures ok { OnOk result (self.new.state ≡ hear_note note self.old.state) }
        ensures err { OnErr result (self.new ≡ self.old) }
        ensures back { IfErr result (λ n. (n ≡ note) × IsBlock n) }
        ensures room { KeepsRoom self.old.room self.new.room }
    {
        match self.prepare_hear(&note) {
            Ok(()) => {
                self.hear_prepared(note);
                Ok(())
            }
            Err(NoMemory) => Err(note),
        }
    }

    /// The members of the largest closed set among the reports of actors in no open token, rising:
    /// each member's count is at most what the other members tell that they hold on it. A step is one
    /// turn of a loop of this call, or one look-up of a sum.
    ///
    /// # Errors
    /// `NoMemory` where memory was refused.
    pub fn largest_closed_within<L: Ledger>(
        &self,
        alloc: Global,
        steps: &mut Steps<L>,
    ) -> Result<Vec<ActorName>, NoMemory>
        ensures found { IfOk result (λ v. v.items ≡ closed_set self.now.state) }
        ensures can_open { IfOk result (λ v. CanOpen v.items self.now.state) }
        ensures cost { steps.new ≤ steps.old + step_bound self.now.state.kept }
    {
        scan::closed_set(alloc, &self.reports, &self.tokens, steps)
    }

    /// The same, where nobody counts the steps.
    ///
    /// # Errors
    /// `NoMemory` where memory was refused.
    pub fn largest_closed(&self, alloc: Global) -> Result<Vec<ActorName>, NoMemory>
        ensures found { IfOk result (λ v. v.items ≡ closed_set self.now.state) }
        ensures can_open { IfOk result (λ v. CanOpen v.items self.now.state) }
    {
        closed_uncounted::<Brand>(alloc, self, Blank::new(1))
    }

    /// The next token, with these members, and the memory to open it.
    ///
    /// # Errors
    /// `NoMemory` where memory was refused.
    pub fn prepare_token(&mut self, alloc: Global, set: &[ActorName]) -> Result<Token, NoMemory>
        requires few { self.old.state.opened < TOKENS_LIMIT }
        requires rising { IsStrictlySortedBy nat_cmp set.now }
        ensures state { self.new.state ≡ self.old.state }
        ensures token { IfOk result (λ t. t ≡ new_token set.now self.old.state) }
        ensures fits { OnOk result (Fits set.now self.new.room) }
    {
        self.tokens.reserve(set)?;
        Token::new(alloc, self.opened + 1, set)
    }

    /// Opens a token that was prepared. It takes no memory.
    pub fn open_prepared(&mut self, token: Token)
        requires next { token ≡ new_token token.members self.old.state }
        requires apart { CanOpen token.members self.old.state }
        requires fits { Fits token.members self.old.room }
        ensures { self.new.state ≡ open_token token.members self.old.state }
    {
        self.opened = token.number();
        self.tokens.push(token);
    }

    /// Opens a token with these members, and answers its number.
    ///
    /// # Errors
    /// `NoMemory` where memory was refused; nothing has changed then but room.
    pub fn open_token(&mut self, alloc: Global, set: &[ActorName]) -> Result<u64, NoMemory>
        requires few { self.old.state.opened < TOKENS_LIMIT }
        requires apart { CanOpen set.now self.old.state }
        ensures number { IfOk result (λ n. n ≡ suc self.old.state.opened) }
        ensures ok { OnOk result (self.new.state ≡ open_token set.now self.old.state) }
        ensures err { OnErr result (self.new.state ≡ self.old.state) }
    {
        let token = self.prepare_token(alloc, set)?;
        let number = token.number();
        self.open_prepared(token);
        Ok(number)
    }

    /// The lowest token that all its members acknowledged.
    pub fn ready(&self) -> Option<u64>
        ensures value { result ≡ first_acked self.now.state.tokens }
        ensures lowest { IfSome result (IsLowestAcked self.now.state) }
    {
        self.tokens.first_acked()
    }

    /// Whether the token is open and all its members acknowledged.
    pub fn acked(&self, token: u64) -> bool
        ensures { result ≡ acked_by_all self.now.state token }
    {
        match self.tokens.get(token) {
            Some(open) => open.is_acked(),
            None => false,
        }
    }

    /// The members of an open token, rising; `None` exactly where it is not open.
    pub fn members(&self, token: u64) -> Option<&[ActorName]>
        ensures value { option_map (λ ms. ms.now) result
            ≡ option_map (λ t. t.members) (token_numbered token self.now.state) }
        ensures rising { IfSome result (λ ms. IsStrictlySortedBy nat_cmp ms.now) }
    {
        match self.tokens.get(token) {
            Some(open) => Some(open.members()),
            None => None,
        }
    }

    /// The members of an open token that all of them acknowledged, rising; `None` exactly where it is
    /// not open, or one of them did not.
    pub fn acked_members(&self, token: u64) -> Option<&[ActorName]>
        ensures value { option_map (λ ms. ms.now) result
            ≡ option_map (λ t. t.members) (acked_numbered token self.now.state) }
        ensures acked { is_some result ≡ acked_by_all self.now.state token }
        ensures rising { IfSome result (λ ms. IsStrictlySortedBy nat_cmp ms.now) }
    {
        match self.tokens.get(token) {
            Some(open) if open.is_acked() => Some(open.members()),
            _ => None,
        }
    }

    /// The kept reports of the members of an open token, in the order of the members; `None` exactly
    /// where it is not open.
    ///
    /// # Errors
    /// `NoMemory` where memory was refused.
    pub fn token_reports(
        &self,
        alloc: Global,
        token: u64,
    ) -> Result<Option<Vec<KeptReport>>, NoMemory>
        ensures { IfOk result (λ found. option_map (λ v. v.items) found ≡ option_map
            (λ t. reports_of self.now.state.kept t.members) (token_numbered token self.now.state)) }
    {
        match self.tokens.get(token) {
            Some(open) => Ok(Some(self.reports.of_all(alloc, open.members())?)),
            None => Ok(None),
        }
    }

    /// Closes an open token; the reports of its members go too.
    pub fn close(&mut self, token: u64)
        requires { IsSome (token_numbered token self.old.state) }
        ensures { IfSome (token_numbered token self.old.state)
            (λ t. self.new.state ≡ close_token t self.old.state) }
    {
        if let Some(closed) = self.tokens.take(token) {
            self.reports.drop_all(closed.members());
        }
    }
}
