// The open tokens.

ghost use Rattle.std.specs.Prelude.{◌≡◌, ℕ, ◌<◌, ◌==◌, ◌++◌, ◌∷◌, [], false, true, None, Some, IsSome, IfSome, IfNone, OnErr, OnOk, filter, map, not, is_some, length, slice_get};
ghost use Rattle.std.specs.List.{AllByRecursion, find};
ghost use Rattle.std.specs.Option.{option_copied};
ghost use Rattle.letter_kinds.specs.Detector.{has, in_token, note_ack};
ghost use Rattle.detector_tokens.specs.Open.{first_acked, first_with, HasMemberAt, IsNumberedAt, IsTokenOf, IsTold, lower_with, numbers, token_of};
ghost use Rattle.std.specs.List.Sorted.{IsStrictlySortedBy};
ghost use Rattle.std.specs.Ordering.{nat_cmp};
ghost use Rattle.detector_tokens.specs.Room.{Fits, KeepsRoom, nothing_open};

use crate::token::Token;
use crate::told::Told;
use orca_names::{ActorName, NoMemory};
use std::alloc::Global;
use std::marker::Model;

/// Where the token of this number stands.
fn place_of_token(tokens: &[Token], number: u64) -> Option<usize>
    requires { IsStrictlySortedBy nat_cmp (numbers tokens.now) }
    ensures some { IfSome result (IsNumberedAt tokens.now number) }
    ensures none { IfNone result (find (λ t. t.number == number) tokens.now ≡ None) }
{
    tokens
        .binary_search_by_key(&number, |token| token.number())
        .ok()
}

/// The lowest token whose members all acknowledged.
fn first_acked(tokens: &[Token]) -> Option<u64>
    ensures { result ≡ first_acked tokens.now }
{
    tokens
        .iter()
        .find(|token| token.is_acked())
        .map(|token| token.number())
}

/// The lower of two numbers, where there is a first one.
fn lower_with(first: Option<u64>, number: u64) -> u64
    ensures { result ≡ lower_with first number }
{
    match first {
        Some(first) => first.min(number),
        None => number,
    }
}

/// The number of the first token that is acknowledged, once this one stands behind the others.
fn first_with(first: Option<u64>, token: &Token) -> Option<u64>
    ensures { result ≡ first_with first token.now }
{
    match first {
        None if token.is_acked() => Some(token.number()),
        first => first,
    }
}

/// Where the token stands of which the actor is a member, by the numbers that actors were told.
fn place_of_member(tokens: &[Token], told: &Told, actor: ActorName) -> Option<usize>
    requires numbered { IsStrictlySortedBy nat_cmp (numbers tokens.now) }
    requires told { AllByRecursion (IsTold (slice_get told.now)) tokens.now }
    ensures some { IfSome result (HasMemberAt tokens.now actor) }
    ensures none { IfNone result (in_token tokens.now actor ≡ false) }
{
    let number = told.get(actor)?;
    let i = place_of_token(tokens, number)?;
    if tokens[i].has(actor) { Some(i) } else { None }
}

/// The open tokens, in rising order of their numbers, no actor a member of two; and for which others
/// there is memory.
#[derive(Debug, Drop)]
pub struct Tokens {
    open: Vec<Token>,
    /// Each member is told its token's number; what others are told means nothing.
    told: Told,
    /// The lowest number of a token that all its members acknowledged.
    ready: Option<u64>,
}

impl Model for Tokens {
    ghost use Rattle.std.specs.Prelude.{◌-◌, length, slice_get, vec_capacity, vec_len};
    ghost use Rattle.detector_tokens.specs.Open.{AreIndexed};
    ghost use Rattle.detector_tokens.specs.Room.{TokensValue};

    ghost Value = { TokensValue };

    ghost view = { λ t. record {
      list = t.open.items;
      room = record { tokens = vec_capacity t.open - vec_len t.open; actors = length t.told };
    } };

    ghost invariant = { λ t. AreIndexed t.open.items (slice_get t.told) t.ready };
}

impl Tokens {
    /// No token. It takes no memory.
    pub fn new(alloc: Global) -> Tokens
        ensures { result ≡ nothing_open }
    {
        Tokens {
            open: Vec::new(alloc),
            told: Told::new(alloc),
            ready: None,
        }
    }

    /// The token of this number.
    pub fn get(&self, number: u64) -> Option<&Token>
        ensures { option_copied result ≡ find (λ t. t.number == number) self.now.list }
    {
        match place_of_token(&self.open, number) {
            Some(i) => Some(&self.open[i]),
            None => None,
        }
    }

    /// The token of which the actor is a member; `None` exactly where it is a member of none.
    pub fn of_member(&self, actor: ActorName) -> Option<&Token>
        ensures value { option_copied result ≡ token_of actor self.now.list }
        ensures one { IfSome result (λ t. IsTokenOf self.now.list actor t.now) }
        ensures none { IfNone result (in_token self.now.list actor ≡ false) }
    {
        match place_of_member(&self.open, &self.told, actor) {
            Some(i) => Some(&self.open[i]),
            None => None,
        }
    }

    /// Whether the actor is a member of one.
    pub fn has_member(&self, actor: ActorName) -> bool
        ensures { result ≡ in_token self.now.list actor }
    {
        !self.open.is_empty() && place_of_member(&self.open, &self.told, actor).is_some()
    }

    /// The lowest number of a token that all its members acknowledged.
    pub fn first_acked(&self) -> Option<u64>
        ensures value { result ≡ first_acked self.now.list }
        ensures numbered { IsStrictlySortedBy nat_cmp (numbers self.now.list) }
    {
        self.ready
    }

    /// Takes memory for a further token of these members, but for the token itself.
    ///
    /// # Errors
    /// `NoMemory` where memory was refused.
    pub fn reserve(&mut self, members: &[ActorName]) -> Result<(), NoMemory>
        requires rising { IsStrictlySortedBy nat_cmp members.now }
        ensures list { self.new.list ≡ self.old.list }
        ensures ok { OnOk result (Fits members.now self.new.room) }
    {
        self.told.reserve(members)?;
        self.open.reserve(1)?;
        Ok(())
    }

    /// A further token, of a higher number. It takes no memory.
    pub fn push(&mut self, token: Token)
        requires above { AllByRecursion (λ t. t.number < token.number) self.old.list }
        requires apart { (m : ℕ) → has token.members m ≡ true → in_token self.old.list m ≡ false }
        requires fits { Fits token.members self.old.room }
        ensures { self.new.list ≡ self.old.list ++ token ∷ [] }
    {
        self.told.tell(token.members(), token.number());
        self.ready = first_with(self.ready, &token);
        self.open.push_reserved(token);
    }

    /// The actor acknowledged the token of this number.
    pub fn note_ack(&mut self, number: u64, actor: ActorName)
        ensures list { self.new.list ≡ map (note_ack number actor) self.old.list }
        ensures room { KeepsRoom self.old.room self.new.room }
    {
        if let Some(i) = place_of_token(&self.open, number) {
            let token = &mut self.open[i];
            token.note_ack(actor);
            if token.is_acked() {
                self.ready = Some(lower_with(self.ready, number));
            }
        }
    }

    /// Takes out the token at this place.
    fn take_at(&mut self, i: usize) -> Token
        requires { i < length self.old.list }
        ensures token { slice_get self.old.list i ≡ Some result }
        ensures others { self.new.list ≡ filter (λ t. not (t.number == result.number)) self.old.list }
        ensures room { KeepsRoom self.old.room self.new.room }
    {
        let token = self.open.remove(i);
        if self.ready == Some(token.number()) {
            self.ready = first_acked(&self.open);
        }
        token
    }

    /// Takes out the token of which the actor is a member.
    pub fn cancel(&mut self, actor: ActorName)
        ensures list { self.new.list ≡ filter (λ t. not (has t.members actor)) self.old.list }
        ensures room { KeepsRoom self.old.room self.new.room }
    {
        if let Some(i) = place_of_member(&self.open, &self.told, actor) {
            self.take_at(i);
        }
    }

    /// Takes out the token of this number.
    pub fn take(&mut self, number: u64) -> Option<Token>
        ensures token { result ≡ find (λ t. t.number == number) self.old.list }
        ensures others { self.new.list ≡ filter (λ t. not (t.number == number)) self.old.list }
    {
        match place_of_token(&self.open, number) {
            Some(i) => Some(self.take_at(i)),
            None => None,
        }
    }
}
