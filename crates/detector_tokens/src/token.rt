// An open token.

ghost use Rattle.std.specs.Prelude.{◌≡◌, [], IfOk, length};
ghost use Rattle.letter_kinds.specs.Detector.{all_acked, has, note_ack};
ghost use Rattle.detector_tokens.specs.Marks.{picked};
ghost use Rattle.std.specs.List.Sorted.{IsStrictlySortedBy};
ghost use Rattle.std.specs.Ordering.{nat_cmp};

use crate::names::place_of;
use orca_names::{ActorName, NoMemory};
use std::alloc::Global;
use std::marker::Model;

/// A closed set of actors that are asked whether they are still blocked.
#[derive(Debug, Drop)]
pub struct Token {
    number: u64,
    members: Vec<ActorName>,
    /// For each member, whether it acknowledged.
    acked: Vec<bool>,
    /// How many members have not.
    missing: usize,
}

impl Model for Token {
    ghost use Rattle.letter_kinds.specs.Detector.{Token as Told};
    ghost use Rattle.detector_tokens.specs.Marks.{picked, AreMarks};

    ghost Value = { Told };

    ghost view = { λ t. record {
      number = t.number;
      members = t.members.items;
      acked = picked t.members.items t.acked.items;
    } };

    ghost invariant = { λ t. AreMarks t.members.items t.acked.items t.missing };
}

impl Token {
    /// A token of these members, of which none acknowledged.
    pub fn new(alloc: Global, number: u64, members: &[ActorName]) -> Result<Token, NoMemory>
        requires { IsStrictlySortedBy nat_cmp members.now }
        ensures { IfOk result (λ t. t ≡ record { number = number; members = members.now; acked = [] }) }
    {
        Ok(Token {
            number,
            members: Vec::from_slice(alloc, members)?,
            acked: vec![in alloc; false; members.len()]?,
            missing: members.len(),
        })
    }

    /// The number, which no other token has or will have.
    pub fn number(&self) -> u64
        ensures { result ≡ self.now.number }
    {
        self.number
    }

    /// The members, rising.
    pub fn members(&self) -> &[ActorName]
        ensures value { result.now ≡ self.now.members }
        ensures rising { IsStrictlySortedBy nat_cmp self.now.members }
    {
        &self.members
    }

    /// For each member, whether it acknowledged.
    pub fn marks(&self) -> &[bool]
        ensures long { length result.now ≡ length self.now.members }
        ensures picked { picked self.now.members result.now ≡ self.now.acked }
    {
        &self.acked
    }

    /// Whether the actor is a member.
    pub(crate) fn has(&self, actor: ActorName) -> bool
        ensures { result ≡ has self.now.members actor }
    {
        place_of(&self.members, actor).is_some()
    }

    /// Whether all members acknowledged.
    pub fn is_acked(&self) -> bool
        ensures { result ≡ all_acked self.now }
    {
        self.missing == 0
    }

    /// Notes that the actor acknowledged, if it is a member.
    pub(crate) fn note_ack(&mut self, actor: ActorName)
        ensures { self.new ≡ note_ack self.old.number actor self.old }
    {
        if let Some(i) = place_of(&self.members, actor) {
            if !self.acked[i] {
                self.acked[i] = true;
                self.missing -= 1;
            }
        }
    }
}
