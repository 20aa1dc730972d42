// The claims that are out.

ghost use Rattle.std.specs.Prelude.{◌≡◌, ◌==◌, ◌++◌, ◌∷◌, [], length, not, OnErr, OnOk};
ghost use Rattle.std.specs.List.{list_any};
ghost use Rattle.hall_rules.specs.Claims.{holder, holder_for, is_anothers, is_claimed, without};

use event_rule::Event;
use hall_rules::{Claim, actor_of};
use orca_core::SetAside;
use orca_names::{ActorName, NoMemory};
use std::alloc::Global;
use std::marker::Model;

/// The claims that are out, in the order in which they were made, seen by contracts as their list.
#[derive(Drop)]
pub(crate) struct Claims {
    claims: Vec<Claim>,
}

impl Model for Claims {
    ghost use Rattle.std.specs.Prelude.{List};
    ghost use Rattle.hall_rules.specs.declared.claim.Claim.{Claim};

    ghost Value = { List Claim };

    ghost view = { λ c. c.claims.items };
}

// Whether a claim of this pass is another's than the one that asks.
fn is_anothers(asker: Option<u32>, pass: u32) -> bool
    ensures { result ≡ is_anothers asker pass }
{
    match asker {
        Some(own) => pass != own,
        None => true,
    }
}

impl Claims {
    /// No claims. It takes no memory.
    pub(crate) fn new(alloc: Global) -> Claims
        ensures { result ≡ [] }
    {
        Claims {
            claims: Vec::new(alloc),
        }
    }

    pub(crate) fn is_empty(&self) -> bool
        ensures { result ≡ (length self.now == 0) }
    {
        self.claims.is_empty()
    }

    /// The pass, other than the one that asks, whose claim on the actor is out.
    pub(crate) fn holder(&self, asker: Option<u32>, a: ActorName) -> Option<u32>
        ensures { result ≡ holder asker a self.now }
    {
        let found = self
            .claims
            .iter()
            .find(|claim| claim.actor == a && is_anothers(asker, claim.pass));
        match found {
            Some(claim) => Some(claim.pass),
            None => None,
        }
    }

    /// The one on the event's actor.
    pub(crate) fn holder_for(&self, asker: Option<u32>, e: &Event) -> Option<u32>
        ensures { result ≡ holder_for asker e.now self.now }
    {
        self.holder(asker, actor_of(e)?)
    }

    /// One claim more.
    pub(crate) fn push(&mut self, claim: Claim) -> Result<(), NoMemory>
        ensures ok { OnOk result (self.new ≡ self.old ++ claim ∷ []) }
        ensures err { OnErr result (self.new ≡ self.old) }
    {
        self.claims.push(claim)?;
        Ok(())
    }

    /// The pass has no claim on the actor any more.
    pub(crate) fn end(&mut self, pass: u32, a: ActorName)
        ensures { self.new ≡ without pass a self.old }
    {
        self.claims
            .retain(|claim| !(claim.actor == a && claim.pass == pass));
    }
}

/// An actor on which a claim is out is set aside.
impl SetAside for Claims {
    ghost is_aside = { is_claimed };

    fn is_aside(&self, a: ActorName) -> bool {
        self.claims.iter().any(|claim| claim.actor == a)
    }
}
