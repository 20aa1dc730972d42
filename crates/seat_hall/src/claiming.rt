// Claims, which take cells out of a hall, and their ends.

ghost use Rattle.letter_kinds.specs.Telling.{TellsNothing};
ghost use Rattle.actor_cell.specs.Tells.{Tells};
ghost use Rattle.std.specs.Prelude.{◌≡◌, true, IfErr, IfNone, IfOk, IfSome, None, OnErr, OnOk, Some};
ghost use Rattle.hall_rules.specs.Causes.{event_at};
ghost use Rattle.seat_hall.specs.declared.item.Item.TheVariants.{Ended};
ghost use Rattle.seat_hall.specs.Answers.{Lends, NoAct, RefusesClaim, is_act};
ghost use Rattle.seat_hall.specs.Halls.{says};
ghost use Rattle.seat_hall.specs.Log.{after, claim_cause, claim_for, claim_in, state_in};
ghost use Rattle.seat_hall.specs.Passes.{HasIn};

use crate::hall::Hall;
use crate::item::Item;
use crate::rooms::CellRoom;
use crate::taken::Taken;
use event_rule::Event;
use hall_rules::{actor_of, book_options, claimable};
use orca_names::ActorName;
use std::alloc::Global;
use work_board::Refuse;

// The pass whose claim on the actor is out.
fn claim_in(claims: &[Option<u32>], a: ActorName) -> Option<u32>
    ensures { result ≡ claim_in claims.now a }
{
    *claims.get(a.0 as usize)?
}

/// The pass whose claim on the event's actor is out, if it has one.
pub(crate) fn claim_for(claims: &[Option<u32>], e: &Event) -> Option<u32>
    ensures { result ≡ claim_for e.now claims.now }
{
    claim_in(claims, actor_of(e)?)
}

// The event takes a letter, or goes on with a turn.
fn is_act(e: &Event) -> bool
    ensures { result ≡ is_act e.now }
{
    matches!(e, Event::Take(_) | Event::Go(_))
}

impl<'a> Hall<'a> {
    /// The first enabled event of an actor on which a claim is granted.
    pub(crate) fn ready(&self, a: ActorName) -> Result<Event, Refuse>
        ensures ok { OnOk result (claim_cause self.now.logged a ≡ None) }
        ensures event { IfOk result (λ e. event_at (state_in self.now.logged) a ≡ Some e) }
        ensures refused { IfErr result (λ refuse. RefusesClaim a refuse self.now.logged) }
    {
        claimable(&self.orca, claim_in(&self.claims, a), a)
    }

    /// Claims the actor's first enabled event, in the order of going, taking a letter, collecting,
    /// leaving and blocking: the actor's cell leaves the hall. It takes no memory.
    ///
    /// # Errors
    /// `Unknown` exactly where the actor was not made; else `Gone` exactly where it is not present any
    /// more; else `Busy` exactly where a claim on it is out, the pass's own included; else `NotReady`
    /// exactly where it has no enabled event.
    pub(crate) fn claim(&mut self, pass: u32, a: ActorName) -> Result<Taken<'a>, Refuse>
        ensures ok { IfOk result (λ taken. Lends pass a taken self.old.logged self.new) }
        ensures refused { IfErr result (λ refuse. RefusesClaim a refuse self.old.logged) }
        ensures same { OnErr result (self.new ≡ self.old) }
    {
        match self.ready(a) {
            Ok(event) => Ok(self.lend(pass, a, event)),
            Err(refuse) => Err(refuse),
        }
    }

    /// As `claim`, where the event is an act: to take a letter, or a segment of a turn. Else there is no
    /// claim.
    pub(crate) fn claim_act(&mut self, pass: u32, a: ActorName) -> Option<Taken<'a>>
        ensures some { IfSome result (λ taken. Lends pass a taken self.old.logged self.new) }
        ensures act { IfSome result (λ taken. is_act taken.event ≡ true) }
        ensures none { IfNone result (NoAct a self.old.logged) }
        ensures same { IfNone result (self.new ≡ self.old) }
    {
        match self.ready(a) {
            Ok(event) => {
                if is_act(&event) {
                    Some(self.lend(pass, a, event))
                } else {
                    None
                }
            }
            Err(_refuse) => None,
        }
    }

    // Lends the cell of an actor on which a claim is granted, for this event.
    fn lend(&mut self, pass: u32, a: ActorName, event: Event) -> Taken<'a>
        requires granted { claim_cause self.old.logged a ≡ None }
        requires event { event_at (state_in self.old.logged) a ≡ Some event }
        ensures { Lends pass a result self.old.logged self.new }
    {
        // The program was checked.
        let _program = self.code.program();
        let options = book_options(&self.book);
        let Some(cell) = self.orca.lift(a) else {
            unreachable!()
        };
        let cell = self.rooms.fill(cell);
        self.claims[a.0 as usize] = Some(pass);
        self.last = Item::Claimed { pass, actor: a };
        Taken {
            code: self.code,
            options,
            event,
            cell,
            at: self.book.len(),
        }
    }

    /// Puts the pass's cell back as it was, and ends the claim. It takes no memory.
    pub(crate) fn put_back(&mut self, alloc: Global, pass: u32, room: CellRoom)
        requires has { HasIn pass room.heap.owner room self.old.logged }
        requires untold { TellsNothing (Tells room) }
        ensures { let i = Ended pass room.heap.owner in
            self.new ≡ says (after self.old.logged i) i }
    {
        let a = room.owner();
        let cell = self.rooms.empty(alloc, self.code, room);
        self.orca.put_back(a, cell);
        self.claims[a.0 as usize] = None;
        self.last = Item::Ended { pass, actor: a };
    }
}
