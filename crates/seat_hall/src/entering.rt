// Events become entries of a hall's book.

ghost use Rattle.std.specs.Prelude.{◌≡◌, ◌<◌, false, true, IfErr, IfOk, None, OnErr, OnOk, Some, vec_capacity, vec_len};
ghost use Rattle.std.specs.Option.{ForSome};
ghost use Rattle.orca_parts.specs.Away.{is_out_for};
ghost use Rattle.orca_core.specs.Machine.{IsFoundIn};
ghost use Rattle.work_board.specs.Answered.{is_evaluated, segment};
ghost use Rattle.seat_hall.specs.declared.item.Item.TheVariants.{Ended, Entered};
ghost use Rattle.seat_hall.specs.Answers.{Enters, EntersOr, IsFoundOf, IsShort, RefusesFirst};
ghost use Rattle.seat_hall.specs.Found.{IsFoundOn};
ghost use Rattle.seat_hall.specs.Halls.{says};
ghost use Rattle.seat_hall.specs.Log.{after, grown, state_in};
ghost use Rattle.seat_hall.specs.Passes.{IsClaimOf};

use crate::claiming::claim_for;
use crate::hall::Hall;
use crate::item::Item;
use crate::taken::Taken;
use actor_cell::Found;
use event_rule::Event;
use hall_rules::{actor_of, early_refusal, enter};
use orca_core::Orca;
use orca_names::ActorName;
use std::alloc::Global;
use work_board::{Committed, Refuse};

/// Of how many objects, and of how many things of others, a collection is short at most.
const FEW: usize = 64;

// A place for claims on the actor that was made, if one was.
fn grow(claims: &mut Vec<Option<u32>>, made: u64)
    requires { vec_len claims.old < vec_capacity claims.old }
    ensures { claims.new.items ≡ grown made claims.old.items }
{
    if (claims.len() as u64) < made {
        let Ok(()) = claims.push(None) else {
            unreachable!()
        };
    }
}

// What was found is of the cell that is at home: the machine may do it.
fn may_install(orca: &Orca<'_>, e: &Event, found: &Option<Box<Found>>)
    requires home { is_out_for orca.now.out e.now ≡ false }
    requires found { let s = orca.now.state in
        ForSome found.now (λ known. IsFoundOf s.options s.program s.actors e.now known.value) }
    ensures { ForSome found.now (λ known. IsFoundIn e.now known.value orca.now) }
{
    if let Some(a) = actor_of(e) {
        let _cell = orca.cell(a);
    }
}

impl<'a> Hall<'a> {
    /// Makes the event an entry of the pass, unless a claim on its actor is out. What was found of the
    /// actor's cell is not evaluated again.
    ///
    /// # Errors
    /// Of an actor's event `Unknown` exactly where the actor was not made; else `Gone` exactly where it
    /// is not present any more; else `Busy` exactly where a claim on it is out. Then `NotReady` exactly
    /// where the event is not enabled; else `Budget` exactly where the book is as long as the budget;
    /// else `Full` exactly where the event's actor would make one actor too many. `NoMemory` where
    /// memory was refused. All stays as it was then.
    pub(crate) fn enter(
        &mut self,
        alloc: Global,
        pass: u32,
        e: Event,
        found: &mut Option<Box<Found>>,
    ) -> Result<Committed, Refuse>
        requires { let l = self.old.logged in ForSome found.old
            (λ known. IsFoundOf l.options l.program (state_in l).actors e known.value) }
        ensures { EntersOr None pass e self.old.logged self.old result self.new }
    {
        let holder = claim_for(&self.claims, &e);
        if let Some(refuse) = early_refusal(&self.orca, &self.book, self.budget, holder, &e) {
            return Err(refuse);
        }
        if self.claims.reserve(1).is_err() {
            return Err(Refuse::NoMemory);
        }
        let actors = self.orca.made();
        let Ok(()) = self.rooms.provide(alloc, self.code, actors) else {
            return Err(Refuse::NoMemory);
        };
        may_install(&self.orca, &e, found);
        match enter(alloc, &mut self.orca, &mut self.book, &e, found) {
            Ok(done) => {
                grow(&mut self.claims, self.orca.made());
                self.last = Item::Entered { pass, event: e };
                Ok(done)
            }
            Err(refuse) => Err(refuse),
        }
    }

    // Whether the actor's event is short to do: it is no segment of a turn, and no collection of many things.
    fn is_short(&self, a: ActorName, e: &Event) -> bool
        ensures short { result ≡ true → segment e.now 0 ≡ None }
        ensures long { result ≡ false → is_evaluated e.now ≡ true }
    {
        match e {
            Event::Go(_) => false,
            Event::Collect(_) => match self.orca.cell(a) {
                Some(cell) => cell.heap.len() <= FEW && cell.foreign.len() <= FEW,
                None => false,
            },
            _ => true,
        }
    }

    /// Makes the first event of an actor on which a claim would be granted an entry of the pass, where it is
    /// short to do, and tells it.
    ///
    /// # Errors
    /// `NotReady` where it isn't short, and else as `claim` and `enter`. All stays as it was then.
    pub(crate) fn enter_first(
        &mut self,
        alloc: Global,
        pass: u32,
        a: ActorName,
    ) -> Result<(Event, Committed), Refuse>
        ensures first { IfOk result (λ made. IsShort a made.0 self.old.logged) }
        ensures ok { IfOk result (λ made. Enters None pass made.0 made.1 self.old.logged) }
        ensures entered { IfOk result (λ made.
            self.new ≡ says (after self.old.logged (Entered pass made.0)) (Entered pass made.0)) }
        ensures refused { IfErr result (λ refuse. RefusesFirst a refuse self.old.logged) }
        ensures same { OnErr result (self.new ≡ self.old) }
    {
        match self.ready(a) {
            Ok(e) => {
                if !self.is_short(a, &e) {
                    return Err(Refuse::NotReady);
                }
                match self.enter(alloc, pass, e, &mut None) {
                    Ok(done) => Ok((e, done)),
                    Err(refuse) => Err(refuse),
                }
            }
            Err(refuse) => Err(refuse),
        }
    }

    /// Puts the cell back, and makes its event, of which this was found, an entry of the pass. Whatever it
    /// answers, the claim has ended.
    ///
    /// # Errors
    /// As `enter`, but for `Busy`, which comes exactly where another pass has a claim on the actor.
    pub(crate) fn commit(
        &mut self,
        alloc: Global,
        pass: u32,
        taken: Taken<'a>,
        found: &mut Option<Box<Found>>,
    ) -> Result<Committed, Refuse>
        requires claim { IsClaimOf pass taken self.old.logged }
        requires found { ForSome found.old (λ known. IsFoundOn taken known.value) }
        ensures { let i = Ended pass taken.entry.cell.heap.owner in let l = self.old.logged in
            EntersOr (Some pass) pass taken.entry.event l (says (after l i) i) result self.new }
    {
        let e = taken.event;
        self.put_back(alloc, pass, taken.cell);
        self.enter(alloc, pass, e, found)
    }
}
