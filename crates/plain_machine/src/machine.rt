// The machine that frees nothing.

ghost use Rattle.std.specs.Prelude.{◌≡◌, ◌↔◌, ◌<◌, length, Contains, IfOk, IfErr, MatchOption, OnOk, OnErr};
ghost use Rattle.std.specs.List.Sorted.{IsStrictlySortedBy};
ghost use Rattle.orca_names.specs.Names.{thing_cmp};
ghost use Rattle.orca_names.specs.declared.names.Thing.{Thing as thing};
ghost use Rattle.event_rule.specs.Runs.{Goes, NotEnabled, IsFirst, IsQuiet};
ghost use Rattle.plain_rules.specs.Run.{plain_next};
ghost use Rattle.plain_rules.specs.Machine.{objects_made, plain_take, plain_go, start_of};
ghost use Rattle.plain_rules.specs.Reach.{IsReachable};
ghost use Rattle.plain_machine.specs.Faults.{Faulted};
ghost use Rattle.orca_names.specs.declared.limits.TheConstants.{BOOK_LIMIT};

use crate::actor::first_actor;
use crate::events::go_in;
use crate::reach::reached;
use crate::table::{Table, count_objects};
use behaviour_check::Checked;
use event_rule::Event;
use orca_names::{ActorName, NoMemory, Thing, Value};
use std::alloc::Global;
use std::marker::Model;
use thiserror::Error;
use turn_step::Turn;

/// Why the plain machine refused an event.
#[derive(Clone, Copy, Debug, PartialEq, Eq, Error)]
pub enum PlainFault {
    /// The event is not enabled.
    #[error("the event is not enabled")]
    NotReady,
    /// The actor would make one more, and as many as there may be are made.
    #[error("all actors are made")]
    ActorsFull { actor: ActorName },
    /// Memory was refused.
    #[error("out of memory")]
    NoMemory,
}

/// The machine that frees nothing, seen by contracts as its state: all actors ever made, with their
/// rows, and what was printed. It keeps room for a turn.
#[derive(Drop)]
pub struct Plain<'a> {
    code: &'a Checked,
    actors: Table,
    prints: Vec<Value>,
    steps: u64,
    turn: Turn,
}

impl<'a> Model for Plain<'a> {
    ghost use Rattle.plain_rules.specs.Machine as plain;
    ghost use Rattle.plain_machine.specs.State.{state_of, IsSound};

    ghost Value = { plain.PlainState };

    ghost view = { λ m. state_of m.code.now m.actors m.prints.items m.steps };

    ghost invariant = { λ m. IsSound (state_of m.code.now m.actors m.prints.items m.steps) };
}

impl<'a> Plain<'a> {
    /// The machine before its first event: one actor of the first kind, with the letter `start`.
    ///
    /// # Errors
    /// `NoMemory` where memory was refused.
    pub fn start(alloc: Global, code: &'a Checked) -> Result<Plain<'a>, NoMemory>
        ensures { IfOk result (λ m. m ≡ start_of code.now) }
    {
        let mut actors = Table::new(alloc);
        actors.push(first_actor(alloc, code.program())?)?;
        Ok(Plain {
            code,
            actors,
            prints: Vec::new(alloc),
            steps: 0,
            turn: Turn::new(alloc),
        })
    }

    /// The actor takes its first letter.
    ///
    /// # Errors
    /// `NotReady` exactly where the actor was not made, has a frame or has no letter; nothing
    /// changes then. It takes no memory.
    pub fn take(&mut self, a: ActorName) -> Result<(), PlainFault>
        requires { self.old.steps < BOOK_LIMIT }
        ensures ok { OnOk result (plain_take self.old a ≡ Goes self.new) }
        ensures fault { IfErr result (λ e. (e ≡ PlainFault.NotReady)
            × (plain_take self.old a ≡ NotEnabled)) }
        ensures same { OnErr result (self.new ≡ self.old) }
    {
        if self.actors.take(self.code, a) {
            self.steps += 1;
            Ok(())
        } else {
            Err(PlainFault::NotReady)
        }
    }

    /// The actor's frame runs up to and with its next act.
    ///
    /// # Errors
    /// `NotReady` exactly where the actor was not made or has no frame; `ActorsFull` exactly where
    /// its act would make an actor and 65,536 are made; `NoMemory` where memory was refused. Nothing
    /// changes then.
    pub fn go(&mut self, alloc: Global, a: ActorName) -> Result<(), PlainFault>
        requires { self.old.steps < BOOK_LIMIT }
        ensures ok { OnOk result (plain_go self.old a ≡ Goes self.new) }
        ensures fault { IfErr result (Faulted (plain_go self.old a) a) }
        ensures same { OnErr result (self.new ≡ self.old) }
    {
        match go_in(
            alloc,
            self.code,
            &mut self.actors,
            &mut self.prints,
            &mut self.turn,
            a,
        ) {
            Ok(()) => {
                self.steps += 1;
                Ok(())
            }
            Err(fault) => Err(fault),
        }
    }

    /// What was printed, in its order.
    pub fn prints(&self) -> &[Value]
        ensures { result.now ≡ self.now.prints }
    {
        self.prints.as_slice()
    }

    /// How many actors were made.
    pub fn made(&self) -> u64
        ensures { result ≡ length self.now.actors }
    {
        self.actors.len() as u64
    }

    /// How many objects were made.
    pub fn objects_made(&self) -> u64
        ensures { result ≡ objects_made self.now.actors }
    {
        count_objects(self.actors.as_slice())
    }

    /// The first of the enabled events, in the order in which one worker does them; `None` exactly
    /// where none is enabled. It takes no memory.
    pub fn first_enabled(&self) -> Option<Event>
        ensures { MatchOption result (IsQuiet plain_next self.now) (IsFirst plain_next self.now) }
    {
        self.actors.first_event()
    }

    /// All that is reachable, in the order of things: what a path leads to from an actor that is
    /// pinned, has a frame or has a letter.
    ///
    /// # Errors
    /// `NoMemory` where memory was refused.
    pub fn reach(&self, alloc: Global) -> Result<Vec<Thing>, NoMemory>
        ensures exact { IfOk result (λ found. (x : thing) → Contains found.items x
            ↔ IsReachable self.now x) }
        ensures rising { IfOk result (λ found. IsStrictlySortedBy thing_cmp found.items) }
    {
        reached(alloc, self.actors.as_slice())
    }

    /// How many events were done.
    pub fn steps(&self) -> u64
        ensures { result ≡ self.now.steps }
    {
        self.steps
    }
}
