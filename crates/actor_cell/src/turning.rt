// What a turn is found to do.

ghost use Rattle.std.specs.Prelude.{◌≡◌, IsSome, None, OnOk};
ghost use Rattle.letter_kinds.specs.Letters.{App as app, as_letter};
ghost use Rattle.letter_kinds.specs.Load.{as_load};
ghost use Rattle.letter_kinds.specs.Telling.{brought_in};
ghost use Rattle.actor_cell.specs.Awaiting.{awaited_by};

use behaviour_code::Name;
use letter_kinds::{Amounts, Letter, Load, SentArgs};
use orca_names::{ActorName, Args, NoMemory, Value};
use plain_list::Listed;
use reach_walk::ThingList;
use std::alloc::Global;
use std::mem;

/// What an actor does where its turn stops. What it sends and what it mints stand beside.
#[derive(Clone, Copy, Debug)]
pub enum Doing {
    /// It sends an actor a letter, which starts a behaviour.
    Post { to: ActorName, behaviour: Name },
    /// It lacks some of what a letter would load: its counts of the things that it mints rise, and an
    /// increment tells their owner. Nothing of the turn is kept.
    Mint { owner: ActorName },
    /// It makes an actor of a kind, which the register becomes.
    New { kind: u32, register: u8 },
    /// It prints a value.
    Print { value: Value },
    /// Its behaviour ends.
    End,
    /// Its behaviour ends at once: nothing but labels was left of it, and no registers or fields are
    /// copied.
    Rest,
}

/// A letter at which a turn stopped, and which its actor can't send yet: it lacks some of what the letter
/// loads, and mints that first, for one owner after the other.
#[derive(Clone, Copy, Debug)]
pub struct Awaited {
    pub actor: ActorName,
    pub to: ActorName,
    pub behaviour: Name,
}

/// What was found of an actor's turn, beside what the turn itself left: the place where it stopped,
/// and what the actor does there. It is room that serves again for the next turn: what was found is
/// written in place, since a letter is large.
#[derive(Drop)]
pub struct Turned {
    pub place: u32,
    pub doing: Doing,
    /// The arguments of the letter that it sends.
    pub args: Args,
    /// What this letter loads.
    pub load: Load,
    /// The rows that this letter carries uncounted.
    pub rows: Load,
    /// What it mints.
    pub things: Amounts,
    /// Room in which the things of a load are found.
    pub seen: ThingList,
    /// The letter that it can send once it minted what this loads, with the arguments and the things found.
    pub awaited: Option<Awaited>,
    /// Memory for the arguments of the next letter.
    pub room: Option<SentArgs>,
}

impl Turned {
    /// Room for what is found of a turn. It takes no memory.
    pub fn new(alloc: Global) -> Turned {
        Turned {
            place: 0,
            doing: Doing::End,
            args: Args::new(),
            load: Load::new(alloc),
            rows: Load::new(alloc),
            things: Listed::new(alloc),
            seen: ThingList::new(alloc),
            awaited: None,
            room: None,
        }
    }

    /// The letter that this actor awaits, if it awaits one.
    #[inline(always)]
    pub fn awaits(&self, actor: ActorName) -> Option<Awaited>
        ensures { result ≡ awaited_by actor self.now.awaited }
    {
        match self.awaited {
            Some(letter) => if letter.actor == actor {
                Some(letter)
            } else {
                None
            },
            None => None,
        }
    }

    /// No letter is awaited.
    #[inline(always)]
    pub fn forget_letter(&mut self)
        ensures { self.new ≡ record self.old { awaited = None } }
    {
        self.awaited = None;
    }

    /// Takes the memory for the arguments of a letter, if there is none.
    ///
    /// # Errors
    /// `NoMemory` where memory was refused.
    #[inline(always)]
    pub fn reserve_letter(&mut self, alloc: Global) -> Result<(), NoMemory>
        ensures rest { self.new ≡ record self.old { room = self.new.room } }
        ensures ok { OnOk result (IsSome self.new.room) }
    {
        if self.room.is_none() {
            self.room = Some(SentArgs::new(alloc)?);
        }
        Ok(())
    }

    /// Keeps the memory of a letter that was taken, if it has arguments.
    #[inline(always)]
    pub fn keep_room(&mut self, letter: Letter)
        ensures rest { self.new ≡ record self.old { room = self.new.room } }
        ensures kept { IsSome self.old.room → IsSome self.new.room }
    {
        if let Letter::App {
            behaviour: _,
            args,
            load: _,
            rows: _,
        } = letter
        {
            self.room = Some(args);
        }
    }

    /// The letter that starts the behaviour, with its load and rows, which move out, as does the memory
    /// for its arguments. It takes no memory.
    #[inline(always)]
    pub fn take_letter(&mut self, alloc: Global, behaviour: Name) -> Letter
        requires { IsSome self.old.room }
        ensures letter { as_letter result
            ≡ app behaviour self.old.args (as_load self.old.load) (as_load self.old.rows) }
        ensures brought { brought_in result
            ≡ record { load = self.old.load; rows = self.old.rows } }
        ensures awaited { self.new.awaited ≡ self.old.awaited }
    {
        let Some(mut args) = self.room.take() else {
            unreachable!();
        };
        args.copy_from(&self.args);
        Letter::App {
            behaviour,
            args,
            load: mem::replace(&mut self.load, Load::new(alloc)),
            rows: mem::replace(&mut self.rows, Load::new(alloc)),
        }
    }

    /// What it mints, which moves out. It takes no memory.
    pub fn take_things(&mut self, alloc: Global) -> Amounts
        ensures things { result ≡ self.old.things }
        ensures rest { self.new ≡ record self.old { things = self.new.things } }
    {
        mem::replace(&mut self.things, Listed::new(alloc))
    }
}
