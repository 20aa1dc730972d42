// The hall that lies under the turn.

ghost use Rattle.std.specs.Prelude.{◌≡◌, ◌≢◌, ℕ, ◌+◌, ◌<◌, ◌≤◌, [], ◌∷◌, false, length, None, Some, IfNone, IfOk, IfSome};
ghost use Rattle.orca_names.specs.declared.limits.TheConstants.{ACTORS_LIMIT, BOOK_LIMIT};
ghost use Rattle.run_book.specs.Books.{IsWeight};
ghost use Rattle.seat_hall.specs.declared.item.Item.TheVariants.{Made, Stopped};
ghost use Rattle.seat_hall.specs.Answers.{GivesNumber, Tells};
ghost use Rattle.hall_rules.specs.Kept.{AreParts};
ghost use Rattle.seat_hall.specs.Closes.{IsLowestClaim};
ghost use Rattle.seat_hall.specs.Halls.{says};
ghost use Rattle.seat_hall.specs.Log.{after, begins, claim_in, listed, most_made, plain};

use crate::item::Item;
use crate::rooms::Rooms;
use behaviour_check::Checked;
use hall_rules::look;
use orca_core::{Orca, SetAside};
use orca_names::{ActorName, NoMemory, Options};
use run_book::Book;
use std::alloc::Global;
use std::marker::Model;
use work_board::Look;

/// A run that several passes change in turns, seen by contracts as the hall of its log, with all its
/// cells, and the item by which it came to be. The cells of claimed actors are out of it.
#[derive(Drop)]
pub struct Hall<'a> {
    pub(crate) code: &'a Checked,
    pub(crate) budget: u64,
    pub(crate) orca: Orca<'a>,
    pub(crate) book: Book,
    /// For each actor that was made, the pass whose claim on it is out.
    pub(crate) claims: Vec<Option<u32>>,
    /// The rooms, of which as many are out as claims.
    pub(crate) rooms: Rooms,
    stopped: bool,
    /// How many passes were split off.
    made: u32,
    pub(crate) last: Item,
}

impl<'a> Model for Hall<'a> {
    ghost use Rattle.run_book.specs.Books.{options_of_book};
    ghost use Rattle.seat_hall.specs.Halls.{HallView, HallKeeps};

    ghost Value = { HallView };

    ghost view = { λ h. record {
      logged = record {
        program = h.code.now;
        options = options_of_book h.book;
        budget = h.budget;
        book = h.book.entries;
        claims = h.claims.items;
        stopped = h.stopped;
        made = h.made;
      };
      last = h.last;
    } };

    ghost invariant = { λ h. HallKeeps h.code.now h.budget h.orca h.book h.claims.items h.rooms };
}

/// No actor is set aside: the cells of claimed ones are out.
struct Nobody;

impl SetAside for Nobody {
    ghost is_aside = { λ _ _. false };

    fn is_aside(&self, _a: ActorName) -> bool {
        false
    }
}

// The lowest actor on which a claim is out, and the pass that has it.
fn lowest_in(claims: &[Option<u32>]) -> Option<(u32, ActorName)>
    requires { length claims.now ≤ ACTORS_LIMIT }
    ensures some { IfSome result (λ lent. (claim_in claims.now lent.1 ≡ Some lent.0)
        × ((b pass : ℕ) → b < lent.1 → claim_in claims.now b ≢ Some pass)) }
    ensures none { IfNone result (listed 0 claims.now ≡ []) }
{
    for (a, claim) in claims.iter().enumerate() {
        if let Some(holder) = *claim {
            return Some((holder, ActorName(a as u32)));
        }
    }
    None
}

impl<'a> Hall<'a> {
    /// A run before its first event, of at most `budget` entries.
    ///
    /// # Errors
    /// `NoMemory` where memory was refused.
    pub(crate) fn start(
        alloc: Global,
        code: &'a Checked,
        budget: u64,
        options: Options,
    ) -> Result<Hall<'a>, NoMemory>
        requires most { budget ≤ BOOK_LIMIT }
        requires weight { IsWeight options.weight }
        ensures { IfOk result (λ hall. hall.logged ≡ begins code.now options budget) }
    {
        // The machine last: what owns it is checked on each way that drops it.
        let mut claims = Vec::new(alloc);
        claims.push(None)?;
        let mut rooms = Rooms::new(alloc);
        rooms.provide(alloc, code, 0)?;
        let orca = Orca::start(alloc, code, options.weight, None, options.trace)?;
        Ok(Hall {
            code,
            budget,
            orca,
            book: Book::new(alloc, options.weight, options.trace),
            claims,
            rooms,
            stopped: false,
            made: 0,
            last: Item::Made { pass: 0 },
        })
    }

    /// Asks all workers to stop.
    pub(crate) fn ask_stop(&mut self, pass: u32)
        ensures { self.new ≡ says (after self.old.logged (Stopped pass)) (Stopped pass) }
    {
        self.stopped = true;
        self.last = Item::Stopped { pass };
    }

    /// How many passes were split off.
    pub(crate) fn made(&self) -> u32
        ensures { result ≡ self.now.logged.made }
    {
        self.made
    }

    /// Gives a number to a pass that is split off.
    pub(crate) fn give_number(&mut self) -> u32
        requires { self.old.logged.made < most_made }
        ensures number { GivesNumber result self.old.logged }
        ensures made { self.new ≡ says (after self.old.logged (Made result)) (Made result) }
    {
        self.made += 1;
        self.last = Item::Made { pass: self.made };
        self.made
    }

    /// What there is to do: the first actor, in the one-worker order, that has an event and on which no
    /// claim is out; else the detector's first event; else others are at work, if a claim is out, or
    /// nothing is left to do. A stop where one was asked, or where the book is as long as the budget.
    pub(crate) fn look(&self) -> Look
        ensures { Tells result self.now.logged }
    {
        if self.stopped || self.book.len() == self.budget {
            return Look::Stop;
        }
        look(&self.orca, &Nobody, self.rooms.all_are_free())
    }

    /// The lowest actor on which a claim is out, and the pass that has it.
    pub(crate) fn lowest_claim(&self) -> Option<(u32, ActorName)>
        ensures some { IfSome result (λ lent. IsLowestClaim lent.0 lent.1 self.now.logged) }
        ensures none { IfNone result (listed 0 self.now.logged.claims ≡ []) }
    {
        lowest_in(&self.claims)
    }

    /// The machine, whose state is that of the book and which has no blocks, and the book.
    pub(crate) fn into_parts(self) -> (Orca<'a>, Book)
        requires none { listed 0 self.logged.claims ≡ [] }
        ensures whole { AreParts (plain self.entry.logged) result.0 result.1 }
        ensures blockless { result.0.blocks ≡ [] }
    {
        (self.orca, self.book)
    }
}
