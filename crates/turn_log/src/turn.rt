// A turn: stand by, draw a ticket, wait, take the value, put words, write, pass on.

ghost use Rattle.std.specs.Prelude.{◌≡◌, ◌<◌, ◌≤◌, ◌+◌, length, [], ◌∷◌, Some, None, IfOk};
ghost use Rattle.turn_log.specs.Knowing.{at_turn, half, having_joined, having_written, newcomer};
ghost use Rattle.turn_log.specs.Owed.{CanPut, CanWrite, FewTickets, MayJoin, MayLook, MayRead, MaySplit};
ghost use Rattle.turn_log.specs.Seats.{Has, IsAtTurn, IsIdle, IsSame, IsWaiting, has_put, knows};
ghost use Rattle.turn_log.specs.Told.{Learns};

use crate::plays::{Cut, Draw, Glue, Look, PassOn, Put, Read, Write};
use crate::rule::{Lesson, LogRule};
use crate::table::{FIRST, LENGTH, LogSeat, SERVING, TICKET, TurnLog, VALUE};
use atomic_table::{Join, Split, Table};
use crossbeam_utils::Backoff;
use std::alloc::{AllocError, Allocator};
use std::snapshot::Snapshot;
use std::sync::Wait;

// The words of the queue before its first ticket, and these behind them.
fn behind_queue<A: Allocator>(alloc: A, words: &[u64]) -> Result<Vec<u64, A>, AllocError>
    ensures { IfOk result (λ all. all.items ≡ 0 ∷ 0 ∷ 0 ∷ words.now) }
{
    let mut all = Vec::new(alloc);
    all.extend_from_slice(&[0, 0, 0])?;
    all.extend_from_slice(words)?;
    Ok(all)
}

impl<T, I, V, P: LogRule<T, I, V>, A: Allocator> TurnLog<T, I, V, P, A> {
    /// An empty log of this value, these words beside it, and the seat of the first pass.
    ///
    /// # Errors
    /// Memory was refused.
    pub fn new(
        alloc: A,
        value: T,
        words: &[u64],
    ) -> Result<(TurnLog<T, I, V, P, A>, LogSeat<T, I, V>), AllocError>
    where
        A: Clone,
        T: Drop,
        requires rule { P.holds [] value (newcomer (P.first value) ∷ []) words.now }
        requires calm { P.calm (P.first value) }
        ensures { IfOk result (λ made. (made.1.table_id ≡ made.0) × IsIdle made.1
            × (knows made.1 ≡ newcomer (P.first value))
            × (made.0.words ≡ 3 + length words.now) × (has_put made.1 ≡ [])) }
    {
        let about = Snapshot::of(&value);
        let all = behind_queue(alloc.clone()?, words)?;
        let mut slots = Vec::new(alloc.clone()?);
        slots.push(Some(value))?;
        match Table::new(alloc, all.as_slice(), slots, &about) {
            Ok((table, seat)) => Ok((TurnLog { table }, seat)),
            Err(_) => Err(AllocError),
        }
    }

    // Stands by while passes have tickets, as two looks at the words tell it. So who waits for long has
    // none yet, and hardly anybody waits behind a thread that does not run now.
    fn stand_by<R: Wait>(&self, rt: &R) {
        let backoff = Backoff::new();
        for _ in rt.forever() {
            let serving = self.table.shared.peek(SERVING);
            if self.table.shared.peek(TICKET) == serving {
                return;
            }
            backoff.snooze();
        }
        unreachable!()
    }

    // Draws a ticket.
    fn draw(&self, seat: &mut LogSeat<T, I, V>) -> u64
        requires own { seat.old.table_id ≡ self.now }
        requires idle { IsIdle seat.old }
        requires live { 1 ≤ P.live (knows seat.old).client }
        ensures same { IsSame seat.old seat.new × (knows seat.new ≡ knows seat.old) }
        ensures waits { IsWaiting result seat.new }
    {
        self.table.shared.fetch_add::<Draw>(seat, TICKET, 1)
    }

    // Waits until the ticket is served, and takes the value.
    fn wait<R: Wait>(&self, rt: &R, seat: &mut LogSeat<T, I, V>, ticket: u64) -> T
        requires own { seat.old.table_id ≡ self.now }
        requires waits { IsWaiting ticket seat.old }
        requires few { FewTickets P.holds P.live }
        requires look { MayLook P.holds P.shows }
        ensures same { IsSame seat.old seat.new }
        ensures turn { IsAtTurn result seat.new × Has None seat.new × (has_put seat.new ≡ []) }
        ensures known { knows seat.new ≡ at_turn (knows seat.new).seen (knows seat.old) }
        ensures learns { Learns P.shows (knows seat.old) (knows seat.new).seen result }
    {
        let backoff = Backoff::new();
        for _ in rt.forever() {
            if self.table.shared.load::<Look<P>>(seat, SERVING) == ticket {
                return self.table.shared.exchange(seat, VALUE, None).unwrap();
            }
            backoff.snooze();
        }
        unreachable!()
    }

    /// Waits for its turn, and takes the value. The pass has then seen the whole log, which begins with
    /// all that it had seen and heard, and leads to this value.
    pub fn take_turn<R: Wait>(&self, rt: &R, seat: &mut LogSeat<T, I, V>) -> T
        requires own { seat.old.table_id ≡ self.now }
        requires idle { IsIdle seat.old }
        requires live { 1 ≤ P.live (knows seat.old).client }
        requires few { FewTickets P.holds P.live }
        requires look { MayLook P.holds P.shows }
        ensures same { IsSame seat.old seat.new }
        ensures turn { IsAtTurn result seat.new × Has None seat.new × (has_put seat.new ≡ []) }
        ensures known { knows seat.new ≡ at_turn (knows seat.new).seen (knows seat.old) }
        ensures learns { Learns P.shows (knows seat.old) (knows seat.new).seen result }
    {
        self.stand_by(rt);
        let ticket = self.draw(seat);
        self.wait(rt, seat, ticket)
    }

    /// Lays a value into the slot: the one that was taken, or what became of it.
    pub fn put(&self, seat: &mut LogSeat<T, I, V>, value: T)
    where
        T: Drop,
        requires own { seat.old.table_id ≡ self.now }
        requires empty { Has None seat.old }
        ensures same { IsSame seat.old seat.new × (seat.new.me.0 ≡ seat.old.me.0) }
        ensures full { Has (Some value) seat.new }
    {
        self.table.shared.exchange(seat, VALUE, Some(value));
    }

    /// Takes the value out of the slot once more, under the turn: what `put` laid into it.
    pub fn take(&self, seat: &mut LogSeat<T, I, V>) -> T
        requires own { seat.old.table_id ≡ self.now }
        requires full { (value : T) × Has (Some value) seat.old }
        ensures same { IsSame seat.old seat.new × (seat.new.me.0 ≡ seat.old.me.0) }
        ensures value { Has (Some result) seat.old }
        ensures empty { Has None seat.new }
    {
        self.table.shared.exchange(seat, VALUE, None).unwrap()
    }

    /// Writes: the item of the value that lies in the slot becomes the last of the log, which then leads
    /// to this value.
    pub fn write(&self, seat: &mut LogSeat<T, I, V>)
        requires own { seat.old.table_id ≡ self.now }
        requires rule { CanWrite P.holds P.item P.after P.live seat.old }
        ensures same { IsSame seat.old seat.new × (seat.new.me.1 ≡ seat.old.me.1) }
        ensures wrote { (value : T) → Has (Some value) seat.old → IsAtTurn value seat.new
            × (knows seat.new ≡ having_written P.after (P.item value) (knows seat.old)) }
        ensures puts { has_put seat.new ≡ has_put seat.old }
    {
        self.table.shared.fetch_add::<Write<P>>(seat, LENGTH, 1);
    }

    /// Puts a word at a place, under the turn.
    pub fn put_word(&self, seat: &mut LogSeat<T, I, V>, at: usize, w: u64)
        requires own { seat.old.table_id ≡ self.now }
        requires within { 3 + at < self.now.words }
        requires rule { CanPut P.holds at w seat.old }
        ensures same { IsSame seat.old seat.new × (seat.new.me.1 ≡ seat.old.me.1)
            × (seat.new.me.0.stage ≡ seat.old.me.0.stage) }
        ensures known { knows seat.new ≡ knows seat.old }
        ensures puts { has_put seat.new ≡ (at, w) ∷ has_put seat.old }
    {
        // No table has more words than there are numbers, so the place is one.
        let _count = self.table.word_count();
        self.table.shared.store::<Put>(seat, FIRST + at, w);
    }

    /// Reads the word at a place. It needs no turn, and waits for nobody: what the pass knows of the
    /// place holds while others have the turn.
    pub fn read_word<M: Lesson<T, I, V>>(&self, seat: &mut LogSeat<T, I, V>, at: usize) -> u64
        requires own { seat.old.table_id ≡ self.now }
        requires within { 3 + at < self.now.words }
        requires rule { MayRead P.holds M.tells seat.old.id seat.old.me.0 at }
        ensures same { IsSame seat.old seat.new × (seat.new.me ≡ seat.old.me) }
        ensures tells { M.tells seat.old.me.0 at result }
    {
        // No table has more words than there are numbers, so the place is one.
        let _count = self.table.word_count();
        self.table.shared.load::<Read<M>>(seat, FIRST + at)
    }

    /// Passes the turn on, and gives the slot back, in which the value lies that the log leads to.
    pub fn pass_on(&self, seat: &mut LogSeat<T, I, V>)
        requires own { seat.old.table_id ≡ self.now }
        requires turn { (value : T) × IsAtTurn value seat.old × Has (Some value) seat.old }
        requires calm { P.calm (knows seat.old).client }
        ensures same { IsSame seat.old seat.new }
        ensures idle { IsIdle seat.new × (knows seat.new ≡ knows seat.old) }
        ensures nothing { has_put seat.new ≡ [] }
    {
        self.table.shared.fetch_add::<PassOn>(seat, SERVING, 1);
    }

    /// Splits off a pass, under the turn. It has seen what this one has, and gets a seat.
    pub fn split<M: Split<V>>(&self, seat: &mut LogSeat<T, I, V>) -> LogSeat<T, I, V>
        requires own { seat.old.table_id ≡ self.now }
        requires turn { (value : T) × IsAtTurn value seat.old }
        requires live { 1 ≤ P.live (M.left (knows seat.old).client) }
        requires calm { P.calm (M.right (knows seat.old).client) }
        requires rule { MaySplit P.holds seat.old.id (knows seat.old)
            (half M.left (knows seat.old)) (half M.right (knows seat.old)) }
        ensures same { IsSame seat.old seat.new
            × (seat.new.me.0.stage ≡ seat.old.me.0.stage) × (seat.new.me.1 ≡ seat.old.me.1)
            × (has_put seat.new ≡ has_put seat.old) }
        ensures left { knows seat.new ≡ half M.left (knows seat.old) }
        ensures right { (result.table_id ≡ seat.old.table_id) × IsIdle result
            × (knows result ≡ half M.right (knows seat.old)) × (has_put result ≡ []) }
    {
        self.table.shared.split_seat::<Cut<M>>(seat)
    }

    /// Takes in another pass, which ends. What this one has seen stays; it has then heard of the longer
    /// log of both.
    pub fn join<M: Join<V>>(&self, seat: &mut LogSeat<T, I, V>, other: LogSeat<T, I, V>)
        requires own { (seat.old.table_id ≡ self.now) × (other.table_id ≡ self.now) }
        requires idle { IsIdle seat.old × IsIdle other }
        requires calm { P.calm (M.both (knows seat.old).client (knows other).client) × P.calm M.spent }
        requires rule { MayJoin P.holds seat.old.id (knows seat.old) other.id (knows other)
            (having_joined M.both (knows other) (knows seat.old)) (newcomer M.spent) }
        ensures same { IsSame seat.old seat.new × IsIdle seat.new }
        ensures both { knows seat.new ≡ having_joined M.both (knows other) (knows seat.old) }
    {
        self.table.shared.join_seat::<Glue<M>>(seat, other);
    }
}
