// The table on which a log stands: three words and then the user's, a slot for the value, and what each
// seat knows.

use crate::rule::{Known, LogRule};
use atomic_table::{Seat, Table, TableRule};
use std::alloc::{Allocator, Global};
use std::collections::LinkedList;
use std::marker::{Model, PhantomData};
use std::snapshot::Snapshot;

/// The word that counts the items of the log.
pub(crate) const LENGTH: usize = 0;

/// The word with the ticket that is drawn next.
pub(crate) const TICKET: usize = 1;

/// The word with the ticket that is served.
pub(crate) const SERVING: usize = 2;

/// How many words stand before those of the user.
pub(crate) const FIRST: usize = 3;

/// The slot that has the value.
pub(crate) const VALUE: usize = 0;

/// How far a seat is with a turn. No value of it is made.
pub enum Stage<T> {
    /// It has no ticket.
    Idle,
    /// It has this ticket.
    Waits(u64),
    /// Its ticket, this one, is served; the value that the log leads to is this.
    HasTurn(u64, T),
}

/// What the table keeps of a seat. No value of it is made.
pub struct SeatView<T, I, V> {
    pub stage: Stage<T>,
    pub known: Known<I, V>,
    /// The words that it put under its turn, each with its place, the last one first.
    pub puts: LinkedList<(u64, u64)>,
}

/// The rule of the table, for a rule of the log.
pub struct ByTurns<P> {
    rule: PhantomData<P>,
}

impl<T, I, V, P: LogRule<T, I, V>> TableRule<Option<T>, SeatView<T, I, V>, Snapshot<T>>
    for ByTurns<P> {
    ghost use Rattle.turn_log.specs.Queue.{IsRuled};
    ghost use Rattle.turn_log.specs.Seats.{idle};
    ghost use Rattle.turn_log.specs.Knowing.{newcomer};

    ghost holds = { λ _. IsRuled P.holds P.live P.calm };

    ghost first = { λ begins_with. idle (newcomer (P.first begins_with.value)) };
}

/// The seat of a pass, by which it takes part in a log. It has no bytes.
pub type LogSeat<T, I, V> = Seat<Option<T>, SeatView<T, I, V>>;

/// A value that passes change in turns, with its log and its words. Contracts see it as the table that
/// it stands on.
#[derive(Drop)]
pub struct TurnLog<T, I, V, P: LogRule<T, I, V>, A: Allocator = Global> {
    pub(crate) table: Table<Option<T>, SeatView<T, I, V>, Snapshot<T>, ByTurns<P>, A>,
}

impl<T, I, V, P: LogRule<T, I, V>, A: Allocator> Model for TurnLog<T, I, V, P, A> {
    ghost use Rattle.std.specs.Prelude.{◌≡◌, ◌≤◌};
    ghost use Rattle.atomic_table.specs.Seated.{TableId};

    ghost Value = { TableId };

    ghost view = { λ l. l.table.shared.table_id };

    ghost invariant = { λ l. (3 ≤ l.table.shared.table_id.words) × (l.table.shared.table_id.slots ≡ 1) };
}
