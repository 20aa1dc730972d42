// What each step on the table tells its seat.

ghost use Rattle.turn_log.specs.Knowing.{half, having_joined, newcomer};
ghost use Rattle.turn_log.specs.Seats.{idle};
ghost use Rattle.turn_log.specs.Told.{drew, looked, passed, put_there, read_there, wrote};

use crate::rule::{Lesson, LogRule};
use crate::table::SeatView;
use atomic_table::{Join, Play, Split};
use std::marker::PhantomData;

/// A ticket is drawn.
pub(crate) struct Draw;

impl<T, I, V> Play<Option<T>, SeatView<T, I, V>> for Draw {
    ghost then = { drew };
}

/// The ticket that is served is read; where it is the seat's, the seat takes the slot.
pub(crate) struct Look<P> {
    rule: PhantomData<P>,
}

impl<T, I, V, P: LogRule<T, I, V>> Play<Option<T>, SeatView<T, I, V>> for Look<P> {
    ghost then = { looked P.shows };
}

/// An item is added to the log.
pub(crate) struct Write<P> {
    rule: PhantomData<P>,
}

impl<T, I, V, P: LogRule<T, I, V>> Play<Option<T>, SeatView<T, I, V>> for Write<P> {
    ghost then = { wrote P.item P.after };
}

/// A word is put.
pub(crate) struct Put;

impl<T, I, V> Play<Option<T>, SeatView<T, I, V>> for Put {
    ghost then = { put_there };
}

/// A word is read.
pub(crate) struct Read<M> {
    lesson: PhantomData<M>,
}

impl<T, I, V, M: Lesson<T, I, V>> Play<Option<T>, SeatView<T, I, V>> for Read<M> {
    ghost then = { read_there M.tells };
}

/// The next ticket is served, and the slot is given back.
pub(crate) struct PassOn;

impl<T, I, V> Play<Option<T>, SeatView<T, I, V>> for PassOn {
    ghost then = { passed };
}

/// A seat is cut in two, as its pass is.
pub(crate) struct Cut<M> {
    split: PhantomData<M>,
}

impl<T, I, V, M: Split<V>> Split<SeatView<T, I, V>> for Cut<M> {
    ghost left = { λ d. record d { known = half M.left d.known } };

    ghost right = { λ d. idle (half M.right d.known) };
}

/// A seat takes in another, as its pass does.
pub(crate) struct Glue<M> {
    join: PhantomData<M>,
}

impl<T, I, V, M: Join<V>> Join<SeatView<T, I, V>> for Glue<M> {
    ghost both = { λ d e. idle (having_joined M.both e.known d.known) };

    ghost spent = { idle (newcomer M.spent) };
}
