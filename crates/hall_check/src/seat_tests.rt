// Two passes of the hall whose cells move out, on one thread.

ghost use Rattle.orca_names.specs.declared.limits.TheConstants.{BOOK_LIMIT};
ghost use Rattle.std.specs.Prelude.{◌≡◌, ◌≤◌, IfOk, IfSome, Some};
ghost use Rattle.event_rule.specs.Events.{actor_of};
ghost use Rattle.seat_hall.specs.Boards.{out_of};
ghost use Rattle.seat_hall.specs.Passes.{MayCommit};
ghost use Rattle.hall_check.specs.Keeping.{KeepsClaim, keeps_claim_prop};

use crate::asking::{
    Answer, BY_EVENTS, Call, Keeper, ONE_ENTRY, TAKE, TWO_PASSES, Want, answers, entry,
};
use crate::programs::{PRINTS_TWICE, SEVEN, TWO_PRINT, checked};
use behaviour_check::Checked;
use event_rule::Event;
use orca_core::Orca;
use orca_names::{ActorName, Trace};
use run_book::Book;
use seat_hall::{Closing, HallSeat, Passes, SeatHall, SeatPass, SeatTask};
use std::process::Abort;
use std::sync::Wait;
use std::test::Fail;
use work_board::{Board, Committed, Refuse};

/// A pass, with the one claim of it that is out.
#[derive(Drop)]
struct Seated<'h, 'a> {
    pass: SeatPass<'h, 'a>,
    kept: Option<SeatTask<'a>>,
    ghost own: { KeepsClaim pass kept } by { Prim.hlevel keeps_claim_prop },
}

impl<'h, 'a> Seated<'h, 'a> {
    fn of(pass: SeatPass<'h, 'a>) -> Seated<'h, 'a>
        requires { out_of pass ≡ 0 }
        ensures { result.pass ≡ pass.entry }
    {
        Seated { pass, kept: None }
    }

    /// The pass. A claim that it keeps stays out.
    fn into_pass(self) -> SeatPass<'h, 'a>
        ensures { result ≡ self.entry.pass }
    {
        self.pass
    }

    /// The pass, which keeps no claim.
    fn into_free<R: Abort>(self, rt: &R) -> SeatPass<'h, 'a>
        ensures same { result ≡ self.entry.pass }
        ensures free { out_of result ≡ 0 }
    {
        if self.kept.is_some() {
            panic!(rt; "a pass keeps a claim")
        }
        self.into_pass()
    }
}

/// What a claim answers that is granted: its event.
fn granted(task: &SeatTask<'_>) -> Answer {
    Answer::Granted(task.taken.event)
}

impl<'h, 'a> Keeper for Seated<'h, 'a> {
    ghost use Rattle.atomic_table.specs.Seated.{TableId};

    ghost Hall = { TableId };

    ghost hall = { λ s. s.pass.token.table_id };

    fn look<R: Wait>(&mut self, rt: &R) -> Answer {
        Answer::Told(self.pass.look(rt))
    }

    // It tells the claim's event.
    fn claim<R: Abort + AllocGlobal + Wait>(&mut self, rt: &R, actor: u32) -> Answer {
        match self.pass.claim(rt, rt.alloc(), ActorName(actor)) {
            Ok(task) => {
                let answer = granted(&task);
                if self.kept.replace(task).is_some() {
                    panic!(rt; "a pass keeps one claim")
                }
                answer
            }
            Err(refuse) => Answer::Refused(refuse),
        }
    }

    fn commit<R: AllocGlobal + Wait>(&mut self, rt: &R) -> Answer {
        let Some(mut task) = self.kept.take() else {
            return Answer::Nothing;
        };
        let _ = self.pass.propose(rt.alloc(), &mut task);
        entry(self.pass.commit(rt, rt.alloc(), task))
    }

    fn direct<R: AllocGlobal + Wait>(&mut self, rt: &R, e: Event) -> Answer {
        entry(self.pass.direct(rt, rt.alloc(), e))
    }
}

/// How a hall ended.
#[derive(Clone, Copy, Debug, PartialEq, Eq)]
enum End {
    /// Whole, with so many entries and prints.
    Whole(u64, usize),
    Turning,
    /// This pass has the cell of this actor.
    Lent(u32, u32),
}

/// How a whole hall ended, whose machine and book end here.
fn whole(orca: Orca<'_>, book: Book) -> End {
    End::Whole(book.len(), orca.prints().len())
}

/// How a hall ends with the seat of its last pass.
fn ended<'a>(hall: SeatHall<'a>, seat: HallSeat<'a>) -> End
    requires { seat.token.table_id ≡ hall }
{
    match hall.close(seat) {
        Closing::Whole(orca, book) => whole(orca, book),
        Closing::Turning { .. } => End::Turning,
        Closing::Lent { holder, actor } => End::Lent(holder, actor.0),
    }
}

/// The seat of a pass that takes in another one.
fn joined<'a>(pass: SeatPass<'_, 'a>, other: SeatPass<'_, 'a>) -> HallSeat<'a>
    requires hall { other.token.table_id ≡ pass.token.table_id }
    requires none { out_of other ≡ 0 }
    ensures { result.token.table_id ≡ pass.entry.token.table_id }
{
    let mut pass = pass;
    pass.join(other);
    pass.into_seat()
}

/// Calls of two passes, with what they are to answer, in two parts.
#[derive(Clone, Copy)]
struct Rows {
    rows: &'static [(Call, Want)],
    further: &'static [(Call, Want)],
}

/// Whether these calls of two passes are answered as it is wanted, and the seat of the first one, which
/// has taken the second one in.
fn both_played<'a, R: Abort + AllocGlobal + Wait>(
    rt: &R,
    first: SeatPass<'_, 'a>,
    second: SeatPass<'_, 'a>,
    calls: Rows,
) -> (HallSeat<'a>, bool)
    requires hall { second.token.table_id ≡ first.token.table_id }
    requires first { out_of first ≡ 0 }
    requires second { out_of second ≡ 0 }
    ensures { result.0.token.table_id ≡ first.entry.token.table_id }
{
    let mut first = Seated::of(first);
    let mut second = Seated::of(second);
    let well = answers(rt, &mut first, &mut second, calls.rows)
        && answers(rt, &mut first, &mut second, calls.further);
    (joined(first.into_pass(), second.into_free(rt)), well)
}

/// Whether calls of a pass, and of a second one that it splits off, are answered as it is wanted, and the
/// seat of the pass, which has taken the second one in.
fn played<'a, R: Abort + AllocGlobal + Wait>(
    rt: &R,
    pass: SeatPass<'_, 'a>,
    calls: Rows,
) -> (HallSeat<'a>, bool)
    requires { out_of pass ≡ 0 }
    ensures { result.0.token.table_id ≡ pass.entry.token.table_id }
{
    let mut pass = pass;
    match pass.split(rt) {
        Ok(second) => both_played(rt, pass, second, calls),
        Err(Passes) => (pass.into_seat(), false),
    }
}

// The first pass claims an actor for a letter.
const CLAIMED: &[(Call, Want)] = &[(Call::Claim(0, 1), Want::Grants(TAKE, 1))];

/// Splits a pass off and takes it in, unless all are made.
fn split_and_join<R: Wait>(rt: &R, pass: &mut SeatPass<'_, '_>) -> bool
    ensures { pass.new.token.table_id ≡ pass.old.token.table_id }
{
    match pass.split(rt) {
        Ok(other) => {
            pass.join(other);
            true
        }
        Err(Passes) => false,
    }
}

/// How many times a pass splits another off and takes it in, of so many, before it can't.
fn splits<R: Wait>(rt: &R, pass: &mut SeatPass<'_, '_>, most: u32) -> u32
    ensures { pass.new.token.table_id ≡ pass.old.token.table_id }
{
    for done in 0..most {
        if !split_and_join(rt, pass) {
            return done;
        }
    }
    most
}

/// Whether it is an entry at this place.
fn is_at(answer: Result<Committed, Refuse>, place: u64) -> bool {
    match answer {
        Ok(done) => done.place == place,
        Err(_) => false,
    }
}

/// The claim that a pass gets when it takes an actor up, with the entry of a letter.
fn taken_up<'a, R: AllocGlobal + Wait>(
    rt: &R,
    pass: &mut SeatPass<'_, 'a>,
    actor: ActorName,
) -> Option<SeatTask<'a>>
    ensures hall { pass.new.token.table_id ≡ pass.old.token.table_id }
    ensures owns { IfSome result (MayCommit pass.new.number pass.new.token) }
    ensures actor { IfSome result (λ task. actor_of task.taken.event ≡ Some actor) }
{
    let mut task = None;
    match pass.take_up(rt, rt.alloc(), actor, &mut task) {
        Ok(true) => task,
        _ => None,
    }
}

/// The claim by which a pass begins with an actor.
fn begun<'a, R: AllocGlobal + Wait>(
    rt: &R,
    pass: &mut SeatPass<'_, 'a>,
    actor: ActorName,
    up: bool,
) -> Option<SeatTask<'a>>
    ensures hall { pass.new.token.table_id ≡ pass.old.token.table_id }
    ensures owns { IfSome result (MayCommit pass.new.number pass.new.token) }
    ensures actor { IfSome result (λ task. actor_of task.taken.event ≡ Some actor) }
{
    if up {
        taken_up(rt, pass, actor)
    } else {
        pass.claim(rt, rt.alloc(), actor).ok()
    }
}

/// Whether a pass tells of entries at just these places while it goes on with an actor, which it takes up
/// first, or claims.
fn goes_on<R: AllocGlobal + Wait>(
    rt: &R,
    pass: &mut SeatPass<'_, '_>,
    actor: ActorName,
    up: bool,
    places: &[u64],
) -> bool
    ensures { pass.new.token.table_id ≡ pass.old.token.table_id }
{
    let mut task = begun(rt, pass, actor, up);
    let mut well = true;
    for place in places {
        let Some(claim) = &mut task else {
            return false;
        };
        let _ = pass.propose(rt.alloc(), claim);
        let answer = pass.advance(rt, rt.alloc(), actor, &mut task);
        well = well && is_at(answer, *place);
    }
    well && task.is_none()
}

/// The seat of a pass that goes on with the first actor and then with the second, which it takes up or claims,
/// and whether it tells of entries at these places.
fn both_go_on<'a, R: AllocGlobal + Wait>(
    rt: &R,
    pass: SeatPass<'_, 'a>,
    up: bool,
    first: &[u64],
    second: &[u64],
) -> (HallSeat<'a>, bool)
    ensures { result.0.token.table_id ≡ pass.entry.token.table_id }
{
    let mut pass = pass;
    let well = goes_on(rt, &mut pass, ActorName(0), up, first)
        && goes_on(rt, &mut pass, ActorName(1), up, second);
    (pass.into_seat(), well)
}

/// Whether a pass enters what the first actor has to do at once, at these places, before and behind its turn.
fn enters_at_once<R: AllocGlobal + Wait>(rt: &R, pass: &mut SeatPass<'_, '_>) -> bool
    ensures { pass.new.token.table_id ≡ pass.old.token.table_id }
{
    is_at(pass.enter_first(rt, rt.alloc(), ActorName(0)), 0)
        && pass.enter_first(rt, rt.alloc(), ActorName(0)) == Err(Refuse::NotReady)
        && goes_on(rt, pass, ActorName(0), false, &[1, 2])
        && is_at(pass.enter_first(rt, rt.alloc(), ActorName(0)), 3)
        && is_at(pass.enter_first(rt, rt.alloc(), ActorName(0)), 4)
}

/// The seat of a pass that did so, and whether it could.
fn all_at_once<'a, R: AllocGlobal + Wait>(rt: &R, pass: SeatPass<'_, 'a>) -> (HallSeat<'a>, bool)
    ensures { result.0.token.table_id ≡ pass.entry.token.table_id }
{
    let mut pass = pass;
    let well = enters_at_once(rt, &mut pass);
    (pass.into_seat(), well)
}

/// The seat of a pass, and whether it splits just so many others off and takes them in, before it can't.
fn all_split<'a, R: Wait>(rt: &R, pass: SeatPass<'_, 'a>, most: u32) -> (HallSeat<'a>, bool)
    ensures { result.0.token.table_id ≡ pass.entry.token.table_id }
{
    let mut pass = pass;
    let well = splits(rt, &mut pass, 70_000) == most;
    (pass.into_seat(), well)
}

/// What the first pass of a hall does.
#[derive(Clone, Copy)]
enum Play {
    /// These calls, with a second pass.
    Calls(Rows),
    /// It splits so many others off and takes them in, before it can't.
    Splits(u32),
    /// It goes on with the first actor, with entries at these places, and then with the second.
    GoesOn(&'static [u64], &'static [u64]),
    /// It enters what the first actor has to do at once, but for its turn.
    AtOnce,
    /// As `GoesOn`, but it takes both actors up, with the entry of a letter before those at these places.
    TakesUp(&'static [u64], &'static [u64]),
}

/// The seat of the pass once it has done so, and whether it could.
fn done<'a, R: Abort + AllocGlobal + Wait>(
    rt: &R,
    pass: SeatPass<'_, 'a>,
    play: Play,
) -> (HallSeat<'a>, bool)
    requires { out_of pass ≡ 0 }
    ensures { result.0.token.table_id ≡ pass.entry.token.table_id }
{
    match play {
        Play::Calls(calls) => played(rt, pass, calls),
        Play::Splits(most) => all_split(rt, pass, most),
        Play::GoesOn(first, second) => both_go_on(rt, pass, false, first, second),
        Play::AtOnce => all_at_once(rt, pass),
        Play::TakesUp(first, second) => both_go_on(rt, pass, true, first, second),
    }
}

/// How the hall of a checked program ends after this play, and whether it went so.
fn ends_in<R: Abort + AllocGlobal + Wait>(
    rt: &R,
    code: &Checked,
    budget: u64,
    play: Play,
) -> Result<(End, bool), Fail>
    requires { budget ≤ BOOK_LIMIT }
{
    let (hall, seat) = SeatHall::start(rt.alloc(), code, budget, 256, Trace::Deep)?;
    let (seat, well) = done(rt, hall.first_pass(seat), play);
    Ok((ended(hall, seat), well))
}

/// How the hall of a program ends after this play, and whether it went so.
fn ends<R: Abort + AllocGlobal + Wait>(
    rt: &R,
    text: &str,
    budget: u64,
    play: Play,
) -> Result<(End, bool), Fail>
    requires { budget ≤ BOOK_LIMIT }
{
    let code = checked(rt.alloc(), text)?;
    ends_in(rt, &code, budget, play)
}

/// A program, the budget of its run, calls of two passes, in two parts, and how the hall then ends.
struct Case {
    text: &'static str,
    budget: u16,
    calls: Rows,
    end: End,
}

const CASES: &[Case] = &[
    Case {
        text: SEVEN,
        budget: 1,
        calls: Rows {
            rows: ONE_ENTRY,
            further: &[],
        },
        end: End::Whole(1, 0),
    },
    Case {
        text: SEVEN,
        budget: 20,
        calls: Rows {
            rows: BY_EVENTS,
            further: &[],
        },
        end: End::Whole(10, 1),
    },
    Case {
        text: TWO_PRINT,
        budget: 100,
        calls: Rows {
            rows: TWO_PASSES,
            further: &[],
        },
        end: End::Whole(4, 0),
    },
    Case {
        text: TWO_PRINT,
        budget: 100,
        calls: Rows {
            rows: TWO_PASSES,
            further: CLAIMED,
        },
        end: End::Lent(0, 1),
    },
];

#[test]
fn seats_answer_as_the_hall_says(rt: HostRuntime) -> Result<(), Fail> {
    for (i, case) in CASES.iter().enumerate() {
        let end = ends(
            &rt,
            case.text,
            u64::from(case.budget),
            Play::Calls(case.calls),
        )?;
        assert!(rt; end == (case.end, true), "at {i}");
    }
    Ok(())
}

#[test]
fn so_many_passes_are_split_off(rt: HostRuntime) -> Result<(), Fail> {
    let end = ends(&rt, SEVEN, 20, Play::Splits(65_535))?;
    assert!(rt; end == (End::Whole(0, 0), true));
    Ok(())
}

// The second actor's second letter is taken behind its first turn, at place 8, by the commit of that turn.
#[test]
fn a_commit_goes_on_with_its_actor(rt: HostRuntime) -> Result<(), Fail> {
    let play = Play::GoesOn(&[0, 1, 2, 3, 4], &[5, 6, 7, 9, 10]);
    let end = ends(&rt, PRINTS_TWICE, 100, play)?;
    assert!(rt; end == (End::Whole(11, 2), true));
    Ok(())
}

// Each actor's first letter is taken when it is taken up, at places 0 and 5.
#[test]
fn an_actor_is_taken_up_with_its_letter(rt: HostRuntime) -> Result<(), Fail> {
    let play = Play::TakesUp(&[1, 2, 3, 4], &[6, 7, 9, 10]);
    let end = ends(&rt, PRINTS_TWICE, 100, play)?;
    assert!(rt; end == (End::Whole(11, 2), true));
    Ok(())
}

// A letter is taken, and behind the turn a collection and a report are made, with no claim.
#[test]
fn what_is_short_is_entered_at_once(rt: HostRuntime) -> Result<(), Fail> {
    let end = ends(&rt, SEVEN, 20, Play::AtOnce)?;
    assert!(rt; end == (End::Whole(5, 1), true));
    Ok(())
}
