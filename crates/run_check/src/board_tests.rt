// Workers over boards of each hall, one of which may be told wrong names at first.

ghost use Rattle.std.specs.Prelude.{◌≡◌, ◌≤◌, [], All, IfOk, length};
ghost use Rattle.orca_names.specs.declared.trace.Trace.TheVariants.{Deep};
ghost use Rattle.orca_parts.specs.Parts.{options_of};
ghost use Rattle.orca_core.specs.Laws.{IsRunOf};
ghost use Rattle.orca_core.specs.Machine.{NoneIsAway};
ghost use Rattle.turn_log.specs.Seats.{knows};
ghost use Rattle.seat_hall.specs.Boards.{out_of};

use crate::ending::{PEERS_REPORT, has_report};
use crate::following::is_whole_run;
use crate::programs::{PASSED, PEERS, TWO_PRINT, checked};
use behaviour_check::Checked;
use book_hall::{Hall, HallPass, Naming, SharedHall};
use orca_core::Orca;
use orca_names::{ActorName, NoMemory, Thing, Trace};
use outside_world::OpenGate;
use quiet_pass::{End, finish};
use row_store::NoBlocks;
use run_book::Book;
use seat_hall::{Closing, HallSeat, SeatHall, SeatPass};
use std::alloc::Global;
use std::marker::Brand;
use std::sync::Wait;
use std::test::Fail;
use std::thread::Threads;
use steal_pool::work;
use work_board::TroubleBoard;

/// The looks of a worker that name an actor, and the actors.
type Wrong = &'static [(u64, u32)];

/// No more entries than these.
const BUDGET: u64 = 1000;

fn names(alloc: Global, wrong: &[(u64, u32)]) -> Result<Vec<(u64, ActorName)>, NoMemory> {
    let mut names = Vec::new(alloc);
    for (look, actor) in wrong {
        names.push((*look, ActorName(*actor)))?;
    }
    Ok(names)
}

/// A pass of the hall that copies cells, for each worker.
fn passes<'h, 'a, J: Naming>(
    alloc: Global,
    hall: &'h SharedHall<'a, J>,
    wrong: &[Wrong],
    boards: &mut Vec<TroubleBoard<HallPass<'h, 'a, J>>>,
) -> Result<(), NoMemory> {
    let mut number = 0u32;
    for looks in wrong {
        let told = names(alloc, *looks)?;
        boards.push(TroubleBoard::new(hall.pass(number), told))?;
        number = number.wrapping_add(1);
    }
    Ok(())
}

/// Workers work in the hall that copies cells, as many as there was memory for.
fn work_in<J: Naming + Send + Sync, R: AllocGlobal + Threads + Wait + Sync>(
    rt: &R,
    hall: &SharedHall<'_, J>,
    wrong: &[Wrong],
) -> Result<(), NoMemory> {
    let mut boards = Vec::new(rt.alloc());
    let made = passes(rt.alloc(), hall, wrong, &mut boards);
    work(rt, rt.alloc(), boards.as_mut_slice(), &OpenGate);
    made
}

/// What workers make of a program in the hall that copies cells, and whether there was memory for all.
fn by_copies<'a, J: Naming + Send + Sync, R: AllocGlobal + Threads + Wait + Sync>(
    rt: &R,
    code: &'a Checked,
    wrong: &[Wrong],
) -> Result<(Hall<'a>, Result<(), NoMemory>), NoMemory>
    requires program { code.now ≡ J.program }
    requires options { options_of 256 Deep ≡ J.options }
    requires budget { BUDGET ≡ J.budget }
    ensures { IfOk result (λ made. made.0.budget ≡ BUDGET) }
{
    let hall = SharedHall::<J>::new(Hall::start(rt.alloc(), code, BUDGET, 256)?);
    let worked = work_in(rt, &hall, wrong);
    Ok((hall.into_hall(), worked))
}

/// A pass of the hall whose cells move out, for each worker.
fn seats<'h, 'a, R: AllocGlobal + Wait>(
    rt: &R,
    first: &mut SeatPass<'h, 'a>,
    wrong: &[Wrong],
    boards: &mut Vec<TroubleBoard<SeatPass<'h, 'a>>>,
) -> Result<(), Fail>
    requires { All (λ b. out_of b.inner ≡ 0) boards.old.items }
    ensures hall { first.new.token.table_id ≡ first.old.token.table_id }
    ensures run { (knows first.new.token).client ≡ (knows first.old.token).client }
    ensures idle { All (λ b. out_of b.inner ≡ 0) boards.new.items }
{
    for looks in wrong {
        let told = names(rt.alloc(), *looks)?;
        let pass = first.split(rt)?;
        boards.push(TroubleBoard::new(pass, told))?;
    }
    Ok(())
}

/// Workers work in the hall whose cells move out, whose first pass takes this seat and gives it back.
/// Tells whether each worker had a pass.
fn work_from<'a, R: AllocGlobal + Threads + Wait + Sync>(
    rt: &R,
    hall: &SeatHall<'a>,
    seat: HallSeat<'a>,
    wrong: &[Wrong],
) -> (HallSeat<'a>, Result<(), Fail>)
    requires { seat.token.table_id ≡ hall.now }
    ensures hall { result.0.token.table_id ≡ hall.now }
    ensures run { (knows result.0.token).client ≡ (knows seat.entry.token).client }
{
    let mut first = hall.first_pass(seat);
    let mut boards = Vec::new(rt.alloc());
    let made = seats(rt, &mut first, wrong, &mut boards);
    work(rt, rt.alloc(), boards.as_mut_slice(), &OpenGate);
    drop(boards);
    (first.into_seat(), made)
}

/// What workers make of a program in the hall whose cells move out, with the seat of the first pass, and
/// whether each worker had a pass.
fn by_moves<'a, R: AllocGlobal + Threads + Wait + Sync>(
    rt: &R,
    code: &'a Checked,
    wrong: &[Wrong],
) -> Result<(SeatHall<'a>, HallSeat<'a>, Result<(), Fail>), NoMemory>
    ensures hall { IfOk result (λ made. made.1.token.table_id ≡ made.0) }
    ensures budget { IfOk result (λ made. (knows made.1.token).client.budget ≡ BUDGET) }
{
    let (hall, seat) = SeatHall::start(rt.alloc(), code, BUDGET, 256, Trace::Deep)?;
    let (seat, worked) = work_from(rt, &hall, seat, wrong);
    Ok((hall, seat, worked))
}

// Sixteen workers who are told no wrong names.
const RIGHT: [Wrong; 16] = [&[]; 16];

/// Whether the book of a run, whose machine ends here, is a whole run of both machines.
fn is_followed(alloc: Global, code: &Checked, _orca: Orca<'_>, book: Book) -> bool {
    is_whole_run(alloc, code, &book)
}

/// Whether a hall ends with the book of a whole run.
fn ends_with_run<'a>(alloc: Global, code: &Checked, hall: SeatHall<'a>, seat: HallSeat<'a>) -> bool
    requires { seat.token.table_id ≡ hall }
{
    match hall.close(seat) {
        Closing::Whole(orca, book) => is_followed(alloc, code, orca, book),
        _ => false,
    }
}

/// Whether a run of a program by so many workers has a book that both machines follow.
fn agrees<R: AllocGlobal + Threads + Wait + Sync>(
    rt: &R,
    code: &Checked,
    workers: usize,
) -> Result<bool, Fail> {
    let (hall, seat, worked) = by_moves(rt, code, &RIGHT[..workers.min(RIGHT.len())])?;
    let well = ends_with_run(rt.alloc(), code, hall, seat);
    worked?;
    Ok(well)
}

/// Whether several runs of a program by so many workers have books that both machines follow.
fn all_agree<R: AllocGlobal + Threads + Wait + Sync>(
    rt: &R,
    code: &Checked,
    workers: usize,
) -> Result<bool, Fail> {
    for _ in 0..5 {
        if !agrees(rt, code, workers)? {
            return Ok(false);
        }
    }
    Ok(true)
}

fn agree<R: AllocGlobal + Threads + Wait + Sync>(
    rt: &R,
    text: &str,
    workers: usize,
) -> Result<bool, Fail> {
    let code = checked(rt.alloc(), text)?;
    all_agree(rt, &code, workers)
}

#[test]
fn books_of_seats_are_runs(rt: HostRuntime) -> Result<(), Fail> {
    for text in [PASSED, PEERS, TWO_PRINT] {
        for workers in [2, 4, 8, 16] {
            assert!(rt; agree(&rt, text, workers)?, "by {workers}");
        }
    }
    Ok(())
}

/// Whether what is left is the first actor alone.
fn is_first_left(alloc: Global, orca: &Orca<'_>) -> bool
    requires { NoneIsAway orca.now }
{
    match orca.left(alloc) {
        Ok(left) => left.as_slice() == [Thing::Actor(ActorName(0))].as_slice(),
        Err(_) => false,
    }
}

/// Whether one worker takes a run to its end, which is quiet with the first actor alone and the report of the
/// peers.
fn finishes_with_first(alloc: Global, orca: &mut Orca<'_>, book: &mut Book) -> bool
    requires run { IsRunOf orca.old book.old.entries }
    requires home { NoneIsAway orca.old }
    requires none { orca.old.blocks ≡ [] }
    requires within { length book.old.entries ≤ BUDGET }
{
    let end = finish(alloc, orca, book, BUDGET, &mut NoBlocks::default());
    matches!(end, End::Quiet) && is_first_left(alloc, orca) && has_report(alloc, orca, PEERS_REPORT)
}

/// Whether a run does so, whose machine and book end here.
fn ends_with_first(alloc: Global, orca: Orca<'_>, book: Book) -> bool
    requires run { IsRunOf orca book.entries }
    requires home { NoneIsAway orca }
    requires none { orca.blocks ≡ [] }
    requires within { length book.entries ≤ BUDGET }
{
    let mut orca = orca;
    let mut book = book;
    finishes_with_first(alloc, &mut orca, &mut book)
}

/// Whether the run in a hall that copies cells ends quiet with the first of three actors alone.
fn copies_end_with_first(alloc: Global, hall: Hall<'_>) -> bool
    requires { hall.budget ≡ BUDGET }
{
    let (orca, book) = hall.into_parts();
    ends_with_first(alloc, orca, book)
}

/// Whether the run in a hall whose cells move out ends quiet with the first of three actors alone.
fn moves_end_with_first<'a>(alloc: Global, hall: SeatHall<'a>, seat: HallSeat<'a>) -> bool
    requires own { seat.token.table_id ≡ hall }
    requires budget { (knows seat.token).client.budget ≡ BUDGET }
{
    match hall.close(seat) {
        Closing::Whole(orca, book) => ends_with_first(alloc, orca, book),
        _ => false,
    }
}

// The first of two workers is told of actors that there are not, and of one before its time.
const WRONG: &[Wrong] = &[&[(1, 70000), (2, 1), (3, 70000), (4, 1)], &[]];

/// Whether workers who are told wrong names leave of the program the first actor alone.
fn copies_leave_first<J: Naming + Send + Sync, R: AllocGlobal + Threads + Wait + Sync>(
    rt: &R,
    code: &Checked,
) -> Result<bool, Fail>
    requires program { code.now ≡ J.program }
    requires options { options_of 256 Deep ≡ J.options }
    requires budget { BUDGET ≡ J.budget }
{
    let (hall, worked) = by_copies::<J, R>(rt, code, WRONG)?;
    let well = copies_end_with_first(rt.alloc(), hall);
    worked?;
    Ok(well)
}

/// As `copies_leave_first`, where cells move.
fn moves_leave_first<R: AllocGlobal + Threads + Wait + Sync>(
    rt: &R,
    code: &Checked,
) -> Result<bool, Fail> {
    let (hall, seat, worked) = by_moves(rt, code, WRONG)?;
    let well = moves_end_with_first(rt.alloc(), hall, seat);
    worked?;
    Ok(well)
}

/// Whether they leave of the peers the first actor alone.
fn copies_leave_first_peer<R: AllocGlobal + Threads + Wait + Sync>(rt: &R) -> Result<bool, Fail> {
    let code = checked(rt.alloc(), PEERS)?;
    copies_leave_first::<Brand, R>(rt, &code)
}

/// As `copies_leave_first_peer`, where cells move.
fn moves_leave_first_peer<R: AllocGlobal + Threads + Wait + Sync>(rt: &R) -> Result<bool, Fail> {
    let code = checked(rt.alloc(), PEERS)?;
    moves_leave_first(rt, &code)
}

#[test]
fn wrong_names_change_nothing(rt: HostRuntime) -> Result<(), Fail> {
    assert!(rt; copies_leave_first_peer(&rt)?);
    Ok(())
}

#[test]
fn wrong_names_change_nothing_where_cells_move(rt: HostRuntime) -> Result<(), Fail> {
    assert!(rt; moves_leave_first_peer(&rt)?);
    Ok(())
}
