// The hall that copies cells for claims, by its own calls.

use crate::asking::Want::{At, Busy, Gone, Grants, NotReady, Tells, Unknown};
use crate::asking::{
    Answer, BY_EVENTS, Call, GO, HEAR, ONE_ENTRY, TAKE, TWO_PASSES, Want, answer_of, entry, event,
};
use crate::programs::{SEVEN, TWO_PRINT, checked};
use crate::telling::is_of;
use behaviour_check::Checked;
use book_hall::{Hall, Proposal};
use orca_names::{ActorName, Value};
use std::alloc::Global;
use std::test::Fail;
use work_board::Refuse;

/// A claim with its proposal, or why there is none.
fn claim<'a>(
    alloc: Global,
    hall: &mut Hall<'a>,
    pass: u32,
    actor: u32,
) -> Result<Proposal<'a>, Refuse> {
    let copy = hall.claim(alloc, pass, ActorName(actor))?;
    match copy.propose(alloc) {
        Ok(proposal) => Ok(proposal),
        Err(_) => Err(Refuse::NoMemory),
    }
}

fn keep<'a>(
    alloc: Global,
    hall: &mut Hall<'a>,
    kept: &mut Option<Proposal<'a>>,
    pass: u32,
    actor: u32,
) -> Answer {
    match claim(alloc, hall, pass, actor) {
        Ok(proposal) => {
            let event = proposal.event();
            *kept = Some(proposal);
            Answer::Granted(event)
        }
        Err(refuse) => Answer::Refused(refuse),
    }
}

fn commit<'a>(
    alloc: Global,
    hall: &mut Hall<'a>,
    kept: &mut Option<Proposal<'a>>,
    pass: u32,
) -> Answer {
    match kept.take() {
        Some(proposal) => entry(hall.commit(alloc, pass, proposal)),
        None => Answer::Nothing,
    }
}

fn enter(alloc: Global, hall: &mut Hall<'_>, pass: u32, actor: u32) -> Answer {
    match claim(alloc, hall, pass, actor) {
        Ok(proposal) => entry(hall.commit(alloc, pass, proposal)),
        Err(refuse) => Answer::Refused(refuse),
    }
}

fn stop(hall: &mut Hall<'_>) -> Answer {
    hall.ask_stop();
    Answer::Nothing
}

/// A call of a hall, beside the proposal that is kept.
fn make<'a>(
    alloc: Global,
    hall: &mut Hall<'a>,
    kept: &mut Option<Proposal<'a>>,
    call: Call,
) -> Answer {
    match call {
        Call::Look => Answer::Told(hall.look()),
        Call::Stop => stop(hall),
        Call::Claim(pass, actor) => keep(alloc, hall, kept, pass, actor),
        Call::Commit(pass) => commit(alloc, hall, kept, pass),
        Call::Enter(pass, actor) => enter(alloc, hall, pass, actor),
        Call::Plain(pass, kind, number) => {
            entry(hall.commit_plain(alloc, pass, event(kind, number)))
        }
        Call::Direct(kind, number) => entry(hall.direct(alloc, event(kind, number))),
    }
}

/// Whether each call answers as it is wanted.
fn answers<'a>(
    alloc: Global,
    hall: &mut Hall<'a>,
    kept: &mut Option<Proposal<'a>>,
    rows: &[(Call, Want)],
) -> bool {
    for (call, wanted) in rows {
        if make(alloc, hall, kept, *call) != answer_of(*wanted) {
            return false;
        }
    }
    true
}

/// Whether each call, of these and then of those, answers as it is wanted.
fn all_answer(
    alloc: Global,
    hall: &mut Hall<'_>,
    rows: &[(Call, Want)],
    further: &[(Call, Want)],
) -> bool {
    let mut kept = None;
    answers(alloc, hall, &mut kept, rows) && answers(alloc, hall, &mut kept, further)
}

/// Whether a run printed this number alone, or nothing.
fn is_all(prints: &[Value], number: Option<u64>) -> bool {
    match number {
        Some(number) => prints == [Value::Num(number)].as_slice(),
        None => prints.is_empty(),
    }
}

/// Whether the run of a hall has printed this number alone, or nothing.
fn has_printed(hall: Hall<'_>, number: Option<u64>) -> bool {
    let (orca, _book) = hall.into_parts();
    is_all(orca.prints(), number)
}

/// A program, the budget of its run, calls of the hall with what they are to answer, in two parts, and
/// the number that the run has then printed, if any.
struct Case {
    text: &'static str,
    budget: u16,
    rows: &'static [(Call, Want)],
    further: &'static [(Call, Want)],
    prints: Option<u64>,
}

/// Whether the calls of a case answer as it is wanted, the hall is still of its program and budget, and the
/// run has printed what it should.
fn plays(alloc: Global, hall: Hall<'_>, case: &Case) -> bool {
    let mut hall = hall;
    let well = all_answer(alloc, &mut hall, case.rows, case.further)
        && is_of(alloc, &hall, case.text, u64::from(case.budget));
    has_printed(hall, case.prints) && well
}

fn plays_in(alloc: Global, code: &Checked, case: &Case) -> bool {
    match Hall::start(alloc, code, u64::from(case.budget), 256) {
        Ok(hall) => plays(alloc, hall, case),
        Err(_) => false,
    }
}

fn goes_so(alloc: Global, case: &Case) -> Result<bool, Fail> {
    let code = checked(alloc, case.text)?;
    Ok(plays_in(alloc, &code, case))
}

// The first of two passes claims an actor for a letter. Without a proposal the second is refused too.
const CLAIMED: &[(Call, Want)] = &[
    (Call::Claim(0, 1), Grants(TAKE, 1)),
    (Call::Plain(1, TAKE, 1), Busy(0)),
    (Call::Stop, Want::Nothing),
    (Call::Look, Want::Stop),
    (Call::Commit(0), At(4)),
];

// A turn that was proposed and then done without its proposal is evaluated anew, so nothing is printed
// twice. A take that was proposed and then done is refused.
const STALE: &[(Call, Want)] = &[
    (Call::Look, Tells(0)),
    (Call::Claim(0, 0), Grants(TAKE, 0)),
    (Call::Look, Want::Others),
    (Call::Plain(0, TAKE, 0), At(0)),
    (Call::Commit(0), NotReady),
    (Call::Claim(0, 0), Grants(GO, 0)),
    (Call::Plain(0, GO, 0), At(1)),
    (Call::Commit(0), At(2)),
    (Call::Direct(HEAR, 0), NotReady),
    (Call::Enter(3, 5), Unknown(1)),
    (Call::Enter(3, 0), At(3)),
    (Call::Enter(3, 0), At(4)),
    (Call::Enter(3, 0), Gone),
    (Call::Direct(TAKE, 0), Gone),
    (Call::Look, Want::Rest),
];

const CASES: &[Case] = &[
    Case {
        text: TWO_PRINT,
        budget: 100,
        rows: TWO_PASSES,
        further: CLAIMED,
        prints: None,
    },
    Case {
        text: SEVEN,
        budget: 1,
        rows: ONE_ENTRY,
        further: &[],
        prints: None,
    },
    Case {
        text: SEVEN,
        budget: 20,
        rows: STALE,
        further: &[],
        prints: Some(7),
    },
    Case {
        text: SEVEN,
        budget: 20,
        rows: BY_EVENTS,
        further: &[],
        prints: Some(7),
    },
];

#[test]
fn passes_answer_as_the_hall_says(rt: HostRuntime) -> Result<(), Fail> {
    for (i, case) in CASES.iter().enumerate() {
        assert!(rt; goes_so(rt.alloc(), case)?, "at {i}");
    }
    Ok(())
}
