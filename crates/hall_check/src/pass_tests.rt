// Two passes of a hall that workers share, on one thread.

ghost use Rattle.orca_names.specs.declared.limits.TheConstants.{BOOK_LIMIT};
ghost use Rattle.orca_names.specs.declared.trace.Trace.TheVariants.{Deep};
ghost use Rattle.orca_parts.specs.Parts.{options_of};
ghost use Rattle.std.specs.Prelude.{◌≡◌, ◌≤◌, ⊤};

use crate::asking::{Answer, BY_EVENTS, Call, Keeper, Want, answers, entry};
use crate::programs::{SEVEN, checked};
use behaviour_check::Checked;
use book_hall::{Hall, HallPass, HallTask, Naming, SharedHall};
use event_rule::Event;
use orca_names::{ActorName, NoMemory};
use std::alloc::Global;
use std::marker::Brand;
use std::process::Abort;
use std::sync::Wait;
use std::test::Fail;
use work_board::{Board, Refuse};

/// A pass, with the claims that it keeps.
#[derive(Drop)]
struct Passing<'h, 'a, J: Naming> {
    pass: HallPass<'h, 'a, J>,
    kept: Vec<HallTask<'a>>,
}

impl<'h, 'a, J: Naming> Keeper for Passing<'h, 'a, J> {
    ghost Hall = { ⊤ };

    ghost hall = { λ _. tt };

    fn look<R: Wait>(&mut self, rt: &R) -> Answer {
        Answer::Told(self.pass.look(rt))
    }

    // It tells the claim's segment.
    fn claim<R: Abort + AllocGlobal + Wait>(&mut self, rt: &R, actor: u32) -> Answer {
        match self.pass.claim(rt, rt.alloc(), ActorName(actor)) {
            Ok(task) => {
                let segment = self.pass.segment_of(&task);
                match self.kept.push(task) {
                    Ok(()) => Answer::Lent(segment),
                    Err(_) => Answer::Refused(Refuse::NoMemory),
                }
            }
            Err(refuse) => Answer::Refused(refuse),
        }
    }

    fn commit<R: AllocGlobal + Wait>(&mut self, rt: &R) -> Answer {
        let Some(mut task) = self.kept.pop() else {
            return Answer::Nothing;
        };
        let _ = self.pass.propose(rt.alloc(), &mut task);
        entry(self.pass.commit(rt, rt.alloc(), task))
    }

    fn direct<R: AllocGlobal + Wait>(&mut self, rt: &R, e: Event) -> Answer {
        entry(self.pass.direct(rt, rt.alloc(), e))
    }
}

impl<'h, 'a, J: Naming> Passing<'h, 'a, J> {
    fn of(alloc: Global, hall: &'h SharedHall<'a, J>, number: u32) -> Passing<'h, 'a, J> {
        Passing {
            pass: hall.pass(number),
            kept: Vec::new(alloc),
        }
    }
}

/// Whether two passes of a hall are answered so.
fn both_answer<J: Naming, R: Abort + AllocGlobal + Wait>(
    rt: &R,
    hall: &SharedHall<'_, J>,
    rows: &[(Call, Want)],
) -> bool {
    let mut first = Passing::of(rt.alloc(), hall, 0);
    let mut second = Passing::of(rt.alloc(), hall, 1);
    answers(rt, &mut first, &mut second, rows)
}

/// A hall over a program, which two passes share.
fn shared<'a, J: Naming>(
    alloc: Global,
    code: &'a Checked,
    budget: u64,
) -> Result<SharedHall<'a, J>, NoMemory>
    requires most { budget ≤ BOOK_LIMIT }
    requires program { code.now ≡ J.program }
    requires options { options_of 256 Deep ≡ J.options }
    requires budget { budget ≡ J.budget }
{
    Ok(SharedHall::new(Hall::start(alloc, code, budget, 256)?))
}

/// Whether two passes of a hall over a program are answered so.
fn go_so<J: Naming, R: Abort + AllocGlobal + Wait>(
    rt: &R,
    code: &Checked,
    budget: u64,
    rows: &[(Call, Want)],
) -> bool
    requires most { budget ≤ BOOK_LIMIT }
    requires program { code.now ≡ J.program }
    requires options { options_of 256 Deep ≡ J.options }
    requires budget { budget ≡ J.budget }
{
    match shared::<J>(rt.alloc(), code, budget) {
        Ok(hall) => both_answer(rt, &hall, rows),
        Err(_) => false,
    }
}

fn goes_so<R: Abort + AllocGlobal + Wait>(
    rt: &R,
    budget: u64,
    rows: &[(Call, Want)],
) -> Result<bool, Fail>
    requires { budget ≤ BOOK_LIMIT }
{
    let code = checked(rt.alloc(), SEVEN)?;
    Ok(go_so::<Brand, R>(rt, &code, budget, rows))
}

// Within a budget of one entry.
const ONE_ENTRY: &[(Call, Want)] = &[
    (Call::Claim(0, 5), Want::Unknown(1)),
    (Call::Claim(0, 0), Want::LendsNone),
    (Call::Claim(1, 0), Want::Busy(0)),
    (Call::Commit(0), Want::At(0)),
    (Call::Claim(1, 0), Want::Lends(0, 1)),
    (Call::Commit(1), Want::Budget(1)),
    (Call::Look, Want::Stop),
];

#[test]
fn shared_passes_answer_as_the_hall_says(rt: HostRuntime) -> Result<(), Fail> {
    assert!(rt; goes_so(&rt, 1, ONE_ENTRY)?);
    assert!(rt; goes_so(&rt, 20, BY_EVENTS)?);
    Ok(())
}
