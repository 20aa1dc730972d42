// Reports and refusal lines as literal text.

ghost use Rattle.report_text.specs.Ends.{IsEnd};
ghost use Rattle.report_text.specs.Refusals.{HasRefusal};

use crate::table::{holds, same_bytes};
use orca_names::{
    ActorName, Edge, KeptReport, ObjName, Parting, Reason, Serial, Sums, Tally, Thing, Value, Why,
};
use plain_list::Listed;
use report_text::{Numbers, Status, audit_report, refusal_line, report, why_lines};
use run_book::{Book, read_text, split_at_book};
use std::alloc::Global;
use std::test::Fail;

const NONE: Numbers = Numbers { made: 0, left: 0 };

const ONE: Numbers = Numbers { made: 1, left: 0 };

const TWO: Numbers = Numbers { made: 2, left: 2 };

const ALL: Numbers = Numbers {
    made: 65536,
    left: 65536,
};

const MAIN: ActorName = ActorName(0);

/// A thing by numbers.
#[derive(Clone, Copy)]
enum Named {
    Actor(u32),
    /// An object of the first actor, by its serial.
    Object(u64),
}

fn object(serial: u64) -> ObjName {
    ObjName {
        owner: MAIN,
        serial: Serial::of(serial),
    }
}

fn thing_of(named: Named) -> Thing {
    match named {
        Named::Actor(a) => Thing::Actor(ActorName(a)),
        Named::Object(serial) => Thing::Obj(object(serial)),
    }
}

/// Fails where a report with this book, if one is asked for, is another text.
fn reports(
    alloc: Global,
    status: &Status,
    prints: &[Value],
    actors: Numbers,
    book: Option<&Book>,
    text: &str,
) -> Result<(), Fail>
    requires { IsEnd status.now }
{
    let bytes = report(alloc, status, prints, actors, NONE, None, book)?;
    same_bytes(bytes.as_slice(), text)
}

#[test]
fn a_program_that_prints_seven(rt: HostRuntime) -> Result<(), Fail> {
    let text = "7\n--\nend quiet\nactors made 1 left 0\nobjects made 0 left 0\n";
    reports(
        rt.alloc(),
        &Status::Quiet,
        &[Value::Num(7)],
        ONE,
        None,
        text,
    )
}

/// Fails where a report with the book at the end of a text is another text.
fn reports_with_book(
    alloc: Global,
    status: &Status,
    prints: &[Value],
    actors: Numbers,
    text: &str,
) -> Result<(), Fail>
    requires { IsEnd status.now }
{
    let (_, behind) = split_at_book(text.as_bytes());
    let book = read_text(alloc, behind)?;
    reports(alloc, status, prints, actors, Some(&book), text)
}

#[test]
fn a_report_with_its_book(rt: HostRuntime) -> Result<(), Fail> {
    let five =
        "7\n--\nend quiet\nactors made 1 left 0\nobjects made 0 left 0\nbook 2 256\ntake 0\ngo 0\ngo 0\ncollect 0\nleave 0\n";
    reports_with_book(rt.alloc(), &Status::Quiet, &[Value::Num(7)], ONE, five)?;
    let none = "--\nend budget\nactors made 0 left 0\nobjects made 0 left 0\nbook 2 256 roots\n";
    reports_with_book(rt.alloc(), &Status::Budget, &[], NONE, none)
}

// Things with their count, and what is held on them, by actors and by letters.
const COUNTED: &[(Named, u64, u64, u64)] = &[
    (Named::Actor(0), 1, 0, 1),
    (Named::Object(0), 1, 0, 1),
    (Named::Object(1), 1, 0, 1),
    (Named::Actor(1), 256, 256, 0),
];

fn tally_of(alloc: Global, counted: &[(Named, u64, u64, u64)]) -> Result<Tally, Fail> {
    let mut sums = Listed::new(alloc);
    for (named, count, held, letters) in counted {
        sums.push(Sums {
            thing: thing_of(*named),
            count: *count,
            inc: 0,
            dec: 0,
            held: *held,
            letters: *letters,
        })?;
    }
    Ok(Tally { sums })
}

/// Fails where a report with these counts is another text.
fn counts(alloc: Global, tally: &Tally, text: &str) -> Result<(), Fail> {
    let bytes = report(alloc, &Status::Budget, &[], TWO, TWO, Some(tally), None)?;
    same_bytes(bytes.as_slice(), text)
}

#[test]
fn counts_of_what_is_left(rt: HostRuntime) -> Result<(), Fail> {
    let text =
        "--\nend budget\nactors made 2 left 2\nobjects made 2 left 2\nactor 0 count 1 inc 0 dec 0 held 0 letters 1\nobject 0.0 count 1 inc 0 dec 0 held 0 letters 1\nobject 0.1 count 1 inc 0 dec 0 held 0 letters 1\nactor 1 count 256 inc 0 dec 0 held 256 letters 0\n";
    counts(rt.alloc(), &tally_of(rt.alloc(), COUNTED)?, text)
}

#[test]
fn prints_of_each_kind(rt: HostRuntime) -> Result<(), Fail> {
    let text =
        "actor 0\nobject 0.0\nnull\n18446744073709551615\n--\nend actors\nactors made 65536 left 65536\nobjects made 0 left 0\n";
    let full = Status::ActorsFull { actor: MAIN };
    let prints = [
        Value::Actor(MAIN),
        Value::Obj(object(0)),
        Value::Null,
        Value::Num(u64::MAX),
    ];
    reports(rt.alloc(), &full, &prints, ALL, None, text)
}

#[test]
fn a_run_without_a_free_block(rt: HostRuntime) -> Result<(), Fail> {
    let text = "--\nend rows\nactors made 1 left 0\nobjects made 0 left 0\n";
    let full = Status::RowsFull { actor: MAIN };
    reports(rt.alloc(), &full, &[], ONE, None, text)?;
    let codes = [full.code(), Status::ActorsFull { actor: MAIN }.code()];
    holds(codes == [11, 6], "the codes of ends for want of room")
}

/// Fails where a call that ends so has another code, or is refused with another line.
fn refuses(alloc: Global, status: &Status, code: u8, line: &str) -> Result<(), Fail>
    requires { HasRefusal status.now }
{
    holds(status.code() == code, line)?;
    same_bytes(refusal_line(alloc, status)?.as_slice(), line)
}

#[test]
fn refusals_and_codes(rt: HostRuntime) -> Result<(), Fail> {
    let alloc = rt.alloc();
    let text = Status::BadText {
        line: 1027,
        kind: 9,
    };
    let program = Status::BadProgram {
        kind: 1,
        behaviour: 2,
        step: 3,
        rule: 5,
    };
    refuses(alloc, &Status::BadWords, 2, "refused words\n")?;
    refuses(alloc, &Status::ReadFault, 7, "refused read\n")?;
    refuses(alloc, &Status::TooLong, 10, "refused length\n")?;
    refuses(alloc, &text, 3, "refused text line 1027 kind 9\n")?;
    let line = "refused program kind 1 behaviour 2 step 3 rule 5\n";
    refuses(alloc, &program, 4, line)?;
    let others = [
        Status::Quiet.code(),
        Status::WriteFault.code(),
        Status::NoMemory.code(),
    ];
    holds(others == [0, 8, 9], "the codes of ends without a line")
}

/// Fails where a book that isn't read has another line.
fn refuses_book(alloc: Global, line: u32, kind: u8, text: &str) -> Result<(), Fail> {
    refuses(alloc, &Status::BadBook { line, kind }, 12, text)
}

/// Fails where a book that tells no run has another line.
fn refuses_run(alloc: Global, place: u64, cause: u8, text: &str) -> Result<(), Fail> {
    refuses(alloc, &Status::NotARun { place, cause }, 13, text)
}

#[test]
fn books_that_are_refused(rt: HostRuntime) -> Result<(), Fail> {
    let alloc = rt.alloc();
    refuses_book(alloc, 1, 1, "refused book line 1 kind 1\n")?;
    let long = "refused book line 100000002 kind 3\n";
    refuses_book(alloc, 100_000_002, 3, long)?;
    refuses_run(alloc, 1, 1, "run no entry 1 cause 1\n")?;
    refuses_run(alloc, 7, 2, "run no entry 7 cause 2\n")?;
    holds(Status::Audited.code() == 0, "the code of an audit")
}

/// Fails where the report of an audit with one actor and no object is another text.
fn audits_so(
    alloc: Global,
    is_quiet: bool,
    prints: &[Value],
    entries: u64,
    left: u64,
    text: &str,
) -> Result<(), Fail> {
    let actors = Numbers { made: 1, left };
    let bytes = audit_report(alloc, is_quiet, prints, entries, actors, NONE)?;
    same_bytes(bytes.as_slice(), text)
}

#[test]
fn audits(rt: HostRuntime) -> Result<(), Fail> {
    let quiet =
        "7\n--\nrun yes\nentries 5\nend quiet\nactors made 1 left 0\nobjects made 0 left 0\n";
    let open = "--\nrun yes\nentries 2\nend open\nactors made 1 left 1\nobjects made 0 left 0\n";
    audits_so(rt.alloc(), true, &[Value::Num(7)], 5, 0, quiet)?;
    audits_so(rt.alloc(), false, &[], 2, 1, open)
}

/// Why a thing is left, with another thing by its numbers.
enum Cause {
    Pinned,
    Letter,
    Frame,
    Loose,
    By(Named, Edge),
}

/// A thing, its level, and why it is left.
type Left = (Named, u64, Cause);

const PINNED: &[Left] = &[(Named::Actor(0), 0, Cause::Pinned)];

const LEFT: &[Left] = &[
    (Named::Actor(0), 0, Cause::Pinned),
    (
        Named::Object(0),
        1,
        Cause::By(Named::Actor(0), Edge::Field(0)),
    ),
    (
        Named::Object(0),
        1,
        Cause::By(
            Named::Actor(1),
            Edge::Letter {
                letter: 0,
                argument: 0,
            },
        ),
    ),
    (
        Named::Object(1),
        1,
        Cause::By(
            Named::Actor(1),
            Edge::Letter {
                letter: 0,
                argument: 1,
            },
        ),
    ),
    (Named::Actor(1), 0, Cause::Letter),
    (Named::Actor(1), 0, Cause::Frame),
    (
        Named::Object(1),
        1,
        Cause::By(Named::Actor(1), Edge::Register(15)),
    ),
    (
        Named::Actor(0),
        1,
        Cause::By(
            Named::Actor(1),
            Edge::Letter {
                letter: 12,
                argument: 7,
            },
        ),
    ),
    (
        Named::Object(1),
        2,
        Cause::By(Named::Object(0), Edge::Place(3)),
    ),
    (Named::Actor(0), 3, Cause::By(Named::Object(1), Edge::Owner)),
    (Named::Actor(1), 0, Cause::Loose),
    (Named::Object(1), 0, Cause::Loose),
];

fn why_of(cause: &Cause) -> Why {
    match cause {
        Cause::Pinned => Why::Pinned,
        Cause::Letter => Why::Letter,
        Cause::Frame => Why::Frame,
        Cause::Loose => Why::Loose,
        Cause::By(parent, edge) => Why::By {
            parent: thing_of(*parent),
            edge: *edge,
        },
    }
}

fn reasons_of(alloc: Global, left: &[Left]) -> Result<Vec<Reason>, Fail> {
    let mut reasons = Vec::new(alloc);
    for (named, level, cause) in left {
        reasons.push(Reason {
            thing: thing_of(*named),
            level: *level,
            why: why_of(cause),
        })?;
    }
    Ok(reasons)
}

/// Fails where these partings, and why these things are left, are told otherwise.
fn tells(alloc: Global, partings: &[Parting], left: &[Left], text: &str) -> Result<(), Fail> {
    let reasons = reasons_of(alloc, left)?;
    same_bytes(
        why_lines(alloc, partings, reasons.as_slice())?.as_slice(),
        text,
    )
}

#[test]
fn why_each_thing_is_left(rt: HostRuntime) -> Result<(), Fail> {
    let text =
        "kept actor 0 level 0 pinned\nkept object 0.0 level 1 by actor 0 field 0\nkept object 0.0 level 1 by actor 1 letter 0 argument 0\nkept object 0.1 level 1 by actor 1 letter 0 argument 1\nkept actor 1 level 0 letter\nkept actor 1 level 0 frame\nkept object 0.1 level 1 by actor 1 register 15\nkept actor 0 level 1 by actor 1 letter 12 argument 7\nkept object 0.1 level 2 by object 0.0 place 3\nkept actor 0 level 3 by object 0.1 owner\nloose actor 1\nloose object 0.1\n";
    tells(rt.alloc(), &[], LEFT, text)
}

/// What one actor holds on others.
type Holds = &'static [(u32, u64)];

fn held_of(alloc: Global, holds: Holds) -> Result<Listed<(ActorName, u64)>, Fail> {
    let mut held = Listed::new(alloc);
    for (actor, count) in holds {
        held.push((ActorName(*actor), *count))?;
    }
    Ok(held)
}

/// Adds a member with the count 1 that holds these.
fn push_member(
    alloc: Global,
    members: &mut Listed<KeptReport>,
    actor: u32,
    holds: Holds,
) -> Result<(), Fail> {
    let held = held_of(alloc, holds)?;
    let actor = ActorName(actor);
    Ok(members.push(KeptReport {
        actor,
        count: 1,
        held,
    })?)
}

/// The members that have these names.
fn members_of(alloc: Global, members: &[(u32, Holds)]) -> Result<Listed<KeptReport>, Fail> {
    let mut list = Listed::new(alloc);
    for (actor, holds) in members {
        push_member(alloc, &mut list, *actor, holds)?;
    }
    Ok(list)
}

/// Adds a token that was reaped with these members.
fn push_reaped(
    alloc: Global,
    partings: &mut Vec<Parting>,
    token: u64,
    members: &[(u32, Holds)],
) -> Result<(), Fail> {
    let members = members_of(alloc, members)?;
    Ok(partings.push(Parting::Reaped { token, members })?)
}

#[test]
fn who_was_reaped(rt: HostRuntime) -> Result<(), Fail> {
    is_told_reaped(rt.alloc(), &mut Vec::new(rt.alloc()))
}

fn is_told_reaped(alloc: Global, partings: &mut Vec<Parting>) -> Result<(), Fail> {
    let text =
        "reaped token 1\nmember actor 1 count 1 holds 2 1\nmember actor 2 count 1 holds 1 1\nkept actor 0 level 0 pinned\n";
    push_reaped(alloc, partings, 1, EACH_OTHER)?;
    tells(alloc, partings.as_slice(), PINNED, text)
}

const EACH_OTHER: &[(u32, Holds)] = &[(1, &[(2, 1)]), (2, &[(1, 1)])];

const TWO_MEMBERS: &[(u32, Holds)] = &[(3, &[]), (5, &[(0, 7), (3, 256)])];

#[test]
fn who_went(rt: HostRuntime) -> Result<(), Fail> {
    tells(rt.alloc(), &[], &[], "")?;
    are_told_gone(rt.alloc(), &mut Vec::new(rt.alloc()))
}

fn are_told_gone(alloc: Global, partings: &mut Vec<Parting>) -> Result<(), Fail> {
    let text =
        "gone actor 0\nreaped token 2\nmember actor 3 count 1\nmember actor 5 count 1 holds 0 7 holds 3 256\nkept actor 0 level 0 pinned\n";
    partings.push(Parting::Left { actor: MAIN })?;
    push_reaped(alloc, partings, 2, TWO_MEMBERS)?;
    tells(alloc, partings.as_slice(), PINNED, text)
}
