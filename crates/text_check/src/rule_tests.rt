// Each rule at its place, the first place, and the lowest rule there; the places that the check keeps.

use crate::programs::program;
use crate::table::{Asked, Table, holds, same_text};
use behaviour_check::{CheckFault, check};
use behaviour_code::{Instr, Names, Program};
use plain_list::Listed;
use std::alloc::Global;
use std::test::Fail;

// Bodies of the first behaviour of the first kind, which has two fields, and where a rule fails
// first: kind, behaviour, step and rule.
const BODIES: Table = Table {
    asked: Asked::Rules,
    head: "kind A 2\non start 0\n",
    rows: "\
no fault|print r15\nstore f1 r15\nload r15 f1\nnew r0 A\n;\
no fault|send r0 start r15\nrow r15 r0\nadd r0 r1 r15\n;\
1 1 2 5|print r0\nprint r16\nlabel x\nlabel x\n;\
1 1 1 5|add r0 r1 r16\n;\
1 1 1 5|add r0 r16 r1\n;\
1 1 1 5|send r0 start r16\n;\
1 1 1 5|row r0 r16\n;\
1 1 1 5|store f2 r16\n;\
1 1 1 6|load r0 f2\n;\
1 1 2 6|print r0\nstore f2 r0\n;\
1 1 1 3|new r16 B\n;\
1 1 1 4|jzero r16 x\nlabel y\n;\
no fault|jzero r0 x\njump x\nlabel x\n;\
1 1 2 4|label x\njump x\n;\
1 1 3 2|label x\nlabel y\nlabel x\nprint r16\n",
    tail: "end\n",
};

// Kinds, and where a rule fails first: kind, behaviour, step and rule.
const KINDS: Table = Table {
    asked: Asked::Rules,
    head: "",
    rows: "\
0 0 0 1|;\
0 0 0 1|kind A 2\non start 1\nlabel x\nend\non b 0\nlabel x\nend\nkind B 2\non start 0\nlabel x\nend\n;\
no fault|kind A 2\non b 2\nlabel x\nend\non start 0\nlabel x\nend\nkind B 2\non start 0\nlabel x\nend\n;\
2 3 0 2|kind A 2\non start 0\nend\nkind B 2\non b 0\nend\non c 0\nend\non b 1\nend\n;\
3 0 0 2|kind A 2\non start 0\nend\nkind B 2\nkind A 2\non b 0\nend\non b 0\nend\n",
    tail: "",
};

/// Where a rule fails first in a text.
pub fn broken_in(alloc: Global, text: &str) -> Result<String, Fail> {
    match check(program(alloc, text)?) {
        Err(fault) => told_of(alloc, &fault),
        Ok(_) => Ok(String::from_str(alloc, "no fault")?),
    }
}

fn told_of(alloc: Global, fault: &CheckFault) -> Result<String, Fail> {
    let CheckFault {
        kind,
        behaviour,
        step,
        rule,
    } = *fault;
    Ok(format!(in alloc; "{kind} {behaviour} {step} {rule}")?)
}

#[test]
fn bodies_are_refused_at_their_first_place(rt: HostRuntime) -> Result<(), Fail> {
    BODIES.holds(rt.alloc())
}

#[test]
fn names_are_given_once_and_a_start_is_there(rt: HostRuntime) -> Result<(), Fail> {
    KINDS.holds(rt.alloc())
}

/// The fault of a program without kinds.
fn fault_without_kinds(alloc: Global) -> Option<CheckFault> {
    let program = Program {
        kinds: Listed::new(alloc),
        names: Names::new(alloc),
    };
    check(program).err()
}

#[test]
fn a_program_without_kinds_is_refused(rt: HostRuntime) -> Result<(), Fail> {
    let want = CheckFault {
        kind: 0,
        behaviour: 0,
        step: 0,
        rule: 1,
    };
    holds(fault_without_kinds(rt.alloc()) == Some(want), "no kinds")
}

#[test]
fn a_fault_tells_its_rule_and_its_place(rt: HostRuntime) -> Result<(), Fail> {
    let fault = CheckFault {
        kind: 1,
        behaviour: 2,
        step: 3,
        rule: 4,
    };
    let told = fault.to_string(rt.alloc())?;
    same_text(told.as_str(), "rule 4 fails at kind 1, behaviour 2, step 3")
}

/// The place that an instruction keeps beside a name.
pub fn place_in(instr: &Instr) -> Option<u32> {
    match instr {
        Instr::Jump(label) | Instr::JumpZero(_, label) => Some(label.place()),
        Instr::New(_, kind) => Some(kind.place()),
        _ => None,
    }
}

/// The places that a body keeps.
fn places_in(alloc: Global, body: &[Instr]) -> Result<Vec<Option<u32>>, Fail> {
    let mut places = Vec::new(alloc);
    for instr in body {
        places.push(place_in(instr))?;
    }
    Ok(places)
}

/// Fails where a body keeps other places.
fn keeps(alloc: Global, body: &[Instr], want: &[Option<u32>]) -> Result<(), Fail> {
    let places = places_in(alloc, body)?;
    holds(places.as_slice() == want, "the places")
}

const PLACES: &[Option<u32>] = &[Some(5), Some(1), None, Some(5), Some(0), None];

fn keeps_its_places(alloc: Global, program: &Program) -> Result<(), Fail> {
    keeps(alloc, program.body(1, 1), PLACES)
}

#[test]
fn places_are_kept(rt: HostRuntime) -> Result<(), Fail> {
    let text =
        "kind A 0\non start 0\nend\nkind B 2\non b 0\nend\non c 0\njump x\nnew r0 B\nlabel y\njzero r0 x\nnew r0 A\nlabel x\nend\n";
    let placed = check(program(rt.alloc(), text)?)?;
    keeps_its_places(rt.alloc(), placed.program())
}
