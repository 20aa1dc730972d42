// Names that are given once, what stands where no kind does, and guesses of places.

use crate::programs::program;
use crate::rule_tests::place_in;
use crate::table::holds;
use behaviour_code::{Behaviour, Behaviours, Instr, Name, Names, Program, Target};
use plain_list::Listed;
use std::alloc::Global;
use std::test::Fail;

/// Whether the third name is the longest one, and there is no fourth.
fn has_three(names: &Names) -> bool {
    names.len() == 3
        && names.text_or_empty(Name(2)) == "start_"
        && names.text_or_empty(Name(3)) == ""
}

fn are_given_once(alloc: Global) -> Result<bool, Fail> {
    let mut names = Names::new(alloc);
    let start = names.intern("start")?;
    let main = names.intern("Main")?;
    let longer = names.intern("start_")?;
    let again = names.intern("Main")?;
    let places = [start, main, longer, again];
    Ok(places == [Name(0), Name(1), Name(2), Name(1)] && has_three(&names))
}

#[test]
fn names_are_given_once(rt: HostRuntime) -> Result<(), Fail> {
    holds(are_given_once(rt.alloc())?, "names are given once")
}

/// Whether a program of one kind, named as its one behaviour, has what it has, and nothing beyond.
fn has_one_kind(program: &Program) -> bool {
    program.names.len() == 1
        && program.name_text(Name(0)) == "start"
        && program.field_count(0) == 3
        && program.field_count(1) == 0
        && program.body(0, 0).len() == 1
        && program.body(0, 1).is_empty()
        && program.behaviours(1).is_empty()
}

/// Fails where the program of a text has another start, or not one kind.
fn starts_at(alloc: Global, text: &str, want: Option<Name>) -> Result<(), Fail> {
    let program = program(alloc, text)?;
    holds(program.start_name() == want && has_one_kind(&program), text)
}

#[test]
fn a_start_has_no_parameters(rt: HostRuntime) -> Result<(), Fail> {
    let alloc = rt.alloc();
    starts_at(alloc, "kind start 3\non start 0\npin\nend\n", Some(Name(0)))?;
    starts_at(alloc, "kind start 3\non start 1\npin\nend\n", None)
}

/// Whether the places of behaviours 7, 3 and 71 are guessed, of which the first and the last share a guess.
fn guesses_so(behaviours: &Behaviours) -> bool {
    behaviours.guess(Name(3)) == 1
        && behaviours.guess(Name(71)) == 2
        && behaviours.guess(Name(7)) == 2
        && behaviours.guess(Name(4)) == 255
}

fn copies_so(behaviours: &Behaviours) -> Result<bool, Fail> {
    let copy = behaviours.clone()?;
    Ok(copy == *behaviours && copy.guess(Name(3)) == 1 && copy.len() == 3)
}

fn behaviours_named(alloc: Global, names: [u32; 3]) -> Result<Behaviours, Fail> {
    let mut list = Listed::new(alloc);
    for name in names {
        list.push(Behaviour {
            name: Name(name),
            parameters: 0,
            body: Listed::new(alloc),
        })?;
    }
    Ok(Behaviours::from(list))
}

#[test]
fn places_are_guessed_by_names(rt: HostRuntime) -> Result<(), Fail> {
    let behaviours = behaviours_named(rt.alloc(), [7, 3, 71])?;
    holds(
        guesses_so(&behaviours) && copies_so(&behaviours)?,
        "the guesses",
    )
}

/// The place that a copy of an instruction keeps, if the copy is equal to another one.
fn copied_place(instr: &Instr, other: &Instr) -> Result<Option<u32>, Fail> {
    let copy = instr.clone()?;
    Ok(if copy == *other {
        place_in(&copy)
    } else {
        None
    })
}

/// Fails where the place of such an instruction isn't set and copied, or is a part of it.
fn is_placed(instr: &Instr, what: &str) -> Result<(), Fail> {
    let mut placed = instr.clone()?;
    placed.set_place(9);
    holds(copied_place(&placed, instr)? == Some(9), what)
}

#[test]
fn a_place_is_no_part_of_an_instruction() -> Result<(), Fail> {
    is_placed(&Instr::Jump(Target::of(Name(4))), "jump")?;
    is_placed(&Instr::JumpZero(1, Target::of(Name(4))), "jzero")?;
    is_placed(&Instr::New(2, Target::of(Name(4))), "new")
}
