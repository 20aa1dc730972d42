// Where names stand, kept beside them. A place is a guess, so contracts say nothing of it.

ghost use Rattle.std.specs.Prelude.{◌≡◌};

use behaviour_code::{Behaviour, Behaviours, Instr, Kind, Program};
use plain_list::Listed;
use std::alloc::Global;
use std::mem;

/// The place of what an instruction leads to: of a label in the body, or of a kind.
fn place_led_to(kinds: &[Kind], body: &[Instr], instr: &Instr) -> Option<usize> {
    match instr {
        Instr::Jump(label) | Instr::JumpZero(_, label) => {
            body.iter().position(|other| other.is_label(label.name()))
        }
        Instr::New(_, name) => kinds.iter().position(|kind| kind.name == name.name()),
        _ => None,
    }
}

/// A place as it is kept, the highest where there is none.
fn kept(place: Option<usize>) -> u32 {
    match place {
        Some(place) => u32::try_from(place).unwrap_or(u32::MAX),
        None => u32::MAX,
    }
}

fn placed_body(kinds: &[Kind], body: Listed<Instr>) -> Listed<Instr>
    ensures { result ≡ body }
{
    let mut instrs = body.into_vec();
    for i in 0..instrs.len() {
        let place = kept(place_led_to(kinds, instrs.as_slice(), &instrs[i]));
        instrs[i].set_place(place);
    }
    Listed::from(instrs)
}

fn place_behaviour(alloc: Global, kinds: &[Kind], behaviour: &mut Behaviour)
    ensures { behaviour.new ≡ behaviour.old }
{
    let body = mem::replace(&mut behaviour.body, Listed::new(alloc));
    behaviour.body = placed_body(kinds, body);
}

fn placed_behaviours(alloc: Global, kinds: &[Kind], behaviours: Behaviours) -> Behaviours
    ensures { result ≡ behaviours }
{
    let mut list = behaviours.into_vec();
    for behaviour in list.iter_mut() {
        place_behaviour(alloc, kinds, behaviour);
    }
    Behaviours::from(list)
}

fn placed_kinds(kinds: Listed<Kind>) -> Listed<Kind>
    ensures { result ≡ kinds }
{
    let mut kinds = kinds.into_vec();
    let alloc = *kinds.allocator();
    for i in 0..kinds.len() {
        let none = Behaviours::from(Listed::new(alloc));
        let behaviours = mem::replace(&mut kinds[i].behaviours, none);
        kinds[i].behaviours = placed_behaviours(alloc, kinds.as_slice(), behaviours);
    }
    Listed::from(kinds)
}

/// The program, with the places of what its instructions lead to. It takes no memory.
pub(crate) fn with_places(program: Program) -> Program
    ensures { result ≡ program }
{
    Program {
        kinds: placed_kinds(program.kinds),
        names: program.names,
    }
}
