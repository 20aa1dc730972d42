// One actor.

ghost use Rattle.std.specs.Prelude.{◌≡◌, Some, None, IfOk};
ghost use Rattle.std.specs.Bool.{OnTrue, OnFalse};
ghost use Rattle.behaviour_code.specs.WellFormed.{IsWellFormed};
ghost use Rattle.plain_rules.specs.Machine.{actor_after_take, fresh_actor, first_actor as the_first};

use behaviour_check::Checked;
use behaviour_code::Program;
use orca_names::{Args, Fields, NoMemory};
use plain_list::{Listed, Queue};
use plain_rules::{PlainActor, PlainLetter};
use std::alloc::Global;
use turn_rules::FrameRoom;
use turn_step::start_frame;

/// An actor of a kind that is just made. It takes no memory.
#[inline(always)]
pub(crate) fn fresh_actor(alloc: Global, program: &Program, kind: u32) -> PlainActor
    requires { IsWellFormed program.now }
    ensures { result ≡ fresh_actor program.now kind }
{
    PlainActor {
        kind,
        fields: Fields {
            values: Args::nulls(program.field_count(kind) as usize),
            pinned: false,
        },
        frame: FrameRoom::new(),
        letters: Queue::new(alloc),
        rows: Listed::new(alloc),
    }
}

/// The first actor, with the letter `start`.
pub(crate) fn first_actor(alloc: Global, program: &Program) -> Result<PlainActor, NoMemory>
    requires { IsWellFormed program.now }
    ensures { IfOk result (λ x. x ≡ the_first program.now) }
{
    let mut actor = fresh_actor(alloc, program, 0);
    if let Some(behaviour) = program.start_name() {
        actor.letters.push_back(PlainLetter {
            behaviour,
            args: Args::new(),
        })?;
    }
    Ok(actor)
}

/// Takes the first letter, where there is one and no frame.
pub(crate) fn take_letter(code: &Checked, actor: &mut PlainActor) -> bool
    ensures done { OnTrue result (actor_after_take code.now actor.old ≡ Some actor.new) }
    ensures not_ready { OnFalse result ((actor_after_take code.now actor.old ≡ None)
        × (actor.new ≡ actor.old)) }
{
    if actor.frame.is_some() {
        return false;
    }
    let Some(letter) = actor.letters.front() else {
        return false;
    };
    let frame = &mut actor.frame;
    start_frame(code, actor.kind, letter.behaviour, &letter.args, frame);
    actor.letters.drop_first();
    true
}
