// How a behaviour starts.

ghost use Rattle.std.specs.Prelude.{◌≡◌, ◌≢◌, ◌<◌, ◌==◌, length, None, IfSome, position, AllPairs, true};
ghost use Rattle.behaviour_code.specs.Find.{behaviours_of, takes_call};
ghost use Rattle.turn_rules.specs.Frames.{frame_for};

use behaviour_check::Checked;
use behaviour_code::{Behaviour, Behaviours, Name};
use orca_names::Args;
use turn_rules::{BoxedFrame, FrameRoom, SpareFrame};

fn takes(b: &Behaviour, arguments: u64) -> bool
    ensures { result ≡ (b.now.parameters == arguments) }
{
    u64::from(b.parameters) == arguments
}

fn search_behaviour(behaviours: &[Behaviour], name: Name, arguments: u64) -> Option<usize>
    ensures value { result ≡ position (takes_call name arguments) behaviours.now }
    ensures within { IfSome result (λ i. i < length behaviours.now) }
{
    behaviours
        .iter()
        .position(|b| b.name == name && takes(b, arguments))
}

/// The place of the behaviour that a call starts: the only one of the name where it is guessed,
/// else by a search.
fn behaviour_place(behaviours: &Behaviours, name: Name, arguments: u64) -> Option<usize>
    requires once { AllPairs (λ b c. b.name ≢ c.name) behaviours.now }
    ensures value { result ≡ position (takes_call name arguments) behaviours.now }
    ensures within { IfSome result (λ i. i < length behaviours.now) }
{
    let list = behaviours.as_slice();
    let place = behaviours.guess(name);
    match list.get(place) {
        Some(b) if b.name == name => if takes(b, arguments) {
            Some(place)
        } else {
            None
        },
        _ => search_behaviour(list, name, arguments),
    }
}

/// The place of the behaviour that a call starts, if the kind has one of this name with as many
/// parameters as there are arguments.
fn called(code: &Checked, kind: u32, name: Name, arguments: u64) -> Option<u8>
    ensures { result ≡ position (takes_call name arguments) (behaviours_of code.now kind) }
{
    if let Some(found) = code.program().kinds.get(kind as usize) {
        if let Some(place) = behaviour_place(&found.behaviours, name, arguments) {
            return Some(place as u8);
        }
    }
    None
}

/// Starts the frame of a call, if the kind has a behaviour of this name with as many parameters as
/// there are arguments.
pub fn start_frame(code: &Checked, kind: u32, behaviour: Name, args: &Args, frame: &mut FrameRoom)
    requires idle { frame.old ≡ None }
    ensures { frame.new ≡ frame_for code.now kind behaviour args.now }
{
    if let Some(place) = called(code, kind, behaviour, args.len()) {
        frame.start(kind, place, args);
    }
}

/// As `start_frame`, in the memory that was taken for the frame.
pub fn start_boxed(
    code: &Checked,
    kind: u32,
    behaviour: Name,
    args: &Args,
    frame: &mut BoxedFrame,
    spare: &mut SpareFrame,
)
    requires idle { frame.old ≡ None }
    requires room { spare.old ≡ true }
    ensures { frame.new ≡ frame_for code.now kind behaviour args.now }
{
    if let Some(place) = called(code, kind, behaviour, args.len()) {
        frame.start(spare, kind, place, args);
    }
}
