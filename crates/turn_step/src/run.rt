// A turn in place, up to its next act.

ghost use Rattle.std.specs.Prelude.{◌≡◌, ◌+◌, ◌≤◌, length, drop, slice_get, false, None, IfOk, OnOk};
ghost use Rattle.std.specs.Option.{option_map_or};
ghost use Rattle.behaviour_code.specs.Find.{is_label};
ghost use Rattle.behaviour_check.specs.Keeps.{LabelsDiffer};
ghost use Rattle.turn_rules.specs.Segment.{gets_from, run_from, segment_of};
ghost use Rattle.turn_step.specs.Held.{first_needed, needed_in};
ghost use Rattle.turn_step.specs.Turns.{HaltsAt, act_of, place_after, setting_of};
ghost use Rattle.orca_names.specs.declared.limits.TheConstants.{BODY_LIMIT};

use crate::deed::{Deed, Halt, Lead, Stopped};
use crate::held::AllHeld;
use crate::setting::Setting;
use crate::step::step;
use crate::turn::Turn;
use behaviour_code::{Instr, Name, Target};
use orca_names::{Fields, HeldTest, NoMemory, RowReader};
use turn_rules::Frame;

fn is_label_at(body: &[Instr], place: usize, name: Name) -> bool
    ensures { result ≡ option_map_or (is_label name) (slice_get body.now place) false }
{
    match body.get(place) {
        Some(instr) => instr.is_label(name),
        None => false,
    }
}

/// The place behind the next label of this name, or behind the body, by a search.
fn search_label(body: &[Instr], from: usize, name: Name) -> usize
    requires { from ≤ length body.now }
    ensures place { result ≡ place_after name (drop from body.now) from }
    ensures above { from ≤ result }
    ensures within { result ≤ length body.now }
{
    let mut at = from;
    while at < body.len() {
        at += 1;
        if body[at - 1].is_label(name) {
            return at;
        }
    }
    at
}

/// The place behind the next label of this name, or behind the body. Where the check found the
/// label it is looked for first: a label stands once in a body, so one ahead is the next one.
#[tactic(auto, using(crate::proofs::Guesses::label_guessed, crate::proofs::Guesses::label_within))]
fn after_label(body: &[Instr], from: usize, label: &Target) -> usize
    requires ahead { from ≤ length body.now }
    requires once { LabelsDiffer body.now }
    ensures place { result ≡ place_after label.now (drop from body.now) from }
    ensures above { from ≤ result }
    ensures within { result ≤ length body.now }
{
    let place = label.place() as usize;
    if from <= place && is_label_at(body, place, label.name()) {
        place + 1
    } else {
        search_label(body, from, label.name())
    }
}

/// Runs a body from a place on, until its next act or until it gets what is needed.
fn run<'p, R: RowReader, H: HeldTest>(
    setting: &Setting<'_>,
    rows: &mut R,
    held: &H,
    body: &'p [Instr],
    place: u32,
    turn: &mut Turn,
) -> Result<Halt<'p>, NoMemory>
    requires room { length turn.old.made + length body.now ≤ BODY_LIMIT }
    requires once { LabelsDiffer body.now }
    ensures ok { let p = setting_of setting.now (R.rows rows.old) in
        let rest = drop place body.now in
        let needed = first_needed (H.held held.now) (gets_from p rest None place turn.old) in
        IfOk result (λ halt. HaltsAt needed (run_from p rest None place turn.old) halt turn.new) }
    ensures few { OnOk result (length turn.new.made ≤ length turn.old.made + length body.now) }
    ensures same { (R.rows rows.new ≡ R.rows rows.old) × (R.all rows.new ≡ R.all rows.old)
        × (R.beside rows.new ≡ R.beside rows.old) }
{
    let mut rest = body.get(place as usize..).unwrap_or(&[]);
    while let Some((instr, behind)) = rest.split_first() {
        rest = behind;
        match step(setting, rows, held, instr, turn) {
            Ok(lead) => match lead {
                Lead::Next => {}
                Lead::Leap(label) => {
                    let at = after_label(body, body.len() - rest.len(), label);
                    rest = &body[at..];
                }
                Lead::Does(deed) => {
                    let at = body.len() - rest.len();
                    return Ok(Halt::Stops(Stopped {
                        deed,
                        place: at as u32,
                    }));
                }
                Lead::Needs(thing) => return Ok(Halt::Needs(thing)),
            },
            Err(e) => return Err(e),
        }
    }
    Ok(Halt::Stops(Stopped {
        deed: Deed::End,
        place: place.max(body.len() as u32),
    }))
}

/// Runs a frame of an actor up to and with its next act, in place, by a test of what the actor
/// holds. The turn begins with the frame's registers and with these fields. The rows that it makes
/// are named from the setting's serial on.
///
/// # Errors
/// `NoMemory` where memory was refused. What the turn holds then, and where it halts at a thing
/// that is needed, is left open.
pub fn segment_held_at<'p, R: RowReader, H: HeldTest>(
    setting: &Setting<'p>,
    frame: &Frame,
    fields: &Fields,
    rows: &mut R,
    held: &H,
    turn: &mut Turn,
) -> Result<Halt<'p>, NoMemory>
    ensures ok { let p = setting_of setting.now (R.rows rows.old) in
        let needed = needed_in (H.held held.now) p frame.now fields.now in
        IfOk result (λ halt. HaltsAt needed (segment_of p frame.now fields.now) halt turn.new) }
    ensures few { OnOk result (length turn.new.made ≤ BODY_LIMIT) }
    ensures same { (R.rows rows.new ≡ R.rows rows.old) × (R.all rows.new ≡ R.all rows.old)
        × (R.beside rows.new ≡ R.beside rows.old) }
{
    turn.begin(&frame.registers, fields);
    let body = setting.code.program().body(frame.kind, frame.behaviour);
    run(setting, rows, held, body, frame.place, turn)
}

/// Runs a frame of an actor up to and with its next act, in place. The turn begins with the frame's
/// registers and with these fields. The rows that it makes are named from the setting's serial on.
///
/// # Errors
/// `NoMemory` where memory was refused; what the turn holds then is left open.
pub fn segment_at<'p, R: RowReader>(
    setting: &Setting<'p>,
    frame: &Frame,
    fields: &Fields,
    rows: &mut R,
    turn: &mut Turn,
) -> Result<Stopped<'p>, NoMemory>
    ensures ok { let p = setting_of setting.now (R.rows rows.old) in
        IfOk result (λ stop. segment_of p frame.now fields.now
        ≡ record { act = act_of stop.deed turn.new; place = stop.place; turn = turn.new }) }
    ensures few { OnOk result (length turn.new.made ≤ BODY_LIMIT) }
    ensures same { (R.rows rows.new ≡ R.rows rows.old) × (R.all rows.new ≡ R.all rows.old)
        × (R.beside rows.new ≡ R.beside rows.old) }
{
    match segment_held_at(setting, frame, fields, rows, &AllHeld, turn) {
        Ok(halt) => match halt {
            Halt::Stops(stop) => Ok(stop),
            Halt::Needs(_) => unreachable!(),
        },
        Err(e) => Err(e),
    }
}
