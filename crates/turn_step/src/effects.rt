// Where an instruction leads: leaps and acts.

ghost use Rattle.std.specs.Prelude.{◌≡◌, None, map};
ghost use Rattle.std.specs.Option.{option_map_or};
ghost use Rattle.behaviour_code.specs.Find.{kind_named};
ghost use Rattle.turn_rules.specs.declared.act.Act.TheVariants as A;
ghost use Rattle.turn_rules.specs.declared.act.Effect.TheVariants as E;
ghost use Rattle.turn_rules.specs.Segment.{Turn as turn_state, leap_if_zero, post_to, value_at};
ghost use Rattle.turn_step.specs.Turns.{LeadsTo};

use crate::deed::{Deed, Lead};
use crate::setting::Setting;
use crate::turn::Turn;
use behaviour_code::{Name, Registers, Target};
use orca_names::Value;

/// Leaps to a label where the number is 0.
pub(crate) fn leap_if_zero<'p>(number: u64, label: &'p Target) -> Lead<'p>
    ensures { (t : turn_state) → LeadsTo None (leap_if_zero number label.now, t) t result t }
{
    if number == 0 {
        Lead::Leap(label)
    } else {
        Lead::Next
    }
}

/// Makes an actor of the kind of this name; an unknown kind makes nothing.
pub(crate) fn new_actor(setting: &Setting<'_>, kind: &Target, into: u64) -> Lead<'static>
    ensures { let known = kind_named setting.now.code.now kind.now in
        let effect = option_map_or (λ k. E.Acts (A.New k into)) known E.Next in
        (t : turn_state) → LeadsTo None (effect, t) t result t }
{
    match setting.find_kind(kind) {
        Some(kind) => Lead::Does(Deed::New { kind, into }),
        None => Lead::Next,
    }
}

/// Sends the values of so many registers to a register's actor; what is no actor gets nothing.
pub(crate) fn post<'p>(turn: &Turn, to: u64, behaviour: Name, values: &'p Registers) -> Lead<'p>
    ensures { let t = turn.now in
        let effect = post_to (value_at t to) behaviour (map (value_at t) values.now) in
        LeadsTo None (effect, t) t result t }
{
    match turn.value(to) {
        Value::Actor(to) => Lead::Does(Deed::Post {
            to,
            behaviour,
            values,
        }),
        _ => Lead::Next,
    }
}
