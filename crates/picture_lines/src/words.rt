// Words, each behind a space, and lists of words that end a line.

ghost use Rattle.std.specs.Prelude.{◌≡◌, ◌++◌, ◌∷◌, flat_map, map, OnOk, string_bytes};
ghost use Rattle.behaviour_text.specs.Text.{rest_of_line};
ghost use Rattle.picture_rules.specs.Words.{amount_words, bit_word, held_words, thing_word, value_word, value_words};

use orca_names::{ActorName, Thing, Value};
use row_store::Told;
use std::alloc::AllocError;

pub(crate) fn push_thing(out: &mut String, thing: &Thing) -> Result<(), AllocError>
    ensures { OnOk result (string_bytes out.new ≡ string_bytes out.old ++ 32 ∷ thing_word thing.now) }
{
    match thing {
        Thing::Actor(a) => write!(out, " a{}", a.0),
        Thing::Obj(n) => write!(out, " o{}.{}", n.owner.0, n.serial.get()),
    }
}

pub(crate) fn push_value(out: &mut String, value: &Value) -> Result<(), AllocError>
    ensures { OnOk result (string_bytes out.new ≡ string_bytes out.old ++ 32 ∷ value_word value.now) }
{
    match value {
        Value::Null => out.push_str(" -"),
        Value::Num(n) => write!(out, " {n}"),
        Value::Actor(a) => write!(out, " a{}", a.0),
        Value::Obj(n) => write!(out, " o{}.{}", n.owner.0, n.serial.get()),
    }
}

pub(crate) fn push_bit(out: &mut String, bit: bool) -> Result<(), AllocError>
    ensures { OnOk result (string_bytes out.new ≡ string_bytes out.old ++ 32 ∷ bit_word bit) }
{
    out.push_str(if bit { " 1" } else { " 0" })
}

/// The values that end a line, and its line feed.
pub(crate) fn end_with_values(out: &mut String, values: &[Value]) -> Result<(), AllocError>
    ensures { OnOk result (string_bytes out.new
        ≡ string_bytes out.old ++ rest_of_line (value_words values.now)) }
{
    for value in values {
        push_value(out, value)?;
    }
    out.push('\n')
}

/// The things that end a line, whatever rows come with them.
pub(crate) fn end_with_things(out: &mut String, things: &[(Thing, Told)]) -> Result<(), AllocError>
    ensures { OnOk result (string_bytes out.new
        ≡ string_bytes out.old ++ rest_of_line (map (λ l. thing_word l.0) things.now)) }
{
    for loaded in things {
        push_thing(out, &loaded.0)?;
    }
    out.push('\n')
}

/// The things and amounts that end a line.
pub(crate) fn end_with_amounts(out: &mut String, things: &[(Thing, u64)]) -> Result<(), AllocError>
    ensures { OnOk result (string_bytes out.new
        ≡ string_bytes out.old ++ rest_of_line (flat_map amount_words things.now)) }
{
    for (thing, amount) in things {
        push_thing(out, thing)?;
        write!(out, " {amount}")?;
    }
    out.push('\n')
}

/// The actors and counts that end a line.
pub(crate) fn end_with_held(out: &mut String, held: &[(ActorName, u64)]) -> Result<(), AllocError>
    ensures { OnOk result (string_bytes out.new
        ≡ string_bytes out.old ++ rest_of_line (flat_map held_words held.now)) }
{
    for (actor, count) in held {
        write!(out, " {} {count}", actor.0)?;
    }
    out.push('\n')
}
