// The lines of letters.

ghost use Rattle.std.specs.Prelude.{◌≡◌, ◌++◌, ◌∷◌, [], codes, flat_map, map, None, OnOk, Option, string_bytes};
ghost use Rattle.std.specs.Option.{option_map_or};
ghost use Rattle.behaviour_text.specs.Text.{line_of};
ghost use Rattle.letter_kinds.specs.Holdings.{Row as any_row};
ghost use Rattle.letter_kinds.specs.Letters.{as_letter};
ghost use Rattle.letter_kinds.specs.Load.{as_load};
ghost use Rattle.letter_kinds.specs.Telling.{TellsNothing, Told as told, ToldByOne, all_brought, brought_in};
ghost use Rattle.orca_names.specs.declared.names.ObjName.{ObjName as object_name};
ghost use Rattle.orca_names.specs.declared.names.Thing.{Thing as any_thing};
ghost use Rattle.row_store.specs.Told.{told_block, told_row};
ghost use Rattle.picture_rules.specs.Words.{amount_words, text_of_lines, thing_word, value_words};
ghost use Rattle.picture_rules.specs.Seats.{brings_line, letter_lines, loads_lines};

use crate::words::{end_with_amounts, end_with_things, end_with_values, push_thing};
use behaviour_code::Names;
use letter_kinds::{Amounts, Letter, Load};
use mail_rows::MailRow;
use orca_names::{Args, Thing, Value};
use row_store::Told;
use std::alloc::AllocError;

/// The values of the row that is told and lies in no block, none where none is told.
fn values_of(told: &Told) -> &[Value]
    requires { told_block told.now ≡ None }
    ensures { (rows : object_name → Option any_row) (x : any_thing)
        → result.now ≡ option_map_or (λ r. r) (told_row rows x told.now) [] }
{
    match told {
        Told::Nothing => &[],
        Told::Here(row) => row.as_slice(),
        Told::In(_) => unreachable!(),
    }
}

/// A line of a thing and the values of its row.
pub(crate) fn push_row(
    out: &mut String,
    word: &str,
    thing: &Thing,
    row: &[Value],
) -> Result<(), AllocError>
    ensures { OnOk result (string_bytes out.new ≡ string_bytes out.old
        ++ line_of (word.now ∷ thing_word thing.now ∷ value_words row.now)) }
{
    out.push_str(word)?;
    push_thing(out, thing)?;
    end_with_values(out, row)
}

/// The line of the behaviour and the arguments.
fn push_call(out: &mut String, name: &str, args: &Args) -> Result<(), AllocError>
    ensures { OnOk result (string_bytes out.new ≡ string_bytes out.old
        ++ line_of (codes "letter" ∷ name.now ∷ value_words args.now)) }
{
    write!(out, "letter {name}")?;
    end_with_values(out, args.as_slice())
}

/// The line of what a letter loads, if it loads anything.
fn push_loads(out: &mut String, load: &Load) -> Result<(), AllocError>
    ensures { OnOk result (string_bytes out.new
        ≡ string_bytes out.old ++ text_of_lines (loads_lines (as_load load.now))) }
{
    if load.len() == 0 {
        return Ok(());
    }
    out.push_str("loads")?;
    let (items, _) = load.parts();
    end_with_things(out, items)
}

/// The lines of the rows that a letter brings.
fn push_brought(out: &mut String, rows: &Load) -> Result<(), AllocError>
    requires { TellsNothing (told rows.now) }
    ensures { OnOk result (string_bytes out.new
        ≡ string_bytes out.old ++ text_of_lines (map brings_line (as_load rows.now))) }
{
    let (items, _) = rows.parts();
    for (thing, row) in items {
        push_row(out, "brings", thing, values_of(row))?;
    }
    Ok(())
}

/// A line of things and amounts.
fn push_amounts(out: &mut String, word: &str, things: &Amounts) -> Result<(), AllocError>
    ensures { OnOk result (string_bytes out.new ≡ string_bytes out.old
        ++ line_of (word.now ∷ flat_map amount_words things.now)) }
{
    out.push_str(word)?;
    end_with_amounts(out, things.as_slice())
}

/// The lines of a letter.
fn push_letter(out: &mut String, names: &Names, letter: &Letter) -> Result<(), AllocError>
    requires { TellsNothing (told (all_brought (brought_in letter.now))) }
    ensures { OnOk result (string_bytes out.new
        ≡ string_bytes out.old ++ text_of_lines (letter_lines names.now (as_letter letter.now))) }
{
    match letter {
        Letter::App {
            behaviour,
            args,
            load,
            rows,
        } => {
            push_call(out, names.text_or_empty(*behaviour), args.as_args())?;
            push_loads(out, load)?;
            push_brought(out, rows)
        }
        Letter::Inc { things } => push_amounts(out, "inc", things),
        Letter::Dec { things } => push_amounts(out, "dec", things),
        Letter::Confirm { token } => write!(out, "confirm {token}\n"),
    }
}

/// The lines of the letters that wait for an actor.
pub(crate) fn push_mail(out: &mut String, names: &Names, mail: &MailRow) -> Result<(), AllocError>
    requires { TellsNothing (ToldByOne mail.now.brought) }
    ensures { OnOk result (string_bytes out.new
        ≡ string_bytes out.old ++ text_of_lines (flat_map (letter_lines names.now) mail.now.letters)) }
{
    for i in 0..mail.len() {
        push_letter(out, names, mail.at(i))?;
    }
    Ok(())
}
