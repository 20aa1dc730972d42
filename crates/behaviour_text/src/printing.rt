// The canonical text of a program.

ghost use Rattle.std.specs.Prelude.{◌≡◌, ◌++◌, ◌∷◌, [], ℕ, List, IfOk, OnOk, None, map, flat_map, string_bytes, codes, decimal};
ghost use Rattle.std.specs.Option.{option_to_list};
ghost use Rattle.behaviour_code.specs.WellFormed.{IsWellFormed};
ghost use Rattle.behaviour_code.specs.Names.{text_of};
ghost use Rattle.behaviour_code.specs.declared.code.Program.{Program};
ghost use Rattle.behaviour_text.specs.Text.{instr_words, operand_word, behaviour_lines, kind_lines, line_of, rest_of_line, register, canonical, IsText};
ghost use Rattle.behaviour_text.specs.Faults.{first_fault};

use behaviour_code::{Behaviour, Instr, Kind, Names, Operand, Program};
use orca_names::NoMemory;
use std::alloc::{AllocError, Global};

/// The registers that end a line, and its line feed.
fn push_registers(out: &mut String, registers: &[u64]) -> Result<(), AllocError>
    ensures { OnOk result (string_bytes out.new ≡ string_bytes out.old
        ++ rest_of_line (map register registers.now)) }
{
    for number in registers {
        write!(out, " r{number}")?;
    }
    out.push('\n')
}

fn push_operand(out: &mut String, names: &Names, operand: Operand) -> Result<(), AllocError>
    ensures { OnOk result (string_bytes out.new ≡ string_bytes out.old
        ++ 32 ∷ operand_word (text_of names.now) operand) }
{
    match operand {
        Operand::Register(n) => write!(out, " r{n}"),
        Operand::Field(n) => write!(out, " f{n}"),
        Operand::Number(n) => write!(out, " {n}"),
        Operand::Name(name) => push_name(out, names.text_or_empty(name)),
    }
}

fn push_name(out: &mut String, name: &str) -> Result<(), AllocError>
    ensures { OnOk result (string_bytes out.new ≡ string_bytes out.old ++ 32 ∷ name.now) }
{
    write!(out, " {name}")
}

/// An operand that may be there, with more of the line behind it.
fn push_some(out: &mut String, names: &Names, operand: Option<Operand>) -> Result<(), AllocError>
    ensures { (others : List (List ℕ)) → OnOk result
        (string_bytes out.new ++ rest_of_line others ≡ string_bytes out.old
        ++ rest_of_line (map (operand_word (text_of names.now)) (option_to_list operand) ++ others)) }
{
    match operand {
        Some(operand) => push_operand(out, names, operand),
        None => Ok(()),
    }
}

/// The line of an instruction.
fn push_instr(out: &mut String, names: &Names, instr: &Instr) -> Result<(), AllocError>
    ensures { OnOk result (string_bytes out.new ≡ string_bytes out.old
        ++ line_of (instr_words (text_of names.now) instr.now)) }
{
    let operands = instr.operands();
    out.push_str(instr.opcode().spelling())?;
    push_some(out, names, operands.first)?;
    push_some(out, names, operands.second)?;
    push_some(out, names, operands.third)?;
    push_registers(out, operands.further)
}

/// The line that begins a kind or a behaviour.
fn push_begin(out: &mut String, word: &str, name: &str, number: u8) -> Result<(), AllocError>
    ensures { OnOk result (string_bytes out.new
        ≡ string_bytes out.old ++ line_of (word.now ∷ name.now ∷ decimal number ∷ [])) }
{
    write!(out, "{word} {name} {number}\n")
}

fn push_body(out: &mut String, names: &Names, body: &[Instr]) -> Result<(), AllocError>
    ensures { OnOk result (string_bytes out.new
        ≡ string_bytes out.old ++ flat_map line_of (map (instr_words (text_of names.now)) body.now)) }
{
    for instr in body {
        push_instr(out, names, instr)?;
    }
    Ok(())
}

fn push_behaviour(out: &mut String, names: &Names, behaviour: &Behaviour) -> Result<(), AllocError>
    ensures { OnOk result (string_bytes out.new
        ≡ string_bytes out.old
        ++ flat_map line_of (behaviour_lines (text_of names.now) behaviour.now)) }
{
    let name = names.text_or_empty(behaviour.name);
    push_begin(out, "on", name, behaviour.parameters)?;
    push_body(out, names, &behaviour.body)?;
    out.push_str("end\n")
}

fn push_behaviours(
    out: &mut String,
    names: &Names,
    behaviours: &[Behaviour],
) -> Result<(), AllocError>
    ensures { OnOk result (string_bytes out.new
        ≡ string_bytes out.old
        ++ flat_map line_of (flat_map (behaviour_lines (text_of names.now)) behaviours.now)) }
{
    for behaviour in behaviours {
        push_behaviour(out, names, behaviour)?;
    }
    Ok(())
}

fn push_kind(out: &mut String, names: &Names, kind: &Kind) -> Result<(), AllocError>
    ensures { OnOk result (string_bytes out.new
        ≡ string_bytes out.old ++ flat_map line_of (kind_lines (text_of names.now) kind.now)) }
{
    let name = names.text_or_empty(kind.name);
    push_begin(out, "kind", name, kind.fields)?;
    push_behaviours(out, names, kind.behaviours.as_slice())
}

/// The canonical text as a string.
fn canonical_string(alloc: Global, program: &Program) -> Result<String, AllocError>
    ensures { IfOk result (λ text. string_bytes text ≡ canonical program.now) }
{
    let mut out = String::new(alloc);
    for kind in program.kinds.iter() {
        push_kind(&mut out, &program.names, kind)?;
    }
    Ok(out)
}

fn canonical_bytes(alloc: Global, program: &Program) -> Result<Vec<u8>, AllocError>
    ensures { IfOk result (λ bytes. bytes.items ≡ canonical program.now) }
{
    Ok(canonical_string(alloc, program)?.into_bytes())
}

/// The canonical text of a program: a line for each kind, behaviour and instruction, with no leading
/// space, one space between words, no comment and no empty line.
///
/// # Errors
/// Where memory is refused, and only there.
pub fn print(alloc: Global, program: &Program) -> Result<Vec<u8>, NoMemory>
    ensures bytes { IfOk result (λ bytes. bytes.items ≡ canonical program.now) }

    // It is a text of the program, if some text gives the program; it has no fault, and it is a text
    // of no other program: reading it gives the program back.
    ensures text { IsWellFormed program.now → IfOk result (λ bytes. IsText bytes.items program.now) }
    ensures sound { IsWellFormed program.now → IfOk result (λ bytes. first_fault bytes.items ≡ None) }
    ensures only { IsWellFormed program.now
        → IfOk result (λ bytes. (p : Program) → IsText bytes.items p → IsWellFormed p
        → p ≡ program.now) }
{
    Ok(canonical_bytes(alloc, program)?)
}
