// What the operands of a line say.

ghost use Rattle.std.specs.Prelude.{◌≡◌, ◌≤◌, ℕ, List, drop, length, slice_index_or, IfOk, true, min};
ghost use Rattle.behaviour_text.specs.Items.{operand_numbers, instr_of, name_place};
ghost use Rattle.behaviour_text.specs.Table.{fits_count, word_operands};

use crate::table::LineWord;
use behaviour_code::{Instr, Name, Opcode, Registers, RowRegisters, Target};
use std::alloc::{AllocError, Global};

/// The number at a place, 0 where there is none.
pub(crate) fn number_at(numbers: &[u64], i: usize) -> u64
    ensures { result ≡ slice_index_or numbers.now i 0 }
{
    if i < numbers.len() { numbers[i] } else { 0 }
}

/// The number of fields or parameters of a line, which is at most 8.
pub(crate) fn small_at(numbers: &[u64], i: usize) -> u8
    ensures { result ≡ min (slice_index_or numbers.now i 0) 8 }
{
    number_at(numbers, i).min(8) as u8
}

fn row_of(alloc: Global, numbers: &[u64]) -> Result<Instr, AllocError>
    requires { (2 ≤ length numbers.now) × (length numbers.now ≤ 9) }
    ensures { IfOk result (λ i. i
        ≡ Instr.Row (slice_index_or numbers.now 0 0) (drop 1 numbers.now)) }
{
    let values = numbers[1..].to_vec(alloc)?;
    Ok(Instr::Row(numbers[0], RowRegisters::of(values)))
}

fn send_of(alloc: Global, name: Name, numbers: &[u64]) -> Result<Instr, AllocError>
    requires { (2 ≤ length numbers.now) × (length numbers.now ≤ 10) }
    ensures { IfOk result (λ i. i
        ≡ Instr.Send (slice_index_or numbers.now 0 0) name (drop 2 numbers.now)) }
{
    let values = numbers[2..].to_vec(alloc)?;
    Ok(Instr::Send(numbers[0], name, Registers::of(values)))
}

/// The instruction of a line, whose name is this one, and whose operands say these numbers.
#[tactic(auto, using(crate::proofs::Operands::number_there, crate::proofs::Operands::row_values, crate::proofs::Operands::send_values), unfolding(crate::specs::Items::instr_of))]
pub(crate) fn instruction(
    alloc: Global,
    opcode: Opcode,
    name: Name,
    numbers: &[u64],
) -> Result<Instr, AllocError>
    requires { fits_count (LineWord.Instr opcode) (length numbers.now) ≡ true }
    ensures { (words : List (List ℕ))
        → numbers.now ≡ operand_numbers (word_operands (LineWord.Instr opcode)) words
        → IfOk result (λ i. i ≡ instr_of opcode name words) }
{
    let first = number_at(numbers, 0);
    let second = number_at(numbers, 1);
    let third = number_at(numbers, 2);
    Ok(match opcode {
        Opcode::Drop => Instr::Drop(first),
        Opcode::Int => Instr::Int(first, second),
        Opcode::Own => Instr::Own(first),
        Opcode::Copy => Instr::Copy(first, second),
        Opcode::Add => Instr::Add(first, second, third),
        Opcode::Sub => Instr::Sub(first, second, third),
        Opcode::Mul => Instr::Mul(first, second, third),
        Opcode::Less => Instr::Less(first, second, third),
        Opcode::Same => Instr::Same(first, second, third),
        Opcode::Row => return row_of(alloc, numbers),
        Opcode::Get => Instr::Get(first, second, third),
        Opcode::Load => Instr::Load(first, second),
        Opcode::Store => Instr::Store(first, second),
        Opcode::Jump => Instr::Jump(Target::of(name)),
        Opcode::JumpZero => Instr::JumpZero(first, Target::of(name)),
        Opcode::Label => Instr::Label(name),
        Opcode::Pin => Instr::Pin,
        Opcode::Unpin => Instr::Unpin,
        Opcode::New => Instr::New(first, Target::of(name)),
        Opcode::Send => return send_of(alloc, name, numbers),
        Opcode::Print => Instr::Print(first),
    })
}

/// Which operand of a line is its name.
pub(crate) fn name_place(word: LineWord) -> Option<usize>
    ensures { result ≡ name_place word }
{
    match word {
        LineWord::Kind | LineWord::On => Some(0),
        LineWord::Instr(Opcode::Jump) | LineWord::Instr(Opcode::Label) => Some(0),
        LineWord::Instr(Opcode::JumpZero)
        | LineWord::Instr(Opcode::New)
        | LineWord::Instr(Opcode::Send) => Some(1),
        _ => None,
    }
}
