// The table of lines: their first words, and the operands behind these.

ghost use Rattle.std.specs.Prelude.{◌≡◌, map, bytes_eq, find, option_map, IfOk, IfErr, Some, None, slice_index_or};
ghost use Rattle.behaviour_code.specs.Opcodes.{all_opcodes, spelling};
ghost use Rattle.behaviour_text.specs.Items.{register_of, operand_number, operand_numbers};
ghost use Rattle.behaviour_text.specs.Kinds.{lowest};
ghost use Rattle.behaviour_text.specs.Table.{word_spelling, line_word, word_operands, word_further, starts_with, lettered_fault, operand_fault, operands_fault, fits_count, shape_fault};

use crate::errors::FaultKind;
use crate::words::{is_name, numeral};
use behaviour_code::{Opcode, OperandKind};
use std::alloc::AllocError;

/// The first byte of a comment.
pub(crate) const COMMENT_MARK: u8 = b'#';

/// The first byte of a register.
pub(crate) const REGISTER_LETTER: u8 = b'r';

/// The first byte of a field.
pub(crate) const FIELD_LETTER: u8 = b'f';

/// The first word of a line.
#[derive(Clone, Copy, Debug, PartialEq, Eq)]
pub(crate) enum LineWord {
    Kind,
    On,
    End,
    Instr(Opcode),
}

fn word_spelling(word: LineWord) -> &'static str
    ensures { result.now ≡ word_spelling word }
{
    match word {
        LineWord::Kind => "kind",
        LineWord::On => "on",
        LineWord::End => "end",
        LineWord::Instr(opcode) => opcode.spelling(),
    }
}

fn is_spelled(word: LineWord, text: &[u8]) -> bool
    ensures { result ≡ bytes_eq (word_spelling word) text.now }
{
    word_spelling(word).as_bytes() == text
}

fn instr_word(text: &[u8]) -> Option<LineWord>
    ensures { result ≡ option_map LineWord.Instr
        (find (λ opcode. bytes_eq (spelling opcode) text.now) all_opcodes) }
{
    Opcode::spelled(text).map(LineWord::Instr)
}

#[tactic(auto, unfolding(crate::specs::Table::line_word))]
fn look_up(text: &[u8]) -> Option<LineWord>
    ensures { result ≡ line_word text.now }
{
    if is_spelled(LineWord::Kind, text) {
        Some(LineWord::Kind)
    } else if is_spelled(LineWord::On, text) {
        Some(LineWord::On)
    } else if is_spelled(LineWord::End, text) {
        Some(LineWord::End)
    } else {
        instr_word(text)
    }
}

/// What a first word says, `None` where no line begins with it. A word of the table is told by its
/// bytes; any other is looked up there, in vain.
#[tactic(auto, unfolding(crate::specs::Table::line_word))]
pub(crate) fn line_word(text: &[u8]) -> Option<LineWord>
    ensures { result ≡ line_word text.now }
{
    match text {
        [b'k', b'i', b'n', b'd'] => Some(LineWord::Kind),
        [b'o', b'n'] => Some(LineWord::On),
        [b'e', b'n', b'd'] => Some(LineWord::End),
        [b'd', b'r', b'o', b'p'] => Some(LineWord::Instr(Opcode::Drop)),
        [b'i', b'n', b't'] => Some(LineWord::Instr(Opcode::Int)),
        [b's', b'e', b'l', b'f'] => Some(LineWord::Instr(Opcode::Own)),
        [b'c', b'o', b'p', b'y'] => Some(LineWord::Instr(Opcode::Copy)),
        [b'a', b'd', b'd'] => Some(LineWord::Instr(Opcode::Add)),
        [b's', b'u', b'b'] => Some(LineWord::Instr(Opcode::Sub)),
        [b'm', b'u', b'l'] => Some(LineWord::Instr(Opcode::Mul)),
        [b'l', b'e', b's', b's'] => Some(LineWord::Instr(Opcode::Less)),
        [b's', b'a', b'm', b'e'] => Some(LineWord::Instr(Opcode::Same)),
        [b'r', b'o', b'w'] => Some(LineWord::Instr(Opcode::Row)),
        [b'g', b'e', b't'] => Some(LineWord::Instr(Opcode::Get)),
        [b'l', b'o', b'a', b'd'] => Some(LineWord::Instr(Opcode::Load)),
        [b's', b't', b'o', b'r', b'e'] => Some(LineWord::Instr(Opcode::Store)),
        [b'j', b'u', b'm', b'p'] => Some(LineWord::Instr(Opcode::Jump)),
        [b'j', b'z', b'e', b'r', b'o'] => Some(LineWord::Instr(Opcode::JumpZero)),
        [b'l', b'a', b'b', b'e', b'l'] => Some(LineWord::Instr(Opcode::Label)),
        [b'p', b'i', b'n'] => Some(LineWord::Instr(Opcode::Pin)),
        [b'u', b'n', b'p', b'i', b'n'] => Some(LineWord::Instr(Opcode::Unpin)),
        [b'n', b'e', b'w'] => Some(LineWord::Instr(Opcode::New)),
        [b's', b'e', b'n', b'd'] => Some(LineWord::Instr(Opcode::Send)),
        [b'p', b'r', b'i', b'n', b't'] => Some(LineWord::Instr(Opcode::Print)),
        _ => look_up(text),
    }
}

fn word_operands(word: LineWord) -> &'static [OperandKind]
    ensures { result.now ≡ word_operands word }
{
    match word {
        LineWord::Kind | LineWord::On => &[OperandKind::Name, OperandKind::Number],
        LineWord::End => &[],
        LineWord::Instr(opcode) => opcode.operand_kinds(),
    }
}

/// How many registers may follow the operands of the table.
fn word_further(word: LineWord) -> usize
    ensures { result ≡ word_further word }
{
    match word {
        LineWord::Instr(opcode) => opcode.most_further(),
        _ => 0,
    }
}

pub(crate) fn starts_with(letter: u8, word: &[u8]) -> bool
    ensures { result ≡ starts_with letter word.now }
{
    match word {
        [first, ..] => *first == letter,
        [] => false,
    }
}

/// The number behind the letter of a register or a field, or the fault.
fn lettered_number(letter: u8, word: &[u8]) -> Result<u64, FaultKind>
    ensures ok { IfOk result (λ number. (lettered_fault letter word.now ≡ None)
        × (number ≡ register_of word.now)) }
    ensures fault { IfErr result (λ kind. lettered_fault letter word.now ≡ Some kind) }
{
    if starts_with(letter, word) {
        numeral(&word[1..]).ok_or(FaultKind::BadNumber)
    } else {
        Err(FaultKind::WrongOperands)
    }
}

/// The number of an operand, 0 for a name, or the fault.
fn operand_number(operand: OperandKind, word: &[u8]) -> Result<u64, FaultKind>
    ensures ok { IfOk result (λ number. (operand_fault operand word.now ≡ None)
        × (number ≡ operand_number operand word.now)) }
    ensures fault { IfErr result (λ kind. operand_fault operand word.now ≡ Some kind) }
{
    match operand {
        OperandKind::Register => lettered_number(REGISTER_LETTER, word),
        OperandKind::Field => lettered_number(FIELD_LETTER, word),
        OperandKind::Number => numeral(word).ok_or(FaultKind::BadNumber),
        OperandKind::Name => if is_name(word) {
            Ok(0)
        } else {
            Err(FaultKind::BadName)
        },
    }
}

fn lowest(a: Option<FaultKind>, b: Option<FaultKind>) -> Option<FaultKind>
    ensures { result ≡ lowest a b }
{
    match (a, b) {
        (None, b) => b,
        (Some(a), None) => Some(a),
        (Some(a), Some(b)) => Some(a.lower(b)),
    }
}

fn fits_count(word: LineWord, count: usize) -> bool
    ensures { result ≡ fits_count word count }
{
    let least = word_operands(word).len();
    least <= count && count - least <= word_further(word)
}

/// The operand of a place; past the table's it is a register.
fn operand_at(operands: &[OperandKind], i: usize) -> OperandKind
    ensures { result ≡ slice_index_or operands.now i OperandKind.Register }
{
    if i < operands.len() {
        operands[i]
    } else {
        OperandKind::Register
    }
}

/// The lowest fault of some operands. Without one their numbers are put into a list.
fn put_operands(
    numbers: &mut Vec<u64>,
    operands: &[OperandKind],
    words: &[&[u8]],
) -> Result<Option<FaultKind>, AllocError>
    ensures fault { IfOk result (λ fault. fault
        ≡ operands_fault operands.now (map (λ w. w.now) words.now)) }
    ensures numbers { IfOk result (λ fault. fault ≡ None → numbers.new.items
        ≡ operand_numbers operands.now (map (λ w. w.now) words.now)) }
{
    numbers.clear();
    let mut fault = None;
    for i in 0..words.len() {
        match operand_number(operand_at(operands, i), words[i]) {
            Ok(number) => numbers.push(number)?,
            Err(kind) => fault = lowest(fault, Some(kind)),
        }
    }
    Ok(fault)
}

/// The lowest fault of the operands of a line. Without one their numbers are put into a list, in
/// place of what it held.
#[tactic(auto, unfolding(crate::specs::Table::shape_fault))]
pub(crate) fn put_numbers(
    numbers: &mut Vec<u64>,
    word: LineWord,
    words: &[&[u8]],
) -> Result<Option<FaultKind>, AllocError>
    ensures fault { IfOk result (λ fault. fault
        ≡ shape_fault word (map (λ w. w.now) words.now)) }
    ensures numbers { IfOk result (λ fault. fault ≡ None → numbers.new.items
        ≡ operand_numbers (word_operands word) (map (λ w. w.now) words.now)) }
{
    if fits_count(word, words.len()) {
        put_operands(numbers, word_operands(word), words)
    } else {
        Ok(Some(FaultKind::WrongOperands))
    }
}
