// Whether a rule fails at one place.

ghost use Rattle.std.specs.Prelude.{◌≡◌, ◌==◌, nat_le};
ghost use Rattle.std.specs.List.{list_any};
ghost use Rattle.behaviour_code.specs.Find.{is_kind, is_label};
ghost use Rattle.behaviour_check.specs.Rules.{repeats_label, makes_unknown, jumps_nowhere, is_register_past, has_register_past, has_field_past, instr_rule};

use crate::rule::Rule;
use behaviour_code::{Behaviour, Instr, Kind, Name, Operand};
use orca_names::REGISTERS;

/// Whether a kind has the name.
pub(crate) fn has_kind(kinds: &[Kind], name: Name) -> bool
    ensures { result ≡ list_any (is_kind name) kinds.now }
{
    kinds.iter().any(|kind| kind.name == name)
}

/// Whether a behaviour has the name.
pub(crate) fn has_behaviour(behaviours: &[Behaviour], name: Name) -> bool
    ensures { result ≡ list_any (λ b. b.name == name) behaviours.now }
{
    behaviours.iter().any(|behaviour| behaviour.name == name)
}

fn has_label(instrs: &[Instr], name: Name) -> bool
    ensures { result ≡ list_any (is_label name) instrs.now }
{
    instrs.iter().any(|instr| instr.is_label(name))
}

fn repeats_label(earlier: &[Instr], instr: &Instr) -> bool
    ensures { result ≡ repeats_label earlier.now instr.now }
{
    match instr {
        Instr::Label(label) => has_label(earlier, *label),
        _ => false,
    }
}

fn makes_unknown(kinds: &[Kind], instr: &Instr) -> bool
    ensures { result ≡ makes_unknown kinds.now instr.now }
{
    match instr {
        Instr::New(_, kind) => !has_kind(kinds, kind.name()),
        _ => false,
    }
}

fn jumps_nowhere(later: &[Instr], instr: &Instr) -> bool
    ensures { result ≡ jumps_nowhere later.now instr.now }
{
    match instr {
        Instr::Jump(label) | Instr::JumpZero(_, label) => !has_label(later, label.name()),
        _ => false,
    }
}

fn is_past(register: u64) -> bool
    ensures { result ≡ nat_le REGISTERS register }
{
    REGISTERS as u64 <= register
}

fn is_register_past(operand: Option<Operand>) -> bool
    ensures { result ≡ is_register_past operand }
{
    match operand {
        Some(Operand::Register(register)) => is_past(register),
        _ => false,
    }
}

fn some_past(registers: &[u64]) -> bool
    ensures { result ≡ list_any (nat_le REGISTERS) registers.now }
{
    registers.iter().any(|register| is_past(*register))
}

fn some_operand_past(operands: &[Option<Operand>]) -> bool
    ensures { result ≡ list_any is_register_past operands.now }
{
    operands.iter().any(|operand| is_register_past(*operand))
}

#[tactic(auto, using(crate::proofs::Listed::registers_listed))]
fn has_register_past(instr: &Instr) -> bool
    ensures { result ≡ has_register_past instr.now }
{
    let operands = instr.operands();
    let first = [operands.first, operands.second, operands.third];
    some_operand_past(&first) || some_past(operands.further)
}

#[tactic(auto, using(crate::proofs::Listed::no_field_behind))]
fn has_field_past(fields: u8, instr: &Instr) -> bool
    ensures { result ≡ has_field_past fields instr.now }
{
    match instr {
        Instr::Load(_, field) | Instr::Store(field, _) => u64::from(fields) <= *field,
        _ => false,
    }
}

/// The lowest rule that fails at an instruction between earlier and later ones.
#[tactic(auto, unfolding(crate::specs::Rules::instr_rule))]
pub(crate) fn instr_rule(
    kinds: &[Kind],
    fields: u8,
    earlier: &[Instr],
    instr: &Instr,
    later: &[Instr],
) -> Option<Rule>
    ensures { result ≡ instr_rule kinds.now fields earlier.now instr.now later.now }
{
    if repeats_label(earlier, instr) {
        Some(Rule::NamedOnce)
    } else if makes_unknown(kinds, instr) {
        Some(Rule::KnownKind)
    } else if jumps_nowhere(later, instr) {
        Some(Rule::LabelAhead)
    } else if has_register_past(instr) {
        Some(Rule::Registers)
    } else if has_field_past(fields, instr) {
        Some(Rule::Fields)
    } else {
        None
    }
}
