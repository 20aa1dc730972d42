// The first place where a rule fails.

ghost use Rattle.std.specs.Prelude.{◌≡◌, Some, None, IfOk, IfErr, slice_get};
ghost use Rattle.std.specs.List.{flat_map};
ghost use Rattle.behaviour_code.specs.WellFormed.{IsWellFormed};
ghost use Rattle.behaviour_check.specs.Rules.{behaviour_faults, first_broken, kind_faults, numbered, step_faults};

use crate::checked::{CheckFault, Checked};
use crate::placing::with_places;
use crate::rule::Rule;
use crate::rules::{has_behaviour, has_kind, instr_rule};
use behaviour_code::{Behaviour, Kind, Program};

/// What fails first at the instructions of a behaviour of a kind, both with their numbers.
fn body_fault(
    kinds: &[Kind],
    kind_number: u64,
    kind: &Kind,
    number: u64,
    behaviour: &Behaviour,
) -> Option<CheckFault>
    ensures { let f = step_faults kinds.now (kind_number, kind.now) (number, behaviour.now) in
        result ≡ slice_get (flat_map f (numbered behaviour.now.body)) 0 }
{
    let body = behaviour.body.as_slice();
    for (i, instr) in body.iter().enumerate() {
        let rule = instr_rule(kinds, kind.fields, &body[..i], instr, &body[i + 1..]);
        if let Some(rule) = rule {
            return Some(CheckFault {
                kind: kind_number,
                behaviour: number,
                step: i as u64 + 1,
                rule: rule.number(),
            });
        }
    }
    None
}

/// What fails first in the behaviours of a kind with its number.
fn behaviours_fault(kinds: &[Kind], kind_number: u64, kind: &Kind) -> Option<CheckFault>
    ensures { let f = behaviour_faults kinds.now (kind_number, kind.now) in
        result ≡ slice_get (flat_map f (numbered kind.now.behaviours)) 0 }
{
    let behaviours = kind.behaviours.as_slice();
    for (i, behaviour) in behaviours.iter().enumerate() {
        let number = i as u64 + 1;
        if has_behaviour(&behaviours[..i], behaviour.name) {
            return Some(CheckFault {
                kind: kind_number,
                behaviour: number,
                step: 0,
                rule: Rule::NamedOnce.number(),
            });
        }
        let fault = body_fault(kinds, kind_number, kind, number, behaviour);
        if fault.is_some() {
            return fault;
        }
    }
    None
}

/// What fails first among the kinds.
fn kinds_fault(kinds: &[Kind]) -> Option<CheckFault>
    ensures { result ≡ slice_get (flat_map (kind_faults kinds.now) (numbered kinds.now)) 0 }
{
    for (i, kind) in kinds.iter().enumerate() {
        let number = i as u64 + 1;
        if has_kind(&kinds[..i], kind.name) {
            return Some(CheckFault {
                kind: number,
                behaviour: 0,
                step: 0,
                rule: Rule::NamedOnce.number(),
            });
        }
        let fault = behaviours_fault(kinds, number, kind);
        if fault.is_some() {
            return fault;
        }
    }
    None
}

/// What fails first in a program.
#[tactic(auto, unfolding(crate::specs::Rules::first_broken))]
pub(crate) fn first_fault(program: &Program) -> Option<CheckFault>
    ensures { result ≡ first_broken program.now }
{
    if program.start_name().is_some() {
        kinds_fault(program.kinds.as_slice())
    } else {
        Some(CheckFault {
            kind: 0,
            behaviour: 0,
            step: 0,
            rule: Rule::Start.number(),
        })
    }
}

/// The program as a checked one, with the places of what its instructions lead to. It takes no
/// memory.
///
/// # Errors
/// Exactly where a rule fails: the first place, and at it the lowest rule. The program is dropped.
pub fn check(program: Program) -> Result<Checked, CheckFault>
    requires { IsWellFormed program }
    ensures ok { IfOk result (λ checked. (checked ≡ program) × (first_broken program ≡ None)) }
    ensures fault { IfErr result (λ fault. first_broken program ≡ Some fault) }
{
    match first_fault(&program) {
        Some(fault) => Err(fault),
        None => Ok(Checked {
            program: with_places(program),
        }),
    }
}
