// Programs that keep the rules.

ghost use Rattle.std.specs.Prelude.{◌≡◌};
ghost use Rattle.behaviour_check.specs.Rules.{IsChecked};

use behaviour_code::Program;
use std::marker::Model;
use thiserror::Error;

/// The first place where a rule fails, and the lowest rule that fails there.
///
/// Kinds, behaviours and steps are counted from 1: behaviour 0 is the kind's own line, step 0 is the
/// `on` line. Where rule 1 fails the place is 0, 0, 0.
#[derive(Clone, Copy, Debug, PartialEq, Eq, Error)]
#[error("rule {rule} fails at kind {kind}, behaviour {behaviour}, step {step}")]
pub struct CheckFault {
    pub kind: u64,
    pub behaviour: u64,
    pub step: u64,
    pub rule: u8,
}

/// A program that keeps the limits and the rules, seen by contracts as that program.
#[derive(Debug, Drop)]
pub struct Checked {
    pub(crate) program: Program,
}

impl Model for Checked {
    ghost use Rattle.behaviour_code.specs.declared.code.Program as code;
    ghost use Rattle.behaviour_check.specs.Rules.{IsChecked};

    ghost Value = { code.Program };

    ghost view = { λ c. c.program };

    ghost invariant = { λ c. IsChecked c.program };
}

impl Checked {
    /// The program that was checked.
    pub fn program(&self) -> &Program
        ensures value { result.now ≡ self.now }
        ensures kept { IsChecked result.now }
    {
        &self.program
    }
}
