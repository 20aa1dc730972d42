// What the rules say.

ghost use Rattle.std.specs.Prelude.{◌≡◌, ◌↔◌, None};
ghost use Rattle.behaviour_code.specs.declared.code.Program.{Program};
ghost use Rattle.behaviour_check.specs.Keeps.{HasNoNameTwice, KeepsRules};
ghost use Rattle.behaviour_check.specs.Rules.{IsChecked, first_broken};

/// No rule fails in a program exactly where it keeps the six rules, each told in its own words.
#[tactic(auto, using(crate::proofs::Keeping::accepts_exactly))]
pub fn rules_are_kept_exactly()
    ensures { (p : Program) → (first_broken p ≡ None) ↔ KeepsRules p }
{}

/// In a checked program no two kinds, no two behaviours of a kind and no two labels of a behaviour
/// have one name, so where a name stands at a place, it stands nowhere else.
#[tactic(auto, using(crate::proofs::Once::no_name_twice))]
pub fn names_are_given_once()
    ensures { (p : Program) → IsChecked p → HasNoNameTwice p }
{}
