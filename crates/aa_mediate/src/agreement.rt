//! A law of execution rules.

ghost use Rattle.std.specs.Prelude.{◌≡◌, ℕ, List, Bool, Contains};
ghost use Rattle.aa_model.specs.declared.rule.FileRule.{FileRule};
ghost use Rattle.aa_compile.specs.FileRules.{chosen, Conflicts};

/// Where no two rules conflict, all rules that are chosen for a path say the same of how it is executed, so that it is of no
/// account which of them is looked at. It does nothing: its contract is a law of the definitions.
pub fn chosen_rules_agree()
    ensures { (rules : List FileRule) (path : List ℕ) (owned : Bool) → (Conflicts rules → ⊥) → (r q : FileRule)
        → Contains (chosen rules path owned) r → Contains (chosen rules path owned) q → r.exec ≡ q.exec }
{}
