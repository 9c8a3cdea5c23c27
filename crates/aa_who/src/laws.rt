//! By which policies `who` counts.

ghost use Rattle.aa_who.specs.Enforced.{ThereAreEnforcing, RulesEnforced, CountsEnforced};

/// The rules allow what the mediator grants by the policies whose complain flags are cleared, with the same labels, rules and attachments; so
/// what is told of a word is what they grant of it, to profiles and to tasks without one. It does nothing: its contract is a law of the
/// definitions.
pub fn who_asks_as_enforced()
    ensures there { ThereAreEnforcing }
    ensures rules { RulesEnforced }
    ensures counts { CountsEnforced }
{}
