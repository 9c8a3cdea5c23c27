//! What the file rules of a profile say of an object.

ghost use Rattle.std.specs.Prelude.{◌≡◌, if◌then◌else◌};
ghost use Rattle.aa_compile.specs.Said.{said, nothing};
ghost use Rattle.aa_compile.specs.FileRules.{saying, file_verdict};

use aa_compile::{RuleSets, applies};
use aa_model::FileRule;

/// What a rule says, if it applies.
fn said_if(test: bool, rule: &FileRule) -> RuleSets
    ensures { result ≡ (if test then said (saying rule.now) else nothing) }
{
    if !test {
        return RuleSets::none();
    }
    RuleSets::said(rule.audit, rule.deny, rule.perms)
}

/// What the rules that apply to an object say together (apparmor.d(5), "Rule Qualifiers"): each pattern is asked, one after
/// the other.
pub fn verdict_by_rules(rules: &[FileRule], path: &[u8], owned: bool) -> RuleSets
    ensures { result ≡ file_verdict rules.now path.now owned }
{
    let mut sets = RuleSets::none();
    for rule in rules {
        let holds = applies(rule, path, owned);
        sets = sets.with(said_if(holds, rule));
    }
    sets
}
