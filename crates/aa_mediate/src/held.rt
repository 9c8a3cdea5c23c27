//! What the rules on capabilities, sockets and changes of the profile say.

ghost use Rattle.std.specs.Prelude.{◌≡◌, if◌then◌else◌};
ghost use Rattle.aa_compile.specs.Said.{said, nothing};
ghost use Rattle.aa_mediate.specs.Held.{cap_verdict, net_verdict, change_verdict, saying};

use aa_base::{Cap, Family, Perms, SockType};
use aa_compile::{RuleSets, holds_cap, holds_change, holds_net};
use aa_model::{CapRule, ChangeRule, NetRule};

/// The one bit of a request that isn't about a file.
pub(crate) const BIT: Perms = Perms(1);

/// What a rule says, if it holds.
fn said_if(test: bool, audit: bool, deny: bool) -> RuleSets
    ensures { result ≡ (if test then said (saying audit deny) else nothing) }
{
    if !test {
        return RuleSets::none();
    }
    RuleSets::said(audit, deny, BIT)
}

/// What the rules say of a capability.
pub(crate) fn verdict_of_cap(rules: &[CapRule], cap: Cap) -> RuleSets
    ensures { result ≡ cap_verdict rules.now cap }
{
    let mut sets = RuleSets::none();
    for rule in rules {
        let holds = holds_cap(rule, cap);
        sets = sets.with(said_if(holds, rule.audit, rule.deny));
    }
    sets
}

/// What the rules say of a socket.
pub(crate) fn verdict_of_net(rules: &[NetRule], family: Family, kind: SockType) -> RuleSets
    ensures { result ≡ net_verdict rules.now family kind }
{
    let mut sets = RuleSets::none();
    for rule in rules {
        let holds = holds_net(rule, family, kind);
        sets = sets.with(said_if(holds, rule.audit, rule.deny));
    }
    sets
}

/// What the rules say of a change of the profile to that of a name.
pub(crate) fn verdict_of_change(rules: &[ChangeRule], name: &[u8]) -> RuleSets
    ensures { result ≡ change_verdict rules.now name.now }
{
    let mut sets = RuleSets::none();
    for rule in rules {
        let holds = holds_change(rule, name);
        sets = sets.with(said_if(holds, rule.audit, rule.deny));
    }
    sets
}
