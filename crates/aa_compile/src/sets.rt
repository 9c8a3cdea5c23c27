//! Sets of permissions that rules name.

ghost use Rattle.std.specs.Prelude.{◌≡◌};
ghost use Rattle.aa_compile.specs.Said.{bits_if, both, nothing, said};

use aa_base::Perms;
use bitflags::Flags;

/// The permissions that rules name (apparmor.d(5), "Rule Qualifiers").
#[derive(Clone, Copy, Debug, PartialEq, Eq)]
pub struct RuleSets {
    /// Those of the rules without `deny`.
    pub allow: Perms,
    /// Those of the rules with `deny`.
    pub deny: Perms,
    /// Those of the `audit deny` rules.
    pub loud: Perms,
    /// Those of the `audit` rules without `deny`.
    pub audited: Perms,
}

fn perms_if(test: bool, perms: Perms) -> Perms
    ensures { result ≡ bits_if test perms.0 }
{
    if test { perms } else { Perms(0) }
}

impl RuleSets {
    /// No permission in any of the sets.
    pub fn none() -> RuleSets
        ensures { result ≡ nothing }
    {
        RuleSets {
            allow: Perms(0),
            deny: Perms(0),
            loud: Perms(0),
            audited: Perms(0),
        }
    }

    /// What a rule that holds says of these permissions.
    pub fn said(audit: bool, deny: bool, perms: Perms) -> RuleSets
        ensures { result ≡ said (record { audit = audit; deny = deny; bits = perms.0 }) }
    {
        RuleSets {
            allow: perms_if(!deny, perms),
            deny: perms_if(deny, perms),
            loud: perms_if(audit && deny, perms),
            audited: perms_if(audit && !deny, perms),
        }
    }

    /// These and those.
    pub fn with(self, other: RuleSets) -> RuleSets
        ensures { result ≡ both self other }
    {
        RuleSets {
            allow: self.allow.union(other.allow),
            deny: self.deny.union(other.deny),
            loud: self.loud.union(other.loud),
            audited: self.audited.union(other.audited),
        }
    }
}
