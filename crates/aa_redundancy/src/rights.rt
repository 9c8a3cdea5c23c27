//! What replies look at of the sets of permissions that rules name.

ghost use Rattle.std.specs.Prelude.{◌≡◌};
ghost use Rattle.aa_redundancy.specs.Rights.{rights};

use aa_base::Perms;
use aa_compile::RuleSets;
use bitflags::Flags;

/// What replies look at of the sets of permissions that rules name.
#[derive(Clone, Copy, Debug, PartialEq, Eq)]
pub struct Rights {
    /// Those that are allowed and not denied.
    pub granted: Perms,
    pub denied: Perms,
    /// The denied ones that are reported.
    pub loud: Perms,
    /// The granted ones that are reported.
    pub reported: Perms,
}

/// What replies look at of these sets.
pub(crate) fn rights_of(sets: RuleSets) -> Rights
    ensures { result ≡ rights sets }
{
    let granted = sets.allow.difference(sets.deny);
    Rights {
        granted,
        denied: sets.deny,
        loud: sets.loud,
        reported: sets.audited.intersection(granted),
    }
}
