//! The permissions that a request is about, sorted by what the rules say of them.

ghost use Rattle.std.specs.Prelude.{◌≡◌, if◌then◌else◌};
ghost use Rattle.aa_base.specs.Permissions.{only_exec};
ghost use Rattle.aa_compile.specs.Said.{granted, minus, perms_of};
ghost use Rattle.aa_mediate.specs.Bits.{sorted, plain_bits, exec_missing, exec_denied, change_bits};

use crate::held::BIT;
use aa_base::Perms;
use aa_compile::{RuleSets, Transition, Verdict};
use bitflags::Flags;

/// The permissions that a request is about, sorted by what the rules say of them.
#[derive(Clone, Copy, Debug, PartialEq, Eq)]
pub struct RequestBits {
    /// Those that are asked for.
    pub requested: Perms,
    /// Those for which it is refused, unless the profile is in complain mode.
    pub missing: Perms,
    /// Those of them that a rule denies: for these it is refused in complain mode too.
    pub denied: Perms,
    /// The denied ones that are not reported.
    pub quiet: Perms,
    /// Those that are reported where they are granted.
    pub audited: Perms,
}

/// Those that rules allow and none denies.
pub(crate) fn granted_by(sets: RuleSets) -> Perms
    ensures { result.0 ≡ granted sets }
{
    sets.allow.difference(sets.deny)
}

fn sort(asked: Perms, missing: Perms, sets: RuleSets) -> RequestBits
    ensures { result ≡ sorted asked.0 missing.0 sets }
{
    let denied = missing.intersection(sets.deny);
    RequestBits {
        requested: asked,
        missing,
        denied,
        quiet: denied.difference(sets.loud),
        audited: asked.intersection(sets.audited),
    }
}

/// Missing is what isn't granted.
pub(crate) fn plain(asked: Perms, sets: RuleSets) -> RequestBits
    ensures { result ≡ plain_bits asked.0 sets }
{
    sort(asked, asked.difference(granted_by(sets)), sets)
}

/// Of a change of the profile: the one bit is missing too where the name isn't found.
pub(crate) fn of_change(sets: RuleSets, found: bool) -> RequestBits
    ensures { result ≡ change_bits sets found }
{
    let missing = if found {
        BIT.difference(granted_by(sets))
    } else {
        BIT
    };
    sort(BIT, missing, sets)
}

/// EXEC or nothing.
pub(crate) fn exec_if(test: bool) -> Perms
    ensures { result.0 ≡ (if test then only_exec else 0) }
{
    if test { Perms::EXEC } else { Perms(0) }
}

fn missing_of_exec(transition: Transition) -> Perms
    ensures { result.0 ≡ exec_missing transition }
{
    match transition {
        Transition::To(_, _) => Perms(0),
        Transition::Denied | Transition::Nowhere => Perms::EXEC,
    }
}

fn denied_of_exec(transition: Transition) -> Perms
    ensures { result.0 ≡ exec_denied transition }
{
    match transition {
        Transition::Denied => Perms::EXEC,
        Transition::Nowhere | Transition::To(_, _) => Perms(0),
    }
}

/// Of an execution that leads there.
pub(crate) fn of_exec(verdict: &Verdict, transition: Transition) -> RequestBits
    ensures requested { result.requested ≡ perms_of only_exec }
    ensures missing { result.missing ≡ perms_of (exec_missing transition) }
    ensures denied { result.denied ≡ perms_of (exec_denied transition) }
    ensures quiet { result.quiet ≡ perms_of (minus (exec_denied transition) verdict.now.sets.loud.0) }
    ensures audited { result.audited ≡ perms_of (if verdict.now.chosen.audited then only_exec else 0) }
{
    let denied = denied_of_exec(transition);
    RequestBits {
        requested: Perms::EXEC,
        missing: missing_of_exec(transition),
        denied,
        quiet: denied.difference(verdict.sets.loud),
        audited: exec_if(verdict.chosen.audited),
    }
}
