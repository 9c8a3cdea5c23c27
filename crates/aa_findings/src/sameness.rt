//! What rules say, as numbers.

ghost use Rattle.std.specs.Prelude.{◌≡◌};
ghost use Rattle.aa_findings.specs.Sameness.{same, kind_number, fallback_number};

use aa_model::{ExecKind, Fallback};

pub(crate) fn same(one: bool, other: bool) -> bool
    ensures { result ≡ same one other }
{
    if one { other } else { !other }
}

pub(crate) fn kind_number(kind: ExecKind) -> u8
    ensures { result ≡ kind_number kind }
{
    match kind {
        ExecKind::Inherit => 0,
        ExecKind::Unconfined => 1,
        ExecKind::Profile => 2,
        ExecKind::Child => 3,
    }
}

pub(crate) fn fallback_number(fallback: Fallback) -> u8
    ensures { result ≡ fallback_number fallback }
{
    match fallback {
        Fallback::Refuse => 0,
        Fallback::Inherit => 1,
        Fallback::Unconfined => 2,
    }
}
