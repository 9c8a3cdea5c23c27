//! Hard links.

ghost use Rattle.std.specs.Prelude.{◌≡◌, ◌<◌, true, Some, length};
ghost use Rattle.std.specs.List.{slice_get};
ghost use Rattle.aa_model.specs.declared.policy.Profile.{Profile};
ghost use Rattle.aa_mediate.specs.Links.{link_missing, link_bits_of, link_bits};

use crate::bits::{RequestBits, exec_if, granted_by};
use aa_base::Perms;
use aa_compile::{Compiled, RuleSets, Way};
use aa_model::LinkRequest;
use bitflags::Flags;

fn missing_of_link(link: RuleSets, target: RuleSets, same: bool) -> Perms
    ensures { result.0 ≡ link_missing link target same }
{
    let granted = granted_by(link);
    let at_target = granted_by(target);
    let kept = granted
        .difference(at_target)
        .difference(Perms::LINK.union(Perms::EXEC));
    let exec = exec_if(granted.contains(Perms::EXEC) && !(at_target.contains(Perms::EXEC) && same));
    Perms::LINK.difference(granted).union(kept).union(exec)
}

fn of_sets(link: RuleSets, target: RuleSets, same: bool) -> RequestBits
    ensures { result ≡ link_bits_of link target same }
{
    let denied = Perms::LINK.intersection(link.deny);
    RequestBits {
        requested: Perms::LINK,
        missing: missing_of_link(link, target, same),
        denied,
        quiet: denied.difference(link.loud),
        audited: Perms::LINK.intersection(link.audited),
    }
}

fn same_way(one: Option<Way>, other: Option<Way>) -> bool
    ensures alike { result ≡ true → one ≡ other }
    ensures same { one ≡ other → result ≡ true }
{
    match (one, other) {
        (Some(one), Some(other)) => one == other,
        (None, None) => true,
        _ => false,
    }
}

/// The bits of a request to make a hard link, by the rules of a profile: two walks, and two looks at rows.
pub(crate) fn of_link(compiled: &Compiled, number: u16, request: &LinkRequest) -> RequestBits
    requires { number < length compiled.now.profiles }
    ensures { (p : Profile) → slice_get compiled.now.profiles number ≡ Some p → result ≡ link_bits p.files request.now }
{
    let link = compiled.verdict(number, request.link(), request.owned());
    let target = compiled.verdict(number, request.target(), request.owned());
    let same = same_way(link.chosen.way, target.chosen.way);
    of_sets(link.sets, target.sets, same)
}
