//! The names of capabilities and of sockets that may have been meant by others.

ghost use Rattle.std.specs.Prelude.{◌≡◌, map, is_some};
ghost use Rattle.aa_base.specs.Tables.{number_in, capability_names, family_names, sock_type_names};
ghost use Rattle.aa_notation.specs.Named.{named};

use aa_base::{Cap, Family, SockType};
use aa_text::nearest_name;

/// The name itself where it is one of these, or else the nearest of them, if one is near.
#[tactic(auto, unfolding(crate::specs::Named::named))]
fn named<'n>(names: &[&'static str], is_one: bool, name: &'n [u8]) -> &'n [u8]
    requires { is_one ≡ is_some (number_in (map (λ entry. entry.now) names.now) name.now) }
    ensures { result.now ≡ named (map (λ entry. entry.now) names.now) name.entry.now }
{
    if is_one {
        return name;
    }
    match nearest_name(names, name) {
        Some(nearest) => nearest.as_bytes(),
        None => name,
    }
}

pub(crate) fn capability_named(name: &[u8]) -> &[u8]
    ensures { result.now ≡ named capability_names name.entry.now }
{
    named(Cap::names(), Cap::from_name(name).is_some(), name)
}

pub(crate) fn family_named(name: &[u8]) -> &[u8]
    ensures { result.now ≡ named family_names name.entry.now }
{
    named(Family::names(), Family::from_name(name).is_some(), name)
}

pub(crate) fn sock_type_named(name: &[u8]) -> &[u8]
    ensures { result.now ≡ named sock_type_names name.entry.now }
{
    named(SockType::names(), SockType::from_name(name).is_some(), name)
}
