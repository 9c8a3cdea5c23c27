//! Where an execution leads.

ghost use Rattle.std.specs.Prelude.{◌≡◌};
ghost use Rattle.aa_compile.specs.Transitions.{falls, goes, leads};

use crate::mark::Way;
use aa_model::{ExecKind, Fallback};

/// What the rules make of an execution.
#[derive(Clone, Copy, Debug, PartialEq, Eq)]
pub enum Transition {
    /// A rule denies it.
    Denied,
    /// No rule says how, or the profile isn't there and there is no fallback.
    Nowhere,
    /// The profile from now on, none where the task is unconfined then, and whether the environment is to be scrubbed.
    To(Option<u16>, bool),
}

/// Where a profile isn't found.
fn fall_back(way: Way, number: u16) -> Transition
    ensures { result ≡ falls way.fallback way.scrub number }
{
    match way.fallback {
        Fallback::Refuse => Transition::Nowhere,
        Fallback::Inherit => Transition::To(Some(number), false),
        Fallback::Unconfined => Transition::To(None, way.scrub),
    }
}

fn to_found(way: Way, number: u16, found: Option<u16>) -> Transition
    ensures { result ≡ goes way.fallback way.scrub number found }
{
    match found {
        Some(profile) => Transition::To(Some(profile), way.scrub),
        None => fall_back(way, number),
    }
}

/// Where a way leads from a profile, if it leads to the one that was found.
pub(crate) fn lead(way: Way, number: u16, found: Option<u16>) -> Transition
    ensures { result ≡ leads way.kind way.fallback way.scrub number found }
{
    match way.kind {
        ExecKind::Inherit => Transition::To(Some(number), false),
        ExecKind::Unconfined => Transition::To(None, way.scrub),
        ExecKind::Profile => to_found(way, number, found),
        ExecKind::Child => to_found(way, number, found),
    }
}
