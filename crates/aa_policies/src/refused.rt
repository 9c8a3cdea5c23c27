//! Which policy of a list is refused, and why.

use aa_base::{PolicyFault, PolicyKind};
use std::alloc::AllocFailed;
use std::fmt;

/// A policy of a list that is refused: its number, from 0, and why.
#[derive(Clone, Copy, Debug, PartialEq, Eq)]
pub struct RefusedPolicy {
    pub policy: u16,
    pub fault: PolicyFault,
}

impl fmt::Display for RefusedPolicy {
    fn fmt<W: fmt::Write>(&self, f: &mut fmt::Formatter<W>) -> fmt::Result {
        if self.policy > 0 {
            let policy = self.policy;
            write!(f, "policy {policy} ")?;
        }
        let fault = self.fault;
        write!(f, "{fault}")
    }
}

impl std::error::Error for RefusedPolicy {}

impl<T: Drop> From<AllocFailed<T>> for RefusedPolicy {
    ghost use Rattle.std.specs.Prelude.{◌≡◌};
    ghost use Rattle.aa_base.specs.Kinds.{no_memory};

    ghost from_gives = { λ _ e. e ≡ record { policy = 0; fault = no_memory } };

    fn from(_e: AllocFailed<T>) -> RefusedPolicy {
        RefusedPolicy {
            policy: 0,
            fault: PolicyFault::at_start(PolicyKind::NoMemory),
        }
    }
}
