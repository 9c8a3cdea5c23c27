//! Why a policy can't be joined to others.

use aa_model::Policy;

/// Two profiles of one name.
#[derive(Clone, Copy, Debug, PartialEq, Eq)]
pub struct Repeated {
    /// The number of the one that was there.
    pub earlier: u16,
    /// The number of the other in its own policy.
    pub later: u16,
}

/// Why a policy can't be joined to those before it.
#[derive(Clone, Copy, Debug, PartialEq, Eq)]
pub enum JoinFault {
    /// One of its profiles has a name that is there.
    DuplicateProfile(Repeated),
    /// A count would be over its limit.
    TooLarge,
    /// Memory ran out.
    NoMemory,
}

/// A policy that isn't added, and why.
#[derive(Drop)]
pub struct Refused {
    pub fault: JoinFault,
    pub policy: Policy,
}
