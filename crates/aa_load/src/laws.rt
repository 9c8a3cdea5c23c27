//! Laws of joined policies.

ghost use Rattle.aa_load.specs.Finding.{FindsBoth};

/// In joined policies a name finds the profile of the first that has it, or else that of the second: so an execution rule
/// of either that names a profile of the other finds it. It does nothing: its contract is a law.
pub fn joined_policies_find_both()
    ensures { FindsBoth }
{}
