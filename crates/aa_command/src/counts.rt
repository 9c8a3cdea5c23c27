//! How many profiles and rules a policy has.

ghost use Rattle.std.specs.Prelude.{◌≡◌, ◌++◌, OnOk};
ghost use Rattle.aa_command.specs.Counts.{count_of, passed_in, passed_text};

use aa_compile::Compiled;
use aa_text::{push_number, push_text};
use std::alloc::AllocError;

/// How many profiles the first policy has; none where there is no policy.
pub fn count_of(policies: &[Compiled]) -> u16
    ensures { result ≡ count_of policies.now }
{
    match policies.get(0) {
        Some(compiled) => compiled.policy().profiles.as_slice().len() as u16,
        None => 0,
    }
}

/// How many rules of the first policy decide nothing.
pub fn passed_in(policies: &[Compiled]) -> usize
    ensures { result ≡ passed_in policies.now }
{
    match policies.get(0) {
        Some(compiled) => compiled.policy().passed_over.as_slice().len(),
        None => 0,
    }
}

/// Appends how many rules decide nothing, where there are some.
pub fn push_passed(out: &mut Vec<u8>, count: usize) -> Result<(), AllocError>
    ensures { OnOk result (out.new.items ≡ out.old.items ++ passed_text count) }
{
    if count == 0 {
        return Ok(());
    }
    push_number(out, count)?;
    push_text(out, " rules passed over\n")
}
