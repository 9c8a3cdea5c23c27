//! The policies of a job: each file's text, and the names of its profiles.

ghost use Rattle.std.specs.Prelude.{◌≡◌, IfOk, IfErr};
ghost use Rattle.aa_files.specs.Texts.{texts};
ghost use Rattle.aa_model.specs.Lawful.{names_of};
ghost use Rattle.aa_load.specs.UnitPolicy.{limit_of};
ghost use Rattle.aa_job.specs.Policies.{HaveNames, IsUnnamed, AreJobPolicies};

use aa_base::PolicyFault;
use aa_compile::Compiled;
use aa_files::Unit;
use aa_load::compile_unit;
use aa_notation::JobPolicy;
use std::alloc::{AllocError, AllocFailed, Global};

/// Why the profiles of units have no names.
#[derive(Clone, Copy)]
pub(crate) enum Unnamed<'u> {
    NoMemory,
    /// This unit is no policy.
    Refused(&'u Unit, PolicyFault),
}

impl From<AllocError> for Unnamed<'_> {
    ghost use Rattle.aa_job.specs.declared.policies.Unnamed.TheVariants.{NoMemory};

    ghost from_gives = { λ _ e. e ≡ NoMemory };

    fn from(_e: AllocError) -> Self {
        Unnamed::NoMemory
    }
}

impl<T: Drop> From<AllocFailed<T>> for Unnamed<'_> {
    ghost use Rattle.aa_job.specs.declared.policies.Unnamed.TheVariants.{NoMemory};

    ghost from_gives = { λ _ e. e ≡ NoMemory };

    fn from(_e: AllocFailed<T>) -> Self {
        Unnamed::NoMemory
    }
}

/// The names of a policy's profiles.
fn names_of(alloc: Global, compiled: &Compiled) -> Result<Vec<Vec<u8>>, AllocError>
    ensures { IfOk result (λ names. texts names.items ≡ names_of compiled.now.profiles) }
{
    let mut names = Vec::new(alloc);
    for profile in compiled.policy().profiles.as_slice() {
        names.push(Vec::from_slice(alloc, profile.name.as_slice())?)?;
    }
    Ok(names)
}

/// The names of each unit's profiles, each compiled by itself. Refused at the first that is no policy.
pub(crate) fn all_names<'u>(
    alloc: Global,
    states: u32,
    units: &'u [Unit],
) -> Result<Vec<Vec<Vec<u8>>>, Unnamed<'u>>
    ensures named { IfOk result (λ all. HaveNames (limit_of states) units.now all.items) }
    ensures refused { IfErr result (IsUnnamed (limit_of states) units.now) }
{
    let mut all = Vec::new(alloc);
    for unit in units {
        match compile_unit(alloc, unit, states) {
            Ok(compiled) => all.push(names_of(alloc, &compiled)?)?,
            Err(fault) => return Err(Unnamed::Refused(unit, fault)),
        }
    }
    Ok(all)
}

/// The units as policies of a job, whose profiles have these names.
pub(crate) fn policies_of<'a>(
    alloc: Global,
    states: u32,
    units: &'a [Unit],
    names: &'a [Vec<Vec<u8>>],
) -> Result<Vec<JobPolicy<'a>>, AllocError>
    requires { HaveNames (limit_of states) units.now names.now }
    ensures { IfOk result (λ ps. AreJobPolicies (limit_of states) units.now ps.items) }
{
    let mut policies = Vec::new(alloc);
    for (number, unit) in units.iter().enumerate() {
        let text = unit.text.as_slice();
        let names = names[number].as_slice();
        policies.push(JobPolicy { text, names })?;
    }
    Ok(policies)
}
