//! Which limit a whole passes.

ghost use Rattle.std.specs.Prelude.{◌≡◌, List, map, IfOk};
ghost use Rattle.std.specs.List.{list_any};
ghost use Rattle.aa_base.specs.Kinds.{IsRefusal};
ghost use Rattle.aa_glob.specs.Variables.{Variable};
ghost use Rattle.aa_words.specs.Splits.{WordData};
ghost use Rattle.aa_policy.specs.Bodies.{ProfileData, IsPolicy};
ghost use Rattle.aa_diagnostics.specs.Named.{named_data};
ghost use Rattle.aa_diagnostics.specs.Further.{HasWords};
ghost use Rattle.aa_diagnostics.specs.Limits.{AreProfilesOf, is_long, limit_of_profiles, limit_of_texts, HasNoProfiles, IsLimitOf};

use crate::further::is_want_of_memory;
use crate::names::{ProfileName, names_of};
use aa_base::PolicyFault;
use aa_files::Unit;
use aa_load::sources_of;
use aa_words::words;
use std::alloc::{AllocError, Global};

/// The most profiles of a policy.
const MOST_PROFILES: usize = 4096;

/// The most bytes of a full name.
const MOST_BYTES: usize = 1024;

fn is_long(profile: &ProfileName) -> bool
    ensures { result ≡ is_long (named_data profile.now) }
{
    profile.name.len() > MOST_BYTES
}

fn is_one_long(profiles: &[ProfileName]) -> bool
    ensures { result ≡ list_any is_long (map named_data profiles.now) }
{
    for profile in profiles {
        if is_long(profile) {
            return true;
        }
    }
    false
}

fn limit_of_profiles(profiles: &[ProfileName]) -> &'static str
    ensures { result.now ≡ limit_of_profiles (map named_data profiles.now) }
{
    if profiles.len() > MOST_PROFILES {
        "it has more than 4,096 profiles"
    } else if is_one_long(profiles) {
        "the full name of a profile has more than 1,024 bytes"
    } else {
        "a profile's rules have more than 65,535 patterns, or the attachments among which one is searched"
    }
}

fn limit_of_texts() -> &'static str
    ensures { result.now ≡ limit_of_texts }
{
    "with all that it includes it has more than 16,777,216 bytes, or 4,096 texts, each counted as often as it is read"
}

/// The profiles of a unit, by their full names.
fn profiles_of(alloc: Global, unit: &Unit) -> Result<Vec<ProfileName>, PolicyFault>
    ensures found { IfOk result (λ profiles. AreProfilesOf unit.now (map named_data profiles.items)) }
    ensures refused { IsRefusal result → HasNoProfiles unit.now }
{
    let sources = sources_of(alloc, unit)?;
    let list = words(alloc, &sources, unit.text.as_slice())?;
    names_of(alloc, list.list.as_slice(), list.end)
}

/// What is said of a limit that the whole of a unit passes.
pub(crate) fn limit_of(alloc: Global, unit: &Unit) -> Result<Vec<u8>, AllocError>
    ensures { IfOk result (λ said. IsLimitOf unit.now said.items) }
{
    match profiles_of(alloc, unit) {
        Ok(profiles) => Vec::from_slice(alloc, limit_of_profiles(profiles.as_slice()).as_bytes()),
        Err(fault) if is_want_of_memory(fault) => Err(AllocError),
        Err(_) => Vec::from_slice(alloc, limit_of_texts().as_bytes()),
    }
}
