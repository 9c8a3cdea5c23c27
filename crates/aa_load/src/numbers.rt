//! The numbers of profiles by their names.

ghost use Rattle.std.specs.Prelude.{◌≡◌, ◌+◌, ◌≤◌, ◌++◌, List, ℕ, length, is_some, None, if◌then◌else◌, OnOk, OnErr};
ghost use Rattle.aa_model.specs.declared.policy.Profile.{Profile};
ghost use Rattle.aa_load.specs.Faults.{number_of, repeated};
ghost use Rattle.aa_load.specs.Numbers.{noted, AreNumbers, NotesNumber, AreNew};

use crate::join_fault::Repeated;
use aa_model::Profile;
use std::alloc::{AllocError, Global};
use std::collections::BTreeMap;

/// The first profile whose name has a number, in their order, with that number.
pub fn first_repeated(numbers: &BTreeMap<Vec<u8>, u16>, profiles: &[Profile]) -> Option<Repeated>
    requires { length profiles.now ≤ 4096 }
    ensures { (earlier : List Profile) → AreNumbers numbers.now.entries earlier → result ≡ repeated earlier profiles.now }
{
    for (later, profile) in profiles.iter().enumerate() {
        if let Some(earlier) = numbers.get(profile.name.as_slice()) {
            return Some(Repeated {
                earlier: *earlier,
                later: later as u16,
            });
        }
    }
    None
}

/// Notes the number of a name.
fn note_one(
    alloc: Global,
    numbers: &mut BTreeMap<Vec<u8>, u16>,
    name: &[u8],
    number: u16,
) -> Result<(), AllocError>
    ensures ok { OnOk result (NotesNumber name.now number numbers.old.entries numbers.new.entries) }
    ensures err { OnErr result (numbers.new.entries ≡ numbers.old.entries) }
{
    let key = Vec::from_slice(alloc, name)?;
    numbers.insert(key, number)?;
    Ok(())
}

/// Takes away what is noted for the names of these profiles.
fn forget_all(numbers: &mut BTreeMap<Vec<u8>, u16>, profiles: &[Profile])
    ensures { (name : List ℕ) → noted name numbers.new.entries ≡ (if is_some (number_of name profiles.now) then None else noted name numbers.old.entries) }
{
    for profile in profiles {
        numbers.remove(profile.name.as_slice());
    }
}

/// Notes the numbers of profiles that stand behind so many others. Where memory runs out none is noted.
pub fn note_all(
    alloc: Global,
    numbers: &mut BTreeMap<Vec<u8>, u16>,
    before: usize,
    profiles: &[Profile],
) -> Result<(), AllocError>
    requires { before + length profiles.now ≤ 4096 }
    ensures ok { OnOk result ((earlier : List Profile) → AreNew numbers.old.entries before earlier profiles.now → AreNumbers numbers.new.entries (earlier ++ profiles.now)) }
    ensures err { OnErr result ((earlier : List Profile) → AreNew numbers.old.entries before earlier profiles.now → AreNumbers numbers.new.entries earlier) }
{
    for (place, profile) in profiles.iter().enumerate() {
        let number = (before + place) as u16;
        if note_one(alloc, numbers, profile.name.as_slice(), number).is_err() {
            forget_all(numbers, profiles);
            return Err(AllocError);
        }
    }
    Ok(())
}
