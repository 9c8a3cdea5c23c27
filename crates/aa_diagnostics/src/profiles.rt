//! Profiles of one name.

ghost use Rattle.std.specs.Prelude.{◌≡◌, List, [], map, Some, IfOk};
ghost use Rattle.aa_base.specs.declared.fault.Spot.{Spot};
ghost use Rattle.aa_base.specs.Kinds.{IsRefusal};
ghost use Rattle.aa_glob.specs.Variables.{Variable};
ghost use Rattle.aa_words.specs.Splits.{words_data};
ghost use Rattle.aa_policy.specs.Bodies.{ProfileData, IsPolicy};
ghost use Rattle.aa_policy.specs.Spelling.{IsDuplicate};
ghost use Rattle.aa_diagnostics.specs.Named.{named_data, named_of};
ghost use Rattle.aa_diagnostics.specs.Earlier.{same_spot, first_named, named_again, IsNamedFirst};

use crate::names::{ProfileName, names_of};
use aa_base::{PolicyFault, Spot};
use aa_words::WordList;
use std::alloc::Global;

fn is_at(profile: &ProfileName, at: Spot) -> bool
    ensures { result ≡ same_spot profile.now.at at }
{
    profile.at.file == at.file && profile.at.byte == at.byte
}

/// Where the first of these profiles stands that has that name.
fn first_named(names: &[ProfileName], name: &[u8]) -> Option<Spot>
    ensures { result ≡ first_named name.now (map named_data names.now) }
{
    for profile in names {
        if profile.name.as_slice() == name {
            return Some(profile.at);
        }
    }
    None
}

/// Where the first profile stands that has the name of one behind it, which stands at a place.
fn named_again(names: &[ProfileName], at: Spot) -> Option<Spot>
    ensures { result ≡ named_again at [] (map named_data names.now) }
{
    for (number, profile) in names.iter().enumerate() {
        if is_at(profile, at) {
            let first = first_named(&names[..number], profile.name.as_slice());
            if first.is_some() {
                return first;
            }
        }
    }
    None
}

/// Where the first profile stands whose full name another one has, at a place behind it.
pub fn earlier_profile(
    alloc: Global,
    words: &WordList,
    at: Spot,
) -> Result<Option<Spot>, PolicyFault>
    ensures found { IfOk result (λ earlier. (vars : List Variable) × (tree : List ProfileData) × IsPolicy (words_data words.now.list.items) vars tree
        × (earlier ≡ named_again at [] (map named_of tree))) }
    ensures repeated { IfOk result (λ earlier. IsDuplicate (words_data words.now.list.items) at → ((first : Spot) × (earlier ≡ Some first) × IsNamedFirst (words_data words.now.list.items) at first)) }
    ensures refused { IsRefusal result → (vars : List Variable) (tree : List ProfileData) → IsPolicy (words_data words.now.list.items) vars tree → ⊥ }
{
    let names = names_of(alloc, words.list.as_slice(), words.end)?;
    Ok(named_again(names.as_slice(), at))
}
