//! Rules that may lead to profiles of skipped files, by their places.

ghost use Rattle.std.specs.Prelude.{◌≡◌, ◌++◌, [], length, flat_map, option_map, IfOk, OnOk};
ghost use Rattle.aa_redundant.specs.Leading.{place_if, open_files, open_changes, open_in, first_open, open_by, open_places};

use aa_compile::Compiled;
use aa_differences::{change_is_open, rule_is_open};
use aa_model::{ChangeRule, FileRule, Profile};
use aa_redundancy::{PlaceNumbers, place_of};
use aa_skipped::Skipped;
use aa_skipping::Unread;
use std::alloc::{AllocError, Global};

/// Adds a place, where its rule may lead there.
fn push_if(places: &mut Vec<usize>, is_open: bool, place: usize) -> Result<(), AllocError>
    ensures { OnOk result (places.new.items ≡ places.old.items ++ place_if is_open place) }
{
    if is_open {
        places.push(place)?;
    }
    Ok(())
}

/// The places of rules on files by which an execution may lead to a profile that wasn't read.
fn open_files(
    alloc: Global,
    compiled: &Compiled,
    unread: &Unread,
    profile: &Profile,
    numbers: &[usize],
    rules: &[FileRule],
) -> Result<Vec<usize>, AllocError>
    ensures { IfOk result (λ places. places.items ≡ open_files compiled.now.profiles unread.now profile.now numbers.now 0 rules.now) }
{
    let mut places = Vec::new(alloc);
    for number in 0..rules.len() {
        let is_open = rule_is_open(alloc, compiled, unread, profile, &rules[number])?;
        push_if(&mut places, is_open, place_of(numbers, number))?;
    }
    Ok(places)
}

/// The places of rules by which a task may change to such a profile.
fn open_changes(
    alloc: Global,
    unread: &Unread,
    numbers: &[usize],
    rules: &[ChangeRule],
) -> Result<Vec<usize>, AllocError>
    ensures { IfOk result (λ places. places.items ≡ open_changes unread.now numbers.now 0 rules.now) }
{
    let mut places = Vec::new(alloc);
    for number in 0..rules.len() {
        let is_open = change_is_open(unread, &rules[number]);
        push_if(&mut places, is_open, place_of(numbers, number))?;
    }
    Ok(places)
}

/// Adds those of a profile's rules, where it and the numbers of its places are there.
fn push_open_in(
    places: &mut Vec<usize>,
    alloc: Global,
    compiled: &Compiled,
    unread: &Unread,
    profile: Option<&Profile>,
    numbers: Option<&PlaceNumbers>,
) -> Result<(), AllocError>
    ensures { OnOk result (places.new.items ≡ places.old.items ++ open_in compiled.now.profiles unread.now (option_map (λ p. p.now) profile.entry) (option_map (λ n. n.now) numbers.entry)) }
{
    let (Some(profile), Some(numbers)) = (profile, numbers) else {
        return Ok(());
    };
    let files = open_files(
        alloc,
        compiled,
        unread,
        profile,
        numbers.files.as_slice(),
        profile.files.as_slice(),
    )?;
    let changes = open_changes(
        alloc,
        unread,
        numbers.changes.as_slice(),
        profile.changes.as_slice(),
    )?;
    places.extend_from_slice(files.as_slice())?;
    places.extend_from_slice(changes.as_slice())?;
    Ok(())
}

fn first_open(
    alloc: Global,
    compiled: &Compiled,
    numbers: &[PlaceNumbers],
    unread: &Unread,
    profiles: &[Profile],
) -> Result<Vec<usize>, AllocError>
    requires { profiles.now ≡ compiled.now.profiles }
    ensures { IfOk result (λ places. places.items ≡ first_open compiled.now.profiles numbers.now unread.now (length compiled.now.profiles)) }
{
    let mut places = Vec::new(alloc);
    for number in 0..profiles.len() {
        push_open_in(
            &mut places,
            alloc,
            compiled,
            unread,
            profiles.get(number),
            numbers.get(number),
        )?;
    }
    Ok(places)
}

/// Adds the places of the rules that may lead to a profile of a skipped file.
fn push_open_by(
    places: &mut Vec<usize>,
    alloc: Global,
    compiled: &Compiled,
    numbers: &[PlaceNumbers],
    file: &Skipped,
) -> Result<(), AllocError>
    ensures { OnOk result (places.new.items ≡ places.old.items ++ open_by compiled.now.profiles numbers.now file.now) }
{
    let profiles = compiled.policy().profiles.as_slice();
    let own = first_open(alloc, compiled, numbers, &file.unread, profiles)?;
    places.extend_from_slice(own.as_slice())?;
    Ok(())
}

fn all_open(
    alloc: Global,
    compiled: &Compiled,
    numbers: &[PlaceNumbers],
    skipped: &[Skipped],
) -> Result<Vec<usize>, AllocError>
    ensures { IfOk result (λ places. places.items ≡ flat_map (open_by compiled.now.profiles numbers.now) skipped.now) }
{
    let mut places = Vec::new(alloc);
    for file in skipped {
        push_open_by(&mut places, alloc, compiled, numbers, file)?;
    }
    Ok(places)
}

/// The places of the rules that may lead to a profile of one of the skipped files.
#[tactic(auto, unfolding(crate::specs::Leading::open_places))]
pub(crate) fn open_places(
    alloc: Global,
    policies: &[Compiled],
    numbers: &[PlaceNumbers],
    skipped: &[Skipped],
) -> Result<Vec<usize>, AllocError>
    ensures { IfOk result (λ places. places.items ≡ open_places policies.now numbers.now skipped.now) }
{
    match policies.get(0) {
        Some(compiled) => all_open(alloc, compiled, numbers, skipped),
        None => Ok(Vec::new(alloc)),
    }
}
