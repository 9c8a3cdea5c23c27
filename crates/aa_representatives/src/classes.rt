//! Paths of which the rules of a profile say the same.

ghost use Rattle.std.specs.Prelude.{◌≡◌, ◌<◌, ◌≤◌, ◌∷◌, [], true, false, Some, IfOk, OnOk, Contains, length, map};
ghost use Rattle.std.specs.List.{slice_get};
ghost use Rattle.aa_model.specs.declared.policy.Profile.{Profile};
ghost use Rattle.aa_regions.specs.declared.regions.Region.{Region};
ghost use Rattle.aa_regions.specs.Regions.{IsAsked, ArePathRegions};
ghost use Rattle.aa_representatives.specs.Alike.{deciding};
ghost use Rattle.aa_representatives.specs.declared.classes.Class.{Class};
ghost use Rattle.aa_representatives.specs.Classes.{IsClass, IsClassOf, AreClasses, ArePathsOf, AreLinkPaths};

use aa_base::Text;
use aa_compile::{Chosen, Compiled, RuleSets, Verdict, Way};
use aa_model::Label;
use aa_regions::Region;
use std::alloc::{AllocError, Global};

/// What the rules say of a path, of the owner and of others.
#[derive(Drop)]
struct Class {
    owned: Verdict,
    other: Verdict,
    path: Text,
}

fn same_sets(one: RuleSets, other: RuleSets) -> bool
    ensures { result ≡ true → one ≡ other }
{
    one == other
}

fn same_way(one: Option<Way>, other: Option<Way>) -> bool
    ensures { result ≡ true → one ≡ other }
{
    match (one, other) {
        (Some(one), Some(other)) => one == other,
        (None, None) => true,
        _ => false,
    }
}

fn same_choice(one: Chosen, other: Chosen) -> bool
    ensures { result ≡ true → one ≡ other }
{
    if !same_way(one.way, other.way) {
        return false;
    }
    one.audited == other.audited
}

pub(crate) fn same_verdict(one: Verdict, other: Verdict) -> bool
    ensures { result ≡ true → one ≡ other }
{
    if !same_sets(one.sets, other.sets) {
        return false;
    }
    same_choice(one.chosen, other.chosen)
}

/// Whether the same is said of the class.
fn is_of(class: &Class, owned: Verdict, other: Verdict) -> bool
    ensures { result ≡ true → (class.now.owned ≡ owned) × (class.now.other ≡ other) }
{
    if !same_verdict(class.owned, owned) {
        return false;
    }
    same_verdict(class.other, other)
}

fn is_met(classes: &[Class], owned: Verdict, other: Verdict) -> bool
    ensures { result ≡ true → (c : Class) × Contains classes.now c × (c.owned ≡ owned) × (c.other ≡ other) }
{
    for class in classes {
        if is_of(class, owned, other) {
            return true;
        }
    }
    false
}

/// Adds the class of the path, where it isn't there.
fn add_class(
    alloc: Global,
    classes: &mut Vec<Class>,
    compiled: &Compiled,
    number: u16,
    path: &[u8],
) -> Result<(), AllocError>
    requires number { number < length compiled.now.profiles }
    requires path { IsAsked path.now }
    ensures kept { OnOk result ((c : Class) → Contains classes.old.items c → Contains classes.new.items c) }
    ensures each { OnOk result ((p : Profile) → slice_get compiled.now.profiles number ≡ Some p → ((c : Class) → Contains classes.old.items c → IsClass p.files c) → (c : Class) → Contains classes.new.items c → IsClass p.files c) }
    ensures has { OnOk result ((p : Profile) → slice_get compiled.now.profiles number ≡ Some p → (c : Class) × Contains classes.new.items c × IsClassOf p.files path.now c) }
{
    let owned = compiled.verdict(number, path, true);
    let other = compiled.verdict(number, path, false);
    if is_met(classes.as_slice(), owned, other) {
        return Ok(());
    }
    let path = Text::copy_of(alloc, path)?;
    classes.push(Class { owned, other, path })?;
    Ok(())
}

/// The classes of the paths of the regions.
fn classes_of(
    alloc: Global,
    compiled: &Compiled,
    number: u16,
    regions: &[Region],
) -> Result<Vec<Class>, AllocError>
    requires number { number < length compiled.now.profiles }
    requires asked { (r : Region) → Contains regions.now r → IsAsked r.witness }
    ensures { IfOk result (λ cs. (p : Profile) → slice_get compiled.now.profiles number ≡ Some p → AreClasses p.files regions.now (length regions.now) cs.items) }
{
    let mut classes = Vec::new(alloc);
    for region in regions {
        add_class(
            alloc,
            &mut classes,
            compiled,
            number,
            region.witness.as_slice(),
        )?;
    }
    Ok(classes)
}

fn paths_of(alloc: Global, classes: &[Class]) -> Result<Vec<Text>, AllocError>
    ensures { IfOk result (λ paths. paths.items ≡ map (λ c. c.path) classes.now) }
{
    let mut paths = Vec::new(alloc);
    for class in classes {
        paths.push(class.path.try_clone()?)?;
    }
    Ok(paths)
}

fn paths_in_profile(
    alloc: Global,
    compiled: &Compiled,
    number: u16,
    regions: &[Region],
) -> Result<Vec<Text>, AllocError>
    requires number { number < length compiled.now.profiles }
    requires asked { (r : Region) → Contains regions.now r → IsAsked r.witness }
    ensures { IfOk result (λ paths. (p : Profile) → slice_get compiled.now.profiles number ≡ Some p → ArePathsOf p.files regions.now paths.items) }
{
    let classes = classes_of(alloc, compiled, number, regions)?;
    let paths = paths_of(alloc, classes.as_slice())?;
    Ok(paths)
}

/// The path that every other begins with.
fn one_path(alloc: Global) -> Result<Vec<Text>, AllocError>
    ensures { IfOk result (λ paths. paths.items ≡ (47 ∷ []) ∷ []) }
{
    let mut paths = Vec::new(alloc);
    paths.push(Text::copy_of(alloc, b"/")?)?;
    Ok(paths)
}

/// A path of each class of those that the rules at a label say the same of. Without a profile all are of one class.
pub(crate) fn link_paths(
    alloc: Global,
    policies: &[Compiled],
    label: Label,
    regions: &[Region],
) -> Result<Vec<Text>, AllocError>
    requires { ArePathRegions (deciding policies.now label) regions.now }
    ensures { IfOk result (λ paths. AreLinkPaths policies.now label paths.items) }
{
    let Label::Confined(policy, number) = label else {
        return one_path(alloc);
    };
    let Some(compiled) = policies.get(policy as usize) else {
        return one_path(alloc);
    };
    if number as usize >= compiled.policy().profiles.as_slice().len() {
        return one_path(alloc);
    }
    paths_in_profile(alloc, compiled, number, regions)
}
