//! Paths of which the rules at two labels say the same.

ghost use Rattle.std.specs.Prelude.{◌≡◌, ◌<◌, ◌⊎◌, true, Some, IfOk, OnOk, Contains, length, map};
ghost use Rattle.std.specs.List.{slice_get};
ghost use Rattle.aa_regions.specs.declared.regions.Region.{Region};
ghost use Rattle.aa_regions.specs.Regions.{IsAsked, ArePathRegions};
ghost use Rattle.aa_model.specs.declared.policy.Profile.{Profile};
ghost use Rattle.aa_representatives.specs.declared.said.SaidClass.{SaidClass};
ghost use Rattle.aa_representatives.specs.Both.{deciding_both, IsSaid, IsSaidAt, AreSaidClasses, AreLinkPathsOfBoth};

use crate::classes::same_verdict;
use aa_base::Text;
use aa_compile::{Compiled, Verdict};
use aa_model::Label;
use aa_regions::Region;
use std::alloc::{AllocError, Global};

/// What the rules of a profile say of a path, of the owner and of others.
#[derive(Clone, Copy)]
pub(crate) struct Said {
    owned: Verdict,
    other: Verdict,
}

/// What the rules at two labels say of a path; nothing is said where the label has no profile.
#[derive(Drop)]
pub(crate) struct SaidClass {
    one: Option<Said>,
    other: Option<Said>,
    path: Text,
}

fn same_said(one: Said, other: Said) -> bool
    ensures { result ≡ true → one ≡ other }
{
    if !same_verdict(one.owned, other.owned) {
        return false;
    }
    same_verdict(one.other, other.other)
}

fn same_if_said(one: Option<Said>, other: Option<Said>) -> bool
    ensures { result ≡ true → one ≡ other }
{
    match (one, other) {
        (Some(one), Some(other)) => same_said(one, other),
        (None, None) => true,
        _ => false,
    }
}

/// Whether the same is said of the class.
fn is_of(class: &SaidClass, one: Option<Said>, other: Option<Said>) -> bool
    ensures { result ≡ true → (class.now.one ≡ one) × (class.now.other ≡ other) }
{
    if !same_if_said(class.one, one) {
        return false;
    }
    same_if_said(class.other, other)
}

fn is_met(classes: &[SaidClass], one: Option<Said>, other: Option<Said>) -> bool
    ensures { result ≡ true → (c : SaidClass) × Contains classes.now c × (c.one ≡ one) × (c.other ≡ other) }
{
    for class in classes {
        if is_of(class, one, other) {
            return true;
        }
    }
    false
}

fn said_in(compiled: &Compiled, number: u16, path: &[u8]) -> Said
    requires { number < length compiled.now.profiles }
    ensures { (p : Profile) → slice_get compiled.now.profiles number ≡ Some p → IsSaid p.files path.now result }
{
    Said {
        owned: compiled.verdict(number, path, true),
        other: compiled.verdict(number, path, false),
    }
}

/// What the rules at a label say of a path.
pub(crate) fn said_at(policies: &[Compiled], label: Label, path: &[u8]) -> Option<Said>
    ensures { IsSaidAt policies.now label path.now result }
{
    let Label::Confined(policy, number) = label else {
        return None;
    };
    let Some(compiled) = policies.get(policy as usize) else {
        return None;
    };
    if number as usize >= compiled.policy().profiles.as_slice().len() {
        return None;
    }
    Some(said_in(compiled, number, path))
}

/// Adds the class of the path, where it isn't there.
pub(crate) fn add_class(
    alloc: Global,
    classes: &mut Vec<SaidClass>,
    path: &[u8],
    one: Option<Said>,
    other: Option<Said>,
) -> Result<(), AllocError>
    ensures kept { OnOk result ((c : SaidClass) → Contains classes.old.items c → Contains classes.new.items c) }
    ensures each { OnOk result ((c : SaidClass) → Contains classes.new.items c → Contains classes.old.items c ⊎ ((c.path ≡ path.now) × (c.one ≡ one) × (c.other ≡ other))) }
    ensures has { OnOk result ((c : SaidClass) × Contains classes.new.items c × (c.one ≡ one) × (c.other ≡ other)) }
{
    if is_met(classes.as_slice(), one, other) {
        return Ok(());
    }
    let path = Text::copy_of(alloc, path)?;
    classes.push(SaidClass { one, other, path })?;
    Ok(())
}

/// The classes of the paths of the regions.
fn classes_of(
    alloc: Global,
    one: &[Compiled],
    from: Label,
    other: &[Compiled],
    to: Label,
    regions: &[Region],
) -> Result<Vec<SaidClass>, AllocError>
    requires { (r : Region) → Contains regions.now r → IsAsked r.witness }
    ensures { IfOk result (λ cs. AreSaidClasses one.now from other.now to regions.now (length regions.now) cs.items) }
{
    let mut classes = Vec::new(alloc);
    for region in regions {
        let path = region.witness.as_slice();
        let said = said_at(one, from, path);
        let also = said_at(other, to, path);
        add_class(alloc, &mut classes, path, said, also)?;
    }
    Ok(classes)
}

pub(crate) fn paths_of(alloc: Global, classes: &[SaidClass]) -> Result<Vec<Text>, AllocError>
    ensures { IfOk result (λ paths. paths.items ≡ map (λ c. c.path) classes.now) }
{
    let mut paths = Vec::new(alloc);
    for class in classes {
        paths.push(class.path.try_clone()?)?;
    }
    Ok(paths)
}

/// A path of each class of those that the rules at both labels say the same of.
pub(crate) fn paths_to_link(
    alloc: Global,
    one: &[Compiled],
    from: Label,
    other: &[Compiled],
    to: Label,
    regions: &[Region],
) -> Result<Vec<Text>, AllocError>
    requires { ArePathRegions (deciding_both one.now from other.now to) regions.now }
    ensures { IfOk result (λ paths. AreLinkPathsOfBoth one.now from other.now to paths.items) }
{
    let classes = classes_of(alloc, one, from, other, to, regions)?;
    paths_of(alloc, classes.as_slice())
}
