//! Paths of which the rules at two labels say the same; of each such class one that one more pattern doesn't match, if there is one.

ghost use Rattle.std.specs.Prelude.{◌≡◌, ◌⊎◌, ◌++◌, ◌∷◌, [], true, IfOk, OnOk, Contains};
ghost use Rattle.aa_pattern.specs.Matching.{is_match};
ghost use Rattle.aa_regions.specs.declared.regions.Region.{Region};
ghost use Rattle.aa_regions.specs.Regions.{IsAsked, ArePathRegions};
ghost use Rattle.aa_representatives.specs.declared.said.SaidClass.{SaidClass};
ghost use Rattle.aa_representatives.specs.Both.{deciding_both, IsSaidClass, IsSaidAtBoth};
ghost use Rattle.aa_representatives.specs.Apart.{IsClassApart, HasClassApart, AreLinkPathsApart};

use crate::said::{SaidClass, add_class, paths_of, said_at};
use aa_base::Text;
use aa_compile::{Compiled, is_matched};
use aa_model::Label;
use aa_pattern::Pattern;
use aa_regions::Region;
use std::alloc::{AllocError, Global};

/// Adds the class of a path, where the pattern matches it or doesn't, as is wanted.
fn add_class_if(
    alloc: Global,
    classes: &mut Vec<SaidClass>,
    one: &[Compiled],
    from: Label,
    other: &[Compiled],
    to: Label,
    pattern: &Pattern,
    wanted: bool,
    path: &[u8],
) -> Result<(), AllocError>
    requires { IsAsked path.now }
    ensures kept { OnOk result ((c : SaidClass) → Contains classes.old.items c → Contains classes.new.items c) }
    ensures each { OnOk result ((c : SaidClass) → Contains classes.new.items c → Contains classes.old.items c ⊎ IsClassApart one.now from other.now to pattern.now wanted c) }
    ensures has { OnOk result (is_match pattern.now.items.items path.now ≡ wanted → (c : SaidClass) × Contains classes.new.items c × IsSaidAtBoth one.now from other.now to path.now c) }
{
    let is = is_matched(pattern, path);
    if is != wanted {
        return Ok(());
    }
    let said = said_at(one, from, path);
    let also = said_at(other, to, path);
    add_class(alloc, classes, path, said, also)
}

/// Adds those of the paths of the regions.
fn add_classes(
    alloc: Global,
    classes: &mut Vec<SaidClass>,
    one: &[Compiled],
    from: Label,
    other: &[Compiled],
    to: Label,
    pattern: &Pattern,
    wanted: bool,
    regions: &[Region],
) -> Result<(), AllocError>
    requires { (r : Region) → Contains regions.now r → IsAsked r.witness }
    ensures kept { OnOk result ((c : SaidClass) → Contains classes.old.items c → Contains classes.new.items c) }
    ensures each { OnOk result ((c : SaidClass) → Contains classes.new.items c → Contains classes.old.items c ⊎ IsClassApart one.now from other.now to pattern.now wanted c) }
    ensures has { OnOk result ((r : Region) → Contains regions.now r → is_match pattern.now.items.items r.witness ≡ wanted → (c : SaidClass) × Contains classes.new.items c × IsSaidAtBoth one.now from other.now to r.witness c) }
{
    for region in regions {
        let path = region.witness.as_slice();
        add_class_if(alloc, classes, one, from, other, to, pattern, wanted, path)?;
    }
    Ok(())
}

/// The classes of the paths of the regions.
fn classes_apart(
    alloc: Global,
    one: &[Compiled],
    from: Label,
    other: &[Compiled],
    to: Label,
    pattern: &Pattern,
    regions: &[Region],
) -> Result<Vec<SaidClass>, AllocError>
    requires { (r : Region) → Contains regions.now r → IsAsked r.witness }
    ensures each { IfOk result (λ cs. (c : SaidClass) → Contains cs.items c → IsSaidClass one.now from other.now to c) }
    ensures all { IfOk result (λ cs. (r : Region) → Contains regions.now r → HasClassApart one.now from other.now to pattern.now cs.items r.witness) }
{
    let mut classes = Vec::new(alloc);
    add_classes(
        alloc,
        &mut classes,
        one,
        from,
        other,
        to,
        pattern,
        false,
        regions,
    )?;
    add_classes(
        alloc,
        &mut classes,
        one,
        from,
        other,
        to,
        pattern,
        true,
        regions,
    )?;
    Ok(classes)
}

/// A path of each class of those that the rules at both labels say the same of.
pub(crate) fn paths_to_link_apart(
    alloc: Global,
    one: &[Compiled],
    from: Label,
    other: &[Compiled],
    to: Label,
    pattern: &Pattern,
    regions: &[Region],
) -> Result<Vec<Text>, AllocError>
    requires { ArePathRegions (deciding_both one.now from other.now to ++ pattern.now ∷ []) regions.now }
    ensures { IfOk result (λ paths. AreLinkPathsApart one.now from other.now to pattern.now paths.items) }
{
    let classes = classes_apart(alloc, one, from, other, to, pattern, regions)?;
    paths_of(alloc, classes.as_slice())
}
