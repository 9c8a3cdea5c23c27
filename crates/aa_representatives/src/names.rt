//! Patterns that tell names apart.

ghost use Rattle.std.specs.Prelude.{◌≡◌, ◌++◌, ◌∷◌, [], IfOk, OnOk, map};
ghost use Rattle.std.specs.List.{slice_get};
ghost use Rattle.aa_model.specs.Lawful.{names_of};
ghost use Rattle.aa_auto.specs.Nodes.{pointed};
ghost use Rattle.aa_representatives.specs.Alike.{patterns_in, change_patterns, changing_at, changing};
ghost use Rattle.aa_representatives.specs.Names.{profiles_at, told_apart, literal_of, items_of, ArePatternsOf};

use aa_compile::Compiled;
use aa_model::{ChangeRule, Label, Profile};
use aa_pattern::{Item, Pattern};
use std::alloc::{AllocError, Global};

/// A pattern that matches this text alone.
fn literal(alloc: Global, text: &[u8]) -> Result<Pattern, AllocError>
    ensures { IfOk result (λ p. items_of p ≡ literal_of text.now) }
{
    let mut items = Vec::new(alloc);
    for byte in text {
        items.push(Item::Byte(*byte))?;
    }
    Ok(Pattern { items })
}

fn add_literal(alloc: Global, patterns: &mut Vec<Pattern>, text: &[u8]) -> Result<(), AllocError>
    ensures { OnOk result (map items_of patterns.new.items ≡ map items_of patterns.old.items ++ literal_of text.now ∷ []) }
{
    patterns.push(literal(alloc, text)?)?;
    Ok(())
}

/// Adds a pattern for the full name of each profile.
fn add_names(
    alloc: Global,
    patterns: &mut Vec<Pattern>,
    profiles: &[Profile],
) -> Result<(), AllocError>
    ensures { OnOk result (map items_of patterns.new.items ≡ map items_of patterns.old.items ++ map literal_of (names_of profiles.now)) }
{
    for profile in profiles {
        add_literal(alloc, patterns, profile.name.as_slice())?;
    }
    Ok(())
}

/// A pattern for each name that is told apart, among these profiles.
fn patterns_of_names(alloc: Global, profiles: &[Profile]) -> Result<Vec<Pattern>, AllocError>
    ensures { IfOk result (λ ps. ArePatternsOf (told_apart profiles.now) ps.items) }
{
    let mut patterns = Vec::new(alloc);
    add_literal(alloc, &mut patterns, &[])?;
    add_literal(alloc, &mut patterns, "unconfined".as_bytes())?;
    add_names(alloc, &mut patterns, profiles)?;
    Ok(patterns)
}

/// A pattern for each name that is told apart at a label.
pub(crate) fn name_patterns(
    alloc: Global,
    policies: &[Compiled],
    label: Label,
) -> Result<Vec<Pattern>, AllocError>
    ensures { IfOk result (λ ps. ArePatternsOf (told_apart (profiles_at policies.now label)) ps.items) }
{
    let policy = match label {
        Label::Unconfined(policy) => policy,
        Label::Confined(policy, _) => policy,
    };
    match policies.get(policy as usize) {
        Some(compiled) => patterns_of_names(alloc, compiled.policy().profiles.as_slice()),
        None => patterns_of_names(alloc, &[]),
    }
}

/// The patterns of the rules on changes.
fn patterns_of_changes(alloc: Global, rules: &[ChangeRule]) -> Result<Vec<&Pattern>, AllocError>
    ensures { IfOk result (λ pointers. pointed pointers.items ≡ change_patterns rules.now) }
{
    let mut pointers = Vec::new(alloc);
    for rule in rules {
        if let Some(pattern) = &rule.pattern {
            pointers.push(pattern)?;
        }
    }
    Ok(pointers)
}

/// The same of a profile, if it is there.
fn patterns_of_profile(
    alloc: Global,
    profiles: &[Profile],
    number: u16,
) -> Result<Vec<&Pattern>, AllocError>
    ensures { IfOk result (λ pointers. pointed pointers.items ≡ changing_at (slice_get profiles.now number)) }
{
    match profiles.get(number as usize) {
        Some(profile) => patterns_of_changes(alloc, profile.changes.as_slice()),
        None => Ok(Vec::new(alloc)),
    }
}

/// The patterns by which the names of changes are answered at a label.
pub(crate) fn changing_patterns(
    alloc: Global,
    policies: &[Compiled],
    label: Label,
) -> Result<Vec<&Pattern>, AllocError>
    ensures { IfOk result (λ pointers. pointed pointers.items ≡ changing policies.now label) }
{
    let Label::Confined(policy, number) = label else {
        return Ok(Vec::new(alloc));
    };
    match policies.get(policy as usize) {
        Some(compiled) => {
            patterns_of_profile(alloc, compiled.policy().profiles.as_slice(), number)
        }
        None => Ok(Vec::new(alloc)),
    }
}

/// The patterns by which the names of changes are answered at one of two labels, each in policies of its own.
pub(crate) fn changing_patterns_of_both<'p>(
    alloc: Global,
    one: &'p [Compiled],
    from: Label,
    other: &'p [Compiled],
    to: Label,
) -> Result<Vec<&'p Pattern>, AllocError>
    ensures { IfOk result (λ pointers. pointed pointers.items ≡ changing one.now from ++ changing other.now to) }
{
    let mut pointers = changing_patterns(alloc, one, from)?;
    let mut more = changing_patterns(alloc, other, to)?;
    pointers.append(&mut more)?;
    Ok(pointers)
}
