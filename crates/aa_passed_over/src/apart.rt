//! The rules that are passed over, and the flags without effect, that one of two policies alone has.

ghost use Rattle.std.specs.Prelude.{◌≡◌, ◌++◌, ◌∷◌, List, ℕ, map, flat_map, OnOk, IfOk};
ghost use Rattle.aa_passed_over.specs.Listed.{Listed, listed};
ghost use Rattle.aa_passed_over.specs.Apart.{text_of, is_among, new_among, alone, apart, aside, number_named, apart_in, apart_by, apart_of, all_apart, is_seen, AreSeen, ApartRule, GoesOn};

use crate::listed::{ListedRule, listed_of};
use aa_command::Decided;
use aa_compile::{Compiled, first_profiles};
use aa_model::Profile;
use std::alloc::{AllocError, Global};
use std::collections::BTreeMap;

/// Which of two policies has a rule that the other hasn't.
#[derive(Clone, Copy, Debug, PartialEq, Eq)]
pub enum Side {
    Old,
    New,
}

/// A rule that is passed over, or a flag without effect, that one of two policies alone has.
#[derive(Drop)]
pub struct Apart {
    /// The number of its profile in the old policy.
    pub profile: u16,
    pub side: Side,
    pub rule: ListedRule,
}

/// Keeps a text.
fn keep(alloc: Global, seen: &mut BTreeMap<Vec<u8>, ()>, text: &[u8]) -> Result<(), AllocError>
    ensures { OnOk result ((texts : List (List ℕ)) → AreSeen seen.old.entries texts → AreSeen seen.new.entries (text.now ∷ texts)) }
{
    let key = Vec::from_slice(alloc, text)?;
    seen.insert(key, ())?;
    Ok(())
}

/// The texts of rules. They are looked up in their own order, so that it takes no longer with texts that their author chose.
fn texts_of(alloc: Global, rules: &[ListedRule]) -> Result<BTreeMap<Vec<u8>, ()>, AllocError>
    ensures { IfOk result (λ seen. AreSeen seen.entries (map text_of (map listed rules.now))) }
{
    let mut seen = BTreeMap::new(alloc);
    let mut rest = rules;
    while let [rule, after @ ..] = rest {
        keep(alloc, &mut seen, rule.text.as_slice())?;
        rest = after;
    }
    Ok(seen)
}

fn copy_rule(alloc: Global, rule: &ListedRule) -> Result<ListedRule, AllocError>
    ensures { IfOk result (λ copy. listed copy ≡ listed rule.now) }
{
    Ok(ListedRule {
        path: Vec::from_slice(alloc, rule.path.as_slice())?,
        place: rule.place,
        text: Vec::from_slice(alloc, rule.text.as_slice())?,
    })
}

/// The same once more.
pub fn copy_of(alloc: Global, rule: &Apart) -> Result<Apart, AllocError>
    ensures { IfOk result (λ copy. apart copy ≡ apart rule.now) }
{
    Ok(Apart {
        profile: rule.profile,
        side: rule.side,
        rule: copy_rule(alloc, &rule.rule)?,
    })
}

fn is_seen(seen: &BTreeMap<Vec<u8>, ()>, text: &[u8]) -> bool
    ensures { result ≡ is_seen seen.now.entries text.now }
{
    seen.get(text).is_some()
}

/// Adds a rule of a profile on one side, unless its text is kept, and keeps its text.
fn push_new(
    alloc: Global,
    profile: u16,
    side: Side,
    rule: &ListedRule,
    seen: &mut BTreeMap<Vec<u8>, ()>,
    found: &mut Vec<Apart>,
) -> Result<(), AllocError>
    ensures { OnOk result ((rest : List Listed) (whole : List ApartRule) → GoesOn profile side seen.old.entries (map apart found.old.items) (listed rule.now ∷ rest) whole → GoesOn profile side seen.new.entries (map apart found.new.items) rest whole) }
{
    if is_seen(seen, rule.text.as_slice()) {
        return Ok(());
    }
    keep(alloc, seen, rule.text.as_slice())?;
    found.push(Apart {
        profile,
        side,
        rule: copy_rule(alloc, rule)?,
    })?;
    Ok(())
}

/// Adds those of a profile's rules on one side that none of the others reads as, each text once.
fn push_alone(
    alloc: Global,
    profile: u16,
    side: Side,
    rules: &[ListedRule],
    others: &[ListedRule],
    found: &mut Vec<Apart>,
) -> Result<(), AllocError>
    ensures { OnOk result (map apart found.new.items ≡ map apart found.old.items ++ map (aside profile side) (alone (map listed rules.now) (map listed others.now))) }
{
    let mut seen = texts_of(alloc, others)?;
    let mut rest = rules;
    while let [rule, after @ ..] = rest {
        push_new(alloc, profile, side, rule, &mut seen, found)?;
        rest = after;
    }
    Ok(())
}

/// The number of the profile of that name in the first policy.
pub fn number_named(policies: &[Compiled], name: &[u8]) -> Option<u16>
    ensures { result ≡ number_named policies.now name.now }
{
    match policies.get(0) {
        Some(compiled) => compiled.find(name),
        None => None,
    }
}

/// Adds the rules of two profiles that one of them alone has. The first has that number in the old policy.
fn push_apart_in(
    alloc: Global,
    profile: u16,
    before: &[ListedRule],
    after: &[ListedRule],
    found: &mut Vec<Apart>,
) -> Result<(), AllocError>
    ensures { OnOk result (map apart found.new.items ≡ map apart found.old.items ++ apart_in profile (map listed before.now) (map listed after.now)) }
{
    push_alone(alloc, profile, Side::Old, before, after, found)?;
    push_alone(alloc, profile, Side::New, after, before, found)
}

fn push_apart_by(
    alloc: Global,
    old: Decided<'_>,
    new: Decided<'_>,
    from: Option<u16>,
    to: Option<u16>,
    found: &mut Vec<Apart>,
) -> Result<(), AllocError>
    ensures { OnOk result (map apart found.new.items ≡ map apart found.old.items ++ apart_by old.entry new.entry from to) }
{
    let (Some(from), Some(to)) = (from, to) else {
        return Ok(());
    };
    let before = listed_of(alloc, old, from as usize)?;
    let after = listed_of(alloc, new, to as usize)?;
    push_apart_in(alloc, from, before.as_slice(), after.as_slice(), found)
}

/// Adds the rules that one policy alone has of the profiles that are called as this one.
fn push_apart_of(
    alloc: Global,
    old: Decided<'_>,
    new: Decided<'_>,
    profile: &Profile,
    found: &mut Vec<Apart>,
) -> Result<(), AllocError>
    ensures { OnOk result (map apart found.new.items ≡ map apart found.old.items ++ apart_of old.entry new.entry profile.now) }
{
    let name = profile.name.as_slice();
    let from = number_named(old.policies, name);
    let to = number_named(new.policies, name);
    push_apart_by(alloc, old, new, from, to, found)
}

/// The flags without effect and the rules that are passed over that one policy alone has, of all profiles that both have: profile by profile,
/// those of the old policy before those of the new one, each in the order in which it is read.
pub fn rules_apart(
    alloc: Global,
    old: Decided<'_>,
    new: Decided<'_>,
) -> Result<Vec<Apart>, AllocError>
    ensures { IfOk result (λ found. map apart found.items ≡ all_apart old.entry new.entry) }
{
    let mut found = Vec::new(alloc);
    for profile in first_profiles(old.policies) {
        push_apart_of(alloc, old, new, profile, &mut found)?;
    }
    Ok(found)
}
