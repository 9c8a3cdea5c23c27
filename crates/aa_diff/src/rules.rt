//! The rules that account for a difference: all that one profile has and the other hasn't, that match its request and name some of what it asks
//! for.

ghost use Rattle.std.specs.Prelude.{◌≡◌, ◌++◌, codes, flat_map, map, option_map, OnOk, IfOk, if◌then◌else◌};
ghost use Rattle.std.specs.List.{slice_get};
ghost use Rattle.aa_ask.specs.Verdicts.{profile_at, number_in, spots_of};
ghost use Rattle.aa_changed_rules.specs.Changed.{changed_data};
ghost use Rattle.aa_diff.specs.Rules.{AreOwn, own_by, own_at, listed_of, own_on, rule_there, rule_of, rules_in, rule_cmp, stands_before, rules_by, accounting, told_rules, rule_line, rules_text};
ghost use Rattle.aa_diff.specs.Sorted.{sorted_by};

use crate::change::is_same;
use aa_ask::unit_of;
use aa_base::{Seq, Spot, Text};
use aa_changed_rules::{ChangedRules, changed_rules, rules_on};
use aa_command::{Decided, PlacedUnit};
use aa_compile::{Compiled, profile_of};
use aa_explain::{Listed, ProfilePlaces};
use aa_files::text_at;
use aa_model::{Label, Profile, Request};
use aa_rule_text::rule_text;
use aa_text::{PlaceAt, push_text, push_visible, push_where};
use std::alloc::{AllocError, Global};
use std::cmp::Ordering;

/// A rule that accounts for a difference.
#[derive(Drop)]
pub struct Rule {
    pub path: Text,
    pub place: PlaceAt,
    /// How it reads.
    pub text: Text,
}

/// The rules of the profiles at two labels that the other one hasn't.
#[derive(Drop)]
pub(crate) struct OwnRules {
    from: Label,
    to: Label,
    pub(crate) old: ChangedRules,
    pub(crate) new: ChangedRules,
}

/// The profile of a label, if it has one.
fn profile_at(policies: &[Compiled], label: Label) -> Option<&Profile>
    ensures { option_map (λ p. p.now) result ≡ profile_at policies.now label }
{
    match label {
        Label::Unconfined(_) => None,
        Label::Confined(policy, number) => profile_of(policies, policy, number),
    }
}

fn own_by(
    alloc: Global,
    one: Option<&Profile>,
    other: Option<&Profile>,
) -> Result<ChangedRules, AllocError>
    ensures { IfOk result (λ rules. changed_data rules ≡ own_by (option_map (λ p. p.now) one.entry) (option_map (λ p. p.now) other.entry)) }
{
    match (one, other) {
        (Some(one), Some(other)) => changed_rules(alloc, one, other),
        _ => Ok(ChangedRules {
            files: Vec::new(alloc),
            caps: Vec::new(alloc),
            nets: Vec::new(alloc),
            changes: Vec::new(alloc),
        }),
    }
}

/// The rules of the profile at a label that the one at another label hasn't.
fn own_at(
    alloc: Global,
    policies: &[Compiled],
    others: &[Compiled],
    label: Label,
    other: Label,
) -> Result<ChangedRules, AllocError>
    ensures { IfOk result (λ rules. changed_data rules ≡ own_at policies.now others.now label other) }
{
    own_by(
        alloc,
        profile_at(policies, label),
        profile_at(others, other),
    )
}

/// The rules of the profiles at two labels that the other one hasn't.
pub(crate) fn own_rules(
    alloc: Global,
    old: &[Compiled],
    new: &[Compiled],
    from: Label,
    to: Label,
) -> Result<OwnRules, AllocError>
    ensures { IfOk result (λ own. AreOwn old.now new.now from to own) }
{
    Ok(OwnRules {
        from,
        to,
        old: own_at(alloc, old, new, from, to)?,
        new: own_at(alloc, new, old, to, from)?,
    })
}

/// The same, where they are known of two labels: profiles are gone through again only where the labels are others.
pub(crate) fn own_beside(
    alloc: Global,
    old: &[Compiled],
    new: &[Compiled],
    known: OwnRules,
    from: Label,
    to: Label,
) -> Result<OwnRules, AllocError>
    requires { AreOwn old.now new.now known.from known.to known }
    ensures { IfOk result (λ own. AreOwn old.now new.now from to own) }
{
    if is_same(known.from, from) && is_same(known.to, to) {
        return Ok(known);
    }
    own_rules(alloc, old, new, from, to)
}

fn spots_in<'p>(places: &'p ProfilePlaces<'_>, listed: Listed) -> &'p [Spot]
    ensures { result.now ≡ spots_of listed places.now }
{
    match listed {
        Listed::Files => places.files.as_slice(),
        Listed::Caps => places.caps.as_slice(),
        Listed::Nets => places.nets.as_slice(),
        Listed::Changes => places.changes.as_slice(),
    }
}

/// The list of a profile's rules that a request is about.
fn listed_of(request: &Request) -> Listed
    ensures { result ≡ listed_of request.now }
{
    match request {
        Request::Cap(_) => Listed::Caps,
        Request::Net(_, _) => Listed::Nets,
        Request::Change(_) => Listed::Changes,
        _ => Listed::Files,
    }
}

/// Of a profile's own rules those that match a request and name some of what it asks for, if the label has a profile.
fn own_on(
    alloc: Global,
    policies: &[Compiled],
    own: &ChangedRules,
    label: Label,
    request: &Request,
) -> Result<Vec<usize>, AllocError>
    ensures { IfOk result (λ numbers. numbers.items ≡ own_on policies.now (changed_data own.now) label request.now) }
{
    let Label::Confined(policy, number) = label else {
        return Ok(Vec::new(alloc));
    };
    match policies.get(policy as usize) {
        Some(compiled) => rules_on(alloc, compiled, number, own, request),
        None => Ok(Vec::new(alloc)),
    }
}

/// The rule that stands there in a unit.
fn rule_there(alloc: Global, unit: &PlacedUnit<'_>, at: Spot) -> Result<Rule, AllocError>
    ensures { IfOk result (λ rule. rule ≡ rule_there unit.now at) }
{
    let (path, text) = text_at(unit.unit(), at.file);
    let byte = at.byte as usize;
    Ok(Rule {
        path: Text::copy_of(alloc, path)?,
        place: unit.place_at(at.file, byte),
        text: Text::from_vec(rule_text(alloc, text, byte)?),
    })
}

/// Where the rule of that number stands.
fn spot_of(spots: &[Spot], number: usize) -> Option<Spot>
    ensures { result ≡ slice_get spots.now number }
{
    spots.get(number).copied()
}

/// Adds the rule of that number, if it has a place.
fn push_rule(
    alloc: Global,
    unit: &PlacedUnit<'_>,
    spots: &[Spot],
    number: usize,
    rules: &mut Vec<Rule>,
) -> Result<(), AllocError>
    ensures { OnOk result (rules.new.items ≡ rules.old.items ++ rule_of unit.now spots.now number) }
{
    if let Some(at) = spot_of(spots, number) {
        rules.push(rule_there(alloc, unit, at)?)?;
    }
    Ok(())
}

/// The rules of these numbers.
fn rules_in(
    alloc: Global,
    unit: &PlacedUnit<'_>,
    spots: &[Spot],
    numbers: &[usize],
) -> Result<Vec<Rule>, AllocError>
    ensures { IfOk result (λ rules. rules.items ≡ rules_in unit.now spots.now numbers.now) }
{
    let mut rules = Vec::new(alloc);
    for number in numbers {
        push_rule(alloc, unit, spots, *number, &mut rules)?;
    }
    Ok(rules)
}

/// Rules go by their paths in byte order, then by line, then by column.
pub(crate) fn compare_rules(one: &Rule, other: &Rule) -> Ordering
    ensures { result ≡ rule_cmp one.now other.now }
{
    let by_path = one.path.as_slice().cmp(other.path.as_slice());
    let by_line = one.place.line.cmp(&other.place.line);
    let by_column = one.place.column.cmp(&other.place.column);
    by_path.then(by_line.then(by_column))
}

/// Rules by their places.
fn in_places(mut rules: Vec<Rule>) -> Result<Vec<Rule>, AllocError>
    ensures { IfOk result (λ placed. placed.items ≡ sorted_by stands_before rules.items) }
{
    rules.sort_by(|one, other| compare_rules(one, other))?;
    Ok(rules)
}

/// Those of a list with these numbers by their places, where it is known where they stand.
fn rules_by(
    alloc: Global,
    unit: Option<&PlacedUnit<'_>>,
    places: Option<&ProfilePlaces<'_>>,
    listed: Listed,
    numbers: &[usize],
) -> Result<Vec<Rule>, AllocError>
    ensures { IfOk result (λ rules. rules.items ≡ rules_by (option_map (λ u. u.now) unit.entry) (option_map (λ p. p.now) places.entry) listed numbers.now) }
{
    match (unit, places) {
        (Some(unit), Some(places)) => {
            let rules = rules_in(alloc, unit, spots_in(places, listed), numbers)?;
            in_places(rules)
        }
        _ => Ok(Vec::new(alloc)),
    }
}

/// The number of a label's profile.
fn number_of(label: Label) -> usize
    ensures { result ≡ number_in label }
{
    match label {
        Label::Unconfined(_) => 0,
        Label::Confined(_, number) => number as usize,
    }
}

/// All of a profile's own rules that match a request and name some of what it asks for, whatever they say of it.
fn accounting(
    alloc: Global,
    decided: Decided<'_>,
    own: &ChangedRules,
    label: Label,
    request: &Request,
) -> Result<Vec<Rule>, AllocError>
    ensures { IfOk result (λ rules. rules.items ≡ accounting decided.entry (changed_data own.now) label request.now) }
{
    let numbers = own_on(alloc, decided.policies, own, label, request)?;
    let number = number_of(label);
    let unit = unit_of(decided.units, decided.owners, number);
    let places = decided.places.get(number);
    rules_by(alloc, unit, places, listed_of(request), numbers.as_slice())
}

/// Those that are told.
pub(crate) fn told_rules(
    alloc: Global,
    is_minor: bool,
    decided: Decided<'_>,
    own: &ChangedRules,
    label: Label,
    request: &Request,
) -> Result<Seq<Rule>, AllocError>
    ensures { IfOk result (λ rules. rules ≡ told_rules is_minor decided.entry (changed_data own.now) label request.now) }
{
    if is_minor {
        return Ok(Seq::from_vec(Vec::new(alloc)));
    }
    Ok(Seq::from_vec(accounting(alloc, decided, own, label, request)?))
}

/// Appends where a rule stands, and how it reads.
#[tactic(auto, unfolding(crate::specs::Rules::rule_line))]
fn push_line(out: &mut Vec<u8>, mark: &str, rule: &Rule) -> Result<(), AllocError>
    ensures { OnOk result (out.new.items ≡ out.old.items ++ rule_line mark.now rule.now) }
{
    push_text(out, "      ")?;
    push_text(out, mark)?;
    push_where(out, rule.path.as_slice(), rule.place)?;
    push_text(out, ": ")?;
    push_visible(out, rule.text.as_slice())?;
    push_text(out, "\n")
}

fn push_lines(out: &mut Vec<u8>, mark: &str, rules: &[Rule]) -> Result<(), AllocError>
    ensures { OnOk result (out.new.items ≡ out.old.items ++ flat_map (rule_line mark.now) rules.now) }
{
    for rule in rules {
        push_line(out, mark, rule)?;
    }
    Ok(())
}

/// The lines of the rules of both sides.
pub(crate) fn rules_text(alloc: Global, old: &[Rule], new: &[Rule]) -> Result<Text, AllocError>
    ensures { IfOk result (λ text. text ≡ rules_text old.now new.now) }
{
    let mut out = Vec::new(alloc);
    push_lines(&mut out, "- ", old)?;
    push_lines(&mut out, "+ ", new)?;
    Ok(Text::from_vec(out))
}

fn copy_rule(rule: &Rule) -> Result<Rule, AllocError>
    ensures { IfOk result (λ copy. copy ≡ rule.now) }
{
    Ok(Rule {
        path: rule.path.try_clone()?,
        place: rule.place,
        text: rule.text.try_clone()?,
    })
}

/// The same rules again.
pub(crate) fn copies_of(alloc: Global, rules: &[Rule]) -> Result<Seq<Rule>, AllocError>
    ensures { IfOk result (λ copies. copies ≡ rules.now) }
{
    let mut copies = Vec::new(alloc);
    for rule in rules {
        copies.push(copy_rule(rule)?)?;
    }
    Ok(Seq::from_vec(copies))
}
