//! The rules that decided a request, as they are shown.

ghost use Rattle.std.specs.Prelude.{◌≡◌, ◌++◌, map, flat_map, option_map, option_to_list, slice_get, OnOk, IfOk};
ghost use Rattle.aa_explain.specs.Deciders.{reasons};
ghost use Rattle.aa_ask.specs.Verdicts.{number_in, spots_of};
ghost use Rattle.aa_ask.specs.Named.{named, lacked, letters_for, named_at, named_by, names_in, names_of, names_at, lacks_in, lacks_of, unit_in, why_here, why_target, named_for, lacked_for};

use aa_base::{Perms, Spot, push_letters};
use aa_command::{Decided, PlacedUnit};
use aa_compile::Compiled;
use aa_explain::{Decider, Deciders, Listed, ProfilePlaces, deciders_of, target_deciders};
use aa_files::text_at;
use aa_model::{Label, Request};
use aa_rule_text::rule_text;
use aa_text::PlaceAt;
use bitflags::Flags;
use std::alloc::{AllocError, Global};

/// A rule that decided.
#[derive(Drop)]
pub struct DeciderLine {
    /// Whether it decided of a link's target.
    pub is_target: bool,
    pub denies: bool,
    pub path: Vec<u8>,
    pub place: PlaceAt,
    /// The letters of the permissions that it decided; none where the request isn't for a file.
    pub letters: Vec<u8>,
    /// How it reads.
    pub text: Vec<u8>,
}

/// What no rule allows.
#[derive(Drop)]
pub struct Lack {
    pub is_target: bool,
    pub letters: Vec<u8>,
}

/// The rules that decided, and what no rule allows.
#[derive(Drop)]
pub(crate) struct Explained {
    pub deciders: Vec<DeciderLine>,
    pub lacking: Vec<Lack>,
}

/// Why a request is answered so, at its object and at a link's target.
#[derive(Drop)]
struct Why {
    here: Option<Deciders>,
    target: Option<Deciders>,
}

/// How a rule decided: by which list, whether of a link's target, and whether it denied.
#[derive(Clone, Copy, Debug)]
struct How {
    listed: Listed,
    is_target: bool,
    denies: bool,
}

/// The letters of permissions, where a file is asked for.
fn letters_of(alloc: Global, listed: Listed, perms: Perms) -> Result<Vec<u8>, AllocError>
    ensures { IfOk result (λ text. text.items ≡ letters_for listed perms.0) }
{
    if listed != Listed::Files {
        return Ok(Vec::new(alloc));
    }
    let mut text = Vec::new(alloc);
    push_letters(&mut text, perms)?;
    Ok(text)
}

/// Where the rule of that number in that list stands.
fn spot_in(places: &ProfilePlaces<'_>, listed: Listed, rule: usize) -> Option<Spot>
    ensures { result ≡ slice_get (spots_of listed places.now) rule }
{
    let spots = match listed {
        Listed::Files => &places.files,
        Listed::Caps => &places.caps,
        Listed::Nets => &places.nets,
        Listed::Changes => &places.changes,
    };
    spots.get(rule).copied()
}

/// A rule that stands there, with what it decided.
fn line_of(
    alloc: Global,
    unit: &PlacedUnit<'_>,
    how: How,
    perms: Perms,
    at: Spot,
) -> Result<DeciderLine, AllocError>
    ensures { IfOk result (λ line. named line ≡ named_at unit.now how.listed how.is_target how.denies perms.0 at) }
{
    let (path, text) = text_at(unit.unit(), at.file);
    let byte = at.byte as usize;
    Ok(DeciderLine {
        is_target: how.is_target,
        denies: how.denies,
        path: Vec::from_slice(alloc, path)?,
        place: unit.place_at(at.file, byte),
        letters: letters_of(alloc, how.listed, perms)?,
        text: rule_text(alloc, text, byte)?,
    })
}

fn push_decider(
    alloc: Global,
    unit: &PlacedUnit<'_>,
    places: &ProfilePlaces<'_>,
    how: How,
    decider: &Decider,
    lines: &mut Vec<DeciderLine>,
) -> Result<(), AllocError>
    ensures { OnOk result (map named lines.new.items ≡ map named lines.old.items ++ named_by unit.now places.now how.listed how.is_target how.denies decider.now) }
{
    if let Some(at) = spot_in(places, how.listed, decider.rule) {
        lines.push(line_of(alloc, unit, how, decider.perms, at)?)?;
    }
    Ok(())
}

fn push_each(
    alloc: Global,
    unit: &PlacedUnit<'_>,
    places: &ProfilePlaces<'_>,
    how: How,
    deciders: &[Decider],
    lines: &mut Vec<DeciderLine>,
) -> Result<(), AllocError>
    ensures { OnOk result (map named lines.new.items ≡ map named lines.old.items ++ flat_map (named_by unit.now places.now how.listed how.is_target how.denies) deciders.now) }
{
    for decider in deciders {
        push_decider(alloc, unit, places, how, decider, lines)?;
    }
    Ok(())
}

/// Adds the rules that deny, and then those that allow.
fn push_names(
    alloc: Global,
    unit: &PlacedUnit<'_>,
    places: &ProfilePlaces<'_>,
    is_target: bool,
    deciders: &Deciders,
    lines: &mut Vec<DeciderLine>,
) -> Result<(), AllocError>
    ensures { OnOk result (map named lines.new.items ≡ map named lines.old.items ++ names_in unit.now places.now is_target (reasons deciders.now)) }
{
    let denying = How {
        listed: deciders.listed,
        is_target,
        denies: true,
    };
    let allowing = How {
        listed: deciders.listed,
        is_target,
        denies: false,
    };
    push_each(
        alloc,
        unit,
        places,
        denying,
        deciders.denies.as_slice(),
        lines,
    )?;
    push_each(
        alloc,
        unit,
        places,
        allowing,
        deciders.allows.as_slice(),
        lines,
    )
}

fn push_any_names(
    alloc: Global,
    unit: &PlacedUnit<'_>,
    places: &ProfilePlaces<'_>,
    is_target: bool,
    deciders: &Option<Deciders>,
    lines: &mut Vec<DeciderLine>,
) -> Result<(), AllocError>
    ensures { OnOk result (map named lines.new.items ≡ map named lines.old.items ++ flat_map (names_in unit.now places.now is_target) (option_to_list (option_map reasons deciders.now))) }
{
    match deciders {
        Some(deciders) => push_names(alloc, unit, places, is_target, deciders, lines),
        None => Ok(()),
    }
}

/// The rules that decided, at the request's object and then at a link's target.
fn names_of(
    alloc: Global,
    unit: &PlacedUnit<'_>,
    places: &ProfilePlaces<'_>,
    why: &Why,
) -> Result<Vec<DeciderLine>, AllocError>
    ensures { IfOk result (λ lines. map named lines.items ≡ names_of unit.now places.now (option_map reasons why.now.here) (option_map reasons why.now.target)) }
{
    let mut lines = Vec::new(alloc);
    push_any_names(alloc, unit, places, false, &why.here, &mut lines)?;
    push_any_names(alloc, unit, places, true, &why.target, &mut lines)?;
    Ok(lines)
}

fn push_lack(
    alloc: Global,
    is_target: bool,
    deciders: &Deciders,
    lacking: &mut Vec<Lack>,
) -> Result<(), AllocError>
    ensures { OnOk result (map lacked lacking.new.items ≡ map lacked lacking.old.items ++ lacks_in is_target (reasons deciders.now)) }
{
    if !deciders.lacking.is_empty() {
        lacking.push(Lack {
            is_target,
            letters: letters_of(alloc, deciders.listed, deciders.lacking)?,
        })?;
    }
    Ok(())
}

fn push_any_lack(
    alloc: Global,
    is_target: bool,
    deciders: &Option<Deciders>,
    lacking: &mut Vec<Lack>,
) -> Result<(), AllocError>
    ensures { OnOk result (map lacked lacking.new.items ≡ map lacked lacking.old.items ++ flat_map (lacks_in is_target) (option_to_list (option_map reasons deciders.now))) }
{
    match deciders {
        Some(deciders) => push_lack(alloc, is_target, deciders, lacking),
        None => Ok(()),
    }
}

/// What no rule allows, at the request's object and at a link's target.
fn lacks_of(alloc: Global, why: &Why) -> Result<Vec<Lack>, AllocError>
    ensures { IfOk result (λ lacking. map lacked lacking.items ≡ lacks_of (option_map reasons why.now.here) (option_map reasons why.now.target)) }
{
    let mut lacking = Vec::new(alloc);
    push_any_lack(alloc, false, &why.here, &mut lacking)?;
    push_any_lack(alloc, true, &why.target, &mut lacking)?;
    Ok(lacking)
}

/// The unit of a profile, where each profile has the number of its unit.
pub fn unit_of<'p, 'u>(
    units: &'p [PlacedUnit<'u>],
    owners: &[usize],
    profile: usize,
) -> Option<&'p PlacedUnit<'u>>
    ensures { option_map (λ u. u.now) result ≡ unit_in units.now owners.now profile }
{
    match owners.get(profile) {
        Some(number) => units.get(*number),
        None => None,
    }
}

/// The number of a label's profile.
fn number_of(label: Label) -> usize
    ensures { result ≡ number_in label }
{
    match label {
        Label::Unconfined(_) => 0,
        Label::Confined(_, number) => number as usize,
    }
}

/// Why a request of a task with that label is answered so at its object, if the label has a profile.
fn why_here(
    alloc: Global,
    policies: &[Compiled],
    label: Label,
    request: &Request,
) -> Result<Option<Deciders>, AllocError>
    ensures { IfOk result (λ here. option_map reasons here ≡ why_here policies.now label request.now) }
{
    let Label::Confined(policy, number) = label else {
        return Ok(None);
    };
    match policies.get(policy as usize) {
        Some(compiled) => deciders_of(alloc, compiled, number, request),
        None => Ok(None),
    }
}

/// The same at a link's target.
fn why_target(
    alloc: Global,
    policies: &[Compiled],
    label: Label,
    request: &Request,
) -> Result<Option<Deciders>, AllocError>
    ensures { IfOk result (λ target. option_map reasons target ≡ why_target policies.now label request.now) }
{
    let Label::Confined(policy, number) = label else {
        return Ok(None);
    };
    match policies.get(policy as usize) {
        Some(compiled) => target_deciders(alloc, compiled, number, request),
        None => Ok(None),
    }
}

/// Why a request of a task with that label is answered so.
fn reasons_for(
    alloc: Global,
    policies: &[Compiled],
    label: Label,
    request: &Request,
) -> Result<Why, AllocError>
    ensures here { IfOk result (λ why. option_map reasons why.here ≡ why_here policies.now label request.now) }
    ensures target { IfOk result (λ why. option_map reasons why.target ≡ why_target policies.now label request.now) }
{
    Ok(Why {
        here: why_here(alloc, policies, label, request)?,
        target: why_target(alloc, policies, label, request)?,
    })
}

/// The rules that decided, where it is known where those of the profile stand.
fn names_at(
    alloc: Global,
    unit: Option<&PlacedUnit<'_>>,
    places: Option<&ProfilePlaces<'_>>,
    why: &Why,
) -> Result<Vec<DeciderLine>, AllocError>
    ensures { IfOk result (λ lines. map named lines.items ≡ names_at (option_map (λ u. u.now) unit.entry) (option_map (λ p. p.now) places.entry) (option_map reasons why.now.here) (option_map reasons why.now.target)) }
{
    match (unit, places) {
        (Some(unit), Some(places)) => names_of(alloc, unit, places, why),
        _ => Ok(Vec::new(alloc)),
    }
}

/// The rules that decide a request of a task with that label, and what no rule allows.
pub(crate) fn explain(
    alloc: Global,
    decided: Decided<'_>,
    label: Label,
    request: &Request,
) -> Result<Explained, AllocError>
    ensures names { IfOk result (λ e. map named e.deciders.items ≡ named_for decided.entry label request.now) }
    ensures lacks { IfOk result (λ e. map lacked e.lacking.items ≡ lacked_for decided.entry label request.now) }
{
    let why = reasons_for(alloc, decided.policies, label, request)?;
    let number = number_of(label);
    let unit = unit_of(decided.units, decided.owners, number);
    Ok(Explained {
        deciders: names_at(alloc, unit, decided.places.get(number), &why)?,
        lacking: lacks_of(alloc, &why)?,
    })
}
