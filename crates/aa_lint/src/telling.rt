//! Findings with their places and their rules.

ghost use Rattle.std.specs.Prelude.{◌≡◌, ◌++◌, map, flat_map, option_map, OnOk, IfOk};
ghost use Rattle.aa_files.specs.Texts.{texts};
ghost use Rattle.aa_lint.specs.Names.{is_wanted};
ghost use Rattle.aa_lint.specs.Telling.{standing, telling, spot_of, with_number, standing_at, earlier_at, earlier_by, same_spot, is_read_again, name_at, other_by, rule_of, told_at, told_of, told_wanted, unit_in, told_if, all_told};

use crate::finding_names::is_left_out;
use crate::told::{Site, Told};
use aa_base::{Spot, Text};
use aa_command::{Decided, PlacedUnit};
use aa_explain::ProfilePlaces;
use aa_files::text_at;
use aa_findings::{Finding, Kind, Subject};
use aa_model::Profile;
use aa_rule_text::rule_text;
use std::alloc::{AllocError, Global};

/// Where the subject of a finding stands.
fn spot_of(places: &ProfilePlaces<'_>, subject: Subject) -> Option<Spot>
    ensures { result ≡ spot_of places.now subject }
{
    match subject {
        Subject::Attachments => Some(places.at),
        Subject::File(rule) => places.files.get(rule).copied(),
        Subject::Cap(rule) => places.caps.get(rule).copied(),
        Subject::Net(rule) => places.nets.get(rule).copied(),
        Subject::Change(rule) => places.changes.get(rule).copied(),
    }
}

/// The same list's rule of another number.
fn with_number(subject: Subject, number: usize) -> Subject
    ensures { result ≡ with_number subject number }
{
    match subject {
        Subject::Attachments => Subject::Attachments,
        Subject::File(_) => Subject::File(number),
        Subject::Cap(_) => Subject::Cap(number),
        Subject::Net(_) => Subject::Net(number),
        Subject::Change(_) => Subject::Change(number),
    }
}

/// A place of a unit.
fn site_of(alloc: Global, unit: &PlacedUnit<'_>, at: Spot) -> Result<Site, AllocError>
    ensures { IfOk result (λ site. standing site ≡ standing_at unit.now at) }
{
    let (path, _) = text_at(unit.unit(), at.file);
    Ok(Site {
        path: Vec::from_slice(alloc, path)?,
        place: unit.place_at(at.file, at.byte as usize),
    })
}

/// Where the rule of that number stands.
fn earlier_at(
    alloc: Global,
    unit: &PlacedUnit<'_>,
    places: &ProfilePlaces<'_>,
    subject: Subject,
    number: usize,
) -> Result<Option<Site>, AllocError>
    ensures { IfOk result (λ site. option_map standing site ≡ earlier_at unit.now places.now subject number) }
{
    match spot_of(places, with_number(subject, number)) {
        Some(at) => Ok(Some(site_of(alloc, unit, at)?)),
        None => Ok(None),
    }
}

/// Where the rule stands that is said again.
fn earlier_of(
    alloc: Global,
    unit: &PlacedUnit<'_>,
    places: &ProfilePlaces<'_>,
    finding: &Finding,
) -> Result<Option<Site>, AllocError>
    ensures { IfOk result (λ site. option_map standing site ≡ earlier_by finding.now.kind unit.now places.now finding.now) }
{
    match finding.kind {
        Kind::Duplicate => {
            let number = finding.other.unwrap_or(0);
            earlier_at(alloc, unit, places, finding.subject, number)
        }
        _ => Ok(None),
    }
}

fn same_spot(one: Option<Spot>, other: Option<Spot>) -> bool
    ensures { result ≡ same_spot one other }
{
    match (one, other) {
        (Some(one), Some(other)) => one.file == other.file && one.byte == other.byte,
        _ => false,
    }
}

/// Whether a rule is said again where it stands itself: its file is read again.
fn is_read_again(places: &ProfilePlaces<'_>, finding: &Finding) -> bool
    ensures { result ≡ is_read_again finding.now.kind places.now finding.now }
{
    match finding.kind {
        Kind::Duplicate => {
            let number = finding.other.unwrap_or(0);
            let earlier = spot_of(places, with_number(finding.subject, number));
            same_spot(spot_of(places, finding.subject), earlier)
        }
        _ => false,
    }
}

/// The full name of a profile.
fn name_at(
    alloc: Global,
    profiles: &[Profile],
    number: usize,
) -> Result<Option<Vec<u8>>, AllocError>
    ensures { IfOk result (λ name. option_map (λ n. n.items) name ≡ name_at profiles.now number) }
{
    match profiles.get(number) {
        Some(profile) => Ok(Some(Vec::from_slice(alloc, profile.name.as_slice())?)),
        None => Ok(None),
    }
}

/// The profile that ties.
fn other_of(
    alloc: Global,
    profiles: &[Profile],
    finding: &Finding,
) -> Result<Option<Vec<u8>>, AllocError>
    ensures { IfOk result (λ name. option_map (λ n. n.items) name ≡ other_by finding.now.kind profiles.now finding.now) }
{
    match finding.kind {
        Kind::Tie => name_at(alloc, profiles, finding.other.unwrap_or(0)),
        _ => Ok(None),
    }
}

/// A path that shows it.
fn witness_of(alloc: Global, path: &Option<Text>) -> Result<Option<Vec<u8>>, AllocError>
    ensures { IfOk result (λ witness. option_map (λ w. w.items) witness ≡ path.now) }
{
    match path {
        Some(path) => Ok(Some(Vec::from_slice(alloc, path.as_slice())?)),
        None => Ok(None),
    }
}

/// The text of a rule; none of attachments.
fn rule_of(
    alloc: Global,
    text: &[u8],
    byte: usize,
    subject: Subject,
) -> Result<Option<Vec<u8>>, AllocError>
    ensures { IfOk result (λ rule. option_map (λ r. r.items) rule ≡ rule_of text.now byte subject) }
{
    match subject {
        Subject::Attachments => Ok(None),
        _ => Ok(Some(rule_text(alloc, text, byte)?)),
    }
}

/// A finding of the profile, at the place of its subject.
fn told_at(
    alloc: Global,
    profiles: &[Profile],
    profile: &Profile,
    unit: &PlacedUnit<'_>,
    places: &ProfilePlaces<'_>,
    finding: &Finding,
    at: Spot,
) -> Result<Told, AllocError>
    ensures { IfOk result (λ t. telling t ≡ told_at profiles.now profile.now unit.now places.now finding.now at) }
{
    let (_, text) = text_at(unit.unit(), at.file);
    Ok(Told {
        kind: finding.kind,
        at: site_of(alloc, unit, at)?,
        profile: Vec::from_slice(alloc, profile.name.as_slice())?,
        earlier: earlier_of(alloc, unit, places, finding)?,
        other: other_of(alloc, profiles, finding)?,
        witness: witness_of(alloc, &finding.path)?,
        rule: rule_of(alloc, text, at.byte as usize, finding.subject)?,
    })
}

/// Adds a finding, as it is told.
fn push_told(
    told: &mut Vec<Told>,
    alloc: Global,
    profiles: &[Profile],
    profile: &Profile,
    unit: &PlacedUnit<'_>,
    places: &ProfilePlaces<'_>,
    finding: &Finding,
) -> Result<(), AllocError>
    ensures { OnOk result (map telling told.new.items ≡ map telling told.old.items ++ told_of profiles.now profile.now unit.now places.now finding.now) }
{
    if let Some(at) = spot_of(places, finding.subject) {
        told.push(told_at(alloc, profiles, profile, unit, places, finding, at)?)?;
    }
    Ok(())
}

/// The unit of a profile, where each profile has the number of its unit.
fn unit_of<'p, 'u>(
    units: &'p [PlacedUnit<'u>],
    owners: &[usize],
    profile: usize,
) -> Option<&'p PlacedUnit<'u>>
    ensures { option_map (λ u. u.now) result ≡ unit_in units.now owners.now profile }
{
    match owners.get(profile) {
        Some(number) => units.get(*number),
        None => None,
    }
}

fn is_wanted(finding: &Finding, except: &[Vec<u8>]) -> bool
    ensures { result ≡ is_wanted (texts except.now) finding.now }
{
    !is_left_out(finding.kind, except)
}

/// Adds a finding, as it is told, where it isn't left out, nor of a rule that is said again where it stands itself.
fn push_wanted(
    told: &mut Vec<Told>,
    alloc: Global,
    except: &[Vec<u8>],
    profiles: &[Profile],
    profile: &Profile,
    unit: &PlacedUnit<'_>,
    places: &ProfilePlaces<'_>,
    finding: &Finding,
) -> Result<(), AllocError>
    ensures { OnOk result (map telling told.new.items ≡ map telling told.old.items ++ told_wanted (texts except.now) profiles.now profile.now unit.now places.now finding.now) }
{
    if is_wanted(finding, except) && !is_read_again(places, finding) {
        return push_told(told, alloc, profiles, profile, unit, places, finding);
    }
    Ok(())
}

fn push_each_told(
    told: &mut Vec<Told>,
    alloc: Global,
    except: &[Vec<u8>],
    profiles: &[Profile],
    profile: &Profile,
    unit: &PlacedUnit<'_>,
    places: &ProfilePlaces<'_>,
    findings: &[Finding],
) -> Result<(), AllocError>
    ensures { OnOk result (map telling told.new.items ≡ map telling told.old.items ++ flat_map (told_wanted (texts except.now) profiles.now profile.now unit.now places.now) findings.now) }
{
    for finding in findings {
        push_wanted(
            told, alloc, except, profiles, profile, unit, places, finding,
        )?;
    }
    Ok(())
}

/// Adds the findings, where it is known where the rules of the profile stand.
fn push_placed(
    told: &mut Vec<Told>,
    alloc: Global,
    except: &[Vec<u8>],
    profiles: &[Profile],
    profile: &Profile,
    unit: Option<&PlacedUnit<'_>>,
    places: Option<&ProfilePlaces<'_>>,
    findings: &[Finding],
) -> Result<(), AllocError>
    ensures { OnOk result (map telling told.new.items ≡ map telling told.old.items ++ told_if (texts except.now) profiles.now profile.now (option_map (λ u. u.now) unit.entry) (option_map (λ p. p.now) places.entry) findings.now) }
{
    match (unit, places) {
        (Some(unit), Some(places)) => push_each_told(
            told, alloc, except, profiles, profile, unit, places, findings,
        ),
        _ => Ok(()),
    }
}

/// Adds the findings of the profile with that number, as they are told, but for what is left out.
pub(crate) fn push_all_told(
    told: &mut Vec<Told>,
    alloc: Global,
    decided: Decided<'_>,
    except: &[Vec<u8>],
    profiles: &[Profile],
    number: usize,
    profile: &Profile,
    findings: &[Finding],
) -> Result<(), AllocError>
    ensures { OnOk result (map telling told.new.items ≡ map telling told.old.items ++ all_told decided.entry (texts except.now) profiles.now number profile.now findings.now) }
{
    let unit = unit_of(decided.units, decided.owners, number);
    let places = decided.places.get(number);
    push_placed(
        told, alloc, except, profiles, profile, unit, places, findings,
    )
}
