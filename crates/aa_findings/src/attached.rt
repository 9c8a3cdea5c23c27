//! Paths at which profiles are attached as strongly as others.

ghost use Rattle.std.specs.Prelude.{◌≡◌, ◌≤◌, ◌<◌, ◌++◌, ◌∷◌, [], length, map, flat_map, not, ◌==◌, if◌then◌else◌, IfOk, OnOk};
ghost use Rattle.std.specs.List.{list_any, slice_get};
ghost use Rattle.aa_auto.specs.Nodes.{pointed};
ghost use Rattle.aa_compile.specs.Attached.{attachment_by, attachments_at, is_strong, longest, strongest};
ghost use Rattle.aa_compile.specs.Gathered.{picked};
ghost use Rattle.aa_findings.specs.Attached.{patterns_at, kept_at, numbers_of, are_several, sharing, shared_in, shared_if};

use aa_base::Text;
use aa_compile::Attachment;
use aa_model::Profile;
use aa_pattern::Pattern;
use aa_regions::Region;
use std::alloc::{AllocError, Global};

/// Adds attachments of the profile with that number.
fn push_attachments<'p>(
    pointers: &mut Vec<&'p Pattern>,
    kept: &mut Vec<Attachment>,
    number: u16,
    patterns: &'p [Pattern],
) -> Result<(), AllocError>
    ensures patterns { OnOk result (pointed pointers.new.items ≡ pointed pointers.old.items ++ patterns.now) }
    ensures kept { OnOk result (kept.new.items ≡ kept.old.items ++ map (attachment_by number) patterns.now) }
{
    for pattern in patterns {
        pointers.push(pattern)?;
        kept.push(Attachment {
            profile: number,
            literal: pattern.is_literal(),
            front: pattern.literal_front(),
        })?;
    }
    Ok(())
}

fn attachments_at(profiles: &[Profile], number: usize) -> &[Pattern]
    ensures { result.now ≡ attachments_at profiles.now number }
{
    match profiles.get(number) {
        Some(profile) => profile.attachments.as_slice(),
        None => &[],
    }
}

/// Adds those of the profile with that number, if there is one.
fn push_of<'p>(
    pointers: &mut Vec<&'p Pattern>,
    kept: &mut Vec<Attachment>,
    profiles: &'p [Profile],
    number: usize,
) -> Result<(), AllocError>
    requires { length profiles.now ≤ 4096 }
    ensures patterns { OnOk result (pointed pointers.new.items ≡ pointed pointers.old.items ++ attachments_at profiles.now number) }
    ensures kept { OnOk result (kept.new.items ≡ kept.old.items ++ map (attachment_by number) (attachments_at profiles.now number)) }
{
    if number >= profiles.len() {
        return Ok(());
    }
    let patterns = attachments_at(profiles, number);
    push_attachments(pointers, kept, number as u16, patterns)
}

/// The attachments of the profiles with these numbers: their patterns, and what is kept of each.
pub(crate) fn attachments_of<'p>(
    alloc: Global,
    profiles: &'p [Profile],
    group: &[usize],
) -> Result<(Vec<&'p Pattern>, Vec<Attachment>), AllocError>
    requires { length profiles.now ≤ 4096 }
    ensures patterns { IfOk result (λ r. pointed r.0.items ≡ patterns_at profiles.now group.now) }
    ensures kept { IfOk result (λ r. r.1.items ≡ kept_at profiles.now group.now) }
{
    let mut pointers = Vec::new(alloc);
    let mut kept = Vec::new(alloc);
    for number in group {
        push_of(&mut pointers, &mut kept, profiles, *number)?;
    }
    Ok((pointers, kept))
}

/// A path, and the profiles whose attachments match it, none more strongly.
#[derive(Drop)]
pub(crate) struct Shared {
    pub(crate) path: Text,
    pub(crate) profiles: Vec<usize>,
}

fn kept_at(kept: &[Attachment], number: u16) -> Option<Attachment>
    ensures { result ≡ slice_get kept.now number }
{
    kept.get(number as usize).copied()
}

/// The attachments with these numbers.
fn picked(
    alloc: Global,
    kept: &[Attachment],
    numbers: &[u16],
) -> Result<Vec<Attachment>, AllocError>
    ensures { IfOk result (λ found. found.items ≡ picked kept.now numbers.now) }
{
    numbers
        .iter()
        .filter_map(|number| kept_at(kept, *number))
        .collect(alloc)
}

fn has_literal(matches: &[Attachment]) -> bool
    ensures { result ≡ list_any (λ a. a.literal) matches.now }
{
    matches.iter().any(|attachment| attachment.literal)
}

fn longest_front(matches: &[Attachment]) -> usize
    ensures { result ≡ longest matches.now }
{
    let mut front: usize = 0;
    let mut rest = matches;
    while let [first, after @ ..] = rest {
        front = front.max(first.front);
        rest = after;
    }
    front
}

fn is_strong(attachment: &Attachment, literal: bool, front: usize) -> bool
    ensures { result ≡ is_strong literal front attachment.now }
{
    if literal {
        attachment.literal
    } else {
        attachment.front == front
    }
}

fn push_strong(
    strong: &mut Vec<Attachment>,
    attachment: Attachment,
    literal: bool,
    front: usize,
) -> Result<(), AllocError>
    ensures { OnOk result (strong.new.items ≡ strong.old.items ++ (if is_strong literal front attachment then attachment ∷ [] else [])) }
{
    if is_strong(&attachment, literal, front) {
        strong.push(attachment)?;
    }
    Ok(())
}

/// Those that are literal, or else those with the longest literal front.
fn strongest(alloc: Global, matches: &[Attachment]) -> Result<Vec<Attachment>, AllocError>
    ensures { IfOk result (λ strong. strong.items ≡ strongest matches.now) }
{
    let literal = has_literal(matches);
    let front = longest_front(matches);
    let mut strong = Vec::new(alloc);
    for attachment in matches {
        push_strong(&mut strong, *attachment, literal, front)?;
    }
    Ok(strong)
}

fn numbers_of(alloc: Global, attachments: &[Attachment]) -> Result<Vec<usize>, AllocError>
    ensures { IfOk result (λ numbers. numbers.items ≡ numbers_of attachments.now) }
{
    let mut numbers = Vec::new(alloc);
    for attachment in attachments {
        numbers.push(attachment.profile as usize)?;
    }
    Ok(numbers)
}

/// The profiles that are attached to the path of a region, none more strongly.
fn shared_in(alloc: Global, kept: &[Attachment], region: &Region) -> Result<Shared, AllocError>
    ensures { IfOk result (λ s. sharing s ≡ shared_in kept.now region.now) }
{
    let matches = picked(alloc, kept, region.numbers.as_slice())?;
    let strong = strongest(alloc, matches.as_slice())?;
    Ok(Shared {
        path: region.witness.try_clone()?,
        profiles: numbers_of(alloc, strong.as_slice())?,
    })
}

fn is_another(numbers: &[usize], number: usize) -> bool
    ensures { result ≡ list_any (λ k. not (k == number)) numbers.now }
{
    numbers.iter().any(|other| *other != number)
}

fn are_several(numbers: &[usize]) -> bool
    ensures { result ≡ are_several numbers.now }
{
    match numbers {
        [first, rest @ ..] => is_another(rest, *first),
        [] => false,
    }
}

fn push_shared(list: &mut Vec<Shared>, shared: Shared) -> Result<(), AllocError>
    ensures { OnOk result (map sharing list.new.items ≡ map sharing list.old.items ++ shared_if (sharing shared)) }
{
    if are_several(shared.profiles.as_slice()) {
        list.push(shared)?;
    }
    Ok(())
}

/// Those at the paths of regions at which several profiles are.
pub(crate) fn shared_of(
    alloc: Global,
    kept: &[Attachment],
    regions: &[Region],
) -> Result<Vec<Shared>, AllocError>
    ensures { IfOk result (λ list. map sharing list.items ≡ flat_map (λ r. shared_if (shared_in kept.now r)) regions.now) }
{
    let mut list = Vec::new(alloc);
    for region in regions {
        push_shared(&mut list, shared_in(alloc, kept, region)?)?;
    }
    Ok(list)
}
