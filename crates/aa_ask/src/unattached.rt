//! Why no profile is attached to a program.

ghost use Rattle.std.specs.Prelude.{◌≡◌, ◌++◌, flat_map, if◌then◌else◌, OnOk, IfOk};
ghost use Rattle.std.specs.List.{list_any};
ghost use Rattle.aa_model.specs.Lawful.{has_parent};
ghost use Rattle.aa_compile.specs.Attached.{attachment_by, is_strong, longest};
ghost use Rattle.aa_compile.specs.Labels.{first_profiles};
ghost use Rattle.aa_ask.specs.Asked.{label_by_program};
ghost use Rattle.aa_ask.specs.Unattached.{match_of, matches_in, matches_of, all_matches, is_rival, rival_name, rival_names, tie_words, tie_text, unattached_line, program_warning, opening_warning};

use crate::asking::{AskFault, Manner, label_by_program, push_profile};
use aa_compile::{Attachment, Compiled, first_profiles, is_matched};
use aa_model::{Label, Profile};
use aa_pattern::Pattern;
use aa_text::{NoMemory, push_name, push_text};
use std::alloc::{AllocError, Global};

/// An attachment by its pattern; whose it is doesn't count here.
fn attachment_of(pattern: &Pattern) -> Attachment
    ensures { result ≡ attachment_by 0 pattern.now }
{
    Attachment {
        profile: 0,
        literal: pattern.is_literal(),
        front: pattern.literal_front(),
    }
}

fn push_match(
    matches: &mut Vec<Attachment>,
    path: &[u8],
    pattern: &Pattern,
) -> Result<(), AllocError>
    ensures { OnOk result (matches.new.items ≡ matches.old.items ++ match_of path.now pattern.now) }
{
    if is_matched(pattern, path) {
        matches.push(attachment_of(pattern))?;
    }
    Ok(())
}

fn push_matches(
    matches: &mut Vec<Attachment>,
    path: &[u8],
    patterns: &[Pattern],
) -> Result<(), AllocError>
    ensures { OnOk result (matches.new.items ≡ matches.old.items ++ matches_in path.now patterns.now) }
{
    for pattern in patterns {
        push_match(matches, path, pattern)?;
    }
    Ok(())
}

fn is_top(profile: &Profile) -> bool
    ensures { result ≡ has_parent None profile.now }
{
    profile.parent == None
}

/// Adds the attachments of a top-level profile that match a path.
fn push_matches_of(
    matches: &mut Vec<Attachment>,
    path: &[u8],
    profile: &Profile,
) -> Result<(), AllocError>
    ensures { OnOk result (matches.new.items ≡ matches.old.items ++ matches_of path.now profile.now) }
{
    if !is_top(profile) {
        return Ok(());
    }
    push_matches(matches, path, profile.attachments.as_slice())
}

fn matches_of(alloc: Global, path: &[u8], profile: &Profile) -> Result<Vec<Attachment>, AllocError>
    ensures { IfOk result (λ matches. matches.items ≡ matches_of path.now profile.now) }
{
    let mut matches = Vec::new(alloc);
    push_matches_of(&mut matches, path, profile)?;
    Ok(matches)
}

fn all_matches(
    alloc: Global,
    path: &[u8],
    profiles: &[Profile],
) -> Result<Vec<Attachment>, AllocError>
    ensures { IfOk result (λ matches. matches.items ≡ all_matches path.now profiles.now) }
{
    let mut matches = Vec::new(alloc);
    for profile in profiles {
        push_matches_of(&mut matches, path, profile)?;
    }
    Ok(matches)
}

fn has_literal(matches: &[Attachment]) -> bool
    ensures { result ≡ list_any (λ a. a.literal) matches.now }
{
    matches.iter().any(|attachment| attachment.literal)
}

fn longest_front(matches: &[Attachment]) -> usize
    ensures { result ≡ longest matches.now }
{
    let mut front: usize = 0;
    let mut rest = matches;
    while let [first, after @ ..] = rest {
        front = front.max(first.front);
        rest = after;
    }
    front
}

fn is_strong(attachment: &Attachment, literal: bool, front: usize) -> bool
    ensures { result ≡ is_strong literal front attachment.now }
{
    if literal {
        attachment.literal
    } else {
        attachment.front == front
    }
}

/// Whether one of a profile's attachments that match is literal, where one of all is, or else has that front.
fn is_rival(own: &[Attachment], literal: bool, front: usize) -> bool
    ensures { result ≡ is_rival literal front own.now }
{
    own.iter()
        .any(|attachment| is_strong(attachment, literal, front))
}

/// Appends the name of a profile, where one of its attachments is as strong as any.
#[tactic(auto, unfolding(crate::specs::Unattached::rival_name))]
fn push_rival(
    out: &mut Vec<u8>,
    alloc: Global,
    path: &[u8],
    literal: bool,
    front: usize,
    profile: &Profile,
) -> Result<(), AllocError>
    ensures { OnOk result (out.new.items ≡ out.old.items ++ rival_name path.now literal front profile.now) }
{
    let own = matches_of(alloc, path, profile)?;
    if !is_rival(own.as_slice(), literal, front) {
        return Ok(());
    }
    push_profile(out, alloc, profile)
}

#[tactic(auto, unfolding(crate::specs::Unattached::rival_names))]
fn push_rivals(
    out: &mut Vec<u8>,
    alloc: Global,
    path: &[u8],
    literal: bool,
    front: usize,
    profiles: &[Profile],
) -> Result<(), AllocError>
    ensures { OnOk result (out.new.items ≡ out.old.items ++ rival_names path.now profiles.now literal front) }
{
    for profile in profiles {
        push_rival(out, alloc, path, literal, front, profile)?;
    }
    Ok(())
}

/// Appends what stands before the profiles that tie.
#[tactic(auto, unfolding(crate::specs::Unattached::tie_words))]
fn push_tie_words(out: &mut Vec<u8>) -> Result<(), AllocError>
    ensures { OnOk result (out.new.items ≡ out.old.items ++ tie_words) }
{
    push_text(out, ", since these tie:")
}

/// Appends which profiles tie, where some attachment matches.
fn push_tie(
    out: &mut Vec<u8>,
    alloc: Global,
    path: &[u8],
    profiles: &[Profile],
    matches: &[Attachment],
) -> Result<(), AllocError>
    ensures { OnOk result (out.new.items ≡ out.old.items ++ tie_text path.now profiles.now matches.now) }
{
    if matches.is_empty() {
        return Ok(());
    }
    push_tie_words(out)?;
    push_rivals(
        out,
        alloc,
        path,
        has_literal(matches),
        longest_front(matches),
        profiles,
    )
}

fn push_reason(
    out: &mut Vec<u8>,
    alloc: Global,
    path: &[u8],
    profiles: &[Profile],
) -> Result<(), AllocError>
    ensures { OnOk result (out.new.items ≡ out.old.items ++ tie_text path.now profiles.now (all_matches path.now profiles.now)) }
{
    let matches = all_matches(alloc, path, profiles)?;
    push_tie(out, alloc, path, profiles, matches.as_slice())
}

/// Says that no profile is attached to a program, and which tie, if that is why.
fn unattached_line(alloc: Global, policies: &[Compiled], path: &[u8]) -> Result<Vec<u8>, AllocError>
    ensures { IfOk result (λ line. line.items ≡ unattached_line path.now (first_profiles policies.now)) }
{
    let mut line = Vec::new(alloc);
    push_text(&mut line, "warning: no profile is attached to ")?;
    push_name(&mut line, alloc, path)?;
    push_reason(&mut line, alloc, path, first_profiles(policies))?;
    push_text(&mut line, "\n")?;
    Ok(line)
}

/// What is warned of where a program asks: that no profile is attached to it, if that is so. Else it is empty.
pub(crate) fn program_warning(
    alloc: Global,
    policies: &[Compiled],
    path: &[u8],
) -> Result<Vec<u8>, NoMemory>
    ensures { IfOk result (λ text. text.items ≡ program_warning policies.now path.now (label_by_program policies.now path.now)) }
{
    match label_by_program(alloc, policies, path) {
        Ok(Label::Unconfined(_)) => Ok(unattached_line(alloc, policies, path)?),
        Err(AskFault::NoMemory) => Err(NoMemory),
        _ => Ok(Vec::new(alloc)),
    }
}

/// What is warned of before anything is answered: of a program that asks, that no profile is attached to it.
pub fn opening_warning(
    alloc: Global,
    policies: &[Compiled],
    manner: Manner<'_>,
) -> Result<Vec<u8>, NoMemory>
    ensures { IfOk result (λ text. text.items ≡ opening_warning policies.now manner.entry) }
{
    match (manner.profile, manner.program) {
        (None, Some(path)) => program_warning(alloc, policies, path),
        _ => Ok(Vec::new(alloc)),
    }
}
