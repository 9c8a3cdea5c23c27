//! The profile that is attached to a path.

ghost use Rattle.std.specs.Prelude.{◌≡◌, ◌+◌, ◌<◌, ◌≤◌, ◌++◌, IfOk, OnOk, Err, length, map, max};
ghost use Rattle.aa_auto.specs.Nodes.{pointed};
ghost use Rattle.aa_auto.specs.Tables.{HasPlaces};
ghost use Rattle.std.specs.List.{list_any};
ghost use Rattle.aa_pattern.specs.Limits.{most_patterns, most_states};
ghost use Rattle.aa_compile.specs.Gathered.{picked};
ghost use Rattle.aa_compile.specs.Patterns.{HasAutomaton};
ghost use Rattle.aa_compile.specs.Attached.{is_strong, longest, common, attached_by, literal_at, front_at, profile_if, profiles_of, answers_by, answer_at, attachments_at, attachments_by, attachment_by, pattern_of, attachment_of, AreAttached, Attaches};

use aa_auto::{Automaton, BuildFault};
use aa_model::Profile;
use aa_pattern::Pattern;
use std::alloc::{AllocError, Global};
use std::marker::Model;

/// An attachment: the number of its profile, and how strongly it attaches.
#[derive(Clone, Copy, Debug, PartialEq, Eq)]
pub struct Attachment {
    pub profile: u16,
    pub literal: bool,
    /// How many bytes stand at its front.
    pub front: usize,
}

fn is_literal_at(attachments: &[Attachment], number: u16) -> bool
    ensures { result ≡ literal_at attachments.now number }
{
    match attachments.get(number as usize) {
        Some(attachment) => attachment.literal,
        None => false,
    }
}

fn front_of(attachments: &[Attachment], number: u16) -> usize
    ensures { result ≡ front_at attachments.now number }
{
    match attachments.get(number as usize) {
        Some(attachment) => attachment.front,
        None => 0,
    }
}

fn has_literal(attachments: &[Attachment], numbers: &[u16]) -> bool
    ensures { result ≡ list_any (literal_at attachments.now) numbers.now }
{
    numbers
        .iter()
        .any(|number| is_literal_at(attachments, *number))
}

fn longest_front(attachments: &[Attachment], numbers: &[u16]) -> usize
    ensures { result ≡ longest (picked attachments.now numbers.now) }
{
    let mut front: usize = 0;
    for number in numbers {
        front = front.max(front_of(attachments, *number));
    }
    front
}

fn strong(attachment: &Attachment, literal: bool, front: usize) -> bool
    ensures { result ≡ is_strong literal front attachment.now }
{
    if literal {
        attachment.literal
    } else {
        attachment.front == front
    }
}

/// The profile of a strong attachment.
fn strong_profile(
    attachments: &[Attachment],
    number: u16,
    literal: bool,
    front: usize,
) -> Option<u16>
    ensures { result ≡ profile_if literal front attachments.now number }
{
    match attachments.get(number as usize) {
        Some(attachment) if strong(attachment, literal, front) => Some(attachment.profile),
        _ => None,
    }
}

/// The one profile of the strong attachments.
fn only(attachments: &[Attachment], numbers: &[u16], literal: bool, front: usize) -> Option<u16>
    ensures { result ≡ common (profiles_of literal front attachments.now numbers.now) }
{
    let mut found: Option<u16> = None;
    for number in numbers {
        if let Some(profile) = strong_profile(attachments, *number, literal, front) {
            if found.is_some_and(|other| other != profile) {
                return None;
            }
            found = Some(profile);
        }
    }
    found
}

/// The profile that is attached where these attachments match.
fn attached_at(attachments: &[Attachment], numbers: &[u16]) -> Option<u16>
    ensures { result ≡ attached_by (picked attachments.now numbers.now) }
{
    let literal = has_literal(attachments, numbers);
    let front = longest_front(attachments, numbers);
    only(attachments, numbers, literal, front)
}

fn answers_of(
    alloc: Global,
    automaton: &Automaton,
    attachments: &[Attachment],
) -> Result<Vec<Option<u16>>, AllocError>
    ensures { IfOk result (λ answers. answers.items ≡ answers_by attachments.now automaton.now.lists) }
{
    let mut answers = Vec::new(alloc);
    for number in 0..automaton.lists() {
        answers.push(attached_at(attachments, automaton.list(number)))?;
    }
    Ok(answers)
}

/// Adds the attachments of a profile.
fn add_attachments<'a>(
    pointers: &mut Vec<&'a Pattern>,
    attachments: &mut Vec<Attachment>,
    profile: u16,
    patterns: &'a [Pattern],
) -> Result<(), AllocError>
    ensures patterns { OnOk result (pointed pointers.new.items ≡ pointed pointers.old.items ++ patterns.now) }
    ensures attachments { OnOk result (attachments.new.items ≡ attachments.old.items ++ map (attachment_by profile) patterns.now) }
{
    for pattern in patterns {
        pointers.push(pattern)?;
        attachments.push(Attachment {
            profile,
            literal: pattern.is_literal(),
            front: pattern.literal_front(),
        })?;
    }
    Ok(())
}

fn patterns_at(profiles: &[Profile], number: u16) -> &[Pattern]
    ensures { result.now ≡ attachments_at profiles.now number }
{
    match profiles.get(number as usize) {
        Some(profile) => profile.attachments.as_slice(),
        None => &[],
    }
}

/// The attachments of the profiles with these numbers.
fn attachments_of<'a>(
    alloc: Global,
    profiles: &'a [Profile],
    numbers: &[u16],
) -> Result<(Vec<&'a Pattern>, Vec<Attachment>), AllocError>
    ensures patterns { IfOk result (λ r. pointed r.0.items ≡ map pattern_of (attachments_by profiles.now numbers.now)) }
    ensures attachments { IfOk result (λ r. r.1.items ≡ map attachment_of (attachments_by profiles.now numbers.now)) }
{
    let mut pointers = Vec::new(alloc);
    let mut attachments = Vec::new(alloc);
    for number in numbers {
        let patterns = patterns_at(profiles, *number);
        add_attachments(&mut pointers, &mut attachments, *number, patterns)?;
    }
    Ok((pointers, attachments))
}

/// Says which profile is attached to a path.
#[derive(Drop)]
pub struct AttachRows {
    automaton: Automaton,
    /// One for each list.
    answers: Vec<Option<u16>>,
    /// How many attachments there are.
    count: usize,
}

impl Model for AttachRows {
    ghost use Rattle.std.specs.Prelude.{◌≡◌, length};
    ghost use Rattle.aa_compile.specs.Attached.{AnswerTable};

    ghost Value = { AnswerTable };

    ghost view = { λ r. record { table = r.automaton; answers = r.answers.items; count = r.count } };

    ghost invariant = { λ r. length r.answers.items ≡ length r.automaton.lists };
}

impl AttachRows {
    /// The rows of the attachments of the profiles with these numbers.
    pub fn build(
        alloc: Global,
        profiles: &[Profile],
        numbers: &[u16],
        limit: usize,
    ) -> Result<AttachRows, BuildFault>
        requires few { length (attachments_by profiles.now numbers.now) ≤ most_patterns }
        requires some { 0 < limit }
        requires limit { limit ≤ most_states }
        ensures ok { IfOk result (Attaches profiles.now numbers.now) }
        ensures attached { IfOk result (AreAttached profiles.now numbers.now) }
        ensures fits { IfOk result (λ _. HasAutomaton (map pattern_of (attachments_by profiles.now numbers.now)) limit) }
        ensures too_many { result ≡ Err BuildFault.TooManyStates → HasPlaces (map pattern_of (attachments_by profiles.now numbers.now)) (limit + 1) }
    {
        let (pointers, attachments) = attachments_of(alloc, profiles, numbers)?;
        let automaton = Automaton::of(alloc, pointers.as_slice(), limit)?;
        let answers = answers_of(alloc, &automaton, attachments.as_slice())?;
        Ok(AttachRows {
            automaton,
            answers,
            count: pointers.len(),
        })
    }

    /// The automaton of the attachments.
    pub(crate) fn automaton(&self) -> &Automaton
        ensures { result.now ≡ self.now.table }
    {
        &self.automaton
    }

    /// How many attachments there are.
    pub(crate) fn count(&self) -> usize
        ensures { result ≡ self.now.count }
    {
        self.count
    }

    /// The profile that is attached to the path.
    pub fn attached(&self, path: &[u8]) -> Option<u16>
        ensures { result ≡ answer_at self.now path.now }
    {
        self.answers[self.automaton.list_of(self.automaton.place(path))]
    }
}
