//! What isn't told: where files are skipped, and which of them could tell; and where patterns are too many.

ghost use Rattle.std.specs.Prelude.{◌≡◌, ◌+◌, ◌++◌, ◌∷◌, [], min, map, filter, flat_map, count_by, OnOk, IfOk, if◌then◌else◌};
ghost use Rattle.std.specs.List.{list_any};
ghost use Rattle.aa_compile.specs.Labels.{first_profiles};
ghost use Rattle.aa_passed_over.specs.Apart.{number_named};
ghost use Rattle.aa_passed_over.specs.declared.apart.Side.TheVariants.{Old, New};
ghost use Rattle.aa_skipping.specs.declared.unread.Head.{Head};
ghost use Rattle.aa_undecided.specs.Answers.{placed, placed_all};
ghost use Rattle.aa_undecided.specs.Named.{may_hold};
ghost use Rattle.aa_diff.specs.Untold.{About, Free, Named, Others, about, untold, is_shown, is_some_file, untold_if, files_opening_in, files_opening, undecided_at, undecided_by, undecided_of, all_undecided, untold_of, untold_head, untold_others, untold_file, has_name, is_head, files_holding, untold_missing, all_not_compared, is_left_out, about_label, large, large_of, all_large, is_profiles, all_left_out, doubts_data, all_untold};

use crate::options::Wanted;
use crate::part::Part;
use crate::report::is_named;
use aa_ask::is_confined;
use aa_compile::{Compiled, first_profiles, name_of_label};
use aa_differences::{Excess, UntoldLabels, label_is_open};
use aa_model::{Label, Profile};
use aa_passed_over::{Side, number_named};
use aa_skipped::Skipped;
use aa_skipping::Head;
use aa_undecided::{SkippedAt, all_placed, files_holding_in, may_hold, push_if};
use std::alloc::{AllocError, Global};

/// Of whom something isn't told.
#[derive(Drop)]
pub enum Subject {
    /// Tasks without a profile.
    Unconfined,
    /// Those of the profile with this full name.
    Profile(Vec<u8>),
    /// Those of any profile that isn't read.
    Others,
}

/// That something isn't told, and the skipped files of each side that could tell.
#[derive(Drop)]
pub struct Doubt {
    pub subject: Subject,
    pub old: Vec<SkippedAt>,
    pub new: Vec<SkippedAt>,
}

/// Who isn't compared since the patterns at a label are too many together, or need more than so many states.
#[derive(Drop)]
pub struct TooLarge {
    pub subject: Subject,
    pub why: Excess,
    pub limit: usize,
}

/// All that isn't told.
#[derive(Drop)]
pub struct Doubts {
    /// Labels at which a skipped file could change what is answered.
    pub undecided: Vec<Doubt>,
    /// Profiles that a skipped file may hold.
    pub not_compared: Vec<Doubt>,
    /// Labels whose patterns are too many.
    pub too_large: Vec<TooLarge>,
    /// How many profiles of the old side aren't compared for either reason.
    pub left_out: usize,
    /// The files of the old side that are skipped.
    pub old: Vec<SkippedAt>,
    /// Those of the new side.
    pub new: Vec<SkippedAt>,
}

/// Whether something that isn't told of somebody is shown.
fn is_shown(wanted: Wanted<'_>, subject: &Subject) -> bool
    ensures { result ≡ is_shown wanted.entry (about subject.now) }
{
    match subject {
        Subject::Unconfined => is_named(wanted.profiles, "unconfined".as_bytes()),
        Subject::Profile(name) => is_named(wanted.profiles, name.as_slice()),
        Subject::Others => true,
    }
}

fn is_some_file(old: &[SkippedAt], new: &[SkippedAt]) -> bool
    ensures { result ≡ is_some_file (placed_all old.now) (placed_all new.now) }
{
    !(old.is_empty() && new.is_empty())
}

/// Adds that something isn't told of somebody, where some files could tell and it is shown.
fn push_if_shown(
    found: &mut Vec<Doubt>,
    wanted: Wanted<'_>,
    subject: Subject,
    old: Vec<SkippedAt>,
    new: Vec<SkippedAt>,
) -> Result<(), AllocError>
    ensures { OnOk result (map untold found.new.items ≡ map untold found.old.items ++ untold_if wanted.entry (about subject) (placed_all old.items) (placed_all new.items)) }
{
    if is_shown(wanted, &subject) && is_some_file(old.as_slice(), new.as_slice()) {
        found.push(Doubt { subject, old, new })?;
    }
    Ok(())
}

fn profile_named(alloc: Global, name: &[u8]) -> Result<Subject, AllocError>
    ensures { IfOk result (λ s. about s ≡ Named name.now) }
{
    Ok(Subject::Profile(Vec::from_slice(alloc, name)?))
}

fn files_opening_in(
    alloc: Global,
    skipped: &[Skipped],
    label: Label,
    compiled: &Compiled,
) -> Result<Vec<SkippedAt>, AllocError>
    ensures { IfOk result (λ files. placed_all files.items ≡ files_opening_in skipped.now label compiled.now) }
{
    let mut files = Vec::new(alloc);
    for file in skipped {
        let opens = label_is_open(alloc, compiled, &file.unread, label)?;
        push_if(alloc, &mut files, opens, file)?;
    }
    Ok(files)
}

/// The skipped files of a side that could change what is answered at a label.
#[tactic(auto, unfolding(crate::specs::Untold::files_opening))]
fn files_opening(alloc: Global, part: Part<'_>, label: Label) -> Result<Vec<SkippedAt>, AllocError>
    ensures { IfOk result (λ files. placed_all files.items ≡ files_opening part.entry label) }
{
    match part.decided.policies.get(0) {
        Some(compiled) => files_opening_in(alloc, part.skipped, label, compiled),
        None => Ok(Vec::new(alloc)),
    }
}

/// Adds somebody at two labels that are called the same, if something is undecided there.
fn push_undecided_at(
    found: &mut Vec<Doubt>,
    alloc: Global,
    wanted: Wanted<'_>,
    old: Part<'_>,
    new: Part<'_>,
    subject: Subject,
    from: Label,
    to: Label,
) -> Result<(), AllocError>
    ensures { OnOk result (map untold found.new.items ≡ map untold found.old.items ++ undecided_at wanted.entry old.entry new.entry (about subject) from to) }
{
    let before = files_opening(alloc, old, from)?;
    let after = files_opening(alloc, new, to)?;
    push_if_shown(found, wanted, subject, before, after)
}

fn push_undecided_by(
    found: &mut Vec<Doubt>,
    alloc: Global,
    wanted: Wanted<'_>,
    old: Part<'_>,
    new: Part<'_>,
    name: &[u8],
    from: Option<u16>,
    to: Option<u16>,
) -> Result<(), AllocError>
    ensures { OnOk result (map untold found.new.items ≡ map untold found.old.items ++ undecided_by wanted.entry old.entry new.entry name.now from to) }
{
    let (Some(from), Some(to)) = (from, to) else {
        return Ok(());
    };
    let subject = profile_named(alloc, name)?;
    push_undecided_at(
        found,
        alloc,
        wanted,
        old,
        new,
        subject,
        Label::Confined(0, from),
        Label::Confined(0, to),
    )
}

/// Adds the profiles that are called as this one, if something is undecided there.
fn push_undecided_of(
    found: &mut Vec<Doubt>,
    alloc: Global,
    wanted: Wanted<'_>,
    old: Part<'_>,
    new: Part<'_>,
    profile: &Profile,
) -> Result<(), AllocError>
    ensures { OnOk result (map untold found.new.items ≡ map untold found.old.items ++ undecided_of wanted.entry old.entry new.entry profile.now) }
{
    let name = profile.name.as_slice();
    let from = number_named(old.decided.policies, name);
    let to = number_named(new.decided.policies, name);
    push_undecided_by(found, alloc, wanted, old, new, name, from, to)
}

fn push_undecided(
    found: &mut Vec<Doubt>,
    alloc: Global,
    wanted: Wanted<'_>,
    old: Part<'_>,
    new: Part<'_>,
) -> Result<(), AllocError>
    ensures { OnOk result (map untold found.new.items ≡ map untold found.old.items ++ flat_map (undecided_of wanted.entry old.entry new.entry) (first_profiles old.entry.decided.policies.now)) }
{
    for profile in first_profiles(old.decided.policies) {
        push_undecided_of(found, alloc, wanted, old, new, profile)?;
    }
    Ok(())
}

/// Tasks without a profile, and the profiles that both sides read, where skipped files could change what they are answered.
fn all_undecided(
    alloc: Global,
    wanted: Wanted<'_>,
    old: Part<'_>,
    new: Part<'_>,
) -> Result<Vec<Doubt>, AllocError>
    ensures { IfOk result (λ found. map untold found.items ≡ all_undecided wanted.entry old.entry new.entry) }
{
    let mut found = Vec::new(alloc);
    let free = Label::Unconfined(0);
    push_undecided_at(
        &mut found,
        alloc,
        wanted,
        old,
        new,
        Subject::Unconfined,
        free,
        free,
    )?;
    push_undecided(&mut found, alloc, wanted, old, new)?;
    Ok(found)
}

/// Adds that something isn't told of somebody, where some files of a side could tell and it is shown.
fn push_of(
    found: &mut Vec<Doubt>,
    alloc: Global,
    wanted: Wanted<'_>,
    subject: Subject,
    side: Side,
    files: Vec<SkippedAt>,
) -> Result<(), AllocError>
    ensures { OnOk result (map untold found.new.items ≡ map untold found.old.items ++ untold_of wanted.entry (about subject) side (placed_all files.items)) }
{
    match side {
        Side::Old => push_if_shown(found, wanted, subject, files, Vec::new(alloc)),
        Side::New => push_if_shown(found, wanted, subject, Vec::new(alloc), files),
    }
}

/// The place of one skipped file, as a list.
fn alone(alloc: Global, file: &Skipped) -> Result<Vec<SkippedAt>, AllocError>
    ensures { IfOk result (λ files. placed_all files.items ≡ placed file.now ∷ []) }
{
    let mut files = Vec::new(alloc);
    push_if(alloc, &mut files, true, file)?;
    Ok(files)
}

fn push_head(
    found: &mut Vec<Doubt>,
    alloc: Global,
    wanted: Wanted<'_>,
    side: Side,
    file: &Skipped,
    head: &Head,
) -> Result<(), AllocError>
    ensures { OnOk result (map untold found.new.items ≡ map untold found.old.items ++ untold_head wanted.entry side file.now head.now) }
{
    let subject = profile_named(alloc, head.name.as_slice())?;
    let files = alone(alloc, file)?;
    push_of(found, alloc, wanted, subject, side, files)
}

fn push_heads(
    found: &mut Vec<Doubt>,
    alloc: Global,
    wanted: Wanted<'_>,
    side: Side,
    file: &Skipped,
    heads: &[Head],
) -> Result<(), AllocError>
    ensures { OnOk result (map untold found.new.items ≡ map untold found.old.items ++ flat_map (untold_head wanted.entry side file.now) heads.now) }
{
    for head in heads {
        push_head(found, alloc, wanted, side, file, head)?;
    }
    Ok(())
}

fn push_others(
    found: &mut Vec<Doubt>,
    alloc: Global,
    wanted: Wanted<'_>,
    side: Side,
    file: &Skipped,
) -> Result<(), AllocError>
    ensures { OnOk result (map untold found.new.items ≡ map untold found.old.items ++ untold_others wanted.entry side file.now) }
{
    if !file.unread.others {
        return Ok(());
    }
    let files = alone(alloc, file)?;
    push_of(found, alloc, wanted, Subject::Others, side, files)
}

/// Adds the profiles that a skipped file may hold, as far as its heads tell.
fn push_file(
    found: &mut Vec<Doubt>,
    alloc: Global,
    wanted: Wanted<'_>,
    side: Side,
    file: &Skipped,
) -> Result<(), AllocError>
    ensures { OnOk result (map untold found.new.items ≡ map untold found.old.items ++ untold_file wanted.entry side file.now) }
{
    push_heads(
        found,
        alloc,
        wanted,
        side,
        file,
        file.unread.heads.as_slice(),
    )?;
    push_others(found, alloc, wanted, side, file)
}

fn push_files(
    found: &mut Vec<Doubt>,
    alloc: Global,
    wanted: Wanted<'_>,
    side: Side,
    skipped: &[Skipped],
) -> Result<(), AllocError>
    ensures { OnOk result (map untold found.new.items ≡ map untold found.old.items ++ flat_map (untold_file wanted.entry side) skipped.now) }
{
    for file in skipped {
        push_file(found, alloc, wanted, side, file)?;
    }
    Ok(())
}

fn has_name(name: &[u8], head: &Head) -> bool
    ensures { result ≡ has_name name.now head.now }
{
    head.name.as_slice() == name
}

fn one_has_name(name: &[u8], heads: &[Head]) -> bool
    ensures { result ≡ list_any (has_name name.now) heads.now }
{
    heads.iter().any(|head| has_name(name, head))
}

fn is_head(name: &[u8], file: &Skipped) -> bool
    ensures { result ≡ is_head name.now file.now }
{
    one_has_name(name, file.unread.heads.as_slice())
}

/// Whether a head of one of the skipped files has a name.
fn one_is_head(name: &[u8], skipped: &[Skipped]) -> bool
    ensures { result ≡ list_any (is_head name.now) skipped.now }
{
    skipped.iter().any(|file| is_head(name, file))
}

/// The skipped files of a side that may hold the profile of a name that no read one has.
#[tactic(auto, unfolding(crate::specs::Untold::files_holding))]
pub(crate) fn files_holding(
    alloc: Global,
    part: Part<'_>,
    name: &[u8],
) -> Result<Vec<SkippedAt>, AllocError>
    ensures { IfOk result (λ files. placed_all files.items ≡ files_holding part.entry name.now) }
{
    match part.decided.policies.get(0) {
        Some(compiled) => files_holding_in(alloc, part.skipped, name, compiled),
        None => Ok(Vec::new(alloc)),
    }
}

/// Adds a profile that the other side reads, files of this one may hold, and no head tells.
fn push_missing(
    found: &mut Vec<Doubt>,
    alloc: Global,
    wanted: Wanted<'_>,
    side: Side,
    part: Part<'_>,
    profile: &Profile,
) -> Result<(), AllocError>
    ensures { OnOk result (map untold found.new.items ≡ map untold found.old.items ++ untold_missing wanted.entry side part.entry profile.now) }
{
    let name = profile.name.as_slice();
    if one_is_head(name, part.skipped) {
        return Ok(());
    }
    let files = files_holding(alloc, part, name)?;
    let subject = profile_named(alloc, name)?;
    push_of(found, alloc, wanted, subject, side, files)
}

/// So of each of the profiles.
fn push_all_missing(
    found: &mut Vec<Doubt>,
    alloc: Global,
    wanted: Wanted<'_>,
    side: Side,
    part: Part<'_>,
    profiles: &[Profile],
) -> Result<(), AllocError>
    ensures { OnOk result (map untold found.new.items ≡ map untold found.old.items ++ flat_map (untold_missing wanted.entry side part.entry) profiles.now) }
{
    for profile in profiles {
        push_missing(found, alloc, wanted, side, part, profile)?;
    }
    Ok(())
}

/// The profiles that skipped files may hold.
fn all_not_compared(
    alloc: Global,
    wanted: Wanted<'_>,
    old: Part<'_>,
    new: Part<'_>,
) -> Result<Vec<Doubt>, AllocError>
    ensures { IfOk result (λ found. map untold found.items ≡ all_not_compared wanted.entry old.entry new.entry) }
{
    let mut found = Vec::new(alloc);
    push_files(&mut found, alloc, wanted, Side::Old, old.skipped)?;
    push_files(&mut found, alloc, wanted, Side::New, new.skipped)?;
    let before = first_profiles(old.decided.policies);
    push_all_missing(&mut found, alloc, wanted, Side::New, new, before)?;
    let after = first_profiles(new.decided.policies);
    push_all_missing(&mut found, alloc, wanted, Side::Old, old, after)?;
    Ok(found)
}

fn one_may_hold(compiled: &Compiled, name: &[u8], skipped: &[Skipped]) -> bool
    ensures { result ≡ list_any (may_hold compiled.now.profiles name.now) skipped.now }
{
    skipped.iter().any(|file| may_hold(compiled, name, file))
}

/// Whether a profile of the old side isn't compared, since files of the new one may hold it.
fn is_left_out(new: Part<'_>, profile: &Profile) -> bool
    ensures { result ≡ is_left_out new.entry profile.now }
{
    match new.decided.policies.get(0) {
        Some(compiled) => one_may_hold(compiled, profile.name.as_slice(), new.skipped),
        None => false,
    }
}

fn count_left_out(new: Part<'_>, profiles: &[Profile]) -> usize
    ensures { result ≡ count_by (is_left_out new.entry) profiles.now }
{
    profiles
        .iter()
        .filter(|profile| is_left_out(new, profile))
        .count()
}

/// Who has a label.
fn subject_of(alloc: Global, policies: &[Compiled], label: Label) -> Result<Subject, AllocError>
    ensures { IfOk result (λ s. about s ≡ about_label policies.now label) }
{
    match label {
        Label::Unconfined(_) => Ok(Subject::Unconfined),
        Label::Confined(_, _) => profile_named(alloc, name_of_label(policies, label)),
    }
}

/// Adds who isn't compared since the patterns at labels are too many, where that is shown.
fn push_large(
    found: &mut Vec<TooLarge>,
    alloc: Global,
    wanted: Wanted<'_>,
    policies: &[Compiled],
    limit: usize,
    labels: UntoldLabels,
) -> Result<(), AllocError>
    ensures { OnOk result (map large found.new.items ≡ map large found.old.items ++ large_of wanted.entry policies.now limit labels) }
{
    let subject = subject_of(alloc, policies, labels.from)?;
    if is_shown(wanted, &subject) {
        found.push(TooLarge {
            subject,
            why: labels.why,
            limit,
        })?;
    }
    Ok(())
}

/// Those who aren't compared since the patterns at these labels are too many.
fn all_large(
    alloc: Global,
    wanted: Wanted<'_>,
    policies: &[Compiled],
    limit: usize,
    untold: &[UntoldLabels],
) -> Result<Vec<TooLarge>, AllocError>
    ensures { IfOk result (λ found. map large found.items ≡ all_large wanted.entry policies.now limit untold.now) }
{
    let mut found = Vec::new(alloc);
    for labels in untold {
        push_large(&mut found, alloc, wanted, policies, limit, *labels)?;
    }
    Ok(found)
}

/// Whether labels are those of a profile.
fn is_profiles(labels: &UntoldLabels) -> bool
    ensures { result ≡ is_profiles labels.now }
{
    is_confined(labels.from)
}

fn count_profiles(untold: &[UntoldLabels]) -> usize
    ensures { result ≡ count_by is_profiles untold.now }
{
    untold.iter().filter(|labels| is_profiles(labels)).count()
}

/// How many profiles of the old side aren't compared.
fn all_left_out(old: Part<'_>, new: Part<'_>, untold: &[UntoldLabels]) -> usize
    ensures { result ≡ all_left_out old.entry new.entry untold.now }
{
    count_left_out(new, first_profiles(old.decided.policies)).saturating_add(count_profiles(untold))
}

/// All that isn't told of those who are wanted, where at these labels differences can't be told by so many states.
pub(crate) fn all_untold(
    alloc: Global,
    wanted: Wanted<'_>,
    limit: usize,
    old: Part<'_>,
    new: Part<'_>,
    untold: &[UntoldLabels],
) -> Result<Doubts, AllocError>
    ensures { IfOk result (λ doubts. doubts_data doubts ≡ all_untold wanted.entry limit old.entry new.entry untold.now) }
{
    Ok(Doubts {
        undecided: all_undecided(alloc, wanted, old, new)?,
        not_compared: all_not_compared(alloc, wanted, old, new)?,
        too_large: all_large(alloc, wanted, old.decided.policies, limit, untold)?,
        left_out: all_left_out(old, new, untold),
        old: all_placed(alloc, old.skipped)?,
        new: all_placed(alloc, new.skipped)?,
    })
}
