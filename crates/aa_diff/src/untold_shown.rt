//! What isn't told, as it is printed.

ghost use Rattle.std.specs.Prelude.{◌≡◌, ◌++◌, ◌+◌, codes, flat_map, map, length, OnOk};
ghost use Rattle.aa_base.specs.Values.{value};
ghost use Rattle.aa_text.specs.Jsons.{key_text, member_text, list_text};
ghost use Rattle.aa_undecided.specs.Answers.{placed_data, placed_all};
ghost use Rattle.aa_undecided.specs.Jsons.{json_placed};
ghost use Rattle.aa_diff.specs.Untold.{about, untold, large, doubts_data};
ghost use Rattle.aa_diff.specs.UntoldShown.{about_text, skips_text, files_text, untold_words, untold_line, states_text, excess_text, large_words, large_line, untold_text, at_text, help_text, large_fault, skipped_text, json_who, json_files, json_untold, json_large, json_all_large, json_skipped, json_all_untold};

use crate::printing::{push_more, side_text};
use crate::untold::{Doubt, Doubts, Subject, TooLarge};
use aa_differences::Excess;
use aa_passed_over::Side;
use aa_skipped::push_skipped_count;
use aa_text::{
    ToJson, push_json_bytes, push_key, push_list, push_list_member, push_name, push_next_key,
    push_number, push_text, push_visible,
};
use aa_undecided::{SkippedAt, push_refused_at};
use std::alloc::{AllocError, Global};

fn push_profile(out: &mut Vec<u8>, alloc: Global, name: &[u8]) -> Result<(), AllocError>
    ensures { OnOk result (out.new.items ≡ out.old.items ++ (codes "profile " ++ (value name.now ++ codes " is"))) }
{
    push_text(out, "profile ")?;
    push_name(out, alloc, name)?;
    push_text(out, " is")
}

/// Appends of whom something isn't told.
fn push_about(out: &mut Vec<u8>, alloc: Global, subject: &Subject) -> Result<(), AllocError>
    ensures { OnOk result (out.new.items ≡ out.old.items ++ about_text (about subject.now)) }
{
    match subject {
        Subject::Unconfined => push_text(out, "unconfined is"),
        Subject::Profile(name) => push_profile(out, alloc, name.as_slice()),
        Subject::Others => push_text(out, "other profiles are"),
    }
}

/// Appends that a side skips a file, where that is refused, and how many more files there are.
#[tactic(auto, unfolding(crate::specs::UntoldShown::skips_text))]
fn push_skips(
    out: &mut Vec<u8>,
    side: Side,
    file: &SkippedAt,
    more: usize,
) -> Result<(), AllocError>
    ensures { OnOk result (out.new.items ≡ out.old.items ++ skips_text side (placed_data file.now) more) }
{
    push_text(out, side_text(side))?;
    push_text(out, " skips ")?;
    push_visible(out, file.path.as_slice())?;
    push_refused_at(out, file.at.as_slice(), file.place)?;
    push_more(out, more as u64)
}

fn push_files(out: &mut Vec<u8>, old: &[SkippedAt], new: &[SkippedAt]) -> Result<(), AllocError>
    ensures { OnOk result (out.new.items ≡ out.old.items ++ files_text (placed_all old.now) (placed_all new.now)) }
{
    match (old, new) {
        ([file, more @ ..], others) => { push_skips(out, Side::Old, file, count_of(more, others)) }
        ([], [file, more @ ..]) => push_skips(out, Side::New, file, more.len()),
        ([], []) => Ok(()),
    }
}

/// Appends of whom something isn't told, and the first of the files that could tell.
#[tactic(auto, unfolding(crate::specs::UntoldShown::untold_words))]
pub(crate) fn push_words(
    out: &mut Vec<u8>,
    alloc: Global,
    words: &str,
    doubt: &Doubt,
) -> Result<(), AllocError>
    ensures { OnOk result (out.new.items ≡ out.old.items ++ untold_words words.now (untold doubt.now)) }
{
    push_about(out, alloc, &doubt.subject)?;
    push_text(out, words)?;
    push_files(out, doubt.old.as_slice(), doubt.new.as_slice())
}

fn push_line(out: &mut Vec<u8>, alloc: Global, words: &str, doubt: &Doubt) -> Result<(), AllocError>
    ensures { OnOk result (out.new.items ≡ out.old.items ++ untold_line words.now (untold doubt.now)) }
{
    push_words(out, alloc, words, doubt)?;
    push_text(out, "\n")
}

fn push_lines(
    out: &mut Vec<u8>,
    alloc: Global,
    words: &str,
    doubts: &[Doubt],
) -> Result<(), AllocError>
    ensures { OnOk result (out.new.items ≡ out.old.items ++ flat_map (untold_line words.now) (map untold doubts.now)) }
{
    for doubt in doubts {
        push_line(out, alloc, words, doubt)?;
    }
    Ok(())
}

/// Appends that patterns need too many states.
#[tactic(auto, unfolding(crate::specs::UntoldShown::states_text))]
fn push_states(out: &mut Vec<u8>, limit: usize) -> Result<(), AllocError>
    ensures { OnOk result (out.new.items ≡ out.old.items ++ states_text limit) }
{
    push_text(out, "the patterns of OLD and NEW need more than ")?;
    push_number(out, limit)?;
    push_text(out, " states together")
}

/// Appends what there is too much of.
fn push_excess(out: &mut Vec<u8>, why: Excess, limit: usize) -> Result<(), AllocError>
    ensures { OnOk result (out.new.items ≡ out.old.items ++ excess_text why limit) }
{
    match why {
        Excess::Patterns => push_text(out, "OLD and NEW have more than 65535 patterns together"),
        Excess::States => push_states(out, limit),
    }
}

/// Appends who isn't compared, and why.
#[tactic(auto, unfolding(crate::specs::UntoldShown::large_words))]
pub(crate) fn push_large_words(
    out: &mut Vec<u8>,
    alloc: Global,
    one: &TooLarge,
) -> Result<(), AllocError>
    ensures { OnOk result (out.new.items ≡ out.old.items ++ large_words (large one.now)) }
{
    push_about(out, alloc, &one.subject)?;
    push_text(out, " not compared: ")?;
    push_excess(out, one.why, one.limit)
}

fn push_large_line(out: &mut Vec<u8>, alloc: Global, one: &TooLarge) -> Result<(), AllocError>
    ensures { OnOk result (out.new.items ≡ out.old.items ++ large_line (large one.now)) }
{
    push_large_words(out, alloc, one)?;
    push_text(out, "\n")
}

fn push_large_lines(
    out: &mut Vec<u8>,
    alloc: Global,
    too_large: &[TooLarge],
) -> Result<(), AllocError>
    ensures { OnOk result (out.new.items ≡ out.old.items ++ flat_map large_line (map large too_large.now)) }
{
    for one in too_large {
        push_large_line(out, alloc, one)?;
    }
    Ok(())
}

/// Appends at which labels something is undecided, and which profiles aren't compared.
pub(crate) fn push_untold(
    out: &mut Vec<u8>,
    alloc: Global,
    doubts: &Doubts,
) -> Result<(), AllocError>
    ensures { OnOk result (out.new.items ≡ out.old.items ++ untold_text (doubts_data doubts.now)) }
{
    push_lines(out, alloc, " undecided: ", doubts.undecided.as_slice())?;
    push_lines(
        out,
        alloc,
        " not compared: ",
        doubts.not_compared.as_slice(),
    )?;
    push_large_lines(out, alloc, doubts.too_large.as_slice())
}

fn push_at_profile(out: &mut Vec<u8>, alloc: Global, name: &[u8]) -> Result<(), AllocError>
    ensures { OnOk result (out.new.items ≡ out.old.items ++ (codes "label " ++ value name.now)) }
{
    push_text(out, "label ")?;
    push_name(out, alloc, name)
}

/// Appends at which label.
fn push_at(out: &mut Vec<u8>, alloc: Global, subject: &Subject) -> Result<(), AllocError>
    ensures { OnOk result (out.new.items ≡ out.old.items ++ at_text (about subject.now)) }
{
    match subject {
        Subject::Unconfined => push_text(out, "unconfined"),
        Subject::Profile(name) => push_at_profile(out, alloc, name.as_slice()),
        Subject::Others => push_text(out, "other labels"),
    }
}

/// What helps where there is too much of something.
fn help_text(why: Excess) -> &'static str
    ensures { result.now ≡ help_text why }
{
    match why {
        Excess::Patterns => "",
        Excess::States => "; --states allows more",
    }
}

/// Appends who isn't compared, and why, as a fault.
#[tactic(auto, unfolding(crate::specs::UntoldShown::large_fault))]
fn push_large_fault(out: &mut Vec<u8>, alloc: Global, one: &TooLarge) -> Result<(), AllocError>
    ensures { OnOk result (out.new.items ≡ out.old.items ++ large_fault (large one.now)) }
{
    push_text(out, "error: at ")?;
    push_at(out, alloc, &one.subject)?;
    push_text(out, " ")?;
    push_excess(out, one.why, one.limit)?;
    push_text(out, help_text(one.why))?;
    push_text(out, "\n")
}

/// Appends those who aren't compared, and why, as faults.
pub(crate) fn push_large_faults(
    out: &mut Vec<u8>,
    alloc: Global,
    too_large: &[TooLarge],
) -> Result<(), AllocError>
    ensures { OnOk result (out.new.items ≡ out.old.items ++ flat_map large_fault (map large too_large.now)) }
{
    for one in too_large {
        push_large_fault(out, alloc, one)?;
    }
    Ok(())
}

/// How many files there are on both sides.
pub(crate) fn count_of(old: &[SkippedAt], new: &[SkippedAt]) -> usize
    ensures { result ≡ length (placed_all old.now) + length (placed_all new.now) }
{
    old.len() + new.len()
}

/// Appends how many files are skipped, where some are.
pub(crate) fn push_skipped(out: &mut Vec<u8>, doubts: &Doubts) -> Result<(), AllocError>
    ensures { OnOk result (out.new.items ≡ out.old.items ++ skipped_text (doubts_data doubts.now)) }
{
    push_skipped_count(out, count_of(doubts.old.as_slice(), doubts.new.as_slice()))
}

fn push_json_who(out: &mut Vec<u8>, alloc: Global, subject: &Subject) -> Result<(), AllocError>
    ensures { OnOk result (out.new.items ≡ out.old.items ++ json_who (about subject.now)) }
{
    match subject {
        Subject::Profile(name) => push_json_bytes(out, alloc, name.as_slice()),
        _ => push_text(out, "null"),
    }
}

/// Appends the member of some files.
fn push_member_of(
    out: &mut Vec<u8>,
    alloc: Global,
    key: &str,
    files: &[SkippedAt],
) -> Result<(), AllocError>
    ensures { OnOk result (out.new.items ≡ out.old.items ++ member_text key.now (list_text (map json_placed (placed_all files.now)))) }
{
    push_list_member(out, alloc, key, files)?;
    Ok(())
}

/// Appends the files of each side, as members.
#[tactic(auto, unfolding(crate::specs::UntoldShown::json_files))]
fn push_json_files(
    out: &mut Vec<u8>,
    alloc: Global,
    old: &[SkippedAt],
    new: &[SkippedAt],
) -> Result<(), AllocError>
    ensures { OnOk result (out.new.items ≡ out.old.items ++ json_files (placed_all old.now) (placed_all new.now)) }
{
    push_member_of(out, alloc, "old", old)?;
    push_member_of(out, alloc, "new", new)
}

impl ToJson for Doubt {
    ghost use Rattle.aa_diff.specs.Untold.{untold};
    ghost use Rattle.aa_diff.specs.UntoldShown.{json_untold};

    ghost json = { λ doubt. json_untold (untold doubt) };

    #[tactic(auto, unfolding(crate::specs::UntoldShown::json_untold))]
    fn push_json(&self, out: &mut Vec<u8>, alloc: Global) -> Result<(), AllocError> {
        push_text(out, "{")?;
        push_key(out, "profile")?;
        push_json_who(out, alloc, &self.subject)?;
        push_json_files(out, alloc, self.old.as_slice(), self.new.as_slice())?;
        push_text(out, "}")
    }
}

impl ToJson for TooLarge {
    ghost use Rattle.aa_diff.specs.Untold.{large};
    ghost use Rattle.aa_diff.specs.UntoldShown.{json_large};

    ghost json = { λ x. json_large (large x) };

    fn push_json(&self, out: &mut Vec<u8>, alloc: Global) -> Result<(), AllocError> {
        push_json_who(out, alloc, &self.subject)
    }
}

fn push_large_list(
    out: &mut Vec<u8>,
    alloc: Global,
    too_large: &[TooLarge],
) -> Result<(), AllocError>
    ensures { OnOk result (out.new.items ≡ out.old.items ++ member_text (codes "untold") (list_text (map json_large (map large too_large.now)))) }
{
    push_list_member(out, alloc, "untold", too_large)?;
    Ok(())
}

/// Appends a member with those whose patterns are too many, if there are some.
fn push_large_member(
    out: &mut Vec<u8>,
    alloc: Global,
    too_large: &[TooLarge],
) -> Result<(), AllocError>
    ensures { OnOk result (out.new.items ≡ out.old.items ++ json_all_large (map large too_large.now)) }
{
    match too_large {
        [] => Ok(()),
        [_, ..] => push_large_list(out, alloc, too_large),
    }
}

fn push_doubts_member(
    out: &mut Vec<u8>,
    alloc: Global,
    key: &str,
    doubts: &[Doubt],
) -> Result<(), AllocError>
    ensures { OnOk result (out.new.items ≡ out.old.items ++ member_text key.now (list_text (map json_untold (map untold doubts.now)))) }
{
    push_list_member(out, alloc, key, doubts)?;
    Ok(())
}

fn push_list_of(out: &mut Vec<u8>, alloc: Global, files: &[SkippedAt]) -> Result<(), AllocError>
    ensures { OnOk result (out.new.items ≡ out.old.items ++ list_text (map json_placed (placed_all files.now))) }
{
    push_list(out, alloc, files)?;
    Ok(())
}

/// Appends the files that are skipped: those of the old side, and those of the new one.
#[tactic(auto, unfolding(crate::specs::UntoldShown::json_skipped))]
fn push_json_skipped(
    out: &mut Vec<u8>,
    alloc: Global,
    old: &[SkippedAt],
    new: &[SkippedAt],
) -> Result<(), AllocError>
    ensures { OnOk result (out.new.items ≡ out.old.items ++ json_skipped (placed_all old.now) (placed_all new.now)) }
{
    push_text(out, "{")?;
    push_key(out, "old")?;
    push_list_of(out, alloc, old)?;
    push_member_of(out, alloc, "new", new)?;
    push_text(out, "}")
}

#[tactic(auto, unfolding(aa_text::specs::Jsons::member_text))]
fn push_skipped_member(
    out: &mut Vec<u8>,
    alloc: Global,
    old: &[SkippedAt],
    new: &[SkippedAt],
) -> Result<(), AllocError>
    ensures { OnOk result (out.new.items ≡ out.old.items ++ member_text (codes "skipped") (json_skipped (placed_all old.now) (placed_all new.now))) }
{
    push_next_key(out, "skipped")?;
    push_json_skipped(out, alloc, old, new)
}

/// Appends all that isn't told, as members.
#[tactic(auto, unfolding(crate::specs::UntoldShown::json_all_untold))]
pub(crate) fn push_json_untold(
    out: &mut Vec<u8>,
    alloc: Global,
    doubts: &Doubts,
) -> Result<(), AllocError>
    ensures { OnOk result (out.new.items ≡ out.old.items ++ json_all_untold (doubts_data doubts.now)) }
{
    push_doubts_member(out, alloc, "undecided", doubts.undecided.as_slice())?;
    push_doubts_member(out, alloc, "not_compared", doubts.not_compared.as_slice())?;
    push_large_member(out, alloc, doubts.too_large.as_slice())?;
    push_skipped_member(out, alloc, doubts.old.as_slice(), doubts.new.as_slice())
}
