//! Verdicts as they are printed.

ghost use Rattle.std.specs.Prelude.{◌≡◌, ◌++◌, codes, map, flat_map, option_map, OnOk};
ghost use Rattle.aa_base.specs.Values.{value};
ghost use Rattle.aa_text.specs.Visible.{all_visible};
ghost use Rattle.aa_ask.specs.Named.{named, lacked};
ghost use Rattle.aa_ask.specs.Told.{told};
ghost use Rattle.aa_ask.specs.Shown.{target_mark, decider_verb, behind_space, letters_or_it, decider_place, decider_line, lack_line, unfound_line, reasons_text, verdict_word, asker_mark, label_mark, scrub_mark, complain_mark, head_line, verdict_text};

use crate::explained::{DeciderLine, Lack};
use crate::verdict::Verdict;
use aa_text::{push_name, push_text, push_visible, push_where};
use std::alloc::{AllocError, Global};

fn push_target(out: &mut Vec<u8>, is_target: bool) -> Result<(), AllocError>
    ensures { OnOk result (out.new.items ≡ out.old.items ++ target_mark is_target) }
{
    push_text(out, if is_target { "target: " } else { "" })
}

/// Appends what stands before each reason.
fn push_indent(out: &mut Vec<u8>, is_target: bool) -> Result<(), AllocError>
    ensures { OnOk result (out.new.items ≡ out.old.items ++ (codes "    " ++ target_mark is_target)) }
{
    push_text(out, "    ")?;
    push_target(out, is_target)
}

fn push_verb(out: &mut Vec<u8>, denies: bool) -> Result<(), AllocError>
    ensures { OnOk result (out.new.items ≡ out.old.items ++ decider_verb denies) }
{
    push_text(out, if denies { ": denies" } else { ": allows" })
}

/// Appends a space and letters, where there are some.
pub fn push_behind_space(out: &mut Vec<u8>, letters: &[u8]) -> Result<(), AllocError>
    ensures { OnOk result (out.new.items ≡ out.old.items ++ behind_space letters.now) }
{
    if letters.is_empty() {
        return Ok(());
    }
    push_text(out, " ")?;
    out.extend_from_slice(letters)
}

/// Appends where a rule stands that decided, and how it decided.
#[tactic(auto, unfolding(crate::specs::Shown::decider_place))]
fn push_decider_place(out: &mut Vec<u8>, line: &DeciderLine) -> Result<(), AllocError>
    ensures { OnOk result (out.new.items ≡ out.old.items ++ decider_place (named line.now)) }
{
    push_indent(out, line.is_target)?;
    push_where(out, line.path.as_slice(), line.place)?;
    push_verb(out, line.denies)
}

/// Appends which letters a rule decided, and the line that it stands on.
fn push_rule(out: &mut Vec<u8>, letters: &[u8], text: &[u8]) -> Result<(), AllocError>
    ensures { OnOk result (out.new.items ≡ out.old.items ++ (behind_space letters.now ++ (codes ": " ++ (all_visible text.now ++ codes "\n")))) }
{
    push_behind_space(out, letters)?;
    push_text(out, ": ")?;
    push_visible(out, text)?;
    push_text(out, "\n")
}

#[tactic(auto, unfolding(crate::specs::Shown::decider_line))]
fn push_line(out: &mut Vec<u8>, line: &DeciderLine) -> Result<(), AllocError>
    ensures { OnOk result (out.new.items ≡ out.old.items ++ decider_line (named line.now)) }
{
    push_decider_place(out, line)?;
    push_rule(out, line.letters.as_slice(), line.text.as_slice())
}

/// Appends letters, or `it` where there are none.
fn push_lacking(out: &mut Vec<u8>, letters: &[u8]) -> Result<(), AllocError>
    ensures { OnOk result (out.new.items ≡ out.old.items ++ letters_or_it letters.now) }
{
    if letters.is_empty() {
        push_text(out, "it")
    } else {
        out.extend_from_slice(letters)
    }
}

#[tactic(auto, unfolding(crate::specs::Shown::lack_line))]
fn push_lack(out: &mut Vec<u8>, lack: &Lack) -> Result<(), AllocError>
    ensures { OnOk result (out.new.items ≡ out.old.items ++ lack_line (lacked lack.now)) }
{
    push_indent(out, lack.is_target)?;
    push_text(out, "no rule allows ")?;
    push_lacking(out, lack.letters.as_slice())?;
    push_text(out, "\n")
}

fn push_unfound(out: &mut Vec<u8>, what: Option<&'static str>) -> Result<(), AllocError>
    ensures { OnOk result (out.new.items ≡ out.old.items ++ unfound_line (option_map (λ w. w.now) what.entry)) }
{
    let Some(what) = what else {
        return Ok(());
    };
    push_text(out, "    ")?;
    push_text(out, what)?;
    push_text(out, "\n")
}

fn push_lines(out: &mut Vec<u8>, lines: &[DeciderLine]) -> Result<(), AllocError>
    ensures { OnOk result (out.new.items ≡ out.old.items ++ flat_map decider_line (map named lines.now)) }
{
    for line in lines {
        push_line(out, line)?;
    }
    Ok(())
}

fn push_lacks(out: &mut Vec<u8>, lacking: &[Lack]) -> Result<(), AllocError>
    ensures { OnOk result (out.new.items ≡ out.old.items ++ flat_map lack_line (map lacked lacking.now)) }
{
    for lack in lacking {
        push_lack(out, lack)?;
    }
    Ok(())
}

/// Appends why a request was answered so, a line for each reason.
#[tactic(auto, unfolding(crate::specs::Shown::reasons_text))]
pub fn push_reasons(out: &mut Vec<u8>, verdict: &Verdict) -> Result<(), AllocError>
    ensures { OnOk result (out.new.items ≡ out.old.items ++ reasons_text (told verdict.now)) }
{
    push_lines(out, verdict.deciders.as_slice())?;
    push_lacks(out, verdict.lacking.as_slice())?;
    push_unfound(out, verdict.unfound)
}

fn push_word(out: &mut Vec<u8>, granted: bool) -> Result<(), AllocError>
    ensures { OnOk result (out.new.items ≡ out.old.items ++ verdict_word granted) }
{
    push_text(out, if granted { "granted " } else { "denied " })
}

/// Appends a profile's name, and a space.
fn push_asker_name(out: &mut Vec<u8>, alloc: Global, name: &[u8]) -> Result<(), AllocError>
    ensures { OnOk result (out.new.items ≡ out.old.items ++ (value name.now ++ codes " ")) }
{
    push_name(out, alloc, name)?;
    push_text(out, " ")
}

/// Appends who asks, where that isn't told by the command line.
fn push_asker(
    out: &mut Vec<u8>,
    alloc: Global,
    names_askers: bool,
    asker: &Option<Vec<u8>>,
) -> Result<(), AllocError>
    ensures { OnOk result (out.new.items ≡ out.old.items ++ asker_mark names_askers (option_map (λ name. name.items) asker.now)) }
{
    let Some(name) = asker else {
        return push_text(out, "unconfined ");
    };
    if !names_askers {
        return Ok(());
    }
    push_asker_name(out, alloc, name.as_slice())
}

/// Appends the label after, where it is another one.
fn push_label(out: &mut Vec<u8>, alloc: Global, label: &Option<Vec<u8>>) -> Result<(), AllocError>
    ensures { OnOk result (out.new.items ≡ out.old.items ++ label_mark (option_map (λ name. name.items) label.now)) }
{
    let Some(label) = label else {
        return Ok(());
    };
    push_text(out, " label=")?;
    push_name(out, alloc, label.as_slice())
}

fn push_scrub(out: &mut Vec<u8>, scrub: bool) -> Result<(), AllocError>
    ensures { OnOk result (out.new.items ≡ out.old.items ++ scrub_mark scrub) }
{
    push_text(out, if scrub { " scrub" } else { "" })
}

fn push_complain(out: &mut Vec<u8>, complain: bool) -> Result<(), AllocError>
    ensures { OnOk result (out.new.items ≡ out.old.items ++ complain_mark complain) }
{
    push_text(out, if complain { " complain" } else { "" })
}

/// Appends what became of a request, who asked it, and the request.
fn push_answer(
    out: &mut Vec<u8>,
    alloc: Global,
    names_askers: bool,
    verdict: &Verdict,
) -> Result<(), AllocError>
    ensures { OnOk result (out.new.items ≡ out.old.items ++ (verdict_word verdict.now.granted ++ (asker_mark names_askers (option_map (λ name. name.items) verdict.now.asker) ++ verdict.now.word.items))) }
{
    push_word(out, verdict.granted)?;
    push_asker(out, alloc, names_askers, &verdict.asker)?;
    out.extend_from_slice(verdict.word.as_slice())
}

/// Appends the marks of an answer, and ends its line.
fn push_marks(out: &mut Vec<u8>, scrub: bool, complain: bool) -> Result<(), AllocError>
    ensures { OnOk result (out.new.items ≡ out.old.items ++ (scrub_mark scrub ++ (complain_mark complain ++ codes "\n"))) }
{
    push_scrub(out, scrub)?;
    push_complain(out, complain)?;
    push_text(out, "\n")
}

/// Appends the answer in one line.
#[tactic(auto, unfolding(crate::specs::Shown::head_line))]
fn push_head(
    out: &mut Vec<u8>,
    alloc: Global,
    names_askers: bool,
    verdict: &Verdict,
) -> Result<(), AllocError>
    ensures { OnOk result (out.new.items ≡ out.old.items ++ head_line names_askers (told verdict.now)) }
{
    push_answer(out, alloc, names_askers, verdict)?;
    push_label(out, alloc, &verdict.label)?;
    push_marks(out, verdict.scrub, verdict.complain)
}

/// Appends the answer with its reasons. It tells who asked where the task isn't confined, and where names of askers are wanted.
pub fn push_verdict(
    out: &mut Vec<u8>,
    alloc: Global,
    names_askers: bool,
    verdict: &Verdict,
) -> Result<(), AllocError>
    ensures { OnOk result (out.new.items ≡ out.old.items ++ verdict_text names_askers (told verdict.now)) }
{
    push_head(out, alloc, names_askers, verdict)?;
    push_reasons(out, verdict)
}

/// Appends each answer with its reasons. It tells who asked where the task isn't confined, and where names of askers are wanted.
pub fn push_verdicts(
    out: &mut Vec<u8>,
    alloc: Global,
    names_askers: bool,
    verdicts: &[Verdict],
) -> Result<(), AllocError>
    ensures { OnOk result (out.new.items ≡ out.old.items ++ flat_map (verdict_text names_askers) (map told verdicts.now)) }
{
    for verdict in verdicts {
        push_verdict(out, alloc, names_askers, verdict)?;
    }
    Ok(())
}
