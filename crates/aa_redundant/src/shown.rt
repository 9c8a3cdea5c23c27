//! Redundant rules as they are printed.

ghost use Rattle.std.specs.Prelude.{◌≡◌, ◌++◌, map, flat_map, OnOk};
ghost use Rattle.aa_redundant.specs.Told.{telling, explaining};
ghost use Rattle.aa_redundant.specs.Shown.{line_by, rule_line, line_of, other_line, reason_word, reason_lines, explained_lines, count_line, further_place, why_text, finding_text, gcc_line, gcc_lines, undecided_lines, rules_text};

use crate::explained::ExplainedRule;
use crate::told::ToldRule;
use aa_text::{push_number, push_text, push_visible, push_where};
use std::alloc::AllocError;

/// Appends a rule in a line without its end: `PLACE: WORD: RULE`.
#[tactic(auto, unfolding(crate::specs::Shown::line_by))]
fn push_line_by(out: &mut Vec<u8>, word: &str, rule: &ToldRule) -> Result<(), AllocError>
    ensures { OnOk result (out.new.items ≡ out.old.items ++ line_by word.now (telling rule.now)) }
{
    push_where(out, rule.path.as_slice(), rule.place)?;
    push_text(out, ": ")?;
    push_text(out, word)?;
    push_text(out, ": ")?;
    push_visible(out, rule.text.as_slice())
}

/// Appends the line of a redundant rule, without its end.
pub(crate) fn push_line_of(out: &mut Vec<u8>, rule: &ToldRule) -> Result<(), AllocError>
    ensures { OnOk result (out.new.items ≡ out.old.items ++ line_of (telling rule.now)) }
{
    push_line_by(out, "redundant", rule)
}

fn push_line(out: &mut Vec<u8>, word: &str, rule: &ToldRule) -> Result<(), AllocError>
    ensures { OnOk result (out.new.items ≡ out.old.items ++ rule_line word.now (telling rule.now)) }
{
    push_line_by(out, word, rule)?;
    push_text(out, "\n")
}

fn push_each(out: &mut Vec<u8>, word: &str, rules: &[ToldRule]) -> Result<(), AllocError>
    ensures { OnOk result (out.new.items ≡ out.old.items ++ flat_map (rule_line word.now) (map telling rules.now)) }
{
    for rule in rules {
        push_line(out, word, rule)?;
    }
    Ok(())
}

/// Appends one of the other rules in a line: `WORD PLACE: RULE`, indented.
#[tactic(auto, unfolding(crate::specs::Shown::other_line))]
fn push_other(out: &mut Vec<u8>, word: &str, rule: &ToldRule) -> Result<(), AllocError>
    ensures { OnOk result (out.new.items ≡ out.old.items ++ other_line word.now (telling rule.now)) }
{
    push_text(out, "    ")?;
    push_text(out, word)?;
    push_text(out, " ")?;
    push_where(out, rule.path.as_slice(), rule.place)?;
    push_text(out, ": ")?;
    push_visible(out, rule.text.as_slice())?;
    push_text(out, "\n")
}

fn push_others(out: &mut Vec<u8>, word: &str, rules: &[ToldRule]) -> Result<(), AllocError>
    ensures { OnOk result (out.new.items ≡ out.old.items ++ flat_map (other_line word.now) (map telling rules.now)) }
{
    for rule in rules {
        push_other(out, word, rule)?;
    }
    Ok(())
}

fn reason_word(is_covered: bool) -> &'static str
    ensures { result.now ≡ reason_word is_covered }
{
    if is_covered {
        "covered by"
    } else {
        "overruled by"
    }
}

/// Appends beside which other rules a rule changes nothing.
fn push_reason(out: &mut Vec<u8>, is_covered: bool, others: &[ToldRule]) -> Result<(), AllocError>
    ensures { OnOk result (out.new.items ≡ out.old.items ++ reason_lines is_covered (map telling others.now)) }
{
    if others.is_empty() {
        return push_text(out, "    matches nothing that can be asked for\n");
    }
    push_others(out, reason_word(is_covered), others)
}

/// Appends a redundant rule, and why.
fn push_explained(out: &mut Vec<u8>, rule: &ExplainedRule) -> Result<(), AllocError>
    ensures { OnOk result (out.new.items ≡ out.old.items ++ explained_lines (explaining rule.now)) }
{
    push_line(out, "redundant", &rule.rule)?;
    push_reason(out, rule.is_covered, rule.others.as_slice())
}

fn push_each_explained(out: &mut Vec<u8>, rules: &[ExplainedRule]) -> Result<(), AllocError>
    ensures { OnOk result (out.new.items ≡ out.old.items ++ flat_map explained_lines (map explaining rules.now)) }
{
    for rule in rules {
        push_explained(out, rule)?;
    }
    Ok(())
}

/// Appends the place of one more of the others.
#[tactic(auto, unfolding(crate::specs::Shown::further_place))]
fn push_further(out: &mut Vec<u8>, rule: &ToldRule) -> Result<(), AllocError>
    ensures { OnOk result (out.new.items ≡ out.old.items ++ further_place (telling rule.now)) }
{
    push_text(out, ", ")?;
    push_where(out, rule.path.as_slice(), rule.place)
}

fn push_each_further(out: &mut Vec<u8>, rules: &[ToldRule]) -> Result<(), AllocError>
    ensures { OnOk result (out.new.items ≡ out.old.items ++ flat_map further_place (map telling rules.now)) }
{
    for rule in rules {
        push_further(out, rule)?;
    }
    Ok(())
}

/// Appends why a rule is redundant, in words.
fn push_why(out: &mut Vec<u8>, is_covered: bool, others: &[ToldRule]) -> Result<(), AllocError>
    ensures { OnOk result (out.new.items ≡ out.old.items ++ why_text is_covered (map telling others.now)) }
{
    match others {
        [] => push_text(out, "matches nothing that can be asked for"),
        [rule, more @ ..] => {
            push_text(out, reason_word(is_covered))?;
            push_text(out, " ")?;
            push_where(out, rule.path.as_slice(), rule.place)?;
            push_each_further(out, more)
        }
    }
}

/// Appends why a rule is redundant, and how it reads.
#[tactic(auto, unfolding(crate::specs::Shown::finding_text))]
pub(crate) fn push_finding(out: &mut Vec<u8>, rule: &ExplainedRule) -> Result<(), AllocError>
    ensures { OnOk result (out.new.items ≡ out.old.items ++ finding_text (explaining rule.now)) }
{
    push_why(out, rule.is_covered, rule.others.as_slice())?;
    push_text(out, ": ")?;
    push_visible(out, rule.rule.text.as_slice())
}

/// Appends a redundant rule in a line, as a compiler writes it: `PLACE: warning: WHY: RULE [redundant]`.
#[tactic(auto, unfolding(crate::specs::Shown::gcc_line))]
fn push_gcc_line(out: &mut Vec<u8>, rule: &ExplainedRule) -> Result<(), AllocError>
    ensures { OnOk result (out.new.items ≡ out.old.items ++ gcc_line (explaining rule.now)) }
{
    push_where(out, rule.rule.path.as_slice(), rule.rule.place)?;
    push_text(out, ": warning: ")?;
    push_finding(out, rule)?;
    push_text(out, " [redundant]\n")
}

/// Appends the rules that can go by themselves, as a compiler writes them.
pub(crate) fn push_gcc_lines(out: &mut Vec<u8>, rules: &[ExplainedRule]) -> Result<(), AllocError>
    ensures { OnOk result (out.new.items ≡ out.old.items ++ gcc_lines (map explaining rules.now)) }
{
    for rule in rules {
        push_gcc_line(out, rule)?;
    }
    Ok(())
}

/// Appends how many rules are redundant, and how many of these may go together.
#[tactic(auto, unfolding(crate::specs::Shown::count_line))]
fn push_count(out: &mut Vec<u8>, redundant: usize, going: usize) -> Result<(), AllocError>
    ensures { OnOk result (out.new.items ≡ out.old.items ++ count_line redundant going) }
{
    push_number(out, redundant)?;
    push_text(out, " redundant rules, of which ")?;
    push_number(out, going)?;
    push_text(out, " may go together\n")
}

/// Appends a rule that may lead to a profile of a skipped file.
fn push_undecided(out: &mut Vec<u8>, rule: &ToldRule) -> Result<(), AllocError>
    ensures { OnOk result (out.new.items ≡ out.old.items ++ undecided_lines (telling rule.now)) }
{
    push_line(out, "undecided", rule)?;
    push_text(out, "    may lead to a profile of a skipped file\n")
}

fn push_each_undecided(out: &mut Vec<u8>, rules: &[ToldRule]) -> Result<(), AllocError>
    ensures { OnOk result (out.new.items ≡ out.old.items ++ flat_map undecided_lines (map telling rules.now)) }
{
    for rule in rules {
        push_undecided(out, rule)?;
    }
    Ok(())
}

/// Appends the rules that can go by themselves, those that may lead to profiles of skipped files, those that can go together, and how
/// many can.
pub(crate) fn push_rules(
    out: &mut Vec<u8>,
    redundant: &[ExplainedRule],
    undecided: &[ToldRule],
    going: &[ToldRule],
) -> Result<(), AllocError>
    ensures { OnOk result (out.new.items ≡ out.old.items ++ rules_text (map explaining redundant.now) (map telling undecided.now) (map telling going.now)) }
{
    push_each_explained(out, redundant)?;
    push_each_undecided(out, undecided)?;
    push_each(out, "may go", going)?;
    push_count(out, redundant.len(), going.len())
}
