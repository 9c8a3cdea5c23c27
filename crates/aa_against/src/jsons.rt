//! The same as one JSON object.

ghost use Rattle.std.specs.Prelude.{◌≡◌, ◌++◌, map, OnOk, IfOk};
ghost use Rattle.aa_text.specs.Jsons.{list_text};
ghost use Rattle.aa_log.specs.declared.logging.Entry.{Entry};
ghost use Rattle.aa_log.specs.Against.{IsNewlyDenied, AreCounted, json_answers};
ghost use Rattle.aa_log.specs.Listed.{json_rest};
ghost use Rattle.aa_against.specs.Parted.{open_data};
ghost use Rattle.aa_against.specs.Texts.{json_open, json_opens};

use crate::parting::{Open, Parted};
use aa_command::Decided;
use aa_log::{
    SaidReport, SkippedLines, push_entry_members, push_json_answers, push_json_rest,
    push_word_member,
};
use aa_logs::Counts;
use aa_text::{ListItem, push_comma, push_list_in, push_next_key, push_text};
use aa_undecided::push_files_member;
use std::alloc::{AllocError, Global};

/// The context is the paths of the logs.
impl<'l> ListItem<&'l [&'l [u8]]> for Open<'_> {
    ghost use Rattle.std.specs.Prelude.{true, map};
    ghost use Rattle.aa_against.specs.Parted.{open_data};
    ghost use Rattle.aa_against.specs.Texts.{json_open};

    ghost stands = { λ logs one. true };

    ghost item = { λ logs one. json_open (map (λ log. log.now) logs.now) (open_data one) };

    fn stands(&self, _logs: &&'l [&'l [u8]]) -> bool {
        true
    }

    #[tactic(auto, unfolding(crate::specs::Texts::json_open))]
    fn push_item(
        &self,
        out: &mut Vec<u8>,
        alloc: Global,
        logs: &&'l [&'l [u8]],
    ) -> Result<(), AllocError> {
        push_text(out, "{")?;
        push_entry_members(out, alloc, *logs, self.entry)?;
        push_comma(out, true)?;
        push_word_member(out, "now", "UNDECIDED")?;
        push_files_member(out, alloc, self.files.as_slice())?;
        push_text(out, "}")
    }
}

fn push_open_list(
    out: &mut Vec<u8>,
    alloc: Global,
    logs: &[&[u8]],
    opens: &[Open<'_>],
) -> Result<(), AllocError>
    ensures { OnOk result (out.new.items ≡ out.old.items ++ list_text (map (json_open (map (λ log. log.now) logs.now)) (map open_data opens.now))) }
{
    push_list_in(out, alloc, &logs, opens)?;
    Ok(())
}

/// Appends a comma and the member of the requests that are undecided.
#[tactic(auto, unfolding(aa_text::specs::Jsons::member_text))]
fn push_opens(
    out: &mut Vec<u8>,
    alloc: Global,
    logs: &[&[u8]],
    opens: &[Open<'_>],
) -> Result<(), AllocError>
    ensures { OnOk result (out.new.items ≡ out.old.items ++ json_opens (map (λ log. log.now) logs.now) (map open_data opens.now)) }
{
    push_next_key(out, "undecided")?;
    push_open_list(out, alloc, logs, opens)
}

/// Appends the members of requests that are parted, and of what else the logs have.
pub(crate) fn push_json_part(
    out: &mut Vec<u8>,
    alloc: Global,
    logs: &[&[u8]],
    said: &SaidReport<'_>,
    decided: Decided<'_>,
    wants_all: bool,
    parted: &Parted<'_>,
    reasons: &[&SkippedLines],
) -> Result<Counts, AllocError>
    ensures newly { IfOk result (λ counts. IsNewlyDenied decided.entry (map (λ e. e.now) parted.now.decided.items) counts) }
    ensures counted { IfOk result (λ counts. AreCounted decided.entry (map (λ e. e.now) parted.now.decided.items) counts) }
    ensures text { IfOk result (λ counts. out.new.items ≡ out.old.items ++ (json_answers (map (λ log. log.now) logs.now) decided.entry wants_all (map (λ e. e.now) parted.now.decided.items) counts
        ++ json_opens (map (λ log. log.now) logs.now) (map open_data parted.now.opens.items) ++ json_rest (map (λ log. log.now) logs.now) (map (λ s. s.now) reasons.now) said.now)) }
{
    let entries = parted.decided.as_slice();
    let counts = push_json_answers(out, alloc, logs, decided, wants_all, entries)?;
    push_opens(out, alloc, logs, parted.opens.as_slice())?;
    push_json_rest(out, alloc, logs, reasons, said)?;
    Ok(counts)
}
