//! Answers as they are printed in JSON.

ghost use Rattle.std.specs.Prelude.{◌≡◌, ◌++◌, codes, map, OnOk};
ghost use Rattle.aa_text.specs.Jsons.{member_text, list_text};
ghost use Rattle.aa_undecided.specs.Answers.{placed_all, answered};
ghost use Rattle.aa_undecided.specs.Jsons.{json_placed, json_doubt, json_of, json_answers};

use crate::answered::{Answered, Doubt, SkippedAt};
use aa_ask::push_request;
use aa_text::{
    ToJson, push_comma, push_json_bytes, push_json_place, push_key, push_list, push_list_member,
    push_next_key, push_text,
};
use std::alloc::{AllocError, Global};

#[tactic(auto, unfolding(aa_text::specs::Jsons::member_text))]
fn push_not_known(out: &mut Vec<u8>) -> Result<(), AllocError>
    ensures { OnOk result (out.new.items ≡ out.old.items ++ member_text (codes "granted") (codes "null")) }
{
    push_next_key(out, "granted")?;
    push_text(out, "null")
}

impl ToJson for SkippedAt {
    ghost use Rattle.aa_undecided.specs.Answers.{placed_data};
    ghost use Rattle.aa_undecided.specs.Jsons.{json_placed};

    ghost json = { λ file. json_placed (placed_data file) };

    #[tactic(auto, unfolding(crate::specs::Jsons::json_placed))]
    fn push_json(&self, out: &mut Vec<u8>, alloc: Global) -> Result<(), AllocError> {
        push_text(out, "{")?;
        push_key(out, "file")?;
        push_json_bytes(out, alloc, self.path.as_slice())?;
        push_comma(out, true)?;
        push_json_place(out, alloc, self.at.as_slice(), self.place)?;
        push_text(out, "}")
    }
}

/// Appends a comma and the member of the skipped files that could decide.
pub fn push_files_member(
    out: &mut Vec<u8>,
    alloc: Global,
    files: &[SkippedAt],
) -> Result<(), AllocError>
    ensures { OnOk result (out.new.items ≡ out.old.items ++ member_text (codes "skipped") (list_text (map json_placed (placed_all files.now)))) }
{
    push_list_member(out, alloc, "skipped", files)?;
    Ok(())
}

#[tactic(auto, unfolding(crate::specs::Jsons::json_doubt))]
fn push_doubt(out: &mut Vec<u8>, alloc: Global, doubt: &Doubt) -> Result<(), AllocError>
    ensures { OnOk result (out.new.items ≡ out.old.items ++ json_doubt (record { word = doubt.now.word.items; files = placed_all doubt.now.files.items })) }
{
    push_request(out, alloc, doubt.word.as_slice())?;
    push_not_known(out)?;
    push_files_member(out, alloc, doubt.files.as_slice())?;
    push_text(out, "}")
}

impl ToJson for Answered {
    ghost use Rattle.aa_undecided.specs.Answers.{answered};
    ghost use Rattle.aa_undecided.specs.Jsons.{json_of};

    ghost json = { λ answer. json_of (answered answer) };

    fn push_json(&self, out: &mut Vec<u8>, alloc: Global) -> Result<(), AllocError> {
        match self {
            Answered::Decided(verdict) => verdict.push_json(out, alloc),
            Answered::Undecided(doubt) => push_doubt(out, alloc, doubt),
        }
    }
}

fn push_all(out: &mut Vec<u8>, alloc: Global, answers: &[Answered]) -> Result<(), AllocError>
    ensures { OnOk result (out.new.items ≡ out.old.items ++ list_text (map json_of (map answered answers.now))) }
{
    push_list(out, alloc, answers)?;
    Ok(())
}

/// Appends the answers as one JSON list and a line end.
pub(crate) fn push_json_answers(
    out: &mut Vec<u8>,
    alloc: Global,
    answers: &[Answered],
) -> Result<(), AllocError>
    ensures { OnOk result (out.new.items ≡ out.old.items ++ json_answers (map answered answers.now)) }
{
    push_all(out, alloc, answers)?;
    push_text(out, "\n")
}
