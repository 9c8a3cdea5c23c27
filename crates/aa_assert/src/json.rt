//! Answers as they are printed in JSON.

ghost use Rattle.std.specs.Prelude.{◌≡◌, ◌++◌, codes, map, option_map, OnOk};
ghost use Rattle.aa_text.specs.Jsons.{key_text, json_bytes, member_text, list_text};
ghost use Rattle.aa_ask.specs.Told.{told};
ghost use Rattle.aa_who.specs.Untold.{json_asker};
ghost use Rattle.aa_undecided.specs.Answers.{placed_all};
ghost use Rattle.aa_assert.specs.Findings.{found, ByRequest, ByWay, Complaining};
ghost use Rattle.aa_assert.specs.Passages.{way_in};
ghost use Rattle.aa_assert.specs.Answers.{answered};
ghost use Rattle.aa_assert.specs.Json.{json_whose, json_found, json_broken, json_answer, json_answers};

use crate::answering::Answer;
use crate::finding::Finding;
use crate::shown::files_open;
use crate::unclean::push_apart_member;
use crate::way::Way;
use aa_ask::Verdict;
use aa_text::{
    ToJson, push_json_bytes, push_key, push_list, push_list_member, push_member, push_next_key,
    push_number, push_text,
};
use aa_undecided::{SkippedAt, push_files_member};
use aa_who::push_untold_member;
use std::alloc::{AllocError, Global};

/// Appends the full name of a profile, or `null`.
fn push_asker(out: &mut Vec<u8>, alloc: Global, name: Option<&[u8]>) -> Result<(), AllocError>
    ensures { OnOk result (out.new.items ≡ out.old.items ++ json_asker (option_map (λ n. n.now) name.entry)) }
{
    match name {
        Some(name) => push_json_bytes(out, alloc, name),
        None => push_text(out, "null"),
    }
}

/// Opens an object with whose it is, and whether the profile complains.
#[tactic(auto, unfolding(crate::specs::Json::json_whose))]
fn push_whose(
    out: &mut Vec<u8>,
    alloc: Global,
    name: Option<&[u8]>,
    complains: bool,
) -> Result<(), AllocError>
    ensures { OnOk result (out.new.items ≡ out.old.items ++ json_whose (option_map (λ n. n.now) name.entry) complains) }
{
    push_text(out, "{")?;
    push_key(out, "profile")?;
    push_asker(out, alloc, name)?;
    push_member(out, alloc, "complains", &complains)
}

/// The name, borrowed.
fn name_in(asker: &Option<Vec<u8>>) -> Option<&[u8]>
    ensures { option_map (λ n. n.now) result ≡ option_map (λ name. name.items) asker.now }
{
    match asker {
        Some(name) => Some(name.as_slice()),
        None => None,
    }
}

#[tactic(auto, unfolding(crate::specs::Json::json_found))]
fn push_verdict(
    out: &mut Vec<u8>,
    alloc: Global,
    complains: bool,
    verdict: &Verdict,
) -> Result<(), AllocError>
    ensures { OnOk result (out.new.items ≡ out.old.items ++ json_found (ByRequest complains (told verdict.now))) }
{
    push_whose(out, alloc, name_in(&verdict.asker), complains)?;
    push_member(out, alloc, "as", verdict)?;
    push_text(out, "}")
}

fn push_words(out: &mut Vec<u8>, alloc: Global, words: &[Vec<u8>]) -> Result<(), AllocError>
    ensures { OnOk result (out.new.items ≡ out.old.items ++ member_text (codes "by") (list_text (map json_bytes (map (λ w. w.items) words.now)))) }
{
    push_list_member(out, alloc, "by", words)?;
    Ok(())
}

#[tactic(auto, unfolding(aa_text::specs::Jsons::member_text))]
fn push_to(out: &mut Vec<u8>, alloc: Global, to: Option<&[u8]>) -> Result<(), AllocError>
    ensures { OnOk result (out.new.items ≡ out.old.items ++ member_text (codes "reaches") (json_asker (option_map (λ n. n.now) to.entry))) }
{
    push_next_key(out, "reaches")?;
    push_asker(out, alloc, to)
}

#[tactic(auto, unfolding(crate::specs::Json::json_found))]
fn push_way(out: &mut Vec<u8>, alloc: Global, complains: bool, way: &Way) -> Result<(), AllocError>
    ensures { OnOk result (out.new.items ≡ out.old.items ++ json_found (ByWay complains (way_in way.now))) }
{
    push_whose(out, alloc, name_in(&way.asker), complains)?;
    push_to(out, alloc, name_in(&way.to))?;
    push_words(out, alloc, way.words.as_slice())?;
    push_text(out, "}")
}

/// Appends that a profile complains.
#[tactic(auto, unfolding(crate::specs::Json::json_found))]
fn push_complaining(out: &mut Vec<u8>, alloc: Global, name: &[u8]) -> Result<(), AllocError>
    ensures { OnOk result (out.new.items ≡ out.old.items ++ json_found (Complaining name.now)) }
{
    push_whose(out, alloc, Some(name), true)?;
    push_text(out, "}")
}

impl ToJson for Finding {
    ghost use Rattle.aa_ask.specs.Told.{told};
    ghost use Rattle.aa_who.specs.Untold.{json_asker};
    ghost use Rattle.aa_assert.specs.Findings.{found, ByRequest, ByWay, Complaining};
    ghost use Rattle.aa_assert.specs.Passages.{way_in};
    ghost use Rattle.aa_assert.specs.Json.{json_found};

    ghost json = { λ finding. json_found (found finding) };

    fn push_json(&self, out: &mut Vec<u8>, alloc: Global) -> Result<(), AllocError> {
        match self {
            Finding::ByRequest(complains, verdict) => {
                push_verdict(out, alloc, *complains, verdict)
            }
            Finding::ByWay(complains, way) => push_way(out, alloc, *complains, way),
            Finding::Complaining(name) => push_complaining(out, alloc, name.as_slice()),
        }
    }
}

fn push_broken(out: &mut Vec<u8>, alloc: Global, list: &[Finding]) -> Result<(), AllocError>
    ensures { OnOk result (out.new.items ≡ out.old.items ++ member_text (codes "broken") (list_text (map json_found (map found list.now)))) }
{
    push_list_member(out, alloc, "broken", list)?;
    Ok(())
}

/// Appends a claim, and by whom it is broken.
#[tactic(auto, unfolding(crate::specs::Json::json_broken))]
fn push_answer(out: &mut Vec<u8>, alloc: Global, answer: &Answer) -> Result<(), AllocError>
    ensures { OnOk result (out.new.items ≡ out.old.items ++ json_broken (answered answer.now)) }
{
    push_text(out, "{")?;
    push_key(out, "line")?;
    push_number(out, answer.number)?;
    push_broken(out, alloc, answer.findings.list.as_slice())
}

impl ToJson for Answer {
    ghost use Rattle.aa_assert.specs.Answers.{answered};
    ghost use Rattle.aa_assert.specs.Json.{json_answer};

    ghost json = { λ answer. json_answer (answered answer) };

    #[tactic(auto, unfolding(crate::specs::Json::json_answer))]
    fn push_json(&self, out: &mut Vec<u8>, alloc: Global) -> Result<(), AllocError> {
        push_answer(out, alloc, self)?;
        push_apart_member(out, alloc, self.findings.apart.as_slice())?;
        push_untold_member(out, alloc, self.findings.untold.as_slice())?;
        push_files_member(out, alloc, files_open(self))?;
        push_text(out, "}")
    }
}

fn push_all(out: &mut Vec<u8>, alloc: Global, answers: &[Answer]) -> Result<(), AllocError>
    ensures { OnOk result (out.new.items ≡ out.old.items ++ list_text (map json_answer (map answered answers.now))) }
{
    push_list(out, alloc, answers)?;
    Ok(())
}

/// Opens an object with the claims.
fn push_claims(out: &mut Vec<u8>, alloc: Global, answers: &[Answer]) -> Result<(), AllocError>
    ensures { OnOk result (out.new.items ≡ out.old.items ++ (codes "{" ++ key_text (codes "claims") ++ list_text (map json_answer (map answered answers.now)))) }
{
    push_text(out, "{")?;
    push_key(out, "claims")?;
    push_all(out, alloc, answers)
}

/// Appends the answers as one JSON object, with how many rules decide nothing and the files that are skipped, and a line end.
#[tactic(auto, unfolding(crate::specs::Json::json_answers))]
pub(crate) fn push_json_answers(
    out: &mut Vec<u8>,
    alloc: Global,
    passed: usize,
    skipped: &[SkippedAt],
    answers: &[Answer],
) -> Result<(), AllocError>
    ensures { OnOk result (out.new.items ≡ out.old.items ++ json_answers passed (placed_all skipped.now) (map answered answers.now)) }
{
    push_claims(out, alloc, answers)?;
    push_member(out, alloc, "passed_over", &passed)?;
    push_files_member(out, alloc, skipped)?;
    push_text(out, "}\n")
}
