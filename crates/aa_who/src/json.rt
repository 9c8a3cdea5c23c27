//! Answers as they are printed in JSON.

ghost use Rattle.std.specs.Prelude.{◌≡◌, ◌++◌, codes, map, option_map, OnOk};
ghost use Rattle.aa_text.specs.Jsons.{json_bytes, key_text, bool_text, member_text, member_if, list_text};
ghost use Rattle.aa_undecided.specs.Answers.{placed_all};
ghost use Rattle.aa_who.specs.Grants.{granted};
ghost use Rattle.aa_who.specs.Answers.{answered};
ghost use Rattle.aa_who.specs.Json.{is_none, json_front, json_shown, json_grant, json_apart, json_granted, json_answer, json_told, json_answers};

use crate::answering::WordAnswer;
use crate::granting::Grant;
use crate::telling::push_untold_member;
use aa_text::{
    ToJson, push_json_bytes, push_key, push_list, push_list_member, push_member, push_text,
};
use aa_undecided::{SkippedAt, push_files_member};
use std::alloc::{AllocError, Global};

/// Opens an object, and appends its first member.
fn push_first(out: &mut Vec<u8>, alloc: Global, key: &str, text: &[u8]) -> Result<(), AllocError>
    ensures { OnOk result (out.new.items ≡ out.old.items ++ (codes "{" ++ (key_text key.now ++ json_bytes text.now))) }
{
    push_text(out, "{")?;
    push_key(out, key)?;
    push_json_bytes(out, alloc, text)
}

fn push_every(out: &mut Vec<u8>, alloc: Global, refused: &Option<Vec<u8>>) -> Result<(), AllocError>
    ensures { OnOk result (out.new.items ≡ out.old.items ++ member_text (codes "every") (bool_text (is_none (option_map (λ word. word.items) refused.now)))) }
{
    push_member(out, alloc, "every", &refused.is_none())
}

fn push_not(out: &mut Vec<u8>, alloc: Global, refused: &Option<Vec<u8>>) -> Result<(), AllocError>
    ensures { OnOk result (out.new.items ≡ out.old.items ++ member_if (codes "not") (option_map json_bytes (option_map (λ word. word.items) refused.now))) }
{
    match refused {
        Some(word) => push_member(out, alloc, "not", word),
        None => Ok(()),
    }
}

fn push_not_unclean(
    out: &mut Vec<u8>,
    alloc: Global,
    apart: &Option<Vec<u8>>,
) -> Result<(), AllocError>
    ensures { OnOk result (out.new.items ≡ out.old.items ++ member_if (codes "not_unclean") (option_map json_bytes (option_map (λ word. word.items) apart.now))) }
{
    match apart {
        Some(word) => push_member(out, alloc, "not_unclean", word),
        None => Ok(()),
    }
}

#[tactic(auto, unfolding(crate::specs::Json::json_front))]
fn push_front(out: &mut Vec<u8>, alloc: Global, grant: &Grant) -> Result<(), AllocError>
    ensures { OnOk result (out.new.items ≡ out.old.items ++ json_front (granted grant.now)) }
{
    push_first(out, alloc, "profile", grant.name.as_slice())?;
    push_every(out, alloc, &grant.refused)
}

#[tactic(auto, unfolding(crate::specs::Json::json_shown))]
fn push_shown(out: &mut Vec<u8>, alloc: Global, grant: &Grant) -> Result<(), AllocError>
    ensures { OnOk result (out.new.items ≡ out.old.items ++ json_shown (granted grant.now)) }
{
    push_member(out, alloc, "complains", &grant.complains)?;
    push_member(out, alloc, "as", &grant.verdict)
}

impl ToJson for Grant {
    ghost use Rattle.aa_who.specs.Grants.{granted};
    ghost use Rattle.aa_who.specs.Json.{json_grant};

    ghost json = { λ grant. json_grant (granted grant) };

    #[tactic(auto, unfolding(crate::specs::Json::json_grant))]
    fn push_json(&self, out: &mut Vec<u8>, alloc: Global) -> Result<(), AllocError> {
        push_front(out, alloc, self)?;
        push_shown(out, alloc, self)?;
        push_not(out, alloc, &self.refused)?;
        push_not_unclean(out, alloc, &self.apart)?;
        push_text(out, "}")
    }
}

fn push_grants(out: &mut Vec<u8>, alloc: Global, grants: &[Grant]) -> Result<(), AllocError>
    ensures { OnOk result (out.new.items ≡ out.old.items ++ member_text (codes "granted") (list_text (map json_grant (map granted grants.now)))) }
{
    push_list_member(out, alloc, "granted", grants)?;
    Ok(())
}

fn push_unclean(out: &mut Vec<u8>, alloc: Global, grants: &[Grant]) -> Result<(), AllocError>
    ensures { OnOk result (out.new.items ≡ out.old.items ++ member_text (codes "unclean") (list_text (map json_grant (map granted grants.now)))) }
{
    push_list_member(out, alloc, "unclean", grants)?;
    Ok(())
}

/// Appends the profiles that are granted it at unclean paths alone, if there are some.
fn push_apart(out: &mut Vec<u8>, alloc: Global, grants: &[Grant]) -> Result<(), AllocError>
    ensures { OnOk result (out.new.items ≡ out.old.items ++ json_apart (map granted grants.now)) }
{
    match grants {
        [] => Ok(()),
        [_, ..] => push_unclean(out, alloc, grants),
    }
}

/// Appends a word, and the profiles that are granted it.
#[tactic(auto, unfolding(crate::specs::Json::json_granted))]
fn push_granted(out: &mut Vec<u8>, alloc: Global, answer: &WordAnswer) -> Result<(), AllocError>
    ensures { OnOk result (out.new.items ≡ out.old.items ++ json_granted (answered answer.now)) }
{
    push_first(out, alloc, "word", answer.word.as_slice())?;
    push_grants(out, alloc, answer.grants.list.as_slice())?;
    push_apart(out, alloc, answer.grants.apart.as_slice())
}

impl ToJson for WordAnswer {
    ghost use Rattle.aa_who.specs.Answers.{answered};
    ghost use Rattle.aa_who.specs.Json.{json_answer};

    ghost json = { λ answer. json_answer (answered answer) };

    #[tactic(auto, unfolding(crate::specs::Json::json_answer))]
    fn push_json(&self, out: &mut Vec<u8>, alloc: Global) -> Result<(), AllocError> {
        push_granted(out, alloc, self)?;
        push_untold_member(out, alloc, self.grants.untold.as_slice())?;
        push_member(out, alloc, "profiles", &self.profiles)?;
        push_member(out, alloc, "unconfined", &self.free)?;
        push_text(out, "}")
    }
}

fn push_all(out: &mut Vec<u8>, alloc: Global, answers: &[WordAnswer]) -> Result<(), AllocError>
    ensures { OnOk result (out.new.items ≡ out.old.items ++ list_text (map json_answer (map answered answers.now))) }
{
    push_list(out, alloc, answers)?;
    Ok(())
}

/// Appends the answers, and how many rules decide nothing.
#[tactic(auto, unfolding(crate::specs::Json::json_told))]
fn push_told(
    out: &mut Vec<u8>,
    alloc: Global,
    passed: usize,
    answers: &[WordAnswer],
) -> Result<(), AllocError>
    ensures { OnOk result (out.new.items ≡ out.old.items ++ json_told passed (map answered answers.now)) }
{
    push_text(out, "{")?;
    push_key(out, "answers")?;
    push_all(out, alloc, answers)?;
    push_member(out, alloc, "passed_over", &passed)
}

/// Appends the answers as one JSON object, with how many rules decide nothing and the files that are skipped, and a line end.
#[tactic(auto, unfolding(crate::specs::Json::json_answers))]
pub(crate) fn push_json_answers(
    out: &mut Vec<u8>,
    alloc: Global,
    passed: usize,
    skipped: &[SkippedAt],
    answers: &[WordAnswer],
) -> Result<(), AllocError>
    ensures { OnOk result (out.new.items ≡ out.old.items ++ json_answers passed (placed_all skipped.now) (map answered answers.now)) }
{
    push_told(out, alloc, passed, answers)?;
    push_files_member(out, alloc, skipped)?;
    push_text(out, "}\n")
}
