//! Answers as they are printed in JSON.

ghost use Rattle.std.specs.Prelude.{◌≡◌, ◌++◌, codes, map, OnOk};
ghost use Rattle.aa_text.specs.Jsons.{json_bytes, key_text, bool_text, member_text, list_text};
ghost use Rattle.aa_reach.specs.Names.{name_in};
ghost use Rattle.aa_undecided.specs.Answers.{placed_all};
ghost use Rattle.aa_reach.specs.Routes.{turned, routed, barred};
ghost use Rattle.aa_reach.specs.Doubts.{doubted};
ghost use Rattle.aa_reach.specs.Json.{json_name, json_turn, json_route, json_apart, json_bar, json_apart_bars, json_doubt, json_doubts, json_apart_doubts, json_unclean, json_beside, json_answer, json_skipped, json_answers};

use crate::answering::Answer;
use crate::doubts::Doubt;
use crate::naming::Named;
use crate::parts::{Bar, Told};
use crate::routes::{Route, Turn};
use aa_text::{
    ToJson, push_json_bytes, push_key, push_list, push_list_member, push_member, push_text,
};
use aa_undecided::{SkippedAt, push_files_member};
use std::alloc::{AllocError, Global};

/// Opens an object with a key.
fn push_first(out: &mut Vec<u8>, key: &str) -> Result<(), AllocError>
    ensures { OnOk result (out.new.items ≡ out.old.items ++ (codes "{" ++ key_text key.now)) }
{
    push_text(out, "{")?;
    push_key(out, key)
}

impl ToJson for Named {
    ghost use Rattle.aa_reach.specs.Names.{name_in};
    ghost use Rattle.aa_reach.specs.Json.{json_name};

    ghost json = { λ named. json_name (name_in named) };

    fn push_json(&self, out: &mut Vec<u8>, alloc: Global) -> Result<(), AllocError> {
        if self.is_confined {
            push_json_bytes(out, alloc, self.name.as_slice())
        } else {
            push_text(out, "null")
        }
    }
}

impl ToJson for Turn {
    ghost use Rattle.aa_reach.specs.Routes.{turned};
    ghost use Rattle.aa_reach.specs.Json.{json_turn};

    ghost json = { λ turn. json_turn (turned turn) };

    #[tactic(auto, unfolding(crate::specs::Json::json_turn))]
    fn push_json(&self, out: &mut Vec<u8>, alloc: Global) -> Result<(), AllocError> {
        push_first(out, "request")?;
        push_json_bytes(out, alloc, self.word())?;
        push_member(out, alloc, "complain", &self.complains)?;
        push_text(out, "}")
    }
}

fn push_turns(out: &mut Vec<u8>, alloc: Global, turns: &[Turn]) -> Result<(), AllocError>
    ensures { OnOk result (out.new.items ≡ out.old.items ++ member_text (codes "requests") (list_text (map json_turn (map turned turns.now)))) }
{
    push_list_member(out, alloc, "requests", turns)?;
    Ok(())
}

impl ToJson for Route {
    ghost use Rattle.aa_reach.specs.Routes.{routed};
    ghost use Rattle.aa_reach.specs.Json.{json_route};

    ghost json = { λ route. json_route (routed route) };

    #[tactic(auto, unfolding(crate::specs::Json::json_route))]
    fn push_json(&self, out: &mut Vec<u8>, alloc: Global) -> Result<(), AllocError> {
        push_first(out, "profile")?;
        self.to.push_json(out, alloc)?;
        push_turns(out, alloc, self.turns.as_slice())?;
        push_text(out, "}")
    }
}

impl ToJson for Bar {
    ghost use Rattle.aa_reach.specs.Routes.{barred};
    ghost use Rattle.aa_reach.specs.Json.{json_bar};

    ghost json = { λ bar. json_bar (barred bar) };

    fn push_json(&self, out: &mut Vec<u8>, alloc: Global) -> Result<(), AllocError> {
        self.at.push_json(out, alloc)
    }
}

fn push_bars(out: &mut Vec<u8>, alloc: Global, key: &str, bars: &[Bar]) -> Result<(), AllocError>
    ensures { OnOk result (out.new.items ≡ out.old.items ++ member_text key.now (list_text (map json_bar (map barred bars.now)))) }
{
    push_list_member(out, alloc, key, bars)?;
    Ok(())
}

/// Appends a comma and the member of labels that are got to only at unclean paths and from which it isn't told where requests lead on, where
/// there are some.
fn push_apart_bars(out: &mut Vec<u8>, alloc: Global, bars: &[Bar]) -> Result<(), AllocError>
    ensures { OnOk result (out.new.items ≡ out.old.items ++ json_apart_bars (map barred bars.now)) }
{
    if bars.is_empty() {
        return Ok(());
    }
    push_bars(out, alloc, "unclean_untold", bars)
}

impl ToJson for Doubt {
    ghost use Rattle.aa_reach.specs.Doubts.{doubted};
    ghost use Rattle.aa_reach.specs.Json.{json_doubt};

    ghost json = { λ doubt. json_doubt (doubted doubt) };

    #[tactic(auto, unfolding(crate::specs::Json::json_doubt))]
    fn push_json(&self, out: &mut Vec<u8>, alloc: Global) -> Result<(), AllocError> {
        push_first(out, "profile")?;
        self.at.push_json(out, alloc)?;
        push_files_member(out, alloc, self.files.as_slice())?;
        push_text(out, "}")
    }
}

fn push_each_doubt(
    out: &mut Vec<u8>,
    alloc: Global,
    key: &str,
    doubts: &[Doubt],
) -> Result<(), AllocError>
    ensures { OnOk result (out.new.items ≡ out.old.items ++ member_text key.now (list_text (map json_doubt (map doubted doubts.now)))) }
{
    push_list_member(out, alloc, key, doubts)?;
    Ok(())
}

/// Appends a comma and the member of labels at which something is undecided, where there are some.
fn push_doubts(out: &mut Vec<u8>, alloc: Global, doubts: &[Doubt]) -> Result<(), AllocError>
    ensures { OnOk result (out.new.items ≡ out.old.items ++ json_doubts (map doubted doubts.now)) }
{
    if doubts.is_empty() {
        return Ok(());
    }
    push_each_doubt(out, alloc, "undecided", doubts)
}

/// Appends a comma and the member of those of them that are got to only at unclean paths, where there are some.
fn push_apart_doubts(out: &mut Vec<u8>, alloc: Global, doubts: &[Doubt]) -> Result<(), AllocError>
    ensures { OnOk result (out.new.items ≡ out.old.items ++ json_apart_doubts (map doubted doubts.now)) }
{
    if doubts.is_empty() {
        return Ok(());
    }
    push_each_doubt(out, alloc, "unclean_undecided", doubts)
}

/// Appends a comma and the member of the files that are skipped, where there are some.
fn push_skipped(out: &mut Vec<u8>, alloc: Global, files: &[SkippedAt]) -> Result<(), AllocError>
    ensures { OnOk result (out.new.items ≡ out.old.items ++ json_skipped (placed_all files.now)) }
{
    if files.is_empty() {
        return Ok(());
    }
    push_files_member(out, alloc, files)
}

fn push_routes(out: &mut Vec<u8>, alloc: Global, routes: &[Route]) -> Result<(), AllocError>
    ensures { OnOk result (out.new.items ≡ out.old.items ++ member_text (codes "reached") (list_text (map json_route (map routed routes.now)))) }
{
    push_list_member(out, alloc, "reached", routes)?;
    Ok(())
}

fn push_apart_routes(out: &mut Vec<u8>, alloc: Global, routes: &[Route]) -> Result<(), AllocError>
    ensures { OnOk result (out.new.items ≡ out.old.items ++ member_text (codes "unclean") (list_text (map json_route (map routed routes.now)))) }
{
    push_list_member(out, alloc, "unclean", routes)?;
    Ok(())
}

/// Appends a comma and the member of labels that are got to only at unclean paths, where there are some.
fn push_apart(out: &mut Vec<u8>, alloc: Global, routes: &[Route]) -> Result<(), AllocError>
    ensures { OnOk result (out.new.items ≡ out.old.items ++ json_apart (map routed routes.now)) }
{
    if routes.is_empty() {
        return Ok(());
    }
    push_apart_routes(out, alloc, routes)
}

/// Appends what is told of requests of which some are at unclean paths, where these don't count.
#[tactic(auto, unfolding(crate::specs::Json::json_unclean))]
fn push_unclean(out: &mut Vec<u8>, alloc: Global, unclean: &Told) -> Result<(), AllocError>
    ensures { OnOk result (out.new.items ≡ out.old.items ++ json_unclean unclean.now) }
{
    push_apart(out, alloc, unclean.routes.as_slice())?;
    push_apart_bars(out, alloc, unclean.bars.as_slice())?;
    push_apart_doubts(out, alloc, unclean.doubts.as_slice())
}

/// Appends what an answer tells behind the labels that are reached.
#[tactic(auto, unfolding(crate::specs::Json::json_beside))]
fn push_beside(out: &mut Vec<u8>, alloc: Global, answer: &Answer) -> Result<(), AllocError>
    ensures { OnOk result (out.new.items ≡ out.old.items ++ json_beside answer.now) }
{
    push_unclean(out, alloc, &answer.unclean)?;
    push_bars(out, alloc, "untold", answer.bars.as_slice())?;
    push_doubts(out, alloc, answer.doubts.as_slice())
}

impl ToJson for Answer {
    ghost use Rattle.aa_reach.specs.Json.{json_answer};

    ghost json = { json_answer };

    #[tactic(auto, unfolding(crate::specs::Json::json_answer))]
    fn push_json(&self, out: &mut Vec<u8>, alloc: Global) -> Result<(), AllocError> {
        push_first(out, "from")?;
        self.from.push_json(out, alloc)?;
        push_routes(out, alloc, self.routes.as_slice())?;
        push_beside(out, alloc, self)?;
        push_text(out, "}")
    }
}

/// Appends the answers as one JSON object and a line end.
#[tactic(auto, unfolding(crate::specs::Json::json_answers))]
pub(crate) fn push_json_answers(
    out: &mut Vec<u8>,
    alloc: Global,
    labels: usize,
    passed: usize,
    skipped: &[SkippedAt],
    answers: &[Answer],
) -> Result<(), AllocError>
    ensures { OnOk result (out.new.items ≡ out.old.items ++ json_answers labels passed (placed_all skipped.now) answers.now) }
{
    push_first(out, "answers")?;
    push_list(out, alloc, answers)?;
    push_member(out, alloc, "labels", &labels)?;
    push_member(out, alloc, "passed_over", &passed)?;
    push_skipped(out, alloc, skipped)?;
    push_text(out, "}\n")
}
