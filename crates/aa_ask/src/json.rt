//! Verdicts as they are printed in JSON.

ghost use Rattle.std.specs.Prelude.{◌≡◌, ◌++◌, ◌||◌, true, false, codes, map, find, option_map, OnOk};
ghost use Rattle.std.specs.List.{list_any};
ghost use Rattle.aa_text.specs.Jsons.{key_text, json_bytes, member_text, member_if, list_text};
ghost use Rattle.aa_ask.specs.Named.{Named, Lacked, named, lacked};
ghost use Rattle.aa_ask.specs.Told.{told};
ghost use Rattle.aa_ask.specs.Json.{decider_end, deciders_key, json_each, json_deciders, lacks_there, lacking_key, json_letters, json_lacking, has_target, target_lacking, json_end, asker_member, json_granted, json_answer, json_reasons, json_verdict, json_verdicts};

use crate::explained::{DeciderLine, Lack};
use crate::verdict::Verdict;
use aa_text::{
    ListItem, ToJson, push_comma, push_json_bytes, push_json_place, push_key, push_list,
    push_list_in, push_member, push_next_key, push_text,
};
use std::alloc::{AllocError, Global};

fn push_decider_end(out: &mut Vec<u8>, is_target: bool) -> Result<(), AllocError>
    ensures { OnOk result (out.new.items ≡ out.old.items ++ decider_end is_target) }
{
    push_text(out, if is_target { ",\"target\":true}" } else { "}" })
}

/// It stands in the list of the rules that deny, or that allow, as the context wants.
impl ListItem<bool> for DeciderLine {
    ghost use Rattle.aa_ask.specs.Named.{named};
    ghost use Rattle.aa_ask.specs.Json.{decides_so, json_decider};

    ghost stands = { λ denies line. decides_so denies (named line) };

    ghost item = { λ denies line. json_decider (named line) };

    fn stands(&self, denies: &bool) -> bool {
        self.denies == *denies
    }

    #[tactic(auto, unfolding(crate::specs::Json::json_decider))]
    fn push_item(
        &self,
        out: &mut Vec<u8>,
        alloc: Global,
        _denies: &bool,
    ) -> Result<(), AllocError> {
        push_text(out, "{")?;
        push_json_place(out, alloc, self.path.as_slice(), Some(self.place))?;
        push_member(out, alloc, "letters", &self.letters)?;
        push_decider_end(out, self.is_target)
    }
}

/// Appends the rules that deny, or those that allow.
fn push_json_each(
    out: &mut Vec<u8>,
    alloc: Global,
    lines: &[DeciderLine],
    denies: bool,
) -> Result<(), AllocError>
    ensures { OnOk result (out.new.items ≡ out.old.items ++ list_text (json_each denies (map named lines.now))) }
{
    push_list_in(out, alloc, &denies, lines)?;
    Ok(())
}

fn push_deciders_key(out: &mut Vec<u8>, denies: bool) -> Result<(), AllocError>
    ensures { OnOk result (out.new.items ≡ out.old.items ++ key_text (deciders_key denies)) }
{
    push_key(out, if denies { "denies" } else { "allows" })
}

#[tactic(auto, unfolding(crate::specs::Json::json_deciders))]
fn push_json_deciders(
    out: &mut Vec<u8>,
    alloc: Global,
    lines: &[DeciderLine],
    denies: bool,
) -> Result<(), AllocError>
    ensures { OnOk result (out.new.items ≡ out.old.items ++ json_deciders denies (map named lines.now)) }
{
    push_comma(out, true)?;
    push_deciders_key(out, denies)?;
    push_json_each(out, alloc, lines, denies)
}

fn decides_at_target(lines: &[DeciderLine]) -> bool
    ensures { result ≡ list_any (λ (l : DeciderLine). l.is_target) lines.now }
{
    lines.iter().any(|line| line.is_target)
}

fn has_target_decider(lines: &[DeciderLine]) -> bool
    ensures { result ≡ list_any (λ (n : Named). n.is_target) (map named lines.now) }
{
    decides_at_target(lines)
}

fn lacks_at_target(lacking: &[Lack]) -> bool
    ensures { result ≡ list_any (λ (k : Lack). k.is_target) lacking.now }
{
    lacking.iter().any(|lack| lack.is_target)
}

fn has_target_lack(lacking: &[Lack]) -> bool
    ensures { result ≡ list_any (λ (k : Lacked). k.is_target) (map lacked lacking.now) }
{
    lacks_at_target(lacking)
}

/// Whether something was decided at a link's target.
fn has_target(verdict: &Verdict) -> bool
    ensures { result ≡ has_target (told verdict.now) }
{
    has_target_decider(verdict.deciders.as_slice()) || has_target_lack(verdict.lacking.as_slice())
}

/// Whether it says what no rule allows at a link's target, or at the object itself, as is wanted.
fn lacks_there(lack: &Lack, is_target: bool) -> bool
    ensures { result ≡ lacks_there is_target (lacked lack.now) }
{
    lack.is_target == is_target
}

/// What no rule allows, at the request's object or at a link's target.
fn lack_at(lacking: &[Lack], is_target: bool) -> Option<&Lack>
    ensures { option_map (λ k. lacked k.now) result ≡ find (lacks_there is_target) (map lacked lacking.now) }
{
    let mut rest = lacking;
    while let [lack, after @ ..] = rest {
        if lacks_there(lack, is_target) {
            return Some(lack);
        }
        rest = after;
    }
    None
}

fn push_json_letters(
    out: &mut Vec<u8>,
    alloc: Global,
    lack: Option<&Lack>,
) -> Result<(), AllocError>
    ensures { OnOk result (out.new.items ≡ out.old.items ++ json_letters (option_map (λ k. lacked k.now) lack.entry)) }
{
    match lack {
        Some(lack) => push_json_bytes(out, alloc, lack.letters.as_slice()),
        None => push_text(out, "\"\""),
    }
}

fn push_lacking_key(out: &mut Vec<u8>, is_target: bool) -> Result<(), AllocError>
    ensures { OnOk result (out.new.items ≡ out.old.items ++ key_text (lacking_key is_target)) }
{
    push_key(
        out,
        if is_target {
            "target_lacking"
        } else {
            "lacking"
        },
    )
}

/// Appends what no rule allows, at the request's object or at a link's target.
#[tactic(auto, unfolding(crate::specs::Json::json_lacking))]
fn push_json_lacking(
    out: &mut Vec<u8>,
    alloc: Global,
    lacking: &[Lack],
    is_target: bool,
) -> Result<(), AllocError>
    ensures { OnOk result (out.new.items ≡ out.old.items ++ json_lacking is_target (map lacked lacking.now)) }
{
    push_comma(out, true)?;
    push_lacking_key(out, is_target)?;
    push_json_letters(out, alloc, lack_at(lacking, is_target))
}

/// Appends what no rule allows at a link's target, where something was decided there.
fn push_target_lacking(
    out: &mut Vec<u8>,
    alloc: Global,
    verdict: &Verdict,
) -> Result<(), AllocError>
    ensures { OnOk result (out.new.items ≡ out.old.items ++ target_lacking (told verdict.now)) }
{
    if has_target(verdict) {
        push_json_lacking(out, alloc, verdict.lacking.as_slice(), true)
    } else {
        Ok(())
    }
}

/// Appends what is missing besides, as a member.
fn push_missing(out: &mut Vec<u8>, what: &str) -> Result<(), AllocError>
    ensures { OnOk result (out.new.items ≡ out.old.items ++ (codes "," ++ (key_text (codes "missing") ++ (codes "\"" ++ (what.now ++ codes "\""))))) }
{
    push_next_key(out, "missing")?;
    push_text(out, "\"")?;
    push_text(out, what)?;
    push_text(out, "\"")
}

/// Appends why all rules allow it and yet it is refused, where that is so, and closes the object.
fn push_json_unfound(out: &mut Vec<u8>, what: Option<&'static str>) -> Result<(), AllocError>
    ensures { OnOk result (out.new.items ≡ out.old.items ++ json_end (option_map (λ w. w.now) what.entry)) }
{
    let Some(what) = what else {
        return push_text(out, "}");
    };
    push_missing(out, what)?;
    push_text(out, "}")
}

/// Opens a JSON object, and appends a request's word as its first member.
pub fn push_request(out: &mut Vec<u8>, alloc: Global, word: &[u8]) -> Result<(), AllocError>
    ensures { OnOk result (out.new.items ≡ out.old.items ++ (codes "{" ++ (key_text (codes "request") ++ json_bytes word.now))) }
{
    push_text(out, "{")?;
    push_key(out, "request")?;
    push_json_bytes(out, alloc, word)
}

/// Appends that the task isn't confined, as a member.
#[tactic(auto, unfolding(aa_text::specs::Jsons::member_text))]
fn push_no_asker(out: &mut Vec<u8>) -> Result<(), AllocError>
    ensures { OnOk result (out.new.items ≡ out.old.items ++ member_text (codes "profile") (codes "null")) }
{
    push_next_key(out, "profile")?;
    push_text(out, "null")
}

/// Appends who asks, as a member.
fn push_asker_member(
    out: &mut Vec<u8>,
    alloc: Global,
    asker: &Option<Vec<u8>>,
) -> Result<(), AllocError>
    ensures { OnOk result (out.new.items ≡ out.old.items ++ asker_member (option_map (λ name. name.items) asker.now)) }
{
    match asker {
        Some(name) => push_member(out, alloc, "profile", name),
        None => push_no_asker(out),
    }
}

#[tactic(auto, unfolding(crate::specs::Json::json_granted))]
fn push_json_granted(out: &mut Vec<u8>, alloc: Global, verdict: &Verdict) -> Result<(), AllocError>
    ensures { OnOk result (out.new.items ≡ out.old.items ++ json_granted (told verdict.now)) }
{
    push_request(out, alloc, verdict.word.as_slice())?;
    push_asker_member(out, alloc, &verdict.asker)?;
    push_member(out, alloc, "granted", &verdict.granted)
}

fn push_json_label(
    out: &mut Vec<u8>,
    alloc: Global,
    label: &Option<Vec<u8>>,
) -> Result<(), AllocError>
    ensures { OnOk result (out.new.items ≡ out.old.items ++ member_if (codes "label") (option_map json_bytes (option_map (λ name. name.items) label.now))) }
{
    match label {
        Some(name) => push_member(out, alloc, "label", name),
        None => Ok(()),
    }
}

/// Appends what the mediator answers, as the first members of an object.
#[tactic(auto, unfolding(crate::specs::Json::json_answer))]
fn push_json_answer(out: &mut Vec<u8>, alloc: Global, verdict: &Verdict) -> Result<(), AllocError>
    ensures { OnOk result (out.new.items ≡ out.old.items ++ json_answer (told verdict.now)) }
{
    push_json_granted(out, alloc, verdict)?;
    push_json_label(out, alloc, &verdict.label)?;
    push_member(out, alloc, "scrub", &verdict.scrub)?;
    push_member(out, alloc, "complain", &verdict.complain)
}

/// Appends the rules that allow, and then those that deny.
fn push_json_rules(
    out: &mut Vec<u8>,
    alloc: Global,
    lines: &[DeciderLine],
) -> Result<(), AllocError>
    ensures { OnOk result (out.new.items ≡ out.old.items ++ (json_deciders false (map named lines.now) ++ json_deciders true (map named lines.now))) }
{
    push_json_deciders(out, alloc, lines, false)?;
    push_json_deciders(out, alloc, lines, true)
}

/// Appends why, as the further members, and closes the object.
#[tactic(auto, unfolding(crate::specs::Json::json_reasons))]
fn push_json_reasons(out: &mut Vec<u8>, alloc: Global, verdict: &Verdict) -> Result<(), AllocError>
    ensures { OnOk result (out.new.items ≡ out.old.items ++ json_reasons (told verdict.now)) }
{
    push_json_rules(out, alloc, verdict.deciders.as_slice())?;
    push_json_lacking(out, alloc, verdict.lacking.as_slice(), false)?;
    push_target_lacking(out, alloc, verdict)?;
    push_json_unfound(out, verdict.unfound)
}

impl ToJson for Verdict {
    ghost use Rattle.aa_ask.specs.Told.{told};
    ghost use Rattle.aa_ask.specs.Json.{json_verdict};

    ghost json = { λ verdict. json_verdict (told verdict) };

    fn push_json(&self, out: &mut Vec<u8>, alloc: Global) -> Result<(), AllocError> {
        push_json_answer(out, alloc, self)?;
        push_json_reasons(out, alloc, self)
    }
}

/// Appends the answers as a list.
fn push_all_verdicts(
    out: &mut Vec<u8>,
    alloc: Global,
    verdicts: &[Verdict],
) -> Result<(), AllocError>
    ensures { OnOk result (out.new.items ≡ out.old.items ++ list_text (map json_verdict (map told verdicts.now))) }
{
    push_list(out, alloc, verdicts)?;
    Ok(())
}

/// Appends the answers as one JSON list and a line end.
pub fn push_json_verdicts(
    out: &mut Vec<u8>,
    alloc: Global,
    verdicts: &[Verdict],
) -> Result<(), AllocError>
    ensures { OnOk result (out.new.items ≡ out.old.items ++ json_verdicts (map told verdicts.now)) }
{
    push_all_verdicts(out, alloc, verdicts)?;
    push_text(out, "\n")
}
