//! Reads file rules (apparmor.d(5), "Access Modes").

ghost use Rattle.std.specs.Prelude.{◌≡◌, ◌<◌, ◌≤◌, ◌+◌, true, List, ℕ, Option, option_map, length, IfSome, IfNone, OnSome, OnErr, IfOk, IfErr};
ghost use Rattle.std.specs.Bool.{OnTrue, OnFalse};
ghost use Rattle.aa_words.specs.Splits.{WordData, word_data};
ghost use Rattle.aa_rules.specs.Faults.{is_word_fault, IsPlaceIn};
ghost use Rattle.aa_rules.specs.Phrases.{StartsAs, LacksAll};
ghost use Rattle.aa_rules.specs.FileRules.{IsMode, IsPathFirst, IsModeFirst, IsPair, IsWhole, IsLeftOut, IsPathAndMode, IsEntry, IsArrow, IsTarget, exec_with, IsFile, whole_mode};
ghost use Rattle.aa_rules.specs.Reading.{EntryData, entry_data, FileData, file_data, target_data, exec_data, rest_of};
ghost use Rattle.aa_rules.specs.RuleFaults.{IsFaultBy, FileFails};
ghost use Rattle.aa_rules.specs.declared.modes.Mode.{Mode};

use crate::faults::{Preceding, no_entry_fault, no_target_fault};
use crate::lookahead::{optional, path_at, profile_name_at, spot_of, word_of_kind};
use crate::modes::{ExecMode, Mode, mode_of, takes_target};
use crate::names::{is_left_out, is_target_name};
use crate::tree::{EntryTree, ExecTree, FileTree, Qualifiers};
use aa_base::{PolicyFault, Spot};
use aa_words::{Word, WordKind};

/// The mode at a place.
fn mode_at(words: &[Word], at: usize, deny: bool) -> Option<Mode>
    ensures found { IfSome result (λ m. IsMode deny (rest_of words.now at) m (rest_of words.now (at + 1))) }
    ensures missing { IfNone result ((m : Mode) (rest : List WordData) → IsMode deny (rest_of words.now at) m rest → ⊥) }
    ensures within { OnSome result (at < length words.now) }
{
    let word = word_of_kind(words, at, WordKind::Name)?;
    mode_of(word.text, deny)
}

/// A path and the mode behind it.
fn path_first<'s>(words: &[Word<'s>], at: usize, deny: bool) -> Option<EntryTree<'s>>
    ensures found { IfSome result (λ e. IsPathFirst deny (rest_of words.now at) (entry_data e) (rest_of words.now (at + 2))) }
    ensures missing { IfNone result ((e : EntryData) (rest : List WordData) → IsPathFirst deny (rest_of words.now at) e rest → ⊥) }
    ensures within { OnSome result (at + 1 < length words.now) }
{
    let path = path_at(words, at)?;
    let Some(mode) = mode_at(words, at + 1, deny) else {
        return None;
    };
    Some(EntryTree {
        at: spot_of(path),
        path: path.text,
        mode,
    })
}

/// A mode and the path behind it.
fn mode_first<'s>(words: &[Word<'s>], at: usize, deny: bool) -> Option<EntryTree<'s>>
    ensures found { IfSome result (λ e. IsModeFirst deny (rest_of words.now at) (entry_data e) (rest_of words.now (at + 2))) }
    ensures missing { IfNone result ((e : EntryData) (rest : List WordData) → IsModeFirst deny (rest_of words.now at) e rest → ⊥) }
    ensures within { OnSome result (at + 1 < length words.now) }
{
    let Some(mode) = mode_at(words, at, deny) else {
        return None;
    };
    let Some(path) = path_at(words, at + 1) else {
        return None;
    };
    Some(EntryTree {
        at: spot_of(path),
        path: path.text,
        mode,
    })
}

/// A path and a mode, in either order.
fn pair_of<'s>(words: &[Word<'s>], at: usize, deny: bool) -> Option<EntryTree<'s>>
    ensures found { IfSome result (λ e. IsPair deny (rest_of words.now at) (entry_data e) (rest_of words.now (at + 2))) }
    ensures missing { IfNone result ((e : EntryData) (rest : List WordData) → IsPair deny (rest_of words.now at) e rest → ⊥) }
    ensures within { OnSome result (at + 1 < length words.now) }
{
    if let Some(entry) = path_first(words, at, deny) {
        return Some(entry);
    }
    mode_first(words, at, deny)
}

/// The mode of `file` by itself.
fn whole_mode(deny: bool) -> &'static [u8]
    ensures { result.now ≡ whole_mode deny }
{
    if deny {
        "rwlkmx".as_bytes()
    } else {
        "rwlkmix".as_bytes()
    }
}

/// `file` by itself, before a comma.
fn whole_of<'s>(words: &[Word<'s>], at: usize, deny: bool) -> Option<EntryTree<'s>>
    ensures found { IfSome result (λ e. IsWhole deny (rest_of words.now at) (entry_data e) (rest_of words.now (at + 1))) }
    ensures missing { IfNone result ((e : EntryData) (rest : List WordData) → IsWhole deny (rest_of words.now at) e rest → ⊥) }
    ensures within { OnSome result (at < length words.now) }
{
    let word = word_of_kind(words, at, WordKind::Name)?;
    if word.text != "file".as_bytes() {
        return None;
    }
    let _comma = word_of_kind(words, at + 1, WordKind::Comma)?;
    let mode = mode_of(whole_mode(deny), deny)?;
    Some(EntryTree {
        at: spot_of(word),
        path: "/{**,}".as_bytes(),
        mode,
    })
}

/// Whether a word stands at a place that is left out where a rule begins.
#[tactic(auto, using(crate::proofs::FileRules::read_here, crate::proofs::FileRules::read_without))]
fn is_left_out_at(words: &[Word], at: usize) -> bool
    ensures yes { OnTrue result (IsLeftOut (rest_of words.now at)) }
    ensures no { OnFalse result (IsLeftOut (rest_of words.now at) → ⊥) }
{
    match word_of_kind(words, at, WordKind::Name) {
        Some(word) => is_left_out(word.text),
        None => false,
    }
}

/// What a rule grants, and where, and the place behind it.
fn entry_of<'s>(words: &[Word<'s>], at: usize, deny: bool) -> Option<(EntryTree<'s>, usize)>
    ensures found { IfSome result (λ r. IsEntry deny (rest_of words.now at) (entry_data r.0) (rest_of words.now r.1)) }
    ensures missing { IfNone result ((e : EntryData) (rest : List WordData) → IsEntry deny (rest_of words.now at) e rest → ⊥) }
    ensures within { IfSome result (λ r. (at < r.1) × (r.1 ≤ length words.now)) }
{
    if let Some(entry) = whole_of(words, at, deny) {
        return Some((entry, at + 1));
    }
    if is_left_out_at(words, at) {
        return None;
    }
    let (_, bare) = optional(words, at, "file".as_bytes());
    let Some(entry) = pair_of(words, bare, deny) else {
        return None;
    };
    Some((entry, bare + 2))
}

/// The name behind an arrow.
fn arrow_of<'s>(words: &[Word<'s>], at: usize, exec: Option<ExecMode>) -> Option<&'s [u8]>
    ensures found { IfSome result (λ name. IsArrow exec (rest_of words.now at) name.now (rest_of words.now (at + 2))) }
    ensures missing { IfNone result ((name : List ℕ) (rest : List WordData) → IsArrow exec (rest_of words.now at) name rest → ⊥) }
    ensures within { OnSome result (at + 1 < length words.now) }
{
    if !takes_target(exec) {
        return None;
    }
    let _arrow = word_of_kind(words, at, WordKind::Arrow)?;
    let word = profile_name_at(words, at + 1)?;
    if !is_target_name(word.text) {
        return None;
    }
    Some(word.text)
}

/// The name behind an arrow, if there is an arrow, and the place behind it.
fn target_of<'s>(
    words: &[Word<'s>],
    at: usize,
    exec: Option<ExecMode>,
) -> Option<(Option<&'s [u8]>, usize)>
    requires within { at ≤ length words.now }
    ensures found { IfSome result (λ r. IsTarget exec (rest_of words.now at) (target_data r.0) (rest_of words.now r.1)) }
    ensures missing { IfNone result ((target : Option (List ℕ)) (rest : List WordData) → IsTarget exec (rest_of words.now at) target rest → ⊥) }
    ensures onward { IfSome result (λ r. (at ≤ r.1) × (r.1 ≤ length words.now)) }
{
    if word_of_kind(words, at, WordKind::Arrow).is_none() {
        return Some((None, at));
    }
    let Some(name) = arrow_of(words, at, exec) else {
        return None;
    };
    Some((Some(name), at + 2))
}

/// How a rule lets a program be executed.
fn exec_with<'s>(target: Option<&'s [u8]>, exec: Option<ExecMode>) -> Option<ExecTree<'s>>
    ensures { option_map exec_data result ≡ exec_with (target_data target.entry) exec }
{
    match exec {
        Some(mode) => Some(ExecTree { mode, target }),
        None => None,
    }
}

/// A file rule behind its qualifiers, and the place behind it.
pub fn file_of<'s>(
    words: &[Word<'s>],
    at: usize,
    qualifiers: Qualifiers,
    place: Preceding,
    end: Spot,
) -> Result<(FileTree<'s>, usize), PolicyFault>
    ensures found { IfOk result (λ r. IsFile qualifiers (rest_of words.now at) (file_data r.0) (rest_of words.now r.1)) }
    ensures refused { OnErr result ((f : FileData) (rest : List WordData) → IsFile qualifiers (rest_of words.now at) f rest → ⊥) }
    ensures fails { IfErr result (IsFaultBy (FileFails place.qualified qualifiers.deny) (rest_of words.now at) end) }
    ensures cause { IfErr result (λ e. is_word_fault e.kind ≡ true) }
    ensures place { IfErr result (λ e. IsPlaceIn words.now end e.at) }
    ensures within { IfOk result (λ r. (at < r.1) × (r.1 ≤ length words.now)) }
{
    let (owner, bare) = optional(words, at, "owner".as_bytes());
    let Some((entry, next)) = entry_of(words, bare, qualifiers.deny) else {
        let place = place.behind_owner(owner);
        return Err(no_entry_fault(words, bare, place, qualifiers.deny, end));
    };
    let Some((target, behind)) = target_of(words, next, entry.mode.exec) else {
        return Err(no_target_fault(words, next, entry.mode, end));
    };
    let file = FileTree {
        qualifiers,
        owner,
        at: entry.at,
        path: entry.path,
        perms: entry.mode.perms,
        exec: exec_with(target, entry.mode.exec),
    };
    Ok((file, behind))
}
