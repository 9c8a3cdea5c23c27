//! Why reading can't go on at a word.

ghost use Rattle.std.specs.Prelude.{◌≡◌, ◌+◌, ◌&&◌, not, true, List, Some, None, drop};
ghost use Rattle.aa_words.specs.Splits.{WordData};
ghost use Rattle.aa_rules.specs.Reading.{EntryData, rest_of, rule_data};
ghost use Rattle.aa_rules.specs.Faults.{is_word_fault, IsPlaceIn};
ghost use Rattle.aa_rules.specs.FileRules.{IsMode, IsPair, IsEntry};
ghost use Rattle.aa_rules.specs.Modes.{mode_of, mode_fault};
ghost use Rattle.aa_rules.specs.Phrases.{is_name_kind, is_path_kind, begins_as, place_of};
ghost use Rattle.aa_rules.specs.RuleFaults.{IsFaultBy, first_name_fault, rule_name_fault, is_open, sign_fault, naming_fault, ModeFails, PairFails, EntryFails, TargetFails, AimFails, is_condition_sign, is_run, no_comma_fault, item_fault};
ghost use Rattle.aa_rules.specs.declared.modes.Mode.{Mode};

use crate::lookahead::{fault, is_name_kind, is_path_kind, keyword_stands, path_at, word_of_kind};
use crate::modes::{Mode, mode_fault, takes_target};
use crate::names::{is_left_out, name_fault};
use crate::tree::RuleTree;
use aa_base::{Perms, PolicyFault, PolicyKind, Spot};
use aa_words::{Word, WordKind};
use bitflags::Flags;

/// Whether a word that can be a path stands at a place.
#[tactic(auto, using(crate::proofs::Places::begins_here, crate::proofs::Places::begins_past))]
fn is_path_at(words: &[Word], at: usize) -> bool
    ensures { result ≡ begins_as is_path_kind (rest_of words.now at) }
{
    if at >= words.len() {
        return false;
    }
    is_path_kind(words[at].kind)
}

/// What is wrong with a name that is no mode.
fn wrong_mode(name: &[u8], deny: bool) -> PolicyKind
    requires wrong { mode_of deny name.now ≡ None }
    ensures kind { mode_fault deny name.now ≡ Some result }
    ensures cause { is_word_fault result ≡ true }
{
    match mode_fault(name, deny) {
        Some(kind) => kind,
        None => unreachable!(),
    }
}

/// Why neither a rule nor an item begins with a name.
#[tactic(auto, unfolding(crate::specs::RuleFaults::first_name_fault))]
fn first_name_fault(name: &[u8], deny: bool, path_follows: bool) -> PolicyKind
    ensures kind { result ≡ first_name_fault deny path_follows name.now }
    ensures cause { is_word_fault result ≡ true }
{
    if is_left_out(name) {
        return PolicyKind::Unsupported;
    }
    if !path_follows {
        return PolicyKind::UnknownWord;
    }
    match mode_fault(name, deny) {
        Some(kind) => kind,
        None => PolicyKind::Syntax,
    }
}

/// What stands before a word at which no rule goes on.
#[derive(Clone, Copy, Debug, PartialEq, Eq)]
pub struct Preceding {
    /// `audit`, `allow` or `deny`.
    qualified: bool,
    /// `owner`.
    owner: bool,
}

impl Preceding {
    /// Where a rule's qualifiers end, if it has any.
    pub fn behind_qualifiers(qualified: bool) -> Preceding
        ensures { result.qualified ≡ qualified }
    {
        Preceding {
            qualified,
            owner: false,
        }
    }

    /// Behind `owner`, if it stands there.
    pub fn behind_owner(self, owner: bool) -> Preceding
        ensures qualified { result.qualified ≡ self.qualified }
        ensures owner { result.owner ≡ owner }
    {
        Preceding { owner, ..self }
    }

    /// Why no rule goes on with a name here.
    #[tactic(auto, unfolding(crate::specs::RuleFaults::rule_name_fault))]
    fn fault_of_name(self, name: &[u8], deny: bool, path_follows: bool) -> PolicyKind
        ensures kind { result ≡ rule_name_fault self.owner deny path_follows name.now }
        ensures cause { is_word_fault result ≡ true }
    {
        if self.owner && name == "change_profile".as_bytes() {
            return PolicyKind::Syntax;
        }
        first_name_fault(name, deny, path_follows)
    }

    /// Why no rule goes on with a word here that is no name.
    fn word_fault(self, words: &[Word], at: usize) -> PolicyKind
        ensures kind { result ≡ sign_fault (self.qualified && not self.owner) (rest_of words.now at) }
        ensures cause { is_word_fault result ≡ true }
    {
        if self.qualified && !self.owner && opens_at(words, at) {
            return PolicyKind::Unsupported;
        }
        PolicyKind::Syntax
    }
}

/// Whether a word of this kind is an opening brace.
fn is_open(kind: WordKind) -> bool
    ensures { result ≡ is_open kind }
{
    kind == WordKind::Open
}

/// Whether an opening brace stands at a place.
#[tactic(auto, using(crate::proofs::Places::begins_here, crate::proofs::Places::begins_past))]
fn opens_at(words: &[Word], at: usize) -> bool
    ensures { result ≡ begins_as is_open (rest_of words.now at) }
{
    if at >= words.len() {
        return false;
    }
    is_open(words[at].kind)
}

/// Why a word of the top level begins no item.
#[tactic(auto, using(crate::proofs::Places::here, crate::proofs::Places::nothing_here))]
fn item_kind(words: &[Word], at: usize) -> PolicyKind
    ensures kind { result ≡ item_fault (rest_of words.now at) }
    ensures cause { is_word_fault result ≡ true }
{
    if at >= words.len() {
        return PolicyKind::Syntax;
    }
    let word = &words[at];
    match word.kind {
        WordKind::Name => first_name_fault(word.text, false, is_path_at(words, at + 1)),
        _ => PolicyKind::Syntax,
    }
}

/// Why no item begins at a word of the top level: a name that isn't an item's first word is read
/// as a mode where a path follows.
pub fn item_fault(words: &[Word], at: usize, end: Spot) -> PolicyFault
    ensures kind { result.kind ≡ item_fault (rest_of words.now at) }
    ensures at { result.at ≡ place_of (rest_of words.now at) end }
    ensures cause { is_word_fault result.kind ≡ true }
    ensures place { IsPlaceIn words.now end result.at }
{
    fault(item_kind(words, at), words, at, end)
}

/// Whether a condition goes on with a word of this kind.
fn is_condition_sign(kind: WordKind) -> bool
    ensures { result ≡ is_condition_sign kind }
{
    matches!(kind, WordKind::LeftParen | WordKind::Equals)
}

/// Whether a sign with which a condition goes on stands at a place.
#[tactic(auto, using(crate::proofs::Places::begins_here, crate::proofs::Places::begins_past))]
fn is_condition_at(words: &[Word], at: usize) -> bool
    ensures { result ≡ begins_as is_condition_sign (rest_of words.now at) }
{
    if at >= words.len() {
        return false;
    }
    is_condition_sign(words[at].kind)
}

/// Whether a word of this kind can be `safe`, `unsafe` or a program.
fn is_run(kind: WordKind) -> bool
    ensures { result ≡ is_run kind }
{
    matches!(kind, WordKind::Name | WordKind::Path)
}

/// Whether a word stands at a place that no arrow precedes, as `safe`, `unsafe` or a program.
#[tactic(auto, using(crate::proofs::Places::begins_here, crate::proofs::Places::begins_past))]
fn is_run_at(words: &[Word], at: usize) -> bool
    ensures { result ≡ begins_as is_run (rest_of words.now at) }
{
    if at >= words.len() {
        return false;
    }
    is_run(words[at].kind)
}

/// Why a word behind a rule is no comma: the conditions of a rule on sockets are left out, and so is
/// what stands straight behind the keyword of a rule on changes of profile.
fn no_comma_kind(words: &[Word], at: usize, rule: &RuleTree) -> PolicyKind
    ensures kind { result ≡ no_comma_fault (rule_data rule.now) (rest_of words.now at) }
    ensures cause { is_word_fault result ≡ true }
{
    match rule {
        RuleTree::Net(_) if is_condition_at(words, at) => PolicyKind::Unsupported,
        RuleTree::Change(change) if change.name.is_none() && is_run_at(words, at) => {
            PolicyKind::Unsupported
        }
        _ => PolicyKind::Syntax,
    }
}

/// Why no comma stands behind a rule.
pub fn no_comma_fault(words: &[Word], at: usize, rule: &RuleTree, end: Spot) -> PolicyFault
    ensures kind { result.kind ≡ no_comma_fault (rule_data rule.now) (rest_of words.now at) }
    ensures at { result.at ≡ place_of (rest_of words.now at) end }
    ensures cause { is_word_fault result.kind ≡ true }
    ensures place { IsPlaceIn words.now end result.at }
{
    fault(no_comma_kind(words, at, rule), words, at, end)
}

/// Why a word of a body is no file rule's first: neither a path, nor `file`, nor a mode before a
/// path that is a right one.
pub fn no_entry_fault(
    words: &[Word],
    at: usize,
    place: Preceding,
    deny: bool,
    end: Spot,
) -> PolicyFault
    requires wrong { (e : EntryData) (rest : List WordData) → IsEntry deny (rest_of words.now at) e rest → ⊥ }
    ensures fails { IsFaultBy (EntryFails place.qualified place.owner deny) (rest_of words.now at) end result }
    ensures kind { is_word_fault result.kind ≡ true }
    ensures place { IsPlaceIn words.now end result.at }
{
    if path_at(words, at).is_some() {
        return wrong_mode_fault(words, at + 1, deny, end);
    }
    if keyword_stands(words, at, "file".as_bytes()) {
        return behind_file_fault(words, at + 1, deny, end);
    }
    let Some(word) = word_of_kind(words, at, WordKind::Name) else {
        return fault(place.word_fault(words, at), words, at, end);
    };
    let kind = place.fault_of_name(word.text, deny, is_path_at(words, at + 1));
    fault(kind, words, at, end)
}

/// Why the words behind `file` are no path and mode, in whichever order.
fn behind_file_fault(words: &[Word], at: usize, deny: bool, end: Spot) -> PolicyFault
    requires wrong { (e : EntryData) (rest : List WordData) → IsPair deny (rest_of words.now at) e rest → ⊥ }
    ensures fails { IsFaultBy (PairFails deny) (rest_of words.now at) end result }
    ensures kind { is_word_fault result.kind ≡ true }
    ensures place { IsPlaceIn words.now end result.at }
{
    if path_at(words, at).is_some() {
        return wrong_mode_fault(words, at + 1, deny, end);
    }
    let Some(word) = word_of_kind(words, at, WordKind::Name) else {
        return fault(PolicyKind::Syntax, words, at, end);
    };
    match mode_fault(word.text, deny) {
        Some(kind) => fault(kind, words, at, end),
        None => fault(PolicyKind::Syntax, words, at + 1, end),
    }
}

/// Why a word isn't the mode that has to stand there.
fn wrong_mode_fault(words: &[Word], at: usize, deny: bool, end: Spot) -> PolicyFault
    requires wrong { (m : Mode) (rest : List WordData) → IsMode deny (rest_of words.now at) m rest → ⊥ }
    ensures fails { ModeFails deny (rest_of words.now at) result.kind }
    ensures at { result.at ≡ place_of (rest_of words.now at) end }
    ensures kind { is_word_fault result.kind ≡ true }
    ensures place { IsPlaceIn words.now end result.at }
{
    let Some(word) = word_of_kind(words, at, WordKind::Name) else {
        return fault(PolicyKind::Syntax, words, at, end);
    };
    fault(wrong_mode(word.text, deny), words, at, end)
}

/// Why no profile is named by the arrow that stands behind a mode: the mode goes on under none
/// of the policy, or what stands behind the arrow is no profile's name.
pub fn no_target_fault(words: &[Word], at: usize, mode: Mode, end: Spot) -> PolicyFault
    ensures fails { IsFaultBy (TargetFails mode) (rest_of words.now at) end result }
    ensures kind { is_word_fault result.kind ≡ true }
    ensures place { IsPlaceIn words.now end result.at }
{
    if !mode.perms.contains(Perms::EXEC) {
        return fault(PolicyKind::Unsupported, words, at, end);
    }
    if !takes_target(mode.exec) {
        return fault(PolicyKind::BadMode, words, at, end);
    }
    no_name_fault(words, at, end)
}

/// What the word at a place is refused for, where a profile's name has to stand.
#[tactic(auto, using(crate::proofs::Places::here, crate::proofs::Places::nothing_here))]
fn naming_fault(words: &[Word], at: usize) -> PolicyKind
    ensures kind { result ≡ naming_fault is_name_kind (rest_of words.now at) }
    ensures cause { is_word_fault result ≡ true }
{
    match words.get(at) {
        Some(word) if is_name_kind(word.kind) => name_fault(word.text),
        _ => PolicyKind::Syntax,
    }
}

/// Why no profile is named behind the arrow that stands at a place.
pub fn no_name_fault(words: &[Word], at: usize, end: Spot) -> PolicyFault
    ensures fails { IsFaultBy AimFails (rest_of words.now at) end result }
    ensures kind { is_word_fault result.kind ≡ true }
    ensures place { IsPlaceIn words.now end result.at }
{
    if at >= words.len() {
        return fault(PolicyKind::Syntax, words, at, end);
    }
    fault(naming_fault(words, at + 1), words, at + 1, end)
}
