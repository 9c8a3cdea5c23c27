//! Gives the policy that a text's words spell.

ghost use Rattle.std.specs.Prelude.{◌≡◌, ◌⊎◌, List, true, IfOk, IfErr};
ghost use Rattle.aa_base.specs.declared.fault.PolicyFault.{PolicyFault};
ghost use Rattle.aa_base.specs.Kinds.{IsRefusal, no_memory};
ghost use Rattle.aa_words.specs.Splits.{WordData, words_data};
ghost use Rattle.aa_policy.specs.Faults.{IsParseRefusal, is_path_only};
ghost use Rattle.aa_policy.specs.Preamble.{IsTwice, IsUndefined, IsRefusedWith};
ghost use Rattle.aa_policy.specs.Bodies.{tree_data};
ghost use Rattle.aa_policy.specs.Meant.{IsWritten, AreMeant, IsMeaningless};
ghost use Rattle.aa_policy.specs.Refusals.{IsStop, IsFault, is_word_only};
ghost use Rattle.aa_policy.specs.Sameness.{SamePolicy};
ghost use Rattle.aa_policy.specs.Spelling.{Spells, IsPathFault, IsDuplicate, IsOverLimits, passed_over_from, text_start};
ghost use Rattle.aa_model.specs.declared.policy.Policy.{Policy};

use crate::expansion::profiles;
use crate::items::tree_of;
use crate::limits::check_names;
use crate::listing::rules_passed_over;
use crate::tree::ProfileTree;
use aa_base::{PolicyFault, PolicyKind, Seq};
use aa_glob::Vars;
use aa_model::{Policy, Profile};
use aa_words::WordList;
use std::alloc::Global;

/// The profiles that are written, looked at one by one and then together.
fn checked_profiles(
    alloc: Global,
    vars: &Vars,
    tree: &[ProfileTree],
) -> Result<Vec<Profile>, PolicyFault>
    ensures meant { IfOk result (λ ps. AreMeant vars.now (tree_data tree.now) ps.items) }
    ensures refused { IfErr result (λ e. (e ≡ no_memory) ⊎ IsMeaningless vars.now (tree_data tree.now) e) }
{
    let kept = profiles(alloc, vars, tree)?;
    check_names(alloc, kept.profiles.as_slice())?;
    if kept.over {
        return Err(PolicyFault::at_start(PolicyKind::TooLarge));
    }
    Ok(kept.profiles)
}

/// The policy that is written.
fn policy_of(alloc: Global, vars: &Vars, tree: &[ProfileTree]) -> Result<Policy, PolicyFault>
    requires written { IsWritten vars.now (tree_data tree.now) }
    ensures meant { IfOk result (λ p. AreMeant vars.now (tree_data tree.now) p.profiles) }
    ensures passed_over { IfOk result (λ p. p.passed_over ≡ passed_over_from 0 (tree_data tree.now)) }
    ensures refused { IfErr result (λ e. (e ≡ no_memory) ⊎ IsMeaningless vars.now (tree_data tree.now) e) }
{
    let profiles = checked_profiles(alloc, vars, tree)?;
    let passed_over = rules_passed_over(alloc, tree)?;
    Ok(Policy {
        profiles: Seq::from_vec(profiles),
        passed_over: Seq::from_vec(passed_over),
    })
}

/// The policy that the words spell (apparmor.d(5), "Profile Head" and "Access Modes").
///
/// It reads in three passes, and answers the first refusal. The first pass goes word by word:
/// `Syntax`, `Unsupported`, `UnknownWord`, `BadMode` and `WriteWithAppend`, at the word at which
/// reading can't go on, or behind the text where it ends too early; `VariableTwice` and
/// `UndefinedVariable` at an assignment's variable. The second goes profile by profile from text to
/// text: the attachment's path, the paths of the file rules, and then the names of the rules on
/// changes of profile. A path is expanded: `BadPattern`, `Unsupported`, `UndefinedVariable`,
/// `VariableCircle`, `TooManyExpansions`, `TooLarge` for an expansion of more than 16,384 bytes,
/// `RelativePath`; a name is one pattern: `BadPattern`, `Unsupported`; each at the text. The third
/// looks at the profiles together: `DuplicateProfile` at the later name, then `TooLarge` at the start
/// of the main text, for more than 4,096 profiles, a full name of more than 1,024 bytes, or more than
/// 65,535 patterns of a profile's rules, of the top-level profiles' attachments, or of those of one
/// parent's children. A limit is noticed where it is passed: from there on patterns of attachments
/// and file rules are let go, but what stands behind is read. `NoMemory` can come at any point.
pub fn parse(alloc: Global, words: &WordList) -> Result<Policy, PolicyFault>
    // The policy that is given is spelled by the words.
    ensures spelled { IfOk result (λ p. Spells (words_data words.now.list.items) p) }
    // Words that are refused for another cause than memory spell no policy.
    ensures refused { IsRefusal result → (p : Policy) → Spells (words_data words.now.list.items) p → ⊥ }

    // What a refusal says that isn't one of a word.
    ensures twice { IfErr result (λ e. e.kind ≡ PolicyKind.VariableTwice → IsTwice (words_data words.now.list.items) e.at) }
    ensures undefined { IfErr result (λ e. e.kind ≡ PolicyKind.UndefinedVariable
        → IsUndefined (words_data words.now.list.items) e.at ⊎ IsPathFault (words_data words.now.list.items) e) }
    ensures at_path { IfErr result (λ e. is_path_only e.kind ≡ true → IsPathFault (words_data words.now.list.items) e) }
    ensures duplicate { IfErr result (λ e. e.kind ≡ PolicyKind.DuplicateProfile → IsDuplicate (words_data words.now.list.items) e.at) }
    ensures too_large { IfErr result (λ e. e.kind ≡ PolicyKind.TooLarge
        → IsPathFault (words_data words.now.list.items) e ⊎ ((e.at ≡ text_start) × IsOverLimits (words_data words.now.list.items))) }
    ensures unwritten { IfErr result (λ e. is_word_only e.kind ≡ true → IsStop words.now.list.items words.now.end e.at) }
    ensures unsupported { IfErr result (λ e. e.kind ≡ PolicyKind.Unsupported
        → IsStop words.now.list.items words.now.end e.at ⊎ IsPathFault (words_data words.now.list.items) e) }
    ensures kinds { IfErr result IsParseRefusal }

    // Each fault of the words that isn't one of a word is what they are refused with.
    ensures exact { (fault : PolicyFault) → IsFault (words_data words.now.list.items) fault → IsRefusedWith fault result }
{
    let tree = tree_of(alloc, words.list.as_slice(), words.end)?;
    policy_of(alloc, &tree.vars, tree.profiles.as_slice())
}

/// Words spell at most one policy. It does nothing: its contract is a law of the language.
pub fn spelled_once()
    ensures { (words : List WordData) (p q : Policy) → Spells words p → Spells words q → SamePolicy p q }
{}
