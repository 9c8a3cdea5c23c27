//! What the heads of a unit tell of its profiles.

ghost use Rattle.std.specs.Prelude.{◌≡◌, ◌↔◌, List, map, IsTrue, IfOk};
ghost use Rattle.aa_base.specs.Kinds.{IsRefusal};
ghost use Rattle.aa_words.specs.Splits.{WordData, words_data};
ghost use Rattle.aa_model.specs.declared.policy.Policy.{Policy};
ghost use Rattle.aa_policy.specs.Spelling.{Spells};
ghost use Rattle.aa_diagnostics.specs.Further.{HasWords};
ghost use Rattle.aa_skipped.specs.Heads.{outline, head_of, nothing_known, known_by, HasNoOutline, AreHeadsOf};

use crate::bodies::without_bodies;
use crate::flags::without_flags;
use aa_base::{PolicyFault, PolicyKind, Seq};
use aa_files::Unit;
use aa_load::sources_of;
use aa_model::{Policy, Profile};
use aa_policy::parse;
use aa_skipping::{Head, Unread};
use aa_text::NoMemory;
use aa_words::{WordList, words};
use std::alloc::{AllocError, Global};

/// The words outside of bodies, without flags.
fn outline_of<'s>(alloc: Global, list: &WordList<'s>) -> Result<WordList<'s>, AllocError>
    ensures { IfOk result (λ kept. words_data kept.list.items ≡ outline (words_data list.entry.now.list.items)) }
{
    let outside = without_bodies(alloc, list.list.as_slice())?;
    let kept = without_flags(alloc, outside.as_slice())?;
    Ok(WordList {
        list: kept,
        end: list.end,
    })
}

fn head_of(profile: Profile) -> Head
    ensures { result ≡ head_of profile }
{
    let Profile {
        name,
        attachments,
        ..
    } = profile;
    Head { name, attachments }
}

fn heads_of(alloc: Global, profiles: Vec<Profile>) -> Result<Vec<Head>, AllocError>
    ensures { IfOk result (λ heads. heads.items ≡ map head_of profiles.items) }
{
    let mut heads = Vec::new(alloc);
    for profile in profiles {
        heads.push(head_of(profile))?;
    }
    Ok(heads)
}

/// Profiles with the heads of these, and no others.
fn known_by(alloc: Global, policy: Policy) -> Result<Unread, AllocError>
    ensures { IfOk result (λ unread. unread ≡ known_by policy.profiles) }
{
    let Policy { profiles, .. } = policy;
    Ok(Unread {
        heads: Seq::from_vec(heads_of(alloc, profiles.into_vec())?),
        others: false,
    })
}

/// Any profiles.
pub(crate) fn nothing_known(alloc: Global) -> Unread
    ensures { result ≡ nothing_known }
{
    Unread {
        heads: Seq::from_vec(Vec::new(alloc)),
        others: true,
    }
}

/// The policy that the outline of a unit's words spells.
fn outline_policy(alloc: Global, unit: &Unit) -> Result<Policy, PolicyFault>
    ensures spelled { IfOk result (λ policy. (ws : List WordData) × HasWords unit.now ws × Spells (outline ws) policy) }
    ensures refused { IsRefusal result → HasNoOutline unit.now }
{
    let sources = sources_of(alloc, unit)?;
    let list = words(alloc, &sources, unit.text.as_slice())?;
    let outline = outline_of(alloc, &list)?;
    parse(alloc, &outline)
}

fn is_want_of_memory(fault: PolicyFault) -> bool
    ensures { IsTrue result ↔ (fault.kind ≡ PolicyKind.NoMemory) }
{
    fault.kind == PolicyKind::NoMemory
}

/// What is known of a unit's profiles: where the words of its text outside of bodies, without flags, spell a policy, the heads of that one's
/// profiles; else nothing.
pub fn unread_of(alloc: Global, unit: &Unit) -> Result<Unread, NoMemory>
    ensures { IfOk result (λ unread. AreHeadsOf unit.now unread) }
{
    match outline_policy(alloc, unit) {
        Ok(policy) => Ok(known_by(alloc, policy)?),
        Err(fault) => {
            if is_want_of_memory(fault) {
                return Err(NoMemory);
            }
            Ok(nothing_known(alloc))
        }
    }
}
