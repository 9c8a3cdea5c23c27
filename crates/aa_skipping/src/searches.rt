//! Searches by attachment that profiles which weren't read could change.

ghost use Rattle.std.specs.Prelude.{◌≡◌, None};
ghost use Rattle.std.specs.List.{list_any};
ghost use Rattle.aa_model.specs.Lawful.{has_parent};
ghost use Rattle.aa_skipping.specs.Searches.{beats, beats_at, is_beaten_by, is_rival, has_rival, is_open};

use crate::unread::{Head, Unread};
use aa_compile::{Compiled, is_matched};
use aa_model::Profile;
use aa_pattern::Pattern;

/// Whether the first attaches more strongly where both match.
fn beats(one: &Pattern, other: &Pattern) -> bool
    ensures { result ≡ beats one.now other.now }
{
    !other.is_literal() && (one.is_literal() || other.literal_front() < one.literal_front())
}

fn beats_at(path: &[u8], pattern: &Pattern, other: &Pattern) -> bool
    ensures { result ≡ beats_at path.now pattern.now other.now }
{
    is_matched(other, path) && beats(other, pattern)
}

fn is_top(profile: &Profile) -> bool
    ensures { result ≡ has_parent None profile.now }
{
    profile.parent.is_none()
}

fn some_beats(path: &[u8], pattern: &Pattern, others: &[Pattern]) -> bool
    ensures { result ≡ list_any (beats_at path.now pattern.now) others.now }
{
    others.iter().any(|other| beats_at(path, pattern, other))
}

/// Whether an attachment of a top-level profile matches the path too, and attaches more strongly.
fn is_beaten_by(path: &[u8], pattern: &Pattern, profile: &Profile) -> bool
    ensures { result ≡ is_beaten_by path.now pattern.now profile.now }
{
    is_top(profile) && some_beats(path, pattern, profile.attachments.as_slice())
}

fn is_beaten(profiles: &[Profile], path: &[u8], pattern: &Pattern) -> bool
    ensures { result ≡ list_any (is_beaten_by path.now pattern.now) profiles.now }
{
    profiles
        .iter()
        .any(|profile| is_beaten_by(path, pattern, profile))
}

/// Whether an attachment matches the path, and none of the read profiles attaches more strongly.
fn is_rival(profiles: &[Profile], path: &[u8], pattern: &Pattern) -> bool
    ensures { result ≡ is_rival profiles.now path.now pattern.now }
{
    is_matched(pattern, path) && !is_beaten(profiles, path, pattern)
}

fn has_rival(profiles: &[Profile], path: &[u8], head: &Head) -> bool
    ensures { result ≡ has_rival profiles.now path.now head.now }
{
    head.attachments
        .as_slice()
        .iter()
        .any(|pattern| is_rival(profiles, path, pattern))
}

fn some_has_rival(profiles: &[Profile], path: &[u8], heads: &[Head]) -> bool
    ensures { result ≡ list_any (has_rival profiles.now path.now) heads.now }
{
    heads.iter().any(|head| has_rival(profiles, path, head))
}

/// Whether profiles that weren't read could change which top-level profile is attached to a path. Only where one of their attachments
/// matches it are those of the read profiles looked at.
pub fn search_is_open(compiled: &Compiled, unread: &Unread, path: &[u8]) -> bool
    ensures { result ≡ is_open compiled.now.profiles unread.now path.now }
{
    let profiles = compiled.policy().profiles.as_slice();
    unread.others || some_has_rival(profiles, path, unread.heads.as_slice())
}
