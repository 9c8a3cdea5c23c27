//! Names that profiles which weren't read may have.

ghost use Rattle.std.specs.Prelude.{◌≡◌, option_map, is_some};
ghost use Rattle.std.specs.List.{list_any};
ghost use Rattle.aa_compile.specs.Transitions.{named};
ghost use Rattle.aa_skipping.specs.declared.unread.Head.{Head};
ghost use Rattle.aa_skipping.specs.Names.{behind, is_end, is_of, may_be_unread, is_doubtful};

use crate::unread::{Head, Unread};
use aa_compile::Compiled;

fn behind<'s>(text: &'s [u8], front: &[u8]) -> Option<&'s [u8]>
    ensures { option_map (λ t. t.now) result ≡ behind front.now text.entry.now }
{
    text.strip_prefix(front)
}

fn is_end(rest: &[u8]) -> bool
    ensures { result ≡ is_end rest.now }
{
    rest.is_empty() || rest.starts_with(b"//")
}

/// Whether a full name is that of the profile, or of a child of it.
pub fn is_of(profile: &[u8], name: &[u8]) -> bool
    ensures { result ≡ is_of profile.now name.now }
{
    match behind(name, profile) {
        Some(rest) => is_end(rest),
        None => false,
    }
}

fn some_has_it(heads: &[Head], name: &[u8]) -> bool
    ensures { result ≡ list_any (λ (h : Head). is_of h.name name.now) heads.now }
{
    heads.iter().any(|head| is_of(head.name.as_slice(), name))
}

fn may_be_unread(unread: &Unread, name: &[u8]) -> bool
    ensures { result ≡ may_be_unread unread.now name.now }
{
    unread.others || some_has_it(unread.heads.as_slice(), name)
}

fn is_read(compiled: &Compiled, name: &[u8]) -> bool
    ensures { result ≡ is_some (named compiled.now.profiles name.now) }
{
    compiled.find(name).is_some()
}

/// Whether no read profile has that full name, and one that wasn't read may have it: so it isn't known whether there is such a profile.
pub fn name_is_doubtful(compiled: &Compiled, unread: &Unread, name: &[u8]) -> bool
    ensures { result ≡ is_doubtful compiled.now.profiles unread.now name.now }
{
    !is_read(compiled, name) && may_be_unread(unread, name)
}
