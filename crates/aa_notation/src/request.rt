//! Parts of an item of a task's list.

ghost use Rattle.std.specs.Prelude.{◌≡◌, ◌++◌, OnOk};
ghost use Rattle.aa_base.specs.Tables.{entry, capability_names, family_names, sock_type_names};
ghost use Rattle.aa_notation.specs.Requests.{member, owned_end, mask_member, single};

use aa_base::{Cap, Family, Perms, SockType, push_mask};
use aa_text::{push_json_bytes, push_key, push_next_key, push_text};
use std::alloc::{AllocError, Global};

/// Appends the first member of an object, whose value is a text.
#[tactic(auto, unfolding(crate::specs::Requests::member))]
pub(crate) fn push_first(
    out: &mut Vec<u8>,
    alloc: Global,
    key: &str,
    bytes: &[u8],
) -> Result<(), AllocError>
    ensures { OnOk result (out.new.items ≡ out.old.items ++ member key.now bytes.now) }
{
    push_key(out, key)?;
    push_json_bytes(out, alloc, bytes)
}

/// Closes the object of a request, whose object the task's user owns or doesn't.
#[tactic(auto, unfolding(crate::specs::Requests::owned_end))]
pub(crate) fn push_owned_end(out: &mut Vec<u8>, owned: bool) -> Result<(), AllocError>
    ensures { OnOk result (out.new.items ≡ out.old.items ++ owned_end owned) }
{
    push_text(out, if owned { ",\"owned\":true}" } else { "}" })
}

#[tactic(auto, unfolding(crate::specs::Requests::mask_member))]
pub(crate) fn push_mask_member(out: &mut Vec<u8>, mask: Perms) -> Result<(), AllocError>
    ensures { OnOk result (out.new.items ≡ out.old.items ++ mask_member mask.0) }
{
    push_next_key(out, "mask")?;
    push_mask(out, mask)
}

/// Appends an object of one text.
#[tactic(auto, unfolding(crate::specs::Requests::single))]
pub(crate) fn push_single(
    out: &mut Vec<u8>,
    alloc: Global,
    key: &str,
    bytes: &[u8],
) -> Result<(), AllocError>
    ensures { OnOk result (out.new.items ≡ out.old.items ++ single key.now bytes.now) }
{
    push_text(out, "{")?;
    push_first(out, alloc, key, bytes)?;
    push_text(out, "}")
}

pub(crate) fn cap_name(cap: Cap) -> &'static [u8]
    ensures { result.now ≡ entry capability_names cap }
{
    cap.name().as_bytes()
}

pub(crate) fn family_name(family: Family) -> &'static [u8]
    ensures { result.now ≡ entry family_names family }
{
    family.name().as_bytes()
}

pub(crate) fn kind_name(kind: SockType) -> &'static [u8]
    ensures { result.now ≡ entry sock_type_names kind }
{
    kind.name().as_bytes()
}
