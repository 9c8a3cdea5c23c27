//! Parts of a word, as they are written.

ghost use Rattle.std.specs.Prelude.{◌≡◌, ◌++◌, OnOk};
ghost use Rattle.std.specs.List.{list_all};
ghost use Rattle.aa_notation.specs.Written.{is_visible, has_arrow, path_text, owned_text};

use crate::split::place_of;
use aa_base::push_hex;
use aa_text::push_text;
use std::alloc::AllocError;

pub(crate) fn is_visible(bytes: &[u8]) -> bool
    ensures { result ≡ list_all is_visible bytes.now }
{
    bytes.iter().all(|b| b'!' <= *b && *b <= b'~')
}

fn has_arrow(bytes: &[u8]) -> bool
    ensures { result ≡ has_arrow bytes.now }
{
    place_of(bytes, "->").is_some()
}

/// Appends a path: its bytes where all of them show and no arrow is among them that would end it, else in hexadecimal digits.
pub(crate) fn push_path(
    out: &mut Vec<u8>,
    path: &[u8],
    ends_at_arrow: bool,
) -> Result<(), AllocError>
    ensures { OnOk result (out.new.items ≡ out.old.items ++ path_text ends_at_arrow path.now) }
{
    if is_visible(path) && !(ends_at_arrow && has_arrow(path)) {
        out.extend_from_slice(path)
    } else {
        push_hex(out, path)
    }
}

pub(crate) fn push_owned(out: &mut Vec<u8>, owned: bool) -> Result<(), AllocError>
    ensures { OnOk result (out.new.items ≡ out.old.items ++ owned_text owned) }
{
    if owned {
        push_text(out, "owned:")?;
    }
    Ok(())
}
