//! Bytes that come from policies, logs and file names, as a terminal may be handed them.

ghost use Rattle.std.specs.Prelude.{◌≡◌, ◌++◌, OnOk};
ghost use Rattle.aa_text.specs.Visible.{visible, all_visible};

use std::alloc::AllocError;

fn shown_as(b: u8) -> u8
    ensures { result ≡ visible b }
{
    if (b < b' ' && b != b'\t') || b == 127 {
        b'?'
    } else {
        b
    }
}

/// Appends bytes as they are shown: each control byte but tab as `?`, and so line ends too, each other byte as it is.
pub fn push_visible(out: &mut Vec<u8>, bytes: &[u8]) -> Result<(), AllocError>
    ensures { OnOk result (out.new.items ≡ out.old.items ++ all_visible bytes.now) }
{
    for b in bytes {
        out.push(shown_as(*b))?;
    }
    Ok(())
}
