//! How names are printed.

ghost use Rattle.std.specs.Prelude.{◌≡◌, ◌++◌, OnOk};
ghost use Rattle.aa_base.specs.Values.{value};

use crate::text::push_text;
use aa_base::{plain_text, push_quoted, push_value};
use std::alloc::{AllocError, Global};

/// Appends a name as audit lines have it.
#[tactic(auto, unfolding(aa_base::specs::Values::value))]
pub fn push_name(out: &mut Vec<u8>, alloc: Global, name: &[u8]) -> Result<(), AllocError>
    ensures { OnOk result (out.new.items ≡ out.old.items ++ value name.now) }
{
    if let Some(plain) = plain_text(name) {
        return push_quoted(out, plain);
    }
    let mut text = String::new(alloc);
    push_value(&mut text, name)?;
    push_text(out, text.as_str())
}
