//! The text that steps lead by.

ghost use Rattle.std.specs.Prelude.{◌≡◌, ◌<◌, ◌++◌, ℕ, List, IfOk, length, reverse};
ghost use Rattle.aa_regions.specs.Steps.{text_at, AreSpelled, AreEarlier};

use crate::steps::Step;
use aa_base::Text;
use std::alloc::{AllocError, Global};

/// The bytes of the steps up to this one, the last first.
fn backwards(alloc: Global, steps: &[Step], number: usize) -> Result<Vec<u8>, AllocError>
    requires within { number < length steps.now }
    requires earlier { AreEarlier steps.now }
    ensures { IfOk result (λ back. (head : List ℕ) (texts : List (List ℕ)) → AreSpelled head steps.now texts → text_at texts number ≡ head ++ reverse back.items) }
{
    let mut back = Vec::new(alloc);
    let mut at = number;
    while at != 0 {
        let step = steps[at];
        back.push(step.byte)?;
        at = step.from;
    }
    Ok(back)
}

/// The text of a step.
pub(crate) fn spelled(
    alloc: Global,
    head: &[u8],
    steps: &[Step],
    number: usize,
) -> Result<Text, AllocError>
    requires within { number < length steps.now }
    requires earlier { AreEarlier steps.now }
    ensures { IfOk result (λ text. (texts : List (List ℕ)) → AreSpelled head.now steps.now texts → text ≡ text_at texts number) }
{
    let mut back = backwards(alloc, steps, number)?;
    let mut text = Vec::from_slice(alloc, head)?;
    while let Some(byte) = back.pop() {
        text.push(byte)?;
    }
    Ok(Text::from_vec(text))
}
