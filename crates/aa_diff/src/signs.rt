//! What is gained and lost where two policies answer differently.

ghost use Rattle.std.specs.Prelude.{◌≡◌};
ghost use Rattle.aa_diff.specs.Signs.{is_called_same, moves_on, unscrubs, gains, sign_by, sign_of, sign_number};

use aa_ask::is_confined;
use aa_compile::{Compiled, name_of_label};
use aa_differences::Difference;
use aa_model::{Answer, Label};

/// What the new answer is beside the old one.
#[derive(Clone, Copy, Debug, PartialEq, Eq)]
pub enum Sign {
    /// It grants more.
    Gain,
    /// It grants less, and nothing more.
    Loss,
    /// Neither.
    Other,
}

fn is_called_same(one: &[Compiled], before: Label, other: &[Compiled], after: Label) -> bool
    ensures { result ≡ is_called_same one.now other.now before after }
{
    name_of_label(one, before) == name_of_label(other, after)
}

/// Whether the former answer confines the task, and the latter doesn't by the same profile.
fn moves_on(one: &[Compiled], before: &Answer, other: &[Compiled], after: &Answer) -> bool
    ensures { result ≡ moves_on one.now other.now before.now after.now }
{
    is_confined(before.label) && !is_called_same(one, before.label, other, after.label)
}

/// Whether the former answer alone scrubs the environment.
fn unscrubs(before: &Answer, after: &Answer) -> bool
    ensures { result ≡ unscrubs before.now after.now }
{
    before.scrub && !after.scrub
}

/// Whether the latter answer grants what the former doesn't.
fn gains(one: &[Compiled], before: &Answer, other: &[Compiled], after: &Answer) -> bool
    ensures { result ≡ gains one.now other.now before.now after.now }
{
    after.granted
        && (!before.granted || moves_on(one, before, other, after) || unscrubs(before, after))
}

fn sign_by(is_gain: bool, is_loss: bool) -> Sign
    ensures { result ≡ sign_by is_gain is_loss }
{
    if is_gain {
        Sign::Gain
    } else if is_loss {
        Sign::Loss
    } else {
        Sign::Other
    }
}

/// Whether a difference is a gain or a loss.
pub fn sign_of(old: &[Compiled], new: &[Compiled], difference: &Difference) -> Sign
    ensures { result ≡ sign_of old.now new.now difference.now }
{
    sign_by(
        gains(old, &difference.old, new, &difference.new),
        gains(new, &difference.new, old, &difference.old),
    )
}

/// Tells signs apart.
pub(crate) fn sign_number(sign: Sign) -> u8
    ensures { result ≡ sign_number sign }
{
    match sign {
        Sign::Gain => 0,
        Sign::Loss => 1,
        Sign::Other => 2,
    }
}
