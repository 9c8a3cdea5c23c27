//! Numbers of labels.

ghost use Rattle.std.specs.Prelude.{◌≡◌, ◌<◌};
ghost use Rattle.aa_reachability.specs.Codes.{code, IsFit, most_labels};

use aa_model::Label;

/// How many labels there are at most.
pub(crate) const MAX_LABELS: usize = 4_295_032_832;

/// A number that no other label has.
pub(crate) fn code_of(label: Label) -> u64
    ensures code { result ≡ code label }
    ensures fits { IsFit label }
    ensures below { result < most_labels }
{
    match label {
        Label::Unconfined(policy) => policy as u64,
        Label::Confined(policy, number) => 65_536 + 65_536 * (policy as u64) + number as u64,
    }
}
