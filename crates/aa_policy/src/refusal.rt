//! Refusals of paths and names.

ghost use Rattle.std.specs.Prelude.{◌≡◌, ◌≢◌};
ghost use Rattle.aa_base.specs.Kinds.{no_memory};

use aa_base::{PolicyFault, PolicyKind, Spot};

/// A refusal at the word of a path or a name; want of memory points at no word.
pub fn refusal_at(kind: PolicyKind, at: Spot) -> PolicyFault
    ensures kind { result.kind ≡ kind }
    ensures at { kind ≢ PolicyKind.NoMemory → result.at ≡ at }
    ensures memory { kind ≡ PolicyKind.NoMemory → result ≡ no_memory }
{
    match kind {
        PolicyKind::NoMemory => PolicyFault::at_start(kind),
        _ => PolicyFault { kind, at },
    }
}
