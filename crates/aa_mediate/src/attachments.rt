//! Attachments in a list of policies.

ghost use Rattle.std.specs.Prelude.{◌≡◌};
ghost use Rattle.aa_mediate.specs.Attachments.{attached_in, attached_child_in};

use aa_compile::Compiled;

/// The top-level profile of a policy that is attached to a path.
pub(crate) fn attached_in(policies: &[Compiled], policy: u16, path: &[u8]) -> Option<u16>
    ensures { result ≡ attached_in policies.now policy path.now }
{
    match policies.get(policy as usize) {
        Some(compiled) => compiled.attach(path),
        None => None,
    }
}

/// The child of a profile of a policy that is attached to a path.
pub(crate) fn attached_child_in(
    policies: &[Compiled],
    policy: u16,
    parent: u16,
    path: &[u8],
) -> Option<u16>
    ensures { result ≡ attached_child_in policies.now policy parent path.now }
{
    match policies.get(policy as usize) {
        Some(compiled) => compiled.attach_child(parent, path),
        None => None,
    }
}
