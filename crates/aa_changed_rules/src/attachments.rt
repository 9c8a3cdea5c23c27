//! The profile that an execution finds by an attachment, where another policy attaches none of its name.

ghost use Rattle.std.specs.Prelude.{◌≡◌, Some};
ghost use Rattle.std.specs.List.{slice_get};
ghost use Rattle.aa_compile.specs.Labels.{policy_number};
ghost use Rattle.aa_changed_rules.specs.Attachments.{range_by, range_in, range_at, attached_among, name_of, unless_alike, alone_among, found_alone, attached_alone};

use aa_base::Perms;
use aa_compile::Compiled;
use aa_model::{ExecKind, ExecRequest, Label, Profile, Request};
use bitflags::Flags;

/// Among which profiles an execution looks for the one that is attached to its path.
#[derive(Clone, Copy, Debug, PartialEq, Eq)]
enum Range {
    /// Those of the top level.
    Tops,
    /// The children of the task's profile.
    Children,
}

fn range_by(kind: ExecKind, is_named: bool, is_child: bool) -> Option<Range>
    ensures { result ≡ range_by kind is_named is_child }
{
    match kind {
        ExecKind::Profile if !is_named => Some(Range::Tops),
        ExecKind::Child if !is_named && !is_child => Some(Range::Children),
        _ => None,
    }
}

/// Among which an execution by a task in that profile looks, where it looks for one.
fn range_in(
    compiled: &Compiled,
    number: u16,
    profile: &Profile,
    exec: &ExecRequest,
) -> Option<Range>
    requires { slice_get compiled.now.profiles number ≡ Some profile.now }
    ensures { result ≡ range_in exec.now profile.now }
{
    let verdict = compiled.verdict(number, exec.path(), exec.owned());
    if verdict.sets.deny.contains(Perms::EXEC) {
        return None;
    }
    match verdict.chosen.way {
        Some(way) => range_by(way.kind, way.target.is_some(), profile.parent.is_some()),
        None => None,
    }
}

fn range_at(compiled: &Compiled, label: Label, exec: &ExecRequest) -> Option<Range>
    ensures { result ≡ range_at compiled.now label exec.now }
{
    let Label::Confined(_, number) = label else {
        return Some(Range::Tops);
    };
    match compiled.policy().profiles.as_slice().get(number as usize) {
        Some(profile) => range_in(compiled, number, profile, exec),
        None => None,
    }
}

fn attached_among(compiled: &Compiled, label: Label, range: Range, path: &[u8]) -> Option<u16>
    ensures { result ≡ attached_among compiled.now label range path.now }
{
    match (range, label) {
        (Range::Tops, _) => compiled.attach(path),
        (Range::Children, Label::Confined(_, number)) => compiled.attach_child(number, path),
        (Range::Children, Label::Unconfined(_)) => None,
    }
}

fn name_of(compiled: &Compiled, number: u16) -> &[u8]
    ensures { result.now ≡ name_of compiled.now number }
{
    match compiled.policy().profiles.as_slice().get(number as usize) {
        Some(profile) => profile.name.as_slice(),
        None => &[],
    }
}

/// The number, unless the other policy's profile is called alike.
fn unless_alike(
    compiled: &Compiled,
    other: &Compiled,
    number: u16,
    there: Option<u16>,
) -> Option<u16>
    ensures { result ≡ unless_alike compiled.now other.now number there }
{
    match there {
        Some(found) if name_of(compiled, number) == name_of(other, found) => None,
        _ => Some(number),
    }
}

fn alone_among(
    compiled: &Compiled,
    other: &Compiled,
    label: Label,
    there: Label,
    path: &[u8],
    range: Range,
) -> Option<u16>
    ensures { result ≡ alone_among compiled.now other.now label there path.now range }
{
    let number = attached_among(compiled, label, range, path)?;
    let found = attached_among(other, there, range, path);
    unless_alike(compiled, other, number, found)
}

fn found_alone(
    compiled: &Compiled,
    other: &Compiled,
    label: Label,
    there: Label,
    exec: &ExecRequest,
) -> Option<u16>
    ensures { result ≡ found_alone compiled.now other.now label there exec.now }
{
    let range = range_at(compiled, label, exec)?;
    alone_among(compiled, other, label, there, exec.path(), range)
}

/// The number of a label's policy.
fn policy_number(label: Label) -> u16
    ensures { result ≡ policy_number label }
{
    match label {
        Label::Unconfined(policy) => policy,
        Label::Confined(policy, _) => policy,
    }
}

/// The profile of a label's policy that an execution finds by the path, where the other policy attaches none of its name to that: it accounts
/// for a difference between their answers. The task has the label `there` in the other.
#[tactic(auto, unfolding(crate::specs::Attachments::attached_alone))]
pub fn attached_alone(
    policies: &[Compiled],
    others: &[Compiled],
    label: Label,
    there: Label,
    request: &Request,
) -> Option<u16>
    ensures { result ≡ attached_alone policies.now others.now label there request.now }
{
    let Request::Exec(exec) = request else {
        return None;
    };
    let compiled = policies.get(policy_number(label) as usize)?;
    let other = others.get(policy_number(there) as usize)?;
    found_alone(compiled, other, label, there, exec)
}
