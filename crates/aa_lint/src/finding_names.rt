//! The names of findings.

ghost use Rattle.std.specs.Prelude.{◌≡◌, option_map};
ghost use Rattle.std.specs.List.{list_any};
ghost use Rattle.aa_files.specs.Texts.{texts};
ghost use Rattle.aa_text.specs.Nearest.{nearest_name};
ghost use Rattle.aa_lint.specs.Names.{name_of, why_of, all_names, is_called, is_left_out, is_name};

use aa_findings::Kind;
use aa_text::nearest_name;

/// How a finding is called.
pub(crate) fn name_of(kind: Kind) -> &'static str
    ensures { result.now ≡ name_of kind }
{
    match kind {
        Kind::UnconfinedExec => "unconfined-exec",
        Kind::WrittenExec => "write-exec",
        Kind::AllFiles => "all-files",
        Kind::AnyProfile => "any-profile",
        Kind::Duplicate => "duplicate",
        Kind::IdleDeny => "idle-deny",
        Kind::Tie => "tie",
    }
}

/// Why it is one.
pub(crate) fn why_of(kind: Kind) -> &'static str
    ensures { result.now ≡ why_of kind }
{
    match kind {
        Kind::UnconfinedExec => "what it lets execute may end unconfined, as ",
        Kind::WrittenExec => "what it lets write may be executed, as ",
        Kind::AllFiles => "it holds for all files",
        Kind::AnyProfile => "it lets change to every profile, and to none",
        Kind::Duplicate => "it says again what is said at ",
        Kind::IdleDeny => "no rule allows what it denies",
        Kind::Tie => "attached as strongly is ",
    }
}

fn is_called(kind: Kind, name: &[u8]) -> bool
    ensures { result ≡ is_called name.now kind }
{
    name_of(kind).as_bytes() == name
}

/// Whether a finding is called so.
pub(crate) fn is_name(name: &[u8]) -> bool
    ensures { result ≡ is_name name.now }
{
    is_called(Kind::UnconfinedExec, name)
        || is_called(Kind::WrittenExec, name)
        || is_called(Kind::AllFiles, name)
        || is_called(Kind::AnyProfile, name)
        || is_called(Kind::Duplicate, name)
        || is_called(Kind::IdleDeny, name)
        || is_called(Kind::Tie, name)
}

/// The name of a finding that may have been meant by a word that is none.
pub(crate) fn meant_by(word: &[u8]) -> Option<&'static str>
    ensures { option_map (λ name. name.now) result ≡ nearest_name all_names word.now }
{
    let names = [
        name_of(Kind::UnconfinedExec),
        name_of(Kind::WrittenExec),
        name_of(Kind::AllFiles),
        name_of(Kind::AnyProfile),
        name_of(Kind::Duplicate),
        name_of(Kind::IdleDeny),
        name_of(Kind::Tie),
    ];
    nearest_name(&names, word)
}

fn is_one_left_out(kind: Kind, names: &[Vec<u8>]) -> bool
    ensures { result ≡ list_any (λ v. is_called v.items kind) names.now }
{
    names.iter().any(|name| is_called(kind, name.as_slice()))
}

/// Whether one of these names is that of the finding.
pub(crate) fn is_left_out(kind: Kind, names: &[Vec<u8>]) -> bool
    ensures { result ≡ is_left_out (texts names.now) kind }
{
    is_one_left_out(kind, names)
}
