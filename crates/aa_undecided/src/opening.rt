//! Which skipped files could decide under which label is asked.

ghost use Rattle.std.specs.Prelude.{◌≡◌, ◌++◌, codes, map, filter, option_map, false, IfOk};
ghost use Rattle.std.specs.List.{list_any};
ghost use Rattle.std.specs.Option.{option_map_or};
ghost use Rattle.aa_notation.specs.Kinds.{request_in};
ghost use Rattle.aa_skipping.specs.Names.{is_doubtful};
ghost use Rattle.aa_undecided.specs.Answers.{placed, placed_all, may_be_called, files_naming_in, files_naming, files_attaching, may_hold_one, holders, files_holding, files_opening};

use crate::answered::SkippedAt;
use crate::deciding::{files_deciding, push_if};
use aa_ask::{Manner, exec_word, name_in_digits};
use aa_command::Decided;
use aa_compile::{Compiled, label_of};
use aa_model::{Label, Request};
use aa_notation::{WordFault, read_word};
use aa_skipped::Skipped;
use aa_skipping::{Unread, name_is_doubtful};
use std::alloc::{AllocError, Global};

fn is_doubtful_if(compiled: &Compiled, unread: &Unread, name: &Option<Vec<u8>>) -> bool
    ensures { result ≡ option_map_or (is_doubtful compiled.now.profiles unread.now) (option_map (λ n. n.items) name.now) false }
{
    match name {
        Some(name) => name_is_doubtful(compiled, unread, name.as_slice()),
        None => false,
    }
}

/// Whether a name may be that of a profile of the file, or what it is in hexadecimal digits.
fn may_be_called(compiled: &Compiled, name: &[u8], digits: &Option<Vec<u8>>, file: &Skipped) -> bool
    ensures { result ≡ may_be_called compiled.now.profiles name.now (option_map (λ n. n.items) digits.now) file.now }
{
    name_is_doubtful(compiled, &file.unread, name) || is_doubtful_if(compiled, &file.unread, digits)
}

fn files_called(
    alloc: Global,
    skipped: &[Skipped],
    name: &[u8],
    digits: &Option<Vec<u8>>,
    compiled: &Compiled,
) -> Result<Vec<SkippedAt>, AllocError>
    ensures { IfOk result (λ files. placed_all files.items ≡ map placed (filter (may_be_called compiled.now.profiles name.now (option_map (λ n. n.items) digits.now)) skipped.now)) }
{
    let mut files = Vec::new(alloc);
    for file in skipped {
        let may = may_be_called(compiled, name, digits, file);
        push_if(alloc, &mut files, may, file)?;
    }
    Ok(files)
}

fn files_naming_in(
    alloc: Global,
    skipped: &[Skipped],
    name: &[u8],
    compiled: &Compiled,
) -> Result<Vec<SkippedAt>, AllocError>
    ensures { IfOk result (λ files. placed_all files.items ≡ files_naming_in skipped.now name.now compiled.now) }
{
    let digits = name_in_digits(alloc, name)?;
    files_called(alloc, skipped, name, &digits, compiled)
}

/// The skipped files that could have the profile of that name, where none that is read has it.
#[tactic(auto, unfolding(crate::specs::Answers::files_naming))]
fn files_naming(
    alloc: Global,
    policies: &[Compiled],
    skipped: &[Skipped],
    name: &[u8],
) -> Result<Vec<SkippedAt>, AllocError>
    ensures { IfOk result (λ files. placed_all files.items ≡ files_naming policies.now skipped.now name.now) }
{
    if label_of(policies, 0, name).is_some() {
        return Ok(Vec::new(alloc));
    }
    match policies.get(0) {
        Some(compiled) => files_naming_in(alloc, skipped, name, compiled),
        None => Ok(Vec::new(alloc)),
    }
}

/// The request of an unconfined task to execute a program, if a program has that path.
fn execution_of(alloc: Global, path: &[u8]) -> Result<Option<Request>, AllocError>
    ensures { IfOk result (λ request. request ≡ request_in false (codes "x:" ++ path.now)) }
{
    let word = exec_word(alloc, path)?;
    match read_word(alloc, word.as_slice(), false) {
        Ok(request) => Ok(Some(request)),
        Err(WordFault::NoRequest) => Ok(None),
        Err(WordFault::NoMemory) => Err(AllocError),
    }
}

/// The skipped files whose profiles could be attached to a program.
#[tactic(auto, unfolding(crate::specs::Answers::files_attaching))]
fn files_attaching(
    alloc: Global,
    policies: &[Compiled],
    skipped: &[Skipped],
    path: &[u8],
) -> Result<Vec<SkippedAt>, AllocError>
    ensures { IfOk result (λ files. placed_all files.items ≡ files_attaching policies.now skipped.now path.now) }
{
    match execution_of(alloc, path)? {
        Some(request) => files_deciding(alloc, policies, skipped, Label::Unconfined(0), &request),
        None => Ok(Vec::new(alloc)),
    }
}

fn may_hold_one(file: &Skipped) -> bool
    ensures { result ≡ may_hold_one file.now }
{
    file.unread.others || !file.unread.heads.as_slice().is_empty()
}

/// Whether one of the skipped files may hold a profile.
pub fn one_may_hold(skipped: &[Skipped]) -> bool
    ensures { result ≡ list_any may_hold_one skipped.now }
{
    skipped.iter().any(|file| may_hold_one(file))
}

/// The skipped files that may hold a profile.
pub fn holders(alloc: Global, skipped: &[Skipped]) -> Result<Vec<SkippedAt>, AllocError>
    ensures { IfOk result (λ files. placed_all files.items ≡ holders skipped.now) }
{
    let mut files = Vec::new(alloc);
    for file in skipped {
        push_if(alloc, &mut files, may_hold_one(file), file)?;
    }
    Ok(files)
}

/// The skipped files that may hold a profile, where not more than one is read.
fn files_holding(
    alloc: Global,
    read: usize,
    skipped: &[Skipped],
) -> Result<Vec<SkippedAt>, AllocError>
    ensures { IfOk result (λ files. placed_all files.items ≡ files_holding read skipped.now) }
{
    if read > 1 {
        return Ok(Vec::new(alloc));
    }
    holders(alloc, skipped)
}

/// The skipped files that could decide under which label is asked.
pub(crate) fn files_opening(
    alloc: Global,
    decided: Decided<'_>,
    skipped: &[Skipped],
    manner: Manner<'_>,
) -> Result<Vec<SkippedAt>, AllocError>
    ensures { IfOk result (λ files. placed_all files.items ≡ files_opening decided.entry skipped.now manner.entry) }
{
    if let Some(name) = manner.profile {
        return files_naming(alloc, decided.policies, skipped, name);
    }
    if let Some(path) = manner.program {
        return files_attaching(alloc, decided.policies, skipped, path);
    }
    files_holding(alloc, decided.places.len(), skipped)
}
