//! Requests of logs that are decided where files are skipped, and requests that these could decide otherwise.

ghost use Rattle.std.specs.Prelude.{◌≡◌, ◌++◌, map, IfOk, OnOk};
ghost use Rattle.aa_undecided.specs.Answers.{placed_all};
ghost use Rattle.aa_log.specs.declared.logging.Entry.{Entry};
ghost use Rattle.aa_against.specs.Parted.{open_data, files_for, decided_if, open_if, decided_among, open_among};

use aa_command::Decided;
use aa_compile::label_of;
use aa_log::Entry;
use aa_skipped::Skipped;
use aa_undecided::{SkippedAt, files_deciding, files_holding_in};
use std::alloc::{AllocError, Global};

/// A request of logs that is undecided, with the skipped files that could decide it.
#[derive(Drop)]
pub(crate) struct Open<'a> {
    pub entry: &'a Entry,
    pub files: Vec<SkippedAt>,
}

/// Those of some requests that are decided, and the others, each in their order.
#[derive(Drop)]
pub(crate) struct Parted<'a> {
    pub decided: Vec<&'a Entry>,
    pub opens: Vec<Open<'a>>,
}

/// The skipped files that could decide a request of logs.
#[tactic(auto, unfolding(crate::specs::Parted::files_for))]
fn files_for(
    alloc: Global,
    decided: Decided<'_>,
    skipped: &[Skipped],
    entry: &Entry,
) -> Result<Vec<SkippedAt>, AllocError>
    ensures { IfOk result (λ files. placed_all files.items ≡ files_for decided.entry skipped.now entry.now) }
{
    let name = entry.profile.as_slice();
    if let Some(label) = label_of(decided.policies, 0, name) {
        return files_deciding(alloc, decided.policies, skipped, label, &entry.request);
    }
    match decided.policies.get(0) {
        Some(compiled) => files_holding_in(alloc, skipped, name, compiled),
        None => Ok(Vec::new(alloc)),
    }
}

/// Adds a request to those that are decided, or where files could decide it to the others.
fn put<'a>(
    parted: &mut Parted<'a>,
    entry: &'a Entry,
    files: Vec<SkippedAt>,
) -> Result<(), AllocError>
    ensures decided { OnOk result (map (λ e. e.now) parted.new.decided.items ≡ map (λ e. e.now) parted.old.decided.items ++ decided_if entry.entry.now (placed_all files.items)) }
    ensures opens { OnOk result (map open_data parted.new.opens.items ≡ map open_data parted.old.opens.items ++ open_if entry.entry.now (placed_all files.items)) }
{
    match files.as_slice() {
        [] => {
            parted.decided.push(entry)?;
            Ok(())
        }
        [_, ..] => {
            parted.opens.push(Open { entry, files })?;
            Ok(())
        }
    }
}

/// Parts requests of logs by whether skipped files could decide them.
pub(crate) fn part<'a>(
    alloc: Global,
    decided: Decided<'_>,
    skipped: &[Skipped],
    entries: &[&'a Entry],
) -> Result<Parted<'a>, AllocError>
    ensures decided { IfOk result (λ p. map (λ e. e.now) p.decided.items ≡ decided_among decided.entry skipped.now (map (λ e. e.now) entries.now)) }
    ensures opens { IfOk result (λ p. map open_data p.opens.items ≡ open_among decided.entry skipped.now (map (λ e. e.now) entries.now)) }
{
    let mut parted = Parted {
        decided: Vec::new(alloc),
        opens: Vec::new(alloc),
    };
    for entry in entries {
        let files = files_for(alloc, decided, skipped, entry)?;
        put(&mut parted, *entry, files)?;
    }
    Ok(parted)
}
