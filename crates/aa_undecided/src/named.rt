//! Skipped files that may hold the profile of a name.

ghost use Rattle.std.specs.Prelude.{◌≡◌, IfOk};
ghost use Rattle.aa_undecided.specs.Answers.{placed_all};
ghost use Rattle.aa_undecided.specs.Named.{may_hold, files_holding_in};

use crate::answered::SkippedAt;
use crate::deciding::push_if;
use aa_compile::Compiled;
use aa_skipped::Skipped;
use aa_skipping::name_is_doubtful;
use std::alloc::{AllocError, Global};

/// Whether a skipped file may hold the profile of a name that none of this policy has.
pub fn may_hold(compiled: &Compiled, name: &[u8], file: &Skipped) -> bool
    ensures { result ≡ may_hold compiled.now.profiles name.now file.now }
{
    name_is_doubtful(compiled, &file.unread, name)
}

/// The skipped files of which that is so.
pub fn files_holding_in(
    alloc: Global,
    skipped: &[Skipped],
    name: &[u8],
    compiled: &Compiled,
) -> Result<Vec<SkippedAt>, AllocError>
    ensures { IfOk result (λ files. placed_all files.items ≡ files_holding_in skipped.now name.now compiled.now) }
{
    let mut files = Vec::new(alloc);
    for file in skipped {
        let holds = may_hold(compiled, name, file);
        push_if(alloc, &mut files, holds, file)?;
    }
    Ok(files)
}
