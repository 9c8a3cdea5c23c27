//! How the lines of logs come.

ghost use Rattle.std.specs.Prelude.{◌≡◌, ℕ, ◌++◌, List, Option, Some, OnOk, IfSome};
ghost use Rattle.aa_logs.specs.LogLines.{LogLine, log_lines};
ghost use Rattle.aa_command.specs.LogFiles.{LogFiles};

use aa_base::Unread;
use aa_logs::{Lines, read_log};
use std::alloc::Global;

/// Where logs lie. Their bytes may be known to contracts; those of the host's logs aren't.
pub trait Logs {
    ghost lying: { Self → Option LogFiles };

    /// Hands each line of the log at a path on; the path `-` is standard input.
    fn read_lines<L: Lines>(&self, alloc: Global, path: &[u8], lines: &mut L) -> Result<(), Unread>
        ensures taken { OnOk result (IfSome (lying self.now) (λ files. (bytes : List ℕ) × (files path.now ≡ Some bytes)
            × ((before : List LogLine) → L.has_taken lines.old before → L.has_taken lines.new (before ++ log_lines (L.log lines.old) bytes)))) }
        ensures keeps { OnOk result ((first : L) → L.keeps first lines.old → L.keeps first lines.new) };
}

impl Logs for HostRuntime {
    ghost use Rattle.std.specs.Prelude.{None};

    ghost lying = { λ _. None };

    fn read_lines<L: Lines>(
        &self,
        _alloc: Global,
        path: &[u8],
        lines: &mut L,
    ) -> Result<(), Unread> {
        read_log(self, path, lines)
    }
}

/// A log that can't be read.
#[derive(Clone, Copy)]
pub struct UnreadLog<'a> {
    pub path: &'a [u8],
    pub why: Unread,
}
