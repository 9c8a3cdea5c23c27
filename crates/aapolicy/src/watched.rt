//! Files and logs whose reading is told of as it goes on.

ghost use Rattle.std.specs.Prelude.{◌≡◌};

use aa_base::Unread;
use aa_command::Logs;
use aa_files::{Content, Tree};
use aa_logs::Lines;
use std::alloc::Global;

/// Who is told of reading as it goes on. Nothing that is read depends on it.
pub(crate) trait Watch {
    /// A file is read.
    fn see_file(&self, path: &[u8]);

    /// A log is begun.
    fn see_log(&self, path: &[u8]);

    /// A line of that log is read, which has so many bytes without its end.
    fn see_line(&self, len: usize);
}

/// Files and logs, and who is told of their reading.
#[derive(Drop)]
pub(crate) struct Watched<'a, T, W> {
    pub(crate) inner: &'a T,
    pub(crate) watch: &'a W,
}

impl<T: Tree, W: Watch> Tree for Watched<'_, T, W> {
    ghost files = { λ w. T.files w.inner.now };

    ghost taken = { λ w. T.taken w.inner.now };

    ghost input = { λ w. T.input w.inner.now };

    fn content_at(&self, alloc: Global, path: &[u8]) -> Result<Content, Unread> {
        let content = self.inner.content_at(alloc, path);
        if matches!(content, Ok(Content::File(_))) {
            self.watch.see_file(path);
        }
        content
    }

    fn is_folder(&self, path: &[u8]) -> Result<bool, Unread> {
        self.inner.is_folder(path)
    }

    fn names_in(&self, alloc: Global, folder: &[u8]) -> Result<Vec<Vec<u8>>, Unread> {
        self.inner.names_in(alloc, folder)
    }

    fn is_taken(&self, path: &[u8]) -> Result<bool, Unread> {
        self.inner.is_taken(path)
    }

    fn input_text(&self, alloc: Global) -> Result<Vec<u8>, Unread> {
        self.inner.input_text(alloc)
    }
}

/// What is done with lines, and who is told of each.
#[derive(Drop)]
struct WatchedLines<'a, L, W> {
    lines: &'a mut L,
    watch: &'a W,
}

impl<L: Lines, W: Watch> Lines for WatchedLines<'_, L, W> {
    ghost log = { λ w. L.log w.lines.now };

    ghost has_taken = { λ w before. L.has_taken w.lines.now before };

    ghost keeps = { λ first last. (last.lines.ghost_name ≡ first.lines.ghost_name)
        × ((l : L) → L.keeps l first.lines.now → L.keeps l last.lines.now) };

    fn take_line(&mut self, alloc: Global, line: &[u8], number: u64) -> Result<(), Unread> {
        self.watch.see_line(line.len());
        self.lines.take_line(alloc, line, number)
    }
}

impl<T: Logs, W: Watch> Logs for Watched<'_, T, W> {
    ghost lying = { λ w. T.lying w.inner.now };

    fn read_lines<L: Lines>(
        &self,
        alloc: Global,
        path: &[u8],
        lines: &mut L,
    ) -> Result<(), Unread> {
        self.watch.see_log(path);
        let mut watched = WatchedLines {
            lines,
            watch: self.watch,
        };
        let done = self.inner.read_lines(alloc, path, &mut watched);
        let WatchedLines { lines, watch: _ } = watched;
        // (without effect at run time: the proof reads here what `lines` holds)
        let _ = &*lines;
        done
    }
}
