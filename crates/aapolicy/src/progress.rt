//! How far reading is, told on a terminal: a line on standard error that is written over.

use crate::watched::Watch;
use aa_text::push_visible;
use std::alloc::AllocError;
use std::cell::Cell;
use std::fs;
use std::io::IsTerminal;
use std::time::{Duration, Instant};

/// For how many seconds nothing is told.
const PATIENCE: u64 = 2;

/// For how many milliseconds a line stands at least.
const PAUSE: u64 = 250;

/// After how many lines of a log the clock is looked at.
const STRIDE: u64 = 256;

/// The most bytes of a path that are told, its last ones.
const MOST: usize = 40;

/// What was read so far, and when that is told next.
#[derive(Drop)]
pub(crate) struct Progress<'a> {
    rt: &'a HostRuntime,
    /// When reading began; none where nothing is told, since nobody looks on.
    begun: Option<Instant>,
    /// How long after that the next line is due.
    due: Cell<Duration>,
    is_told: Cell<bool>,
    files: Cell<u64>,
    lines: Cell<u64>,
    /// The bytes of the log so far, and all that it has; 0 where that isn't known.
    passed: Cell<u64>,
    size: Cell<u64>,
}

/// The end of a path, as a terminal may be handed it.
fn shown_path(rt: &HostRuntime, path: &[u8]) -> Result<Vec<u8>, AllocError> {
    let mut shown = Vec::new(rt.alloc());
    let left = path.len().saturating_sub(MOST);
    if left > 0 {
        shown.extend_from_slice("..".as_bytes())?;
    }
    push_visible(&mut shown, &path[left..])?;
    Ok(shown)
}

impl Progress<'_> {
    /// Begins to count. Nothing is told where standard error is no terminal.
    pub(crate) fn new(rt: &HostRuntime) -> Progress<'_> {
        let begun = if rt.stderr().is_terminal() {
            Instant::now(rt).ok()
        } else {
            None
        };
        Progress {
            rt,
            begun,
            due: Cell::new(Duration::from_secs(PATIENCE)),
            is_told: Cell::new(false),
            files: Cell::new(0),
            lines: Cell::new(0),
            passed: Cell::new(0),
            size: Cell::new(0),
        }
    }

    /// Whether a line is due; the next one is due later.
    fn is_due(&self, begun: Instant) -> bool {
        let Ok(passed) = begun.elapsed(self.rt) else {
            return false;
        };
        if passed < self.due.get() {
            return false;
        }
        self.due
            .set(passed.saturating_add(Duration::from_millis(PAUSE)));
        true
    }

    fn tell_file(&self, path: &[u8]) {
        let Ok(shown) = shown_path(self.rt, path) else {
            return;
        };
        let Ok(name) = std::str::from_utf8(shown.as_slice()) else {
            return;
        };
        self.is_told.set(true);
        let files = self.files.get();
        let _ = eprint!(self.rt; "\rread so far: {files} files, now {name}\u{1b}[K");
    }

    fn tell_lines(&self) {
        self.is_told.set(true);
        let lines = self.lines.get();
        let share = self
            .passed
            .get()
            .saturating_mul(100)
            .checked_div(self.size.get());
        let _ = match share {
            Some(share) => {
                eprint!(self.rt; "\rread so far: {lines} lines, {share}% of this log\u{1b}[K")
            }
            None => eprint!(self.rt; "\rread so far: {lines} lines\u{1b}[K"),
        };
    }

    /// Takes away what was told.
    pub(crate) fn end(&self) {
        if self.is_told.get() {
            let _ = eprint!(self.rt; "\r\u{1b}[K");
        }
    }
}

/// How many bytes a log has; 0 where that isn't known.
fn size_of(rt: &HostRuntime, path: &[u8]) -> u64 {
    let Ok(path) = std::str::from_utf8(path) else {
        return 0;
    };
    match fs::metadata(rt, path) {
        Ok(found) => found.len(),
        Err(_) => 0,
    }
}

impl Watch for Progress<'_> {
    fn see_file(&self, path: &[u8]) {
        let Some(begun) = self.begun else {
            return;
        };
        self.files.set(self.files.get().saturating_add(1));
        if self.is_due(begun) {
            self.tell_file(path);
        }
    }

    fn see_log(&self, path: &[u8]) {
        if self.begun.is_some() {
            self.passed.set(0);
            self.size.set(size_of(self.rt, path));
        }
    }

    fn see_line(&self, len: usize) {
        let Some(begun) = self.begun else {
            return;
        };
        let lines = self.lines.get().saturating_add(1);
        self.lines.set(lines);
        self.passed.set(
            self.passed
                .get()
                .saturating_add(len as u64)
                .saturating_add(1),
        );
        if lines % STRIDE == 0 && self.is_due(begun) {
            self.tell_lines();
        }
    }
}
