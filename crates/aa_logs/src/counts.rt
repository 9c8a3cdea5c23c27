//! How many requests of a log are answered how, then and now.

ghost use Rattle.std.specs.Prelude.{◌≡◌, ◌+◌, ◌-◌, ◌^◌, ◌<◌, ◌||◌, false, length, min, slice_index_or, slice_set};
ghost use Rattle.aa_logs.specs.Answers.{row_of, column_of, is_newly_denied};
ghost use Rattle.aa_logs.specs.Counts.{count_in, counted, AreNone, HasOneMore};

use crate::answer::{Now, is_newly_denied};
use crate::line::Then;

/// How often each answer came for each that came then: rows and columns in the order in which they are printed.
#[derive(Clone, Copy, Debug)]
pub struct Counts {
    rows: [[u64; 4]; 3],
    has_newly_denied: bool,
}

fn row_of(then: Then) -> usize
    ensures { result ≡ row_of then }
{
    match then {
        Then::Denied => 0,
        Then::Allowed => 1,
        Then::Granted => 2,
    }
}

fn column_of(now: Now) -> usize
    ensures { result ≡ column_of now }
{
    match now {
        Now::Denied => 0,
        Now::Allowed => 1,
        Now::Granted => 2,
        Now::NoProfile => 3,
    }
}

/// A row with one more in that column.
fn with_one(row: [u64; 4], column: usize) -> [u64; 4]
    requires { column < 4 }
    ensures len { length row ≡ 4 }
    ensures one { result ≡ slice_set row column (min (slice_index_or row column 0 + 1) (2 ^ 64 - 1)) }
{
    let mut more = row;
    more[column] = more[column].saturating_add(1);
    more
}

impl Counts {
    /// No request yet.
    pub fn none() -> Counts
        ensures none { AreNone result.rows }
        ensures newly { result.has_newly_denied ≡ false }
    {
        Counts {
            rows: [[0; 4]; 3],
            has_newly_denied: false,
        }
    }

    /// Counts a request more.
    pub fn add(&mut self, then: Then, now: Now)
        ensures counted { self.new.rows ≡ counted (row_of then) (column_of now) self.old.rows }
        ensures one { HasOneMore then now self.old.rows self.new.rows }
        ensures newly { self.new.has_newly_denied ≡ (self.old.has_newly_denied || is_newly_denied then now) }
    {
        let (row, column) = (row_of(then), column_of(now));
        self.rows[row] = with_one(self.rows[row], column);
        self.has_newly_denied = self.has_newly_denied || is_newly_denied(then, now);
    }

    /// How many requests were answered so then and are now.
    pub fn count(&self, then: Then, now: Now) -> u64
        ensures { result ≡ count_in (row_of then) (column_of now) self.now.rows }
    {
        self.rows[row_of(then)][column_of(now)]
    }

    /// Whether something is denied now that wasn't.
    pub fn has_newly_denied(&self) -> bool
        ensures { result ≡ self.now.has_newly_denied }
    {
        self.has_newly_denied
    }
}
