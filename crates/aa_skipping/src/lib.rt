//! What can be said where some profiles weren't read: which answers those could change, so that all others are those of
//! the whole policy.
//!
//! Where a file is refused and the others are used all the same, no answer may be told that the whole policy wouldn't
//! give. An `Unread` has a `Head` for each profile of which name and attachments are known, and says whether there may
//! be others. `is_undecided` takes it beside the compiled policy of what was read, a label and a request, and is true
//! where such profiles could change the answer; `search_is_open`, `name_is_doubtful` and `way_is_unsure` say so of a
//! search by attachment, a name, and a way to execute. The meaning lies in `undecided`, and the law `skipping_is_sound`
//! states `AnswersStand`: what isn't undecided is answered by the whole policy as without them. Heads are found by
//! `aa_skipped`; sets of requests are left to `aa_quantifiers`, and labels to `aa_differences`.
//!
//! An example, from `aa_decision_tests` (`what_the_rules_refuse_anyway_is_decided`):
//!
//! ```text
//! const DECIDED: &str =
//!     "web x:/opt/denied x:/opt/none change:two|quiet change:two x:/usr/bin/helper";
//! leaves(&rt, UNREAD, false, false, DECIDED);
//! ```
#![tactic(auto)]

mod laws;
mod names;
mod searches;
mod undecided;
mod unread;

pub use laws::skipping_is_sound;
pub use names::{is_of, name_is_doubtful};
pub use searches::search_is_open;
pub use undecided::{is_undecided, way_is_unsure};
pub use unread::{Head, Unread};
