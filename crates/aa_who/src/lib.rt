//! What `who` answers: the profiles whose rules allow what words ask, each with the rules.
//!
//! `who_files` takes settings and `WhoOptions` with the words, and gives what is printed. `read_asked` reads a word, as
//! `w:/home/**`, as the requests that it asks; of each profile, and of tasks without one, it is told whether all of
//! them are granted, some or none, and the rules are those of the verdict on the first that is. Complain mode grants
//! nothing here (the law `who_asks_as_enforced`). The meaning lies in the definitions `IsRead`, `IsCounted` and
//! `AreAnswers`. Counting requests is left to `aa_quantifiers`, the verdict to `aa_ask`, the policy of files to
//! `aa_command` and `aa_skipped`. `first_at`, `push_asker` and `push_untold` are there for `aa_assert`.
//!
//! Shown by tests/policy_files/who_may_read_and_write.
#![tactic(auto)]

mod answering;
mod command;
mod counting;
mod fault;
mod granting;
mod json;
mod laws;
mod reading;
mod shown;
mod telling;

pub use command::{WhoOptions, who_files};
pub use counting::{Sought, first_at, push_asker};
pub use fault::{Misread, WhoFault};
pub use laws::who_asks_as_enforced;
pub use reading::read_asked;
pub use shown::push_complains;
pub use telling::{Untold, push_untold, push_untold_lines, push_untold_member};
