//! What `ask` answers: verdicts on requests, one after another, with the rules that decided them, and how they are
//! printed.
//!
//! `ask_files` takes settings, `AskOptions` and words, and gives what is printed, by the policy that `with_policy` of
//! `aa_command` makes of the files. There `ask` answers: `opening_label` finds under which label is asked, by a
//! profile's name, by a program or as the only profile; `requests_of` reads the words; and `decide` gives of each
//! request a `Verdict`: the answer, the rules that decided it, and what no rule allows. `push_verdicts` and
//! `push_json_verdicts` print them. The meaning lies in the definitions `answers` and `verdict_on`, and the law
//! `reasons_tell_answers` says that the rules that are named account for the answer. The answer is that of
//! `aa_mediate`; the rules are left to `aa_explain`, and words to `aa_notation`.
//!
//! Shown by tests/policy_files/questions_and_their_rules.
#![tactic(auto)]

mod asking;
mod command;
mod explained;
mod json;
mod naming;
mod reason_laws;
mod refused;
mod shown;
mod unattached;
mod verdict;
mod wildcards;
mod words;

pub use asking::{
    AskFault, Manner, ask, exec_word, is_one_denied, name_in_digits, opening_label, requests_of,
};
pub use command::{AskOptions, ask_files};
pub use explained::{DeciderLine, Lack, unit_of};
pub use json::{push_json_verdicts, push_request};
pub use naming::profiles_named;
pub use reason_laws::reasons_tell_answers;
pub use refused::{many_refused, words_refused};
pub use shown::{push_behind_space, push_reasons, push_verdict, push_verdicts};
pub use unattached::opening_warning;
pub use verdict::{Verdict, asker_of, decide, is_confined, is_same, missing};
pub use wildcards::{
    begins_in_digits, is_in_digits, may_begin, may_stand_for, name_pattern, stands_for,
};
pub use words::{MAX_WORDS, push_words};
