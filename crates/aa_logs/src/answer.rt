//! What requests of a log are answered now.

ghost use Rattle.std.specs.Prelude.{◌≡◌};
ghost use Rattle.aa_logs.specs.Answers.{then_name, now_name, answered, stays, is_answer, changes, is_newly_denied};

use crate::line::Then;

/// What a request is answered now.
#[derive(Clone, Copy, Debug, PartialEq, Eq)]
pub enum Now {
    Denied,
    /// Granted by complain mode, against the rules.
    Allowed,
    Granted,
    /// No profile of the policy has that name.
    NoProfile,
}

/// How what became of a request is called.
pub fn then_name(then: Then) -> &'static str
    ensures { result.now ≡ then_name then }
{
    match then {
        Then::Denied => "DENIED",
        Then::Allowed => "ALLOWED",
        Then::Granted => "GRANTED",
    }
}

/// How what a request is answered now is called.
pub fn now_name(now: Now) -> &'static str
    ensures { result.now ≡ now_name now }
{
    match now {
        Now::Denied => "DENIED",
        Now::Allowed => "ALLOWED",
        Now::Granted => "GRANTED",
        Now::NoProfile => "NO-PROFILE",
    }
}

/// What a request is answered, by whether it is granted, and whether by complain mode alone.
pub fn answered(granted: bool, complain: bool) -> Now
    ensures { result ≡ answered granted complain }
{
    if !granted {
        return Now::Denied;
    }
    if complain { Now::Allowed } else { Now::Granted }
}

fn stays(then: Then, now: Now) -> bool
    ensures { result ≡ stays then now }
{
    match (then, now) {
        (Then::Denied, Now::Denied) => true,
        (Then::Allowed, Now::Allowed) => true,
        (Then::Granted, Now::Granted) => true,
        _ => false,
    }
}

fn is_answer(now: Now) -> bool
    ensures { result ≡ is_answer now }
{
    match now {
        Now::NoProfile => false,
        Now::Denied | Now::Allowed | Now::Granted => true,
    }
}

/// Whether a request is answered otherwise now than then, by a profile that is there.
pub fn is_change(then: Then, now: Now) -> bool
    ensures { result ≡ changes then now }
{
    is_answer(now) && !stays(then, now)
}

/// Whether a request is denied now that wasn't.
pub fn is_newly_denied(then: Then, now: Now) -> bool
    ensures { result ≡ is_newly_denied then now }
{
    match (then, now) {
        (Then::Allowed | Then::Granted, Now::Denied) => true,
        _ => false,
    }
}
