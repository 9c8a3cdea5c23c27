//! Words of reports: what became of requests, and why lines ask nothing.

ghost use Rattle.std.specs.Prelude.{◌≡◌, ◌<◌, ◌-◌, Some, length, map, option_map, slice_get, IfSome};
ghost use Rattle.aa_base.specs.Tables.{entry, number_in};
ghost use Rattle.std.specs.List.{range_with_len};
ghost use Rattle.aa_log.specs.Printed.{reason_text};
ghost use Rattle.aa_merge.specs.Reading.{then_named};
ghost use Rattle.aa_merge.specs.Reasons.{reason_at, reason_named, reason_names, reason_texts};

use aa_logs::Then;

/// The reasons by their names: first the keywords of rules that never decide.
const NAMES: [&str; 28] = [
    "dbus",
    "io_uring",
    "ptrace",
    "signal",
    "mount",
    "umount",
    "remount",
    "pivot_root",
    "set",
    "mqueue",
    "userns",
    "change_hat",
    "change_profile",
    "stack",
    "unix",
    "no-profile",
    "namespace",
    "stacked",
    "no-new-privs",
    "path",
    "mask",
    "name",
    "capability",
    "socket",
    "operation",
    "status",
    "old-form",
    "broken",
];

/// The same as they are printed.
const TEXTS: [&str; 28] = [
    "rule:dbus",
    "rule:io_uring",
    "rule:ptrace",
    "rule:signal",
    "rule:mount",
    "rule:umount",
    "rule:remount",
    "rule:pivot_root",
    "rule:set",
    "rule:mqueue",
    "rule:userns",
    "rule:change_hat",
    "rule:change_profile",
    "rule:stack",
    "rule:unix",
    "no-profile",
    "namespace",
    "stacked",
    "no-new-privs",
    "path",
    "mask",
    "name",
    "capability",
    "socket",
    "operation",
    "status",
    "old-form",
    "broken",
];

/// The number of the last keyword among the names.
const LAST_KEYWORD: usize = 14;

/// What became of a request, by its word.
pub(crate) fn then_named(word: &str) -> Option<Then>
    ensures { result ≡ then_named word.now }
{
    match word {
        "DENIED" => Some(Then::Denied),
        "ALLOWED" => Some(Then::Allowed),
        "GRANTED" => Some(Then::Granted),
        _ => None,
    }
}

fn names() -> &'static [&'static str]
    ensures entries { map (λ entry. entry.now) result.now ≡ reason_names }
    ensures count { length result.now ≡ 28 }
{
    &NAMES
}

fn texts() -> &'static [&'static str]
    ensures entries { map (λ entry. entry.now) result.now ≡ reason_texts }
    ensures count { length result.now ≡ 28 }
    ensures printed { map (λ n. reason_text (reason_at n).0 (reason_at n).1) (range_with_len 0 28) ≡ reason_texts }
{
    &TEXTS
}

/// The number of the entry with that name, if there is one.
fn number_in(table: &[&str], name: &[u8]) -> Option<usize>
    ensures within { IfSome result (λ n. n < length table.now) }
    ensures number { result ≡ number_in (map (λ entry. entry.now) table.now) name.now }
{
    table.iter().position(|entry| entry.as_bytes() == name)
}

/// The name of the entry with that number.
fn name_at<'t>(table: &[&'t str], number: usize) -> &'t str
    requires { number < length table.now }
    ensures { slice_get (map (λ entry. entry.now) table.now) number ≡ Some result.now }
{
    table[number]
}

/// The reason of that number.
fn reason_at(number: usize) -> (u8, &'static str)
    requires { number < 28 }
    ensures order { result.0 ≡ number - 14 }
    ensures name { result.1.now ≡ entry reason_names number }
{
    let order = number.saturating_sub(LAST_KEYWORD) as u8;
    (order, name_at(names(), number))
}

/// The reason that is printed so.
pub(crate) fn reason_named(text: &str) -> Option<(u8, &'static str)>
    ensures { option_map (λ r. (r.0, r.1.now)) result ≡ reason_named text.now }
{
    match number_in(texts(), text.as_bytes()) {
        Some(number) => Some(reason_at(number)),
        None => None,
    }
}
