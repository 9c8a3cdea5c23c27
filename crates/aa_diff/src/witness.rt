//! The first requests of findings, compared.

ghost use Rattle.std.specs.Prelude.{◌≡◌};
ghost use Rattle.aa_diff.specs.Witness.{first_text, second_text, first_number, second_number, request_cmp, witness_cmp, text_cmp, shortness_cmp};

use crate::finding::{Finding, kind_number, who_number};
use aa_model::Request;
use std::cmp::Ordering;

/// The path or the name that is asked for, of a link its own path.
fn first_text(request: &Request) -> &[u8]
    ensures { result.now ≡ first_text request.now }
{
    match request {
        Request::File(file) => file.path(),
        Request::Link(link) => link.link(),
        Request::Exec(exec) => exec.path(),
        Request::Change(change) => change.name(),
        _ => &[],
    }
}

/// A link's target.
fn second_text(request: &Request) -> &[u8]
    ensures { result.now ≡ second_text request.now }
{
    match request {
        Request::Link(link) => link.target(),
        _ => &[],
    }
}

/// The capability, or the family of a socket.
fn first_number(request: &Request) -> u8
    ensures { result ≡ first_number request.now }
{
    match request {
        Request::Cap(cap) => cap.number(),
        Request::Net(family, _) => family.number(),
        _ => 0,
    }
}

/// The type of a socket.
fn second_number(request: &Request) -> u8
    ensures { result ≡ second_number request.now }
{
    match request {
        Request::Net(_, kind) => kind.number(),
        _ => 0,
    }
}

/// Requests go by their kinds, then by their texts in byte order, then by their numbers.
fn compare_requests(one: &Request, other: &Request) -> Ordering
    ensures { result ≡ request_cmp one.now other.now }
{
    let by_kind = kind_number(one).cmp(&kind_number(other));
    let by_first = first_text(one).cmp(first_text(other));
    let by_second = second_text(one).cmp(second_text(other));
    let by_number = first_number(one).cmp(&first_number(other));
    let by_type = second_number(one).cmp(&second_number(other));
    by_kind.then(by_first.then(by_second.then(by_number.then(by_type))))
}

/// Findings go by their first requests, then by their permissions, then by whose objects they hold of.
pub(crate) fn compare_witnesses(one: &Finding, other: &Finding) -> Ordering
    ensures { result ≡ witness_cmp one.now other.now }
{
    let by_request = compare_requests(&one.request, &other.request);
    let by_letters = one.letters.0.cmp(&other.letters.0);
    let by_who = who_number(one.who).cmp(&who_number(other.who));
    by_request.then(by_letters.then(by_who))
}

/// A shorter text goes first, of two of one length the first in byte order.
fn compare_texts(one: &[u8], other: &[u8]) -> Ordering
    ensures { result ≡ text_cmp one.now other.now }
{
    one.len().cmp(&other.len()).then(one.cmp(other))
}

/// So of what is asked for.
pub(crate) fn compare_shortness(one: &Request, other: &Request) -> Ordering
    ensures { result ≡ shortness_cmp one.now other.now }
{
    let by_first = compare_texts(first_text(one), first_text(other));
    by_first.then(compare_texts(second_text(one), second_text(other)))
}
