//! The order in which requests are tried: shorter ones first.

ghost use Rattle.std.specs.Prelude.{◌≡◌, IfOk, IsPermutation, length};
ghost use Rattle.std.specs.List.Sorted.{IsNonDecreasingBy};
ghost use Rattle.aa_reachability.specs.Order.{text_length};

use aa_model::Request;
use std::alloc::AllocError;
use std::cmp::Ordering;

/// The bytes of the path that an execution is of, or of the name that a change asks for.
fn text_in(request: &Request) -> &[u8]
    ensures { length result.now ≡ text_length request.now }
{
    match request {
        Request::Exec(exec) => exec.path(),
        Request::Change(change) => change.name(),
        _ => &[],
    }
}

/// The place of a byte among others: letters come first.
fn rank(byte: u8) -> u8 {
    byte.wrapping_sub(b'a')
}

/// Compares two texts of one length.
fn by_bytes(one: &[u8], other: &[u8]) -> Ordering {
    for (a, b) in one.iter().zip(other.iter()) {
        if *a != *b {
            return rank(*a).cmp(&rank(*b));
        }
    }
    Ordering::Equal
}

fn by_text(one: &Request, other: &Request) -> Ordering {
    let (one, other) = (text_in(one), text_in(other));
    if one.len() != other.len() {
        return one.len().cmp(&other.len());
    }
    by_bytes(one, other)
}

/// How many they are.
fn text_length(request: &Request) -> usize
    ensures { result ≡ text_length request.now }
{
    text_in(request).len()
}

/// The same requests, of one length in the order of their bytes.
fn in_order_of_bytes(mut requests: Vec<Request>) -> Result<Vec<Request>, AllocError>
    ensures { IfOk result (λ rs. IsPermutation requests.items rs.items) }
{
    requests.sort_by(|one, other| by_text(one, other))?;
    Ok(requests)
}

/// The same requests, those with shorter paths or names first.
pub(crate) fn in_order(requests: Vec<Request>) -> Result<Vec<Request>, AllocError>
    ensures same { IfOk result (λ rs. IsPermutation requests.items rs.items) }
    ensures rising { IfOk result (λ rs. IsNonDecreasingBy text_length rs.items) }
{
    let mut requests = in_order_of_bytes(requests)?;
    requests.sort_by_key(|request| text_length(request))?;
    Ok(requests)
}
