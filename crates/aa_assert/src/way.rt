//! A list of requests that leads a task to another label.

ghost use Rattle.std.specs.Prelude.{◌≡◌, ◌++◌, List, map, option_map, IfOk};
ghost use Rattle.aa_model.specs.declared.request.Request.{Request};
ghost use Rattle.aa_notation.specs.Kinds.{word_text};
ghost use Rattle.aa_ask.specs.Told.{asker_of};
ghost use Rattle.aa_reachability.specs.Reach.{led_by};
ghost use Rattle.aa_assert.specs.Passages.{going, as_others, plain, words_by, way_told, way_in};

use aa_ask::{asker_of, is_same};
use aa_compile::Compiled;
use aa_model::{Label, Request};
use aa_notation::word_of;
use aa_reachability::{Going, label_after};
use std::alloc::{AllocError, Global};

/// Who begins, where the list leads, and its requests as words.
#[derive(Drop)]
pub(crate) struct Way {
    /// The full name of the profile in which the task begins; none where it has none.
    pub(crate) asker: Option<Vec<u8>>,
    /// So of that to which it comes.
    pub(crate) to: Option<Vec<u8>>,
    pub(crate) words: Vec<Vec<u8>>,
}

/// The label after a request, where rules are enforced.
pub(crate) fn next(policies: &[Compiled], label: Label, request: &Request) -> Label
    ensures { result ≡ going policies.now label request.now }
{
    let going = Going {
        policies,
        as_enforced: true,
    };
    label_after(going, label, request)
}

/// The label after these requests.
fn last(policies: &[Compiled], from: Label, requests: &[Request]) -> Label
    ensures { result ≡ led_by (going policies.now) from requests.now }
{
    let mut label = from;
    let mut rest = requests;
    while let [request, after @ ..] = rest {
        label = next(policies, label, request);
        rest = after;
    }
    label
}

/// To execute a file of others, where it is one of the task's user's; all else as it is.
fn as_others(alloc: Global, request: &Request) -> Result<Request, AllocError>
    ensures { IfOk result (λ r. r ≡ as_others request.now) }
{
    match request {
        Request::Exec(exec) => match Request::exec(alloc, exec.path(), false) {
            Ok(other) => Ok(other),
            Err(_) => Err(AllocError),
        },
        _ => request.try_clone(),
    }
}

/// The request as others own the file, where that leads to the same label.
fn plain_of(
    alloc: Global,
    policies: &[Compiled],
    label: Label,
    request: &Request,
) -> Result<Request, AllocError>
    ensures { IfOk result (λ r. r ≡ plain policies.now label request.now) }
{
    let other = as_others(alloc, request)?;
    if is_same(
        next(policies, label, &other),
        next(policies, label, request),
    ) {
        Ok(other)
    } else {
        request.try_clone()
    }
}

fn plain_word(
    alloc: Global,
    policies: &[Compiled],
    label: Label,
    request: &Request,
) -> Result<Vec<u8>, AllocError>
    ensures { IfOk result (λ word. word.items ≡ word_text (plain policies.now label request.now)) }
{
    let request = plain_of(alloc, policies, label, request)?;
    word_of(alloc, &request)
}

/// The requests of one task, one after another, as words.
#[tactic(auto, unfolding(crate::specs::Passages::words_by))]
fn words_of(
    alloc: Global,
    policies: &[Compiled],
    from: Label,
    requests: &[Request],
) -> Result<Vec<Vec<u8>>, AllocError>
    ensures { IfOk result (λ words. map (λ word. word.items) words.items ≡ words_by policies.now from requests.now) }
{
    let mut label = from;
    let mut words = Vec::new(alloc);
    let mut rest = requests;
    while let [request, after @ ..] = rest {
        words.push(plain_word(alloc, policies, label, request)?)?;
        label = next(policies, label, request);
        rest = after;
    }
    Ok(words)
}

/// These requests, as they are told.
pub(crate) fn way_of(
    alloc: Global,
    policies: &[Compiled],
    from: Label,
    requests: &[Request],
) -> Result<Way, AllocError>
    ensures { IfOk result (λ w. way_in w ≡ way_told policies.now from requests.now) }
{
    Ok(Way {
        asker: asker_of(alloc, policies, from)?,
        to: asker_of(alloc, policies, last(policies, from, requests))?,
        words: words_of(alloc, policies, from, requests)?,
    })
}
