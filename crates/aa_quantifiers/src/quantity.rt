//! How many of a word's requests are granted.

ghost use Rattle.std.specs.Prelude.{◌≡◌, ◌≢◌, ◌+◌, ◌<◌, ◌≤◌, true, Err, IfOk, length};
ghost use Rattle.aa_pattern.specs.Limits.{most_patterns, most_states};
ghost use Rattle.aa_model.specs.declared.request.Request.{Request};
ghost use Rattle.aa_quantifiers.specs.Words.{IsOf, patterns_at, HavePlaces};
ghost use Rattle.aa_quantifiers.specs.Quantities.{IsQuantity, IsQuantityBy, IsShownClean, StandForWord};
ghost use Rattle.aa_quantifiers.specs.Aims.{IsFirst, IsFirstBy, IsFirstClean, IsOther};

use crate::aim::{Aim, First};
use crate::fault::QuantityFault;
use crate::order::Order;
use crate::requests::standing_for;
use crate::shortest::shortest;
use crate::word::Word;
use aa_compile::Compiled;
use aa_model::{Label, Request};
use aa_unclean_paths::is_at_unclean_path;
use std::alloc::Global;

/// How many of a word's requests are granted, with requests that show it.
#[derive(Drop)]
pub enum Quantity {
    /// All: one that is granted.
    Every(Request),
    /// Some: one that is granted, and one that is refused.
    Partly(Request, Request),
    /// None: one that is refused.
    Never(Request),
}

/// By these requests, which stand for those of the word.
fn quantity_by(
    policies: &[Compiled],
    label: Label,
    word: &Word,
    order: Order,
    requests: &[Request],
) -> Result<Quantity, QuantityFault>
    requires { StandForWord policies.now label order word.now requests.now }
    ensures quantity { IfOk result (λ q. IsQuantityBy order policies.now label word.now q) }
    ensures no_request { result ≡ Err QuantityFault.NoRequest → (r : Request) → IsOf word.now r → ⊥ }
    ensures patterns { result ≢ Err QuantityFault.TooManyPatterns }
    ensures states { result ≢ Err QuantityFault.TooManyStates }
{
    let granted = shortest(policies, label, Aim::Answered(true), order, requests)?;
    let refused = shortest(policies, label, Aim::Answered(false), order, requests)?;
    match (granted, refused) {
        (Some(granted), Some(refused)) => Ok(Quantity::Partly(granted, refused)),
        (Some(granted), None) => Ok(Quantity::Every(granted)),
        (None, Some(refused)) => Ok(Quantity::Never(refused)),
        (None, None) => Err(QuantityFault::NoRequest),
    }
}

/// With requests that come first in an order.
fn quantity_in(
    alloc: Global,
    policies: &[Compiled],
    label: Label,
    word: &Word,
    order: Order,
    limit: usize,
) -> Result<Quantity, QuantityFault>
    requires some { 0 < limit }
    requires limit { limit ≤ most_states }
    ensures quantity { IfOk result (λ q. IsQuantityBy order policies.now label word.now q) }
    ensures no_request { result ≡ Err QuantityFault.NoRequest → (r : Request) → IsOf word.now r → ⊥ }
    ensures many_patterns { result ≡ Err QuantityFault.TooManyPatterns → most_patterns < length (patterns_at policies.now label word.now) + 1 }
    ensures few_patterns { IfOk result (λ _. length (patterns_at policies.now label word.now) ≤ most_patterns) }
    ensures many_states { result ≡ Err QuantityFault.TooManyStates → HavePlaces policies.now label word.now (limit + 1) }
{
    let requests = standing_for(alloc, policies, label, word, order, limit)?;
    quantity_by(policies, label, word, order, requests.as_slice())
}

/// Whether the requests that show it are at clean paths.
fn is_shown_clean(quantity: &Quantity) -> bool
    ensures { result ≡ true → IsShownClean quantity.now }
{
    match quantity {
        Quantity::Every(granted) => !is_at_unclean_path(granted),
        Quantity::Partly(granted, refused) => {
            !is_at_unclean_path(granted) && !is_at_unclean_path(refused)
        }
        Quantity::Never(refused) => !is_at_unclean_path(refused),
    }
}

/// How many of a word's requests are granted to a task with that label: all, some or none, with requests that show it: at clean paths
/// where there are such, and of these with the shortest. Unclean paths are told apart only where the shortest of all are unclean. The
/// errors are `TooManyPatterns` and `TooManyStates`, of the patterns that decide at the label with that of the word and maybe one that
/// tells unclean paths, `NoRequest`, where the word asks nothing, and `NoMemory`; an automaton may have at most `limit` states.
pub fn quantity_of(
    alloc: Global,
    policies: &[Compiled],
    label: Label,
    word: &Word,
    limit: usize,
) -> Result<Quantity, QuantityFault>
    requires some { 0 < limit }
    requires limit { limit ≤ most_states }
    ensures quantity { IfOk result (λ q. IsQuantity policies.now label word.now q) }
    ensures no_request { result ≡ Err QuantityFault.NoRequest → (r : Request) → IsOf word.now r → ⊥ }
    ensures many_patterns { result ≡ Err QuantityFault.TooManyPatterns → most_patterns < length (patterns_at policies.now label word.now) + 1 }
    ensures few_patterns { IfOk result (λ _. length (patterns_at policies.now label word.now) ≤ most_patterns) }
    ensures many_states { result ≡ Err QuantityFault.TooManyStates → HavePlaces policies.now label word.now (limit + 1) }
{
    let quantity = quantity_in(alloc, policies, label, word, Order::Short, limit)?;
    if is_shown_clean(&quantity) {
        return Ok(quantity);
    }
    quantity_in(alloc, policies, label, word, Order::Clean, limit)
}

/// A request that is taken where none is answered as is wanted: the first.
fn other_of(requests: &[Request]) -> Result<First, QuantityFault>
    ensures other { IfOk result (λ f. IsOther requests.now f) }
    ensures no_request { result ≡ Err QuantityFault.NoRequest → length requests.now ≡ 0 }
    ensures patterns { result ≢ Err QuantityFault.TooManyPatterns }
    ensures states { result ≢ Err QuantityFault.TooManyStates }
{
    match requests {
        [] => Err(QuantityFault::NoRequest),
        [request, ..] => Ok(First::None(request.try_clone()?)),
    }
}

/// By these requests, which stand for those of the word.
fn first_by(
    policies: &[Compiled],
    label: Label,
    word: &Word,
    aim: Aim<'_>,
    order: Order,
    requests: &[Request],
) -> Result<First, QuantityFault>
    requires { StandForWord policies.now label order word.now requests.now }
    ensures first { IfOk result (λ f. IsFirstBy order policies.now label word.now aim.entry f) }
    ensures no_request { result ≡ Err QuantityFault.NoRequest → (r : Request) → IsOf word.now r → ⊥ }
    ensures patterns { result ≢ Err QuantityFault.TooManyPatterns }
    ensures states { result ≢ Err QuantityFault.TooManyStates }
{
    match shortest(policies, label, aim, order, requests)? {
        Some(request) => Ok(First::Some(request)),
        None => other_of(requests),
    }
}

/// One that comes first in an order.
fn first_in(
    alloc: Global,
    policies: &[Compiled],
    label: Label,
    word: &Word,
    aim: Aim<'_>,
    order: Order,
    limit: usize,
) -> Result<First, QuantityFault>
    requires some { 0 < limit }
    requires limit { limit ≤ most_states }
    ensures first { IfOk result (λ f. IsFirstBy order policies.now label word.now aim.entry f) }
    ensures no_request { result ≡ Err QuantityFault.NoRequest → (r : Request) → IsOf word.now r → ⊥ }
    ensures many_patterns { result ≡ Err QuantityFault.TooManyPatterns → most_patterns < length (patterns_at policies.now label word.now) + 1 }
    ensures few_patterns { IfOk result (λ _. length (patterns_at policies.now label word.now) ≤ most_patterns) }
    ensures many_states { result ≡ Err QuantityFault.TooManyStates → HavePlaces policies.now label word.now (limit + 1) }
{
    let requests = standing_for(alloc, policies, label, word, order, limit)?;
    first_by(policies, label, word, aim, order, requests.as_slice())
}

/// Whether the request that is answered so, if there is one, is at a clean path.
fn is_first_clean(first: &First) -> bool
    ensures { result ≡ true → IsFirstClean first.now }
{
    match first {
        First::Some(request) => !is_at_unclean_path(request),
        First::None(_) => true,
    }
}

/// One of a word's requests that are answered to a task with that label as is wanted, at a clean path where there is one, and of these
/// with a shortest, or else one of the word's. The errors are those of `quantity_of`.
pub fn first_of(
    alloc: Global,
    policies: &[Compiled],
    label: Label,
    word: &Word,
    aim: Aim<'_>,
    limit: usize,
) -> Result<First, QuantityFault>
    requires some { 0 < limit }
    requires limit { limit ≤ most_states }
    ensures first { IfOk result (λ f. IsFirst policies.now label word.now aim.entry f) }
    ensures no_request { result ≡ Err QuantityFault.NoRequest → (r : Request) → IsOf word.now r → ⊥ }
    ensures many_patterns { result ≡ Err QuantityFault.TooManyPatterns → most_patterns < length (patterns_at policies.now label word.now) + 1 }
    ensures few_patterns { IfOk result (λ _. length (patterns_at policies.now label word.now) ≤ most_patterns) }
    ensures many_states { result ≡ Err QuantityFault.TooManyStates → HavePlaces policies.now label word.now (limit + 1) }
{
    let first = first_in(alloc, policies, label, word, aim, Order::Short, limit)?;
    if is_first_clean(&first) {
        return Ok(first);
    }
    first_in(alloc, policies, label, word, aim, Order::Clean, limit)
}
