//! Which of two requests comes first.

ghost use Rattle.std.specs.Prelude.{◌≡◌, true, false};
ghost use Rattle.aa_quantifiers.specs.Words.{path_length};
ghost use Rattle.aa_quantifiers.specs.Orders.{ComesFirst, Before, Precedes, Follows};

use aa_model::Request;
use aa_unclean_paths::is_at_unclean_path;

/// The order in which requests are looked for.
#[derive(Clone, Copy)]
pub(crate) enum Order {
    /// One with a shorter path comes first.
    Short,
    /// One at a clean path comes before one at an unclean path, and else one with a shorter path.
    Clean,
}

fn path_length(request: &Request) -> usize
    ensures { result ≡ path_length request.now }
{
    match request {
        Request::File(file) => file.path().len(),
        Request::Exec(exec) => exec.path().len(),
        _ => 0,
    }
}

/// Whether one request is at a clean path and another isn't, or neither is so alone and its path is shorter.
fn comes_first(one: &Request, other: &Request) -> bool
    ensures yes { result ≡ true → ComesFirst one.now other.now }
    ensures no { result ≡ false → ComesFirst other.now one.now }
{
    let is_unclean = is_at_unclean_path(one);
    let is_other = is_at_unclean_path(other);
    if is_unclean != is_other {
        return is_other;
    }
    path_length(one) < path_length(other)
}

fn comes_before(order: Order, one: &Request, other: &Request) -> bool
    ensures yes { result ≡ true → Before order one.now other.now }
    ensures no { result ≡ false → Before order other.now one.now }
{
    match order {
        Order::Short => path_length(one) < path_length(other),
        Order::Clean => comes_first(one, other),
    }
}

/// Whether a request comes before the best one, if there is one.
pub(crate) fn is_better(order: Order, request: &Request, best: &Option<Request>) -> bool
    ensures yes { result ≡ true → Precedes order request.now best.now }
    ensures no { result ≡ false → Follows order request.now best.now }
{
    match best {
        Some(best) => comes_before(order, request, best),
        None => true,
    }
}
