//! Whether a request is at an unclean path.

ghost use Rattle.std.specs.Prelude.{◌≡◌, ◌↔◌, true};
ghost use Rattle.aa_unclean_paths.specs.Requests.{IsAtUncleanPath, is_at_unclean_path, does_request_count};

use crate::paths::is_unclean;
use aa_model::Request;

/// Whether a path of the request is unclean. One without a path is at none.
pub fn is_at_unclean_path(request: &Request) -> bool
    ensures tells { (result ≡ true) ↔ IsAtUncleanPath request.now }
    ensures value { result ≡ is_at_unclean_path request.now }
{
    match request {
        Request::File(file) => is_unclean(file.path()),
        Request::Link(link) => is_unclean(link.link()) || is_unclean(link.target()),
        Request::Exec(exec) => is_unclean(exec.path()),
        _ => false,
    }
}

/// Whether a request counts: it is at a clean path, or unclean ones count as others.
pub fn does_request_count(unclean: bool, request: &Request) -> bool
    ensures { result ≡ does_request_count unclean request.now }
{
    unclean || !is_at_unclean_path(request)
}
