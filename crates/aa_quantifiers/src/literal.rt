//! The path of a pattern without a wildcard.

ghost use Rattle.std.specs.Prelude.{◌≡◌, IfOk};
ghost use Rattle.std.specs.List.{filter_map};
ghost use Rattle.aa_model.specs.Requests.{is_path};
ghost use Rattle.aa_quantifiers.specs.Literal.{byte_in};

use aa_model::{Request, RequestFault};
use aa_pattern::{Item, Pattern};
use std::alloc::{AllocError, Global};

/// The byte that an item is.
fn byte_in(item: &Item) -> Option<u8>
    ensures { result ≡ byte_in item.now }
{
    match item {
        Item::Byte(byte) => Some(*byte),
        _ => None,
    }
}

/// The bytes of a pattern: where it has no other item, the one path that it can match.
pub(crate) fn literal_path(alloc: Global, pattern: &Pattern) -> Result<Vec<u8>, AllocError>
    ensures { IfOk result (λ path. path.items ≡ filter_map byte_in pattern.now.items.items) }
{
    pattern.items.iter().filter_map(byte_in).collect(alloc)
}

/// Whether a text can be asked for as a path.
pub(crate) fn is_askable(alloc: Global, path: &[u8]) -> Result<bool, AllocError>
    ensures { IfOk result (λ is. is ≡ is_path path.now) }
{
    match Request::exec(alloc, path, true) {
        Ok(_) => Ok(true),
        Err(RequestFault::BadPath) => Ok(false),
        Err(_) => Err(AllocError),
    }
}
