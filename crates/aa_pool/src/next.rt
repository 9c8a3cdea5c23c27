//! Values that are handed out one after another.
ghost use Rattle.std.specs.Prelude.{◌≡◌, ◌<◌, ◌∷◌, length};

use std::vec::IntoIter;

/// The next value, where there is one.
pub fn next_of<T: Drop>(values: &mut IntoIter<T>) -> T
    requires { 0 < length values.old.rest.items }
    ensures { values.old.rest.items ≡ result ∷ values.new.rest.items }
{
    match values.next() {
        Some(value) => value,
        None => unreachable!(),
    }
}
