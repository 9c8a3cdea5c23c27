//! What stands behind an item, one byte on.

ghost use Rattle.std.specs.Prelude.{◌↔◌, IsTrue};
ghost use Rattle.aa_pattern.specs.Flags.{Grows};

use crate::item::Item;
use crate::step::{begins, continues, is_skippable};

/// Whether a text stands behind a simple item, one byte on: `here` and `was_here` say whether it stands before the item now
/// and whether it did before the byte, `was_next` whether it stood behind the item then.
pub(crate) fn goes(item: &Item, byte: u8, here: bool, was_here: bool, was_next: bool) -> bool
    ensures { IsTrue result ↔ Grows item.now byte (IsTrue here) (IsTrue was_here) (IsTrue was_next) }
{
    (here && is_skippable(item))
        || (was_here && begins(item, byte))
        || (was_next && continues(item, byte))
}
