//! The order in which the files of a folder are read.

ghost use Rattle.std.specs.Prelude.{OnOk};
ghost use Rattle.std.specs.List.Sorted.{IsPermutation};
ghost use Rattle.aa_files.specs.Orders.{AreInByteOrder};

use std::alloc::AllocError;

/// Puts names in byte order, whatever the order is in which a folder lists them.
pub fn put_in_byte_order(names: &mut Vec<Vec<u8>>) -> Result<(), AllocError>
    ensures ordered { OnOk result (AreInByteOrder names.new.items) }
    ensures same { IsPermutation names.old.items names.new.items }
{
    names.sort()
}
