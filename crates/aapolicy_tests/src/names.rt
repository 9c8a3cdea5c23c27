//! The names in a folder.

ghost use Rattle.std.specs.Prelude.{◌≡◌, IfOk};
ghost use Rattle.std.specs.List.Sorted.{IsPermutation};
ghost use Rattle.aa_files.specs.Orders.{AreInByteOrder};
ghost use Rattle.aa_files.specs.Texts.{texts};

use aa_files::put_in_byte_order;
use std::alloc::{AllocError, Global};

/// The names in a folder, in byte order.
#[derive(Drop)]
pub struct Names {
    pub list: Vec<Vec<u8>>,
    pub ghost ordered: { AreInByteOrder list.items },
}

impl Names {
    /// Names that come in whatever order.
    pub fn of(list: Vec<Vec<u8>>) -> Result<Names, AllocError>
        ensures { IfOk result (λ names. IsPermutation list.items names.list.items) }
    {
        let mut list = list;
        put_in_byte_order(&mut list)?;
        Ok(Names { list })
    }

    /// A copy of them.
    pub(crate) fn copied(&self, alloc: Global) -> Result<Vec<Vec<u8>>, AllocError>
        ensures same { IfOk result (λ copy. texts copy.items ≡ texts self.now.list.items) }
        ensures ordered { IfOk result (λ copy. AreInByteOrder copy.items) }
    {
        let mut copy = Vec::new(alloc);
        for name in &self.list {
            copy.push(Vec::from_slice(alloc, name.as_slice())?)?;
        }
        Ok(copy)
    }
}
