//! Where parts lie.

ghost use Rattle.std.specs.Prelude.{◌≡◌, Some, IfOk, IfSome, Option};
ghost use Rattle.aa_command.specs.LogFiles.{LogFiles};

use aa_base::Unread;
use std::alloc::Global;
use std::fs::File;
use std::io::Read;

/// Where parts lie. Their bytes may be known to contracts; those of the host's files aren't.
pub trait Parts {
    ghost parts: { Self → Option LogFiles };

    /// The bytes of the part at a path; the path `-` is standard input.
    fn bytes_at(&self, alloc: Global, path: &[u8]) -> Result<Vec<u8>, Unread>
        ensures { IfOk result (λ bytes. IfSome (parts self.now) (λ files. files path.now ≡ Some bytes.items)) };
}

fn all_of<R: Read>(alloc: Global, reader: &mut R) -> Result<Vec<u8>, Unread> {
    let mut bytes = Vec::new(alloc);
    let _ = reader.read_to_end(&mut bytes)?;
    Ok(bytes)
}

impl Parts for HostRuntime {
    ghost use Rattle.std.specs.Prelude.{None};

    ghost parts = { λ _. None };

    fn bytes_at(&self, alloc: Global, path: &[u8]) -> Result<Vec<u8>, Unread> {
        if path == "-".as_bytes() {
            return all_of(alloc, &mut self.reader());
        }
        match std::str::from_utf8(path) {
            Ok(text) => all_of(alloc, &mut File::open(self, text)?),
            Err(_) => Err(Unread::NotFound),
        }
    }
}
