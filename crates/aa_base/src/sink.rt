//! What texts are appended to.

ghost use Rattle.std.specs.Prelude.{◌≡◌, ◌++◌, ◌∷◌, [], ◌<◌, ℕ, List, OnOk};

use std::alloc::AllocError;

/// What texts are appended to: bytes, or a string. After an error it has a part of what was to be appended.
pub trait Sink {
    /// The bytes that it has.
    ghost bytes: { Self → List ℕ };

    /// Appends a character of ASCII.
    fn push_ascii(&mut self, c: u8) -> Result<(), AllocError>
        requires { c < 128 }
        ensures { OnOk result (bytes self.new ≡ bytes self.old ++ c ∷ []) };

    /// Appends a text.
    fn push_all(&mut self, text: &str) -> Result<(), AllocError>
        ensures { OnOk result (bytes self.new ≡ bytes self.old ++ text.now) };
}

impl Sink for Vec<u8> {
    ghost bytes = { λ bytes. bytes.items };

    fn push_ascii(&mut self, c: u8) -> Result<(), AllocError> {
        self.push(c)?;
        Ok(())
    }

    fn push_all(&mut self, text: &str) -> Result<(), AllocError> {
        self.extend_from_slice(text.as_bytes())
    }
}

impl Sink for String {
    ghost use Rattle.std.specs.String.{string_bytes};

    ghost bytes = { string_bytes };

    fn push_ascii(&mut self, c: u8) -> Result<(), AllocError> {
        self.push(char::from(c))
    }

    fn push_all(&mut self, text: &str) -> Result<(), AllocError> {
        self.push_str(text)
    }
}
