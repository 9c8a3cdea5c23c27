//! A text that policies may include.

use aa_base::Text;

/// A text that the policies may include, by its name.
#[derive(Drop)]
pub struct Include {
    pub name: Text,
    pub text: Text,
}
