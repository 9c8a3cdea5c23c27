//! What is looked for among the answers to a word's requests.

ghost use Rattle.std.specs.Prelude.{◌≡◌, false, slice_index_or};
ghost use Rattle.aa_quantifiers.specs.Aims.{has_label};

use aa_model::{Label, Request};

/// Labels of one policy.
#[derive(Drop)]
pub struct Labels {
    /// Whether that of tasks without a profile is among them.
    pub free: bool,
    /// Whether those of the profiles are, by their numbers.
    pub profiles: Vec<bool>,
}

impl Labels {
    /// Whether a label is among them.
    pub fn has(&self, label: Label) -> bool
        ensures { result ≡ has_label self.now label }
    {
        match label {
            Label::Unconfined(_) => self.free,
            Label::Confined(_, number) => match self.profiles.get(number as usize) {
                Some(is) => *is,
                None => false,
            },
        }
    }
}

/// What is looked for.
#[derive(Clone, Copy)]
pub enum Aim<'l> {
    /// A request that the rules allow, or one that they don't.
    Answered(bool),
    /// A request that the rules allow, and that leads to one of these labels.
    Led(&'l Labels),
}

/// A first request that is answered so.
#[derive(Drop)]
pub enum First {
    Some(Request),
    /// None is; this is one of the word's.
    None(Request),
}
