//! What stands before a position.

use aa_pattern::Item;

/// What stands before a position.
#[derive(Drop)]
pub(crate) enum Node<'a> {
    /// Nothing.
    Start,
    /// What stands before the position below, and the item, which is no choice.
    After(&'a Item),
    /// The same as before that position.
    Same(usize),
    /// What stands before a choice, and the choice, whose branches end at those positions.
    Join(Vec<usize>),
}
