//! Patterns as sequences of items.

use crate::item::Item;

/// A sequence of items: it matches a text that can be cut into as many parts as there are items, each matched by its item.
#[derive(Drop)]
pub struct Pattern {
    pub items: Vec<Item>,
}
