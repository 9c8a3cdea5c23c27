//! What a text's words say as they are written, before any of it is given a meaning.

use crate::heads::HeadTree;
use aa_glob::Vars;
use aa_rules::RuleTree;

/// A child profile as it is written.
#[derive(Drop)]
pub struct ChildTree<'s> {
    pub head: HeadTree<'s>,
    /// Its rules, in their order.
    pub rules: Vec<RuleTree<'s>>,
}

/// A top-level profile with its children as it is written.
#[derive(Drop)]
pub struct FamilyTree<'s> {
    pub head: HeadTree<'s>,
    /// Its rules, in their order.
    pub rules: Vec<RuleTree<'s>>,
    /// Its children, in their order.
    pub children: Vec<ChildTree<'s>>,
}

/// The profile that holds a child.
#[derive(Clone, Copy, Debug)]
pub struct ParentTree<'s> {
    /// Its number, where it has one that a policy may have.
    pub number: Option<u16>,
    /// Its name, as its raw bytes.
    pub name: &'s [u8],
}

/// A profile in the row of all.
#[derive(Drop)]
pub struct ProfileTree<'s> {
    pub head: HeadTree<'s>,
    /// The profile that holds it, if it is a child.
    pub parent: Option<ParentTree<'s>>,
    /// Its rules, in their order.
    pub rules: Vec<RuleTree<'s>>,
}

/// A policy as it is written.
#[derive(Drop)]
pub struct PolicyTree<'s> {
    /// The variables of its preamble.
    pub vars: Vars,
    /// All profiles, a parent before its children.
    pub profiles: Vec<ProfileTree<'s>>,
}
