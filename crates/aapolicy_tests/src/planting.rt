//! Trees in memory, as texts. A row begins with `§`: a file is `PATH=TEXT`, a folder `PATH:NAME NAME ..`, and `!PATH` leads nowhere.
//! The helpers have no clauses, so that a test's proof stays short.

use crate::failing::FailingTree;
use crate::tree::MemoryTree;
use aa_base::Unread;
use std::alloc::{AllocError, Global};
use std::cell::Cell;
use std::process::Abort;

fn plant_folder(
    alloc: Global,
    tree: &mut MemoryTree,
    path: &str,
    names: &str,
) -> Result<(), AllocError> {
    let mut list = Vec::new(alloc);
    for name in names.split(' ') {
        if !name.is_empty() {
            list.push(name)?;
        }
    }
    tree.plant_folder(alloc, path, list.as_slice())
}

fn plant_row(alloc: Global, tree: &mut MemoryTree, row: &str) -> Result<(), AllocError> {
    if let Some(path) = row.strip_prefix('!') {
        return tree.plant_refused(alloc, path, Unread::NotFound);
    }
    if let Some((path, text)) = row.split_once('=') {
        return tree.plant_file(alloc, path, text);
    }
    match row.split_once(':') {
        Some((path, names)) => plant_folder(alloc, tree, path, names),
        None => Ok(()),
    }
}

/// The tree of a text, if there is memory for it.
pub(crate) fn planted(alloc: Global, rows: &str) -> Result<MemoryTree, AllocError> {
    let mut tree = MemoryTree::new(alloc, Vec::new(alloc));
    for row in rows.split('§') {
        plant_row(alloc, &mut tree, row)?;
    }
    Ok(tree)
}

/// The tree of a text.
pub(crate) fn tree_of(rt: &(impl Abort + AllocGlobal), rows: &str) -> MemoryTree {
    planted(rt.alloc(), rows).expect(rt, "memory")
}

/// The same beside a path that can't be read.
pub(crate) fn tree_beside(
    rt: &(impl Abort + AllocGlobal),
    rows: &str,
    path: &str,
    why: Unread,
) -> MemoryTree {
    let mut tree = tree_of(rt, rows);
    tree.plant_refused(rt.alloc(), path, why)
        .expect(rt, "memory");
    tree
}

/// Copies of the texts between blanks.
pub(crate) fn copies(alloc: Global, texts: &str) -> Result<Vec<Vec<u8>>, AllocError> {
    let mut copies = Vec::new(alloc);
    for text in texts.split(' ') {
        copies.push(Vec::from_slice(alloc, text.as_bytes())?)?;
    }
    Ok(copies)
}

/// The tree, of whose look-ups one fails: so many are answered before it.
pub(crate) fn failing_behind(tree: &MemoryTree, answered: usize, why: Unread) -> FailingTree<'_> {
    FailingTree {
        tree,
        failing: answered.wrapping_add(1),
        why,
        calls: Cell::new(0),
    }
}
