//! Files of which the command line hands in some texts.

ghost use Rattle.std.specs.Prelude.{◌≡◌, Some, None, option_map, IfOk, IfErr};
ghost use Rattle.aa_files.specs.Files.Lying.{File};
ghost use Rattle.aapolicy.specs.Handed.{given_at, lying_of};

use aa_base::Unread;
use aa_files::{Content, Tree};
use std::alloc::Global;

/// The text that is handed in at a path, or why it can't be read.
#[derive(Drop)]
pub(crate) struct Given {
    pub(crate) path: Vec<u8>,
    pub(crate) text: Result<Vec<u8>, Unread>,
}

/// The text that is handed in at a path, if there is one.
pub(crate) fn given_at<'g>(given: &'g [Given], path: &[u8]) -> Option<&'g Given>
    ensures { option_map (λ g. g.now) result ≡ given_at given.entry.now path.now }
{
    given.iter().find(|one| one.path.as_slice() == path)
}

/// A copy of a text that is handed in, or why it can't be read.
fn copy_of(alloc: Global, text: &Result<Vec<u8>, Unread>) -> Result<Vec<u8>, Unread>
    ensures there { IfOk result (λ copy. lying_of text.now ≡ Some (File copy.items)) }
    ensures nothing { IfErr result (λ why. why ≡ Unread.NotFound → lying_of text.now ≡ None) }
{
    match text {
        Ok(text) => Ok(Vec::from_slice(alloc, text.as_slice())?),
        Err(why) => Err(*why),
    }
}

/// Files, in which a text that is handed in lies at its path, and nothing else does there.
#[derive(Drop)]
pub(crate) struct Handed<'a, T: Tree> {
    pub(crate) tree: &'a T,
    pub(crate) given: &'a [Given],
}

impl<T: Tree> Tree for Handed<'_, T> {
    ghost use Rattle.std.specs.Prelude.{option_map};
    ghost use Rattle.aapolicy.specs.Handed.{files_with};

    ghost files = { λ h. option_map (files_with h.given.now) (T.files h.tree.now) };

    ghost taken = { λ h. T.taken h.tree.now };

    ghost input = { λ h. T.input h.tree.now };

    fn content_at(&self, alloc: Global, path: &[u8]) -> Result<Content, Unread> {
        match given_at(self.given, path) {
            Some(one) => Ok(Content::File(copy_of(alloc, &one.text)?)),
            None => self.tree.content_at(alloc, path),
        }
    }

    fn is_folder(&self, path: &[u8]) -> Result<bool, Unread> {
        match given_at(self.given, path) {
            Some(_) => Ok(false),
            None => self.tree.is_folder(path),
        }
    }

    fn names_in(&self, alloc: Global, folder: &[u8]) -> Result<Vec<Vec<u8>>, Unread> {
        match given_at(self.given, folder) {
            Some(_) => Err(Unread::NotAFile),
            None => self.tree.names_in(alloc, folder),
        }
    }

    fn is_taken(&self, path: &[u8]) -> Result<bool, Unread> {
        self.tree.is_taken(path)
    }

    fn input_text(&self, alloc: Global) -> Result<Vec<u8>, Unread> {
        self.tree.input_text(alloc)
    }
}
