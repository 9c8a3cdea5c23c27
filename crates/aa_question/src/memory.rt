//! Files in memory: texts by their paths, and the folders that these paths make.

ghost use Rattle.std.specs.Prelude.{◌≡◌, ◌≢◌, [], map, option_map, IfOk, IfErr};
ghost use Rattle.aa_files.specs.Searches.{path_in};
ghost use Rattle.aa_files.specs.Orders.{AreInByteOrder};
ghost use Rattle.aa_files.specs.Texts.{texts};
ghost use Rattle.aa_question.specs.Memory.{put_all, text_at, has_slash, name_behind, names_behind, has_front, is_folder, row_of, rows_of};

use aa_base::Unread;
use aa_files::{Content, Tree, joined_path};
use std::alloc::{AllocError, Global};
use std::collections::BTreeMap;
use std::ops::Bound;

/// The most bytes of a text.
const MAX_TEXT: usize = 1048576;

/// Texts by their paths. A folder lies where a text's path goes on behind a slash, and has the texts directly in it.
#[derive(Drop)]
pub struct Texts {
    alloc: Global,
    rows: BTreeMap<Vec<u8>, Vec<u8>>,
}

/// The path and the slash with which the paths of all begin that lies in a folder.
fn front_of(alloc: Global, folder: &[u8]) -> Result<Vec<u8>, AllocError>
    ensures { IfOk result (λ front. front.items ≡ path_in folder.now []) }
{
    joined_path(alloc, folder, &[])
}

fn has_slash(name: &[u8]) -> bool
    ensures { result ≡ has_slash name.now }
{
    name.iter().any(|b| *b == b'/')
}

/// What stands behind a front, where it is the name of a file.
fn name_behind<'p>(path: &'p [u8], front: &[u8]) -> Option<&'p [u8]>
    ensures { option_map (λ name. name.now) result ≡ name_behind front.now path.entry.now }
{
    if !path.starts_with(front) {
        return None;
    }
    let name = &path[front.len()..];
    if has_slash(name) { None } else { Some(name) }
}

fn copy_of(alloc: Global, text: &[u8]) -> Result<Vec<u8>, Unread>
    ensures same { IfOk result (λ copy. copy.items ≡ text.now) }
    ensures there { IfErr result (λ why. why ≢ Unread.NotFound) }
{
    if text.len() > MAX_TEXT {
        return Err(Unread::TooLarge);
    }
    Ok(Vec::from_slice(alloc, text)?)
}

impl Texts {
    /// These texts; of several at one path the first lies there.
    pub fn of(alloc: Global, list: Vec<(Vec<u8>, Vec<u8>)>) -> Result<Texts, AllocError>
        ensures { IfOk result (λ texts. rows_of texts ≡ put_all (map row_of list.items) []) }
    {
        let mut rows = BTreeMap::new(alloc);
        let mut list = list;
        while let Some((path, text)) = list.pop() {
            let _ = rows.insert(path, text)?;
        }
        Ok(Texts { alloc, rows })
    }

    /// The text at a path.
    fn text_at(&self, path: &[u8]) -> Option<&Vec<u8>>
        ensures { option_map (λ text. text.now.items) result ≡ text_at (rows_of self.now) path.now }
    {
        self.rows.get(path)
    }

    /// Whether a path begins with a front: the first does that isn't before it, or none.
    fn has_front(&self, front: &Vec<u8>) -> bool
        ensures { result ≡ has_front front.now.items (rows_of self.now) }
    {
        match self
            .rows
            .range((Bound::Included(front), Bound::Unbounded))
            .next()
        {
            Some((path, _)) => path.as_slice().starts_with(front.as_slice()),
            None => false,
        }
    }

    fn is_folder_at(&self, path: &[u8]) -> Result<bool, AllocError>
        ensures { IfOk result (λ is. is ≡ is_folder (rows_of self.now) path.now) }
    {
        let front = front_of(self.alloc, path)?;
        Ok(self.has_front(&front))
    }

    /// What the paths go on with behind a front, where no slash stands in that, in byte order.
    fn names_behind(&self, alloc: Global, front: &[u8]) -> Result<Vec<Vec<u8>>, AllocError>
        ensures names { IfOk result (λ names. texts names.items ≡ names_behind front.now (rows_of self.now)) }
        ensures ordered { IfOk result (λ names. AreInByteOrder names.items) }
    {
        let mut names = Vec::new(alloc);
        for (path, _) in &self.rows {
            if let Some(name) = name_behind(path.as_slice(), front) {
                names.push(Vec::from_slice(alloc, name)?)?;
            }
        }
        Ok(names)
    }
}

impl Tree for Texts {
    ghost use Rattle.std.specs.Prelude.{Some, codes};
    ghost use Rattle.aa_question.specs.Memory.{text_at, lying_at, taken_at, rows_of};

    ghost files = { λ t. Some (lying_at (rows_of t)) };

    ghost taken = { λ t. Some (taken_at (rows_of t)) };

    ghost input = { λ t. text_at (rows_of t) (codes "-") };

    fn content_at(&self, alloc: Global, path: &[u8]) -> Result<Content, Unread> {
        if let Some(text) = self.text_at(path) {
            return Ok(Content::File(copy_of(alloc, text.as_slice())?));
        }
        let front = front_of(alloc, path)?;
        if !self.has_front(&front) {
            return Err(Unread::NotFound);
        }
        Ok(Content::Folder(self.names_behind(alloc, front.as_slice())?))
    }

    fn is_folder(&self, path: &[u8]) -> Result<bool, Unread> {
        match self.text_at(path) {
            Some(_) => Ok(false),
            None => Ok(self.is_folder_at(path)?),
        }
    }

    fn names_in(&self, alloc: Global, folder: &[u8]) -> Result<Vec<Vec<u8>>, Unread> {
        if self.text_at(folder).is_some() {
            return Err(Unread::NotFound);
        }
        let front = front_of(alloc, folder)?;
        if !self.has_front(&front) {
            return Err(Unread::NotFound);
        }
        Ok(self.names_behind(alloc, front.as_slice())?)
    }

    fn is_taken(&self, path: &[u8]) -> Result<bool, Unread> {
        match self.text_at(path) {
            Some(_) => Ok(true),
            None => Ok(self.is_folder_at(path)?),
        }
    }

    /// The text that is named `-`, as the programs call standard input.
    fn input_text(&self, alloc: Global) -> Result<Vec<u8>, Unread> {
        match self.text_at(b"-") {
            Some(text) => copy_of(alloc, text.as_slice()),
            None => Err(Unread::Failed),
        }
    }
}
