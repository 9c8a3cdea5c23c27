//! What lies at a path.

ghost use Rattle.std.specs.Prelude.{◌≡◌, ◌≢◌, ℕ, List, Option, Some, None, IfOk, IfErr};
ghost use Rattle.aa_files.specs.Folders.{folder_lines};
ghost use Rattle.aa_files.specs.Orders.{AreInByteOrder};
ghost use Rattle.aa_files.specs.Texts.{texts};
ghost use Rattle.aa_files.specs.Files.{Files, Taken};
ghost use Rattle.aa_files.specs.FilesData.{IsInOrder, IsLooked, IsRead, IsFolderTold, IsListed, IsTakenTold, IsInput};

use crate::folder::{can_be_included, folder_text};
use crate::order::put_in_byte_order;
use crate::search::joined_path;
use aa_base::Unread;
use std::alloc::Global;
use std::fs::{self, DirEntry, File, Metadata};
use std::io::Read;

/// The most bytes of a text.
const MAX_TEXT: u64 = 1048576;

/// What lies at a path.
#[derive(Drop)]
pub enum Content {
    File(Vec<u8>),
    /// The names in a folder, in byte order, without those of folders.
    Folder(Vec<Vec<u8>>),
}

/// Where files lie. What lies at its paths may be known to contracts; of the host's files nothing is.
pub trait Tree {
    ghost files: { Self → Option Files };

    ghost taken: { Self → Option Taken };

    ghost input: { Self → Option (List ℕ) };

    /// What lies at a path. `NotFound` says that nothing does, and any other error that this can't be told or read.
    fn content_at(&self, alloc: Global, path: &[u8]) -> Result<Content, Unread>
        ensures looked { IsLooked (files self.now) path.now result }
        ensures ordered { IfOk result (λ content. IsInOrder content) };

    /// Whether a folder lies at a path.
    fn is_folder(&self, path: &[u8]) -> Result<bool, Unread>
        ensures { IsFolderTold (files self.now) path.now result };

    /// The names in a folder, in byte order, without those of folders.
    fn names_in(&self, alloc: Global, folder: &[u8]) -> Result<Vec<Vec<u8>>, Unread>
        ensures listed { IsListed (files self.now) folder.now result }
        ensures ordered { IfOk result (λ names. AreInByteOrder names.items) };

    /// Whether something lies at a path, be it a link that leads nowhere.
    fn is_taken(&self, path: &[u8]) -> Result<bool, Unread>
        ensures { IsTakenTold (taken self.now) path.now result };

    /// The text on standard input.
    fn input_text(&self, alloc: Global) -> Result<Vec<u8>, Unread>
        ensures { IsInput (input self.now) result };
}

/// What is read at a path.
#[derive(Drop)]
pub enum Found {
    Text(Vec<u8>),
    /// A folder, as the text that it stands for where it is included.
    Folder(Vec<u8>),
}

fn path_text(path: &[u8]) -> Result<&str, Unread> {
    match std::str::from_utf8(path) {
        Ok(text) => Ok(text),
        Err(_) => Err(Unread::NotFound),
    }
}

fn within_limit(bytes: Vec<u8>) -> Result<Vec<u8>, Unread> {
    if bytes.len() as u64 > MAX_TEXT {
        return Err(Unread::TooLarge);
    }
    Ok(bytes)
}

fn read_file(rt: &HostRuntime, path: &str) -> Result<Vec<u8>, Unread> {
    let mut file = File::open(rt, path)?;
    let mut bytes = Vec::new(rt.alloc());
    let _ = (&mut file).take(MAX_TEXT + 1).read_to_end(&mut bytes)?;
    within_limit(bytes)
}

/// What a look-up found, if something is there. That it failed otherwise isn't that nothing is there.
fn if_there(looked: Result<Metadata, Unread>) -> Result<Option<Metadata>, Unread>
    ensures there { IfOk looked (λ found. result ≡ Ok (Some found)) }
    ensures nothing { looked ≡ Err Unread.NotFound → result ≡ Ok None }
    ensures failed { IfErr looked (λ why. why ≢ Unread.NotFound → result ≡ Err why) }
{
    match looked {
        Ok(found) => Ok(Some(found)),
        Err(Unread::NotFound) => Ok(None),
        Err(why) => Err(why),
    }
}

/// What lies at a path, if something does: what a link leads to.
fn found_at(rt: &HostRuntime, path: &str) -> Result<Option<Metadata>, Unread> {
    if_there(fs::metadata(rt, path).map_err(Unread::from))
}

/// Whether a folder's entry is read where the folder is included: all but folders are, a link that leads nowhere too.
fn is_read(rt: &HostRuntime, path: &str) -> Result<bool, Unread> {
    match found_at(rt, path)? {
        Some(found) => Ok(!found.is_dir()),
        None => Ok(true),
    }
}

/// Adds the name of a folder's entry, if it is read where the folder is included.
fn push_name(rt: &HostRuntime, entry: &DirEntry, names: &mut Vec<Vec<u8>>) -> Result<(), Unread> {
    if is_read(rt, entry.path().as_str())? {
        names.push(Vec::from_slice(rt.alloc(), entry.file_name().as_bytes())?)?;
    }
    Ok(())
}

/// The names in a folder of the host, as it lists them, without those of folders.
fn listed_names(rt: &HostRuntime, folder: &str) -> Result<Vec<Vec<u8>>, Unread> {
    let mut names = Vec::new(rt.alloc());
    for entry in fs::read_dir(rt, folder)? {
        push_name(rt, &entry?, &mut names)?;
    }
    Ok(names)
}

/// The names in a folder of the host, in byte order, without those of folders.
fn host_names(rt: &HostRuntime, folder: &[u8]) -> Result<Vec<Vec<u8>>, Unread>
    ensures { IfOk result (λ names. AreInByteOrder names.items) }
{
    let mut names = listed_names(rt, path_text(folder)?)?;
    put_in_byte_order(&mut names)?;
    Ok(names)
}

impl Tree for HostRuntime {
    ghost use Rattle.std.specs.Prelude.{None};

    ghost files = { λ _. None };

    ghost taken = { λ _. None };

    ghost input = { λ _. None };

    fn content_at(&self, _alloc: Global, path: &[u8]) -> Result<Content, Unread> {
        let text = path_text(path)?;
        let found = fs::metadata(self, text)?;
        if found.is_dir() {
            return Ok(Content::Folder(host_names(self, path)?));
        }
        if !found.is_file() {
            return Err(Unread::NotAFile);
        }
        Ok(Content::File(read_file(self, text)?))
    }

    fn is_folder(&self, path: &[u8]) -> Result<bool, Unread> {
        match found_at(self, path_text(path)?)? {
            Some(found) => Ok(found.is_dir()),
            None => Ok(false),
        }
    }

    fn names_in(&self, _alloc: Global, folder: &[u8]) -> Result<Vec<Vec<u8>>, Unread> {
        host_names(self, folder)
    }

    fn is_taken(&self, path: &[u8]) -> Result<bool, Unread> {
        let Ok(text) = path_text(path) else {
            return Ok(false);
        };
        let looked = fs::symlink_metadata(self, text).map_err(Unread::from);
        Ok(if_there(looked)?.is_some())
    }

    fn input_text(&self, alloc: Global) -> Result<Vec<u8>, Unread> {
        let mut bytes = Vec::new(alloc);
        let _ = self.reader().take(MAX_TEXT + 1).read_to_end(&mut bytes)?;
        within_limit(bytes)
    }
}

/// The text that a folder stands for, unless a line of it couldn't name its file.
fn read_folder(alloc: Global, folder: &[u8], names: &[Vec<u8>]) -> Result<Vec<u8>, Unread>
    ensures text { IfOk result (λ text. text.items ≡ folder_lines folder.now (texts names.now)) }
    ensures there { IfErr result (λ why. why ≢ Unread.NotFound) }
{
    let mut slices = Vec::new(alloc);
    for name in names {
        if !can_be_included(joined_path(alloc, folder, name.as_slice())?.as_slice()) {
            return Err(Unread::Failed);
        }
        slices.push(name.as_slice())?;
    }
    Ok(folder_text(alloc, folder, slices.as_slice())?)
}

/// The file's text, or the text that a folder stands for.
pub(crate) fn what_lies_at<T: Tree>(alloc: Global, tree: &T, path: &[u8]) -> Result<Found, Unread>
    ensures { IsRead (T.files tree.now) path.now result }
{
    match tree.content_at(alloc, path)? {
        Content::File(text) => Ok(Found::Text(text)),
        Content::Folder(names) => Ok(Found::Folder(read_folder(alloc, path, names.as_slice())?)),
    }
}
