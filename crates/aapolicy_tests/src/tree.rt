//! A tree of files in memory.

ghost use Rattle.std.specs.Prelude.{◌≡◌, [], Some, None, option_map, OnOk, OnErr, IfOk, IfErr};
ghost use Rattle.aa_files.specs.Orders.{AreInByteOrder};
ghost use Rattle.aa_files.specs.Texts.{texts, slices};
ghost use Rattle.aa_files.specs.Files.Lying.{File, Folder};
ghost use Rattle.aa_files.specs.FilesData.{lying, IsInOrder};
ghost use Rattle.aapolicy_tests.specs.Planted.{lying_of, planted_at, rows_of, files_of, taken_of, Plants, PlantsFolder};

use crate::names::Names;
use aa_base::Unread;
use aa_files::{Content, Tree};
use std::alloc::{AllocError, Global};

/// What is planted at a path.
#[derive(Drop)]
pub enum Planted {
    File(Vec<u8>),
    Folder(Names),
    /// What can't be read, and why: of a link that leads nowhere, that it isn't found.
    Refused(Unread),
}

/// What lies at which path, and the text on standard input. Of two things that are planted at one path the first lies there.
#[derive(Drop)]
pub struct MemoryTree {
    pub planted: Vec<(Vec<u8>, Planted)>,
    pub input: Vec<u8>,
}

fn planted_at<'t>(planted: &'t [(Vec<u8>, Planted)], path: &[u8]) -> Option<&'t Planted>
    ensures { option_map (λ p. p.now) result ≡ planted_at planted.entry.now path.now }
{
    match planted {
        [] => None,
        [(at, what), rest @ ..] => {
            if at.as_slice() == path {
                Some(what)
            } else {
                planted_at(rest, path)
            }
        }
    }
}

fn copy_of(alloc: Global, planted: &Planted) -> Result<Content, Unread>
    ensures same { IfOk result (λ content. lying_of planted.now ≡ Some (lying content)) }
    ensures ordered { IfOk result IsInOrder }
    ensures nothing { IfErr result (λ why. why ≡ Unread.NotFound → lying_of planted.now ≡ None) }
{
    match planted {
        Planted::File(bytes) => Ok(Content::File(Vec::from_slice(alloc, bytes.as_slice())?)),
        Planted::Folder(names) => Ok(Content::Folder(names.copied(alloc)?)),
        Planted::Refused(why) => Err(*why),
    }
}

fn names_of(alloc: Global, planted: &Planted) -> Result<Vec<Vec<u8>>, Unread>
    ensures same { IfOk result (λ names. lying_of planted.now ≡ Some (Folder (texts names.items))) }
    ensures ordered { IfOk result (λ names. AreInByteOrder names.items) }
{
    match planted {
        Planted::Folder(names) => Ok(names.copied(alloc)?),
        Planted::File(_) => Err(Unread::NotFound),
        Planted::Refused(why) => Err(*why),
    }
}

fn copies_of(alloc: Global, names: &[&str]) -> Result<Vec<Vec<u8>>, AllocError>
    ensures { IfOk result (λ copies. texts copies.items ≡ slices names.now) }
{
    let mut copies = Vec::new(alloc);
    for name in names {
        copies.push(Vec::from_slice(alloc, name.as_bytes())?)?;
    }
    Ok(copies)
}

impl MemoryTree {
    /// A tree in which nothing lies.
    pub fn new(alloc: Global, input: Vec<u8>) -> MemoryTree
        ensures rows { rows_of result ≡ [] }
        ensures input { result.input ≡ input }
    {
        MemoryTree {
            planted: Vec::new(alloc),
            input,
        }
    }

    /// Plants something at a path, behind all that is planted.
    fn plant(&mut self, path: Vec<u8>, what: Planted) -> Result<(), AllocError>
        ensures planted { OnOk result (Plants (path.items, lying_of what) self.old self.new) }
        ensures refused { OnErr result (rows_of self.new ≡ rows_of self.old) }
    {
        self.planted.push((path, what))?;
        Ok(())
    }

    /// Plants a file with its text.
    pub fn plant_file(&mut self, alloc: Global, path: &str, text: &str) -> Result<(), AllocError>
        ensures planted { OnOk result (Plants (path.now, Some (File text.now)) self.old self.new) }
        ensures refused { OnErr result (rows_of self.new ≡ rows_of self.old) }
    {
        let bytes = Vec::from_slice(alloc, text.as_bytes())?;
        let path = Vec::from_slice(alloc, path.as_bytes())?;
        self.plant(path, Planted::File(bytes))
    }

    /// Plants a folder with the names of its files, in whatever order they come.
    pub fn plant_folder(
        &mut self,
        alloc: Global,
        path: &str,
        names: &[&str],
    ) -> Result<(), AllocError>
        ensures planted { OnOk result (PlantsFolder path.now (slices names.now) self.old self.new) }
        ensures refused { OnErr result (rows_of self.new ≡ rows_of self.old) }
    {
        let names = Names::of(copies_of(alloc, names)?)?;
        let path = Vec::from_slice(alloc, path.as_bytes())?;
        self.plant(path, Planted::Folder(names))
    }

    /// Plants what can't be read, and why: of a link that leads nowhere, that it isn't found.
    pub fn plant_refused(
        &mut self,
        alloc: Global,
        path: &str,
        why: Unread,
    ) -> Result<(), AllocError>
        ensures planted { OnOk result (Plants (path.now, None) self.old self.new) }
        ensures refused { OnErr result (rows_of self.new ≡ rows_of self.old) }
    {
        let path = Vec::from_slice(alloc, path.as_bytes())?;
        self.plant(path, Planted::Refused(why))
    }
}

impl Tree for MemoryTree {
    ghost files = { λ t. Some (files_of t) };

    ghost taken = { λ t. Some (taken_of t) };

    ghost input = { λ t. Some t.input.items };

    fn content_at(&self, alloc: Global, path: &[u8]) -> Result<Content, Unread> {
        match planted_at(self.planted.as_slice(), path) {
            Some(planted) => copy_of(alloc, planted),
            None => Err(Unread::NotFound),
        }
    }

    fn is_folder(&self, path: &[u8]) -> Result<bool, Unread> {
        match planted_at(self.planted.as_slice(), path) {
            Some(Planted::Folder(_)) => Ok(true),
            Some(Planted::File(_) | Planted::Refused(_)) | None => Ok(false),
        }
    }

    fn names_in(&self, alloc: Global, folder: &[u8]) -> Result<Vec<Vec<u8>>, Unread> {
        match planted_at(self.planted.as_slice(), folder) {
            Some(planted) => names_of(alloc, planted),
            None => Err(Unread::NotFound),
        }
    }

    fn is_taken(&self, path: &[u8]) -> Result<bool, Unread> {
        Ok(planted_at(self.planted.as_slice(), path).is_some())
    }

    fn input_text(&self, alloc: Global) -> Result<Vec<u8>, Unread> {
        Ok(Vec::from_slice(alloc, self.input.as_slice())?)
    }
}
