//! A snapshot: files in the order of their names.

ghost use Rattle.std.specs.Prelude.{◌≡◌, ◌<◌, ◌≤◌, ◌++◌, [], ◌∷◌, length, OnOk, OnErr, Option, List, ℕ};
ghost use Rattle.std.specs.List.{list_all, list_any};
ghost use Rattle.paths.specs.Reference.{slash, file_of, position_of, has_folder, lies_in};
ghost use Rattle.paths.specs.Snapshots.{max_files, max_time, max_file_bytes, Follows, comes_before, IsPlace};
ghost use Rattle.paths.specs.Snapshots.{IsSnapshot, HasNoFileAbove};

use crate::File;
use crate::bytes::shared_front;
use crate::name_index::NameIndex;
use std::alloc::{AllocError, Global};
use std::fmt;
use std::marker::{Brand, Model};

/// Names a snapshot in types, by the list of its files: what speaks of one snapshot, as a page of one of its files,
/// takes a type that names it.
pub trait Tree {
    ghost use Rattle.std.specs.Prelude.{List};
    ghost use Rattle.paths.specs.declared.file.File.{File};

    ghost files: { List File };
}

impl Tree for Brand {
    ghost files = { [] };
}

/// The files of a tree at one moment, in the order of their names. Contracts see the list of the files.
#[derive(Drop)]
pub struct Snapshot {
    files: Vec<File>,
    names: NameIndex,
}

impl Model for Snapshot {
    ghost use Rattle.std.specs.Prelude.{List};
    ghost use Rattle.paths.specs.declared.file.File.{File};
    ghost use Rattle.paths.specs.Snapshots.{IsSnapshot};

    ghost Value = { List File };

    ghost view = { λ s. s.files.items };

    ghost invariant = { λ s. IsSnapshot s.files.items };
}

/// It shows the files alone.
impl fmt::Debug for Snapshot {
    fn fmt<W: fmt::Write>(&self, f: &mut fmt::Formatter<W>) -> fmt::Result {
        f.debug_struct("Snapshot")
            .field("files", &self.files)
            .finish()
    }
}

impl Snapshot {
    /// A snapshot without files.
    pub(crate) fn new(alloc: Global) -> Snapshot
        ensures { result ≡ [] }
    {
        Snapshot {
            files: Vec::new(alloc),
            names: NameIndex::empty(alloc),
        }
    }

    /// Adds a file after the others.
    pub(crate) fn push(&mut self, file: File) -> Result<(), AllocError>
        requires { Follows self.old file }
        ensures ok { OnOk result (self.new ≡ self.old ++ file ∷ []) }
        ensures err { OnErr result (self.new ≡ self.old) }
    {
        self.files.push(file)?;
        Ok(())
    }

    /// Notes where each file is, so that the next look for its name finds it at once.
    pub(crate) fn note_names(&mut self, alloc: Global)
        ensures { self.new ≡ self.old }
    {
        self.names = NameIndex::of(alloc, &self.files);
    }

    /// How many files there are, at most 65,536.
    pub fn len(&self) -> usize
        ensures count { result ≡ length self.now }
        ensures limit { result ≤ max_files }
        // The files of every snapshot keep the rules.
        ensures rules { IsSnapshot self.now }
    {
        self.files.len()
    }

    /// The name of a file: the path from the root, its parts joined by `/`.
    pub fn name(&self, file: usize) -> &[u8]
        requires { file < length self.now }
        ensures { result.now ≡ (file_of self.now file).name }
    {
        self.files[file].name.as_slice()
    }

    /// When a file was last changed, in seconds since 1970-01-01.
    pub fn mtime(&self, file: usize) -> u64
        requires { file < length self.now }
        ensures value { result ≡ (file_of self.now file).mtime }
        ensures limit { result ≤ max_time }
    {
        self.files[file].mtime
    }

    /// The bytes of a file, at most 16,777,216.
    pub fn bytes(&self, file: usize) -> &[u8]
        requires { file < length self.now }
        ensures value { result.now ≡ (file_of self.now file).bytes }
        ensures limit { length result.now ≤ max_file_bytes }
    {
        self.files[file].bytes.as_slice()
    }

    /// Where the file of a name is, or where it would stand.
    fn search(&self, name: &[u8]) -> Result<usize, usize>
        ensures { IsPlace self.now name.now result }
    {
        self.files
            .binary_search_by(|file| file.name.as_slice().cmp(name))
    }

    /// The number of the file of a name.
    pub(crate) fn position(&self, name: &[u8]) -> Option<usize>
        ensures place { result ≡ position_of self.now name.now }
        // The files of every snapshot keep the rules.
        ensures rules { IsSnapshot self.now }
    {
        if let Some(file) = self.names.find(&self.files, name) {
            return Some(file);
        }
        match self.search(name) {
            Ok(file) => Some(file),
            Err(_) => None,
        }
    }

    /// Whether some file lies in the folder whose name and a slash are given.
    pub(crate) fn has_folder(&self, name: &[u8]) -> bool
        ensures { (folder : List ℕ) → name.now ≡ folder ++ slash ∷ []
            → result ≡ has_folder self.now folder }
    {
        match self.search(name) {
            Ok(_) => true,
            Err(place) => { place < self.len() && self.name(place).starts_with(name) }
        }
    }

    /// Whether each name comes before this one.
    pub(crate) fn precedes(&self, name: &[u8]) -> bool
        ensures { result ≡ list_all (λ f. comes_before f.name name.now) self.now }
    {
        let count = self.len();
        count == 0 || self.name(count - 1).cmp(name).is_lt()
    }

    /// How many bytes the name shares with that of the last file. No file is a folder in which the last one lies.
    fn shared_with_last(&self, name: &[u8]) -> usize
        ensures bound { result ≤ length name.now }
        ensures above { HasNoFileAbove self.now name.now result }
    {
        match self.files.last() {
            Some(last) => shared_front(last.name.as_slice(), name),
            None => 0,
        }
    }

    /// Whether a file has the name of a folder in which this name lies. The folders that the last file lies in too
    /// aren't looked up.
    pub(crate) fn has_file_above(&self, name: &[u8]) -> bool
        ensures { result ≡ list_any (λ f. lies_in f.name name.now) self.now }
    {
        for at in self.shared_with_last(name)..name.len() {
            if name[at] == b'/' {
                match self.search(&name[..at]) {
                    Ok(_) => return true,
                    Err(_) => continue,
                }
            }
        }
        false
    }
}
