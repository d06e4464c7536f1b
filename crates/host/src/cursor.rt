//! A cursor over the folders below a root, which goes from one to the next by those between them alone.

use crate::open_folder::{CHANGED, OpenFolder, Unread};
use crate::overwritten::Node;
use std::alloc::{AllocError, Global};
use std::mem;

/// A folder that was left for one in it.
#[derive(Drop)]
struct Above {
    name: String,
    node: Node,
}

/// A root, or an open folder below it and the way that led there. The folders on the way aren't open, so that a deep
/// folder takes no more open files than another: up it goes by `..`, where that is the folder that it came from.
#[derive(Drop)]
pub struct Cursor {
    /// None at the root.
    folder: Option<OpenFolder>,
    /// Its name from the root on, with a `/` after each part; the root's is empty.
    name: String,
    /// The folders on the way, from the root on.
    above: Vec<Above>,
}

impl Cursor {
    /// At the root.
    pub fn new(alloc: Global) -> Cursor {
        Cursor {
            folder: None,
            name: String::new(alloc),
            above: Vec::new(alloc),
        }
    }

    /// The folder that it is at, by its root.
    pub fn folder<'a>(&'a self, root: &'a OpenFolder) -> &'a OpenFolder {
        match &self.folder {
            Some(folder) => folder,
            None => root,
        }
    }

    /// Goes to the folder that a name from the root on lies in: that of the part up to its last `/`. After a fault it
    /// is at one on the way; once out of memory it is of no more use.
    pub fn go(&mut self, rt: &HostRuntime, root: &OpenFolder, name: &str) -> Result<(), Unread> {
        self.go_up(rt, root, name)?;
        let below = name.strip_prefix(self.name.as_str()).unwrap_or(name);
        if let Some((folders, _)) = below.rsplit_once('/') {
            for folder in folders.split('/') {
                self.enter(rt, root, folder)?;
            }
        }
        Ok(())
    }

    /// Goes up to the first folder that this name lies below; to the root, where somebody has put a folder on the way
    /// elsewhere meanwhile.
    fn go_up(&mut self, rt: &HostRuntime, root: &OpenFolder, name: &str) -> Result<(), Unread> {
        for _ in 0..self.above.len() {
            if name.starts_with(self.name.as_str()) {
                break;
            }
            match self.leave(rt, root) {
                Err(Unread::Fault(_)) => *self = Cursor::new(rt.alloc()),
                left => left?,
            }
        }
        Ok(())
    }

    /// Goes to the folder of this name in the one that it is at.
    fn enter(&mut self, rt: &HostRuntime, root: &OpenFolder, name: &str) -> Result<(), Unread> {
        let from = self.folder(root);
        let node = from.node();
        let folder = from.enter(rt, name)?;
        let whole = format!(in rt.alloc(); "{}{name}/", self.name)?;
        let name = mem::replace(&mut self.name, whole);
        self.above
            .push(Above { name, node })
            .map_err(AllocError::from)?;
        self.folder = Some(folder);
        Ok(())
    }

    /// Goes to the folder that it came from, which is to be the one that the folder is in.
    fn leave(&mut self, rt: &HostRuntime, root: &OpenFolder) -> Result<(), Unread> {
        let folder = self.folder(root).enter(rt, "..")?;
        if self.above.last().map(|above| above.node) != Some(folder.node()) {
            return Err(CHANGED);
        }
        if let Some(above) = self.above.pop() {
            self.name = above.name;
            self.folder = Some(folder);
        }
        Ok(())
    }
}
