//! The decision on a wish.

ghost use Rattle.std.specs.Prelude.{◌≡◌, ◌≢◌, ℕ, ◌<◌, slice_index, false, length, Some, Err};
ghost use Rattle.std.specs.Prelude.{IsSome, IfSome, IsOk, is_none, option_map};
ghost use Rattle.jffs_tree.specs.declared.wish.Cause.TheVariants.{Memory};
ghost use Rattle.jffs_tree.specs.declared.wish.Wish.TheVariants.{Write, Truncate, Rename, Remove};
ghost use Rattle.jffs_tree.specs.declared.wish.Wish.TheVariants.{Copy, Unmount};
ghost use Rattle.jffs_tree.specs.State.{is_directory_in};
ghost use Rattle.jffs_tree.specs.Origin.{holder, state_in};
ghost use Rattle.jffs_inodes.specs.Inodes.{held_in};
ghost use Rattle.jffs_node.specs.Path.{IsPath};
ghost use Rattle.jffs_tree.specs.Deciding.{IsWish};
ghost use Rattle.jffs_tree.specs.Decide.{decide_on, decide_new, parent_in, is_there, has_names};
ghost use Rattle.jffs_tree.specs.Decide.{plain, entry_of, carries_bytes};

use crate::children::any_named;
use crate::look::ROOT;
use crate::tree::Tree;
use crate::wish::{Cause, Limits, NewNode, Wish};
use jffs_inodes::Inode;
use jffs_node::{Bytes, FILE_MAX, Kind, Name, Path, shared};

/// A node that only says what an inode is.
pub(crate) fn plain(found: &Inode, inode: u32) -> NewNode
    ensures { result ≡ plain inode found.now.entry }
{
    NewNode {
        kind: found.kind(),
        deleted: false,
        copy: false,
        inode,
        parent: found.parent(),
        offset: 0,
        rsize: 0,
        size: if found.kind() == Kind::File {
            Some(found.size())
        } else {
            None
        },
        name: Some(found.name()),
        bytes: Bytes::new(),
    }
}

impl Tree {
    /// Whether the inode is a directory, as the root is.
    pub fn is_directory(&self, inode: u32) -> bool
        ensures { result ≡ is_directory_in (state_in self.now) inode }
    {
        matches!(self.kind(inode), Some(Kind::Directory))
    }

    /// Whether what was found of the inode is a directory that has names. A list of nodes that
    /// keeps no rule of a tree may name a file as a parent.
    fn has_names(&self, inode: u32, found: &Inode) -> bool
        requires { held_in self.now inode ≡ Some found.now }
        ensures { result ≡ has_names (state_in self.now) inode }
    {
        (inode == ROOT || found.kind() == Kind::Directory) && any_named(&self.children, inode)
    }

    /// The inode of the names without the last.
    fn parent_of(&self, names: &[Name]) -> Option<u32>
        ensures { result ≡ parent_in (state_in self.now) names.now }
    {
        self.follow(&names[..names.len().saturating_sub(1)])
    }

    /// Whether something stands at the end of the names, of which all but the last lead to
    /// `parent`.
    fn is_taken(&self, parent: u32, names: &[Name]) -> bool
        requires some { length names.now ≢ 0 }
        requires parent { parent_in (state_in self.now) names.now ≡ Some parent }
        ensures { result ≡ is_there (state_in self.now) names.now }
    {
        match names.last() {
            Some(name) => self.child(parent, name).is_some(),
            None => unreachable!(),
        }
    }

    /// A node for a new file or directory.
    #[inline(never)]
    fn decide_new(&self, limits: Limits, kind: Kind, path: &Path) -> Result<NewNode, Cause>
        ensures decided { result ≡ decide_new (state_in self.now) limits kind path.now }
        ensures path { IsPath path.now }
    {
        let names = path.names();
        let Some(name) = names.last() else {
            return Err(Cause::RootFixed);
        };
        let Some(parent) = self.parent_of(names) else {
            return Err(Cause::NoParent);
        };
        if !self.is_directory(parent) {
            return Err(Cause::NoParent);
        }
        if self.is_taken(parent, names) {
            return Err(Cause::NameTaken);
        }
        let Some(inode) = limits.next_inode else {
            return Err(Cause::InodesSpent);
        };
        if limits.next_version.is_none() {
            return Err(Cause::VersionsSpent);
        }
        Ok(NewNode {
            kind,
            deleted: false,
            copy: false,
            inode,
            parent,
            offset: 0,
            rsize: 0,
            size: if kind == Kind::File { Some(0) } else { None },
            name: Some(*name),
            bytes: Bytes::new(),
        })
    }

    /// An inode that is there.
    pub(crate) fn present(&self, inode: u32) -> &Inode
        requires { IsSome (held_in self.now inode) }
        ensures held { held_in self.now inode ≡ Some result.now }
        ensures entry { entry_of (state_in self.now) inode ≡ result.now.entry }
    {
        match self.inode(inode) {
            Some(found) => found,
            None => unreachable!(),
        }
    }

    /// A file that is there; `None` where a directory stands.
    fn file(&self, inode: u32) -> Option<&Inode>
        requires { is_directory_in (state_in self.now) inode ≡ false
            → IsSome (held_in self.now inode) }
        ensures other { is_none result ≡ is_directory_in (state_in self.now) inode }
        ensures entry { IfSome result
            (λ found. entry_of (state_in self.now) inode ≡ found.now.entry) }
    {
        if inode == ROOT {
            return None;
        }
        let found = self.inode(inode)?;
        if found.kind() == Kind::Directory {
            return None;
        }
        Some(found)
    }

    /// What holds a live version.
    fn holder(&self, version: u32) -> Option<(u32, &Inode)>
        ensures { option_map (λ f. (f.0, f.1.now)) result ≡ holder self.now version }
    {
        let inode = self.marks.holder(version)?;
        Some((inode, self.present(inode)))
    }

    #[inline(never)]
    fn decide_write(
        &self,
        limits: Limits,
        path: &Path,
        offset: u32,
        bytes: &Bytes,
    ) -> Result<NewNode, Cause>
        ensures decided { result ≢ Err Memory
            → result ≡ decide_on self.now limits (Write path.now offset bytes.now) }
        ensures bare { length bytes.now ≡ 0
            → result ≡ decide_on self.now limits (Write path.now offset bytes.now) }
        ensures last { result ≡ Err Memory
            → IsOk (decide_on self.now limits (Write path.now offset bytes.now)) }
        ensures small { (k : ℕ) → slice_index bytes.now k < 256 }
    {
        let data = bytes.as_slice();
        let Some(inode) = self.resolve(path) else {
            return Err(Cause::NotFound);
        };
        let Some(found) = self.file(inode) else {
            return Err(Cause::IsDirectory);
        };
        if (limits.data_max as usize) < data.len() {
            return Err(Cause::DataLong);
        }
        if (FILE_MAX as usize) < offset as usize + data.len() {
            return Err(Cause::FileLong);
        }
        if limits.next_version.is_none() {
            return Err(Cause::VersionsSpent);
        }
        let old = found.size();
        let mut node = plain(found, inode);
        let length = data.len() as u32;
        if length == 0 {
            node.offset = offset.min(old);
            return Ok(node);
        }
        node.offset = offset;
        node.rsize = length.min(old.saturating_sub(offset));
        node.size = Some(old.max(offset + length));
        node.bytes = shared(bytes)?;
        Ok(node)
    }

    #[inline(never)]
    fn decide_truncate(&self, limits: Limits, path: &Path, size: u32) -> Result<NewNode, Cause>
        ensures { result ≡ decide_on self.now limits (Truncate path.now size) }
    {
        let Some(inode) = self.resolve(path) else {
            return Err(Cause::NotFound);
        };
        let Some(found) = self.file(inode) else {
            return Err(Cause::IsDirectory);
        };
        if FILE_MAX < size {
            return Err(Cause::FileLong);
        }
        if limits.next_version.is_none() {
            return Err(Cause::VersionsSpent);
        }
        let old = found.size();
        let mut node = plain(found, inode);
        node.offset = size.min(old);
        node.rsize = old - size.min(old);
        node.size = Some(size);
        Ok(node)
    }

    #[inline(never)]
    fn decide_rename(&self, limits: Limits, from: &Path, to: &Path) -> Result<NewNode, Cause>
        ensures decided { result ≡ decide_on self.now limits (Rename from.now to.now) }
        ensures path { IsPath to.now }
    {
        let Some(name) = to.names().last() else {
            return Err(Cause::RootFixed);
        };
        if from.names().is_empty() {
            return Err(Cause::RootFixed);
        }
        let Some(parent) = self.parent_of(to.names()) else {
            return Err(Cause::NoParent);
        };
        if !self.is_directory(parent) {
            return Err(Cause::NoParent);
        }
        if self.is_taken(parent, to.names()) {
            return Err(Cause::NameTaken);
        }
        let Some(inode) = self.resolve(from) else {
            return Err(Cause::NotFound);
        };
        let found = self.present(inode);
        if found.kind() == Kind::Directory && found.parent() != parent {
            return Err(Cause::IsDirectory);
        }
        if limits.next_version.is_none() {
            return Err(Cause::VersionsSpent);
        }
        let mut node = plain(found, inode);
        node.parent = parent;
        node.name = Some(*name);
        Ok(node)
    }

    #[inline(never)]
    fn decide_remove(&self, limits: Limits, path: &Path) -> Result<NewNode, Cause>
        ensures { result ≡ decide_on self.now limits (Remove path.now) }
    {
        if path.names().is_empty() {
            return Err(Cause::RootFixed);
        }
        let Some(inode) = self.resolve(path) else {
            return Err(Cause::NotFound);
        };
        let found = self.present(inode);
        if self.has_names(inode, found) {
            return Err(Cause::NotEmpty);
        }
        if limits.next_version.is_none() {
            return Err(Cause::VersionsSpent);
        }
        let mut node = plain(found, inode);
        node.deleted = true;
        node.size = None;
        Ok(node)
    }

    #[inline(never)]
    fn decide_copy(
        &self,
        limits: Limits,
        source: u32,
        parent: u32,
        name: &Name,
        offset: u32,
        bytes: &Bytes,
    ) -> Result<NewNode, Cause>
        ensures decided { result ≢ Err Memory
            → result ≡ decide_on self.now limits (Copy source parent name.now offset bytes.now) }
        ensures bare { length bytes.now ≡ 0
            → result ≡ decide_on self.now limits (Copy source parent name.now offset bytes.now) }
        ensures last { result ≡ Err Memory
            → IsOk (decide_on self.now limits (Copy source parent name.now offset bytes.now)) }
    {
        if (limits.data_max as usize) < bytes.len() {
            return Err(Cause::DataLong);
        }
        let Some((inode, found)) = self.holder(source) else {
            return Err(Cause::NotNeeded);
        };
        if !found.is_child(parent, name) || !found.is_current(offset, bytes.as_slice()) {
            return Err(Cause::Stale);
        }
        if limits.next_version.is_none() {
            return Err(Cause::VersionsSpent);
        }
        let mut node = plain(found, inode);
        node.copy = true;
        node.offset = offset;
        node.rsize = bytes.len() as u32;
        node.bytes = shared(bytes)?;
        Ok(node)
    }

    /// The node of a wish. Of every wish it is true that a new path is a path and that data are
    /// bytes, as `decided_nodes_keep_rules` asks.
    ///
    /// The first cause against the wish, of those from `RootFixed` to `InodesSpent`. `Memory` if
    /// nothing stands against it, but its bytes can't be shared: allocation failed.
    pub fn decide(&self, limits: Limits, wish: &Wish) -> Result<NewNode, Cause>
        ensures decided { result ≢ Err Memory → result ≡ decide_on self.now limits wish.now }
        ensures bare { carries_bytes wish.now ≡ false
            → result ≡ decide_on self.now limits wish.now }
        ensures last { result ≡ Err Memory → IsOk (decide_on self.now limits wish.now) }
        ensures wish { IsWish wish.now }
    {
        // Each of these stays a call, which writes its node where this function hands it out, so
        // that a request which is refused moves none.
        match wish {
            Wish::MakeDir(path) => self.decide_new(limits, Kind::Directory, path),
            Wish::Create(path) => self.decide_new(limits, Kind::File, path),
            Wish::Write {
                path,
                offset,
                bytes,
            } => self.decide_write(limits, path, *offset, bytes),
            Wish::Truncate { path, size } => self.decide_truncate(limits, path, *size),
            Wish::Rename { from, to } => self.decide_rename(limits, from, to),
            Wish::Remove(path) => self.decide_remove(limits, path),
            Wish::Copy {
                source,
                parent,
                name,
                offset,
                bytes,
            } => self.decide_copy(limits, *source, *parent, name, *offset, bytes),
            Wish::Unmount => self.decide_unmount(limits),
        }
    }

    #[inline(never)]
    fn decide_unmount(&self, limits: Limits) -> Result<NewNode, Cause>
        ensures { result ≡ decide_on self.now limits Unmount }
    {
        if limits.next_version.is_none() {
            return Err(Cause::VersionsSpent);
        }
        Ok(NewNode {
            kind: Kind::Unmount,
            deleted: false,
            copy: false,
            inode: 0,
            parent: 0,
            offset: 0,
            rsize: 0,
            size: None,
            name: None,
            bytes: Bytes::new(),
        })
    }
}
