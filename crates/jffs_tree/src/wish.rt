//! Wishes, what is decided on them, and what becomes of them.

ghost use Rattle.std.specs.Prelude.{◌≡◌};
ghost use Rattle.jffs_tree.specs.declared.wish.Cause.TheVariants.{Memory};
ghost use Rattle.jffs_tree.specs.Decide.{with, is_copy_wish, is_unmount_wish};

use jffs_node::{Bytes, Kind, Name, NoMemory, Node, Path};
use std::alloc::AllocError;
use thiserror::Error;

/// Why a request is refused. The causes are tried in this order, and the first that holds is
/// the answer. The first eleven say something about the tree or its numbers, and nothing is
/// changed. So it is with VersionsSpent, unless room was to be made first; what stands after the
/// others is said where they are answered.
#[derive(Clone, Copy, Debug, PartialEq, Eq, Error)]
pub enum Cause {
    /// The root can't be made, removed or renamed, and nothing becomes the root.
    #[error("the root stays as it is")]
    RootFixed,
    /// What should hold the new name isn't there, or is a file.
    #[error("the directory of the path isn't there")]
    NoParent,
    /// Something stands at the path already.
    #[error("the path is taken")]
    NameTaken,
    /// Nothing stands at the path.
    #[error("nothing stands at the path")]
    NotFound,
    /// A file was wanted, or a directory would get another parent.
    #[error("this can't be done to a directory")]
    IsDirectory,
    /// More bytes than one node may carry.
    #[error("the data is too long for one node")]
    DataLong,
    /// The file would be longer than a file may be.
    #[error("the file would be too long")]
    FileLong,
    /// The directory has names.
    #[error("the directory isn't empty")]
    NotEmpty,
    /// No live node has the version that was to be copied.
    #[error("no live node has this version")]
    NotNeeded,
    /// The copy says something else than what stands in the tree now.
    #[error("the copy isn't current")]
    Stale,
    /// No inode number is left.
    #[error("no inode number is left")]
    InodesSpent,
    /// No version is left.
    #[error("no version is left")]
    VersionsSpent,
    /// Allocation failed.
    #[error("memory was refused")]
    Memory,
    /// The log has no room, and cleaning makes none.
    #[error("the log has no room")]
    NoSpace,
    /// The flash failed during this request.
    #[error("the flash failed")]
    Device,
    /// The flash failed in an earlier request.
    #[error("the flash failed earlier")]
    Failed,
}

impl From<AllocError> for Cause {
    ghost from_gives = { λ _ e. e ≡ Memory };

    fn from(_: AllocError) -> Cause {
        Cause::Memory
    }
}

impl From<NoMemory> for Cause {
    ghost from_gives = { λ _ e. e ≡ Memory };

    fn from(_: NoMemory) -> Cause {
        Cause::Memory
    }
}

/// What a sender asks for.
#[derive(Drop)]
pub enum Wish {
    /// A new directory without names.
    MakeDir(Path),
    /// A new file without bytes.
    Create(Path),
    /// These bytes in a file from `offset` on, instead of those that stand there. Past the
    /// file's end the file grows, and a gap reads as zeros. Without bytes nothing is changed.
    Write {
        path: Path,
        offset: u32,
        bytes: Bytes,
    },
    /// A file cut to `size` bytes, or filled up with zeros.
    Truncate {
        path: Path,
        size: u32,
    },
    /// Another name; a file may get another directory too.
    Rename {
        from: Path,
        to: Path,
    },
    /// A file or an empty directory gone.
    Remove(Path),
    /// What the live node of version `source` says, said again, as a cleaner asks for it: it
    /// counts only as far as parent, name and bytes are the current ones.
    Copy {
        source: u32,
        parent: u32,
        name: Name,
        offset: u32,
        bytes: Bytes,
    },
    /// The end of the session.
    Unmount,
}

impl Wish {
    /// Whether this is a copy, as a cleaner asks for it.
    pub fn is_copy(&self) -> bool
        ensures { result ≡ is_copy_wish self.now }
    {
        matches!(self, Wish::Copy { .. })
    }

    /// Whether this is the end of the session.
    pub fn is_unmount(&self) -> bool
        ensures { result ≡ is_unmount_wish self.now }
    {
        matches!(self, Wish::Unmount)
    }
}

/// What a decision has to know besides the tree.
#[derive(Clone, Copy, Debug, PartialEq, Eq)]
pub struct Limits {
    /// The most bytes of data that one node carries.
    pub data_max: u32,
    /// The number of the next new inode, where any is left.
    pub next_inode: Option<u32>,
    /// The version of the next node, where any is left.
    pub next_version: Option<u32>,
}

/// The node of an accepted wish, as far as the tree decides it: without version, writer and
/// sequence number. Its fields are those of `Node`.
#[derive(Drop)]
pub struct NewNode {
    pub kind: Kind,
    pub deleted: bool,
    pub copy: bool,
    pub inode: u32,
    pub parent: u32,
    pub offset: u32,
    pub rsize: u32,
    pub size: Option<u32>,
    pub name: Option<Name>,
    pub bytes: Bytes,
}

impl NewNode {
    /// The node with its numbers. Takes no memory.
    pub fn with(self, version: u32, writer: u16, seq: u32) -> Node
        ensures { result ≡ with self version writer seq }
    {
        Node {
            kind: self.kind,
            deleted: self.deleted,
            copy: self.copy,
            inode: self.inode,
            parent: self.parent,
            version,
            offset: self.offset,
            rsize: self.rsize,
            writer,
            seq,
            size: self.size,
            name: self.name,
            bytes: self.bytes,
        }
    }
}

/// What a request was answered.
#[derive(Clone, Copy, Debug, PartialEq, Eq)]
pub enum Outcome {
    /// A fresh node of this inode was appended, with this version.
    Appended { inode: u32, version: u32 },
    /// A copy was appended, with this version.
    Copied { version: u32 },
    /// The session is over: the log ends with an unmount node.
    Closed,
    /// No node was appended for the request.
    Refused(Cause),
}
