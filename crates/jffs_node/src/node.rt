//! Nodes, the one kind of thing that the log is made of.

ghost use Rattle.std.specs.Prelude.{◌≡◌};
ghost use Rattle.jffs_node.specs.Record.{is_file as kind_is_file, is_unmount as kind_is_unmount};

use crate::name::Name;
use bytes::Bytes;

/// The greatest size of a file, in bytes.
pub const FILE_MAX: u32 = 1_048_576;

/// The inode of the root, a directory that no node is about.
pub const ROOT_INODE: u32 = 1;

/// The least inode of any other.
pub const FIRST_INODE: u32 = 2;

/// What a node is about.
#[derive(Clone, Copy, Debug, PartialEq, Eq)]
pub enum Kind {
    /// A file: its parent and name, and a range of its bytes.
    File,
    /// A directory: its parent and name.
    Directory,
    /// The end of a session that was closed in order. It is about no inode.
    Unmount,
}

impl Kind {
    /// Whether this is a file.
    pub fn is_file(self) -> bool
        ensures { result ≡ kind_is_file self }
    {
        match self {
            Kind::File => true,
            Kind::Directory | Kind::Unmount => false,
        }
    }

    /// Whether this is the end of a session.
    pub fn is_unmount(self) -> bool
        ensures { result ≡ kind_is_unmount self }
    {
        match self {
            Kind::Unmount => true,
            Kind::File | Kind::Directory => false,
        }
    }
}

/// A node of the log: one change of one inode, or the end of a session.
#[derive(Drop)]
pub struct Node {
    /// What the node is about.
    pub kind: Kind,
    /// The inode is gone from here on. Such a node has no data.
    pub deleted: bool,
    /// The node says again what others said, so that they may be erased.
    pub copy: bool,
    /// The inode, from 2 on: 1 is the root, which no node is about. 0 in an unmount node.
    pub inode: u32,
    /// The inode of the directory that holds the name. 0 in an unmount node.
    pub parent: u32,
    /// The node's number in the whole log, from 1 on.
    pub version: u32,
    /// Where in the file the data begins, in bytes.
    pub offset: u32,
    /// How many bytes of the file are removed at `offset` before the data is put there.
    pub rsize: u32,
    /// The number of the sender that asked for the node; 0 if cleaning made it. Any number is read.
    pub writer: u16,
    /// Which of its sender's requests this answers; 0 if cleaning made it. Any number is read.
    pub seq: u32,
    /// The file's size after this node, in bytes. A node with a size is written in the second form,
    /// one without in the first.
    pub size: Option<u32>,
    /// The name in the parent. An unmount node has none, every other node has one.
    pub name: Option<Name>,
    /// The data, of which a clone copies no byte.
    pub bytes: Bytes,
}
