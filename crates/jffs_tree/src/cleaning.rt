//! The copy that cleaning makes of a live node.

ghost use Rattle.std.specs.Prelude.{◌≡◌, true, IfOk};
ghost use Rattle.jffs_tree.specs.Origin.{state_in};
ghost use Rattle.jffs_tree.specs.Look.{holds_version};
ghost use Rattle.jffs_tree.specs.Decide.{copy_of_source, source_of};

use crate::decide::plain;
use crate::tree::Tree;
use crate::wish::NewNode;
use jffs_node::{Bytes, NoMemory, Node, copied};

/// What cleaning knows of a record: enough to copy what lives of it out of the tree.
#[derive(Clone, Copy, Debug, PartialEq, Eq)]
pub struct CopySource {
    /// The inode that its node is about.
    pub inode: u32,
    /// The version of its node.
    pub version: u32,
    /// Where its data begin in the file, in bytes.
    pub offset: u32,
    /// How many bytes of data it has.
    pub len: usize,
}

impl CopySource {
    /// What is known of the record of a node.
    pub fn of(node: &Node) -> CopySource
        ensures { result ≡ source_of node.now }
    {
        CopySource {
            inode: node.inode,
            version: node.version,
            offset: node.offset,
            len: node.bytes.len(),
        }
    }
}

impl Tree {
    /// The copy that replaces a live record: its inode's parent and name as they are now, and the
    /// bytes of its range as they are now, as far as the file reaches.
    ///
    /// `NoMemory` if allocation failed.
    pub fn cleaning_copy(&self, source: CopySource) -> Result<NewNode, NoMemory>
        requires live { holds_version self.now source.inode source.version ≡ true }
        ensures { IfOk result (λ n. n ≡ copy_of_source (state_in self.now) source) }
    {
        let found = self.present(source.inode);
        let mut node = plain(found, source.inode);
        node.copy = true;
        // The bytes are copied, not shared: who handed them in may have cut them out of a larger
        // block, which a copy lets go of.
        if let Some(bytes) = found.whole_data(source.offset, source.len) {
            node.offset = source.offset;
            node.rsize = bytes.len() as u32;
            node.bytes = copied(self.alloc, bytes.as_slice())?;
            return Ok(node);
        }
        let offset = source.offset.min(found.size());
        let len = source.len.min((found.size() - offset) as usize);
        let mut bytes = vec![in self.alloc; 0u8; len]?;
        found.read(offset as usize, &mut bytes);
        node.offset = offset;
        node.rsize = len as u32;
        node.bytes = Bytes::from_vec(bytes)?;
        Ok(node)
    }
}
