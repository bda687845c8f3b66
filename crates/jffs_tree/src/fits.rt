//! Whether a node may be applied to a tree.

ghost use Rattle.std.specs.Prelude.{◌≡◌, ◌==◌, ◌&&◌, ◌||◌, ◌+◌, true, IsTrue, length, nat_le};
ghost use Rattle.jffs_node.specs.Record.{is_lawful, dsize, kind_byte};
ghost use Rattle.jffs_tree.specs.After.{can_apply, suits_tree, keeps_kind_in};
ghost use Rattle.jffs_inodes.specs.Inodes.{keeps_offsets_in};

use crate::tree::Tree;
use jffs_inodes::Inode;
use jffs_node::{Node, is_lawful};

impl Tree {
    /// Whether the node may be applied here: its fields, its name and its numbers are lawful, its
    /// inode has its kind where it is present, and no byte after its range moves. That its
    /// version is above those applied before is known by whoever has the list of nodes, and that
    /// its record finds room by the log. Takes no memory.
    pub fn can_apply(&self, node: &Node) -> bool
        ensures value { result ≡ can_apply self.now node.now }
        ensures lawful { result ≡ true → IsTrue (is_lawful node.now) }
        ensures offsets { result ≡ true → IsTrue (keeps_offsets_in self.now node.now) }
        ensures suits { result ≡ true → IsTrue (suits_tree self.now node.now) }
    {
        is_lawful(node) && self.keeps_kind_and_offsets(node)
    }

    /// What `can_apply` asks beside the node's own lawfulness: whether its inode has its kind where
    /// it is present, and whether no byte after its range moves. For nodes that decoding has found
    /// lawful. Takes no memory.
    pub fn keeps_kind_and_offsets(&self, node: &Node) -> bool
        ensures { result ≡ (keeps_kind_in self.now node.now && keeps_offsets_in self.now node.now) }
    {
        match self.inode(node.inode) {
            Some(found) => keeps_kind(found, node) && keeps_offsets(found, node),
            None => true,
        }
    }
}

/// Whether a node leaves the inode its kind.
fn keeps_kind(found: &Inode, node: &Node) -> bool
    ensures { result
        ≡ (node.now.deleted || (kind_byte found.now.entry.kind == kind_byte node.now.kind)) }
{
    node.deleted || found.kind() == node.kind
}

/// Whether no byte after the node's range moves.
fn keeps_offsets(found: &Inode, node: &Node) -> bool
    ensures { result ≡ ((dsize node.now == node.now.rsize)
        || nat_le (length found.now.entry.bytes) (node.now.offset + node.now.rsize)) }
{
    let amount = node.bytes.as_slice().len();
    amount == node.rsize as usize || found.size() as u64 <= node.offset as u64 + node.rsize as u64
}
