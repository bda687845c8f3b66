//! A node becomes the newest of the history.

ghost use Rattle.std.specs.Prelude.{◌≡◌, ℕ, List, false, OnOk, IfErr, max};
ghost use Rattle.jffs_log.specs.Room.{following};

use crate::mounted_core::Core;
use jffs_flash::Flash;
use jffs_log::Room;
use jffs_node::{Node, record_len};
use jffs_tree::{Cause, Limits};

impl<F: Flash> Core<F> {
    ghost use Rattle.jffs_node.specs.declared.node.Node.{Node};
    ghost use Rattle.jffs_core.specs.Past.{RepresentsWorking, has_room_for};
    ghost use Rattle.jffs_core.specs.Appending.{MayPut, HasPut, PutRefused};
    ghost use Rattle.jffs_core.specs.Erases.{Leaves};

    /// Whether a record of this length has room. Takes no memory.
    pub(crate) fn has_room(&self, room: Room, len: u32) -> bool
        requires working { self.now.failed ≡ false }
        ensures { result ≡ has_room_for self.now room len }
    {
        self.log.room(room, len)
    }

    /// Puts a node at the end of the history: the log's capacity is reserved, the tree is changed,
    /// and the record is programmed. Precondition: it may follow all nodes before it.
    ///
    /// NoSpace: nothing is changed. Memory: nothing is changed but what is reserved. Device: the
    /// tree has the node, and the log has it or has it not.
    pub(crate) fn append(&mut self, room: Room, node: &Node) -> Result<(), Cause>
        requires working { self.old.failed ≡ false }
        requires follows { (past : List Node) × RepresentsWorking past self.old
            × MayPut past self.old.index.sector_size room node.now }
        ensures done { OnOk result (HasPut room node.now self.old self.new) }
        ensures refused { IfErr result (λ cause. PutRefused room node.now cause self.old self.new) }
        ensures leaves { Leaves 0 self.old self.new }
    {
        let Some(place) = self.log.place(room, record_len(node)) else {
            return Err(Cause::NoSpace);
        };
        self.log.reserve()?;
        self.tree.apply(node)?;
        self.log.write_at(place, node)?;
        count(&mut self.limits, node);
        self.clean = node.kind.is_unmount();
        Ok(())
    }
}

/// The numbers that come after a node.
fn count(limits: &mut Limits, node: &Node)
    ensures data_max { limits.new.data_max ≡ limits.old.data_max }
    ensures version { limits.new.next_version ≡ following node.now.version }
    ensures inode { (most : ℕ) → limits.old.next_inode ≡ following most
        → limits.new.next_inode ≡ following (max most node.now.inode) }
{
    limits.next_version = node.version.checked_add(1);
    if limits.next_inode.is_some_and(|next| node.inode >= next) {
        limits.next_inode = node.inode.checked_add(1);
    }
}
