//! The tree.

ghost use Rattle.std.specs.Prelude.{◌≡◌, ◌∷◌, [], List};
ghost use Rattle.std.specs.Prelude.{true, Some, IsTrue};
ghost use Rattle.std.specs.Prelude.{OnOk, OnErr, IfErr};
ghost use Rattle.jffs_node.specs.declared.node.Node.{Node};
ghost use Rattle.jffs_tree.specs.Origin.{tree_of};
ghost use Rattle.jffs_inodes.specs.Inodes.{without_inode, put_node, IsWritable};
ghost use Rattle.jffs_tree.specs.After.{suits_tree, tree_after, takes_memory};
ghost use Rattle.jffs_tree.specs.Look.{parent_name_in};
ghost use Rattle.jffs_inodes.specs.Marked.{HasNewest};

use crate::children::{ChildKey, bears};
use crate::wish::Cause;
use jffs_inodes::{Inodes, write_marked};
use jffs_marks::Marks;
use jffs_node::{Name, Node};
use std::alloc::{AllocError, Global};
use std::collections::BTreeSet;
use std::marker::Model;

/// The tree that nodes make: its inodes, for each where it stands, so that a name is found
/// without a walk, and how often each version is live, so that none is counted anew.
#[derive(Drop)]
pub struct Tree {
    pub(crate) alloc: Global,
    pub(crate) inodes: Inodes,
    pub(crate) children: BTreeSet<ChildKey>,
    pub(crate) marks: Marks,
}

impl Model for Tree {
    ghost use Rattle.std.specs.Prelude.{List, ℕ};
    ghost use Rattle.jffs_inodes.specs.Held.{Held};

    ghost Value = { List (ℕ × Held) };

    ghost use Rattle.jffs_tree.specs.Indexed.{IsIndexed};

    ghost view = { λ t. t.inodes };

    ghost invariant = { IsIndexed };
}

impl Tree {
    /// The root alone. Takes no memory.
    pub fn new(alloc: Global) -> Tree
        ensures { result ≡ tree_of [] }
    {
        Tree {
            alloc,
            inodes: Inodes::new(alloc),
            children: BTreeSet::new(alloc),
            marks: Marks::new(alloc),
        }
    }

    /// Takes in the next node; an unmount node changes nothing. Precondition: only an unmount node
    /// is without a name; the numbers suit each other; and no byte after its range moves.
    /// `can_apply` tests that and more; what versions and kinds have to be is the matter of the
    /// list of nodes, and not needed here.
    ///
    /// `Memory` if allocation failed: nothing is changed. Neither a deleted node nor an unmount
    /// node is refused, since they take no memory.
    pub fn apply(&mut self, node: &Node) -> Result<(), Cause>
        requires { IsTrue (suits_tree self.old node.now) }
        ensures after { OnOk result (self.new ≡ tree_after self.old node.now) }
        ensures ok { OnOk result
            ((past : List Node) → self.old ≡ tree_of past → self.new ≡ tree_of (node.now ∷ past)) }
        ensures err { OnErr result (self.new ≡ self.old) }
        ensures cause { IfErr result (λ cause. cause ≡ Cause.Memory) }
        ensures memory { OnErr result (takes_memory node.now ≡ true) }
    {
        if node.kind.is_unmount() {
            return Ok(());
        }
        let Some(name) = node.name else {
            unreachable!()
        };
        if node.deleted {
            self.remove(node.inode);
            return Ok(());
        }
        self.write(node, name)?;
        Ok(())
    }

    /// Takes an inode away, where it is present.
    fn remove(&mut self, inode: u32)
        ensures { self.new ≡ without_inode self.old inode }
    {
        if let Some(old) = self.inodes.remove(inode) {
            self.children
                .remove(&(old.parent(), Some(old.name()), inode));
            old.release(inode, &mut self.marks);
            self.marks.lower(old.newest(), inode, 1);
        }
    }

    /// Writes a node that isn't deleted over its inode, present or not. Where an allocation failed,
    /// nothing is changed.
    fn write(&mut self, node: &Node, name: Name) -> Result<(), AllocError>
        requires writable { IsWritable self.old node.now name }
        ensures ok { OnOk result (self.new ≡ put_node self.old node.now) }
        ensures err { OnErr result (self.new ≡ self.old) }
    {
        let Some(found) = self.inode(node.inode) else {
            return self.write_elsewhere(node, name, None, None);
        };
        let newest = Some(found.newest());
        if found.is_child(node.parent, &name) {
            return self.write_here(node, name, newest);
        }
        let place = (found.parent(), found.name());
        self.write_elsewhere(node, name, Some(place), newest)
    }

    /// Writes a node over its inode, which stands where the node says and has that newest version.
    fn write_here(&mut self, node: &Node, name: Name, newest: Option<u32>) -> Result<(), AllocError>
        requires writable { IsWritable self.old node.now name }
        requires here { parent_name_in self.old node.now.inode ≡ Some (node.now.parent, name) }
        requires newest { HasNewest self.old node.now.inode newest }
        ensures ok { OnOk result (self.new ≡ put_node self.old node.now) }
        ensures err { OnErr result (self.new ≡ self.old) }
    {
        write_marked(
            self.alloc,
            &mut self.inodes,
            &mut self.marks,
            node,
            name,
            newest,
        )?;
        Ok(())
    }

    /// Writes a node over its inode, whose key may change, with the place and the newest version
    /// that it has where it is present. The new key is entered first and the old one left last, so
    /// that it can be taken back if allocation fails.
    fn write_elsewhere(
        &mut self,
        node: &Node,
        name: Name,
        old: Option<(u32, Name)>,
        newest: Option<u32>,
    ) -> Result<(), AllocError>
        requires writable { IsWritable self.old node.now name }
        requires was { old ≡ parent_name_in self.old node.now.inode }
        requires newest { HasNewest self.old node.now.inode newest }
        ensures ok { OnOk result (self.new ≡ put_node self.old node.now) }
        ensures err { OnErr result (self.new ≡ self.old) }
    {
        let key = (node.parent, Some(name), node.inode);
        let is_new = self.children.insert(key)?;
        if let Err(refused) = write_marked(
            self.alloc,
            &mut self.inodes,
            &mut self.marks,
            node,
            name,
            newest,
        ) {
            if is_new {
                self.children.remove(&key);
            }
            return Err(refused);
        }
        if let Some((parent, left)) = &old {
            let left_key = (*parent, Some(*left), node.inode);
            if !bears(left_key, node.parent, &name) {
                self.children.remove(&left_key);
            }
        }
        Ok(())
    }
}
