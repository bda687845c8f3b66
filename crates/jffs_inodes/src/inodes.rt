//! The inodes of a tree, by number.

ghost use Rattle.std.specs.Prelude.{◌≡◌, ℕ, Bool, [], IsSome, IfNone, OnOk, OnErr, option_copied};
ghost use Rattle.std.specs.List.{list_all};
ghost use Rattle.jffs_inodes.specs.Held.{Held};
ghost use Rattle.jffs_inodes.specs.Inodes.{held_in, with_inode, without_inode, AreOrdered};
ghost use Rattle.jffs_inodes.specs.Inodes.{IsWritable, WritesInode};
ghost use Rattle.jffs_inodes.specs.Marked.{HasMarksIn, MovesMarksIn};
ghost use Rattle.jffs_marks.specs.Marks.{SameMarks};

use crate::inode::Inode;
use jffs_marks::Marks;
use jffs_node::{Name, Node};
use std::alloc::{AllocError, Global};
use std::collections::HashMap;
use std::collections::hash_map::Iter;
use std::marker::Model;

/// The inodes of a tree. Each is found by its number at once, however many there are, and they
/// stand in no order.
#[derive(Drop)]
pub struct Inodes {
    by_number: HashMap<u32, Inode>,
}

impl Model for Inodes {
    ghost use Rattle.std.specs.Prelude.{List, ℕ};
    ghost use Rattle.jffs_inodes.specs.Held.{Held};
    ghost use Rattle.jffs_inodes.specs.Inodes.{in_order};

    ghost Value = { List (ℕ × Held) };

    ghost view = { λ m. in_order m.by_number.entries };
}

impl Inodes {
    /// None. Takes no memory.
    pub fn new(alloc: Global) -> Inodes
        ensures { result ≡ [] }
    {
        Inodes {
            by_number: HashMap::new(alloc),
        }
    }

    /// The inode of a number, if it is there.
    pub fn get(&self, number: u32) -> Option<&Inode>
        ensures { option_copied result ≡ held_in self.now number }
    {
        self.by_number.get(&number)
    }

    /// All inodes with their numbers, in no order.
    pub fn iter(&self) -> Iter<'_, u32, Inode>
        ensures all { (test : ℕ × Held → Bool) → list_all test result ≡ list_all test self.now }
    {
        self.by_number.iter()
    }

    /// Puts an inode in, over one that has its number. Where the allocation failed, nothing is
    /// changed.
    pub(crate) fn put(&mut self, number: u32, inode: Inode) -> Result<(), AllocError>
        ensures ok { OnOk result (self.new ≡ with_inode self.old number inode) }
        ensures ordered { OnOk result (AreOrdered self.new) }
        ensures err { OnErr result (self.new ≡ self.old) }
    {
        self.by_number.insert(number, inode)?;
        Ok(())
    }

    /// Writes a node over its inode, which is there, and moves the marks of its bytes. Where an
    /// allocation failed, nothing is changed.
    pub(crate) fn write(
        &mut self,
        node: &Node,
        name: Name,
        marks: &mut Marks,
    ) -> Result<(), AllocError>
        requires present { IsSome (held_in self.old node.now.inode) }
        requires writable { IsWritable self.old node.now name }
        requires marked { HasMarksIn marks.old node.now self.old }
        ensures ok { OnOk result (WritesInode self.old self.new node.now) }
        ensures marks { OnOk result (MovesMarksIn marks.old marks.new node.now self.old self.new) }
        ensures err { OnErr result ((self.new ≡ self.old) × SameMarks marks.old marks.new) }
    {
        let Some(inode) = self.by_number.get_mut(&node.inode) else {
            unreachable!()
        };
        inode.write(node, name, marks)?;
        Ok(())
    }

    /// Takes an inode out, where it is there.
    pub fn remove(&mut self, number: u32) -> Option<Inode>
        ensures gone { result ≡ held_in self.old number }
        ensures left { self.new ≡ without_inode self.old number }
        ensures none { IfNone result (self.new ≡ self.old) }
    {
        self.by_number.remove(&number)
    }
}

impl Clone for Inodes {
    ghost is_clone = { λ old new. new ≡ old };

    fn clone(&self) -> Result<Inodes, AllocError> {
        Ok(Inodes {
            by_number: self.by_number.clone()?,
        })
    }
}
