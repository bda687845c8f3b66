//! A copy of a tree.

ghost use Rattle.std.specs.Prelude.{◌≡◌, IfOk};

use crate::children::copy_keys;
use crate::tree::Tree;
use jffs_node::NoMemory;

impl Tree {
    /// An equal tree, which shares the bytes of its files with this one.
    ///
    /// `NoMemory` if allocation failed.
    pub fn copy_tree(&self) -> Result<Tree, NoMemory>
        ensures { IfOk result (λ tree. tree ≡ self.now) }
    {
        Ok(Tree {
            alloc: self.alloc,
            inodes: self.inodes.clone()?,
            children: copy_keys(&self.children)?,
            marks: self.marks.clone()?,
        })
    }
}
