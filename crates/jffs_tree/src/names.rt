//! The names in a directory.

ghost use Rattle.std.specs.Prelude.{IfOk};
ghost use Rattle.std.specs.List.Sorted.{IsPermutation, IsSorted};
ghost use Rattle.jffs_tree.specs.Look.{names_in, name_cmp};
ghost use Rattle.jffs_tree.specs.Listing.{IsFirst, is_after, is_name_after};

use crate::children::{name_past, names_of};
use crate::tree::Tree;
use jffs_node::{Name, NoMemory};
use std::alloc::AllocError;

impl Tree {
    /// The names in a directory, each with its inode, by their bytes, equal names by inode.
    /// None for what isn't a present directory.
    ///
    /// `NoMemory` if allocation failed.
    pub fn names(&self, inode: u32) -> Result<Vec<(Name, u32)>, NoMemory>
        ensures all { IfOk result (λ names. IsPermutation (names_in self.now inode) names.items) }
        ensures ordered { IfOk result (λ names. IsSorted name_cmp names.items) }
    {
        Ok(self.list_names(inode)?)
    }

    fn list_names(&self, inode: u32) -> Result<Vec<(Name, u32)>, AllocError>
        ensures all { IfOk result (λ names. IsPermutation (names_in self.now inode) names.items) }
        ensures ordered { IfOk result (λ names. IsSorted name_cmp names.items) }
    {
        if self.is_directory(inode) {
            names_of(self.alloc, &self.children, inode)
        } else {
            Ok(Vec::new(self.alloc))
        }
    }

    /// The first name of a directory after a given name and inode, in the order of
    /// [`names`](Tree::names), with its inode; the first of all after `None`. `None` after the
    /// last, and of what isn't a present directory. Takes no memory, and no walk over the names
    /// before.
    pub fn entry_after(&self, directory: u32, given: Option<(Name, u32)>) -> Option<(Name, u32)>
        ensures { IsFirst (is_after given) self.now directory result }
    {
        if !self.is_directory(directory) {
            return None;
        }
        match given {
            Some(entry) => name_past(&self.children, directory, Some(entry.0), entry.1),
            None => name_past(&self.children, directory, None, 0),
        }
    }

    /// The first name of a directory after a given name, whether that stands there or not. As
    /// [`entry_after`](Tree::entry_after).
    pub fn name_after(&self, directory: u32, given: Option<Name>) -> Option<(Name, u32)>
        ensures { IsFirst (is_name_after given) self.now directory result }
    {
        if !self.is_directory(directory) {
            return None;
        }
        match given {
            Some(name) => name_past(&self.children, directory, Some(name), u32::MAX),
            None => name_past(&self.children, directory, None, 0),
        }
    }
}
