//! The rules of a final tree.

ghost use Rattle.std.specs.Prelude.{◌≡◌};
ghost use Rattle.std.specs.List.{list_all};
ghost use Rattle.jffs_tree.specs.Origin.{state_in};
ghost use Rattle.jffs_tree.specs.Check.{check, parents_are_there, names_differ};
ghost use Rattle.jffs_inodes.specs.Held.{bytes_are_written};
ghost use Rattle.jffs_tree.specs.Check.{is_within, is_near};
ghost use Rattle.jffs_node.specs.declared.path.TheConstants.{PATH_DEPTH_MAX};

use crate::children::are_apart;
use crate::look::ROOT;
use crate::tree::Tree;
use jffs_inodes::Inode;
use jffs_node::PATH_DEPTH_MAX;

impl Tree {
    /// Whether the tree keeps the rules that a log's tree keeps at its end.
    pub fn check(&self) -> bool
        ensures { result ≡ check self.now }
    {
        self.parents_are_there()
            && self.names_differ()
            && self.bytes_are_written()
            && self.paths_are_short()
    }

    fn parents_are_there(&self) -> bool
        ensures { result ≡ parents_are_there (state_in self.now) }
    {
        for (_, found) in self.inodes.iter() {
            if !self.is_directory(found.parent()) {
                return false;
            }
        }
        true
    }

    /// No two inodes have the same directory and name. Where two had, one key of the index would
    /// follow the other.
    fn names_differ(&self) -> bool
        ensures { result ≡ names_differ (state_in self.now) }
    {
        are_apart(&self.children)
    }

    fn bytes_are_written(&self) -> bool
        ensures { result ≡ list_all (λ h. bytes_are_written h.1) self.now }
    {
        for (_, found) in self.inodes.iter() {
            if !found.is_written() {
                return false;
            }
        }
        true
    }

    fn paths_are_short(&self) -> bool
        ensures { result ≡ list_all (λ e. is_within PATH_DEPTH_MAX (state_in self.now) e.0)
            (state_in self.now) }
    {
        // Brings in that the inodes stand in order.
        let _ = &self.inodes;
        self.parents_are_near()
    }

    /// An inode has a short path where its directory's path is shorter by one name.
    fn parents_are_near(&self) -> bool
        ensures { result ≡ list_all (is_near (state_in self.now)) (state_in self.now) }
    {
        for (inode, found) in self.inodes.iter() {
            if !self.is_near(*inode, found) {
                return false;
            }
        }
        true
    }

    fn is_near(&self, inode: u32, found: &Inode) -> bool
        ensures { result ≡ is_near (state_in self.now) (inode, found.now.entry) }
    {
        inode == ROOT || self.is_within(PATH_DEPTH_MAX as u32 - 1, found.parent())
    }

    /// Whether at most `names` names lead from the root to the inode.
    fn is_within(&self, names: u32, inode: u32) -> bool
        ensures { result ≡ is_within names (state_in self.now) inode }
    {
        if inode == ROOT {
            return true;
        }
        if names == 0 {
            return false;
        }
        match self.inode(inode) {
            Some(found) => self.is_within(names - 1, found.parent()),
            None => false,
        }
    }
}
