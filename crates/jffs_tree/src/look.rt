//! Looks into a tree.

ghost use Rattle.std.specs.Prelude.{◌≡◌, ℕ, true, false, IfSome, IfNone, ◌==◌, ◌+◌, Some, ◌-◌};
ghost use Rattle.std.specs.Prelude.{◌++◌, ◌^◌, ◌<◌, ◌≤◌, min, length, take, drop, List, None};
ghost use Rattle.std.specs.Prelude.{option_map, option_copied, slice_index_or, unwrap_or};
ghost use Rattle.jffs_node.specs.declared.node.Node.{Node};
ghost use Rattle.jffs_tree.specs.State.{child, resolve};
ghost use Rattle.jffs_tree.specs.Origin.{tree_of, state_in, size_in, origin, newest, version_of};
ghost use Rattle.jffs_tree.specs.Origin.{is_live, marks, any_live};
ghost use Rattle.jffs_inodes.specs.Inodes.{held_in};
ghost use Rattle.jffs_tree.specs.Look.{kind_in, size_of, bytes_in, writers_in, parent_name_in};
ghost use Rattle.jffs_tree.specs.Look.{holds_version, marks_in, any_live_in, IsVersionOf};

use crate::children::first_named;
use crate::tree::Tree;
use jffs_inodes::Inode;
use jffs_node::{Kind, Name, Path};

pub(crate) const ROOT: u32 = 1;

impl Tree {
    pub(crate) fn inode(&self, inode: u32) -> Option<&Inode>
        ensures { option_copied result ≡ held_in self.now inode }
    {
        self.inodes.get(inode)
    }

    /// What the inode is; `None` if it isn't present.
    pub fn kind(&self, inode: u32) -> Option<Kind>
        ensures { result ≡ kind_in self.now inode }
    {
        if inode == ROOT {
            return Some(Kind::Directory);
        }
        self.inode(inode).map(|found| found.kind())
    }

    /// How many bytes the inode has, 0 to 1,048,576; a directory has none. `None` if it isn't
    /// present.
    pub fn size(&self, inode: u32) -> Option<u32>
        ensures { result ≡ size_of self.now inode }
    {
        if inode == ROOT {
            return Some(0);
        }
        self.inode(inode).map(|found| found.size())
    }

    /// The directory that the inode stands in, and its name there; `None` for the root, and if it
    /// isn't present.
    pub fn parent_name(&self, inode: u32) -> Option<(u32, Name)>
        ensures { result ≡ parent_name_in self.now inode }
    {
        self.inode(inode)
            .map(|found| (found.parent(), found.name()))
    }

    /// The version of the inode's newest node; `None` if it isn't present.
    pub fn newest(&self, inode: u32) -> Option<u32>
        ensures held { result
            ≡ unwrap_or (option_map (λ h. h.newest) (held_in self.now inode)) None }
        ensures of { (past : List Node) → self.now ≡ tree_of past
            → result ≡ version_of (newest past inode) }
    {
        self.inode(inode).map(|found| found.newest())
    }

    /// The version of the node that wrote the byte at `offset`. `None` if none did: in a
    /// hole, and past the end.
    pub fn last_writer(&self, inode: u32, offset: u32) -> Option<u32>
        ensures held { result ≡ slice_index_or (writers_in self.now inode) offset None }
        ensures inside { (past : List Node) → self.now ≡ tree_of past → offset < size_in past inode
            → result ≡ version_of (origin past inode offset) }
        ensures past_end { (past : List Node) → self.now ≡ tree_of past
            → size_in past inode ≤ offset → result ≡ None }
    {
        match self.inode(inode) {
            Some(found) => found.writer(offset),
            None => None,
        }
    }

    /// Reads bytes from an offset on, as many as there are and as the slice takes, and returns how
    /// many. The rest of the slice stays as it is.
    pub fn read(&self, inode: u32, offset: u32, out: &mut [u8]) -> usize
        ensures count { result ≡ min (length out.old) (length (bytes_in self.now inode) - offset) }
        ensures read { out.new
            ≡ take result (drop offset (bytes_in self.now inode)) ++ drop result out.old }
    {
        let Some(found) = self.inode(inode) else {
            return 0;
        };
        found.read(offset as usize, out)
    }

    /// Whether the inode is there and this version is live in it: that of its newest node, or
    /// of some byte's last writer. So of a version of that inode's nodes alone it says whether
    /// it is live in the whole tree. Takes no memory.
    pub fn live(&self, inode: u32, version: u32) -> bool
        ensures held { result ≡ holds_version self.now inode version }
        ensures whole { (past : List Node) → self.now ≡ tree_of past
            → IsVersionOf past version inode → result ≡ is_live past version }
    {
        0 < self.marks.at(version, inode)
    }

    /// As [`live`](Tree::live), and the same whatever number `near` is, which is changed. Where one
    /// `near`, 0 at first, is passed on from call to call and the versions rise, as along a log,
    /// most answers are found without a search. Takes no memory.
    pub fn live_near(&self, inode: u32, version: u32, near: &mut usize) -> bool
        ensures held { result ≡ holds_version self.now inode version }
        ensures whole { (past : List Node) → self.now ≡ tree_of past
            → IsVersionOf past version inode → result ≡ is_live past version }
    {
        0 < self.marks.at_near(version, inode, near)
    }

    /// How often a version is live: once for each byte of a present inode that it wrote last, and
    /// once as the newest of a present inode; the greatest `u32` if that is more. `apply` keeps
    /// the count, and nothing is counted anew. Takes no memory.
    pub fn marks(&self, version: u32) -> u32
        ensures held { result ≡ min (marks_in self.now version) (2 ^ 32 - 1) }
        ensures of { (past : List Node) → self.now ≡ tree_of past
            → result ≡ min (marks past version) (2 ^ 32 - 1) }
    {
        self.marks.total(version)
    }

    /// The least live version from `first` to `last`, both included; `None` if none is. Takes no
    /// memory.
    pub fn first_live(&self, first: u32, last: u32) -> Option<u32>
        ensures live { IfSome result
            (λ v. (i : ℕ) × (first ≤ v) × (v ≤ last) × (holds_version self.now i v ≡ true)) }
        ensures least { IfSome result
            (λ v. (w i : ℕ) → first ≤ w → w < v → holds_version self.now i w ≡ false) }
        ensures none { IfNone result
            ((v i : ℕ) → first ≤ v → v ≤ last → holds_version self.now i v ≡ false) }
    {
        self.marks.least(first, last)
    }

    /// The least live version from `first` on, and an inode that it lives in; `None` if none
    /// is. Takes no memory.
    pub fn next_live(&self, first: u32) -> Option<(u32, u32)>
        ensures live { IfSome result
            (λ p. (first ≤ p.0) × (holds_version self.now p.1 p.0 ≡ true)) }
        ensures least { IfSome result
            (λ p. (w i : ℕ) → first ≤ w → w < p.0 → holds_version self.now i w ≡ false) }
        ensures none { IfNone result ((v i : ℕ) → first ≤ v → holds_version self.now i v ≡ false) }
    {
        self.marks.next(first)
    }

    /// Whether a version of that range, with both its ends, is live. Takes no memory.
    pub fn any_live(&self, first: u32, last: u32) -> bool
        ensures held { result ≡ any_live_in self.now first last }
        ensures of { (past : List Node) → self.now ≡ tree_of past
            → result ≡ any_live past first last }
    {
        self.marks.any(first, last)
    }

    /// The inode that a directory has under a name; of several the one with the least number.
    pub(crate) fn child(&self, parent: u32, name: &Name) -> Option<u32>
        ensures { result ≡ child (state_in self.now) parent name.now }
    {
        first_named(&self.children, parent, name)
    }

    /// The inode at the end of the names.
    pub(crate) fn follow(&self, names: &[Name]) -> Option<u32>
        ensures { result ≡ resolve (state_in self.now) names.now }
    {
        let mut inode = ROOT;
        for name in names {
            inode = self.child(inode, name)?;
        }
        Some(inode)
    }

    /// The inode at a path; `None` if there is none.
    pub fn resolve(&self, path: &Path) -> Option<u32>
        ensures { result ≡ resolve (state_in self.now) path.now }
    {
        self.follow(path.names())
    }
}
