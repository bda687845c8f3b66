//! Looks at a mounted volume, by paths. They change nothing and take no memory, and a core that has
//! failed shows what it knows in memory.

ghost use Rattle.std.specs.Prelude.{◌≡◌, IfOk, IfErr, option_map};
ghost use Rattle.jffs_log.specs.LogIndex.{live_bytes_in};
ghost use Rattle.jffs_session.specs.Looks.{inode_at, sight_in, sight_at};
ghost use Rattle.jffs_session.specs.Looks.{IsNextAt, IsReadAt, IsUnread};

use crate::session::Session;
use jffs_flash::Flash;
use jffs_node::{Name, Path};
use jffs_tree::{Cause, Tree};

/// What stands at a path.
#[derive(Clone, Copy, Debug, PartialEq, Eq)]
pub struct Sight {
    pub inode: u32,
    /// Whether it is a directory; else it is a file.
    pub directory: bool,
    /// How many bytes a file has; 0 for a directory.
    pub size: u32,
}

/// A name in a directory, and what stands there.
#[derive(Clone, Copy)]
pub struct Entry {
    pub name: Name,
    pub sight: Sight,
}

impl<F: Flash> Session<F> {
    /// What stands at a path; `None` where nothing does.
    pub fn look(&self, path: &Path) -> Option<Sight>
        ensures { result ≡ sight_at self.now.core.tree path.now }
    {
        let tree = self.tree();
        match tree.resolve(path) {
            Some(inode) => Some(sight_of(tree, inode)),
            None => None,
        }
    }

    /// The lengths of the live records of what stands at a path together, in bytes; `None` where
    /// nothing does. It goes through all records of the log.
    pub fn live_bytes(&self, path: &Path) -> Option<u64>
        ensures { result
            ≡ option_map
            (λ inode. live_bytes_in self.now.core.tree inode self.now.core.index.records.items)
            (inode_at self.now.core.tree path.now) }
    {
        let tree = self.tree();
        match tree.resolve(path) {
            Some(inode) => Some(self.core().log().live_bytes(inode, tree)),
            None => None,
        }
    }

    /// The first name in the directory at a path after a given one, which needn't stand there; the
    /// first of all after `None`. `None` after the last, and where no directory stands at the path.
    ///
    /// Who goes on from each name to the next one goes through the directory, in the order of the
    /// names' bytes.
    pub fn name_after(&self, path: &Path, given: Option<Name>) -> Option<Entry>
        ensures { IsNextAt given self.now.core.tree (inode_at self.now.core.tree path.now) result }
    {
        let tree = self.tree();
        let Some(directory) = tree.resolve(path) else {
            return None;
        };
        match tree.name_after(directory, given) {
            Some(entry) => Some(Entry {
                name: entry.0,
                sight: sight_of(tree, entry.1),
            }),
            None => None,
        }
    }

    /// Reads the bytes of the file at a path from an offset on, as many as there are and as the
    /// slice takes, and returns how many. The rest of the slice stays as it is.
    ///
    /// `NotFound` where nothing stands at the path, `IsDirectory` where a directory does: the slice
    /// stays as it is.
    pub fn read(&self, path: &Path, offset: u32, out: &mut [u8]) -> Result<usize, Cause>
        ensures read { IfOk result
            (λ count. IsReadAt path.now self.now.core.tree offset count out.old out.new) }
        ensures refused { IfErr result (λ cause. IsUnread path.now self.now.core.tree cause) }
        ensures unread { IfErr result (λ cause. out.new ≡ out.old) }
    {
        let tree = self.tree();
        let Some(inode) = tree.resolve(path) else {
            return Err(Cause::NotFound);
        };
        if tree.is_directory(inode) {
            return Err(Cause::IsDirectory);
        }
        Ok(tree.read(inode, offset, out))
    }
}

fn sight_of(tree: &Tree, inode: u32) -> Sight
    ensures { result ≡ sight_in tree.now inode }
{
    Sight {
        inode,
        directory: tree.is_directory(inode),
        size: tree.size(inode).unwrap_or(0),
    }
}
