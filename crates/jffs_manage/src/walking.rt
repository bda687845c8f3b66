//! What stands below a directory of a volume.

use crate::fault::VolumeFault;
use jffs_node::{Name, PathFault};
use jffs_tree::Tree;
use std::alloc::Global;

/// Something on a volume: its path, and its inode.
#[derive(Drop)]
pub(crate) struct Entry {
    /// The path; for the root it is empty.
    pub path: String,
    pub inode: u32,
}

/// What stands at a path, and all below it: each directory before what is in it; of several with
/// one name in a directory the one with the least inode. The root's path is given as the empty
/// text. `Memory` where allocation failed.
pub(crate) fn below(
    alloc: Global,
    tree: &Tree,
    path: &str,
    inode: u32,
) -> Result<Vec<Entry>, VolumeFault> {
    let mut found = Vec::new(alloc);
    let path = String::from_str(alloc, path)?;
    found.push(Entry { path, inode })?;
    for at in 0..usize::MAX {
        let (path, inode) = match found.get(at) {
            Some(above) => (above.path.clone()?, above.inode),
            None => break,
        };
        let names = tree.names(inode)?;
        for (at, (name, inode)) in names.iter().enumerate() {
            if !is_second(&names, at) {
                found.push(Entry {
                    path: joined(alloc, path.as_str(), name)?,
                    inode: *inode,
                })?;
            }
        }
    }
    Ok(found)
}

/// Whether the name at an index of a directory's names, as [`Tree::names`] has them, is that of the
/// one before it. No volume that a mount takes has such names.
pub(crate) fn is_second(names: &[(Name, u32)], at: usize) -> bool {
    let Some(before) = at.checked_sub(1) else {
        return false;
    };
    match (names.get(before), names.get(at)) {
        (Some((before, _)), Some((name, _))) => before.bytes() == name.bytes(),
        _ => false,
    }
}

/// The path of a name in a directory.
pub(crate) fn joined(alloc: Global, directory: &str, name: &Name) -> Result<String, VolumeFault> {
    match std::str::from_utf8(name.bytes()) {
        Ok(name) => Ok(format!(in alloc; "{directory}/{name}")?),
        Err(_) => Err(VolumeFault::Path(PathFault::NameByte)),
    }
}
