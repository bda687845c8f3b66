//! Media that were written by hand. Their bytes are spelled from the table of docs/FORMAT.md.

use std::alloc::{AllocError, Global};

/// The first bytes of a record: a directory `/a` of inode 2 whose version is 1.
const MADE: [u8; 45] = [
    0x4A, 0x46, 0x46, 0x31, 2, 0, 1, 0, 0, 0, 0, 2, 0, 0, 0, 1, 0, 0, 0, 1, 0, 0, 0, 0, 0, 0, 0, 0,
    0, 0, 0, 0, 0, 1, 0, 1, 0, 0, 0, 1, 0, 0, 0, 0, 0x61,
];

/// Where a record has the number of its inode, that of its directory, and its version.
const INODE_AT: usize = 8;

const PARENT_AT: usize = 12;

const VERSION_AT: usize = 16;

/// The bytes of 6 erased sectors of 1024 bytes.
pub(super) fn erased(alloc: Global) -> Result<Vec<u8>, AllocError> {
    vec![in alloc; 0xff; 6144]
}

/// Puts bytes into a medium.
pub(super) fn put(medium: &mut [u8], at: usize, bytes: &[u8]) {
    let mut place = at;
    for byte in bytes {
        if let Some(found) = medium.get_mut(place) {
            *found = *byte;
        }
        place = place.saturating_add(1);
    }
}

/// Puts the record of the directory there.
pub(super) fn put_made(medium: &mut [u8], at: usize) {
    put(medium, at, [0; 64].as_slice());
    put(medium, at, MADE.as_slice());
}

/// A medium with that record at its beginning.
pub(super) fn made(alloc: Global) -> Result<Vec<u8>, AllocError> {
    let mut medium = erased(alloc)?;
    put_made(&mut medium, 0);
    Ok(medium)
}

/// A medium of which no version is left.
pub(super) fn of_last_version(alloc: Global) -> Result<Vec<u8>, AllocError> {
    let mut medium = made(alloc)?;
    put(&mut medium, VERSION_AT, [0xff; 4].as_slice());
    Ok(medium)
}

/// A medium on which the last inode is taken.
pub(super) fn of_last_inode(alloc: Global) -> Result<Vec<u8>, AllocError> {
    let mut medium = made(alloc)?;
    put(&mut medium, INODE_AT, [0xff; 4].as_slice());
    Ok(medium)
}

/// A medium whose directory stands in one that isn't there.
pub(super) fn of_no_tree(alloc: Global) -> Result<Vec<u8>, AllocError> {
    let mut medium = made(alloc)?;
    put(&mut medium, INODE_AT, [0, 0, 0, 10].as_slice());
    put(&mut medium, PARENT_AT, [0, 0, 0, 9].as_slice());
    Ok(medium)
}
