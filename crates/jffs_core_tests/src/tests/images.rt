//! Images that were written by hand.
//! Their bytes are spelled from the table of docs/FORMAT.md.

use jffs_flash::ERASED_BYTE;
use std::alloc::{AllocError, Global};

/// The first bytes of three records of the first form, each filled up with zeros to 64 bytes: a
/// file `f` is created, `hello` is written into it, and the session is closed.
const CREATED: [u8; 45] = [
    0x4A, 0x46, 0x46, 0x31, 1, 0, 1, 0, 0, 0, 0, 2, 0, 0, 0, 1, 0, 0, 0, 1, 0, 0, 0, 0, 0, 0, 0, 0,
    0, 0, 0, 0, 0, 1, 0, 1, 0, 0, 0, 1, 0, 0, 0, 0, 0x66,
];

const WRITTEN: [u8; 45] = [
    0x4A, 0x46, 0x46, 0x31, 1, 0, 1, 0, 0, 0, 0, 2, 0, 0, 0, 1, 0, 0, 0, 2, 0, 0, 0, 0, 0, 0, 0, 5,
    0, 0, 0, 0, 0, 1, 0, 1, 0, 0, 0, 2, 0, 0, 0, 0, 0x66,
];

const UNMOUNTED: [u8; 45] = [
    0x4A, 0x46, 0x46, 0x31, 3, 0, 0, 0, 0, 0, 0, 0, 0, 0, 0, 0, 0, 0, 0, 3, 0, 0, 0, 0, 0, 0, 0, 0,
    0, 0, 0, 0, 0, 10, 0, 1, 0, 0, 0, 1, 0, 0, 0, 0, 0,
];

/// A directory `/a` of inode 2 whose version is the last one.
const LAST: [u8; 45] = [
    0x4A, 0x46, 0x46, 0x31, 2, 0, 1, 0, 0, 0, 0, 2, 0, 0, 0, 1, 0xFF, 0xFF, 0xFF, 0xFF, 0, 0, 0, 0,
    0, 0, 0, 0, 0, 0, 0, 0, 0, 1, 0, 1, 0, 0, 0, 1, 0, 0, 0, 0, 0x61,
];

/// The record of a write of `!` at 8 after `hello`, which makes a hole.
pub(super) const WRITTEN_BEHIND: [u8; 68] = [
    0x4A, 0x46, 0x46, 0x31, 1, 0, 1, 0, 0, 0, 0, 2, 0, 0, 0, 1, 0, 0, 0, 4, 0, 0, 0, 8, 0, 0, 0, 1,
    0, 0, 0, 0, 0, 1, 0, 2, 0, 0, 0, 1, 0, 0, 0, 9, 0x66, 0, 0, 0, 0, 0, 0, 0, 0, 0, 0, 0, 0, 0, 0,
    0, 0, 0, 0, 0, 0x21, 0xFF, 0xFF, 0xFF,
];

/// Version, offset, data length and removed length of the truncation after it.
pub(super) const TRUNCATED: [u8; 20] = [0, 0, 0, 5, 0, 0, 0, 9, 0, 0, 0, 0, 0, 0, 0, 0, 0, 1, 0, 2];

/// The record of a write of no bytes at the file's end, the fifth request.
pub(super) const WRITTEN_NOTHING: [u8; 64] = [
    0x4A, 0x46, 0x46, 0x31, 1, 0, 1, 0, 0, 0, 0, 2, 0, 0, 0, 1, 0, 0, 0, 6, 0, 0, 0, 12, 0, 0, 0,
    0, 0, 0, 0, 0, 0, 1, 0, 2, 0, 0, 0, 5, 0, 0, 0, 12, 0x66, 0, 0, 0, 0, 0, 0, 0, 0, 0, 0, 0, 0,
    0, 0, 0, 0, 0, 0, 0,
];

/// Puts bytes into an image at an offset.
fn put(image: &mut [u8], at: usize, bytes: &[u8]) {
    let mut place = at;
    for byte in bytes {
        if let Some(found) = image.get_mut(place) {
            *found = *byte;
        }
        place = place.saturating_add(1);
    }
}

/// Puts the first bytes of a record there, and zeros after them, 64 bytes in all.
fn put_record(image: &mut [u8], at: usize, bytes: &[u8]) {
    for place in at..at.saturating_add(64) {
        if let Some(found) = image.get_mut(place) {
            *found = 0;
        }
    }
    put(image, at, bytes);
}

/// An erased volume of so many sectors of 1024 bytes.
fn blank(alloc: Global, sectors: usize) -> Result<Vec<u8>, AllocError> {
    vec![in alloc; ERASED_BYTE; sectors.saturating_mul(1024)]
}

/// A volume of 8 sectors of 1024 bytes, as one was left before files had sizes in their records.
pub(super) fn image_of_old_form(alloc: Global) -> Result<Vec<u8>, AllocError> {
    let mut image = blank(alloc, 8)?;
    put_record(&mut image, 0, CREATED.as_slice());
    put_record(&mut image, 64, WRITTEN.as_slice());
    put(&mut image, 128, b"hello".as_slice());
    put_record(&mut image, 136, UNMOUNTED.as_slice());
    Ok(image)
}

/// A volume of 6 sectors of 1024 bytes in which no version is left.
pub(super) fn image_of_last_version(alloc: Global) -> Result<Vec<u8>, AllocError> {
    let mut image = blank(alloc, 6)?;
    put_record(&mut image, 0, LAST.as_slice());
    Ok(image)
}

/// A volume of 6 sectors of 1024 bytes with a directory of the last inode, and of version 1.
pub(super) fn image_of_last_inode(alloc: Global) -> Result<Vec<u8>, AllocError> {
    let mut image = image_of_last_version(alloc)?;
    put(&mut image, 8, [0xFF; 4].as_slice());
    put(&mut image, 16, [0, 0, 0, 1].as_slice());
    Ok(image)
}
