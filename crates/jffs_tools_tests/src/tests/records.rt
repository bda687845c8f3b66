//! Images that are spelled byte by byte.
//! The fields stand as in the table of docs/FORMAT.md.

use std::alloc::{AllocError, Global};

/// A record, field by field.
#[derive(Clone, Copy)]
pub(crate) struct Record {
    pub kind: u8,
    pub flags: u8,
    pub inode: u32,
    pub parent: u32,
    pub version: u32,
    pub offset: u32,
    pub rsize: u32,
    pub form: u8,
    pub size: u32,
    /// The name is one byte, or none where this is 0.
    pub name: u8,
    pub bytes: &'static [u8],
}

/// An empty file of form 1.
pub(crate) const FILE: Record = Record {
    kind: 1,
    flags: 0,
    inode: 2,
    parent: 1,
    version: 1,
    offset: 0,
    rsize: 0,
    form: 1,
    size: 0,
    name: b'f',
    bytes: &[],
};

/// A directory.
pub(crate) const DIRECTORY: Record = Record {
    kind: 2,
    name: b'a',
    ..FILE
};

/// An unmount node.
pub(crate) const UNMOUNT: Record = Record {
    kind: 3,
    inode: 0,
    parent: 0,
    name: 0,
    ..FILE
};

/// The bytes of an image: of each sector the records, and all else erased.
pub(crate) fn image_of(
    alloc: Global,
    sectors: &[&[Record]],
    many: usize,
) -> Result<Vec<u8>, AllocError> {
    let mut image = Vec::new(alloc);
    for sector in 0..many {
        push_sector(&mut image, sectors.get(sector).copied().unwrap_or(&[]))?;
    }
    Ok(image)
}

fn push_sector(image: &mut Vec<u8>, records: &[Record]) -> Result<(), AllocError> {
    let begin = image.len();
    for record in records {
        push_record(image, record)?;
    }
    fill(image, begin, 1024)
}

/// Erased bytes, until `length` stand after the position.
fn fill(image: &mut Vec<u8>, begin: usize, length: usize) -> Result<(), AllocError> {
    for _ in 0..length {
        if image.len().saturating_sub(begin) < length {
            image.push(0xFF)?;
        }
    }
    Ok(())
}

fn push_record(image: &mut Vec<u8>, record: &Record) -> Result<(), AllocError> {
    let begin = image.len();
    let name_length = u8::from(record.name != 0);
    image.extend_from_slice(b"JFF1")?;
    image.extend_from_slice(&[record.kind, record.flags, name_length, 0])?;
    for number in [record.inode, record.parent, record.version, record.offset] {
        image.extend_from_slice(&number.to_be_bytes())?;
    }
    let length = record.bytes.len().min(255) as u32;
    image.extend_from_slice(&length.to_be_bytes())?;
    image.extend_from_slice(&record.rsize.to_be_bytes())?;
    image.extend_from_slice(&[0, 1, 0, record.form])?;
    image.extend_from_slice(&record.version.to_be_bytes())?;
    image.extend_from_slice(&record.size.to_be_bytes())?;
    image.extend_from_slice(&[record.name, 0, 0, 0, 0, 0, 0, 0, 0, 0])?;
    image.extend_from_slice(&[0; 10])?;
    image.extend_from_slice(record.bytes)?;
    let padded = record.bytes.len().min(255).div_ceil(4) * 4;
    fill(image, begin, 64 + padded)
}

/// The image with another byte at this offset.
pub(crate) fn changed(mut image: Vec<u8>, at: usize, byte: u8) -> Vec<u8> {
    if let Some(found) = image.get_mut(at) {
        *found = byte;
    }
    image
}

/// The file `f` with its five bytes, all in form 1, unmounted.
pub(crate) const OLD_FORM: [Record; 3] = [
    FILE,
    Record {
        version: 2,
        bytes: b"hello",
        ..FILE
    },
    Record {
        version: 3,
        ..UNMOUNT
    },
];
