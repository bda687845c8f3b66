//! Logs whose oldest sector is about to be erased, of a run with cleaning, and what is to be found
//! of each once that erase was cut off: the same tree, and the records of the other sectors.

use crate::tests::{append, apply, erase, mount};
use jffs_flash::MemoryFlash;
use jffs_log::{Log, Mounted, RECORD_MAX, RecordRef, Room};
use jffs_node::{Bytes, HEADER_LEN, Kind, Name, Node, record_len};
use jffs_tree::{Cause, CopySource, Tree};
use std::alloc::{AllocError, Global};
use std::process::Abort;
use std::test::Fail as TestFail;

/// How many sectors each volume has.
pub(super) const SECTORS: u32 = 6;

/// A file that is written over again and again, and one that is written once: each cleaning has to
/// copy it.
const FILES: [u32; 2] = [2, 3];

/// A log whose oldest sector is dead, and the next call is its erase.
#[derive(Drop)]
pub(super) struct Before {
    pub(super) size: u32,
    pub(super) image: Vec<u8>,
    /// The sector that is to be erased.
    pub(super) sector: u32,
    /// The records of the other ones.
    kept: Vec<RecordRef>,
    /// The tree, and the bytes of the two files in it.
    tree: Tree,
    bytes: [Vec<u8>; 2],
}

/// A device with these bytes.
pub(super) fn flash_of(rt: &impl Abort, size: u32, image: Vec<u8>) -> MemoryFlash {
    assert!(rt; image.len() == SECTORS as usize * size as usize);
    MemoryFlash::from_bytes(SECTORS, size, image)
}

/// A node that writes a whole file of so many bytes, which tell its version.
fn whole(alloc: Global, inode: u32, version: u32, amount: u32) -> Result<Node, AllocError> {
    let bytes = vec![in alloc; (version % 256) as u8; amount as usize]?;
    Ok(Node {
        kind: Kind::File,
        deleted: false,
        copy: false,
        inode,
        parent: 1,
        version,
        offset: 0,
        rsize: amount,
        writer: 1,
        seq: version,
        size: Some(amount),
        name: Name::from_bytes(if inode == 2 { b"f" } else { b"g" }),
        bytes: Bytes::from_vec(bytes)?,
    })
}

/// Appends a fresh node to log and tree.
fn put(
    rt: &impl Abort,
    log: &mut Log<MemoryFlash>,
    tree: &mut Tree,
    node: &Node,
) -> Result<(), Cause> {
    append(rt, log, tree, node)?;
    apply(rt, tree, node)
}

/// Appends a copy to log and tree once all conditions are tested.
fn put_copy(
    rt: &impl Abort,
    log: &mut Log<MemoryFlash>,
    tree: &mut Tree,
    node: &Node,
) -> Result<(), Cause> {
    log.reserve()?;
    assert!(rt; tree.can_apply(node) && node.bytes.len() <= RECORD_MAX);
    let len = record_len(node);
    assert!(rt; !log.failed() && len <= log.record_max() && log.room(Room::Copy, len));
    log.append(Room::Copy, node)?;
    apply(rt, tree, node)
}

/// Writes the file over until three sectors are erased; returns the version that comes next.
fn fill(
    rt: &(impl Abort + AllocGlobal),
    log: &mut Log<MemoryFlash>,
    tree: &mut Tree,
    first: u32,
) -> Result<u32, Cause> {
    let amount = log.record_max().saturating_sub(HEADER_LEN as u32);
    for version in first..first.saturating_add(16) {
        if log.erased() < 4 {
            return Ok(version);
        }
        let node = whole(rt.alloc(), 2, version, amount)?;
        put(rt, log, tree, &node)?;
    }
    panic!(rt; "the sectors don't fill")
}

/// What cleaning knows of a record of the log, by its number.
fn source_at(log: &Log<MemoryFlash>, at: usize) -> Option<CopySource> {
    let record = log.records().get(at)?;
    Some(CopySource {
        inode: record.inode,
        version: record.version,
        offset: record.data_offset,
        len: usize::from(record.data_len),
    })
}

/// Copies what lives in the oldest sector; returns the version that comes next.
fn copy_live(
    rt: &(impl Abort + AllocGlobal),
    log: &mut Log<MemoryFlash>,
    tree: &mut Tree,
    first: u32,
) -> Result<u32, TestFail> {
    let mut version = first;
    assert!(rt; !log.failed());
    for at in 0..log.oldest_count() {
        let Some(source) = source_at(log, at) else {
            break;
        };
        if tree.live(source.inode, source.version) {
            let copy = tree.cleaning_copy(source)?.with(version, 0, 0);
            put_copy(rt, log, tree, &copy)?;
            version = version.saturating_add(1);
        }
    }
    Ok(version)
}

/// The log as it is before the erase.
fn standing(log: &Log<MemoryFlash>, tree: &Tree, alloc: Global) -> Result<Before, TestFail> {
    let sector = log.oldest();
    let mut image = Vec::new(alloc);
    image.extend_from_slice(log.flash().bytes())?;
    let mut kept = Vec::new(alloc);
    for record in log.records().iter() {
        if u32::from(record.sector) != sector {
            kept.push(*record)?;
        }
    }
    Ok(Before {
        size: log.sector_size(),
        image,
        sector,
        kept,
        tree: tree.copy_tree()?,
        bytes: [bytes_of(alloc, tree, 2)?, bytes_of(alloc, tree, 3)?],
    })
}

/// Erased flash.
fn blank(rt: &(impl Abort + AllocGlobal), size: u32) -> Result<MemoryFlash, AllocError> {
    let blank = vec![in rt.alloc(); 0xFFu8; SECTORS as usize * size as usize]?;
    Ok(flash_of(rt, size, blank))
}

/// A volume of three sectors with records, of which the oldest has one that lives.
pub(super) fn living(rt: &(impl Abort + AllocGlobal), size: u32) -> Result<Vec<u8>, TestFail> {
    let Mounted {
        mut log,
        mut tree,
        ..
    } = mount(rt, blank(rt, size)?);
    put(rt, &mut log, &mut tree, &whole(rt.alloc(), 3, 1, 5)?)?;
    fill(rt, &mut log, &mut tree, 2)?;
    assert_eq!(rt; (log.oldest(), log.live_in(0, &tree)), (0, 1));
    Ok(standing(&log, &tree, rt.alloc())?.into_image())
}

/// What stands before each of so many erases of a run on sectors of this size.
pub(super) fn befores(
    rt: &(impl Abort + AllocGlobal),
    size: u32,
    erases: usize,
) -> Result<Vec<Before>, TestFail> {
    let Mounted {
        mut log,
        mut tree,
        ..
    } = mount(rt, blank(rt, size)?);
    put(rt, &mut log, &mut tree, &whole(rt.alloc(), 3, 1, 5)?)?;
    let mut found = Vec::new(rt.alloc());
    let mut version = 2;
    for _ in 0..erases {
        version = fill(rt, &mut log, &mut tree, version)?;
        version = copy_live(rt, &mut log, &mut tree, version)?;
        found.push(standing(&log, &tree, rt.alloc())?)?;
        erase(rt, &mut log, &tree)?;
    }
    Ok(found)
}

impl Before {
    /// The bytes of the volume.
    pub(super) fn into_image(self) -> Vec<u8> {
        let Before {
            size: _,
            image,
            sector: _,
            kept: _,
            tree: _,
            bytes: _,
        } = self;
        image
    }

    /// The bytes of that sector, of an image.
    pub(super) fn part<'a>(&self, image: &'a [u8]) -> &'a [u8] {
        let size = self.size as usize;
        let at = self.sector as usize * size;
        image.get(at..at.saturating_add(size)).unwrap_or(&[])
    }

    /// What the sector that is to be erased holds.
    pub(super) fn old(&self) -> &[u8] {
        self.part(&self.image)
    }

    /// A device that holds other bytes there.
    pub(super) fn with_left(&self, rt: &impl Abort, left: &[u8]) -> MemoryFlash {
        let mut image = self.image.clone().expect(rt, "memory");
        let at = self.sector as usize * self.size as usize;
        let end = at.saturating_add(left.len());
        assert!(rt; left.len() == self.size as usize && at < end && end <= image.len());
        image[at..end].copy_from_slice(left);
        flash_of(rt, self.size, image)
    }

    /// The device holds these bytes in that sector, and what it held in the others.
    pub(super) fn is_kept(&self, rt: &impl Abort, bytes: &[u8], left: &[u8]) {
        let at = self.sector as usize * self.size as usize;
        let end = at.saturating_add(self.size as usize);
        assert!(rt; bytes.len() == self.image.len() && at < end && end <= bytes.len());
        assert!(rt; &bytes[at..end] == left);
        assert!(rt; &bytes[..at] == &self.image[..at] && &bytes[end..] == &self.image[end..]);
    }

    /// The log has the records that stood in the other sectors, and the tree is the same.
    pub(super) fn finds(&self, rt: &(impl Abort + AllocGlobal), mounted: &Mounted<MemoryFlash>) {
        let mut at = 0usize;
        for record in mounted.log.records().iter() {
            if u32::from(record.sector) != self.sector {
                assert_eq!(rt; Some(*record), self.kept.get(at).copied());
                at = at.saturating_add(1);
            }
        }
        assert_eq!(rt; at, self.kept.len());
        for (inode, bytes) in FILES.iter().zip(self.bytes.iter()) {
            is_same(rt, &mounted.tree, &self.tree, *inode);
            assert!(rt; bytes_of(rt.alloc(), &mounted.tree, *inode).expect(rt, "memory") == *bytes);
        }
        assert_eq!(rt; mounted.tree.size(4), None);
    }
}

/// A file is the same in two trees, to the writers of its first and its last byte.
fn is_same(rt: &impl Abort, found: &Tree, wanted: &Tree, inode: u32) {
    let size = wanted.size(inode);
    assert!(rt; size.is_some() && found.size(inode) == size);
    assert_eq!(rt; found.newest(inode), wanted.newest(inode));
    let last = size.unwrap_or(0).saturating_sub(1);
    for offset in [0, last] {
        let writer = wanted.last_writer(inode, offset);
        assert_eq!(rt; found.last_writer(inode, offset), writer);
    }
    has_name(rt, found, inode);
}

/// The file has the name that it was given.
fn has_name(rt: &impl Abort, tree: &Tree, inode: u32) {
    let wanted: &[u8] = if inode == 2 { b"f" } else { b"g" };
    match tree.parent_name(inode) {
        Some((parent, name)) => assert!(rt; parent == 1 && name.bytes() == wanted),
        None => panic!(rt; "no file {inode}"),
    }
}

/// The bytes of a file.
pub(super) fn bytes_of(alloc: Global, tree: &Tree, inode: u32) -> Result<Vec<u8>, AllocError> {
    let mut bytes = vec![in alloc; 0u8; tree.size(inode).unwrap_or(0) as usize]?;
    tree.read(inode, 0, &mut bytes);
    Ok(bytes)
}
