//! Scans of images that were written by hand: what each finds, and why it is refused.
//! Their bytes, and what a scan has to find, are worked out from docs/FORMAT.md.

use crate::tests::{append, mount, written};
use jffs_flash::{Fail, FuseFlash, Fused, MemoryFlash};
use jffs_log::{Log, Mounted, RECORD_MAX, ScanFault, ScanWhy, scan};
use jffs_node::{Bytes, Kind, Name, Node, Why, copied, encode_into, record_len};
use jffs_tree::Tree;
use std::alloc::{AllocError, Global};
use std::process::Abort;
use std::test::Fail as TestFail;

pub(super) const SECTORS: u32 = 8;

pub(super) const SECTOR_SIZE: u32 = 1024;

pub(super) const LEN: usize = 8192;

/// The first bytes of three records of the first form, each filled up with zeros to 64 bytes: a
/// file `f` is created, `hello` is written into it, and the session is closed.
const CREATED: [u8; 45] = [
    0x4A, 0x46, 0x46, 0x31, 1, 0, 1, 0, 0, 0, 0, 2, 0, 0, 0, 1, 0, 0, 0, 1, 0, 0, 0, 0, 0, 0, 0, 0,
    0, 0, 0, 0, 0, 1, 0, 1, 0, 0, 0, 1, 0, 0, 0, 0, 0x66,
];

const WRITTEN: [u8; 45] = [
    0x4A, 0x46, 0x46, 0x31, 1, 0, 1, 0, 0, 0, 0, 2, 0, 0, 0, 1, 0, 0, 0, 2, 0, 0, 0, 0, 0, 0, 0, 5,
    0, 0, 0, 0, 0, 1, 0, 1, 0, 0, 0, 2, 0, 0, 0, 0, 0x66,
];

const UNMOUNTED: [u8; 45] = [
    0x4A, 0x46, 0x46, 0x31, 3, 0, 0, 0, 0, 0, 0, 0, 0, 0, 0, 0, 0, 0, 0, 3, 0, 0, 0, 0, 0, 0, 0, 0,
    0, 0, 0, 0, 0, 10, 0, 1, 0, 0, 0, 1, 0, 0, 0, 0, 0,
];

/// What a scan answered.
#[derive(Clone, Copy, Debug, PartialEq, Eq)]
enum Seen {
    Mounted {
        clean: bool,
        records: usize,
        size: Option<u32>,
        limits: (u32, Option<u32>, Option<u32>),
    },
    Refused(ScanWhy),
}

/// Erased flash. An allocation that fails here is asked for again, so that a run in which one fails
/// has it fail in a scan.
fn erased(alloc: Global) -> Result<Vec<u8>, AllocError> {
    match vec![in alloc; 0xFFu8; LEN] {
        Ok(image) => Ok(image),
        Err(AllocError) => vec![in alloc; 0xFFu8; LEN],
    }
}

/// A file's node of the first form, without data.
pub(super) fn file(alloc: Global, version: u32, inode: u32) -> Node {
    Node {
        kind: Kind::File,
        deleted: false,
        copy: false,
        inode,
        parent: 1,
        version,
        offset: 0,
        rsize: 0,
        writer: 1,
        seq: version,
        size: None,
        name: Name::from_bytes(b"f"),
        bytes: Bytes::new(),
    }
}

/// Puts the record of a node at an offset.
pub(super) fn put(rt: &(impl Abort + AllocGlobal), image: &mut Vec<u8>, at: usize, node: &Node) {
    assert!(rt; Tree::new(rt.alloc()).can_apply(node) && node.bytes.len() <= RECORD_MAX);
    let len = record_len(node) as usize;
    assert!(rt; len <= LEN && at <= LEN - len && image.len() == LEN);
    encode_into(node, &mut image[at..at + len]);
}

fn put_bytes(rt: &impl Abort, image: &mut Vec<u8>, at: usize, bytes: &[u8]) {
    assert!(rt; bytes.len() <= LEN && at <= LEN - bytes.len() && image.len() == LEN);
    image[at..at + bytes.len()].copy_from_slice(bytes);
}

/// The image of an old volume: the file, its bytes, and an unmount node, all of the first form.
pub(super) fn old_image(rt: &(impl Abort + AllocGlobal)) -> Result<Vec<u8>, AllocError> {
    let mut image = erased(rt.alloc())?;
    for (at, head) in [(0, CREATED), (64, WRITTEN), (136, UNMOUNTED)] {
        put_bytes(rt, &mut image, at, &[0; 64]);
        put_bytes(rt, &mut image, at, &head);
    }
    put_bytes(rt, &mut image, 128, b"hello");
    Ok(image)
}

fn mounted(found: &Mounted<MemoryFlash>) -> Seen {
    let limits = found.limits;
    Seen::Mounted {
        clean: found.clean,
        records: found.log.records().len(),
        size: found.tree.size(2),
        limits: (limits.data_max, limits.next_inode, limits.next_version),
    }
}

/// Scans an image. A failed allocation hands the device back, and the next scan finds what it
/// holds.
fn look_at(rt: &(impl Abort + AllocGlobal), image: Vec<u8>) -> Seen {
    assert!(rt; image.len() == LEN);
    let flash = MemoryFlash::from_bytes(SECTORS, SECTOR_SIZE, image);
    match scan(rt.alloc(), flash) {
        Ok(found) => mounted(&found),
        Err(fault) => look_again(rt, fault),
    }
}

/// What is seen after a scan that found no volume.
fn look_again(rt: &(impl Abort + AllocGlobal), fault: ScanFault<MemoryFlash>) -> Seen {
    let ScanFault { why, flash } = fault;
    assert_eq!(rt; flash.bytes().len(), LEN);
    if why != ScanWhy::Memory {
        return Seen::Refused(why);
    }
    match scan(rt.alloc(), flash) {
        Ok(found) => mounted(&found),
        Err(fault) => Seen::Refused(fault.why),
    }
}

fn sees(rt: &(impl Abort + AllocGlobal), image: Vec<u8>, wanted: Seen) {
    assert_eq!(rt; look_at(rt, image), wanted);
}

fn bad(place: u32, why: Why) -> Seen {
    Seen::Refused(ScanWhy::BadRecord {
        sector: 0,
        place,
        why,
    })
}

/// An image of files without data: the offset of each, its version and its inode.
pub(super) fn with_files(
    rt: &(impl Abort + AllocGlobal),
    files: &[(usize, u32, u32)],
) -> Result<Vec<u8>, AllocError> {
    let mut image = erased(rt.alloc())?;
    for (at, version, inode) in files {
        put(rt, &mut image, *at, &file(rt.alloc(), *version, *inode));
    }
    Ok(image)
}

/// An image that begins with a node.
pub(super) fn with_node(
    rt: &(impl Abort + AllocGlobal),
    node: Node,
) -> Result<Vec<u8>, AllocError> {
    let mut image = erased(rt.alloc())?;
    put(rt, &mut image, 0, &node);
    Ok(image)
}

/// The image with another byte at an offset.
pub(super) fn changed(rt: &impl Abort, image: Vec<u8>, at: usize, byte: u8) -> Vec<u8> {
    let mut image = image;
    put_bytes(rt, &mut image, at, &[byte]);
    image
}

/// An image of which no sector is erased.
pub(super) fn full_image(rt: &(impl Abort + AllocGlobal)) -> Result<Vec<u8>, AllocError> {
    let mut full = erased(rt.alloc())?;
    for sector in 0..8usize {
        put_bytes(rt, &mut full, sector * 1024, &[0]);
    }
    Ok(full)
}

#[test]
fn a_log_out_of_order_is_refused(rt: HostRuntime) -> Result<(), TestFail> {
    let scattered = with_files(&rt, &[(0, 1, 2), (2048, 2, 2)])?;
    sees(&rt, scattered, Seen::Refused(ScanWhy::Scattered));
    sees(&rt, full_image(&rt)?, Seen::Refused(ScanWhy::NoErased));
    let order = with_files(&rt, &[(0, 2, 2), (64, 1, 2)])?;
    sees(&rt, order, Seen::Refused(ScanWhy::BadOrder));
    Ok(())
}

/// A file in a directory that is not there.
pub(super) fn orphan(alloc: Global) -> Node {
    let mut node = file(alloc, 1, 2);
    node.parent = 9;
    node
}

/// A file's first node, with one byte at offset 4.
fn late_byte(alloc: Global, size: Option<u32>) -> Result<Node, TestFail> {
    let bytes = copied(alloc, b"a")?;
    let mut node = file(alloc, 1, 2);
    node.offset = 4;
    node.size = size;
    node.bytes = bytes;
    Ok(node)
}

#[test]
fn nodes_that_make_no_tree_are_refused(rt: HostRuntime) -> Result<(), TestFail> {
    let alone = with_node(&rt, orphan(rt.alloc()))?;
    sees(&rt, alone, Seen::Refused(ScanWhy::BadTree));
    let hole = with_node(&rt, late_byte(rt.alloc(), None)?)?;
    sees(&rt, hole, Seen::Refused(ScanWhy::BadTree));
    Ok(())
}

#[test]
fn a_bad_record_is_refused_and_half_a_record_is_skipped(rt: HostRuntime) -> Result<(), TestFail> {
    let flags = changed(&rt, with_files(&rt, &[(0, 1, 2)])?, 5, 4);
    sees(&rt, flags, bad(0, Why::Flags));
    let half = changed(&rt, with_files(&rt, &[(0, 1, 2)])?, 7, 0x0F);
    let empty = Seen::Mounted {
        clean: false,
        records: 0,
        size: None,
        limits: (192, Some(2), Some(1)),
    };
    sees(&rt, half, empty);
    Ok(())
}

#[test]
fn one_byte_changed(rt: HostRuntime) -> Result<(), TestFail> {
    let whole = Seen::Mounted {
        clean: true,
        records: 3,
        size: Some(5),
        limits: (192, Some(3), Some(4)),
    };
    sees(&rt, old_image(&rt)?, whole);
    let created = Seen::Mounted {
        clean: false,
        records: 1,
        size: Some(0),
        limits: (192, Some(3), Some(2)),
    };
    for (at, byte, wanted) in [
        (4, 0x09, bad(0, Why::Kind)),
        (106, 0x01, bad(64, Why::Spare)),
        (133, 0x00, bad(64, Why::Pad)),
        (71, 0xFF, created),
    ] {
        let image = changed(&rt, old_image(&rt)?, at, byte);
        assert_eq!(rt; look_at(&rt, image), wanted, "byte {at}");
    }
    sees(&rt, cut_image(&rt)?, bad(64, Why::Name));
    Ok(())
}

/// The old volume with a hundred bytes that are erased.
pub(super) fn cut_image(rt: &(impl Abort + AllocGlobal)) -> Result<Vec<u8>, AllocError> {
    let mut cut = old_image(rt)?;
    put_bytes(rt, &mut cut, 100, &[0xFF; 100]);
    Ok(cut)
}

#[test]
fn forms_are_not_mixed(rt: HostRuntime) -> Result<(), TestFail> {
    let sized = Seen::Mounted {
        clean: false,
        records: 1,
        size: Some(5),
        limits: (192, Some(3), Some(2)),
    };
    sees(&rt, sized_image(&rt)?, sized);
    let short = changed(&rt, sized_image(&rt)?, 43, 4);
    sees(&rt, short, bad(0, Why::Size));
    sees(&rt, mixed_image(&rt)?, Seen::Refused(ScanWhy::BadTree));
    Ok(())
}

/// A file of the second form.
fn sized_image(rt: &(impl Abort + AllocGlobal)) -> Result<Vec<u8>, TestFail> {
    Ok(with_node(rt, late_byte(rt.alloc(), Some(5))?)?)
}

/// A file of the second form, and then another one of the first.
pub(super) fn mixed_image(rt: &(impl Abort + AllocGlobal)) -> Result<Vec<u8>, TestFail> {
    let mut mixed = sized_image(rt)?;
    let mut first = file(rt.alloc(), 2, 3);
    first.name = Name::from_bytes(b"g");
    put(rt, &mut mixed, 68, &first);
    Ok(mixed)
}

#[test]
fn a_log_goes_on_behind_the_last_sector(rt: HostRuntime) -> Result<(), TestFail> {
    let round = Seen::Mounted {
        clean: false,
        records: 3,
        size: Some(0),
        limits: (192, Some(3), Some(4)),
    };
    let mut image = with_files(&rt, &[(7168, 1, 2), (0, 2, 2)])?;
    let mut copy = file(rt.alloc(), 3, 2);
    copy.copy = true;
    put(&rt, &mut image, 64, &copy);
    sees(&rt, image, round);
    Ok(())
}

/// The old volume, with a byte after its end that is not erased.
pub(super) fn torn_image(rt: &(impl Abort + AllocGlobal)) -> Result<Vec<u8>, AllocError> {
    Ok(changed(rt, old_image(rt)?, 300, 0))
}

fn torn(rt: &(impl Abort + AllocGlobal)) -> Result<MemoryFlash, AllocError> {
    let image = torn_image(rt)?;
    assert!(rt; image.len() == LEN);
    Ok(MemoryFlash::from_bytes(SECTORS, SECTOR_SIZE, image))
}

#[test]
fn a_torn_tail_is_not_clean_and_has_no_room(rt: HostRuntime) -> Result<(), TestFail> {
    let node = written(rt.alloc(), 4, 5)?;
    let Mounted {
        mut log,
        tree,
        clean,
        ..
    } = mount(&rt, torn(&rt)?);
    assert!(rt; !clean);
    ends_with(&rt, &log, 1, (0, 136, 64));
    append(&rt, &mut log, &tree, &node)?;
    ends_with(&rt, &log, 2, (1, 0, 72));
    Ok(())
}

/// How many sectors the log holds, and sector, offset and length of its newest record.
fn ends_with(rt: &impl Abort, log: &Log<MemoryFlash>, held: u32, newest: (u32, u32, u32)) {
    assert_eq!(rt; log.held(), held);
    let last = log.records().back().map(|last| {
        (
            u32::from(last.sector),
            u32::from(last.offset),
            u32::from(last.length),
        )
    });
    assert_eq!(rt; last, Some(newest));
}

/// Of an old volume on a device that fails after so many calls: why the scan fails. The image comes
/// back as it was.
fn failed_scan(
    rt: &(impl Abort + AllocGlobal),
    calls: u32,
    fail: Fail,
) -> Result<ScanWhy, AllocError> {
    let image = old_image(rt)?;
    assert!(rt; image.len() == LEN);
    let inner = MemoryFlash::from_bytes(SECTORS, SECTOR_SIZE, image);
    let fused = FuseFlash::new(inner, u64::from(calls), Fused::All, fail);
    match scan(rt.alloc(), fused) {
        Ok(_) => panic!(rt; "mounted after {calls} reads"),
        Err(ScanFault { why, flash }) => {
            is_old(rt, &flash.into_inner())?;
            Ok(why)
        }
    }
}

/// The device holds the old volume.
fn is_old(rt: &(impl Abort + AllocGlobal), flash: &MemoryFlash) -> Result<(), AllocError> {
    let image = old_image(rt)?;
    assert_eq!(rt; flash.bytes(), image.as_slice());
    Ok(())
}

#[test]
fn a_failed_read_hands_the_device_back(rt: HostRuntime) -> Result<(), TestFail> {
    for calls in 0..SECTORS {
        for fail in [Fail::Nothing, Fail::Half] {
            assert_eq!(rt; failed_scan(&rt, calls, fail)?, ScanWhy::Device);
        }
    }
    Ok(())
}

#[test]
fn other_sizes_are_no_volume(rt: HostRuntime) -> Result<(), TestFail> {
    let flash = MemoryFlash::from_bytes(5, 1, vec![in rt.alloc(); 0xFFu8; 5]?);
    match scan(rt.alloc(), flash) {
        Ok(_) => panic!(rt; "mounted"),
        Err(fault) => assert_eq!(rt; fault.why, ScanWhy::Geometry),
    }
    Ok(())
}
