//! The log on concrete devices: what each call leaves, seen by a further scan.
//! Versions, weights and sectors are counted from the lengths of records in docs/FORMAT.md.

use jffs_flash::{Fail, Flash, FuseFlash, Fused, MemoryFlash};
use jffs_log::{Log, Mounted, RECORD_MAX, Room, scan};
use jffs_node::{Bytes, HEADER_LEN, Kind, Name, Node, Read, decode, record_len};
use jffs_tree::{Cause, CopySource, Tree};
use std::alloc::{AllocError, Global};
use std::process::Abort;
use std::test::Fail as TestFail;

/// A node that writes `amount` bytes over the start of the one file.
pub(super) fn written(alloc: Global, version: u32, amount: u32) -> Result<Node, AllocError> {
    let bytes = vec![in alloc; 0x61u8; amount as usize]?;
    Ok(Node {
        kind: Kind::File,
        deleted: false,
        copy: false,
        inode: 2,
        parent: 1,
        version,
        offset: 0,
        rsize: amount,
        writer: 1,
        seq: version,
        size: Some(1000),
        name: Name::from_bytes(b"f"),
        bytes: Bytes::from_vec(bytes)?,
    })
}

pub(super) fn mount<F: Flash + Drop>(rt: &(impl Abort + AllocGlobal), flash: F) -> Mounted<F> {
    match scan(rt.alloc(), flash) {
        Ok(mounted) => mounted,
        Err(fault) => panic!(rt; "{}", fault.why),
    }
}

/// Appends a fresh node once all conditions are tested.
pub(super) fn append<F: Flash>(
    rt: &impl Abort,
    log: &mut Log<F>,
    tree: &Tree,
    node: &Node,
) -> Result<(), Cause> {
    log.reserve()?;
    assert!(rt; tree.can_apply(node) && node.bytes.len() <= RECORD_MAX);
    let len = record_len(node);
    assert!(rt; !log.failed() && len <= log.record_max() && log.room(Room::Fresh, len));
    log.append(Room::Fresh, node)
}

/// Whether the oldest sector may be erased, of a device that works.
fn is_oldest_dead<F: Flash>(rt: &impl Abort, log: &Log<F>, tree: &Tree) -> bool {
    assert!(rt; !log.failed());
    log.oldest_dead(tree)
}

/// The bytes of the oldest sector, of a device that works.
fn oldest_image<F: Flash>(
    rt: &(impl Abort + AllocGlobal),
    log: &mut Log<F>,
) -> Result<Vec<u8>, Cause> {
    assert!(rt; !log.failed() && log.held() >= 1);
    log.oldest_image(rt.alloc())
}

/// Takes a node into the tree once it is tested.
pub(super) fn apply(rt: &impl Abort, tree: &mut Tree, node: &Node) -> Result<(), Cause> {
    assert!(rt; tree.can_apply(node));
    tree.apply(node)
}

/// The versions of the records, each as one decimal digit, the oldest first.
fn versions<F: Flash>(log: &Log<F>) -> u32 {
    let mut digits = 0u32;
    for entry in log.records().iter() {
        digits = digits.wrapping_mul(10).wrapping_add(entry.version);
    }
    digits
}

fn blank(rt: &(impl Abort + AllocGlobal)) -> MemoryFlash {
    blank_with(rt, 1024)
}

/// Six erased sectors of this size.
fn blank_with(rt: &(impl Abort + AllocGlobal), sector_size: u32) -> MemoryFlash {
    match MemoryFlash::new(rt.alloc(), 6, sector_size) {
        Ok(flash) => flash,
        Err(why) => panic!(rt; "{why}"),
    }
}

/// Writes the same file in versions 1 and 2.
fn append_two<F: Flash>(
    rt: &(impl Abort + AllocGlobal),
    log: &mut Log<F>,
    tree: &mut Tree,
) -> Result<(), Cause> {
    for version in 1..3 {
        let node = written(rt.alloc(), version, 5)?;
        append(rt, log, tree, &node)?;
        apply(rt, tree, &node)?;
    }
    Ok(())
}

/// The first sector holds this image, and a scan finds both versions.
fn comes_back(rt: &(impl Abort + AllocGlobal), log: Log<MemoryFlash>, image: &[u8]) {
    let flash = log.into_flash();
    assert_eq!(rt; flash.bytes().get(..1024).unwrap_or(&[]), image);
    let again = mount(rt, flash);
    let told = (versions(&again.log), again.log.live_weight(&again.tree));
    assert_eq!(rt; told, (12, 72));
}

/// The log and the tree after both versions.
fn holds_two(rt: &impl Abort, log: &Log<MemoryFlash>, tree: &Tree) {
    assert_eq!(rt; (log.erased(), log.erases()), (5, 0));
    assert_eq!(rt; log.tail(), Some(0));
    assert_eq!(rt;
        (log.free(), log.sure_weight()),
        (1024 - 2 * 72, 2 * (768 - 64))
    );
    assert_eq!(rt; (versions(log), log.live_weight(tree)), (12, 72));
    assert!(rt; !is_oldest_dead(rt, log, tree));
}

#[test]
fn each_call_on_its_happy_path(rt: HostRuntime) -> Result<(), TestFail> {
    let Mounted {
        mut log,
        mut tree,
        ..
    } = mount(&rt, blank(&rt));
    assert_eq!(rt; (log.erased(), log.free()), (6, 0));
    assert_eq!(rt; log.tail(), None);
    assert!(rt; !is_oldest_dead(&rt, &log, &tree));
    append_two(&rt, &mut log, &mut tree)?;
    holds_two(&rt, &log, &tree);
    let image = oldest_image(&rt, &mut log)?;
    comes_back(&rt, log, image.as_slice());
    Ok(())
}

/// A volume with version 1 of the file.
fn with_first(rt: &(impl Abort + AllocGlobal)) -> Result<MemoryFlash, Cause> {
    with_amount(rt, 5)
}

/// A volume with a version 1 of the file that writes so many bytes.
fn with_amount(rt: &(impl Abort + AllocGlobal), amount: u32) -> Result<MemoryFlash, Cause> {
    let first = written(rt.alloc(), 1, amount)?;
    let Mounted { mut log, tree, .. } = mount(rt, blank(rt));
    append(rt, &mut log, &tree, &first)?;
    Ok(log.into_flash())
}

/// Appends a version of the file to a device whose writes fail after `calls` of them: whether that
/// was refused, and the device.
fn cut_append(
    rt: &(impl Abort + AllocGlobal),
    flash: MemoryFlash,
    version: u32,
    calls: u64,
    fail: Fail,
) -> Result<(bool, MemoryFlash), AllocError> {
    let node = written(rt.alloc(), version, 5)?;
    let fuse = FuseFlash::new(flash, calls, Fused::Writes, fail);
    let Mounted { mut log, tree, .. } = mount(rt, fuse);
    let cut = append(rt, &mut log, &tree, &node).is_err();
    Ok((cut, log.into_flash().into_inner()))
}

/// The versions that a scan finds, as `versions` gives them.
fn found(rt: &(impl Abort + AllocGlobal), flash: MemoryFlash) -> u32 {
    versions(&mount(rt, flash).log)
}

/// Whether the append of version 2 was refused, and the versions that a scan finds then.
fn cut_and_found(
    rt: &(impl Abort + AllocGlobal),
    calls: u64,
    fail: Fail,
) -> Result<(bool, u32), TestFail> {
    let (cut, flash) = cut_append(rt, with_first(rt)?, 2, calls, fail)?;
    Ok((cut, found(rt, flash)))
}

#[test]
fn a_cut_append_leaves_the_record_or_nothing(rt: HostRuntime) -> Result<(), TestFail> {
    for fail in [Fail::Nothing, Fail::Half] {
        for (calls, wanted) in [(0, (true, 1)), (1, (true, 1)), (2, (false, 12))] {
            assert_eq!(rt; cut_and_found(&rt, calls, fail)?, wanted);
        }
    }
    Ok(())
}

#[test]
fn half_record_does_not_count(rt: HostRuntime) -> Result<(), TestFail> {
    let (cut, flash) = cut_append(&rt, blank(&rt), 1, 0, Fail::Half)?;
    assert!(rt; cut);
    let flash = append_behind_half(&rt, flash)?;
    assert_eq!(rt; found(&rt, flash), 1);
    Ok(())
}

/// Appends version 1 to a log of no record, of which one sector is not erased.
fn append_behind_half(
    rt: &(impl Abort + AllocGlobal),
    flash: MemoryFlash,
) -> Result<MemoryFlash, Cause> {
    let node = written(rt.alloc(), 1, 5)?;
    let Mounted { mut log, tree, .. } = mount(rt, flash);
    assert_eq!(rt; (log.records().len(), log.erased()), (0, 5));
    append(rt, &mut log, &tree, &node)?;
    assert_eq!(rt; log.erased(), 4);
    Ok(log.into_flash())
}

/// Erases the oldest sector once all conditions are tested.
pub(super) fn erase<F: Flash>(rt: &impl Abort, log: &mut Log<F>, tree: &Tree) -> Result<(), Cause> {
    assert!(rt; !log.failed() && log.oldest_dead(tree));
    log.erase_oldest(tree)
}

/// Appends a version of the file, and erases the oldest sector where it is dead then.
fn append_and_erase(
    rt: &(impl Abort + AllocGlobal),
    log: &mut Log<MemoryFlash>,
    tree: &mut Tree,
    version: u32,
) -> Result<(), Cause> {
    let node = written(rt.alloc(), version, 192)?;
    append(rt, log, tree, &node)?;
    apply(rt, tree, &node)?;
    if is_oldest_dead(rt, log, tree) {
        erase(rt, log, tree)?;
        assert_eq!(rt; log.erases(), 1);
    }
    Ok(())
}

/// A scan finds the records and the sectors that the log holds.
fn is_found(rt: &(impl Abort + AllocGlobal), log: Log<MemoryFlash>) -> MemoryFlash {
    let kept = versions(&log);
    let ring = (log.oldest(), log.held());
    let again = mount(rt, log.into_flash());
    assert_eq!(rt; versions(&again.log), kept);
    assert_eq!(rt; (again.log.oldest(), again.log.held()), ring);
    again.log.into_flash()
}

#[test]
fn a_log_goes_round_the_end_of_the_image(rt: HostRuntime) -> Result<(), TestFail> {
    let mut flash = blank(&rt);
    for version in 1..60 {
        let Mounted {
            mut log,
            mut tree,
            ..
        } = mount(&rt, flash);
        append_and_erase(&rt, &mut log, &mut tree, version)?;
        flash = is_found(&rt, log);
    }
    Ok(())
}

/// A node that writes bytes which no other version has, or none at all in each third version.
fn varied(alloc: Global, version: u32) -> Result<Node, AllocError> {
    let amount = if version % 3 == 0 {
        0
    } else {
        192 - version % 4
    };
    let mut node = written(alloc, version, amount)?;
    let mut bytes = vec![in alloc; 0u8; amount as usize]?;
    let step = (version % 256) as u8;
    let mut next = 0u8;
    for byte in bytes.iter_mut() {
        *byte = next;
        next = next.wrapping_add(step);
    }
    node.bytes = Bytes::from_vec(bytes)?;
    Ok(node)
}

/// What cleaning knows of a record of the oldest sector, of a device that works.
fn source_at<F: Flash>(rt: &impl Abort, log: &Log<F>, at: usize) -> CopySource {
    assert!(rt; !log.failed());
    assert!(rt; at < log.oldest_count());
    log.oldest_source(at)
}

/// The oldest sector's records are those that its own bytes say; returns how many there are.
fn oldest_are_known(
    rt: &(impl Abort + AllocGlobal),
    log: &mut Log<MemoryFlash>,
) -> Result<usize, TestFail> {
    let image = oldest_image(rt, log)?;
    let record_max = log.record_max();
    let mut known = 0usize;
    let mut rest = image.as_slice();
    for _record in 0..image.len() / HEADER_LEN {
        let Read::Closed(node, len) = decode(rt.alloc(), rest, record_max)? else {
            break;
        };
        assert_eq!(rt; source_at(rt, log, known), CopySource::of(&node));
        known = known.saturating_add(1);
        rest = rest.get(len as usize..).unwrap_or(&[]);
    }
    assert!(rt; !log.failed());
    assert_eq!(rt; log.oldest_count(), known);
    Ok(known)
}

/// Appends versions on erased sectors of this size, and compares what is known of the oldest sector
/// with its bytes after each; returns how many records there were at most.
fn most_known(
    rt: &(impl Abort + AllocGlobal),
    sector_size: u32,
    versions: u32,
) -> Result<usize, TestFail> {
    let Mounted {
        mut log,
        mut tree,
        ..
    } = mount(rt, blank_with(rt, sector_size));
    let mut most = 0;
    for version in 1..versions {
        let node = varied(rt.alloc(), version)?;
        append(rt, &mut log, &tree, &node)?;
        apply(rt, &mut tree, &node)?;
        most = oldest_are_known(rt, &mut log)?.max(most);
        if is_oldest_dead(rt, &log, &tree) {
            erase(rt, &mut log, &tree)?;
        }
    }
    Ok(most)
}

#[test]
fn the_oldest_records_are_those_of_its_bytes(rt: HostRuntime) -> Result<(), TestFail> {
    assert_eq!(rt; most_known(&rt, 1024, 60)?, 5);
    assert_eq!(rt; most_known(&rt, 16_384, 30)?, 29);
    Ok(())
}

/// A mount reads six sectors, and the device allows no more reads.
#[test]
fn the_oldest_records_are_known_without_a_read(rt: HostRuntime) -> Result<(), TestFail> {
    for amount in [0, 5] {
        let fuse = FuseFlash::new(with_amount(&rt, amount)?, 6, Fused::All, Fail::Nothing);
        let Mounted { log, .. } = mount(&rt, fuse);
        let node = written(rt.alloc(), 1, amount)?;
        assert_eq!(rt; source_at(&rt, &log, 0), CopySource::of(&node));
        assert!(rt; !log.failed() && log.oldest_count() == 1);
    }
    Ok(())
}

#[test]
fn a_failed_read_of_the_oldest_sector_stops_the_log(rt: HostRuntime) -> Result<(), TestFail> {
    let fuse = FuseFlash::new(with_first(&rt)?, 6, Fused::All, Fail::Nothing);
    let Mounted { mut log, .. } = mount(&rt, fuse);
    let read = oldest_image(&rt, &mut log);
    assert_eq!(rt; read.err(), Some(Cause::Device));
    assert!(rt; log.failed());
    Ok(())
}
