//! What is saved of images that a scan refuses, each damaged in one way, and of one that it takes.
//! What has to be saved follows from how each image was damaged, by docs/FORMAT.md.

use crate::scan_tests::{
    LEN, SECTOR_SIZE, SECTORS, changed, cut_image, file, full_image, mixed_image, old_image,
    orphan, put, torn_image, with_files, with_node,
};
use crate::tests::mount;
use jffs_flash::MemoryFlash;
use jffs_log::{CutSector, Mounted, Salvaged, SavedRecord, salvage};
use jffs_node::{Kind, Name, Node, Why};
use jffs_tree::Tree;
use std::alloc::Global;
use std::process::Abort;
use std::test::Fail as TestFail;

/// What is to be seen of what was saved: the versions of the records that were taken and of those
/// that were left out, each as one decimal digit, and where sectors were cut.
#[derive(Clone, Copy, Debug, PartialEq, Eq)]
struct Seen {
    taken: u32,
    left_out: u32,
    cut: Option<CutSector>,
}

fn digits(records: &[SavedRecord]) -> u32 {
    let mut digits = 0u32;
    for found in records {
        digits = digits.wrapping_mul(10).wrapping_add(found.version);
    }
    digits
}

/// Saves what is in an image; where allocation fails it is asked for again.
fn saved(rt: &(impl Abort + AllocGlobal), image: &[u8]) -> Salvaged {
    assert!(rt; image.len() == LEN);
    match salvage(rt.alloc(), image, SECTORS, SECTOR_SIZE) {
        Ok(made) => made,
        Err(_) => salvage(rt.alloc(), image, SECTORS, SECTOR_SIZE).expect(rt, "memory"),
    }
}

/// Saves what is in an image that is cut in one place at most.
fn sees(rt: &(impl Abort + AllocGlobal), image: &[u8], wanted: Seen) -> Salvaged {
    let made = saved(rt, image);
    assert!(rt; made.cut.len() <= 1);
    let seen = Seen {
        taken: digits(&made.taken),
        left_out: digits(&made.left_out),
        cut: made.cut.first().copied(),
    };
    assert_eq!(rt; seen, wanted);
    made
}

fn all_of(taken: u32) -> Seen {
    Seen {
        taken,
        left_out: 0,
        cut: None,
    }
}

fn cut_at(sector: u32, offset: u32, why: Option<Why>) -> Option<CutSector> {
    Some(CutSector {
        sector,
        offset,
        why,
    })
}

#[test]
fn a_bad_record_hides_those_after_it_in_its_sector_alone(rt: HostRuntime) -> Result<(), TestFail> {
    let files = [
        (0, 1, 2),
        (64, 2, 3),
        (128, 3, 4),
        (1024, 4, 5),
        (1088, 5, 6),
    ];
    let _ = sees(&rt, &with_files(&rt, &files)?, all_of(12345));
    for (at, byte, why) in [(68, 9, Some(Why::Kind)), (71, 0xFF, None)] {
        let image = changed(&rt, with_files(&rt, &files)?, at, byte);
        let wanted = Seen {
            taken: 145,
            left_out: 0,
            cut: cut_at(0, 64, why),
        };
        let made = sees(&rt, &image, wanted);
        assert_eq!(rt; (made.tree.size(2), made.tree.size(3)), (Some(0), None));
    }
    Ok(())
}

#[test]
fn the_ring_need_not_be_found(rt: HostRuntime) -> Result<(), TestFail> {
    let scattered = with_files(&rt, &[(0, 1, 2), (2048, 2, 2)])?;
    let _ = sees(&rt, &scattered, all_of(12));
    let made = saved(&rt, &full_image(&rt)?);
    assert_eq!(rt; (made.taken.len(), made.cut.len()), (0, 8));
    assert_eq!(rt; made.cut.last().copied(), cut_at(7, 0, None));
    Ok(())
}

/// A file's node of this name.
fn named(alloc: Global, version: u32, inode: u32, name: &[u8]) -> Node {
    let mut node = file(alloc, version, inode);
    node.name = Name::from_bytes(name);
    node
}

/// Whether inode 2 has this name.
fn has_name(tree: &Tree, name: &[u8]) -> bool {
    match tree.parent_name(2) {
        Some((_, found)) => found.bytes() == name,
        None => false,
    }
}

#[test]
fn records_are_taken_by_their_versions(rt: HostRuntime) -> Result<(), TestFail> {
    let mut image = with_node(&rt, named(rt.alloc(), 2, 2, b"new"))?;
    put(&rt, &mut image, 64, &named(rt.alloc(), 1, 2, b"old"));
    let made = sees(&rt, &image, all_of(12));
    assert!(rt; has_name(&made.tree, b"new"));
    let mut image = with_node(&rt, named(rt.alloc(), 1, 2, b"one"))?;
    put(&rt, &mut image, 64, &named(rt.alloc(), 1, 2, b"next"));
    let made = sees(&rt, &image, all_of(11));
    assert!(rt; has_name(&made.tree, b"next"));
    Ok(())
}

/// The image of a directory and of a file with its number, that a third node names anew.
fn with_two_kinds(rt: &(impl Abort + AllocGlobal)) -> Result<Vec<u8>, TestFail> {
    let mut directory = named(rt.alloc(), 1, 2, b"d");
    directory.kind = Kind::Directory;
    let mut image = with_node(rt, directory)?;
    put(rt, &mut image, 64, &file(rt.alloc(), 2, 2));
    put(rt, &mut image, 128, &file(rt.alloc(), 3, 3));
    Ok(image)
}

#[test]
fn a_record_that_does_not_fit_is_left_out_alone(rt: HostRuntime) -> Result<(), TestFail> {
    let wanted = Seen {
        taken: 13,
        left_out: 2,
        cut: None,
    };
    let made = sees(&rt, &with_two_kinds(&rt)?, wanted);
    assert!(rt; made.tree.is_directory(2));
    assert_eq!(rt;
        made.left_out
            .first()
            .map(|found| (found.sector, found.offset)),
        Some((0, 64))
    );
    Ok(())
}

#[test]
fn what_makes_no_whole_tree_is_saved(rt: HostRuntime) -> Result<(), TestFail> {
    let made = sees(&rt, &with_node(&rt, orphan(rt.alloc()))?, all_of(1));
    assert_eq!(rt; made.tree.parent_name(2).map(|found| found.0), Some(9));
    let made = sees(&rt, &mixed_image(&rt)?, all_of(12));
    assert_eq!(rt; (made.tree.size(2), made.tree.size(3)), (Some(5), Some(0)));
    let made = sees(
        &rt,
        &cut_image(&rt)?,
        Seen {
            taken: 1,
            left_out: 0,
            cut: cut_at(0, 64, Some(Why::Name)),
        },
    );
    assert_eq!(rt; made.tree.size(2), Some(0));
    Ok(())
}

#[test]
fn a_volume_that_mounts_is_saved_whole(rt: HostRuntime) -> Result<(), TestFail> {
    let image = torn_image(&rt)?;
    let wanted = Seen {
        taken: 123,
        left_out: 0,
        cut: cut_at(0, 200, None),
    };
    let made = sees(&rt, &image, wanted);
    assert!(rt; image.len() == LEN);
    let flash = MemoryFlash::from_bytes(SECTORS, SECTOR_SIZE, image);
    let Mounted { tree, .. } = mount(&rt, flash);
    let mut bytes = [0u8; 8];
    for saved in [&made.tree, &tree] {
        assert_eq!(rt; (saved.size(2), saved.newest(2)), (Some(5), Some(2)));
        assert_eq!(rt; saved.read(2, 0, &mut bytes), 5);
        assert_eq!(rt; bytes, *b"hello\0\0\0");
    }
    Ok(())
}
