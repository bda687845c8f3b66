//! Two trees are the same where every look-up answers the same.
//! A copy has to answer as its source; the few other values are counted from the script.

use super::*;

/// More inodes and more versions than the tests make.
const INODES: u32 = 16;

/// More bytes than the files here have.
const PLACES: usize = 16;

/// Eight names deep.
const DEEP: &str = "/a/b/c/d/e/f/g/h";

/// Every path of the deep tree, and some that lead nowhere.
const PATHS: [&str; 13] = [
    "/",
    "/a",
    "/a/b",
    "/a/b/c",
    "/a/b/c/d",
    "/a/b/c/d/e",
    "/a/b/c/d/e/f",
    "/a/b/c/d/e/f/g",
    DEEP,
    "/a/b/n",
    "/gone",
    "/a/a",
    "/a/b/n/x",
];

/// A file eight names deep with two holes, another beside its path, and one that is gone.
const DEEP_TREE: &str = "mkdir /a
     mkdir /a/b
     mkdir /a/b/c
     mkdir /a/b/c/d
     mkdir /a/b/c/d/e
     mkdir /a/b/c/d/e/f
     mkdir /a/b/c/d/e/f/g
     create /a/b/c/d/e/f/g/h
     write /a/b/c/d/e/f/g/h 3 xyz
     truncate /a/b/c/d/e/f/g/h 9
     write /a/b/c/d/e/f/g/h 12 q
     create /a/b/n
     write /a/b/n 0 beside
     create /gone
     remove /gone";

/// Each look-up of each inode.
pub(super) fn are_the_same(rt: &impl Abort, tree: &Tree, other: &Tree) -> Result<(), Fail> {
    assert_eq!(rt; tree.check(), other.check());
    for version in 0..INODES {
        assert_eq!(rt; tree.marks(version), other.marks(version));
    }
    for inode in 0..INODES {
        assert_eq!(rt; tree.kind(inode), other.kind(inode));
        assert_eq!(rt; tree.size(inode), other.size(inode));
        assert!(rt; tree.parent_name(inode) == other.parent_name(inode));
        assert_eq!(rt; tree.newest(inode), other.newest(inode));
        have_the_same_bytes(rt, tree, other, inode);
        have_the_same_names(rt, tree, other, inode)?;
    }
    Ok(())
}

fn have_the_same_bytes(rt: &impl Abort, tree: &Tree, other: &Tree, inode: u32) {
    assert_eq!(rt; bytes_of(tree, inode), bytes_of(other, inode));
    for number in 0..PLACES as u32 {
        assert_eq!(rt;
            tree.last_writer(inode, number),
            other.last_writer(inode, number)
        );
        assert_eq!(rt; tree.live(inode, number), other.live(inode, number));
    }
}

/// How many bytes of a file were read, and what stands then where they were read to.
fn bytes_of(tree: &Tree, inode: u32) -> (usize, [u8; PLACES]) {
    let mut read = [0xFFu8; PLACES];
    let count = tree.read(inode, 0, &mut read);
    (count, read)
}

fn have_the_same_names(rt: &impl Abort, tree: &Tree, other: &Tree, inode: u32) -> Result<(), Fail> {
    let listed = names(tree, inode)?;
    let also_listed = names(other, inode)?;
    assert_eq!(rt; listed.len(), also_listed.len());
    for (name, also) in listed.iter().zip(also_listed.iter()) {
        assert_eq!(rt; name.0.bytes(), also.0.bytes());
        assert_eq!(rt; name.1, also.1);
    }
    Ok(())
}

#[test]
fn a_deep_tree_is_copied_look_up_by_look_up(rt: HostRuntime) -> Result<(), Fail> {
    let mut session = Session::new(rt.alloc());
    session.play(&rt, DEEP_TREE)?;
    let copied = copied(&session.tree)?;
    are_the_same(&rt, &session.tree, &copied)?;
    resolve_the_same(&rt, &session, &copied)?;
    assert_eq!(rt; copied.size(9), Some(13));
    session.contents(&rt, 9, b"\0\0\0xyz\0\0\0\0\0\0q");
    session.play(&rt, "remove /a/b/c/d/e/f/g/h")?;
    assert_eq!(rt; copied.kind(9), Some(Kind::File));
    Ok(())
}

/// Every path leads to the same inode, and the deepest to the ninth.
fn resolve_the_same(rt: &impl Abort, session: &Session, copied: &Tree) -> Result<(), Fail> {
    for text in PATHS {
        let found = resolved(&session.tree, session.alloc, text)?;
        let also_found = resolved(copied, session.alloc, text)?;
        lead_to_one(rt, text, found, also_found);
    }
    Ok(())
}

/// Only the deepest path leads to the ninth inode.
fn lead_to_one(rt: &impl Abort, text: &str, found: Option<u32>, also_found: Option<u32>) {
    assert_eq!(rt; found, also_found, "at {text}");
    assert_eq!(rt; found == Some(9), text == DEEP, "at {text}");
}
