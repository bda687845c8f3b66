//! What is seen of a volume, by paths.
//! A record takes 64 bytes and its data, filled up to a multiple of 4.

use super::{create, erased, write};
use jffs_flash::MemoryFlash;
use jffs_node::{Name, Path};
use jffs_session::{Entry, Session};
use jffs_tree::{Cause, Wish};
use std::alloc::Global;
use std::process::Abort;
use std::test::Fail;

/// `/d` with the file `b`, the file `a` of five bytes and the directory `c`: inodes 2 to 5.
fn with_three(alloc: Global) -> Result<Session<MemoryFlash>, Fail> {
    let mut session = erased(alloc, 6)?;
    session.change(Wish::MakeDir(Path::parse(alloc, "/d")?))?;
    session.change(create(alloc, "/d/b")?)?;
    session.change(create(alloc, "/d/a")?)?;
    session.change(Wish::MakeDir(Path::parse(alloc, "/d/c")?))?;
    session.change(write(alloc, "/d/a", b"hello")?)?;
    Ok(session)
}

/// A name, its inode, whether it is a directory, and its size.
type Row<'a> = (&'a str, u32, bool, u32);

const ROWS: [Row<'_>; 3] = [("a", 4, false, 5), ("b", 3, false, 0), ("c", 5, true, 0)];

fn is_row(rt: &impl Abort, entry: &Entry, row: Row<'_>) {
    assert_eq!(rt; entry.name.bytes(), row.0.as_bytes());
    let sight = entry.sight;
    assert_eq!(rt;
        (sight.inode, sight.directory, sight.size),
        (row.1, row.2, row.3)
    );
}

#[test]
fn a_directory_is_gone_through_by_its_path(rt: HostRuntime) -> Result<(), Fail> {
    let session = with_three(rt.alloc())?;
    let directory = Path::parse(rt.alloc(), "/d")?;
    let mut before: Option<Name> = None;
    for row in ROWS {
        let entry = session.name_after(&directory, before).ok_or("no name")?;
        is_row(&rt, &entry, row);
        before = Some(entry.name);
    }
    assert!(rt; session.name_after(&directory, before).is_none());
    for text in ["/d/a", "/d/c", "/x"] {
        let path = Path::parse(rt.alloc(), text)?;
        assert!(rt; session.name_after(&path, None).is_none());
    }
    Ok(())
}

#[test]
fn what_stands_at_a_path_is_seen(rt: HostRuntime) -> Result<(), Fail> {
    let session = with_three(rt.alloc())?;
    for (text, seen, live) in [
        ("/", Some((1, true, 0)), Some(0)),
        ("/d", Some((2, true, 0)), Some(64)),
        ("/d/a", Some((4, false, 5)), Some(72)),
        ("/d/b", Some((3, false, 0)), Some(64)),
        ("/d/x", None, None),
    ] {
        let path = Path::parse(rt.alloc(), text)?;
        let sight = session.look(&path);
        let told = sight.map(|sight| (sight.inode, sight.directory, sight.size));
        assert_eq!(rt; told, seen, "at {text}");
        assert_eq!(rt; session.live_bytes(&path), live, "at {text}");
    }
    Ok(())
}

#[test]
fn bytes_are_read_by_a_path(rt: HostRuntime) -> Result<(), Fail> {
    let session = with_three(rt.alloc())?;
    let mut out = [b'-'; 6];
    let file = Path::parse(rt.alloc(), "/d/a")?;
    assert_eq!(rt; session.read(&file, 1, &mut out), Ok(4));
    assert_eq!(rt; out.as_slice(), b"ello--".as_slice());
    assert_eq!(rt; session.read(&file, 5, &mut out), Ok(0));
    for (text, cause) in [("/d", Cause::IsDirectory), ("/x", Cause::NotFound)] {
        let path = Path::parse(rt.alloc(), text)?;
        assert_eq!(rt; session.read(&path, 0, &mut out), Err(cause));
    }
    assert_eq!(rt; out.as_slice(), b"ello--".as_slice());
    Ok(())
}
