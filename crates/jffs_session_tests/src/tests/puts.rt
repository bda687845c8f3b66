//! What a put makes, and what stands against it.

use super::{create, erased, holds, is_free, put, write};
use jffs_node::{FILE_MAX, Path};
use jffs_session::{PutFault, PutLeft, PutStep, are_beside};
use jffs_tree::{Cause, Wish};
use std::test::Fail;

/// Why a put didn't begin.
fn unbegun(cause: Cause) -> Result<(), PutFault> {
    Err(PutFault {
        cause,
        step: PutStep::Write,
        left: PutLeft::Nothing,
    })
}

#[test]
fn a_put_makes_a_file_and_replaces_it(rt: HostRuntime) -> Result<(), Fail> {
    let alloc = rt.alloc();
    let mut session = erased(alloc, 8)?;
    assert_eq!(rt; put(&mut session, alloc, "/other", b"stays")?, Ok(()));
    assert_eq!(rt; put(&mut session, alloc, "/a", b"old")?, Ok(()));
    // A record of a sector of 1,024 bytes has 192 bytes of data at most: six pieces.
    let long = vec![in alloc; b'x'; 1000]?;
    assert_eq!(rt; put(&mut session, alloc, "/a", &long)?, Ok(()));
    assert!(rt; holds(&session, alloc, "/a", &long)?);
    assert!(rt; holds(&session, alloc, "/other", b"stays")?);
    assert!(rt; is_free(&session, alloc, "/.new")?);
    assert_eq!(rt; put(&mut session, alloc, "/a", b"")?, Ok(()));
    assert!(rt; holds(&session, alloc, "/a", b"")?);
    Ok(())
}

#[test]
fn a_put_that_may_not_begin_changes_nothing(rt: HostRuntime) -> Result<(), Fail> {
    let alloc = rt.alloc();
    let mut session = erased(alloc, 8)?;
    let directory = Wish::MakeDir(Path::parse(alloc, "/d")?);
    assert_eq!(rt; session.change(directory), Ok(()));
    assert_eq!(rt;
        put(&mut session, alloc, "/d", b"x")?,
        unbegun(Cause::IsDirectory)
    );
    let long = vec![in alloc; 0u8; FILE_MAX as usize + 1]?;
    assert_eq!(rt;
        put(&mut session, alloc, "/a", &long)?,
        unbegun(Cause::FileLong)
    );
    assert_eq!(rt; session.change(create(alloc, "/.new")?), Ok(()));
    assert_eq!(rt;
        put(&mut session, alloc, "/a", b"x")?,
        unbegun(Cause::NameTaken)
    );
    assert!(rt; is_free(&session, alloc, "/a")?);
    Ok(())
}

#[test]
fn a_put_without_room_is_taken_back(rt: HostRuntime) -> Result<(), Fail> {
    let alloc = rt.alloc();
    let mut session = erased(alloc, 6)?;
    assert_eq!(rt; put(&mut session, alloc, "/a", b"old")?, Ok(()));
    let long = vec![in alloc; b'x'; 6000]?;
    assert_eq!(rt;
        put(&mut session, alloc, "/a", &long)?,
        Err(PutFault {
            cause: Cause::NoSpace,
            step: PutStep::Write,
            left: PutLeft::Nothing,
        })
    );
    assert!(rt; holds(&session, alloc, "/a", b"old")?);
    assert!(rt; is_free(&session, alloc, "/.new")?);
    Ok(())
}

#[test]
fn names_of_one_directory_are_beside_each_other(rt: HostRuntime) -> Result<(), Fail> {
    let alloc = rt.alloc();
    let deep = Path::parse(alloc, "/d/e/a")?;
    assert!(rt; are_beside(&deep, &Path::parse(alloc, "/d/e/b")?));
    assert!(rt; !are_beside(&deep, &Path::parse(alloc, "/d/e/a")?));
    assert!(rt; !are_beside(&deep, &Path::parse(alloc, "/d/f/b")?));
    assert!(rt; !are_beside(&deep, &Path::parse(alloc, "/d/e")?));
    assert!(rt; !are_beside(&Path::parse(alloc, "/")?, &Path::parse(alloc, "/a")?));
    Ok(())
}

#[test]
fn a_put_needs_its_directory(rt: HostRuntime) -> Result<(), Fail> {
    let alloc = rt.alloc();
    let mut session = erased(alloc, 6)?;
    assert_eq!(rt; session.change(create(alloc, "/f")?), Ok(()));
    assert_eq!(rt; session.change(write(alloc, "/f", b"x")?), Ok(()));
    assert_eq!(rt;
        session.change(create(alloc, "/d/f")?),
        Err(Cause::NoParent)
    );
    assert!(rt; holds(&session, alloc, "/f", b"x")?);
    Ok(())
}
