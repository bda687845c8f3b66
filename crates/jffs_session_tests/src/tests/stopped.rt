//! Puts on devices that fail at each call in turn.
//! A mount of what is left finds the old file whole, or the new one whole by one of its two names.

use super::{SECTOR_SIZE, bytes_at, erased, holds, is_free, mount, put};
use jffs_flash::{Fail as How, FuseFlash, Fused, MemoryFlash};
use jffs_session::{PutFault, PutLeft, Session};
use jffs_tree::Cause;
use std::alloc::Global;
use std::process::Abort;
use std::test::Fail;

/// What the file holds before.
const OLD: &[u8] = b"old bytes";
/// What is put: three pieces.
const NEW_LEN: usize = 500;

/// What a volume holds with the old file, and one beside.
fn with_old(rt: &impl Abort, alloc: Global) -> Result<Vec<u8>, Fail> {
    let mut session = erased(alloc, 6)?;
    assert_eq!(rt; put(&mut session, alloc, "/a", OLD)?, Ok(()));
    assert_eq!(rt; put(&mut session, alloc, "/b", b"beside")?, Ok(()));
    Ok(session.core().log().flash().bytes().to_vec(alloc)?)
}

fn flash_of(image: Vec<u8>) -> Result<MemoryFlash, Fail> {
    if image.len() != 6 * SECTOR_SIZE as usize {
        return Err("another length".into());
    }
    Ok(MemoryFlash::from_bytes(6, SECTOR_SIZE, image))
}

/// The new file is beside the old one as far as it was written, or instead of it.
fn is_moment(
    rt: &impl Abort,
    session: &Session<MemoryFlash>,
    alloc: Global,
    new: &[u8],
) -> Result<(), Fail> {
    assert!(rt; holds(session, alloc, "/b", b"beside")?);
    if holds(session, alloc, "/a", OLD)? {
        let begun = match bytes_at(session, alloc, "/.new")? {
            Some(begun) => begun,
            None => Vec::new(alloc),
        };
        assert!(rt; new.starts_with(&begun));
        return Ok(());
    }
    if holds(session, alloc, "/a", new)? {
        assert!(rt; is_free(session, alloc, "/.new")?);
        return Ok(());
    }
    assert!(rt; is_free(session, alloc, "/a")?);
    assert!(rt; holds(session, alloc, "/.new", new)?);
    Ok(())
}

/// Puts the new file on a device that lets so many calls pass; whether all of it was done.
fn put_over_fuse(
    rt: &impl Abort,
    alloc: Global,
    image: Vec<u8>,
    calls: u64,
    how: How,
) -> Result<bool, Fail> {
    let fuse = FuseFlash::new(flash_of(image)?, calls, Fused::Writes, how);
    let mut session = mount(alloc, fuse)?;
    let new = vec![in alloc; b'n'; NEW_LEN]?;
    let ended = put(&mut session, alloc, "/a", &new)?;
    let left = session.into_core().into_flash().into_inner();
    is_moment(rt, &mount(alloc, left)?, alloc, &new)?;
    match ended {
        Ok(()) => Ok(true),
        Err(PutFault { cause, left, .. }) => {
            assert_eq!(rt; cause, Cause::Device);
            assert_eq!(rt; left, PutLeft::Unseen);
            Ok(false)
        }
    }
}

/// Each call fails in turn, until none does.
fn fails_in_turn(rt: &impl Abort, alloc: Global, how: How) -> Result<(), Fail> {
    let image = with_old(rt, alloc)?;
    for calls in 0..1000 {
        if put_over_fuse(rt, alloc, image.clone()?, calls, how)? {
            // A file, three pieces, a removal and a rename: two programs each.
            assert!(rt; calls >= 12);
            return Ok(());
        }
    }
    Err("it fails still".into())
}

#[test]
fn a_put_that_fails_at_any_call_leaves_a_moment(rt: HostRuntime) -> Result<(), Fail> {
    fails_in_turn(&rt, rt.alloc(), How::Nothing)
}

#[test]
fn a_put_that_fails_halfway_leaves_a_moment(rt: HostRuntime) -> Result<(), Fail> {
    fails_in_turn(&rt, rt.alloc(), How::Half)
}

#[test]
fn a_session_that_failed_answers_nothing_more(rt: HostRuntime) -> Result<(), Fail> {
    let alloc = rt.alloc();
    let image = with_old(&rt, alloc)?;
    let fuse = FuseFlash::new(flash_of(image)?, 0, Fused::Writes, How::Nothing);
    let mut session = mount(alloc, fuse)?;
    assert!(rt; put(&mut session, alloc, "/a", b"x")?.is_err());
    match put(&mut session, alloc, "/a", b"x")? {
        Ok(()) => Err("it was put".into()),
        Err(fault) => {
            assert_eq!(rt; fault.cause, Cause::Failed);
            assert_eq!(rt; fault.left, PutLeft::Unseen);
            assert_eq!(rt; session.erase_dead(), Err(Cause::Failed));
            Ok(())
        }
    }
}
