//! Runs in which any one allocation may fail.
//! What stands is what the same run leaves on paper where no allocation fails.

use crate::tests::session::Session;
use crate::tests::sweeps::{FILLING, RENAMING};
use jffs_core::Cleaned;
use jffs_flash::MemoryFlash;
use jffs_tree::{Cause, Outcome};
use std::process::Abort;
use std::test::Fail;

/// The sizes of the file, which is inode 2 in one run and 3 in the other.
fn sizes(session: &Session<MemoryFlash>) -> (Option<u32>, Option<u32>) {
    (session.size(2), session.size(3))
}

/// Asks for each line's wish, and tells how many were refused for want of memory.
fn play_on(rt: &impl Abort, session: &mut Session<MemoryFlash>, run: &str) -> Result<usize, Fail> {
    let mut refused = 0usize;
    for line in run.lines() {
        if is_refused_once(rt, session, line)? {
            refused = refused.saturating_add(1);
        }
    }
    Ok(refused)
}

/// Asks for a line's wish, and tells whether it was refused for want of memory. Such a refusal
/// leaves the file as it was, and no such want is met when the wish is asked for again.
fn is_refused_once(
    rt: &impl Abort,
    session: &mut Session<MemoryFlash>,
    line: &str,
) -> Result<bool, Fail> {
    let before = sizes(session);
    if !is_refused(session, line)? {
        return Ok(false);
    }
    assert!(rt; sizes(session) == before, "at {line}");
    assert!(rt; !is_refused(session, line)?, "at {line}");
    Ok(true)
}

/// Asks for a line's wish, and tells whether it was refused for want of memory.
fn is_refused(session: &mut Session<MemoryFlash>, line: &str) -> Result<bool, Fail> {
    Ok(session.ask(line)? == Outcome::Refused(Cause::Memory))
}

/// How many requests appended a fresh node.
fn appended(session: &Session<MemoryFlash>) -> usize {
    let mut count = 0usize;
    for answer in session.core.answers() {
        if let Outcome::Appended { .. } = answer.outcome {
            count = count.saturating_add(1);
        }
    }
    count
}

// Run both with each allocation failing in turn. After a cleaning that was given up the tenth write
// may find room.
#[test]
fn a_full_volume_survives_each_refusal(rt: HostRuntime) -> Result<(), Fail> {
    let mut session = Session::erased(rt.alloc(), 6)?;
    is_filled(&rt, &mut session)?;
    assert_eq!(rt; session.remounted()?.size(2), None);
    Ok(())
}

/// The last write finds no room, but where a cleaning was given up.
fn is_filled(rt: &impl Abort, session: &mut Session<MemoryFlash>) -> Result<(), Fail> {
    let refused = play_on(rt, session, FILLING)?;
    let granted = appended(session);
    assert!(rt;
        granted == 11 || refused > 0 && granted == 12,
        "{granted} granted"
    );
    Ok(())
}

#[test]
fn a_cleaned_volume_survives_each_refusal(rt: HostRuntime) -> Result<(), Fail> {
    let mut session = Session::erased(rt.alloc(), 6)?;
    play_on(&rt, &mut session, RENAMING)?;
    assert_eq!(rt; appended(&session), 8);
    assert!(rt; erases_the_first(&mut session));
    session.remounted()?.played(&rt, "show contents 3 : hello")
}

/// Whether a cleaning erases sector 0. If allocation fails it is begun again.
fn erases_the_first(session: &mut Session<MemoryFlash>) -> bool {
    let mut cleaned = session.clean_oldest();
    if cleaned == Err(Cause::Memory) {
        cleaned = session.clean_oldest();
    }
    matches!(cleaned, Ok(Cleaned::Erased { sector: 0, .. }))
}
