//! A cleaner's round, and the answers to it, where any one allocation may fail. Which copies there
//! are, and what they are answered, is worked out from the rule of cleaning in docs/FORMAT.md.

use crate::tests::cleaning::{moved_copies, source_of};
use crate::tests::images::{ring, ring_fault, sends, takes};
use crate::tests::standing::{count_records, has_its_files};
use crate::tests::volumes::{Ask, answered, moved, wish_of};
use jffs_core::Core;
use jffs_flash::MemoryFlash;
use jffs_line::{LineFault, Request};
use jffs_serve::{JobEnd, Jobs};
use jffs_tree::{Cause, Outcome};
use std::alloc::Global;
use std::process::Abort;
use std::test::Fail;

/// The versions of the records of sector 0 that live.
const LIVE: [u32; 3] = [1, 3, 4];

/// How many records the log has before the first copy, of which the last has this version too.
const RECORDS: u32 = 8;

/// Whether the copies are of some of the records that live, in order, with the numbers 1, 2, 3, ..
fn are_some(copies: &[Request]) -> bool {
    let mut last = (0u32, 0u32);
    for copy in copies {
        let (seq, source) = source_of(copy);
        if seq != last.0.saturating_add(1) || source <= last.1 || !LIVE.contains(&source) {
            return false;
        }
        last = (seq, source);
    }
    true
}

/// What was answered so far.
#[derive(Clone, Copy)]
struct Told {
    copied: u32,
    /// Whether the write of `/d/b` was copied: then the record of its rename is dead.
    is_renamed: bool,
    refused: u32,
}

/// Answers a copy: granted, or not needed where its record is dead by now, or refused for memory.
fn tell_one(
    rt: &impl Abort,
    core: &mut Core<MemoryFlash>,
    copy: Request,
    before: Told,
) -> Result<Told, Fail> {
    let (_, source) = source_of(&copy);
    let outcome = answered(core, copy)?;
    if outcome == Outcome::Refused(Cause::Memory) {
        let refused = before.refused.saturating_add(1);
        return Ok(Told { refused, ..before });
    }
    if source == 4 && before.is_renamed {
        assert_eq!(rt; outcome, Outcome::Refused(Cause::NotNeeded));
        return Ok(before);
    }
    let copied = before.copied.saturating_add(1);
    let version = RECORDS.saturating_add(copied);
    assert_eq!(rt; outcome, Outcome::Copied { version });
    let is_renamed = before.is_renamed || source == 3;
    Ok(Told {
        copied,
        is_renamed,
        ..before
    })
}

/// Answers all of these copies. No more than one is refused for memory, and the log has one record
/// more for each that is granted.
fn all_told(
    rt: &impl Abort,
    core: &mut Core<MemoryFlash>,
    copies: Vec<Request>,
) -> Result<Told, Fail> {
    let mut now = Told {
        copied: 0,
        is_renamed: false,
        refused: 0,
    };
    for copy in copies {
        now = tell_one(rt, core, copy, now)?;
    }
    assert!(rt; now.refused <= 1);
    let records = u32::try_from(count_records(core)).ok();
    assert_eq!(rt; records, Some(RECORDS.saturating_add(now.copied)));
    Ok(now)
}

/// The next change is granted; asked once more where memory was refused to it.
fn grants_the_next(
    rt: &(impl Abort + AllocGlobal),
    core: &mut Core<MemoryFlash>,
    version: u32,
) -> Result<(), Fail> {
    for seq in 9..11 {
        let made = Request {
            writer: 1,
            seq,
            wish: wish_of(rt.alloc(), Ask::File("/n"))?,
        };
        let outcome = answered(core, made)?;
        if outcome != Outcome::Refused(Cause::Memory) {
            assert_eq!(rt; outcome, Outcome::Appended { inode: 5, version });
            return Ok(());
        }
    }
    Err("memory was refused twice".into())
}

/// That the copies are some of those that were to be expected, and are answered so; and that the
/// next change is granted.
fn are_told(
    rt: &(impl Abort + AllocGlobal),
    core: &mut Core<MemoryFlash>,
    copies: Vec<Request>,
) -> Result<(), Fail> {
    assert!(rt; are_some(&copies));
    let now = all_told(rt, core, copies)?;
    has_its_files(rt, rt.alloc(), core.tree())?;
    let version = RECORDS.saturating_add(now.copied).saturating_add(1);
    grants_the_next(rt, core, version)
}

// Run it with each allocation failing in turn.
#[test]
fn a_round_that_finds_no_memory_leaves_copies_out(rt: HostRuntime) -> Result<(), Fail> {
    let alloc = rt.alloc();
    let mut core = moved(alloc)?;
    let copies = moved_copies(&rt, alloc, &core)?;
    are_told(&rt, &mut core, copies)
}

/// A ring for one image, by the second call where the first finds no memory.
fn ring_at_last(rt: &impl Abort, alloc: Global) -> Result<(Jobs, JobEnd), Fail> {
    match ring(alloc, 1) {
        Ok(ends) => Ok(ends),
        Err(fault) => {
            assert_eq!(rt; fault, LineFault::Memory);
            Ok(ring(alloc, 1)?)
        }
    }
}

// Run it with each allocation failing in turn.
#[test]
fn a_ring_that_finds_no_memory_is_made_by_the_next_call(rt: HostRuntime) -> Result<(), Fail> {
    let alloc = rt.alloc();
    let (mut jobs, mut end) = ring_at_last(&rt, alloc)?;
    assert_eq!(rt; ring_fault(alloc, 0), Some(LineFault::Capacity));
    assert!(rt; sends(alloc, &mut jobs, 7)?);
    assert!(rt; takes(&mut end, &[7]));
    Ok(())
}
