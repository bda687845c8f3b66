//! What each answer programs and erases, counted by the device.
//! The bounds come from what is live and free before the answer; the least counts are rough ones.

use crate::tests::metered::{Calls, Metered, calls_of, over_metered};
use crate::tests::session::{SECTOR_SIZE, Session, erased_flash, mount_or_why};
use jffs_core::Core;
use jffs_flash::{LimitedFlash, MemoryFlash};
use jffs_log::{RecordRef, ScanWhy};
use jffs_tree::{Cause, Outcome};
use std::alloc::{AllocError, Global};
use std::process::Abort;
use std::test::Fail;

/// A file of five pieces that is never written again, and an empty one.
fn filled(rt: &impl Abort, alloc: Global) -> Result<Session<Metered>, Fail> {
    let mut session = over_metered(alloc)?;
    session.play(
        rt,
        "create /g : appended 2 1
         write /g 0 192*g : appended 2 2
         write /g 192 192*g : appended 2 3
         write /g 384 192*g : appended 2 4
         write /g 576 192*g : appended 2 5
         write /g 768 192*g : appended 2 6
         create /f : appended 3 7",
    )?;
    Ok(session)
}

/// The newest record.
fn newest(session: &Session<Metered>) -> Option<RecordRef> {
    session.core.log().records().back().copied()
}

/// The lengths of the live records, and what is free after the newest record.
fn may_be_copied(session: &Session<Metered>) -> Option<u64> {
    let newest = newest(session)?;
    let end = u32::from(newest.offset).saturating_add(u32::from(newest.length));
    let free = SECTOR_SIZE.saturating_sub(end);
    Some(session.live_weight()?.saturating_add(u64::from(free)))
}

/// What an answer may make the device do.
#[derive(Clone, Copy)]
struct Bound {
    before: Calls,
    /// How many bytes copies may have.
    copied: u64,
    /// How many sectors hold the log.
    held: u32,
}

fn bound_of(session: &Session<Metered>) -> Result<Bound, Fail> {
    let copied = may_be_copied(session).ok_or("no record, or the device failed")?;
    Ok(Bound {
        before: calls_of(session),
        copied,
        held: session.core.log().held(),
    })
}

/// A request that a file of seven pieces gets, most of which fill the volume.
fn line_of(alloc: Global, turn: usize) -> Result<String, AllocError> {
    let piece = turn.saturating_mul(turn) % 7 * 192;
    match turn % 16 {
        3 => String::from_str(alloc, "mkdir /d"),
        7 => format!(in alloc; "truncate /f {piece}"),
        11 => String::from_str(alloc, "remove /d"),
        15 => String::from_str(alloc, "create /f"),
        _ => format!(in alloc; "write /f {piece} 192*x"),
    }
}

/// What the records of one answer take: each is programmed whole and then its gate, a byte.
fn records_of(before: Calls, after: Calls) -> u64 {
    let bytes = after.bytes.saturating_sub(before.bytes);
    bytes.saturating_sub(after.programs.saturating_sub(before.programs) / 2)
}

/// What the request's own record takes.
fn own_of(session: &Session<Metered>, outcome: Outcome) -> u64 {
    match (outcome, newest(session)) {
        (Outcome::Appended { .. }, Some(own)) => u64::from(own.length),
        _ => 0,
    }
}

/// The device was called for what this answer needs, and no more.
fn is_within(bound: Bound, after: Calls, own: u64) -> bool {
    records_of(bound.before, after) <= bound.copied.saturating_add(own)
        && after.erases().saturating_sub(bound.before.erases()) <= bound.held
}

/// Whether an outcome is one for which the device isn't called.
fn is_free(outcome: Outcome) -> bool {
    matches!(
        outcome,
        Outcome::Refused(Cause::NameTaken | Cause::NotFound)
    )
}

/// Asks for what a line says. The device is called for what this answer needs, and no more.
fn ask_within(
    rt: &impl Abort,
    session: &mut Session<Metered>,
    line: &str,
) -> Result<Outcome, Fail> {
    let bound = bound_of(session)?;
    let outcome = session.ask(line)?;
    let after = calls_of(session);
    assert!(rt;
        is_within(bound, after, own_of(session, outcome)),
        "at {line}"
    );
    assert!(rt; !is_free(outcome) || bound.before == after, "at {line}");
    Ok(outcome)
}

/// How many requests were granted, and how many found no room.
#[derive(Clone, Copy)]
struct Tally {
    appended: u64,
    full: u64,
}

impl Tally {
    fn add(&mut self, outcome: Outcome) {
        match outcome {
            Outcome::Appended { .. } => self.appended = self.appended.saturating_add(1),
            Outcome::Refused(Cause::NoSpace) => self.full = self.full.saturating_add(1),
            _ => {}
        }
    }
}

fn tally_of(rt: &impl Abort, session: &mut Session<Metered>) -> Result<Tally, Fail> {
    let mut tally = Tally {
        appended: 0,
        full: 0,
    };
    for turn in 0..2000 {
        let line = line_of(session.alloc, turn)?;
        tally.add(ask_within(rt, session, line.as_str())?);
    }
    Ok(tally)
}

#[test]
fn each_answer_programs_a_bounded_number_of_bytes(rt: HostRuntime) -> Result<(), Fail> {
    let mut session = filled(&rt, rt.alloc())?;
    let Tally { appended, full } = tally_of(&rt, &mut session)?;
    let copied = (calls_of(&session).programs / 2).saturating_sub(appended);
    assert!(rt;
        appended > 500 && copied > 5000 && full > 500,
        "{appended} appended, {copied} copied, {full} without room"
    );
    Ok(())
}

fn ask_often(session: &mut Session<Metered>) -> Result<(), Fail> {
    for turn in 0..500 {
        let line = line_of(session.alloc, turn)?;
        session.ask(line.as_str())?;
    }
    Ok(())
}

/// Whether each byte was read once.
fn is_read_once(reads: &[u8]) -> bool {
    for count in reads {
        if *count != 1 {
            return false;
        }
    }
    true
}

#[test]
fn a_mount_reads_each_byte_once(rt: HostRuntime) -> Result<(), Fail> {
    let mut session = filled(&rt, rt.alloc())?;
    ask_often(&mut session)?;
    let mut flash = session.into_flash();
    flash.reads.fill(0);
    let core = mount_or_why(rt.alloc(), flash)?;
    assert!(rt; is_read_once(&core.log().flash().reads));
    assert!(rt; core.log().records().len() > 7);
    Ok(())
}

/// A device after two mounts, each byte of which can be read twice.
fn mounted_twice(rt: &impl Abort, alloc: Global) -> Result<Core<LimitedFlash>, Fail> {
    let flash = LimitedFlash::new(alloc, erased_flash(alloc, 6)?, 2)?;
    let mut session = Session::of(alloc, mount_or_why(alloc, flash)?);
    session.play(rt, "create /f : appended 2 1")?;
    Ok(mount_or_why(alloc, session.into_flash())?)
}

/// Why a device isn't mounted again.
fn refusal_of(alloc: Global, core: Core<LimitedFlash>) -> Option<ScanWhy> {
    mount_or_why(alloc, core.into_flash()).err()
}

#[test]
fn each_mount_takes_one_read_of_each_byte(rt: HostRuntime) -> Result<(), Fail> {
    let core = mounted_twice(&rt, rt.alloc())?;
    assert_eq!(rt; core.log().records().len(), 1);
    match refusal_of(rt.alloc(), core) {
        None => panic!(rt; "each byte was read twice before"),
        Some(ScanWhy::Memory) => Err(ScanWhy::Memory.into()),
        Some(why) => {
            assert_eq!(rt; why, ScanWhy::Device);
            Ok(())
        }
    }
}
