//! How serving ends, and how a cleaner does.
//! What is served follows from the last answer, and counts from how many rounds were asked for.

use crate::tests::cleaning::{Side, cleaner_side, handed_in, handed_in_until};
use crate::tests::images::ring;
use crate::tests::lines::cleaner_line;
use crate::tests::rounds::{Left, served, served_seen};
use crate::tests::volumes::{Ask, CUT_AND_UNMOUNT, filled, mounted};
use jffs_core::Answer;
use jffs_flash::{FuseFlash, Fused, MemoryFlash};
use jffs_index::Reader;
use jffs_line::{CONTROL, Hand};
use jffs_serve::{Ended, JobEnd, Served};
use jffs_tree::{Cause, Outcome, Tree};
use std::alloc::Global;
use std::cell::Cell;
use std::sync::Wait;
use std::sync::atomic::{AtomicBool, Ordering};
use std::test::Fail;
use std::thread;
use std::thread::Threads;
use std::time::{Clock, Duration};

/// How many copies a cleaner with a free line hands in in four rounds.
fn cleaned_freely<R: Wait>(
    rt: &R,
    alloc: Global,
    slot: &Cell<Option<Reader>>,
    jobs: &mut JobEnd,
) -> Result<u32, Fail> {
    let (mut hand, _taker) = cleaner_line(rt, alloc, 8)?;
    match slot.replace(None) {
        Some(mut reader) => Ok(handed_in(rt, alloc, jobs, &mut reader, &mut hand, 4)),
        None => Err("one reader".into()),
    }
}

/// Serves until the session is closed, which sends an image on the way, and then cleans.
fn cleaned_once_closed<R: Wait>(rt: &R, alloc: Global) -> Result<u32, Fail> {
    let slot = Cell::new(None);
    let mut left = served_seen(rt, alloc, filled(alloc)?, &CUT_AND_UNMOUNT, &slot, 1)?;
    if left.served != Served::Closed {
        return Err("it closes".into());
    }
    cleaned_freely(rt, alloc, &slot, &mut left.end)
}

/// Though the image of the oldest sector waits, where records live.
#[test]
fn a_cleaner_ends_with_the_session(rt: HostRuntime) -> Result<(), Fail> {
    assert_eq!(rt; cleaned_once_closed(&rt, rt.alloc())?, 0);
    Ok(())
}

/// How many milliseconds a cleaner gets at most for three rounds without an image.
const WAIT_MILLIS: u32 = 5_000;

/// Whether that is told in time. Where it isn't, the cleaner is made to end.
fn is_done<R: Clock>(rt: &R, done: &AtomicBool, ended: &Ended) -> bool {
    for _ in 0..WAIT_MILLIS {
        if done.load(Ordering::SeqCst) {
            return true;
        }
        thread::sleep(rt, Duration::from_millis(1));
    }
    ended.tell();
    false
}

/// Three rounds of a cleaner; its ends are gone then.
fn clean_idly<R: Wait, H: Hand>(
    rt: &R,
    alloc: Global,
    reader: Reader,
    hand: H,
    jobs: JobEnd,
    ended: &Ended,
) {
    let mut reader = reader;
    let mut hand = hand;
    let mut jobs = jobs;
    handed_in_until(rt, alloc, &mut jobs, &mut reader, &mut hand, 3, ended);
}

/// Whether a cleaner that is never sent an image ends with its three rounds.
fn ends_by_itself<R: Threads + Wait + Sync + Clock>(
    rt: &R,
    alloc: Global,
    jobs: JobEnd,
) -> Result<bool, Fail> {
    let Side {
        reader,
        hand,
        taker: _taker,
        publisher: _publisher,
    } = cleaner_side(rt, alloc, Tree::new(alloc), 1)?;
    let ended = Ended::new();
    let done = AtomicBool::new(false);
    let ended = &ended;
    let done = &done;
    let (is_done, ()) = thread::join(
        rt,
        move || is_done(rt, done, ended),
        move || {
            clean_idly(rt, alloc, reader, hand, jobs, ended);
            done.store(true, Ordering::SeqCst);
        },
    );
    Ok(is_done)
}

#[test]
fn rounds_without_an_image_are_counted(rt: HostRuntime) -> Result<(), Fail> {
    let alloc = rt.alloc();
    let (_jobs, end) = ring(alloc, 1)?;
    assert!(rt; ends_by_itself(&rt, alloc, end)?);
    Ok(())
}

/// Serves an Unmount, and then a wish for `/f`, on an erased device whose first program fails.
fn served_on_fuse<'r, R: Wait>(rt: &'r R, alloc: Global) -> Result<Left<'r, R, FuseFlash>, Fail> {
    let flash = MemoryFlash::new(alloc, 6, 1024)?;
    let flash = FuseFlash::new(flash, 0, Fused::Writes, jffs_flash::Fail::Nothing);
    let core = mounted(alloc, flash)?;
    served(rt, alloc, core, &[Ask::Unmount, Ask::File("/f")])
}

#[test]
fn an_unmount_that_is_refused_ends_serving(rt: HostRuntime) -> Result<(), Fail> {
    let left = served_on_fuse(&rt, rt.alloc())?;
    assert_eq!(rt; left.served, Served::NotClosed(Cause::Device));
    let refused = Answer {
        writer: CONTROL,
        seq: 1,
        outcome: Outcome::Refused(Cause::Device),
    };
    assert_eq!(rt; left.session.core().answers(), [refused].as_slice());
    Ok(())
}
