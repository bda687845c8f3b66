//! Sessions that are served, and a cleaner beside them.
//! Which copies there are, and what is answered, is worked out from docs/FORMAT.md on paper.

mod cleaning;
mod copying;
mod ending;
mod growths;
mod images;
mod leaving;
mod lines;
mod order;
mod rounds;
mod standing;
mod tidying;
mod volumes;

use crate::tests::cleaning::{
    Side, asked, cleaned_by, cleaner_side, handed_in_until, moved_copies, moved_job,
};
use crate::tests::images::{ring, ring_fault, sent_back, takes};
use crate::tests::rounds::{Left, last_two, served};
use crate::tests::standing::erased_dead;
use crate::tests::volumes::{CUT_AND_UNMOUNT, answered, filled, moved};
use jffs_core::{Answer, Core};
use jffs_flash::MemoryFlash;
use jffs_line::{LineFault, Request};
use jffs_serve::{Ended, JobEnd, Jobs, Served};
use jffs_tree::{Cause, Outcome, Tree};
use std::alloc::Global;
use std::process::Abort;
use std::sync::Wait;
use std::test::Fail;

#[test]
fn constructors_refuse(rt: HostRuntime) {
    let alloc = rt.alloc();
    for capacity in [0, 65] {
        assert_eq!(rt; ring_fault(alloc, capacity), Some(LineFault::Capacity));
    }
    for capacity in [1, 4, 64] {
        assert_eq!(rt; ring_fault(alloc, capacity), None);
    }
}

/// What comes back of the second of two images that are sent.
fn second_sent(alloc: Global, jobs: &mut Jobs) -> Result<Option<Vec<u8>>, Fail> {
    let first = vec![in alloc; 1u8, 2]?;
    if sent_back(jobs, first).is_some() {
        return Err("a ring with a place".into());
    }
    let second = vec![in alloc; 3u8]?;
    Ok(sent_back(jobs, second))
}

/// Whether the second of two images comes back.
fn gives_back(alloc: Global, jobs: &mut Jobs) -> Result<bool, Fail> {
    match second_sent(alloc, jobs)? {
        Some(back) => Ok(back.as_slice() == [3].as_slice()),
        None => Ok(false),
    }
}

#[test]
fn a_full_ring_gives_the_image_back(rt: HostRuntime) -> Result<(), Fail> {
    let (mut jobs, mut end) = ring(rt.alloc(), 1)?;
    let gives_back = gives_back(rt.alloc(), &mut jobs)?;
    assert!(rt; gives_back);
    assert!(rt; takes(&mut end, &[1, 2]));
    Ok(())
}

/// That a session was closed, after this was appended.
fn is_closed(rt: &impl Abort, served: Served, answers: &[Answer]) {
    assert_eq!(rt; served, Served::Closed);
    let outcomes = [
        Outcome::Appended {
            inode: 2,
            version: 11,
        },
        Outcome::Closed,
    ];
    assert_eq!(rt; last_two(answers), Some(outcomes));
}

/// Serves a truncate and an Unmount on a volume whose oldest sector has live records: its tree
/// before that, and the cleaner's end of the jobs.
fn cut_and_closed<R: Wait + Abort>(rt: &R, alloc: Global) -> Result<(Tree, JobEnd), Fail> {
    let core = filled(alloc)?;
    let tree = core.tree().copy_tree()?;
    let left = served(rt, alloc, core, &CUT_AND_UNMOUNT)?;
    is_closed(rt, left.served, left.session.core().answers());
    let Left { end, .. } = left;
    Ok((tree, end))
}

#[test]
fn jobs_reach_the_cleaner(rt: HostRuntime) -> Result<(), Fail> {
    let alloc = rt.alloc();
    let (tree, mut end) = cut_and_closed(&rt, alloc)?;
    let copies = cleaned_by(&rt, alloc, 4, tree, &mut end)?;
    assert_eq!(rt; asked(&copies), Some([(1, 2), (2, 3), (3, 4)]));
    Ok(())
}

/// What the core answers to three requests.
fn outcomes_of(
    core: &mut Core<MemoryFlash>,
    requests: Vec<Request>,
) -> Result<Option<[Outcome; 3]>, Fail> {
    for request in requests {
        answered(core, request)?;
    }
    match core.answers() {
        [.., a, b, c] => Ok(Some([a.outcome, b.outcome, c.outcome])),
        _ => Ok(None),
    }
}

/// That two of three copies are granted, after which one sector is dead.
fn are_answered(
    rt: &impl Abort,
    core: &mut Core<MemoryFlash>,
    copies: Vec<Request>,
) -> Result<(), Fail> {
    assert_eq!(rt; asked(&copies), Some([(1, 1), (2, 3), (3, 4)]));
    let outcomes = outcomes_of(core, copies)?;
    let wanted = [
        Outcome::Copied { version: 9 },
        Outcome::Copied { version: 10 },
        Outcome::Refused(Cause::NotNeeded),
    ];
    assert_eq!(rt; outcomes, Some(wanted));
    assert_eq!(rt; erased_dead(core), Ok(1));
    Ok(())
}

#[test]
fn cleaner_hands_in_copies(rt: HostRuntime) -> Result<(), Fail> {
    let alloc = rt.alloc();
    let mut core = moved(alloc)?;
    let copies = moved_copies(&rt, alloc, &core)?;
    are_answered(&rt, &mut core, copies)
}

/// How many copies a cleaner hands in until it is told of an end, in so many rounds.
fn handed_in_over<R: Wait>(
    rt: &R,
    alloc: Global,
    tree: Tree,
    jobs: &mut JobEnd,
    rounds: u32,
    ended: &Ended,
) -> Result<u32, Fail> {
    let Side {
        mut reader,
        mut hand,
        taker: _taker,
        publisher: _publisher,
    } = cleaner_side(rt, alloc, tree, 8)?;
    let count = handed_in_until(rt, alloc, jobs, &mut reader, &mut hand, rounds, ended);
    Ok(count)
}

/// Though it has many more rounds, and an image waits.
#[test]
fn a_cleaner_ends_with_the_log_thread(rt: HostRuntime) -> Result<(), Fail> {
    let alloc = rt.alloc();
    let (tree, mut jobs) = cut_and_closed(&rt, alloc)?;
    let ended = Ended::new();
    ended.tell();
    let count = handed_in_over(&rt, alloc, tree, &mut jobs, 1_000, &ended)?;
    assert_eq!(rt; count, 0);
    assert!(rt; jobs.take().is_some());
    Ok(())
}

/// How many copies a cleaner hands in that is never told of an end, in one round over such a
/// volume's oldest sector.
fn handed_in_untold<R: Wait>(rt: &R, alloc: Global) -> Result<u32, Fail> {
    let tree = moved(alloc)?.tree().copy_tree()?;
    let mut jobs = moved_job(alloc)?;
    handed_in_over(rt, alloc, tree, &mut jobs, 1, &Ended::new())
}

#[test]
fn a_cleaner_that_is_told_of_no_end_hands_in_its_copies(rt: HostRuntime) -> Result<(), Fail> {
    assert_eq!(rt; handed_in_untold(&rt, rt.alloc())?, 3);
    Ok(())
}
