//! Which copies a cleaner asks for, and how it waits for room on the line.
//! Which copies there are is counted from the records that live in the sector.

use crate::tests::cleaning::{Side, cleaned_by, cleaner_side, handed_in, source_of, tree_index};
use crate::tests::images::job_and_tree;
use crate::tests::lines::full_line;
use crate::tests::volumes::{moved, six_created};
use jffs_index::Reader;
use jffs_line::{Hand, NotTaken, Request, Taker};
use jffs_serve::JobEnd;
use jffs_tree::{Tree, Wish};
use std::alloc::Global;
use std::sync::Wait;
use std::sync::atomic::{AtomicU64, Ordering};
use std::test::Fail;
use std::thread;
use std::thread::Threads;
use std::time::{Clock, Duration};

/// Much longer than the cleaner's first pauses at a full line, and much shorter than all its tries.
const NAP_MILLIS: u64 = 5;

/// Whether these are copies of the records 1 to 6, with the same numbers, in order.
fn are_of_all_six(copies: &[Request]) -> bool {
    let mut count = 0u32;
    for copy in copies {
        count = count.saturating_add(1);
        if source_of(copy) != (count, count) {
            return false;
        }
    }
    count == 6
}

#[test]
fn each_live_record_is_asked_for(rt: HostRuntime) -> Result<(), Fail> {
    let alloc = rt.alloc();
    let (mut jobs, tree) = job_and_tree(alloc, &mut six_created(alloc)?)?;
    let copies = cleaned_by(&rt, alloc, 8, tree, &mut jobs)?;
    assert!(rt; are_of_all_six(&copies));
    Ok(())
}

/// Takes three requests, slowly.
fn take_slowly<R: Wait + Clock, T: Taker>(rt: &R, taker: T) {
    let mut taker = taker;
    for _ in 0..3 {
        thread::sleep(rt, Duration::from_millis(NAP_MILLIS));
        let _ = taker.take(rt);
    }
}

/// How many copies a cleaner hands in in one round; its ends are gone then.
fn one_round<R: Wait, H: Hand>(
    rt: &R,
    alloc: Global,
    jobs: JobEnd,
    reader: Reader,
    hand: H,
) -> u32 {
    let mut jobs = jobs;
    let mut reader = reader;
    let mut hand = hand;
    handed_in(rt, alloc, &mut jobs, &mut reader, &mut hand, 1)
}

/// How many copies are handed in in one round of a cleaner on a line with room for one request, of
/// which three are taken slowly.
fn cleaned_slowly<R: Threads + Wait + Sync + Clock>(
    rt: &R,
    alloc: Global,
    tree: Tree,
    jobs: JobEnd,
) -> Result<u32, Fail> {
    // Only the cleaner's hand is left: so the taker ends also where both run in one thread, the
    // cleaner first.
    let Side {
        reader,
        hand,
        taker,
        publisher: _publisher,
    } = cleaner_side(rt, alloc, tree, 1)?;
    let (_, count) = thread::join(
        rt,
        move || take_slowly(rt, taker),
        move || one_round(rt, alloc, jobs, reader, hand),
    );
    Ok(count)
}

#[test]
fn a_copy_is_offered_until_the_line_has_room(rt: HostRuntime) -> Result<(), Fail> {
    let alloc = rt.alloc();
    let (jobs, tree) = job_and_tree(alloc, &mut moved(alloc)?)?;
    assert_eq!(rt; cleaned_slowly(&rt, alloc, tree, jobs)?, 3);
    Ok(())
}

/// How often the cleaner offers a copy.
const TRIES: u64 = 1_000;

/// How many milliseconds are waited at most until a copy was given up, which takes some 150.
const WAIT_MILLIS: u32 = 10_000;

/// A hand that counts what is offered.
#[derive(Drop)]
struct Counting<'a, H: Hand> {
    hand: H,
    offers: &'a AtomicU64,
}

impl<'a, H: Hand> Hand for Counting<'a, H> {
    ghost sender = { λ c. H.sender c.hand };

    ghost line = { λ c. H.line c.hand };

    ghost accepted = { λ c. H.accepted c.hand };

    ghost numbered = { λ c. H.numbered c.hand };

    fn offer<R: Wait>(&mut self, rt: &R, wish: Wish) -> Result<u32, NotTaken> {
        self.offers.fetch_add(1, Ordering::SeqCst);
        self.hand.offer(rt, wish)
    }

    fn put<R: Wait>(&mut self, rt: &R, wish: Wish) -> Result<u32, NotTaken> {
        self.hand.put(rt, wish)
    }
}

/// Sleeps until one copy was offered as often as any.
fn wait_for_tries<R: Clock>(rt: &R, offers: &AtomicU64) {
    for _ in 0..WAIT_MILLIS {
        if offers.load(Ordering::SeqCst) > TRIES {
            break;
        }
        thread::sleep(rt, Duration::from_millis(1));
    }
}

/// Takes nothing until one copy was offered as often as any, and then all that comes. The sources
/// of the copies among that.
fn take_late<R: Wait + Clock, T: Taker>(
    rt: &R,
    alloc: Global,
    taker: T,
    offers: &AtomicU64,
) -> Vec<u32> {
    wait_for_tries(rt, offers);
    let mut taker = taker;
    let mut sources = Vec::new(alloc);
    for _ in rt.forever() {
        let Some(request) = taker.take(rt) else {
            return sources;
        };
        if let Wish::Copy { source, .. } = request.wish {
            let _ = sources.push(source);
        }
    }
    unreachable!()
}

/// The sources of the copies that were accepted in one round of a cleaner at a line whose one slot
/// is full at first, and how many it handed in.
fn cleaned_late<R: Threads + Wait + Sync + Clock>(
    rt: &R,
    alloc: Global,
    tree: Tree,
    jobs: JobEnd,
) -> Result<(Vec<u32>, u32), Fail> {
    let (_publisher, reader) = tree_index(rt, alloc, tree)?;
    let (hand, taker) = full_line(rt, alloc)?;
    let offers = AtomicU64::new(0);
    let offers = &offers;
    let hand = Counting { hand, offers };
    Ok(thread::join(
        rt,
        move || take_late(rt, alloc, taker, offers),
        move || one_round(rt, alloc, jobs, reader, hand),
    ))
}

#[test]
fn after_a_copy_that_is_given_up_the_next_is_offered(rt: HostRuntime) -> Result<(), Fail> {
    let alloc = rt.alloc();
    let (jobs, tree) = job_and_tree(alloc, &mut six_created(alloc)?)?;
    let (sources, count) = cleaned_late(&rt, alloc, tree, jobs)?;
    assert!(rt; sources.first().is_some_and(|source| *source > 1));
    assert_eq!(rt; sources.last(), Some(&6));
    assert_eq!(rt; u32::try_from(sources.len()).ok(), Some(count));
    Ok(())
}
