//! Lines that are made, used and settled.
//! Numbers and causes follow from what was handed in: each sender counts from 1.

ghost use Rattle.std.specs.Prelude.{◌≡◌, map, [], ◌∷◌, ◌++◌};
ghost use Rattle.jffs_line.specs.Line.{End};

mod sessions;
mod turns;
mod waking;

use crate::tests::sessions::{Session, run_session};
use crate::tests::waking::{Taken, take_asleep, take_from_control, unmount_asleep};
use jffs_line::{
    Ends, Hand, Hands, LineFault, Request, RingHand, RingLine, Settle, SharedHand, SharedLine,
    SharedTaker, Taker, Why, ring_line, shared_line,
};
use jffs_node::Path;
use jffs_tree::Wish;
use std::alloc::Global;
use std::process::Abort;
use std::sync::Wait;
use std::test::Fail;
use std::thread::Threads;

/// A wish that its size tells from others.
pub(super) fn wish(alloc: Global, size: u32) -> Option<Wish> {
    let path = Path::parse(alloc, "/f").ok()?;
    Some(Wish::Truncate { path, size })
}

fn size_of(wish: &Wish) -> Option<u32> {
    match wish {
        Wish::Truncate { path: _, size } => Some(*size),
        _ => None,
    }
}

/// Writer, number and size of a request.
fn told(request: &Request) -> (u16, u32, Option<u32>) {
    (request.writer, request.seq, size_of(&request.wish))
}

/// What one writer was told of two wishes while nothing was taken, and the one request that then
/// waited.
#[derive(Clone, Copy)]
struct Offered {
    first: Option<u32>,
    second: Option<(Why, Option<u32>)>,
    waiting: Option<(u16, u32, Option<u32>)>,
}

fn offered_twice<T: Settle, R: Wait>(rt: &R, alloc: Global, line: Ends<T::Of, T>) -> Option<Offered>
    requires { T.ends line.taker
        ≡ map (λ h. (T.Of.sender h, T.Of.line h))
        (line.hands.writers.items ++ line.hands.cleaner ∷ line.hands.control.hand ∷ []) }
{
    let Ends { mut hands, taker } = line;
    let mut hand = hands.writers.pop()?;
    let first = answer(rt, &mut hand, wish(alloc, 2)?).ok();
    let second = answer(rt, &mut hand, wish(alloc, 3)?).err();
    hands.writers.push(hand).ok()?;
    let settled = taker.settle(rt, alloc, hands).ok()?;
    Some(Offered {
        first,
        second,
        waiting: only(&settled.waiting),
    })
}

/// The number of a wish that was offered; or why it was refused, and its size.
fn answer<H: Hand, R: Wait>(rt: &R, hand: &mut H, wish: Wish) -> Result<u32, (Why, Option<u32>)>
    ensures { ◌≡◌ {A = End} (H.sender hand.new, H.line hand.new)
        (H.sender hand.old, H.line hand.old) }
{
    match hand.offer(rt, wish) {
        Ok(number) => Ok(number),
        Err(refused) => Err((refused.why, size_of(&refused.wish))),
    }
}

/// What a list of one request tells.
fn only(requests: &[Request]) -> Option<(u16, u32, Option<u32>)> {
    match requests {
        [request] => Some(told(request)),
        _ => None,
    }
}

fn check_capacity_one(rt: &impl Abort, offered: Option<Offered>) -> Result<(), Fail> {
    let offered = offered.ok_or("memory")?;
    assert_eq!(rt; offered.first, Some(1));
    assert_eq!(rt; offered.second, Some((Why::Full, Some(3))));
    assert_eq!(rt; offered.waiting, Some((1, 1, Some(2))));
    Ok(())
}

#[test]
fn line_of_capacity_one(rt: HostRuntime) -> Result<(), Fail> {
    let alloc = rt.alloc();
    let line = shared_line(&rt, alloc, 1, 1)?;
    check_capacity_one(&rt, offered_twice(&rt, alloc, line))?;
    let line = ring_line(alloc, 1, 1)?;
    check_capacity_one(&rt, offered_twice(&rt, alloc, line))
}

fn shared_fault<R>(rt: &R, alloc: Global, capacity: usize, writers: u16) -> Option<LineFault> {
    shared_line(rt, alloc, capacity, writers).err()
}

fn ring_fault(alloc: Global, capacity: usize, writers: u16) -> Option<LineFault> {
    ring_line(alloc, capacity, writers).err()
}

#[test]
fn a_line_refuses_its_capacity_before_its_senders(rt: HostRuntime) {
    let alloc = rt.alloc();
    for (capacity, writers, fault) in [
        (0, 1, Some(LineFault::Capacity)),
        (257, 9, Some(LineFault::Capacity)),
        (1, 9, Some(LineFault::Senders)),
        (256, 8, None),
        (1, 0, None),
    ] {
        assert_eq!(rt; shared_fault(&rt, alloc, capacity, writers), fault);
        assert_eq!(rt; ring_fault(alloc, capacity, writers), fault);
    }
}

/// The line has hands for so many writers, and nothing waits in it.
fn settles_unused<T: Settle, R: Wait + Abort>(
    rt: &R,
    alloc: Global,
    line: Ends<T::Of, T>,
    writers: u16,
) -> Result<(), Fail>
    requires { T.ends line.taker
        ≡ map (λ h. (T.Of.sender h, T.Of.line h))
        (line.hands.writers.items ++ line.hands.cleaner ∷ line.hands.control.hand ∷ []) }
{
    let Ends { hands, taker } = line;
    assert_eq!(rt; hands.writers.len(), usize::from(writers));
    assert!(rt; taker.settle(rt, alloc, hands)?.waiting.is_empty());
    Ok(())
}

#[test]
fn lines_that_nobody_used_are_settled(rt: HostRuntime) -> Result<(), Fail> {
    let alloc = rt.alloc();
    for writers in [0, 8] {
        settles_unused(&rt, alloc, shared_line(&rt, alloc, 1, writers)?, writers)?;
        settles_unused(&rt, alloc, ring_line(alloc, 1, writers)?, writers)?;
    }
    Ok(())
}

/// The taker gives the first request of each of these senders, one after the other.
fn gives_first_of<T: Taker, R: Wait + Abort>(rt: &R, taker: &mut T, senders: &[u16]) {
    for sender in senders {
        let taken = taker.take(rt).map(|r| (r.writer, r.seq));
        assert_eq!(rt; taken, Some((*sender, 1)));
    }
}

fn gives_none<T: Taker, R: Wait + Abort>(rt: &R, taker: T) {
    let mut taker = taker;
    assert!(rt; taker.take(rt).is_none());
}

/// Hands in a wish of the size 2, and takes it.
fn handed_in_and_taken<R: Wait + Abort>(
    rt: &R,
    alloc: Global,
    hand: &mut SharedHand,
    taker: &mut SharedTaker,
) -> Result<Wish, Fail> {
    let first = wish(alloc, 2).ok_or("memory")?;
    assert_eq!(rt; hand.hand_in(rt, first).ok(), Some(1));
    let taken = taker.take(rt).ok_or("one waits")?;
    assert_eq!(rt; told(&taken), (1, 1, Some(2)));
    Ok(taken.wish)
}

#[test]
fn the_shared_taker_gives_none_once_no_hand_is_left(rt: HostRuntime) -> Result<(), Fail> {
    let mut line = shared_line(&rt, rt.alloc(), 1, 1)?;
    pass_on(&rt, rt.alloc(), &mut line)?;
    let Ends { hands, mut taker } = line;
    drop(hands);
    gives_first_of(&rt, &mut taker, &[9]);
    gives_none(&rt, taker);
    Ok(())
}

/// The writer's wish is taken, and handed in again by the cleaner.
fn pass_on<R: Wait + Abort>(rt: &R, alloc: Global, line: &mut SharedLine) -> Result<(), Fail> {
    let Ends { hands, taker } = line;
    assert_eq!(rt; hands.writers.len(), 1);
    let taken = handed_in_and_taken(rt, alloc, &mut hands.writers[0], taker)?;
    assert_eq!(rt; hands.cleaner.offer(rt, taken).ok(), Some(1));
    Ok(())
}

/// What a shared line's hand is told of a wish.
fn shared_answer<R: Wait>(
    rt: &R,
    alloc: Global,
    hand: &mut SharedHand,
) -> Result<Result<u32, Why>, Fail> {
    let asked = wish(alloc, 2).ok_or("memory")?;
    Ok(hand.try_hand_in(rt, asked).map_err(|refused| refused.why))
}

/// What a ring's hand is told of a wish.
fn ring_answer(alloc: Global, hand: &mut RingHand) -> Result<Result<u32, Why>, Fail> {
    let asked = wish(alloc, 2).ok_or("memory")?;
    Ok(hand.try_hand_in(asked).map_err(|refused| refused.why))
}

/// All senders hand in, the second writer first and the cleaner last.
fn all_hand_in<R: Wait + Abort>(
    rt: &R,
    alloc: Global,
    hands: &mut Hands<RingHand>,
) -> Result<(), Fail> {
    assert_eq!(rt; hands.writers.len(), 2);
    assert_eq!(rt; ring_answer(alloc, &mut hands.writers[1])?, Ok(1));
    assert_eq!(rt; ring_answer(alloc, &mut hands.writers[0])?, Ok(1));
    assert_eq!(rt; hands.control.unmount(rt).ok(), Some(1));
    assert_eq!(rt; ring_answer(alloc, &mut hands.cleaner)?, Ok(1));
    Ok(())
}

#[test]
fn the_control_is_served_last(rt: HostRuntime) -> Result<(), Fail> {
    let Ends {
        mut hands,
        mut taker,
    } = ring_line(rt.alloc(), 1, 2)?;
    all_hand_in(&rt, rt.alloc(), &mut hands)?;
    // The control's request waited before the cleaner's, and is taken after it.
    gives_first_of(&rt, &mut taker, &[1, 2, 9, 10]);
    drop(hands);
    gives_none(&rt, taker);
    Ok(())
}

/// The cleaner's hand is refused once one request waits.
fn fills_shared<R: Wait + Abort>(rt: &R, alloc: Global, line: SharedLine) -> Result<(), Fail> {
    let Ends { mut hands, taker } = line;
    drop(taker);
    for wanted in [None, Some(Why::Full)] {
        assert_eq!(rt; shared_answer(rt, alloc, &mut hands.cleaner)?.err(), wanted);
    }
    Ok(())
}

/// The cleaner's hand is refused once one request waits in its ring.
fn fills_ring(rt: &impl Abort, alloc: Global, line: RingLine) -> Result<(), Fail> {
    let Ends { mut hands, taker } = line;
    drop(taker);
    for wanted in [None, Some(Why::Full)] {
        assert_eq!(rt; ring_answer(alloc, &mut hands.cleaner)?.err(), wanted);
    }
    Ok(())
}

#[test]
fn a_line_without_its_taker_fills(rt: HostRuntime) -> Result<(), Fail> {
    let alloc = rt.alloc();
    fills_shared(&rt, alloc, shared_line(&rt, alloc, 1, 0)?)?;
    fills_ring(&rt, alloc, ring_line(alloc, 1, 0)?)
}

/// The sender's requests are numbered 1, 2, 3, .. in what was taken and then in what waited.
fn check_order(rt: &impl Abort, session: &Session, sender: u16, count: u32) {
    let mut last = 0u32;
    for request in session.taken.iter().chain(session.waiting.iter()) {
        if request.writer == sender {
            assert_eq!(rt; last.checked_add(1), Some(request.seq));
            last = request.seq;
        }
    }
    assert_eq!(rt; last, count);
}

/// All wishes that the writers handed in were taken, or waited.
fn check_session(rt: &impl Abort, session: Option<Session>, taken: usize, waiting: usize) {
    let Some(session) = session else {
        return assert!(rt; false);
    };
    assert_eq!(rt; session.taken.len(), taken);
    assert_eq!(rt; session.waiting.len(), waiting);
    for sender in 1..=8 {
        check_order(rt, &session, sender, WISHES);
    }
}

/// The wishes of each writer.
const WISHES: u32 = 50;

fn shared_session<R: Threads + Wait + Sync>(
    rt: &R,
    alloc: Global,
    capacity: usize,
    takes: usize,
) -> Result<Option<Session>, Fail> {
    let line = shared_line(rt, alloc, capacity, 8)?;
    Ok(run_session(rt, alloc, line, WISHES, takes))
}

fn ring_session<R: Threads + Wait + Sync>(
    rt: &R,
    alloc: Global,
    capacity: usize,
    takes: usize,
) -> Result<Option<Session>, Fail> {
    let line = ring_line(alloc, capacity, 8)?;
    Ok(run_session(rt, alloc, line, WISHES, takes))
}

#[test]
fn eight_writers_hand_in_beside_a_taker(rt: HostRuntime) -> Result<(), Fail> {
    let alloc = rt.alloc();
    for (capacity, taken, waiting) in [(1, 400, 0), (3, 400, 0), (256, 200, 200)] {
        let session = shared_session(&rt, alloc, capacity, taken)?;
        check_session(&rt, session, taken, waiting);
        let session = ring_session(&rt, alloc, capacity, taken)?;
        check_session(&rt, session, taken, waiting);
    }
    Ok(())
}

fn was_woken_twice(rt: &impl Abort, taken: Taken) {
    assert_eq!(rt; (taken.writer, taken.is_none), (Some(10), true));
}

#[test]
fn a_taker_asleep_is_woken_by_a_request_and_by_the_last_hand(rt: HostRuntime) -> Result<(), Fail> {
    let alloc = rt.alloc();
    was_woken_twice(&rt, take_asleep(&rt, shared_line(&rt, alloc, 1, 1)?));
    was_woken_twice(&rt, take_asleep(&rt, ring_line(alloc, 1, 1)?));
    Ok(())
}

#[test]
fn a_taker_waits_for_the_control_alone(rt: HostRuntime) -> Result<(), Fail> {
    let alloc = rt.alloc();
    was_woken_twice(&rt, take_from_control(&rt, shared_line(&rt, alloc, 1, 1)?));
    was_woken_twice(&rt, take_from_control(&rt, ring_line(alloc, 1, 1)?));
    Ok(())
}

#[test]
fn an_unmount_asleep_at_a_full_line_is_woken(rt: HostRuntime) -> Result<(), Fail> {
    let alloc = rt.alloc();
    let numbers = unmount_asleep(&rt, shared_line(&rt, alloc, 1, 1)?);
    assert_eq!(rt; numbers, [Some(1), Some(2)]);
    let numbers = unmount_asleep(&rt, ring_line(alloc, 1, 1)?);
    assert_eq!(rt; numbers, [Some(1), Some(2)]);
    Ok(())
}
