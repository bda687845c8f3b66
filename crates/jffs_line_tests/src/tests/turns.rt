//! Whose request is taken before whose.
//! The order follows from the rule that rings have turns, and the control comes last.

use jffs_line::{CONTROL, Control, Ends, Hand, Hands, RingHand, Taker, ring_line, shared_line};
use jffs_tree::Wish;
use std::process::Abort;
use std::sync::Wait;
use std::sync::atomic::{AtomicU64, Ordering};
use std::test::Fail;
use std::thread;
use std::thread::Threads;

/// Both writers and the cleaner hand in one wish each.
fn each_hands_in(rt: &impl Abort, hands: &mut Hands<RingHand>, seq: u32) {
    assert_eq!(rt; hands.writers.len(), 2);
    assert_eq!(rt; hands.writers[1].try_hand_in(Wish::Unmount).ok(), Some(seq));
    assert_eq!(rt; hands.writers[0].try_hand_in(Wish::Unmount).ok(), Some(seq));
    assert_eq!(rt; hands.cleaner.try_hand_in(Wish::Unmount).ok(), Some(seq));
}

#[test]
fn full_rings_are_taken_by_turns(rt: HostRuntime) -> Result<(), Fail> {
    let Ends {
        mut hands,
        mut taker,
    } = ring_line(rt.alloc(), 2, 2)?;
    each_hands_in(&rt, &mut hands, 1);
    each_hands_in(&rt, &mut hands, 2);
    for wanted in [(1, 1), (2, 1), (9, 1), (1, 2), (2, 2), (9, 2)] {
        let taken = taker.take(&rt).map(|r| (r.writer, r.seq));
        assert_eq!(rt; taken, Some(wanted));
    }
    Ok(())
}

/// How often a writer hands in, and then the control.
const PAIRS: u32 = 20_000;

/// How often it is looked whether a pair was taken, before the next is handed in all the same.
const LOOKS_MAX: u32 = 1_000;

/// Hands in pairs, the writer's wish before the control's, each once the taker is idle. Ends early
/// where the line is full.
fn hand_in_pairs<H: Hand, R: Wait>(rt: &R, writer: H, control: Control<H>, taken: &AtomicU64) {
    let mut writer = writer;
    let mut control = control;
    for pair in 1..=PAIRS {
        let first = writer.offer(rt, Wish::Unmount).is_ok();
        if !first || control.offer(rt, Wish::Unmount).is_err() {
            return;
        }
        for _ in 0..LOOKS_MAX {
            if taken.load(Ordering::SeqCst) >= u64::from(pair) {
                break;
            }
            thread::yield_now();
        }
    }
}

/// What a taker saw of such pairs.
#[derive(Drop)]
struct Order {
    /// The last number of the control's that it took.
    last: u32,
    /// How many of the control's came before the writer's.
    early: u32,
}

/// Takes all pairs, and tells of each once both came.
fn take_pairs<T: Taker, R: Wait>(rt: &R, taker: T, taken: &AtomicU64) -> Order {
    let mut taker = taker;
    let mut of_writer = 0u32;
    let mut order = Order { last: 0, early: 0 };
    for _ in 0..2 * PAIRS {
        let Some(request) = taker.take(rt) else {
            break;
        };
        if request.writer == CONTROL {
            order.last = request.seq;
            if of_writer < request.seq {
                order.early = order.early.saturating_add(1);
            }
            taken.store(u64::from(request.seq), Ordering::SeqCst);
        } else {
            of_writer = request.seq;
        }
    }
    order
}

/// The order in which a taker takes pairs beside their two senders.
fn order_of_pairs<H: Hand + Send, T: Taker + Send, R: Threads + Wait + Sync>(
    rt: &R,
    line: Ends<H, T>,
) -> Option<Order> {
    let Ends { hands, taker } = line;
    let Hands {
        mut writers,
        cleaner,
        control,
    } = hands;
    let writer = writers.pop()?;
    drop(cleaner);
    let taken = AtomicU64::new(0);
    let taken = &taken;
    let (order, ()) = thread::join(
        rt,
        move || take_pairs(rt, taker, taken),
        move || hand_in_pairs(rt, writer, control, taken),
    );
    Some(order)
}

fn is_in_order(rt: &impl Abort, order: Option<Order>) -> Result<(), Fail> {
    let order = order.ok_or("one writer")?;
    assert_eq!(rt; order.early, 0, "of {} pairs", order.last);
    assert!(rt; order.last > 0);
    Ok(())
}

#[test]
fn the_control_comes_after_what_was_handed_in_before(rt: HostRuntime) -> Result<(), Fail> {
    let alloc = rt.alloc();
    is_in_order(&rt, order_of_pairs(&rt, shared_line(&rt, alloc, 2, 1)?))?;
    is_in_order(&rt, order_of_pairs(&rt, ring_line(alloc, 2, 1)?))
}
