//! Writers in threads of their own beside the taker, over either form of the line.
ghost use Rattle.std.specs.Prelude.{◌≡◌, [], ◌∷◌, ◌++◌, map, IfSome};
ghost use Rattle.jffs_line.specs.Line.{End};

use super::wish;
use crossbeam_utils::Backoff;
use jffs_line::{Ends, Hand, Hands, NotTaken, Request, Settle, Taker, Why};
use jffs_tree::Wish;
use std::alloc::Global;
use std::sync::Wait;
use std::thread;
use std::thread::Threads;

/// Offers `count` wishes, each until it is accepted; an Unmount instead of one that has no memory,
/// so that the taker gets as many as it waits for.
fn hand_in_all<H: Hand, R: Wait>(rt: &R, alloc: Global, hand: H, count: u32) -> H
    ensures { ◌≡◌ {A = End} (H.sender result, H.line result) (H.sender hand, H.line hand) }
{
    let mut hand = hand;
    for size in 0..count {
        insist(rt, &mut hand, wish(alloc, size).unwrap_or(Wish::Unmount));
    }
    hand
}

/// Offers a wish until the line has room for it.
fn insist<H: Hand, R: Wait>(rt: &R, hand: &mut H, wish: Wish)
    ensures { ◌≡◌ {A = End} (H.sender hand.new, H.line hand.new)
        (H.sender hand.old, H.line hand.old) }
{
    let backoff = Backoff::new();
    let mut wish = wish;
    for _ in rt.forever() {
        match offer_once(rt, hand, wish) {
            Some(back) => wish = back,
            None => return,
        }
        backoff.snooze();
    }
}

/// Offers a wish, which comes back where the line is full.
fn offer_once<H: Hand, R: Wait>(rt: &R, hand: &mut H, wish: Wish) -> Option<Wish>
    ensures { ◌≡◌ {A = End} (H.sender hand.new, H.line hand.new)
        (H.sender hand.old, H.line hand.old) }
{
    match hand.offer(rt, wish) {
        Err(
            NotTaken {
                wish: back,
                why: Why::Full,
            },
        ) => Some(back),
        _ => None,
    }
}

/// The writers' hands, after each handed in `count` wishes in a thread of its own.
fn write_all<H: Hand + Send, R: Threads + Wait + Sync>(
    rt: &R,
    alloc: Global,
    hands: Vec<H>,
    count: u32,
) -> Option<Vec<H>>
    ensures { IfSome result
        (λ after. map {B = End} (λ h. (H.sender h, H.line h)) after.items
        ≡ map {B = End} (λ h. (H.sender h, H.line h)) hands.items) }
{
    let mut hands = hands;
    let Some(last) = hands.pop() else {
        return Some(hands);
    };
    let (last, rest) = thread::join(
        rt,
        move ||
            ensures { ◌≡◌ {A = End} (H.sender result, H.line result) (H.sender last, H.line last) }
        { hand_in_all(rt, alloc, last, count) },
        move ||
            ensures { IfSome result
                (λ after. map {B = End} (λ h. (H.sender h, H.line h)) after.items
                ≡ map {B = End} (λ h. (H.sender h, H.line h)) hands.items) }
        { write_all(rt, alloc, hands, count) },
    );
    let mut rest = rest?;
    rest.push(last).ok()?;
    Some(rest)
}

/// The taker, and what it took.
#[derive(Drop)]
struct Took<T: Taker> {
    taker: T,
    requests: Vec<Request>,
}

/// Takes `count` requests, also where there is no memory to keep them, since writers wait to be rid
/// of theirs.
fn take_all<T: Taker, R: Wait>(rt: &R, alloc: Global, taker: T, count: usize) -> Took<T>
    ensures { T.ends result.taker ≡ T.ends taker }
{
    let mut taker = taker;
    let mut requests = Vec::new(alloc);
    for _ in 0..count {
        let Some(request) = taker.take(rt) else {
            break;
        };
        let _ = requests.push(request);
    }
    Took { taker, requests }
}

/// What the taker took, and what waited when all ends came together again.
#[derive(Drop)]
pub(super) struct Session {
    pub(super) taken: Vec<Request>,
    pub(super) waiting: Vec<Request>,
}

/// The taker takes `takes` requests, while each writer hands in `wishes` wishes.
pub(super) fn run_session<H: Hand + Send, T: Settle<Of = H> + Send, R: Threads + Wait + Sync>(
    rt: &R,
    alloc: Global,
    line: Ends<H, T>,
    wishes: u32,
    takes: usize,
) -> Option<Session>
    requires { T.ends line.taker
        ≡ map (λ h. (H.sender h, H.line h))
        (line.hands.writers.items ++ line.hands.cleaner ∷ line.hands.control.hand ∷ []) }
{
    let Ends { hands, taker } = line;
    let Hands {
        writers,
        cleaner,
        control,
    } = hands;
    let (writers, took) = thread::join(
        rt,
        move || write_all(rt, alloc, writers, wishes),
        move || take_all(rt, alloc, taker, takes),
    );
    let Took { taker, requests } = took;
    let hands = Hands {
        writers: writers?,
        cleaner,
        control,
    };
    let settled = taker.settle(rt, alloc, hands).ok()?;
    Some(Session {
        taken: requests,
        waiting: settled.waiting,
    })
}
