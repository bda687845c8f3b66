//! Requests through a line, beside a plain channel of the same kind.

use crate::fault::Fault;
use crate::measure::Measure;
use crossbeam_channel::{Sender, bounded};
use crossbeam_utils::Backoff;
use jffs_line::{Ends, Hand, Hands, NotTaken, Taker, Why, ring_line, shared_line};
use jffs_node::Path;
use jffs_tree::Wish;
use std::alloc::Global;
use std::io::Write;
use std::sync::Wait;
use std::thread;
use std::thread::Threads;
use std::time::{Clock, Instant};

/// The capacity of each line.
const CAPACITY: usize = 64;

/// Both forms of the line and a plain bounded channel, with 1, 2 and 8 writers.
pub(crate) fn measure_lines<R: Threads + Wait + Sync + Clock, W: Write + Drop>(
    rt: &R,
    alloc: Global,
    measure: &mut Measure<W>,
) -> Result<(), Fault> {
    for (title, writers) in [("1 writer", 1u16), ("2 writers", 2), ("8 writers", 8)] {
        measure.title(title)?;
        let each = measure.scale.times(40_000) / u32::from(writers);
        let start = Instant::now(rt)?;
        let taken = send_all(rt, alloc, writers, each)?;
        measure.line(rt, "plain channel", taken, start)?;
        let line = shared_line(rt, alloc, CAPACITY, writers)?;
        let start = Instant::now(rt)?;
        let taken = hand_in_all(rt, alloc, line, each)?;
        measure.line(rt, "shared line", taken, start)?;
        let line = ring_line(alloc, CAPACITY, writers)?;
        let start = Instant::now(rt)?;
        let taken = hand_in_all(rt, alloc, line, each)?;
        measure.line(rt, "ring line", taken, start)?;
    }
    Ok(())
}

/// A wish that each writer hands in.
fn wish(alloc: Global, size: u32) -> Option<Wish> {
    let path = Path::parse(alloc, "/f").ok()?;
    Some(Wish::Truncate { path, size })
}

/// Hands in `count` wishes, each until it is accepted.
fn hand_in<H: Hand, R: Wait>(rt: &R, alloc: Global, hand: H, count: u32) {
    let mut hand = hand;
    for size in 0..count {
        if let Some(wish) = wish(alloc, size) {
            insist(rt, &mut hand, wish);
        }
    }
}

fn insist<H: Hand, R: Wait>(rt: &R, hand: &mut H, wish: Wish) {
    let backoff = Backoff::new();
    let mut wish = wish;
    for _ in rt.forever() {
        match hand.offer(rt, wish) {
            Err(
                NotTaken {
                    wish: back,
                    why: Why::Full,
                },
            ) => wish = back,
            _ => return,
        }
        backoff.snooze();
    }
}

/// Each writer hands in `each` wishes in a thread of its own, and all are taken; how many.
fn hand_in_all<H: Hand + Send, T: Taker, R: Threads + Wait + Sync>(
    rt: &R,
    alloc: Global,
    line: Ends<H, T>,
    each: u32,
) -> Result<u64, Fault> {
    let Ends { hands, mut taker } = line;
    let Hands {
        writers,
        cleaner,
        control,
    } = hands;
    drop(cleaner);
    drop(control);
    thread::scope(thread::scope_env(), rt, |scope| {
        for hand in writers {
            if scope.spawn(move || hand_in(rt, alloc, hand, each)).is_err() {
                return Err(Fault::Thread);
            }
        }
        let mut taken = 0u64;
        for _ in rt.forever() {
            match taker.take(rt) {
                Some(_) => taken = taken.saturating_add(1),
                None => return Ok(taken),
            }
        }
        unreachable!()
    })
}

/// The same through a plain channel.
fn send_all<R: Threads + Wait + Sync>(
    rt: &R,
    alloc: Global,
    writers: u16,
    each: u32,
) -> Result<u64, Fault> {
    let (sender, receiver) = bounded(alloc, CAPACITY)?;
    thread::scope(thread::scope_env(), rt, |scope| {
        for _ in 0..writers {
            let sender = sender.clone()?;
            if scope.spawn(move || send(rt, alloc, sender, each)).is_err() {
                return Err(Fault::Thread);
            }
        }
        drop(sender);
        let mut taken = 0u64;
        for _ in rt.forever() {
            match receiver.recv(rt) {
                Ok(_) => taken = taken.saturating_add(1),
                Err(_) => return Ok(taken),
            }
        }
        unreachable!()
    })
}

fn send<R: Wait>(rt: &R, alloc: Global, sender: Sender<Wish>, count: u32) {
    for size in 0..count {
        if let Some(wish) = wish(alloc, size) {
            if sender.send(rt, wish).is_err() {
                return;
            }
        }
    }
}
