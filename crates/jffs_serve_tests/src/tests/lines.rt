//! Lines, and what waits on them.

use crate::tests::volumes::{Ask, wish_of};
use jffs_line::{Ends, Hand, Hands, SharedHand, SharedLine, SharedTaker, shared_line};
use jffs_tree::Wish;
use std::alloc::Global;
use std::sync::Wait;
use std::test::Fail;

/// A line with hands for so many writers.
fn line<R: Wait>(rt: &R, alloc: Global, capacity: usize, writers: u16) -> Result<SharedLine, Fail> {
    Ok(shared_line(rt, alloc, capacity, writers)?)
}

/// The cleaner's hand at a line with room for so many requests, and the taker. No other hand is
/// left.
pub(super) fn cleaner_line<R: Wait>(
    rt: &R,
    alloc: Global,
    capacity: usize,
) -> Result<(SharedHand, SharedTaker), Fail> {
    let Ends { hands, taker } = line(rt, alloc, capacity, 0)?;
    Ok((hands.cleaner, taker))
}

/// Such a line whose one slot is full.
pub(super) fn full_line<R: Wait>(rt: &R, alloc: Global) -> Result<(SharedHand, SharedTaker), Fail> {
    let Ends { mut hands, taker } = line(rt, alloc, 1, 0)?;
    if is_put(rt, &mut hands, Wish::Unmount) {
        Ok((hands.cleaner, taker))
    } else {
        Err("the slot is free".into())
    }
}

/// Whether a wish was accepted: an Unmount of the control, any other of the one writer.
fn is_put<R: Wait, H: Hand>(rt: &R, hands: &mut Hands<H>, wish: Wish) -> bool {
    match wish {
        Wish::Unmount => hands.control.unmount(rt).is_ok(),
        wish => match hands.writers.first_mut() {
            Some(writer) => writer.put(rt, wish).is_ok(),
            None => false,
        },
    }
}

/// Hands these wishes in, in order.
fn put_all<R: Wait, H: Hand>(
    rt: &R,
    alloc: Global,
    hands: &mut Hands<H>,
    asks: &[Ask],
) -> Result<(), Fail> {
    for ask in asks {
        let wish = wish_of(alloc, *ask)?;
        if !is_put(rt, hands, wish) {
            return Err("each has a place".into());
        }
    }
    Ok(())
}

/// The taker of a line on which these wishes of a writer wait, an Unmount as the control's, and
/// whose hands are gone. It has room for one more.
pub(super) fn all_waiting<R: Wait>(
    rt: &R,
    alloc: Global,
    asks: &[Ask],
) -> Result<SharedTaker, Fail> {
    let Ends { mut hands, taker } = line(rt, alloc, asks.len().saturating_add(1), 1)?;
    put_all(rt, alloc, &mut hands, asks)?;
    Ok(taker)
}
