//! An end that sleeps is woken by the other.
//! What is taken has to be what was handed in, in its order.
use jffs_line::{Control, Ends, Hand, Hands, Taker};
use std::sync::Wait;
use std::thread;
use std::thread::Threads;
use std::time::{Clock, Duration};

/// Much longer than an end looks before it sleeps.
const NAP_MILLIS: u64 = 30;

fn nap<R: Clock>(rt: &R) {
    thread::sleep(rt, Duration::from_millis(NAP_MILLIS));
}

/// What a taker gave that slept before the one request came, and again until the hands went.
#[derive(Drop)]
pub(super) struct Taken {
    pub(super) writer: Option<u16>,
    pub(super) is_none: bool,
}

/// The control asks for the Unmount while the taker sleeps, and goes with the rest while it sleeps
/// again.
fn take_beside<H: Hand + Send, D: Drop + Send, T: Taker + Send, R: Threads + Wait + Sync + Clock>(
    rt: &R,
    control: Control<H>,
    rest: D,
    taker: T,
) -> Taken {
    let mut control = control;
    let mut taker = taker;
    let (taken, ()) = thread::join(
        rt,
        move || {
            let writer = taker.take(rt).map(|request| request.writer);
            let is_none = taker.take(rt).is_none();
            Taken { writer, is_none }
        },
        move || {
            nap(rt);
            let _ = control.unmount(rt);
            nap(rt);
            drop(control);
            drop(rest);
        },
    );
    taken
}

pub(super) fn take_asleep<H: Hand + Send, T: Taker + Send, R: Threads + Wait + Sync + Clock>(
    rt: &R,
    line: Ends<H, T>,
) -> Taken {
    let Ends { hands, taker } = line;
    let Hands {
        writers,
        cleaner,
        control,
    } = hands;
    take_beside(rt, control, (writers, cleaner), taker)
}

/// The same on a line of which the control's hand alone is left.
pub(super) fn take_from_control<H: Hand + Send, T: Taker + Send, R: Threads + Wait + Sync + Clock>(
    rt: &R,
    line: Ends<H, T>,
) -> Taken {
    let Ends { hands, taker } = line;
    let Hands {
        writers,
        cleaner,
        control,
    } = hands;
    drop(writers);
    drop(cleaner);
    take_beside(rt, control, (), taker)
}

/// The numbers of two unmounts on a line of capacity 1, of which the second slept until the first
/// was taken.
pub(super) fn unmount_asleep<H: Hand + Send, T: Taker + Send, R: Threads + Wait + Sync + Clock>(
    rt: &R,
    line: Ends<H, T>,
) -> [Option<u32>; 2] {
    let Ends {
        mut hands,
        mut taker,
    } = line;
    let (numbers, _) = thread::join(
        rt,
        move || {
            let first = hands.control.unmount(rt).ok();
            let second = hands.control.unmount(rt).ok();
            [first, second]
        },
        move || {
            nap(rt);
            let _ = taker.take(rt);
            nap(rt);
        },
    );
    numbers
}
