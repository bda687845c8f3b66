//! What wakes who sleeps at a ring.
use crossbeam_utils::sync::Unparker;

/// Wakes the taker: at each ring, and when it is let go.
pub(super) struct Bell {
    taker: Unparker,
}

impl Bell {
    pub(super) fn new(taker: Unparker) -> Bell {
        Bell { taker }
    }

    pub(super) fn ring(&self) {
        self.taker.unpark();
    }
}

impl Drop for Bell {
    fn drop(self) {
        let Self { taker } = self;
        taker.unpark();
    }
}

/// Wakes a hand that sleeps at its full ring: not at each request that is taken, but each time that
/// half a ring was. So a wake serves several requests, and comes before the ring is empty.
#[derive(Drop)]
pub(super) struct HandWaker {
    hand: Unparker,
    // How many requests are taken between two that wake.
    between: usize,
    // How many of them are still to be taken.
    left: usize,
}

impl HandWaker {
    pub(super) fn new(hand: Unparker, capacity: usize) -> HandWaker {
        HandWaker {
            hand,
            between: capacity / 2,
            left: 0,
        }
    }

    /// Counts a request that was taken.
    pub(super) fn count(&mut self) {
        if self.left == 0 {
            self.hand.unpark();
            self.left = self.between;
        } else {
            self.left -= 1;
        }
    }
}
