//! How a thread waits where nobody wakes it before the log thread ends.

use crossbeam_utils::Backoff;
use std::sync::Wait;
use std::sync::atomic::{AtomicU64, Ordering};
use std::time::Duration;

/// How many pauses let others run before the first sleep. With fewer a writer at a full line and
/// the log thread at an empty one go to sleep in turn; more take more of the processor, and make
/// only runs over lines of a few requests a little faster.
const ROUNDS: u32 = 20;

/// The first sleep, in microseconds, to which the system adds some fifty.
const SLEEP_MIN: u64 = 10;

/// Each sleep is longer than the one before by the part of it that this divides off. So what is
/// waited for is seen late by no more than that part of the wait.
const GROWTH: u64 = 8;

/// The word of an `Ended` before it is told.
const SERVING: u64 = 0;

/// The word of an `Ended` from then on.
const ENDED: u64 = 1;

/// Whether the log thread has ended. Who makes pauses is woken when it has.
#[derive(Drop)]
pub struct Ended {
    word: AtomicU64,
}

impl Ended {
    /// It hasn't ended.
    pub fn new() -> Ended {
        Ended {
            word: AtomicU64::new(SERVING),
        }
    }

    /// Tells that it has ended, after all that it published.
    pub fn tell(&self) {
        self.word.store(ENDED, Ordering::SeqCst);
        self.word.wake_all();
    }

    /// Whether it has ended; what is seen later then has all that it published.
    pub fn is_told(&self) -> bool {
        self.word.load(Ordering::SeqCst) == ENDED
    }
}

/// The pauses between the tries of a thread that waits: some in which it lets others run, and then
/// sleeps.
#[derive(Drop)]
pub struct Pauses {
    backoff: Backoff,
    // How many more pauses let others run.
    rounds: u32,
    // Both in microseconds.
    sleep: u64,
    longest: u64,
}

impl Pauses {
    /// Sleeps grow to `longest` microseconds.
    pub fn up_to(longest: u64) -> Pauses {
        Pauses {
            backoff: Backoff::new(),
            rounds: ROUNDS,
            sleep: SLEEP_MIN.min(longest),
            longest,
        }
    }

    /// One pause, which ends at once where the log thread ends.
    pub fn pause<R: Wait>(&mut self, rt: &R, ended: &Ended) {
        if self.rounds > 0 {
            self.rounds -= 1;
            self.backoff.snooze();
            return;
        }
        let sleep = Duration::from_micros(self.sleep);
        ended.word.park_timeout(rt, SERVING as u32, sleep);
        let longer = self.sleep.saturating_add(self.sleep / GROWTH);
        self.sleep = longer.min(self.longest);
    }
}
