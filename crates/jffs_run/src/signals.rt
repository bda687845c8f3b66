//! What the threads of a run tell one another beside the line.

use jffs_serve::Ended;
use std::sync::atomic::{AtomicBool, Ordering};

/// What all threads of a run look at.
#[derive(Drop)]
pub(crate) struct Signals {
    /// Whether the log thread has ended.
    pub(crate) ended: Ended,
    // Whether a thread could not be made.
    refused: AtomicBool,
}

impl Signals {
    /// The log thread hasn't ended, and no thread was refused.
    pub(crate) fn new() -> Signals {
        Signals {
            ended: Ended::new(),
            refused: AtomicBool::new(false),
        }
    }

    /// Tells that a thread could not be made: who hasn't begun yet gives back what it was given.
    pub(crate) fn refuse(&self) {
        self.refused.store(true, Ordering::SeqCst);
    }

    /// Whether a thread could not be made.
    pub(crate) fn is_refused(&self) -> bool {
        self.refused.load(Ordering::SeqCst)
    }
}
