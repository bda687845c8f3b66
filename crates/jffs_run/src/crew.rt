//! What the threads of a run are given, and what comes back from them.

use crate::fault::RunWhy;
use crate::promise::{Cleaner, LogEnd};
use crate::reader::ReaderEnd;
use jffs_flash::Flash;
use jffs_index::Reader;
use jffs_line::{Control, Hand, Hands, Taker};
use std::sync::Wait;

/// All that is given to threads of their own, but for the log's side, and the control, which stays
/// here.
#[derive(Drop)]
pub(crate) struct Crew<H: Hand> {
    pub(crate) writers: Vec<H>,
    pub(crate) cleaner: Cleaner<H>,
    pub(crate) control: Control<H>,
    pub(crate) readers: Vec<Reader>,
}

/// What came back from all threads of a run.
#[derive(Drop)]
pub(crate) struct Finished<H: Hand, F: Flash, T: Taker, W: Wait + Drop> {
    pub(crate) hands: Hands<H>,
    pub(crate) readers: Vec<ReaderEnd>,
    pub(crate) log: LogEnd<F, T, W>,
    // Why it makes no run, if it makes none.
    pub(crate) fault: Option<RunWhy>,
}
