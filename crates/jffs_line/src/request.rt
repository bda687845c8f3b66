//! What goes through a line, and why it may not.

use jffs_tree::Wish;
use thiserror::Error;

/// A wish on its way to the log thread.
#[derive(Drop)]
pub struct Request {
    /// The sender's number: 1 to 8 writers, 9 the cleaner, 10 the control.
    pub writer: u16,
    /// The wish's number among those that were accepted of its sender, from 1.
    pub seq: u32,
    /// What is asked for.
    pub wish: Wish,
}

/// Why a wish wasn't taken in, in the order in which the reasons are tried.
#[derive(Clone, Copy, Debug, PartialEq, Eq, Error)]
pub enum Why {
    /// The sender's last number is used.
    #[error("the sender's last number is used")]
    Spent,
    /// The line holds as many requests as it can.
    #[error("the line is full")]
    Full,
}

/// A wish that wasn't taken in, handed back with the reason. Nothing is changed.
#[derive(Drop)]
pub struct NotTaken {
    /// The wish, as it was offered.
    pub wish: Wish,
    /// The first reason that holds.
    pub why: Why,
}

/// Why no line was made, in the order in which the reasons are tried.
#[derive(Clone, Copy, Debug, PartialEq, Eq, Error)]
pub enum LineFault {
    /// The capacity isn't 1 to 256 requests.
    #[error("a line can't have this capacity")]
    Capacity,
    /// There are more than 8 writers.
    #[error("a line can't have so many writers")]
    Senders,
    /// Allocation failed.
    #[error("out of memory")]
    Memory,
}

/// Why a line couldn't be settled. Its ends are gone then.
#[derive(Clone, Copy, Debug, PartialEq, Eq, Error)]
pub enum SettleFault {
    /// Allocation failed.
    #[error("out of memory")]
    Memory,
}

/// What a line still held when it was settled.
#[derive(Drop)]
pub struct Settled {
    /// The requests that were accepted and never taken; those of one sender stand in their order.
    pub waiting: Vec<Request>,
}
