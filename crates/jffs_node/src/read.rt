//! What is found at a position of a sector.

use crate::node::Node;
use std::alloc::{AllocError, AllocFailed};
use thiserror::Error;

/// The rule that a closed record breaks first, in the order in which the rules are checked.
#[derive(Clone, Copy, Debug, PartialEq, Eq)]
pub enum Why {
    /// The first bytes are not the magic.
    Magic,
    /// The kind is none of the three.
    Kind,
    /// An unknown flag, two flags, or a flag of an unmount record.
    Flags,
    /// No name where one belongs or the other way round, a byte that no name has, or bytes after
    /// the name.
    Name,
    /// An unknown form, or the second form for anything but a file that is there.
    Form,
    /// The first form, with a size.
    Spare,
    /// Numbers that don't suit each other or the sector.
    Size,
    /// Bytes after the data that are not as an erase left them.
    Pad,
}

/// What is found at a position of a sector.
#[derive(Drop)]
pub enum Read {
    /// A closed record, and its length in bytes.
    Closed(Node, u32),
    /// Nothing: all bytes to the sector's end are as an erase left them.
    Free,
    /// What an interrupted write left: no closed gate, and not free.
    Torn,
    /// A closed gate over a record that breaks this rule.
    Bad(Why),
}

/// Allocation failed. What was asked for has not been done.
#[derive(Clone, Copy, Debug, Error, PartialEq, Eq)]
#[error("out of memory")]
pub struct NoMemory;

impl From<AllocError> for NoMemory {
    fn from(_refused: AllocError) -> NoMemory {
        NoMemory
    }
}

impl<T: Drop> From<AllocFailed<T>> for NoMemory {
    fn from(_refused: AllocFailed<T>) -> NoMemory {
        NoMemory
    }
}
