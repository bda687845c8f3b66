//! What is printed of an operation.

use jffs_tree::{Cause, Limits};

/// What an operation on a core did.
#[derive(Clone, Copy, Debug, PartialEq, Eq)]
pub enum Did {
    /// A fresh node was appended; its record begins at this byte of the image.
    Appended { inode: u32, version: u32, at: u64 },
    /// A copy was appended; its record begins at this byte of the image.
    Copied { version: u32, at: u64 },
    /// The core is closed, by an unmount node that begins at this byte of the image.
    ClosedAt(u64),
    /// The core is closed, and no node was written.
    Closed,
    /// The oldest sector, with this number, was erased; before that `copies` records were copied.
    Cleaned { sector: u32, copies: u32 },
    /// The log has at most one sector, and nothing was changed.
    OneSector,
    /// This many sectors were erased.
    Erased(u32),
    /// What was asked for was not done, for this cause.
    Refused(Cause),
}

/// What is printed of a core that works, after each answer.
#[derive(Clone, Copy, Debug, PartialEq, Eq)]
pub struct Totals {
    /// How many sectors are erased.
    pub erased: u32,
    /// How often a sector was to be erased since the mount.
    pub erases: u64,
    /// The sum of the record lengths of live records, in bytes.
    pub weight: u64,
    /// The longest data of a node, and the numbers that come next.
    pub limits: Limits,
}

/// The answer to an operation on a core.
#[derive(Clone, Copy, Debug, PartialEq, Eq)]
pub struct Answered {
    /// What was done.
    pub did: Did,
    /// How many copies cleaning made for a request.
    pub copies: u64,
    /// What stands then; `None` if the core failed.
    pub totals: Option<Totals>,
}
