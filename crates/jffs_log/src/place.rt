//! Where the next record stands.

/// Where a record is put, as [`Log::place`](crate::Log::place) found it.
///
/// It is a place of that log as it was then: an append or an erase makes it stale.
#[derive(Clone, Copy, Debug, PartialEq, Eq)]
pub struct Place {
    /// The sector in which the record will stand.
    pub(crate) sector: u32,
    /// Where it will begin there, in bytes.
    pub(crate) offset: u32,
    /// The erased bytes from there on.
    pub(crate) free: u32,
    /// How many sectors hold the log with the record.
    pub(crate) held: u32,
}
