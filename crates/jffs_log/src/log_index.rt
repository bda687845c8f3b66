//! What is kept in memory of a log.

ghost use Rattle.std.specs.Prelude.{◌≡◌, ◌==◌};
ghost use Rattle.jffs_log.specs.LogIndex.{source_in};

use jffs_tree::CopySource;
use std::collections::VecDeque;

/// What is kept of a record in memory: none of its bytes. It takes 20 bytes.
#[derive(Clone, Copy, Debug, PartialEq, Eq)]
pub struct RecordRef {
    /// The version of its node.
    pub version: u32,
    /// The inode that its node is about.
    pub inode: u32,
    /// Where its data begin in the file, in bytes.
    pub data_offset: u32,
    /// How many bytes of data it has.
    pub data_len: u16,
    /// How many bytes it takes.
    pub length: u16,
    /// The sector in which it stands.
    pub sector: u16,
    /// Where it begins there, in bytes.
    pub offset: u16,
}

impl RecordRef {
    /// Whether it stands in the sector with this number.
    pub(crate) fn is_in(&self, sector: u32) -> bool
        ensures { result ≡ (self.now.sector == sector) }
    {
        u32::from(self.sector) == sector
    }

    /// What cleaning knows of the record.
    pub(crate) fn source(&self) -> CopySource
        ensures { result ≡ source_in self.now }
    {
        CopySource {
            inode: self.inode,
            version: self.version,
            offset: self.data_offset,
            len: usize::from(self.data_len),
        }
    }
}

/// What is known of the device: its sizes, the ring of sectors that hold the log, the sector
/// that was begun last, and the records.
#[derive(Drop)]
pub struct LogIndex {
    /// How many sectors the device has.
    pub sectors: u32,
    /// How many bytes a sector has.
    pub sector_size: u32,
    /// The sector that was begun first. The log's sectors stand one after another from here on, and
    /// after the device's last one comes its first.
    pub first: u32,
    /// How many sectors hold the log.
    pub held: u32,
    /// The sector that was begun last, where the log has one.
    pub tail: u32,
    /// The bytes that the records of that sector take.
    pub used: u32,
    /// The erased bytes after them; none where a write was cut off there.
    pub free: u32,
    /// How often the oldest sector was to be erased since the mount. At 2^64 - 1 it stays.
    pub erases: u64,
    /// The records, the oldest first.
    pub records: VecDeque<RecordRef>,
}
