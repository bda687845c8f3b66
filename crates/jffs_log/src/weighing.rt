//! What the live records of the log weigh, and how many a sector has.

ghost use Rattle.std.specs.Prelude.{◌≡◌, ◌<◌, ◌^◌, ◌==◌, ◌&&◌, false, List, length, map, filter};
ghost use Rattle.std.specs.Prelude.{sum};
ghost use Rattle.jffs_tree.specs.Look.{holds_version};
ghost use Rattle.jffs_log.specs.LogIndex.{live_bytes_in};

use crate::log::Log;
use crate::log_index::RecordRef;
use jffs_flash::Flash;
use jffs_tree::Tree;
use std::collections::VecDeque;

impl<F: Flash> Log<F> {
    ghost use Rattle.jffs_node.specs.declared.node.Node.{Node};
    ghost use Rattle.jffs_tree.specs.Origin.{tree_of};
    ghost use Rattle.jffs_log.specs.LogState.{log_records, HasHistory};
    ghost use Rattle.jffs_log.specs.LogIndex.{weight_in, live_in, live_records_in};
    ghost use Rattle.jffs_log.specs.Room.{weight};

    /// The sum of the record lengths, in bytes, of those records that live in the tree of all
    /// nodes. Takes no memory.
    pub fn live_weight(&self, tree: &Tree) -> u64
        ensures known { result
            ≡ sum (map (λ k. k.length)
            (filter (λ k. holds_version tree.now k.inode k.version)
            self.now.index.records.items)) }
        ensures weighed { self.now.failed ≡ false
            → result ≡ weight_in tree.now (log_records self.now) }
        ensures whole { self.now.failed ≡ false → (past : List Node) → tree.now ≡ tree_of past
            → HasHistory past self.now → result ≡ weight past }
    {
        weight_of(&self.index.records, tree)
    }

    /// The lengths of the records of an inode that live in the tree of all nodes together, in
    /// bytes. Takes no memory, and goes through all records of the log.
    pub fn live_bytes(&self, inode: u32, tree: &Tree) -> u64
        ensures { result ≡ live_bytes_in tree.now inode self.now.index.records.items }
    {
        live_bytes_of(&self.index.records, inode, tree)
    }

    /// How many records of this sector live in the tree of all nodes; 0 where the log has no such
    /// sector. Takes no memory.
    pub fn live_in(&self, sector: u32, tree: &Tree) -> u32
        ensures known { result
            ≡ length (filter (λ k. (k.sector == sector) && holds_version tree.now k.inode k.version)
            self.now.index.records.items) }
        ensures counted { self.now.failed ≡ false
            → result ≡ live_in sector tree.now (log_records self.now) }
        ensures whole { self.now.failed ≡ false → (past : List Node) → tree.now ≡ tree_of past
            → HasHistory past self.now
            → result ≡ live_records_in sector past (log_records self.now) }
    {
        count_in(&self.index.records, sector, tree)
    }
}

/// The sum of the lengths of those records that live in the tree.
fn weight_of(records: &VecDeque<RecordRef>, tree: &Tree) -> u64
    requires { length records.now.items < 2 ^ 32 }
    ensures { result ≡ sum
        (map (λ k. k.length)
        (filter (λ k. holds_version tree.now k.inode k.version) records.now.items)) }
{
    let mut near = 0;
    let mut weight = 0u64;
    'records: for record in records.iter() {
        let is_live = tree.live_near(record.inode, record.version, &mut near);
        if is_live {
            weight += length_of(record);
        }
    }
    weight
}

/// The sum of the lengths of those records of an inode that live in the tree.
fn live_bytes_of(records: &VecDeque<RecordRef>, inode: u32, tree: &Tree) -> u64
    requires { length records.now.items < 2 ^ 32 }
    ensures { result ≡ live_bytes_in tree.now inode records.now.items }
{
    records
        .iter()
        .filter(|record| record.inode == inode && tree.live(inode, record.version))
        .map(length_of)
        .sum()
}

/// How many bytes a record takes.
fn length_of(entry: &RecordRef) -> u64
    ensures length { result ≡ entry.now.length }
    ensures short { result < 2 ^ 32 }
{
    u64::from(entry.length)
}

/// How many of the records stand in the sector and live in the tree.
pub(crate) fn count_in(records: &VecDeque<RecordRef>, sector: u32, tree: &Tree) -> u32
    requires { length records.now.items < 2 ^ 32 }
    ensures { result ≡ length
        (filter (λ k. (k.sector == sector) && holds_version tree.now k.inode k.version)
        records.now.items) }
{
    records
        .iter()
        .filter(|entry| entry.is_in(sector) && tree.live(entry.inode, entry.version))
        .count() as u32
}
