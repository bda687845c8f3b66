//! The sector that was begun first.

ghost use Rattle.std.specs.Prelude.{◌≡◌, ◌<◌, ◌≤◌, ◌/◌, ◌↔◌, ◌==◌, false, length, get_or, IsTrue};
ghost use Rattle.std.specs.Prelude.{IfOk, OnOk, IfErr};
ghost use Rattle.std.specs.List.{take_while};
ghost use Rattle.jffs_tree.specs.Decide.{source_of};
ghost use Rattle.jffs_log.specs.Image.{nodes_of};

use crate::log::{Log, failure};
use crate::log_index::RecordRef;
use crate::sector::RECORDS_PER_SECTOR;
use jffs_flash::{ERASED_BYTE, Flash};
use jffs_tree::{Cause, CopySource, Tree};
use std::alloc::Global;
use std::collections::VecDeque;

impl<F: Flash> Log<F> {
    ghost use Rattle.jffs_node.specs.declared.node.Node.{Node};
    ghost use Rattle.jffs_log.specs.LogIndex.{oldest_in};
    ghost use Rattle.jffs_log.specs.LogState.{OldestIsDead, SameButReads, ReadStopped};
    ghost use Rattle.jffs_log.specs.Volume.{sector_bytes};

    /// How many sectors the device has.
    pub fn sectors(&self) -> u32
        ensures { result ≡ self.now.index.sectors }
    {
        self.index.sectors
    }

    /// How many bytes a sector has.
    pub fn sector_size(&self) -> u32
        ensures { result ≡ self.now.index.sector_size }
    {
        self.index.sector_size
    }

    /// How many sectors hold the log.
    pub fn held(&self) -> u32
        ensures { result ≡ self.now.index.held }
    {
        self.index.held
    }

    /// The number of the sector that was begun first.
    pub fn oldest(&self) -> u32
        ensures { result ≡ self.now.index.first }
    {
        self.index.first
    }

    /// The longest record, in bytes: a quarter of a sector.
    pub fn record_max(&self) -> u32
        ensures { result ≡ self.now.index.sector_size / RECORDS_PER_SECTOR }
    {
        self.index.sector_size / RECORDS_PER_SECTOR
    }

    /// Whether the oldest sector may be erased: it isn't the tail, and none of its records lives in
    /// the tree of all nodes. Takes no memory, and asks the tree once for a range of versions, not
    /// for each record. Precondition: no call of the device failed.
    pub fn oldest_dead(&self, tree: &Tree) -> bool
        requires working { self.now.failed ≡ false }
        ensures { IsTrue result ↔ ((2 ≤ self.now.index.held) × OldestIsDead tree.now self.now) }
    {
        self.index.held >= 2 && self.oldest_has_no_live(tree)
    }

    /// The bytes of the sector that was begun first. Precondition: no call of the device failed,
    /// and the log has a sector.
    ///
    /// `Memory` if allocation failed: nothing is changed. `Device` if the read failed: no byte is
    /// changed, and the log is failed from then on.
    pub fn oldest_image(&mut self, alloc: Global) -> Result<Vec<u8>, Cause>
        requires working { self.old.failed ≡ false }
        requires some { 1 ≤ self.old.index.held }
        ensures bytes { IfOk result
            (λ bytes. bytes.items
            ≡ sector_bytes self.old.index.sector_size self.old.index.first
            self.old.device.image) }
        ensures same { OnOk result (SameButReads self.old self.new) }
        ensures stopped { IfErr result (λ cause. ReadStopped cause self.old self.new) }
    {
        let sector_size = self.index.sector_size;
        let mut bytes = vec![in alloc; ERASED_BYTE; sector_size as usize]?;
        match self.flash.read(self.index.first * sector_size, &mut bytes) {
            Ok(()) => Ok(bytes),
            Err(fault) => Err(failure(&mut self.failed, fault)),
        }
    }

    /// How many records stand in the sector that was begun first. Takes no memory. Precondition: no
    /// call of the device failed.
    pub fn oldest_count(&self) -> usize
        requires working { self.now.failed ≡ false }
        ensures { result ≡ length (oldest_in self.now.device.image self.now.index) }
    {
        count_of(&self.index.records, self.index.first)
    }

    /// What cleaning knows of a record of the sector that was begun first, by its number there.
    /// Takes no memory, and reads nothing of the device. Preconditions: no call of the device
    /// failed, and the sector has that record.
    pub fn oldest_source(&self, at: usize) -> CopySource
        requires working { self.now.failed ≡ false }
        requires inside { at < length (oldest_in self.now.device.image self.now.index) }
        ensures { (none : Node) → result
            ≡ source_of
            (get_or (nodes_of (oldest_in self.now.device.image self.now.index)) at none) }
    {
        let Some(entry) = self.index.records.get(at) else {
            unreachable!()
        };
        entry.source()
    }
}

/// How many records stand before the first one of another sector.
fn count_of(records: &VecDeque<RecordRef>, sector: u32) -> usize
    ensures { result ≡ length (take_while (λ k. k.sector == sector) records.now.items) }
{
    records
        .iter()
        .take_while(|entry| entry.is_in(sector))
        .count()
}
