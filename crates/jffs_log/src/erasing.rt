//! How the oldest sector is erased.

ghost use Rattle.std.specs.Prelude.{◌≡◌, ◌≤◌, false, OnOk, IfErr};
ghost use Rattle.jffs_log.specs.LogIndex.{from_other};

use crate::log::{Log, failure, sector_after};
use crate::log_index::RecordRef;
use jffs_flash::Flash;
use jffs_tree::{Cause, Tree};
use std::collections::VecDeque;

impl<F: Flash> Log<F> {
    ghost use Rattle.jffs_log.specs.LogState.{OldestIsDead, ErasedOldest, EraseFailed, WearsOldest};

    /// Erases the sector that was begun first, with one call of the device. The call counts in
    /// `erases`, failed or not. Takes no memory.
    /// Precondition: no call of the device failed, the sector isn't the tail, and none of its
    /// records lives in the tree of all nodes.
    ///
    /// `Device` if the erase failed: that sector may hold any bytes, each other holds what it held,
    /// and the log is failed from then on. A scan that [heals](crate::heal) finds the log where the
    /// device dooms what it erases.
    pub fn erase_oldest(&mut self, tree: &Tree) -> Result<(), Cause>
        requires working { self.old.failed ≡ false }
        requires several { 2 ≤ self.old.index.held }
        requires dead { OldestIsDead tree.now self.old }
        ensures done { OnOk result (ErasedOldest tree.now self.old self.new) }
        ensures failed { IfErr result (λ cause. EraseFailed tree.now cause self.old self.new) }
        ensures worn { WearsOldest self.old self.new }
        ensures unread { self.new.reads_left ≡ self.old.reads_left }
    {
        let index = &mut self.index;
        index.erases = index.erases.saturating_add(1);
        match self.flash.erase(index.first) {
            Ok(()) => {
                forget_sector(&mut index.records, index.first);
                index.first = sector_after(index.first, index.sectors);
                index.held -= 1;
                Ok(())
            }
            Err(fault) => {
                self.erase_failed = true;
                Err(failure(&mut self.failed, fault))
            }
        }
    }
}

/// Takes the records away that stand before the first one of another sector.
fn forget_sector(records: &mut VecDeque<RecordRef>, sector: u32)
    ensures { records.new.items ≡ from_other sector records.old.items }
{
    while let Some(entry) = records.front() {
        if !entry.is_in(sector) {
            break;
        }
        records.pop_front();
    }
}
