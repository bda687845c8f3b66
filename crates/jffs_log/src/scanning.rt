//! A scan of a whole image.

ghost use Rattle.std.specs.Prelude.{◌≡◌, IfOk, IfErr, MatchResult};
ghost use Rattle.jffs_flash.specs.Device.{Unchanged};
ghost use Rattle.jffs_flash.specs.ReadsLeft.{FailsWhereSpent};
ghost use Rattle.jffs_log.specs.ScanFound.{IsFound, IsMounted, IsRefused, IsUnfound};
ghost use Rattle.jffs_log.specs.Shown.{IsAmong, shown_image};

use crate::folding::{GreatestNumbers, tree_of_log};
use crate::log::Log;
use crate::log_index::LogIndex;
use crate::log_sectors::{Tail, is_clean, keep_log, list_records, oldest, read_sectors};
use crate::shown::Shown;
use jffs_flash::{Flash, FlashFault, is_geometry};
use jffs_node::{NoMemory, Why};
use jffs_tree::{Limits, Tree};
use std::alloc::{AllocError, AllocFailed, Global};
use thiserror::Error;

/// Why an image is refused, in the order in which the reasons are tried. Reads that fail
/// (`Device`) and failed allocations (`Memory`) may come at any step.
#[derive(Clone, Copy, Debug, PartialEq, Eq, Error)]
pub enum ScanWhy {
    /// The device has sizes that no volume has.
    #[error("no volume has these sizes")]
    Geometry,
    /// A read failed.
    #[error("the flash failed")]
    Device,
    /// A closed record breaks a rule; `place` is its offset, from the sector's start.
    #[error("the record at byte {place} of sector {sector} is bad: {why:?}")]
    BadRecord { sector: u32, place: u32, why: Why },
    /// No sector is erased.
    #[error("no sector is erased")]
    NoErased,
    /// The erased sectors are more than one run of the ring.
    #[error("the erased sectors are scattered")]
    Scattered,
    /// Somewhere in the log a record has a version no greater than its forerunner's.
    #[error("the versions of the log don't rise")]
    BadOrder,
    /// The nodes of the log make no lawful tree.
    #[error("the nodes of the log make no tree")]
    BadTree,
    /// Allocation failed.
    #[error("memory was refused")]
    Memory,
}

impl From<NoMemory> for ScanWhy {
    ghost use Rattle.jffs_log.specs.declared.scanning.ScanWhy.TheVariants.{Memory};

    ghost from_gives = { λ _ why. why ≡ Memory };

    fn from(_: NoMemory) -> ScanWhy {
        ScanWhy::Memory
    }
}

impl From<AllocError> for ScanWhy {
    ghost use Rattle.jffs_log.specs.declared.scanning.ScanWhy.TheVariants.{Memory};

    ghost from_gives = { λ _ why. why ≡ Memory };

    fn from(_: AllocError) -> ScanWhy {
        ScanWhy::Memory
    }
}

impl<T: Drop> From<AllocFailed<T>> for ScanWhy {
    ghost use Rattle.jffs_log.specs.declared.scanning.ScanWhy.TheVariants.{Memory};

    ghost from_gives = { λ _ why. why ≡ Memory };

    fn from(_: AllocFailed<T>) -> ScanWhy {
        ScanWhy::Memory
    }
}

impl From<FlashFault> for ScanWhy {
    ghost use Rattle.jffs_log.specs.declared.scanning.ScanWhy.TheVariants.{Device};

    ghost from_gives = { λ _ why. why ≡ Device };

    fn from(_: FlashFault) -> ScanWhy {
        ScanWhy::Device
    }
}

/// What a scan finds on a device.
#[derive(Drop)]
pub struct Mounted<F: Flash> {
    pub log: Log<F>,
    /// The tree that all nodes of the log make.
    pub tree: Tree,
    /// Whether the log ends with an unmount node, and nothing was programmed after it.
    pub clean: bool,
    /// The longest data of a node, and the numbers that come next.
    pub limits: Limits,
}

/// A refused scan, with the device.
#[derive(Debug, Drop, Error)]
#[error("{why}")]
pub struct ScanFault<F> {
    pub why: ScanWhy,
    pub flash: F,
}

/// Scans a device, whatever it holds. It is read, each sector once, and never written.
///
/// Each refusal hands the device back. Its cause is in the image and none that is tried before it
/// is, but for `Device`, where a read failed, and `Memory`, where allocation failed. No read fails
/// on a device each of whose bytes can be read once more.
pub fn scan<F: Flash>(alloc: Global, mut flash: F) -> Result<Mounted<F>, ScanFault<F>>
    ensures found { IfOk result (λ m. IsMounted (F.device flash) m.log m.tree m.clean m.limits) }
    ensures refused { IfErr result (λ f. IsRefused (F.device flash) f.why (F.device f.flash)) }
    ensures once { IfErr result
        (λ f. FailsWhereSpent (F.reads_left flash) (F.device flash) (F.device f.flash)) }
    ensures unworn { MatchResult result (λ m. m.log.wear ≡ F.wear flash)
        (λ f. F.wear f.flash ≡ F.wear flash) }
{
    match find_log(alloc, &mut flash, Shown::AsTheyAre) {
        Ok(found) => Ok(Mounted {
            log: Log {
                flash,
                index: found.index,
                failed: false,
                erase_failed: false,
            },
            tree: found.tree,
            clean: found.clean,
            limits: found.limits,
        }),
        Err(why) => Err(ScanFault { why, flash }),
    }
}

/// What a scan finds, apart from the device.
#[derive(Drop)]
pub(crate) struct FoundLog {
    pub(crate) index: LogIndex,
    pub(crate) tree: Tree,
    pub(crate) clean: bool,
    pub(crate) limits: Limits,
}

/// The steps of a scan of what is shown, in the order of its refusals.
pub(crate) fn find_log<F: Flash>(
    alloc: Global,
    flash: &mut F,
    shown: Shown,
) -> Result<FoundLog, ScanWhy>
    requires { IsAmong shown (F.device flash.old).sectors }
    ensures found { IfOk result
        (λ found. IsFound (F.device flash.old).sectors (F.device flash.old).sector_size
        (shown_image shown (F.device flash.old).sector_size (F.device flash.old).image)
        found.index found.tree found.clean found.limits) }
    ensures same { IfOk result (λ _. Unchanged (F.device flash.old) (F.device flash.new)) }
    ensures refused { IfErr result
        (λ why. IsUnfound shown (F.device flash.old) why (F.device flash.new)) }
    ensures once { FailsWhereSpent (F.reads_left flash.old)
        (F.device flash.old) (F.device flash.new) }
    ensures unworn { F.wear flash.new ≡ F.wear flash.old }
{
    let sectors = flash.sectors();
    let sector_size = flash.sector_size();
    if !is_geometry(sectors, sector_size) {
        return Err(ScanWhy::Geometry);
    }
    let mut held = read_sectors(alloc, flash, sectors, sector_size, shown)?;
    let first = oldest(&held)?;
    keep_log(&mut held, first);
    let many = held.len() as u32;
    let tail = Tail::of(&held, sector_size);
    let clean = is_clean(&held);
    let records = list_records(alloc, &held)?;
    let numbers = GreatestNumbers::of(&held)?;
    let tree = tree_of_log(alloc, &held)?;
    let index = LogIndex {
        sectors,
        sector_size,
        first: first as u32,
        held: many,
        tail: tail.sector,
        used: tail.used,
        free: tail.free,
        erases: 0,
        records,
    };
    Ok(FoundLog {
        index,
        tree,
        clean,
        limits: numbers.limits(sector_size),
    })
}
