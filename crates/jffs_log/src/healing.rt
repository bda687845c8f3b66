//! A scan that ends an erase which was cut off.

ghost use Rattle.std.specs.Prelude.{◌≡◌, ◌<◌, ◌≤◌, ◌-◌, ◌&&◌, ◌==◌, true, false, nat_le, nat_lt};
ghost use Rattle.std.specs.Prelude.{IfOk, IfErr, OnOk, MatchOption, MatchResult, option_copied};
ghost use Rattle.jffs_flash.specs.Device.{Unchanged};
ghost use Rattle.jffs_flash.specs.Wear.{Wears};
ghost use Rattle.jffs_flash.specs.Sizes.{is_geometry};
ghost use Rattle.jffs_flash.specs.Image.{erased};
ghost use Rattle.jffs_log.specs.Heal.{stopped_by, is_cleared, is_damaged, was_begun, scan_in};
ghost use Rattle.jffs_log.specs.Heal.{live_found, begun_on, healed_device, erase_of, IsUnhealed};
ghost use Rattle.jffs_log.specs.Healing.{IsAsked, HasStopped, IsEnded};
ghost use Rattle.jffs_log.specs.ScanFound.{IsFound, IsMounted};
ghost use Rattle.jffs_log.specs.Shown.{restored};
ghost use Rattle.jffs_log.specs.Wear.{sector_after};

use crate::log::{Log, sector_after};
use crate::log_index::LogIndex;
use crate::scanning::{FoundLog, Mounted, ScanFault, ScanWhy, find_log};
use crate::shown::Shown;
use crate::weighing::count_in;
use jffs_flash::{DOOM_LEN, Flash, FlashFault};
use jffs_node::Why;
use std::alloc::Global;

/// What a device that was healed holds.
#[derive(Drop)]
pub struct Healed<F: Flash> {
    pub mounted: Mounted<F>,
    /// The sector whose erase was ended; `None` where none had been cut off, and nothing changed.
    pub sector: Option<u32>,
}

/// A log, and the sector that was erased for it.
#[derive(Drop)]
struct HealedLog {
    found: FoundLog,
    sector: Option<u32>,
}

/// Scans a device as [`scan`](crate::scan) does, and where that stops at a sector whose erase was
/// cut off, erases that sector.
///
/// Such a sector is the last before the log, and its first record has a closed gate and another
/// magic than a record. If that is zero whole, the sector was doomed. Else it is shown with the
/// right one: where a record of it lives then, its bytes went wrong, and the scan's refusal stands.
/// In each other case the sector is erased, if a scan finds a log without it.
///
/// A device without such a sector is read once and never written. Each refusal hands the device
/// back with the bytes that it had; its cause is as for a scan. But `Device` may also say that the
/// erase failed: then that sector may hold any bytes.
pub fn heal<F: Flash>(alloc: Global, mut flash: F) -> Result<Healed<F>, ScanFault<F>>
    ensures found { IfOk result (λ h. IsMounted (healed_device (F.device flash))
        h.mounted.log h.mounted.tree h.mounted.clean h.mounted.limits) }
    ensures sector { IfOk result (λ h. h.sector ≡ begun_on (F.device flash)) }
    ensures refused { IfErr result
        (λ f. IsUnhealed (F.device flash) f.why (F.device f.flash)) }
    ensures worn { MatchResult result
        (λ h. Wears (erase_of (begun_on (F.device flash))) 0 (F.wear flash) h.mounted.log.wear)
        (λ f. Wears (erase_of (begun_on (F.device flash))) 0 (F.wear flash) (F.wear f.flash)) }
{
    match find_healed(alloc, &mut flash) {
        Ok(HealedLog { found, sector }) => {
            let mounted = Mounted {
                log: Log {
                    flash,
                    index: found.index,
                    failed: false,
                    erase_failed: false,
                },
                tree: found.tree,
                clean: found.clean,
                limits: found.limits,
            };
            Ok(Healed { mounted, sector })
        }
        Err(why) => Err(ScanFault { why, flash }),
    }
}

/// The log of the device once an erase that was cut off is ended.
fn find_healed<F: Flash>(alloc: Global, flash: &mut F) -> Result<HealedLog, ScanWhy>
    ensures found { IfOk result (λ h. IsFound (F.device flash.old).sectors
        (F.device flash.old).sector_size (healed_device (F.device flash.old)).image
        h.found.index h.found.tree h.found.clean h.found.limits) }
    ensures sector { IfOk result (λ h. h.sector ≡ begun_on (F.device flash.old)) }
    ensures same { IfOk result
        (λ _. Unchanged (healed_device (F.device flash.old)) (F.device flash.new)) }
    ensures refused { IfErr result
        (λ why. IsUnhealed (F.device flash.old) why (F.device flash.new)) }
    ensures worn { Wears (erase_of (begun_on (F.device flash.old))) 0 (F.wear flash.old)
        (F.wear flash.new) }
{
    let why = match find_log(alloc, flash, Shown::AsTheyAre) {
        Ok(found) => {
            return Ok(HealedLog {
                found,
                sector: None,
            });
        }
        Err(why) => why,
    };
    let Some(sector) = stopped_by(&why) else {
        return Err(why);
    };
    let Some(found) = find_begun(alloc, flash, sector)? else {
        return Err(why);
    };
    flash.erase(sector)?;
    Ok(HealedLog {
        found,
        sector: Some(sector),
    })
}

/// The sector that a scan stopped at, where its first record is closed and has another magic.
fn stopped_by(why: &ScanWhy) -> Option<u32>
    ensures { result ≡ stopped_by why.now }
{
    match why {
        ScanWhy::BadRecord {
            sector,
            place: 0,
            why: Why::Magic,
        } => Some(*sector),
        _ => None,
    }
}

/// The log as it is without a sector that a scan stopped at; `None` where its erase isn't to be
/// ended. `Device` and `Memory` as a scan says them.
fn find_begun<F: Flash>(
    alloc: Global,
    flash: &mut F,
    sector: u32,
) -> Result<Option<FoundLog>, ScanWhy>
    requires { IsAsked sector (F.device flash.old) }
    ensures begun { IfOk result (λ found. MatchOption found
        (was_begun (F.device flash.old).sectors (F.device flash.old).sector_size
        (F.device flash.old).image sector ≡ false)
        (IsEnded sector (F.device flash.old))) }
    ensures same { OnOk result (Unchanged (F.device flash.old) (F.device flash.new)) }
    ensures stopped { IfErr result
        (λ why. HasStopped why (F.device flash.old) (F.device flash.new)) }
    ensures unworn { F.wear flash.new ≡ F.wear flash.old }
{
    if is_damaged(alloc, flash, sector)? {
        return Ok(None);
    }
    match find_log(alloc, flash, Shown::Erased(sector)) {
        Ok(found) => {
            if is_last_erased(&found.index, sector) {
                return Ok(Some(found));
            }
            Ok(None)
        }
        Err(ScanWhy::Device) => Err(ScanWhy::Device),
        Err(ScanWhy::Memory) => Err(ScanWhy::Memory),
        Err(_) => Ok(None),
    }
}

/// Whether the bytes of a sector that a scan stopped at went wrong: its magic isn't cleared, and
/// with the right one a record of it lives.
fn is_damaged<F: Flash>(alloc: Global, flash: &mut F, sector: u32) -> Result<bool, ScanWhy>
    requires { IsAsked sector (F.device flash.old) }
    ensures damaged { IfOk result (λ damaged. damaged
        ≡ is_damaged (F.device flash.old).sectors (F.device flash.old).sector_size
        (F.device flash.old).image sector) }
    ensures same { OnOk result (Unchanged (F.device flash.old) (F.device flash.new)) }
    ensures stopped { IfErr result
        (λ why. HasStopped why (F.device flash.old) (F.device flash.new)) }
    ensures unworn { F.wear flash.new ≡ F.wear flash.old }
{
    if is_cleared(flash, sector)? {
        return Ok(false);
    }
    has_live(alloc, flash, sector)
}

/// Whether the first bytes of a sector are cleared whole.
fn is_cleared<F: Flash>(flash: &mut F, sector: u32) -> Result<bool, ScanWhy>
    requires { IsAsked sector (F.device flash.old) }
    ensures cleared { IfOk result (λ cleared. cleared
        ≡ is_cleared (F.device flash.old).sector_size sector (F.device flash.old).image) }
    ensures same { OnOk result (Unchanged (F.device flash.old) (F.device flash.new)) }
    ensures stopped { IfErr result
        (λ why. HasStopped why (F.device flash.old) (F.device flash.new)) }
    ensures unworn { F.wear flash.new ≡ F.wear flash.old }
{
    let mut begin = [0; DOOM_LEN];
    let size = flash.sector_size();
    // Brings in that the image has the bytes of the sectors.
    let _sectors = flash.sectors();
    flash.read(sector * size, &mut begin)?;
    Ok(begin.iter().all(|byte| *byte == 0))
}

/// Whether a record of the sector lives, as a scan finds it that is shown the right magic there.
fn has_live<F: Flash>(alloc: Global, flash: &mut F, sector: u32) -> Result<bool, ScanWhy>
    requires { IsAsked sector (F.device flash.old) }
    ensures live { IfOk result (λ live. live ≡ nat_lt 0 (live_found sector
        (scan_in (F.device flash.old).sectors (F.device flash.old).sector_size
        (restored (F.device flash.old).sector_size sector (F.device flash.old).image)))) }
    ensures same { OnOk result (Unchanged (F.device flash.old) (F.device flash.new)) }
    ensures stopped { IfErr result
        (λ why. HasStopped why (F.device flash.old) (F.device flash.new)) }
    ensures unworn { F.wear flash.new ≡ F.wear flash.old }
{
    match find_log(alloc, flash, Shown::Restored(sector)) {
        Ok(found) => Ok(count_in(&found.index.records, sector, &found.tree) > 0),
        Err(ScanWhy::Device) => Err(ScanWhy::Device),
        Err(ScanWhy::Memory) => Err(ScanWhy::Memory),
        Err(_) => Ok(false),
    }
}

/// Whether the log begins after that sector, and another sector is erased besides it.
fn is_last_erased(index: &LogIndex, sector: u32) -> bool
    requires { index.now.held ≤ index.now.sectors }
    ensures { result ≡ (nat_le 2 (index.now.sectors - index.now.held)
        && nat_lt (index.now.sectors - index.now.held) index.now.sectors
        && index.now.first == sector_after index.now.sectors sector) }
{
    let erased = index.sectors - index.held;
    erased >= 2 && erased < index.sectors && index.first == sector_after(sector, index.sectors)
}
