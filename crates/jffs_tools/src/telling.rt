//! What is printed of a core.

ghost use Rattle.std.specs.Prelude.{◌≡◌, ◌+◌, ◌*◌, ◌++◌, ◌∷◌, [], List};
ghost use Rattle.jffs_log.specs.declared.log_index.RecordRef.{RecordRef};
ghost use Rattle.jffs_tools.specs.Telling.{offset_of, totals_unless, count_given as given_before};
ghost use Rattle.jffs_tools.specs.Telling.{did_of, own_records as own_of};

use crate::did::{Did, Totals};
use jffs_core::Core;
use jffs_flash::FuseFlash;
use jffs_tree::Outcome;

/// What stands in a core; None where it failed.
pub(crate) fn totals(core: &Core<FuseFlash>) -> Option<Totals>
    ensures { result ≡ totals_unless core.now.failed core.now }
{
    if core.failed() {
        return None;
    }
    let log = core.log();
    Some(Totals {
        erased: log.erased(),
        erases: log.erases(),
        weight: log.live_weight(core.tree()),
        limits: core.limits(),
    })
}

/// How many versions there are: all that fit 32 bits, and 0.
const VERSIONS: u64 = 1 << 32;

/// The version that comes next; after the last one, how many there are. Each record takes one, so
/// the difference of two such numbers is how many were appended between.
pub(crate) fn count_given(core: &Core<FuseFlash>) -> u64
    ensures { result ≡ given_before core.now.limits.next_version }
{
    match core.limits().next_version {
        Some(version) => u64::from(version),
        None => VERSIONS,
    }
}

/// How many of the records that a request appended are its own, and no copies.
pub(crate) fn own_records(outcome: Outcome, appended: u64) -> u64
    ensures { result ≡ own_of outcome appended }
{
    match outcome {
        Outcome::Refused(_) => 0,
        _ => u64::from(appended != 0),
    }
}

/// What a request did that appended `appended` records, the newest of which begins at byte `at` of
/// the image.
pub(crate) fn did(outcome: Outcome, appended: u64, at: u64) -> Did
    ensures { result ≡ did_of outcome appended at }
{
    match outcome {
        Outcome::Appended { inode, version } => Did::Appended { inode, version, at },
        Outcome::Copied { version } => Did::Copied { version, at },
        Outcome::Closed => {
            if appended == 0 {
                Did::Closed
            } else {
                Did::ClosedAt(at)
            }
        }
        Outcome::Refused(cause) => Did::Refused(cause),
    }
}

/// The byte of the image at which the newest record begins; 0 where there is none.
pub(crate) fn last_offset(core: &Core<FuseFlash>) -> u64
    ensures { (before : List RecordRef) (k : RecordRef)
        → core.now.index.records.items ≡ before ++ (k ∷ [])
        → result ≡ offset_of core.now.index.sector_size k }
{
    let log = core.log();
    match log.records().back() {
        Some(entry) => offset_in_image(
            u32::from(entry.sector),
            log.sector_size(),
            u32::from(entry.offset),
        ),
        None => 0,
    }
}

/// The byte of the image at which an offset in a sector stands.
fn offset_in_image(sector: u32, sector_size: u32, offset: u32) -> u64
    ensures { result ≡ sector * sector_size + offset }
{
    let begin = u64::from(sector) * u64::from(sector_size);
    begin + u64::from(offset)
}
