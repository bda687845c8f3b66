//! The sectors of an image, and the log among them.

ghost use Rattle.std.specs.Prelude.{◌≡◌, ℕ, List, ◌+◌, ◌*◌, ◌<◌, ◌≤◌, ◌^◌, true, not, ◌++◌, None};
ghost use Rattle.std.specs.Prelude.{option_copied, length, map, filter, flat_map, IfOk, IfErr};
ghost use Rattle.std.specs.List.{list_any, last_or, AllByRecursion};
ghost use Rattle.jffs_flash.specs.Device.{Unchanged};
ghost use Rattle.jffs_flash.specs.ReadsLeft.{FailsWhereSpent};
ghost use Rattle.jffs_log.specs.Image.{Sector, sector_of, records_in, turned, is_erased_option};
ghost use Rattle.jffs_log.specs.Image.{free_of_tail, free_in as free_bytes, is_free as ends_free};
ghost use Rattle.jffs_log.specs.Image.{is_clean_tail, ends_with_unmount as unmounted};
ghost use Rattle.jffs_log.specs.Volume.{sectors_in, sector_bytes};
ghost use Rattle.jffs_log.specs.Scan.{first_bad};
ghost use Rattle.jffs_log.specs.LogIndex.{ref_of};
ghost use Rattle.jffs_log.specs.ScanRead.{oldest_sector, AreRead, HasRead, IsUnread, bad_in};
ghost use Rattle.jffs_log.specs.ScanRead.{number_of_tail, used_of_tail};
ghost use Rattle.jffs_log.specs.ScanRead.{IsReadOnce, IsSmall};
ghost use Rattle.jffs_log.specs.Shown.{IsAmong, shown_image, shown_bytes};

use crate::log_index::RecordRef;
use crate::scanning::ScanWhy;
use crate::sector::{SectorRead, read_sector};
use crate::shown::Shown;
use jffs_flash::Flash;
use jffs_node::{Node, Read};
use std::alloc::{AllocError, Global};
use std::collections::VecDeque;

/// Reads each sector once, from the first one on, into one buffer, and sees it as is asked.
pub(crate) fn read_sectors<F: Flash>(
    alloc: Global,
    flash: &mut F,
    sectors: u32,
    sector_size: u32,
    shown: Shown,
) -> Result<Vec<SectorRead>, ScanWhy>
    requires sizes { (sectors * sector_size < 2 ^ 32) × (4 ≤ sector_size)
        × (length (F.device flash.old).image ≡ sectors * sector_size) }
    requires among { IsAmong shown sectors }
    ensures read { IfOk result (λ found. AreRead sectors sector_size
        (shown_image shown sector_size (F.device flash.old).image) found.items) }
    ensures same { IfOk result (λ _. Unchanged (F.device flash.old) (F.device flash.new)) }
    ensures refused { IfErr result (λ why. IsUnread why (F.device flash.old) (F.device flash.new)
        (first_bad 0 (sectors_in sectors sector_size
        (shown_image shown sector_size (F.device flash.old).image)))) }
    ensures once { 1 ≤ sector_size
        → FailsWhereSpent (F.reads_left flash.old) (F.device flash.old) (F.device flash.new) }
    ensures unworn { F.wear flash.new ≡ F.wear flash.old }
{
    let mut found = Vec::new(alloc);
    let mut buffer = vec![in alloc; 0u8; sector_size as usize]?;
    for sector in 0..sectors {
        let read = read_one(alloc, flash, sector, &mut buffer, shown)?;
        found.push(read)?;
    }
    Ok(found)
}

/// Reads a sector as long as the buffer, once, and refuses a bad record in what is shown of it.
fn read_one<F: Flash>(
    alloc: Global,
    flash: &mut F,
    sector: u32,
    buffer: &mut [u8],
    shown: Shown,
) -> Result<SectorRead, ScanWhy>
    requires { (sector * length buffer.old + length buffer.old
        ≤ length (F.device flash.old).image)
        × (sector * length buffer.old + length buffer.old < 2 ^ 32)
        × (4 ≤ length buffer.old) }
    ensures read { IfOk result
        (λ s. (HasRead s sector (shown_bytes shown sector
        (sector_bytes (length buffer.old) sector (F.device flash.old).image)))
        × Unchanged (F.device flash.old) (F.device flash.new)) }
    ensures refused { IfErr result (λ why. IsUnread why (F.device flash.old) (F.device flash.new)
        (bad_in (
          sector,
          sector_of (shown_bytes shown sector
              (sector_bytes (length buffer.old) sector (F.device flash.old).image)),
        ))) }
    ensures length { length buffer.new ≡ length buffer.old }
    ensures once { IsReadOnce (sector * length buffer.old) (length buffer.old) (F.device flash.old)
        (F.device flash.new) (F.reads_left flash.old) (F.reads_left flash.new) }
    ensures unworn { F.wear flash.new ≡ F.wear flash.old }
{
    let len = buffer.len() as u32;
    flash.read(sector * len, buffer)?;
    shown.show(sector, buffer);
    let read = read_sector(alloc, sector, buffer)?;
    match bad_record(&read) {
        Some(why) => Err(why),
        None => Ok(read),
    }
}

/// The bad record that follows the others, where there is one.
fn bad_record(read: &SectorRead) -> Option<ScanWhy>
    ensures { result ≡ bad_in read.now }
{
    match read.ending() {
        Read::Bad(why) => Some(ScanWhy::BadRecord {
            sector: read.number(),
            place: read.used(),
            why: *why,
        }),
        _ => None,
    }
}

/// Which sector, in this list, holds the oldest records: the one after the run of erased ones,
/// or the first where all are erased.
pub(crate) fn oldest(found: &[SectorRead]) -> Result<usize, ScanWhy>
    ensures { result ≡ oldest_sector (map (λ s. s.1) found.now) }
{
    if !has_erased(found) {
        return Err(ScanWhy::NoErased);
    }
    let mut was_erased = ends_erased(found);
    let mut first = None;
    for (k, sector) in found.iter().enumerate() {
        if was_erased && !sector.is_erased() {
            if first.is_some() {
                return Err(ScanWhy::Scattered);
            }
            first = Some(k);
        }
        was_erased = sector.is_erased();
    }
    Ok(first.unwrap_or(0))
}

fn has_erased(found: &[SectorRead]) -> bool
    ensures { result ≡ list_any (λ s. s.erased) (map (λ s. s.1) found.now) }
{
    for sector in found {
        if sector.is_erased() {
            return true;
        }
    }
    false
}

/// Whether the last sector is erased.
fn ends_erased(found: &[SectorRead]) -> bool
    ensures { result ≡ is_erased_option (last_or None (map (λ s. s.1) found.now)) }
{
    match last_of(found) {
        Some(last) => last.is_erased(),
        None => false,
    }
}

fn last_of(found: &[SectorRead]) -> Option<&SectorRead>
    ensures { option_copied result ≡ last_or None found.now }
{
    found.last()
}

/// Keeps the sectors of the log, the oldest first.
pub(crate) fn keep_log(found: &mut Vec<SectorRead>, first: usize)
    requires inside { first ≤ length found.old.items }
    requires ring { (rest : List (ℕ × Sector))
        × (turned first found.old.items
        ≡ filter (λ s. not s.1.erased) (turned first found.old.items) ++ rest) }
    ensures { found.new.items ≡ filter (λ s. not s.1.erased) (turned first found.old.items) }
{
    found.rotate_left(first);
    let many = count_held(found);
    found.truncate(many);
}

/// How many sectors aren't erased.
fn count_held(found: &[SectorRead]) -> usize
    ensures { result ≡ length (filter (λ s. not s.1.erased) found.now) }
{
    let mut many = 0;
    for sector in found {
        if !sector.is_erased() {
            many += 1;
        }
    }
    many
}

/// The sector that was begun last.
#[derive(Clone, Copy)]
pub(crate) struct Tail {
    pub(crate) sector: u32,
    /// The bytes that its records take.
    pub(crate) used: u32,
    /// The erased bytes after them; none where a write was cut off there.
    pub(crate) free: u32,
}

impl Tail {
    /// The last of the sectors; where there is none, nothing is free.
    pub(crate) fn of(held: &[SectorRead], sector_size: u32) -> Tail
        ensures sector { result.sector ≡ number_of_tail (last_or None held.now) }
        ensures used { result.used ≡ used_of_tail (last_or None held.now) }
        ensures free { result.free ≡ free_of_tail sector_size (last_or None held.now) }
    {
        match last_of(held) {
            None => Tail {
                sector: 0,
                used: 0,
                free: 0,
            },
            Some(last) => Tail {
                sector: last.number(),
                used: last.used(),
                free: free_in(last, sector_size),
            },
        }
    }
}

/// The bytes that are free in a sector.
fn free_in(sector: &SectorRead, sector_size: u32) -> u32
    ensures { result ≡ free_bytes sector_size sector.now.1.reading }
{
    if is_free(sector.ending()) {
        sector_size.saturating_sub(sector.used())
    } else {
        0
    }
}

fn is_free(ending: &Read) -> bool
    ensures { result ≡ ends_free ending.now }
{
    matches!(ending, Read::Free)
}

/// Whether the log ends with an unmount node, and nothing was programmed after it.
pub(crate) fn is_clean(held: &[SectorRead]) -> bool
    ensures { result ≡ is_clean_tail (last_or None held.now) }
{
    match last_of(held) {
        None => false,
        Some(last) => ends_with_unmount(last.nodes()) && is_free(last.ending()),
    }
}

fn ends_with_unmount(nodes: &[Node]) -> bool
    ensures { result ≡ unmounted nodes.now }
{
    match nodes.last() {
        None => false,
        Some(node) => node.kind.is_unmount(),
    }
}

/// What is kept of the records of the log, the oldest first.
pub(crate) fn list_records(
    alloc: Global,
    held: &[SectorRead],
) -> Result<VecDeque<RecordRef>, AllocError>
    requires { AllByRecursion IsSmall held.now }
    ensures { IfOk result (λ records. records.items ≡ map ref_of (flat_map records_in held.now)) }
{
    let mut records = VecDeque::new(alloc);
    for sector in held {
        sector.list_records(&mut records)?;
    }
    Ok(records)
}
