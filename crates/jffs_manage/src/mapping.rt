//! What each sector of a volume holds.

ghost use Rattle.std.specs.Prelude.{◌≡◌, ◌-◌, ◌<◌, ◌^◌, false, length};
ghost use Rattle.jffs_log.specs.LogIndex.{weight_in, log_in};
ghost use Rattle.jffs_manage.specs.Weights.{recorded_in};

use jffs_core::Core;
use jffs_flash::Flash;
use jffs_log::{Log, RecordRef};
use std::alloc::{AllocFailed, Global};
use std::collections::VecDeque;

/// How many cells a sector has.
pub(crate) const CELLS: usize = 64;

/// What a byte of a sector holds. Of the bytes of a cell the first in this order is shown.
#[derive(Clone, Copy, PartialEq, Eq)]
pub(crate) enum MapCell {
    /// A byte of a live record.
    Live,
    /// A byte of another record.
    Dead,
    /// No byte of a record, and none can stand there before the sector is erased.
    Unused,
    /// No byte of a record, but the next ones may stand there.
    Erased,
}

/// What a sector is in the log.
#[derive(Clone, Copy)]
pub(crate) enum Part {
    /// The one that was begun last, where the next record goes.
    Tail,
    /// The one that is erased next.
    Next,
    /// Any other.
    Other,
}

/// A sector, as it is drawn.
#[derive(Clone, Copy)]
pub(crate) struct Row {
    pub sector: u32,
    pub part: Part,
    pub cells: [MapCell; CELLS],
}

/// How many bytes of a volume hold what.
#[derive(Clone, Copy)]
pub(crate) struct MapTotals {
    pub live: u64,
    pub dead: u64,
    pub unused: u64,
    pub erased: u64,
}

/// What the sectors of a volume hold.
#[derive(Drop)]
pub(crate) struct Map {
    /// How many bytes a cell stands for.
    pub cell_len: u32,
    pub rows: Vec<Row>,
    pub totals: MapTotals,
}

/// The sector that was begun last.
#[derive(Clone, Copy)]
struct MapTail {
    sector: u32,
    /// How many bytes after its records are erased; none where a write was cut off there.
    free: u32,
}

/// What the sectors of a volume hold. The error: allocation failed.
pub(crate) fn map_of<F: Flash>(alloc: Global, core: &Core<F>) -> Result<Map, AllocFailed<Row>> {
    let log = core.log();
    let cell_len = (log.sector_size() / CELLS as u32).max(1);
    let tail = tail_of(log);
    let mut rows = Vec::new(alloc);
    for sector in 0..log.sectors() {
        let mut cells = [rest_of(log, sector, tail); CELLS];
        paint(core, sector, cell_len, &mut cells);
        rows.push(Row {
            sector,
            part: part_of(log, sector, tail),
            cells,
        })?;
    }
    Ok(Map {
        cell_len,
        rows,
        totals: totals_of(core, tail),
    })
}

/// The tail of a log; `None` where it has no sector.
fn tail_of<F: Flash>(log: &Log<F>) -> Option<MapTail> {
    let sector = log.tail()?;
    Some(MapTail {
        sector,
        free: log.free(),
    })
}

/// Whether a sector holds a part of the log.
fn is_held<F: Flash>(log: &Log<F>, sector: u32) -> bool {
    let ahead = if sector < log.oldest() {
        log.sectors()
    } else {
        0
    };
    sector.saturating_add(ahead).saturating_sub(log.oldest()) < log.held()
}

/// What stands in a sector after its records.
fn rest_of<F: Flash>(log: &Log<F>, sector: u32, tail: Option<MapTail>) -> MapCell {
    match tail {
        Some(tail) if tail.sector == sector && tail.free > 0 => MapCell::Erased,
        _ if is_held(log, sector) => MapCell::Unused,
        _ => MapCell::Erased,
    }
}

/// What a sector is in the log.
fn part_of<F: Flash>(log: &Log<F>, sector: u32, tail: Option<MapTail>) -> Part {
    match tail {
        Some(tail) if tail.sector == sector => Part::Tail,
        Some(_) if log.oldest() == sector => Part::Next,
        _ => Part::Other,
    }
}

/// Sets the cells of a sector in which its records stand.
fn paint<F: Flash>(core: &Core<F>, sector: u32, cell_len: u32, cells: &mut [MapCell; CELLS]) {
    let cell_len = cell_len.max(1);
    for record in core.log().records().iter() {
        if u32::from(record.sector) != sector {
            continue;
        }
        let live = core.tree().live(record.inode, record.version);
        let start = u32::from(record.offset);
        let end = start
            .saturating_add(u32::from(record.length))
            .div_ceil(cell_len);
        for at in start / cell_len..end {
            match cells.get_mut(at as usize) {
                Some(cell) if live => *cell = MapCell::Live,
                Some(cell) if *cell != MapCell::Live => *cell = MapCell::Dead,
                _ => {}
            }
        }
    }
}

/// How many bytes hold what.
fn totals_of<F: Flash>(core: &Core<F>, tail: Option<MapTail>) -> MapTotals
    ensures live { core.now.failed ≡ false
        → result.live ≡ weight_in core.now.tree (log_in core.now.image core.now.index) }
    ensures dead { length core.now.index.records.items < 2 ^ 32
        → result.dead ≡ recorded_in core.now.index.records.items - result.live }
{
    let log = core.log();
    let size = u64::from(log.sector_size());
    let free = match tail {
        Some(tail) => tail.free,
        None => 0,
    };
    let live = log.live_weight(core.tree());
    let dead = recorded(log.records()).saturating_sub(live);
    let erased = u64::from(log.erased())
        .saturating_mul(size)
        .saturating_add(u64::from(free));
    let whole = u64::from(log.sectors()).saturating_mul(size);
    MapTotals {
        live,
        dead,
        unused: whole
            .saturating_sub(live)
            .saturating_sub(dead)
            .saturating_sub(erased),
        erased,
    }
}

/// The lengths of all records together, in bytes. No log has 2^32 records.
fn recorded(records: &VecDeque<RecordRef>) -> u64
    ensures { length records.now.items < 2 ^ 32 → result ≡ recorded_in records.now.items }
{
    if records.len() <= u32::MAX as usize {
        sum_of_all(records)
    } else {
        u64::MAX
    }
}

fn sum_of_all(records: &VecDeque<RecordRef>) -> u64
    requires { length records.now.items < 2 ^ 32 }
    ensures { result ≡ recorded_in records.now.items }
{
    records.iter().map(|record| u64::from(record.length)).sum()
}
