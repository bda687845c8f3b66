//! Whether the oldest sector holds no live record.

ghost use Rattle.std.specs.Prelude.{◌≡◌, ◌<◌, ◌==◌, ◌&&◌, ◌↔◌, true, false, not, nat_le, length};
ghost use Rattle.std.specs.Prelude.{slice_index_or, nat_lt, Contains, IsTrue, IfSome};
ghost use Rattle.std.specs.Option.{option_map_or};
ghost use Rattle.std.specs.List.{list_all, take_while};
ghost use Rattle.jffs_tree.specs.Look.{holds_version};
ghost use Rattle.jffs_log.specs.declared.log_index.RecordRef.{RecordRef as RefValue};

use crate::log::Log;
use crate::log_index::RecordRef;
use jffs_flash::Flash;
use jffs_tree::Tree;
use std::collections::VecDeque;

impl<F: Flash> Log<F> {
    ghost use Rattle.jffs_log.specs.LogState.{OldestIsDead};

    /// Whether no record of the sector that was begun first lives in the tree of all nodes.
    ///
    /// One question to the tree settles it: which is the least live version from that of the
    /// sector's first record on? Versions rise along a log, and each live version is that of one
    /// of its records. So it is that of a record of the sector which lives, or it is above all of
    /// them. Both are looked at in the index before they are answered. Only of a tree that isn't
    /// made of this log's nodes is each record asked for. (A sector may hold no record, after a
    /// write that was cut off: then the walk has none to ask for.)
    pub(crate) fn oldest_has_no_live(&self, tree: &Tree) -> bool
        requires working { self.now.failed ≡ false }
        ensures { IsTrue result ↔ OldestIsDead tree.now self.now }
    {
        let records = &self.index.records;
        let sector = self.index.first;
        let first = version_at(records, 0);
        let next = tree.next_live(first);
        match next {
            Some((version, inode)) if stands_there(records, sector, version, inode) => false,
            _ if all_before(records, sector, first, next) => true,
            _ => none_lives(records, sector, tree),
        }
    }
}

/// The version of a record, by its number in the log; 0 where there is none.
fn version_at(records: &VecDeque<RecordRef>, at: usize) -> u32
    ensures { (none : RefValue) → none.version ≡ 0
        → result ≡ (slice_index_or records.now.items at none).version }
{
    match records.get(at) {
        Some(entry) => entry.version,
        None => 0,
    }
}

/// Whether a record of this version and inode stands in the sector.
fn stands_there(records: &VecDeque<RecordRef>, sector: u32, version: u32, inode: u32) -> bool
    ensures { IsTrue result
        → (k : RefValue) × Contains records.now.items k × (k.sector ≡ sector)
        × (k.version ≡ version) × (k.inode ≡ inode) }
{
    match record_of(records, version) {
        Some(entry) => entry.is_in(sector) && entry.version == version && entry.inode == inode,
        None => false,
    }
}

/// The record of a version. It stands as many records after the first as its version is above the
/// first one's, if none is left out; else it is looked for by halves, as versions rise.
fn record_of(records: &VecDeque<RecordRef>, version: u32) -> Option<&RecordRef>
    ensures { IfSome result (λ k. Contains records.now.items k.now) }
{
    let steps = version.saturating_sub(version_at(records, 0));
    match records.get(steps as usize) {
        Some(entry) if entry.version == version => Some(entry),
        _ => {
            let Ok(at) = records.binary_search_by_key(&version, |entry| entry.version) else {
                return None;
            };
            records.get(at)
        }
    }
}

/// Whether the records before the first one of another sector have versions from the first on and
/// below the next live one, where there is one.
fn all_before(
    records: &VecDeque<RecordRef>,
    sector: u32,
    first: u32,
    next: Option<(u32, u32)>,
) -> bool
    ensures { result
        ≡ list_all (λ k. nat_le first k.version
        && option_map_or (λ p. nat_lt k.version p.0) next true)
        (take_while (λ k. k.sector == sector) records.now.items) }
{
    records.iter().take_while(|entry| entry.is_in(sector)).all(|entry| first <= entry.version
        && is_before(next, entry.version))
}

/// Whether a version is below the next live one, where there is one.
fn is_before(next: Option<(u32, u32)>, version: u32) -> bool
    ensures { result ≡ option_map_or (λ p. nat_lt version p.0) next true }
{
    match next {
        Some((end, _)) => version < end,
        None => true,
    }
}

/// Whether none of the records lives in the tree that stand before the first one of another sector.
fn none_lives(records: &VecDeque<RecordRef>, sector: u32, tree: &Tree) -> bool
    ensures { result ≡ list_all (λ k. not (holds_version tree.now k.inode k.version))
        (take_while (λ k. k.sector == sector) records.now.items) }
{
    records
        .iter()
        .take_while(|entry| entry.is_in(sector))
        .all(|entry| !tree.live(entry.inode, entry.version))
}
