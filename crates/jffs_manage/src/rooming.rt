//! Whether a put has room, before it begins.

use crate::fault::VolumeFault;
use jffs_core::{Cleaned, Core};
use jffs_flash::Flash;
use jffs_node::HEADER_LEN;
use jffs_session::Session;
use jffs_tree::Cause;

/// The length of a record without data, in bytes.
const BARE: u32 = HEADER_LEN as u32;
/// How many erased sectors a record of a request leaves when it opens the next one.
const LEFT_ERASED: u32 = 3;

/// What a put appends: the record that makes its file, the pieces, the removal of the file that it
/// replaces, the rename; and one record more, so that something can be removed after it.
#[derive(Clone, Copy)]
pub(crate) struct Needed {
    /// How many bytes the new file has.
    pub bytes: u32,
    /// The most bytes of a piece, 1 or more.
    pub piece: u32,
}

impl Needed {
    /// How many pieces there are.
    fn pieces(self) -> u32 {
        self.bytes.div_ceil(self.piece.max(1))
    }

    /// The length of the record of a piece, in bytes; the pieces count from 0.
    fn length(self, piece: u32) -> u32 {
        let before = piece.saturating_mul(self.piece);
        let data = self.bytes.saturating_sub(before).min(self.piece);
        BARE.saturating_add(data.div_ceil(4).saturating_mul(4))
    }

    /// The lengths of all records together, in bytes.
    fn weight(self) -> u64 {
        let mut weight = u64::from(BARE) * 4;
        for piece in 0..self.pieces() {
            weight = weight.saturating_add(u64::from(self.length(piece)));
        }
        weight
    }
}

/// Where the next records go, as long as nothing is cleaned.
#[derive(Clone, Copy)]
struct Places {
    /// How many bytes are free in the tail.
    free: u32,
    /// How many sectors may be opened.
    sectors: u32,
    /// How many bytes a sector has.
    sector_size: u32,
}

impl Places {
    /// Takes the place of a record of so many bytes, where there is one. Each record leaves room
    /// for an unmount node in its sector.
    fn take(&mut self, length: u32) -> bool {
        let wanted = length.saturating_add(BARE);
        if wanted > self.free {
            if self.sectors == 0 || wanted > self.sector_size {
                return false;
            }
            self.sectors -= 1;
            self.free = self.sector_size;
        }
        self.free = self.free.saturating_sub(length);
        true
    }

    /// Whether there are places for all records of a put.
    fn hold(mut self, needed: Needed) -> bool {
        let mut held = self.take(BARE);
        for piece in 0..needed.pieces() {
            held = held && self.take(needed.length(piece));
        }
        held && self.take(BARE) && self.take(BARE) && self.take(BARE)
    }
}

/// Sees that all records of a put have room, and one more, so that none of its requests is refused
/// for want of it. Where they haven't yet, the log is cleaned, each of its sectors once at most.
///
/// `NoSpace` where they have none even then: no file is changed, and nothing at all where they take
/// more than the sectors that may hold records. `Refused` where cleaning is, for another cause.
pub(crate) fn make_room<F: Flash>(
    volume: &mut Session<F>,
    needed: Needed,
) -> Result<(), VolumeFault> {
    if most(volume.core()) < needed.weight() {
        return Err(VolumeFault::NoSpace);
    }
    for _ in 0..volume.core().log().held().saturating_add(1) {
        if has_room(volume, needed) {
            return Ok(());
        }
        match volume.clean_oldest() {
            Ok(Cleaned::Erased { .. }) => {}
            Ok(Cleaned::OneSector) | Err(Cause::NoSpace) => break,
            Err(cause) => return Err(VolumeFault::Refused(cause)),
        }
    }
    Err(VolumeFault::NoSpace)
}

/// The most bytes that new records can take beside those that are live.
fn most<F: Flash>(core: &Core<F>) -> u64 {
    let log = core.log();
    let sectors = log.sectors().saturating_sub(LEFT_ERASED);
    let all = u64::from(sectors) * u64::from(log.sector_size());
    all.saturating_sub(log.live_weight(core.tree()))
}

/// Whether all records of a put surely have room now: the live records stay below the weight up to
/// which each request has, or none of them needs a cleaning.
fn has_room<F: Flash>(volume: &Session<F>, needed: Needed) -> bool {
    let core = volume.core();
    let weight = core
        .log()
        .live_weight(core.tree())
        .saturating_add(needed.weight());
    let is_light = weight < core.log().sure_weight() && core.log().erased() >= 2;
    is_light || places_of(core).hold(needed)
}

fn places_of<F: Flash>(core: &Core<F>) -> Places {
    let log = core.log();
    Places {
        free: log.free(),
        sectors: log.erased().saturating_sub(LEFT_ERASED),
        sector_size: log.sector_size(),
    }
}
