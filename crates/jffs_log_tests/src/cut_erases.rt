//! Erases that are cut off, and what `heal` finds after each.
//! A sector is doomed first: some of the twelve one-bits of its first record's magic, 4A 46 46 31,
//! are cleared. Once all are, it may hold anything. What is to be found of each such state follows
//! from its first eight bytes by docs/FORMAT.md: a closed gate and another magic than a record's
//! tell of an erase that is to be ended. Two kinds of states say too little, and are left out: the
//! right magic with a closed gate and not what stood there, and bytes that with that magic hold a
//! live record. Of the states that are tried three for each erase are made to be such.

use crate::cut_states::{DOOMS, Left, MAGIC, begin_with, leave, other_states};
use crate::erases_run::{Before, befores};
use jffs_flash::{DoomingFlash, Fail, FuseFlash, Fused, MemoryFlash};
use jffs_log::{Healed, Mounted, ScanWhy, heal, scan};
use std::alloc::{AllocError, Global};
use std::process::Abort;
use std::test::Fail as TestFail;

/// The erases of each run: the ring is gone round once, and further.
const ERASES: usize = 8;

/// How many states are tried of each erase: the dooms, the headers, and 32 of each other kind.
const TRIED: u32 = 4096 + 6 + 4 * 32;

/// How many of them say too little: the first three headers.
const EXCLUDED: u32 = 3;

/// How many tell of an erase that is to be ended, at least: each doom that cleared a bit, the other
/// headers, one bit of the magic alone, where the first quarter isn't erased, and noise whose gate
/// is closed.
const ENDED: u32 = 4095 + 3 + 32 + 16 + 16;

/// Whether the gate of the first record is closed.
fn is_closed(left: &[u8]) -> bool {
    left.get(7) == Some(&0)
}

fn begins_with(left: &[u8], magic: [u8; 4]) -> bool {
    left.get(..4) == Some(magic.as_slice())
}

/// How many records of the sector live as a scan finds them; `None` where it is refused.
fn live_in(rt: &(impl Abort + AllocGlobal), before: &Before, left: &[u8]) -> Option<u32> {
    match scan(rt.alloc(), before.with_left(rt, left)) {
        Ok(found) => Some(found.log.live_in(before.sector, &found.tree)),
        Err(_) => None,
    }
}

/// Whether such a state says too little.
fn is_excluded(
    rt: &(impl Abort + AllocGlobal),
    before: &Before,
    left: &[u8],
) -> Result<bool, AllocError> {
    if is_closed(left) && begins_with(left, MAGIC) {
        return Ok(live_in(rt, before, left) != Some(0));
    }
    if begins_with(left, [0; 4]) {
        return Ok(false);
    }
    let mut shown = vec![in rt.alloc(); 0u8; left.len()]?;
    shown.copy_from_slice(left);
    begin_with(&mut shown, MAGIC);
    Ok(live_in(rt, before, &shown).unwrap_or(0) > 0)
}

/// What a state has to be answered with: the sector whose erase is ended.
fn begun(before: &Before, left: &[u8]) -> Option<u32> {
    if is_closed(left) && !begins_with(left, MAGIC) {
        return Some(before.sector);
    }
    None
}

fn healed(rt: &(impl Abort + AllocGlobal), flash: MemoryFlash) -> Healed<MemoryFlash> {
    match heal(rt.alloc(), flash) {
        Ok(healed) => healed,
        Err(fault) => panic!(rt; "{}", fault.why),
    }
}

/// Heals a state: the sector is told, and the log, its tree and its bytes are those of before. So
/// they are for a scan after it.
fn is_healed(rt: &(impl Abort + AllocGlobal), before: &Before, left: &[u8], erased: &[u8]) {
    let Healed { mounted, sector } = healed(rt, before.with_left(rt, left));
    let wanted = begun(before, left);
    assert_eq!(rt; sector, wanted);
    before.finds(rt, &mounted);
    let flash = mounted.log.into_flash();
    let held = if wanted.is_some() { erased } else { left };
    before.is_kept(rt, flash.bytes(), held);
    match scan(rt.alloc(), flash) {
        Ok(mounted) => before.finds(rt, &mounted),
        Err(fault) => panic!(rt; "{}", fault.why),
    }
}

/// A device whose writes fail after so many of them.
fn failing(flash: MemoryFlash, turn: u32) -> DoomingFlash<FuseFlash> {
    let fail = if turn % 2 == 0 {
        Fail::Nothing
    } else {
        Fail::Half
    };
    let calls = u64::from(turn / 2 % 2);
    DoomingFlash::new(FuseFlash::new(flash, calls, Fused::Writes, fail))
}

/// Heals a state on a device that fails in the doom or in the erase; what it holds then.
fn cut_again(
    rt: &(impl Abort + AllocGlobal),
    before: &Before,
    left: &[u8],
    turn: u32,
) -> MemoryFlash {
    match heal(rt.alloc(), failing(before.with_left(rt, left), turn)) {
        Ok(_) => panic!(rt; "the erase didn't fail"),
        Err(fault) => {
            assert_eq!(rt; fault.why, ScanWhy::Device);
            fault.flash.into_inner().into_inner()
        }
    }
}

/// Where an erase is to be ended, the power goes in that one too, and it is healed then.
fn is_healed_again(
    rt: &(impl Abort + AllocGlobal),
    before: &Before,
    left: &[u8],
    erased: &[u8],
    turn: u32,
) {
    if begun(before, left).is_none() {
        return;
    }
    let flash = cut_again(rt, before, left, turn);
    let again = before.part(flash.bytes());
    is_healed(rt, before, again, erased);
}

/// How many states there were.
#[derive(Clone, Copy, Debug, PartialEq, Eq)]
struct Tally {
    tried: u32,
    excluded: u32,
    /// In how many the sector was erased.
    ended: u32,
}

/// The states of one erase, one after another.
#[derive(Drop)]
struct States {
    before: Before,
    erased: Vec<u8>,
    left: Vec<u8>,
    chances: u64,
    tally: Tally,
}

impl States {
    fn of(alloc: Global, before: Before, seed: u64) -> Result<States, AllocError> {
        let size = before.old().len();
        Ok(States {
            before,
            erased: vec![in alloc; 0xFFu8; size]?,
            left: vec![in alloc; 0xFFu8; size]?,
            chances: seed,
            tally: Tally {
                tried: 0,
                excluded: 0,
                ended: 0,
            },
        })
    }

    /// Makes a state of the sector, and heals it.
    fn try_one(&mut self, rt: &(impl Abort + AllocGlobal), left: Left) -> Result<(), AllocError> {
        let old = self.before.old();
        assert!(rt; old.len() == self.left.len());
        self.left.copy_from_slice(old);
        leave(&mut self.left, left, &mut self.chances);
        let turn = self.tally.tried;
        self.tally.tried = turn.saturating_add(1);
        if is_excluded(rt, &self.before, &self.left)? {
            self.tally.excluded = self.tally.excluded.saturating_add(1);
            return Ok(());
        }
        if begun(&self.before, &self.left).is_some() {
            self.tally.ended = self.tally.ended.saturating_add(1);
        }
        is_healed(rt, &self.before, &self.left, &self.erased);
        is_healed_again(rt, &self.before, &self.left, &self.erased, turn);
        Ok(())
    }

    /// Each subset of the doom, and each other state.
    fn try_all(mut self, rt: &(impl Abort + AllocGlobal)) -> Result<Tally, AllocError> {
        for subset in 0..DOOMS {
            self.try_one(rt, Left::Doomed(subset))?;
        }
        for left in &other_states(rt.alloc())? {
            self.try_one(rt, *left)?;
        }
        Ok(self.tally)
    }
}

/// Cuts off each erase of a run on sectors of this size.
fn each_erase(rt: &(impl Abort + AllocGlobal), size: u32) -> Result<(), TestFail> {
    for before in befores(rt, size, ERASES)? {
        let seed = u64::from(size).wrapping_add(u64::from(before.sector));
        let tally = States::of(rt.alloc(), before, seed)?.try_all(rt)?;
        assert_eq!(rt; (tally.tried, tally.excluded), (TRIED, EXCLUDED));
        assert!(rt; tally.ended >= ENDED, "{size} {tally:?}");
    }
    Ok(())
}

#[test]
fn erases_of_1024_bytes_are_healed(rt: HostRuntime) -> Result<(), TestFail> {
    each_erase(&rt, 1024)
}

#[test]
fn erases_of_2048_bytes_are_healed(rt: HostRuntime) -> Result<(), TestFail> {
    each_erase(&rt, 2048)
}

#[test]
fn erases_of_4096_bytes_are_healed(rt: HostRuntime) -> Result<(), TestFail> {
    each_erase(&rt, 4096)
}

#[test]
fn erases_of_8192_bytes_are_healed(rt: HostRuntime) -> Result<(), TestFail> {
    each_erase(&rt, 8192)
}

#[test]
fn erases_of_16384_bytes_are_healed(rt: HostRuntime) -> Result<(), TestFail> {
    each_erase(&rt, 16384)
}
