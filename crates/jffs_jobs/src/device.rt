//! A device at work: one request after another, and dead sectors erased after each.

use crate::Scale;
use crate::digest::Digest;
use crate::fault::Fault;
use crate::household::{Household, Plan};
use jffs_flash::MemoryFlash;
use std::alloc::Global;

/// How many steps are made in one session.
const SESSION_LEN: u32 = 20_000;

/// Four large devices and four small ones, whose volumes are more or less full.
pub(crate) fn work(alloc: Global, seed: u64, scale: Scale) -> Result<Digest, Fault> {
    let mut digest = Digest::new();
    for (part, percent) in [(0u64, 50u32), (1, 65), (2, 80), (3, 95)] {
        let large = Household::new(alloc, Plan::large(percent), seed, part)?;
        digest.add(live(large, scale)?);
        let small = Household::new(alloc, Plan::small(percent), seed, part + 100)?;
        digest.add(live(small, scale)?);
    }
    Ok(digest)
}

/// Has a device live for some sessions, and says what came of them.
fn live(household: Household<MemoryFlash>, scale: Scale) -> Result<u64, Fault> {
    let mut household = household;
    household.set_up()?;
    for _ in 0..4u32 {
        household.live_on(scale.times(SESSION_LEN))?;
        household = household.mount_again()?;
    }
    household.end()
}
