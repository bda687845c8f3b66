//! Numbers and bytes that look random, and that one number fixes.

ghost use Rattle.std.specs.Prelude.{◌<◌};

use crate::fault::Fault;
use std::alloc::Global;

/// How many random bytes stand ready to be written.
const NOISE_LEN: u32 = 8192;

/// The generator SplitMix64 of Steele, Lea and Flood (2014).
#[derive(Drop)]
pub(crate) struct Random {
    state: u64,
}

impl Random {
    /// The numbers that `seed` fixes; those of its `part`s look unlike each other.
    pub(crate) fn new(seed: u64, part: u64) -> Random {
        let mut random = Random { state: seed };
        let first = random.next();
        Random {
            state: first.wrapping_add(part.wrapping_mul(0xd6e8_feb8_6659_fd93)),
        }
    }

    fn next(&mut self) -> u64 {
        self.state = self.state.wrapping_add(0x9e37_79b9_7f4a_7c15);
        let mut mixed = self.state;
        mixed = (mixed ^ (mixed >> 30)).wrapping_mul(0xbf58_476d_1ce4_e5b9);
        mixed = (mixed ^ (mixed >> 27)).wrapping_mul(0x94d0_49bb_1331_11eb);
        mixed ^ (mixed >> 31)
    }

    /// A number below `end`.
    pub(crate) fn below(&mut self, end: u32) -> u32
        requires { 0 < end }
        ensures { result < end }
    {
        (self.next() % u64::from(end)) as u32
    }

    /// A number from `least` to `least + more`, `more` included.
    pub(crate) fn from(&mut self, least: u32, more: u32) -> u32 {
        least.saturating_add(self.below(more.saturating_add(1)))
    }

    /// True once in so many calls, where that is at least 1.
    pub(crate) fn once_in(&mut self, calls: u32) -> bool {
        calls > 0 && self.below(calls) == 0
    }
}

/// Random bytes.
pub(crate) fn noise(alloc: Global, random: &mut Random) -> Result<Vec<u8>, Fault> {
    let mut noise = Vec::new(alloc);
    for _ in 0..NOISE_LEN {
        noise.push(random.below(256) as u8)?;
    }
    Ok(noise)
}

/// So many random bytes, as far as they go.
pub(crate) fn noisy<'a>(noise: &'a [u8], random: &mut Random, len: u32) -> &'a [u8] {
    let len = len as usize;
    let spare = noise.len().saturating_sub(len).min(NOISE_LEN as usize);
    let start = random.below(spare as u32 + 1) as usize;
    match noise.get(start..start.saturating_add(len)) {
        Some(bytes) => bytes,
        None => noise,
    }
}

/// How many there are; 1 where there is none.
pub(crate) fn count<T>(all: &[T]) -> u32
    ensures { 0 < result }
{
    match all {
        [] => 1,
        _ => u32::try_from(all.len()).unwrap_or(u32::MAX),
    }
}
