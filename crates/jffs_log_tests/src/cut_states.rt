//! What an erase that was cut off may leave of a sector: a part of its doom, and once that is whole
//! zeros, erased quarters, bits that rose, any bytes by chance, or a header that is made to be told
//! from one of a log, or not to be. Positions in a header are those of docs/FORMAT.md.

use std::alloc::{AllocError, Global};

pub(super) const MAGIC: [u8; 4] = [0x4A, 0x46, 0x46, 0x31];

/// Its one-bits: the byte, and the bit there.
const DOOM_BITS: [(usize, u8); 12] = [
    (0, 0x40),
    (0, 0x08),
    (0, 0x02),
    (1, 0x40),
    (1, 0x04),
    (1, 0x02),
    (2, 0x40),
    (2, 0x04),
    (2, 0x02),
    (3, 0x20),
    (3, 0x10),
    (3, 0x01),
];

/// How many subsets of these bits there are.
pub(super) const DOOMS: u32 = 4096;

/// What an erase that was cut off left of a sector.
#[derive(Clone, Copy, Debug)]
pub(super) enum Left {
    /// These bits of the magic are cleared, by their numbers.
    Doomed(u32),
    /// The magic is cleared, or all bytes are, and these quarters are erased.
    Quarters {
        zeros: bool,
        erased: u32,
    },
    /// The magic is cleared, or all bytes are, and of the bits that rise by chance one in so many
    /// powers of two did.
    Risen {
        zeros: bool,
        power: u32,
    },
    /// Any bytes, by chance; with the gate closed, or as chance has it.
    Noise {
        closed: bool,
    },
    /// One bit of the magic that was cleared rose again.
    MagicRises {
        bit: u32,
    },
    /// The magic is this one, and these two bits rose.
    Header {
        magic: [u8; 4],
        raised: [(usize, u8); 2],
    },
}

/// The record is of a kind that there isn't.
const KIND: [(usize, u8); 2] = [(4, 0x08), (4, 0x10)];

/// The record is of another inode under another name, and the only one of that: so it lives.
const INODE: [(usize, u8); 2] = [(11, 0x80), (44, 0x08)];

const ALMOST: [u8; 4] = [0x4A, 0x46, 0x46, 0x30];

/// For each erase: with the right magic a bad record and a live one, and a live one whose magic has
/// one bit less. And next to these: nothing lives, or the magic is cleared.
const HEADERS: [([u8; 4], [(usize, u8); 2]); 6] = [
    (MAGIC, KIND),
    (MAGIC, INODE),
    (ALMOST, INODE),
    (ALMOST, KIND),
    ([0; 4], KIND),
    ([0; 4], INODE),
];

/// The next of made bytes.
fn chance(state: &mut u64) -> u8 {
    *state = state
        .wrapping_mul(6364136223846793005)
        .wrapping_add(1442695040888963407);
    ((*state >> 33) & 0xFF) as u8
}

/// A byte of whose bits one in so many powers of two is set, by chance.
fn rare(state: &mut u64, power: u32) -> u8 {
    let mut bits = 0xFF;
    for _ in 0..power {
        bits &= chance(state);
    }
    bits
}

/// Clears the magic of a sector, or all of it.
fn clear(bytes: &mut [u8], zeros: bool) {
    let len = if zeros { bytes.len() } else { 4 };
    for byte in bytes.iter_mut().take(len) {
        *byte = 0;
    }
}

/// Clears these bits of the magic.
fn doom(bytes: &mut [u8], subset: u32) {
    let mut rest = subset;
    for (at, bit) in DOOM_BITS {
        if let Some(byte) = bytes.get_mut(at)
            && rest % 2 == 1
        {
            *byte &= !bit;
        }
        rest /= 2;
    }
}

/// Erases these quarters.
fn erase_quarters(bytes: &mut [u8], erased: u32) {
    let quarter = (bytes.len() / 4).max(1);
    for (at, byte) in bytes.iter_mut().enumerate() {
        if erased >> (at / quarter % 4) as u32 & 1 == 1 {
            *byte = 0xFF;
        }
    }
}

/// Sets the first bytes.
pub(super) fn begin_with(bytes: &mut [u8], magic: [u8; 4]) {
    for (byte, wanted) in bytes.iter_mut().zip(magic.iter()) {
        *byte = *wanted;
    }
}

fn raise(bytes: &mut [u8], at: usize, bit: u8) {
    if let Some(byte) = bytes.get_mut(at) {
        *byte |= bit;
    }
}

/// Each byte is any one.
fn make_noise(bytes: &mut [u8], closed: bool, state: &mut u64) {
    for byte in bytes.iter_mut() {
        *byte = chance(state);
    }
    if closed && let Some(gate) = bytes.get_mut(7) {
        *gate = 0;
    }
}

/// Bits rise by chance.
fn raise_some(bytes: &mut [u8], power: u32, state: &mut u64) {
    for byte in bytes.iter_mut() {
        *byte |= rare(state, power);
    }
}

/// Makes of the bytes of a sector what is left of them.
pub(super) fn leave(bytes: &mut [u8], left: Left, state: &mut u64) {
    match left {
        Left::Doomed(subset) => doom(bytes, subset),
        Left::Quarters { zeros, erased } => {
            clear(bytes, zeros);
            erase_quarters(bytes, erased);
        }
        Left::Risen { zeros, power } => {
            clear(bytes, zeros);
            raise_some(bytes, power, state);
        }
        Left::Noise { closed } => make_noise(bytes, closed, state),
        Left::MagicRises { bit } => {
            clear(bytes, false);
            raise(bytes, bit as usize / 8 % 4, 1 << (bit % 8));
        }
        Left::Header { magic, raised } => {
            begin_with(bytes, magic);
            for (at, bit) in raised {
                raise(bytes, at, bit);
            }
        }
    }
}

/// What may be left of each sector, but for its dooms, of which there are as many as subsets.
pub(super) fn other_states(alloc: Global) -> Result<Vec<Left>, AllocError> {
    let mut states = Vec::new(alloc);
    for (magic, raised) in HEADERS {
        states.push(Left::Header { magic, raised })?;
    }
    for number in 0..32u32 {
        let (zeros, erased) = (number % 2 == 1, number / 2);
        states.push(Left::MagicRises { bit: number })?;
        states.push(Left::Quarters { zeros, erased })?;
        states.push(Left::Noise { closed: zeros })?;
        let power = erased / 2 + 1;
        states.push(Left::Risen { zeros, power })?;
    }
    Ok(states)
}
