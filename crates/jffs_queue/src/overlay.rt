//! What a range of an image holds once a call is carried out.

ghost use Rattle.std.specs.Prelude.{◌≡◌, ℕ, ◌+◌, ◌<◌, ◌≤◌, ◌^◌, length, replicate};
ghost use Rattle.jffs_flash.specs.Image.{window, replaced, programmed, both_bits, erased_byte};
ghost use Rattle.jffs_queue.specs.Queue.{IsLaidOver};

use crate::call::Call;
use jffs_flash::ERASED_BYTE;

/// The bytes that a buffer and a part of the image share.
#[derive(Clone, Copy)]
struct Shared {
    /// Where they begin in the buffer.
    first: usize,
    /// Where they begin in the part.
    skip: usize,
    len: usize,
}

/// What a buffer of `buffer_len` bytes, which shows the image from `from` on, shares with a part
/// of `part_len` bytes that begins at `at`.
fn overlap(from: usize, buffer_len: usize, at: usize, part_len: usize) -> Shared
    requires { (from + buffer_len < 2 ^ 64) × (at + part_len < 2 ^ 64) }
    ensures in_buffer { result.first + result.len ≤ buffer_len }
    ensures in_part { result.skip + result.len ≤ part_len }
    ensures same { 0 < result.len → from + result.first ≡ at + result.skip }
    ensures all { (k : ℕ) → k < buffer_len → at ≤ from + k → from + k < at + part_len
        → (result.first ≤ k) × (k < result.first + result.len) }
{
    let first = from.max(at);
    let end = (from + buffer_len).min(at + part_len);
    if end <= first {
        return Shared {
            first: 0,
            skip: 0,
            len: 0,
        };
    }
    Shared {
        first: first - from,
        skip: first - at,
        len: end - first,
    }
}

/// Brings what a call does into a buffer that shows the image from `from` on.
pub(crate) fn lay_over(call: &Call, sector_size: u32, from: u32, buffer: &mut [u8])
    ensures { IsLaidOver sector_size call.now from buffer.old buffer.new }
{
    match call {
        Call::Erase { sector } => {
            let at = *sector as usize * sector_size as usize;
            let part = overlap(from as usize, buffer.len(), at, sector_size as usize);
            fill(buffer, part.first, part.len);
        }
        Call::Program { at, bytes } => {
            let part = overlap(from as usize, buffer.len(), *at as usize, bytes.len());
            clear_bits(buffer, part.first, &bytes[part.skip..part.skip + part.len]);
        }
    }
}

/// Turns to ones the bits of `len` bytes.
fn fill(buffer: &mut [u8], first: usize, len: usize)
    requires { first + len ≤ length buffer.old }
    ensures { buffer.new ≡ replaced first (replicate len erased_byte) buffer.old }
{
    buffer[first..first + len].fill(ERASED_BYTE);
}

/// Turns to zero the bits from `first` on that are zero in these bytes.
fn clear_bits(buffer: &mut [u8], first: usize, bytes: &[u8])
    requires { first + length bytes.now ≤ length buffer.old }
    ensures { buffer.new ≡ programmed first bytes.now buffer.old }
{
    keep_both_bits(&mut buffer[first..first + bytes.len()], bytes);
}

/// Each byte keeps the bits that the other has too.
fn keep_both_bits(old: &mut [u8], bytes: &[u8])
    requires { length old.old ≡ length bytes.now }
    ensures { old.new ≡ both_bits old.old bytes.now }
{
    for i in 0..bytes.len() {
        old[i] &= bytes[i];
    }
}
