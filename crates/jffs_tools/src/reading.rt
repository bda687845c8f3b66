//! What the tools read, which is no more than they need.

ghost use Rattle.std.specs.Prelude.{◌≡◌, ◌*◌, IfOk, IfSome, take};
ghost use Rattle.jffs_tools.specs.Reading.{wanted};

use jffs_flash::VOLUME_MAX;
use jffs_text::LINE_MAX;
use std::alloc::Global;
use std::io;
use std::io::{BufRead, Read};

/// How many bytes `sectors` sectors of `sector_size` bytes have.
pub(crate) fn device_length(sectors: u32, sector_size: u32) -> u64
    ensures { result ≡ sectors * sector_size }
{
    u64::from(sectors) * u64::from(sector_size)
}

/// An image for a device of these sizes: as many bytes of the reader as the device has, and one
/// more where there is one, since such an image is too long. Of a device that is larger than any
/// volume no more is read than the bytes of the largest volume and one.
pub(crate) fn read_image<R: Read>(
    alloc: Global,
    sectors: u32,
    sector_size: u32,
    input: &mut R,
) -> io::Result<Vec<u8>>
    ensures { IfOk result
        (λ bytes. IfSome (R.remaining input.old)
        (λ all. bytes.items ≡ take (wanted sectors sector_size) all)) }
{
    let most = device_length(sectors, sector_size).min(VOLUME_MAX) + 1;
    let mut bytes = Vec::new(alloc);
    input.take(most).read_to_end(&mut bytes)?;
    Ok(bytes)
}

/// Reads the next line instead of what `line` held, without its LF. False at the end of the input.
/// Of a line that is longer than any may be, the beginning is read, which is too long as well.
pub(crate) fn read_line<B: BufRead>(input: &mut B, line: &mut Vec<u8>) -> io::Result<bool> {
    line.clear();
    let most = LINE_MAX as u64 + 1;
    let count = input.take(most).read_until(b'\n', line)?;
    if line.last() == Some(&b'\n') {
        line.pop();
    }
    Ok(count > 0)
}
