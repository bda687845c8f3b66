//! What is on an image.

use crate::fault::ToolFault;
use crate::replay::Image;
use crate::texts::{mounted_text, next_text, record_text, scan_refused_text, sectors_text};
use jffs_flash::MemoryFlash;
use jffs_log::{Mounted, ScanFault, ScanWhy, scan};
use jffs_text::dump;
use std::alloc::Global;
use std::io::Write;

/// Whether an image is a volume.
#[derive(Clone, Copy, Debug, PartialEq, Eq)]
pub enum Seen {
    Mounted,
    /// The scan refuses it.
    Refused,
}

/// Shows what is on an image, as `print_image` does; one that is larger than any volume is refused
/// as Geometry. Write where the writer failed, Memory where allocation failed.
pub(crate) fn show<W: Write>(alloc: Global, image: Image, out: &mut W) -> Result<Seen, ToolFault> {
    match image {
        Image::Flash(flash) => print_image(alloc, flash, out),
        Image::Large => print_refused(alloc, ScanWhy::Geometry, out),
    }
}

/// Scans an image and writes what is on it: whether it is clean, the numbers that come next, the
/// sectors of the log, its records, and the tree; or the one line that says why it is refused.
///
/// `Write` if the writer failed, `Memory` if allocation failed; a beginning of the lines may be
/// written then.
pub fn print_image<W: Write>(
    alloc: Global,
    flash: MemoryFlash,
    out: &mut W,
) -> Result<Seen, ToolFault> {
    match scan(alloc, flash) {
        Ok(mounted) => {
            print_mounted(alloc, &mounted, out)?;
            Ok(Seen::Mounted)
        }
        Err(
            ScanFault {
                why: ScanWhy::Memory,
                flash: _,
            },
        ) => Err(ToolFault::Memory),
        Err(ScanFault { why, flash: _ }) => print_refused(alloc, why, out),
    }
}

fn print_refused<W: Write>(alloc: Global, why: ScanWhy, out: &mut W) -> Result<Seen, ToolFault> {
    print_line(scan_refused_text(alloc, why)?.as_str(), out)?;
    Ok(Seen::Refused)
}

fn print_mounted<W: Write>(
    alloc: Global,
    mounted: &Mounted<MemoryFlash>,
    out: &mut W,
) -> Result<(), ToolFault> {
    let log = &mounted.log;
    print_line(mounted_text(mounted.clean), out)?;
    print_line(next_text(alloc, &mounted.limits)?.as_str(), out)?;
    let sectors = sectors_text(alloc, log.oldest(), log.held(), log.sectors())?;
    print_line(sectors.as_str(), out)?;
    for entry in log.records().iter() {
        let live = mounted.tree.live(entry.inode, entry.version);
        print_line(record_text(alloc, entry, live)?.as_str(), out)?;
    }
    dump(alloc, &mounted.tree, out)?;
    Ok(())
}

fn print_line<W: Write>(text: &str, out: &mut W) -> Result<(), ToolFault> {
    out.write_all(text.as_bytes())?;
    out.write_all(b"\n")?;
    Ok(())
}
