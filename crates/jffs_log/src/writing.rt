//! A record is written in two programs: with its gate open, and then the gate.

ghost use Rattle.std.specs.Prelude.{◌≡◌, ◌+◌, ◌≤◌, length, replicate};
ghost use Rattle.jffs_flash.specs.Image.{erased_byte};
ghost use Rattle.jffs_flash.specs.Wear.{Wears, no_erase};
ghost use Rattle.jffs_node.specs.Record.{record_len as length_of};
ghost use Rattle.jffs_log.specs.Gate.{AreErased, MayWrite, ProgramsErased, Writes};

use jffs_flash::{Flash, FlashFault};
use jffs_node::{ERASED, GATE_AT, GATE_CLOSED, Node, encode_open_into, record_len};

/// The longest record, in bytes: a quarter of the largest sector.
pub const RECORD_MAX: usize = 4096;

/// A buffer for records of up to half the longest, in bytes.
const HALF: usize = RECORD_MAX / 2;

/// A buffer for records of up to a quarter of the longest, in bytes.
const QUARTER: usize = RECORD_MAX / 4;

/// A buffer for records of up to an eighth of the longest, in bytes.
const EIGHTH: usize = RECORD_MAX / 8;

/// Writes the record of a node into erased flash, from the offset `at` of the image on.
///
/// After a failure the whole record stands there, or bytes that don't count as one.
pub(crate) fn write_record<F: Flash>(flash: &mut F, at: u32, node: &Node) -> Result<(), FlashFault>
    requires { MayWrite at node.now (F.device flash.old).image }
    ensures written { Writes at node.now result (F.device flash.old) (F.device flash.new) }
    ensures worn { Wears no_erase (length_of node.now + 1) (F.wear flash.old) (F.wear flash.new) }
    ensures unread { F.reads_left flash.new ≡ F.reads_left flash.old }
{
    // A buffer is filled before a record is made in it, so a short record gets a small one.
    let len = record_len(node) as usize;
    if len <= EIGHTH {
        write_in::<EIGHTH, F>(flash, at, node)
    } else if len <= QUARTER {
        write_in::<QUARTER, F>(flash, at, node)
    } else if len <= HALF {
        write_in::<HALF, F>(flash, at, node)
    } else {
        write_in::<RECORD_MAX, F>(flash, at, node)
    }
}

/// Writes the record of a node, which is made in a buffer of that size. It stays a call, so that
/// the stack has one buffer and not one of each size.
#[inline(never)]
fn write_in<const SIZE: usize, F: Flash>(
    flash: &mut F,
    at: u32,
    node: &Node,
) -> Result<(), FlashFault>
    requires may { MayWrite at node.now (F.device flash.old).image }
    requires long { length_of node.now ≤ SIZE }
    requires size { SIZE ≤ RECORD_MAX }
    ensures written { Writes at node.now result (F.device flash.old) (F.device flash.new) }
    ensures worn { Wears no_erase (length_of node.now + 1) (F.wear flash.old) (F.wear flash.new) }
    ensures unread { F.reads_left flash.new ≡ F.reads_left flash.old }
{
    write_through(flash, &mut [ERASED; SIZE], at, node)
}

/// Writes the record of a node, which is made in the first bytes of a buffer. Precondition: each
/// byte of the buffer is as an erase leaves it.
fn write_through<F: Flash>(
    flash: &mut F,
    buffer: &mut [u8],
    at: u32,
    node: &Node,
) -> Result<(), FlashFault>
    requires may { MayWrite at node.now (F.device flash.old).image }
    requires long { length_of node.now ≤ length buffer.old }
    requires erased { buffer.old ≡ replicate (length buffer.old) erased_byte }
    ensures written { Writes at node.now result (F.device flash.old) (F.device flash.new) }
    ensures worn { Wears no_erase (length_of node.now + 1) (F.wear flash.old) (F.wear flash.new) }
    ensures unread { F.reads_left flash.new ≡ F.reads_left flash.old }
{
    let record = &mut buffer[..record_len(node) as usize];
    encode_open_into(node, record);
    program_erased(flash, at, record)?;
    flash.program(at + GATE_AT as u32, &[GATE_CLOSED])
}

/// Programs bytes into erased flash.
fn program_erased<F: Flash>(flash: &mut F, at: u32, bytes: &[u8]) -> Result<(), FlashFault>
    requires { AreErased at (length bytes.now) (F.device flash.old).image }
    ensures programmed { ProgramsErased at bytes.now result (F.device flash.old)
        (F.device flash.new) }
    ensures worn { Wears no_erase (length bytes.now) (F.wear flash.old) (F.wear flash.new) }
    ensures unread { F.reads_left flash.new ≡ F.reads_left flash.old }
{
    flash.program(at, bytes)?;
    Ok(())
}
