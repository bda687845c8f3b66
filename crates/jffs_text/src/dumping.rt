//! The lines that tell of a tree.

ghost use Rattle.std.specs.Prelude.{◌≡◌, ◌<◌, ◌*◌, true, false, length, OnOk};
ghost use Rattle.std.specs.Io.KnownBytes.{Appends};
ghost use Rattle.jffs_tree.specs.State.{is_directory_in, at};
ghost use Rattle.jffs_inodes.specs.Held.{bytes_of};
ghost use Rattle.jffs_tree.specs.Origin.{state_in};
ghost use Rattle.jffs_tree.specs.Look.{bytes_in};
ghost use Rattle.jffs_text.specs.Added.{IsBegun};
ghost use Rattle.jffs_text.specs.Dump.{hex, hex_digit as digit_of, shown_bytes, directory_line};
ghost use Rattle.jffs_text.specs.Dump.{file_line, extended_path, below, dump_text};

use jffs_node::{Name, NoMemory, PATH_DEPTH_MAX, ROOT_INODE};
use jffs_tree::Tree;
use std::alloc::{AllocError, Global};
use std::io;
use std::io::{ErrorKind, Write};
use thiserror::Error;

/// Why a dump ended early. What was written until then is the beginning of the text.
#[derive(Clone, Copy, Debug, PartialEq, Eq, Error)]
pub enum DumpFault {
    /// The writer failed.
    #[error("Write")]
    Write,
    /// Allocation failed, perhaps the writer's own.
    #[error("Memory")]
    Memory,
}

impl From<io::Error> for DumpFault {
    fn from(fault: io::Error) -> DumpFault {
        match fault.kind() {
            ErrorKind::OutOfMemory => DumpFault::Memory,
            _ => DumpFault::Write,
        }
    }
}

impl From<NoMemory> for DumpFault {
    fn from(_: NoMemory) -> DumpFault {
        DumpFault::Memory
    }
}

impl From<AllocError> for DumpFault {
    fn from(_: AllocError) -> DumpFault {
        DumpFault::Memory
    }
}

/// How many bytes of a file are read at once, and how many are written as hex at once.
const CHUNK_LEN: usize = 256;

/// Writes a line for each directory, `d PATH`, and for each file, `f PATH SIZE HEX`, where an empty
/// file has `-` for its bytes. Names are sorted by their bytes, and follow the directory that holds
/// them.
///
/// `Write` if the writer failed, `Memory` if allocation failed. After an error a beginning of that
/// text is written.
pub fn dump<W: Write>(alloc: Global, tree: &Tree, out: &mut W) -> Result<(), DumpFault>
    ensures whole { OnOk result
        (Appends (W.contents out.old) (W.contents out.new) (dump_text (state_in tree.now))) }
    ensures begun { IsBegun (W.contents out.old) (W.contents out.new)
        (dump_text (state_in tree.now)) }
{
    put(b"d /\n", out)?;
    let mut path = Vec::new(alloc);
    dump_names(tree, ROOT_INODE, PATH_DEPTH_MAX, &mut path, out)
}

/// What stands below a directory, at most `levels` down; `path` is the directory's own, without
/// a slash at its end.
fn dump_names<W: Write>(
    tree: &Tree,
    directory: u32,
    levels: usize,
    path: &mut Vec<u8>,
    out: &mut W,
) -> Result<(), DumpFault>
    requires { is_directory_in (state_in tree.now) directory ≡ true }
    ensures path { OnOk result (path.new.items ≡ path.old.items) }
    ensures whole { OnOk result
        (Appends (W.contents out.old) (W.contents out.new)
        (below levels (state_in tree.now) path.old.items directory)) }
    ensures begun { IsBegun (W.contents out.old) (W.contents out.new)
        (below levels (state_in tree.now) path.old.items directory) }
{
    if levels == 0 {
        return Ok(());
    }
    let names = tree.names(directory)?;
    for (name, inode) in names.iter() {
        let above = path.len();
        push_name(path, name)?;
        if tree.is_directory(*inode) {
            dump_directory(path, out)?;
            dump_names(tree, *inode, levels - 1, path, out)?;
        } else {
            dump_file(tree, *inode, path, out)?;
        }
        path.truncate(above);
    }
    Ok(())
}

fn push_name(path: &mut Vec<u8>, name: &Name) -> Result<(), AllocError>
    ensures { OnOk result (path.new.items ≡ extended_path path.old.items name.now) }
{
    path.push(b'/')?;
    path.extend_from_slice(name.bytes())
}

/// The line of a directory.
fn dump_directory<W: Write>(path: &Vec<u8>, out: &mut W) -> io::Result<()>
    ensures whole { OnOk result
        (Appends (W.contents out.old) (W.contents out.new) (directory_line path.now.items)) }
    ensures begun { IsBegun (W.contents out.old) (W.contents out.new)
        (directory_line path.now.items) }
{
    put(b"d ", out)?;
    put(path, out)?;
    put(b"\n", out)
}

/// The line of a file: its path, its size and its bytes.
fn dump_file<W: Write>(
    tree: &Tree,
    inode: u32,
    path: &Vec<u8>,
    out: &mut W,
) -> Result<(), DumpFault>
    requires { is_directory_in (state_in tree.now) inode ≡ false }
    ensures whole { OnOk result
        (Appends (W.contents out.old) (W.contents out.new)
        (file_line path.now.items (bytes_of (at (state_in tree.now) inode)))) }
    ensures begun { IsBegun (W.contents out.old) (W.contents out.new)
        (file_line path.now.items (bytes_of (at (state_in tree.now) inode))) }
{
    let size = tree.size(inode).unwrap_or(0);
    let size_text = format!(in *path.allocator(); " {size} ")?;
    put(b"f ", out)?;
    put(path, out)?;
    put(size_text.as_bytes(), out)?;
    dump_bytes(tree, inode, size, out)?;
    put(b"\n", out)?;
    Ok(())
}

/// The bytes of a file of that size in hex, `-` for none.
fn dump_bytes<W: Write>(tree: &Tree, inode: u32, size: u32, out: &mut W) -> io::Result<()>
    requires { size ≡ length (bytes_in tree.now inode) }
    ensures whole { OnOk result
        (Appends (W.contents out.old) (W.contents out.new)
        (shown_bytes (bytes_in tree.now inode))) }
    ensures begun { IsBegun (W.contents out.old) (W.contents out.new)
        (shown_bytes (bytes_in tree.now inode)) }
{
    if size == 0 {
        return put(b"-", out);
    }
    let mut chunk = [0u8; CHUNK_LEN];
    let mut offset = 0;
    while offset < size {
        let count = tree.read(inode, offset, &mut chunk);
        write_hex(&chunk[..count], out)?;
        offset += count as u32;
    }
    Ok(())
}

/// Writes bytes in lower case hex. The error is the writer's; after it a beginning of that is
/// written.
pub fn write_hex<W: Write>(bytes: &[u8], out: &mut W) -> io::Result<()>
    ensures whole { OnOk result
        (Appends (W.contents out.old) (W.contents out.new) (hex bytes.now)) }
    ensures begun { IsBegun (W.contents out.old) (W.contents out.new) (hex bytes.now) }
{
    let mut digits = [0u8; 2 * CHUNK_LEN];
    let mut start = 0;
    while start < bytes.len() {
        let rest = &bytes[start..];
        let count = rest.len().min(CHUNK_LEN);
        let text = &mut digits[..2 * count];
        fill_hex(&rest[..count], text);
        put(text, out)?;
        start += count;
    }
    Ok(())
}

/// Turns bytes into hex, two digits a byte.
fn fill_hex(bytes: &[u8], digits: &mut [u8])
    requires { length digits.old ≡ 2 * length bytes.now }
    ensures { digits.new ≡ hex bytes.now }
{
    for index in 0..bytes.len() {
        let byte = bytes[index];
        digits[2 * index] = hex_digit(byte / 16);
        digits[2 * index + 1] = hex_digit(byte % 16);
    }
}

fn hex_digit(value: u8) -> u8
    requires { value < 16 }
    ensures { result ≡ digit_of value }
{
    if value < 10 {
        value + b'0'
    } else {
        value - 10 + b'a'
    }
}

/// Writes bytes as `write_all` does, whose contract doesn't say what stands after an error: a
/// beginning of them.
fn put<W: Write>(bytes: &[u8], out: &mut W) -> io::Result<()>
    ensures whole { OnOk result (Appends (W.contents out.old) (W.contents out.new) bytes.now) }
    ensures begun { IsBegun (W.contents out.old) (W.contents out.new) bytes.now }
{
    let mut sent = 0;
    'writes: for _ in 0..u64::MAX {
        if sent >= bytes.len() {
            return Ok(());
        }
        match out.write(&bytes[sent..]) {
            Ok(0) => return Err(io::Error::from(ErrorKind::WriteZero)),
            Ok(count) => sent += count,
            Err(fault) => {
                if fault.kind() != ErrorKind::Interrupted {
                    return Err(fault);
                }
            }
        }
    }
    Err(io::Error::from(ErrorKind::TimedOut))
}
