//! What is answered to a request that looks at the volume.

ghost use Rattle.std.specs.Prelude.{◌≡◌, false, IfOk, OnOk, take, drop};
ghost use Rattle.std.specs.Io.KnownBytes.{Appends};
ghost use Rattle.jffs_tree.specs.State.{is_directory_in};
ghost use Rattle.jffs_tree.specs.Origin.{state_in};
ghost use Rattle.jffs_tree.specs.Look.{bytes_in};
ghost use Rattle.jffs_manage.specs.Answers.{refused_text, stat_line, stat_answer, lines_text};
ghost use Rattle.jffs_manage.specs.Answers.{list_answer, counted_text, read_answer, room_text};
ghost use Rattle.jffs_manage.specs.Answers.{limits_answer, check_answer, query_answer};
ghost use Rattle.jffs_manage.specs.Looks.{usage_in};

use crate::fault::VolumeFault;
use crate::looking::{SpaceUsage, Stat, list, stat_of, usage_of};
use crate::wanting::Query;
use jffs_core::Core;
use jffs_flash::Flash;
use jffs_node::{FILE_MAX, NAME_MAX, PATH_DEPTH_MAX, Path};
use jffs_text::cause_name;
use jffs_tree::{Cause, Tree};
use std::alloc::Global;
use std::io;
use std::io::Write;

/// The most bytes of a path: eight names, each after a slash.
pub(crate) const PATH_TEXT_MAX: u32 = (PATH_DEPTH_MAX * (NAME_MAX + 1)) as u32;

/// Answers a look at a volume whose device works. `Memory`.
pub(crate) fn answer_query<F: Flash, W: Write>(
    alloc: Global,
    core: &Core<F>,
    query: &Query,
    out: &mut W,
) -> Result<(), VolumeFault>
    ensures { core.now.failed ≡ false → OnOk result
        (Appends (W.contents out.old) (W.contents out.new) (query_answer core.now query.now)) }
{
    match query {
        Query::Stat(path) => Ok(answer_stat(core, path, out)?),
        Query::List(path) => answer_list(alloc, core, path, out),
        Query::Read { path, offset, len } => answer_read(alloc, core, path, *offset, *len, out),
        Query::Room => Ok(answer_room(core, out)?),
        Query::Limits => Ok(answer_limits(core, out)?),
        Query::Check => Ok(answer_check(core, out)?),
    }
}

/// Says what stands at a path: its kind, size, and what its live records take, in bytes.
fn answer_stat<F: Flash, W: Write>(core: &Core<F>, path: &Path, out: &mut W) -> io::Result<()>
    ensures { OnOk result
        (Appends (W.contents out.old) (W.contents out.new) (stat_answer core.now path.now)) }
{
    match core.tree().resolve(path) {
        Some(inode) => write_stat(stat_of(core, inode, true), out),
        None => write_refusal(Cause::NotFound, out),
    }
}

fn write_stat<W: Write>(stat: Stat, out: &mut W) -> io::Result<()>
    ensures { OnOk result (Appends (W.contents out.old) (W.contents out.new) (stat_line stat)) }
{
    let Stat {
        directory,
        size,
        live,
    } = stat;
    let letter = if directory { 'd' } else { 'f' };
    writeln!(out, "ok {letter} {size} {live}")
}

/// Says that a request was refused, and why.
pub(crate) fn write_refusal<W: Write>(cause: Cause, out: &mut W) -> io::Result<()>
    ensures { OnOk result (Appends (W.contents out.old) (W.contents out.new) (refused_text cause)) }
{
    out.write_all(b"refused ")?;
    out.write_all(cause_name(cause).as_bytes())?;
    out.write_all(b"\n")
}

/// Gives the lines that `ls` has of a path, after how many they are and how many bytes.
fn answer_list<F: Flash, W: Write>(
    alloc: Global,
    core: &Core<F>,
    path: &Path,
    out: &mut W,
) -> Result<(), VolumeFault>
    ensures { OnOk result
        (Appends (W.contents out.old) (W.contents out.new) (list_answer core.now path.now)) }
{
    let mut lines = Vec::new(alloc);
    match list(core, path, false, &mut lines) {
        Ok(()) => Ok(write_lines(&lines, out)?),
        Err(VolumeFault::Nothing) => Ok(write_refusal(Cause::NotFound, out)?),
        Err(fault) => Err(fault),
    }
}

fn write_lines<W: Write>(lines: &[u8], out: &mut W) -> io::Result<()>
    ensures { OnOk result
        (Appends (W.contents out.old) (W.contents out.new) (lines_text lines.now)) }
{
    let count = lines.iter().filter(|byte| **byte == b'\n').count();
    writeln!(out, "ok {count} {}", lines.len())?;
    out.write_all(lines)
}

/// Gives at most `len` bytes of the file at a path from `offset` on, after how many they are.
fn answer_read<F: Flash, W: Write>(
    alloc: Global,
    core: &Core<F>,
    path: &Path,
    offset: u32,
    len: u32,
    out: &mut W,
) -> Result<(), VolumeFault>
    ensures { OnOk result (Appends (W.contents out.old) (W.contents out.new)
        (read_answer core.now path.now offset len)) }
{
    let tree = core.tree();
    match tree.resolve(path) {
        None => Ok(write_refusal(Cause::NotFound, out)?),
        Some(inode) if tree.is_directory(inode) => Ok(write_refusal(Cause::IsDirectory, out)?),
        Some(inode) => {
            let part = part_of(alloc, tree, inode, offset, len)?;
            Ok(write_counted(&part, out)?)
        }
    }
}

/// At most `len` bytes of a file from `offset` on.
fn part_of(
    alloc: Global,
    tree: &Tree,
    inode: u32,
    offset: u32,
    len: u32,
) -> Result<Vec<u8>, VolumeFault>
    requires { is_directory_in (state_in tree.now) inode ≡ false }
    ensures { IfOk result (λ part. part.items ≡ take len (drop offset (bytes_in tree.now inode))) }
{
    let size = tree.size(inode).unwrap_or(0);
    let count = len.min(size.saturating_sub(offset));
    let mut part = vec![in alloc; 0u8; count as usize]?;
    let _ = tree.read(inode, offset, &mut part);
    Ok(part)
}

fn write_counted<W: Write>(bytes: &[u8], out: &mut W) -> io::Result<()>
    ensures { OnOk result
        (Appends (W.contents out.old) (W.contents out.new) (counted_text bytes.now)) }
{
    writeln!(out, "ok {}", bytes.len())?;
    out.write_all(bytes)
}

/// Says how full the volume is, in the numbers of `df`.
fn answer_room<F: Flash, W: Write>(core: &Core<F>, out: &mut W) -> io::Result<()>
    ensures { core.now.failed ≡ false → OnOk result
        (Appends (W.contents out.old) (W.contents out.new) (room_text (usage_in core.now))) }
{
    write_numbers(usage_of(core), out)
}

fn write_numbers<W: Write>(usage: SpaceUsage, out: &mut W) -> io::Result<()>
    ensures { OnOk result
        (Appends (W.contents out.old) (W.contents out.new) (room_text usage)) }
{
    let SpaceUsage {
        sectors,
        sector_size,
        erased,
        weight,
        sure,
    } = usage;
    writeln!(out, "ok {sectors} {sector_size} {erased} {weight} {sure}")
}

/// Says how long a write, a path, a name, a path in names, and a file may be.
fn answer_limits<F: Flash, W: Write>(core: &Core<F>, out: &mut W) -> io::Result<()>
    ensures { OnOk result
        (Appends (W.contents out.old) (W.contents out.new) (limits_answer core.now)) }
{
    let write = core.limits().data_max;
    writeln!(
        out,
        "ok {write} {PATH_TEXT_MAX} {NAME_MAX} {PATH_DEPTH_MAX} {FILE_MAX}"
    )
}

/// Says whether the volume is clean, and how many records it has.
fn answer_check<F: Flash, W: Write>(core: &Core<F>, out: &mut W) -> io::Result<()>
    ensures { OnOk result
        (Appends (W.contents out.old) (W.contents out.new) (check_answer core.now)) }
{
    let clean = if core.clean() { "clean" } else { "unclean" };
    let records = core.log().records().len();
    writeln!(out, "ok {clean} {records}")
}
