//! What is written of a volume.

ghost use Rattle.std.specs.Prelude.{◌≡◌, ◌≢◌, ◌↔◌, ◌-◌, ℕ, true, false, Some, None};
ghost use Rattle.std.specs.Prelude.{IfOk, OnOk};
ghost use Rattle.std.specs.Io.KnownBytes.{Appends};
ghost use Rattle.jffs_tree.specs.State.{resolve, is_directory_in};
ghost use Rattle.jffs_tree.specs.Origin.{state_in};
ghost use Rattle.jffs_tree.specs.Look.{bytes_in};
ghost use Rattle.jffs_log.specs.LogIndex.{weight_in, log_in};
ghost use Rattle.jffs_log.specs.Room.{heavy};
ghost use Rattle.jffs_manage.specs.Looks.{entry_text, stat_in, directory_lines, list_text};
ghost use Rattle.jffs_manage.specs.Looks.{usage_text, usage_in};

use crate::fault::VolumeFault;
use jffs_core::Core;
use jffs_flash::Flash;
use jffs_node::{Name, Path};
use jffs_tree::Tree;
use std::io;
use std::io::Write;

/// How many bytes of a file are read at once.
const CHUNK_LEN: usize = 256;

/// What is to be seen of a directory or file.
#[derive(Clone, Copy)]
pub(crate) struct Stat {
    pub directory: bool,
    /// How many bytes it has; a directory has none.
    pub size: u32,
    /// The lengths of its live records together, in bytes.
    pub live: u64,
}

/// Writes the names in a directory by their bytes, a line for each: `d NAME` for a directory, `f
/// SIZE NAME` for a file; of a file its own line. With `long` each line has the size and what the
/// live records take, in bytes, before the name. `Nothing` where nothing stands at the path.
pub(crate) fn list<F: Flash, W: Write>(
    core: &Core<F>,
    path: &Path,
    long: bool,
    out: &mut W,
) -> Result<(), VolumeFault>
    ensures written { (inode : ℕ) → resolve (state_in core.now.tree) path.now ≡ Some inode
        → OnOk result (Appends (W.contents out.old) (W.contents out.new)
        (list_text long core.now.tree core.now.index.records.items inode)) }
    ensures nothing { (result ≡ Err VolumeFault.Nothing)
        ↔ (resolve (state_in core.now.tree) path.now ≡ None) }
{
    let tree = core.tree();
    let Some(inode) = tree.resolve(path) else {
        return Err(VolumeFault::Nothing);
    };
    if tree.is_directory(inode) {
        return list_directory(core, inode, long, out);
    }
    if let Some((_, name)) = tree.parent_name(inode) {
        write_entry(stat_of(core, inode, long), long, &name, out)?;
    }
    Ok(())
}

fn list_directory<F: Flash, W: Write>(
    core: &Core<F>,
    directory: u32,
    long: bool,
    out: &mut W,
) -> Result<(), VolumeFault>
    requires { is_directory_in (state_in core.now.tree) directory ≡ true }
    ensures written { OnOk result
        (Appends (W.contents out.old) (W.contents out.new)
        (directory_lines long core.now.tree core.now.index.records.items directory)) }
    ensures nothing { result ≢ Err VolumeFault.Nothing }
{
    let names = core.tree().names(directory)?;
    for (name, inode) in names.iter() {
        write_entry(stat_of(core, *inode, long), long, name, out)?;
    }
    Ok(())
}

/// What is to be seen of an inode; what its records take is looked for only where `long` asks for
/// it.
pub(crate) fn stat_of<F: Flash>(core: &Core<F>, inode: u32, long: bool) -> Stat
    ensures { result ≡ stat_in long core.now.tree core.now.index.records.items inode }
{
    let tree = core.tree();
    Stat {
        directory: tree.is_directory(inode),
        size: tree.size(inode).unwrap_or(0),
        live: if long {
            core.log().live_bytes(inode, tree)
        } else {
            0
        },
    }
}

fn write_entry<W: Write>(stat: Stat, long: bool, name: &Name, out: &mut W) -> io::Result<()>
    ensures { OnOk result
        (Appends (W.contents out.old) (W.contents out.new) (entry_text long stat name.now)) }
{
    let Stat {
        directory,
        size,
        live,
    } = stat;
    let letter = if directory { 'd' } else { 'f' };
    if long {
        write!(out, "{letter} {size} {live} ")?;
    } else if directory {
        out.write_all(b"d ")?;
    } else {
        write!(out, "f {size} ")?;
    }
    out.write_all(name.bytes())?;
    out.write_all(b"\n")
}

/// The file at a path. `Nothing` where nothing stands there, `Directory` where that is no file.
pub(crate) fn file_at(tree: &Tree, path: &Path) -> Result<u32, VolumeFault>
    ensures found { IfOk result (λ inode. resolve (state_in tree.now) path.now ≡ Some inode) }
    ensures file { IfOk result (λ inode. is_directory_in (state_in tree.now) inode ≡ false) }
    ensures nothing { result ≡ Err VolumeFault.Nothing
        → resolve (state_in tree.now) path.now ≡ None }
{
    match tree.resolve(path) {
        None => Err(VolumeFault::Nothing),
        Some(inode) if tree.is_directory(inode) => Err(VolumeFault::Directory),
        Some(inode) => Ok(inode),
    }
}

/// Writes the bytes of a file, and nothing else.
pub(crate) fn show<W: Write>(tree: &Tree, inode: u32, out: &mut W) -> io::Result<()>
    ensures { OnOk result
        (Appends (W.contents out.old) (W.contents out.new) (bytes_in tree.now inode)) }
{
    let mut chunk = [0u8; CHUNK_LEN];
    let mut offset = 0u32;
    for _ in 0..u64::MAX {
        let count = tree.read(inode, offset, &mut chunk);
        if count == 0 {
            return Ok(());
        }
        out.write_all(&chunk[..count])?;
        match offset.checked_add(count as u32) {
            Some(next) => offset = next,
            None => return Err(too_long()),
        }
    }
    Err(too_long())
}

/// What no file is: longer than an offset can tell.
fn too_long() -> io::Error {
    io::Error::from(io::ErrorKind::FileTooLarge)
}

/// How full a volume is.
#[derive(Clone, Copy)]
pub(crate) struct SpaceUsage {
    pub sectors: u32,
    /// How many bytes a sector has.
    pub sector_size: u32,
    /// How many sectors are erased.
    pub erased: u32,
    /// What the live records weigh, in bytes.
    pub weight: u64,
    /// The weight below which no operation is refused for want of room while two sectors are
    /// erased.
    pub sure: u64,
}

pub(crate) fn usage_of<F: Flash>(core: &Core<F>) -> SpaceUsage
    ensures sizes { (result.sectors ≡ core.now.index.sectors)
        × (result.sector_size ≡ core.now.index.sector_size) }
    ensures erased { result.erased ≡ core.now.index.sectors - core.now.index.held }
    ensures weight { core.now.failed ≡ false
        → result.weight ≡ weight_in core.now.tree (log_in core.now.image core.now.index) }
    ensures sure { result.sure ≡ heavy core.now.index.sectors core.now.index.sector_size }
{
    let log = core.log();
    SpaceUsage {
        sectors: log.sectors(),
        sector_size: log.sector_size(),
        erased: log.erased(),
        weight: log.live_weight(core.tree()),
        sure: log.sure_weight(),
    }
}

/// Writes how full a volume is: its sectors and their size in bytes, how many are erased, what its
/// live records weigh, and the weight below which no operation is refused for want of room while
/// two sectors are erased.
pub(crate) fn write_usage<F: Flash, W: Write>(core: &Core<F>, out: &mut W) -> io::Result<()>
    ensures { core.now.failed ≡ false → OnOk result
        (Appends (W.contents out.old) (W.contents out.new) (usage_text (usage_in core.now))) }
{
    write_lines(usage_of(core), out)
}

fn write_lines<W: Write>(usage: SpaceUsage, out: &mut W) -> io::Result<()>
    ensures { OnOk result
        (Appends (W.contents out.old) (W.contents out.new) (usage_text usage)) }
{
    let SpaceUsage {
        sectors,
        sector_size,
        erased,
        weight,
        sure,
    } = usage;
    writeln!(
        out,
        "sectors {sectors} of {sector_size} bytes, {erased} erased"
    )?;
    writeln!(
        out,
        "live {weight} bytes in records, room is sure below {sure}"
    )
}

/// Writes in a line whether a volume is clean, and how many records it has; and in one more which
/// sector it was whose erase had been cut off, if one had.
pub(crate) fn check<F: Flash, W: Write>(
    core: &Core<F>,
    begun: Option<u32>,
    out: &mut W,
) -> io::Result<()> {
    let clean = if core.clean() { "clean" } else { "unclean" };
    let records = core.log().records().len();
    writeln!(out, "volume {clean}, {records} records")?;
    match begun {
        Some(sector) => writeln!(out, "sector {sector} was being erased"),
        None => Ok(()),
    }
}
