//! The program.

use crate::answering::PATH_TEXT_MAX;
use crate::arguments::{
    CallFault, Task, VolumeCall, VolumeChange, VolumeLook, VolumeWork, call_of,
};
use crate::asking::{ask, close};
use crate::changing::{put, read_all, remove_all, unfinished_path};
use crate::drawing::{draw, draw_svg};
use crate::fault::{BROKEN, DONE, MISUSED, VolumeFault};
use crate::help::{HELP, VERSION};
use crate::hosting::{load, save};
use crate::leftover::{Leftover, Unseen};
use crate::looking::{check, file_at, list, show, write_usage};
use crate::mapping::{Map, map_of};
use crate::mounting::{lock, mount, mount_copy};
use crate::reached::Reached;
use crate::salvaging::save_damaged;
use crate::serving::{ServeEnd, ServedVolume};
use jffs_core::{Core, Opened};
use jffs_file::create_image;
use jffs_flash::{Flash, MAX_SECTORS, MIN_SECTORS, is_geometry};
use jffs_node::Path;
use jffs_protocol::{Room, serve};
use jffs_session::Session;
use jffs_text::Shown;
use jffs_tree::{Cause, Tree, Wish};
use std::alloc::Global;
use std::fs::File;
use std::io;
use std::io::{Read, Write};
use std::rt::Files;

/// Does what the words say, of which the first is the program's own name, with a volume in a file.
/// `coloured` says whether a map is written in colours, which a terminal shows.
///
/// Gives the exit status: 0; 1 where memory, a stream or a file failed, 2 after a wrong call or
/// where the file, or what is on the host, can't be used, 3 where the file is no volume, 4 where
/// the file system refused. For all but the first one line goes to `errors`; so does a
/// line for all that is missing where a damaged volume is saved, and one where the last version is
/// used, so that the volume can't be unmounted.
pub fn run_volume<Rt: Files<File = File> + AllocGlobal + Clone + Drop, R: Read, W: Write, E: Write>(
    rt: &Rt,
    words: &[String],
    input: &mut R,
    out: &mut W,
    errors: &mut E,
    coloured: bool,
) -> u8 {
    let call = match call_of(rt.alloc(), words) {
        Ok(call) => call,
        Err(fault) => {
            let _ = writeln!(errors, "jffs_volume: {fault}");
            return match fault {
                CallFault::Memory => BROKEN,
                _ => MISUSED,
            };
        }
    };
    let mut reached = Reached::new(rt.alloc());
    let done = match call {
        VolumeCall::Help => write_text(HELP, out),
        VolumeCall::Version => write_text(VERSION, out),
        VolumeCall::Do(work) => carry_out(rt, work, input, out, errors, coloured, &mut reached),
    };
    match done {
        Ok(()) => DONE,
        Err(fault) => {
            let _ = tell(call, &reached, fault, errors);
            fault.status()
        }
    }
}

/// Writes what a call ended with, after the words that it is about and the path at which it
/// stopped.
fn tell<E: Write>(
    call: VolumeCall<'_>,
    reached: &Reached,
    fault: VolumeFault,
    errors: &mut E,
) -> io::Result<()> {
    errors.write_all(b"jffs_volume: ")?;
    if let VolumeCall::Do(work) = call {
        for word in work.names() {
            if !word.is_empty() {
                write!(errors, "{}: ", Shown::text(word))?;
            }
        }
        if !reached.is_empty() {
            write!(errors, "{reached}: ")?;
        }
    }
    writeln!(errors, "{fault}")
}

fn write_text<W: Write>(text: &str, out: &mut W) -> Result<(), VolumeFault> {
    out.write_all(text.as_bytes())?;
    out.flush()?;
    Ok(())
}

/// Does what a call asks for. `reached` is left with the path at which a walk stopped.
fn carry_out<Rt: Files<File = File> + AllocGlobal + Clone + Drop, R: Read, W: Write, E: Write>(
    rt: &Rt,
    work: VolumeWork<'_>,
    input: &mut R,
    out: &mut W,
    errors: &mut E,
    coloured: bool,
    reached: &mut Reached,
) -> Result<(), VolumeFault> {
    match work.task {
        Task::Format {
            sectors,
            sector_size,
        } => {
            check_sizes(sectors, sector_size)?;
            let _ = create_image(rt, work.file, sectors, sector_size)?;
        }
        Task::Look(asked) => look(rt, &work, asked, out, coloured)?,
        Task::Change(asked) => change(rt, &work, asked, input, errors, reached)?,
        Task::Serve => serve_volume(rt, &work, input, out, errors)?,
        Task::Save {
            directory,
            damaged: true,
        } => save_damaged(rt, &work, directory, reached, errors)?,
        Task::Save {
            directory,
            damaged: false,
        } => {
            let opened = mount_copy(rt, work.file, work.sector_size)?;
            save(rt, opened.core.tree(), directory, reached)?;
        }
    }
    out.flush()?;
    Ok(())
}

/// That a volume may have these sizes; `Sectors` or `SectorSize` with the first that it may not.
fn check_sizes(sectors: u32, sector_size: u32) -> Result<(), VolumeFault> {
    if is_geometry(sectors, sector_size) {
        Ok(())
    } else if sectors < MIN_SECTORS || MAX_SECTORS < sectors {
        Err(VolumeFault::Sectors(sectors))
    } else {
        Err(VolumeFault::SectorSize(sector_size))
    }
}

/// Mounts a copy of the volume and writes of it what is asked for. Nothing is changed.
fn look<Rt: Files + AllocGlobal, W: Write>(
    rt: &Rt,
    work: &VolumeWork<'_>,
    asked: VolumeLook<'_>,
    out: &mut W,
    coloured: bool,
) -> Result<(), VolumeFault> {
    let Opened { core, sector } = mount_copy(rt, work.file, work.sector_size)?;
    let alloc = rt.alloc();
    match asked {
        VolumeLook::List { path, long } => list_at(alloc, &core, path, long, out),
        VolumeLook::Show(path) => show_at(alloc, core.tree(), path, out),
        VolumeLook::Usage => Ok(write_usage(&core, out)?),
        VolumeLook::Check => Ok(check(&core, sector, out)?),
        VolumeLook::Map { svg } => {
            let map = map_of(alloc, &core)?;
            Ok(draw_as(&map, svg, coloured, out)?)
        }
    }
}

fn list_at<F: Flash, W: Write>(
    alloc: Global,
    core: &Core<F>,
    text: &str,
    long: bool,
    out: &mut W,
) -> Result<(), VolumeFault> {
    list(core, &Path::parse(alloc, text)?, long, out)
}

fn show_at<W: Write>(
    alloc: Global,
    tree: &Tree,
    text: &str,
    out: &mut W,
) -> Result<(), VolumeFault> {
    let file = file_at(tree, &Path::parse(alloc, text)?)?;
    Ok(show(tree, file, out)?)
}

fn draw_as<W: Write>(map: &Map, svg: bool, coloured: bool, out: &mut W) -> io::Result<()> {
    if svg {
        draw_svg(map, out)
    } else {
        draw(map, coloured, out)
    }
}

/// Mounts the volume, changes it, unmounts it and brings the file to its medium.
fn change<Rt: Files<File = File> + AllocGlobal + Clone + Drop, R: Read, E: Write>(
    rt: &Rt,
    work: &VolumeWork<'_>,
    asked: VolumeChange<'_>,
    input: &mut R,
    errors: &mut E,
    reached: &mut Reached,
) -> Result<(), VolumeFault> {
    let _locked = lock(rt, work.file)?;
    let mut volume = mount(rt, work.file, work.sector_size)?;
    let changed = change_in(rt, &mut volume, asked, input, reached);
    let (flash, closed) = close(volume);
    if let Err(fault) = changed {
        return Err(looked_after(rt, work, flash.sector_size(), reached, fault));
    }
    closed_or_spent(closed, work.file, errors)?;
    flash.sync()?;
    Ok(())
}

/// What a command comes to whose changes are done, by how the unmount after them ended. Where only
/// a version for it was lacking, that is told of on `errors`, and the command is done.
fn closed_or_spent<E: Write>(
    closed: Result<(), VolumeFault>,
    file: &str,
    errors: &mut E,
) -> Result<(), VolumeFault> {
    let Err(fault) = closed else {
        return Ok(());
    };
    match fault.cause() {
        Some(Cause::VersionsSpent) => {
            let (file, cause) = (Shown::text(file), Cause::VersionsSpent);
            let _ = writeln!(
                errors,
                "jffs_volume: {file}: {cause}: the last change is done, and the volume can't be \
                unmounted any more"
            );
            Ok(())
        }
        Some(cause) => Err(VolumeFault::NotClosed(cause)),
        None => Err(fault),
    }
}

/// What a put ends with that failed with the device: the volume is mounted once more, to look what
/// is left.
fn looked_after<Rt: Files + AllocGlobal>(
    rt: &Rt,
    work: &VolumeWork<'_>,
    sector_size: u32,
    reached: &Reached,
    fault: VolumeFault,
) -> VolumeFault {
    let VolumeFault::Unfinished {
        cause,
        left: Leftover::Unseen(unseen),
    } = fault
    else {
        return fault;
    };
    let path = if reached.is_empty() {
        work.first
    } else {
        reached.text()
    };
    match left_on(rt, work.file, sector_size, path, unseen) {
        Ok(Some(left)) => VolumeFault::Unfinished { cause, left },
        Ok(None) => VolumeFault::Refused(cause),
        Err(_) => fault,
    }
}

/// What a put to this path has left on the volume in a file.
fn left_on<Rt: Files + AllocGlobal>(
    rt: &Rt,
    file: &str,
    sector_size: u32,
    path: &str,
    unseen: Unseen,
) -> Result<Option<Leftover>, VolumeFault> {
    let opened = mount_copy(rt, file, Some(sector_size))?;
    let unfinished = unfinished_path(rt.alloc(), path)?;
    let path = Path::parse(rt.alloc(), path)?;
    Ok(unseen.left_on(opened.core.tree(), &path, &unfinished))
}

/// Mounts the volume and answers what the input asks, up to the unmount; where none is asked for,
/// it is unmounted once the input or a stream ends, and then the file is brought to its medium.
fn serve_volume<Rt: Files<File = File> + AllocGlobal, R: Read, W: Write, E: Write>(
    rt: &Rt,
    work: &VolumeWork<'_>,
    input: &mut R,
    out: &mut W,
    errors: &mut E,
) -> Result<(), VolumeFault> {
    let _locked = lock(rt, work.file)?;
    let volume = mount(rt, work.file, work.sector_size)?;
    let data_max = volume.core().limits().data_max;
    let mut served = ServedVolume::new(rt.alloc(), volume);
    let mut room = Room::new(rt.alloc(), PATH_TEXT_MAX, data_max)?;
    let streams = serve(&mut served, &mut room, input, out);
    let (volume, end) = served.into_parts();
    if let ServeEnd::Unmounted = end {
        return Ok(streams?);
    }
    let (flash, closed) = close(volume);
    if let ServeEnd::Failed(fault) = end {
        return Err(fault);
    }
    streams?;
    closed_or_spent(closed, work.file, errors)?;
    flash.sync()?;
    Ok(())
}

/// Asks for what a command says.
fn change_in<Rt: Files + AllocGlobal + Clone + Drop, F: Flash, R: Read>(
    rt: &Rt,
    volume: &mut Session<F>,
    asked: VolumeChange<'_>,
    input: &mut R,
    reached: &mut Reached,
) -> Result<(), VolumeFault> {
    let alloc = rt.alloc();
    match asked {
        VolumeChange::Put(path) => put(alloc, volume, path, &read_all(alloc, input)?),
        VolumeChange::MakeDir(path) => ask(volume, Wish::MakeDir(Path::parse(alloc, path)?)),
        VolumeChange::Move { from, to } => ask(
            volume,
            Wish::Rename {
                from: Path::parse(alloc, from)?,
                to: Path::parse(alloc, to)?,
            },
        ),
        VolumeChange::Remove(path) => ask(volume, Wish::Remove(Path::parse(alloc, path)?)),
        VolumeChange::RemoveAll(path) => remove_all(alloc, volume, path, reached),
        VolumeChange::Load(directory) => load(rt, volume, directory, reached),
    }
}
