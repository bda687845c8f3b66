//! What is changed on a volume.

ghost use Rattle.jffs_manage.specs.Left.{IsLeft};

use crate::asking::{ask, refused};
use crate::fault::VolumeFault;
use crate::leftover::{Leftover, UNFINISHED, Unseen, left_in};
use crate::looking::file_at;
use crate::reached::Reached;
use crate::rooming::{Needed, make_room};
use crate::walking::below;
use jffs_flash::Flash;
use jffs_node::{FILE_MAX, Path};
use jffs_session::{PutFault, PutPaths, PutStep, Session, are_beside};
use jffs_tree::{Cause, Wish};
use std::alloc::Global;
use std::io;
use std::io::Read;

/// Puts bytes into a file at a path, instead of one that stands there: into a new file beside it,
/// then the old one is removed and the new one renamed.
///
/// `FileLong` where no file is so long, `Reserved` where the path is that of an unfinished file,
/// `Left` where an unfinished file stands there already, `Directory` where a directory stands at
/// the path, `NoSpace` where the log has no room for all of it, which is seen before it begins: no
/// file is changed. Where a request was refused, the new file is removed, unless the old one is gone
/// by then: that refusal, if nothing is left, and else `Unfinished` with what is left.
pub(crate) fn put<F: Flash>(
    alloc: Global,
    volume: &mut Session<F>,
    text: &str,
    bytes: &[u8],
) -> Result<(), VolumeFault> {
    if bytes.len() > FILE_MAX as usize {
        return Err(VolumeFault::Refused(Cause::FileLong));
    }
    let path = Path::parse(alloc, text)?;
    let unfinished = unfinished_path(alloc, text)?;
    if volume.tree().resolve(&unfinished).is_some() {
        return Err(VolumeFault::Left);
    }
    let replaces = match file_at(volume.tree(), &path) {
        Ok(_) => true,
        Err(VolumeFault::Nothing) => false,
        Err(fault) => return Err(fault),
    };
    let piece = volume.core().limits().data_max.max(1);
    let len = bytes.len() as u32;
    make_room(volume, Needed { bytes: len, piece })?;
    put_at(volume, &path, &unfinished, bytes)
}

/// Puts bytes into a file at a path, by way of the unfinished file beside it.
fn put_at<F: Flash>(
    volume: &mut Session<F>,
    path: &Path,
    unfinished: &Path,
    bytes: &[u8],
) -> Result<(), VolumeFault> {
    if !are_beside(path, unfinished) {
        return Err(VolumeFault::Reserved);
    }
    match volume.put(PutPaths { path, unfinished }, bytes) {
        Ok(()) => Ok(()),
        Err(fault) => {
            let len = u32::try_from(bytes.len()).unwrap_or(u32::MAX);
            let left = left_of_put(volume, path, unfinished, len, fault.step);
            Err(put_fault(fault, left))
        }
    }
}

/// What a put has left that was stopped at this step.
fn left_of_put<F: Flash>(
    volume: &Session<F>,
    path: &Path,
    unfinished: &Path,
    len: u32,
    step: PutStep,
) -> Option<Leftover>
    ensures { IsLeft result volume.now.core.tree path.now unfinished.now len }
{
    if volume.core().failed() {
        let renamed = step == PutStep::Rename;
        return Some(Leftover::Unseen(Unseen { len, renamed }));
    }
    left_in(volume.tree(), path, unfinished, len)
}

/// What a put ends with that was stopped and has left this.
fn put_fault(fault: PutFault, left: Option<Leftover>) -> VolumeFault {
    let cause = fault.cause;
    match left {
        Some(left) => VolumeFault::Unfinished { cause, left },
        None => refused(cause, fault.step == PutStep::Remove),
    }
}

/// The path of the unfinished file in the directory of a path. `Path` where the text is no path,
/// `Reserved` where it is that path itself, `Memory`.
pub(crate) fn unfinished_path(alloc: Global, text: &str) -> Result<Path, VolumeFault> {
    let directory = match text.rsplit_once('/') {
        Some((directory, _)) => directory,
        None => "",
    };
    let beside = format!(in alloc; "{directory}/{UNFINISHED}")?;
    if text == beside.as_str() {
        return Err(VolumeFault::Reserved);
    }
    Ok(Path::parse(alloc, beside.as_str())?)
}

/// Removes what stands at a path, and all below it, the deepest first.
///
/// `Path` where the text is no path, `Refused` for RootFixed, NotFound, `Memory`: nothing is
/// removed. `Refused` where another request was refused: what was removed by then stays removed.
/// `reached` is left with the path at which it stopped.
pub(crate) fn remove_all<F: Flash>(
    alloc: Global,
    volume: &mut Session<F>,
    text: &str,
    reached: &mut Reached,
) -> Result<(), VolumeFault> {
    let path = Path::parse(alloc, text)?;
    if path.names().is_empty() {
        return Err(VolumeFault::Refused(Cause::RootFixed));
    }
    let Some(inode) = volume.tree().resolve(&path) else {
        return Err(VolumeFault::Refused(Cause::NotFound));
    };
    let all = below(alloc, volume.tree(), text, inode)?;
    for found in all.iter().rev() {
        reached.set(found.path.as_str())?;
        ask(
            volume,
            Wish::Remove(Path::parse(alloc, found.path.as_str())?),
        )?;
    }
    reached.clear();
    Ok(())
}

/// The bytes of standard input, or one more than a file may have.
pub(crate) fn read_all<R: Read>(alloc: Global, input: &mut R) -> Result<Vec<u8>, VolumeFault> {
    read_some(alloc, input).map_err(VolumeFault::of_input)
}

/// All bytes of a reader, or one more than a file may have.
pub(crate) fn read_some<R: Read>(alloc: Global, input: &mut R) -> io::Result<Vec<u8>> {
    let mut bytes = Vec::new(alloc);
    input.take(u64::from(FILE_MAX) + 1).read_to_end(&mut bytes)?;
    Ok(bytes)
}
