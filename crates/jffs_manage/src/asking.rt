//! What is asked of a mounted volume, and its end.

use crate::fault::VolumeFault;
use jffs_flash::Flash;
use jffs_session::Session;
use jffs_tree::{Cause, Outcome, Wish};

/// Has one change done, and erases what died by it.
///
/// `Refused` where it wasn't granted, in place of which `NoSpace` or, for a removal, `Stuck`
/// stands for want of room.
pub(crate) fn ask<F: Flash>(volume: &mut Session<F>, wish: Wish) -> Result<(), VolumeFault> {
    let removes = matches!(&wish, Wish::Remove(_));
    match volume.change(wish) {
        Ok(()) => Ok(()),
        Err(cause) => Err(refused(cause, removes)),
    }
}

/// What a change ends with that was refused; for want of room, by whether it was a removal.
pub(crate) fn refused(cause: Cause, removes: bool) -> VolumeFault {
    match cause {
        Cause::NoSpace if removes => VolumeFault::Stuck,
        Cause::NoSpace => VolumeFault::NoSpace,
        _ => VolumeFault::Refused(cause),
    }
}

/// Unmounts the volume, unless its device failed or no node was appended.
fn finish<F: Flash>(volume: &mut Session<F>) -> Result<(), VolumeFault> {
    if volume.core().failed() {
        return Err(VolumeFault::Refused(Cause::Failed));
    }
    if !volume.is_changed() {
        return Ok(());
    }
    match volume.unmount() {
        Outcome::Refused(cause) => Err(VolumeFault::Refused(cause)),
        _ => Ok(()),
    }
}

/// Unmounts the volume, unless its device failed or no node was appended, and gives the device
/// back. `Refused` where that was refused.
pub(crate) fn close<F: Flash>(mut volume: Session<F>) -> (F, Result<(), VolumeFault>) {
    let closed = finish(&mut volume);
    (volume.into_core().into_flash(), closed)
}
