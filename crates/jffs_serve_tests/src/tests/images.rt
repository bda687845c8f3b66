//! Rings of jobs, and images on them.

use jffs_core::Core;
use jffs_flash::MemoryFlash;
use jffs_line::LineFault;
use jffs_serve::{JobEnd, Jobs, job_ring};
use jffs_tree::Tree;
use std::alloc::Global;
use std::test::Fail;

/// A ring with room for so many images.
pub(super) fn ring(alloc: Global, capacity: usize) -> Result<(Jobs, JobEnd), LineFault> {
    job_ring(alloc, capacity)
}

/// Why there is no such ring.
pub(super) fn ring_fault(alloc: Global, capacity: usize) -> Option<LineFault> {
    ring(alloc, capacity).err()
}

/// An image that comes back since no slot is free.
pub(super) fn sent_back(jobs: &mut Jobs, image: Vec<u8>) -> Option<Vec<u8>> {
    jobs.send(image).err()
}

/// The image that was sent first.
pub(super) fn taken(end: &mut JobEnd) -> Option<Vec<u8>> {
    end.take()
}

/// Whether an image of this one byte is sent.
pub(super) fn sends(alloc: Global, jobs: &mut Jobs, byte: u8) -> Result<bool, Fail> {
    let image = vec![in alloc; byte]?;
    Ok(sent_back(jobs, image).is_none())
}

/// Whether an image waits, and has these bytes.
pub(super) fn takes(end: &mut JobEnd, wanted: &[u8]) -> bool {
    match taken(end) {
        Some(image) => image.as_slice() == wanted,
        None => false,
    }
}

/// The image of the oldest sector.
fn oldest(core: &mut Core<MemoryFlash>) -> Result<Vec<u8>, Fail> {
    if core.log().held() < 1 {
        return Err("a log with a sector".into());
    }
    Ok(core.oldest_image()?)
}

/// A ring on which this image waits.
fn with_image(alloc: Global, image: Vec<u8>) -> Result<JobEnd, Fail> {
    let (mut jobs, end) = ring(alloc, 4)?;
    match sent_back(&mut jobs, image) {
        None => Ok(end),
        Some(_) => Err("a ring with a place".into()),
    }
}

/// A ring with the image of the oldest sector.
pub(super) fn with_job(alloc: Global, core: &mut Core<MemoryFlash>) -> Result<JobEnd, Fail> {
    let image = oldest(core)?;
    with_image(alloc, image)
}

/// The same, with the tree of the volume.
pub(super) fn job_and_tree(
    alloc: Global,
    core: &mut Core<MemoryFlash>,
) -> Result<(JobEnd, Tree), Fail> {
    let tree = core.tree().copy_tree()?;
    let end = with_job(alloc, core)?;
    Ok((end, tree))
}
