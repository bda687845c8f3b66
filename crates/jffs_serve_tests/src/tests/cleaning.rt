//! The cleaner's side, and what a cleaner asks for.

use crate::tests::images::with_job;
use crate::tests::lines::cleaner_line;
use crate::tests::rounds::index;
use crate::tests::volumes::{mounted, moved};
use jffs_core::Core;
use jffs_flash::MemoryFlash;
use jffs_index::{Publisher, Reader};
use jffs_line::{Hand, Request, SharedHand, SharedTaker, Taker};
use jffs_serve::{Ended, JobEnd, clean_loop, clean_until};
use jffs_tree::{Tree, Wish};
use std::alloc::Global;
use std::sync::Wait;
use std::test::Fail;

/// What a cleaner needs besides a ring of jobs, with what has to be there meanwhile.
#[derive(Drop)]
pub(super) struct Side<'r, R: Wait> {
    pub(super) reader: Reader,
    pub(super) hand: SharedHand,
    pub(super) taker: SharedTaker,
    pub(super) publisher: Publisher<&'r R>,
}

/// An index over a tree, with one reader. Nobody serves over it.
pub(super) fn tree_index<'r, R: Wait>(
    rt: &'r R,
    alloc: Global,
    tree: Tree,
) -> Result<(Publisher<&'r R>, Reader), Fail> {
    index(rt, alloc, tree)
}

/// Over a published tree, on a line with room for `capacity` requests.
pub(super) fn cleaner_side<'r, R: Wait>(
    rt: &'r R,
    alloc: Global,
    tree: Tree,
    capacity: usize,
) -> Result<Side<'r, R>, Fail> {
    let (publisher, reader) = tree_index(rt, alloc, tree)?;
    let (hand, taker) = cleaner_line(rt, alloc, capacity)?;
    Ok(Side {
        reader,
        hand,
        taker,
        publisher,
    })
}

/// How many copies a cleaner hands in, in so many rounds.
pub(super) fn handed_in<R: Wait, H: Hand>(
    rt: &R,
    alloc: Global,
    jobs: &mut JobEnd,
    reader: &mut Reader,
    hand: &mut H,
    rounds: u32,
) -> u32 {
    clean_loop(rt, alloc, jobs, reader, hand, rounds).handed_in
}

/// The same, where it also ends once it is told.
pub(super) fn handed_in_until<R: Wait, H: Hand>(
    rt: &R,
    alloc: Global,
    jobs: &mut JobEnd,
    reader: &mut Reader,
    hand: &mut H,
    rounds: u32,
    ended: &Ended,
) -> u32 {
    clean_until(rt, alloc, jobs, reader, hand, rounds, ended).handed_in
}

/// So many requests that wait.
fn all_taken<R: Wait, T: Taker>(
    rt: &R,
    alloc: Global,
    taker: &mut T,
    count: u32,
) -> Result<Vec<Request>, Fail> {
    let mut taken = Vec::new(alloc);
    for _ in 0..count {
        taken.push(taker.take(rt).ok_or("a copy waits")?)?;
    }
    Ok(taken)
}

/// One round of the cleaner over a published tree, on a line with room for `capacity` requests;
/// gives what it handed in.
pub(super) fn cleaned_by<R: Wait>(
    rt: &R,
    alloc: Global,
    capacity: usize,
    tree: Tree,
    jobs: &mut JobEnd,
) -> Result<Vec<Request>, Fail> {
    let Side {
        mut reader,
        mut hand,
        mut taker,
        publisher: _publisher,
    } = cleaner_side(rt, alloc, tree, capacity)?;
    let count = handed_in(rt, alloc, jobs, &mut reader, &mut hand, 1);
    all_taken(rt, alloc, &mut taker, count)
}

/// A ring with the image of the oldest sector of a volume that was mounted again.
pub(super) fn moved_job(alloc: Global) -> Result<JobEnd, Fail> {
    let flash = moved(alloc)?.into_flash();
    let mut core = mounted(alloc, flash)?;
    with_job(alloc, &mut core)
}

/// What a cleaner hands in over the tree of such a volume.
pub(super) fn moved_copies<R: Wait>(
    rt: &R,
    alloc: Global,
    core: &Core<MemoryFlash>,
) -> Result<Vec<Request>, Fail> {
    let tree = core.tree().copy_tree()?;
    let mut jobs = moved_job(alloc)?;
    cleaned_by(rt, alloc, 8, tree, &mut jobs)
}

/// The number of each of three copies that were asked for, and its source.
pub(super) fn asked(requests: &[Request]) -> Option<[(u32, u32); 3]> {
    match requests {
        [a, b, c] => Some([source_of(a), source_of(b), source_of(c)]),
        _ => None,
    }
}

/// The number of a request, and the source of its copy.
pub(super) fn source_of(request: &Request) -> (u32, u32) {
    match &request.wish {
        Wish::Copy { source, .. } => (request.seq, *source),
        _ => (request.seq, 0),
    }
}
