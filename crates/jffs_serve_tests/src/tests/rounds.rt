//! One run of the log side.

ghost use Rattle.std.specs.Prelude.{◌≡◌, [], IfOk};
ghost use Rattle.jffs_index.specs.Histories.{opening_of};
ghost use Rattle.jffs_index.specs.Ends.{published, pending};
ghost use Rattle.jffs_serve.specs.Showing.{CanServe};

use crate::tests::images::ring;
use crate::tests::lines::all_waiting;
use crate::tests::volumes::Ask;
use jffs_core::{Answer, Core};
use jffs_flash::Flash;
use jffs_index::{Publisher, Reader, publish_index};
use jffs_line::{SharedTaker, Taker};
use jffs_serve::{JobEnd, Jobs, Served, Session, serve};
use jffs_tree::{Outcome, Tree};
use std::alloc::Global;
use std::cell::Cell;
use std::sync::Wait;
use std::test::Fail;

/// An index over a tree, with one reader.
pub(super) fn index<R: Wait + Drop>(
    rt: R,
    alloc: Global,
    tree: Tree,
) -> Result<(Publisher<R>, Reader), Fail>
    ensures { IfOk result
        (λ index. (published index.0 ≡ opening_of tree) × (pending index.0 ≡ [])) }
{
    let (publisher, mut readers) = publish_index(rt, alloc, tree, 1)?;
    match readers.pop() {
        Some(reader) => Ok((publisher, reader)),
        None => Err("one reader".into()),
    }
}

/// How many answers are published.
pub(super) fn answered_seen(reader: &mut Reader) -> Option<u64> {
    reader.look(|view| view.answered())
}

/// The last two outcomes.
pub(super) fn last_two(answers: &[Answer]) -> Option<[Outcome; 2]> {
    match answers {
        [.., first, second] => Some([first.outcome, second.outcome]),
        _ => None,
    }
}

/// What serving needs besides a core.
#[derive(Drop)]
struct Ready {
    taker: SharedTaker,
    jobs: Jobs,
    end: JobEnd,
}

/// What serving left. Its publisher is still there, so a reader sees what was published.
#[derive(Drop)]
pub(super) struct Left<'r, R: Wait, F: Flash> {
    pub(super) session: Session<F>,
    pub(super) served: Served,
    /// The cleaner's end of the jobs.
    pub(super) end: JobEnd,
    publisher: Publisher<&'r R>,
}

/// With these wishes on the line.
fn get_ready<R: Wait>(rt: &R, alloc: Global, asks: &[Ask]) -> Result<Ready, Fail> {
    let taker = all_waiting(rt, alloc, asks)?;
    let (jobs, end) = ring(alloc, 4)?;
    Ok(Ready { taker, jobs, end })
}

/// Serves until it ends otherwise than by Memory, in so many calls.
fn serve_on<R: Wait, W: Wait + Drop, F: Flash, T: Taker>(
    rt: &R,
    session: &mut Session<F>,
    taker: &mut T,
    publisher: &mut Publisher<W>,
    jobs: &mut Jobs,
    calls: u32,
) -> Served
    requires { CanServe session.old publisher.old }
{
    for _ in 0..calls {
        let served = serve(rt, session, taker, publisher, jobs);
        if served != Served::Memory {
            return served;
        }
    }
    Served::Memory
}

/// Serves what is ready, while the one reader of the index is in `slot`.
fn served_ready<'r, R: Wait, F: Flash + Drop>(
    rt: &'r R,
    alloc: Global,
    core: Core<F>,
    ready: Ready,
    slot: &Cell<Option<Reader>>,
    calls: u32,
) -> Result<Left<'r, R, F>, Fail> {
    let (mut publisher, reader) = index(rt, alloc, core.tree().copy_tree()?)?;
    slot.set(Some(reader));
    let Ready {
        mut taker,
        mut jobs,
        end,
    } = ready;
    let mut session = Session::new(core);
    let served = serve_on(
        rt,
        &mut session,
        &mut taker,
        &mut publisher,
        &mut jobs,
        calls,
    );
    Ok(Left {
        session,
        served,
        end,
        publisher,
    })
}

/// Serves all of these wishes in so many calls, while the one reader of the index is in `slot`.
pub(super) fn served_seen<'r, R: Wait, F: Flash + Drop>(
    rt: &'r R,
    alloc: Global,
    core: Core<F>,
    asks: &[Ask],
    slot: &Cell<Option<Reader>>,
    calls: u32,
) -> Result<Left<'r, R, F>, Fail> {
    let ready = get_ready(rt, alloc, asks)?;
    served_ready(rt, alloc, core, ready, slot, calls)
}

/// Serves all of these wishes in one call.
pub(super) fn served<'r, R: Wait, F: Flash + Drop>(
    rt: &'r R,
    alloc: Global,
    core: Core<F>,
    asks: &[Ask],
) -> Result<Left<'r, R, F>, Fail> {
    served_seen(rt, alloc, core, asks, &Cell::new(None), 1)
}
