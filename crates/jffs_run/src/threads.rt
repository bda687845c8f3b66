//! All threads of a run, started and joined.

ghost use Rattle.std.specs.Prelude.{◌≡◌, ◌⊎◌, ◌∷◌, [], Some, IfOk, false, vec_len};
ghost use Rattle.jffs_index.specs.Ends.{publisher_index};
ghost use Rattle.jffs_serve.specs.Showing.{CanServe};
ghost use Rattle.jffs_tree.specs.declared.wish.Wish.TheVariants.{Unmount};
ghost use Rattle.jffs_line.specs.Requests.{request};
ghost use Rattle.jffs_run.specs.Crew.{IsFit, HasFinished};
ghost use Rattle.jffs_run.specs.Started.{IsReserved, IsRunning};

use crate::cleaner::{join_cleaner, start_cleaner};
use crate::crew::{Crew, Finished};
use crate::fault::RunWhy;
use crate::joining::{join_readers, join_writers};
use crate::log_thread::{start_log, unserved};
use crate::promise::{Cleaner, Cleaning, LogEnd, LogHandle, LogSide, ReaderHandle, Writing};
use crate::reader::ReaderEnd;
use crate::signals::Signals;
use crate::starting::{Looking, start_readers, start_writers};
use crate::writer::{Gate, offer_until};
use jffs_flash::Flash;
use jffs_line::{Control, Hand, Hands, Taker};
use jffs_serve::Ended;
use jffs_text::Script;
use jffs_tree::Wish;
use std::alloc::{AllocError, Global};
use std::snapshot::Snapshot;
use std::sync::Wait;
use std::thread;
use std::thread::{Scope, Threads};

/// Capacity for what is started and joined, so that between the first start and the last join
/// no memory is needed.
#[derive(Drop)]
struct Reserved<'s, H: Hand> {
    writers: Vec<Writing<'s, H>>,
    hands: Vec<H>,
    readers: Vec<ReaderHandle<'s>>,
    ends: Vec<ReaderEnd>,
}

impl<'s, H: Hand> Reserved<'s, H> {
    ghost use Rattle.jffs_run.specs.Started.{IsReserved};

    fn reserve(alloc: Global, writers: usize, readers: usize) -> Result<Reserved<'s, H>, AllocError>
        ensures { IfOk result (IsReserved writers readers) }
    {
        Ok(Reserved {
            writers: Vec::with_capacity(alloc, writers)?,
            hands: Vec::with_capacity(alloc, writers)?,
            readers: Vec::with_capacity(alloc, readers)?,
            ends: Vec::with_capacity(alloc, readers)?,
        })
    }
}

/// All threads of a run, as far as they could be started, with the control, which stays here, and
/// room for what comes back.
#[derive(Drop)]
struct Running<'s, H: Hand, F: Flash, T: Taker, W: Wait + Drop> {
    script: &'s Script<'s>,
    crew: Snapshot<Crew<H>>,
    log: LogHandle<F, T, W>,
    cleaning: Cleaning<H>,
    looking: Looking<'s>,
    writing: Vec<Writing<'s, H>>,
    control: Control<H>,
    hands: Vec<H>,
    ends: Vec<ReaderEnd>,
}

/// Starts all threads but the log's, which was started, as far as threads can be made.
fn start_all<
    's,
    E,
    R: Threads + Wait + Sync,
    H: Hand + Send + 's,
    F: Flash,
    T: Taker,
    W: Wait + Drop,
    G: Gate + Sync,
>(
    rt: &'s R,
    scope: &'s Scope<'s, E>,
    alloc: Global,
    script: &'s Script<'s>,
    crew: Crew<H>,
    log: LogHandle<F, T, W>,
    reserved: Reserved<'s, H>,
    gate: &'s G,
    signals: &'s Signals,
) -> Running<'s, H, F, T, W>
    requires crew { IsFit H.Hand script.now crew
        (publisher_index log.promise.side.value.publisher) }
    requires room { IsReserved (vec_len crew.writers) (vec_len crew.readers) reserved }
    ensures given { (result.script.now ≡ script.entry.now) × (result.crew.value ≡ crew)
        × (result.log ≡ log) }
    ensures running { IsRunning H.Hand result }
{
    let given = Snapshot::of(&crew);
    let cleaning = start_cleaner(rt, scope, alloc, crew.cleaner, script.cleaner, signals);
    let looking = start_readers(
        rt,
        scope,
        alloc,
        reserved.readers,
        crew.readers,
        &script.readers,
        signals,
    );
    let writing = start_writers(
        rt,
        scope,
        alloc,
        reserved.writers,
        crew.writers,
        &script.writers,
        gate,
        signals,
    );
    Running {
        script,
        crew: given,
        log,
        cleaning,
        looking,
        writing,
        control: crew.control,
        hands: reserved.hands,
        ends: reserved.ends,
    }
}

/// Joins the writers, has the control ask for the Unmount unless a writer found the log thread
/// ended, and joins the log thread and the rest.
fn join_all<'s, R: Threads + Wait, H: Hand + Send + 's, F: Flash, T: Taker, W: Wait + Drop>(
    rt: &R,
    running: Running<'s, H, F, T, W>,
    ended: &Ended,
) -> Finished<H, F, T, W>
    requires running { IsRunning H.Hand running }
    ensures finished { HasFinished H.Hand T.Taker running.entry.script.now
        running.entry.crew.value running.entry.log.promise.side.value result }
{
    let looking = running.looking;
    let others_made = looking.all && !running.cleaning.is_refused();
    let joined = join_writers(rt, running.writing, running.hands);
    let control = ask_unmount(rt, running.control, joined.stops.log_ended, ended);
    let log = running.log.join(rt);
    let answered = log.side.session.core().answers().len() as u64;
    let readers = join_readers(
        rt,
        looking.handles,
        &log.side.publisher,
        answered,
        running.ends,
    );
    let hands = Hands {
        writers: joined.hands,
        cleaner: join_cleaner(rt, running.cleaning),
        control,
    };
    Finished {
        hands,
        readers,
        log,
        fault: joined.stops.fault(others_made),
    }
}

/// What comes back where no thread was started but perhaps the log's, which served nothing.
fn unstarted<H: Hand, F: Flash, T: Taker, W: Wait + Drop>(
    alloc: Global,
    crew: Crew<H>,
    log: LogEnd<F, T, W>,
    why: RunWhy,
) -> Finished<H, F, T, W>
    ensures hands { (result.hands.writers ≡ crew.writers)
        × (result.hands.cleaner ≡ crew.cleaner.hand) × (result.hands.control ≡ crew.control) }
    ensures log { result.log ≡ log }
    ensures fault { result.fault ≡ Some why }
{
    let Crew {
        writers,
        cleaner,
        control,
        ..
    } = crew;
    let Cleaner { hand, .. } = cleaner;
    Finished {
        hands: Hands {
            writers,
            cleaner: hand,
            control,
        },
        readers: Vec::new(alloc),
        log,
        fault: Some(why),
    }
}

/// Starts all threads of a run in a scope, and joins them.
fn run_in<
    's,
    E,
    R: Threads + Wait + Sync,
    H: Hand + Send + 's,
    F: Flash + Send + Drop + 's,
    T: Taker + Send + 's,
    W: Wait + Drop + Send + 's,
    G: Gate + Sync,
>(
    rt: &'s R,
    scope: &'s Scope<'s, E>,
    alloc: Global,
    script: &'s Script<'s>,
    crew: Crew<H>,
    side: LogSide<F, T, W>,
    gate: &'s G,
    signals: &'s Signals,
) -> Finished<H, F, T, W>
    requires crew { IsFit H.Hand script.now crew (publisher_index side.publisher) }
    requires ready { CanServe side.session side.publisher }
    ensures finished { HasFinished H.Hand T.Taker script.entry.now crew side result }
{
    let Ok(reserved) = Reserved::reserve(alloc, crew.writers.len(), crew.readers.len()) else {
        return unstarted(alloc, crew, unserved(side), RunWhy::Memory);
    };
    let log = match start_log(rt, scope, side, signals) {
        Ok(log) => log,
        Err(end) => return unstarted(alloc, crew, end, RunWhy::Spawn),
    };
    let running = start_all(rt, scope, alloc, script, crew, log, reserved, gate, signals);
    join_all(rt, running, &signals.ended)
}

/// Has the control ask for the Unmount, until the line takes that in or the log thread is gone,
/// unless a writer found it gone.
fn ask_unmount<R: Wait, H: Hand>(
    rt: &R,
    control: Control<H>,
    log_ended: bool,
    ended: &Ended,
) -> Control<H>
    requires idle { H.accepted control.hand ≡ [] }
    ensures end { (H.sender result.hand ≡ H.sender control.hand)
        × (H.line result.hand ≡ H.line control.hand) }
    ensures asked { (H.accepted result.hand ≡ [])
        ⊎ ((log_ended ≡ false)
        × (H.accepted result.hand ≡ request (H.sender control.hand) 1 Unmount ∷ [])) }
{
    let mut control = control;
    if !log_ended {
        let _ = offer_until(rt, &mut control, Wish::Unmount, ended);
    }
    control
}

/// Runs all threads of a run.
pub(crate) fn run_all<
    R: Threads + Wait + Sync,
    H: Hand + Send,
    F: Flash + Send + Drop,
    T: Taker + Send,
    W: Wait + Drop + Send,
    G: Gate + Sync,
>(
    rt: &R,
    alloc: Global,
    script: &Script<'_>,
    crew: Crew<H>,
    side: LogSide<F, T, W>,
    gate: &G,
) -> Finished<H, F, T, W>
    requires crew { IsFit H.Hand script.now crew (publisher_index side.publisher) }
    requires ready { CanServe side.session side.publisher }
    ensures finished { HasFinished H.Hand T.Taker script.now crew side result }
{
    let signals = Signals::new();
    let signals = &signals;
    thread::scope(
        thread::scope_env(),
        rt,
        |scope| -> Finished<H, F, T, W>
            requires { IsFit H.Hand script.now crew (publisher_index side.publisher)
                × CanServe side.session side.publisher }
        { run_in(rt, scope, alloc, script, crew, side, gate, signals) },
    )
}
