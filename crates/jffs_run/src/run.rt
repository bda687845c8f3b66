//! A run of a script in threads.

ghost use Rattle.std.specs.Prelude.{◌≡◌, ◌⊎◌, [], map, false, None, Some, IfOk, IfErr, vec_len};
ghost use Rattle.std.specs.List.{All};
ghost use Rattle.jffs_index.specs.Histories.{opening_of};
ghost use Rattle.jffs_index.specs.Ends.{published, pending, publisher_index, index_of};
ghost use Rattle.jffs_run.specs.Ends.{accepted_by, end_of};
ghost use Rattle.jffs_run.specs.Crew.{IsNewLine};
ghost use Rattle.jffs_core.specs.CoreState.{CoreState};
ghost use Rattle.jffs_core.specs.Past.{IsFresh, IsLeftBy};
ghost use Rattle.jffs_run.specs.Account.{account_of};
ghost use Rattle.jffs_run.specs.Headline.{IsRun};
ghost use Rattle.jffs_run.specs.declared.fault.RunWhy.TheVariants.{Index, Memory, Settle};
ghost use Rattle.jffs_run.specs.Faults.{GivesBack, IsGivenUp, IsLeftWith, LeftByRun};
ghost use Rattle.jffs_run.specs.Accepted.{accepted_of};
ghost use Rattle.jffs_line.specs.Settling.{all_hands, IsSettled, WasSettled};

use crate::crew::{Crew, Finished};
use crate::fault::{RunFault, RunWhy};
use crate::outcome::{AcceptedBy, Run};
use crate::promise::{Cleaner, LogEnd, LogSide};
use crate::threads::run_all;
use crate::writer::Gate;
use jffs_core::Core;
use jffs_flash::Flash;
use jffs_index::{PLACES_MAX, Publisher, Reader, publish_index};
use jffs_line::{Ends, Hands, Settle, ring_line, shared_line};
use jffs_log::ScanFault;
use jffs_serve::{JobEnd, Jobs, Session, job_ring};
use jffs_text::{LineForm, Script, WRITERS_MAX};
use std::alloc::Global;
use std::snapshot::Snapshot;
use std::sync::Wait;
use std::thread::Threads;

/// How many images the job ring holds.
const JOB_PLACES: usize = 4;

/// What the hands of a run had accepted, and the rest of that run.
type Accounted<F, H> = (Snapshot<Hands<H>>, Run<F, ()>);

/// The published index of a run, and the job ring.
struct OpenedIndex<W: Wait + Drop> {
    publisher: Publisher<W>,
    readers: Vec<Reader>,
    cleaner: Reader,
    jobs: Jobs,
    job_end: JobEnd,
}

/// Opens the index over a copy of the core's tree, for `readers` readers and the cleaner, and makes
/// the job ring.
fn open<W: Wait + Drop, F: Flash>(
    rt: W,
    alloc: Global,
    core: &Core<F>,
    readers: usize,
) -> Result<OpenedIndex<W>, RunWhy>
    ensures published { IfOk result
        (λ opened. (published opened.publisher ≡ opening_of core.now.tree)
        × (pending opened.publisher ≡ [])) }
    ensures count { IfOk result (λ opened. vec_len opened.readers ≡ readers) }
    ensures looking { IfOk result
        (λ opened. All (λ reader. index_of reader ≡ publisher_index opened.publisher)
        opened.readers.items) }
    ensures refused { IfErr result (λ why. (why ≡ Index) ⊎ (why ≡ Memory)) }
{
    if readers >= PLACES_MAX {
        return Err(RunWhy::Index);
    }
    let tree = core.tree().copy_tree()?;
    let (jobs, job_end) = job_ring(alloc, JOB_PLACES).map_err(|_| RunWhy::Memory)?;
    let index = publish_index(rt, alloc, tree, readers + 1);
    let (publisher, mut readers) = index.map_err(|_| RunWhy::Index)?;
    let cleaner = readers.pop().ok_or(RunWhy::Index)?;
    Ok(OpenedIndex {
        publisher,
        readers,
        cleaner,
        jobs,
        job_end,
    })
}

/// A run over all ends of a line.
fn run_over<R: Threads + Wait + Sync, F: Flash + Send + Drop, T: Settle + Send, G: Gate + Sync>(
    rt: &R,
    alloc: Global,
    script: &Script<'_>,
    line: Ends<T::Of, T>,
    core: Core<F>,
    gate: &G,
) -> Result<Accounted<F, T::Of>, RunFault<F>>
where
    T::Of: Send,
    requires line { IsNewLine T.Of.Hand (T.ends line.taker) (T.taken line.taker) line.hands
        (vec_len script.now.writers) }
    requires core { (core.answers ≡ []) × (core.closed ≡ false) }
    ensures fault { IfErr result
        (GivesBack F.Flash (LeftByRun script.now.writers.items script.now.cleaner core)) }
    ensures run { IfOk result
        (λ r. IsRun core (account_of F.Flash script.now
        (λ sender. accepted_by T.Of.Hand sender (all_hands r.0.value)) r.1)) }
{
    let OpenedIndex {
        publisher,
        readers,
        cleaner,
        jobs,
        job_end,
    } = match open(rt, alloc, &core, script.readers.len()) {
        Ok(opened) => opened,
        Err(why) => return Err(given_up(why, core)),
    };
    let Ends { hands, taker } = line;
    let crew = Crew {
        writers: hands.writers,
        cleaner: Cleaner {
            hand: hands.cleaner,
            reader: cleaner,
            jobs: job_end,
        },
        control: hands.control,
        readers,
    };
    let side = LogSide {
        session: Session::new(core),
        taker,
        publisher,
        jobs,
    };
    let finished = run_all(rt, alloc, script, crew, side, gate);
    let accepted = Snapshot::of(&finished.hands);
    let run = settle_all(rt, alloc, finished)?;
    Ok((accepted, run))
}

/// Takes all ends back, whether it was a run or was given up.
fn settle_all<R: Wait, F: Flash + Drop, T: Settle, W: Wait + Drop>(
    rt: &R,
    alloc: Global,
    finished: Finished<T::Of, F, T, W>,
) -> Result<Run<F, ()>, RunFault<F>>
    requires ends { T.ends finished.log.side.taker
        ≡ map (end_of T.Of.Hand) (all_hands finished.hands) }
    ensures fault { IfErr result (GivesBack F.Flash
        (λ why rest. ((finished.fault ≡ Some why) ⊎ (why ≡ Settle))
        × IsLeftWith finished.log.side.session.core rest)) }
    ensures rest { IfOk result
        (λ run. (run.answers.items ≡ finished.log.side.session.core.answers)
        × (run.readers ≡ finished.readers) × (run.served ≡ finished.log.served)
        × (finished.fault ≡ None)) }
    ensures settled { IfOk result
        (λ run. IsSettled T.Of.sender T.Of.accepted (all_hands finished.hands)
        (T.taken finished.log.side.taker) run.waiting.items) }
    ensures taken { WasSettled T.Of.sender T.Of.accepted (all_hands finished.hands)
        (T.taken finished.log.side.taker) }
    ensures left { IfOk result
        (λ run. IsLeftBy finished.log.side.session.core (F.device run.flash)
        × (F.wear run.flash ≡ finished.log.side.session.core.wear)) }
{
    let Finished {
        hands,
        readers,
        log,
        fault,
    } = finished;
    let LogEnd { side, served } = log;
    let (flash, answers) = side.session.into_core().into_parts();
    let settled = side.taker.settle(rt, alloc, hands);
    if let Some(why) = fault {
        return Err(RunFault::with_flash(why, flash, answers));
    }
    match settled {
        Ok(settled) => Ok(Run {
            accepted: (),
            answers,
            waiting: settled.waiting,
            readers,
            served,
            flash,
        }),
        Err(_) => Err(RunFault::with_flash(RunWhy::Settle, flash, answers)),
    }
}

/// Runs a script in threads: one for the log, one for each writer and each reader, and one for the
/// cleaner where the script asks for it; and joins them all. `gate` is called for each wish in its
/// writer's thread. The device may hold a volume already: the script's own sizes are not looked at.
///
/// A fault has its reason, and hands the device back: one that doesn't mount, which is Mount and
/// nothing else, as scanning left it, any other as the mounted core left it after its last turn. In
/// these turns only what the script asks for was answered, and nothing where there is no line or no
/// index. The fault has these answers too.
pub fn run_threads<R: Threads + Wait + Sync, F: Flash + Send + Drop, G: Gate + Sync>(
    rt: &R,
    alloc: Global,
    script: &Script<'_>,
    flash: F,
    gate: &G,
) -> Result<Run<F>, RunFault<F>>
    ensures fault { IfErr result
        (GivesBack F.Flash (IsGivenUp script.now.writers.items script.now.cleaner (F.device flash)
        (F.wear flash))) }
    ensures run { IfOk result
        (λ run. (start : CoreState) × IsFresh (F.device flash) start
        × (start.wear ≡ F.wear flash)
        × IsRun start (account_of F.Flash script.now (accepted_of run.accepted) run)) }
{
    let core = match Core::mount(alloc, flash) {
        Ok(core) => core,
        Err(ScanFault { why: _, flash }) => {
            return Err(RunFault::with_flash(RunWhy::Mount, flash, Vec::new(alloc)));
        }
    };
    run_mounted(rt, alloc, script, core, gate)
}

/// What a run hands back that was given up before its first turn.
fn given_up<F: Flash>(why: RunWhy, core: Core<F>) -> RunFault<F>
    ensures { GivesBack F.Flash (λ named rest. (named ≡ why) × IsLeftWith core rest) result }
{
    let (flash, answers) = core.into_parts();
    RunFault::with_flash(why, flash, answers)
}

/// A run of a core that was mounted, over the line that the script chooses.
fn run_mounted<R: Threads + Wait + Sync, F: Flash + Send + Drop, G: Gate + Sync>(
    rt: &R,
    alloc: Global,
    script: &Script<'_>,
    core: Core<F>,
    gate: &G,
) -> Result<Run<F>, RunFault<F>>
    requires core { (core.answers ≡ []) × (core.closed ≡ false) }
    ensures fault { IfErr result
        (GivesBack F.Flash (LeftByRun script.now.writers.items script.now.cleaner core)) }
    ensures run { IfOk result
        (λ run. IsRun core (account_of F.Flash script.now (accepted_of run.accepted) run)) }
{
    let writers = script.writers.len();
    if writers > WRITERS_MAX {
        return Err(given_up(RunWhy::Line, core));
    }
    let writers = writers as u16;
    let capacity = script.line.capacity as usize;
    match script.line.form {
        LineForm::Shared => {
            let Ok(line) = shared_line(rt, alloc, capacity, writers) else {
                return Err(given_up(RunWhy::Line, core));
            };
            let (accepted, run) = run_over(rt, alloc, script, line, core, gate)?;
            Ok(run.with_accepted(AcceptedBy::Shared(accepted)))
        }
        LineForm::Rings => {
            let Ok(line) = ring_line(alloc, capacity, writers) else {
                return Err(given_up(RunWhy::Line, core));
            };
            let (accepted, run) = run_over(rt, alloc, script, line, core, gate)?;
            Ok(run.with_accepted(AcceptedBy::Rings(accepted)))
        }
    }
}
