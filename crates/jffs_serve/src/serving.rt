//! The log thread's rounds: a request is taken and answered, its step is put and published, dead
//! sectors are erased, and perhaps the cleaner gets a job.

ghost use Rattle.std.specs.Prelude.{◌≡◌, ◌≢◌, ℕ, List, [], Some, None, MatchResult, OnOk, OnErr};
ghost use Rattle.std.specs.Prelude.{IfErr};
ghost use Rattle.jffs_index.specs.Ends.{pending, all_put, publisher_index};
ghost use Rattle.jffs_index.specs.declared.step.Step.{Step};
ghost use Rattle.jffs_line.specs.declared.request.Request.{Request};
ghost use Rattle.jffs_index.specs.Shown.{Shown};
ghost use Rattle.jffs_serve.specs.PendingStep.{unput, served_by, IsReady};
ghost use Rattle.jffs_serve.specs.declared.session.Served.TheVariants.{Ended};
ghost use Rattle.jffs_serve.specs.Answered.{RepliesMore};
ghost use Rattle.jffs_serve.specs.Serving.{HasServed};
ghost use Rattle.jffs_serve.specs.Showing.{IsShown, CanServe};

use crate::jobs::Jobs;
use crate::session::{PendingStep, Served, Session, Unmounted};
use jffs_flash::Flash;
use jffs_index::Publisher;
use jffs_line::Taker;
use jffs_node::NoMemory;
use std::sync::Wait;

/// Takes requests and answers them, until an Unmount was answered, no hand is left, or allocation
/// fails; waits for requests and for readers on the way. What was put before is published first.
/// After Memory a further call goes on with the unsent step, and ends with it where it answers an
/// Unmount. On a session that is closed, with nothing unsent, it takes nothing.
///
/// The answers are lawful for the requests, from whatever history the core represented to the
/// one that it represents then, over any number of calls.
///
/// Precondition: what is published has the state of the core's tree, as an index has that was
/// opened over a copy of it. So each node that the core appends may be applied there.
pub fn serve<R: Wait, W: Wait + Drop, F: Flash, T: Taker>(
    rt: &R,
    session: &mut Session<F>,
    taker: &mut T,
    publisher: &mut Publisher<W>,
    jobs: &mut Jobs,
) -> Served
    requires ready { CanServe session.old publisher.old }
    ensures ready { CanServe session.new publisher.new }
    ensures served { HasServed session.old publisher.old (T.taken taker.old) session.new
        publisher.new (T.taken taker.new) result }
    ensures ends { T.ends taker.new ≡ T.ends taker.old }
    ensures ended { result ≡ Ended → T.ran_out taker.new }
{
    if publisher.publish().is_err() {
        return Served::Memory;
    }
    for _ in rt.forever() {
        if let Err(served) = answer_next(rt, session, taker) {
            return served;
        }
        let Ok(ending) = send_pending(session, publisher) else {
            return Served::Memory;
        };
        session.tidy(jobs);
        if let Some(unmounted) = ending {
            return unmounted.served();
        }
    }
    unreachable!()
}

/// Takes a request and answers it, unless a step is unsent. Where it does neither it says how
/// serving ends.
fn answer_next<R: Wait, F: Flash, T: Taker>(
    rt: &R,
    session: &mut Session<F>,
    taker: &mut T,
) -> Result<(), Served>
    ensures replies { (put : List Step) → MatchResult result
        (λ _. RepliesMore session.old put (T.taken taker.old) session.new put (T.taken taker.new)
        None)
        (λ served. RepliesMore session.old put (T.taken taker.old) session.new put
        (T.taken taker.new) (Some served)) }
    ensures ready { (pending : List Step) → IsReady session.old.unsent pending
        → IsReady session.new.unsent pending }
    ensures shown { (shown : Shown) → IsShown session.old.unsent shown session.old.core
        → IsShown session.new.unsent shown session.new.core }
    ensures unsent { OnErr result ((session.old.unsent ≡ None) × (session.new.unsent ≡ None)) }
    ensures ends { T.ends taker.new ≡ T.ends taker.old }
    ensures ended { IfErr result (λ served. served ≡ Ended → T.ran_out taker.new) }
{
    if session.unsent.is_some() {
        return Ok(());
    }
    if session.core.closed() {
        return Err(Served::Closed);
    }
    if session.core.reserve_answer().is_err() {
        return Err(Served::Memory);
    }
    match taker.take(rt) {
        Some(request) => {
            session.answer(&request);
            Ok(())
        }
        None => Err(Served::Ended),
    }
}

/// Puts and publishes the unsent step, if one is. Answers how serving ends then, if it does.
/// If allocation fails, what is still to be done stays so.
fn send_pending<F: Flash, W: Wait + Drop>(
    session: &mut Session<F>,
    publisher: &mut Publisher<W>,
) -> Result<Option<Unmounted>, NoMemory>
    requires ready { CanServe session.old publisher.old }
    ensures ready { CanServe session.new publisher.new }
    ensures replies { (taken : ℕ → List Request) → MatchResult result
        (λ ending. RepliesMore session.old (all_put publisher.old).steps taken session.new
        (all_put publisher.new).steps taken (served_by ending))
        (λ _. RepliesMore session.old (all_put publisher.old).steps taken session.new
        (all_put publisher.new).steps taken None) }
    ensures sent { OnOk result ((session.new.unsent ≡ None) × (pending publisher.new ≡ [])) }
    ensures index { publisher_index publisher.new ≡ publisher_index publisher.old }
    ensures opening { (all_put publisher.new).opening ≡ (all_put publisher.old).opening }
{
    put_pending(session, publisher)?;
    if publisher.publish().is_err() {
        return Err(NoMemory);
    }
    Ok(session.take_ending())
}

/// Puts the unsent step, if it is still to be put.
fn put_pending<F: Flash, W: Wait + Drop>(
    session: &mut Session<F>,
    publisher: &mut Publisher<W>,
) -> Result<(), NoMemory>
    requires ready { CanServe session.old publisher.old }
    ensures ready { CanServe session.new publisher.new }
    ensures replies { (taken : ℕ → List Request)
        → RepliesMore session.old (all_put publisher.old).steps taken session.new
        (all_put publisher.new).steps taken None }
    ensures put { OnOk result (unput session.new.unsent ≡ []) }
    ensures index { publisher_index publisher.new ≡ publisher_index publisher.old }
    ensures opening { (all_put publisher.new).opening ≡ (all_put publisher.old).opening }
{
    match session.unsent.take() {
        Some(PendingStep::Unput(step, ending)) => match publisher.put(step) {
            Ok(()) => {
                session.unsent = Some(PendingStep::Unpublished(ending));
                Ok(())
            }
            Err(step) => {
                session.unsent = Some(PendingStep::Unput(step, ending));
                Err(NoMemory)
            }
        },
        unsent => {
            session.unsent = unsent;
            Ok(())
        }
    }
}
