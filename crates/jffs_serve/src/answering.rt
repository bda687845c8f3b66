//! What a session does by itself: it answers a request, erases dead sectors, and sends jobs.

ghost use Rattle.std.specs.Prelude.{◌≡◌, true};
ghost use Rattle.jffs_serve.specs.PendingStep.{ending_after as ending_word};

use crate::jobs::Jobs;
use crate::session::{PendingStep, Session, Unmounted};
use jffs_core::Answered;
use jffs_flash::Flash;
use jffs_index::Step;
use jffs_line::Request;
use jffs_tree::Outcome;

impl<F: Flash> Session<F> {
    ghost use Rattle.std.specs.Prelude.{◌≡◌, ◌≢◌, ◌<◌, ℕ, List, [], ◌∷◌, ◌++◌, ◌⊎◌, true, false};
    ghost use Rattle.std.specs.Prelude.{◌↔◌, Some, None, length};
    ghost use Rattle.jffs_index.specs.declared.step.Step.{Step};
    ghost use Rattle.jffs_line.specs.declared.request.Request.{Request};
    ghost use Rattle.jffs_line.specs.Requests.{of};
    ghost use Rattle.rtrb.specs.Ring.{sent};
    ghost use Rattle.jffs_core.specs.Jobs.{wants_cleaning};
    ghost use Rattle.jffs_core.specs.Trees.{KeepsTree};
    ghost use Rattle.jffs_index.specs.Shown.{Shown};
    ghost use Rattle.jffs_serve.specs.Jobs.{IsDue, SendsOldest};
    ghost use Rattle.jffs_serve.specs.PendingStep.{unput, served_by, IsReady};
    ghost use Rattle.jffs_serve.specs.Answered.{RepliesMore, HasSameReplies};
    ghost use Rattle.jffs_serve.specs.Showing.{ShowsCore, IsShown};

    /// Answers a request, and keeps the answer's step.
    pub(crate) fn answer(&mut self, request: &Request)
        requires reserved { length self.old.core.answers < self.old.core.capacity }
        requires opened { self.old.core.closed ≡ false }
        requires sent { self.old.unsent ≡ None }
        ensures replies { (put : List Step) (before now : ℕ → List Request)
            → ((w : ℕ) → now w ≡ before w ++ of w (request.now ∷ []))
            → RepliesMore self.old put before self.new put now None }
        ensures ready { IsReady self.new.unsent [] }
        ensures shown { (shown : Shown) → ShowsCore shown.tree self.old.core
            → IsShown self.new.unsent shown self.new.core }
    {
        let unmounts = request.wish.is_unmount();
        let writer = request.writer;
        let seq = request.seq;
        let Answered { outcome, node } = self.core.answer_with_node(request);
        let step = Step {
            writer,
            seq,
            outcome,
            node,
        };
        self.unsent = Some(PendingStep::Unput(step, ending_after(unmounts, outcome)));
    }

    /// Forgets the step that was published, and answers how serving ends with it, if it does.
    pub(crate) fn take_ending(&mut self) -> Option<Unmounted>
        requires put { unput self.old.unsent ≡ [] }
        ensures unsent { self.new.unsent ≡ None }
        ensures core { self.new.core ≡ self.old.core }
        ensures replies { (put : List Step) (taken : ℕ → List Request)
            → RepliesMore self.old put taken self.new put taken (served_by result) }
    {
        match self.unsent.take() {
            Some(PendingStep::Unput(_, ending)) => ending,
            Some(PendingStep::Unpublished(ending)) => ending,
            None => None,
        }
    }

    /// Erases dead sectors, unless the device failed or the session is closed, and perhaps sends a
    /// job.
    pub(crate) fn tidy(&mut self, jobs: &mut Jobs)
        ensures replies { HasSameReplies self.old self.new }
        ensures tree { KeepsTree self.old.core self.new.core }
    {
        self.erase_dead();
        self.send_job(jobs);
    }

    /// Erases dead sectors, unless the device failed or the session is closed.
    fn erase_dead(&mut self)
        ensures replies { HasSameReplies self.old self.new }
        ensures tree { KeepsTree self.old.core self.new.core }
    {
        if self.core.failed() || self.core.closed() {
            return;
        }
        // A fault makes the core failed, and each later answer says so.
        let _ = self.core.erase_dead();
    }

    /// Sends the image of the oldest sector where a cleaner is wanted and has not had it yet. No
    /// job is sent where an allocation or the read fails, or the ring is full; after a failed read
    /// the core is failed.
    fn send_job(&mut self, jobs: &mut Jobs)
        ensures replies { HasSameReplies self.old self.new }
        ensures tree { KeepsTree self.old.core self.new.core }
        ensures job { ((sent jobs.new.producer ≡ sent jobs.old.producer)
            × (self.new.sent_at ≡ self.old.sent_at))
            ⊎ (IsDue self.old.core self.old.sent_at
            × (self.new.sent_at ≡ Some self.old.core.index.erases)
            × SendsOldest self.old.core (sent jobs.old.producer) (sent jobs.new.producer)) }
    {
        let erases = self.core.log().erases();
        if !self.is_due(erases) || jobs.is_full() {
            return;
        }
        if let Ok(image) = self.core.oldest_image() {
            if let Ok(()) = jobs.send(image) {
                self.sent_at = Some(erases);
            }
        }
    }

    /// Whether a cleaner is wanted, and no job was sent since there were `erases` erases.
    fn is_due(&self, erases: u64) -> bool
        ensures { (result ≡ true)
            ↔ ((wants_cleaning self.now.core ≡ true) × (self.now.sent_at ≢ Some erases)) }
    {
        self.core.wants_cleaning() && self.sent_at != Some(erases)
    }
}

/// How serving ends with the answer to a request, if it does.
fn ending_after(unmounts: bool, outcome: Outcome) -> Option<Unmounted>
    ensures { result ≡ ending_word unmounts outcome }
{
    match outcome {
        Outcome::Closed => Some(Unmounted::Closed),
        Outcome::Refused(cause) if unmounts => Some(Unmounted::NotClosed(cause)),
        _ => None,
    }
}
