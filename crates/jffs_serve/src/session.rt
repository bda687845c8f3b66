//! A session: a core that is served, and the step that it still has to send.

ghost use Rattle.std.specs.Prelude.{◌≡◌, None};
ghost use Rattle.jffs_serve.specs.PendingStep.{served_as};

use jffs_core::Core;
use jffs_flash::Flash;
use jffs_index::Step;
use jffs_tree::Cause;

/// How serving ended.
#[derive(Clone, Copy, Debug, PartialEq, Eq)]
pub enum Served {
    /// An Unmount was answered Closed, now or earlier.
    Closed,
    /// An Unmount was refused for this cause.
    NotClosed(Cause),
    /// The taker gave no request: no hand is left, and nothing that it could take.
    Ended,
    /// Allocation failed. Nothing is lost, and serving again goes on.
    Memory,
}

/// What an Unmount was answered, by which serving ends.
#[derive(Clone, Copy)]
pub(crate) enum Unmounted {
    /// It closed the session.
    Closed,
    /// It was refused for this cause.
    NotClosed(Cause),
}

impl Unmounted {
    /// How serving ends with it.
    pub(crate) fn served(self) -> Served
        ensures { result ≡ served_as self }
    {
        match self {
            Unmounted::Closed => Served::Closed,
            Unmounted::NotClosed(cause) => Served::NotClosed(cause),
        }
    }
}

/// What is still to be done with the last answer, and the Unmount's by which serving ends then.
#[derive(Drop)]
pub(crate) enum PendingStep {
    /// The step is still to be put.
    Unput(Step, Option<Unmounted>),
    /// The step was put, and is still to be published.
    Unpublished(Option<Unmounted>),
}

/// A mounted core that is served, with the step of its last answer until that is published.
#[derive(Drop)]
pub struct Session<F: Flash> {
    pub(crate) core: Core<F>,
    pub(crate) unsent: Option<PendingStep>,
    /// How many erases there had been when the last job was sent: only an erase gives the log
    /// another oldest sector.
    pub(crate) sent_at: Option<u64>,
}

impl<F: Flash> Session<F> {
    /// A session over a core, with no step to send.
    pub fn new(core: Core<F>) -> Session<F>
        ensures core { result.core ≡ core }
        ensures unsent { result.unsent ≡ None }
    {
        Session {
            core,
            unsent: None,
            sent_at: None,
        }
    }

    /// The core that is served, to be looked at.
    pub fn core(&self) -> &Core<F>
        ensures { result.now ≡ self.now.core }
    {
        &self.core
    }

    /// Gives the core back. A step that wasn't published is lost.
    pub fn into_core(self) -> Core<F>
        ensures { result ≡ self.core }
    {
        let Session {
            core,
            unsent: _unsent,
            sent_at: _,
        } = self;
        core
    }
}
