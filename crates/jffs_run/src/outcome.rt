//! What a run gives.

use crate::reader::ReaderEnd;
use jffs_core::Answer;
use jffs_line::{Hands, Request, RingHand, SharedHand};
use jffs_serve::Served;
use std::snapshot::Snapshot;

/// What the hands of a run had accepted, in either form of the line. It has no bytes, and contracts
/// alone can see it.
#[derive(Drop)]
pub enum AcceptedBy {
    /// By the hands of a shared line.
    Shared(Snapshot<Hands<SharedHand>>),
    /// By the hands of the rings.
    Rings(Snapshot<Hands<RingHand>>),
}

/// A run that came to its end.
#[derive(Drop)]
pub struct Run<F, A = AcceptedBy> {
    /// What each sender's hand had accepted.
    pub accepted: A,
    /// All answers, in order.
    pub answers: Vec<Answer>,
    /// What was accepted and not answered, the requests of each sender in order.
    pub waiting: Vec<Request>,
    /// What became of each reader, in the script's order.
    pub readers: Vec<ReaderEnd>,
    /// How serving ended, in its last call.
    pub served: Served,
    /// The device, as the log thread left it.
    pub flash: F,
}

impl<F> Run<F, ()> {
    ghost use Rattle.std.specs.Prelude.{◌≡◌};

    /// The same run, and besides what the hands had accepted.
    pub(crate) fn with_accepted<A>(self, accepted: A) -> Run<F, A>
        ensures { result ≡ record {
          accepted = accepted;
          answers = self.answers;
          waiting = self.waiting;
          readers = self.readers;
          served = self.served;
          flash = self.flash;
        } }
    {
        let Run {
            accepted: (),
            answers,
            waiting,
            readers,
            served,
            flash,
        } = self;
        Run {
            accepted,
            answers,
            waiting,
            readers,
            served,
            flash,
        }
    }
}
