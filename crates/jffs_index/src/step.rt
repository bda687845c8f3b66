//! What is published: a request's answer, with the node that it appended.
ghost use Rattle.std.specs.Prelude.{◌≡◌, MatchResult};

use jffs_node::Node;
use jffs_tree::Outcome;
use std::alloc::Global;
use std::marker::Model;

/// A request's answer, with the node that was appended for it. A refused request, and an Unmount of
/// a clean log, have none.
#[derive(Drop)]
pub struct Step {
    /// The sender's number: 1 to 8 writers, 9 the cleaner, 10 the control.
    pub writer: u16,
    /// The request's number among those of its sender, from 1.
    pub seq: u32,
    /// What became of the request.
    pub outcome: Outcome,
    /// The node that was appended for it.
    pub node: Option<Node>,
}

/// A step in memory of its own, so that it needn't be moved with what holds it. Seen as the step.
#[derive(Drop)]
pub struct BoxedStep {
    step: Box<Step>,
}

impl Model for BoxedStep {
    ghost use Rattle.jffs_index.specs.declared.step.Step.{Step};

    ghost Value = { Step };

    ghost view = { λ b. b.step.value };
}

impl BoxedStep {
    /// If allocation failed the step comes back.
    pub(crate) fn new(alloc: Global, step: Step) -> Result<BoxedStep, Step>
        ensures { MatchResult result (λ boxed. boxed ≡ step) (λ back. back ≡ step) }
    {
        match Box::new(alloc, step) {
            Ok(step) => Ok(BoxedStep { step }),
            Err(failed) => Err(failed.value),
        }
    }

    /// The step.
    pub(crate) fn get(&self) -> &Step
        ensures { result.now ≡ self.now }
    {
        &self.step
    }

    /// The step, out of its memory.
    pub(crate) fn into_step(self) -> Step
        ensures { result ≡ self }
    {
        Box::into_inner(self.step)
    }
}
