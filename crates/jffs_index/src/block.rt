//! The outcomes of requests whose numbers follow one another.
ghost use Rattle.std.specs.Prelude.{◌≡◌, ◌<◌, ◌==◌, ℕ, Some, None, IfOk, if◌then◌else◌};
ghost use Rattle.jffs_index.specs.Blocks.{slot};

use jffs_tree::Outcome;
use std::alloc::{AllocError, Global};
use std::marker::Model;

/// How many requests a block has a slot for.
pub(crate) const SLOTS: usize = 128;

/// Which slots hold an outcome, and the outcomes. In one list of `Option`s each would take three
/// bytes more.
#[derive(Drop)]
pub(crate) struct Slots {
    pub(crate) filled: [bool; SLOTS],
    pub(crate) outcomes: [Outcome; SLOTS],
}

/// A slot for each of 128 requests whose numbers follow one another, 13 bytes each. Boxed, since
/// the nodes of a map whose keys come in their order stay half empty.
#[derive(Drop)]
pub(crate) struct Block {
    slots: Box<Slots>,
}

impl Model for Block {
    ghost use Rattle.jffs_index.specs.declared.block.Slots.{Slots};

    ghost Value = { Slots };

    ghost use Rattle.jffs_index.specs.Blocks.{IsWhole};

    ghost view = { λ b. b.slots.value };

    ghost invariant = { λ b. IsWhole b.slots.value };
}

impl Block {
    /// A block without an outcome.
    pub(crate) fn empty(alloc: Global) -> Result<Block, AllocError>
        ensures { IfOk result (λ block. (at : ℕ) → slot block at ≡ None) }
    {
        let slots = Slots {
            filled: [false; SLOTS],
            outcomes: [Outcome::Closed; SLOTS],
        };
        let slots = Box::new(alloc, slots)?;
        Ok(Block { slots })
    }

    /// What a slot holds.
    pub(crate) fn get(&self, at: usize) -> Option<Outcome>
        requires { at < SLOTS }
        ensures { result ≡ slot self.now at }
    {
        if self.slots.filled[at] {
            Some(self.slots.outcomes[at])
        } else {
            None
        }
    }

    /// Sets a slot to an outcome or to none, and returns what it held.
    pub(crate) fn set(&mut self, at: usize, outcome: Option<Outcome>) -> Option<Outcome>
        requires { at < SLOTS }
        ensures held { result ≡ slot self.old at }
        ensures set { (k : ℕ) → slot self.new k ≡ (if k == at then outcome else slot self.old k) }
    {
        let held = self.get(at);
        match outcome {
            Some(outcome) => self.fill(at, outcome),
            None => self.slots.filled[at] = false,
        }
        held
    }

    fn fill(&mut self, at: usize, outcome: Outcome)
        requires { at < SLOTS }
        ensures { (k : ℕ) → slot self.new k ≡ (if k == at then Some outcome else slot self.old k) }
    {
        let slots = &mut *self.slots;
        slots.filled[at] = true;
        slots.outcomes[at] = outcome;
    }
}
