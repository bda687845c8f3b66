//! How requests were answered, by their sender and number.
ghost use Rattle.std.specs.Prelude.{◌≡◌, ◌/◌, ◌%◌, [], OnOk, OnErr, IfOk, IsSome};
ghost use Rattle.jffs_index.specs.Outcomes.{outcome_at, with_outcome, restored};

use crate::block::{Block, SLOTS};
use jffs_tree::Outcome;
use std::alloc::{AllocError, Global};
use std::collections::BTreeMap;
use std::marker::Model;

/// For each sender and number the latest outcome, found in logarithmic time.
///
/// The numbers of a sender follow one another, so all its blocks but the last are full, and an
/// outcome takes about 14 bytes. A number without neighbours takes a block of its own.
#[derive(Drop)]
pub(crate) struct Outcomes {
    alloc: Global,
    // By the sender, and the block's number among those of the sender.
    by_block: BTreeMap<(u16, u32), Block>,
}

impl Model for Outcomes {
    ghost use Rattle.jffs_index.specs.Outcomes.{Outcomes};

    ghost Value = { Outcomes };

    ghost use Rattle.jffs_index.specs.Blocks.{outcomes_of};

    ghost view = { λ o. outcomes_of o.by_block.entries };
}

impl Outcomes {
    pub(crate) fn none(alloc: Global) -> Outcomes
        ensures { result ≡ [] }
    {
        Outcomes {
            alloc,
            by_block: BTreeMap::new(alloc),
        }
    }

    pub(crate) fn get(&self, writer: u16, seq: u32) -> Option<Outcome>
        ensures { result ≡ outcome_at self.now writer seq }
    {
        match self.by_block.get(&(writer, block_of(seq))) {
            Some(block) => block.get(slot_of(seq)),
            None => None,
        }
    }

    /// Enters an outcome, and returns what stood there. Only a request that has none yet takes
    /// memory; where that is refused nothing changes.
    pub(crate) fn enter(
        &mut self,
        writer: u16,
        seq: u32,
        outcome: Outcome,
    ) -> Result<Option<Outcome>, AllocError>
        ensures entered { OnOk result (self.new ≡ with_outcome self.old writer seq outcome) }
        ensures back { IfOk result (λ was. restored self.new writer seq was ≡ self.old) }
        ensures refused { OnErr result (self.new ≡ self.old) }
    {
        let key = (writer, block_of(seq));
        if let Some(block) = self.by_block.get_mut(&key) {
            return Ok(block.set(slot_of(seq), Some(outcome)));
        }
        let mut block = Block::empty(self.alloc)?;
        block.set(slot_of(seq), Some(outcome));
        self.by_block.insert(key, block)?;
        Ok(None)
    }

    /// Puts back what stood there before an outcome was entered.
    pub(crate) fn restore(&mut self, writer: u16, seq: u32, was: Option<Outcome>)
        requires { IsSome (outcome_at self.old writer seq) }
        ensures { self.new ≡ restored self.old writer seq was }
    {
        if let Some(block) = self.by_block.get_mut(&(writer, block_of(seq))) {
            block.set(slot_of(seq), was);
        }
    }
}

/// The block that has a number's slot.
fn block_of(seq: u32) -> u32
    ensures { result ≡ seq / SLOTS }
{
    seq / SLOTS as u32
}

/// Where in its block a number's slot is.
fn slot_of(seq: u32) -> usize
    ensures { result ≡ seq % SLOTS }
{
    seq as usize % SLOTS
}
