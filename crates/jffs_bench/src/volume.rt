//! A mounted volume that answers a script's requests, and wishes to write.

use crate::fault::Fault;
use jffs_core::Core;
use jffs_flash::MemoryFlash;
use jffs_line::Request;
use jffs_node::{Path, copied};
use jffs_run::Script;
use jffs_tree::{Outcome, Wish};
use std::alloc::Global;

/// The bytes of each write.
pub(crate) const WRITE_LEN: u32 = 192;

/// A volume whose dead sectors are erased after each answer.
#[derive(Drop)]
pub(crate) struct Volume {
    pub(crate) core: Core<MemoryFlash>,
    pub(crate) alloc: Global,
}

impl Volume {
    pub(crate) fn mounted(alloc: Global, flash: MemoryFlash) -> Result<Volume, Fault> {
        Ok(Volume {
            core: Core::mount(alloc, flash)?,
            alloc,
        })
    }

    /// Answers a request.
    pub(crate) fn answer(&mut self, writer: u16, seq: u32, wish: Wish) -> Result<Outcome, Fault> {
        self.core.reserve_answer()?;
        Ok(self.core.answer(Request { writer, seq, wish }))
    }

    /// Answers a request, and erases what is dead then.
    pub(crate) fn ask(&mut self, writer: u16, seq: u32, wish: Wish) -> Result<Outcome, Fault> {
        let outcome = self.answer(writer, seq, wish)?;
        if !self.core.closed() {
            self.core.erase_dead()?;
        }
        Ok(outcome)
    }

    /// Answers the requests of each writer in turn; how many were refused.
    pub(crate) fn answer_all(&mut self, script: &Script<'_>) -> Result<u64, Fault> {
        let mut refused = 0u64;
        let mut number = 0u16;
        for writer in script.writers.iter() {
            number = number.saturating_add(1);
            let mut seq = 0u32;
            for command in writer.commands.iter() {
                seq = seq.saturating_add(1);
                let wish = command.wish(self.alloc)?;
                if let Outcome::Refused(_) = self.ask(number, seq, wish)? {
                    refused = refused.saturating_add(1);
                }
            }
        }
        Ok(refused)
    }
}

pub(crate) fn create(alloc: Global, path: &str) -> Result<Wish, Fault> {
    Ok(Wish::Create(Path::parse(alloc, path)?))
}

/// A write to `/f`.
pub(crate) fn write(alloc: Global, offset: u32) -> Result<Wish, Fault> {
    Ok(Wish::Write {
        path: Path::parse(alloc, "/f")?,
        offset,
        bytes: copied(alloc, &[b'a'; WRITE_LEN as usize])?,
    })
}
