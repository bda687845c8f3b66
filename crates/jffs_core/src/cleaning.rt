//! Cleaning: what lives in the oldest sector is copied to the tail, and the sector is erased.

ghost use Rattle.std.specs.Prelude.{◌≡◌, ◌≤◌, ◌<◌, ◌+◌, ◌/◌, ◌^◌, List, true, false, length};
ghost use Rattle.std.specs.Prelude.{◌↔◌, IsTrue, OnOk, IfOk, IfErr, Err};
ghost use Rattle.jffs_tree.specs.Look.{holds_version};

use crate::mounted_core::Core;
use jffs_flash::Flash;
use jffs_log::Room;
use jffs_tree::{Cause, CopySource};

/// What a cleaning did.
#[derive(Clone, Copy, Debug, PartialEq, Eq)]
pub enum Cleaned {
    /// The oldest sector, with this number, was erased; before that `copies` records were copied.
    Erased { sector: u32, copies: u32 },
    /// The log has at most one sector, and nothing was changed.
    OneSector,
}

impl<F: Flash> Core<F> {
    ghost use Rattle.jffs_node.specs.declared.node.Node.{Node};
    ghost use Rattle.jffs_log.specs.LogIndex.{layout_in};
    ghost use Rattle.jffs_core.specs.Past.{RepresentsWorking, Represents, has_room_for};
    ghost use Rattle.jffs_core.specs.Cleaning.{Cleans, Stops, ErasesDead, HasErasedDead};
    ghost use Rattle.jffs_core.specs.Cleaning.{ErasingStopped};
    ghost use Rattle.jffs_core.specs.Cleaning.{IsDeadOldest, DidClean, HasHandled, CopyStopped};
    ghost use Rattle.jffs_core.specs.Cleaning.{HasCopiedAll, HasMadeRoom, MakingStopped};
    ghost use Rattle.jffs_core.specs.Cleaning.{ErasesOldest, SectorStopped, EraseStopped};
    ghost use Rattle.jffs_core.specs.Cleaning.{HasSeveral, IsSource, IsSourceIn};
    ghost use Rattle.jffs_core.specs.Erases.{ErasesAtMost, Leaves};
    ghost use Rattle.jffs_core.specs.Trees.{KeepsTree};

    /// Copies each record of the oldest sector that is live at its turn, and erases the sector. A
    /// log of at most one sector is left as it is.
    ///
    /// `VersionsSpent` if no version is left for a copy; `NoSpace` if a copy has no room, which can
    /// be only while fewer than two sectors were erased; `Memory` if allocation failed; `Device` if
    /// the flash failed, and the core is failed from then on. The copies that were made stay.
    /// `Failed` on a core that had failed: nothing is changed.
    pub fn clean_oldest(&mut self) -> Result<Cleaned, Cause>
        ensures cleaned { IfOk result
            (λ done. (mounted past : List Node) → Represents mounted past self.old
            → Cleans mounted past done self.old self.new) }
        ensures stopped { IfErr result
            (λ cause. (mounted past : List Node) → Represents mounted past self.old
            → Stops mounted past cause self.old self.new) }
        ensures failed { self.old.failed ≡ true
            → (result ≡ Err Cause.Failed) × (self.new ≡ self.old) }
        ensures leaves { Leaves 1 self.old self.new }
    {
        if self.log.failed() {
            return Err(Cause::Failed);
        }
        self.clean_one()
    }

    /// Erases dead sectors, the oldest first, up to the tail or to the first sector that has a live
    /// record. Returns how many were erased. Takes no memory.
    ///
    /// `Device` if the flash failed, and the core is failed from then on; `Failed` on a core that
    /// had failed: nothing is changed.
    pub fn erase_dead(&mut self) -> Result<u32, Cause>
        ensures erased { IfOk result
            (λ count. (mounted past : List Node) → Represents mounted past self.old
            → ErasesDead mounted past count self.old self.new) }
        ensures stopped { IfErr result (λ cause. ErasingStopped cause self.old self.new) }
        ensures failed { self.old.failed ≡ true
            → (result ≡ Err Cause.Failed) × (self.new ≡ self.old) }
        ensures leaves { Leaves self.old.index.held self.old self.new }
        ensures erases { ErasesAtMost 0 self.old self.new }
        ensures tree { KeepsTree self.old self.new }
    {
        if self.log.failed() {
            return Err(Cause::Failed);
        }
        self.erase_while_dead()
    }

    /// Erases the oldest sector of a core whose device works, while that may be.
    fn erase_while_dead(&mut self) -> Result<u32, Cause>
        requires working { self.old.failed ≡ false }
        requires few { length (layout_in self.old.image self.old.index).sectors < 2 ^ 32 }
        ensures erased { IfOk result
            (λ count. (past : List Node) → RepresentsWorking past self.old
            → HasErasedDead count past self.old self.new) }
        ensures stopped { IfErr result (λ cause. EraseStopped cause self.old self.new) }
        ensures leaves { Leaves self.old.index.held self.old self.new }
        ensures erases { ErasesAtMost 0 self.old self.new }
    {
        let mut erased = 0u32;
        while self.is_dead_oldest() {
            self.erase_oldest()?;
            erased += 1;
        }
        Ok(erased)
    }

    /// Whether the oldest sector may be erased: a newer one is the tail, and none of its records
    /// lives. Takes no memory.
    fn is_dead_oldest(&self) -> bool
        requires working { self.now.failed ≡ false }
        ensures { IsTrue result ↔ IsDeadOldest self.now }
    {
        self.log.oldest_dead(&self.tree)
    }

    /// Makes room for a fresh record of `len` bytes that has none: cleans the oldest sector, until
    /// there is room, or each sector that held the log was cleaned. Returns whether there is room.
    pub(crate) fn make_room(&mut self, len: u32) -> Result<bool, Cause>
        requires working { self.old.failed ≡ false }
        requires no_room { has_room_for self.old Room.Fresh len ≡ false }
        ensures made { OnOk result
            ((past : List Node) → RepresentsWorking past self.old
            → (after : List Node) × HasMadeRoom len past after self.old self.new) }
        ensures refused { IfErr result
            (λ cause. (past : List Node) → RepresentsWorking past self.old
            → (after : List Node) × MakingStopped len cause past after self.old self.new) }
        ensures works { IfOk result (λ room. (self.new.failed ≡ false)
            × (has_room_for self.new Room.Fresh len ≡ room)) }
        ensures leaves { Leaves self.old.index.held self.old self.new }
    {
        for turn in 0..self.log.held() {
            self.clean_one()?;
            if self.has_room(Room::Fresh, len) {
                return Ok(true);
            }
        }
        Ok(false)
    }

    /// Cleans the oldest sector of a core whose device works.
    fn clean_one(&mut self) -> Result<Cleaned, Cause>
        requires working { self.old.failed ≡ false }
        ensures cleaned { IfOk result
            (λ done. (past : List Node) → RepresentsWorking past self.old
            → DidClean done past self.old self.new) }
        ensures stopped { IfErr result
            (λ cause. (past : List Node) → RepresentsWorking past self.old
            → (after : List Node) × SectorStopped cause past after self.old self.new) }
        ensures works { OnOk result (self.new.failed ≡ false) }
        ensures leaves { Leaves 1 self.old self.new }
    {
        if self.log.held() < 2 {
            return Ok(Cleaned::OneSector);
        }
        let sector = self.log.oldest();
        let copies = self.copy_each()?;
        self.erase_oldest()?;
        Ok(Cleaned::Erased { sector, copies })
    }

    /// Handles each record of the oldest sector; answers how many were copied.
    fn copy_each(&mut self) -> Result<u32, Cause>
        requires several { HasSeveral self.old }
        ensures copied { IfOk result
            (λ copies. (past : List Node) → RepresentsWorking past self.old
            → (after : List Node) × HasCopiedAll past after copies self.old self.new) }
        ensures stopped { IfErr result
            (λ cause. (past : List Node) → RepresentsWorking past self.old
            → (after : List Node) × SectorStopped cause past after self.old self.new) }
        ensures works { OnOk result (self.new.failed ≡ false) }
        ensures leaves { Leaves 0 self.old self.new }
    {
        let mut copies = 0u32;
        for at in 0..self.log.oldest_count() {
            let source = self.log.oldest_source(at);
            copies += u32::from(self.handle(source)?);
        }
        Ok(copies)
    }

    /// Copies a record of the log where it is live; answers whether it is.
    fn handle(&mut self, source: CopySource) -> Result<bool, Cause>
        requires source { IsSource source self.old }
        ensures handled { IfOk result (λ copied. (past : List Node) (n : Node)
            → IsSourceIn past n source self.old
            → HasHandled past n copied self.old self.new) }
        ensures stopped { IfErr result (λ cause. (past : List Node) (n : Node)
            → IsSourceIn past n source self.old
            → CopyStopped cause past n self.old self.new) }
        ensures works { OnOk result (self.new.failed ≡ false) }
        ensures leaves { Leaves 0 self.old self.new }
    {
        if !self.tree.live(source.inode, source.version) {
            return Ok(false);
        }
        self.copy(source)?;
        Ok(true)
    }

    /// Appends the copy of a live record.
    fn copy(&mut self, source: CopySource) -> Result<(), Cause>
        requires source { IsSource source self.old }
        requires live { holds_version self.old.tree source.inode source.version ≡ true }
        ensures copied { OnOk result ((past : List Node) (n : Node)
            → IsSourceIn past n source self.old
            → HasHandled past n true self.old self.new) }
        ensures stopped { IfErr result (λ cause. (past : List Node) (n : Node)
            → IsSourceIn past n source self.old
            → CopyStopped cause past n self.old self.new) }
        ensures works { OnOk result (self.new.failed ≡ false) }
        ensures leaves { Leaves 0 self.old self.new }
    {
        let Some(version) = self.limits.next_version else {
            return Err(Cause::VersionsSpent);
        };
        let copied = self.tree.cleaning_copy(source)?;
        self.append(Room::Copy, &copied.with(version, 0, 0))
    }

    /// Erases the oldest sector. Precondition: it is dead, and not the tail.
    fn erase_oldest(&mut self) -> Result<(), Cause>
        requires working { self.old.failed ≡ false }
        requires dead { IsDeadOldest self.old }
        ensures erased { OnOk result (ErasesOldest self.old self.new) }
        ensures stopped { IfErr result (λ cause. EraseStopped cause self.old self.new) }
        ensures leaves { Leaves 1 self.old self.new }
        ensures erases { ErasesAtMost 0 self.old self.new }
    {
        self.log.erase_oldest(&self.tree)
    }
}
