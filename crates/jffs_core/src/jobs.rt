//! What a cleaner needs of the log side: whether it is wanted, and the oldest sector's bytes.

ghost use Rattle.std.specs.Prelude.{◌≡◌, ◌≤◌, List, false, IfOk, OnOk, IfErr};
ghost use Rattle.jffs_log.specs.Volume.{sector_bytes};
ghost use Rattle.jffs_core.specs.CoreState.{SameButReads};
ghost use Rattle.jffs_core.specs.Jobs.{wants_cleaning, ReadRefused};

use crate::mounted_core::Core;
use jffs_flash::Flash;
use jffs_tree::Cause;

impl<F: Flash> Core<F> {
    ghost use Rattle.jffs_node.specs.declared.node.Node.{Node};
    ghost use Rattle.jffs_core.specs.Past.{Represents};

    /// Whether the device works, the oldest sector isn't the tail, and at most half of the
    /// sectors are erased. Takes no memory.
    pub fn wants_cleaning(&self) -> bool
        ensures { result ≡ wants_cleaning self.now }
    {
        if self.log.failed() {
            return false;
        }
        self.log.held() >= 2 && self.log.erased() <= self.log.sectors() / 2
    }

    /// The bytes of the oldest sector, read from the device. Precondition: the log has a sector, or
    /// the core has failed.
    ///
    /// `Memory` if allocation failed: nothing is changed. `Device` if the read failed: the core is
    /// failed from then on. `Failed` on a core that had failed: nothing is changed.
    pub fn oldest_image(&mut self) -> Result<Vec<u8>, Cause>
        requires some { self.old.failed ≡ false → 1 ≤ self.old.index.held }
        ensures same { self.new
            ≡ record self.old {
              failed = self.new.failed;
              faults = self.new.faults;
              reads_left = self.new.reads_left;
            } }
        ensures stands { (mounted past : List Node) → Represents mounted past self.old
            → Represents mounted past self.new }
        ensures bytes { IfOk result
            (λ bytes. bytes.items
            ≡ sector_bytes self.old.index.sector_size self.old.index.first self.old.image) }
        ensures works { OnOk result ((self.new.failed ≡ false) × SameButReads self.old self.new) }
        ensures refused { IfErr result (λ cause. ReadRefused cause self.old self.new) }
    {
        if self.log.failed() {
            return Err(Cause::Failed);
        }
        self.log.oldest_image(self.alloc)
    }
}
