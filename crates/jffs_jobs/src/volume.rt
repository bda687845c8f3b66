//! A mounted volume, and the requests of its one user.

use crate::digest::Digest;
use crate::fault::Fault;
use jffs_core::Core;
use jffs_flash::{Flash, MemoryFlash};
use jffs_line::Request;
use jffs_node::{Path, copied};
use jffs_tree::{Outcome, Tree, Wish};
use std::alloc::Global;

/// The sender's number in the records.
const WRITER: u16 = 1;

/// The sizes of a volume.
#[derive(Clone, Copy, Debug)]
pub(crate) struct Sizes {
    pub(crate) sectors: u32,
    pub(crate) sector_size: u32,
}

/// The largest volume that is allowed.
pub(crate) const LARGE: Sizes = Sizes {
    sectors: 64,
    sector_size: 16384,
};

/// A volume of a small device.
pub(crate) const SMALL: Sizes = Sizes {
    sectors: 16,
    sector_size: 4096,
};

/// The smallest volume that is allowed.
pub(crate) const SMALLEST: Sizes = Sizes {
    sectors: 6,
    sector_size: 1024,
};

impl Sizes {
    /// Erased flash of these sizes.
    pub(crate) fn flash(self, alloc: Global) -> Result<MemoryFlash, Fault> {
        Ok(MemoryFlash::new(alloc, self.sectors, self.sector_size)?)
    }

    /// What live records may weigh for every change to have room: (S - 4)(3Z/4 - 64) bytes.
    pub(crate) fn bound(self) -> u64 {
        let size = u64::from(self.sector_size);
        let of_sector = (size / 4).saturating_mul(3).saturating_sub(64);
        u64::from(self.sectors)
            .saturating_sub(4)
            .saturating_mul(of_sector)
    }
}

/// A volume with the number of its last request, and the digest of all outcomes.
#[derive(Drop)]
pub(crate) struct Volume<F: Flash> {
    core: Core<F>,
    pub(crate) alloc: Global,
    seq: u32,
    pub(crate) digest: Digest,
}

impl Volume<MemoryFlash> {
    /// Mounts erased flash of these sizes.
    pub(crate) fn erased(alloc: Global, sizes: Sizes) -> Result<Volume<MemoryFlash>, Fault> {
        Volume::mount(alloc, sizes.flash(alloc)?)
    }
}

impl<F: Flash + Drop> Volume<F> {
    /// Mounts what a flash holds.
    pub(crate) fn mount(alloc: Global, flash: F) -> Result<Volume<F>, Fault> {
        match Core::mount(alloc, flash) {
            Ok(core) => Ok(Volume {
                core,
                alloc,
                seq: 0,
                digest: Digest::new(),
            }),
            Err(_) => Err(Fault::Refused),
        }
    }

    pub(crate) fn core(&self) -> &Core<F> {
        &self.core
    }

    pub(crate) fn tree(&self) -> &Tree {
        self.core.tree()
    }

    /// What the live records weigh.
    pub(crate) fn weight(&self) -> u64 {
        self.core.log().live_weight(self.core.tree())
    }

    /// Has a wish answered, and then erases dead sectors.
    pub(crate) fn ask(&mut self, wish: Wish) -> Result<Outcome, Fault> {
        self.core.reserve_answer()?;
        self.seq = self.seq.saturating_add(1);
        let outcome = self.core.answer(Request {
            writer: WRITER,
            seq: self.seq,
            wish,
        });
        self.digest.add_outcome(outcome);
        if outcome != Outcome::Closed {
            let erased = self.core.erase_dead()?;
            self.digest.add(u64::from(erased));
        }
        Ok(outcome)
    }

    pub(crate) fn make_dir(&mut self, path: &str) -> Result<Outcome, Fault> {
        let path = Path::parse(self.alloc, path)?;
        self.ask(Wish::MakeDir(path))
    }

    pub(crate) fn create(&mut self, path: &str) -> Result<Outcome, Fault> {
        let path = Path::parse(self.alloc, path)?;
        self.ask(Wish::Create(path))
    }

    pub(crate) fn remove(&mut self, path: &str) -> Result<Outcome, Fault> {
        let path = Path::parse(self.alloc, path)?;
        self.ask(Wish::Remove(path))
    }

    pub(crate) fn rename(&mut self, from: &str, to: &str) -> Result<Outcome, Fault> {
        let from = Path::parse(self.alloc, from)?;
        let to = Path::parse(self.alloc, to)?;
        self.ask(Wish::Rename { from, to })
    }

    pub(crate) fn truncate(&mut self, path: &str, size: u32) -> Result<Outcome, Fault> {
        let path = Path::parse(self.alloc, path)?;
        self.ask(Wish::Truncate { path, size })
    }

    pub(crate) fn write(&mut self, path: &str, offset: u32, data: &[u8]) -> Result<Outcome, Fault> {
        let path = Path::parse(self.alloc, path)?;
        let bytes = copied(self.alloc, data)?;
        self.ask(Wish::Write {
            path,
            offset,
            bytes,
        })
    }

    /// Looks at the file at a path: its inode, its size and its bytes from an offset on.
    pub(crate) fn look(&mut self, path: &str, offset: u32) -> Result<(), Fault> {
        let path = Path::parse(self.alloc, path)?;
        let tree = self.core.tree();
        let inode = tree.resolve(&path);
        self.digest.add_some(inode);
        if let Some(inode) = inode {
            self.digest.add_some(tree.size(inode));
            let mut bytes = [0u8; 512];
            let count = tree.read(inode, offset, &mut bytes);
            self.digest.add_bytes(bytes.get(..count).unwrap_or(&[]));
        }
        Ok(())
    }

    /// Looks at a file whole: its inode, its size and all its bytes.
    pub(crate) fn look_through(&mut self, path: &str) -> Result<(), Fault> {
        let path = Path::parse(self.alloc, path)?;
        let tree = self.core.tree();
        let inode = tree.resolve(&path);
        self.digest.add_some(inode);
        if let Some(inode) = inode {
            self.digest.add_file(tree, inode);
        }
        Ok(())
    }

    /// Looks at all names, and at all bytes of all files.
    pub(crate) fn look_at_all(&mut self) -> Result<(), Fault> {
        self.digest.add_tree(self.alloc, self.core.tree())
    }

    /// Ends the session and begins another one.
    pub(crate) fn mount_again(self) -> Result<Volume<F>, Fault> {
        let alloc = self.alloc;
        let (flash, digest) = self.close()?;
        let mut volume = Volume::mount(alloc, flash)?;
        volume.digest = digest;
        Ok(volume)
    }

    /// Ends the session, looks in another one at all that stands there, and says what came of all.
    pub(crate) fn end(self) -> Result<u64, Fault> {
        let mut volume = self.mount_again()?;
        volume.look_at_all()?;
        Ok(volume.digest.number())
    }

    /// Unmounts, and gives the flash back with the digest.
    pub(crate) fn close(mut self) -> Result<(F, Digest), Fault> {
        self.ask(Wish::Unmount)?;
        Ok(self.leave())
    }

    /// Gives the flash back as it is.
    pub(crate) fn leave(self) -> (F, Digest) {
        let Volume {
            core,
            alloc: _,
            seq: _,
            digest,
        } = self;
        (core.into_flash(), digest)
    }
}
