//! What is looked at in a session, in words that a script has.

use crate::tests::session::{Session, first_word};
use jffs_flash::Flash;
use jffs_log::RecordRef;
use jffs_node::{Path, ROOT_INODE};
use jffs_tree::Tree;
use std::alloc::{AllocError, Global};
use std::test::Fail;

impl<F: Flash + Drop> Session<F> {
    /// A number of the log, of the tree, of a sector, a version or an inode.
    pub(super) fn tell_count(&self, line: &str) -> Result<String, Fail> {
        let (what, of) = first_word(line);
        let count = self
            .count(what, of.parse::<u32>().unwrap_or(0))
            .ok_or("no such count")?;
        Ok(format!(in self.alloc; "{count}")?)
    }

    fn count(&self, what: &str, of: u32) -> Option<u64> {
        match what {
            "marks" => Some(u64::from(self.core.tree().marks(of))),
            "erases" => Some(self.erases()),
            "records-in" => Some(self.records_in(of)),
            "erased-sectors" => self.erased_sectors(),
            "live-weight" => self.live_weight(),
            "live-in" => self.live_in(of),
            _ => None,
        }
    }

    /// How many erases there were.
    pub(super) fn erases(&self) -> u64 {
        self.core.log().erases()
    }

    /// How many records stand in a sector.
    fn records_in(&self, sector: u32) -> u64 {
        let mut count = 0u64;
        for record in self.core.log().records() {
            if u32::from(record.sector) == sector {
                count = count.saturating_add(1);
            }
        }
        count
    }

    /// How many sectors are erased.
    fn erased_sectors(&self) -> Option<u64> {
        if self.core.failed() {
            return None;
        }
        Some(u64::from(self.core.log().erased()))
    }

    /// What the live records weigh.
    pub(super) fn live_weight(&self) -> Option<u64> {
        if self.core.failed() {
            return None;
        }
        Some(self.core.log().live_weight(self.core.tree()))
    }

    /// How many records of the sector live.
    fn live_in(&self, sector: u32) -> Option<u64> {
        if self.core.failed() {
            return None;
        }
        Some(u64::from(self.core.log().live_in(sector, self.core.tree())))
    }

    /// `true` or `false`.
    pub(super) fn tell_whether(&self, what: &str) -> Result<String, Fail> {
        let so = self.is_so(what).ok_or("no such state")?;
        Ok(format!(in self.alloc; "{so}")?)
    }

    fn is_so(&self, what: &str) -> Option<bool> {
        match what {
            "clean" => Some(self.core.clean()),
            "closed" => Some(self.core.closed()),
            "oldest-dead" => self.oldest_dead(),
            _ => None,
        }
    }

    /// Whether the oldest sector may be erased.
    fn oldest_dead(&self) -> Option<bool> {
        if self.core.failed() {
            return None;
        }
        Some(self.core.log().oldest_dead(self.core.tree()))
    }

    /// The bytes of a file, where a path leads, the names of the root, or the records of the log.
    pub(super) fn show(&self, line: &str) -> Result<String, Fail> {
        let (what, of) = first_word(line);
        match what {
            "contents" => Ok(first_bytes(self.alloc, self.core.tree(), of.parse::<u32>()?)?),
            "inode-at" => self.show_inode(of),
            "names" => self.show_names(),
            "records" => self.show_records(),
            _ => Err("nothing to show".into()),
        }
    }

    fn show_inode(&self, path: &str) -> Result<String, Fail> {
        let inode = self.inode_at(path)?;
        Ok(format!(in self.alloc; "{inode:?}")?)
    }

    /// The inode that a path leads to.
    pub(super) fn inode_at(&self, path: &str) -> Result<Option<u32>, Fail> {
        let path = Path::parse(self.alloc, path)?;
        Ok(self.core.tree().resolve(&path))
    }

    /// How many names the root has.
    fn show_names(&self) -> Result<String, Fail> {
        let names = self.core.tree().names(ROOT_INODE)?.len();
        Ok(format!(in self.alloc; "{names}")?)
    }

    /// Sector, version and inode of each record of the log.
    fn show_records(&self) -> Result<String, Fail> {
        let mut text = String::new(self.alloc);
        for record in self.core.log().records() {
            if !text.is_empty() {
                text.push(' ')?;
            }
            show_record(self.alloc, *record, &mut text)?;
        }
        Ok(text)
    }

    /// The size of a file.
    pub(super) fn size(&self, inode: u32) -> Option<u32> {
        self.core.tree().size(inode)
    }

    /// All bytes of a file; none where there is none.
    pub(super) fn whole(&self, inode: u32) -> Result<Vec<u8>, AllocError> {
        whole(self.alloc, self.core.tree(), inode)
    }
}

fn show_record(alloc: Global, record: RecordRef, text: &mut String) -> Result<(), AllocError> {
    let RecordRef {
        sector,
        version,
        inode,
        ..
    } = record;
    let shown = format!(in alloc; "{sector}/{version}/{inode}")?;
    text.push_str(shown.as_str())
}

/// All bytes of a file; none where there is none.
pub(super) fn whole(alloc: Global, tree: &Tree, inode: u32) -> Result<Vec<u8>, AllocError> {
    let size = tree.size(inode).unwrap_or(0) as usize;
    let mut bytes = vec![in alloc; 0xFFu8; size]?;
    tree.read(inode, 0, &mut bytes);
    Ok(bytes)
}

/// The first bytes of a file, sixteen at most, each as the character of its number.
fn first_bytes(alloc: Global, tree: &Tree, inode: u32) -> Result<String, AllocError> {
    let mut out = [0xFFu8; 16];
    let count = tree.read(inode, 0, &mut out);
    text_of_bytes(alloc, &out[..count])
}

fn text_of_bytes(alloc: Global, bytes: &[u8]) -> Result<String, AllocError> {
    let mut text = String::new(alloc);
    for byte in bytes {
        text.push(char::from(*byte))?;
    }
    Ok(text)
}
