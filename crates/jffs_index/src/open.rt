//! How an index is opened.
ghost use Rattle.std.specs.Prelude.{◌≡◌, ◌⊎◌, ◌<◌, ◌↔◌, [], IfOk, IsErrOf};
ghost use Rattle.std.specs.List.{All};
ghost use Rattle.std.specs.Vec.{vec_len};
ghost use Rattle.jffs_index.specs.Histories.{opening_of};
ghost use Rattle.jffs_index.specs.Ends.{published, pending, IsReaderOf};
ghost use Rattle.jffs_index.specs.declared.open.TheConstants.{PLACES_MAX};

use crate::publisher::Publisher;
use crate::reader::Reader;
use jffs_tree::Tree;
use std::alloc::Global;
use std::sync::Wait;
use thiserror::Error;

/// Why no index was made, in the order in which the reasons are tried. The tree is then gone.
#[derive(Clone, Copy, Debug, PartialEq, Eq, Error)]
pub enum IndexFault {
    /// No reader was asked for, or more than `PLACES_MAX`.
    #[error("an index has 1 to 17 readers")]
    Places,
    /// Allocation failed.
    #[error("no memory for an index")]
    Memory,
    /// A reader's slot could not be had.
    #[error("no place for a reader")]
    NoPlace,
}

/// The most readers of an index: sixteen, and the cleaner.
pub const PLACES_MAX: usize = 17;

/// Opens an index over a tree, with `readers` readers, 1 to [`PLACES_MAX`], who see the tree and
/// no answers.
///
/// `Places` for any other number of readers, `Memory` if allocation failed, `NoPlace` if a reader's
/// slot could not be had. After each of them the tree is gone.
pub fn publish_index<R: Wait + Drop>(
    rt: R,
    alloc: Global,
    tree: Tree,
    readers: usize,
) -> Result<(Publisher<R>, Vec<Reader>), IndexFault>
    ensures places { IsErrOf result IndexFault.Places ↔ ((readers ≡ 0) ⊎ (PLACES_MAX < readers)) }
    ensures opened { IfOk result
        (λ index. (published index.0 ≡ opening_of tree) × (pending index.0 ≡ [])
        × (vec_len index.1 ≡ readers) × All (IsReaderOf index.0) index.1.items) }
{
    if readers == 0 || readers > PLACES_MAX {
        return Err(IndexFault::Places);
    }
    let mut ends = Vec::with_capacity(alloc, readers).map_err(|_| IndexFault::Memory)?;
    let mut publisher = Publisher::open(rt, alloc, tree, readers).map_err(|_| IndexFault::Memory)?;
    for _ in 0..readers {
        match publisher.reader() {
            Ok(reader) => ends.push_reserved(reader),
            Err(_) => return Err(IndexFault::NoPlace),
        }
    }
    Ok((publisher, ends))
}
