//! The copies that a cleaner asks for: what an image of a sector says that still lives in a view.

ghost use Rattle.std.specs.Prelude.{◌≡◌, drop, IfOk};
ghost use Rattle.jffs_serve.specs.Copies.{IsCopy, AreSome, AddsSome};
ghost use Rattle.jffs_serve.specs.Copying.{copy_in, copies_of, nodes_in, wish_of, KeepsCopy};

use jffs_index::View;
use jffs_log::RECORDS_PER_SECTOR;
use jffs_node::{Bytes, HEADER_LEN, Name, NoMemory, Node, Read, decode};
use jffs_tree::Wish;
use std::alloc::Global;

/// A copy to be asked for: that of the node of version `source`.
#[derive(Drop)]
pub(crate) struct Copying {
    source: u32,
    parent: u32,
    name: Name,
    offset: u32,
    bytes: Bytes,
}

impl Copying {
    /// The wish for it.
    pub(crate) fn wish(self) -> Wish
        ensures copy { IsCopy result }
        ensures same { result ≡ wish_of self }
    {
        let Copying {
            source,
            parent,
            name,
            offset,
            bytes,
        } = self;
        Wish::Copy {
            source,
            parent,
            name,
            offset,
            bytes,
        }
    }
}

/// The nodes of an image's records, in order. Where memory is refused for one, it is left out, and
/// what is after it.
pub(crate) fn nodes_of(alloc: Global, image: &[u8]) -> Vec<Node>
    ensures { AreSome result.items (nodes_in image.now) }
{
    let mut nodes = Vec::new(alloc);
    let record_max = u32::try_from(image.len() / RECORDS_PER_SECTOR as usize).unwrap_or(u32::MAX);
    let mut rest = image;
    for _done in 0..image.len() / HEADER_LEN {
        let Ok(Read::Closed(node, len)) = decode(alloc, rest, record_max) else {
            break;
        };
        if nodes.push(node).is_err() {
            break;
        }
        rest = after(rest, len);
    }
    nodes
}

/// What stands after the first `len` bytes.
fn after(rest: &[u8], len: u32) -> &[u8]
    ensures { result.now ≡ drop len rest.now }
{
    if len as usize <= rest.len() {
        &rest[len as usize..]
    } else {
        &[]
    }
}

/// The copies of the nodes that live in the view, in order, after those that there are. Where
/// memory is refused for one, it is left out.
pub(crate) fn add_copies(view: &View, nodes: &[Node], copies: Vec<Copying>) -> Vec<Copying>
    ensures { AddsSome copies.items result.items (copies_of view.now.tree nodes.now) }
{
    let mut copies = copies;
    for node in nodes {
        keep_copy(view, node, &mut copies);
    }
    copies
}

/// Adds the copy of a node that lives in the view. Without memory it is left out.
fn keep_copy(view: &View, node: &Node, copies: &mut Vec<Copying>)
    ensures { KeepsCopy view.now.tree node.now copies.old.items copies.new.items }
{
    if let Ok(Some(copy)) = copy_of(view, node) {
        let _ = copies.push(copy);
    }
}

/// The copy of a node, as it reads in the view. None where the node doesn't live there.
fn copy_of(view: &View, node: &Node) -> Result<Option<Copying>, NoMemory>
    ensures { IfOk result (λ found. found ≡ copy_in view.now.tree node.now) }
{
    if !view.live(node.inode, node.version) {
        return Ok(None);
    }
    let new = view.cleaning_copy(node)?;
    match new.name {
        Some(name) => Ok(Some(Copying {
            source: node.version,
            parent: new.parent,
            name,
            offset: new.offset,
            bytes: new.bytes,
        })),
        None => Ok(None),
    }
}
