//! Whether a node may be written at all.

ghost use Rattle.std.specs.Prelude.{◌≡◌, ◌&&◌, not};
ghost use Rattle.std.specs.Option.{option_map_or};
ghost use Rattle.jffs_node.specs.Name.{is_name};
ghost use Rattle.jffs_node.specs.Record.{is_lawful, fits_fields, suits_kind, is_unmount};

use crate::node::Node;
use crate::numbers::numbers_hold;

/// Whether a node is lawful wherever it stands: each number fits its field, flags, name and form
/// suit the kind, and the numbers suit each other. That its record finds room in a sector is
/// another matter. Takes no memory.
pub fn is_lawful(node: &Node) -> bool
    ensures { result ≡ is_lawful node.now }
{
    fits_fields(node) && suits_kind(node) && numbers_hold(node, node.bytes.len() as u32)
}

/// Every other field has a type of the right width. They are read so that their ranges are known.
fn fits_fields(node: &Node) -> bool
    ensures { result ≡ fits_fields node.now }
{
    let _inode = node.inode;
    let _parent = node.parent;
    let _version = node.version;
    let _offset = node.offset;
    let _rsize = node.rsize;
    let _writer = node.writer;
    let _seq = node.seq;
    let _size = node.size.unwrap_or(0);
    let held = node.bytes.as_slice();
    held.len() <= u32::MAX as usize
}

fn suits_kind(node: &Node) -> bool
    ensures { result ≡ suits_kind node.now }
{
    !(node.deleted && node.copy)
        && (!node.kind.is_unmount() || (!node.deleted && !node.copy))
        && is_named(node)
        && (node.size.is_none() || (node.kind.is_file() && !node.deleted))
}

/// Whatever a name holds is a name, so only its being there is in question.
fn is_named(node: &Node) -> bool
    ensures { result ≡ option_map_or (λ name. not (is_unmount node.now.kind) && is_name name)
        node.now.name (is_unmount node.now.kind) }
{
    match &node.name {
        Some(name) => {
            let _name = name.bytes();
            !node.kind.is_unmount()
        }
        None => node.kind.is_unmount(),
    }
}
