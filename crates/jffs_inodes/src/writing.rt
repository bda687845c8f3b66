//! A node written over its inode, and the marks moved with it.

ghost use Rattle.std.specs.Prelude.{◌≡◌, false, OnOk, OnErr, is_some};
ghost use Rattle.jffs_marks.specs.Marks.{SameMarks};
ghost use Rattle.jffs_inodes.specs.Inodes.{held_in, IsWritable, WritesInode};
ghost use Rattle.jffs_inodes.specs.Marked.{AreMarksOf, HasMarksIn, MovesMarksIn, HasNewest};

use crate::inode::Inode;
use crate::inodes::Inodes;
use jffs_marks::Marks;
use jffs_node::{Name, Node};
use std::alloc::{AllocError, Global};

/// Writes a node over its inode, present or not, and keeps the marks. Precondition: the node has
/// that name, makes no file too long and moves no byte after its range; the marks are those of the
/// inodes; and `newest` is the version of the inode's newest node, none where it isn't present.
///
/// `AllocError` if allocation failed: the inodes are as before, and so are the marks.
pub fn write_marked(
    alloc: Global,
    inodes: &mut Inodes,
    marks: &mut Marks,
    node: &Node,
    name: Name,
    newest: Option<u32>,
) -> Result<(), AllocError>
    requires writable { IsWritable inodes.old node.now name }
    requires marked { AreMarksOf inodes.old marks.old }
    requires newest { HasNewest inodes.old node.now.inode newest }
    ensures ok { OnOk result (WritesInode inodes.old inodes.new node.now) }
    ensures marks { OnOk result (AreMarksOf inodes.new marks.new) }
    ensures err { OnErr result
        ((inodes.new ≡ inodes.old) × SameMarks marks.old marks.new) }
{
    // First the marks that the node brings, so that lowering is all that is left after the write.
    let brought = node.bytes.as_slice().len() as u32 + 1;
    marks.raise(node.version, node.inode, brought)?;
    if let Err(refused) = write_inode(alloc, inodes, marks, node, name, newest.is_some()) {
        marks.lower(node.version, node.inode, brought);
        return Err(refused);
    }
    if let Some(version) = newest {
        marks.lower(version, node.inode, 1);
    }
    Ok(())
}

/// Writes a node over its inode in a map, present or not, and moves the marks of its bytes.
fn write_inode(
    alloc: Global,
    inodes: &mut Inodes,
    marks: &mut Marks,
    node: &Node,
    name: Name,
    is_present: bool,
) -> Result<(), AllocError>
    requires present { is_present ≡ is_some (held_in inodes.old node.now.inode) }
    requires writable { IsWritable inodes.old node.now name }
    requires marked { HasMarksIn marks.old node.now inodes.old }
    ensures ok { OnOk result (WritesInode inodes.old inodes.new node.now) }
    ensures marks { OnOk result
        (MovesMarksIn marks.old marks.new node.now inodes.old inodes.new) }
    ensures err { OnErr result
        ((inodes.new ≡ inodes.old) × SameMarks marks.old marks.new) }
{
    if is_present {
        inodes.write(node, name, marks)
    } else {
        write_absent(alloc, inodes, marks, node, name)
    }
}

/// Writes a node over its inode in a map, where it isn't present, and moves the marks of its bytes.
fn write_absent(
    alloc: Global,
    inodes: &mut Inodes,
    marks: &mut Marks,
    node: &Node,
    name: Name,
) -> Result<(), AllocError>
    requires absent { is_some (held_in inodes.old node.now.inode) ≡ false }
    requires writable { IsWritable inodes.old node.now name }
    requires marked { HasMarksIn marks.old node.now inodes.old }
    ensures ok { OnOk result (WritesInode inodes.old inodes.new node.now) }
    ensures marks { OnOk result
        (MovesMarksIn marks.old marks.new node.now inodes.old inodes.new) }
    ensures err { OnErr result
        ((inodes.new ≡ inodes.old) × SameMarks marks.old marks.new) }
{
    let mut first = Inode::empty(alloc, node, name);
    first.write(node, name, marks)?;
    inodes.put(node.inode, first)?;
    Ok(())
}
