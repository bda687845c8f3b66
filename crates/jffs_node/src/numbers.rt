//! The rules on the numbers of a record.

ghost use Rattle.std.specs.Prelude.{◌≡◌, ◌+◌, ◌==◌, ◌&&◌, ◌||◌, nat_le};
ghost use Rattle.jffs_node.specs.Record.{has_no_range as no_range_test};
ghost use Rattle.jffs_node.specs.Record.{kind_numbers as kind_numbers_test};
ghost use Rattle.jffs_node.specs.Record.{size_numbers as size_numbers_test};
ghost use Rattle.jffs_node.specs.Record.{numbers_hold as numbers_test, fits_rest as fits_rest_test};
ghost use Rattle.jffs_node.specs.Record.{len_of_data, file_max};
ghost use Rattle.jffs_node.specs.Header.{checked};

use crate::layout::{HEADER_LEN, RECORD_ALIGN};
use crate::node::{FILE_MAX, FIRST_INODE, Kind, Node, ROOT_INODE};
use crate::read::Why;

/// The length of a record with that many bytes of data: with the header, filled up to a multiple of
/// 4.
pub(crate) fn len_with_data(amount: u32) -> u64
    ensures { result ≡ len_of_data amount }
{
    let fill = (RECORD_ALIGN - amount % RECORD_ALIGN) % RECORD_ALIGN;
    HEADER_LEN as u64 + amount as u64 + fill as u64
}

/// The rule on numbers, of a node whose data need not be there yet, at the head of the last `rest`
/// bytes of its sector.
pub(crate) fn check_numbers(
    node: &Node,
    amount: u32,
    record_max: u32,
    rest: usize,
) -> Result<(), Why>
    ensures { result ≡ checked
        (numbers_test node.now amount && fits_rest_test node.now.kind amount record_max rest)
        Why.Size tt }
{
    if numbers_hold(node, amount) && fits_rest(node.kind, amount, record_max, rest) {
        Ok(())
    } else {
        Err(Why::Size)
    }
}

/// Whether a node's numbers suit each other and the amount of its data, which need not be there
/// yet.
pub(crate) fn numbers_hold(node: &Node, amount: u32) -> bool
    ensures { result ≡ numbers_test node.now amount }
{
    node.version >= 1
        && kind_numbers_hold(node, amount)
        && (!node.deleted || has_no_range(node, amount))
        && (!node.copy || node.rsize == amount)
        && size_numbers_hold(node, amount)
}

/// An unmount node is of no inode, a directory has no data, and a file stays within the greatest
/// size.
fn kind_numbers_hold(node: &Node, amount: u32) -> bool
    ensures { result ≡ kind_numbers_test node.now.kind node.now amount }
{
    match node.kind {
        Kind::Unmount => node.inode == 0 && node.parent == 0 && has_no_range(node, amount),
        Kind::Directory => is_in_tree(node)
            && node.parent < node.inode
            && has_no_range(node, amount),
        Kind::File => is_in_tree(node) && is_in_file(node, amount),
    }
}

/// No root, and a parent.
fn is_in_tree(node: &Node) -> bool
    ensures { result ≡ (nat_le 2 node.now.inode && nat_le 1 node.now.parent) }
{
    node.inode >= FIRST_INODE && node.parent >= ROOT_INODE
}

/// The ranges stay within the greatest size, and what has data removes no more than that.
fn is_in_file(node: &Node, amount: u32) -> bool
    ensures { result ≡ (nat_le (node.now.offset + amount) file_max
        && nat_le (node.now.offset + node.now.rsize) file_max
        && (nat_le node.now.rsize amount || amount == 0)) }
{
    ends_within(node.offset, amount, FILE_MAX)
        && ends_within(node.offset, node.rsize, FILE_MAX)
        && (node.rsize <= amount || amount == 0)
}

/// No offset, no data, and nothing removed.
fn has_no_range(node: &Node, amount: u32) -> bool
    ensures { result ≡ no_range_test node.now amount }
{
    node.offset == 0 && amount == 0 && node.rsize == 0
}

/// A stated size is within the greatest, and the data ends within it.
fn size_numbers_hold(node: &Node, amount: u32) -> bool
    ensures { result ≡ size_numbers_test node.now amount }
{
    match node.size {
        Some(size) => size <= FILE_MAX && ends_within(node.offset, amount, size),
        None => true,
    }
}

/// Whether a range of a file ends within that many bytes.
fn ends_within(offset: u32, len: u32, end: u32) -> bool
    ensures { result ≡ nat_le (offset + len) end }
{
    offset as u64 + len as u64 <= end as u64
}

/// Whether a record with so much data may stand at the head of the last `rest` bytes of its sector:
/// only an unmount record may leave no room for another.
fn fits_rest(kind: Kind, amount: u32, record_max: u32, rest: usize) -> bool
    ensures { result ≡ fits_rest_test kind amount record_max rest }
{
    let len = len_with_data(amount);
    let rest = rest as u64;
    len <= record_max as u64
        && len <= rest
        && (kind.is_unmount() || len + HEADER_LEN as u64 <= rest)
}
