//! The bytes of a record.

ghost use Rattle.jffs_node.specs.declared.name.TheConstants.{NAME_MAX};
ghost use Rattle.jffs_node.specs.declared.layout.TheConstants.{ERASED, GATE_AT, HEADER_LEN};
ghost use Rattle.std.specs.Prelude.{◌≡◌, ◌+◌, ◌<◌, ◌≤◌, ◌^◌, ◌++◌, length, take, set, replicate};
ghost use Rattle.std.specs.Prelude.{IsTrue};
ghost use Rattle.jffs_node.specs.Record.{record_len as length_of, dsize, header, name_bytes};
ghost use Rattle.jffs_node.specs.Record.{kind_byte as byte_of_kind, flags_byte as byte_of_flags};
ghost use Rattle.jffs_node.specs.Record.{form_number as number_of_form, is_lawful};
ghost use Rattle.jffs_node.specs.Record.{spelling, spelling_open, fields};
ghost use Rattle.jffs_node.specs.Name.{padded_name};

use crate::layout::{ERASED, FIRST_FORM, GATE_CLOSED, GATE_OPEN, HEADER_LEN, MAGIC, SECOND_FORM};
use crate::name::NAME_MAX;
use crate::node::{Kind, Node};
use crate::numbers::len_with_data;

/// How many bytes the record of a node has: the header, and the data filled up to a multiple of 4.
/// Precondition: that number is less than 2^32.
pub fn record_len(node: &Node) -> u32
    requires { length_of node.now < 2 ^ 32 }
    ensures { result ≡ length_of node.now }
{
    let amount = node.bytes.len() as u32;
    len_with_data(amount) as u32
}

/// Writes the closed record of a node into `out`. Preconditions: the node is lawful, and `out` has
/// as many bytes as its record.
pub fn encode_into(node: &Node, out: &mut [u8])
    requires lawful { IsTrue (is_lawful node.now) }
    requires long { length out.old ≡ length_of node.now }
    ensures { out.new ≡ spelling node.now }
{
    let end = HEADER_LEN + node.bytes.len();
    put_fields(node, GATE_CLOSED, &mut out[..end]);
    out[end..].fill(ERASED);
}

/// Writes the record of a node into `out` with its gate open, as it is programmed before the gate.
/// Preconditions: the node is lawful, and `out` has as many bytes as its record, each as an erase
/// leaves it.
pub fn encode_open_into(node: &Node, out: &mut [u8])
    requires lawful { IsTrue (is_lawful node.now) }
    requires erased { out.old ≡ replicate (length_of node.now) ERASED }
    ensures { out.new ≡ spelling_open node.now }
{
    let end = HEADER_LEN + node.bytes.len();
    put_fields(node, GATE_OPEN, &mut out[..end]);
}

/// All of a record but what fills it up.
fn put_fields(node: &Node, gate: u8, out: &mut [u8])
    requires lawful { IsTrue (is_lawful node.now) }
    requires long { length out.old ≡ HEADER_LEN + dsize node.now }
    ensures { out.new ≡ fields gate node.now }
{
    let at = put_numbers(node, gate, out);
    let at = put_name(node, out, at);
    put(out, at, node.bytes.as_slice());
}

/// The numbers of a record stand in its first 44 bytes, the gate among them.
fn put_numbers(node: &Node, gate: u8, out: &mut [u8]) -> usize
    requires lawful { IsTrue (is_lawful node.now) }
    requires long { 44 ≤ length out.old }
    ensures at { result ≡ 44 }
    ensures length { length out.new ≡ length out.old }
    ensures front { take 44 out.new ≡ set (header node.now) GATE_AT gate }
{
    let amount = node.bytes.as_slice().len() as u32;
    let name_len = bytes_of_name(node).len() as u8;
    let kind = [kind_byte(node.kind), flags_byte(node), name_len, gate];
    let at = put(out, 0, &MAGIC);
    let at = put(out, at, &kind);
    let at = put(out, at, &node.inode.to_be_bytes());
    let at = put(out, at, &node.parent.to_be_bytes());
    let at = put(out, at, &node.version.to_be_bytes());
    let at = put(out, at, &node.offset.to_be_bytes());
    let at = put(out, at, &amount.to_be_bytes());
    let at = put(out, at, &node.rsize.to_be_bytes());
    let at = put(out, at, &node.writer.to_be_bytes());
    let at = put(out, at, &form_number(node).to_be_bytes());
    let at = put(out, at, &node.seq.to_be_bytes());
    put(out, at, &node.size.unwrap_or(0).to_be_bytes())
}

/// The name, padded with zeros.
fn put_name(node: &Node, out: &mut [u8], at: usize) -> usize
    requires { at + NAME_MAX ≤ length out.old }
    ensures at { result ≡ at + NAME_MAX }
    ensures length { length out.new ≡ length out.old }
    ensures front { take result out.new ≡ take at out.old ++ padded_name (name_bytes node.now) }
{
    let name = bytes_of_name(node);
    let end = put(out, at, name);
    fill(out, end, NAME_MAX - name.len(), 0)
}

/// No bytes, where the node has no name.
fn bytes_of_name(node: &Node) -> &[u8]
    ensures value { result.now ≡ name_bytes node.now }
    ensures short { length result.now ≤ NAME_MAX }
{
    match &node.name {
        Some(name) => name.bytes(),
        None => &[],
    }
}

/// Writes bytes at a position, and returns the position after them.
fn put(out: &mut [u8], at: usize, bytes: &[u8]) -> usize
    requires { at + length bytes.now ≤ length out.old }
    ensures at { result ≡ at + length bytes.now }
    ensures length { length out.new ≡ length out.old }
    ensures front { take result out.new ≡ take at out.old ++ bytes.now }
{
    let end = at + bytes.len();
    out[at..end].copy_from_slice(bytes);
    end
}

/// Writes one byte a number of times at a position, and returns the position after them.
fn fill(out: &mut [u8], at: usize, count: usize, byte: u8) -> usize
    requires { at + count ≤ length out.old }
    ensures at { result ≡ at + count }
    ensures length { length out.new ≡ length out.old }
    ensures front { take result out.new ≡ take at out.old ++ replicate count byte }
{
    let end = at + count;
    out[at..end].fill(byte);
    end
}

/// The byte that stands for a kind.
fn kind_byte(kind: Kind) -> u8
    ensures { result ≡ byte_of_kind kind }
{
    match kind {
        Kind::File => 1,
        Kind::Directory => 2,
        Kind::Unmount => 3,
    }
}

/// The flags of a node in one byte.
fn flags_byte(node: &Node) -> u8
    ensures { result ≡ byte_of_flags node.now }
{
    let deleted = if node.deleted { 1 } else { 0 };
    let copy = if node.copy { 2 } else { 0 };
    deleted + copy
}

/// The form in which a node is written.
fn form_number(node: &Node) -> u16
    ensures { result ≡ number_of_form node.now }
{
    if node.size.is_some() {
        SECOND_FORM
    } else {
        FIRST_FORM
    }
}
