//! Reading the header of a closed record, rule by rule: each function gives what it read, or the
//! rule that is broken.

ghost use Rattle.jffs_node.specs.declared.layout.TheConstants.{HEADER_LEN};
ghost use Rattle.std.specs.Prelude.{◌≡◌, ◌==◌, ◌≤◌, length, Ok, Err, bytes_eq, is_some, take};
ghost use Rattle.jffs_node.specs.Record.{magic, is_unmount};
ghost use Rattle.jffs_node.specs.Reading.{kind_at, flags_hold, name_holds, form_holds, form_at};
ghost use Rattle.jffs_node.specs.Reading.{spare_holds, node_at, first_broken, label_rules};
ghost use Rattle.jffs_node.specs.Header.{checked, flags_at, labels_at, labels_or_why};
ghost use Rattle.jffs_node.specs.Header.{head_at};

use crate::layout::*;
use crate::name::{NAME_MAX, Name};
use crate::node::{Kind, Node};
use crate::read::Why;
use crate::words::{half_at, is_all, word_at};
use bytes::Bytes;

/// What the header of a closed record says: its node, still without the data, and how many bytes of
/// data follow.
#[derive(Drop)]
pub(crate) struct Head {
    pub(crate) node: Node,
    pub(crate) amount: u32,
}

/// What a header says besides its numbers.
#[derive(Clone, Copy)]
pub(crate) struct Labels {
    kind: Kind,
    flags: Flags,
    name: Option<Name>,
    size: Option<u32>,
}

/// What a header says besides its numbers, or the first rule on it that is broken.
pub(crate) fn labels_of(rest: &[u8]) -> Result<Labels, Why>
    requires { HEADER_LEN ≤ length rest.now }
    ensures { result ≡ labels_or_why rest.now (first_broken (label_rules rest.now)) }
{
    check_magic(rest)?;
    let kind = kind_of(rest)?;
    let flags = flags_of(kind, rest)?;
    let name = name_of(kind, rest)?;
    let stated = states_size(kind, flags.deleted, rest)?;
    let size = size_of(stated, rest)?;
    Ok(Labels {
        kind,
        flags,
        name,
        size,
    })
}

/// The node of a header, still without its data.
pub(crate) fn node_of(rest: &[u8], labels: Labels) -> Node
    requires long { HEADER_LEN ≤ length rest.now }
    requires labels { labels ≡ labels_at rest.now }
    ensures { result ≡ (head_at rest.now).node }
{
    Node {
        kind: labels.kind,
        deleted: labels.flags.deleted,
        copy: labels.flags.copy,
        inode: word_at(rest, INODE_AT),
        parent: word_at(rest, PARENT_AT),
        version: word_at(rest, VERSION_AT),
        offset: word_at(rest, OFFSET_AT),
        rsize: word_at(rest, REMOVED_LEN_AT),
        writer: half_at(rest, WRITER_AT),
        seq: word_at(rest, SEQ_AT),
        size: labels.size,
        name: labels.name,
        bytes: Bytes::new(),
    }
}

/// The record begins with the magic.
fn check_magic(rest: &[u8]) -> Result<(), Why>
    requires { HEADER_LEN ≤ length rest.now }
    ensures { result ≡ checked (bytes_eq (take 4 rest.now) magic) Why.Magic tt }
{
    if &rest[..KIND_AT] == MAGIC.as_slice() {
        Ok(())
    } else {
        Err(Why::Magic)
    }
}

/// The kind is one of the three.
fn kind_of(rest: &[u8]) -> Result<Kind, Why>
    requires { HEADER_LEN ≤ length rest.now }
    ensures { result ≡ checked (is_some (kind_at rest.now)) Why.Kind (node_at rest.now).kind }
{
    match rest[KIND_AT] {
        1 => Ok(Kind::File),
        2 => Ok(Kind::Directory),
        3 => Ok(Kind::Unmount),
        _ => Err(Why::Kind),
    }
}

/// What the flags say of a node.
#[derive(Clone, Copy)]
pub(crate) struct Flags {
    pub(crate) deleted: bool,
    pub(crate) copy: bool,
}

/// At most one flag is set, and none in an unmount record.
fn flags_of(kind: Kind, rest: &[u8]) -> Result<Flags, Why>
    requires long { HEADER_LEN ≤ length rest.now }
    requires kind { kind ≡ (node_at rest.now).kind }
    ensures { result ≡ checked (flags_hold rest.now) Why.Flags (flags_at rest.now) }
{
    let flags = match rest[FLAGS_AT] {
        0 => Flags {
            deleted: false,
            copy: false,
        },
        1 if !kind.is_unmount() => Flags {
            deleted: true,
            copy: false,
        },
        2 if !kind.is_unmount() => Flags {
            deleted: false,
            copy: true,
        },
        _ => return Err(Why::Flags),
    };
    Ok(flags)
}

/// The name field holds a name and then zeros; in an unmount record zeros alone.
fn name_of(kind: Kind, rest: &[u8]) -> Result<Option<Name>, Why>
    requires long { HEADER_LEN ≤ length rest.now }
    requires kind { kind ≡ (node_at rest.now).kind }
    ensures { result ≡ checked (name_holds rest.now) Why.Name (node_at rest.now).name }
{
    let len = rest[NAME_LEN_AT] as usize;
    let field = &rest[NAME_AT..HEADER_LEN];
    if len > NAME_MAX || !is_all(&field[len..], 0) {
        return Err(Why::Name);
    }
    if kind.is_unmount() {
        return if len == 0 { Ok(None) } else { Err(Why::Name) };
    }
    match Name::from_bytes(&field[..len]) {
        Some(name) => Ok(Some(name)),
        None => Err(Why::Name),
    }
}

/// Whether the record states a size: the second form does, and is for files that are there.
fn states_size(kind: Kind, deleted: bool, rest: &[u8]) -> Result<bool, Why>
    requires long { HEADER_LEN ≤ length rest.now }
    requires kind { kind ≡ (node_at rest.now).kind }
    requires deleted { deleted ≡ (node_at rest.now).deleted }
    ensures { result ≡ checked (form_holds rest.now) Why.Form (form_at rest.now == 2) }
{
    match half_at(rest, FORM_AT) {
        FIRST_FORM => Ok(false),
        SECOND_FORM if kind.is_file() && !deleted => Ok(true),
        _ => Err(Why::Form),
    }
}

/// The size that the record states, or zeros instead.
fn size_of(stated: bool, rest: &[u8]) -> Result<Option<u32>, Why>
    requires long { HEADER_LEN ≤ length rest.now }
    requires stated { stated ≡ (form_at rest.now == 2) }
    ensures { result ≡ checked (spare_holds rest.now) Why.Spare (node_at rest.now).size }
{
    match word_at(rest, SIZE_AT) {
        size if stated => Ok(Some(size)),
        0 => Ok(None),
        _ => Err(Why::Spare),
    }
}
