//! Records against the bytes of two written examples, and paths, names and data.
//! The bytes are spelled from the table of docs/FORMAT.md.

use jffs_node::{
    Bytes, ERASED, GATE_AT, GATE_OPEN, Kind, Name, NoMemory, Node, Path, PathFault, Read, Why,
    copied, decode, encode_into, record_len, shared,
};
use std::alloc::{AllocError, Global};
use std::cmp::Ordering;
use std::process::Abort;
use std::test::Fail;

const SECTOR: usize = 1024;

const RECORD_MAX: u32 = 256;

/// `hello` is written into `/f`, as the second record of a volume.
const HELLO: [u8; 72] = [
    0x4A, 0x46, 0x46, 0x31, 0x01, 0x00, 0x01, 0x00, 0, 0, 0, 2, 0, 0, 0, 1, 0, 0, 0, 2, 0, 0, 0, 0,
    0, 0, 0, 5, 0, 0, 0, 0, 0, 1, 0, 2, 0, 0, 0, 2, 0, 0, 0, 5, 0x66, 0, 0, 0, 0, 0, 0, 0, 0, 0, 0,
    0, 0, 0, 0, 0, 0, 0, 0, 0, 0x68, 0x65, 0x6C, 0x6C, 0x6F, 0xFF, 0xFF, 0xFF,
];

/// The record of a session that only unmounts.
const UNMOUNT: [u8; 64] = [
    0x4A, 0x46, 0x46, 0x31, 0x03, 0x00, 0x00, 0x00, 0, 0, 0, 0, 0, 0, 0, 0, 0, 0, 0, 1, 0, 0, 0, 0,
    0, 0, 0, 0, 0, 0, 0, 0, 0, 0x0A, 0, 1, 0, 0, 0, 1, 0, 0, 0, 0, 0, 0, 0, 0, 0, 0, 0, 0, 0, 0, 0,
    0, 0, 0, 0, 0, 0, 0, 0, 0,
];

/// A sector that begins with these bytes, one of them changed, and is erased after them.
fn sector_with(alloc: Global, front: &[u8], at: usize, byte: u8) -> Result<Vec<u8>, AllocError> {
    let mut sector = Vec::with_capacity(alloc, SECTOR)?;
    sector.extend_from_slice(front)?;
    if at < sector.len() {
        sector[at] = byte;
    }
    for _ in front.len()..SECTOR {
        sector.push(ERASED)?;
    }
    Ok(sector)
}

/// A sector that begins with `HELLO`, one byte of it changed.
fn hello_with(alloc: Global, at: usize, byte: u8) -> Result<Vec<u8>, AllocError> {
    sector_with(alloc, &HELLO, at, byte)
}

/// What is read at the start of these bytes.
fn read(alloc: Global, bytes: &[u8]) -> Result<Read, NoMemory> {
    decode(alloc, bytes, RECORD_MAX)
}

/// The node of the closed record that begins these bytes, which has to be `wanted` bytes long.
fn closed(rt: &impl Abort, alloc: Global, bytes: &[u8], wanted: u32) -> Result<Node, Fail> {
    match read(alloc, bytes)? {
        Read::Closed(node, len) => {
            assert_eq!(rt; len, wanted);
            Ok(node)
        }
        Read::Bad(_) | Read::Free | Read::Torn => Err("not closed".into()),
    }
}

/// The reason of a bad record.
fn why(read: Read) -> Option<Why> {
    match read {
        Read::Bad(why) => Some(why),
        Read::Closed(_, _) | Read::Free | Read::Torn => None,
    }
}

/// The numbers of the node of `HELLO`.
fn has_numbers_of_hello(rt: &impl Abort, node: &Node) {
    assert_eq!(rt; node.kind, Kind::File);
    assert_eq!(rt; node.inode, 2);
    assert_eq!(rt; node.parent, 1);
    assert_eq!(rt; node.version, 2);
    assert_eq!(rt; node.offset, 0);
    assert_eq!(rt; node.rsize, 0);
    assert_eq!(rt; node.size, Some(5));
    assert_eq!(rt; node.writer, 1);
    assert_eq!(rt; node.seq, 2);
}

#[test]
fn create_and_write(rt: HostRuntime) -> Result<(), Fail> {
    let sector = hello_with(rt.alloc(), 0, 0x4A)?;
    let node = closed(&rt, rt.alloc(), &sector, 72)?;
    has_numbers_of_hello(&rt, &node);
    assert_eq!(rt; node.bytes.as_slice(), b"hello".as_slice());
    match &node.name {
        Some(name) => assert_eq!(rt; name.bytes(), b"f".as_slice()),
        None => return Err("no name".into()),
    }
    Ok(())
}

/// The record of a node that unmounts a volume on which nothing else was written.
fn unmount_spelled(rt: &impl Abort) -> [u8; 64] {
    let node = Node {
        kind: Kind::Unmount,
        deleted: false,
        copy: false,
        inode: 0,
        parent: 0,
        version: 1,
        offset: 0,
        rsize: 0,
        writer: 10,
        seq: 1,
        size: None,
        name: None,
        bytes: Bytes::new(),
    };
    assert_eq!(rt; record_len(&node), 64);
    let mut record = [0; 64];
    encode_into(&node, &mut record);
    record
}

#[test]
fn empty_volume(rt: HostRuntime) -> Result<(), Fail> {
    let record = unmount_spelled(&rt);
    assert_eq!(rt; record.as_slice(), UNMOUNT.as_slice());
    let read = closed(&rt, rt.alloc(), &record, 64)?;
    assert_eq!(rt; read.kind, Kind::Unmount);
    assert_eq!(rt; read.version, 1);
    assert_eq!(rt; read.writer, 10);
    assert_eq!(rt; read.seq, 1);
    Ok(())
}

/// The record that begins a sector is bad for this reason.
fn is_bad(rt: &impl Abort, alloc: Global, sector: &[u8], wanted: Why) -> Result<(), Fail> {
    let found = why(read(alloc, sector)?);
    assert_eq!(rt; found, Some(wanted));
    Ok(())
}

#[test]
fn one_byte_changed(rt: HostRuntime) -> Result<(), Fail> {
    let rows = [
        (0, 0x4B, Why::Magic),
        (4, 9, Why::Kind),
        (5, 4, Why::Flags),
        (45, 0x2F, Why::Name),
        (35, 3, Why::Form),
        (43, 4, Why::Size),
        (69, 0, Why::Pad),
    ];
    for (at, byte, wanted) in rows {
        is_bad(&rt, rt.alloc(), &hello_with(rt.alloc(), at, byte)?, wanted)?;
    }
    let sector = sector_with(rt.alloc(), &UNMOUNT, 43, 1)?;
    is_bad(&rt, rt.alloc(), &sector, Why::Spare)
}

#[test]
fn an_open_gate_is_torn_and_erased_flash_is_free(rt: HostRuntime) -> Result<(), Fail> {
    let sector = hello_with(rt.alloc(), GATE_AT, GATE_OPEN)?;
    assert!(rt; matches!(read(rt.alloc(), &sector)?, Read::Torn));
    let erased = sector_with(rt.alloc(), &[], 0, ERASED)?;
    assert!(rt; matches!(read(rt.alloc(), &erased)?, Read::Free));
    assert!(rt; matches!(read(rt.alloc(), &[])?, Read::Free));
    Ok(())
}

/// The text is no path, for this reason.
fn is_no_path(rt: &impl Abort, alloc: Global, text: &str, fault: PathFault) -> Result<(), Fail> {
    match Path::parse(alloc, text) {
        Ok(_) => return Err("a path".into()),
        Err(PathFault::Memory) => return Err("out of memory".into()),
        Err(found) => assert_eq!(rt; found, fault, "{text}"),
    }
    assert_eq!(rt; Path::check(text).err(), Some(fault), "{text}");
    Ok(())
}

/// The path that a text spells.
fn parsed(alloc: Global, text: &str) -> Result<Path, PathFault> {
    Path::parse(alloc, text)
}

/// How many names a copy of the path has.
fn count_in_clone(path: &Path) -> Result<usize, AllocError> {
    let copy = path.clone()?;
    Ok(copy.names().len())
}

/// How many names the path has that a text spells, and how many its copy has.
fn counts(alloc: Global, text: &str) -> Result<(usize, usize), PathFault> {
    let path = parsed(alloc, text)?;
    let in_copy = count_in_clone(&path)?;
    Ok((path.names().len(), in_copy))
}

/// The text is a path of `count` names.
fn is_path(rt: &impl Abort, alloc: Global, text: &str, count: usize) -> Result<(), Fail> {
    Path::check(text)?;
    let (names, in_copy) = counts(alloc, text)?;
    assert_eq!(rt; names, count, "{text}");
    assert_eq!(rt; in_copy, count, "{text}");
    Ok(())
}

#[test]
fn path_faults(rt: HostRuntime) -> Result<(), Fail> {
    let rows = [
        ("", PathFault::NoSlash),
        ("a", PathFault::NoSlash),
        ("//", PathFault::NameEmpty),
        ("/a/", PathFault::NameEmpty),
        ("/aaaaaaaaaaaaaaaaaaaaa", PathFault::NameLong),
        ("/a b", PathFault::NameByte),
        ("/1/2/3/4/5/6/7/8/9", PathFault::Deep),
        ("/1/2/3/4/5/6/7/8/9/", PathFault::NameEmpty),
    ];
    for (text, fault) in rows {
        is_no_path(&rt, rt.alloc(), text, fault)?;
    }
    is_path(&rt, rt.alloc(), "/", 0)?;
    is_path(&rt, rt.alloc(), "/aaaaaaaaaaaaaaaaaaaa", 1)?;
    is_path(&rt, rt.alloc(), "/1/2/3/4/5/6/7/8", 8)
}

/// How the first name stands to the second.
fn is_ordered(rt: &impl Abort, first: &[u8], second: &[u8], order: Ordering) -> Result<(), Fail> {
    let first = Name::from_bytes(first).ok_or("no name")?;
    let second = Name::from_bytes(second).ok_or("no name")?;
    assert_eq!(rt; first.cmp(&second), order);
    assert_eq!(rt; first == second, order == Ordering::Equal);
    Ok(())
}

#[test]
fn names_are_ordered_by_their_bytes(rt: HostRuntime) -> Result<(), Fail> {
    is_ordered(&rt, b"a", b"b", Ordering::Less)?;
    is_ordered(&rt, b"ab", b"a", Ordering::Greater)?;
    is_ordered(&rt, b"B", b"a", Ordering::Less)?;
    is_ordered(&rt, b"a", b"a", Ordering::Equal)
}

/// A share of no data is empty.
fn no_data_are_shared(rt: &impl Abort, alloc: Global) -> Result<(), Fail> {
    let data = copied(alloc, &[])?;
    assert!(rt; shared(&data)?.is_empty());
    Ok(())
}

#[test]
fn data_are_copied_once_and_then_shared(rt: HostRuntime) -> Result<(), Fail> {
    let data = copied(rt.alloc(), &[1, 2, 3])?;
    assert!(rt; data.is_unique());
    let again = shared(&data)?;
    assert!(rt; !data.is_unique());
    drop(data);
    assert_eq!(rt; again.as_slice(), [1, 2, 3].as_slice());
    no_data_are_shared(&rt, rt.alloc())
}
