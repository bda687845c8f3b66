//! Nodes, names, paths and records: what one entry of the log says, and how it is spelled on flash.
//!
//! This crate knows nothing of trees, nor of a sector beyond the bytes that it is shown. Its
//! promise is carried by
//! `decode`: a node is read exactly where its record stands, and else the answer says why there is
//! none.
#![tactic(auto)]

mod data;
mod decoding;
mod header;
mod lawful;
mod layout;
mod name;
mod node;
mod numbers;
mod path;
mod read;
mod record;
mod words;

ghost use Rattle.jffs_node.specs.Rows.{Spellings, Readings, SizeReadings, Paths};
ghost use Rattle.jffs_node.specs.Laws.{RecordsAreFound, FoundAreRecords};

pub use bytes::Bytes;
pub use data::{copied, shared};
pub use decoding::{decode, is_erased};
pub use lawful::is_lawful;
pub use layout::{ERASED, GATE_AT, GATE_CLOSED, GATE_OPEN, HEADER_LEN, MAGIC};
pub use name::{NAME_MAX, Name};
pub use node::{FILE_MAX, FIRST_INODE, Kind, Node, ROOT_INODE};
pub use path::{PATH_DEPTH_MAX, Path, PathFault};
pub use read::{NoMemory, Read, Why};
pub use record::{encode_into, encode_open_into, record_len};

/// Records are spelled as on two written examples.
pub fn examples_are_spelled()
    ensures { Spellings }
{}

/// Sectors read as on these examples.
pub fn examples_are_read()
    ensures kept { Readings }
    ensures sized { SizeReadings }
{}

/// Paths are these texts, and these texts are none.
pub fn examples_are_paths()
    ensures { Paths }
{}

/// What begins with the record of a node is read as that node, and nothing else is.
pub fn records_are_found()
    ensures found { RecordsAreFound }
    ensures only { FoundAreRecords }
{}
