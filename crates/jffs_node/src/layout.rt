//! Where the fields of a record stand. Positions and lengths are in bytes, counted from the
//! record's start.

/// The length of a record's header, in bytes: every field but the data stands in it.
pub const HEADER_LEN: usize = 64;

/// The position of the gate: the one byte that is programmed after the record, in a call of its
/// own.
pub const GATE_AT: usize = 7;

/// The gate while its record is being programmed: as an erase left it.
pub const GATE_OPEN: u8 = ERASED;

/// The gate of a record that counts.
pub const GATE_CLOSED: u8 = 0x00;

/// A byte after an erase. After the data it fills a record up.
pub const ERASED: u8 = 0xFF;

/// The length of a record is a multiple of this many bytes.
pub(crate) const RECORD_ALIGN: u32 = 4;

/// The first bytes of each record.
pub const MAGIC: [u8; 4] = [0x4A, 0x46, 0x46, 0x31];

pub(crate) const KIND_AT: usize = 4;

pub(crate) const FLAGS_AT: usize = 5;

pub(crate) const NAME_LEN_AT: usize = 6;

pub(crate) const INODE_AT: usize = 8;

pub(crate) const PARENT_AT: usize = 12;

pub(crate) const VERSION_AT: usize = 16;

pub(crate) const OFFSET_AT: usize = 20;

pub(crate) const DATA_LEN_AT: usize = 24;

pub(crate) const REMOVED_LEN_AT: usize = 28;

pub(crate) const WRITER_AT: usize = 32;

pub(crate) const FORM_AT: usize = 34;

pub(crate) const SEQ_AT: usize = 36;
/// The file's size in the second form, zero in the first.
pub(crate) const SIZE_AT: usize = 40;

pub(crate) const NAME_AT: usize = 44;

/// The form of a record that states no size of its file.
pub(crate) const FIRST_FORM: u16 = 1;

/// The form of a record that states its file's size.
pub(crate) const SECOND_FORM: u16 = 2;
