//! What a sector reads as.

ghost use Rattle.std.specs.Prelude.{◌≡◌, ◌<◌, ◌+◌, ◌^◌, ◌++◌, ◌==◌, length, map, sum_by, IsTrue};
ghost use Rattle.std.specs.Prelude.{IfOk, OnOk};
ghost use Rattle.std.specs.List.{AllByRecursion};
ghost use Rattle.jffs_node.specs.Record.{is_lawful, record_len as length_of};
ghost use Rattle.jffs_log.specs.Image.{sector_of, records_in, placed_from};
ghost use Rattle.jffs_log.specs.LogIndex.{ref_of};
ghost use Rattle.jffs_log.specs.ScanRead.{IsSpelled, IsSmall};

use crate::log_index::RecordRef;
use jffs_node::{NoMemory, Node, Read, decode, is_erased, record_len};
use std::alloc::{AllocError, Global};
use std::collections::VecDeque;
use std::marker::Model;

/// A record takes at most a quarter of a sector, so a sector has room for at least this many.
pub const RECORDS_PER_SECTOR: u32 = 4;

/// A sector with its number: the nodes of its records, one after another, and what follows them.
#[derive(Drop)]
pub(crate) struct SectorRead {
    number: u32,
    nodes: Vec<Node>,
    /// The bytes that the records take.
    used: u32,
    /// What follows the records; never a closed record.
    ending: Read,
    /// Whether the whole sector is erased.
    erased: bool,
}

impl Model for SectorRead {
    ghost use Rattle.std.specs.Prelude.{ℕ};
    ghost use Rattle.jffs_log.specs.Image.{Sector};
    ghost use Rattle.jffs_log.specs.ScanRead.{sector_read, IsRead};

    ghost Value = { ℕ × Sector };

    ghost view = { sector_read };

    ghost invariant = { IsRead };
}

impl SectorRead {
    pub(crate) fn number(&self) -> u32
        ensures { result ≡ self.now.0 }
    {
        self.number
    }

    pub(crate) fn is_erased(&self) -> bool
        ensures { result ≡ self.now.1.erased }
    {
        self.erased
    }

    pub(crate) fn nodes(&self) -> &[Node]
        ensures value { result.now ≡ self.now.1.reading.nodes }
        ensures lawful { AllByRecursion (λ n. IsTrue (is_lawful n)) result.now }
    {
        &self.nodes
    }

    /// The bytes that the records take.
    pub(crate) fn used(&self) -> u32
        ensures { result ≡ sum_by length_of self.now.1.reading.nodes }
    {
        self.used
    }

    /// What follows the records; never a closed record.
    pub(crate) fn ending(&self) -> &Read
        ensures { result.now ≡ self.now.1.reading.ending }
    {
        &self.ending
    }

    /// Takes the nodes out.
    pub(crate) fn into_nodes(self) -> Vec<Node>
        ensures value { result.items ≡ self.1.reading.nodes }
        ensures lawful { AllByRecursion (λ n. IsTrue (is_lawful n)) result.items }
    {
        let SectorRead {
            number: _,
            nodes,
            used: _,
            ending: _,
            erased: _,
        } = self;
        nodes
    }

    /// Adds what is kept of the records. If allocation fails, some of them are added.
    pub(crate) fn list_records(&self, records: &mut VecDeque<RecordRef>) -> Result<(), AllocError>
        requires { IsSmall self.now }
        ensures { OnOk result
            (records.new.items ≡ records.old.items ++ map ref_of (records_in self.now)) }
    {
        list_nodes(self.number, &self.nodes, records)
    }
}

/// Adds what is kept of the records of these nodes, which stand at the start of a sector.
fn list_nodes(
    sector: u32,
    nodes: &[Node],
    records: &mut VecDeque<RecordRef>,
) -> Result<(), AllocError>
    requires { (sector < 2 ^ 16) × (sum_by length_of nodes.now < 2 ^ 16) }
    ensures { OnOk result
        (records.new.items ≡ records.old.items ++ map ref_of (placed_from sector 0 nodes.now)) }
{
    let mut offset = 0u32;
    for node in nodes {
        let length = record_len(node);
        records.push_back(RecordRef {
            version: node.version,
            inode: node.inode,
            data_offset: node.offset,
            data_len: node.bytes.len() as u16,
            length: length as u16,
            sector: sector as u16,
            offset: offset as u16,
        })?;
        offset += length;
    }
    Ok(())
}

/// Reads the records of a sector, from position 0 up to the first that is not closed and lawful.
/// `NoMemory` if allocation failed.
pub(crate) fn read_sector(alloc: Global, number: u32, sector: &[u8]) -> Result<SectorRead, NoMemory>
    requires { length sector.now < 2 ^ 32 }
    ensures read { IfOk result (λ s. s ≡ (number, sector_of sector.now)) }
    ensures spelled { IfOk result (λ s. IsSpelled sector.now) }
{
    let record_max = sector.len() as u32 / RECORDS_PER_SECTOR;
    let mut nodes = Vec::new(alloc);
    let mut used = 0u32;
    loop {
        match decode(alloc, &sector[used as usize..], record_max)? {
            Read::Closed(node, len) => {
                nodes.push(node)?;
                used += len;
            }
            ending => {
                return Ok(SectorRead {
                    number,
                    nodes,
                    used,
                    ending,
                    erased: is_erased(sector),
                });
            }
        }
    }
}
