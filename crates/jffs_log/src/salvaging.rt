//! What can be saved of an image, whether a scan refuses it or not.

ghost use Rattle.std.specs.Prelude.{◌≡◌, ◌*◌, ◌<◌, ◌^◌, ◌++◌, length, map, flat_map, filter_map};
ghost use Rattle.std.specs.Prelude.{sum_by, Ok, IfOk, OnOk};
ghost use Rattle.std.specs.List.{enumerate_from};
ghost use Rattle.jffs_node.specs.Record.{record_len as length_of};
ghost use Rattle.jffs_log.specs.Image.{records_in, placed_from};
ghost use Rattle.jffs_log.specs.Volume.{split, sectors_in};
ghost use Rattle.jffs_log.specs.Salvage.{AreInOrder, Sifted, sift as sifted_by, sifted, IsMadeOf};
ghost use Rattle.jffs_log.specs.Salvage.{cut_in, saved_of, IsSalvaged, IsWhole};
ghost use Rattle.jffs_log.specs.Scan.{Scanned, scan};

use crate::sector::{SectorRead, read_sector};
use jffs_node::{NoMemory, Node, Read, Why, record_len};
use jffs_tree::Tree;
use std::alloc::{AllocError, Global};
use std::marker::Model;

/// A sector whose records are followed by something other than erased bytes. Of what follows
/// nothing is read.
#[derive(Clone, Copy, Debug, PartialEq, Eq)]
pub struct CutSector {
    pub sector: u32,
    /// Where its records end, in bytes.
    pub offset: u32,
    /// The rule that the closed record there breaks first; `None` where no closed record stands.
    pub why: Option<Why>,
}

/// A record that was found in an image, of whatever size.
#[derive(Clone, Copy, Debug, PartialEq, Eq)]
pub struct SavedRecord {
    /// The version of its node.
    pub version: u32,
    /// The inode that its node is about.
    pub inode: u32,
    /// How many bytes it takes.
    pub length: u32,
    /// The sector in which it stands.
    pub sector: u32,
    /// Where it begins there, in bytes.
    pub offset: u32,
}

/// What is saved of an image, and what is not.
#[derive(Drop)]
pub struct Salvaged {
    /// The tree of the records that were taken. It may break the rules of a whole log's tree: an
    /// inode's directory may be missing, and two inodes may have one name.
    pub tree: Tree,
    /// The records that were taken, by their versions.
    pub taken: Vec<SavedRecord>,
    /// The records that the tree of those before them didn't allow, by their versions.
    pub left_out: Vec<SavedRecord>,
    /// The sectors that were not read to an end of erased bytes, by their numbers.
    pub cut: Vec<CutSector>,
}

/// A record as it stands in an image.
#[derive(Drop)]
struct FoundRecord {
    sector: u32,
    /// Where it begins there, in bytes.
    offset: u32,
    node: Node,
}

impl Model for FoundRecord {
    ghost use Rattle.std.specs.Prelude.{◌<◌, ◌^◌};
    ghost use Rattle.jffs_node.specs.Record.{record_len};
    ghost use Rattle.jffs_log.specs.Image.{Placed};
    ghost use Rattle.jffs_log.specs.LogIndex.{placed_at};

    ghost Value = { Placed };

    ghost view = { λ r. placed_at r.sector r.offset r.node };

    ghost invariant = { λ r. record_len r.node < 2 ^ 32 };
}

impl FoundRecord {
    fn node(&self) -> &Node
        ensures { result.now ≡ self.now.node }
    {
        &self.node
    }

    fn version(&self) -> u32
        ensures { result ≡ self.now.node.version }
    {
        self.node.version
    }

    /// What is kept of it.
    fn reference(&self) -> SavedRecord
        ensures { result ≡ saved_of self.now }
    {
        SavedRecord {
            version: self.node.version,
            inode: self.node.inode,
            length: record_len(&self.node),
            sector: self.sector,
            offset: self.offset,
        }
    }
}

/// Saves what the records of an image make, which has so many sectors of so many bytes; no volume
/// need be found in it. Of each sector the records are read up to the first that isn't complete and
/// lawful. Those of all sectors are taken in the order of their versions, and of one version in
/// that of the image, each if the tree of those taken before it allows it. The records of an image
/// that `scan` accepts are those of its log, and all are taken.
///
/// *Precondition:* the image has the bytes of its sectors.
///
/// `NoMemory` if allocation failed.
pub fn salvage(
    alloc: Global,
    image: &[u8],
    sectors: u32,
    sector_size: u32,
) -> Result<Salvaged, NoMemory>
    requires { length image.now ≡ sectors * sector_size }
    ensures saved { IfOk result (λ made. IsSalvaged sectors sector_size image.now made) }
    ensures whole { IfOk result (λ made. (scanned : Scanned)
        → scan sector_size (split sectors sector_size image.now) ≡ Ok scanned
        → IsWhole scanned made) }
{
    let found = read_all(alloc, image, sectors, sector_size)?;
    let cut = cut_sectors(alloc, &found)?;
    let records = in_order(records_of(alloc, found)?)?;
    take_allowed(alloc, &records, cut)
}

/// Reads each sector of an image.
fn read_all(
    alloc: Global,
    image: &[u8],
    sectors: u32,
    sector_size: u32,
) -> Result<Vec<SectorRead>, NoMemory>
    requires { length image.now ≡ sectors * sector_size }
    ensures { IfOk result
        (λ found. found.items ≡ enumerate_from 0 (sectors_in sectors sector_size image.now)) }
{
    let mut found = Vec::new(alloc);
    let mut rest = image;
    for sector in 0..sectors {
        let (bytes, later) = rest.split_at(sector_size as usize);
        found.push(read_sector(alloc, sector, bytes)?)?;
        rest = later;
    }
    Ok(found)
}

/// Where the sectors end that don't end with erased bytes.
fn cut_sectors(alloc: Global, found: &[SectorRead]) -> Result<Vec<CutSector>, AllocError>
    ensures { IfOk result (λ cut. cut.items ≡ filter_map cut_in found.now) }
{
    found.iter().filter_map(|read| cut_of(read)).collect(alloc)
}

fn cut_of(read: &SectorRead) -> Option<CutSector>
    ensures { result ≡ cut_in read.now }
{
    let why = match read.ending() {
        Read::Free => return None,
        Read::Bad(why) => Some(*why),
        _ => None,
    };
    Some(CutSector {
        sector: read.number(),
        offset: read.used(),
        why,
    })
}

/// The records of sectors, one sector after another.
fn records_of(alloc: Global, found: Vec<SectorRead>) -> Result<Vec<FoundRecord>, AllocError>
    ensures { IfOk result (λ records. records.items ≡ flat_map records_in found.items) }
{
    let mut records = Vec::new(alloc);
    for read in found {
        add_records(read, &mut records)?;
    }
    Ok(records)
}

/// Adds the records of a sector.
fn add_records(read: SectorRead, records: &mut Vec<FoundRecord>) -> Result<(), AllocError>
    ensures { OnOk result (records.new.items ≡ records.old.items ++ records_in read) }
{
    let number = read.number();
    // Brings in that their bytes fit.
    let _used = read.used();
    add_nodes(number, read.into_nodes(), records)
}

/// Adds the records of these nodes, which stand at the start of a sector.
fn add_nodes(
    sector: u32,
    nodes: Vec<Node>,
    records: &mut Vec<FoundRecord>,
) -> Result<(), AllocError>
    requires { sum_by length_of nodes.items < 2 ^ 32 }
    ensures { OnOk result
        (records.new.items ≡ records.old.items ++ placed_from sector 0 nodes.items) }
{
    let mut offset = 0u32;
    for node in nodes {
        let length = record_len(&node);
        records.push(FoundRecord {
            sector,
            offset,
            node,
        })?;
        offset += length;
    }
    Ok(())
}

/// These records in the order of their versions; those of one version stay as they stood.
fn in_order(mut records: Vec<FoundRecord>) -> Result<Vec<FoundRecord>, AllocError>
    ensures { IfOk result (λ ordered. AreInOrder records.items ordered.items) }
{
    records.sort_by_key(|found| found.version())?;
    Ok(records)
}

/// Takes one after another of these records that the tree of those taken before it allows.
fn take_allowed(
    alloc: Global,
    records: &[FoundRecord],
    cut: Vec<CutSector>,
) -> Result<Salvaged, NoMemory>
    ensures made { IfOk result (λ made. IsMadeOf (sifted records.now) made) }
    ensures cut { IfOk result (λ made. made.cut ≡ cut) }
{
    let mut made = Salvaged {
        tree: Tree::new(alloc),
        taken: Vec::new(alloc),
        left_out: Vec::new(alloc),
        cut,
    };
    for next in records {
        made.add(next)?;
    }
    Ok(made)
}

impl Salvaged {
    /// Takes the next record if the tree allows it.
    fn add(&mut self, next: &FoundRecord) -> Result<(), NoMemory>
        ensures made { OnOk result
            ((s : Sifted) → IsMadeOf s self.old → IsMadeOf (sifted_by s next.now) self.new) }
        ensures cut { OnOk result (self.new.cut ≡ self.old.cut) }
    {
        if !self.tree.can_apply(next.node()) {
            self.left_out.push(next.reference())?;
            return Ok(());
        }
        if self.tree.apply(next.node()).is_err() {
            // Nothing but memory was wanting.
            return Err(NoMemory);
        }
        self.taken.push(next.reference())?;
        Ok(())
    }
}
