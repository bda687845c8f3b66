//! The log of a device.

ghost use Rattle.std.specs.Prelude.{◌≡◌, ◌-◌, ◌^◌, ◌<◌, ◌≤◌, true, false, length, map};
ghost use Rattle.std.specs.Prelude.{is_some, nat_le, IfSome, IfNone, IsTrue, OnOk, IfErr};
ghost use Rattle.std.specs.VecDeque.{deque_len, deque_capacity};
ghost use Rattle.jffs_log.specs.Ring.{IsAt};
ghost use Rattle.jffs_log.specs.Wear.{sector_after};
ghost use Rattle.jffs_flash.specs.declared.sizes.TheConstants.{MAX_SECTORS};

use crate::log_index::{LogIndex, RecordRef};
use crate::place::Place;
use crate::room::Room;
use crate::writing::write_record;
use jffs_flash::{Flash, FlashFault};
use jffs_node::{HEADER_LEN, Node, record_len};
use jffs_tree::Cause;
use std::collections::VecDeque;
use std::marker::Model;

/// The log on a device.
///
/// What it knows of the device's image in memory is told by the image until a call answers Device.
/// From then on nothing is said of the image, and the calls that only look answer as before.
#[derive(Drop)]
pub struct Log<F: Flash> {
    pub(crate) flash: F,
    pub(crate) index: LogIndex,
    /// Whether a call of the device failed.
    pub(crate) failed: bool,
    /// Whether that was an erase.
    pub(crate) erase_failed: bool,
}

impl<F: Flash> Model for Log<F> {
    ghost use Rattle.jffs_log.specs.LogState.{LogState, IsLog};

    ghost Value = { LogState };

    ghost view = { λ l. record {
      device = F.device l.flash;
      wear = F.wear l.flash;
      reads_left = F.reads_left l.flash;
      index = l.index;
      failed = l.failed;
      erase_failed = l.erase_failed;
    } };

    ghost invariant = { λ l.
        IsLog (record {
          device = F.device l.flash;
          wear = F.wear l.flash;
          reads_left = F.reads_left l.flash;
          index = l.index;
          failed = l.failed;
          erase_failed = l.erase_failed;
        }) };
}

impl<F: Flash> Log<F> {
    ghost use Rattle.jffs_log.specs.LogIndex.{ref_of};
    ghost use Rattle.jffs_log.specs.LogState.{log_records, IsSameLog, MayAppend};
    ghost use Rattle.jffs_log.specs.LogState.{Appended, AppendFailed, AppendedAt, MayAppendAt};
    ghost use Rattle.jffs_log.specs.Place.{IsPlace};
    ghost use Rattle.jffs_log.specs.Image.{tail_of, free_of_tail, erased_count};
    ghost use Rattle.jffs_log.specs.Volume.{sectors_in};
    ghost use Rattle.jffs_log.specs.Room.{tail_need, has_room, has_room_in, heavy};

    /// The device.
    pub fn flash(&self) -> &F
        ensures device { F.device result.now ≡ self.now.device }
        ensures wear { F.wear result.now ≡ self.now.wear }
    {
        &self.flash
    }

    /// Whether a call of the device failed.
    pub fn failed(&self) -> bool
        ensures { result ≡ self.now.failed }
    {
        self.failed
    }

    /// How many sectors are erased. Takes no memory.
    pub fn erased(&self) -> u32
        ensures known { result ≡ self.now.index.sectors - self.now.index.held }
        ensures exact { self.now.failed ≡ false
            → result ≡ erased_count
            (sectors_in self.now.index.sectors self.now.index.sector_size self.now.device.image) }
    {
        self.index.sectors - self.index.held
    }

    /// The number of the sector that was begun last; `None` where no sector holds the log. Takes no
    /// memory.
    pub fn tail(&self) -> Option<u32>
        ensures last { IfSome result (λ sector.
            IsAt self.now.index.first self.now.index.sectors (self.now.index.held - 1) sector) }
        ensures none { IfNone result (self.now.index.held ≡ 0) }
    {
        let index = &self.index;
        if index.held == 0 {
            return None;
        }
        Some(sector_at(index.first, index.held - 1, index.sectors))
    }

    /// How many bytes are erased after the last record of the sector that was begun last; 0 where a
    /// write was cut off there, or the log has no sector. Takes no memory.
    pub fn free(&self) -> u32
        ensures known { result ≡ self.now.index.free }
        ensures exact { self.now.failed ≡ false
            → result ≡ free_of_tail self.now.index.sector_size
            (tail_of (sectors_in self.now.index.sectors self.now.index.sector_size
            self.now.device.image)) }
    {
        self.index.free
    }

    /// How often `erase_oldest` was called since the mount, failed calls too. It stays at its last
    /// value. Takes no memory.
    pub fn erases(&self) -> u64
        ensures { result ≡ self.now.index.erases }
    {
        self.index.erases
    }

    /// The records of the log, the oldest first. Takes no memory.
    pub fn records(&self) -> &VecDeque<RecordRef>
        ensures same { result.now ≡ self.now.index.records }
        ensures few { length result.now.items < 2 ^ 32 }
        ensures listed { self.now.failed ≡ false
            → result.now.items ≡ map ref_of (log_records self.now) }
    {
        &self.index.records
    }

    /// Whether a record of `len` bytes has room: in the tail, or in a sector that it opens. Takes
    /// no memory.
    pub fn room(&self, room: Room, len: u32) -> bool
        ensures known { result
            ≡ has_room room len self.now.index.free (self.now.index.sectors - self.now.index.held) }
        ensures exact { self.now.failed ≡ false
            → result ≡ has_room_in self.now.index.sectors self.now.index.sector_size
            self.now.device.image room len }
    {
        self.place(room, len).is_some()
    }

    /// Where a record of `len` bytes is put: after the last one of the tail, or at the beginning of
    /// a sector that it opens; `None` where it has no room. Takes no memory.
    pub fn place(&self, room: Room, len: u32) -> Option<Place>
        ensures known { is_some result
            ≡ has_room room len self.now.index.free (self.now.index.sectors - self.now.index.held) }
        ensures exact { self.now.failed ≡ false
            → is_some result ≡ has_room_in self.now.index.sectors self.now.index.sector_size
            self.now.device.image room len }
        ensures here { IfSome result (IsPlace room len self.now.index) }
    {
        let index = &self.index;
        if room.tail_need(len) <= u64::from(index.free) {
            Some(Place {
                sector: index.tail,
                offset: index.used,
                free: index.free,
                held: index.held,
            })
        } else if room.erased_need() <= index.sectors - index.held {
            Some(Place {
                sector: sector_at(index.first, index.held, index.sectors),
                offset: 0,
                free: index.sector_size,
                held: index.held + 1,
            })
        } else {
            None
        }
    }

    /// The weight of the live records, in bytes, below which no fresh node is refused for want of
    /// room while two sectors are erased: the bound of `full_logs_are_heavy`.
    pub fn sure_weight(&self) -> u64
        ensures { result ≡ heavy self.now.index.sectors self.now.index.sector_size }
    {
        let of_each = (u64::from(self.index.sector_size) * 3 / 4).saturating_sub(HEADER_LEN as u64);
        u64::from(self.index.sectors.saturating_sub(4)) * of_each
    }

    /// Reserves the memory that `append` takes for one record.
    ///
    /// `Memory` if allocation failed: nothing is changed.
    pub fn reserve(&mut self) -> Result<(), Cause>
        ensures same { IsSameLog self.old self.new }
        ensures reserved { OnOk result
            (deque_len self.new.index.records < deque_capacity self.new.index.records) }
        ensures memory { IfErr result (λ cause. cause ≡ Cause.Memory) }
    {
        self.index.records.reserve(1)?;
        Ok(())
    }

    /// Appends a node. Takes no memory. Precondition: no call of the device failed, there is room
    /// for the record, and memory for it is reserved.
    ///
    /// `Device` if a write failed: a scan of the image finds the log as it was, or with the whole
    /// record at its end, and the log is failed from then on.
    pub fn append(&mut self, room: Room, node: &Node) -> Result<(), Cause>
        requires working { self.old.failed ≡ false }
        requires may { MayAppend room node.now self.old }
        requires reserved { deque_len self.old.index.records
            < deque_capacity self.old.index.records }
        ensures done { OnOk result (Appended room node.now self.old self.new) }
        ensures failed { IfErr result (λ cause. AppendFailed node.now cause self.old self.new) }
        ensures unread { self.new.reads_left ≡ self.old.reads_left }
    {
        // Brings in that the length of a sector fits.
        let _size = self.index.sector_size;
        let Some(place) = self.place(room, record_len(node)) else {
            unreachable!()
        };
        self.write_at(place, node)
    }

    /// Appends a node as `append` does, at the place that `place` found for its record. Takes no
    /// memory. Precondition: no call of the device failed, memory for the record is reserved, and
    /// the log, as it is now, puts the record there; so a place is for the next append alone.
    ///
    /// `Device` if a write failed: a scan of the image finds the log as it was, or with the whole
    /// record at its end, and the log is failed from then on.
    pub fn write_at(&mut self, place: Place, node: &Node) -> Result<(), Cause>
        requires working { self.old.failed ≡ false }
        requires may { MayAppendAt place node.now self.old }
        requires reserved { deque_len self.old.index.records
            < deque_capacity self.old.index.records }
        ensures done { OnOk result (AppendedAt place node.now self.old self.new) }
        ensures failed { IfErr result (λ cause. AppendFailed node.now cause self.old self.new) }
        ensures unread { self.new.reads_left ≡ self.old.reads_left }
    {
        let index = &mut self.index;
        let len = record_len(node);
        let at = place.sector * index.sector_size + place.offset;
        match write_record(&mut self.flash, at, node) {
            Ok(()) => {
                index.records.push_back_reserved(RecordRef {
                    version: node.version,
                    inode: node.inode,
                    data_offset: node.offset,
                    data_len: node.bytes.len() as u16,
                    length: len as u16,
                    sector: place.sector as u16,
                    offset: place.offset as u16,
                });
                index.held = place.held;
                index.tail = place.sector;
                index.used = place.offset + len;
                index.free = place.free - len;
                Ok(())
            }
            Err(fault) => Err(failure(&mut self.failed, fault)),
        }
    }

    /// Gives the device back. Takes no memory.
    pub fn into_flash(self) -> F
        ensures device { F.device result ≡ self.device }
        ensures wear { F.wear result ≡ self.wear }
    {
        let Log {
            flash,
            index: _,
            failed: _,
            erase_failed: _,
        } = self;
        flash
    }
}

/// The cause where a call of the device failed, which is kept in mind.
pub(crate) fn failure(failed: &mut bool, _: FlashFault) -> Cause
    ensures kept { failed.new ≡ true }
    ensures cause { result ≡ Cause.Device }
{
    *failed = true;
    Cause::Device
}

/// The sector after another, round a device of `sectors` sectors.
pub fn sector_after(sector: u32, sectors: u32) -> u32
    ensures { result ≡ sector_after sectors sector }
{
    match sector.checked_add(1) {
        Some(next) if next < sectors => next,
        _ => 0,
    }
}

/// The sector that is `steps` after the first of the ring.
pub(crate) fn sector_at(first: u32, steps: u32, sectors: u32) -> u32
    requires first_in { first < sectors }
    requires steps_in { steps < sectors }
    requires few { sectors ≤ MAX_SECTORS }
    ensures { IsAt first sectors steps result }
{
    let at = first + steps;
    if at < sectors { at } else { at - sectors }
}
