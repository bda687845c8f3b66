//! One flipped bit, of a volume before an erase, and of one whose oldest sector has a live record.
//! What `heal` has to answer is what a scan does, with each byte as it was; but for the magic that
//! the oldest sector begins with: where no record of it lives, its erase is ended.

use crate::erases_run::{SECTORS, befores, bytes_of, flash_of, living};
use jffs_flash::MemoryFlash;
use jffs_log::{Healed, Mounted, ScanFault, heal, scan};
use std::alloc::AllocError;
use std::process::Abort;
use std::test::Fail as TestFail;

/// A volume, and the oldest sector of its log where no record of that lives.
#[derive(Drop)]
struct Volume {
    size: u32,
    image: Vec<u8>,
    dead: Option<u32>,
}

/// What was answered of the volumes with one flipped bit.
#[derive(Clone, Copy, Debug, PartialEq, Eq)]
struct Tally {
    ended: u32,
    refused: u32,
    mounted: u32,
}

/// Two scans found the same log, the same files and the same bytes.
fn are_alike(
    rt: &(impl Abort + AllocGlobal),
    one: &Mounted<MemoryFlash>,
    other: &Mounted<MemoryFlash>,
) -> Result<(), AllocError> {
    assert_eq!(rt; one.log.records().len(), other.log.records().len());
    for (record, wanted) in one.log.records().iter().zip(other.log.records().iter()) {
        assert_eq!(rt; record, wanted);
    }
    assert!(rt; one.limits == other.limits && one.clean == other.clean);
    for inode in [2, 3] {
        let bytes = bytes_of(rt.alloc(), &other.tree, inode)?;
        assert!(rt; bytes_of(rt.alloc(), &one.tree, inode)? == bytes);
    }
    assert!(rt; one.log.flash().bytes() == other.log.flash().bytes());
    Ok(())
}

impl Volume {
    /// A device with one flipped bit.
    fn flipped(&self, rt: &impl Abort, at: usize, bit: u8) -> MemoryFlash {
        let mut image = self.image.clone().expect(rt, "memory");
        assert!(rt; at < image.len());
        image[at] ^= bit;
        flash_of(rt, self.size, image)
    }

    /// Whether the byte is one of the magic that is looked at when an erase may have been cut off.
    fn is_doomed(&self, at: usize) -> bool {
        match self.dead {
            Some(sector) => {
                let begin = sector as usize * self.size as usize;
                at >= begin && at < begin.saturating_add(4)
            }
            None => false,
        }
    }

    /// Flips a bit, and looks at what is answered.
    fn try_one(
        &self,
        rt: &(impl Abort + AllocGlobal),
        at: usize,
        bit: u8,
        tally: &mut Tally,
    ) -> Result<(), AllocError> {
        let found = heal(rt.alloc(), self.flipped(rt, at, bit));
        match (found, scan(rt.alloc(), self.flipped(rt, at, bit))) {
            (Err(healed), Err(scanned)) => {
                tally.refused = tally.refused.saturating_add(1);
                are_refused(rt, healed, scanned);
                Ok(())
            }
            (
                Ok(
                    Healed {
                        sector: None,
                        mounted,
                    },
                ),
                Ok(scanned),
            ) => {
                tally.mounted = tally.mounted.saturating_add(1);
                are_alike(rt, &mounted, &scanned)
            }
            (Ok(Healed { sector, .. }), Err(_)) => {
                tally.ended = tally.ended.saturating_add(1);
                assert!(rt; self.is_doomed(at) && sector == self.dead, "byte {at}");
                Ok(())
            }
            (Ok(_), Ok(_)) | (Err(_), Ok(_)) => panic!(rt; "byte {at}"),
        }
    }

    /// Flips each bit of the first bytes of each sector, and of the others one in so many.
    fn try_all(&self, rt: &(impl Abort + AllocGlobal), one_in: usize) -> Result<Tally, AllocError> {
        let mut tally = Tally {
            ended: 0,
            refused: 0,
            mounted: 0,
        };
        let size = (self.size as usize).max(1);
        for number in 0..self.image.len().saturating_mul(8) {
            let at = number / 8;
            if at % size < 64 || number % one_in.max(1) == 0 {
                self.try_one(rt, at, 1 << (number % 8), &mut tally)?;
            }
        }
        Ok(tally)
    }
}

/// Both refuse for the same cause, and hand the same bytes back.
fn are_refused(rt: &impl Abort, one: ScanFault<MemoryFlash>, other: ScanFault<MemoryFlash>) {
    assert_eq!(rt; one.why, other.why);
    assert!(rt; one.flash.bytes() == other.flash.bytes());
}

/// Flips bits of a volume before the last erase of a run, and of one whose oldest sector lives.
fn flip_each(rt: &(impl Abort + AllocGlobal), size: u32, one_in: usize) -> Result<(), TestFail> {
    let before = befores(rt, size, SECTORS as usize)?
        .pop()
        .ok_or("no erase")?;
    let dead = Volume {
        size,
        dead: Some(before.sector),
        image: before.into_image(),
    };
    let Tally {
        ended,
        refused,
        mounted,
    } = dead.try_all(rt, one_in)?;
    assert_eq!(rt; ended, 32);
    assert!(rt;
        refused > 100 && mounted > 100,
        "{refused} refused, {mounted} mounted"
    );
    let live = Volume {
        size,
        dead: None,
        image: living(rt, size)?,
    };
    let Tally {
        ended,
        refused,
        mounted,
    } = live.try_all(rt, one_in)?;
    assert_eq!(rt; ended, 0);
    assert!(rt;
        refused > 100 && mounted > 100,
        "{refused} refused, {mounted} mounted"
    );
    Ok(())
}

#[test]
fn a_flipped_bit_is_answered_as_by_a_scan(rt: HostRuntime) -> Result<(), TestFail> {
    flip_each(&rt, 1024, 1)
}

#[test]
fn a_flipped_bit_of_larger_sectors_is_answered_as_by_a_scan(
    rt: HostRuntime,
) -> Result<(), TestFail> {
    for (size, one_in) in [(2048, 7), (4096, 31), (8192, 127), (16384, 509)] {
        flip_each(&rt, size, one_in)?;
    }
    Ok(())
}
