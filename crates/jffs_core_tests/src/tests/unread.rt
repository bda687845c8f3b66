//! A device of which nothing can be read once it is mounted, beside one that can be read.
//! Whatever is asked, both have to give the same answers and to hold the same bytes.

use crate::tests::session::{Session, erased_flash};
use jffs_flash::{LimitedFlash, MemoryFlash};
use jffs_tree::{Cause, Outcome};
use std::alloc::{AllocError, Global};
use std::process::Abort;
use std::test::Fail;

/// How many files are written.
const FILES: u32 = 6;

/// How many requests are made.
const TURNS: u32 = 4000;

/// A session on each of the two devices.
#[derive(Drop)]
struct Both {
    plain: Session<MemoryFlash>,
    unread: Session<LimitedFlash>,
}

/// Such a device; where memory is refused it is made again.
fn read_once(alloc: Global) -> Result<LimitedFlash, Fail> {
    match LimitedFlash::new(alloc, erased_flash(alloc, 6)?, 1) {
        Ok(flash) => Ok(flash),
        Err(_) => Ok(LimitedFlash::new(alloc, erased_flash(alloc, 6)?, 1)?),
    }
}

/// What is asked for in turn: files that grow, and one that is cut to nothing now and then, so that
/// the volume is full again and again.
fn line_at(alloc: Global, turn: u32) -> Result<String, AllocError> {
    let file = turn % FILES;
    if turn < FILES {
        return format!(in alloc; "create /f{file}");
    }
    if turn % 8 == 7 {
        let cut = turn / 8 % FILES;
        return format!(in alloc; "truncate /f{cut} 0");
    }
    let at = turn / 7 % 5 * 192;
    format!(in alloc; "write /f{file} {at} 192*a")
}

/// How many requests were granted, and how many found no room.
#[derive(Clone, Copy)]
struct Counts {
    granted: u32,
    full: u32,
}

impl Both {
    fn erased(alloc: Global) -> Result<Both, Fail> {
        Ok(Both {
            plain: Session::erased(alloc, 6)?,
            unread: Session::over(alloc, read_once(alloc)?)?,
        })
    }

    /// Asks both for the same, and compares the answers.
    fn ask(&mut self, rt: &impl Abort, line: &str) -> Result<Outcome, Fail> {
        let outcome = self.plain.ask(line)?;
        let unread = self.unread.ask(line)?;
        assert_eq!(rt; unread, outcome, "at {line}");
        Ok(outcome)
    }

    /// Erases what died in both, and cleans one sector more now and then.
    fn clean(&mut self, rt: &impl Abort, turn: u32) {
        let erased = self.plain.erase_dead();
        assert_eq!(rt; self.unread.erase_dead(), erased, "after {turn}");
        if turn % 50 == 49 {
            let cleaned = self.plain.clean_oldest();
            assert_eq!(rt; self.unread.clean_oldest(), cleaned, "after {turn}");
        }
    }

    /// The same records, and the same bytes of each file.
    fn are_alike(&self, rt: &impl Abort) -> Result<(), Fail> {
        let records = self.plain.core.log().records();
        let others = self.unread.core.log().records();
        assert_eq!(rt; others.len(), records.len());
        for (one, other) in records.iter().zip(others.iter()) {
            assert_eq!(rt; other, one);
        }
        for inode in 2..2 + FILES {
            assert_eq!(rt; self.unread.whole(inode)?, self.plain.whole(inode)?);
        }
        Ok(())
    }
}

fn counted(counts: Counts, outcome: Outcome) -> Counts {
    let Counts { granted, full } = counts;
    match outcome {
        Outcome::Appended { .. } => Counts {
            granted: granted.saturating_add(1),
            full,
        },
        Outcome::Refused(Cause::NoSpace) => Counts {
            granted,
            full: full.saturating_add(1),
        },
        _ => counts,
    }
}

#[test]
fn what_is_answered_needs_no_read(rt: HostRuntime) -> Result<(), Fail> {
    let mut both = Both::erased(rt.alloc())?;
    let mut counts = Counts {
        granted: 0,
        full: 0,
    };
    for turn in 0..TURNS {
        let line = line_at(rt.alloc(), turn)?;
        counts = counted(counts, both.ask(&rt, line.as_str())?);
        both.clean(&rt, turn);
    }
    let Counts { granted, full } = counts;
    let erases = both.plain.erases();
    assert!(rt;
        granted > 1000 && full > 100 && erases > 300,
        "{granted} {full} {erases}"
    );
    both.are_alike(&rt)
}
