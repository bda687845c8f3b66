//! How often each sector is erased: counted by the device, and from its bytes.
//! The bounds are counted on paper: three overwrites fill a sector, and six sectors take turns.

use crate::tests::metered::{Metered, SECTORS, calls_of, over_metered};
use crate::tests::session::{SECTOR_SIZE, Session};
use jffs_flash::MemoryFlash;
use std::process::Abort;
use std::test::Fail;

/// How often each sector was erased, and which were blank at the last look.
#[derive(Drop)]
struct Wear {
    counts: [u32; SECTORS],
    blank: [bool; SECTORS],
}

impl Wear {
    /// Of a device on which nothing was written yet.
    fn new() -> Wear {
        Wear {
            counts: [0; SECTORS],
            blank: [true; SECTORS],
        }
    }

    /// Counts the sectors that are blank and weren't at the last look.
    fn look(&mut self, session: &Session<MemoryFlash>) {
        for sector in 0..SECTORS {
            let at = sector * SECTOR_SIZE as usize;
            let blank = session.is_blank(at, at + SECTOR_SIZE as usize);
            if blank && !self.blank[sector] {
                self.counts[sector] = self.counts[sector].saturating_add(1);
            }
            self.blank[sector] = blank;
        }
    }
}

/// Each sector was erased so often at least, and none more than once more often than another.
fn are_even(rt: &impl Abort, counts: [u32; SECTORS], at_least: u32) {
    let mut least = u32::MAX;
    let mut most = 0;
    for count in counts {
        least = least.min(count);
        most = most.max(count);
    }
    assert!(rt;
        at_least <= least && most <= least.saturating_add(1),
        "{least} to {most}"
    );
}

/// The file is written over so often, and what is dead is erased each time.
fn overwrite(
    session: &mut Session<MemoryFlash>,
    wear: &mut Wear,
    times: usize,
) -> Result<(), Fail> {
    for _ in 0..times {
        session.ask("write /f 0 192*a")?;
        wear.look(session);
        session.erase_dead()?;
        wear.look(session);
    }
    Ok(())
}

/// The file is written over so often by itself, and what is dead is erased each time.
fn overwrite_metered(session: &mut Session<Metered>, times: usize) -> Result<(), Fail> {
    for _ in 0..times {
        session.ask("write /f 0 192*a")?;
        session.erase_dead()?;
    }
    Ok(())
}

#[test]
fn sectors_wear_evenly(rt: HostRuntime) -> Result<(), Fail> {
    let mut session = over_metered(rt.alloc())?;
    session.play(&rt, "create /f : appended 2 1")?;
    overwrite_metered(&mut session, 10_000)?;
    are_even(&rt, calls_of(&session).erased, 550);
    Ok(())
}

/// A session in which the file is written over ten times, and which is closed.
fn session_of_ten(
    rt: &impl Abort,
    session: &mut Session<MemoryFlash>,
    wear: &mut Wear,
) -> Result<(), Fail> {
    overwrite(session, wear, 10)?;
    session.play(rt, "unmount : closed")?;
    wear.look(session);
    Ok(())
}

#[test]
fn sectors_wear_evenly_over_sessions(rt: HostRuntime) -> Result<(), Fail> {
    let mut session = Session::erased(rt.alloc(), SECTORS as u32)?;
    session.play(&rt, "create /f : appended 2 1")?;
    let mut wear = Wear::new();
    for _ in 0..40 {
        session_of_ten(&rt, &mut session, &mut wear)?;
        session = session.remounted()?;
        are_even(&rt, wear.counts, 0);
    }
    are_even(&rt, wear.counts, 20);
    Ok(())
}
