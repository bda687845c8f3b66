//! A core with the number of the next request, and lines of text that say what is asked of it.

use crate::tests::wishes::wish_of;
use jffs_core::{Cleaned, Core};
use jffs_flash::{ERASED_BYTE, Flash, MemoryFlash};
use jffs_line::Request;
use jffs_log::{ScanFault, ScanWhy};
use jffs_tree::{Cause, Outcome, Wish};
use std::alloc::{AllocError, Global};
use std::process::Abort;
use std::test::Fail;

/// The size of each sector, in bytes.
pub(super) const SECTOR_SIZE: u32 = 1024;

#[derive(Drop)]
pub(super) struct Session<F: Flash> {
    pub(super) core: Core<F>,
    pub(super) alloc: Global,
    seq: u32,
}

/// Mounts a device.
pub(super) fn mount<F: Flash + Drop>(alloc: Global, flash: F) -> Result<Core<F>, ScanFault<F>> {
    Core::mount(alloc, flash)
}

/// Mounts a device; there is only the reason where it is refused.
pub(super) fn mount_or_why<F: Flash + Drop>(alloc: Global, flash: F) -> Result<Core<F>, ScanWhy> {
    match mount(alloc, flash) {
        Ok(core) => Ok(core),
        Err(fault) => Err(fault.why),
    }
}

/// Mounts a device again whose mount found no memory.
fn mount_again<F: Flash + Drop>(alloc: Global, fault: ScanFault<F>) -> Result<Core<F>, ScanWhy> {
    match fault.why {
        ScanWhy::Memory => mount_or_why(alloc, fault.flash),
        why => Err(why),
    }
}

/// Asks for a request; it is handed back if allocation fails.
fn answer<F: Flash>(core: &mut Core<F>, request: Request) -> Result<Outcome, Request> {
    match core.reserve_answer() {
        Ok(()) => Ok(core.answer(request)),
        Err(_) => Err(request),
    }
}

/// Asks for a request again for which there was no memory.
fn answer_again<F: Flash>(core: &mut Core<F>, request: Request) -> Result<Outcome, Cause> {
    match answer(core, request) {
        Ok(outcome) => Ok(outcome),
        Err(_) => Err(Cause::Memory),
    }
}

impl<F: Flash + Drop> Session<F> {
    /// Over a device. If allocation fails it is mounted again.
    pub(super) fn over(alloc: Global, flash: F) -> Result<Session<F>, Fail> {
        let core = match mount(alloc, flash) {
            Ok(core) => core,
            Err(fault) => mount_again(alloc, fault)?,
        };
        Ok(Session::of(alloc, core))
    }

    pub(super) fn of(alloc: Global, core: Core<F>) -> Session<F> {
        Session {
            core,
            alloc,
            seq: 0,
        }
    }

    /// Asks for what each line says. After `:` stands what has to be told.
    pub(super) fn play(&mut self, rt: &impl Abort, script: &str) -> Result<(), Fail> {
        for line in script.lines() {
            self.play_line(rt, line)?;
        }
        Ok(())
    }

    fn play_line(&mut self, rt: &impl Abort, line: &str) -> Result<(), Fail> {
        let (asked, wanted) = line.split_once(" : ").ok_or("a line without answer")?;
        let told = self.tell(asked.trim())?;
        assert_eq!(rt; told.as_str(), wanted, "at {asked}");
        Ok(())
    }

    /// Plays a script to its end.
    pub(super) fn played(mut self, rt: &impl Abort, script: &str) -> Result<(), Fail> {
        self.play(rt, script)
    }

    /// Plays a script, and mounts the device again.
    pub(super) fn remounted_after(
        mut self,
        rt: &impl Abort,
        script: &str,
    ) -> Result<Session<F>, Fail> {
        self.play(rt, script)?;
        self.remounted()
    }

    /// After another mount of the device.
    pub(super) fn remounted(self) -> Result<Session<F>, Fail> {
        let alloc = self.alloc;
        Session::over(alloc, self.into_flash())
    }

    /// What has to be told where a line asks for something.
    fn tell(&mut self, line: &str) -> Result<String, Fail> {
        let (word, rest) = first_word(line);
        match word {
            "count" => self.tell_count(rest),
            "is" => self.tell_whether(rest),
            "show" => self.show(rest),
            "clean-oldest" => self.tell_cleaned(),
            "erase-dead" => self.tell_erased(),
            _ => self.tell_answer(line),
        }
    }

    fn tell_answer(&mut self, line: &str) -> Result<String, Fail> {
        let outcome = self.ask(line)?;
        Ok(text_of(self.alloc, outcome)?)
    }

    fn tell_cleaned(&mut self) -> Result<String, Fail> {
        let cleaned = self.clean_oldest();
        Ok(text_of_cleaned(self.alloc, cleaned)?)
    }

    fn tell_erased(&mut self) -> Result<String, Fail> {
        let erased = self.erase_dead();
        Ok(text_of_erased(self.alloc, erased)?)
    }

    /// Answers the wish that a line says.
    pub(super) fn ask(&mut self, line: &str) -> Result<Outcome, Fail> {
        let wish = wish_of(self.alloc, line)?;
        self.seq = self.seq.saturating_add(1);
        Ok(self.answer(wish)?)
    }

    /// Answers a wish. If allocation fails capacity is asked for again.
    fn answer(&mut self, wish: Wish) -> Result<Outcome, Cause> {
        let request = Request {
            writer: 1,
            seq: self.seq,
            wish,
        };
        match answer(&mut self.core, request) {
            Ok(outcome) => Ok(outcome),
            Err(request) => answer_again(&mut self.core, request),
        }
    }

    pub(super) fn clean_oldest(&mut self) -> Result<Cleaned, Cause> {
        self.core.clean_oldest()
    }

    /// How many sectors were erased.
    pub(super) fn erase_dead(&mut self) -> Result<u32, Cause> {
        self.core.erase_dead()
    }

    /// Whether the device failed.
    pub(super) fn failed(&self) -> bool {
        self.core.failed()
    }

    pub(super) fn into_flash(self) -> F {
        let Session {
            core,
            alloc: _,
            seq: _,
        } = self;
        core.into_flash()
    }
}

impl Session<MemoryFlash> {
    /// Over erased flash in memory.
    pub(super) fn erased(alloc: Global, sectors: u32) -> Result<Session<MemoryFlash>, Fail> {
        Session::over(alloc, erased_flash(alloc, sectors)?)
    }

    /// Over a device with these bytes.
    pub(super) fn mounted(
        alloc: Global,
        sectors: u32,
        image: Vec<u8>,
    ) -> Result<Session<MemoryFlash>, Fail> {
        if sectors > 64 || image.len() != sectors as usize * SECTOR_SIZE as usize {
            return Err("another length".into());
        }
        Session::over(alloc, MemoryFlash::from_bytes(sectors, SECTOR_SIZE, image))
    }

    /// All bytes of the device as they are now.
    pub(super) fn bytes(&self) -> &[u8] {
        self.core.log().flash().bytes()
    }

    /// A copy of them.
    pub(super) fn image(&self) -> Result<Vec<u8>, AllocError> {
        let mut image = Vec::new(self.alloc);
        image.extend_from_slice(self.bytes())?;
        Ok(image)
    }

    /// From an offset on, the device has these bytes.
    pub(super) fn holds(&self, rt: &impl Abort, at: usize, bytes: &[u8]) {
        let end = at.saturating_add(bytes.len());
        assert_eq!(rt; part(self.bytes(), at, end), bytes, "at {at}");
    }

    /// Whether there are bytes from an offset to another, and all are as an erase left them.
    pub(super) fn is_blank(&self, at: usize, end: usize) -> bool {
        is_blank(part(self.bytes(), at, end))
    }
}

/// Erased flash of so many sectors. If allocation fails it is made again.
pub(super) fn erased_flash(alloc: Global, sectors: u32) -> Result<MemoryFlash, Fail> {
    match MemoryFlash::new(alloc, sectors, SECTOR_SIZE) {
        Ok(flash) => Ok(flash),
        Err(_) => Ok(MemoryFlash::new(alloc, sectors, SECTOR_SIZE)?),
    }
}

/// The first word of a line, and what stands after it.
pub(super) fn first_word(line: &str) -> (&str, &str) {
    line.split_once(' ').unwrap_or((line, ""))
}

/// An answer in words.
fn text_of(alloc: Global, outcome: Outcome) -> Result<String, AllocError> {
    match outcome {
        Outcome::Appended { inode, version } => format!(in alloc; "appended {inode} {version}"),
        Outcome::Copied { version } => format!(in alloc; "copied {version}"),
        Outcome::Closed => String::from_str(alloc, "closed"),
        Outcome::Refused(cause) => refused(alloc, cause),
    }
}

/// What a cleaning did, in words.
fn text_of_cleaned(alloc: Global, cleaned: Result<Cleaned, Cause>) -> Result<String, AllocError> {
    match cleaned {
        Ok(Cleaned::Erased { sector, copies }) => {
            format!(in alloc; "erased {sector} copied {copies}")
        }
        Ok(Cleaned::OneSector) => String::from_str(alloc, "one sector"),
        Err(cause) => refused(alloc, cause),
    }
}

/// How many dead sectors were erased, in words.
fn text_of_erased(alloc: Global, erased: Result<u32, Cause>) -> Result<String, AllocError> {
    match erased {
        Ok(sectors) => format!(in alloc; "{sectors}"),
        Err(cause) => refused(alloc, cause),
    }
}

fn refused(alloc: Global, cause: Cause) -> Result<String, AllocError> {
    format!(in alloc; "refused {cause:?}")
}

/// These bytes of an image; none where it is shorter.
fn part(image: &[u8], at: usize, end: usize) -> &[u8] {
    image.get(at..end).unwrap_or(&[])
}

/// Whether there are bytes, and all are as an erase left them.
fn is_blank(bytes: &[u8]) -> bool {
    for byte in bytes {
        if *byte != ERASED_BYTE {
            return false;
        }
    }
    !bytes.is_empty()
}
