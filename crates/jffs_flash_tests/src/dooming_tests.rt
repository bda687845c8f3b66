//! Flash that dooms what it erases, over a device that notes its writes.
//! A doom clears the first four bytes of a sector, and the bytes that a failure leaves are worked
//! out from what a fuse does: a write that fails halfway does the first half of its bytes.

use crate::tests::{erase, program, read};
use jffs_flash::{DoomingFlash, Fail, Flash, FlashFault, FuseFlash, Fused, MemoryFlash};
use std::alloc::Global;
use std::process::Abort;
use std::test::Fail as TestFail;

/// A write that a device was called for.
#[derive(Clone, Copy, Debug, PartialEq, Eq)]
enum Write {
    /// From an offset on so many bytes were programmed; `clears` where all were zero.
    Program { at: u32, len: usize, clears: bool },
    Erase { sector: u32 },
}

/// How many writes are noted at most.
const NOTED: usize = 4;

/// Flash that notes its first writes, in order, failed ones too.
#[derive(Drop)]
struct NotingFlash<F: Flash> {
    inner: F,
    writes: [Option<Write>; NOTED],
    count: usize,
}

impl<F: Flash> NotingFlash<F> {
    fn new(inner: F) -> NotingFlash<F> {
        NotingFlash {
            inner,
            writes: [None; NOTED],
            count: 0,
        }
    }
}

/// Notes a write where there is room for it.
fn note(writes: &mut [Option<Write>], count: &mut usize, write: Write) {
    if let Some(place) = writes.get_mut(*count) {
        *place = Some(write);
    }
    *count = count.saturating_add(1);
}

impl<F: Flash> Flash for NotingFlash<F> {
    ghost device = { λ n. F.device n.inner };

    fn sectors(&self) -> u32 {
        self.inner.sectors()
    }

    fn sector_size(&self) -> u32 {
        self.inner.sector_size()
    }

    fn faults(&self) -> u64 {
        self.inner.faults()
    }

    fn read(&mut self, at: u32, buffer: &mut [u8]) -> Result<(), FlashFault> {
        self.inner.read(at, buffer)
    }

    fn program(&mut self, at: u32, bytes: &[u8]) -> Result<(), FlashFault> {
        let write = Write::Program {
            at,
            len: bytes.len(),
            clears: bytes.iter().all(|byte| *byte == 0),
        };
        note(&mut self.writes, &mut self.count, write);
        self.inner.program(at, bytes)
    }

    fn erase(&mut self, sector: u32) -> Result<(), FlashFault> {
        note(&mut self.writes, &mut self.count, Write::Erase { sector });
        self.inner.erase(sector)
    }
}

/// What an erase of sector 1 does where so many calls pass, and the next fails so.
#[derive(Clone, Copy, Debug)]
struct Case {
    calls: u64,
    fail: Fail,
    passes: bool,
    writes: [Option<Write>; NOTED],
    /// The first bytes of the sector after it.
    left: [u8; 5],
    /// And the last one.
    last: u8,
}

const DOOM: Option<Write> = Some(Write::Program {
    at: 1024,
    len: 4,
    clears: true,
});

const ERASE: Option<Write> = Some(Write::Erase { sector: 1 });

/// The doom comes first, and where it fails the sector isn't erased.
const CASES: [Case; 5] = [
    Case {
        calls: 2,
        fail: Fail::Half,
        passes: true,
        writes: [DOOM, ERASE, None, None],
        left: [0xFF; 5],
        last: 0xFF,
    },
    Case {
        calls: 0,
        fail: Fail::Nothing,
        passes: false,
        writes: [DOOM, None, None, None],
        left: [0x4A, 0x46, 0x46, 0x31, 0x01],
        last: 0x00,
    },
    Case {
        calls: 0,
        fail: Fail::Half,
        passes: false,
        writes: [DOOM, None, None, None],
        left: [0x00, 0x00, 0x46, 0x31, 0x01],
        last: 0x00,
    },
    Case {
        calls: 1,
        fail: Fail::Nothing,
        passes: false,
        writes: [DOOM, ERASE, None, None],
        left: [0x00, 0x00, 0x00, 0x00, 0x01],
        last: 0x00,
    },
    Case {
        calls: 1,
        fail: Fail::Half,
        passes: false,
        writes: [DOOM, ERASE, None, None],
        left: [0xFF; 5],
        last: 0x00,
    },
];

/// A device whose sector 1 begins as a record does, and ends with zeros.
fn written(rt: &impl Abort, alloc: Global) -> Result<MemoryFlash, TestFail> {
    let mut flash = MemoryFlash::new(alloc, 6, 1024)?;
    program(rt, &mut flash, 1024, &[0x4A, 0x46, 0x46, 0x31, 0x01])?;
    program(rt, &mut flash, 2047, &[0x00])?;
    Ok(flash)
}

/// The first five bytes of sector 1, and its last.
fn left_in<F: Flash>(rt: &impl Abort, flash: &mut F) -> Result<([u8; 5], u8), FlashFault> {
    let mut left = [0; 5];
    read(rt, flash, 1024, &mut left)?;
    let mut last = [0; 1];
    read(rt, flash, 2047, &mut last)?;
    Ok((left, last[0]))
}

/// Erases sector 1, and looks at the writes and at what they left.
fn is_as_said(rt: &impl Abort, alloc: Global, case: Case) -> Result<(), TestFail> {
    let fuse = FuseFlash::new(written(rt, alloc)?, case.calls, Fused::Writes, case.fail);
    let mut flash = DoomingFlash::new(NotingFlash::new(fuse));
    let passes = erase(rt, &mut flash, 1).is_ok();
    assert_eq!(rt; passes, case.passes, "{case:?}");
    assert_eq!(rt; flash.faults(), u64::from(!case.passes), "{case:?}");
    assert_eq!(rt; flash.inner().writes, case.writes, "{case:?}");
    let (left, last) = left_in(rt, &mut flash)?;
    assert_eq!(rt; (left, last), (case.left, case.last), "{case:?}");
    Ok(())
}

#[test]
fn a_sector_is_doomed_before_it_is_erased(rt: HostRuntime) -> Result<(), TestFail> {
    for case in CASES {
        is_as_said(&rt, rt.alloc(), case)?;
    }
    Ok(())
}

/// What is programmed through it stays one write.
#[test]
fn only_an_erase_is_preceded_by_a_doom(rt: HostRuntime) -> Result<(), TestFail> {
    let mut flash = DoomingFlash::new(NotingFlash::new(written(&rt, rt.alloc())?));
    program(&rt, &mut flash, 1030, &[0x00, 0x01])?;
    let programmed = Write::Program {
        at: 1030,
        len: 2,
        clears: false,
    };
    assert_eq!(rt; flash.inner().writes, [Some(programmed), None, None, None]);
    assert_eq!(rt; flash.into_inner().count, 1);
    Ok(())
}

/// A sector of three bytes has no room for four.
#[test]
fn a_sector_shorter_than_its_doom_is_erased_at_once(rt: HostRuntime) -> Result<(), TestFail> {
    let bytes = vec![in rt.alloc(); 0; 6]?;
    let mut flash = DoomingFlash::new(NotingFlash::new(MemoryFlash::from_bytes(2, 3, bytes)));
    erase(&rt, &mut flash, 1)?;
    let noting = flash.into_inner();
    assert_eq!(rt; noting.writes, [ERASE, None, None, None]);
    assert_eq!(rt;
        noting.inner.bytes(),
        [0, 0, 0, 0xFF, 0xFF, 0xFF].as_slice()
    );
    Ok(())
}
