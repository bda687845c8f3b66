//! A caller's medium beside the device: flash in memory that has each call once it is carried out.
//! What is expected is what flash in memory shows that was called directly.

ghost use Rattle.std.specs.Prelude.{◌≡◌, ◌+◌, ◌≤◌, ◌↔◌, length, IsTrue};

use jffs_flash::{Flash, FlashFault, MemoryFlash};
use jffs_queue::{Call, HandedFlash, QueuedFlash};
use std::process::Abort;
use std::test::Fail as TestFail;

/// How many bytes the device has.
fn size_of<F: Flash>(flash: &F) -> usize
    ensures { result ≡ length (F.device flash.now).image }
{
    flash.sectors() as usize * flash.sector_size() as usize
}

/// Whether the device has `len` bytes from `at` on.
fn has_range<F: Flash>(flash: &F, at: u32, len: usize) -> bool
    ensures { IsTrue result ↔ (at + len ≤ length (F.device flash.now).image) }
{
    let whole = size_of(flash);
    len <= whole && at as usize <= whole - len
}

fn read<F: Flash>(
    rt: &impl Abort,
    flash: &mut F,
    at: u32,
    buffer: &mut [u8],
) -> Result<(), FlashFault> {
    assert!(rt; has_range(flash, at, buffer.len()));
    flash.read(at, buffer)
}

fn program<F: Flash>(
    rt: &impl Abort,
    flash: &mut F,
    at: u32,
    bytes: &[u8],
) -> Result<(), FlashFault> {
    assert!(rt; has_range(flash, at, bytes.len()));
    flash.program(at, bytes)
}

fn erase<F: Flash>(rt: &impl Abort, flash: &mut F, sector: u32) -> Result<(), FlashFault> {
    assert!(rt; sector < flash.sectors());
    flash.erase(sector)
}

/// Carries the call out on a medium.
fn carry_out(rt: &impl Abort, call: &Call, medium: &mut MemoryFlash) -> Result<(), FlashFault> {
    match call {
        Call::Erase { sector } => erase(rt, medium, *sector),
        Call::Program { at, bytes } => program(rt, medium, *at, bytes),
    }
}

/// Carries out the first call that waits, and says so.
fn carry_out_first(
    rt: &impl Abort,
    flash: &mut QueuedFlash,
    medium: &mut MemoryFlash,
) -> Result<(), FlashFault> {
    if let Some(call) = flash.calls().front() {
        carry_out(rt, call, medium)?;
    }
    flash.carried_out();
    Ok(())
}

/// Carries out the next call that a device hands over, and says so.
fn carry_out_next(
    rt: &impl Abort,
    flash: &HandedFlash,
    medium: &mut MemoryFlash,
) -> Result<(), FlashFault> {
    if let Some(call) = flash.next() {
        carry_out(rt, call, medium)?;
    }
    flash.carried_out();
    Ok(())
}

/// Whether a program of these bytes waits there.
fn is_program(call: Option<&Call>, from: u32, what: &[u8]) -> bool {
    match call {
        Some(Call::Program { at, bytes }) => *at == from && &bytes[..] == what,
        _ => false,
    }
}

/// Whether an erase of this sector waits there.
fn is_erase(call: Option<&Call>, which: u32) -> bool {
    match call {
        Some(Call::Erase { sector }) => *sector == which,
        _ => false,
    }
}

#[test]
fn each_change_waits_and_an_erase_after_its_doom(rt: HostRuntime) -> Result<(), TestFail> {
    let alloc = rt.alloc();
    let mut flash = QueuedFlash::new(alloc, MemoryFlash::new(alloc, 6, 1024)?);
    let mut medium = MemoryFlash::new(alloc, 6, 1024)?;
    program(&rt, &mut flash, 1022, &[0x0f, 0xf0, 0x3c])?;
    program(&rt, &mut flash, 1022, &[0xf3])?;
    erase(&rt, &mut flash, 1)?;
    let mut buffer = [0; 4];
    read(&rt, &mut flash, 1021, &mut buffer)?;
    assert_eq!(&rt; buffer, [0xff, 0x03, 0xf0, 0xff]);
    assert_eq!(&rt; flash.calls().len(), 4);
    assert!(&rt; is_program(flash.calls().get(0), 1022, &[0x0f, 0xf0, 0x3c]));
    assert!(&rt; is_program(flash.calls().get(1), 1022, &[0xf3]));
    assert!(&rt; is_program(flash.calls().get(2), 1024, &[0; 4]));
    assert!(&rt; is_erase(flash.calls().get(3), 1));
    carry_out_first(&rt, &mut flash, &mut medium)?;
    assert_eq!(&rt; flash.calls().len(), 3);
    read(&rt, &mut medium, 1021, &mut buffer)?;
    assert_eq!(&rt; buffer, [0xff, 0x0f, 0xf0, 0x3c]);
    read(&rt, &mut flash, 1021, &mut buffer)?;
    assert_eq!(&rt; buffer, [0xff, 0x03, 0xf0, 0xff]);
    Ok(())
}

#[test]
fn what_was_carried_out_is_handed_over_no_more(rt: HostRuntime) -> Result<(), TestFail> {
    let alloc = rt.alloc();
    let mut flash = HandedFlash::new(alloc, MemoryFlash::new(alloc, 6, 1024)?);
    let mut medium = MemoryFlash::new(alloc, 6, 1024)?;
    program(&rt, &mut flash, 1022, &[0x0f, 0xf0])?;
    erase(&rt, &mut flash, 4)?;
    assert!(&rt; is_program(flash.next(), 1022, &[0x0f, 0xf0]));
    carry_out_next(&rt, &flash, &mut medium)?;
    assert!(&rt; is_program(flash.next(), 4096, &[0; 4]));
    carry_out_next(&rt, &flash, &mut medium)?;
    assert_eq!(&rt; flash.left(), 1);
    assert!(&rt; is_erase(flash.next(), 4));
    program(&rt, &mut flash, 5, &[0x3c])?;
    assert_eq!(&rt; flash.left(), 2);
    carry_out_next(&rt, &flash, &mut medium)?;
    assert!(&rt; is_program(flash.next(), 5, &[0x3c]));
    carry_out_next(&rt, &flash, &mut medium)?;
    assert!(&rt; flash.next().is_none());
    flash.carried_out();
    assert_eq!(&rt; flash.left(), 0);
    let mut buffer = [0; 2];
    read(&rt, &mut medium, 1022, &mut buffer)?;
    assert_eq!(&rt; buffer, [0x0f, 0xf0]);
    read(&rt, &mut flash, 5, &mut buffer)?;
    assert_eq!(&rt; buffer, [0x3c, 0xff]);
    Ok(())
}

#[test]
fn what_was_carried_out_is_kept_no_more(rt: HostRuntime) -> Result<(), TestFail> {
    let alloc = rt.alloc();
    let mut flash = HandedFlash::new(alloc, MemoryFlash::new(alloc, 6, 1024)?);
    let mut medium = MemoryFlash::new(alloc, 6, 1024)?;
    let mut state = 1u64;
    for round in 0..100_000u32 {
        program(&rt, &mut flash, small(&mut state, 6144), &[0x3c])?;
        erase(&rt, &mut flash, round % 6)?;
        assert_eq!(&rt; flash.kept(), 3);
        for _ in 0..3 {
            carry_out_next(&rt, &flash, &mut medium)?;
        }
        assert_eq!(&rt; flash.left(), 0);
        let mut buffer = [0];
        read(&rt, &mut flash, 0, &mut buffer)?;
        assert_eq!(&rt; flash.kept(), 0);
    }
    Ok(())
}

/// The next of made numbers, below a limit.
fn below(state: &mut u64, limit: u64) -> u64 {
    *state = state
        .wrapping_mul(6364136223846793005)
        .wrapping_add(1442695040888963407);
    (*state >> 33) % limit.max(1)
}

fn small(state: &mut u64, limit: u64) -> u32 {
    u32::try_from(below(state, limit)).unwrap_or(0)
}

/// One made change, on both devices.
fn change_both(
    rt: &impl Abort,
    state: &mut u64,
    flash: &mut QueuedFlash,
    plain: &mut MemoryFlash,
) -> Result<(), FlashFault> {
    if below(state, 5) == 0 {
        let sector = small(state, 6);
        erase(rt, flash, sector)?;
        return erase(rt, plain, sector);
    }
    let at = small(state, 6144 - 48);
    let byte = u8::try_from(below(state, 256)).unwrap_or(0);
    let bytes = [byte; 48];
    let len = small(state, 49) as usize;
    assert!(rt; len <= 48);
    program(rt, flash, at, &bytes[..len])?;
    program(rt, plain, at, &bytes[..len])
}

/// Reads of a made range of both, which are the same.
fn see_the_same(
    rt: &impl Abort,
    state: &mut u64,
    flash: &mut QueuedFlash,
    plain: &mut MemoryFlash,
) -> Result<(), FlashFault> {
    let mut seen = [0; 1500];
    let mut wanted = [0; 1500];
    let len = small(state, 1501) as usize;
    assert!(rt; len <= 1500);
    let at = small(state, 6144 - 1500);
    read(rt, flash, at, &mut seen[..len])?;
    read(rt, plain, at, &mut wanted[..len])?;
    assert!(rt; &seen[..len] == &wanted[..len], "{len} bytes from {at} on");
    Ok(())
}

#[test]
fn reads_see_all_that_waits(rt: HostRuntime) -> Result<(), TestFail> {
    let alloc = rt.alloc();
    let mut flash = QueuedFlash::new(alloc, MemoryFlash::new(alloc, 6, 1024)?);
    let mut medium = MemoryFlash::new(alloc, 6, 1024)?;
    let mut plain = MemoryFlash::new(alloc, 6, 1024)?;
    let mut state = 1u64;
    for _ in 0..2000 {
        change_both(&rt, &mut state, &mut flash, &mut plain)?;
        see_the_same(&rt, &mut state, &mut flash, &mut plain)?;
        if below(&mut state, 30) < 29 {
            carry_out_first(&rt, &mut flash, &mut medium)?;
        }
    }
    let waits = flash.calls().len();
    assert!(&rt; 10 < waits, "{waits}");
    for _ in 0..waits {
        carry_out_first(&rt, &mut flash, &mut medium)?;
    }
    assert_eq!(&rt; flash.calls().len(), 0);
    assert!(&rt; medium.bytes() == plain.bytes());
    assert_eq!(&rt; flash.faults(), 0);
    Ok(())
}
