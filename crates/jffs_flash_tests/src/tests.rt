//! Each call on its happy path, through the bound `Flash`, and what the failures of a fuse leave.
//! Bytes are worked out from what flash does: a write clears bits, an erase sets a sector's.

ghost use Rattle.std.specs.Prelude.{◌≡◌, ◌+◌, ◌≤◌, ◌↔◌, length, IsTrue};

use jffs_flash::{
    Fail, Flash, FlashFault, FlashNew, FuseFlash, Fused, LimitedFlash, MemoryFlash, is_geometry,
};
use std::alloc::Global;
use std::process::Abort;
use std::test::Fail as TestFail;

/// How many bytes the device has.
fn size_of<F: Flash>(flash: &F) -> usize
    ensures { result ≡ length (F.device flash.now).image }
{
    flash.sectors() as usize * flash.sector_size() as usize
}

/// Whether the device has `len` bytes from `at` on.
fn has_range<F: Flash>(flash: &F, at: u32, len: usize) -> bool
    ensures { IsTrue result ↔ (at + len ≤ length (F.device flash.now).image) }
{
    let whole = size_of(flash);
    len <= whole && at as usize <= whole - len
}

pub(super) fn read<F: Flash>(
    rt: &impl Abort,
    flash: &mut F,
    at: u32,
    buffer: &mut [u8],
) -> Result<(), FlashFault> {
    assert!(rt; has_range(flash, at, buffer.len()));
    flash.read(at, buffer)
}

pub(super) fn program<F: Flash>(
    rt: &impl Abort,
    flash: &mut F,
    at: u32,
    bytes: &[u8],
) -> Result<(), FlashFault> {
    assert!(rt; has_range(flash, at, bytes.len()));
    flash.program(at, bytes)
}

pub(super) fn erase<F: Flash>(
    rt: &impl Abort,
    flash: &mut F,
    sector: u32,
) -> Result<(), FlashFault> {
    assert!(rt; sector < flash.sectors());
    flash.erase(sector)
}

/// A device that a thread may take over.
fn faults_at_the_end<F: Flash + Send + Drop>(flash: F) -> u64 {
    flash.faults()
}

/// Whether no bit of the device is clear.
fn is_erased(flash: &MemoryFlash) -> bool {
    flash.bytes().iter().all(|byte| *byte == 0xff)
}

/// Why no device of these sizes is made.
fn why_refused(alloc: Global, sectors: u32, size: u32) -> Option<FlashNew> {
    MemoryFlash::new(alloc, sectors, size).err()
}

/// No volume may have these sizes.
fn is_refused(rt: &impl Abort, alloc: Global, sectors: u32, size: u32) {
    assert!(rt; !is_geometry(sectors, size), "{sectors} sectors of {size}");
    let why = why_refused(alloc, sectors, size);
    assert_eq!(rt;
        why,
        Some(FlashNew::Geometry),
        "{sectors} sectors of {size}"
    );
}

#[test]
fn constructors_refuse(rt: HostRuntime) -> Result<(), TestFail> {
    for (sectors, size) in [(5, 1024), (65, 1024), (8, 512), (8, 1025), (0, 0)] {
        is_refused(&rt, rt.alloc(), sectors, size);
    }
    assert!(rt; is_geometry(64, 16384));
    let flash = MemoryFlash::new(rt.alloc(), 6, 1024)?;
    assert_eq!(rt; flash.sectors(), 6);
    assert_eq!(rt; flash.sector_size(), 1024);
    assert_eq!(rt; flash.bytes().len(), 6144);
    assert!(rt; is_erased(&flash));
    Ok(())
}

/// What is programmed over two sectors clears bits, each sector's until it is erased.
fn clears_and_erases<F: Flash>(rt: &impl Abort, flash: &mut F) -> Result<(), FlashFault> {
    program(rt, flash, 1022, &[0x0f, 0xf0, 0x3c])?;
    program(rt, flash, 1022, &[0xf3])?;
    let mut buffer = [0; 4];
    read(rt, flash, 1021, &mut buffer)?;
    assert_eq!(rt; buffer, [0xff, 0x03, 0xf0, 0x3c]);
    erase(rt, flash, 0)?;
    read(rt, flash, 1021, &mut buffer)?;
    assert_eq!(rt; buffer, [0xff, 0xff, 0xff, 0x3c]);
    erase(rt, flash, 1)
}

#[test]
fn memory_flash_clears_bits_and_erases_sectors(rt: HostRuntime) -> Result<(), TestFail> {
    let mut flash = MemoryFlash::new(rt.alloc(), 6, 1024)?;
    clears_and_erases(&rt, &mut flash)?;
    assert!(rt; is_erased(&flash));
    assert_eq!(rt; faults_at_the_end(flash), 0);
    Ok(())
}

/// A device whose fuse of two calls has been used up, by a byte on each side of a sector's middle.
fn blown(rt: &impl Abort, alloc: Global, fused: Fused, fail: Fail) -> Result<FuseFlash, TestFail> {
    let inner = MemoryFlash::new(alloc, 6, 1024)?;
    let mut flash = FuseFlash::new(inner, 2, fused, fail);
    program(rt, &mut flash, 511, &[0x00])?;
    program(rt, &mut flash, 512, &[0x00])?;
    assert_eq!(rt; flash.faults(), 0);
    Ok(flash)
}

/// What a read shows of a device whose fuse has blown, and whether it fails, as a program and an
/// erase do.
fn read_of_blown<F: Flash>(rt: &impl Abort, flash: &mut F) -> ([u8; 3], bool) {
    let mut buffer = [0x55; 3];
    let answer = read(rt, flash, 100, &mut buffer);
    assert!(rt; program(rt, flash, 700, &[0x00; 3]).is_err());
    assert!(rt; erase(rt, flash, 0).is_err());
    (buffer, answer.is_err())
}

/// What stands where the program and the erase failed.
fn left_on<F: Flash>(rt: &impl Abort, flash: &mut F) -> Result<([u8; 3], [u8; 2]), FlashFault> {
    let mut programmed = [0x55; 3];
    read(rt, flash, 700, &mut programmed)?;
    let mut erased = [0; 2];
    read(rt, flash, 511, &mut erased)?;
    Ok((programmed, erased))
}

/// With a fuse of two calls: what the read, the program and the erase after them leave, and how
/// many of them fail.
fn fuse_leaves(
    rt: &impl Abort,
    alloc: Global,
    fused: Fused,
    fail: Fail,
    (seen, programmed, erased): ([u8; 3], [u8; 3], [u8; 2]),
    faults: u64,
) -> Result<(), TestFail> {
    let mut flash = blown(rt, alloc, fused, fail)?;
    let (buffer, read_fails) = read_of_blown(rt, &mut flash);
    assert_eq!(rt; read_fails, fused == Fused::All);
    assert_eq!(rt; buffer, seen, "{fused:?} {fail:?}");
    assert_eq!(rt; flash.faults(), faults);
    let (left, middle) = left_on(rt, &mut flash.into_inner())?;
    assert_eq!(rt; left, programmed, "{fused:?} {fail:?}");
    assert_eq!(rt; middle, erased, "{fused:?} {fail:?}");
    Ok(())
}

#[test]
fn a_fuse_fails_each_fused_call_after_the_last(rt: HostRuntime) -> Result<(), TestFail> {
    let whole = ([0xff; 3], [0xff; 3], [0x00; 2]);
    let halves = ([0xff; 3], [0x00, 0xff, 0xff], [0xff, 0x00]);
    fuse_leaves(&rt, rt.alloc(), Fused::Writes, Fail::Nothing, whole, 2)?;
    fuse_leaves(&rt, rt.alloc(), Fused::Writes, Fail::Half, halves, 2)?;
    let unread = ([0x55; 3], [0xff; 3], [0x00; 2]);
    let half_read = ([0xff, 0x55, 0x55], [0x00, 0xff, 0xff], [0xff, 0x00]);
    fuse_leaves(&rt, rt.alloc(), Fused::All, Fail::Nothing, unread, 3)?;
    fuse_leaves(&rt, rt.alloc(), Fused::All, Fail::Half, half_read, 3)
}

/// Whether a program passes after a read, where one call passes.
fn programs_after_a_read(rt: &impl Abort, alloc: Global, fused: Fused) -> Result<bool, TestFail> {
    let inner = MemoryFlash::new(alloc, 6, 1024)?;
    let mut flash = FuseFlash::new(inner, 1, fused, Fail::Nothing);
    read(rt, &mut flash, 0, &mut [0; 8])?;
    Ok(program(rt, &mut flash, 0, &[0x00]).is_ok())
}

#[test]
fn reads_are_counted_where_all_calls_are_fused(rt: HostRuntime) -> Result<(), TestFail> {
    assert!(rt; programs_after_a_read(&rt, rt.alloc(), Fused::Writes)?);
    assert!(rt; !programs_after_a_read(&rt, rt.alloc(), Fused::All)?);
    Ok(())
}

#[test]
fn the_half_of_an_odd_sector_is_rounded_down(rt: HostRuntime) -> Result<(), TestFail> {
    let bytes = vec![in rt.alloc(); 0; 6]?;
    let inner = MemoryFlash::from_bytes(2, 3, bytes);
    let mut flash = FuseFlash::new(inner, 0, Fused::Writes, Fail::Half);
    assert!(rt; erase(&rt, &mut flash, 1).is_err());
    let inner = flash.into_inner();
    assert_eq!(rt; inner.bytes(), [0, 0, 0, 0xff, 0, 0].as_slice());
    Ok(())
}

/// Whether a read of four bytes passes, and how many calls have failed after it.
fn is_read<F: Flash>(rt: &impl Abort, flash: &mut F, at: u32, passes: bool, faults: u64) {
    let passed = read(rt, flash, at, &mut [0; 4]).is_ok();
    assert_eq!(rt; passed, passes, "at {at}");
    assert_eq!(rt; flash.faults(), faults, "at {at}");
}

#[test]
fn each_byte_can_be_read_as_often_as_allowed(rt: HostRuntime) -> Result<(), TestFail> {
    let inner = MemoryFlash::new(rt.alloc(), 6, 1024)?;
    let mut flash = LimitedFlash::new(rt.alloc(), inner, 2)?;
    program(&rt, &mut flash, 3, &[0x0f])?;
    let mut buffer = [0; 4];
    read(&rt, &mut flash, 0, &mut buffer)?;
    assert_eq!(rt; buffer, [0xff, 0xff, 0xff, 0x0f]);
    for (at, passes, faults) in [(2, true, 0), (3, false, 1), (0, false, 2), (4, true, 2)] {
        is_read(&rt, &mut flash, at, passes, faults);
    }
    erase(&rt, &mut flash, 0)?;
    is_read(&rt, &mut flash, 5, false, 3);
    Ok(())
}
