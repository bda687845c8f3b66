//! Media that are opened, and those that are refused.

use crate::code::Code;
use crate::exports::pg_close;
use crate::opening::Refusal;
use crate::tests::handles::{NotOpened, open_medium};
use crate::tests::images::{erased, made, of_no_tree, put, put_made};
use crate::tests::session::Session;
use std::alloc::Global;
use std::process::Abort;
use std::test::Fail as TestFail;

/// No volume is opened, for this reason.
fn is_refused(rt: &impl Abort, alloc: Global, medium: &[u8], size: u32, why: Code, at: [u32; 3]) {
    match open_medium(alloc, medium, size) {
        Ok(volume) => {
            pg_close(alloc, volume);
            assert!(rt; false, "a medium that is refused was opened");
        }
        Err(NotOpened { code, refusal }) => {
            assert_eq!(rt; code, why.number());
            let Refusal {
                sector,
                place,
                rule,
            } = refusal;
            assert_eq!(rt; [sector, place, rule], at);
        }
    }
}

/// Whether an erased medium of so many bytes is opened; else its sizes are refused.
fn is_sized(rt: &impl Abort, alloc: Global, len: usize, size: u32) -> Result<bool, TestFail> {
    let medium = vec![in alloc; 0xff; len]?;
    match open_medium(alloc, &medium, size) {
        Ok(volume) => {
            pg_close(alloc, volume);
            Ok(true)
        }
        Err(refused) => {
            assert_eq!(rt; refused.code, Code::Geometry.number());
            Ok(false)
        }
    }
}

#[test]
fn only_sizes_of_volumes_are_opened(rt: HostRuntime) -> Result<(), TestFail> {
    let alloc = rt.alloc();
    for size in [1024usize, 2048, 4096, 8192, 16384] {
        for sectors in [6usize, 64] {
            assert!(&rt; is_sized(&rt, alloc, sectors * size, size as u32)?);
        }
        for sectors in [0usize, 1, 5, 65] {
            assert!(&rt; !is_sized(&rt, alloc, sectors * size, size as u32)?);
        }
        assert!(&rt; !is_sized(&rt, alloc, 6 * size - 1, size as u32)?);
        assert!(&rt; !is_sized(&rt, alloc, 6 * size + 1, size as u32)?);
    }
    for size in [0u32, 1, 512, 1000, 3072, 32768, 65536] {
        assert!(&rt; !is_sized(&rt, alloc, 6 * size as usize, size)?);
    }
    Ok(())
}

#[test]
fn a_medium_without_an_order_of_sectors_is_refused(rt: HostRuntime) -> Result<(), TestFail> {
    let alloc = rt.alloc();
    let mut medium = erased(alloc)?;
    for at in [0usize, 1024, 2048, 3072, 4096, 5120] {
        put_made(&mut medium, at);
    }
    is_refused(&rt, alloc, &medium, 1024, Code::NoErased, [0; 3]);
    let mut medium = made(alloc)?;
    put_made(&mut medium, 2048);
    is_refused(&rt, alloc, &medium, 1024, Code::Scattered, [0; 3]);
    let mut medium = made(alloc)?;
    put_made(&mut medium, 1024);
    is_refused(&rt, alloc, &medium, 1024, Code::BadOrder, [0; 3]);
    is_refused(&rt, alloc, &of_no_tree(alloc)?, 1024, Code::BadTree, [0; 3]);
    Ok(())
}

/// Where one byte of a record makes it bad, that byte, and the number of the rule that it breaks.
const BAD: [(usize, u8, u32); 10] = [
    (0, 0, 1),
    (4, 9, 2),
    (5, 3, 3),
    (6, 21, 4),
    (44, 0x2f, 4),
    (35, 2, 5),
    (35, 3, 5),
    (43, 1, 6),
    (19, 0, 7),
    (23, 1, 7),
];

#[test]
fn a_bad_record_is_told_by_its_place_and_its_rule(rt: HostRuntime) -> Result<(), TestFail> {
    let alloc = rt.alloc();
    for (at, byte, rule) in BAD {
        let mut medium = made(alloc)?;
        put_made(&mut medium, 64);
        put(&mut medium, at.saturating_add(64), [byte].as_slice());
        is_refused(&rt, alloc, &medium, 1024, Code::BadRecord, [0, 64, rule]);
    }
    Ok(())
}

#[test]
fn a_record_whose_padding_is_written_is_bad(rt: HostRuntime) -> Result<(), TestFail> {
    let alloc = rt.alloc();
    let mut medium = made(alloc)?;
    put_made(&mut medium, 1024);
    // A file with one byte of data, and another byte after it.
    put(&mut medium, 1028, [1].as_slice());
    put(&mut medium, 1051, [1].as_slice());
    put(&mut medium, 1088, [b'x', 0].as_slice());
    is_refused(&rt, alloc, &medium, 1024, Code::BadRecord, [1, 0, 8]);
    Ok(())
}

#[test]
fn an_erased_medium_is_an_empty_volume(rt: HostRuntime) -> Result<(), TestFail> {
    Session::erased(rt.alloc(), 6, 1024)?.played(
        &rt,
        "look / : directory 0
        entry / 0 20 : [....................] 77 Nothing
        is-clean : no
        left : 0",
    )
}
