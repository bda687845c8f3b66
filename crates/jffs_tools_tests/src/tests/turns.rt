//! Cleaning, and a ring that turns.
//! Offsets, weights and numbers are worked out on paper from docs/FORMAT.md.

use super::{replayed, replays, replays_from, shows};
use crate::tests::records::image_of;
use std::alloc::{AllocError, Global};
use std::test::Fail;

/// Adds a request of writer 1 for each offset, numbered from 2 on, each a fill of 192 bytes.
fn push_fills(alloc: Global, script: &mut String, offsets: &[u32]) -> Result<(), AllocError> {
    let mut seq = 2u32;
    for offset in offsets {
        let line = format!(in alloc; "request 1 {seq} fill /f {offset} 192 61\n")?;
        script.push_str(line.as_str())?;
        seq = seq.saturating_add(1);
    }
    Ok(())
}

#[test]
fn cleaning_copies_current_names(rt: HostRuntime) -> Result<(), Fail> {
    replays(
        &rt,
        "flash 6 1024\n\
        mount\n\
        request 1 1 mkdir /d\n\
        request 1 2 create /d/a\n\
        request 1 3 write /d/a 0 68656c6c6f\n\
        request 1 4 rename /d/a /d/b\n\
        request 1 5 create /z\n\
        request 1 6 fill /z 0 192 61\n\
        request 1 7 fill /z 0 192 61\n\
        request 1 8 fill /z 0 192 61\n\
        clean_oldest\n\
        clean_oldest\n",
        "ready\n\
        mounted unclean next 1 2 | d /\n\
        appended 2 1 at 0 ; erased 5 erases 0 weight 64 next 2 3\n\
        appended 3 2 at 64 ; erased 5 erases 0 weight 128 next 3 4\n\
        appended 3 3 at 128 ; erased 5 erases 0 weight 136 next 4 4\n\
        appended 3 4 at 200 ; erased 5 erases 0 weight 200 next 5 4\n\
        appended 4 5 at 264 ; erased 5 erases 0 weight 264 next 6 5\n\
        appended 4 6 at 328 ; erased 5 erases 0 weight 456 next 7 5\n\
        appended 4 7 at 584 ; erased 5 erases 0 weight 456 next 8 5\n\
        appended 4 8 at 1024 ; erased 4 erases 0 weight 456 next 9 5\n\
        erased sector 0 copies 2 ; erased 5 erases 1 weight 392 next 11 5\n\
        one sector ; erased 5 erases 1 weight 392 next 11 5\n",
    )
}

/// What is told of ten fills of a ring that has no room for the last, and of what comes after it.
const TURNED: &str = "mounted unclean next 1 2 | d /\n\
    appended 2 1 at 0 ; erased 5 erases 0 weight 64 next 2 3\n\
    appended 2 2 at 64 ; erased 5 erases 0 weight 256 next 3 3\n\
    appended 2 3 at 320 ; erased 5 erases 0 weight 512 next 4 3\n\
    appended 2 4 at 576 ; erased 5 erases 0 weight 768 next 5 3\n\
    appended 2 5 at 1024 ; erased 4 erases 0 weight 1024 next 6 3\n\
    appended 2 6 at 1280 ; erased 4 erases 0 weight 1280 next 7 3\n\
    appended 2 7 at 1536 ; erased 4 erases 0 weight 1536 next 8 3\n\
    appended 2 8 at 2048 ; erased 3 erases 0 weight 1792 next 9 3\n\
    appended 2 9 at 2304 ; erased 3 erases 0 weight 2048 next 10 3\n\
    appended 2 10 at 2560 ; erased 3 erases 0 weight 2304 next 11 3\n\
    refused NoSpace after 9 copies ; erased 3 erases 3 weight 2304 next 20 3\n\
    appended 2 20 at 5888 ; erased 3 erases 3 weight 0 next 21 3\n\
    erased 2 ; erased 5 erases 5 weight 0 next 21 3\n\
    appended 3 21 at 5952 ; erased 5 erases 5 weight 64 next 22 4\n\
    appended 4 22 at 6016 ; erased 5 erases 5 weight 128 next 23 5\n\
    appended 5 23 at 0 ; erased 4 erases 5 weight 192 next 24 6\n";

#[test]
fn a_ring_turns_after_copies_without_room(rt: HostRuntime) -> Result<(), Fail> {
    let alloc = rt.alloc();
    let mut script = String::from_str(alloc, "mount\nrequest 1 1 create /f\n")?;
    push_fills(
        alloc,
        &mut script,
        &[0, 192, 384, 576, 768, 960, 1152, 1344, 1536, 1728],
    )?;
    script.push_str(
        "request 1 12 remove /f\n\
        erase_dead\n\
        request 1 13 create /g\n\
        request 1 14 create /h\n\
        request 1 15 create /i\n",
    )?;
    let replay = replays_from(&rt, image_of(alloc, &[], 6)?, script.as_str(), TURNED)?;
    let image = replay.bytes()?.to_vec(alloc)?;
    shows(
        &rt,
        &image,
        0,
        "mounted unclean\n\
        next 24 6\n\
        sectors 5 0\n\
        record 5 0 256 17 dead\n\
        record 5 256 256 18 dead\n\
        record 5 512 256 19 dead\n\
        record 5 768 64 20 dead\n\
        record 5 832 64 21 live\n\
        record 5 896 64 22 live\n\
        record 0 0 64 23 live\n\
        d /\n\
        f /g 0 -\n\
        f /h 0 -\n\
        f /i 0 -\n",
    )
}

/// The device fails at the third copy that is to make room for the tenth fill.
#[test]
fn a_failure_tells_of_no_copies(rt: HostRuntime) -> Result<(), Fail> {
    let alloc = rt.alloc();
    let mut script = String::from_str(
        alloc,
        "flash 6 1024\nfuse 24 Writes Nothing\nmount\nrequest 1 1 create /f\n",
    )?;
    push_fills(
        alloc,
        &mut script,
        &[0, 192, 384, 576, 768, 960, 1152, 1344, 1536, 1728],
    )?;
    let out = replayed(&rt, script.as_str(), 0)?;
    let told =
        "\nappended 2 10 at 2560 ; erased 3 erases 0 weight 2304 next 11 3\nrefused Device\n";
    assert!(rt; out.as_str().ends_with(told), "{out}");
    Ok(())
}

#[test]
fn a_fresh_node_tells_of_the_copies_before_it(rt: HostRuntime) -> Result<(), Fail> {
    let alloc = rt.alloc();
    let mut script = String::from_str(
        alloc,
        "flash 6 1024\nmount\nrequest 1 1 create /f\nrequest 2 1 create /k\n",
    )?;
    push_fills(alloc, &mut script, &[0; 10])?;
    let out = replayed(&rt, script.as_str(), 0)?;
    assert!(rt;
        out.as_str().ends_with(
            "\n\
            appended 2 11 at 2560 ; erased 3 erases 0 weight 320 next 12 4\n\
            appended 2 13 at 3072 after 1 copies ; erased 3 erases 1 weight 320 next 14 4\n"
        ),
        "{out}"
    );
    Ok(())
}

#[test]
fn overwrites_need_no_copy(rt: HostRuntime) -> Result<(), Fail> {
    let alloc = rt.alloc();
    let mut script = String::from_str(alloc, "flash 6 1024\nmount\nrequest 1 1 create /f\n")?;
    for _ in 0..100 {
        script.push_str("request 1 2 fill /f 0 192 61\nerase_dead\n")?;
    }
    script.push_str("request 10 1 unmount\n")?;
    let out = replayed(&rt, script.as_str(), 0)?;
    assert!(rt;
        out.as_str().ends_with(
            "\n\
            appended 2 101 at 3072 ; erased 4 erases 32 weight 256 next 102 3\n\
            erased 1 ; erased 5 erases 33 weight 256 next 102 3\n\
            closed at 3328 ; erased 5 erases 33 weight 256 next 103 3\n"
        ),
        "{out}"
    );
    Ok(())
}
