//! The calls behind the two programs, each on its own. The lines are those of docs/SCRIPT.md and
//! docs/TOOLS.md; the digest is the one that FIPS 180-2 has for `abc`.

use super::records::{OLD_FORM, image_of};
use super::text_of;
use jffs_flash::{Fail as Blown, Fused, MemoryFlash};
use jffs_line::Request;
use jffs_log::{RecordRef, ScanWhy};
use jffs_node::{Path, Why};
use jffs_text::Words;
use jffs_tools::{
    Answered, Did, Fuse, Operation, Replay, Seen, Totals, answered_text, digest_text,
    mounted_next_text, mounted_text, next_text, print_image, record_text, scan_refused_text,
    sectors_text,
};
use jffs_tree::{Cause, Limits, Wish};
use std::alloc::Global;
use std::process::Abort;
use std::test::Fail;

/// What a core that works is told of with.
const TOTALS: Totals = Totals {
    erased: 5,
    erases: 1,
    weight: 64,
    limits: LIMITS,
};

const LIMITS: Limits = Limits {
    data_max: 192,
    next_inode: Some(4),
    next_version: None,
};

fn is_told(
    rt: &(impl Abort + AllocGlobal),
    did: Did,
    copies: u64,
    totals: Option<Totals>,
    wanted: &str,
) -> Result<(), Fail> {
    let answered = Answered {
        did,
        copies,
        totals,
    };
    let text = answered_text(rt.alloc(), &answered)?;
    assert_eq!(rt; text.as_str(), wanted);
    Ok(())
}

#[test]
fn each_answer_has_its_text(rt: HostRuntime) -> Result<(), Fail> {
    let appended = Did::Appended {
        inode: 3,
        version: 9,
        at: 1088,
    };
    let rest = " ; erased 5 erases 1 weight 64 next none 4";
    for (did, copies, told) in [
        (appended, 0, "appended 3 9 at 1088"),
        (appended, 2, "appended 3 9 at 1088 after 2 copies"),
        (Did::Copied { version: 9, at: 64 }, 0, "copied 9 at 64"),
        (Did::ClosedAt(128), 0, "closed at 128"),
        (Did::Closed, 0, "closed"),
        (
            Did::Cleaned {
                sector: 0,
                copies: 2,
            },
            0,
            "erased sector 0 copies 2",
        ),
        (Did::OneSector, 0, "one sector"),
        (Did::Erased(3), 0, "erased 3"),
        (
            Did::Refused(Cause::NoSpace),
            9,
            "refused NoSpace after 9 copies",
        ),
    ] {
        let wanted = format!(in rt.alloc(); "{told}{rest}")?;
        is_told(&rt, did, copies, Some(TOTALS), wanted.as_str())?;
    }
    is_told(&rt, Did::Refused(Cause::Device), 2, None, "refused Device")
}

fn is_text(rt: &impl Abort, text: String, wanted: &str) {
    assert_eq!(rt; text.as_str(), wanted);
}

#[test]
fn what_a_mount_finds_has_its_text(rt: HostRuntime) -> Result<(), Fail> {
    let alloc = rt.alloc();
    is_text(&rt, next_text(alloc, &LIMITS)?, "next none 4");
    assert_eq!(rt; mounted_text(true), "mounted clean");
    assert_eq!(rt; mounted_text(false), "mounted unclean");
    let mounted = mounted_next_text(alloc, true, &LIMITS)?;
    is_text(&rt, mounted, "mounted clean next none 4");
    Ok(())
}

#[test]
fn a_digest_and_each_refusal_have_their_texts(rt: HostRuntime) -> Result<(), Fail> {
    let digest = digest_text(rt.alloc(), b"abc")?;
    is_text(
        &rt,
        digest,
        "ba7816bf8f01cfea414140de5dae2223b00361a396177a9cb410ff61f20015ad",
    );
    let bad = ScanWhy::BadRecord {
        sector: 2,
        place: 64,
        why: Why::Magic,
    };
    for (why, wanted) in [
        (ScanWhy::NoErased, "refused NoErased"),
        (bad, "refused BadRecord 2 64 Magic"),
    ] {
        is_text(&rt, scan_refused_text(rt.alloc(), why)?, wanted);
    }
    Ok(())
}

#[test]
fn a_ring_and_its_records_have_their_texts(rt: HostRuntime) -> Result<(), Fail> {
    is_text(&rt, sectors_text(rt.alloc(), 4, 3, 6)?, "sectors 4 5 0");
    is_text(&rt, sectors_text(rt.alloc(), 0, 0, 6)?, "sectors");
    let entry = RecordRef {
        version: 7,
        inode: 2,
        data_offset: 0,
        data_len: 5,
        length: 72,
        sector: 5,
        offset: 128,
    };
    for (live, wanted) in [
        (true, "record 5 128 72 7 live"),
        (false, "record 5 128 72 7 dead"),
    ] {
        is_text(&rt, record_text(rt.alloc(), &entry, live)?, wanted);
    }
    Ok(())
}

/// A replay over erased flash of 6 sectors, mounted with a fuse that fails the fifth write.
fn begun(rt: &(impl Abort + AllocGlobal)) -> Result<Replay, Fail> {
    let mut replay = Replay::new(rt.alloc());
    replay.begin_erased(6, 1024)?;
    assert!(rt; replay.bytes()?.iter().all(|byte| *byte == 0xFF));
    replay.fuse(Fuse {
        calls: 4,
        fused: Fused::Writes,
        fail: Blown::Nothing,
    });
    let mut out = Vec::new(rt.alloc());
    replay.mount(&mut out)?;
    is_text(rt, text_of(rt, out)?, "mounted unclean next 1 2 | d /");
    Ok(replay)
}

/// What a replay answers to the creation of a file in the root.
fn created(alloc: Global, replay: &mut Replay, seq: u32, path: &str) -> Result<Did, Fail> {
    let wish = Wish::Create(Path::parse(alloc, path)?);
    let answered = replay.request(Request {
        writer: 1,
        seq,
        wish,
    })?;
    Ok(answered.did)
}

/// Two records take two writes each, and then the fuse has blown.
#[test]
fn a_replay_is_driven_call_by_call(rt: HostRuntime) -> Result<(), Fail> {
    let mut replay = begun(&rt)?;
    for (seq, path, at) in [(1u32, "/a", 0u64), (2, "/b", 64)] {
        let wanted = Did::Appended {
            inode: seq.saturating_add(1),
            version: seq,
            at,
        };
        assert_eq!(rt; created(rt.alloc(), &mut replay, seq, path)?, wanted);
    }
    assert_eq!(rt; replay.clean_oldest()?.did, Did::OneSector);
    assert_eq!(rt; replay.erase_dead()?.did, Did::Erased(0));
    let refused = Did::Refused(Cause::Device);
    assert_eq!(rt; created(rt.alloc(), &mut replay, 3, "/c")?, refused);
    let failed = replay.erase_dead()?;
    assert_eq!(rt;
        (failed.did, failed.totals),
        (Did::Refused(Cause::Failed), None)
    );
    assert_eq!(rt; replay.bytes()?.len(), 6144);
    let mut out = Vec::new(rt.alloc());
    replay.digest(&mut out)?;
    let digest = digest_text(rt.alloc(), replay.bytes()?)?;
    is_text(&rt, text_of(&rt, out)?, digest.as_str());
    Ok(())
}

#[test]
fn an_image_is_printed_line_by_line(rt: HostRuntime) -> Result<(), Fail> {
    let image = image_of(rt.alloc(), &[&OLD_FORM], 8)?;
    if image.len() != 8192 {
        return Err("eight sectors".into());
    }
    let flash = MemoryFlash::from_bytes(8, 1024, image);
    let mut out = Vec::new(rt.alloc());
    assert_eq!(rt; print_image(rt.alloc(), flash, &mut out)?, Seen::Mounted);
    is_text(
        &rt,
        text_of(&rt, out)?,
        "mounted clean\nnext 4 3\nsectors 0\nrecord 0 0 64 1 dead\nrecord 0 64 72 2 live\n\
        record 0 136 64 3 dead\nd /\nf /f 5 68656c6c6f\n",
    );
    Ok(())
}

#[test]
fn a_line_is_an_operation(rt: HostRuntime) -> Result<(), Fail> {
    match Operation::parse(rt.alloc(), Words::of("fuse 3 All Half"))? {
        Operation::Fuse(fuse) => {
            let wanted = Fuse {
                calls: 3,
                fused: Fused::All,
                fail: Blown::Half,
            };
            assert_eq!(rt; fuse, wanted);
        }
        _ => return Err("a fuse".into()),
    }
    match Operation::parse(rt.alloc(), Words::of("request 9 8 unmount"))? {
        Operation::Request(request) => {
            assert_eq!(rt; (request.writer, request.seq), (9, 8));
            assert!(rt; request.wish.is_unmount());
        }
        _ => return Err("a request".into()),
    }
    Ok(())
}
