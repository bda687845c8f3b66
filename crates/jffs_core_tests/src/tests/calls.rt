//! Each call of a core asked for once, which is enough where memory is ample; and what comes with
//! an answer. Numbers, sectors and counts are worked out from docs/FORMAT.md: a record has 64 bytes
//! and its data, and after it 64 bytes have to be free, so three of the largest data stand in a
//! sector of 1,024 bytes.

use crate::tests::session::{SECTOR_SIZE, mount_or_why};
use crate::tests::wishes::wish_of;
use jffs_core::{Answer, Answered, Cleaned, Core};
use jffs_flash::MemoryFlash;
use jffs_line::Request;
use jffs_node::{Kind, Node, ROOT_INODE};
use jffs_tree::{Cause, Limits, Outcome};
use std::alloc::Global;
use std::process::Abort;
use std::test::Fail;

fn mounted(alloc: Global) -> Result<Core<MemoryFlash>, Fail> {
    let flash = MemoryFlash::new(alloc, 6, SECTOR_SIZE)?;
    Ok(mount_or_why(alloc, flash)?)
}

/// The answer to a request.
fn answer(core: &mut Core<MemoryFlash>, request: &Request) -> Result<Answered, Cause> {
    core.reserve_answer()?;
    Ok(core.answer_with_node(request))
}

/// The answer to a line's wish, of writer 1.
fn answered(
    alloc: Global,
    core: &mut Core<MemoryFlash>,
    seq: u32,
    line: &str,
) -> Result<Answered, Fail> {
    let request = Request {
        writer: 1,
        seq,
        wish: wish_of(alloc, line)?,
    };
    Ok(answer(core, &request)?)
}

/// What became of a line's wish.
fn outcome_of(
    alloc: Global,
    core: &mut Core<MemoryFlash>,
    seq: u32,
    line: &str,
) -> Result<Outcome, Fail> {
    Ok(answered(alloc, core, seq, line)?.outcome)
}

/// Whether a node has these numbers: its inode, its parent and its version, of a request's sender
/// its number and the request's.
fn has_numbers(node: &Node, numbers: [u32; 5]) -> bool {
    numbers
        == [
            node.inode,
            node.parent,
            node.version,
            u32::from(node.writer),
            node.seq,
        ]
}

/// Whether a node is about an empty file `f`.
fn is_new_file(node: &Node) -> bool {
    let named = match &node.name {
        Some(name) => name.bytes() == b"f".as_slice(),
        None => false,
    };
    named && node.kind == Kind::File && !node.deleted && !node.copy && node.size == Some(0)
}

#[test]
fn an_ask_keeps_no_answer(rt: HostRuntime) -> Result<(), Fail> {
    let mut core = mounted(rt.alloc())?;
    outcome_of(rt.alloc(), &mut core, 1, "create /f")?;
    assert_eq!(rt; core.answers().len(), 1);
    let request = Request {
        writer: 1,
        seq: 2,
        wish: wish_of(rt.alloc(), "create /g")?,
    };
    let outcome = core.ask(request)?;
    assert_eq!(rt;
        outcome,
        Outcome::Appended {
            inode: 3,
            version: 2
        }
    );
    assert_eq!(rt; core.answers().len(), 0);
    Ok(())
}

#[test]
fn an_answer_comes_with_its_node(rt: HostRuntime) -> Result<(), Fail> {
    let mut core = mounted(rt.alloc())?;
    comes_with_its_node(&rt, rt.alloc(), &mut core)?;
    comes_without_node(&rt, rt.alloc(), &mut core)
}

/// A file `f` in the root, by the first request.
fn comes_with_its_node(
    rt: &impl Abort,
    alloc: Global,
    core: &mut Core<MemoryFlash>,
) -> Result<(), Fail> {
    let Answered { outcome, node } = answered(alloc, core, 1, "create /f")?;
    let wanted = Outcome::Appended {
        inode: 2,
        version: 1,
    };
    assert!(rt; outcome == wanted);
    let node = node.ok_or("a node")?;
    assert!(rt; has_numbers(&node, [2, 1, 1, 1, 1]));
    assert!(rt; is_new_file(&node));
    Ok(())
}

/// The same by the second.
fn comes_without_node(
    rt: &impl Abort,
    alloc: Global,
    core: &mut Core<MemoryFlash>,
) -> Result<(), Fail> {
    let Answered { outcome, node } = answered(alloc, core, 2, "create /f")?;
    assert!(rt; outcome == Outcome::Refused(Cause::NameTaken));
    assert!(rt; node.is_none());
    Ok(())
}

#[test]
fn an_unmount_comes_with_its_node(rt: HostRuntime) -> Result<(), Fail> {
    let Answered { outcome, node } = answered(rt.alloc(), &mut mounted(rt.alloc())?, 1, "unmount")?;
    assert!(rt; outcome == Outcome::Closed);
    let node = node.ok_or("a node")?;
    assert!(rt; node.kind == Kind::Unmount);
    assert!(rt; node.version == 1);
    Ok(())
}

/// What stands after a file was created.
const CREATED: Limits = Limits {
    data_max: 192,
    next_inode: Some(3),
    next_version: Some(2),
};

#[test]
fn a_core_gives_back_its_device_and_its_answers(rt: HostRuntime) -> Result<(), Fail> {
    let mut core = mounted(rt.alloc())?;
    outcome_of(rt.alloc(), &mut core, 1, "create /f")?;
    outcome_of(rt.alloc(), &mut core, 2, "create /f")?;
    assert!(rt; core.limits() == CREATED);
    let core = mounted_again(&rt, rt.alloc(), core)?;
    assert!(rt; core.limits() == CREATED);
    assert!(rt; core.answers().is_empty());
    Ok(())
}

/// Takes apart a core that answered two requests, and mounts its device again.
fn mounted_again(
    rt: &impl Abort,
    alloc: Global,
    core: Core<MemoryFlash>,
) -> Result<Core<MemoryFlash>, Fail> {
    let (flash, answers) = core.into_parts();
    assert!(rt; are_two(&answers));
    Ok(mount_or_why(alloc, flash)?)
}

/// Whether these are the answers to requests 1 and 2.
fn are_two(answers: &[Answer]) -> bool {
    match answers {
        [first, second] => first.seq == 1 && second.seq == 2,
        _ => false,
    }
}

/// Grows a file by 192 bytes, of which three records fit beside the file's own in the first sector
/// and three with 64 bytes for an unmount node in each of the others.
fn grown(alloc: Global, core: &mut Core<MemoryFlash>, turn: u32) -> Result<(), Fail> {
    let offset = turn.saturating_mul(192);
    let line = format!(in alloc; "write /f {offset} 192*a")?;
    match outcome_of(alloc, core, turn.saturating_add(2), line.as_str())? {
        Outcome::Appended { .. } => Ok(()),
        _ => Err("it has room".into()),
    }
}

/// Grows a file nine times. From the seventh on a cleaner is wanted.
fn grows(rt: &impl Abort, alloc: Global, core: &mut Core<MemoryFlash>) -> Result<(), Fail> {
    for turn in 0..9u32 {
        grown(alloc, core, turn)?;
        assert_eq!(rt; core.wants_cleaning(), turn >= 6, "after {turn}");
    }
    Ok(())
}

/// The image of the oldest sector is what the device begins with.
fn begins_with_the_oldest(rt: &impl Abort, core: &mut Core<MemoryFlash>) -> Result<(), Fail> {
    if core.failed() || core.log().held() < 1 {
        return Err("three sectors hold the log".into());
    }
    let image = core.oldest_image()?;
    assert_eq!(rt; image.len(), 1024);
    assert!(rt; core.log().flash().bytes().starts_with(&image));
    Ok(())
}

#[test]
fn a_cleaner_is_wanted_once_half_of_the_sectors_are_in_use(rt: HostRuntime) -> Result<(), Fail> {
    let mut core = mounted(rt.alloc())?;
    assert!(rt; !core.wants_cleaning());
    outcome_of(rt.alloc(), &mut core, 1, "create /f")?;
    grows(&rt, rt.alloc(), &mut core)?;
    begins_with_the_oldest(&rt, &mut core)
}

/// Two files of which one was renamed, and the other was written three times; all in one sector
/// but for the last record.
const RENAMED: &str = "create /a
     write /a 0 hello
     rename /a /b
     create /z
     write /z 0 192*a
     write /z 0 192*a
     write /z 0 192*a";

/// Answers a line's wish, which has the version that its request's number is.
fn appends(alloc: Global, core: &mut Core<MemoryFlash>, seq: u32, line: &str) -> Result<(), Fail> {
    match outcome_of(alloc, core, seq, line)? {
        Outcome::Appended { version, .. } if version == seq => Ok(()),
        _ => Err("it is appended".into()),
    }
}

fn appends_all(alloc: Global, core: &mut Core<MemoryFlash>, run: &str) -> Result<(), Fail> {
    let mut seq = 0u32;
    for line in run.lines() {
        seq = seq.saturating_add(1);
        appends(alloc, core, seq, line)?;
    }
    Ok(())
}

fn clean_oldest(core: &mut Core<MemoryFlash>) -> Result<Cleaned, Cause> {
    core.clean_oldest()
}

fn names_of_root(core: &Core<MemoryFlash>) -> Result<usize, Fail> {
    Ok(core.tree().names(ROOT_INODE)?.len())
}

/// The write of `hello` is copied with the new name; the record of the rename is dead then.
#[test]
fn a_cleaning_is_done_at_the_first_call(rt: HostRuntime) -> Result<(), Fail> {
    let mut core = mounted(rt.alloc())?;
    appends_all(rt.alloc(), &mut core, RENAMED)?;
    let wanted = Cleaned::Erased {
        sector: 0,
        copies: 1,
    };
    assert!(rt; clean_oldest(&mut core) == Ok(wanted));
    assert!(rt; names_of_root(&core)? == 2);
    Ok(())
}
