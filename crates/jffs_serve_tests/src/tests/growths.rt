//! A session in which any allocation may fail.
//! The answers are worked out on paper, but for one that Memory may take the place of.

use crate::tests::rounds::{Left, answered_seen, served, served_seen};
use crate::tests::standing::{names_in, resolved};
use crate::tests::volumes::{Ask, erased, mounted};
use jffs_core::Answer;
use jffs_flash::MemoryFlash;
use jffs_index::Reader;
use jffs_node::ROOT_INODE;
use jffs_serve::{Served, Session};
use jffs_tree::{Cause, Outcome, Tree};
use std::alloc::Global;
use std::cell::Cell;
use std::process::Abort;
use std::sync::Wait;
use std::test::Fail;

/// A writer wants `/f` with five bytes, and then the control to unmount.
const ASKED: [Ask; 3] = [Ask::File("/f"), Ask::Text("/f", "hello"), Ask::Unmount];

/// The answers where no allocation fails.
fn wanted() -> [Answer; 3] {
    [
        appended(1, 1),
        appended(2, 2),
        Answer {
            writer: 10,
            seq: 1,
            outcome: Outcome::Closed,
        },
    ]
}

fn appended(seq: u32, version: u32) -> Answer {
    Answer {
        writer: 1,
        seq,
        outcome: Outcome::Appended { inode: 2, version },
    }
}

/// Whether an answer is the wanted one, but for one allocation that failed; `first` is what the
/// first request was answered.
fn is_expected(answer: &Answer, wanted: &Answer, first: Outcome) -> bool {
    let memory = Outcome::Refused(Cause::Memory);
    let outcome = if first == memory && wanted.seq == 2 {
        Outcome::Refused(Cause::NotFound)
    } else {
        wanted.outcome
    };
    answer.writer == wanted.writer
        && answer.seq == wanted.seq
        && (answer.outcome == outcome || answer.outcome == memory)
}

/// Whether the answers are the wanted ones, with at most one allocation that failed.
fn are_expected(answers: &[Answer]) -> bool {
    let [a, b, c] = wanted();
    match answers {
        [x, y, z] => {
            let first = x.outcome;
            is_expected(x, &a, first) && is_expected(y, &b, first) && is_expected(z, &c, first)
        }
        _ => false,
    }
}

fn refusals(answers: &[Answer]) -> usize {
    let mut count = 0usize;
    for answer in answers {
        if answer.outcome == Outcome::Refused(Cause::Memory) {
            count = count.saturating_add(1);
        }
    }
    count
}

/// The outcome that a look shows for an answer.
fn outcome_seen(reader: &mut Reader, answer: &Answer) -> Option<Option<Outcome>> {
    reader.look(|view| view.answer(answer.writer, answer.seq))
}

/// Whether a look shows these answers and no more.
fn shows(reader: &mut Reader, answers: &[Answer]) -> bool {
    let mut count = 0u64;
    for answer in answers {
        if outcome_seen(reader, answer) != Some(Some(answer.outcome)) {
            return false;
        }
        count = count.saturating_add(1);
    }
    answered_seen(reader) == Some(count)
}

/// Whether the reader in a slot sees these answers and no more.
fn are_seen(slot: &Cell<Option<Reader>>, answers: &[Answer]) -> bool {
    match slot.replace(None) {
        Some(mut reader) => shows(&mut reader, answers),
        None => false,
    }
}

fn check(rt: &impl Abort, answers: &[Answer], slot: &Cell<Option<Reader>>) {
    assert!(rt; are_expected(answers));
    assert!(rt; refusals(answers) <= 1);
    assert!(rt; are_seen(slot, answers));
}

/// How many bytes `/f` has by these answers, where it is there.
fn size_after(answers: &[Answer]) -> Option<u32> {
    let [created, written, _] = wanted();
    match answers {
        [x, y, _] if x.outcome == created.outcome => {
            Some(if y.outcome == written.outcome { 5 } else { 0 })
        }
        _ => None,
    }
}

/// Whether a file has so many of the bytes that were written.
fn has_hello(tree: &Tree, inode: u32) -> bool {
    let mut bytes = [0u8; 5];
    let count = tree.read(inode, 0, &mut bytes);
    bytes[..count] == b"hello"[..count]
}

/// A tree has `/f` of that size alone, with the bytes that were written.
fn check_tree(rt: &impl Abort, alloc: Global, tree: &Tree, size: Option<u32>) -> Result<(), Fail> {
    assert!(rt; names_in(tree, ROOT_INODE)? == usize::from(size.is_some()));
    let found = resolved(alloc, tree, "/f")?;
    assert!(rt; found.and_then(|inode| tree.size(inode)) == size);
    if let Some(inode) = found {
        assert!(rt; has_hello(tree, inode));
    }
    Ok(())
}

/// A scan finds that tree.
fn check_scan(
    rt: &impl Abort,
    alloc: Global,
    flash: MemoryFlash,
    size: Option<u32>,
) -> Result<(), Fail> {
    let core = mounted(alloc, flash)?;
    check_tree(rt, alloc, core.tree(), size)
}

/// The session after all that was asked for was served, and was seen.
fn session_after<R: Wait + Abort>(rt: &R, alloc: Global) -> Result<Session<MemoryFlash>, Fail> {
    let slot = Cell::new(None);
    let left = served_seen(rt, alloc, erased(alloc, 8)?, &ASKED, &slot, 100)?;
    assert!(rt; left.served != Served::Memory);
    check(rt, left.session.core().answers(), &slot);
    let Left { session, .. } = left;
    Ok(session)
}

// Run it with each allocation failing in turn.
#[test]
fn each_growth_refused_in_turn(rt: HostRuntime) -> Result<(), Fail> {
    let alloc = rt.alloc();
    let session = session_after(&rt, alloc)?;
    let size = size_after(session.core().answers());
    check_scan(&rt, alloc, session.into_core().into_flash(), size)
}

/// Memory is ample, so one call serves all three requests, and refuses none.
#[test]
fn three_requests_are_served_by_one_call(rt: HostRuntime) -> Result<(), Fail> {
    let alloc = rt.alloc();
    let left = served(&rt, alloc, erased(alloc, 8)?, &ASKED)?;
    assert_eq!(rt; left.served, Served::Closed);
    assert_eq!(rt; left.session.core().answers(), wanted().as_slice());
    Ok(())
}
