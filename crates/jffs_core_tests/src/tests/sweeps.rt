//! Devices that fail at each call in turn.
//! What a mount has to find is a working run's tree, before the request in hand or after it.

use crate::tests::looks::whole;
use crate::tests::session::{Session, erased_flash, mount};
use jffs_flash::{Fail as FuseFail, Flash, FuseFlash, Fused, MemoryFlash};
use jffs_log::{ScanFault, ScanWhy};
use jffs_node::{Kind, Name, ROOT_INODE};
use jffs_tree::Tree;
use std::alloc::Global;
use std::process::Abort;
use std::test::Fail;

/// More calls than any run makes.
const MOST_CALLS: u64 = 1000;

/// A tenth write that finds no room, and a removal.
pub(super) const FILLING: &str = "create /f
     write /f 0 192*a
     write /f 192 192*a
     write /f 384 192*a
     write /f 576 192*a
     write /f 768 192*a
     write /f 960 192*a
     write /f 1152 192*a
     write /f 1344 192*a
     write /f 1536 192*a
     write /f 1728 192*a
     remove /f";

/// A file that is renamed, and another that is written over and over.
pub(super) const RENAMING: &str = "mkdir /d
     create /d/a
     write /d/a 0 hello
     rename /d/a /d/b
     create /z
     write /z 0 192*a
     write /z 0 192*a
     write /z 0 192*a";

/// The mark of an inode: a space for a file.
fn mark_of(tree: &Tree, inode: u32) -> u8 {
    match tree.kind(inode) {
        Some(Kind::File) => b' ',
        _ => b'/',
    }
}

/// What stands at a name: the name, and of a file the bytes.
fn show(
    alloc: Global,
    tree: &Tree,
    name: &Name,
    inode: u32,
    out: &mut Vec<u8>,
) -> Result<(), Fail> {
    out.extend_from_slice(name.bytes())?;
    out.push(mark_of(tree, inode))?;
    out.extend_from_slice(&whole(alloc, tree, inode)?)?;
    out.push(b'\n')?;
    Ok(())
}

/// What stands in a directory.
fn show_below(alloc: Global, tree: &Tree, directory: u32, out: &mut Vec<u8>) -> Result<(), Fail> {
    for (name, inode) in tree.names(directory)?.iter() {
        show(alloc, tree, name, *inode, out)?;
    }
    Ok(())
}

/// What stands in the root, and below each name there.
fn show_root(alloc: Global, tree: &Tree, out: &mut Vec<u8>) -> Result<(), Fail> {
    for (name, inode) in tree.names(ROOT_INODE)?.iter() {
        show(alloc, tree, name, *inode, out)?;
        show_below(alloc, tree, *inode, out)?;
    }
    Ok(())
}

/// All names and bytes of a tree whose directories stand in the root.
fn shown<F: Flash + Drop>(session: &Session<F>) -> Result<Vec<u8>, Fail> {
    let mut out = Vec::new(session.alloc);
    show_root(session.alloc, session.core.tree(), &mut out)?;
    Ok(out)
}

/// Answers the wishes until the device fails, and keeps the tree before the first request and after
/// each that was answered by a device that works.
fn keep_trees<F: Flash + Drop>(
    session: &mut Session<F>,
    run: &str,
    trees: &mut Vec<Vec<u8>>,
) -> Result<(), Fail> {
    trees.push(shown(session)?)?;
    for line in run.lines() {
        session.ask(line)?;
        if session.failed() {
            return Ok(());
        }
        trees.push(shown(session)?)?;
    }
    Ok(())
}

/// Erases what is dead and cleans twice.
fn tidy<F: Flash + Drop>(session: &mut Session<F>) {
    let _ = session.erase_dead();
    let _ = session.clean_oldest();
    let _ = session.clean_oldest();
}

/// Answers the wishes, erases what is dead and cleans twice, until the device fails; gives the tree
/// before the first request and after each that was answered by a device that works.
fn trees_of<F: Flash + Drop>(session: &mut Session<F>, run: &str) -> Result<Vec<Vec<u8>>, Fail> {
    let mut trees = Vec::new(session.alloc);
    keep_trees(session, run, &mut trees)?;
    if !session.failed() {
        tidy(session);
    }
    Ok(trees)
}

/// What a device holds whose fuse blew after some calls, and how many requests were answered
/// before.
#[derive(Drop)]
struct Blown {
    answered: usize,
    left: MemoryFlash,
}

/// What is left of a device; None where the fuse never blew.
fn blow(alloc: Global, run: &str, fuse: FuseFlash) -> Result<Option<Blown>, Fail> {
    match mount(alloc, fuse) {
        Ok(core) => blow_later(Session::of(alloc, core), run),
        Err(fault) => blown_at_once(fault),
    }
}

/// What is left of a device that wasn't mounted.
fn blown_at_once(fault: ScanFault<FuseFlash>) -> Result<Option<Blown>, Fail> {
    if fault.why != ScanWhy::Device {
        return Err("another refusal than the device's".into());
    }
    Ok(Some(Blown {
        answered: 0,
        left: fault.flash.into_inner(),
    }))
}

/// What is left of a device that was mounted.
fn blow_later(mut session: Session<FuseFlash>, run: &str) -> Result<Option<Blown>, Fail> {
    let answered = trees_of(&mut session, run)?.len().saturating_sub(1);
    if !session.failed() {
        return Ok(None);
    }
    Ok(Some(Blown {
        answered,
        left: session.into_flash().into_inner(),
    }))
}

/// A device whose fuse blows after some calls.
fn fuse_of(alloc: Global, calls: u64, fused: Fused, fail: FuseFail) -> Result<FuseFlash, Fail> {
    let flash = erased_flash(alloc, 6)?;
    Ok(FuseFlash::new(flash, calls, fused, fail))
}

/// Whether a tree stands at a place.
fn is_at(trees: &[Vec<u8>], place: usize, found: &[u8]) -> bool {
    match trees.get(place) {
        Some(tree) => tree.as_slice() == found,
        None => false,
    }
}

/// Whether a mount finds the tree before or after the request in hand; None where the fuse never
/// blew.
fn survives(
    alloc: Global,
    run: &str,
    trees: &[Vec<u8>],
    fuse: FuseFlash,
) -> Result<Option<bool>, Fail> {
    let Some(Blown { answered, left }) = blow(alloc, run, fuse)? else {
        return Ok(None);
    };
    let found = shown(&Session::over(alloc, left)?)?;
    Ok(Some(is_at(trees, answered, &found) || is_at(trees, answered.saturating_add(1), &found)))
}

/// Whatever call fails, a mount finds the tree before or after the request in hand.
fn sweep(
    rt: &impl Abort,
    alloc: Global,
    run: &str,
    fused: Fused,
    fail: FuseFail,
) -> Result<(), Fail> {
    let trees = trees_of(&mut Session::erased(alloc, 6)?, run)?;
    for calls in 0..MOST_CALLS {
        let fuse = fuse_of(alloc, calls, fused, fail)?;
        match survives(alloc, run, &trees, fuse)? {
            None => return Ok(()),
            Some(survives) => assert!(rt; survives, "{calls} calls"),
        }
    }
    Err("the fuse always blew".into())
}

fn sweep_all(rt: &impl Abort, alloc: Global, run: &str) -> Result<(), Fail> {
    for fused in [Fused::Writes, Fused::All] {
        for fail in [FuseFail::Nothing, FuseFail::Half] {
            sweep(rt, alloc, run, fused, fail)?;
        }
    }
    Ok(())
}

#[test]
fn a_full_volume_survives_each_fault(rt: HostRuntime) -> Result<(), Fail> {
    sweep_all(&rt, rt.alloc(), FILLING)
}

#[test]
fn a_cleaned_volume_survives_each_fault(rt: HostRuntime) -> Result<(), Fail> {
    sweep_all(&rt, rt.alloc(), RENAMING)
}
