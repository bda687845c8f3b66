//! Wishes one by one on a tree, without a log.
//! Offsets, sizes and contents are worked out on paper from docs/FORMAT.md, section 8.

mod listing;
mod live;
mod look_ups;
mod wishes;

use crate::tests::wishes::{path, wish_of};
use jffs_node::{Kind, Name, NoMemory, Node};
use jffs_tree::{Cause, CopySource, Limits, Tree, Wish};
use std::alloc::{AllocError, Global};
use std::process::Abort;
use std::test::Fail;

/// A tree with the numbers that come next.
#[derive(Drop)]
struct Session {
    alloc: Global,
    tree: Tree,
    next_inode: Option<u32>,
    next_version: Option<u32>,
}

impl Session {
    fn new(alloc: Global) -> Session {
        Session {
            alloc,
            tree: Tree::new(alloc),
            next_inode: Some(2),
            next_version: Some(1),
        }
    }

    fn limits(&self) -> Limits {
        Limits {
            data_max: 192,
            next_inode: self.next_inode,
            next_version: self.next_version,
        }
    }

    /// If allocation fails the wish is decided again.
    fn decide(&self, wish: &Wish) -> Result<Node, Cause> {
        let decided = match self.tree.decide(self.limits(), wish) {
            Err(Cause::Memory) => self.tree.decide(self.limits(), wish)?,
            decided => decided?,
        };
        let version = self.next_version.unwrap_or(0);
        Ok(decided.with(version, 1, version))
    }

    /// Decides what each line wishes for, and applies what is granted. After `:` stands what has to
    /// come of it; a line without that has to be granted.
    fn play(&mut self, rt: &impl Abort, script: &str) -> Result<(), Fail> {
        for line in script.lines() {
            let decided = self.decide(&wish_of(self.alloc, line)?);
            if let Some((_, wanted)) = line.split_once(" : ") {
                let text = text_of(self.alloc, &decided)?;
                assert_eq!(rt; text.as_str(), wanted, "at {line}");
            } else {
                assert!(rt; decided.is_ok(), "at {line}");
            }
            if let Ok(node) = decided {
                self.take(rt, &node)?;
            }
        }
        Ok(())
    }

    /// Applies a node, and counts on.
    fn take(&mut self, rt: &impl Abort, node: &Node) -> Result<(), Fail> {
        apply(rt, &mut self.tree, node)?;
        if Some(node.inode) == self.next_inode {
            self.next_inode = node.inode.checked_add(1);
        }
        self.next_version = node.version.checked_add(1);
        Ok(())
    }

    fn contents(&self, rt: &impl Abort, inode: u32, bytes: &[u8]) {
        let mut out = [0xFFu8; 16];
        let count = self.tree.read(inode, 0, &mut out);
        assert_eq!(rt; &out[..count], bytes);
    }
}

/// Applies a node. If allocation fails the tree is as it was, and the node can be applied
/// again.
fn apply(rt: &impl Abort, tree: &mut Tree, node: &Node) -> Result<(), Fail> {
    assert!(rt; tree.can_apply(node));
    let before = copied(tree)?;
    if let Err(cause) = tree.apply(node) {
        assert_eq!(rt; cause, Cause::Memory);
        look_ups::are_the_same(rt, tree, &before)?;
        assert!(rt; tree.can_apply(node));
        tree.apply(node)?;
    }
    Ok(())
}

/// What was decided, in words; if allocation fails it is said again.
fn text_of(alloc: Global, decided: &Result<Node, Cause>) -> Result<String, AllocError> {
    tell(alloc, decided).or_else(|_| tell(alloc, decided))
}

/// Offset, rsize and size of the node, or why there is none. No file here is so long as one without
/// a size is shown.
fn tell(alloc: Global, decided: &Result<Node, Cause>) -> Result<String, AllocError> {
    match decided {
        Ok(node) => {
            let size = node.size.unwrap_or(u32::MAX);
            format!(in alloc; "at {} over {} size {size}", node.offset, node.rsize)
        }
        Err(cause) => format!(in alloc; "refused {cause:?}"),
    }
}

/// The names in a directory; if allocation fails they are listed again.
fn names(tree: &Tree, inode: u32) -> Result<Vec<(Name, u32)>, Fail> {
    Ok(tree.names(inode).or_else(|_| tree.names(inode))?)
}

/// A copy of a tree; if allocation fails it is copied again.
fn copied(tree: &Tree) -> Result<Tree, Fail> {
    Ok(tree.copy_tree().or_else(|_| tree.copy_tree())?)
}

/// The inode that a path leads to.
fn resolved(tree: &Tree, alloc: Global, text: &str) -> Result<Option<u32>, Fail> {
    let path = path(alloc, text)?;
    Ok(tree.resolve(&path))
}

/// `/f` holds `hello`: inode 2, versions 1 and 2.
fn with_hello(rt: &impl Abort, alloc: Global) -> Result<Session, Fail> {
    let mut session = Session::new(alloc);
    session.play(
        rt,
        "create /f
         write /f 0 hello",
    )?;
    Ok(session)
}

#[test]
fn overlapping_writes(rt: HostRuntime) -> Result<(), Fail> {
    let mut session = with_hello(&rt, rt.alloc())?;
    session.play(
        &rt,
        "write /f 1 EY : at 1 over 2 size 5
         write /f 5 !! : at 5 over 0 size 7
         write /f 6 abc : at 6 over 1 size 9",
    )?;
    session.contents(&rt, 2, b"hEYlo!abc");
    has_overlapped(&rt, &session.tree);
    Ok(())
}

/// Who wrote last what stands in `hEYlo!abc`, and which versions are live.
fn has_overlapped(rt: &impl Abort, tree: &Tree) {
    for (offset, writer) in [
        (0, Some(2)),
        (1, Some(3)),
        (5, Some(4)),
        (8, Some(5)),
        (9, None),
    ] {
        assert_eq!(rt; tree.last_writer(2, offset), writer, "at {offset}");
    }
    has_live_ends(rt, tree);
}

/// Of the versions 1, 2 and 5 all but the first are live, and the last is the newest.
fn has_live_ends(rt: &impl Abort, tree: &Tree) {
    assert_eq!(rt; tree.newest(2), Some(5));
    let live = [tree.live(2, 1), tree.live(2, 2), tree.live(2, 5)];
    assert_eq!(rt; live, [false, true, true]);
}

#[test]
fn holes_and_growth(rt: HostRuntime) -> Result<(), Fail> {
    let mut session = with_hello(&rt, rt.alloc())?;
    session.play(
        &rt,
        "truncate /f 5 : at 5 over 0 size 5
         truncate /f 6 : at 5 over 0 size 6",
    )?;
    session.contents(&rt, 2, b"hello\0");
    session.play(
        &rt,
        "truncate /f 0 : at 0 over 6 size 0
         write /f 1 A : at 1 over 0 size 2",
    )?;
    session.contents(&rt, 2, b"\0A");
    assert_eq!(rt; session.tree.last_writer(2, 0), None);
    session.play(
        &rt,
        "truncate /f 1048577 : refused FileLong
         write /f 1048576 A : refused FileLong
         write /f 1048576 - : at 2 over 0 size 2",
    )
}

#[test]
fn stale_and_needless_copies(rt: HostRuntime) -> Result<(), Fail> {
    let mut session = with_hello(&rt, rt.alloc())?;
    session.play(
        &rt,
        "write /f 0 J
         copy 2 f hello : refused Stale
         copy 2 g Jello : refused Stale
         copy 2 f 193*\0 : refused DataLong
         copy 2 f Jello : at 0 over 5 size 5",
    )?;
    session.contents(&rt, 2, b"Jello");
    session.play(
        &rt,
        "copy 1 f - : refused NotNeeded
         remove /f
         copy 4 f Jello : refused NotNeeded",
    )
}

/// The copy that cleaning makes of a node that is live.
fn cleaned(session: &Session, source: &Node) -> Result<Node, Fail> {
    if !session.tree.live(source.inode, source.version) {
        return Err("it isn't live".into());
    }
    let copied = match session.tree.cleaning_copy(CopySource::of(source)) {
        Ok(copied) => copied,
        Err(NoMemory) => session.tree.cleaning_copy(CopySource::of(source))?,
    };
    Ok(copied.with(session.next_version.unwrap_or(0), 0, 0))
}

/// A copy gives `/g` these bytes, instead of as many.
fn is_copy(rt: &impl Abort, copied: &Node, bytes: &[u8]) {
    assert!(rt; copied.copy && is_g(copied.name));
    assert!(rt; copied.offset == 0 && copied.size == Some(copied.rsize));
    assert_eq!(rt; copied.rsize as usize, bytes.len());
    assert_eq!(rt; copied.bytes.as_slice(), bytes);
}

fn is_g(name: Option<Name>) -> bool {
    name == Name::from_bytes(b"g")
}

#[test]
fn cleaning_copies_current_names(rt: HostRuntime) -> Result<(), Fail> {
    let mut session = Session::new(rt.alloc());
    session.play(&rt, "create /f")?;
    let source = session.decide(&wish_of(session.alloc, "write /f 0 hello")?)?;
    session.play(
        &rt,
        "write /f 0 hello
         rename /f /g
         write /g 1 EY",
    )?;
    is_copy(&rt, &cleaned(&session, &source)?, b"hEYlo");
    session.play(&rt, "truncate /g 3")?;
    let copied = cleaned(&session, &source)?;
    is_copy(&rt, &copied, b"hEY");
    apply(&rt, &mut session.tree, &copied)?;
    assert!(rt; !session.tree.live(2, source.version));
    session.contents(&rt, 2, b"hEY");
    Ok(())
}

/// A record of which no byte was written over is copied whole, into memory that nobody shares.
#[test]
fn a_whole_record_is_copied_into_memory_of_its_own(rt: HostRuntime) -> Result<(), Fail> {
    let mut session = Session::new(rt.alloc());
    session.play(&rt, "create /g")?;
    let source = session.decide(&wish_of(session.alloc, "write /g 3 hello")?)?;
    session.play(
        &rt,
        "write /g 3 hello
         write /g 8 world",
    )?;
    let copied = cleaned(&session, &source)?;
    assert!(rt; copied.copy && is_g(copied.name));
    assert_eq!(rt;
        (copied.offset, copied.rsize, copied.size),
        (3, 5, Some(13))
    );
    assert_eq!(rt; copied.bytes.as_slice(), b"hello".as_slice());
    assert!(rt; copied.bytes.is_unique());
    Ok(())
}

/// What stands after this: `/c` (inode 4) and `/c/f` (inode 3).
const MOVED: &str = "mkdir /a
     mkdir /a : refused NameTaken
     create /n/x : refused NoParent
     remove / : refused RootFixed
     write /a 0 x : refused IsDirectory
     create /a/f
     remove /a : refused NotEmpty
     rename /a /b
     mkdir /c
     rename /b /c/d : refused IsDirectory
     rename /b/f /c/f
     remove /b
     write /f 0 x : refused NotFound";

fn stands_moved(rt: &impl Abort, alloc: Global, tree: &Tree) -> Result<(), Fail> {
    assert!(rt; tree.check());
    for (text, inode) in [
        ("/", Some(1)),
        ("/c", Some(4)),
        ("/c/f", Some(3)),
        ("/b", None),
    ] {
        assert_eq!(rt; resolved(tree, alloc, text)?, inode, "at {text}");
    }
    assert!(rt; tree.kind(4) == Some(Kind::Directory) && tree.kind(2).is_none());
    assert_eq!(rt; tree.size(3), Some(0));
    assert_eq!(rt; names(tree, 3)?.len(), 0);
    lists_c(rt, tree)
}

/// The root holds `/c`, and nothing else.
fn lists_c(rt: &impl Abort, tree: &Tree) -> Result<(), Fail> {
    let listed = names(tree, 1)?;
    assert!(rt; is_c_alone(&listed));
    Ok(())
}

fn is_c_alone(listed: &[(Name, u32)]) -> bool {
    match listed {
        [(name, inode)] => *inode == 4 && name.bytes() == b"c".as_slice(),
        _ => false,
    }
}

#[test]
fn every_refusal_of_a_path(rt: HostRuntime) -> Result<(), Fail> {
    let mut session = Session::new(rt.alloc());
    session.play(&rt, MOVED)?;
    stands_moved(&rt, rt.alloc(), &session.tree)
}

/// The node of an entry whose parent is a file: no rule of a single node forbids it.
#[test]
fn a_file_is_removed_whatever_names_it_as_parent(rt: HostRuntime) -> Result<(), Fail> {
    let mut session = with_hello(&rt, rt.alloc())?;
    let mut below = session.decide(&wish_of(session.alloc, "create /g")?)?;
    below.parent = 2;
    session.take(&rt, &below)?;
    session.play(&rt, "remove /f")?;
    assert_eq!(rt; session.tree.kind(2), None);
    assert_eq!(rt; session.tree.kind(3), Some(Kind::File));
    Ok(())
}

/// What takes an inode away, and an unmount node, are taken in at once, whichever allocation fails.
#[test]
fn removals_and_unmounts_take_no_memory(rt: HostRuntime) -> Result<(), Fail> {
    let mut session = with_hello(&rt, rt.alloc())?;
    session.play(
        &rt,
        "write /f 1 EY
         mkdir /d",
    )?;
    for line in ["unmount", "remove /f", "remove /d"] {
        let node = session.decide(&wish_of(session.alloc, line)?)?;
        assert!(rt; session.tree.can_apply(&node), "at {line}");
        assert!(rt; session.tree.apply(&node).is_ok(), "at {line}");
    }
    assert!(rt; session.tree.kind(2).is_none() && session.tree.kind(3).is_none());
    Ok(())
}

#[test]
fn a_copied_tree_is_its_source(rt: HostRuntime) -> Result<(), Fail> {
    let mut session = Session::new(rt.alloc());
    session.play(&rt, MOVED)?;
    let copied = copied(&session.tree)?;
    session.play(&rt, "remove /c/f")?;
    stands_moved(&rt, rt.alloc(), &copied)
}

#[test]
fn no_number_is_left(rt: HostRuntime) -> Result<(), Fail> {
    let mut session = with_hello(&rt, rt.alloc())?;
    session.next_inode = None;
    session.play(&rt, "create /g : refused InodesSpent")?;
    session.next_version = None;
    session.play(
        &rt,
        "unmount : refused VersionsSpent
         create /f : refused NameTaken",
    )
}
