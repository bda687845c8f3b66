//! Steps that are put, published and looked at.
//! What is seen has to be what was put and published until then, counted on paper.
ghost use Rattle.std.specs.Prelude.{◌≡◌, IfOk};
ghost use Rattle.jffs_index.specs.Histories.{view_of};
ghost use Rattle.jffs_index.specs.Ends.{all_put, index_of, publisher_index};

mod follower;
mod source;

use crate::tests::follower::{Seen, follow};
use crate::tests::source::Source;
use jffs_index::{IndexFault, Reader, Step, publish_index};
use jffs_node::{Kind, Path, copied};
use jffs_tree::{Outcome, Tree, Wish};
use std::alloc::Global;
use std::process::Abort;
use std::sync::Wait;
use std::test::Fail;
use std::thread;

#[test]
fn constructors_refuse(rt: HostRuntime) -> Result<(), Fail> {
    let alloc = rt.alloc();
    for readers in [0, 18] {
        let index = publish_index(&rt, alloc, Tree::new(alloc), readers);
        assert_eq!(rt; index.err(), Some(IndexFault::Places));
    }
    for readers in [1, 17] {
        let (_, ends) = publish_index(&rt, alloc, Tree::new(alloc), readers)?;
        assert_eq!(rt; ends.len(), readers);
    }
    Ok(())
}

/// An index over the empty tree, with one reader.
fn opened<W: Wait + Drop>(rt: W, alloc: Global) -> Result<(Source<W>, Reader), Fail>
    ensures tree { IfOk result
        (λ index. index.0.tree ≡ (view_of (all_put index.0.publisher)).tree) }
    ensures index { IfOk result (λ index. index_of index.1 ≡ publisher_index index.0.publisher) }
{
    let (publisher, mut readers) = publish_index(rt, alloc, Tree::new(alloc), 1)?;
    let reader = readers.pop().ok_or("one reader")?;
    let source = Source {
        publisher,
        tree: Tree::new(alloc),
        next_inode: 2,
        next_version: 1,
    };
    Ok((source, reader))
}

fn path(alloc: Global, text: &str) -> Result<Path, Fail> {
    Ok(Path::parse(alloc, text)?)
}

fn create(alloc: Global, text: &str) -> Result<Wish, Fail> {
    Ok(Wish::Create(path(alloc, text)?))
}

fn make_dir(alloc: Global, text: &str) -> Result<Wish, Fail> {
    Ok(Wish::MakeDir(path(alloc, text)?))
}

fn rename(alloc: Global, from: &str, to: &str) -> Result<Wish, Fail> {
    Ok(Wish::Rename {
        from: path(alloc, from)?,
        to: path(alloc, to)?,
    })
}

/// What a look finds of `/f` and of its creation.
#[derive(Clone, Copy, Debug, PartialEq, Eq)]
struct Found {
    answered: u64,
    created: Option<Outcome>,
    inode: Option<u32>,
    closed: bool,
}

fn look(reader: &mut Reader, file: &Path) -> Option<Found>
    ensures { index_of reader.new ≡ index_of reader.old }
{
    reader.look(|view| Found {
        answered: view.answered(),
        created: view.answer(1, 1),
        inode: view.resolve(file),
        closed: view.closed(),
    })
}

fn steps_show<W: Wait + Drop>(
    rt: &impl Abort,
    alloc: Global,
    source: &mut Source<W>,
    reader: &mut Reader,
) -> Result<(), Fail>
    requires tree { source.old.tree ≡ (view_of (all_put source.old.publisher)).tree }
    requires index { index_of reader.old ≡ publisher_index source.old.publisher }
{
    let file = path(alloc, "/f")?;
    let nothing = Found {
        answered: 0,
        created: None,
        inode: None,
        closed: false,
    };
    let created = Found {
        answered: 1,
        created: Some(Outcome::Appended {
            inode: 2,
            version: 1,
        }),
        inode: Some(2),
        closed: false,
    };
    assert_eq!(rt; look(reader, &file), Some(nothing));
    source.request(&create(alloc, "/f")?)?;
    assert_eq!(rt; look(reader, &file), Some(nothing));
    source.publish()?;
    reader.learn(source.publisher.tell());
    assert_eq!(rt; look(reader, &file), Some(created));
    source.unmount()?;
    source.publish()?;
    reader.learn(source.publisher.tell());
    let closed = Found {
        answered: 2,
        closed: true,
        ..created
    };
    assert_eq!(rt; look(reader, &file), Some(closed));
    Ok(())
}

#[test]
fn published_steps_show(rt: HostRuntime) -> Result<(), Fail> {
    let alloc = rt.alloc();
    let (mut source, mut reader) = opened(&rt, alloc)?;
    steps_show(&rt, alloc, &mut source, &mut reader)
}

/// Memory is ample, so neither call is to be made again.
#[test]
fn a_step_is_put_and_published_at_the_first_call(rt: HostRuntime) -> Result<(), Fail> {
    let (mut source, mut reader) = opened(&rt, rt.alloc())?;
    let put = source.publisher.put(Step {
        writer: 10,
        seq: 1,
        outcome: Outcome::Closed,
        node: None,
    });
    assert!(rt; put.is_ok());
    assert!(rt; source.publisher.publish().is_ok());
    reader.learn(source.publisher.tell());
    let seen = reader.look(|view| (view.answered(), view.closed()));
    assert_eq!(rt; seen, Some((1, true)));
    Ok(())
}

/// `/b/f` (inode 3), created below `/a`, beside `/c` (inode 4).
fn rename_a_directory<W: Wait + Drop>(alloc: Global, source: &mut Source<W>) -> Result<(), Fail>
    requires { source.old.tree ≡ (view_of (all_put source.old.publisher)).tree }
    ensures { IfOk result
        (λ _. source.new.tree ≡ (view_of (all_put source.new.publisher)).tree) }
{
    source.request(&make_dir(alloc, "/a")?)?;
    source.request(&create(alloc, "/a/f")?)?;
    source.request(&rename(alloc, "/a", "/b")?)?;
    source.request(&make_dir(alloc, "/c")?)
}

/// `/c` (inode 4) and `/c/f` (inode 3), after renames, a write and a removal.
fn move_about<W: Wait + Drop>(alloc: Global, source: &mut Source<W>) -> Result<(), Fail>
    requires { source.old.tree ≡ (view_of (all_put source.old.publisher)).tree }
{
    rename_a_directory(alloc, source)?;
    source.request(&rename(alloc, "/b/f", "/c/f")?)?;
    source.request(&Wish::Write {
        path: path(alloc, "/c/f")?,
        offset: 0,
        bytes: copied(alloc, b"hello")?,
    })?;
    source.request(&Wish::Remove(path(alloc, "/b")?))?;
    source.publish()
}

/// The names in a directory of what is published are this one alone.
fn has_one_name(
    rt: &impl Abort,
    reader: &mut Reader,
    inode: u32,
    name: &[u8],
    of: u32,
) -> Result<(), Fail> {
    let names = reader
        .look(|view| view.names(inode))
        .ok_or("the publisher is there")??;
    assert_eq!(rt; names.len(), 1);
    assert_eq!(rt; names[0].0.bytes(), name);
    assert_eq!(rt; names[0].1, of);
    Ok(())
}

#[test]
fn the_names_of_a_published_tree(rt: HostRuntime) -> Result<(), Fail> {
    let alloc = rt.alloc();
    let (mut source, mut reader) = opened(&rt, alloc)?;
    move_about(alloc, &mut source)?;
    has_one_name(&rt, &mut reader, 1, b"c", 4)?;
    has_one_name(&rt, &mut reader, 4, b"f", 3)?;
    Ok(())
}

/// Of `/c/f` (inode 3) after all that `move_about` asked for.
fn answers_of_the_file(rt: &impl Abort, reader: &mut Reader) {
    let read = reader.look(|view| {
        let mut bytes = [0u8; 4];
        (view.read(3, 1, &mut bytes), bytes)
    });
    assert_eq!(rt; read, Some((4, *b"ello")));
    assert_eq!(rt; reader.look(|view| view.size(3)), Some(Some(5)));
    assert_eq!(rt; reader.look(|view| view.live(3, 6)), Some(true));
    assert_eq!(rt; reader.look(|view| view.live(3, 5)), Some(false));
}

/// Of `/c` (inode 4), which holds it, and of what was removed.
fn answers_of_directories(rt: &impl Abort, reader: &mut Reader) {
    let there = reader.look(|view| view.kind(4));
    assert_eq!(rt; there, Some(Some(Kind::Directory)));
    assert_eq!(rt; reader.look(|view| view.kind(2)), Some(None));
    let parent = reader.look(|view| view.parent_name(3).map(|entry| entry.0));
    assert_eq!(rt; parent, Some(Some(4)));
}

#[test]
fn a_view_answers_as_its_tree(rt: HostRuntime) -> Result<(), Fail> {
    let alloc = rt.alloc();
    let (mut source, mut reader) = opened(&rt, alloc)?;
    move_about(alloc, &mut source)?;
    answers_of_the_file(&rt, &mut reader);
    answers_of_directories(&rt, &mut reader);
    Ok(())
}

#[test]
fn a_look_is_none_once_the_publisher_is_gone(rt: HostRuntime) -> Result<(), Fail> {
    let alloc = rt.alloc();
    let (publisher, mut readers) = publish_index(&rt, alloc, Tree::new(alloc), 17)?;
    let mut reader = readers.pop().ok_or("seventeen readers")?;
    thread::join(&rt, move || drop(publisher), || ());
    assert!(rt; reader.look(|view| view.answered()).is_none());
    Ok(())
}

/// The creation of `/f`, and 499 changes of its size.
fn resizes(alloc: Global) -> Result<Vec<Wish>, Fail> {
    let mut wishes = Vec::new(alloc);
    wishes.push(create(alloc, "/f")?)?;
    for size in 1..500 {
        let path = path(alloc, "/f")?;
        wishes.push(Wish::Truncate { path, size })?;
    }
    Ok(wishes)
}

#[test]
fn a_thread_follows_what_is_published(rt: HostRuntime) -> Result<(), Fail> {
    let alloc = rt.alloc();
    let wishes = resizes(alloc)?;
    let (source, reader) = opened(&rt, alloc)?;
    let seen = follow(&rt, source, reader, &wishes)?;
    let wanted = Seen {
        beside: 500,
        last: Some(500),
    };
    assert_eq!(rt; seen, wanted);
    Ok(())
}
