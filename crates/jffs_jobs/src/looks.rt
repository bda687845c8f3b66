//! Readers that look while steps are published.

ghost use Rattle.std.specs.Prelude.{◌≡◌, IfOk};
ghost use Rattle.jffs_index.specs.Histories.{view_of};
ghost use Rattle.jffs_index.specs.Ends.{all_put};

use crate::Scale;
use crate::digest::Digest;
use crate::fault::Fault;
use crate::random::{Random, noise, noisy};
use jffs_index::{Publisher, Reader, Step, View, publish_index};
use jffs_node::{Node, Path, ROOT_INODE, copied};
use jffs_tree::{Cause, Limits, Outcome, Tree, Wish};
use std::alloc::Global;
use std::sync::Wait;

/// The readers of the index.
const READERS: usize = 16;

/// The directories, each with `FILES` files.
const DIRECTORIES: u32 = 12;

/// The files of each directory.
const FILES: u32 = 40;

/// The steps of a session.
const STEPS: u32 = 150_000;

/// A publisher beside the tree of all that was put, and the number of the last step.
#[derive(Drop)]
struct Source<P: Wait + Drop> {
    publisher: Publisher<P>,
    tree: Tree,
    version: u32,
}

impl<P: Wait + Drop> Source<P> {
    /// Publishes what a wish comes to.
    fn publish(&mut self, wish: &Wish) -> Result<(), Fault>
        requires { self.old.tree ≡ (view_of (all_put self.old.publisher)).tree }
        ensures { IfOk result (λ _. self.new.tree ≡ (view_of (all_put self.new.publisher)).tree) }
    {
        self.version = self.version.saturating_add(1);
        match decide(&self.tree, wish, self.version) {
            Ok(node) => self.publish_node(node),
            Err(cause) => self.publish_refusal(cause),
        }
    }

    /// Publishes that a request was granted, with its node.
    fn publish_node(&mut self, node: Node) -> Result<(), Fault>
        requires { self.old.tree ≡ (view_of (all_put self.old.publisher)).tree }
        ensures { IfOk result (λ _. self.new.tree ≡ (view_of (all_put self.new.publisher)).tree) }
    {
        if !self.tree.can_apply(&node) {
            return Err(Fault::Refused);
        }
        self.tree.apply(&node)?;
        let version = node.version;
        let step = Step {
            writer: 1,
            seq: version,
            outcome: Outcome::Appended {
                inode: node.inode,
                version,
            },
            node: Some(node),
        };
        if self.publisher.put(step).is_err() {
            return Err(Fault::Memory);
        }
        self.publisher.publish()?;
        Ok(())
    }

    /// Publishes that a request was refused.
    fn publish_refusal(&mut self, cause: Cause) -> Result<(), Fault>
        requires { self.old.tree ≡ (view_of (all_put self.old.publisher)).tree }
        ensures { IfOk result (λ _. self.new.tree ≡ (view_of (all_put self.new.publisher)).tree) }
    {
        let step = Step {
            writer: 1,
            seq: self.version,
            outcome: Outcome::Refused(cause),
            node: None,
        };
        if self.publisher.put(step).is_err() {
            return Err(Fault::Memory);
        }
        self.publisher.publish()?;
        Ok(())
    }
}

/// The node of a wish that is granted.
fn decide(tree: &Tree, wish: &Wish, version: u32) -> Result<Node, Cause> {
    let limits = Limits {
        data_max: 4032,
        next_inode: Some(version.saturating_add(1)),
        next_version: Some(version),
    };
    Ok(tree.decide(limits, wish)?.with(version, 1, version))
}

/// The path of a file.
fn file_path(alloc: Global, random: &mut Random) -> Result<Path, Fault> {
    let directory = random.below(DIRECTORIES);
    let file = random.below(FILES);
    let text = format!(in alloc; "/d{directory}/f{file}")?;
    Ok(Path::parse(alloc, text.as_str())?)
}

/// Two sessions with an index of their own.
pub(crate) fn look<R: AllocGlobal + Wait>(
    rt: &R,
    seed: u64,
    scale: Scale,
) -> Result<Digest, Fault> {
    let mut digest = Digest::new();
    for session in 0..2u64 {
        let mut random = Random::new(seed, session);
        look_along(rt, &mut random, scale.times(STEPS), &mut digest)?;
    }
    Ok(digest)
}

/// Publishes steps one by one, and has some of the readers look after each.
fn look_along<R: AllocGlobal + Wait>(
    rt: &R,
    random: &mut Random,
    steps: u32,
    digest: &mut Digest,
) -> Result<(), Fault> {
    let alloc = rt.alloc();
    let tree = Tree::new(alloc);
    let Ok((publisher, mut readers)) = publish_index(rt, alloc, tree.copy_tree()?, READERS) else {
        return Err(Fault::Memory);
    };
    let mut source = Source {
        publisher,
        tree,
        version: 0,
    };
    make_directories(alloc, &mut source)?;
    publish_all(alloc, &mut source, &mut readers, random, steps, digest)
}

fn make_directories<P: Wait + Drop>(alloc: Global, source: &mut Source<P>) -> Result<(), Fault>
    requires { source.old.tree ≡ (view_of (all_put source.old.publisher)).tree }
    ensures { IfOk result (λ _. source.new.tree ≡ (view_of (all_put source.new.publisher)).tree) }
{
    for directory in 0..DIRECTORIES {
        let text = format!(in alloc; "/d{directory}")?;
        let path = Path::parse(alloc, text.as_str())?;
        source.publish(&Wish::MakeDir(path))?;
    }
    Ok(())
}

fn publish_all<P: Wait + Drop>(
    alloc: Global,
    source: &mut Source<P>,
    readers: &mut [Reader],
    random: &mut Random,
    steps: u32,
    digest: &mut Digest,
) -> Result<(), Fault>
    requires { source.old.tree ≡ (view_of (all_put source.old.publisher)).tree }
{
    let noise = noise(alloc, random)?;
    for _step in 0..steps {
        let wish = wish(alloc, random, &noise)?;
        source.publish(&wish)?;
        look_round(alloc, readers, random, source.version, digest)?;
    }
    Ok(())
}

/// Has four of the readers look.
fn look_round(
    alloc: Global,
    readers: &mut [Reader],
    random: &mut Random,
    version: u32,
    digest: &mut Digest,
) -> Result<(), Fault> {
    for _ in 0..4u32 {
        let path = file_path(alloc, random)?;
        let wanted = Wanted {
            path,
            seq: random.below(version.saturating_add(2).max(1)),
            directory: random.from(ROOT_INODE, DIRECTORIES),
            lists: random.once_in(100),
        };
        let at = random.below(READERS as u32) as usize;
        digest.add(look_once(readers, at, &wanted)?);
    }
    Ok(())
}

fn look_once(readers: &mut [Reader], at: usize, wanted: &Wanted) -> Result<u64, Fault> {
    let Some(reader) = readers.get_mut(at) else {
        return Err(Fault::Refused);
    };
    match reader.look(|view: &View| seen(view, wanted)) {
        Some(sum) => Ok(sum),
        None => Err(Fault::Refused),
    }
}

/// What a look is for.
#[derive(Drop)]
struct Wanted {
    path: Path,
    /// The number of a request.
    seq: u32,
    directory: u32,
    /// Whether the names of the directory are wanted too.
    lists: bool,
}

/// A wish for some file: mostly a write over it or at its end.
fn wish(alloc: Global, random: &mut Random, noise: &[u8]) -> Result<Wish, Fault> {
    let path = file_path(alloc, random)?;
    Ok(match random.below(20) {
        0 | 1 => Wish::Create(path),
        2 => Wish::Truncate {
            path,
            size: random.below(1000),
        },
        3 if random.once_in(4) => Wish::Remove(path),
        4 => Wish::Rename {
            from: path,
            to: file_path(alloc, random)?,
        },
        _ => {
            let offset = random.below(30).saturating_mul(64);
            let len = random.from(20, 180);
            Wish::Write {
                path,
                offset,
                bytes: copied(alloc, noisy(noise, random, len))?,
            }
        }
    })
}

/// What one look sees.
fn seen(view: &View, wanted: &Wanted) -> u64 {
    let mut digest = Digest::new();
    digest.add(view.answered());
    if let Some(outcome) = view.answer(1, wanted.seq) {
        digest.add_outcome(outcome);
    }
    if let Some(inode) = view.resolve(&wanted.path) {
        digest.add(u64::from(inode));
        digest.add_some(view.size(inode));
        let mut bytes = [0u8; 256];
        let count = view.read(inode, 128, &mut bytes);
        digest.add_bytes(bytes.get(..count).unwrap_or(&[]));
    }
    if wanted.lists {
        add_names(view, wanted.directory, &mut digest);
    }
    digest.number()
}

fn add_names(view: &View, directory: u32, digest: &mut Digest) {
    let Ok(names) = view.names(directory) else {
        return;
    };
    for (name, inode) in names.iter() {
        digest.add(u64::from(*inode));
        digest.add_bytes(name.bytes());
    }
}
