//! Looks at a published index, and what a publish costs.

ghost use Rattle.std.specs.Prelude.{◌≡◌, IfOk};
ghost use Rattle.jffs_index.specs.Histories.{view_of};
ghost use Rattle.jffs_index.specs.Ends.{all_put};

use crate::fault::Fault;
use crate::measure::Measure;
use crate::volume::{WRITE_LEN, create, write};
use jffs_index::{Publisher, Reader, Step, publish_index};
use jffs_node::{Node, Path, copied};
use jffs_tree::{Cause, Limits, Outcome, Tree, Wish};
use std::alloc::Global;
use std::io::Write;
use std::sync::Wait;
use std::sync::atomic::{AtomicU64, Ordering};
use std::thread;
use std::thread::Threads;
use std::time::{Clock, Instant};

/// Looks of 1 and of 4 readers while steps are published one by one, and publishes on trees of two
/// sizes.
pub(crate) fn measure_looks<R: Threads + Wait + Sync + Clock, W: Write + Drop>(
    rt: &R,
    alloc: Global,
    measure: &mut Measure<W>,
) -> Result<(), Fault> {
    measure.title("1 reader")?;
    measure_readers(rt, alloc, measure, 1)?;
    measure.title("4 readers")?;
    measure_readers(rt, alloc, measure, 4)?;
    measure.title("1 reader, of a tree")?;
    let mut small = Tree::new(alloc);
    fill(alloc, &mut small, 1)?;
    measure_publishes(rt, alloc, measure, &small, "steps on a file of 192 bytes")?;
    let mut large = Tree::new(alloc);
    fill(alloc, &mut large, measure.scale.times(5400))?;
    measure_publishes(rt, alloc, measure, &large, "steps on a file of 1 MiB")
}

fn measure_readers<R: Threads + Wait + Sync + Clock, W: Write + Drop>(
    rt: &R,
    alloc: Global,
    measure: &mut Measure<W>,
    readers: usize,
) -> Result<(), Fault> {
    let steps = measure.scale.times(10_000);
    let (publisher, ends) = publish_index(rt, alloc, Tree::new(alloc), readers)?;
    let start = Instant::now(rt)?;
    let looks = look_beside(rt, publisher, ends, steps)?;
    measure.line(rt, "steps published one by one", u64::from(steps), start)?;
    measure.varying("looks beside that", looks)
}

/// How often the readers looked in threads of their own while `steps` steps were published.
fn look_beside<R: Threads + Wait + Sync>(
    rt: &R,
    publisher: Publisher<&R>,
    readers: Vec<Reader>,
    steps: u32,
) -> Result<u64, Fault> {
    let looks = AtomicU64::new(0);
    let counter = &looks;
    thread::scope(thread::scope_env(), rt, |scope| {
        for reader in readers {
            if scope.spawn(move || count_looks(reader, counter)).is_err() {
                return Err(Fault::Thread);
            }
        }
        publish_refusals(publisher, steps)
    })?;
    Ok(looks.load(Ordering::SeqCst))
}

/// Looks until there is no publisher.
fn count_looks(reader: Reader, counter: &AtomicU64) {
    let mut reader = reader;
    for looks in 0..u64::MAX {
        if reader.look(|view| view.answered()).is_none() {
            counter.fetch_add(looks, Ordering::SeqCst);
            return;
        }
    }
}

/// Publishes `steps` steps without nodes.
fn publish_refusals<P: Wait + Drop>(publisher: Publisher<P>, steps: u32) -> Result<(), Fault> {
    let mut publisher = publisher;
    for seq in 0..steps {
        let step = Step {
            writer: 1,
            seq,
            outcome: Outcome::Refused(Cause::NotFound),
            node: None,
        };
        if publisher.put(step).is_err() {
            return Err(Fault::Memory);
        }
        publisher.publish()?;
    }
    Ok(())
}

/// A tree with `/f`, to which `writes` writes were appended, and with the empty `/g`.
fn fill(alloc: Global, tree: &mut Tree, writes: u32) -> Result<(), Fault> {
    grant(tree, &create(alloc, "/f")?, 1)?;
    grant(tree, &create(alloc, "/g")?, 2)?;
    for number in 0..writes {
        let wish = write(alloc, number.saturating_mul(WRITE_LEN))?;
        grant(tree, &wish, number.saturating_add(3))?;
    }
    Ok(())
}

/// The node of a wish that is decided on.
fn decide(tree: &Tree, wish: &Wish, version: u32) -> Result<Node, Fault> {
    let limits = Limits {
        data_max: WRITE_LEN,
        next_inode: Some(version.saturating_add(1)),
        next_version: Some(version),
    };
    Ok(tree.decide(limits, wish)?.with(version, 1, version))
}

fn grant(tree: &mut Tree, wish: &Wish, version: u32) -> Result<(), Fault> {
    let node = decide(tree, wish, version)?;
    if !tree.can_apply(&node) {
        return Err(Fault::Refused);
    }
    tree.apply(&node)?;
    Ok(())
}

/// A publisher beside the tree of all that was put.
#[derive(Drop)]
struct Source<P: Wait + Drop> {
    publisher: Publisher<P>,
    tree: Tree,
}

impl<P: Wait + Drop> Source<P> {
    /// Publishes the node of a wish.
    fn publish(&mut self, wish: &Wish, version: u32) -> Result<(), Fault>
        requires { self.old.tree ≡ (view_of (all_put self.old.publisher)).tree }
        ensures { IfOk result (λ _. self.new.tree ≡ (view_of (all_put self.new.publisher)).tree) }
    {
        let node = decide(&self.tree, wish, version)?;
        if !self.tree.can_apply(&node) {
            return Err(Fault::Refused);
        }
        self.tree.apply(&node)?;
        let step = Step {
            writer: 1,
            seq: version,
            outcome: Outcome::Appended {
                inode: node.inode,
                version,
            },
            node: Some(node),
        };
        if self.publisher.put(step).is_err() {
            return Err(Fault::Memory);
        }
        self.publisher.publish()?;
        Ok(())
    }
}

/// A version above those of the tree.
const FIRST_VERSION: u32 = 10_000;

/// Publishes the same write to `/g` again and again.
fn measure_publishes<R: Wait + Clock, W: Write + Drop>(
    rt: &R,
    alloc: Global,
    measure: &mut Measure<W>,
    tree: &Tree,
    what: &str,
) -> Result<(), Fault> {
    let steps = measure.scale.times(10_000);
    let (publisher, _readers) = publish_index(rt, alloc, tree.copy_tree()?, 1)?;
    let mut source = Source {
        publisher,
        tree: tree.copy_tree()?,
    };
    let wish = Wish::Write {
        path: Path::parse(alloc, "/g")?,
        offset: 0,
        bytes: copied(alloc, b"g")?,
    };
    let start = Instant::now(rt)?;
    for step in 0..steps {
        source.publish(&wish, FIRST_VERSION.saturating_add(step))?;
    }
    measure.line(rt, what, u64::from(steps), start)
}
