//! A publisher beside the tree of all that was put, which decides on wishes.
ghost use Rattle.std.specs.Prelude.{◌≡◌, IfOk};
ghost use Rattle.jffs_index.specs.Histories.{view_of};
ghost use Rattle.jffs_index.specs.Ends.{all_put, publisher_index};

use jffs_index::{Publisher, Step};
use jffs_tree::{Limits, Outcome, Tree, Wish};
use std::sync::Wait;
use std::test::Fail;

#[derive(Drop)]
pub(super) struct Source<W: Wait + Drop> {
    pub(super) publisher: Publisher<W>,
    pub(super) tree: Tree,
    pub(super) next_inode: u32,
    pub(super) next_version: u32,
}

impl<W: Wait + Drop> Source<W> {
    /// Puts a step. Where memory is refused it is put once more.
    fn put(&mut self, step: Step) -> Result<(), Fail>
        requires { self.old.tree ≡ (view_of (all_put self.old.publisher)).tree }
        ensures tree { IfOk result
            (λ _. self.new.tree ≡ (view_of (all_put self.new.publisher)).tree) }
        ensures index { publisher_index self.new.publisher ≡ publisher_index self.old.publisher }
    {
        if let Some(node) = &step.node {
            if !self.tree.can_apply(node) {
                return Err("a node that doesn't fit".into());
            }
            if self.tree.apply(node).is_err() {
                self.tree.apply(node)?;
            }
        }
        if let Err(step) = self.publisher.put(step) {
            self.publisher.put(step).map_err(|_| "a step came back")?;
        }
        Ok(())
    }

    /// Decides on a wish of writer 1, and puts the step of its node.
    pub(super) fn request(&mut self, wish: &Wish) -> Result<(), Fail>
        requires { self.old.tree ≡ (view_of (all_put self.old.publisher)).tree }
        ensures tree { IfOk result
            (λ _. self.new.tree ≡ (view_of (all_put self.new.publisher)).tree) }
        ensures index { publisher_index self.new.publisher ≡ publisher_index self.old.publisher }
    {
        let version = self.next_version;
        let limits = Limits {
            data_max: 192,
            next_inode: Some(self.next_inode),
            next_version: Some(version),
        };
        let node = self.tree.decide(limits, wish)?.with(version, 1, version);
        let inode = node.inode;
        self.put(Step {
            writer: 1,
            seq: version,
            outcome: Outcome::Appended { inode, version },
            node: Some(node),
        })?;
        self.next_version = version.saturating_add(1);
        if inode == self.next_inode {
            self.next_inode = inode.saturating_add(1);
        }
        Ok(())
    }

    /// Puts the step of an Unmount of a clean log.
    pub(super) fn unmount(&mut self) -> Result<(), Fail>
        requires { self.old.tree ≡ (view_of (all_put self.old.publisher)).tree }
        ensures tree { IfOk result
            (λ _. self.new.tree ≡ (view_of (all_put self.new.publisher)).tree) }
        ensures index { publisher_index self.new.publisher ≡ publisher_index self.old.publisher }
    {
        self.put(Step {
            writer: 10,
            seq: 1,
            outcome: Outcome::Closed,
            node: None,
        })
    }

    /// Publishes what was put. Where memory is refused a second call goes on.
    pub(super) fn publish(&mut self) -> Result<(), Fail>
        requires { self.old.tree ≡ (view_of (all_put self.old.publisher)).tree }
        ensures tree { self.new.tree ≡ (view_of (all_put self.new.publisher)).tree }
        ensures index { publisher_index self.new.publisher ≡ publisher_index self.old.publisher }
    {
        if self.publisher.publish().is_err() {
            self.publisher.publish()?;
        }
        Ok(())
    }
}
