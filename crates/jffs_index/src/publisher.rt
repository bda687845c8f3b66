//! The publisher.
ghost use Rattle.std.specs.Prelude.{◌≡◌, ◌<◌, ◌^◌, ◌∷◌, ◌++◌, [], true, IfOk, OnOk, MatchResult};
ghost use Rattle.jffs_index.specs.Histories.{view_of, opening_of};
ghost use Rattle.jffs_index.specs.Shown.{after_step, fits};

use crate::inner::Inner;
use crate::reader::{Reader, Told};
use crate::step::Step;
use crate::view::View;
use jffs_node::NoMemory;
use jffs_tree::Tree;
use std::alloc::{AllocError, Global};
use std::sync::Wait;

/// The end of an index that adds steps and publishes them.
///
/// It keeps the runtime `R`, since its drop waits for the readers that look.
pub struct Publisher<R: Wait + Drop> {
    inner: Inner,
    rt: R,
}

impl<R: Wait + Drop> Drop for Publisher<R> {
    fn drop(self) {
        let Self { inner, rt } = self;
        inner.close(&rt);
    }
}

impl<R: Wait + Drop> Publisher<R> {
    ghost use Rattle.jffs_index.specs.Ends.{published, pending, all_put, publisher_index, told_of};
    ghost use Rattle.jffs_index.specs.Ends.{told_index, index_of, known};

    pub(crate) fn open(
        rt: R,
        alloc: Global,
        tree: Tree,
        readers: usize,
    ) -> Result<Publisher<R>, NoMemory>
        requires { (0 < readers) × (readers < 2 ^ 32) }
        ensures { IfOk result (λ p. (published p ≡ opening_of tree) × (pending p ≡ [])) }
    {
        let inner = Inner::open(&rt, alloc, tree, readers)?;
        Ok(Publisher { inner, rt })
    }

    /// A reader that knows what is published.
    pub(crate) fn reader(&mut self) -> Result<Reader, AllocError>
        ensures same { (published self.new ≡ published self.old)
            × (pending self.new ≡ pending self.old)
            × (publisher_index self.new ≡ publisher_index self.old) }
        ensures reader { IfOk result
            (λ r. (index_of r ≡ publisher_index self.old) × (known r ≡ published self.old)) }
    {
        self.inner.reader()
    }

    /// Adds a step at the end of the pending ones. Precondition: its node, if it has one, may be
    /// applied after all steps put ([`View::fits`] of the view that they make).
    ///
    /// If allocation failed the step comes back, and nothing is changed.
    pub fn put(&mut self, step: Step) -> Result<(), Step>
        requires { fits (view_of (all_put self.old)) step ≡ true }
        ensures published { (published self.new ≡ published self.old)
            × (publisher_index self.new ≡ publisher_index self.old) }
        ensures pending { MatchResult result (λ _. pending self.new ≡ pending self.old ++ step ∷ [])
            (λ back. (back ≡ step) × (pending self.new ≡ pending self.old)) }
        ensures view { OnOk result
            (view_of (all_put self.new) ≡ after_step (view_of (all_put self.old)) step) }
    {
        self.inner.put(step)
    }

    /// Publishes all pending steps at once. It waits for readers that still look at what was
    /// published before the last call.
    ///
    /// `NoMemory` if allocation failed: readers see what they saw, and the steps are still pending.
    pub fn publish(&mut self) -> Result<(), NoMemory>
        ensures index { publisher_index self.new ≡ publisher_index self.old }
        ensures published { MatchResult result
            (λ _. (published self.new ≡ all_put self.old) × (pending self.new ≡ []))
            (λ _. (published self.new ≡ published self.old)
            × (pending self.new ≡ pending self.old)) }
        ensures all { all_put self.new ≡ all_put self.old }
    {
        self.inner.publish(&self.rt)
    }

    /// What readers look at now. Takes no memory.
    pub fn view(&self) -> &View
        ensures { result.now ≡ view_of (published self.now) }
    {
        self.inner.view()
    }

    /// What is published now, for a reader of this index to learn. Takes no memory.
    pub fn tell(&self) -> Told
        ensures { (told_of result ≡ published self.now)
            × (told_index result ≡ publisher_index self.now) }
    {
        self.inner.tell()
    }
}
