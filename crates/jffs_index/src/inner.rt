//! The one writer, which has to be closed.
ghost use Rattle.std.specs.Prelude.{◌≡◌, ◌<◌, ◌^◌, ◌++◌, ◌∷◌, [], true, IfOk, OnOk, MatchResult};
ghost use Rattle.jffs_index.specs.Shown.{opened, after_step, fits};

use crate::page::{Change, Page};
use crate::reader::{Reader, Told};
use crate::rule::{
    Adding, Batch, Counted, Fixed, Head, Index, Nothing, Opened, Published, Reached, Seeing,
    Telling,
};
use crate::sight::Sight;
use crate::step::{BoxedStep, Step};
use crate::view::View;
use core::mem::replace_with;
use jffs_node::NoMemory;
use jffs_tree::Tree;
use left_right::writer::Writer;
use logbook::{Offer, Seen, Start, Word};
use std::alloc::{AllocError, Global};
use std::marker::{Brand, Model};
use std::sync::Wait;

type IndexWriter = Writer<Page, Change, Option<Index>, Published>;

/// The one writer of an index. It is not `Drop`: it is ended by [`close`](Inner::close).
pub struct Inner {
    alloc: Global,
    writer: IndexWriter,
    head: Head,
    // The history, with the number of its steps. It lacks the last of those that were put.
    seen: Reached,
    logged: u64,
    put: u64,
}

impl Model for Inner {
    ghost use Rattle.std.specs.Prelude.{drop};
    ghost use Rattle.left_right.specs.Sides.{view as known_at};
    ghost use Rattle.jffs_index.specs.Writing.{Held, held, IsInStep};

    ghost Value = { Held };

    ghost view = { λ p. held p.writer.desk.shown.value (drop p.writer.behind p.writer.log.items)
        p.seen.log };

    ghost invariant = { λ p.
        IsInStep p.writer.desk.shown.value (drop p.writer.behind p.writer.log.items) p.seen.book
        p.seen.log (known_at p.writer.desk.place) p.head p.logged p.put };
}

fn first_page(alloc: Global, tree: Tree, seen: Reached, opening: Opened) -> Page
    ensures { (result.view ≡ opened tree) × (result.seen ≡ seen) × (result.opening ≡ opening) }
{
    Page {
        view: View::new(alloc, tree),
        seen,
        opening,
    }
}

impl Inner {
    ghost use Rattle.jffs_index.specs.Histories.{view_of, opening_of};
    ghost use Rattle.jffs_index.specs.Writing.{all_put};
    ghost use Rattle.jffs_index.specs.Ends.{told_of, told_index, index_of, known};

    /// Opens an index over a tree, which readers see without answers. Precondition: at least one
    /// reader, and fewer than 2^32.
    ///
    /// `NoMemory` if allocation failed: the tree is gone.
    pub fn open<R: Wait>(
        rt: &R,
        alloc: Global,
        tree: Tree,
        readers: usize,
    ) -> Result<Inner, NoMemory>
        requires { (0 < readers) × (readers < 2 ^ 32) }
        ensures { IfOk result (λ p. (p.published ≡ opening_of tree) × (p.pending ≡ [])) }
    {
        let (seen, mut first, _second) = Seen::open(Start::alone(), 0, 0);
        let head = Word::tracked(0, &mut first);
        let (opening, _rights) = Seen::open_row::<Tree, Fixed>(&tree, Start::alone(), 0);
        let spare = first_page(alloc, tree.copy_tree()?, seen.again(), opening.again());
        let shown = first_page(alloc, tree, seen.again(), opening);
        let writer: IndexWriter = Writer::new(alloc, shown, spare, readers)?;
        match writer.publish_as::<Seeing, R>(rt) {
            (writer, Ok(())) => Ok(Inner {
                alloc,
                writer,
                head,
                seen,
                logged: 0,
                put: 0,
            }),
            (writer, Err(_)) => {
                drop(writer.take(rt));
                Err(NoMemory)
            }
        }
    }

    /// A reader that knows what is published.
    ///
    /// `AllocError` if its slot could not be had: nothing is changed.
    pub fn reader(&mut self) -> Result<Reader, AllocError>
        ensures same { self.new ≡ self.old }
        ensures reader { IfOk result
            (λ r. (index_of r ≡ self.old.index) × (known r ≡ self.old.published)) }
    {
        let mut seat = self.writer.factory().reader()?;
        seat.learn::<Telling>(self.writer.tell::<Telling>());
        Ok(Reader {
            seat,
            sight: Sight::of(self.writer.published()),
        })
    }

    /// Adds a step at the end of the pending ones. Precondition: its node, if it has one, may be
    /// applied after all steps put.
    ///
    /// If allocation failed the step comes back, and nothing is changed.
    pub fn put(&mut self, step: Step) -> Result<(), Step>
        requires { fits (view_of (all_put self.old)) step ≡ true }
        ensures published { (self.new.published ≡ self.old.published)
            × (self.new.index ≡ self.old.index) }
        ensures pending { MatchResult result (λ _. self.new.pending ≡ self.old.pending ++ step ∷ [])
            (λ back. (back ≡ step) × (self.new.pending ≡ self.old.pending)) }
        ensures view { OnOk result
            (view_of (all_put self.new) ≡ after_step (view_of (all_put self.old)) step) }
    {
        let Some(put) = self.put.checked_add(1) else {
            return Err(step);
        };
        let boxed = BoxedStep::new(self.alloc, step)?;
        match self.writer.append(Change::Put(boxed)) {
            Ok(()) => {
                self.put = put;
                Ok(())
            }
            Err(Change::Put(boxed)) => Err(boxed.into_step()),
            Err(Change::Reach(_)) => unreachable!(),
        }
    }

    /// Publishes all pending steps at once.
    ///
    /// `NoMemory` if allocation failed: nothing is published, and the steps are still pending.
    pub fn publish<R: Wait>(&mut self, rt: &R) -> Result<(), NoMemory>
        ensures index { self.new.index ≡ self.old.index }
        ensures published { MatchResult result
            (λ _. (self.new.published ≡ all_put self.old) × (self.new.pending ≡ []))
            (λ _. (self.new.published ≡ self.old.published)
            × (self.new.pending ≡ self.old.pending)) }
    {
        self.log_batch::<Brand>()?;
        self.publish_logged(rt)
    }

    // Adds all that the history lacks to it.
    fn log_batch<B: Batch>(&mut self) -> Result<(), NoMemory>
        requires { B.batch ≡ self.old.unlogged }
        ensures same { (self.new.index ≡ self.old.index) × (self.new.published ≡ self.old.published)
            × (self.new.pending ≡ self.old.pending) }
        ensures all { OnOk result (self.new.unlogged ≡ []) }
    {
        let mut seen = self.seen.again();
        let mut offer: Offer<Step, u64, Counted, Nothing> = seen.plain::<Nothing, (), Adding<B>>(
            &(),
        );
        let mut pen = seen.no_pen();
        let found = self
            .head
            .compare_exchange::<Adding<B>, Nothing>(
                self.logged,
                self.put,
                &mut seen,
                &mut offer,
                &mut pen,
            );
        // No other thread has the word.
        if found != self.logged {
            return Err(NoMemory);
        }
        self.seen = seen;
        self.logged = self.put;
        Ok(())
    }

    fn publish_logged<R: Wait>(&mut self, rt: &R) -> Result<(), NoMemory>
        requires { self.old.unlogged ≡ [] }
        ensures index { self.new.index ≡ self.old.index }
        ensures published { MatchResult result
            (λ _. (self.new.published ≡ all_put self.old) × (self.new.pending ≡ []))
            (λ _. (self.new.published ≡ self.old.published)
            × (self.new.pending ≡ self.old.pending)) }
    {
        let Ok(()) = self.writer.append(Change::Reach(self.seen.again())) else {
            return Err(NoMemory);
        };
        match replace_with(&mut self.writer, rt, IndexWriter::publish_as::<Seeing, R>) {
            Ok(()) => Ok(()),
            Err(_) => Err(NoMemory),
        }
    }

    /// What readers look at now. Takes no memory.
    pub fn view(&self) -> &View
        ensures { result.now ≡ view_of self.now.published }
    {
        &self.writer.published().view
    }

    /// What is published now, for a reader to learn. Takes no memory.
    pub fn tell(&self) -> Told
        ensures { (told_of result ≡ self.now.published) × (told_index result ≡ self.now.index) }
    {
        Told {
            sight: Sight::of(self.writer.published()),
        }
    }

    /// Ends the index, once no reader is inside: a look is `None` from now on.
    pub fn close<R: Wait>(self, rt: &R) {
        let Inner {
            alloc: _,
            writer,
            head: _head,
            seen: _seen,
            logged: _,
            put: _,
        } = self;
        drop(writer.take(rt));
    }
}
