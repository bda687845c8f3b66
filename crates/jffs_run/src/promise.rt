//! What each thread of a run owns, what it gives back, and what it promises of that.

ghost use Rattle.std.specs.Prelude.{◌≡◌};

use crate::reader::ReaderStop;
use crate::writer::WriterEnd;
use jffs_flash::Flash;
use jffs_index::{Publisher, Reader};
use jffs_line::{Hand, Taker};
use jffs_serve::{JobEnd, Jobs, Served, Session};
use jffs_text::{Command, ReaderStatement};
use std::snapshot::Snapshot;
use std::sync::Wait;
use std::thread::{Promise, PromisedHandle};

/// What a writer's thread promises: its hand handed in the first of its commands, and all of them
/// where it came to its end.
#[derive(Drop)]
pub(crate) struct Writes<'a, H: Hand> {
    pub(crate) hand: Snapshot<H>,
    pub(crate) commands: &'a [Command<'a>],
}

impl<'a, H: Hand> Promise<WriterEnd<H>> for Writes<'a, H> {
    ghost use Rattle.jffs_run.specs.Numbered.{Wrote};

    ghost kept_by = { λ p r.
        (H.sender r.hand ≡ H.sender p.hand.value) × (H.line r.hand ≡ H.line p.hand.value)
        × Wrote (H.sender p.hand.value) p.commands.now (H.accepted r.hand) r.stop };
}

/// A writer: its thread, or what it gave back at once where no thread could be made.
#[derive(Drop)]
pub(crate) enum Writing<'a, H: Hand> {
    Thread(PromisedHandle<WriterEnd<H>, Writes<'a, H>>),
    Refused(WriterEnd<H>),
}

/// What a reader's thread promises: its end fits the last view that it looked at.
#[derive(Drop)]
pub(crate) struct Looks<'a> {
    pub(crate) reader: Snapshot<Reader>,
    pub(crate) statement: &'a ReaderStatement,
}

impl<'a> Promise<ReaderStop> for Looks<'a> {
    ghost use Rattle.jffs_index.specs.Ends.{index_of, known};
    ghost use Rattle.jffs_index.specs.Histories.{view_of};
    ghost use Rattle.jffs_run.specs.Looking.{FitsView};

    ghost kept_by = { λ p r.
        (index_of r.reader ≡ index_of p.reader.value)
        × FitsView (view_of (known r.reader)) p.statement.now r.end };
}

/// A reader's thread.
pub(crate) type ReaderHandle<'a> = PromisedHandle<ReaderStop, Looks<'a>>;

/// All that the cleaner owns.
#[derive(Drop)]
pub(crate) struct Cleaner<H: Hand> {
    pub(crate) hand: H,
    pub(crate) reader: Reader,
    pub(crate) jobs: JobEnd,
}

/// What the cleaner's thread promises: its hand asked for copies alone.
#[derive(Drop)]
pub(crate) struct PromisesCopies<H: Hand> {
    pub(crate) hand: Snapshot<H>,
}

impl<H: Hand> Promise<Cleaner<H>> for PromisesCopies<H> {
    ghost use Rattle.jffs_run.specs.Ends.{AreCopies};

    ghost kept_by = { λ p r.
        (H.sender r.hand ≡ H.sender p.hand.value) × (H.line r.hand ≡ H.line p.hand.value)
        × AreCopies (H.accepted r.hand) };
}

/// The cleaner in a thread of its own; or its hand, where the script asks for none, or where no
/// thread could be made.
#[derive(Drop)]
pub(crate) enum Cleaning<H: Hand> {
    Thread(PromisedHandle<Cleaner<H>, PromisesCopies<H>>),
    Rest(H),
    Refused(H),
}

impl<H: Hand> Cleaning<H> {
    /// Whether its thread could not be made.
    pub(crate) fn is_refused(&self) -> bool {
        matches!(self, Cleaning::Refused(_))
    }
}

/// All that the log thread owns.
#[derive(Drop)]
pub(crate) struct LogSide<F: Flash, T: Taker, W: Wait + Drop> {
    pub(crate) session: Session<F>,
    pub(crate) taker: T,
    pub(crate) publisher: Publisher<W>,
    pub(crate) jobs: Jobs,
}

/// What the log thread gives back.
#[derive(Drop)]
pub(crate) struct LogEnd<F: Flash, T: Taker, W: Wait + Drop> {
    pub(crate) side: LogSide<F, T, W>,
    pub(crate) served: Served,
}

/// What the log thread promises: it answered more requests, each once, and sent the answers out.
#[derive(Drop)]
pub(crate) struct Serves<F: Flash, T: Taker, W: Wait + Drop> {
    pub(crate) side: Snapshot<LogSide<F, T, W>>,
}

impl<F: Flash, T: Taker, W: Wait + Drop> Promise<LogEnd<F, T, W>> for Serves<F, T, W> {
    ghost use Rattle.jffs_serve.specs.Serving.{HasServed};

    ghost kept_by = { λ p r.
        (T.ends r.side.taker ≡ T.ends p.side.value.taker)
        × HasServed p.side.value.session p.side.value.publisher (T.taken p.side.value.taker)
        r.side.session r.side.publisher (T.taken r.side.taker) r.served };
}

/// The log thread.
pub(crate) type LogHandle<F, T, W> = PromisedHandle<LogEnd<F, T, W>, Serves<F, T, W>>;
