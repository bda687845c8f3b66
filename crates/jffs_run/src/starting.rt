//! Starting the writers and the readers.

ghost use Rattle.std.specs.Prelude.{◌≡◌, ◌≤◌, [], length, map, IfSome, IsTrue, vec_len};
ghost use Rattle.std.specs.List.{All};
ghost use Rattle.jffs_index.specs.declared.rule.Index.{Index};
ghost use Rattle.jffs_index.specs.Ends.{index_of, known};
ghost use Rattle.jffs_index.specs.Histories.{view_of};
ghost use Rattle.jffs_run.specs.Numbered.{Wrote};
ghost use Rattle.jffs_run.specs.Looking.{FitsView};
ghost use Rattle.jffs_run.specs.Crew.{AreNew, HasRoom};
ghost use Rattle.jffs_run.specs.Ends.{EachFrom, end_of};
ghost use Rattle.jffs_run.specs.Started.{HasWriting, IsStarted, IsLooking, end_given};

use crate::promise::{Looks, ReaderHandle, Writes, Writing};
use crate::reader::{ReaderStop, run_reader};
use crate::signals::Signals;
use crate::writer::{Gate, WriterEnd, begin_writer};
use jffs_index::Reader;
use jffs_line::Hand;
use jffs_text::{Command, ReaderStatement, Writer};
use std::alloc::Global;
use std::snapshot::Snapshot;
use std::sync::Wait;
use std::thread::Scope;

/// The readers' threads that were started, and whether all of them could be.
#[derive(Drop)]
pub(crate) struct Looking<'s> {
    pub(crate) handles: Vec<ReaderHandle<'s>>,
    pub(crate) all: bool,
}

fn start_writer<'s, E, R: Wait + Sync, H: Hand + Send + 's, G: Gate + Sync>(
    rt: &'s R,
    scope: &'s Scope<'s, E>,
    alloc: Global,
    number: u16,
    hand: H,
    commands: &'s [Command<'s>],
    gate: &'s G,
    signals: &'s Signals,
) -> Writing<'s, H>
    requires fresh { H.accepted hand ≡ [] }
    ensures end { end_given H.Hand result ≡ end_of H.Hand hand }
    ensures writes { HasWriting H.Hand commands.entry.now result }
{
    let promise = Writes {
        hand: Snapshot::of(&hand),
        commands,
    };
    let started = scope.spawn_with(
        promise,
        move || -> WriterEnd<H>
            requires { H.accepted hand ≡ [] }
            ensures { (H.sender result.hand ≡ H.sender hand) × (H.line result.hand ≡ H.line hand)
                × Wrote (H.sender hand) commands.entry.now (H.accepted result.hand) result.stop }
        { begin_writer(rt, alloc, number, hand, commands, gate, signals) },
    );
    match started {
        Ok(handle) => Writing::Thread(handle),
        Err(refused) => {
            signals.refuse();
            Writing::Refused((refused.value)())
        }
    }
}

/// Starts a thread for each writer. Once one can't be made, no writer begins that hasn't begun.
pub(crate) fn start_writers<'s, E, R: Wait + Sync, H: Hand + Send + 's, G: Gate + Sync>(
    rt: &'s R,
    scope: &'s Scope<'s, E>,
    alloc: Global,
    writing: Vec<Writing<'s, H>>,
    hands: Vec<H>,
    writers: &'s [Writer<'s>],
    gate: &'s G,
    signals: &'s Signals,
) -> Vec<Writing<'s, H>>
    requires room { HasRoom (vec_len hands) writing }
    requires hands { AreNew H.Hand (length writers.now) hands }
    ensures started { EachFrom (IsStarted H.Hand writers.entry.now) 0 result.items }
    ensures count { vec_len result ≡ vec_len hands }
    ensures ends { map (end_given H.Hand) result.items ≡ map (end_of H.Hand) hands.items }
{
    let mut writing = writing;
    let mut number = 0;
    for hand in hands {
        let commands = writers[writing.len()].commands.as_slice();
        number += 1;
        writing.push_reserved(start_writer(
            rt, scope, alloc, number, hand, commands, gate, signals,
        ));
    }
    writing
}

fn start_reader<'s, E, R: Wait + Sync>(
    rt: &'s R,
    scope: &'s Scope<'s, E>,
    alloc: Global,
    reader: Reader,
    statement: &'s ReaderStatement,
    signals: &'s Signals,
) -> Option<ReaderHandle<'s>>
    ensures { IfSome result
        (λ handle. (handle.promise.reader.value ≡ reader)
        × (handle.promise.statement.now ≡ statement.entry.now)) }
{
    let promise = Looks {
        reader: Snapshot::of(&reader),
        statement,
    };
    let started = scope.spawn_with(
        promise,
        move || -> ReaderStop
            ensures { (index_of result.reader ≡ index_of reader)
                × FitsView (view_of (known result.reader)) statement.entry.now result.end }
        { run_reader(rt, alloc, reader, statement, &signals.ended) },
    );
    if started.is_err() {
        signals.refuse();
    }
    started.ok()
}

/// Starts a thread for each reader, as far as threads can be made.
pub(crate) fn start_readers<'s, E, R: Wait + Sync>(
    rt: &'s R,
    scope: &'s Scope<'s, E>,
    alloc: Global,
    handles: Vec<ReaderHandle<'s>>,
    readers: Vec<Reader>,
    statements: &'s [ReaderStatement],
    signals: &'s Signals,
) -> Looking<'s>
    requires room { HasRoom (vec_len readers) handles }
    requires count { vec_len readers ≡ length statements.now }
    ensures started { (index : Index) → All (λ reader. index_of reader ≡ index) readers.items
        → EachFrom (IsLooking index statements.entry.now) 0 result.handles.items }
    ensures count { vec_len result.handles ≤ vec_len readers }
    ensures all { IsTrue result.all → vec_len result.handles ≡ vec_len readers }
{
    let mut handles = handles;
    for reader in readers {
        let statement = &statements[handles.len()];
        let Some(handle) = start_reader(rt, scope, alloc, reader, statement, signals) else {
            return Looking {
                handles,
                all: false,
            };
        };
        handles.push_reserved(handle);
    }
    Looking { handles, all: true }
}
