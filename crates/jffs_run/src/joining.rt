//! Joining the writers and the readers.

ghost use Rattle.std.specs.Prelude.{◌≡◌, ◌⊎◌, List, map, true, false, None, IfSome, IsTrue};
ghost use Rattle.std.specs.Prelude.{vec_len};
ghost use Rattle.jffs_text.specs.declared.command.Command.{Command};
ghost use Rattle.jffs_text.specs.declared.script.Writer.{Writer};
ghost use Rattle.jffs_text.specs.declared.script.ReaderStatement.{ReaderStatement};
ghost use Rattle.jffs_index.specs.Ends.{index_of, known, published, publisher_index, told_of};
ghost use Rattle.jffs_index.specs.Ends.{told_index};
ghost use Rattle.jffs_index.specs.declared.rule.History.{History};
ghost use Rattle.jffs_index.specs.Histories.{view_of, BeginsWith};
ghost use Rattle.jffs_run.specs.Crew.{HasRoom};
ghost use Rattle.jffs_run.specs.Why.{IsOfThreads};
ghost use Rattle.jffs_run.specs.Ends.{EachFrom, HandedIn, HandedInAll, end_of};
ghost use Rattle.jffs_run.specs.Looking.{HasSeen, IsWhole};
ghost use Rattle.jffs_run.specs.Numbered.{Wrote};
ghost use Rattle.jffs_run.specs.Started.{HasWriting, IsCalm, IsStarted, IsLooking, end_given};

use crate::fault::RunWhy;
use crate::promise::{ReaderHandle, Writing};
use crate::reader::{ReaderEnd, ReaderStop};
use crate::writer::{Stop, WriterEnd};
use jffs_index::{Publisher, Reader, Told, View};
use jffs_line::Hand;
use std::sync::Wait;
use std::thread::Threads;

/// How the writers' threads stopped.
#[derive(Clone, Copy, Debug, PartialEq, Eq)]
pub(crate) struct Stops {
    /// A writer stopped since the log thread had ended.
    pub(crate) log_ended: bool,
    /// A writer didn't begin, since a thread could not be made.
    refused: bool,
    /// A writer found no memory for a wish.
    memory: bool,
    /// A writer's last number is used.
    spent: bool,
}

impl Stops {
    fn none() -> Stops {
        Stops {
            log_ended: false,
            refused: false,
            memory: false,
            spent: false,
        }
    }

    /// Takes in how one more writer stopped.
    fn note(&mut self, stop: Stop)
        ensures { self.new.log_ended ≡ false → IsCalm self.new
            → (self.old.log_ended ≡ false) × IsCalm self.old × (stop ≡ Stop.Done) }
    {
        match stop {
            Stop::Done => {}
            Stop::LogEnded => self.log_ended = true,
            Stop::Refused => self.refused = true,
            Stop::Memory => self.memory = true,
            Stop::Spent => self.spent = true,
        }
    }

    /// Why there is no run, if there is none: where all other threads could be made, the writers'
    /// ends say it.
    pub(crate) fn fault(&self, others_made: bool) -> Option<RunWhy>
        ensures none { result ≡ None → IsTrue others_made × IsCalm self.now }
        ensures why { IfSome result IsOfThreads }
    {
        if !others_made || self.refused {
            return Some(RunWhy::Spawn);
        }
        if self.memory {
            return Some(RunWhy::Memory);
        }
        if self.spent {
            return Some(RunWhy::Numbers);
        }
        None
    }
}

/// What the writers' threads gave back.
#[derive(Drop)]
pub(crate) struct Joined<H> {
    pub(crate) hands: Vec<H>,
    pub(crate) stops: Stops,
}

fn join_writer<'s, R: Threads, H: Hand + Send + 's>(rt: &R, writing: Writing<'s, H>) -> WriterEnd<H>
    ensures end { end_of H.Hand result.hand ≡ end_given H.Hand writing.entry }
    ensures wrote { (commands : List Command) → HasWriting H.Hand commands writing.entry
        → Wrote (H.sender result.hand) commands (H.accepted result.hand) result.stop }
{
    match writing {
        Writing::Thread(handle) => handle.join(rt),
        Writing::Refused(end) => end,
    }
}

/// Joins the writers' threads. Their hands go into `hands`.
pub(crate) fn join_writers<'s, R: Threads, H: Hand + Send + 's>(
    rt: &R,
    writing: Vec<Writing<'s, H>>,
    hands: Vec<H>,
) -> Joined<H>
    requires room { HasRoom (vec_len writing) hands }
    ensures ends { map (end_of H.Hand) result.hands.items
        ≡ map (end_given H.Hand) writing.entry.items }
    ensures handed_in { (script : List Writer)
        → EachFrom (IsStarted H.Hand script) 0 writing.entry.items
        → EachFrom (HandedIn H.Hand script) 0 result.hands.items }
    ensures whole { (script : List Writer)
        → EachFrom (IsStarted H.Hand script) 0 writing.entry.items
        → result.stops.log_ended ≡ false → IsCalm result.stops
        → EachFrom (HandedInAll H.Hand script) 0 result.hands.items }
{
    let mut hands = hands;
    let mut stops = Stops::none();
    for one in writing {
        let WriterEnd { hand, stop } = join_writer(rt, one);
        hands.push_reserved(hand);
        stops.note(stop);
    }
    Joined { hands, stops }
}

/// A last look, once nothing more is published. An end counts only where all answers were
/// published, and all of them are seen.
fn last_look(reader: Reader, told: Told, whole: bool, answered: u64, end: ReaderEnd) -> ReaderEnd
    requires index { told_index told ≡ index_of reader }
    requires whole { whole ≡ true → (view_of (told_of told)).answered ≡ answered }
    ensures { (result ≡ ReaderEnd.NotSeen)
        ⊎ ((result ≡ end) × BeginsWith (told_of told) (known reader)
        × ((view_of (told_of told)).answered ≡ answered)) }
{
    let mut reader = reader;
    reader.learn(told);
    let seen = reader.look(
        |view: &View| -> u64
            ensures { result ≡ view.now.answered }
        { view.answered() },
    );
    match seen {
        Some(seen) if whole && seen == answered => end,
        _ => ReaderEnd::NotSeen,
    }
}

/// Joins the readers' threads, whose ends go into `ends`. The log thread was joined, and gave so
/// many answers. Where not all of them were published, no reader saw them all.
pub(crate) fn join_readers<'s, R: Threads, W: Wait + Drop>(
    rt: &R,
    handles: Vec<ReaderHandle<'s>>,
    publisher: &Publisher<W>,
    answered: u64,
    ends: Vec<ReaderEnd>,
) -> Vec<ReaderEnd>
    requires room { HasRoom (vec_len handles) ends }
    requires started { (statements : List ReaderStatement)
        × EachFrom (IsLooking (publisher_index publisher.now) statements) 0 handles.items }
    ensures count { vec_len result ≡ vec_len handles.entry }
    ensures seen { (statements : List ReaderStatement) (history : History)
        → EachFrom (IsLooking (publisher_index publisher.now) statements) 0 handles.entry.items
        → IsWhole (published publisher.now) answered history
        → EachFrom (HasSeen history statements) 0 result.items }
{
    let whole = publisher.view().answered() == answered;
    let mut ends = ends;
    for handle in handles {
        let ReaderStop { reader, end } = handle.join(rt);
        ends.push_reserved(last_look(reader, publisher.tell(), whole, answered, end));
    }
    ends
}
