//! A writer's thread: it hands in its commands one after another, and waits for no answer.

ghost use Rattle.std.specs.Prelude.{◌≡◌, ◌≢◌, ◌+◌, ◌∷◌, ◌++◌, [], length};
ghost use Rattle.jffs_line.specs.Requests.{request};
ghost use Rattle.jffs_run.specs.Numbered.{Wrote};

use crate::signals::Signals;
use jffs_line::{Hand, NotTaken, Why};
use jffs_serve::{Ended, Pauses};
use jffs_text::Command;
use jffs_tree::Wish;
use std::alloc::Global;
use std::sync::Wait;

/// The longest sleep at a full line, in microseconds.
const SLEEP_MAX: u64 = 10_000;

/// Is called for each wish before it is offered.
pub trait Gate {
    /// A writer's thread calls this once for every wish, before it first offers it. `seq` is the
    /// number that the line will give to the wish.
    fn before(&self, writer: u16, seq: u32);
}

/// A gate that does nothing.
#[derive(Clone, Copy, Debug)]
pub struct NoGate;

impl Gate for NoGate {
    fn before(&self, _writer: u16, _seq: u32) {}
}

/// How a writer's thread came to its end.
#[derive(Clone, Copy, Debug, PartialEq, Eq)]
pub(crate) enum Stop {
    /// All its wishes were accepted.
    Done,
    /// The log thread had ended.
    LogEnded,
    /// A wish found no memory.
    Memory,
    /// The writer's last number is used.
    Spent,
    /// A thread could not be made before it began.
    Refused,
}

/// What a writer's thread gives back.
#[derive(Drop)]
pub(crate) struct WriterEnd<H> {
    pub(crate) hand: H,
    pub(crate) stop: Stop,
}

/// What became of an offer that was made again and again.
#[derive(Clone, Copy, Debug, PartialEq, Eq)]
pub(crate) enum Offered {
    Accepted,
    LogEnded,
    Spent,
}

/// Offers a wish again and again, until the line takes it or the log thread is gone.
pub(crate) fn offer_until<R: Wait, H: Hand>(
    rt: &R,
    hand: &mut H,
    wish: Wish,
    ended: &Ended,
) -> Offered
    ensures end { (H.sender hand.new ≡ H.sender hand.old) × (H.line hand.new ≡ H.line hand.old) }
    ensures accepted { result ≡ Offered.Accepted
        → H.accepted hand.new
        ≡ H.accepted hand.old
        ++ request (H.sender hand.old) (length (H.accepted hand.old) + 1) wish ∷ [] }
    ensures refused { result ≢ Offered.Accepted → H.accepted hand.new ≡ H.accepted hand.old }
{
    let mut pauses = Pauses::up_to(SLEEP_MAX);
    let mut wish = wish;
    for _ in rt.forever() {
        match hand.offer(rt, wish) {
            Ok(_) => return Offered::Accepted,
            Err(
                NotTaken {
                    why: Why::Spent,
                    ..
                },
            ) => return Offered::Spent,
            Err(NotTaken { wish: back, .. }) => wish = back,
        }
        if ended.is_told() {
            return Offered::LogEnded;
        }
        pauses.pause(rt, ended);
    }
    unreachable!()
}

/// A writer's thread. Where a thread could not be made, it gives the hand back as it is.
pub(crate) fn begin_writer<R: Wait, H: Hand, G: Gate>(
    rt: &R,
    alloc: Global,
    number: u16,
    hand: H,
    commands: &[Command<'_>],
    gate: &G,
    signals: &Signals,
) -> WriterEnd<H>
    requires fresh { H.accepted hand ≡ [] }
    ensures end { (H.sender result.hand ≡ H.sender hand) × (H.line result.hand ≡ H.line hand) }
    ensures wrote { Wrote (H.sender hand) commands.now (H.accepted result.hand) result.stop }
{
    if signals.is_refused() {
        return WriterEnd {
            hand,
            stop: Stop::Refused,
        };
    }
    run_writer(rt, alloc, number, hand, commands, gate, &signals.ended)
}

/// Hands a writer's commands in, each once the one before it was accepted.
fn run_writer<R: Wait, H: Hand, G: Gate>(
    rt: &R,
    alloc: Global,
    number: u16,
    hand: H,
    commands: &[Command<'_>],
    gate: &G,
    ended: &Ended,
) -> WriterEnd<H>
    requires fresh { H.accepted hand ≡ [] }
    ensures end { (H.sender result.hand ≡ H.sender hand) × (H.line result.hand ≡ H.line hand) }
    ensures wrote { Wrote (H.sender hand) commands.now (H.accepted result.hand) result.stop }
{
    let mut hand = hand;
    let mut seq = 0u32;
    for command in commands {
        let Ok(wish) = command.wish(alloc) else {
            return WriterEnd {
                hand,
                stop: Stop::Memory,
            };
        };
        seq = seq.saturating_add(1);
        gate.before(number, seq);
        let stop = match offer_until(rt, &mut hand, wish, ended) {
            Offered::Accepted => continue,
            Offered::LogEnded => Stop::LogEnded,
            Offered::Spent => Stop::Spent,
        };
        return WriterEnd { hand, stop };
    }
    WriterEnd {
        hand,
        stop: Stop::Done,
    }
}
