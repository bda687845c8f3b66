//! The cleaner's thread, where the script asks for one.

ghost use Rattle.std.specs.Prelude.{◌≡◌, ℕ, [], Option};
ghost use Rattle.jffs_run.specs.Ends.{AreCopies, AskForCopies};
ghost use Rattle.jffs_run.specs.Started.{IsCleaning};

use crate::promise::{Cleaner, Cleaning, PromisesCopies};
use crate::signals::Signals;
use jffs_line::Hand;
use jffs_serve::clean_until;
use std::alloc::Global;
use std::snapshot::Snapshot;
use std::sync::Wait;
use std::thread::{Scope, Threads};

// Where a thread could not be made, it gives all back as it is.
fn run_cleaner<R: Wait, H: Hand>(
    rt: &R,
    alloc: Global,
    cleaner: Cleaner<H>,
    rounds: u32,
    signals: &Signals,
) -> Cleaner<H>
    requires fresh { H.accepted cleaner.hand ≡ [] }
    ensures end { (H.sender result.hand ≡ H.sender cleaner.hand)
        × (H.line result.hand ≡ H.line cleaner.hand) }
    ensures copies { AreCopies (H.accepted result.hand) }
{
    if signals.is_refused() {
        return cleaner;
    }
    let Cleaner {
        mut hand,
        mut reader,
        mut jobs,
    } = cleaner;
    clean_until(
        rt,
        alloc,
        &mut jobs,
        &mut reader,
        &mut hand,
        rounds,
        &signals.ended,
    );
    Cleaner { hand, reader, jobs }
}

/// Starts the cleaner where the script gives it rounds.
pub(crate) fn start_cleaner<'s, E, R: Wait + Sync, H: Hand + Send + 's>(
    rt: &'s R,
    scope: &'s Scope<'s, E>,
    alloc: Global,
    cleaner: Cleaner<H>,
    rounds: Option<u32>,
    signals: &'s Signals,
) -> Cleaning<H>
    requires fresh { H.accepted cleaner.hand ≡ [] }
    ensures cleaning { IsCleaning H.Hand rounds cleaner.hand result }
{
    let Some(rounds) = rounds else {
        return Cleaning::Rest(cleaner.hand);
    };
    let promise = PromisesCopies {
        hand: Snapshot::of(&cleaner.hand),
    };
    let started = scope.spawn_with(
        promise,
        move || -> Cleaner<H>
            requires { H.accepted cleaner.hand ≡ [] }
            ensures { (H.sender result.hand ≡ H.sender cleaner.hand)
                × (H.line result.hand ≡ H.line cleaner.hand) × AreCopies (H.accepted result.hand) }
        { run_cleaner(rt, alloc, cleaner, rounds, signals) },
    );
    match started {
        Ok(handle) => Cleaning::Thread(handle),
        Err(refused) => {
            signals.refuse();
            Cleaning::Refused((refused.value)().hand)
        }
    }
}

/// The cleaner's hand, once its thread has ended.
pub(crate) fn join_cleaner<R: Threads, H: Hand>(rt: &R, cleaning: Cleaning<H>) -> H
    ensures { (rounds : Option ℕ) (hand : _) → IsCleaning H.Hand rounds hand cleaning
        → (H.sender result ≡ H.sender hand) × (H.line result ≡ H.line hand)
        × AskForCopies rounds (H.accepted result) }
{
    match cleaning {
        Cleaning::Thread(handle) => handle.join(rt).hand,
        Cleaning::Rest(hand) | Cleaning::Refused(hand) => hand,
    }
}
