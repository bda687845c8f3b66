//! The shared line.
ghost use Rattle.std.specs.Prelude.{◌≡◌, ◌+◌, ◌<◌, ◌≤◌, length, map};
ghost use Rattle.std.specs.List.{range_with_len};
ghost use Rattle.crossbeam_channel.specs.Claims.{view, IsSeatAt};
ghost use Rattle.crossbeam_channel.specs.Ends.{sends_on};
ghost use Rattle.crossbeam_channel.specs.Ends.{receives_on};
ghost use Rattle.jffs_line.specs.InOrder.{hand_knows, accepted_of, knows, silent};
ghost use Rattle.std.specs.Prelude.{◌-◌, true};

mod make;
mod settling;

use crate::hand::{Ends, Hand, Taker};
use crate::knows::Knows;
use crate::request::{NotTaken, Request, Why};
use crossbeam_channel::protocol::{Join, Lesson, Outcome, Protocol, Split};
use crossbeam_channel::{Pass, RuledReceiver, RuledSender, TryRecvError, TrySendError};
use crossbeam_utils::Backoff;
use jffs_tree::Wish;
pub use make::shared_line;
use std::sync::Wait;

/// The rule of the shared line: each sender's requests are taken in order, whole and once.
pub(crate) struct EachInOrder;

impl Protocol<Request, Knows> for EachInOrder {
    ghost use Rattle.jffs_line.specs.InOrder.{InOrder, maker_knows};

    ghost holds = { InOrder };

    ghost first = { maker_knows };
}

struct HandIn;

impl Outcome<Request, Knows> for HandIn {
    ghost use Rattle.jffs_line.specs.InOrder.{HandsIn};

    ghost then = { HandsIn };
}

impl Lesson<Request, Knows> for HandIn {
    ghost use Rattle.jffs_line.specs.InOrder.{Learned};

    ghost fact = { Learned };
}

struct Take;

impl Outcome<Request, Knows> for Take {
    ghost use Rattle.jffs_line.specs.InOrder.{Takes};

    ghost then = { Takes };
}

impl Lesson<Request, Knows> for Take {
    ghost use Rattle.jffs_line.specs.InOrder.{Learned};

    ghost fact = { Learned };
}

struct Each;

impl Split<Knows> for Each {
    ghost use Rattle.jffs_line.specs.InOrder.{without_first, first_alone};

    ghost left = { without_first };

    ghost right = { first_alone };
}

impl Join<Knows> for Each {
    ghost use Rattle.jffs_line.specs.InOrder.{joined, knows};
    ghost use Rattle.std.specs.Prelude.{false, []};

    ghost both = { joined };

    ghost spent = { knows false [] [] };
}

type Sends = RuledSender<Request, Knows, EachInOrder>;

type Receives = RuledReceiver<Request, Knows, EachInOrder>;

type SharedPass = Pass<Request, Knows>;

/// The shared line, with all its ends.
pub type SharedLine = Ends<SharedHand, SharedTaker>;

/// A sender's hand at the shared line.
#[derive(Drop)]
pub struct SharedHand {
    sends: Sends,
    // Keeps the line open, so that a send which finds no free slot says that it is full.
    open: Receives,
    pass: SharedPass,
    number: u16,
    last: u32,
    ghost seat: { IsSeatAt (sends_on sends) pass },
    ghost known: { view pass ≡ hand_knows number (accepted_of (view pass)) },
    ghost is_known: { (0 < number) × (number ≤ 10) },
    ghost counted: { length (accepted_of (view pass)) ≡ last },
    ghost numbered: { map (λ r. r.seq) (accepted_of (view pass)) ≡ range_with_len 1 last },
}

impl SharedHand {
    ghost use Rattle.std.specs.Prelude.{◌≡◌, ℕ, ◌+◌, ◌↔◌, [], ◌∷◌, ◌++◌, length, IfOk, IfErr};
    ghost use Rattle.std.specs.Prelude.{IsErr, IsErrAnd};
    ghost use Rattle.jffs_line.specs.Requests.{of, request};
    ghost use Rattle.jffs_line.specs.Shared.{shared_line, shared_accepted, shared_capacity};
    ghost use Rattle.jffs_line.specs.Shared.{WasFull};
    ghost use Rattle.jffs_line.specs.declared.request.Why.TheVariants.{Spent, Full};

    /// Hands in a wish, and returns its number among its sender's, from 1; or gives it back, and
    /// nothing is changed.
    ///
    /// `Spent` if the sender's last number, 4,294,967,295, is used, which is tried first; `Full` if
    /// all slots were taken when it tried.
    pub fn try_hand_in<R: Wait>(&mut self, rt: &R, wish: Wish) -> Result<u32, NotTaken>
        ensures end { (self.new.number ≡ self.old.number)
            × (shared_line self.new ≡ shared_line self.old) }
        ensures accepted { IfOk result
            (λ seq. (seq ≡ length (shared_accepted self.old) + 1)
            × (shared_accepted self.new
            ≡ shared_accepted self.old ++ request self.old.number seq wish ∷ [])) }
        ensures refused { IfErr result
            (λ e. (e.wish ≡ wish) × (shared_accepted self.new ≡ shared_accepted self.old)) }
        ensures spent { IsErrAnd result (λ e. e.why ≡ Spent)
            ↔ (length (shared_accepted self.old) ≡ u32.MAX) }
        ensures full { IfErr result
            (λ e. e.why ≡ Full → WasFull (shared_capacity self.old) self.old.number
            (shared_accepted self.old)) }
    {
        if self.last == u32::MAX {
            return Err(NotTaken {
                wish,
                why: Why::Spent,
            });
        }
        let seq = self.last + 1;
        let mut request = Request {
            writer: self.number,
            seq,
            wish,
        };
        for _ in rt.forever() {
            match self
                .sends
                .try_send_as::<HandIn, R>(rt, &mut self.pass, request)
            {
                Ok(()) => {
                    self.last = seq;
                    return Ok(seq);
                }
                Err(TrySendError::Full(back)) => {
                    return Err(NotTaken {
                        wish: back.wish,
                        why: Why::Full,
                    });
                }
                Err(other) => request = other.into_inner(),
            }
        }
        unreachable!()
    }
    /// Hands in a wish, waits for a free slot, and returns its number among its sender's, from 1.
    ///
    /// `Spent` alone, as for `try_hand_in`: the wish comes back, and nothing is changed.
    pub fn hand_in<R: Wait>(&mut self, rt: &R, wish: Wish) -> Result<u32, NotTaken>
        ensures end { (self.new.number ≡ self.old.number)
            × (shared_line self.new ≡ shared_line self.old) }
        ensures accepted { IfOk result
            (λ seq. (seq ≡ length (shared_accepted self.old) + 1)
            × (shared_accepted self.new
            ≡ shared_accepted self.old ++ request self.old.number seq wish ∷ [])) }
        ensures refused { IfErr result
            (λ e. (e.wish ≡ wish) × (shared_accepted self.new ≡ shared_accepted self.old)) }
        ensures spent { IsErr result ↔ (length (shared_accepted self.old) ≡ u32.MAX) }
        ensures why { IfErr result (λ e. e.why ≡ Spent) }
    {
        if self.last == u32::MAX {
            return Err(NotTaken {
                wish,
                why: Why::Spent,
            });
        }
        let seq = self.last + 1;
        let mut request = Request {
            writer: self.number,
            seq,
            wish,
        };
        for _ in rt.forever() {
            match self.sends.send_as::<HandIn, R>(rt, &mut self.pass, request) {
                Ok(()) => {
                    self.last = seq;
                    return Ok(seq);
                }
                Err(other) => request = other.into_inner(),
            }
        }
        unreachable!()
    }
}

impl Hand for SharedHand {
    ghost use Rattle.std.specs.Prelude.{◌≡◌, ◌+◌, ◌↔◌, [], ◌∷◌, ◌++◌, length, IfOk, IfErr};
    ghost use Rattle.std.specs.Prelude.{IsErrAnd};
    ghost use Rattle.jffs_line.specs.Requests.{request};
    ghost use Rattle.jffs_line.specs.Shared.{shared_line, shared_accepted, shared_capacity};
    ghost use Rattle.jffs_line.specs.Shared.{WasFull};
    ghost use Rattle.jffs_line.specs.declared.request.Why.TheVariants.{Spent, Full};
    ghost use Rattle.jffs_line.specs.Numbered.{shared_numbered};

    ghost sender = { λ h. h.number };

    ghost line = { shared_line };

    ghost accepted = { shared_accepted };

    ghost numbered = { shared_numbered };

    fn offer<R: Wait>(&mut self, rt: &R, wish: Wish) -> Result<u32, NotTaken>
        ensures end { (self.new.number ≡ self.old.number)
            × (shared_line self.new ≡ shared_line self.old) }
        ensures accepted { IfOk result
            (λ seq. (seq ≡ length (shared_accepted self.old) + 1)
            × (shared_accepted self.new
            ≡ shared_accepted self.old ++ request self.old.number seq wish ∷ [])) }
        ensures refused { IfErr result
            (λ e. (e.wish ≡ wish) × (shared_accepted self.new ≡ shared_accepted self.old)) }
        ensures spent { IsErrAnd result (λ e. e.why ≡ Spent)
            ↔ (length (shared_accepted self.old) ≡ u32.MAX) }
        ensures full { IfErr result
            (λ e. e.why ≡ Full → WasFull (shared_capacity self.old) self.old.number
            (shared_accepted self.old)) }
    {
        self.try_hand_in(rt, wish)
    }

    fn put<R: Wait>(&mut self, rt: &R, wish: Wish) -> Result<u32, NotTaken> {
        self.hand_in(rt, wish)
    }
}

// How often the taker looks at an empty line before it sleeps. A sleep costs it a system call and
// the sender that wakes it another; the looks last long enough for a sender that is at work on its
// next request.
const TRIES: u32 = 16;

/// The end of the shared line that takes requests.
#[derive(Drop)]
pub struct SharedTaker {
    receives: Receives,
    pass: SharedPass,
    writers: u16,
    ghost seat: { IsSeatAt (receives_on receives) pass },
    ghost few: { writers ≤ 8 },
    ghost known: { view pass ≡ knows true (view pass).taken (silent (writers + 1) (8 - writers)) },
}

impl Taker for SharedTaker {
    ghost use Rattle.std.specs.Prelude.{◌≡◌, ℕ, ◌++◌, [], ◌∷◌, IfSome, IfNone};
    ghost use Rattle.jffs_line.specs.Requests.{of};
    ghost use Rattle.jffs_line.specs.Shared.{shared_ends, shared_taken, WasEmpty};

    ghost ends = { shared_ends };

    ghost taken = { shared_taken };

    // What the rule says of an empty line.
    ghost ran_out = { WasEmpty };

    fn take<R: Wait>(&mut self, rt: &R) -> Option<Request>
        ensures ends { shared_ends self.new ≡ shared_ends self.old }
        ensures taken { IfSome result
            (λ r. (w : ℕ) → shared_taken self.new w ≡ shared_taken self.old w ++ of w (r ∷ [])) }
        ensures none { IfNone result ((w : ℕ) → shared_taken self.new w ≡ shared_taken self.old w) }
        ensures empty { IfNone result (WasEmpty self.old) }
        ensures ran_out { IfNone result (WasEmpty self.new) }
    {
        let backoff = Backoff::new();
        for _ in 0..TRIES {
            match self.receives.try_recv_as::<Take, R>(rt, &mut self.pass) {
                Ok(request) => return Some(request),
                Err(TryRecvError::Disconnected) => return None,
                Err(TryRecvError::Empty) => backoff.snooze(),
            }
        }
        self.receives.recv_as::<Take, R>(rt, &mut self.pass).ok()
    }
}
