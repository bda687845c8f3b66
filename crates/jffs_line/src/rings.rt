//! A ring for each sender.
ghost use Rattle.std.specs.Prelude.{◌≡◌, ◌-◌, ◌<◌, ◌≤◌, length, map, vec_len};
ghost use Rattle.std.specs.List.{range_with_len};
ghost use Rattle.rtrb.specs.Ring.{sent};
ghost use Rattle.jffs_line.specs.Line.{senders};

mod bell;
mod make;
mod settling;

use crate::hand::{Ends, Hand, Taker};
use crate::request::{NotTaken, Request, Why};
use bell::{Bell, HandWaker};
use crossbeam_utils::Backoff;
use crossbeam_utils::sync::Parker;
use jffs_tree::Wish;
pub use make::ring_line;
use rtrb::{Consumer, Producer, PushError};
use std::sync::Wait;

/// A wish with its number among its sender's.
#[derive(Drop)]
pub(crate) struct Note {
    pub seq: u32,
    pub wish: Wish,
}

// Tries a few rounds first, since a wake costs a call of the system.
fn pause<R: Wait>(rt: &R, backoff: &Backoff, sleeper: &Parker) {
    if backoff.is_completed() {
        sleeper.park(rt);
    } else {
        backoff.snooze();
    }
}

/// All ends of the rings.
pub type RingLine = Ends<RingHand, RingTaker>;

/// A sender's hand at its ring.
#[derive(Drop)]
pub struct RingHand {
    producer: Producer<Note>,
    number: u16,
    last: u32,
    // Sleeps here while its ring is full.
    sleeper: Parker,
    // Let go after the producer, so that a taker which it wakes finds this hand gone.
    bell: Bell,
    ghost counted: { length (sent producer) ≡ last },
    ghost numbered: { map (λ n. n.seq) (sent producer) ≡ range_with_len 1 last },
}

impl RingHand {
    ghost use Rattle.std.specs.Prelude.{◌≡◌, ℕ, ◌+◌, ◌↔◌, [], ◌∷◌, ◌++◌, length, IfOk, IfErr};
    ghost use Rattle.std.specs.Prelude.{IsErr, IsErrAnd};
    ghost use Rattle.jffs_line.specs.Requests.{of, request};
    ghost use Rattle.jffs_line.specs.Rings.{ring_line, ring_accepted};
    ghost use Rattle.jffs_line.specs.declared.request.Why.TheVariants.{Spent, Full};

    /// Hands in a wish, or gives it back. `Full` where the ring has no free slot.
    pub fn try_hand_in(&mut self, wish: Wish) -> Result<u32, NotTaken>
        ensures end { (self.new.number ≡ self.old.number)
            × (ring_line self.new ≡ ring_line self.old) }
        ensures accepted { IfOk result
            (λ seq. (seq ≡ length (ring_accepted self.old) + 1)
            × (ring_accepted self.new
            ≡ ring_accepted self.old ++ request self.old.number seq wish ∷ [])) }
        ensures refused { IfErr result
            (λ e. (e.wish ≡ wish) × (ring_accepted self.new ≡ ring_accepted self.old)) }
        ensures spent { IsErrAnd result (λ e. e.why ≡ Spent)
            ↔ (length (ring_accepted self.old) ≡ u32.MAX) }
    {
        if self.last == u32::MAX {
            return Err(NotTaken {
                wish,
                why: Why::Spent,
            });
        }
        let seq = self.last + 1;
        match self.producer.push(Note { seq, wish }) {
            Ok(()) => {
                self.last = seq;
                self.bell.ring();
                Ok(seq)
            }
            Err(PushError::Full(back)) => Err(NotTaken {
                wish: back.wish,
                why: Why::Full,
            }),
        }
    }

    /// Hands in a wish, and waits for a free slot, asleep where it takes long. Its one refusal is
    /// `Spent`.
    pub fn hand_in<R: Wait>(&mut self, rt: &R, wish: Wish) -> Result<u32, NotTaken>
        ensures end { (self.new.number ≡ self.old.number)
            × (ring_line self.new ≡ ring_line self.old) }
        ensures accepted { IfOk result
            (λ seq. (seq ≡ length (ring_accepted self.old) + 1)
            × (ring_accepted self.new
            ≡ ring_accepted self.old ++ request self.old.number seq wish ∷ [])) }
        ensures refused { IfErr result
            (λ e. (e.wish ≡ wish) × (e.why ≡ Spent)
            × (ring_accepted self.new ≡ ring_accepted self.old)) }
        ensures spent { IsErr result ↔ (length (ring_accepted self.old) ≡ u32.MAX) }
    {
        let backoff = Backoff::new();
        let mut wish = wish;
        for _ in rt.forever() {
            match self.try_hand_in(wish) {
                Err(
                    NotTaken {
                        wish: back,
                        why: Why::Full,
                    },
                ) => wish = back,
                reply => return reply,
            }
            pause(rt, &backoff, &self.sleeper);
        }
        unreachable!()
    }
}

impl Hand for RingHand {
    ghost use Rattle.jffs_line.specs.Rings.{ring_line, ring_accepted};
    ghost use Rattle.jffs_line.specs.Numbered.{ring_numbered};

    ghost sender = { λ h. h.number };

    ghost line = { ring_line };

    ghost accepted = { ring_accepted };

    ghost numbered = { ring_numbered };

    fn offer<R: Wait>(&mut self, _rt: &R, wish: Wish) -> Result<u32, NotTaken> {
        self.try_hand_in(wish)
    }

    fn put<R: Wait>(&mut self, rt: &R, wish: Wish) -> Result<u32, NotTaken> {
        self.hand_in(rt, wish)
    }
}

/// The end of a sender's ring that takes.
#[derive(Drop)]
pub(crate) struct Ring {
    consumer: Consumer<Note>,
    number: u16,
    // Wakes the hand where it sleeps.
    waker: HandWaker,
}

impl Ring {
    ghost use Rattle.std.specs.Prelude.{◌≡◌, [], ◌∷◌, ◌++◌, IfSome, IfNone};
    ghost use Rattle.jffs_line.specs.Rings.{ring_end, ring_taken};

    fn pop(&mut self) -> Option<Request>
        ensures end { ring_end self.new ≡ ring_end self.old }
        ensures some { IfSome result
            (λ r. (r.writer ≡ self.old.number)
            × (ring_taken self.new ≡ ring_taken self.old ++ r ∷ [])) }
        ensures none { IfNone result (ring_taken self.new ≡ ring_taken self.old) }
    {
        match self.consumer.pop() {
            Ok(note) => {
                self.waker.count();
                Some(Request {
                    writer: self.number,
                    seq: note.seq,
                    wish: note.wish,
                })
            }
            Err(_) => None,
        }
    }

    // Takes nothing.
    fn look(&mut self) -> Look
        ensures end { ring_end self.new ≡ ring_end self.old }
        ensures taken { ring_taken self.new ≡ ring_taken self.old }
    {
        let has_hand = !self.consumer.is_abandoned();
        let has_request = !self.consumer.is_empty();
        Look {
            has_hand,
            has_request,
        }
    }
}

// What was seen of a ring at some moment.
#[derive(Clone, Copy)]
struct Look {
    has_hand: bool,
    has_request: bool,
}

// Why a look at all rings gave no request.
#[derive(Clone, Copy)]
enum Idle {
    Empty,
    Abandoned,
}

/// The end of all rings: those of the writers in order, the cleaner's and the control's.
#[derive(Drop)]
pub struct RingTaker {
    rings: Vec<Ring>,
    next: usize,
    // Sleeps here while all rings are empty.
    sleeper: Parker,
    ghost some: { 2 ≤ vec_len rings },
    ghost few: { vec_len rings ≤ 10 },
    ghost near: { next ≤ vec_len rings },
    ghost known: { map (λ r. r.number) rings.items ≡ senders (vec_len rings - 2) },
}

impl RingTaker {
    ghost use Rattle.std.specs.Prelude.{◌≡◌, ℕ, ◌<◌, [], ◌∷◌, ◌++◌, IfOk, OnErr, IfSome, IfNone};
    ghost use Rattle.std.specs.Prelude.{vec_len};
    ghost use Rattle.jffs_line.specs.Requests.{of};
    ghost use Rattle.jffs_line.specs.Rings.{rings_ends, rings_taken};

    fn pop_at(&mut self, index: usize) -> Option<Request>
        requires { index < vec_len self.old.rings }
        ensures ends { rings_ends self.new ≡ rings_ends self.old }
        ensures some { IfSome result
            (λ r. (w : ℕ) → rings_taken self.new w ≡ rings_taken self.old w ++ of w (r ∷ [])) }
        ensures none { IfNone result ((w : ℕ) → rings_taken self.new w ≡ rings_taken self.old w) }
        ensures rings { vec_len self.new.rings ≡ vec_len self.old.rings }
    {
        let ring = &mut self.rings[index];
        ring.pop()
    }

    fn look_at(&mut self, index: usize) -> Look
        requires { index < vec_len self.old.rings }
        ensures ends { rings_ends self.new ≡ rings_ends self.old }
        ensures taken { (w : ℕ) → rings_taken self.new w ≡ rings_taken self.old w }
        ensures rings { vec_len self.new.rings ≡ vec_len self.old.rings }
    {
        let ring = &mut self.rings[index];
        ring.look()
    }

    // Whether every hand is gone.
    fn is_alone(&mut self) -> bool
        ensures ends { rings_ends self.new ≡ rings_ends self.old }
        ensures taken { (w : ℕ) → rings_taken self.new w ≡ rings_taken self.old w }
        ensures rings { vec_len self.new.rings ≡ vec_len self.old.rings }
    {
        for index in 0..self.rings.len() {
            if self.look_at(index).has_hand {
                return false;
            }
        }
        true
    }

    // The first ring but the control's that holds a request, from the one after that which gave
    // last on.
    fn first_waiting(&mut self) -> Option<usize>
        ensures ends { rings_ends self.new ≡ rings_ends self.old }
        ensures taken { (w : ℕ) → rings_taken self.new w ≡ rings_taken self.old w }
        ensures rings { vec_len self.new.rings ≡ vec_len self.old.rings }
        ensures index { IfSome result (λ i. i < vec_len self.old.rings) }
    {
        let others = self.rings.len() - 1;
        for step in 0..others {
            let index = (self.next + step) % others;
            if self.look_at(index).has_request {
                return Some(index);
            }
        }
        None
    }

    // Looks at each ring but the control's once, and takes from the first that holds a request.
    fn round(&mut self) -> Option<Request>
        ensures ends { rings_ends self.new ≡ rings_ends self.old }
        ensures some { IfSome result
            (λ r. (w : ℕ) → rings_taken self.new w ≡ rings_taken self.old w ++ of w (r ∷ [])) }
        ensures none { IfNone result ((w : ℕ) → rings_taken self.new w ≡ rings_taken self.old w) }
        ensures rings { vec_len self.new.rings ≡ vec_len self.old.rings }
    {
        let index = self.first_waiting()?;
        self.next = index + 1;
        self.pop_at(index)
    }

    // Looks at all rings once. What waits in the control's ring is taken only after a round that
    // began later and in which no other ring gave anything.
    fn look_around(&mut self) -> Result<Request, Idle>
        ensures ends { rings_ends self.new ≡ rings_ends self.old }
        ensures some { IfOk result
            (λ r. (w : ℕ) → rings_taken self.new w ≡ rings_taken self.old w ++ of w (r ∷ [])) }
        ensures none { OnErr result ((w : ℕ) → rings_taken self.new w ≡ rings_taken self.old w) }
    {
        let control = self.rings.len() - 1;
        let is_last_round = self.is_alone();
        let control_waits = self.look_at(control).has_request;
        if let Some(request) = self.round() {
            return Ok(request);
        }
        if control_waits {
            if let Some(request) = self.pop_at(control) {
                return Ok(request);
            }
        }
        Err(if is_last_round {
            Idle::Abandoned
        } else {
            Idle::Empty
        })
    }

    // Takes what a round finds. Only where that is nothing, it asks who is still there.
    fn try_take(&mut self) -> Result<Request, Idle>
        ensures ends { rings_ends self.new ≡ rings_ends self.old }
        ensures some { IfOk result
            (λ r. (w : ℕ) → rings_taken self.new w ≡ rings_taken self.old w ++ of w (r ∷ [])) }
        ensures none { OnErr result ((w : ℕ) → rings_taken self.new w ≡ rings_taken self.old w) }
    {
        match self.round() {
            Some(request) => Ok(request),
            None => self.look_around(),
        }
    }
}

impl Taker for RingTaker {
    ghost use Rattle.jffs_line.specs.Rings.{rings_ends, rings_taken};

    ghost ends = { rings_ends };

    ghost taken = { rings_taken };

    // The contracts of a ring tell nothing of its other end.
    ghost ran_out = { λ _. Unit {0} };

    // A hand that pushes or goes leaves a token at the sleeper, so no sleep misses what came after
    // the last look.
    fn take<R: Wait>(&mut self, rt: &R) -> Option<Request> {
        let backoff = Backoff::new();
        for _ in rt.forever() {
            match self.try_take() {
                Ok(request) => return Some(request),
                Err(Idle::Abandoned) => return None,
                Err(Idle::Empty) => {}
            }
            pause(rt, &backoff, &self.sleeper);
        }
        unreachable!()
    }
}
