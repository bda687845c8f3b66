//! The end of all rings: what waits is taken out of each, beside its hand.
ghost use Rattle.std.specs.Prelude.{◌≡◌, ◌++◌, List, map, IfOk, OnOk};
ghost use Rattle.jffs_line.specs.declared.request.Request.{Request};
ghost use Rattle.jffs_line.specs.Rings.{ring_end, ring_hand_end, ring_accepted, ring_taken};
ghost use Rattle.jffs_line.specs.Rings.{rings_ends, rings_taken, taken_in, Apart};
ghost use Rattle.jffs_line.specs.Settling.{all_hands, IsSettled, WasSettled};

use super::{Ring, RingHand, RingTaker};
use crate::hand::{Hands, Settle};
use crate::request::{Request, SettleFault, Settled};
use std::alloc::{AllocError, Global};
use std::sync::Wait;

// Takes out what waits in a ring. Where allocation failed, that is gone.
fn empty(ring: Ring, hand: RingHand, waiting: &mut Vec<Request>) -> Result<(), AllocError>
    requires { ring_end ring ≡ ring_hand_end hand }
    ensures { (left : List Request) × (ring_taken ring ++ left ≡ ring_accepted hand)
        × OnOk result (waiting.new.items ≡ waiting.old.items ++ left) }
{
    let Ring {
        mut consumer,
        number,
        ..
    } = ring;
    let RingHand { mut producer, .. } = hand;
    let count = consumer.slots_beside(&mut producer);
    for index in 0..count {
        waiting.reserve(1)?;
        let note = consumer.pop_known();
        waiting.push_reserved(Request {
            writer: number,
            seq: note.seq,
            wish: note.wish,
        });
    }
    Ok(())
}

// Takes out what waits in each ring, from the control's on. Where allocation failed, that is gone.
fn empty_all(
    alloc: Global,
    hands: Hands<RingHand>,
    mut rings: Vec<Ring>,
) -> Result<Vec<Request>, AllocError>
    requires ends { map ring_end rings.items ≡ map ring_hand_end (all_hands hands) }
    requires apart { Apart (map (λ h. h.number) (all_hands hands)) }
    ensures { (left : List Request) × IsSettled (λ h. h.number) ring_accepted (all_hands hands)
        (λ w. taken_in w rings.items) left × IfOk result (λ waiting. waiting.items ≡ left) }
{
    let Hands {
        mut writers,
        cleaner,
        control,
    } = hands;
    let mut waiting = Vec::new(alloc);
    let Some(of_control) = rings.pop() else {
        unreachable!()
    };
    let Some(of_cleaner) = rings.pop() else {
        unreachable!()
    };
    let first = empty(of_control, control.into_hand(), &mut waiting);
    let second = empty(of_cleaner, cleaner, &mut waiting);
    let mut whole = first.is_ok() && second.is_ok();
    while let Some(hand) = writers.pop() {
        let Some(ring) = rings.pop() else {
            unreachable!()
        };
        if empty(ring, hand, &mut waiting).is_err() {
            whole = false;
        }
    }
    if whole { Ok(waiting) } else { Err(AllocError) }
}

/// Takes all ends of a line back, and returns what was handed in and never taken. So all that a
/// hand accepted was taken, or is in here after that. Precondition: `hands` and `taker` belong to
/// one line, and no end of it is missing.
///
/// `Memory` alone, if allocation failed: the ends are then gone, with what waited. Then too what
/// was taken of each hand is a beginning of what it accepted.
fn settle(alloc: Global, hands: Hands<RingHand>, taker: RingTaker) -> Result<Settled, SettleFault>
    requires ends { rings_ends taker ≡ map ring_hand_end (all_hands hands) }
    ensures settled { IfOk result (λ s. IsSettled (λ h. h.number) ring_accepted (all_hands hands)
        (rings_taken taker) s.waiting.items) }
    ensures taken { WasSettled (λ h. h.number) ring_accepted (all_hands hands)
        (rings_taken taker) }
{
    let RingTaker { rings, .. } = taker;
    match empty_all(alloc, hands, rings) {
        Ok(waiting) => Ok(Settled { waiting }),
        Err(_) => Err(SettleFault::Memory),
    }
}

impl Settle for RingTaker {
    type Of = RingHand;

    fn settle<R: Wait>(
        self,
        _rt: &R,
        alloc: Global,
        hands: Hands<RingHand>,
    ) -> Result<Settled, SettleFault>
        requires { rings_ends self ≡ map ring_hand_end (all_hands hands) }
        ensures settled { IfOk result (λ s. IsSettled (λ h. h.number) ring_accepted
            (all_hands hands) (rings_taken self) s.waiting.items) }
        ensures taken { WasSettled (λ h. h.number) ring_accepted (all_hands hands)
            (rings_taken self) }
    {
        settle(alloc, hands, self)
    }
}
