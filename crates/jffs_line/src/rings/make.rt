//! The making of a ring for each sender.
ghost use Rattle.std.specs.Prelude.{◌≡◌, ℕ, ◌+◌, ◌<◌, ◌≤◌, ◌⊎◌, ◌↔◌, [], ◌∷◌, ◌++◌, map, All, IfOk};
ghost use Rattle.std.specs.Prelude.{OnOk, IsErrAnd};
ghost use Rattle.std.specs.List.{range_with_len};
ghost use Rattle.jffs_line.specs.Line.{senders};
ghost use Rattle.jffs_line.specs.Rings.{ring_end, ring_hand_end, ring_accepted, ring_capacity};
ghost use Rattle.jffs_line.specs.Rings.{ring_taken, rings_ends, rings_taken};
ghost use Rattle.jffs_line.specs.Rings.{AreFresh};
ghost use Rattle.jffs_line.specs.declared.request.LineFault.TheVariants.{Capacity, Senders};
ghost use Rattle.jffs_line.specs.declared.hand.TheConstants.{MOST_WRITERS, MOST_CAPACITY};
ghost use Rattle.jffs_line.specs.Settling.{all_hands};

use super::bell::{Bell, HandWaker};
use super::{Ring, RingHand, RingLine, RingTaker};
use crate::hand::{CLEANER, CONTROL, Control, Ends, Hands, MOST_CAPACITY, MOST_WRITERS};
use crate::request::LineFault;
use crossbeam_utils::sync::{Parker, Unparker};
use rtrb::RingBuffer;
use std::alloc::{AllocError, Global};

// Both ends of a sender's ring.
fn ring(
    alloc: Global,
    capacity: usize,
    number: u16,
    taker: &Unparker,
) -> Result<(RingHand, Ring), AllocError>
    ensures ends { IfOk result (λ r. (ring_hand_end r.0 ≡ ring_end r.1) × (r.0.number ≡ number)) }
    ensures fresh { IfOk result
        (λ r. (ring_accepted r.0 ≡ []) × (ring_capacity r.0 ≡ capacity) × (ring_taken r.1 ≡ [])) }
{
    let (producer, consumer) = RingBuffer::new(alloc, capacity)?;
    let sleeper = Parker::new(alloc)?;
    let wakes_hand = sleeper.unparker().clone()?;
    let hand = RingHand {
        producer,
        number,
        last: 0,
        sleeper,
        bell: Bell::new(taker.clone()?),
    };
    let ring = Ring {
        consumer,
        number,
        waker: HandWaker::new(wakes_hand, capacity),
    };
    Ok((hand, ring))
}

// Makes a sender's ring, and puts its ends after the others.
fn add(
    alloc: Global,
    capacity: usize,
    number: u16,
    taker: &Unparker,
    hands: &mut Vec<RingHand>,
    rings: &mut Vec<Ring>,
) -> Result<(), AllocError>
    requires { AreFresh capacity hands.old.items rings.old.items }
    ensures fresh { OnOk result (AreFresh capacity hands.new.items rings.new.items) }
    ensures numbers { OnOk result
        (map (λ r. r.number) rings.new.items ≡ map (λ r. r.number) rings.old.items ++ number ∷ []) }
{
    let (hand, ring) = ring(alloc, capacity, number, taker)?;
    hands.push(hand)?;
    rings.push(ring)?;
    Ok(())
}

// The writers' rings, in order.
fn writer_rings(
    alloc: Global,
    capacity: usize,
    count: u16,
    taker: &Unparker,
) -> Result<(Vec<RingHand>, Vec<Ring>), AllocError>
    requires few { count ≤ MOST_WRITERS }
    ensures fresh { IfOk result (λ r. AreFresh capacity r.0.items r.1.items) }
    ensures numbers { IfOk result (λ r. map (λ x. x.number) r.1.items ≡ range_with_len 1 count) }
{
    let mut hands = Vec::new(alloc);
    let mut rings = Vec::new(alloc);
    for index in 0..count {
        add(alloc, capacity, index + 1, taker, &mut hands, &mut rings)?;
    }
    Ok((hands, rings))
}

fn line(alloc: Global, capacity: usize, writers: u16) -> Result<RingLine, AllocError>
    requires few { writers ≤ MOST_WRITERS }
    ensures ends { IfOk result
        (λ l. rings_ends l.taker ≡ map ring_hand_end (all_hands l.hands)) }
    ensures senders { IfOk result
        (λ l. map (λ h. h.number) (all_hands l.hands) ≡ senders writers) }
    ensures fresh { IfOk result
        (λ l. All (λ h. (ring_accepted h ≡ []) × (ring_capacity h ≡ capacity))
        (all_hands l.hands)) }
    ensures taken { IfOk result (λ l. (w : ℕ) → rings_taken l.taker w ≡ []) }
{
    let sleeper = Parker::new(alloc)?;
    let taker = sleeper.unparker();
    let (hands, mut rings) = writer_rings(alloc, capacity, writers, taker)?;
    let (cleaner, of_cleaner) = ring(alloc, capacity, CLEANER, taker)?;
    let (control, of_control) = ring(alloc, capacity, CONTROL, taker)?;
    rings.push(of_cleaner)?;
    rings.push(of_control)?;
    Ok(Ends {
        hands: Hands {
            writers: hands,
            cleaner,
            control: Control::new(control),
        },
        taker: RingTaker {
            rings,
            next: 0,
            sleeper,
        },
    })
}

/// A ring with room for `capacity` requests, 1 to 256, for each of `writers` writers, at most 8,
/// the cleaner and the control. Nothing waits in them.
///
/// `Capacity`, `Senders`, tried in this order, or `Memory` if allocation failed.
pub fn ring_line(alloc: Global, capacity: usize, writers: u16) -> Result<RingLine, LineFault>
    ensures capacity { IsErrAnd result (λ e. e ≡ Capacity)
        ↔ ((capacity ≡ 0) ⊎ (MOST_CAPACITY < capacity)) }
    ensures writers { IsErrAnd result (λ e. e ≡ Senders)
        ↔ ((0 < capacity) × (capacity ≤ MOST_CAPACITY) × (MOST_WRITERS < writers)) }
    ensures ends { IfOk result
        (λ l. rings_ends l.taker ≡ map ring_hand_end (all_hands l.hands)) }
    ensures senders { IfOk result
        (λ l. map (λ h. h.number) (all_hands l.hands) ≡ senders writers) }
    ensures fresh { IfOk result
        (λ l. All (λ h. (ring_accepted h ≡ []) × (ring_capacity h ≡ capacity))
        (all_hands l.hands)) }
    ensures taken { IfOk result (λ l. (w : ℕ) → rings_taken l.taker w ≡ []) }
{
    if capacity == 0 || capacity > MOST_CAPACITY {
        return Err(LineFault::Capacity);
    }
    if writers > MOST_WRITERS {
        return Err(LineFault::Senders);
    }
    match line(alloc, capacity, writers) {
        Ok(line) => Ok(line),
        Err(_) => Err(LineFault::Memory),
    }
}
