//! The making of a shared line: the first pass speaks for all senders, and each hand gets its own
//! from it.
ghost use Rattle.std.specs.Prelude.{◌≡◌, ℕ, ◌+◌, ◌-◌, ◌<◌, ◌≤◌, ◌⊎◌, ◌↔◌, [], true, map, All};
ghost use Rattle.std.specs.Prelude.{OnOk, IfOk, IsErrAnd};
ghost use Rattle.crossbeam_channel.specs.Claims.{view, IsSeatAt};
ghost use Rattle.crossbeam_channel.specs.Ends.{sends_on, ruled_capacity};
ghost use Rattle.jffs_line.specs.InOrder.{knows, silent, without_first, BeginsWith};
ghost use Rattle.jffs_line.specs.Line.{senders};
ghost use Rattle.jffs_line.specs.Shared.{channel_line, shared_end, shared_accepted};
ghost use Rattle.jffs_line.specs.Shared.{shared_capacity, shared_ends, shared_taken};
ghost use Rattle.jffs_line.specs.Shared.{AreFirstWriters};
ghost use Rattle.jffs_line.specs.declared.request.LineFault.TheVariants.{Capacity, Senders};
ghost use Rattle.jffs_line.specs.declared.hand.TheConstants.{MOST_WRITERS, MOST_CAPACITY, CONTROL};
ghost use Rattle.jffs_line.specs.Settling.{all_hands};

use super::{Each, EachInOrder, Receives, Sends, SharedHand, SharedLine, SharedPass, SharedTaker};
use crate::hand::{CLEANER, CONTROL, Control, Ends, Hands, MOST_CAPACITY, MOST_WRITERS};
use crate::knows::Knows;
use crate::request::{LineFault, Request};
use crossbeam_channel::bounded_with;
use std::alloc::{AllocError, Global};

// The hand of the first sender that the pass speaks for.
fn first_hand(
    sends: &Sends,
    receives: &Receives,
    pass: &mut SharedPass,
    number: u16,
) -> Result<SharedHand, AllocError>
    requires seat { IsSeatAt (sends_on sends.now) pass.old }
    requires first { BeginsWith number (view pass.old) }
    requires number { (0 < number) × (number ≤ CONTROL) }
    ensures seat { IsSeatAt (sends_on sends.now) pass.new }
    ensures rest { OnOk result (view pass.new ≡ without_first (view pass.old)) }
    ensures hand { IfOk result
        (λ h. (shared_end h ≡ (number, channel_line (sends_on sends.now)))
        × (shared_accepted h ≡ [])
        × (shared_capacity h ≡ ruled_capacity (sends_on sends.now))) }
{
    let sends_too = sends.try_clone()?;
    let open = receives.try_clone()?;
    let own = sends.another::<Each>(pass);
    Ok(SharedHand {
        sends: sends_too,
        open,
        pass: own,
        number,
        last: 0,
    })
}

// The writers' hands, in order.
fn writer_hands(
    alloc: Global,
    sends: &Sends,
    receives: &Receives,
    pass: &mut SharedPass,
    count: u16,
) -> Result<Vec<SharedHand>, AllocError>
    requires seat { IsSeatAt (sends_on sends.now) pass.old }
    requires all { view pass.old ≡ knows true [] (silent 1 MOST_WRITERS) }
    requires few { count ≤ MOST_WRITERS }
    ensures seat { IsSeatAt (sends_on sends.now) pass.new }
    ensures rest { OnOk result
        (view pass.new ≡ knows true [] (silent (count + 1) (MOST_WRITERS - count))) }
    ensures writers { IfOk result
        (λ hands. AreFirstWriters (channel_line (sends_on sends.now))
        (ruled_capacity (sends_on sends.now)) count hands.items) }
{
    let mut hands = Vec::new(alloc);
    for index in 0..count {
        let hand = first_hand(sends, receives, pass, index + 1)?;
        hands.push(hand)?;
    }
    Ok(hands)
}

fn line(alloc: Global, capacity: usize, writers: u16) -> Result<SharedLine, AllocError>
    requires capacity { 0 < capacity }
    requires few { writers ≤ MOST_WRITERS }
    ensures ends { IfOk result (λ l. shared_ends l.taker ≡ map shared_end (all_hands l.hands)) }
    ensures senders { IfOk result (λ l. map (λ h. h.number) (all_hands l.hands) ≡ senders writers) }
    ensures fresh { IfOk result
        (λ l. All (λ h. (shared_accepted h ≡ []) × (shared_capacity h ≡ capacity))
        (all_hands l.hands)) }
    ensures taken { IfOk result (λ l. (w : ℕ) → shared_taken l.taker w ≡ []) }
{
    let (sends, receives, mut pass) = bounded_with::<Request, Knows, EachInOrder, Global>(
        alloc, capacity,
    )?;
    let cleaner = first_hand(&sends, &receives, &mut pass, CLEANER)?;
    let control = first_hand(&sends, &receives, &mut pass, CONTROL)?;
    let hands = writer_hands(alloc, &sends, &receives, &mut pass, writers)?;
    Ok(Ends {
        hands: Hands {
            writers: hands,
            cleaner,
            control: Control::new(control),
        },
        taker: SharedTaker {
            receives,
            pass,
            writers,
        },
    })
}

/// A shared line with room for `capacity` requests, 1 to 256, with hands for `writers` writers, at
/// most 8, the cleaner and the control. Nothing waits in it.
///
/// `Capacity`, `Senders`, tried in this order, or `Memory` if allocation failed.
pub fn shared_line<R>(
    _rt: &R,
    alloc: Global,
    capacity: usize,
    writers: u16,
) -> Result<SharedLine, LineFault>
    ensures capacity { IsErrAnd result (λ e. e ≡ Capacity)
        ↔ ((capacity ≡ 0) ⊎ (MOST_CAPACITY < capacity)) }
    ensures writers { IsErrAnd result (λ e. e ≡ Senders)
        ↔ ((0 < capacity) × (capacity ≤ MOST_CAPACITY) × (MOST_WRITERS < writers)) }
    ensures ends { IfOk result (λ l. shared_ends l.taker ≡ map shared_end (all_hands l.hands)) }
    ensures senders { IfOk result (λ l. map (λ h. h.number) (all_hands l.hands) ≡ senders writers) }
    ensures fresh { IfOk result
        (λ l. All (λ h. (shared_accepted h ≡ []) × (shared_capacity h ≡ capacity))
        (all_hands l.hands)) }
    ensures taken { IfOk result (λ l. (w : ℕ) → shared_taken l.taker w ≡ []) }
{
    if capacity == 0 || capacity > MOST_CAPACITY {
        return Err(LineFault::Capacity);
    }
    if writers > MOST_WRITERS {
        return Err(LineFault::Senders);
    }
    match line(alloc, capacity, writers) {
        Ok(line) => Ok(line),
        Err(_) => Err(LineFault::Memory),
    }
}
