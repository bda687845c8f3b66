//! The end of a shared line: all passes come together again, and what waits is taken out.
ghost use Rattle.std.specs.Prelude.{◌≡◌, ℕ, ◌+◌, ◌-◌, [], ◌++◌, true, map, All, Contains, IfOk};
ghost use Rattle.crossbeam_channel.specs.Claims.{view, IsSeatAt};
ghost use Rattle.crossbeam_channel.specs.Ends.{sends_on, receives_on};
ghost use Rattle.jffs_line.specs.InOrder.{Learned, knows, joined};
ghost use Rattle.jffs_line.specs.Requests.{of, IsNumbered};
ghost use Rattle.jffs_line.specs.Shared.{channel_line, shared_line, shared_end, shared_accepted};
ghost use Rattle.jffs_line.specs.Shared.{shared_ends, shared_taken, hand_sent};
ghost use Rattle.jffs_line.specs.Settling.{all_hands, IsSettled, WasSettled};

use super::{Each, Receives, Sends, SharedHand, SharedPass, SharedTaker, Take};
use crate::hand::{Hands, Settle};
use crate::request::{Request, SettleFault, Settled};
use std::alloc::{AllocError, Global};
use std::sync::Wait;

// The passes of all hands come back.
fn give_all_back(sends: &Sends, pass: &mut SharedPass, hands: Vec<SharedHand>)
    requires seat { IsSeatAt (sends_on sends.now) pass.old }
    requires line { All (λ h. shared_line h ≡ channel_line (sends_on sends.now)) hands.items }
    ensures seat { IsSeatAt (sends_on sends.now) pass.new }
    ensures joined { view pass.new
        ≡ knows (view pass.old).takes (view pass.old).taken
        ((view pass.old).sent ++ map hand_sent hands.items) }
{
    for hand in hands {
        let SharedHand { pass: own, .. } = hand;
        sends.absorb::<Each>(pass, own);
    }
}

// Takes what waits, until nothing does.
fn drain<R: Wait>(
    rt: &R,
    alloc: Global,
    receives: &Receives,
    pass: &mut SharedPass,
) -> Result<Vec<Request>, AllocError>
    requires seat { IsSeatAt (receives_on receives.now) pass.old }
    requires takes { (view pass.old).takes ≡ true }
    ensures { IfOk result
        (λ waiting. Learned (knows true ((view pass.old).taken ++ waiting.items)
        (view pass.old).sent) []) }
{
    let mut waiting = Vec::new(alloc);
    for _ in rt.forever() {
        waiting.reserve(1)?;
        match receives.try_recv_as::<Take, R>(rt, pass) {
            Ok(request) => waiting.push_reserved(request),
            Err(_) => return Ok(waiting),
        }
    }
    unreachable!()
}

/// Takes all ends of a line back, and returns what was handed in and never taken. So all that a
/// hand accepted was taken, or is in here after that. Precondition: `hands` and `taker` belong to
/// one line, and no end of it is missing.
///
/// `Memory` alone, if allocation failed: the ends are then gone, with what waited. Then too what
/// was taken of each hand is a beginning of what it accepted, which the rule tells before a request
/// is taken out.
fn settle<R: Wait>(
    rt: &R,
    alloc: Global,
    hands: Hands<SharedHand>,
    taker: SharedTaker,
) -> Result<Settled, SettleFault>
    requires ends { shared_ends taker ≡ map shared_end (all_hands hands) }
    ensures settled { IfOk result (λ s. IsSettled (λ h. h.number) shared_accepted (all_hands hands)
        (shared_taken taker) s.waiting.items) }
    ensures taken { WasSettled (λ h. h.number) shared_accepted (all_hands hands)
        (shared_taken taker) }
{
    let Hands {
        writers,
        cleaner,
        control,
    } = hands;
    let SharedTaker {
        receives,
        mut pass,
        ..
    } = taker;
    let SharedHand {
        sends,
        pass: of_control,
        ..
    } = control.into_hand();
    let SharedHand {
        pass: of_cleaner,
        ..
    } = cleaner;
    give_all_back(&sends, &mut pass, writers);
    sends.absorb::<Each>(&mut pass, of_cleaner);
    sends.absorb::<Each>(&mut pass, of_control);
    sends.learn_as::<Take>(&mut pass);
    match drain(rt, alloc, &receives, &mut pass) {
        Ok(waiting) => Ok(Settled { waiting }),
        Err(_) => Err(SettleFault::Memory),
    }
}

impl Settle for SharedTaker {
    type Of = SharedHand;

    fn settle<R: Wait>(
        self,
        rt: &R,
        alloc: Global,
        hands: Hands<SharedHand>,
    ) -> Result<Settled, SettleFault>
        requires { shared_ends self ≡ map shared_end (all_hands hands) }
        ensures settled { IfOk result (λ s. IsSettled (λ h. h.number) shared_accepted
            (all_hands hands) (shared_taken self) s.waiting.items) }
        ensures taken { WasSettled (λ h. h.number) shared_accepted (all_hands hands)
            (shared_taken self) }
    {
        settle(rt, alloc, hands, self)
    }
}
