//! The two ends of a line: a hand hands in requests of one sender, and a taker takes them.
ghost use Rattle.std.specs.Prelude.{◌≡◌, ℕ, ◌+◌, ◌↔◌, List, [], ◌∷◌, ◌++◌, length, map, All};
ghost use Rattle.std.specs.Prelude.{Contains, IfOk, IfErr, IsErr, IsErrAnd, IfSome, IfNone};
ghost use Rattle.jffs_line.specs.Line.{Line, End};
ghost use Rattle.jffs_line.specs.Requests.{of, request, IsNumbered};
ghost use Rattle.jffs_line.specs.Settling.{all_hands, IsSettled, WasSettled};
ghost use Rattle.jffs_line.specs.declared.request.Request.{Request};
ghost use Rattle.jffs_line.specs.declared.request.Why.TheVariants.{Spent};

use crate::request::{NotTaken, Request, SettleFault, Settled};
use jffs_tree::Wish;
use std::alloc::Global;
use std::sync::Wait;

/// The number of the cleaner as a sender.
pub const CLEANER: u16 = 9;

/// The number of the control as a sender.
pub const CONTROL: u16 = 10;

pub(crate) const MOST_WRITERS: u16 = 8;

pub(crate) const MOST_CAPACITY: usize = 256;

/// A sender's end of a line. What kind of wish it hands in, nobody asks.
pub trait Hand: Drop {
    /// The sender's number.
    ghost sender: { Self → ℕ };

    /// Where its requests go.
    ghost line: { Self → Line };

    /// The requests that were accepted, in order.
    ghost accepted: { Self → List Request };

    /// Hands in a wish, and returns its number among its sender's, from 1; or gives it back, and
    /// nothing is changed.
    ///
    /// `Spent` if the sender's last number, 4,294,967,295, is used, which is tried first; `Full` if
    /// no free slot was found.
    fn offer<R: Wait>(&mut self, rt: &R, wish: Wish) -> Result<u32, NotTaken>
        ensures end { (sender self.new ≡ sender self.old) × (line self.new ≡ line self.old) }
        ensures accepted { IfOk result
            (λ seq. (seq ≡ length (accepted self.old) + 1)
            × (accepted self.new
            ≡ accepted self.old ++ request (sender self.old) seq wish ∷ [])) }
        ensures refused { IfErr result
            (λ e. (e.wish ≡ wish) × (accepted self.new ≡ accepted self.old)) }
        ensures spent { IsErrAnd result (λ e. e.why ≡ Spent)
            ↔ (length (accepted self.old) ≡ u32.MAX) };

    /// Hands in a wish, waits for a free slot, asleep where it takes long, and returns its number
    /// among its sender's, from 1.
    ///
    /// `Spent` alone, as for `offer`: the wish comes back, and nothing is changed.
    fn put<R: Wait>(&mut self, rt: &R, wish: Wish) -> Result<u32, NotTaken>
        ensures end { (sender self.new ≡ sender self.old) × (line self.new ≡ line self.old) }
        ensures accepted { IfOk result
            (λ seq. (seq ≡ length (accepted self.old) + 1)
            × (accepted self.new
            ≡ accepted self.old ++ request (sender self.old) seq wish ∷ [])) }
        ensures refused { IfErr result
            (λ e. (e.wish ≡ wish) × (e.why ≡ Spent) × (accepted self.new ≡ accepted self.old)) }
        ensures spent { IsErr result ↔ (length (accepted self.old) ≡ u32.MAX) };

    /// The accepted requests are numbered 1, 2, 3, ..
    ghost numbered: { (hand : Self) → IsNumbered (accepted hand) };
}

/// The end of a line that takes requests. A line has one.
pub trait Taker: Drop {
    /// The ends of the hands that belong to it.
    ghost ends: { Self → List End };

    /// The requests of a sender that were taken, in order.
    ghost taken: { Self → ℕ → List Request };

    /// What is so of a taker that gave `None`. Only `take` can show it.
    ghost ran_out: { Self → Type 0 };

    /// Takes a request; waits for one where none is there. `None` where no hand is left: nothing is
    /// changed.
    fn take<R: Wait>(&mut self, rt: &R) -> Option<Request>
        ensures ends { ends self.new ≡ ends self.old }
        ensures taken { IfSome result
            (λ r. (w : ℕ) → taken self.new w ≡ taken self.old w ++ of w (r ∷ [])) }
        ensures none { IfNone result ((w : ℕ) → taken self.new w ≡ taken self.old w) }
        ensures ran_out { IfNone result (ran_out self.new) };
}

/// The control's hand, which asks for the unmount.
#[derive(Drop)]
pub struct Control<H: Hand> {
    hand: H,
}

impl<H: Hand> Control<H> {
    ghost use Rattle.std.specs.Prelude.{◌≡◌, ◌+◌, ◌↔◌, [], ◌∷◌, ◌++◌, length, IfOk, IfErr, IsErr};
    ghost use Rattle.jffs_line.specs.Requests.{request};
    ghost use Rattle.jffs_line.specs.declared.request.Why.TheVariants.{Spent};
    ghost use Rattle.jffs_tree.specs.declared.wish.Wish.TheVariants.{Unmount};

    /// The control over its hand.
    pub(crate) fn new(hand: H) -> Control<H>
        ensures { result.hand ≡ hand }
    {
        Control { hand }
    }

    /// The hand itself.
    pub(crate) fn into_hand(self) -> H
        ensures { result ≡ self.hand }
    {
        let Control { hand } = self;
        hand
    }

    /// Hands in an Unmount, waits for a free slot, asleep where it takes long, and returns its
    /// number among the control's, from 1.
    ///
    /// `Spent` alone: the control's last number is used, and nothing is changed.
    pub fn unmount<R: Wait>(&mut self, rt: &R) -> Result<u32, NotTaken>
        ensures end { (H.sender self.new.hand ≡ H.sender self.old.hand)
            × (H.line self.new.hand ≡ H.line self.old.hand) }
        ensures accepted { IfOk result
            (λ seq. (seq ≡ length (H.accepted self.old.hand) + 1)
            × (H.accepted self.new.hand
            ≡ H.accepted self.old.hand
            ++ request (H.sender self.old.hand) seq Unmount ∷ [])) }
        ensures refused { IfErr result
            (λ e. (e.wish ≡ Unmount) × (e.why ≡ Spent)
            × (H.accepted self.new.hand ≡ H.accepted self.old.hand)) }
        ensures spent { IsErr result ↔ (length (H.accepted self.old.hand) ≡ u32.MAX) }
    {
        self.hand.put(rt, Wish::Unmount)
    }
}

impl<H: Hand> Hand for Control<H> {
    ghost sender = { λ c. H.sender c.hand };

    ghost line = { λ c. H.line c.hand };

    ghost accepted = { λ c. H.accepted c.hand };

    ghost numbered = { λ c. H.numbered c.hand };

    fn offer<R: Wait>(&mut self, rt: &R, wish: Wish) -> Result<u32, NotTaken> {
        self.hand.offer(rt, wish)
    }

    fn put<R: Wait>(&mut self, rt: &R, wish: Wish) -> Result<u32, NotTaken> {
        self.hand.put(rt, wish)
    }
}

/// All hands of a line.
#[derive(Drop)]
pub struct Hands<H: Hand> {
    /// Those of the writers: the first has number 1.
    pub writers: Vec<H>,
    /// That of the cleaner, number 9, which is there also where no cleaner is.
    pub cleaner: H,
    /// That of the control, number 10.
    pub control: Control<H>,
}

/// All ends of a line.
#[derive(Drop)]
pub struct Ends<H: Hand, T: Taker> {
    /// Where requests come in.
    pub hands: Hands<H>,
    /// Where they go out.
    pub taker: T,
}

/// A taker that takes all ends of its line back, in one thread.
pub trait Settle: Taker {
    /// The hands of the same form.
    type Of: Hand;

    /// Returns what was handed in and never taken. So all that a hand accepted was taken, or is in
    /// here after that. Precondition: `hands` and the taker belong to one line, and no end of it is
    /// missing.
    ///
    /// `Memory` alone, if allocation failed: the ends are then gone, with what waited. Then too
    /// what was taken of each hand is a beginning of what it accepted.
    fn settle<R: Wait>(
        self,
        rt: &R,
        alloc: Global,
        hands: Hands<Self::Of>,
    ) -> Result<Settled, SettleFault>
        requires { Self.ends self
            ≡ map (λ h. (Self.Of.sender h, Self.Of.line h)) (all_hands hands) }
        ensures settled { IfOk result (λ s. IsSettled Self.Of.sender Self.Of.accepted
            (all_hands hands) (Self.taken self) s.waiting.items) }
        ensures taken { WasSettled Self.Of.sender Self.Of.accepted (all_hands hands)
            (Self.taken self) };
}
