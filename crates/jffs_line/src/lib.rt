//! The line between the senders of requests and the log: one shared queue, or a ring for each
//! sender.
//!
//! Both forms have the same traits, with the same words: a [`Hand`] hands in the wishes of
//! one sender, a [`Taker`] takes requests, and [`Settle`] takes all ends back and gives
//! what nobody took. `settle` carries the line's promise: of each sender, what was taken and then
//! what waits is what it accepted, numbered
//! 1, 2, 3, .. The shared form is one channel of `crossbeam_channel`, where each end holds a pass
//! of its own;
//! the other has a ring of `rtrb` for each sender.
#![tactic(auto)]

mod hand;
mod knows;
mod request;
mod rings;
mod shared;

pub use hand::{CLEANER, CONTROL, Control, Ends, Hand, Hands, Settle, Taker};
pub use request::{LineFault, NotTaken, Request, SettleFault, Settled, Why};
pub use rings::{RingHand, RingLine, RingTaker, ring_line};
pub use shared::{SharedHand, SharedLine, SharedTaker, shared_line};
