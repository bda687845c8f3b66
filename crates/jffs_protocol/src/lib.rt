//! Requests and answers between a server of a volume and its one client, over two streams of bytes.
//!
//! `asking` has the line of each request, and `hearing` takes requests from the input. [`serve`]
//! carries the crate's promise: each answer of a [`Server`] is given before the next request is
//! taken, in order and once. What a request does, and what is answered to it, is the server's.
#![tactic(auto)]

mod asking;
mod hearing;
mod serving;

pub use asking::Ask;
pub use hearing::Room;
pub use serving::{Failure, Said, Server, StreamFault, serve};
