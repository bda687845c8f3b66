//! A mounted volume for programs in C.
//!
//! It holds a session of `jffs_session`, over the device of `jffs_queue`, whose calls the C program
//! carries out. Each exported function is one of `pumpgrape.h`, and makes one call of
//! [`Volume`](volume::Volume), which holds the promises: while calls of the device are left a
//! change is refused, and after a failure everything is. How a volume crosses to C and back stands
//! in `loose` and `reach`.
#![tactic(auto)]

mod calls;
mod changes;
mod code;
mod exports;
mod handle;
mod looks;
mod loose;
mod opening;
mod place;
mod reach;
#[cfg(test)]
mod tests;
mod texts;
mod volume;
