//! What the one owner of a mounted volume does with it.
//!
//! A [`Session`] numbers the requests, has them answered by the core, and erases what died by them.
//! Its contracts speak of files and directories.
#![tactic(auto)]

mod looking;
mod putting;
mod session;

pub use looking::{Entry, Sight};
pub use putting::{PutFault, PutLeft, PutPaths, PutStep, are_beside};
pub use session::{Opened, Session};
