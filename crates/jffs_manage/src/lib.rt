//! What the program `jffs_volume` does: it looks into a volume in a file, and changes what is
//! there.
//!
//! It stands on `jffs_session` for the volume and on `jffs_file` for the file. [`run_volume`] is the
//! program; `arguments` reads its words, `mounting` opens the file, `looking`, `mapping` and
//! `drawing` write what is there, `asking` and `changing` have it changed, `rooming` sees that a put
//! has room before it begins, and `leftover` what one that was stopped has left, `hosting` carries
//! whole trees from and to a directory of the host, `salvaging` saves what is left of a volume that
//! is refused, and `serving` answers a client's requests, which `wanting` reads and `answering` looks
//! up.
#![tactic(auto)]

mod answering;
mod arguments;
mod asking;
mod changing;
mod drawing;
mod fault;
mod help;
mod hosting;
mod leftover;
mod looking;
mod mapping;
mod mounting;
mod program;
mod reached;
mod rooming;
mod salvaging;
mod serving;
mod walking;
mod wanting;

pub use arguments::CallFault;
pub use fault::VolumeFault;
pub use leftover::{Leftover, Unseen};
pub use program::run_volume;
