//! Flash whose changes somebody else carries out.
//!
//! It stands on `jffs_flash`. [`QueuedFlash`] meets the trait `Flash`, and touches no device: each
//! change waits as a [`Call`], until whoever has the device has carried it out and says so; an erase
//! waits as two, the first of which clears the first bytes of its sector, so that one that is cut
//! off is known by them. Reads see the image as it is once all that waits is carried out.
#![tactic(auto)]

mod call;
mod handed;
mod overlay;
mod queue;

pub use call::Call;
pub use handed::HandedFlash;
pub use queue::QueuedFlash;
