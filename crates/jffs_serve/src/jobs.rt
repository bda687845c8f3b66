//! The ring of jobs: images of oldest sectors, on their way from the log side to the cleaner.

ghost use Rattle.std.specs.Prelude.{◌≡◌, ◌⊎◌, ◌<◌, ◌↔◌, IsErrOf, IfOk, IfErr};
ghost use Rattle.jffs_serve.specs.Jobs.{IsJobRing};
ghost use Rattle.jffs_serve.specs.declared.jobs.TheConstants.{JOBS_MAX};

use jffs_line::LineFault;
use rtrb::{Consumer, Producer, PushError, RingBuffer};
use std::alloc::Global;

/// The most images that a ring of jobs holds.
pub const JOBS_MAX: usize = 64;

/// The log thread's end of the ring of jobs.
#[derive(Drop)]
pub struct Jobs {
    pub(crate) producer: Producer<Vec<u8>>,
}

/// The cleaner's end of the ring of jobs.
#[derive(Drop)]
pub struct JobEnd {
    pub(crate) consumer: Consumer<Vec<u8>>,
}

/// A ring for `capacity` images, 1 to [`JOBS_MAX`], with nothing in it.
///
/// `Capacity` for any other number, `Memory` if allocation failed.
pub fn job_ring(alloc: Global, capacity: usize) -> Result<(Jobs, JobEnd), LineFault>
    ensures made { IfOk result (λ ring. IsJobRing capacity ring.0 ring.1) }
    ensures capacity { IsErrOf result LineFault.Capacity
        ↔ ((capacity ≡ 0) ⊎ (JOBS_MAX < capacity)) }
    ensures refused { IfErr result
        (λ why. (why ≡ LineFault.Capacity) ⊎ (why ≡ LineFault.Memory)) }
{
    if capacity == 0 || capacity > JOBS_MAX {
        return Err(LineFault::Capacity);
    }
    match RingBuffer::new(alloc, capacity) {
        Ok((producer, consumer)) => Ok((Jobs { producer }, JobEnd { consumer })),
        Err(_) => Err(LineFault::Memory),
    }
}

impl Jobs {
    ghost use Rattle.std.specs.Prelude.{◌≡◌, ◌++◌, ◌∷◌, [], OnOk, IfErr};
    ghost use Rattle.rtrb.specs.Ring.{sent};

    /// Adds an image at the end of the ring. A full ring hands it back, and nothing is changed.
    /// Takes no memory.
    pub fn send(&mut self, image: Vec<u8>) -> Result<(), Vec<u8>>
        ensures added { OnOk result
            (sent self.new.producer ≡ sent self.old.producer ++ image ∷ []) }
        ensures full { IfErr result
            (λ back. (back ≡ image) × (sent self.new.producer ≡ sent self.old.producer)) }
    {
        match self.producer.push(image) {
            Ok(()) => Ok(()),
            Err(PushError::Full(image)) => Err(image),
        }
    }

    /// Whether no slot is free. The cleaner may free one at any time.
    pub(crate) fn is_full(&mut self) -> bool
        ensures { sent self.new.producer ≡ sent self.old.producer }
    {
        self.producer.is_full()
    }
}

impl JobEnd {
    ghost use Rattle.std.specs.Prelude.{◌≡◌, ◌++◌};
    ghost use Rattle.rtrb.specs.Ring.{received};
    ghost use Rattle.jffs_serve.specs.Cleaning.{images_of};

    /// Takes the image that was sent first; none where no image waits. Takes no memory.
    pub fn take(&mut self) -> Option<Vec<u8>>
        ensures { received self.new.consumer ≡ received self.old.consumer ++ images_of result }
    {
        self.consumer.pop().ok()
    }
}
