//! What ends a job before its time.

use jffs_flash::FlashNew;
use jffs_node::{NoMemory, PathFault};
use jffs_tree::Cause;
use std::alloc::{AllocError, AllocFailed};
use std::io;
use thiserror::Error;

/// Why a job had no end.
#[derive(Clone, Copy, Debug, PartialEq, Eq, Error)]
pub(crate) enum Fault {
    #[error("call it as jffs_jobs JOB NUMBER")]
    Call,
    #[error("out of memory")]
    Memory,
    #[error("the arguments or the output failed")]
    System,
    #[error("a part refused what it was asked")]
    Refused,
}

impl From<io::Error> for Fault {
    fn from(_: io::Error) -> Fault {
        Fault::System
    }
}

impl From<AllocError> for Fault {
    fn from(_: AllocError) -> Fault {
        Fault::Memory
    }
}

impl<T: Drop> From<AllocFailed<T>> for Fault {
    fn from(_: AllocFailed<T>) -> Fault {
        Fault::Memory
    }
}

impl From<NoMemory> for Fault {
    fn from(_: NoMemory) -> Fault {
        Fault::Memory
    }
}

impl From<PathFault> for Fault {
    fn from(_: PathFault) -> Fault {
        Fault::Refused
    }
}

impl From<FlashNew> for Fault {
    fn from(_: FlashNew) -> Fault {
        Fault::Memory
    }
}

impl From<Cause> for Fault {
    fn from(_: Cause) -> Fault {
        Fault::Refused
    }
}
