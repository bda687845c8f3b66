//! Why a run was given up.

use jffs_core::Answer;
use jffs_node::NoMemory;
use thiserror::Error;

/// Why a run was given up.
#[derive(Clone, Copy, Debug, PartialEq, Eq, Error)]
pub enum RunWhy {
    /// The device doesn't mount.
    #[error("Mount")]
    Mount,
    /// The line could not be made.
    #[error("Line")]
    Line,
    /// The published index could not be made.
    #[error("Index")]
    Index,
    /// A thread could not be started.
    #[error("Spawn")]
    Spawn,
    /// The ends of the line could not be taken back.
    #[error("Settle")]
    Settle,
    /// Allocation failed.
    #[error("Memory")]
    Memory,
    /// A writer's last number is used.
    #[error("Numbers")]
    Numbers,
}

impl From<NoMemory> for RunWhy {
    ghost use Rattle.jffs_run.specs.declared.fault.RunWhy.TheVariants.{Memory};
    ghost use Rattle.std.specs.Prelude.{◌≡◌};

    ghost from_gives = { λ _ why. why ≡ Memory };

    fn from(_: NoMemory) -> RunWhy {
        RunWhy::Memory
    }
}

/// A run that was given up, with the device and the answers that it gave.
#[derive(Drop)]
pub struct RunFault<F> {
    /// The first reason that was met.
    pub why: RunWhy,
    /// The device. `run_threads` gives it back whatever the reason is.
    pub flash: Option<F>,
    /// The answers that were given, in their order; none where the device didn't mount.
    pub answers: Vec<Answer>,
}

impl<F> RunFault<F> {
    ghost use Rattle.std.specs.Prelude.{◌≡◌, Some};

    /// A fault that hands the device back, after these answers.
    pub(crate) fn with_flash(why: RunWhy, flash: F, answers: Vec<Answer>) -> RunFault<F>
        ensures { result ≡ record { why = why; flash = Some flash; answers = answers } }
    {
        RunFault {
            why,
            flash: Some(flash),
            answers,
        }
    }
}
