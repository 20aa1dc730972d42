// Why a step is refused.

ghost use Rattle.std.specs.Prelude.{◌≡◌};
ghost use Rattle.orca_parts.specs.declared.fault.StepFault.TheVariants.{NoMemory as no_memory};

use orca_names::{ActorName, NoMemory};
use std::alloc::AllocError;
use thiserror::Error;

/// Why the machine refused an event.
#[derive(Clone, Copy, Debug, PartialEq, Eq, Error)]
pub enum StepFault {
    /// The event is not enabled.
    #[error("the event is not enabled")]
    NotEnabled,
    /// The actor would make one more, and as many as there may be are made.
    #[error("all actors are made")]
    ActorsFull { actor: ActorName },
    /// The actor's turn would make more rows than there are free blocks.
    #[error("all blocks for rows are taken")]
    NoRows { actor: ActorName },
    /// Memory was refused.
    #[error("out of memory")]
    NoMemory,
}

impl From<NoMemory> for StepFault {
    ghost from_gives = { λ _ e. e ≡ no_memory };

    fn from(_: NoMemory) -> StepFault {
        StepFault::NoMemory
    }
}

impl From<AllocError> for StepFault {
    ghost from_gives = { λ _ e. e ≡ no_memory };

    fn from(_: AllocError) -> StepFault {
        StepFault::NoMemory
    }
}
