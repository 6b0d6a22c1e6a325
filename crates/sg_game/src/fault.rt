ghost use Rattle.std.specs.Prelude.{◌≡◌};
ghost use Rattle.sg_game.specs.declared.fault.BuildFault.TheVariants.{Memory, Refused};

use sg_model::GameFault;
use std::alloc::{AllocError, AllocFailed};
use thiserror::Error;

/// Why no game is made of parts.
#[derive(Debug, Drop, Error)]
pub enum BuildFault {
    /// The first rule that they break.
    #[error("the parts are no game, for reason {}", .0.reason)]
    Refused(GameFault),
    /// Memory ran out.
    #[error("memory ran out")]
    Memory,
}

impl From<GameFault> for BuildFault {
    ghost from_gives = { λ fault e. e ≡ Refused fault };

    fn from(fault: GameFault) -> BuildFault {
        BuildFault::Refused(fault)
    }
}

impl From<AllocError> for BuildFault {
    ghost from_gives = { λ _ e. e ≡ Memory };

    fn from(_e: AllocError) -> BuildFault {
        BuildFault::Memory
    }
}

impl<T: Drop> From<AllocFailed<T>> for BuildFault {
    ghost from_gives = { λ _ e. e ≡ Memory };

    fn from(_e: AllocFailed<T>) -> BuildFault {
        BuildFault::Memory
    }
}
