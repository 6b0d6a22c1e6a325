//! Why a game file is refused.

ghost use Rattle.std.specs.Prelude.{◌≡◌};
ghost use Rattle.sg_format.specs.Steps.{passed};
ghost use Rattle.sg_file.specs.declared.fault.GameError.TheVariants.{Memory, Refused};

use sg_game::{GameFault, Place};
use std::alloc::{AllocError, AllocFailed};
use thiserror::Error;

/// Why there is no game.
#[derive(Debug, Drop, Error)]
pub enum GameError {
    /// The bytes are no game file: the first rule that they break.
    #[error("the bytes are no game file, for reason {}", .0.reason)]
    Refused(GameFault),
    /// Memory ran out.
    #[error("memory ran out")]
    Memory,
}

impl From<GameFault> for GameError {
    ghost from_gives = { λ fault e. e ≡ Refused fault };

    fn from(fault: GameFault) -> GameError {
        GameError::Refused(fault)
    }
}

impl From<AllocError> for GameError {
    ghost from_gives = { λ _ e. e ≡ Memory };

    fn from(_e: AllocError) -> GameError {
        GameError::Memory
    }
}

impl<T: Drop> From<AllocFailed<T>> for GameError {
    ghost from_gives = { λ _ e. e ≡ Memory };

    fn from(_e: AllocFailed<T>) -> GameError {
        GameError::Memory
    }
}

pub(crate) fn fault(reason: u8, place: Place) -> GameFault
    ensures { result ≡ record { reason = reason; place = place } }
{
    GameFault { reason, place }
}

/// Nothing where the test passes, or this fault.
pub(crate) fn check(test: bool, reason: u8, place: Place) -> Result<(), GameFault>
    ensures { result ≡ passed test reason place }
{
    if test {
        Ok(())
    } else {
        Err(fault(reason, place))
    }
}
