//! Why there is no shorter schedule.

ghost use Rattle.std.specs.Prelude.{◌≡◌};
ghost use Rattle.shrink.specs.declared.faults.ShrinkError.TheVariants.{NoMemory};

use std::alloc::{AllocError, AllocFailed};
use thiserror::Error;

/// Why a schedule isn't shrunk, or that memory ran out. Each has the number by which texts name it.
#[derive(Clone, Copy, Debug, PartialEq, Eq, Error)]
pub enum ShrinkError {
    #[error("no memory")]
    NoMemory,
    /// At the end of the run a hart hasn't ended, or a store is pending.
    #[error("not finished")]
    NotFinished,
}

impl ShrinkError {
    ghost use Rattle.shrink.specs.Shrinking.{shrink_number};

    /// The number by which texts name it.
    pub fn number(self) -> u8
        ensures { result ≡ shrink_number self }
    {
        match self {
            ShrinkError::NoMemory => 0,
            ShrinkError::NotFinished => 40,
        }
    }
}

impl From<AllocError> for ShrinkError {
    ghost from_gives = { λ _ e. e ≡ NoMemory };

    fn from(_error: AllocError) -> ShrinkError {
        ShrinkError::NoMemory
    }
}

impl<T: Drop> From<AllocFailed<T>> for ShrinkError {
    ghost from_gives = { λ _ e. e ≡ NoMemory };

    fn from(_error: AllocFailed<T>) -> ShrinkError {
        ShrinkError::NoMemory
    }
}
