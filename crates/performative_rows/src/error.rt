//! Why a row cannot be read.
use std::alloc::{AllocError, AllocFailed};
use std::num::TryFromIntError;

/// Why a row cannot be read.
#[derive(Clone, Copy)]
pub enum RowError {
    /// The line is no row.
    NotARow,
    /// Out of memory for the values of the row.
    OutOfMemory,
}

impl From<AllocError> for RowError {
    ghost use Rattle.std.specs.Prelude.{◌≡◌};
    ghost use Rattle.performative_rows.specs.declared.error.RowError.TheVariants.{OutOfMemory};

    ghost from_gives = { λ _ error. error ≡ OutOfMemory };

    fn from(_error: AllocError) -> RowError {
        RowError::OutOfMemory
    }
}

impl<T: Drop> From<AllocFailed<T>> for RowError {
    ghost use Rattle.std.specs.Prelude.{◌≡◌};
    ghost use Rattle.performative_rows.specs.declared.error.RowError.TheVariants.{OutOfMemory};

    ghost from_gives = { λ _ error. error ≡ OutOfMemory };

    fn from(_error: AllocFailed<T>) -> RowError {
        RowError::OutOfMemory
    }
}

impl From<TryFromIntError> for RowError {
    ghost use Rattle.std.specs.Prelude.{◌≡◌};
    ghost use Rattle.performative_rows.specs.declared.error.RowError.TheVariants.{NotARow};

    ghost from_gives = { λ _ error. error ≡ NotARow };

    fn from(_error: TryFromIntError) -> RowError {
        RowError::NotARow
    }
}
