//! Why a program ends early.
use std::alloc::{AllocError, AllocFailed};
use std::io;

/// It is out of memory, a write has failed, or a call that it cannot go on without was refused.
#[derive(Clone, Copy)]
pub struct Refused;

impl From<AllocError> for Refused {
    fn from(_error: AllocError) -> Refused {
        Refused
    }
}

impl<T: Drop> From<AllocFailed<T>> for Refused {
    fn from(_error: AllocFailed<T>) -> Refused {
        Refused
    }
}

impl From<io::Error> for Refused {
    fn from(_error: io::Error) -> Refused {
        Refused
    }
}

/// The value that a call returned, whatever the reason if it was refused.
pub fn done<T, E: Drop>(answer: Result<T, E>) -> Result<T, Refused> {
    match answer {
        Ok(value) => Ok(value),
        Err(error) => {
            drop(error);
            Err(Refused)
        }
    }
}
