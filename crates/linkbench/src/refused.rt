//! Why a work ended early: a call was refused, out of memory or for another reason, so that nothing is measured.
pub use program_support::{Refused, done};

/// A value, unless what completes it was refused.
pub fn completed<T: Drop>(value: T, answer: Result<(), Refused>) -> Result<T, Refused> {
    match answer {
        Ok(()) => Ok(value),
        Err(refused) => {
            drop(value);
            Err(refused)
        }
    }
}
