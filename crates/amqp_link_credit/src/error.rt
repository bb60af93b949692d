//! Why a credit run refuses a call.
ghost use Rattle.std.specs.Prelude.{◌≡◌};

use std::alloc::{AllocError, AllocFailed};
use thiserror::Error;

/// Why a credit run refused a call. Nothing has changed.
#[derive(Clone, Copy, Debug, PartialEq, Eq, Error)]
pub enum CreditRunError {
    /// The frame limit leaves no room for a transfer, or for an attach. Try a larger one.
    #[error("the frame limit is too small")]
    LimitTooSmall,
    /// The credit is over 2^31 - 1.
    #[error("the credit is too large")]
    CreditTooLarge,
    /// The receiver's delivery-count + this credit lies before what an earlier flow stated. Grant more.
    #[error("an earlier flow has stated a greater limit")]
    LimitLowered,
    /// The payload has 2^32 bytes or more.
    #[error("the payload is too long")]
    PayloadTooLong,
    /// The sender has no link-credit. Try again after a flow has arrived.
    #[error("there is no link credit")]
    CreditMissing,
    /// The delivery-count has wrapped to the tag of a delivery that is still pending.
    #[error("a delivery of the next tag is pending")]
    TagPending,
    /// Nothing is under way.
    #[error("nothing is under way")]
    QueueEmpty,
    /// Out of memory.
    #[error("out of memory")]
    OutOfMemory,
}

impl From<AllocError> for CreditRunError {
    ghost use Rattle.amqp_link_credit.specs.declared.error.CreditRunError.TheVariants.{OutOfMemory};

    ghost from_gives = { λ _ error. error ≡ OutOfMemory };

    fn from(_error: AllocError) -> CreditRunError {
        CreditRunError::OutOfMemory
    }
}

impl<T: Drop> From<AllocFailed<T>> for CreditRunError {
    ghost use Rattle.amqp_link_credit.specs.declared.error.CreditRunError.TheVariants.{OutOfMemory};

    ghost from_gives = { λ _ error. error ≡ OutOfMemory };

    fn from(_error: AllocFailed<T>) -> CreditRunError {
        CreditRunError::OutOfMemory
    }
}
