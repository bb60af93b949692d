//! Why a pair refuses a call.
ghost use Rattle.std.specs.Prelude.{◌≡◌};

use std::alloc::{AllocError, AllocFailed};
use thiserror::Error;

/// Why a pair refused a call. Nothing has changed, unless an attach is half-way or a message could not be
/// decoded.
#[derive(Clone, Copy, Debug, PartialEq, Eq, Error)]
pub enum PairError {
    /// Both endpoints are attached already.
    #[error("the endpoints are attached already")]
    AlreadyAttached,
    /// The endpoints have begun to attach at another limit. Attach again with that one.
    #[error("the endpoints are attaching at another frame limit")]
    LimitChanged,
    /// The frame limit leaves no room for a transfer that resumes, or for an attach. Try a larger one.
    #[error("the frame limit is too small")]
    LimitTooSmall,
    /// The endpoints are not attached. Attach them first.
    #[error("the endpoints are not attached")]
    NotAttached,
    /// Deliveries are still to be resumed or put back.
    #[error("deliveries are still to be resumed")]
    ResumeFirst,
    /// The payload has 2^32 bytes or more.
    #[error("the payload is too long")]
    PayloadTooLong,
    /// The receiver has granted no more credit. Try again after a grant.
    #[error("there is no link credit")]
    CreditMissing,
    /// The delivery-count has wrapped to the tag of a delivery that is still pending.
    #[error("a delivery of the next tag is pending")]
    TagPending,
    /// No transfer is under way.
    #[error("no transfer is under way")]
    WireEmpty,
    /// Deliveries of the last exchange are still to be resumed or put back.
    #[error("deliveries are still handed out")]
    StillHandedOut,
    /// No delivery is left to resume.
    #[error("nothing is to be resumed")]
    NothingToResume,
    /// The receiver holds nothing of the delivery with this tag.
    #[error("nothing is held of this delivery")]
    UnknownTag,
    /// The last transfer of the delivery has not arrived.
    #[error("the delivery is not complete")]
    NotWhole,
    /// The last transfer of the delivery has arrived.
    #[error("the last transfer of the delivery has arrived")]
    AlreadyWhole,
    /// The delivery was handed out already.
    #[error("the delivery was handed out already")]
    AlreadyHandedOut,
    /// The receiver has no credit left: a resumed delivery takes one here. Grant credit, then hand it out.
    #[error("the transfer limit is exceeded")]
    TransferLimitExceeded,
    /// The message could not be decoded. It counts as handed out: settle it.
    #[error("the message could not be decoded")]
    Decode,
    /// A transfer of this delivery is still under way.
    #[error("a transfer of this delivery is under way")]
    OnWire,
    /// Out of memory. The same call may be made again.
    #[error("out of memory")]
    OutOfMemory,
}

impl From<AllocError> for PairError {
    ghost use Rattle.amqp_link_worlds.specs.declared.error.PairError.TheVariants.{OutOfMemory};

    ghost from_gives = { λ _ error. error ≡ OutOfMemory };

    fn from(_error: AllocError) -> PairError {
        PairError::OutOfMemory
    }
}

impl<T: Drop> From<AllocFailed<T>> for PairError {
    ghost use Rattle.amqp_link_worlds.specs.declared.error.PairError.TheVariants.{OutOfMemory};

    ghost from_gives = { λ _ error. error ≡ OutOfMemory };

    fn from(_error: AllocFailed<T>) -> PairError {
        PairError::OutOfMemory
    }
}
