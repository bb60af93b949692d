//! Why an inbox refuses a call.
ghost use Rattle.std.specs.Prelude.{◌≡◌};

use amqp_link_types::types::{MessageDecodeError, Payload};
use std::alloc::AllocError;
use thiserror::Error;

/// A delivery whose bytes were not decoded as a message.
#[derive(Debug, Drop)]
pub struct Undecoded {
    /// Why, and the info of the delivery.
    pub refused: MessageDecodeError,
    /// The payloads of its transfers, in order.
    pub pieces: Vec<Payload>,
}

/// Why a delivery is not taken. But for `Undecoded`, nothing has changed.
#[derive(Debug, Drop, Error)]
pub enum TakeError {
    /// No delivery with this tag is kept.
    #[error("there is no such delivery")]
    UnknownTag,
    /// The last transfer of the delivery has not arrived.
    #[error("the delivery is not complete")]
    NotComplete,
    /// The delivery was taken before.
    #[error("the delivery was taken before")]
    AlreadyTaken,
    /// The link has no output handle, which a delivery carries.
    #[error("the link is not attached")]
    NotAttached,
    /// Out of memory.
    #[error("out of memory")]
    OutOfMemory,
    /// The body refuses the bytes, which are given back. The delivery counts as taken: dispose of it, as rejected.
    #[error("the message of the delivery was not read")]
    Undecoded(Undecoded),
}

/// Why a delivery is not disposed of. Nothing has changed.
#[derive(Clone, Copy, Debug, PartialEq, Eq, Error)]
pub enum DisposeError {
    /// The link is not attached, so that no disposition can be sent: `keep_outcome` keeps the outcome.
    #[error("the link is not attached")]
    NotAttached,
    /// No unsettled delivery with this tag is kept.
    #[error("there is no such delivery")]
    UnknownTag,
    /// The delivery was not taken.
    #[error("the delivery was not taken")]
    NotTaken,
    /// The sender has not resumed the delivery since the link was attached again: it has no id to dispose of it by.
    #[error("the delivery was not resumed")]
    NotResumed,
    /// Out of memory.
    #[error("out of memory")]
    OutOfMemory,
}

impl From<AllocError> for DisposeError {
    ghost use Rattle.amqp_link_inbox.specs.declared.error.DisposeError.TheVariants.{OutOfMemory};

    ghost from_gives = { λ _ error. error ≡ OutOfMemory };

    fn from(_error: AllocError) -> DisposeError {
        DisposeError::OutOfMemory
    }
}
