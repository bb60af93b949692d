//! Why a broker refuses a call. Unless a doc says otherwise, nothing has changed.
use amqp_link::errors::{
    DispositionError as LinkDispositionError, FlowError, LinkStateError, SenderAttachError,
};
use amqp_link::inbox::{DisposeError, TakeError};
use std::alloc::AllocError;

/// Why a message is not taken in.
#[derive(Debug, Drop)]
pub enum TakeInError {
    NoSuchLink,
    /// What is queued, is under way, and may come by the credit that was stated takes all of the room: the delivery stays in its
    /// inbox.
    NoRoom,
    /// The inbox refuses it, or it is out of memory.
    Inbox(TakeError),
}

/// Why no credit is stated.
#[derive(Debug, PartialEq, Eq, Drop)]
pub enum GrantError {
    NoSuchLink,
    /// There is room for fewer: `Broker::free` says for how many.
    NoRoom,
    Link(FlowError),
}

/// Why no message is sent.
#[derive(Debug, PartialEq, Eq, Drop)]
pub enum SendError {
    NoSuchLink,
    /// What the last exchange has left comes first: `Broker::resume_next`.
    StillResuming,
    Link(LinkStateError),
}

/// Why a disposition is not taken.
#[derive(Debug, PartialEq, Eq, Drop)]
pub enum DispositionError {
    NoSuchLink,
    Link(LinkDispositionError),
}

/// Why a delivery is not settled.
#[derive(Clone, Copy, Debug, PartialEq, Eq)]
pub enum SettleError {
    NoSuchLink,
    /// Its outcome is not known.
    NoOutcome,
    /// The inbox refuses it, or it is out of memory.
    Inbox(DisposeError),
}

/// Why an attach is not taken.
#[derive(Debug, Drop)]
pub enum AttachError {
    NoSuchLink,
    /// What the exchange before has left is to be put back first: `Broker::put_back_next`.
    StillResuming,
    Link(SenderAttachError),
}

impl From<AllocError> for SettleError {
    ghost use Rattle.std.specs.Prelude.{◌≡◌};
    ghost use Rattle.amqp_link.specs.declared.inbox.DisposeError.TheVariants.{OutOfMemory};
    ghost use Rattle.amqp_link_uses.specs.declared.broker.errors.SettleError.TheVariants.{Inbox};

    ghost from_gives = { λ _ error. error ≡ Inbox OutOfMemory };

    fn from(_error: AllocError) -> SettleError {
        SettleError::Inbox(DisposeError::OutOfMemory)
    }
}
