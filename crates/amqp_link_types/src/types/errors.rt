//! Why a call of a link is refused.
ghost use Rattle.std.specs.Prelude.{◌≡◌, true, false, IfOk, OnErr};
ghost use Rattle.amqp_link_types.specs.Copies.{refusal_carries_more};

use crate::delivery::DeliveryInfo;
use crate::types::definitions::Error as RemoteError;
use crate::types::stop_reason::SessionStopReason;
use amqp_link_payloads::DecodeError;
use amqp_link_values::symbols::Symbols;
use std::alloc::{AllocError, AllocFailed};
use thiserror::Error;

/// Why a call of a link was refused. The call's doc states what the refusal leaves; if it states nothing,
/// nothing has changed.
#[derive(Debug, PartialEq, Eq, Drop, Error)]
pub enum LinkStateError {
    /// The state of the link does not allow this call, or a handle or a tag is missing.
    #[error("the link is not in a state for this call")]
    IllegalState,
    /// The peer has detached the link. It may be attached again.
    #[error("the other end has detached the link")]
    RemoteDetached,
    /// The peer has detached the link with this error. It may be attached again.
    #[error("the other end has detached the link with an error")]
    RemoteDetachedWithError(RemoteError),
    /// The peer has closed the link.
    #[error("the other end has closed the link")]
    RemoteClosed,
    /// The peer has closed the link with this error.
    #[error("the other end has closed the link with an error")]
    RemoteClosedWithError(RemoteError),
    /// A frame is pending that is no detach, where only a detach is expected; or the session has stopped
    /// without a reason.
    #[error("only a detach may come here")]
    ExpectImmediateDetach,
    /// The session has stopped for this reason.
    #[error("the session has stopped")]
    SessionStopped(SessionStopReason),
    /// The delivery's tag is that of a pending delivery. Try again once that is settled.
    #[error("a delivery of this tag is pending")]
    TagPending,
    /// The frame limit leaves no room for a transfer of this delivery. Every later try with this
    /// limit is refused as well.
    #[error("no room for the transfer in a frame")]
    NoRoom,
    /// Out of memory.
    #[error("out of memory")]
    OutOfMemory,
}

impl Clone for LinkStateError {
    ghost is_clone = { λ error copy. copy ≡ error };

    ghost is_infallible = { λ error. refusal_carries_more error ≡ false };

    fn clone(&self) -> Result<LinkStateError, AllocError>
        ensures copy { IfOk result (λ copy. copy ≡ self.now) }
        ensures memory { OnErr result (refusal_carries_more self.now ≡ true) }
    {
        let copy = match self {
            LinkStateError::IllegalState => LinkStateError::IllegalState,
            LinkStateError::RemoteDetached => LinkStateError::RemoteDetached,
            LinkStateError::RemoteDetachedWithError(error) => {
                LinkStateError::RemoteDetachedWithError(error.clone()?)
            }
            LinkStateError::RemoteClosed => LinkStateError::RemoteClosed,
            LinkStateError::RemoteClosedWithError(error) => {
                LinkStateError::RemoteClosedWithError(error.clone()?)
            }
            LinkStateError::ExpectImmediateDetach => LinkStateError::ExpectImmediateDetach,
            LinkStateError::SessionStopped(reason) => {
                LinkStateError::SessionStopped(reason.clone()?)
            }
            LinkStateError::TagPending => LinkStateError::TagPending,
            LinkStateError::NoRoom => LinkStateError::NoRoom,
            LinkStateError::OutOfMemory => LinkStateError::OutOfMemory,
        };
        Ok(copy)
    }
}

impl From<AllocError> for LinkStateError {
    ghost use Rattle.amqp_link_types.specs.declared.types.errors.LinkStateError.TheVariants.{OutOfMemory};

    ghost from_gives = { λ _ error. error ≡ OutOfMemory };

    fn from(_error: AllocError) -> LinkStateError {
        LinkStateError::OutOfMemory
    }
}

impl<T: Drop> From<AllocFailed<T>> for LinkStateError {
    ghost use Rattle.amqp_link_types.specs.declared.types.errors.LinkStateError.TheVariants.{OutOfMemory};

    ghost from_gives = { λ _ error. error ≡ OutOfMemory };

    fn from(_error: AllocFailed<T>) -> LinkStateError {
        LinkStateError::OutOfMemory
    }
}

/// Why a detach was refused, or the error that the peer's reply to a detach carries.
#[derive(Debug, PartialEq, Eq, Drop, Error)]
pub enum DetachError {
    /// The state of the link does not allow this call, or the link has no output handle.
    #[error("the link is not in a state for this call")]
    IllegalState,
    /// The peer has detached the link with this error.
    #[error("the other end has detached the link with an error")]
    RemoteDetachedWithError(RemoteError),
    /// The peer has closed the link with this error.
    #[error("the other end has closed the link with an error")]
    RemoteClosedWithError(RemoteError),
}

/// Why a detach that the peer initiated was not recorded, or the error that a recorded one carries.
#[derive(Debug, PartialEq, Eq, Drop, Error)]
pub enum ApplyRemoteDetachError {
    /// The link is not attached, so nothing was recorded.
    #[error("the link is not in a state for this call")]
    IllegalState,
    /// The peer has detached the link with this error, which is recorded.
    #[error("the other end has detached the link with an error")]
    RemoteDetachedWithError(RemoteError),
    /// The peer has closed the link with this error, which is recorded.
    #[error("the other end has closed the link with an error")]
    RemoteClosedWithError(RemoteError),
}

/// Why the attach of a sender's link endpoint fails: by the attach that it sends, by the one that arrives, or
/// by what arrives in its place. The links return the errors of the first two. The session reports what
/// arrives in its place, and passes it to `handle_attach_error`.
#[derive(Debug, PartialEq, Eq, Drop, Error)]
pub enum SenderAttachError {
    /// The session has stopped for this reason.
    #[error("the session has stopped")]
    SessionStopped(SessionStopReason),
    /// The session is not mapped, so that no link can be attached in it.
    #[error("the session is not mapped")]
    SessionNotMapped,
    /// The state of the link does not allow this call, or the link has no output handle.
    #[error("the link is not in a state for this call")]
    IllegalState,
    /// Another frame arrived in place of the attach.
    #[error("another frame arrived in place of the attach")]
    NonAttachFrameReceived,
    /// The peer refuses the link (2.6.3), and the detach that has to follow did not arrive.
    #[error("the detach of a refused link did not arrive")]
    ExpectImmediateDetach,
    /// The peer has closed the link with this error.
    #[error("the peer has closed the link with an error")]
    RemoteClosedWithError(RemoteError),
    /// Another link of the session has the same name (2.6.1).
    #[error("another link of the session has the same name")]
    DuplicatedLinkName,
    /// The target is of a kind that the link does not take.
    #[error("the target is of a kind that the link does not take")]
    CoordinatorIsNotImplemented,
    /// The peer has no target: it refuses the link (2.6.3).
    #[error("the peer has no target")]
    IncomingTargetIsNone,
    /// One of the two endpoints settles what the other leaves unsettled.
    #[error("the two endpoints do not agree on when the sender settles")]
    SndSettleModeNotSupported,
    /// The peer asks for a dynamic source and gives its address, which is for the sender to choose (3.5.3).
    #[error("the source that is to be made has an address already")]
    SourceAddressIsSomeWhenDynamicIsTrue,
    /// The peer has made a dynamic target and does not give its address (3.5.4).
    #[error("the target that was made has no address")]
    TargetAddressIsNoneWhenDynamicIsTrue,
    /// A terminus that is not dynamic has properties of a dynamic node (3.5.3, 3.5.4).
    #[error("a terminus that is not dynamic has properties of a dynamic node")]
    DynamicNodePropertiesIsSomeWhenDynamicIsFalse,
    /// The attach is larger than a frame, even if it states no unsettled delivery.
    #[error("the attach is larger than a frame")]
    AttachTooLarge,
    /// Out of memory.
    #[error("out of memory")]
    OutOfMemory,
}

impl From<AllocError> for SenderAttachError {
    ghost use Rattle.amqp_link_types.specs.declared.types.errors.SenderAttachError.TheVariants.{OutOfMemory};

    ghost from_gives = { λ _ error. error ≡ OutOfMemory };

    fn from(_error: AllocError) -> SenderAttachError {
        SenderAttachError::OutOfMemory
    }
}

/// Why the attach of a receiver's link endpoint fails: by the attach that it sends, by the one that arrives,
/// or by what arrives in its place. The links return the errors of the first two. The session reports what
/// arrives in its place, and passes it to `handle_attach_error`.
#[derive(Debug, PartialEq, Eq, Drop, Error)]
pub enum ReceiverAttachError {
    /// The session has stopped for this reason.
    #[error("the session has stopped")]
    SessionStopped(SessionStopReason),
    /// The state of the link does not allow this call, or the link has no output handle.
    #[error("the link is not in a state for this call")]
    IllegalState,
    /// Another frame arrived in place of the attach.
    #[error("another frame arrived in place of the attach")]
    NonAttachFrameReceived,
    /// The peer refuses the link (2.6.3), and the detach that has to follow did not arrive.
    #[error("the detach of a refused link did not arrive")]
    ExpectImmediateDetach,
    /// The peer has closed the link with this error.
    #[error("the peer has closed the link with an error")]
    RemoteClosedWithError(RemoteError),
    /// Another link of the session has the same name (2.6.1).
    #[error("another link of the session has the same name")]
    DuplicatedLinkName,
    /// The peer has no source: it refuses the link (2.6.3).
    #[error("the peer has no source")]
    IncomingSourceIsNone,
    /// The sender does not state its initial delivery-count (2.7.3).
    #[error("the sender does not state its initial delivery-count")]
    InitialDeliveryCountIsNone,
    /// The target is of a kind that the link does not take.
    #[error("the target is of a kind that the link does not take")]
    CoordinatorIsNotImplemented,
    /// The receiver asked for filters of these names, and they are not in place (3.5.8).
    #[error("filters that were asked for are not in place")]
    DesiredFilterNotSupported(Symbols),
    /// The peer has made a dynamic source and does not give its address (3.5.3).
    #[error("the source that was made has no address")]
    SourceAddressIsNoneWhenDynamicIsTrue,
    /// The peer asks for a dynamic target and gives its address, which is for the receiver to choose (3.5.4).
    #[error("the target that is to be made has an address already")]
    TargetAddressIsSomeWhenDynamicIsTrue,
    /// A terminus that is not dynamic has properties of a dynamic node (3.5.3, 3.5.4).
    #[error("a terminus that is not dynamic has properties of a dynamic node")]
    DynamicNodePropertiesIsSomeWhenDynamicIsFalse,
    /// The attach is larger than a frame, even if it states no unsettled delivery.
    #[error("the attach is larger than a frame")]
    AttachTooLarge,
    /// Out of memory.
    #[error("out of memory")]
    OutOfMemory,
}

impl From<AllocError> for ReceiverAttachError {
    ghost use Rattle.amqp_link_types.specs.declared.types.errors.ReceiverAttachError.TheVariants.{OutOfMemory};

    ghost from_gives = { λ _ error. error ≡ OutOfMemory };

    fn from(_error: AllocError) -> ReceiverAttachError {
        ReceiverAttachError::OutOfMemory
    }
}

/// A delivery is complete, and its bytes could not be decoded as a message. Its user settles it like any
/// other.
#[derive(Debug, PartialEq, Eq, Drop, Error)]
#[error("the message of a delivery was not read")]
pub struct MessageDecodeError {
    /// Why the bytes could not be decoded.
    pub source: DecodeError,
    /// Which delivery it is, and how it is to be settled.
    pub info: DeliveryInfo,
}

/// Why a transfer that arrived was refused. What is held of the delivery stays as it was; the call's doc
/// states what the refusal leaves of the link.
#[derive(Debug, PartialEq, Eq, Drop, Error)]
pub enum ReceiverTransferError {
    /// The state of the link does not allow transfers, or the link has no output handle.
    #[error("the link is not in a state for this call")]
    IllegalState,
    /// There is less link-credit than the delivery takes (2.6.7). Not always the sender's fault: the receiver may
    /// have lowered its credit while the delivery was under way, and a delivery that is resumed takes a credit here
    /// and none at the sender.
    #[error("there is less link credit than the delivery takes")]
    TransferLimitExceeded,
    /// The first transfer of a delivery has no delivery id. The sender's fault (2.7.5).
    #[error("the first transfer has no delivery id")]
    DeliveryIdIsNone,
    /// The first transfer of a delivery has no delivery tag. The sender's fault (2.7.5).
    #[error("the first transfer has no delivery tag")]
    DeliveryTagIsNone,
    /// The transfer has receiver settle mode second on a link of mode first. The sender's fault (2.7.5).
    #[error("the transfer asks for a receiver settle mode that the link does not have")]
    IllegalRcvSettleModeInTransfer,
    /// The transfer's tag, id or format is not the delivery's. The sender's fault (2.7.5).
    #[error("a field is not that of the delivery")]
    InconsistentFieldInMultiFrameDelivery,
    /// The delivery's size passes u64, or the number of its sections past the first passes u32.
    #[error("the payload is too long")]
    PayloadTooLong,
    /// The delivery is complete, and its bytes could not be decoded as a message.
    #[error("the message of the delivery was not read")]
    MessageDecode(MessageDecodeError),
    /// Out of memory.
    #[error("out of memory")]
    OutOfMemory,
}

impl From<AllocError> for ReceiverTransferError {
    ghost use Rattle.amqp_link_types.specs.declared.types.errors.ReceiverTransferError.TheVariants.{OutOfMemory};

    ghost from_gives = { λ _ error. error ≡ OutOfMemory };

    fn from(_error: AllocError) -> ReceiverTransferError {
        ReceiverTransferError::OutOfMemory
    }
}

impl<T: Drop> From<AllocFailed<T>> for ReceiverTransferError {
    ghost use Rattle.amqp_link_types.specs.declared.types.errors.ReceiverTransferError.TheVariants.{OutOfMemory};

    ghost from_gives = { λ _ error. error ≡ OutOfMemory };

    fn from(_error: AllocFailed<T>) -> ReceiverTransferError {
        ReceiverTransferError::OutOfMemory
    }
}

/// Why a flow was not returned. Nothing has changed.
#[derive(Clone, Copy, Debug, PartialEq, Eq, Error)]
pub enum FlowError {
    /// The link has no output handle for the flow.
    #[error("the link has no output handle")]
    IllegalState,
    /// Out of memory: the properties were not copied.
    #[error("out of memory")]
    OutOfMemory,
}

impl From<AllocError> for FlowError {
    ghost use Rattle.amqp_link_types.specs.declared.types.errors.FlowError.TheVariants.{OutOfMemory};

    ghost from_gives = { λ _ error. error ≡ OutOfMemory };

    fn from(_error: AllocError) -> FlowError {
        FlowError::OutOfMemory
    }
}

/// Why deliveries were not disposed of. Nothing has changed.
#[derive(Clone, Copy, Debug, PartialEq, Eq, Error)]
pub enum DispositionError {
    /// Out of memory.
    #[error("out of memory")]
    OutOfMemory,
}

impl From<AllocError> for DispositionError {
    ghost use Rattle.amqp_link_types.specs.declared.types.errors.DispositionError.TheVariants.{OutOfMemory};

    ghost from_gives = { λ _ error. error ≡ OutOfMemory };

    fn from(_error: AllocError) -> DispositionError {
        DispositionError::OutOfMemory
    }
}

/// Why a frame that the session passes to a link was refused. Nothing has changed.
#[derive(Clone, Copy, Debug, PartialEq, Eq, Error)]
pub enum LinkRelayError {
    /// The link has no output handle: it is not attached.
    #[error("the link has no output handle")]
    UnattachedHandle,
    /// A transfer arrived at a sender. The peer's fault (2.6.12).
    #[error("a transfer came to a sender")]
    TransferFrameToSender,
    /// Out of memory.
    #[error("out of memory")]
    OutOfMemory,
}

impl From<AllocError> for LinkRelayError {
    ghost use Rattle.amqp_link_types.specs.declared.types.errors.LinkRelayError.TheVariants.{OutOfMemory};

    ghost from_gives = { λ _ error. error ≡ OutOfMemory };

    fn from(_error: AllocError) -> LinkRelayError {
        LinkRelayError::OutOfMemory
    }
}
