//! Refusals of calls, which are counted by their names.
use amqp_link_types::types::{
    ApplyRemoteDetachError, DetachError, DispositionError, FlowError, LinkRelayError,
    LinkStateError, ReceiverAttachError, ReceiverTransferError, SenderAttachError,
};
use link_checks::Stop;
use peer_frames::world::World;

/// Why a call is refused.
pub trait Refusal: Drop {
    /// The name of the reason; none if it is out of memory.
    fn name(&self) -> Option<&'static str>;
}

/// Counts the reason for which a call was refused, unless it is out of memory.
pub fn count<E: Refusal>(world: &mut World, refused: &E) -> Result<(), Stop> {
    count_name(world, refused.name())
}

/// The same of a reason with this name; none if it is out of memory.
pub fn count_name(world: &mut World, name: Option<&'static str>) -> Result<(), Stop> {
    match name {
        Some(name) => {
            world.reached.count_refusal(name);
            Ok(())
        }
        None => Err(Stop::OutOfMemory),
    }
}

/// A call was refused: its reason is counted and dropped.
pub fn refuse<E: Refusal>(world: &mut World, refused: E) -> Result<(), Stop> {
    let counted = count(world, &refused);
    drop(refused);
    counted
}

/// The value that a call returns; none if it is refused, which is counted.
pub fn unless_refused<T, E: Refusal>(
    world: &mut World,
    answer: Result<T, E>,
) -> Result<Option<T>, Stop> {
    match answer {
        Ok(value) => Ok(Some(value)),
        Err(refused) => match refuse(world, refused) {
            Ok(()) => Ok(None),
            Err(stop) => Err(stop),
        },
    }
}

impl Refusal for LinkStateError {
    fn name(&self) -> Option<&'static str> {
        match self {
            LinkStateError::IllegalState => Some("LinkStateError::IllegalState"),
            LinkStateError::RemoteDetached => Some("LinkStateError::RemoteDetached"),
            LinkStateError::RemoteDetachedWithError(_) => {
                Some("LinkStateError::RemoteDetachedWithError")
            }
            LinkStateError::RemoteClosed => Some("LinkStateError::RemoteClosed"),
            LinkStateError::RemoteClosedWithError(_) => {
                Some("LinkStateError::RemoteClosedWithError")
            }
            LinkStateError::ExpectImmediateDetach => Some("LinkStateError::ExpectImmediateDetach"),
            LinkStateError::SessionStopped(_) => Some("LinkStateError::SessionStopped"),
            LinkStateError::TagPending => Some("LinkStateError::TagPending"),
            LinkStateError::NoRoom => Some("LinkStateError::NoRoom"),
            LinkStateError::OutOfMemory => None,
        }
    }
}

impl Refusal for DetachError {
    fn name(&self) -> Option<&'static str> {
        Some(match self {
            DetachError::IllegalState => "DetachError::IllegalState",
            DetachError::RemoteDetachedWithError(_) => "DetachError::RemoteDetachedWithError",
            DetachError::RemoteClosedWithError(_) => "DetachError::RemoteClosedWithError",
        })
    }
}

impl Refusal for ApplyRemoteDetachError {
    fn name(&self) -> Option<&'static str> {
        Some(match self {
            ApplyRemoteDetachError::IllegalState => "ApplyRemoteDetachError::IllegalState",
            ApplyRemoteDetachError::RemoteDetachedWithError(_) => {
                "ApplyRemoteDetachError::RemoteDetachedWithError"
            }
            ApplyRemoteDetachError::RemoteClosedWithError(_) => {
                "ApplyRemoteDetachError::RemoteClosedWithError"
            }
        })
    }
}

impl Refusal for SenderAttachError {
    fn name(&self) -> Option<&'static str> {
        match self {
            SenderAttachError::IllegalState => Some("SenderAttachError::IllegalState"),
            SenderAttachError::CoordinatorIsNotImplemented => {
                Some("SenderAttachError::CoordinatorIsNotImplemented")
            }
            SenderAttachError::IncomingTargetIsNone => {
                Some("SenderAttachError::IncomingTargetIsNone")
            }
            SenderAttachError::SndSettleModeNotSupported => {
                Some("SenderAttachError::SndSettleModeNotSupported")
            }
            SenderAttachError::SourceAddressIsSomeWhenDynamicIsTrue => {
                Some("SenderAttachError::SourceAddressIsSomeWhenDynamicIsTrue")
            }
            SenderAttachError::TargetAddressIsNoneWhenDynamicIsTrue => {
                Some("SenderAttachError::TargetAddressIsNoneWhenDynamicIsTrue")
            }
            SenderAttachError::DynamicNodePropertiesIsSomeWhenDynamicIsFalse => {
                Some("SenderAttachError::DynamicNodePropertiesIsSomeWhenDynamicIsFalse")
            }
            SenderAttachError::AttachTooLarge => Some("SenderAttachError::AttachTooLarge"),
            SenderAttachError::DuplicatedLinkName => Some("SenderAttachError::DuplicatedLinkName"),
            SenderAttachError::OutOfMemory => None,
            _ => Some("SenderAttachError::(another of the session)"),
        }
    }
}

impl Refusal for ReceiverAttachError {
    fn name(&self) -> Option<&'static str> {
        match self {
            ReceiverAttachError::IllegalState => Some("ReceiverAttachError::IllegalState"),
            ReceiverAttachError::IncomingSourceIsNone => {
                Some("ReceiverAttachError::IncomingSourceIsNone")
            }
            ReceiverAttachError::InitialDeliveryCountIsNone => {
                Some("ReceiverAttachError::InitialDeliveryCountIsNone")
            }
            ReceiverAttachError::CoordinatorIsNotImplemented => {
                Some("ReceiverAttachError::CoordinatorIsNotImplemented")
            }
            ReceiverAttachError::DesiredFilterNotSupported(_) => {
                Some("ReceiverAttachError::DesiredFilterNotSupported")
            }
            ReceiverAttachError::SourceAddressIsNoneWhenDynamicIsTrue => {
                Some("ReceiverAttachError::SourceAddressIsNoneWhenDynamicIsTrue")
            }
            ReceiverAttachError::TargetAddressIsSomeWhenDynamicIsTrue => {
                Some("ReceiverAttachError::TargetAddressIsSomeWhenDynamicIsTrue")
            }
            ReceiverAttachError::DynamicNodePropertiesIsSomeWhenDynamicIsFalse => {
                Some("ReceiverAttachError::DynamicNodePropertiesIsSomeWhenDynamicIsFalse")
            }
            ReceiverAttachError::AttachTooLarge => Some("ReceiverAttachError::AttachTooLarge"),
            ReceiverAttachError::DuplicatedLinkName => {
                Some("ReceiverAttachError::DuplicatedLinkName")
            }
            ReceiverAttachError::OutOfMemory => None,
            _ => Some("ReceiverAttachError::(another of the session)"),
        }
    }
}

impl Refusal for ReceiverTransferError {
    fn name(&self) -> Option<&'static str> {
        match self {
            ReceiverTransferError::IllegalState => Some("ReceiverTransferError::IllegalState"),
            ReceiverTransferError::TransferLimitExceeded => {
                Some("ReceiverTransferError::TransferLimitExceeded")
            }
            ReceiverTransferError::DeliveryIdIsNone => {
                Some("ReceiverTransferError::DeliveryIdIsNone")
            }
            ReceiverTransferError::DeliveryTagIsNone => {
                Some("ReceiverTransferError::DeliveryTagIsNone")
            }
            ReceiverTransferError::IllegalRcvSettleModeInTransfer => {
                Some("ReceiverTransferError::IllegalRcvSettleModeInTransfer")
            }
            ReceiverTransferError::InconsistentFieldInMultiFrameDelivery => {
                Some("ReceiverTransferError::InconsistentFieldInMultiFrameDelivery")
            }
            ReceiverTransferError::PayloadTooLong => Some("ReceiverTransferError::PayloadTooLong"),
            ReceiverTransferError::MessageDecode(_) => {
                Some("ReceiverTransferError::MessageDecode")
            }
            ReceiverTransferError::OutOfMemory => None,
        }
    }
}

impl Refusal for FlowError {
    fn name(&self) -> Option<&'static str> {
        match self {
            FlowError::IllegalState => Some("FlowError::IllegalState"),
            FlowError::OutOfMemory => None,
        }
    }
}

impl Refusal for DispositionError {
    fn name(&self) -> Option<&'static str> {
        None
    }
}

impl Refusal for LinkRelayError {
    fn name(&self) -> Option<&'static str> {
        match self {
            LinkRelayError::UnattachedHandle => Some("LinkRelayError::UnattachedHandle"),
            LinkRelayError::TransferFrameToSender => Some("LinkRelayError::TransferFrameToSender"),
            LinkRelayError::OutOfMemory => None,
        }
    }
}
