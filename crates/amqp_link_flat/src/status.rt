//! What a call returns: 0, or why it was refused. There is one number for each reason that the layer has a name for.
ghost use Rattle.std.specs.Prelude.{◌≡◌, ◌≢◌, ◌↔◌, IfSome, IsSome};
ghost use Rattle.amqp_link_flat.specs.Refusing.{IsDetachRefusal};
ghost use Rattle.amqp_link_flat.specs.Statuses.{apply_detach_status, detach_status, link_status};
ghost use Rattle.amqp_link_flat.specs.Statuses.{receiver_attach_status, relay_status, sender_attach_status};
ghost use Rattle.amqp_link_flat.specs.Statuses.{transfer_status, IsReceiverRefusal, IsSenderRefusal};

use amqp_link_types::types::{
    ApplyRemoteDetachError, DetachError, LinkRelayError, LinkStateError, ReceiverAttachError,
    ReceiverTransferError, SenderAttachError,
};

/// 0, or why a call was refused.
pub type Status = u32;

/// The call is done.
pub const OK: u32 = 0;
/// There is nothing in an object that the call takes a value from.
pub const EMPTY: u32 = 1;
/// An object has a value of another kind.
pub const WRONG_KIND: u32 = 2;
/// Out of memory. Nothing has changed: the same call can be made again.
pub const OUT_OF_MEMORY: u32 = 3;
/// Bytes that are to be a text are no UTF-8.
pub const NO_TEXT: u32 = 4;
/// A number is none of those that stand for a mode, a kind or a role.
pub const NO_SUCH_NUMBER: u32 = 5;
/// A buffer of the caller's is too small. The size that is needed was written.
pub const BUFFER_TOO_SMALL: u32 = 6;
/// A list has no entry of that number, or a frame or an entry is of another kind or has no error; an object without frames or
/// outcomes has none.
pub const NO_SUCH_ENTRY: u32 = 7;
/// The link is not in a state for this call, or a handle or a tag is missing.
pub const ILLEGAL_STATE: u32 = 10;
/// The receiver has granted no more credit: send after its next flow.
pub const CREDIT_MISSING: u32 = 11;
/// A delivery with this tag is pending.
pub const TAG_PENDING: u32 = 12;
/// The frame limit leaves no room for the transfer.
pub const NO_ROOM: u32 = 13;
/// The peer has detached the link.
pub const REMOTE_DETACHED: u32 = 14;
/// The peer has detached the link with an error.
pub const REMOTE_DETACHED_WITH_ERROR: u32 = 15;
/// The peer has closed the link.
pub const REMOTE_CLOSED: u32 = 16;
/// The peer has closed the link with an error.
pub const REMOTE_CLOSED_WITH_ERROR: u32 = 17;
/// Another frame arrived where only a detach may, or the session has stopped without a reason.
pub const EXPECT_IMMEDIATE_DETACH: u32 = 18;
/// The session has stopped.
pub const SESSION_STOPPED: u32 = 19;
/// The session is not mapped.
pub const SESSION_NOT_MAPPED: u32 = 20;
/// Another frame arrived in place of the attach.
pub const NON_ATTACH_FRAME_RECEIVED: u32 = 21;
/// Another link of the session has the same name.
pub const DUPLICATED_LINK_NAME: u32 = 22;
/// The target is of a kind that the link does not take.
pub const COORDINATOR_IS_NOT_IMPLEMENTED: u32 = 23;
/// The peer has no target.
pub const INCOMING_TARGET_IS_NONE: u32 = 24;
/// The two endpoints do not agree on when the sender settles.
pub const SND_SETTLE_MODE_NOT_SUPPORTED: u32 = 25;
/// The peer asks for a dynamic source and gives its address.
pub const SOURCE_ADDRESS_IS_SOME_WHEN_DYNAMIC_IS_TRUE: u32 = 26;
/// The peer has made a dynamic target and does not give its address.
pub const TARGET_ADDRESS_IS_NONE_WHEN_DYNAMIC_IS_TRUE: u32 = 27;
/// A terminus that is not dynamic has properties of a dynamic node.
pub const DYNAMIC_NODE_PROPERTIES_IS_SOME_WHEN_DYNAMIC_IS_FALSE: u32 = 28;
/// The attach is larger than a frame, even if it states no unsettled delivery.
pub const ATTACH_TOO_LARGE: u32 = 29;
/// The peer has no source.
pub const INCOMING_SOURCE_IS_NONE: u32 = 30;
/// The sender does not state its initial delivery-count.
pub const INITIAL_DELIVERY_COUNT_IS_NONE: u32 = 31;
/// Filters that were asked for are not in place.
pub const DESIRED_FILTER_NOT_SUPPORTED: u32 = 32;
/// The peer has made a dynamic source and does not give its address.
pub const SOURCE_ADDRESS_IS_NONE_WHEN_DYNAMIC_IS_TRUE: u32 = 33;
/// The peer asks for a dynamic target and gives its address.
pub const TARGET_ADDRESS_IS_SOME_WHEN_DYNAMIC_IS_TRUE: u32 = 34;
/// The link has no output handle: it is not attached.
pub const UNATTACHED_HANDLE: u32 = 35;
/// A transfer arrived at a sender.
pub const TRANSFER_FRAME_TO_SENDER: u32 = 36;
/// There is less link-credit than the delivery takes.
pub const TRANSFER_LIMIT_EXCEEDED: u32 = 37;
/// The first transfer of a delivery has no delivery id.
pub const DELIVERY_ID_IS_NONE: u32 = 38;
/// The first transfer of a delivery has no delivery tag.
pub const DELIVERY_TAG_IS_NONE: u32 = 39;
/// The transfer asks for a receiver settle mode that the link does not have.
pub const ILLEGAL_RCV_SETTLE_MODE_IN_TRANSFER: u32 = 40;
/// A field of the transfer is not that of its delivery.
pub const INCONSISTENT_FIELD_IN_MULTI_FRAME_DELIVERY: u32 = 41;
/// The payload is too long to be counted.
pub const PAYLOAD_TOO_LONG: u32 = 42;
/// The bytes of a delivery could not be decoded as a message.
pub const MESSAGE_DECODE: u32 = 43;
/// No delivery with this tag is kept, or it is settled.
pub const UNKNOWN_TAG: u32 = 44;
/// The last transfer of the delivery has not arrived.
pub const NOT_COMPLETE: u32 = 45;
/// The delivery was taken before.
pub const ALREADY_TAKEN: u32 = 46;
/// The link is not attached.
pub const NOT_ATTACHED: u32 = 47;
/// The delivery's bytes are no message of this kind. The delivery counts as taken: dispose of it, as rejected.
pub const UNDECODED: u32 = 48;
/// The delivery was not taken.
pub const NOT_TAKEN: u32 = 49;
/// The sender has not resumed the delivery since the link was attached again.
pub const NOT_RESUMED: u32 = 50;
/// A registration below that number is still pending.
pub const STILL_PENDING: u32 = 51;

/// The status of a refusal.
pub fn status_of_link(error: LinkStateError) -> u32
    ensures status { result ≡ link_status error }
    ensures refused { result ≢ 0 }
{
    let status = status_of_link_ref(&error);
    drop(error);
    status
}

/// The status of a refusal that stays.
pub fn status_of_link_ref(error: &LinkStateError) -> u32
    ensures status { result ≡ link_status error.now }
    ensures refused { result ≢ 0 }
{
    match error {
        LinkStateError::IllegalState => ILLEGAL_STATE,
        LinkStateError::RemoteDetached => REMOTE_DETACHED,
        LinkStateError::RemoteDetachedWithError(_) => REMOTE_DETACHED_WITH_ERROR,
        LinkStateError::RemoteClosed => REMOTE_CLOSED,
        LinkStateError::RemoteClosedWithError(_) => REMOTE_CLOSED_WITH_ERROR,
        LinkStateError::ExpectImmediateDetach => EXPECT_IMMEDIATE_DETACH,
        LinkStateError::SessionStopped(_) => SESSION_STOPPED,
        LinkStateError::TagPending => TAG_PENDING,
        LinkStateError::NoRoom => NO_ROOM,
        LinkStateError::OutOfMemory => OUT_OF_MEMORY,
    }
}

/// The status of a refusal.
pub fn status_of_detach(error: DetachError) -> u32
    ensures status { result ≡ detach_status error }
    ensures refused { result ≢ 0 }
    ensures detached { IsDetachRefusal result }
{
    match error {
        DetachError::IllegalState => ILLEGAL_STATE,
        DetachError::RemoteDetachedWithError(_) => REMOTE_DETACHED_WITH_ERROR,
        DetachError::RemoteClosedWithError(_) => REMOTE_CLOSED_WITH_ERROR,
    }
}

/// The status of a refusal.
pub fn status_of_remote_detach(error: ApplyRemoteDetachError) -> u32
    ensures status { result ≡ apply_detach_status error }
    ensures refused { result ≢ 0 }
    ensures detached { IsDetachRefusal result }
{
    match error {
        ApplyRemoteDetachError::IllegalState => ILLEGAL_STATE,
        ApplyRemoteDetachError::RemoteDetachedWithError(_) => REMOTE_DETACHED_WITH_ERROR,
        ApplyRemoteDetachError::RemoteClosedWithError(_) => REMOTE_CLOSED_WITH_ERROR,
    }
}

/// The status of a refusal.
pub fn status_of_relay(error: LinkRelayError) -> u32
    ensures status { result ≡ relay_status error }
    ensures refused { result ≢ 0 }
    ensures text { result ≢ 4 }
{
    match error {
        LinkRelayError::UnattachedHandle => UNATTACHED_HANDLE,
        LinkRelayError::TransferFrameToSender => TRANSFER_FRAME_TO_SENDER,
        LinkRelayError::OutOfMemory => OUT_OF_MEMORY,
    }
}

/// The status of a refusal.
pub fn status_of_sender_attach(error: SenderAttachError) -> u32
    ensures status { result ≡ sender_attach_status error }
    ensures refused { result ≢ 0 }
{
    match error {
        SenderAttachError::SessionStopped(_) => SESSION_STOPPED,
        SenderAttachError::SessionNotMapped => SESSION_NOT_MAPPED,
        SenderAttachError::IllegalState => ILLEGAL_STATE,
        SenderAttachError::NonAttachFrameReceived => NON_ATTACH_FRAME_RECEIVED,
        SenderAttachError::ExpectImmediateDetach => EXPECT_IMMEDIATE_DETACH,
        SenderAttachError::RemoteClosedWithError(_) => REMOTE_CLOSED_WITH_ERROR,
        SenderAttachError::DuplicatedLinkName => DUPLICATED_LINK_NAME,
        SenderAttachError::CoordinatorIsNotImplemented => COORDINATOR_IS_NOT_IMPLEMENTED,
        SenderAttachError::IncomingTargetIsNone => INCOMING_TARGET_IS_NONE,
        SenderAttachError::SndSettleModeNotSupported => SND_SETTLE_MODE_NOT_SUPPORTED,
        SenderAttachError::SourceAddressIsSomeWhenDynamicIsTrue => {
            SOURCE_ADDRESS_IS_SOME_WHEN_DYNAMIC_IS_TRUE
        }
        SenderAttachError::TargetAddressIsNoneWhenDynamicIsTrue => {
            TARGET_ADDRESS_IS_NONE_WHEN_DYNAMIC_IS_TRUE
        }
        SenderAttachError::DynamicNodePropertiesIsSomeWhenDynamicIsFalse => {
            DYNAMIC_NODE_PROPERTIES_IS_SOME_WHEN_DYNAMIC_IS_FALSE
        }
        SenderAttachError::AttachTooLarge => ATTACH_TOO_LARGE,
        SenderAttachError::OutOfMemory => OUT_OF_MEMORY,
    }
}

/// The status of a refusal.
pub fn status_of_receiver_attach(error: ReceiverAttachError) -> u32
    ensures status { result ≡ receiver_attach_status error }
    ensures refused { result ≢ 0 }
{
    match error {
        ReceiverAttachError::SessionStopped(_) => SESSION_STOPPED,
        ReceiverAttachError::IllegalState => ILLEGAL_STATE,
        ReceiverAttachError::NonAttachFrameReceived => NON_ATTACH_FRAME_RECEIVED,
        ReceiverAttachError::ExpectImmediateDetach => EXPECT_IMMEDIATE_DETACH,
        ReceiverAttachError::RemoteClosedWithError(_) => REMOTE_CLOSED_WITH_ERROR,
        ReceiverAttachError::DuplicatedLinkName => DUPLICATED_LINK_NAME,
        ReceiverAttachError::IncomingSourceIsNone => INCOMING_SOURCE_IS_NONE,
        ReceiverAttachError::InitialDeliveryCountIsNone => INITIAL_DELIVERY_COUNT_IS_NONE,
        ReceiverAttachError::CoordinatorIsNotImplemented => COORDINATOR_IS_NOT_IMPLEMENTED,
        ReceiverAttachError::DesiredFilterNotSupported(_) => DESIRED_FILTER_NOT_SUPPORTED,
        ReceiverAttachError::SourceAddressIsNoneWhenDynamicIsTrue => {
            SOURCE_ADDRESS_IS_NONE_WHEN_DYNAMIC_IS_TRUE
        }
        ReceiverAttachError::TargetAddressIsSomeWhenDynamicIsTrue => {
            TARGET_ADDRESS_IS_SOME_WHEN_DYNAMIC_IS_TRUE
        }
        ReceiverAttachError::DynamicNodePropertiesIsSomeWhenDynamicIsFalse => {
            DYNAMIC_NODE_PROPERTIES_IS_SOME_WHEN_DYNAMIC_IS_FALSE
        }
        ReceiverAttachError::AttachTooLarge => ATTACH_TOO_LARGE,
        ReceiverAttachError::OutOfMemory => OUT_OF_MEMORY,
    }
}

/// The status of a refusal.
pub fn status_of_transfer(error: ReceiverTransferError) -> u32
    ensures status { result ≡ transfer_status error }
    ensures refused { result ≢ 0 }
{
    match error {
        ReceiverTransferError::IllegalState => ILLEGAL_STATE,
        ReceiverTransferError::TransferLimitExceeded => TRANSFER_LIMIT_EXCEEDED,
        ReceiverTransferError::DeliveryIdIsNone => DELIVERY_ID_IS_NONE,
        ReceiverTransferError::DeliveryTagIsNone => DELIVERY_TAG_IS_NONE,
        ReceiverTransferError::IllegalRcvSettleModeInTransfer => {
            ILLEGAL_RCV_SETTLE_MODE_IN_TRANSFER
        }
        ReceiverTransferError::InconsistentFieldInMultiFrameDelivery => {
            INCONSISTENT_FIELD_IN_MULTI_FRAME_DELIVERY
        }
        ReceiverTransferError::PayloadTooLong => PAYLOAD_TOO_LONG,
        ReceiverTransferError::MessageDecode(_) => MESSAGE_DECODE,
        ReceiverTransferError::OutOfMemory => OUT_OF_MEMORY,
    }
}

/// The refusal of a sender's attach with this status, if something follows from it.
pub fn sender_attach_refusal(status: u32) -> Option<SenderAttachError>
    ensures refusal { IfSome result (λ error. sender_attach_status error ≡ status) }
    ensures some { IsSome result ↔ IsSenderRefusal status }
{
    if status == DUPLICATED_LINK_NAME {
        return Some(SenderAttachError::DuplicatedLinkName);
    }
    if status == COORDINATOR_IS_NOT_IMPLEMENTED {
        return Some(SenderAttachError::CoordinatorIsNotImplemented);
    }
    if status == INCOMING_TARGET_IS_NONE {
        return Some(SenderAttachError::IncomingTargetIsNone);
    }
    if status == SND_SETTLE_MODE_NOT_SUPPORTED {
        return Some(SenderAttachError::SndSettleModeNotSupported);
    }
    if status == SOURCE_ADDRESS_IS_SOME_WHEN_DYNAMIC_IS_TRUE {
        return Some(SenderAttachError::SourceAddressIsSomeWhenDynamicIsTrue);
    }
    if status == TARGET_ADDRESS_IS_NONE_WHEN_DYNAMIC_IS_TRUE {
        return Some(SenderAttachError::TargetAddressIsNoneWhenDynamicIsTrue);
    }
    if status == DYNAMIC_NODE_PROPERTIES_IS_SOME_WHEN_DYNAMIC_IS_FALSE {
        return Some(SenderAttachError::DynamicNodePropertiesIsSomeWhenDynamicIsFalse);
    }
    None
}

/// The refusal of a receiver's attach with this status, if something follows from it.
pub fn receiver_attach_refusal(status: u32) -> Option<ReceiverAttachError>
    ensures refusal { IfSome result (λ error. receiver_attach_status error ≡ status) }
    ensures some { IsSome result ↔ IsReceiverRefusal status }
{
    if status == DUPLICATED_LINK_NAME {
        return Some(ReceiverAttachError::DuplicatedLinkName);
    }
    if status == INCOMING_SOURCE_IS_NONE {
        return Some(ReceiverAttachError::IncomingSourceIsNone);
    }
    if status == COORDINATOR_IS_NOT_IMPLEMENTED {
        return Some(ReceiverAttachError::CoordinatorIsNotImplemented);
    }
    if status == INITIAL_DELIVERY_COUNT_IS_NONE {
        return Some(ReceiverAttachError::InitialDeliveryCountIsNone);
    }
    if status == SOURCE_ADDRESS_IS_NONE_WHEN_DYNAMIC_IS_TRUE {
        return Some(ReceiverAttachError::SourceAddressIsNoneWhenDynamicIsTrue);
    }
    if status == TARGET_ADDRESS_IS_SOME_WHEN_DYNAMIC_IS_TRUE {
        return Some(ReceiverAttachError::TargetAddressIsSomeWhenDynamicIsTrue);
    }
    if status == DYNAMIC_NODE_PROPERTIES_IS_SOME_WHEN_DYNAMIC_IS_FALSE {
        return Some(ReceiverAttachError::DynamicNodePropertiesIsSomeWhenDynamicIsFalse);
    }
    None
}
