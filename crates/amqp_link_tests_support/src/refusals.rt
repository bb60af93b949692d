//! The kinds of an attach's errors and of what follows them, which tests compare in place of the values.
use amqp_link_endpoint::endpoint::failing::Action;
use amqp_link_types::frame::LinkFrame;
use amqp_link_types::types::{Detach, Error, ReceiverAttachError, SenderAttachError};

/// The kind of an error of an attach. `Other` stands for those that no test compares.
#[derive(Clone, Copy, Debug, PartialEq, Eq)]
pub enum Refusal {
    IllegalState,
    CoordinatorIsNotImplemented,
    IncomingTerminusIsNone,
    InitialDeliveryCountIsNone,
    SndSettleModeNotSupported,
    SourceAddress,
    TargetAddress,
    MissingFilters,
    AttachTooLarge,
    DuplicatedLinkName,
    Other,
}

/// The kind of an error of a sender's attach.
pub fn at_sender(error: &SenderAttachError) -> Refusal {
    match error {
        SenderAttachError::IllegalState => Refusal::IllegalState,
        SenderAttachError::CoordinatorIsNotImplemented => Refusal::CoordinatorIsNotImplemented,
        SenderAttachError::IncomingTargetIsNone => Refusal::IncomingTerminusIsNone,
        SenderAttachError::SndSettleModeNotSupported => Refusal::SndSettleModeNotSupported,
        SenderAttachError::SourceAddressIsSomeWhenDynamicIsTrue => Refusal::SourceAddress,
        SenderAttachError::TargetAddressIsNoneWhenDynamicIsTrue => Refusal::TargetAddress,
        SenderAttachError::AttachTooLarge => Refusal::AttachTooLarge,
        SenderAttachError::DuplicatedLinkName => Refusal::DuplicatedLinkName,
        _ => Refusal::Other,
    }
}

/// The kind of an error of a receiver's attach.
pub fn at_receiver(error: &ReceiverAttachError) -> Refusal {
    match error {
        ReceiverAttachError::IllegalState => Refusal::IllegalState,
        ReceiverAttachError::CoordinatorIsNotImplemented => Refusal::CoordinatorIsNotImplemented,
        ReceiverAttachError::IncomingSourceIsNone => Refusal::IncomingTerminusIsNone,
        ReceiverAttachError::InitialDeliveryCountIsNone => Refusal::InitialDeliveryCountIsNone,
        ReceiverAttachError::DesiredFilterNotSupported(_) => Refusal::MissingFilters,
        ReceiverAttachError::SourceAddressIsNoneWhenDynamicIsTrue => Refusal::SourceAddress,
        ReceiverAttachError::TargetAddressIsSomeWhenDynamicIsTrue => Refusal::TargetAddress,
        ReceiverAttachError::AttachTooLarge => Refusal::AttachTooLarge,
        ReceiverAttachError::DuplicatedLinkName => Refusal::DuplicatedLinkName,
        _ => Refusal::Other,
    }
}

/// The kind of an action. `Other` stands for one that is none of these.
#[derive(Clone, Copy, Debug, PartialEq, Eq)]
pub enum Asked {
    Nothing,
    Close,
    CloseAsNotImplemented,
    CloseAsInvalid,
    EndAsInUse,
    Other,
}

/// The kind of an action, by the texts of its error.
pub fn asked_by(action: &Action) -> Asked {
    match action {
        Action::Nothing => Asked::Nothing,
        Action::Detach(LinkFrame::Detach(detach)) if detach.closed => closed_with(detach),
        Action::EndSession(error) if is_in_use(error) => Asked::EndAsInUse,
        _ => Asked::Other,
    }
}

fn closed_with(detach: &Detach) -> Asked {
    let Some(error) = &detach.error else {
        return Asked::Close;
    };
    if error.description.is_some() || error.info.is_some() {
        return Asked::Other;
    }
    match error.condition.as_str() {
        "amqp:not-implemented" => Asked::CloseAsNotImplemented,
        "amqp:invalid-field" => Asked::CloseAsInvalid,
        _ => Asked::Other,
    }
}

fn is_in_use(error: &Error) -> bool {
    let Some(description) = &error.description else {
        return false;
    };
    error.condition.as_str() == "amqp:session:handle-in-use"
        && description.as_str() == "Link name is in use"
}
