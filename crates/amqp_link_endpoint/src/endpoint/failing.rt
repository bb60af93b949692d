//! What to do after an attach has failed (2.6.3): close the link, end the session, or nothing.
ghost use Rattle.std.specs.Prelude.{◌≡◌, Bool, true, None, IfOk, OnErr, MatchOption, is_some};
ghost use Rattle.amqp_link_endpoint.specs.Failing.{condition_text, handle_in_use, error_sent, handled, state_after};
ghost use Rattle.amqp_link_endpoint.specs.Failing;
ghost use Rattle.amqp_link_endpoint.specs.declared.endpoint.failing.Remedy.{Remedy as TheRemedy};

use crate::endpoint::LinkDetach;
use crate::endpoint::table::after_sent_detach;
use amqp_link_state::state::LinkState;
use amqp_link_types::frame::LinkFrame;
use amqp_link_types::types::{
    Error, OutputHandle, ReceiverAttachError, SenderAttachError, Symbol, Text,
};
use std::alloc::{AllocError, Global};

/// What the caller of `handle_attach_error` has to do after an attach has failed.
#[derive(Debug, PartialEq, Eq, Drop)]
pub enum Action {
    /// Nothing.
    Nothing,
    /// Send this detach, which closes the link.
    Detach(LinkFrame),
    /// End the session with this error.
    EndSession(Error),
}

/// The condition of an error that an endpoint sends as it closes a link (2.8.15).
#[derive(Clone, Copy, Debug, PartialEq, Eq)]
pub enum Condition {
    /// What the peer's attach asks for is not implemented.
    NotImplemented,
    /// A field of the peer's attach is not valid.
    InvalidField,
}

/// What follows from an error of an attach.
#[derive(Clone, Copy, Debug, PartialEq, Eq)]
pub enum Remedy {
    /// Nothing.
    Nothing,
    /// Close the link, without an error or with an error of this condition.
    Close(Option<Condition>),
    /// End the session, since the name of the link is in use (2.5.4, 2.8.17).
    EndSession,
}

// The link is closed, since a field of the peer's attach is not valid, or since what the attach asks for is
// not implemented.
const INVALID: Remedy = Remedy::Close(Some(Condition::InvalidField));

const UNKNOWN: Remedy = Remedy::Close(Some(Condition::NotImplemented));

/// An error of an attach. Nothing here allocates.
pub trait AttachFailure: Drop {
    // Illegal state, an attach that is too large for a frame, and out of memory.
    ghost illegal_state: { Self };

    ghost too_large: { Self };

    ghost out_of_memory: { Self };

    // What follows from it.
    ghost remedy: { Self → TheRemedy };

    // Whether it carries a list: there may be no memory for that.
    ghost is_listing: { Self → Bool };

    /// The error of a call for which there is no transition.
    fn illegal_state() -> Self
        ensures { result ≡ illegal_state };

    /// The error of an attach that fits no frame.
    fn too_large() -> Self
        ensures { result ≡ too_large };

    /// The error of a call that is out of memory.
    fn out_of_memory() -> Self
        ensures { result ≡ out_of_memory };

    /// What follows from it.
    fn remedy(&self) -> Remedy
        ensures { result ≡ remedy self.now };

    // The three errors differ.
    ghost errors_differ: { (illegal_state ≡ too_large → ⊥) × (illegal_state ≡ out_of_memory → ⊥)
        × (too_large ≡ out_of_memory → ⊥) };
}

// What follows from an error of a sender's attach.
fn sender_remedy(error: &SenderAttachError) -> Remedy
    ensures { result ≡ Failing.sender_remedy error.now }
{
    match error {
        SenderAttachError::DuplicatedLinkName => Remedy::EndSession,
        SenderAttachError::SndSettleModeNotSupported | SenderAttachError::IncomingTargetIsNone => {
            Remedy::Close(None)
        }
        SenderAttachError::CoordinatorIsNotImplemented => UNKNOWN,
        SenderAttachError::SourceAddressIsSomeWhenDynamicIsTrue => INVALID,
        SenderAttachError::TargetAddressIsNoneWhenDynamicIsTrue => INVALID,
        SenderAttachError::DynamicNodePropertiesIsSomeWhenDynamicIsFalse => INVALID,
        _ => Remedy::Nothing,
    }
}

// What follows from an error of a receiver's attach.
fn receiver_remedy(error: &ReceiverAttachError) -> Remedy
    ensures { result ≡ Failing.receiver_remedy error.now }
{
    match error {
        ReceiverAttachError::DuplicatedLinkName => Remedy::EndSession,
        ReceiverAttachError::IncomingSourceIsNone => Remedy::Close(None),
        ReceiverAttachError::CoordinatorIsNotImplemented => UNKNOWN,
        ReceiverAttachError::InitialDeliveryCountIsNone => INVALID,
        ReceiverAttachError::SourceAddressIsNoneWhenDynamicIsTrue => INVALID,
        ReceiverAttachError::TargetAddressIsSomeWhenDynamicIsTrue => INVALID,
        ReceiverAttachError::DynamicNodePropertiesIsSomeWhenDynamicIsFalse => INVALID,
        _ => Remedy::Nothing,
    }
}

impl AttachFailure for SenderAttachError {
    ghost use Rattle.amqp_link_types.specs.declared.types.errors.SenderAttachError.TheVariants.{IllegalState, AttachTooLarge, OutOfMemory};
    ghost use Rattle.std.specs.Prelude.{false};
    ghost use Rattle.amqp_link_endpoint.specs.Failing.{sender_remedy};

    ghost illegal_state = { IllegalState };

    ghost too_large = { AttachTooLarge };

    ghost out_of_memory = { OutOfMemory };

    ghost remedy = { sender_remedy };

    ghost is_listing = { λ error. false };

    ghost errors_differ = { ((λ h. Prim.cc), (λ h. Prim.cc), (λ h. Prim.cc)) };

    fn illegal_state() -> SenderAttachError {
        SenderAttachError::IllegalState
    }

    fn too_large() -> SenderAttachError {
        SenderAttachError::AttachTooLarge
    }

    fn out_of_memory() -> SenderAttachError {
        SenderAttachError::OutOfMemory
    }

    fn remedy(&self) -> Remedy {
        sender_remedy(self)
    }
}

impl AttachFailure for ReceiverAttachError {
    ghost use Rattle.amqp_link_types.specs.declared.types.errors.ReceiverAttachError.TheVariants.{IllegalState, AttachTooLarge, OutOfMemory};
    ghost use Rattle.amqp_link_endpoint.specs.Failing.{is_listing, receiver_remedy};

    ghost illegal_state = { IllegalState };

    ghost too_large = { AttachTooLarge };

    ghost out_of_memory = { OutOfMemory };

    ghost remedy = { receiver_remedy };

    ghost is_listing = { is_listing };

    ghost errors_differ = { ((λ h. Prim.cc), (λ h. Prim.cc), (λ h. Prim.cc)) };

    fn illegal_state() -> ReceiverAttachError {
        ReceiverAttachError::IllegalState
    }

    fn too_large() -> ReceiverAttachError {
        ReceiverAttachError::AttachTooLarge
    }

    fn out_of_memory() -> ReceiverAttachError {
        ReceiverAttachError::OutOfMemory
    }

    fn remedy(&self) -> Remedy {
        receiver_remedy(self)
    }
}

/// The error to send for a remedy in this state and with this output handle: none if the link is to be closed
/// and cannot be. Allocates only the text of the error.
pub fn error_to_send(
    alloc: Global,
    remedy: Remedy,
    state: LinkState,
    handle: Option<OutputHandle>,
) -> Result<Option<Error>, AllocError>
    ensures error { IfOk result (λ error. error ≡ error_sent remedy state handle) }
    ensures memory { OnErr result (is_some (error_sent remedy state handle) ≡ true) }
{
    match remedy {
        Remedy::Close(Some(condition)) if can_close(state, handle) => Ok(Some(Error {
            condition: symbol(alloc, text_of(condition))?,
            description: None,
            info: None,
        })),
        Remedy::EndSession => Ok(Some(error_in_use(alloc)?)),
        _ => Ok(None),
    }
}

// Whether a closing detach can be sent in this state and with this output handle.
fn can_close(state: LinkState, handle: Option<OutputHandle>) -> bool
    ensures { result ≡ Failing.can_close state handle }
{
    after_sent_detach(state, true).is_some() && handle.is_some()
}

fn text_of(condition: Condition) -> &'static str
    ensures { result.now ≡ condition_text condition }
{
    match condition {
        Condition::NotImplemented => "amqp:not-implemented",
        Condition::InvalidField => "amqp:invalid-field",
    }
}

// The error with which a session ends because the name of a link is in use.
fn error_in_use(alloc: Global) -> Result<Error, AllocError>
    ensures { IfOk result (λ error. error ≡ handle_in_use) }
{
    let condition = symbol(alloc, "amqp:session:handle-in-use")?;
    let description = Text::from(String::from_str(alloc, "Link name is in use")?);
    Ok(Error {
        condition,
        description: Some(description),
        info: None,
    })
}

fn symbol(alloc: Global, text: &str) -> Result<Symbol, AllocError>
    ensures { IfOk result (λ symbol. symbol ≡ text.now) }
{
    Ok(Symbol::from(String::from_str(alloc, text)?))
}

// Carries a remedy out, with the error to send for it: this is what `handle_attach_error` of a link returns and
// leaves.
pub(crate) fn carry_out<L: LinkDetach, E: AttachFailure>(
    link: &mut L,
    error: E,
    remedy: Remedy,
    sent: Option<Error>,
) -> (E, Action)
    requires { sent ≡ error_sent remedy (L.shown link.old).local_state (L.shown link.old).output_handle }
    ensures answer { result ≡ handled error E.illegal_state remedy (L.shown link.old).local_state (L.shown link.old).output_handle }
    ensures after { MatchOption (state_after remedy (L.shown link.old).local_state)
        (link.new ≡ link.old)
        (λ next. link.new ≡ L.moved link.old next None) }
{
    match (remedy, sent) {
        (Remedy::EndSession, Some(reason)) => (error, Action::EndSession(reason)),
        (Remedy::Close(_), sent) => match link.send_detach(true, sent) {
            Ok(frame) => (error, Action::Detach(frame)),
            Err(_) => (E::illegal_state(), Action::Nothing),
        },
        _ => (error, Action::Nothing),
    }
}
