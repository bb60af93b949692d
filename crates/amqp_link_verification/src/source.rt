//! The source of the peer's attach (3.5.3).
ghost use Rattle.std.specs.Prelude.{◌≡◌, ◌⊎◌, List, ℕ, Option, Some, None, MatchResult, IsErrOf};
ghost use Rattle.amqp_link_types.specs.declared.types.errors.SenderAttachError.{SenderAttachError as TheSenderAttachError};
ghost use Rattle.amqp_link_types.specs.declared.types.errors.ReceiverAttachError.{ReceiverAttachError as TheReceiverAttachError};
ghost use Rattle.amqp_link_verification.specs.Termini.{verdict};

use crate::filter::verify_filter;
use amqp_link_types::types::{ReceiverAttachError, SenderAttachError, Source};

/// A source that can be verified when it arrives in an attach.
pub trait VerifySource {
    // Why a sender with the first source refuses the second, its peer's.
    ghost refused_by_sender: { Self → Self → Option TheSenderAttachError };

    // Why a receiver with the first source refuses the second, its peer's.
    ghost refused_by_receiver: { Self → Self → Option TheReceiverAttachError };

    /// Whether a sender with this source accepts its peer's, `other`. Does not allocate.
    ///
    /// Refused in this order: `other` has an address, though the sender is to create the source; it has
    /// properties of a dynamic node, though it is not dynamic.
    fn verify_as_sender(&self, other: &Self) -> Result<(), SenderAttachError>
        ensures { result ≡ verdict (refused_by_sender self.now other.now) };

    /// Whether a receiver with this source accepts its peer's, `other`. Allocates only the list of the
    /// missing filters.
    ///
    /// Refused in this order: filters are missing; `other` has no address, though the sender has created the
    /// source; it has properties of a dynamic node, though it is not dynamic.
    fn verify_as_receiver(&self, other: &Self) -> Result<(), ReceiverAttachError>
        ensures refused { MatchResult result
            (λ _. refused_by_receiver self.now other.now ≡ None)
            (λ error. (error ≡ TheReceiverAttachError.OutOfMemory)
            ⊎ (refused_by_receiver self.now other.now ≡ Some error)) }
        ensures memory { IsErrOf result TheReceiverAttachError.OutOfMemory → (names : List (List ℕ))
            × (refused_by_receiver self.now other.now
            ≡ Some (TheReceiverAttachError.DesiredFilterNotSupported names)) };
}

impl VerifySource for Source {
    ghost use Rattle.amqp_link_verification.specs.Termini.{sender_refuses_source, receiver_refuses_source};

    ghost refused_by_sender = { λ own theirs. sender_refuses_source theirs };

    ghost refused_by_receiver = { receiver_refuses_source };

    fn verify_as_sender(&self, other: &Source) -> Result<(), SenderAttachError> {
        if other.dynamic && other.address.is_some() {
            return Err(SenderAttachError::SourceAddressIsSomeWhenDynamicIsTrue);
        }
        if !other.dynamic && other.dynamic_node_properties.is_some() {
            return Err(SenderAttachError::DynamicNodePropertiesIsSomeWhenDynamicIsFalse);
        }
        Ok(())
    }

    fn verify_as_receiver(&self, other: &Source) -> Result<(), ReceiverAttachError> {
        verify_filter(&self.filter, &other.filter)?;
        if other.dynamic && other.address.is_none() {
            return Err(ReceiverAttachError::SourceAddressIsNoneWhenDynamicIsTrue);
        }
        if !other.dynamic && other.dynamic_node_properties.is_some() {
            return Err(ReceiverAttachError::DynamicNodePropertiesIsSomeWhenDynamicIsFalse);
        }
        Ok(())
    }
}
