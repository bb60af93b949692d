//! The target of the peer's attach (3.5.4).
ghost use Rattle.std.specs.Prelude.{◌≡◌, Bool, Option, IsErrOf};
ghost use Rattle.amqp_link_types.specs.declared.types.errors.SenderAttachError.{SenderAttachError as TheSenderAttachError};
ghost use Rattle.amqp_link_types.specs.declared.types.errors.ReceiverAttachError.{ReceiverAttachError as TheReceiverAttachError};
ghost use Rattle.amqp_link_verification.specs.Termini.{verdict};

use amqp_link_types::types::{
    ReceiverAttachError, SenderAttachError, Target, TargetArchetype, terminus,
};

/// A target that can be verified when it arrives in an attach. Nothing here allocates.
pub trait VerifyTargetArchetype {
    // Why a sender with the first target refuses the second, its peer's.
    ghost refused_by_sender: { Self → Self → Option TheSenderAttachError };

    // Why a receiver with the first target refuses the second, its peer's.
    ghost refused_by_receiver: { Self → Self → Option TheReceiverAttachError };

    /// Whether a sender with this target accepts its peer's, `other`.
    ///
    /// A plain target is refused in this order: it has no address, though the receiver has created it; it has
    /// properties of a dynamic node, though it is not dynamic.
    fn verify_as_sender(&self, other: &Self) -> Result<(), SenderAttachError>
        ensures refused { result ≡ verdict (refused_by_sender self.now other.now) }
        ensures memory { IsErrOf result TheSenderAttachError.OutOfMemory → ⊥ };

    /// Whether a receiver with this target accepts its peer's, `other`.
    ///
    /// A plain target is refused in this order: it has an address, though the receiver is to create it; it
    /// has properties of a dynamic node, though it is not dynamic.
    fn verify_as_receiver(&self, other: &Self) -> Result<(), ReceiverAttachError>
        ensures refused { result ≡ verdict (refused_by_receiver self.now other.now) }
        ensures memory { IsErrOf result TheReceiverAttachError.OutOfMemory → ⊥ };
}

/// A target that can be asked for its kind. Nothing here allocates.
pub trait VariantOfTargetArchetype {
    // Whether it is a coordinator of transactions.
    ghost coordinates: { Self → Bool };

    /// Whether it is a coordinator of transactions. No target here is one.
    fn is_coordinator(&self) -> bool
        ensures { result ≡ coordinates self.now };
}

impl VerifyTargetArchetype for Target {
    ghost use Rattle.amqp_link_verification.specs.Termini.{sender_refuses_target, receiver_refuses_target};

    ghost refused_by_sender = { λ own theirs. sender_refuses_target theirs };

    ghost refused_by_receiver = { λ own theirs. receiver_refuses_target theirs };

    fn verify_as_sender(&self, other: &Target) -> Result<(), SenderAttachError> {
        if other.dynamic && other.address.is_none() {
            return Err(SenderAttachError::TargetAddressIsNoneWhenDynamicIsTrue);
        }
        if !other.dynamic && other.dynamic_node_properties.is_some() {
            return Err(SenderAttachError::DynamicNodePropertiesIsSomeWhenDynamicIsFalse);
        }
        Ok(())
    }

    fn verify_as_receiver(&self, other: &Target) -> Result<(), ReceiverAttachError> {
        if other.dynamic && other.address.is_some() {
            return Err(ReceiverAttachError::TargetAddressIsSomeWhenDynamicIsTrue);
        }
        if !other.dynamic && other.dynamic_node_properties.is_some() {
            return Err(ReceiverAttachError::DynamicNodePropertiesIsSomeWhenDynamicIsFalse);
        }
        Ok(())
    }
}

impl VerifyTargetArchetype for TargetArchetype {
    ghost use Rattle.amqp_link_verification.specs.Termini.{sender_refuses_archetype, receiver_refuses_archetype};

    ghost refused_by_sender = { λ own theirs. sender_refuses_archetype theirs };

    ghost refused_by_receiver = { λ own theirs. receiver_refuses_archetype theirs };

    fn verify_as_sender(&self, other: &TargetArchetype) -> Result<(), SenderAttachError> {
        let TargetArchetype::Target(own) = self;
        let TargetArchetype::Target(theirs) = other;
        own.verify_as_sender(theirs)
    }

    fn verify_as_receiver(&self, other: &TargetArchetype) -> Result<(), ReceiverAttachError> {
        let TargetArchetype::Target(own) = self;
        let TargetArchetype::Target(theirs) = other;
        own.verify_as_receiver(theirs)
    }
}

impl VariantOfTargetArchetype for Target {
    ghost use Rattle.std.specs.Prelude.{false};

    ghost coordinates = { λ target. false };

    fn is_coordinator(&self) -> bool {
        false
    }
}

impl VariantOfTargetArchetype for terminus::TargetArchetype {
    ghost use Rattle.std.specs.Prelude.{false};

    ghost coordinates = { λ archetype. false };

    fn is_coordinator(&self) -> bool {
        match self {
            TargetArchetype::Target(target) => target.is_coordinator(),
        }
    }
}
