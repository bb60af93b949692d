//! The two roles of a link endpoint as types (2.8.1).
ghost use Rattle.std.specs.Prelude.{◌≡◌};

use amqp_link_types::types::Role;

/// Marks what belongs to a sender.
#[derive(Clone, Copy, Debug, PartialEq, Eq)]
pub struct SenderMarker;

/// Marks what belongs to a receiver.
#[derive(Clone, Copy, Debug, PartialEq, Eq)]
pub struct ReceiverMarker;

/// A type that marks one of the two roles.
pub trait IntoRole {
    ghost use Rattle.amqp_link_types.specs.declared.types.definitions.Role.{Role as TheRole};

    // The role that is marked.
    ghost role: { TheRole };

    /// The role that is marked.
    fn into_role() -> Role
        ensures { result ≡ role };
}

impl IntoRole for SenderMarker {
    ghost use Rattle.amqp_link_types.specs.declared.types.definitions.Role.TheVariants.{Sender};

    ghost role = { Sender };

    fn into_role() -> Role {
        Role::Sender
    }
}

impl IntoRole for ReceiverMarker {
    ghost use Rattle.amqp_link_types.specs.declared.types.definitions.Role.TheVariants.{Receiver};

    ghost role = { Receiver };

    fn into_role() -> Role {
        Role::Receiver
    }
}
