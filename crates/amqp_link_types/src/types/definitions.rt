//! The small types of the definitions section (2.8).
ghost use Rattle.std.specs.Prelude.{◌≡◌, true, false, IfOk, OnErr};
ghost use Rattle.amqp_link_types.specs.Copies.{error_carries_more};

use amqp_link_values::copy::copy_of;
use amqp_link_values::fields::Fields;
use amqp_link_values::symbol::Symbol;
use amqp_link_values::text::Text;
use std::alloc::AllocError;

/// The delivery-id that a session gives a delivery (2.8.8). It wraps.
pub type DeliveryNumber = u32;

/// A serial number, such as a delivery-count (2.8.10). It wraps.
pub type SequenceNo = u32;

/// The format of a message (2.8.11); 0 is that of the standard.
pub type MessageFormat = u32;

/// The role of a link endpoint (2.8.1).
#[derive(Clone, Copy, Debug, PartialEq, Eq, Hash)]
pub enum Role {
    /// The endpoint that sends, `false` on the wire.
    Sender,
    /// The endpoint that receives, `true` on the wire.
    Receiver,
}

/// When the sender settles its deliveries (2.8.2).
#[derive(Clone, Copy, Debug, Default, PartialEq, Eq, Hash)]
pub enum SenderSettleMode {
    /// It sends all deliveries unsettled.
    Unsettled,
    /// It sends all deliveries settled.
    Settled,
    /// Each transfer states whether it is settled.
    #[default]
    Mixed,
}

/// When the receiver settles its deliveries (2.8.3).
#[derive(Clone, Copy, Debug, Default, PartialEq, Eq, Hash)]
pub enum ReceiverSettleMode {
    /// As deliveries arrive, by itself.
    #[default]
    First,
    /// After the sender has settled.
    Second,
}

/// The number by which a frame names a link (2.8.4).
#[derive(Clone, Copy, Debug, Default, PartialEq, Eq, Hash)]
pub struct Handle(pub u32);

/// The handle that this endpoint gave a link: frames that are sent carry it.
#[derive(Clone, Copy, Debug, Default, PartialEq, Eq, Hash)]
pub struct OutputHandle(pub u32);

/// The handle that the peer gave a link: frames that arrive carry it.
#[derive(Clone, Copy, Debug, Default, PartialEq, Eq, Hash)]
pub struct InputHandle(pub u32);

impl From<OutputHandle> for Handle {
    ghost from_gives = { λ own handle. handle ≡ record { 0 = own.0 } };

    fn from(own: OutputHandle) -> Handle {
        Handle(own.0)
    }
}

impl From<InputHandle> for Handle {
    ghost from_gives = { λ remote handle. handle ≡ record { 0 = remote.0 } };

    fn from(remote: InputHandle) -> Handle {
        Handle(remote.0)
    }
}

impl From<Handle> for OutputHandle {
    ghost from_gives = { λ handle own. own ≡ record { 0 = handle.0 } };

    fn from(handle: Handle) -> OutputHandle {
        OutputHandle(handle.0)
    }
}

impl From<Handle> for InputHandle {
    ghost from_gives = { λ handle remote. remote ≡ record { 0 = handle.0 } };

    fn from(handle: Handle) -> InputHandle {
        InputHandle(handle.0)
    }
}

/// What an endpoint states of an error (2.8.14).
#[derive(Debug, PartialEq, Eq, Drop)]
pub struct Error {
    /// The condition, such as `amqp:invalid-field`.
    pub condition: Symbol,
    /// A text for people.
    pub description: Option<Text>,
    /// Further information.
    pub info: Option<Fields>,
}

impl Clone for Error {
    ghost is_clone = { λ error copy. copy ≡ error };

    ghost is_infallible = { λ error. error_carries_more error ≡ false };

    fn clone(&self) -> Result<Error, AllocError>
        ensures copy { IfOk result (λ copy. copy ≡ self.now) }
        ensures memory { OnErr result (error_carries_more self.now ≡ true) }
    {
        Ok(Error {
            condition: self.condition.clone()?,
            description: copy_of(&self.description)?,
            info: copy_of(&self.info)?,
        })
    }
}
