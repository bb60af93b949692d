//! The types that performatives are made of (2.6.13, 2.7, 2.8, 3.4 and 3.5).
//!
//! A type that holds a buffer or a map has a model of plain data: contracts see a tag as its bytes
//! and a map as its pairs, so `≡` on every struct and enum above them is the equality that a reader
//! means, and a copy is equal to its original.
pub mod attach;
pub mod definitions;
pub mod delivery_state;
pub mod errors;
pub mod performatives;
pub mod stop_reason;
pub mod terminus;
pub mod transfer;
pub mod unsettled_map;

pub use amqp_link_payloads::{DataBody, DecodeError, FromBody, Message, Payload, Whole};
pub use amqp_link_values::{
    Boxed, DeliveryTag, Descriptor, Fields, FilterSet, Symbol, Symbols, Text, Value,
};
pub use attach::Attach;
pub use definitions::{
    DeliveryNumber, Error, Handle, InputHandle, MessageFormat, OutputHandle, ReceiverSettleMode,
    Role, SenderSettleMode, SequenceNo,
};
pub use delivery_state::{DeliveryState, Outcome, has_ended};
pub use errors::{
    ApplyRemoteDetachError, DetachError, DispositionError, FlowError, LinkRelayError,
    LinkStateError, MessageDecodeError, ReceiverAttachError, ReceiverTransferError,
    SenderAttachError,
};
pub use performatives::{Detach, Disposition, LinkFlow};
pub use stop_reason::{ConnectionStopReason, SessionStopReason};
pub use terminus::{
    DistributionMode, Source, Target, TargetArchetype, TerminusDurability, TerminusExpiryPolicy,
};
pub use transfer::Transfer;
pub use unsettled_map::{KeepsState, UnsettledMap};
