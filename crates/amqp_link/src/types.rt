//! The performatives of a link, and all that they carry.

pub use amqp_link_types::types::{
    Attach, Boxed, DataBody, DeliveryNumber, DeliveryState, DeliveryTag, Descriptor, Detach,
    Disposition, DistributionMode, Error, Fields, FilterSet, FromBody, Handle, InputHandle,
    KeepsState, LinkFlow, Message, MessageFormat, Outcome, OutputHandle, Payload,
    ReceiverSettleMode, Role, SenderSettleMode, SequenceNo, Source, Symbol, Symbols, Target,
    TargetArchetype, TerminusDurability, TerminusExpiryPolicy, Text, Transfer, UnsettledMap, Value,
    Whole,
};
pub use amqp_link_values::length::EncodedLen;
