//! What an endpoint reads of an attach that arrives (2.7.3).
ghost use Rattle.std.specs.Prelude.{◌≡◌};

use amqp_link_types::types::unsettled_map::UnsettledMap;
use amqp_link_types::types::{
    Attach, DeliveryState, Fields, Handle, ReceiverSettleMode, SenderSettleMode, SequenceNo,
    Source, TargetArchetype,
};

/// The fields of an attach that an endpoint takes.
#[derive(Drop)]
pub struct IncomingAttach {
    /// The peer's handle.
    pub handle: Handle,
    /// When the sender settles.
    pub snd_settle_mode: SenderSettleMode,
    /// When the receiver settles.
    pub rcv_settle_mode: ReceiverSettleMode,
    /// The source.
    pub source: Option<Source>,
    /// The target.
    pub target: Option<TargetArchetype>,
    /// The peer's unsettled deliveries.
    pub unsettled: Option<UnsettledMap<Option<DeliveryState>>>,
    /// Whether the map does not state all of them.
    pub incomplete_unsettled: bool,
    /// The sender's initial delivery-count.
    pub initial_delivery_count: Option<SequenceNo>,
    /// The largest message in bytes.
    pub max_message_size: Option<u64>,
    /// Further properties of the link.
    pub properties: Option<Fields>,
}

/// What an endpoint reads of this attach. Does not allocate.
pub fn read(attach: Attach) -> IncomingAttach
    ensures handle { result.handle ≡ attach.handle }
    ensures snd_mode { result.snd_settle_mode ≡ attach.snd_settle_mode }
    ensures rcv_mode { result.rcv_settle_mode ≡ attach.rcv_settle_mode }
    ensures source { result.source ≡ attach.source }
    ensures target { result.target ≡ attach.target }
    ensures unsettled { result.unsettled ≡ attach.unsettled }
    ensures incomplete { result.incomplete_unsettled ≡ attach.incomplete_unsettled }
    ensures count { result.initial_delivery_count ≡ attach.initial_delivery_count }
    ensures limit { result.max_message_size ≡ attach.max_message_size }
    ensures properties { result.properties ≡ attach.properties }
{
    let Attach {
        name,
        handle,
        snd_settle_mode,
        rcv_settle_mode,
        source,
        target,
        unsettled,
        incomplete_unsettled,
        initial_delivery_count,
        max_message_size,
        offered_capabilities,
        desired_capabilities,
        properties,
        ..
    } = attach;
    drop((name, offered_capabilities, desired_capabilities));
    IncomingAttach {
        handle,
        snd_settle_mode,
        rcv_settle_mode,
        source,
        target,
        unsettled,
        incomplete_unsettled,
        initial_delivery_count,
        max_message_size,
        properties,
    }
}
