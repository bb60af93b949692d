//! The attach of a peer.
use amqp_link::DeliveryState;
use amqp_link::types::{
    Attach, Handle, ReceiverSettleMode, Role, SenderSettleMode, Source, Target, TargetArchetype,
    Text, UnsettledMap,
};

/// An attach at handle 0 with an empty source and an empty target, which states these deliveries and, from a sender, how many it
/// has begun.
pub fn attach_of(
    name: Text,
    role: Role,
    count: Option<u32>,
    unsettled: UnsettledMap<Option<DeliveryState>>,
) -> Attach {
    Attach {
        name,
        handle: Handle(0),
        role,
        snd_settle_mode: SenderSettleMode::Mixed,
        rcv_settle_mode: ReceiverSettleMode::First,
        source: Some(Source::default()),
        target: Some(TargetArchetype::from(Target::default())),
        unsettled: Some(unsettled),
        incomplete_unsettled: false,
        initial_delivery_count: count,
        max_message_size: None,
        offered_capabilities: None,
        desired_capabilities: None,
        properties: None,
    }
}
