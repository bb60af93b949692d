//! The attach performative (2.7.3).
ghost use Rattle.std.specs.Prelude.{◌≡◌, true, false, IfOk, OnErr};
ghost use Rattle.amqp_link_types.specs.Copies.{attach_carries_more};

use crate::types::definitions::{Handle, ReceiverSettleMode, Role, SenderSettleMode, SequenceNo};
use crate::types::delivery_state::DeliveryState;
use crate::types::terminus::{Source, TargetArchetype};
use crate::types::unsettled_map::UnsettledMap;
use amqp_link_values::copy::copies_of;
use amqp_link_values::fields::Fields;
use amqp_link_values::symbols::Symbols;
use amqp_link_values::text::Text;
use std::alloc::AllocError;

/// The attach performative (2.7.3): what an endpoint states of a link as it attaches.
#[derive(Debug, PartialEq, Eq, Drop)]
pub struct Attach {
    /// The name of the link, the same at both endpoints.
    pub name: Text,
    /// The handle that the endpoint which sends this gave the link.
    pub handle: Handle,
    /// The role of that endpoint.
    pub role: Role,
    /// When the sender settles.
    pub snd_settle_mode: SenderSettleMode,
    /// When the receiver settles.
    pub rcv_settle_mode: ReceiverSettleMode,
    /// The source: where the messages come from.
    pub source: Option<Source>,
    /// The target: where the messages go.
    pub target: Option<TargetArchetype>,
    /// The deliveries that the endpoint has not settled, with the state of each; null if none is known.
    pub unsettled: Option<UnsettledMap<Option<DeliveryState>>>,
    /// Whether the map does not have all of them.
    pub incomplete_unsettled: bool,
    /// The sender's delivery-count at the attach; a receiver states the one that it knows.
    pub initial_delivery_count: Option<SequenceNo>,
    /// The largest message in bytes; none and 0 are no limit.
    pub max_message_size: Option<u64>,
    /// The capabilities that the endpoint offers.
    pub offered_capabilities: Option<Symbols>,
    /// The capabilities that the endpoint would have the peer offer.
    pub desired_capabilities: Option<Symbols>,
    /// Further properties of the link.
    pub properties: Option<Fields>,
}

impl Clone for Attach {
    ghost is_clone = { λ attach copy. copy ≡ attach };

    ghost is_infallible = { λ attach. attach_carries_more attach ≡ false };

    fn clone(&self) -> Result<Attach, AllocError>
        ensures copy { IfOk result (λ copy. copy ≡ self.now) }
        ensures memory { OnErr result (attach_carries_more self.now ≡ true) }
    {
        let name = self.name.clone()?;
        let (offered_capabilities, desired_capabilities) = copies_of(
            &self.offered_capabilities,
            &self.desired_capabilities,
        )?;
        let (unsettled, properties) = copies_of(&self.unsettled, &self.properties)?;
        let (source, target) = copies_of(&self.source, &self.target)?;
        Ok(Attach {
            name,
            handle: self.handle,
            role: self.role,
            snd_settle_mode: self.snd_settle_mode,
            rcv_settle_mode: self.rcv_settle_mode,
            source,
            target,
            unsettled,
            incomplete_unsettled: self.incomplete_unsettled,
            initial_delivery_count: self.initial_delivery_count,
            max_message_size: self.max_message_size,
            offered_capabilities,
            desired_capabilities,
            properties,
        })
    }
}
