//! The deliveries that an exchange returns to the user of the link.
ghost use Rattle.std.specs.Prelude.{◌≡◌, ◌==◌, length};

use amqp_link_core::resumption::ResumingDelivery;
use amqp_link_types::types::DeliveryTag;
use std::marker::Model;

/// The deliveries that an exchange returns to the user of the link, in order, each with its tag: to be
/// resumed, sent again or aborted, or their outcomes to be stated again.
///
/// A contract sees the list of the pairs.
#[derive(Debug, Drop)]
pub struct ResumingDeliveries {
    deliveries: Vec<(DeliveryTag, ResumingDelivery)>,
}

impl Model for ResumingDeliveries {
    ghost use Rattle.amqp_link_types.specs.Entries.{Entries};
    ghost use Rattle.amqp_link_core.specs.declared.resumption.ResumingDelivery.{ResumingDelivery as TheResumingDelivery};
    ghost use Rattle.amqp_link_values.specs.contracts.fields.Fields as fields;
    ghost use Rattle.std.specs.Coded.{codes};

    ghost Value = { Entries TheResumingDelivery };

    ghost coded = { Prim.hlevel (codes, fields.the_row.coded) };

    ghost view = { λ list. list.deliveries.items };
}

impl ResumingDeliveries {
    /// How many deliveries there are.
    pub fn len(&self) -> usize
        ensures { result ≡ length self.now }
    {
        self.deliveries.len()
    }

    /// Whether there are none.
    pub fn is_empty(&self) -> bool
        ensures { result ≡ (length self.now == 0) }
    {
        self.len() == 0
    }

    /// The deliveries in order.
    pub fn as_slice(&self) -> &[(DeliveryTag, ResumingDelivery)]
        ensures { result.now ≡ self.now }
    {
        self.deliveries.as_slice()
    }

    /// The list as a `Vec`. Does not allocate.
    pub fn into_vec(self) -> Vec<(DeliveryTag, ResumingDelivery)>
        ensures { result.items ≡ self }
    {
        self.deliveries
    }
}

impl From<Vec<(DeliveryTag, ResumingDelivery)>> for ResumingDeliveries {
    ghost from_gives = { λ list deliveries. deliveries ≡ list.items };

    fn from(deliveries: Vec<(DeliveryTag, ResumingDelivery)>) -> ResumingDeliveries {
        ResumingDeliveries { deliveries }
    }
}
