//! Dispositions as C has them (2.7.6).
ghost use Rattle.std.specs.Prelude.{◌≡◌};
ghost use Rattle.amqp_link_flat.specs.Flat.{plain_disposition};

use crate::delivery_state::DeliveryStateFields;
use crate::numbers::number_of_role;
use amqp_link_types::types::Disposition as LinkDisposition;

/// A disposition. The texts of a rejection's error go beside it.
#[repr(C)]
#[derive(Drop)]
pub struct Disposition {
    /// The state of the deliveries.
    pub state: DeliveryStateFields,
    /// The role of the endpoint that sends it: `AMQP_ROLE_SENDER` or `AMQP_ROLE_RECEIVER`.
    pub role: u32,
    /// The delivery-id of the first delivery.
    pub first: u32,
    /// The delivery-id of the last delivery; the first one's, if `has_last` is not set.
    pub last: u32,
    /// Whether `last` is there.
    pub has_last: bool,
    /// Whether the deliveries are settled at this endpoint.
    pub settled: bool,
    /// Whether the peer may delay its own disposition.
    pub batchable: bool,
}

impl Disposition {
    /// The disposition for C.
    pub fn of(disposition: &LinkDisposition) -> Disposition
        ensures { result ≡ plain_disposition disposition.now }
    {
        Disposition {
            state: DeliveryStateFields::of(&disposition.state),
            role: number_of_role(disposition.role),
            first: disposition.first,
            last: disposition.last.unwrap_or(disposition.first),
            has_last: disposition.last.is_some(),
            settled: disposition.settled,
            batchable: disposition.batchable,
        }
    }
}
