//! Questions about a delivery's states, before a sender resumes it (2.6.13, 3.4).
ghost use Rattle.std.specs.Prelude.{◌≡◌, false, IfOk};
ghost use Rattle.std.specs.Option.{option_map_or};
ghost use Rattle.amqp_link_core.specs.Resuming.{sender_report, rest_from, is_past, is_same_outcome};

use amqp_link_payloads::position::place_of;
use amqp_link_types::types::{DeliveryState, Payload};
use std::alloc::AllocError;

// Whether the state is terminal, or a front that ends after this offset in this section.
pub(crate) fn is_past(
    state: &Option<DeliveryState>,
    section_number: u32,
    section_offset: u64,
) -> bool
    ensures { result ≡ is_past (sender_report state.now) section_number section_offset }
{
    match state {
        Some(
            DeliveryState::Received {
                section_number: section,
                section_offset: offset,
            },
        ) => {
            section_number < *section || (section_number == *section && section_offset < *offset)
        }
        Some(_) => true,
        None => false,
    }
}

// Whether both states are terminal and of one kind. Their other fields are not compared.
pub(crate) fn has_ended_as(state: &Option<DeliveryState>, other: &DeliveryState) -> bool
    ensures { result ≡ option_map_or (λ own. is_same_outcome own other.now) state.now false }
{
    match state {
        Some(state) => is_same_outcome(state, other),
        None => false,
    }
}

fn is_same_outcome(state: &DeliveryState, other: &DeliveryState) -> bool
    ensures { result ≡ is_same_outcome state.now other.now }
{
    match state {
        DeliveryState::Accepted => matches!(other, DeliveryState::Accepted),
        DeliveryState::Rejected { .. } => matches!(other, DeliveryState::Rejected { .. }),
        DeliveryState::Released => matches!(other, DeliveryState::Released),
        DeliveryState::Modified { .. } => matches!(other, DeliveryState::Modified { .. }),
        DeliveryState::Received { .. } => false,
    }
}

// The bytes of the payload from that place on, or all of them if there is no such place.
pub(crate) fn rest_of(
    payload: &Payload,
    section_number: u32,
    section_offset: u64,
) -> Result<Payload, AllocError>
    ensures { IfOk result (λ rest. rest ≡ rest_from payload.now section_number section_offset) }
{
    match place_of(payload, section_number, section_offset) {
        Some(place) => payload.slice(place..),
        None => payload.clone(),
    }
}
