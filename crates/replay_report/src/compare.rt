//! How what an endpoint has made differs from what is stated of it.
ghost use Rattle.std.specs.Prelude.{◌≡◌, ◌↔◌, IsNone, is_none};
ghost use Rattle.std.specs.List.{list_all};
ghost use Rattle.replay_report.specs.Comparing.{IsSameFlow, IsSameHandedOut, IsSameSent, limit_of};

use crate::answer::Difference;
use amqp_link_types::types::{
    Attach, DeliveryState, Detach, LinkFlow, Role, SequenceNo, UnsettledMap,
};
use frame_rows::row::{DisposedOne, HandedOut, Sent};

/// The word of the first pair that says no, if one does.
pub fn first_that_is_not(pairs: &[(&'static str, bool)]) -> Option<&'static str>
    ensures { is_none result ≡ list_all (λ pair. pair.1) pairs.now }
{
    for (word, is_so) in pairs {
        if !*is_so {
            return Some(*word);
        }
    }
    None
}

// The first of these fields that is not the same.
fn first_differing(fields: &[(&'static str, bool)]) -> Option<Difference>
    ensures { is_none result ≡ list_all (λ field. field.1) fields.now }
{
    first_that_is_not(fields).map(|name| Difference::Field(name))
}

/// Compares all fields of an attach, but for a receiver's delivery-count.
pub fn attach_difference(stated: &Attach, made: &Attach) -> Option<Difference> {
    if let Some(difference) = terms_difference(stated, made) {
        return Some(difference);
    }
    first_differing(&[
        ("unsettled", is_same_map(&stated.unsettled, &made.unsettled)),
        (
            "incomplete-unsettled",
            stated.incomplete_unsettled == made.incomplete_unsettled,
        ),
        ("initial-delivery-count", count_of(stated) == count_of(made)),
        (
            "max-message-size",
            limit_of_messages(stated) == limit_of_messages(made),
        ),
        (
            "offered-capabilities",
            stated.offered_capabilities == made.offered_capabilities,
        ),
        (
            "desired-capabilities",
            stated.desired_capabilities == made.desired_capabilities,
        ),
        ("properties", stated.properties == made.properties),
    ])
}

// Compares who attaches, to what and how.
fn terms_difference(stated: &Attach, made: &Attach) -> Option<Difference> {
    first_differing(&[
        ("name", stated.name == made.name),
        ("handle", stated.handle == made.handle),
        ("role", stated.role == made.role),
        (
            "snd-settle-mode",
            stated.snd_settle_mode == made.snd_settle_mode,
        ),
        (
            "rcv-settle-mode",
            stated.rcv_settle_mode == made.rcv_settle_mode,
        ),
        ("source", stated.source == made.source),
        ("target", stated.target == made.target),
    ])
}

// A map without entries states as little as none.
fn is_same_map(
    one: &Option<UnsettledMap<Option<DeliveryState>>>,
    other: &Option<UnsettledMap<Option<DeliveryState>>>,
) -> bool {
    one == other || (has_no_entries(one) && has_no_entries(other))
}

fn has_no_entries(map: &Option<UnsettledMap<Option<DeliveryState>>>) -> bool {
    match map {
        Some(map) => map.is_empty(),
        None => true,
    }
}

// The count that a sender states; a receiver's is not compared.
fn count_of(attach: &Attach) -> Option<SequenceNo> {
    match attach.role {
        Role::Sender => attach.initial_delivery_count,
        Role::Receiver => None,
    }
}

// A limit of 0 is none (2.7.3).
fn limit_of_messages(attach: &Attach) -> u64 {
    attach.max_message_size.unwrap_or(0)
}

/// Compares the handle, the drain flag and the limit of a flow.
pub fn flow_difference(stated: &LinkFlow, made: &LinkFlow) -> Option<Difference>
    ensures { IsNone result ↔ IsSameFlow stated.now made.now }
{
    let fields = [
        ("handle", stated.handle == made.handle),
        ("drain", stated.drain == made.drain),
    ];
    if let Some(difference) = first_differing(&fields) {
        return Some(difference);
    }
    limit_difference(limit_of(stated), limit_of(made))
}

// Up to which delivery-count the sender may send (2.6.7). It wraps.
fn limit_of(flow: &LinkFlow) -> u32
    ensures { result ≡ limit_of flow.now }
{
    let count = flow.delivery_count.unwrap_or(0);
    count.wrapping_add(flow.link_credit.unwrap_or(0))
}

fn limit_difference(stated: u32, seen: u32) -> Option<Difference>
    ensures { IsNone result ↔ (stated ≡ seen) }
{
    if stated == seen {
        return None;
    }
    Some(Difference::Limit { stated, seen })
}

/// Compares two numbers.
pub fn number_difference(stated: u64, seen: u64) -> Option<Difference>
    ensures { IsNone result ↔ (stated ≡ seen) }
{
    if stated == seen {
        return None;
    }
    Some(Difference::Number { stated, seen })
}

/// Compares all fields of a detach.
pub fn detach_difference(stated: &Detach, made: &Detach) -> Option<Difference> {
    first_differing(&[
        ("handle", stated.handle == made.handle),
        ("closed", stated.closed == made.closed),
        ("error", stated.error == made.error),
    ])
}

/// Compares a delivery that was sent.
pub fn sent_difference(stated: &Sent, made: &Sent) -> Option<Difference>
    ensures { IsNone result ↔ IsSameSent stated.now made.now }
{
    first_differing(&[
        ("tag", stated.tag == made.tag),
        ("settled", stated.settled == made.settled),
        ("message-format", stated.format == made.format),
        (
            "payload",
            stated.payload.as_slice() == made.payload.as_slice(),
        ),
    ])
}

/// Compares one delivery of a disposition. Without a state any is meant.
pub fn disposed_difference(stated: &DisposedOne, made: &DisposedOne) -> Option<Difference> {
    first_differing(&[
        ("settled", stated.settled == made.settled),
        (
            "state",
            stated.state.is_none() || stated.state == made.state,
        ),
    ])
}

/// Compares a delivery that was handed out.
pub fn handed_out_difference(stated: &HandedOut, made: &HandedOut) -> Option<Difference>
    ensures { IsNone result ↔ IsSameHandedOut stated.now made.now }
{
    first_differing(&[
        ("id", stated.id == made.id),
        ("tag", stated.tag == made.tag),
        ("settled", stated.settled == made.settled),
        (
            "payload",
            stated.payload.as_slice() == made.payload.as_slice(),
        ),
    ])
}
