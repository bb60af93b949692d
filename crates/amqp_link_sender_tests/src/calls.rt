//! Calls of a sender as functions without a contract, for tests that make several; those of either endpoint stand in
//! `amqp_link_tests_support`.
use crate::samples::{count_in, tag_of};
use amqp_link_endpoint::endpoint::LinkExt;
use amqp_link_sender::SenderLink;
use amqp_link_types::delivery::UnsettledMessage;
use amqp_link_types::types::{OutputHandle, Target};
use std::process::Abort;

type Sender = SenderLink<Target>;

// How many deliveries are pending.
pub(crate) fn pending_in(link: &Sender) -> usize {
    link.unsettled().len()
}

// The credit, the count, and how many deliveries are pending.
pub(crate) fn numbers_of(link: &Sender) -> (u32, u32, usize) {
    let flow = link.flow_state();
    (flow.link_credit(), flow.delivery_count(), pending_in(link))
}

pub(crate) fn handle_of(link: &Sender) -> Option<OutputHandle> {
    link.output_handle()
}

// Whether the delivery of this count is pending with this entry.
pub(crate) fn is_kept(
    rt: &(impl Abort + AllocGlobal),
    link: &Sender,
    count: u32,
    wanted: UnsettledMessage,
) -> bool {
    let tag = tag_of(rt, count);
    let is_kept = link
        .unsettled()
        .get(&tag)
        .is_some_and(|kept| *kept == wanted);
    drop((tag, wanted));
    is_kept
}

// The count of the delivery at this place of the map.
pub(crate) fn count_at(link: &Sender, place: usize) -> Option<u32> {
    let (tag, _) = link.unsettled().get_index(place)?;
    count_in(tag)
}

pub(crate) fn set_limit(link: &mut Sender, max_frame_size: u32) {
    link.set_max_frame_size(max_frame_size);
}

// The entry of the delivery of this count, if it was pending.
pub(crate) fn withdraw(
    rt: &(impl Abort + AllocGlobal),
    link: &mut Sender,
    count: u32,
) -> Option<UnsettledMessage> {
    let tag = tag_of(rt, count);
    let entry = link.withdraw(&tag);
    drop(tag);
    entry
}
